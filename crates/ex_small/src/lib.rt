//! Users of the library, each with the contract that its own users would want.
#![tactic(auto)]

pub mod arena;
pub mod editor;
pub mod fixed;
pub mod records;
pub mod text;
