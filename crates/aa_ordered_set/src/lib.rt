//! An ordered set over any allocator: an ordered map whose keys have no values.
#![tactic(auto)]

pub mod algebra;
pub mod compare;
pub mod extend;
pub mod operators;
mod peeked;
pub mod range;
pub mod set;
pub mod traits;
