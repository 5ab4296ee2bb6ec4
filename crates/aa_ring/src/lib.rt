//! `Ring`, a double-ended queue over any allocator, built on the block of the library.
#![tactic(auto)]

pub mod drain;
pub mod iter;
pub mod laws;
pub mod ring;
