//! `Heap`, a priority queue over any allocator, built on the vector of the library.
#![tactic(auto)]

pub mod drain;
pub mod heap;
mod order;
pub mod peek;
mod sift;
