//! The base of the library: the allocator interface, the errors, and `RawVec`, a block of places
//! over an allocator.
//!
//! Only the modules `row`, `size` and `counter` access memory through pointers, read the size of a
//! type, or define a ghost counter.
#![tactic(auto)]

pub mod alloc;
pub mod collections;
pub mod counter;
pub mod raw_box;
pub mod raw_vec;
mod row;
pub mod size;
pub mod vec;
