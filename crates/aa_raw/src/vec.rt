//! The iterator that a vector of allocator-api2 is turned into. The vector itself is defined above
//! this crate, in `aa_vec`.
mod clones;
pub mod into_iter;
