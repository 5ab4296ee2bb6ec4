//! The vector of the port: a `Vec` that returns errors instead of aborting, on the block of
//! `aa_raw`.
#![tactic(auto)]

pub mod vec;
