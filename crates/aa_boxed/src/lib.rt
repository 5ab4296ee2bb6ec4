//! The boxes of the port: `Box`, `BoxedSlice` and `BoxedText`, built on the block of `aa_raw`.
#![tactic(auto)]

pub mod boxed;
pub mod slices;
