//! Recursive types over the library's boxes and vectors: a test, and no part of the library.
#![tactic(auto)]

pub mod derived;
pub mod forms;
pub mod list;
pub mod search;
pub mod tree;
