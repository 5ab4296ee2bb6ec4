//! A small vector over any allocator: it stores its first items inline, and more of them in a
//! block.
#![tactic(auto)]

pub mod drain;
mod few;
pub mod inline;
pub mod iter;
