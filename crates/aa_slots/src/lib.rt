//! A slot map over any allocator: a map that issues a key for each value inserted.
//!
//! It is built on the library's vector.
#![tactic(auto)]

mod blocks;
pub mod cursor;
pub mod into_iter;
pub mod iter;
pub mod iter_mut;
pub mod key;
pub mod map;
mod slots;
