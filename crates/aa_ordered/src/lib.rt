//! An ordered map over any allocator.
//!
//! Its entries are in leaves of one block: lists of at most 64 entries each, in the order of the
//! keys.
#![tactic(auto)]

pub mod clone;
pub mod compare;
pub mod entry;
pub mod extend;
pub mod into_iter;
pub mod iter;
pub mod iter_mut;
mod leaves;
pub mod lookup;
pub mod map;
pub mod range;
mod seek;
pub mod traits;
