//! A hash table generic in its keys, over any allocator that can be cloned.
//!
//! It is built on the library's block and vector.
#![tactic(auto)]

pub mod clone;
pub mod compare;
pub mod extend;
mod growth;
mod index;
pub mod into_parts;
pub mod iter;
pub mod iter_mut;
mod keeper;
pub mod lookup;
pub mod set;
mod slots;
pub mod table;
pub mod traits;
mod walk;
