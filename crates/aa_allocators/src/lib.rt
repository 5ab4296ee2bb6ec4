//! Allocators over other allocators: a pool, a recycler and their layers.
//!
//! Each is proved safe by the contract of the trait `Allocator`. They are examples for authors of
//! allocators.
#![tactic(auto)]

/// An allocator that chooses one of two others by the layout of a request.
pub mod choice;
/// An allocator that requests from a second one what the first one fails.
pub mod fallback;
/// An allocator that checks that nothing was written past the end of a block.
pub mod guarded;
/// An allocator that requests another layout from an inner one.
pub mod layered;
/// A pool of blocks of one size.
pub mod pool;
/// An allocator that keeps freed blocks of many sizes.
pub mod rack;
/// An allocator that rounds sizes up and reuses freed blocks.
pub mod recycler;
/// A layer that rounds up the sizes of requests.
pub mod rounded;
/// An allocator that has small blocks from one allocator, and the others from a second one.
pub mod segregated;
/// A list of free blocks of one layout, to build allocators on that keep blocks.
pub mod shelf;
/// A layer that requests twice the bytes.
pub mod spaced;
mod suffix;
/// An allocator that zeroes each block before it is deallocated.
pub mod zeroing;

pub use aa_watched::{budget, counting, ledger, watched};
