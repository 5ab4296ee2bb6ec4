//! An allocator that has small blocks from one allocator, and the others from a second one.
ghost use Rattle.std.specs.Prelude.{◌≡◌, nat_le};

use crate::choice::{Choice, Chooser};
use std::alloc::Allocator;

/// An allocator that passes requests of up to a limit of bytes on to one allocator, and larger ones
/// to a second one.
pub type Segregated<B, C> = Choice<B, C, UpTo>;

impl<B: Allocator, C: Allocator> Choice<B, C, UpTo> {
    /// Creates an allocator that has blocks of up to `limit` bytes from `small`, and larger ones
    /// from `large`.
    ///
    /// Does not allocate.
    pub fn new(small: B, large: C, limit: usize) -> Segregated<B, C>
        ensures first { result.first ≡ small }
        ensures second { result.second ≡ large }
        ensures limit { result.chooser.limit ≡ limit }
    {
        Choice::with_chooser(small, large, UpTo { limit })
    }
}

/// The chooser of a `Segregated` allocator: the first allocator has blocks of up to `limit` bytes.
#[derive(Clone, Copy)]
pub struct UpTo {
    /// The size in bytes of the largest blocks of the first allocator.
    pub limit: usize,
}

impl Chooser for UpTo {
    ghost is_first = { λ up_to size _. nat_le size up_to.limit };

    fn is_first(&self, size: usize, _align: usize) -> bool {
        size <= self.limit
    }
}
