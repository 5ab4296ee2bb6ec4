//! A layer that requests twice the bytes, so that no other block follows a block directly.
ghost use Rattle.std.specs.Prelude.{◌≡◌, ◌*◌};

use crate::layered::{Layer, Layered};
use std::alloc::Allocator;

/// An allocator that requests twice the bytes of each request from an inner one, at its alignment.
///
/// # Errors
/// `allocate` returns `AllocError` if twice the size exceeds `isize::MAX`, or if the inner
/// allocator does.
pub type Spaced<B> = Layered<B, Doubled>;

impl<B: Allocator> Layered<B, Doubled> {
    /// Creates an allocator over `inner` that requests twice the bytes.
    ///
    /// Does not allocate.
    pub fn new(inner: B) -> Spaced<B>
        ensures { result.inner ≡ inner }
    {
        Layered::with_layer(inner, Doubled)
    }
}

/// The layer of a `Spaced` allocator.
#[derive(Clone, Copy)]
pub struct Doubled;

impl Layer for Doubled {
    ghost size_for = { λ _ size _. size * 2 };

    ghost align_for = { λ _ _ align. align };

    fn size_for(&self, size: usize, _align: usize) -> Option<usize> {
        size.checked_mul(2)
    }

    fn align_for(&self, _size: usize, align: usize) -> usize {
        align
    }
}
