//! A small vector as a slice: methods of slices and ranges, by dot and index.
ghost use Rattle.std.specs.Prelude.{◌≡◌};
ghost use Rattle.std.specs.Borrow.{sem};

use crate::inline::InlineVec;
use std::alloc::Allocator;
use std::convert::AsSlice;
use std::ops::{DerefSlice, DerefSliceMut};

impl<T, A: Allocator, const N: usize> DerefSlice for InlineVec<T, A, N> {
    type Elem = T;

    ghost deref_gives = { λ s xs. xs ≡ s.items };

    /// Returns the items, in order, as a slice.
    #[inline]
    fn deref(&self) -> &[T] {
        self.as_slice()
    }
}

impl<T, A: Allocator, const N: usize> DerefSliceMut for InlineVec<T, A, N> {
    ghost use Rattle.aa_inline.specs.Lends.{lends_items};

    /// Returns the items as a mutable slice.
    #[inline]
    fn deref_mut(&mut self) -> &mut [T]
        ensures* writes_back { sem 𝓛
            (lends_items T.row A.row N.row A.Allocator self.entry result) }
        ensures value { result.now ≡ self.old.items }
    {
        self.as_mut_slice()
    }
}

impl<T, A: Allocator, const N: usize> AsSlice<T> for InlineVec<T, A, N> {
    ghost items = { λ s. s.items };

    /// Returns the items, in order, as a slice.
    fn as_slice(&self) -> &[T] {
        self.as_slice()
    }
}
