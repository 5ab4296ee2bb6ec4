//! The trait `Clone` for the boxes, by their own `clone`, so that lists of boxes can be cloned,
//! extended and resized.
ghost use Rattle.std.specs.Prelude.{◌≡◌, [], length};
ghost use Rattle.std.specs.List.{AllZip};
ghost use Rattle.std.specs.Mem.{type_size};
ghost use Rattle.aa_raw.specs.Clones.{ClonesCannotFail};
ghost use Rattle.aa_raw.specs.Growths.{of_new};

use crate::boxed::{Box, BoxedSlice, BoxedText};
use std::alloc::{AllocError, Allocator, Global};

impl<T: Clone, A: Allocator + Clone> Clone for Box<T, A> {
    ghost is_clone = { λ b c. T.is_clone b.value c.value × A.is_clone b.alloc c.alloc };

    ghost is_infallible = { λ b. T.is_infallible b.value × A.is_infallible b.alloc
        × (type_size T.row ≡ 0) };

    /// Returns the same as `Box::clone`.
    ///
    /// allocator-api2's `clone` aborts instead of returning an error.
    fn clone(&self) -> Result<Self, AllocError> {
        Box::clone(self)
    }
}

impl<T: Clone, A: Allocator + Clone> Clone for BoxedSlice<T, A> {
    ghost is_clone = { λ b c. AllZip T.is_clone b.items c.items × (c.growth ≡ b.growth)
        × (c.grown ≡ of_new (type_size T.row) (length b.items)) × A.is_clone b.alloc c.alloc };

    ghost is_infallible = { λ b. ClonesCannotFail T.is_infallible (type_size T.row) b.items
        × A.is_infallible b.alloc };

    /// Returns the same as `BoxedSlice::clone`, but with `AllocError` for every error.
    ///
    /// allocator-api2's `clone` aborts instead of returning an error.
    fn clone(&self) -> Result<Self, AllocError> {
        BoxedSlice::clone(self).map_err(|_| AllocError)
    }
}

impl Clone for BoxedText<Global> {
    ghost is_clone = { λ t u. u ≡ record t { grown = of_new 1 (length t.bytes) } };

    ghost is_infallible = { λ t. t.bytes ≡ [] };

    /// Returns the same as `BoxedText::clone`, but with `AllocError` for every error.
    ///
    /// allocator-api2's `clone` aborts instead of returning an error.
    fn clone(&self) -> Result<Self, AllocError> {
        BoxedText::clone(self).map_err(|_| AllocError)
    }
}
