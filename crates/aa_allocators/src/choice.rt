//! An allocator that chooses one of two others by the layout of a request.
ghost use Rattle.std.specs.Prelude.{◌≡◌, ℕ, Bool};
ghost use Rattle.aa_allocators.specs.Choices.{chosen_right};

use std::alloc::{AllocError, Allocator};

/// A choice between two allocators.
///
/// It never sees a block, so implementing it needs no proof by hand. The ghost member states the
/// choice, and the function computes it: a block is deallocated by the allocator that allocated it,
/// so the choice may depend on the layout and the chooser's value alone.
pub trait Chooser: Drop {
    // Whether the first allocator has the blocks of this size and alignment.
    ghost is_first: { Self → ℕ → ℕ → Bool };

    /// Returns whether blocks of `size` bytes at alignment `align` are the first allocator's.
    fn is_first(&self, size: usize, align: usize) -> bool
        ensures { result ≡ is_first self.now size align };
}

/// An allocator that passes each request on to one of two others, which its chooser chooses.
///
/// # Errors
/// `allocate` returns `AllocError` if the chosen allocator does. The other one is not called.
pub struct Choice<B: Allocator, C: Allocator, P: Chooser> {
    first: B,
    second: C,
    chooser: P,
}

impl<B: Allocator, C: Allocator, P: Chooser> Choice<B, C, P> {
    /// Creates an allocator over `first` and `second` that calls `chooser`.
    ///
    /// This is how to make an allocator with a chooser of one's own. Does not allocate.
    pub fn with_chooser(first: B, second: C, chooser: P) -> Choice<B, C, P>
        ensures { result ≡ record { first = first; second = second; chooser = chooser } }
    {
        Choice {
            first,
            second,
            chooser,
        }
    }

    /// Returns a reference to the first allocator.
    pub fn first(&self) -> &B
        ensures { result.now ≡ self.now.first }
    {
        &self.first
    }

    /// Returns a reference to the second allocator.
    pub fn second(&self) -> &C
        ensures { result.now ≡ self.now.second }
    {
        &self.second
    }

    /// Returns a reference to the chooser.
    pub fn chooser(&self) -> &P
        ensures { result.now ≡ self.now.chooser }
    {
        &self.chooser
    }
}

impl<B: Allocator, C: Allocator, P: Chooser> Drop for Choice<B, C, P> {
    fn drop(self) {
        let Choice {
            first: _,
            second: _,
            chooser: _,
        } = self;
    }
}

unsafe impl<B: Allocator, C: Allocator, P: Chooser> Allocator for Choice<B, C, P> {
    // The right to free a block is that of the allocator which is chosen for its layout.
    ghost dealloc_token = { λ heap. chosen_right (P.is_first heap.chooser)
        (B.dealloc_token heap.first) (C.dealloc_token heap.second) };

    fn allocate(&self, size: usize, align: usize) -> Result<*mut u8, AllocError> {
        if self.chooser.is_first(size, align) {
            return self.first.allocate(size, align);
        }
        self.second.allocate(size, align)
    }

    unsafe fn deallocate(&self, ptr: *mut u8, size: usize, align: usize) {
        if self.chooser.is_first(size, align) {
            self.first.deallocate(ptr, size, align);
            return;
        }
        self.second.deallocate(ptr, size, align);
    }
}

/// Returns an allocator over clones of both, with a clone of the chooser.
///
/// # Errors
/// `AllocError` if one of the clones fails.
impl<B: Allocator + Clone, C: Allocator + Clone, P: Chooser + Clone> Clone for Choice<B, C, P> {
    ghost is_clone = { λ heap copy. P.is_clone heap.chooser copy.chooser
        × B.is_clone heap.first copy.first × C.is_clone heap.second copy.second };

    ghost is_infallible = { λ heap. P.is_infallible heap.chooser
        × B.is_infallible heap.first × C.is_infallible heap.second };

    fn clone(&self) -> Result<Choice<B, C, P>, AllocError> {
        let chooser = self.chooser.clone()?;
        let first = self.first.clone()?;
        Ok(Choice::with_chooser(first, self.second.clone()?, chooser))
    }
}
