//! An allocator that requests from a second one what the first one fails.
ghost use Rattle.std.specs.Prelude.{◌≡◌};
ghost use Rattle.aa_allocators.specs.Suffixes.{fallback_right};

use crate::suffix::{suffixed_align, suffixed_size, write_word};
use std::alloc::{AllocError, Allocator};

/// An allocator that requests a block from `first`, and from `second` if the first one fails.
///
/// A word after each block says which of the two allocated it. So each request is for 8 bytes more,
/// or for 16 at alignment 16, and is rounded up to a multiple of 8.
///
/// # Errors
/// `allocate` returns `AllocError` if both allocators do, or if the size exceeds `isize::MAX`.
pub struct Fallback<B: Allocator, C: Allocator> {
    first: B,
    second: C,
}

impl<B: Allocator, C: Allocator> Fallback<B, C> {
    /// Creates an allocator over `first` that requests from `second` what `first` fails.
    ///
    /// Does not allocate.
    pub fn new(first: B, second: C) -> Fallback<B, C>
        ensures { result ≡ record { first = first; second = second } }
    {
        Fallback { first, second }
    }

    /// Returns a reference to the first allocator.
    pub fn first(&self) -> &B
        ensures { result.now ≡ self.now.first }
    {
        &self.first
    }

    /// Returns a reference to the second allocator.
    pub fn second(&self) -> &C
        ensures { result.now ≡ self.now.second }
    {
        &self.second
    }
}

impl<B: Allocator, C: Allocator> Drop for Fallback<B, C> {
    fn drop(self) {
        let Fallback {
            first: _,
            second: _,
        } = self;
    }
}

unsafe impl<B: Allocator, C: Allocator> Allocator for Fallback<B, C> {
    // The right to free a block is that of the allocator which the word after it names.
    ghost dealloc_token = { λ heap.
        fallback_right (B.dealloc_token heap.first) (C.dealloc_token heap.second) };

    fn allocate(&self, size: usize, align: usize) -> Result<*mut u8, AllocError> {
        let room = suffixed_size(size, align);
        let with = suffixed_align(align);
        // A block has at most `isize::MAX` bytes.
        if usize::MAX - room < room {
            return Err(AllocError);
        }
        let at = room - with;
        if let Ok(block) = self.first.allocate(room, with) {
            unsafe { write_word(block, at, 1) }
            return Ok(block);
        }
        let Ok(block) = self.second.allocate(room, with) else {
            return Err(AllocError);
        };
        unsafe { write_word(block, at, 0) }
        Ok(block)
    }

    unsafe fn deallocate(&self, ptr: *mut u8, size: usize, align: usize) {
        let room = suffixed_size(size, align);
        let with = suffixed_align(align);
        let word = *(ptr.add(room - with) as *mut u64);
        if word == 1 {
            self.first.deallocate(ptr, room, with);
            return;
        }
        self.second.deallocate(ptr, room, with);
    }
}

/// Returns an allocator over clones of both.
///
/// # Errors
/// `AllocError` if one of the clones fails.
impl<B: Allocator + Clone, C: Allocator + Clone> Clone for Fallback<B, C> {
    ghost is_clone = { λ heap copy. B.is_clone heap.first copy.first
        × C.is_clone heap.second copy.second };

    ghost is_infallible = { λ heap. B.is_infallible heap.first × C.is_infallible heap.second };

    fn clone(&self) -> Result<Fallback<B, C>, AllocError> {
        let first = self.first.clone()?;
        Ok(Fallback::new(first, self.second.clone()?))
    }
}
