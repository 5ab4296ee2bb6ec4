//! An allocator that checks that nothing was written past the end of a block.
ghost use Rattle.std.specs.Prelude.{◌≡◌};
ghost use Rattle.aa_allocators.specs.Suffixes.{canary, suffixed_right};

use crate::suffix::{suffixed_align, suffixed_size, write_word};
use std::alloc::{AllocError, Allocator};
use std::cell::Cell;

// The word after each block.
const CANARY: u64 = 0xffff_ffff_ffff_ff5a;

/// An allocator that writes a word after each block, and checks it when the block is deallocated.
///
/// In proved code the word never changes. A test that runs unproved code, as by `rt try --test`,
/// reads `broken` at its end.
///
/// # Errors
/// `allocate` returns `AllocError` if `inner` does, or if the size exceeds `isize::MAX`.
pub struct Guarded<B: Allocator> {
    inner: B,
    broken: Cell<u64>,
}

impl<B: Allocator> Guarded<B> {
    /// Creates an allocator over `inner` that guards the end of each block.
    ///
    /// Does not allocate.
    pub fn new(inner: B) -> Guarded<B>
        ensures { result.inner ≡ inner }
    {
        let broken = Cell::new(0);
        Guarded { inner, broken }
    }

    /// Returns a reference to the inner allocator.
    pub fn inner(&self) -> &B
        ensures { result.now ≡ self.now.inner }
    {
        &self.inner
    }

    /// Returns the number of deallocated blocks whose word had changed.
    ///
    /// The number does not change any more at `u64::MAX`.
    pub fn broken(&self) -> u64 {
        self.broken.get()
    }

    // Counts a block whose word has changed.
    fn count_broken(&self) {
        self.broken.set(self.broken.get().saturating_add(1));
    }
}

impl<B: Allocator> Drop for Guarded<B> {
    fn drop(self) {
        let Guarded {
            inner: _,
            broken: _,
        } = self;
    }
}

unsafe impl<B: Allocator> Allocator for Guarded<B> {
    // The right to free a block is the inner allocator's, and that the word after it is unchanged.
    ghost dealloc_token = { λ heap. suffixed_right canary (B.dealloc_token heap.inner) };

    fn allocate(&self, size: usize, align: usize) -> Result<*mut u8, AllocError> {
        let room = suffixed_size(size, align);
        let with = suffixed_align(align);
        // A block has at most `isize::MAX` bytes.
        if usize::MAX - room < room {
            return Err(AllocError);
        }
        let at = room - with;
        let Ok(block) = self.inner.allocate(room, with) else {
            return Err(AllocError);
        };
        unsafe { write_word(block, at, CANARY) }
        Ok(block)
    }

    unsafe fn deallocate(&self, ptr: *mut u8, size: usize, align: usize) {
        let room = suffixed_size(size, align);
        let with = suffixed_align(align);
        let word = *(ptr.add(room - with) as *mut u64);
        if word != CANARY {
            self.count_broken();
        }
        self.inner.deallocate(ptr, room, with);
    }
}

/// Returns an allocator over a clone of `inner`, with a count of its own.
///
/// # Errors
/// `AllocError` if the clone of `inner` fails.
impl<B: Allocator + Clone> Clone for Guarded<B> {
    ghost is_clone = { λ heap copy. B.is_clone heap.inner copy.inner };

    ghost is_infallible = { λ heap. B.is_infallible heap.inner };

    fn clone(&self) -> Result<Guarded<B>, AllocError> {
        Ok(Guarded::new(self.inner.clone()?))
    }
}
