//! An allocator that zeroes each block before it is deallocated.
ghost use Rattle.std.specs.Prelude.{◌≡◌};
ghost use types.Logic.{sem};
ghost use Rattle.aa_allocators.specs.Zeros.{bytes_room, counted_right, zeros_at};

use std::alloc::{AllocError, Allocator};

/// An allocator that writes zero to all bytes of a block before `inner` deallocates it.
///
/// So what a collection held can't be read from memory that is allocated again.
///
/// # Errors
/// `allocate` returns `AllocError` if `inner` does, or if the size exceeds `isize::MAX`.
pub struct Zeroing<B: Allocator> {
    inner: B,
}

impl<B: Allocator> Zeroing<B> {
    /// Creates an allocator over `inner` that zeroes blocks.
    ///
    /// Does not allocate.
    pub fn new(inner: B) -> Zeroing<B>
        ensures { result.inner ≡ inner }
    {
        Zeroing { inner }
    }

    /// Returns a reference to the inner allocator.
    pub fn inner(&self) -> &B
        ensures { result.now ≡ self.now.inner }
    {
        &self.inner
    }
}

// Writes zero to `size` bytes from `block` on.
unsafe fn zero(block: *mut u8, size: usize)
    requires* { sem 𝓛 (bytes_room block size) }
    ensures* { sem 𝓛 (zeros_at block size) }
{
    let mut at = 0;
    while at < size {
        block.add(at).write(0);
        at += 1;
    }
}

impl<B: Allocator> Drop for Zeroing<B> {
    fn drop(self) {
        let Zeroing { inner: _ } = self;
    }
}

unsafe impl<B: Allocator> Allocator for Zeroing<B> {
    // The right to free a block is the inner allocator's.
    ghost dealloc_token = { λ heap. counted_right (B.dealloc_token heap.inner) };

    fn allocate(&self, size: usize, align: usize) -> Result<*mut u8, AllocError> {
        // A block has at most `isize::MAX` bytes.
        if usize::MAX - size < size {
            return Err(AllocError);
        }
        self.inner.allocate(size, align)
    }

    unsafe fn deallocate(&self, ptr: *mut u8, size: usize, align: usize) {
        zero(ptr, size);
        self.inner.deallocate(ptr, size, align);
    }
}

/// Returns an allocator over a clone of `inner`.
///
/// # Errors
/// `AllocError` if the clone of `inner` fails.
impl<B: Allocator + Clone> Clone for Zeroing<B> {
    ghost is_clone = { λ heap copy. B.is_clone heap.inner copy.inner };

    ghost is_infallible = { λ heap. B.is_infallible heap.inner };

    fn clone(&self) -> Result<Zeroing<B>, AllocError> {
        Ok(Zeroing::new(self.inner.clone()?))
    }
}
