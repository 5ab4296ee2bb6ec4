//! A pool of blocks of one size.
ghost use Rattle.std.specs.Prelude.{◌≡◌};
ghost use Rattle.aa_allocators.specs.Shelves.{IsKept, right_to};

use crate::shelf::{Shelf, free_one};
use std::alloc::{AllocError, Allocator};

// The alignment of the blocks: that of a type that holds pointers.
const ALIGN: usize = 8;

/// An allocator that keeps freed blocks of one size and reuses them.
///
/// `allocate` returns a kept block of that size without a call of the inner allocator, if there is
/// one. All other requests are passed on. This suits a list or a tree, whose nodes have one size.
///
/// A collection takes `&pool` as its allocator. Dropping the pool deallocates all kept blocks.
pub struct Pool<B: Allocator> {
    inner: B,
    size: usize,
    shelf: Shelf<B>,
    ghost kept: { IsKept size 8 },
    ghost ours: { shelf ≡ inner },
}

impl<B: Allocator> Pool<B> {
    /// Creates an empty pool over `inner`, for blocks of `size` bytes at alignment 8.
    ///
    /// Types with that alignment have a size that is a multiple of 8 and not 0. Any other `size` is
    /// rounded down to such a multiple, or up to 8. Does not allocate.
    pub fn new(inner: B, size: usize) -> Pool<B>
        ensures inner { result.inner ≡ inner }
        ensures size { IsKept size 8 → result.size ≡ size }
    {
        let size = size.clamp(ALIGN, isize::MAX as usize) / ALIGN * ALIGN;
        let shelf = Shelf::new(&inner, size, ALIGN, usize::MAX);
        Pool { inner, size, shelf }
    }

    /// Returns the size in bytes of the blocks that the pool keeps.
    pub fn size(&self) -> usize
        ensures { result ≡ self.now.size }
    {
        self.size
    }

    /// Returns a reference to the inner allocator.
    pub fn inner(&self) -> &B
        ensures { result.now ≡ self.now.inner }
    {
        &self.inner
    }

    /// Deallocates all kept blocks with the inner allocator.
    pub fn clear(&self) {
        for _ in 0..u64::MAX {
            if !free_one(&self.shelf, &self.inner, self.size, ALIGN) {
                break;
            }
        }
    }
}

impl<B: Allocator> Drop for Pool<B> {
    fn drop(self) {
        self.clear();
        let Pool {
            inner: _,
            size: _,
            shelf: _,
        } = self;
    }
}

unsafe impl<B: Allocator> Allocator for Pool<B> {
    // The right to free a block is the inner allocator's right, for some type of the same layout
    // that the block was allocated for.
    ghost dealloc_token = { λ pool. right_to (B.dealloc_token pool.inner) };

    fn allocate(&self, size: usize, align: usize) -> Result<*mut u8, AllocError> {
        let Ok(block) = self.shelf.take(size, align) else {
            return self.inner.allocate(size, align);
        };
        Ok(block)
    }

    unsafe fn deallocate(&self, ptr: *mut u8, size: usize, align: usize) {
        if self.shelf.put(ptr, size, align) {
            return;
        }
        self.inner.deallocate(ptr, size, align);
    }
}

/// Returns an empty pool for blocks of the same size, over a clone of `inner`.
///
/// # Errors
/// `AllocError` if the clone of `inner` fails.
impl<B: Allocator + Clone> Clone for Pool<B> {
    ghost is_clone = { λ pool twin. (twin.size ≡ pool.size) × B.is_clone pool.inner twin.inner };

    ghost is_infallible = { λ pool. B.is_infallible pool.inner };

    fn clone(&self) -> Result<Pool<B>, AllocError> {
        Ok(Pool::new(self.inner.clone()?, self.size))
    }
}
