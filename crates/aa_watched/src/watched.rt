use std::alloc::{AllocError, Allocator};
use std::mem::{align_of, size_of};

/// A watch that decides about the requests of a collection to an allocator, and counts them.
///
/// It never sees a block, so implementing it needs no proof by hand. A block that grows is a request
/// for its new size. If it is granted, the block of the old size is then deallocated.
pub trait Watch: Drop {
    /// Returns whether a request for `size` bytes at alignment `align` is to fail.
    ///
    /// Called before each request. If it returns `false`, the request is passed on.
    fn should_fail(&self, size: usize, align: usize) -> bool;

    /// Called after the inner allocator allocated such a block.
    fn on_allocate(&self, size: usize, align: usize);

    /// Called after the inner allocator failed such a request.
    fn on_failure(&self, size: usize, align: usize);

    /// Called before such a block is deallocated.
    fn on_deallocate(&self, size: usize, align: usize);
}

/// An allocator that passes each request on to `inner`, unless its watch fails it.
///
/// `grow` is passed on, too, so that a block grows in place if `inner` can. Both return `AllocError`
/// if the watch fails the request or `inner` does.
pub struct Watched<B: Allocator, W: Watch> {
    inner: B,
    watch: W,
}

impl<B: Allocator, W: Watch> Watched<B, W> {
    /// Creates an allocator over `inner` that calls `watch`.
    ///
    /// This is how to make an allocator with a watch of one's own. Does not allocate.
    pub fn with_watch(inner: B, watch: W) -> Watched<B, W> {
        Watched { inner, watch }
    }

    /// Returns a reference to the watch.
    pub fn watch(&self) -> &W {
        &self.watch
    }
}

impl<B: Allocator, W: Watch> Drop for Watched<B, W> {
    fn drop(self) {
        let Watched { inner: _, watch: _ } = self;
    }
}

unsafe impl<B: Allocator, W: Watch> Allocator for Watched<B, W> {
    // The right to free a block is the inner allocator's.
    ghost dealloc_token = { λ heap ty ptr. B.dealloc_token heap.inner ty ptr };

    fn allocate(&self, size: usize, align: usize) -> Result<*mut u8, AllocError> {
        if self.watch.should_fail(size, align) {
            return Err(AllocError);
        }
        let Ok(block) = self.inner.allocate(size, align) else {
            self.watch.on_failure(size, align);
            return Err(AllocError);
        };
        self.watch.on_allocate(size, align);
        Ok(block)
    }

    unsafe fn deallocate(&self, ptr: *mut u8, size: usize, align: usize) {
        self.watch.on_deallocate(size, align);
        self.inner.deallocate(ptr, size, align);
    }

    unsafe fn grow<T>(
        &self,
        ptr: *mut T,
        len: usize,
        old_cap: usize,
        new_cap: usize,
    ) -> Result<*mut T, AllocError> {
        let size = new_cap * size_of::<T>();
        if self.watch.should_fail(size, align_of::<T>()) {
            return Err(AllocError);
        }
        let Ok(block) = self.inner.grow(ptr, len, old_cap, new_cap) else {
            self.watch.on_failure(size, align_of::<T>());
            return Err(AllocError);
        };
        self.watch.on_allocate(size, align_of::<T>());
        self.watch
            .on_deallocate(old_cap * size_of::<T>(), align_of::<T>());
        Ok(block)
    }
}

/// Returns an allocator over a clone of `inner`, with a clone of the watch.
///
/// # Errors
/// `AllocError` if the clone of the watch or of `inner` fails.
impl<B: Allocator + Clone, W: Watch + Clone> Clone for Watched<B, W> {
    fn clone(&self) -> Result<Watched<B, W>, AllocError> {
        let watch = self.watch.clone()?;
        Ok(Watched::with_watch(self.inner.clone()?, watch))
    }
}
