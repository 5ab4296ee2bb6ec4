ghost use Rattle.std.specs.Borrow.{ffalse};

use std::alloc::{AllocError, Allocator};

/// An allocator that fails every request: `allocate` always returns `AllocError`.
#[derive(Clone, Copy, PartialEq, Eq, Debug, Default)]
pub struct Failing;

unsafe impl Allocator for Failing {
    // It allocates no block, so no block can be deallocated with it.
    ghost dealloc_token = { λ _ _ _. ffalse };

    fn allocate(&self, _size: usize, _align: usize) -> Result<*mut u8, AllocError> {
        Err(AllocError)
    }

    unsafe fn deallocate(&self, _ptr: *mut u8, _size: usize, _align: usize) {}
}
