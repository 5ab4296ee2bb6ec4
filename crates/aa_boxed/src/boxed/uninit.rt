//! `UninitBox`, a box for a value that is still to be written.
ghost use Rattle.std.specs.Prelude.{◌≡◌, ◌<◌, None, IfOk, IfErr};
ghost use Rattle.std.specs.Mem.{type_size};

use crate::boxed::Box;
use aa_raw::raw_box::RawBox;
use std::alloc::{AllocError, Allocator, Global};
use std::marker::Model;

/// A box whose value is still to be written, once.
///
/// Contracts see it as its allocator. When dropped, deallocates the memory.
///
/// Corresponds to allocator-api2's `Box<MaybeUninit<T>, A>`.
pub struct UninitBox<T, A: Allocator = Global> {
    block: RawBox<T, A>,
}

impl<T, A: Allocator> Model for UninitBox<T, A> {
    ghost Value = { A };

    ghost view = { λ b. b.block.alloc };

    ghost invariant = { λ b. b.block.place ≡ None };
}

impl<T, A: Allocator> UninitBox<T, A> {
    /// Writes `x` into the box and returns it.
    ///
    /// Does not allocate.
    ///
    /// Corresponds to allocator-api2's `Box::write`.
    pub fn write(b: UninitBox<T, A>, x: T) -> Box<T, A>
        ensures { result ≡ record { value = x; alloc = b } }
    {
        let UninitBox { mut block } = b;
        block.put(x);
        Box::from_filled_block(block)
    }

    // Allocates memory for one value by `alloc`.
    pub(crate) fn allocate_in(alloc: A) -> Result<UninitBox<T, A>, AllocError>
        ensures made { IfOk result (λ b. b ≡ alloc) }
        ensures error { IfErr result (λ _. 0 < type_size T.row) }
    {
        let block = RawBox::allocate_in(alloc)?;
        Ok(UninitBox { block })
    }
}

impl<T, A: Allocator> Drop for UninitBox<T, A> {
    /// Deallocates the memory.
    fn drop(self) {
        let Self { block: _ } = self;
    }
}
