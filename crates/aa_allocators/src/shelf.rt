//! A list of free blocks of one layout, as a pool keeps them.
ghost use Rattle.std.specs.Prelude.{◌≡◌, ◌%◌, ◌⊎◌};
ghost use mir.Syntax.{Ty};
ghost use base.Fml.{fex, fsep};
ghost use types.Logic.{sem};
ghost use Rattle.std.specs.Allocator.{HasLayout, block_if_ok, owned_block};
ghost use Rattle.aa_allocators.specs.Shelves.{IsKept, right_to, block_unless, kept_blocks, seen_by_one};

use std::alloc::{AllocError, Allocator};
use std::marker::{Move, Owns, PhantomData};
use std::ptr::null_mut;

/// A list of at most `most` free blocks of one layout that an allocator `B` allocated.
///
/// The first word of each block points to the next one.
pub struct Shelf<B: Allocator> {
    // The block that was put last, if `count` is not 0.
    top: *mut u8,
    count: usize,
    most: usize,
    size: usize,
    align: usize,
    marker: PhantomData<B>,
}

// The model of a shelf is the allocator that allocated its blocks.
impl<B: Allocator> Owns for Shelf<B> {
    ghost Value = { B };

    ghost shr_at = { λ heap. seen_by_one Fields (λ i.
        kept_blocks (B.dealloc_token heap) i.size i.align i.count i.top) };
}

impl<B: Allocator> Move for Shelf<B> {
    ghost own_val = { λ heap vs. fex Inside (λ i. fsep (Fields.own_val i vs)
        (kept_blocks (B.dealloc_token heap) i.size i.align i.count i.top)) };
}

impl<B: Allocator> Shelf<B> {
    /// Creates an empty shelf for at most `most` blocks of `_heap`.
    ///
    /// Does not allocate.
    pub fn new(_heap: &B, size: usize, align: usize, most: usize) -> Shelf<B>
        requires { IsKept size align }
        ensures { result ≡ _heap.now }
    {
        Shelf {
            top: null_mut(),
            count: 0,
            most,
            size,
            align,
            marker: PhantomData,
        }
    }

    /// Returns the number of blocks.
    pub fn count(&self) -> usize {
        let this = self as *const Shelf<B> as *mut Shelf<B>;
        unsafe { (*this).count }
    }

    /// Removes the block that was put last and returns it.
    ///
    /// # Errors
    /// `AllocError` if the shelf is empty or the layout is not that of the shelf.
    pub fn take(&self, size: usize, align: usize) -> Result<*mut u8, AllocError>
        ghost ty: { Ty }
        requires { HasLayout ty size align }
        ensures* { sem 𝓛 (block_if_ok (right_to (B.dealloc_token self.now)) ty result) }
    {
        let this = self as *const Shelf<B> as *mut Shelf<B>;
        unsafe {
            if (*this).size != size {
                return Err(AllocError);
            }
            if (*this).align != align {
                return Err(AllocError);
            }
            let count = (*this).count;
            if count == 0 {
                return Err(AllocError);
            }
            let block = (*this).top;
            (*this).top = *(block as *mut *mut u8);
            (*this).count = count - 1;
            Ok(block)
        }
    }

    /// Adds a block, if its layout is that of the shelf and the shelf is not full.
    ///
    /// Returns whether it did. If it returns `false`, the caller still owns the block.
    pub unsafe fn put(&self, block: *mut u8, size: usize, align: usize) -> bool
        ghost ty: { Ty }
        requires layout { HasLayout ty size align }
        requires* block { sem 𝓛 (owned_block (right_to (B.dealloc_token self.now)) ty block) }
        ensures* { sem 𝓛 (block_unless result (right_to (B.dealloc_token self.now)) ty block) }
    {
        let this = self as *const Shelf<B> as *mut Shelf<B>;
        unsafe {
            if (*this).size != size {
                return false;
            }
            if (*this).align != align {
                return false;
            }
            let count = (*this).count;
            if count >= (*this).most {
                return false;
            }
            (block as *mut *mut u8).write((*this).top);
            (*this).top = block;
            (*this).count = count + 1;
            true
        }
    }
}

/// Removes one block from a shelf and deallocates it with `inner`, which allocated it.
///
/// Returns `false` if the shelf is empty.
pub fn free_one<B: Allocator>(shelf: &Shelf<B>, inner: &B, size: usize, align: usize) -> bool
    requires granter { shelf.now ≡ inner.now }
    requires units { size % align ≡ 0 }
    requires words { (align ≡ 8) ⊎ (align ≡ 16) }
{
    let Ok(block) = shelf.take(size, align) else {
        return false;
    };
    unsafe { inner.deallocate(block, size, align) }
    true
}

impl<B: Allocator> Drop for Shelf<B> {
    fn drop(self) {
        let Shelf {
            top: _,
            count: _,
            most: _,
            size: _,
            align: _,
            marker: _,
        } = self;
    }
}
