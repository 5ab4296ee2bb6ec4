//! An allocator that keeps freed blocks of many sizes.
ghost use Rattle.std.specs.Prelude.{◌≡◌, ◌^◌, ◌<◌, ◌≤◌, ◌%◌};
ghost use Rattle.aa_allocators.specs.Racks.{IsPlace, class_size};
ghost use Rattle.aa_allocators.specs.Shelves.{IsKept, right_to};

use crate::rounded::LEAST;
use crate::shelf::{Shelf, free_one};
use std::alloc::{AllocError, Allocator};

/// The number of classes: blocks of 16, 32, 64 .. bytes, up to 16 MiB.
pub(crate) const CLASSES: usize = 21;

// The smallest class is of 2 to this power of bytes.
const LEAST_LOG: usize = 4;

// The alignment of the blocks.
const ALIGN: usize = 16;

/// An allocator that keeps freed blocks and reuses them, if their size is a class and their
/// alignment is 16.
///
/// `allocate` returns a kept block of the same size without a call of the inner allocator, if there
/// is one. All other requests are passed on.
pub struct Rack<B: Allocator> {
    inner: B,
    limit: usize,
    // Blocks of 16 bytes up to 1 KiB.
    small: Seven<B>,
    // Blocks of 2 KiB up to 128 KiB.
    middle: Seven<B>,
    // Blocks of 256 KiB up to 16 MiB.
    great: Seven<B>,
    ghost small_ours: { small.first ≡ inner },
    ghost middle_ours: { middle.first ≡ inner },
    ghost great_ours: { great.first ≡ inner },
}

// Shelves for seven classes in a row, all of one inner allocator. They are fields and not an array,
// since an array can only be indexed if its struct is known to fit in memory.
struct Seven<B: Allocator> {
    first: Shelf<B>,
    second: Shelf<B>,
    third: Shelf<B>,
    fourth: Shelf<B>,
    fifth: Shelf<B>,
    sixth: Shelf<B>,
    seventh: Shelf<B>,
    ghost second_too: { second ≡ first },
    ghost third_too: { third ≡ first },
    ghost fourth_too: { fourth ≡ first },
    ghost fifth_too: { fifth ≡ first },
    ghost sixth_too: { sixth ≡ first },
    ghost seventh_too: { seventh ≡ first },
}

// Creates an empty shelf for blocks of `size` bytes that holds at most `limit` bytes.
fn empty<B: Allocator>(inner: &B, size: usize, limit: usize) -> Shelf<B>
    requires { IsKept size 16 }
    ensures { result ≡ inner.now }
{
    Shelf::new(inner, size, ALIGN, limit / size)
}

// Returns the index of the shelf for blocks of `size` bytes, if that is a class.
fn place_of(size: usize) -> usize
    ensures { IsPlace size result }
{
    (size.max(LEAST).ilog2() as usize)
        .saturating_sub(LEAST_LOG)
        .min(CLASSES - 1)
}

// Returns the number of bytes of the blocks of a class.
pub(crate) fn class_size(class: usize) -> usize
    requires { class < 21 }
    ensures { result ≡ class_size class }
{
    LEAST << class
}

impl<B: Allocator> Seven<B> {
    // Creates empty shelves, for blocks of `least` bytes, twice as many and so on.
    fn new(heap: &B, least: usize, limit: usize) -> Seven<B>
        requires multiple { least % 16 ≡ 0 }
        requires range { (16 ≤ least) × (least < 2 ^ 32) }
        ensures { result.first ≡ heap.now }
    {
        Seven {
            first: empty(heap, least, limit),
            second: empty(heap, least * 2, limit),
            third: empty(heap, least * 4, limit),
            fourth: empty(heap, least * 8, limit),
            fifth: empty(heap, least * 16, limit),
            sixth: empty(heap, least * 32, limit),
            seventh: empty(heap, least * 64, limit),
        }
    }

    fn at(&self, place: usize) -> &Shelf<B>
        ensures { result.now ≡ self.now.first }
    {
        match place {
            0 => &self.first,
            1 => &self.second,
            2 => &self.third,
            3 => &self.fourth,
            4 => &self.fifth,
            5 => &self.sixth,
            _ => &self.seventh,
        }
    }
}

impl<B: Allocator> Drop for Seven<B> {
    fn drop(self) {
        let Seven {
            first: _,
            second: _,
            third: _,
            fourth: _,
            fifth: _,
            sixth: _,
            seventh: _,
        } = self;
    }
}

impl<B: Allocator> Rack<B> {
    /// Creates an empty rack over `inner` that keeps at most `limit` bytes of each class.
    ///
    /// Does not allocate.
    pub fn new(inner: B, limit: usize) -> Rack<B>
        ensures inner { result.inner ≡ inner }
        ensures limit { result.limit ≡ limit }
    {
        let small = Seven::new(&inner, LEAST, limit);
        let middle = Seven::new(&inner, LEAST << 7, limit);
        let great = Seven::new(&inner, LEAST << 14, limit);
        Rack {
            inner,
            limit,
            small,
            middle,
            great,
        }
    }

    /// Returns the maximum number of bytes that are kept of each class.
    pub fn limit(&self) -> usize
        ensures { result ≡ self.now.limit }
    {
        self.limit
    }

    /// Returns a reference to the inner allocator.
    pub fn inner(&self) -> &B
        ensures { result.now ≡ self.now.inner }
    {
        &self.inner
    }

    // Returns the shelf for blocks of `size` bytes, if that is a class.
    fn shelf(&self, size: usize) -> &Shelf<B>
        ensures { result.now ≡ self.now.inner }
    {
        let place = place_of(size);
        if place < 7 {
            return self.small.at(place);
        }
        if place < 14 {
            return self.middle.at(place - 7);
        }
        self.great.at(place - 14)
    }

    /// Returns the number of kept blocks of `size` bytes, if that is a class.
    pub(crate) fn count(&self, size: usize) -> usize {
        self.shelf(size).count()
    }

    /// Deallocates all kept blocks with the inner allocator.
    pub fn clear(&self) {
        for class in 0..CLASSES {
            let size = class_size(class);
            for _ in 0..u64::MAX {
                if !free_one(self.shelf(size), &self.inner, size, ALIGN) {
                    break;
                }
            }
        }
    }
}

impl<B: Allocator> Drop for Rack<B> {
    fn drop(self) {
        self.clear();
        let Rack {
            inner: _,
            limit: _,
            small: _,
            middle: _,
            great: _,
        } = self;
    }
}

unsafe impl<B: Allocator> Allocator for Rack<B> {
    // The right to free a block is the inner allocator's right, for some type of the same layout
    // that the block was allocated for.
    ghost dealloc_token = { λ rack. right_to (B.dealloc_token rack.inner) };

    fn allocate(&self, size: usize, align: usize) -> Result<*mut u8, AllocError> {
        let shelf = self.shelf(size);
        let Ok(block) = shelf.take(size, align) else {
            return self.inner.allocate(size, align);
        };
        Ok(block)
    }

    unsafe fn deallocate(&self, ptr: *mut u8, size: usize, align: usize) {
        let shelf = self.shelf(size);
        if shelf.put(ptr, size, align) {
            return;
        }
        self.inner.deallocate(ptr, size, align);
    }
}

/// Returns an empty rack with the same limit, over a clone of `inner`.
///
/// # Errors
/// `AllocError` if the clone of `inner` fails.
impl<B: Allocator + Clone> Clone for Rack<B> {
    ghost is_clone = { λ rack twin. (twin.limit ≡ rack.limit) × B.is_clone rack.inner twin.inner };

    ghost is_infallible = { λ rack. B.is_infallible rack.inner };

    fn clone(&self) -> Result<Rack<B>, AllocError> {
        Ok(Rack::new(self.inner.clone()?, self.limit))
    }
}
