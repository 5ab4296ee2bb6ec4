//! `RawBox`: memory for one value over an allocator.
ghost use Rattle.std.specs.Prelude.{◌≡◌, ◌<◌, Some, None, IsSome, IfOk, IfErr};
ghost use Rattle.std.specs.Mem.{type_size};
ghost use Rattle.std.specs.Borrow.{sem};
ghost use Rattle.aa_raw.specs.Growth.{new_capacity};
ghost use Rattle.aa_raw.specs.Single.{with_place, as_block};

use crate::raw_vec::{Growth, RawVec, free_block, from_row};
use crate::row::{Claim, Row, allocate, dangling};
use crate::size::{fits_in_block, is_zst};
use std::alloc::{AllocError, Allocator, Global};
use std::marker::Model;

/// A place for one value over the allocator `A`.
///
/// The place is empty or filled. The caller and the contracts know which; the box does not know it
/// at run time.
///
/// When dropped, it deallocates its memory. The place must be empty then: its value was moved out
/// before. It never allocates for a zero-sized value. Not in allocator-api2.
pub struct RawBox<T, A: Allocator = Global> {
    row: Row<T>,
    claim: Claim<T, A>,
    alloc: A,
}

impl<T, A: Allocator> Model for RawBox<T, A> {
    ghost use Rattle.aa_raw.specs.Single.{Single};

    ghost Value = { Single T A };

    ghost use Rattle.aa_raw.specs.RawBoxInner.{view_of, IsWhole};

    ghost view = { view_of };

    ghost invariant = { IsWhole };
}

#[tactic(auto, using(crate::proofs::Singles::of_one))]
impl<T, A: Allocator> RawBox<T, A> {
    ghost use Rattle.aa_raw.specs.SingleLends.{lends_single};

    /// Returns a box with an empty place.
    ///
    /// Does not allocate if `T` is zero-sized.
    ///
    /// # Errors
    /// `AllocError` if the allocation fails, and never for a zero-sized `T`.
    pub fn allocate_in(alloc: A) -> Result<Self, AllocError>
        ensures made { IfOk result (λ b. b ≡ record { place = None; alloc = alloc }) }
        ensures error { IfErr result (λ _. 0 < type_size T.row) }
    {
        let capacity = capacity_for_one::<T>();
        if is_zst::<T>() {
            let (row, claim) = dangling(&alloc, capacity);
            return Ok(RawBox { row, claim, alloc });
        }
        if !fits_in_block::<T>(capacity) {
            return Err(AllocError);
        }
        let (row, claim) = allocate(&alloc, capacity)?;
        Ok(RawBox { row, claim, alloc })
    }

    /// Returns a reference to the underlying allocator.
    pub fn allocator(&self) -> &A
        ensures { result.now ≡ self.now.alloc }
    {
        &self.alloc
    }

    /// Writes `item` into the place.
    ///
    /// A value that was there is forgotten, not dropped.
    #[inline(always)]
    pub fn put(&mut self, item: T)
        ensures { self.new ≡ with_place self.old (Some item) }
    {
        self.row.write(0, item);
    }

    /// Moves the value out of the filled place and returns it.
    ///
    /// The place is empty afterwards.
    #[inline(always)]
    pub fn take(&mut self) -> T
        requires filled { IsSome self.old.place }
        ensures value { self.old.place ≡ Some result }
        ensures after { self.new ≡ with_place self.old None }
    {
        self.row.read(0)
    }

    /// Returns a reference to the value in the filled place.
    pub fn get(&self) -> &T
        requires filled { IsSome self.now.place }
        ensures { self.now.place ≡ Some result.now }
    {
        &self.row.slice(0, 1)[0]
    }

    /// Returns a mutable reference to the value in the filled place.
    pub fn get_mut(&mut self) -> &mut T
        requires filled { IsSome self.old.place }
        ensures* writes_back { sem 𝓛 (lends_single T.row A.row A.Allocator self.entry result) }
        ensures value { self.old.place ≡ Some result.now }
    {
        self.row.get_mut(0)
    }

    /// Returns the memory as a block whose first place is this one.
    ///
    /// The block has a capacity of 1, or of `usize::MAX` if `T` is zero-sized, and grows by
    /// doubling. Does not allocate.
    pub fn into_raw_vec(self) -> RawVec<T, A>
        ensures { result ≡ as_block (type_size T.row) self }
    {
        let RawBox { row, claim, alloc } = self;
        claim.prove_capacity_bounds();
        from_row(
            alloc,
            Growth::Doubling,
            capacity_for_one::<T>(),
            (row, claim),
        )
    }
}

// Returns the number of places in the row of a box.
fn capacity_for_one<T>() -> usize
    ensures { result ≡ new_capacity (type_size T.row) 1 }
{
    if is_zst::<T>() { usize::MAX } else { 1 }
}

impl<T, A: Allocator> Drop for RawBox<T, A> {
    /// Deallocates the memory.
    ///
    /// The place may hold no value.
    fn drop(self)
        requires { self.place ≡ None }
    {
        let RawBox { row, claim, alloc } = self;
        claim.prove_capacity_bounds();
        free_block(&alloc, capacity_for_one::<T>(), row, claim);
    }
}
