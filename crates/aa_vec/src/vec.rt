//! `Vec`: a growable list over an allocator. Corresponds to `allocator_api2::vec`.
ghost use Rattle.std.specs.Prelude.{◌≡◌, ◌+◌, ◌*◌, ◌^◌, ◌<◌, ◌≤◌, [], ◌∷◌, ◌++◌, length, IfOk, IfErr, IfNone, IfSome, OnOk, OnErr, IsOk, IsTrue, ◌↔◌, MatchOption};
ghost use Rattle.std.specs.Mem.{type_size};
ghost use Rattle.std.specs.Borrow.{sem};
ghost use Rattle.aa_raw.specs.Growth.{usize_max};
ghost use Rattle.aa_raw.specs.Places.{IsCapacity};
ghost use Rattle.aa_raw.specs.Errors.{AllocationFails};
ghost use Rattle.aa_vec.specs.Copies.{IsMade};
ghost use Rattle.aa_vec.specs.Vector.{Vector, len, HasRoom, LacksRoom, IsNew, Becomes, with_room};
ghost use Rattle.aa_vec.specs.VecInner.{view_of, IsWhole};

pub use aa_boxed::slices::same;
use aa_raw::collections::{Refused, TryReserveError};
use aa_raw::counter::Counter;
use aa_raw::raw_vec::{Growth, RawVec};
pub use aa_raw::vec::into_iter;
pub use aa_raw::vec::into_iter::IntoIter;
pub use convert::arrays::ArrayIntoVec;
pub use convert::boxed::SliceIntoVec;
pub use drain::Drain;
pub use extend::hints::cautious;
pub use extend::items::{Hinted, Items};
pub use extract_if::{ExtractBy, ExtractIf};
pub use splice::Splice;
use std::alloc::{Allocator, Global};
use std::default::Default;
use std::marker::Model;
pub use std_alloc::part::SliceRange;
use tail::forget_apart;

mod append;
mod bytes;
mod clones;
mod compare;
mod convert;
mod copies;
mod dedup;
pub mod drain;
mod edits;
pub mod extend;
pub mod extract_if;
mod index;
mod new;
mod put;
mod ranges;
mod reserve;
mod retain;
pub mod splice;
mod tail;
mod traits;

/// A growable list over the allocator `A`.
///
/// Calls that allocate return a `Result`, where those of the original abort. For zero-sized
/// elements (ZSTs) the capacity is `usize::MAX`, and no call allocates.
pub struct Vec<T, A: Allocator = Global> {
    block: RawVec<T, A>,
    len: usize,
    // Ghost counters: how many elements were set apart, in places after the list, and how many of
    // them were taken out, dropped or moved back since then.
    apart: Counter,
    settled: Counter,
}

impl<T, A: Allocator> Model for Vec<T, A> {
    ghost Value = { Vector T A };

    ghost view = { view_of };

    ghost invariant = { IsWhole };
}

impl<T> Vec<T, Global> {
    /// Returns an empty vector on the global allocator.
    ///
    /// Does not allocate.
    pub fn new(alloc: Global) -> Self
        ensures { IsNew (type_size T.row) 0 alloc result }
    {
        Vec::new_in(alloc)
    }

    /// Returns an empty vector on the global allocator with capacity for exactly `capacity`
    /// elements.
    ///
    /// Allocates as `with_capacity_in` does.
    ///
    /// # Errors
    /// Returns the same errors as `with_capacity_in`.
    pub fn with_capacity(alloc: Global, capacity: usize) -> Result<Self, TryReserveError>
        ensures made { IfOk result (λ v. IsNew (type_size T.row) capacity alloc v) }
        ensures error { IfErr result (AllocationFails capacity (type_size T.row)) }
    {
        Vec::with_capacity_in(capacity, alloc)
    }
}

#[tactic(auto, using(aa_raw::proofs::Calls::at_ends))]
impl<T, A: Allocator> Vec<T, A> {
    ghost use Rattle.aa_vec.specs.VecLends.{lends_items};

    /// Returns an empty vector.
    ///
    /// Does not allocate.
    pub fn new_in(alloc: A) -> Self
        ensures { IsNew (type_size T.row) 0 alloc result }
    {
        Vec::with_growth_in(Growth::Doubling, alloc)
    }

    /// Returns an empty vector with the growth policy `growth`.
    ///
    /// A vector that doubles moves fewer elements; one that grows sparingly has less unused
    /// capacity. Does not allocate.
    ///
    /// Not in allocator-api2.
    #[tactic(auto, using(aa_raw::proofs::Calls::with_room, crate::proofs::Tidy::few_at_end))]
    pub fn with_growth_in(growth: Growth, alloc: A) -> Self
        ensures made { IsMade (type_size T.row) 0 growth [] 0 result }
        ensures alloc { result.alloc ≡ alloc }
    {
        Vec {
            block: RawVec::with_growth_in(growth, alloc),
            len: 0,
            apart: Counter::zero(),
            settled: Counter::zero(),
        }
    }

    /// Returns an empty vector with capacity for exactly `capacity` elements.
    ///
    /// Allocates if `capacity` is above 0 and the elements are not zero-sized.
    ///
    /// # Errors
    /// Returns `CapacityOverflow`, or `AllocError` with the number `capacity`.
    #[tactic(auto, using(aa_raw::proofs::Calls::with_room, crate::proofs::Tidy::few_at_end))]
    pub fn with_capacity_in(capacity: usize, alloc: A) -> Result<Self, TryReserveError>
        ensures made { IfOk result (λ v. IsNew (type_size T.row) capacity alloc v) }
        ensures error { IfErr result (AllocationFails capacity (type_size T.row)) }
    {
        let block = RawVec::with_capacity_in(capacity, alloc)?;
        let len = 0;
        Ok(Vec {
            block,
            len,
            apart: Counter::zero(),
            settled: Counter::zero(),
        })
    }

    /// Returns the number of elements.
    #[inline]
    pub fn len(&self) -> usize
        ensures count { result ≡ len self.now }
        ensures within { len self.now ≤ self.now.capacity }
        ensures bytes { result * type_size T.row < 2 ^ 63 }
    {
        self.block.prove_capacity_bounds();
        self.len
    }

    /// Returns `true` if the vector has no elements.
    pub fn is_empty(&self) -> bool
        ensures { IsTrue result ↔ (self.now.items ≡ []) }
    {
        self.len() == 0
    }

    /// Returns the number of elements that the vector can hold without growing.
    ///
    /// This is `usize::MAX` for zero-sized elements.
    #[inline]
    pub fn capacity(&self) -> usize
        ensures count { result ≡ self.now.capacity }
        ensures within { len self.now ≤ self.now.capacity }
        ensures possible { IsCapacity T.row result }
    {
        self.block.capacity()
    }

    /// Proves the bounds of length and capacity, and does nothing at run time.
    ///
    /// The capacity is at most `usize::MAX`, and one that a block of such elements can have. The
    /// length is at most the capacity.
    ///
    /// Not in allocator-api2.
    #[inline(always)]
    pub fn prove_capacity_bounds(&self)
        ensures within { len self.now ≤ self.now.capacity }
        ensures fits_usize { self.now.capacity ≤ usize_max }
        ensures possible { IsCapacity T.row self.now.capacity }
    {
        self.block.prove_capacity_bounds();
    }

    /// Returns a reference to the underlying allocator.
    pub fn allocator(&self) -> &A
        ensures { result.now ≡ self.now.alloc }
    {
        self.block.allocator()
    }

    /// Returns the growth policy.
    ///
    /// Not in allocator-api2.
    pub fn growth(&self) -> Growth
        ensures { result ≡ self.now.growth }
    {
        self.block.growth()
    }

    /// Returns a slice of all elements.
    #[tactic(auto, using(aa_raw::proofs::Calls::shown))]
    pub fn as_slice(&self) -> &[T]
        ensures { result.now ≡ self.now.items }
    {
        self.block.slice(0, self.len)
    }

    /// Returns a mutable slice of all elements.
    #[tactic(auto, using(aa_raw::proofs::Calls::shown, crate::proofs::Tidy::few_at_end))]
    pub fn as_mut_slice(&mut self) -> &mut [T]
        ensures* writes_back { sem 𝓛 (lends_items T.row A.row A.Allocator self.entry result) }
        ensures value { result.now ≡ self.old.items }
    {
        self.block.slice_mut(0, self.len)
    }

    /// Appends `value`.
    ///
    /// Allocates only if the vector is full, and then grows by its growth policy.
    ///
    /// # Errors
    /// Returns `CapacityOverflow`, always if the new length would exceed `usize::MAX`; or
    /// `AllocError` with the requested capacity. The vector is unchanged and `value` is returned in
    /// the error.
    #[inline]
    #[tactic(auto, using(aa_raw::proofs::Calls::with_room, crate::proofs::Room::placed_in_room))]
    pub fn push(&mut self, value: T) -> Result<(), Refused<T>>
        ensures fits { HasRoom self.old 1 → IsOk result }
        ensures pushed { let n = length self.old.items in
            let roomy = with_room (type_size T.row) self.old n 1 in
            OnOk result (Becomes roomy (self.old.items ++ value ∷ []) 1 1 self.new) }
        ensures error { IfErr result (λ r. LacksRoom (type_size T.row) self.old 1 r.error) }
        ensures returned { IfErr result (λ r. r.source ≡ value) }
        ensures unchanged { OnErr result (self.new ≡ self.old) }
    {
        let len = self.len;
        if let Err(error) = self.block.reserve_for_push(len) {
            return Err(Refused {
                source: value,
                error,
            });
        }
        self.block.put(len, value);
        self.len = len + 1;
        Ok(())
    }

    /// Removes the last element and returns it, or `None` if the vector is empty.
    ///
    /// Does not allocate, and does not change the capacity.
    #[inline]
    #[tactic(auto, using(aa_raw::proofs::Calls::at_ends, crate::proofs::Becoming::becomes, crate::proofs::Tidy::few_at_end))]
    pub fn pop(&mut self) -> Option<T>
        ensures cases { MatchOption result (self.old.items ≡ [])
            (λ y. self.old.items ≡ self.new.items ++ y ∷ []) }
        ensures empty { IfNone result (self.new ≡ self.old) }
        ensures popped { Becomes self.old self.new.items 0 0 self.new }
        ensures room { IfSome result (λ _. HasRoom self.new 1) }
    {
        if self.len == 0 {
            return None;
        }
        let last = self.len - 1;
        self.len = last;
        Some(self.block.take(last))
    }
}

impl<T, A: Allocator + Default> Default for Vec<T, A> {
    ghost is_default = { λ v. (a : A) × A.is_default a × IsNew (type_size T.row) 0 a v };

    /// Returns an empty vector over a default allocator.
    ///
    /// Does not allocate.
    fn default() -> Self {
        Vec::new_in(A::default())
    }
}

impl<T: Drop, A: Allocator> Drop for Vec<T, A> {
    /// Drops the elements in order, and deallocates the block.
    #[tactic(auto, using(aa_raw::proofs::Beyond::emptied, crate::proofs::Tidy::few_at_end))]
    fn drop(self) {
        let Vec {
            mut block,
            len,
            apart,
            settled,
        } = self;
        block.drop_run(0, len);
        forget_apart(&mut block, len, &apart, &settled);
    }
}
