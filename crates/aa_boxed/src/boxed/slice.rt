//! `BoxedSlice`, a list in a block without spare capacity.
ghost use Rattle.std.specs.Prelude.{◌≡◌, ◌<◌, ◌≤◌, ◌⊎◌, [], None, length, drop, All, IfOk, IfErr, IsOk, slice_index_or};
ghost use Rattle.std.specs.List.{AllZip};
ghost use Rattle.std.specs.Mem.{type_size};
ghost use Rattle.std.specs.Borrow.{sem};
ghost use Rattle.std.specs.Iterator.{IsFinite, IsFiniteIterable, IsNearerEnd, Drains, YieldsThen, size};
ghost use Rattle.std.specs.Iterator.Runs.{WholeRun};
ghost use Rattle.aa_raw.specs.Clones.{ClonesAreEqual};
ghost use Rattle.aa_raw.specs.Growth.{new_capacity};
ghost use Rattle.aa_raw.specs.Growths.{of_new};
ghost use Rattle.aa_raw.specs.Places.{AreEmpty, IsRun};
ghost use Rattle.aa_raw.specs.Errors.{AllocationFails, ClonesFail};
ghost use Rattle.aa_raw.specs.declared.raw_vec.Growth.TheVariants.{Doubling};
ghost use Rattle.aa_boxed.specs.Room.{IsExactFor};
ghost use Rattle.aa_boxed.specs.Slice.{new_slice, slice_of, CollectCost, CollectResult, FromIterFails, FailsAtEnd};
ghost use Rattle.aa_boxed.specs.Hints.{LowerAtMost};
ghost use Rattle.aa_boxed.specs.Slice.{Slice};
ghost use Rattle.aa_boxed.specs.BoxedSliceInner.{view_of, IsWhole};

use crate::boxed::builder::Builder;
use aa_raw::collections::{TryReserveError, TryReserveErrorKind};
use aa_raw::raw_vec::{Growth, RawVec};
use std::alloc::{Allocator, Global};
use std::default::Default;
use std::iter::IntoIterator;
use std::marker::Model;

/// A list whose elements fill their block exactly.
///
/// Does not allocate for zero-sized elements, whose block has `usize::MAX` places.
///
/// Corresponds to allocator-api2's `Box<[T], A>`.
pub struct BoxedSlice<T, A: Allocator = Global> {
    block: RawVec<T, A>,
    len: usize,
}

impl<T, A: Allocator> Model for BoxedSlice<T, A> {
    ghost Value = { Slice T A };

    ghost view = { view_of };

    ghost invariant = { IsWhole };
}

impl<T> BoxedSlice<T, Global> {
    /// Returns the items of `iter`, in order, allocated by the global allocator.
    ///
    /// The iterator must be finite. Allocates as `from_iter_in` does.
    ///
    /// # Errors
    /// As for `from_iter_in`.
    ///
    /// Corresponds to allocator-api2's `FromIterator` for `Box<[T]>`, which aborts instead of
    /// returning an error.
    pub fn from_iter<I: IntoIterator<Item = T>>(
        alloc: Global,
        iter: I,
    ) -> Result<Self, TryReserveError>
    where
        T: Drop,
        // The iterator that is made of `iter` can be called, and is finite.
        requires finite { IsFiniteIterable I.into_iter_gives I.IntoIter.can_next
            I.IntoIter.remaining iter }

        // Items that fit in no block that has to grow are collected without an error.
        ensures fits { ((it : I.IntoIter) → I.into_iter_gives iter it
            → size (I.IntoIter.remaining it) ≤ new_capacity (type_size T.row) 0) → IsOk result }

        // The record says what success returns, and which items were taken before an error.
        ensures collected { (it : I.IntoIter) × (after : I.IntoIter) × I.into_iter_gives iter it
            × CollectResult I.IntoIter.next_gives I.IntoIter.remaining (type_size T.row) it alloc
            after result }
    {
        BoxedSlice::from_iter_in(iter, alloc)
    }
}

impl<T, A: Allocator> BoxedSlice<T, A> {
    ghost use Rattle.aa_boxed.specs.BoxedSliceLends.{lends_items, lends_item};

    /// Returns a copy of `source`, allocated by `alloc`.
    ///
    /// Does not allocate if `source` is empty or its elements are zero-sized.
    ///
    /// # Errors
    /// `CapacityOverflow`; or `AllocError` with the length of `source`.
    ///
    /// Corresponds to allocator-api2's `From<&[T]>` for `Box<[T], A>`, which aborts instead of
    /// returning an error.
    pub fn from_slice(alloc: A, source: &[T]) -> Result<Self, TryReserveError>
    where
        T: Copy,
        ensures made { IfOk result (λ b. b ≡ new_slice (type_size T.row) source.now alloc) }
        ensures error { IfErr result (AllocationFails (length source.now) (type_size T.row)) }
    {
        let count = source.len();
        let mut builder = Builder::with_room(Growth::Doubling, count, alloc)?;
        builder.put_copies(source);
        Ok(builder.finish_exact())
    }

    /// Returns the items of `iter`, in order, allocated by `alloc`.
    ///
    /// The iterator must be finite. If an item does not fit, allocates for it and for the lower
    /// bound of `size_hint` after it, by the growth policy. At the end, shrinks the block to the
    /// items.
    ///
    /// # Errors
    /// `CapacityOverflow`, always if the requested length exceeds `usize::MAX`; or `AllocError`
    /// with the requested capacity. `AllocError` with the length if the allocation of the final
    /// block fails. The items that were taken are dropped.
    ///
    /// Not in allocator-api2.
    pub fn from_iter_in<I: IntoIterator<Item = T>>(
        iter: I,
        alloc: A,
    ) -> Result<Self, TryReserveError>
    where
        T: Drop,
        // The iterator that is made of `iter` can be called, and is finite.
        requires finite { IsFiniteIterable I.into_iter_gives I.IntoIter.can_next
            I.IntoIter.remaining iter }

        // Items that fit in no block that has to grow are collected without an error.
        ensures fits { ((it : I.IntoIter) → I.into_iter_gives iter it
            → size (I.IntoIter.remaining it) ≤ new_capacity (type_size T.row) 0) → IsOk result }

        // The record says what success returns, and which items were taken before an error.
        ensures collected { (it : I.IntoIter) × (after : I.IntoIter) × I.into_iter_gives iter it
            × CollectResult I.IntoIter.next_gives I.IntoIter.remaining (type_size T.row) it alloc
            after result }
    {
        let mut rest = iter.into_iter();
        BoxedSlice::from_iter_in_by(&mut rest, alloc)
    }

    /// Like `from_iter_in`, but takes the iterator by `&mut`.
    ///
    /// Allocates as `from_iter_in` does. If an allocation for an item fails, that item is the last
    /// that was taken.
    ///
    /// # Errors
    /// As for `from_iter_in`.
    ///
    /// Not in allocator-api2.
    pub fn from_iter_in_by<I: Iterator<Item = T>>(
        iter: &mut I,
        alloc: A,
    ) -> Result<Self, TryReserveError>
    where
        T: Drop,
        // The iterator can be called, and is finite.
        requires callable { I.can_next iter.old }
        requires finite { IsFinite (I.remaining iter.old) }

        // Success returns all items, in order.
        ensures fits { size (I.remaining iter.old) ≤ new_capacity (type_size T.row) 0
            → IsOk result }
        ensures collected { IfOk result
            (λ b. YieldsThen I.next_gives iter.old b.items None iter.new) }
        ensures runs { IfOk result (λ b. WholeRun I.next_gives iter.old (λ p. b.items ≡ p.items)) }

        // The block grows by doubling, over the given allocator.
        ensures growth { IfOk result (λ b. b.growth ≡ Doubling) }
        ensures grown { let most = size (I.remaining iter.old) in IfOk result
            (λ b. CollectCost (type_size T.row) (length b.items) most b.grown) }
        ensures alloc { IfOk result (λ b. b.alloc ≡ alloc) }

        // Failure says which items were taken, and which allocation failed.
        ensures failed { IfErr result
            (λ e. FromIterFails I.next_gives (LowerAtMost I.remaining) (type_size T.row)
            iter.old e iter.new) }
        ensures advanced { IfErr result
            (λ e. IsNearerEnd I.can_next I.remaining iter.old iter.new
            ⊎ FailsAtEnd I.next_gives (LowerAtMost I.remaining) (type_size T.row)
            iter.old e iter.new) }
        ensures still_finite { IsFinite (I.remaining iter.new) }
    {
        let mut builder = Builder::with_room(Growth::Doubling, 0, alloc)?;
        while let Some(x) = iter.next() {
            if builder.is_full() {
                builder.reserve(iter.size_hint().0.saturating_add(1))?;
            }
            builder.put(x);
        }
        builder.finish_shrunk()
    }

    /// Returns a boxed slice with a clone of each element, over a clone of the allocator.
    ///
    /// Allocates before the first clone. Does not allocate if the slice is empty or its elements
    /// are zero-sized.
    ///
    /// # Errors
    /// `CapacityOverflow`; or `AllocError` with the length, if the allocation or a clone fails. The
    /// clones made before are dropped.
    ///
    /// allocator-api2's `clone` aborts instead of returning an error.
    pub fn clone(&self) -> Result<Self, TryReserveError>
    where
        T: Clone + Drop,
        A: Clone,
        ensures made { IfOk result (λ b. AllZip T.is_clone self.now.items b.items) }
        ensures growth { IfOk result (λ b. b.growth ≡ self.now.growth) }
        ensures grown { IfOk result
            (λ b. b.grown ≡ of_new (type_size T.row) (length self.now.items)) }
        ensures alloc { IfOk result (λ b. A.is_clone self.now.alloc b.alloc) }
        ensures copied { ClonesAreEqual T.is_clone → IfOk result (λ b. b.items ≡ self.now.items) }
        ensures error { let sure = All T.is_infallible self.now.items
            × A.is_infallible self.now.alloc in
            IfErr result (ClonesFail sure (length self.now.items) (type_size T.row)) }
    {
        let source = self.as_slice();
        let capacity = source.len();
        let Ok(alloc) = self.allocator().clone() else {
            return Err(TryReserveErrorKind::AllocError { capacity }.into());
        };
        let mut builder = Builder::with_room(self.block.growth(), capacity, alloc)?;
        if builder.put_clones(source) {
            return Ok(builder.finish_exact());
        }
        Err(TryReserveErrorKind::AllocError { capacity }.into())
    }

    /// Returns the first `len` values of `block` as a boxed slice in that block.
    ///
    /// The first `len` places must be filled. The block must have `len` places, or `usize::MAX`.
    /// Does not allocate.
    ///
    /// Not in allocator-api2, where a vector disassembles itself.
    #[tactic(auto, using(aa_raw::proofs::Calls::in_runs))]
    pub fn from_block(block: RawVec<T, A>, len: usize) -> Self
        requires filled { IsRun block.places 0 len }
        requires exact { IsExactFor len block.places }
        ensures { result ≡ slice_of block len }
    {
        let mut block = block;
        block.forget_from(len);
        BoxedSlice { block, len }
    }

    /// Returns the block, and the number of its filled places, which are its first and only ones.
    ///
    /// Does not allocate.
    ///
    /// Not in allocator-api2.
    pub fn into_block(self) -> (RawVec<T, A>, usize)
        ensures filled { IsRun result.0.places 0 result.1 }
        ensures others { AreEmpty (drop result.1 result.0.places) }
        ensures exact { IsExactFor result.1 result.0.places }
        ensures unchanged { slice_of result.0 result.1 ≡ self }
    {
        let BoxedSlice { block, len } = self;
        (block, len)
    }

    /// Returns the elements as a slice.
    ///
    /// Corresponds to the dereference of allocator-api2's `Box<[T], A>`.
    #[tactic(auto, using(aa_raw::proofs::Calls::shown))]
    pub fn as_slice(&self) -> &[T]
        ensures { result.now ≡ self.now.items }
    {
        self.block.slice(0, self.len)
    }

    /// Returns the elements as a mutable slice.
    ///
    /// Corresponds to the mutable dereference of allocator-api2's `Box<[T], A>`.
    #[tactic(auto, using(aa_raw::proofs::Calls::shown))]
    pub fn as_mut_slice(&mut self) -> &mut [T]
        ensures* writes_back { sem 𝓛 (lends_items T.row A.row A.Allocator self.entry result) }
        ensures value { result.now ≡ self.old.items }
    {
        self.block.slice_mut(0, self.len)
    }

    /// Returns a mutable reference to the element at `index`.
    #[tactic(auto, using(aa_raw::proofs::Positions::at_positions, crate::proofs::Indexed::at_index))]
    pub(crate) fn item_mut(&mut self, index: usize) -> &mut T
        requires { index < length self.old.items }
        ensures* writes_back { sem 𝓛 (lends_item T.row A.row A.Allocator self.entry index result) }
        ensures value { result.now ≡ slice_index_or self.old.items index result.now }
    {
        self.block.place_mut(index)
    }

    /// Returns a reference to the allocator.
    pub fn allocator(&self) -> &A
        ensures { result.now ≡ self.now.alloc }
    {
        self.block.allocator()
    }
}

impl<T, A: Allocator + Default> Default for BoxedSlice<T, A> {
    ghost is_default = { λ b. (b.items ≡ []) × (b.growth ≡ Doubling)
        × (b.grown ≡ of_new (type_size T.row) 0) × A.is_default b.alloc };

    /// Returns an empty boxed slice, over the default allocator.
    ///
    /// Does not allocate.
    #[tactic(auto, using(aa_raw::proofs::Calls::at_ends))]
    fn default() -> Self {
        BoxedSlice::from_block(RawVec::new_in(A::default()), 0)
    }
}

impl<T: Drop, A: Allocator> Drop for BoxedSlice<T, A> {
    /// Drops the elements in order and deallocates the memory.
    #[tactic(auto, using(aa_raw::proofs::Beyond::emptied))]
    fn drop(self) {
        let BoxedSlice { mut block, len } = self;
        block.drop_run(0, len);
    }
}
