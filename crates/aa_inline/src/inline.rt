//! `InlineVec`: a vector that stores its first items inline.
ghost use Rattle.std.specs.Prelude.{◌≡◌, ◌+◌, ◌-◌, ◌<◌, ◌≤◌, true, false, Some, [], ◌∷◌, ◌++◌, length, insert, remove, slice_get, slice_set, option_copied, IfErr, IfOk, OnErr, OnOk, IsOk, IsTrue, ◌↔◌, MatchOption};
ghost use Rattle.std.specs.Mem.{type_size};
ghost use Rattle.allocator_api2.specs.Growth.{new_capacity};
ghost use Rattle.allocator_api2.specs.declared.raw_vec.Growth.TheVariants.{Doubling};
ghost use Rattle.aa_inline.specs.Inlined.{capacity, in_place, with_items, with_written, in_block, all_in_block, block_of, with_room, HasRoom, LacksBlock, LacksRoom};

use crate::few::{Few, insert_within, push_within};
use allocator_api2::collections::{Refused, TryReserveError, TryReserveErrorKind};
use allocator_api2::vec::Vec;
use std::alloc::Allocator;
use std::default::MadeWith;
use std::marker::Model;
use std::mem;

mod bytes;
mod collect;
mod compare;
mod convert;
mod dedup;
mod edits;
mod many;
mod places;
mod removals;
mod resize;
mod slices;

// Where the items are, and the allocator.
#[derive(Drop)]
pub(crate) enum Data<T, A: Allocator, const N: usize> {
    InPlace(Few<T, N>, A),
    InBlock(Vec<T, A>),
}

/// A vector over the allocator `A` that stores up to `N` items inline.
///
/// If one more is added, it spills: all items move into a block, where they remain until `grow` or
/// `shrink_to_fit` moves them back. Inline places without an item hold a blank, which the allocator
/// makes (`MadeWith`): a default of `T`, or an empty collection.
#[derive(Drop)]
pub struct InlineVec<T, A: Allocator, const N: usize> {
    pub(crate) data: Data<T, A, N>,
}

impl<T, A: Allocator, const N: usize> Model for InlineVec<T, A, N> {
    ghost use Rattle.aa_inline.specs.Inlined.{Inlined};

    ghost Value = { Inlined T A };

    ghost use Rattle.aa_inline.specs.InlinedInner.{view_of, Doubles};

    ghost view = { λ s. view_of s.data };

    ghost invariant = { λ s. Doubles s.data };
}

impl<T, A: Allocator, const N: usize> InlineVec<T, A, N> {
    /// Returns the number of items.
    pub fn len(&self) -> usize
        ensures { result ≡ length self.now.items }
    {
        match &self.data {
            Data::InPlace(few, _) => few.len(),
            Data::InBlock(heap) => heap.len(),
        }
    }

    /// Returns `true` if the vector has no items.
    pub fn is_empty(&self) -> bool
        ensures { IsTrue result ↔ (self.now.items ≡ []) }
    {
        self.len() == 0
    }

    /// Returns the number of items that the vector can hold before it allocates.
    pub fn capacity(&self) -> usize
        ensures { result ≡ capacity N self.now }
    {
        match &self.data {
            Data::InPlace(_, _) => N,
            Data::InBlock(heap) => heap.capacity(),
        }
    }

    // Returns how many more items fit.
    #[inline]
    fn room(&self) -> usize
        ensures { result ≡ capacity N self.now - length self.now.items }
    {
        match &self.data {
            Data::InPlace(few, _) => N - few.len(),
            Data::InBlock(heap) => heap.capacity() - heap.len(),
        }
    }

    /// Returns `true` if the items are in a block.
    pub fn spilled(&self) -> bool
        ensures { result ≡ self.now.spilled }
    {
        match &self.data {
            Data::InPlace(_, _) => false,
            Data::InBlock(_) => true,
        }
    }

    /// Returns a reference to the allocator.
    pub fn allocator(&self) -> &A
        ensures { result.now ≡ self.now.alloc }
    {
        match &self.data {
            Data::InPlace(_, alloc) => alloc,
            Data::InBlock(heap) => heap.allocator(),
        }
    }

    /// Returns the items, in order, as a slice.
    pub fn as_slice(&self) -> &[T]
        ensures { result.now ≡ self.now.items }
    {
        match &self.data {
            Data::InPlace(few, _) => few.as_slice(),
            Data::InBlock(heap) => heap.as_slice(),
        }
    }

    /// Returns a reference to the item at `index`, or `None` if there is none.
    ///
    /// The first item is at index 0.
    pub fn get(&self, index: usize) -> Option<&T>
        ensures { option_copied result ≡ slice_get self.now.items index }
    {
        self.as_slice().get(index)
    }

    /// Replaces the item at `index` by `item` and returns the old one.
    pub fn replace(&mut self, index: usize, item: T) -> T
        requires { index < length self.old.items }
        ensures old { slice_get self.old.items index ≡ Some result }
        ensures replaced { self.new ≡ with_items self.old (slice_set self.old.items index item) }
    {
        match &mut self.data {
            Data::InPlace(few, _) => return few.replace(index, item),
            Data::InBlock(heap) => mem::replace(&mut heap[index], item),
        }
    }
}

impl<T: MadeWith<A> + Drop, A: Allocator + Copy, const N: usize> InlineVec<T, A, N> {
    /// Returns an empty vector.
    ///
    /// Does not allocate.
    pub fn new_in(alloc: A) -> Self
        ensures { result ≡ in_place [] alloc }
    {
        InlineVec {
            data: Data::InPlace(Few::new(alloc), alloc),
        }
    }

    /// Reserves capacity for at least `additional` more items.
    ///
    /// Does nothing if they fit, inline or in the block. Else allocates a block with the capacity
    /// that the growth policy chooses, and moves each item there once.
    ///
    /// # Errors
    /// `CapacityOverflow` if the new length would exceed `usize::MAX` or the block would be too
    /// large. `AllocError` with the requested capacity if the allocation fails. The vector is
    /// unchanged.
    #[inline]
    #[tactic(auto, unfolding(crate::specs::Inlined::with_room), using(std::proofs::lemmas::Bool::Decides::nat_tests))]
    pub fn reserve(&mut self, additional: usize) -> Result<(), TryReserveError>
        // If they fit, the call succeeds.
        ensures fits { HasRoom N self.old additional → IsOk result }

        // Success reserves the capacity.
        ensures enough { OnOk result (HasRoom N self.new additional) }
        ensures reserved { OnOk result
            (self.new ≡ with_room (type_size T.row) N self.old additional) }

        // The items are the same in either case.
        ensures items { self.new.items ≡ self.old.items }

        // Failure changes nothing.
        ensures error { IfErr result (LacksRoom (type_size T.row) N self.old additional) }
        ensures unchanged { OnErr result (self.new ≡ self.old) }
    {
        if additional <= self.room() {
            return Ok(());
        }
        self.spill(additional)
    }

    /// Appends `item`.
    ///
    /// Does not allocate if it fits: inline if the vector has not spilled and has fewer than `N`
    /// items, else in the block.
    ///
    /// # Errors
    /// `CapacityOverflow` if the new length would exceed `usize::MAX` or the block would be too
    /// large. `AllocError` with the requested capacity if the allocation fails. The vector is
    /// unchanged and `item` is returned in the error.
    #[inline]
    #[tactic(auto, unfolding(crate::specs::Inlined::with_room), using(std::proofs::lemmas::Bool::Decides::nat_tests))]
    pub fn push(&mut self, item: T) -> Result<(), Refused<T>>
        ensures fits { HasRoom N self.old 1 → IsOk result }
        ensures pushed { let roomy = with_room (type_size T.row) N self.old 1 in
            OnOk result (self.new ≡ with_written roomy (self.old.items ++ item ∷ []) 1) }
        ensures returned { IfErr result (λ r. r.source ≡ item) }
        ensures error { IfErr result (λ r. LacksRoom (type_size T.row) N self.old 1 r.error) }
        ensures unchanged { OnErr result (self.new ≡ self.old) }
    {
        if self.room() == 0 {
            return self.push_full(item);
        }
        self.put_last(item);
        Ok(())
    }

    /// Removes the last item and returns it, or returns `None` if the vector is empty.
    ///
    /// Does not allocate, and does not move the other items.
    #[inline]
    pub fn pop(&mut self) -> Option<T>
        ensures taken { MatchOption result ((self.old.items ≡ []) × (self.new.items ≡ []))
            (λ x. self.old.items ≡ self.new.items ++ x ∷ []) }
        ensures kept { self.new ≡ with_items self.old self.new.items }
    {
        match &mut self.data {
            Data::InPlace(few, _) if few.len() == 0 => return None,
            Data::InPlace(few, alloc) => return Some(few.pop(T::made_with(*alloc))),
            Data::InBlock(heap) => heap.pop(),
        }
    }

    /// Inserts `item` at `index`, and shifts the items from there on up by one.
    ///
    /// Allocates only if `item` does not fit, as `push` does.
    ///
    /// # Errors
    /// `CapacityOverflow` or `AllocError`, as `push` returns them. The vector is unchanged and
    /// `item` is returned in the error.
    pub fn insert(&mut self, index: usize, item: T) -> Result<(), Refused<T>>
        // The index is at most the length.
        requires { index ≤ length self.old.items }

        // If one more item fits, the call succeeds.
        ensures fits { HasRoom N self.old 1 → IsOk result }
        ensures inserted { let tail_len = length self.old.items - index in
            let roomy = with_room (type_size T.row) N self.old 1 in
            OnOk result
            (self.new ≡ with_written roomy (insert self.old.items index item) (tail_len + 1)) }

        // Failure changes nothing, and returns the item.
        ensures returned { IfErr result (λ r. r.source ≡ item) }
        ensures error { IfErr result (λ r. LacksRoom (type_size T.row) N self.old 1 r.error) }
        ensures unchanged { OnErr result (self.new ≡ self.old) }
    {
        if let Err(error) = self.reserve(1) {
            return Err(Refused {
                source: item,
                error,
            });
        }
        self.put(index, item);
        Ok(())
    }

    /// Removes the item at `index` and returns it. The items after it shift down by one.
    ///
    /// Does not allocate. The other items remain inline, or in the block.
    pub fn remove(&mut self, index: usize) -> T
        requires { index < length self.old.items }
        ensures value { slice_get self.old.items index ≡ Some result }
        ensures removed { let tail_len = length self.old.items - index - 1 in
            self.new ≡ with_written self.old (remove self.old.items index) tail_len }
    {
        match &mut self.data {
            Data::InPlace(few, alloc) => return few.remove(index, T::made_with(*alloc)),
            Data::InBlock(heap) => heap.remove(index),
        }
    }

    /// Converts the small vector into a `Vec` that doubles.
    ///
    /// Allocates only if the items are inline and there are any, and then moves each of them once.
    ///
    /// # Errors
    /// `CapacityOverflow`, or `AllocError` with the requested capacity, if the allocation fails.
    /// The small vector is returned in the error, as it was.
    #[tactic(auto, unfolding(crate::specs::Inlined::all_in_block))]
    pub fn into_vec(self) -> Result<Vec<T, A>, Refused<Self>>
        ensures fits { self.spilled ≡ true → IsOk result }
        ensures made { IfOk result (λ v. block_of v ≡ all_in_block (type_size T.row) self) }
        ensures doubles { IfOk result (λ v. v.growth ≡ Doubling) }
        ensures returned { IfErr result (λ r. r.source ≡ self) }
        ensures error { let n = length self.items in
            IfErr result (λ r. LacksBlock (type_size T.row) n r.error) }
    {
        let InlineVec { data } = self;
        match data {
            Data::InBlock(heap) => Ok(heap),
            Data::InPlace(few, alloc) => {
                let mut few = few;
                let needed = few.len();
                match move_to_block(&mut few, alloc, needed) {
                    Ok(heap) => Ok(heap),
                    Err(error) => Err(Refused {
                        source: InlineVec {
                            data: Data::InPlace(few, alloc),
                        },
                        error,
                    }),
                }
            }
        }
    }

    // Moves the items into a block, or into a larger one, with capacity for `additional` more
    // items, which do not fit.
    #[cold]
    #[inline(never)]
    #[tactic(auto, using(allocator_api2::proofs::Blocks::numbers), unfolding(crate::specs::Inlined::in_block, crate::specs::Inlined::LacksRoom, crate::specs::Inlined::LacksBlock))]
    fn spill(&mut self, additional: usize) -> Result<(), TryReserveError>
        // The additional items do not fit.
        requires { capacity N self.old - length self.old.items < additional }

        // Success reserves capacity for them.
        ensures enough { OnOk result (HasRoom N self.new additional) }
        ensures made { let needed = length self.old.items + additional in
            OnOk result (self.new ≡ in_block (type_size T.row) needed self.old) }

        // The items are the same in either case.
        ensures items { self.new.items ≡ self.old.items }

        // Failure changes nothing.
        ensures error { IfErr result (LacksRoom (type_size T.row) N self.old additional) }
        ensures unchanged { OnErr result (self.new ≡ self.old) }
    {
        match &mut self.data {
            Data::InBlock(heap) => return heap.try_reserve(additional),
            Data::InPlace(few, alloc) => {
                let Some(needed) = few.len().checked_add(additional) else {
                    return Err(TryReserveErrorKind::CapacityOverflow.into());
                };
                let heap = move_to_block(few, *alloc, needed)?;
                self.data = Data::InBlock(heap);
                Ok(())
            }
        }
    }

    // `push` onto a full vector, out of line.
    #[cold]
    #[inline(never)]
    fn push_full(&mut self, last: T) -> Result<(), Refused<T>>
        requires { capacity N self.old - length self.old.items ≡ 0 }
        ensures pushed { let roomy = in_block (type_size T.row) (length self.old.items + 1) self.old in
            OnOk result (self.new ≡ with_written roomy (self.old.items ++ last ∷ []) 1) }
        ensures returned { IfErr result (λ r. r.source ≡ last) }
        ensures error { IfErr result (λ r. LacksRoom (type_size T.row) N self.old 1 r.error) }
        ensures unchanged { OnErr result (self.new ≡ self.old) }
    {
        if let Err(error) = self.spill(1) {
            return Err(Refused {
                source: last,
                error,
            });
        }
        self.put_last(last);
        Ok(())
    }

    // Appends `item`, which must fit.
    #[inline]
    fn put_last(&mut self, item: T)
        requires { HasRoom N self.old 1 }
        ensures { self.new ≡ with_written self.old (self.old.items ++ item ∷ []) 1 }
    {
        match &mut self.data {
            Data::InPlace(few, _) => return few.push(item),
            Data::InBlock(heap) => push_within(heap, item),
        }
    }

    // Inserts `item` at `index`, where it must fit.
    fn put(&mut self, index: usize, item: T)
        requires within { index ≤ length self.old.items }
        requires room { HasRoom N self.old 1 }
        ensures { let tail_len = length self.old.items - index in
            self.new ≡ with_written self.old (insert self.old.items index item) (tail_len + 1) }
    {
        match &mut self.data {
            Data::InPlace(few, _) => return few.insert(index, item),
            Data::InBlock(heap) => insert_within(heap, index, item),
        }
    }
}

// Moves the items of `few` into a new block of at least `needed` places, and returns it as a
// vector.
#[tactic(auto, unfolding(crate::specs::Inlined::LacksBlock))]
fn move_to_block<T: MadeWith<A> + Drop, A: Allocator + Copy, const N: usize>(
    few: &mut Few<T, N>,
    alloc: A,
    needed: usize,
) -> Result<Vec<T, A>, TryReserveError>
    // The items fit in that many places.
    requires { length few.old ≤ needed }

    // Success returns a vector of them that doubles.
    ensures made { IfOk result
        (λ v. block_of v ≡ in_block (type_size T.row) needed (in_place few.old alloc)) }
    ensures doubles { IfOk result (λ v. v.growth ≡ Doubling) }

    // Only an allocation can fail, and failure changes nothing.
    ensures error { IfErr result (LacksBlock (type_size T.row) needed) }
    ensures fits { needed ≤ new_capacity (type_size T.row) 0 → IsOk result }
    ensures unchanged { OnErr result (few.new ≡ few.old) }
{
    let mut heap = Vec::new_in(alloc);
    heap.try_reserve(needed)?;
    few.pour(&mut heap);
    Ok(heap)
}
