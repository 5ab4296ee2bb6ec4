//! `Heap`: a priority queue, whose greatest item comes first.
ghost use Rattle.std.specs.Prelude.{◌≡◌, ◌+◌, OnSome, ◌-◌, [], ◌∷◌, ◌++◌, length, MatchOption, slice_get, option_copied, IfSome, IfNone, IfOk, IfErr, OnOk, OnErr, IsOk, IsTrue, ◌↔◌, ◌≤◌, IsPermutation};
ghost use Rattle.std.specs.Mem.{type_size};
ghost use Rattle.std_alloc.specs.BinaryHeap.{IsHeap, IsUpperBound};
ghost use Rattle.allocator_api2.specs.Errors.{AllocationFails};
ghost use Rattle.allocator_api2.specs.Vector.{len, HasRoom, LacksRoom, IsNew, Becomes, run_count, with_room};

use crate::order;
use allocator_api2::collections::{Refused, TryReserveError};
use allocator_api2::vec::Vec;
use std::alloc::{Allocator, Global};
use std::marker::Model;

mod convert;
mod many;
mod reserve;
mod traits;

/// A priority queue over the allocator `A`: a binary heap in a vector.
///
/// `peek` and `pop` return the greatest item. Contracts see a heap as its vector, whose items are
/// in heap order.
#[derive(Drop)]
pub struct Heap<T: Ord, A: Allocator = Global> {
    vec: Vec<T, A>,
}

impl<T: Ord, A: Allocator> Model for Heap<T, A> {
    ghost use Rattle.allocator_api2.specs.Vector.{Vector};
    ghost use Rattle.std_alloc.specs.BinaryHeap.{IsHeap};

    ghost Value = { Vector T A };

    ghost view = { λ h. h.vec };

    ghost invariant = { λ h. IsHeap T.cmp h.vec.items };
}

impl<T: Ord, A: Allocator> Heap<T, A> {
    /// Returns an empty heap.
    ///
    /// Does not allocate.
    #[tactic(auto, using(crate::proofs::Heaps::none))]
    pub fn new_in(alloc: A) -> Self
        ensures { IsNew (type_size T.row) 0 alloc result }
    {
        Heap {
            vec: Vec::new_in(alloc),
        }
    }

    /// Returns an empty heap with capacity for exactly `capacity` items.
    ///
    /// Allocates if `capacity` is above 0, except for zero-sized items.
    ///
    /// # Errors
    /// `CapacityOverflow`, or `AllocError` with `capacity`, if the allocation fails.
    #[tactic(auto, using(crate::proofs::Heaps::none))]
    pub fn with_capacity_in(capacity: usize, alloc: A) -> Result<Self, TryReserveError>
        ensures made { IfOk result (λ h. IsNew (type_size T.row) capacity alloc h) }
        ensures error { IfErr result (AllocationFails capacity (type_size T.row)) }
    {
        let vec = Vec::with_capacity_in(capacity, alloc)?;
        Ok(Heap { vec })
    }

    /// Returns the number of items.
    pub fn len(&self) -> usize
        ensures count { result ≡ len self.now }
        ensures within { result ≤ self.now.capacity }
    {
        self.vec.len()
    }

    /// Returns `true` if the heap has no items.
    pub fn is_empty(&self) -> bool
        ensures { IsTrue result ↔ (self.now.items ≡ []) }
    {
        self.vec.is_empty()
    }

    /// Returns the number of items that the heap can hold before it allocates.
    ///
    /// Returns `usize::MAX` for zero-sized items.
    pub fn capacity(&self) -> usize
        ensures { result ≡ self.now.capacity }
    {
        self.vec.capacity()
    }

    /// Returns a reference to the underlying allocator.
    pub fn allocator(&self) -> &A
        ensures { result.now ≡ self.now.alloc }
    {
        self.vec.allocator()
    }

    /// Returns a slice of all items, in heap order.
    ///
    /// The first item is the greatest. No item is less than one of its children, which for the item
    /// at `i` are at `2 * i + 1` and `2 * i + 2`.
    pub fn as_slice(&self) -> &[T]
        ensures value { result.now ≡ self.now.items }
        ensures order { IsHeap T.cmp result.now }
    {
        self.vec.as_slice()
    }

    /// Returns a reference to the greatest item, or `None` if the heap is empty.
    ///
    /// It is the first of the items in heap order, which is the one that `pop` removes.
    pub fn peek(&self) -> Option<&T>
        ensures first { option_copied result ≡ slice_get self.now.items 0 }
        ensures greatest { IfSome result (λ x. IsUpperBound T.cmp x.now self.now.items) }
    {
        self.vec.as_slice().first()
    }

    /// Adds `item`.
    ///
    /// Allocates only if the heap is full, and then as `reserve(1)` does.
    ///
    /// # Errors
    /// `CapacityOverflow` or `AllocError`, as `reserve(1)` returns them. The heap is unchanged and
    /// `item` is returned in the error.
    pub fn push(&mut self, item: T) -> Result<(), Refused<T>>
        // An item that fits is added without an error. The items are in heap order then.
        ensures fits { HasRoom self.old 1 → IsOk result }
        ensures pushed { let roomy = with_room (type_size T.row) self.old (length self.old.items) 1
            in OnOk result (Becomes roomy self.new.items 1 1 self.new) }
        ensures items { OnOk result (IsPermutation (item ∷ self.old.items) self.new.items) }
        ensures count { OnOk result (len self.new ≡ len self.old + 1) }
        ensures order { IsHeap T.cmp self.new.items }

        // An error returns the item, and changes nothing.
        ensures error { IfErr result (λ r. LacksRoom (type_size T.row) self.old 1 r.error) }
        ensures returned { IfErr result (λ r. r.source ≡ item) }
        ensures unchanged { OnErr result (self.new ≡ self.old) }
    {
        let at = self.vec.len();
        if let Err(refused) = self.vec.push(item) {
            return Err(refused);
        }
        order::sift_up(&mut self.vec, at);
        Ok(())
    }

    /// Removes the greatest item and returns it, or `None` if the heap is empty.
    ///
    /// Does not allocate, and does not change the capacity.
    pub fn pop(&mut self) -> Option<T>
        // It is the first item, which is no less than any other. The others are in heap order then.
        ensures first { result ≡ slice_get self.old.items 0 }
        ensures greatest { IfSome result (λ x. IsUpperBound T.cmp x self.old.items) }
        ensures remaining { IfSome result (λ x. IsUpperBound T.cmp x self.new.items) }
        ensures items { IfSome result (λ x. IsPermutation self.old.items (x ∷ self.new.items)) }
        ensures count { OnSome result (len self.new + 1 ≡ len self.old) }
        ensures popped { let moved = run_count (len self.old - 1) in
            IfSome result (λ x. Becomes self.old self.new.items moved moved self.new) }
        ensures order { IsHeap T.cmp self.new.items }

        // An empty heap is unchanged.
        ensures empty { IfNone result (self.new ≡ self.old) }
    {
        if self.vec.is_empty() {
            return None;
        }
        let greatest = self.vec.swap_remove(0);
        order::sift_to_bottom(&mut self.vec);
        Some(greatest)
    }

    /// Removes and drops all items.
    ///
    /// Does not allocate, and does not change the capacity.
    #[tactic(auto, using(crate::proofs::Heaps::none))]
    pub fn clear(&mut self)
    where
        T: Drop,
        ensures { Becomes self.old [] 0 0 self.new }
    {
        self.vec.clear();
    }

    // Removes the last item in heap order and returns it, or returns `None` if the heap is empty.
    pub(crate) fn pop_last(&mut self) -> Option<T>
        ensures cases { MatchOption result (self.old.items ≡ [])
            (λ x. self.old.items ≡ self.new.items ++ x ∷ []) }
        ensures empty { IfNone result (self.new ≡ self.old) }
        ensures popped { Becomes self.old self.new.items 0 0 self.new }
    {
        self.vec.pop()
    }
}
