//! Many items at once: the items of another heap or of an iterator, and clones.
ghost use Rattle.std.specs.Prelude.{◌≡◌, ◌+◌, ◌≤◌, Bool, List, [], ◌++◌, length, filter, All, Ok, Err, IfErr, IfOk, IsOk, OnErr, OnOk, IsPermutation};
ghost use Rattle.std.specs.Fn.{CalledAt, TakesAt};
ghost use Rattle.std.specs.Mem.{type_size};
ghost use Rattle.std.specs.Iterator.{IsFiniteIterable, Drains, size};
ghost use Rattle.std.specs.Iterator.Runs.{WholeRun};
ghost use Rattle.std_alloc.specs.BinaryHeap.{IsHeap};
ghost use Rattle.allocator_api2.specs.Choosing.{Reads, IsCallableInOrder, Retains};
ghost use Rattle.allocator_api2.specs.Clones.{ClonesAreEqual, ClonesCannotFail};
ghost use Rattle.allocator_api2.specs.Copies.{IsMadeOf};
ghost use Rattle.allocator_api2.specs.Errors.{ClonesFail};
ghost use Rattle.allocator_api2.specs.Extend.{LowerAtMost, ExtendResult, CollectResult};
ghost use Rattle.allocator_api2.specs.Growth.{new_capacity};
ghost use Rattle.allocator_api2.specs.Vector.{Vector, len, HasRoom, LacksRoom, Becomes, run_count, with_room};
ghost use Rattle.aa_heap.specs.Heaps.{Reorders};

use crate::heap::Heap;
use crate::order;
use allocator_api2::collections::TryReserveError;
use allocator_api2::vec::Vec;
use std::alloc::{AllocError, Allocator};

impl<T: Ord, A: Allocator> Heap<T, A> {
    /// Moves all items of `other` to this heap, leaving `other` empty.
    ///
    /// `other` keeps its capacity. Allocates only if the items do not fit, and then as `reserve`
    /// does. If `other` has more items than this heap, all are put in heap order anew, and else the
    /// items are added one by one.
    ///
    /// # Errors
    /// `CapacityOverflow` or `AllocError`, as `reserve` returns them. Neither heap is changed.
    pub fn append(&mut self, other: &mut Self) -> Result<(), TryReserveError>
        // Items that fit are moved without an error.
        ensures fits { HasRoom self.old (len other.old) → IsOk result }
        ensures appended { let moved = length other.old.items in
            let roomy = with_room (type_size T.row) self.old (length self.old.items) moved in
            OnOk result (Becomes roomy self.new.items moved (run_count moved) self.new) }
        ensures items { OnOk result
            (IsPermutation (self.old.items ++ other.old.items) self.new.items) }
        ensures count { OnOk result (len self.new ≡ len self.old + len other.old) }
        ensures order { IsHeap T.cmp self.new.items }
        ensures emptied { OnOk result (Becomes other.old [] 0 0 other.new) }

        // An error changes neither heap.
        ensures error { IfErr result (LacksRoom (type_size T.row) self.old (len other.old)) }
        ensures unchanged { OnErr result (self.new ≡ self.old) }
        ensures other_unchanged { OnErr result (other.new ≡ other.old) }
    {
        let start = self.vec.len();
        if let Err(error) = self.vec.append(&mut other.vec) {
            return Err(error);
        }
        order::take_in(&mut self.vec, start);
        Ok(())
    }

    /// Adds the items of `iter`, which must end.
    ///
    /// Appends them to the vector as its `extend` does, and then puts all in heap order as `append`
    /// does. So it does not allocate if the items fit.
    ///
    /// # Errors
    /// `CapacityOverflow` or `AllocError`, as the vector's `extend` returns them. The items placed
    /// so far are kept. The item that found no place is dropped, and no other item is taken.
    pub fn extend<I: IntoIterator<Item = T>>(&mut self, iter: I) -> Result<(), TryReserveError>
    where
        T: Drop,
        // The iterator can be called, and is finite.
        requires finite { IsFiniteIterable I.into_iter_gives I.IntoIter.can_next
            I.IntoIter.remaining iter }

        // Success adds all items. If they fit, the call succeeds.
        ensures items { OnOk result ((it : I.IntoIter) × (xs : List T)
            × I.into_iter_gives iter it × Drains I.IntoIter.next_gives it xs
            × IsPermutation (self.old.items ++ xs) self.new.items) }
        ensures fits { ((it : I.IntoIter) → I.into_iter_gives iter it
            → HasRoom self.old (size (I.IntoIter.remaining it))) → IsOk result }

        // What the vector's `extend` leaves is in heap order then, also after an error.
        ensures extended { (it : I.IntoIter) × (after : I.IntoIter) × (v : Vector T A)
            × I.into_iter_gives iter it
            × ExtendResult I.IntoIter.next_gives (LowerAtMost I.IntoIter.remaining)
            (type_size T.row) it self.old after result v × Reorders v self.new }
        ensures order { IsHeap T.cmp self.new.items }
    {
        let start = self.vec.len();
        let added = self.vec.extend(iter);
        order::take_in(&mut self.vec, start);
        added
    }

    /// Returns a new heap of the items of `iter`, which must end.
    ///
    /// Collects them as the vector's `from_iter_in` does, and then puts them in heap order. So it
    /// does not allocate if there is no item, or for zero-sized items.
    ///
    /// # Errors
    /// `CapacityOverflow` or `AllocError`, as the vector's `extend` returns them. The items that
    /// were taken from the iterator are dropped.
    pub fn from_iter_in<I: IntoIterator<Item = T>>(
        iter: I,
        alloc: A,
    ) -> Result<Self, TryReserveError>
    where
        T: Drop,
        // The iterator can be called, and is finite.
        requires finite { IsFiniteIterable I.into_iter_gives I.IntoIter.can_next
            I.IntoIter.remaining iter }

        // Success returns all items. If no allocation is needed, the call succeeds.
        ensures items { IfOk result (λ h. (it : I.IntoIter) × (xs : List T)
            × I.into_iter_gives iter it × Drains I.IntoIter.next_gives it xs
            × IsPermutation xs h.items) }
        ensures fits { ((it : I.IntoIter) → I.into_iter_gives iter it
            → size (I.IntoIter.remaining it) ≤ new_capacity (type_size T.row) 0) → IsOk result }
        ensures made { IfOk result (λ h. (it : I.IntoIter) × (after : I.IntoIter)
            × (v : Vector T A) × I.into_iter_gives iter it
            × CollectResult I.IntoIter.next_gives (LowerAtMost I.IntoIter.remaining)
            (type_size T.row) it alloc after (Ok v) × Reorders v h) }
        ensures order { IfOk result (λ h. IsHeap T.cmp h.items) }

        // Failure is that of the vector.
        ensures error { IfErr result (λ e. (it : I.IntoIter) × (after : I.IntoIter)
            × I.into_iter_gives iter it
            × CollectResult I.IntoIter.next_gives (LowerAtMost I.IntoIter.remaining)
            (type_size T.row) it alloc after (Err e)) }
    {
        match Vec::from_iter_in(iter, alloc) {
            Ok(vec) => Ok(Heap::from_vec(vec)),
            Err(error) => Err(error),
        }
    }

    /// Keeps only the items for which `f` returns `true`.
    ///
    /// `f` is called once for each item, in heap order. The others are dropped. Then the kept items
    /// are put in heap order. Does not allocate, and does not change the capacity.
    pub fn retain<F: FnMut(&T) -> bool + Drop>(&mut self, f: F)
    where
        T: Drop,
        requires { IsCallableInOrder (Reads F.FnMut) (TakesAt F.FnMut) f self.old.items }
        ensures retained { (last : F) × (v : Vector T A)
            × Retains (Reads F.FnMut) f self.old last v × Reorders v self.new }
        ensures pure_test { (test : T → Bool) → ((x : T) (res : Bool) (g : F)
            → CalledAt F.FnMut f x res g → (res ≡ test x) × (g ≡ f))
            → IsPermutation (filter test self.old.items) self.new.items }
        ensures order { IsHeap T.cmp self.new.items }
    {
        self.vec.retain(f);
        order::build(&mut self.vec);
    }
}

impl<T: Ord + Clone, A: Allocator> Heap<T, A> {
    /// Returns a heap of a clone of each item, over a clone of the allocator.
    ///
    /// It has the growth policy of this one, and capacity for exactly the items. Allocates once,
    /// before the first clone of an item. The clones are put in heap order.
    ///
    /// # Errors
    /// `CapacityOverflow`, or `AllocError` with the length, also if a clone of the allocator or of
    /// an item fails. The clones made so far are dropped.
    pub fn clone(&self) -> Result<Self, TryReserveError>
    where
        A: Clone,
        ensures made { IfOk result (λ copy. (v : Vector T A)
            × IsMadeOf T.is_clone (type_size T.row) self.now.growth self.now.items v
            × Reorders v copy) }
        ensures alloc { IfOk result (λ copy. A.is_clone self.now.alloc copy.alloc) }
        ensures copied { ClonesAreEqual T.is_clone → IfOk result
            (λ copy. IsPermutation self.now.items copy.items) }
        ensures order { IfOk result (λ copy. IsHeap T.cmp copy.items) }
        ensures error { IfErr result
            (ClonesFail (All T.is_infallible self.now.items × A.is_infallible self.now.alloc)
            (len self.now) (type_size T.row)) }
    {
        match self.vec.clone() {
            Ok(copy) => Ok(Heap::from_vec(copy)),
            Err(error) => Err(error),
        }
    }
}

impl<T: Ord + Clone, A: Allocator + Clone> Clone for Heap<T, A> {
    ghost is_clone = { λ h copy. ((v : Vector T A)
        × IsMadeOf T.is_clone (type_size T.row) h.growth h.items v × Reorders v copy)
        × A.is_clone h.alloc copy.alloc };

    ghost is_infallible = { λ h. ClonesCannotFail T.is_infallible (type_size T.row) h.items
        × A.is_infallible h.alloc };

    /// Returns a clone as the inherent `clone` does, whose error also has the number.
    fn clone(&self) -> Result<Self, AllocError> {
        match Heap::clone(self) {
            Ok(copy) => Ok(copy),
            Err(_) => Err(AllocError),
        }
    }
}
