//! Many items at once: the items of an iterator or of another ring, and clones.
ghost use Rattle.std.specs.Prelude.{◌≡◌, ◌+◌, ◌-◌, ◌≤◌, List, [], ◌++◌, length, All, IfErr, IfOk, IsOk, IsTrue, OnErr, OnOk, false};
ghost use Rattle.std.specs.Mem.{type_size};
ghost use Rattle.std.specs.Iterator.{IsFinite, IsFiniteIterable, Drains, size};
ghost use Rattle.std.specs.Iterator.Runs.{WholeRun};
ghost use Rattle.allocator_api2.specs.Clones.{ClonesCannotFail, ClonesAreEqual};
ghost use Rattle.allocator_api2.specs.Extend.{LowerAtMost};
ghost use Rattle.allocator_api2.specs.Growth.{new_capacity};
ghost use Rattle.allocator_api2.specs.Errors.{ClonesFail};
ghost use Rattle.aa_ring.specs.Extending.{ExtendsByAll, ExtendFails, FailsAtItem, IsCopy, AppendsClones, pushed_all};
ghost use Rattle.aa_ring.specs.Ringed.{Ringed, empty, with_written, with_room, HasRoom, LacksRoom};

use crate::ring::Ring;
use allocator_api2::collections::{TryReserveError, TryReserveErrorKind};
use std::alloc::{AllocError, Allocator};

impl<T, A: Allocator> Ring<T, A> {
    ghost use Rattle.allocator_api2.specs.declared.raw_vec.Growth.TheVariants.{Doubling};

    /// Appends the items of the finite iterator that `iter` is turned into.
    ///
    /// Reserves capacity for the lower bound of `size_hint` as `reserve` does, then pushes each
    /// item as `push_back` does. Does not allocate if the items fit in the capacity.
    ///
    /// # Errors
    /// `CapacityOverflow` or `AllocError`, as `reserve` returns them. If the lower bound cannot be
    /// reserved, the ring is unchanged. If a later item cannot be pushed, that item is dropped, and
    /// the ring keeps the items that were pushed.
    #[tactic(auto, using(crate::proofs::Extending::pushes))]
    pub fn extend<I: IntoIterator<Item = T>>(&mut self, iter: I) -> Result<(), TryReserveError>
    where
        T: Drop,
        // The iterator can be called, and is finite.
        requires finite { IsFiniteIterable I.into_iter_gives I.IntoIter.can_next
            I.IntoIter.remaining iter }

        // Success appends all items. If they fit, the call succeeds.
        ensures items { OnOk result ((it : I.IntoIter) × (xs : List T)
            × I.into_iter_gives iter it × Drains I.IntoIter.next_gives it xs
            × (self.new.items ≡ self.old.items ++ xs)) }
        ensures runs { OnOk result ((it : I.IntoIter) × I.into_iter_gives iter it
            × WholeRun I.IntoIter.next_gives it
            (λ p. self.new.items ≡ self.old.items ++ p.items)) }
        ensures fits { ((it : I.IntoIter) → I.into_iter_gives iter it
            → HasRoom self.old (size (I.IntoIter.remaining it))) → IsOk result }
        ensures extended { OnOk result ((it : I.IntoIter) × I.into_iter_gives iter it
            × ExtendsByAll I.IntoIter.next_gives (LowerAtMost I.IntoIter.remaining)
            (type_size T.row) it self.old self.new) }

        // Failure keeps the items that were pushed before the error.
        ensures failed { IfErr result (λ e. (it : I.IntoIter) × I.into_iter_gives iter it
            × ExtendFails I.IntoIter.next_gives (LowerAtMost I.IntoIter.remaining)
            (type_size T.row) it self.old e self.new) }
    {
        let items = iter.into_iter();
        let bound = items.size_hint().0;
        if let Err(error) = self.reserve(bound) {
            return Err(error);
        }
        self.push_items(items)
    }

    // Pushes the items of `iter` to the back, one by one.
    #[tactic(auto, using(crate::proofs::Extending::pushes))]
    fn push_items<I: Iterator<Item = T>>(&mut self, iter: I) -> Result<(), TryReserveError>
    where
        T: Drop,
        requires callable { I.can_next iter }
        requires finite { IsFinite (I.remaining iter) }
        ensures put { OnOk result ((xs : List T) × Drains I.next_gives iter xs
            × (self.new ≡ pushed_all (type_size T.row) self.old xs)) }
        ensures fits { HasRoom self.old (size (I.remaining iter)) → IsOk result }
        ensures failed { IfErr result (λ e. FailsAtItem I.next_gives (type_size T.row)
            iter self.old e self.new) }
    {
        'each: for item in iter {
            match self.push_back(item) {
                Ok(()) => {}
                Err(refused) => return Err(refused.error),
            }
        }
        Ok(())
    }

    /// Returns a new ring of the items of the finite iterator that `iter` is turned into.
    ///
    /// The ring is extended as `extend` does. So it allocates at most once if the lower bound of
    /// `size_hint` is the number of items. Does not allocate for no items, or for zero-sized items.
    ///
    /// # Errors
    /// `CapacityOverflow` or `AllocError`, as `extend` returns them. The items that were taken from
    /// the iterator are dropped.
    #[tactic(auto, using(crate::proofs::Extending::pushes))]
    pub fn from_iter_in<I: IntoIterator<Item = T>>(
        iter: I,
        alloc: A,
    ) -> Result<Self, TryReserveError>
    where
        T: Drop,
        // The iterator can be called, and is finite.
        requires finite { IsFiniteIterable I.into_iter_gives I.IntoIter.can_next
            I.IntoIter.remaining iter }

        // Success returns all items. If no allocation is needed, the call succeeds.
        ensures items { IfOk result (λ r. (it : I.IntoIter) × I.into_iter_gives iter it
            × Drains I.IntoIter.next_gives it r.items) }
        ensures runs { IfOk result (λ r. (it : I.IntoIter) × I.into_iter_gives iter it
            × WholeRun I.IntoIter.next_gives it (λ p. r.items ≡ p.items)) }
        ensures fits { ((it : I.IntoIter) → I.into_iter_gives iter it
            → size (I.IntoIter.remaining it) ≤ new_capacity (type_size T.row) 0) → IsOk result }
        ensures made { let none = empty (type_size T.row) 0 Doubling alloc in
            IfOk result (λ r. (it : I.IntoIter) × I.into_iter_gives iter it
            × ExtendsByAll I.IntoIter.next_gives (LowerAtMost I.IntoIter.remaining)
            (type_size T.row) it none r) }

        // Failure is that of `extend` on an empty ring.
        ensures error { let none = empty (type_size T.row) 0 Doubling alloc in
            IfErr result (λ e. (it : I.IntoIter) × (left : Ringed T A)
            × I.into_iter_gives iter it
            × ExtendFails I.IntoIter.next_gives (LowerAtMost I.IntoIter.remaining)
            (type_size T.row) it none e left) }
    {
        let mut ring = Ring::new_in(alloc);
        match ring.extend(iter) {
            Ok(()) => Ok(ring),
            Err(error) => Err(error),
        }
    }

    /// Moves all items of `other` to the back of this ring, and leaves `other` empty.
    ///
    /// Allocates only if the items do not fit, as `reserve` does. Moves each of them once. The
    /// capacity of `other` does not change.
    ///
    /// # Errors
    /// `CapacityOverflow` or `AllocError`, as `reserve` returns them. Both rings are unchanged.
    pub fn append(&mut self, other: &mut Self) -> Result<(), TryReserveError>
        ensures fits { HasRoom self.old (length other.old.items) → IsOk result }
        ensures moved { let n = length other.old.items in
            let roomy = with_room (type_size T.row) self.old n in
            OnOk result (self.new ≡ with_written roomy (self.old.items ++ other.old.items) n) }
        ensures emptied { OnOk result (other.new ≡ with_written other.old [] 0) }
        ensures error { IfErr result
            (LacksRoom (type_size T.row) self.old (length other.old.items)) }
        ensures unchanged { OnErr result ((self.new ≡ self.old) × (other.new ≡ other.old)) }
    {
        self.reserve(other.len())?;
        self.take_all(other);
        Ok(())
    }

    // Like `append`, but the items must fit in the capacity.
    fn take_all(&mut self, other: &mut Self)
        requires { HasRoom self.old (length other.old.items) }
        ensures moved { let n = length other.old.items in
            self.new ≡ with_written self.old (self.old.items ++ other.old.items) n }
        ensures emptied { other.new ≡ with_written other.old [] 0 }
    {
        'each: while let Some(item) = other.pop_front() {
            self.put_back(item);
        }
    }
}

impl<T: Clone, A: Allocator> Ring<T, A> {
    /// Returns a ring with a clone of each item, over a clone of the allocator.
    ///
    /// The new ring has the growth policy of this one, and no spare capacity unless the items are
    /// zero-sized. Allocates before the first item is cloned, and only for exactly the length.
    ///
    /// # Errors
    /// `CapacityOverflow`, or `AllocError` with the length, if the allocation fails or if a clone
    /// of an item or of the allocator fails. No ring is returned then.
    #[tactic(auto, using(crate::proofs::Extending::copied))]
    pub fn clone(&self) -> Result<Self, TryReserveError>
    where
        A: Clone,
        ensures made { IfOk result (IsCopy T.is_clone (type_size T.row) self.now) }
        ensures alloc { IfOk result (λ copy. A.is_clone self.now.alloc copy.alloc) }
        ensures copied { ClonesAreEqual T.is_clone → IfOk result
            (λ copy. copy.items ≡ self.now.items) }
        ensures error { let sure = All T.is_infallible self.now.items
            × A.is_infallible self.now.alloc in
            IfErr result (ClonesFail sure (length self.now.items) (type_size T.row)) }
    {
        let capacity = self.len();
        let mut copy = self.empty_like(capacity)?;
        if copy.push_clones(self) {
            return Ok(copy);
        }
        Err(TryReserveErrorKind::AllocError { capacity }.into())
    }

    // Appends a clone of each item of `source`, which must fit, up to the first clone that fails.
    // Returns whether all clones were made.
    fn push_clones(&mut self, source: &Self) -> bool
        requires { HasRoom self.old (length source.now.items) }
        ensures added { IsTrue result
            → AppendsClones T.is_clone self.old source.now.items self.new }
        ensures failed { result ≡ false → ¬ (All T.is_infallible source.now.items) }
    {
        'each: for i in 0..source.len() {
            match source[i].clone() {
                Ok(copy) => self.put_back(copy),
                Err(_) => return false,
            }
        }
        true
    }
}

impl<T: Clone, A: Allocator + Clone> Clone for Ring<T, A> {
    ghost is_clone = { λ r copy. IsCopy T.is_clone (type_size T.row) r copy
        × A.is_clone r.alloc copy.alloc };

    ghost is_infallible = { λ r. ClonesCannotFail T.is_infallible (type_size T.row) r.items
        × A.is_infallible r.alloc };

    /// Returns a clone as the inherent `clone` does, whose error also has the number.
    fn clone(&self) -> Result<Self, AllocError> {
        Ring::clone(self).map_err(|_| AllocError)
    }
}
