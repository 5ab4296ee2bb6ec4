//! Many items at once: the items of an iterator, and clones.
ghost use Rattle.std.specs.Prelude.{◌≡◌, ◌+◌, ◌-◌, ◌<◌, ◌≤◌, List, [], ◌++◌, length, All, IfErr, IfOk, IsOk, IsTrue, OnErr, OnOk, false};
ghost use Rattle.std.specs.Mem.{type_size};
ghost use Rattle.std.specs.Iterator.{IsFinite, IsFiniteIterable, Drains, size};
ghost use Rattle.std.specs.Iterator.Runs.{WholeRun};
ghost use Rattle.allocator_api2.specs.Clones.{ClonesAreEqual};
ghost use Rattle.allocator_api2.specs.Extend.{LowerAtMost};
ghost use Rattle.aa_inline.specs.Extending.{ExtendsByAll, ExtendFails, FailsAtItem, CloningFails, IsMadeOf, AppendFails, AppendsClones, AppendsPart, pushed_all};
ghost use Rattle.aa_inline.specs.Inlined.{Inlined, in_place, with_room, with_written, HasRoom};

use crate::inline::InlineVec;
use allocator_api2::collections::{TryReserveError, TryReserveErrorKind};
use std::alloc::Allocator;
use std::default::MadeWith;

impl<T: MadeWith<A> + Drop, A: Allocator + Copy, const N: usize> InlineVec<T, A, N> {
    /// Appends the items of `iter`, which must end.
    ///
    /// Reserves capacity for the lower bound of `size_hint` as `reserve` does, then pushes each
    /// item as `push` does. Does not allocate if the remaining items of `iter` fit in the capacity.
    ///
    /// # Errors
    /// `CapacityOverflow` or `AllocError`, as `reserve` returns them. If the lower bound cannot be
    /// reserved, the vector is unchanged. If a later item cannot be pushed, that item is dropped,
    /// and the vector keeps the items that were pushed.
    #[tactic(auto, using(crate::proofs::Extending::pushes), unfolding(crate::specs::Inlined::with_room))]
    pub fn extend<U: IntoIterator<Item = T>>(&mut self, iter: U) -> Result<(), TryReserveError>
        // The iterator that `iter` becomes can be called, and is finite.
        requires finite { IsFiniteIterable U.into_iter_gives U.IntoIter.can_next
            U.IntoIter.remaining iter }

        // Success appends all items. If they fit, the call succeeds.
        ensures items { OnOk result ((it : U.IntoIter) × U.into_iter_gives iter it
            × (xs : List T) × Drains U.IntoIter.next_gives it xs
            × (self.new.items ≡ self.old.items ++ xs)) }
        ensures runs { OnOk result ((it : U.IntoIter) × U.into_iter_gives iter it
            × WholeRun U.IntoIter.next_gives it
            (λ p. self.new.items ≡ self.old.items ++ p.items)) }
        ensures kept { length self.old.items ≤ length self.new.items }
        ensures fits { (it : U.IntoIter) × U.into_iter_gives iter it
            × (HasRoom N self.old (size (U.IntoIter.remaining it)) → IsOk result) }
        ensures extended { OnOk result ((it : U.IntoIter) × U.into_iter_gives iter it
            × ExtendsByAll U.IntoIter.next_gives (LowerAtMost U.IntoIter.remaining)
            (type_size T.row) N it self.old self.new) }

        // Failure keeps the items that were pushed before the error.
        ensures failed { IfErr result (λ e. (it : U.IntoIter) × U.into_iter_gives iter it
            × ExtendFails U.IntoIter.next_gives (LowerAtMost U.IntoIter.remaining)
            (type_size T.row) N it self.old e self.new) }
    {
        let items = iter.into_iter();
        let bound = items.size_hint().0;
        if let Err(error) = self.reserve(bound) {
            return Err(error);
        }
        self.push_items(items)
    }

    // Pushes the items of `iter`, one by one.
    #[tactic(auto, using(crate::proofs::Extending::pushes))]
    fn push_items<I: Iterator<Item = T>>(&mut self, iter: I) -> Result<(), TryReserveError>
        // The iterator can be called, and is finite.
        requires callable { I.can_next iter }
        requires finite { IsFinite (I.remaining iter) }

        // Success appends all items. If they fit, the call succeeds.
        ensures put { OnOk result ((xs : List T) × Drains I.next_gives iter xs
            × (self.new ≡ pushed_all (type_size T.row) N self.old xs)) }
        ensures kept { length self.old.items ≤ length self.new.items }
        ensures fits { HasRoom N self.old (size (I.remaining iter)) → IsOk result }

        // Failure keeps the items that were pushed before the error.
        ensures failed { IfErr result (λ e. FailsAtItem I.next_gives (type_size T.row) N
            iter self.old e self.new) }
    {
        'each: for item in iter {
            match self.push(item) {
                Ok(()) => {}
                Err(refused) => return Err(refused.error),
            }
        }
        Ok(())
    }

    /// Returns a new small vector of the items of `iter`, which must end.
    ///
    /// The vector is extended as `extend` does. So it does not allocate if `iter` has at most `N`
    /// items.
    ///
    /// # Errors
    /// `CapacityOverflow` or `AllocError`, as `extend` returns them. The items that were taken from
    /// `iter` are dropped.
    #[tactic(auto, using(crate::proofs::Extending::pushes))]
    pub fn from_iter_in<U: IntoIterator<Item = T>>(
        iter: U,
        alloc: A,
    ) -> Result<Self, TryReserveError>
        // The iterator that `iter` becomes can be called, and is finite.
        requires finite { IsFiniteIterable U.into_iter_gives U.IntoIter.can_next
            U.IntoIter.remaining iter }

        // Success returns all items. If there are at most `N`, the call succeeds.
        ensures items { IfOk result (λ s. (it : U.IntoIter) × U.into_iter_gives iter it
            × Drains U.IntoIter.next_gives it s.items) }
        ensures runs { IfOk result (λ s. (it : U.IntoIter) × U.into_iter_gives iter it
            × WholeRun U.IntoIter.next_gives it (λ p. s.items ≡ p.items)) }
        ensures fits { (it : U.IntoIter) × U.into_iter_gives iter it
            × (size (U.IntoIter.remaining it) ≤ N → IsOk result) }
        ensures made { IfOk result (λ s. (it : U.IntoIter) × U.into_iter_gives iter it
            × ExtendsByAll U.IntoIter.next_gives (LowerAtMost U.IntoIter.remaining)
            (type_size T.row) N it (in_place [] alloc) s) }

        // Failure is that of `extend` on an empty vector.
        ensures error { IfErr result (λ e. (left : Inlined T A)
            × (it : U.IntoIter) × U.into_iter_gives iter it
            × ExtendFails U.IntoIter.next_gives (LowerAtMost U.IntoIter.remaining)
            (type_size T.row) N it (in_place [] alloc) e left) }
    {
        let mut small = InlineVec::new_in(alloc);
        match small.extend(iter) {
            Ok(()) => Ok(small),
            Err(error) => Err(error),
        }
    }
}

impl<T: MadeWith<A> + Drop + Clone, A: Allocator + Copy, const N: usize> InlineVec<T, A, N> {
    /// Returns a new small vector with a clone of each item of `source`.
    ///
    /// Reserves capacity for all of them before the first item is cloned. Allocates only if they
    /// are more than `N`.
    ///
    /// # Errors
    /// `CapacityOverflow` or `AllocError`, as `reserve` returns them, if the allocation fails.
    /// `AllocError` with the length of `source` if a clone fails. No vector is returned then.
    #[tactic(auto, using(crate::proofs::Extending::copied))]
    pub fn from_slice_in(source: &[T], alloc: A) -> Result<Self, TryReserveError>
        ensures fits { length source.now ≤ N → All T.is_infallible source.now → IsOk result }
        ensures made { IfOk result
            (IsMadeOf T.is_clone (type_size T.row) N source.now alloc) }
        ensures copied { ClonesAreEqual T.is_clone → IfOk result (λ s. s.items ≡ source.now) }
        ensures error { IfErr result (CloningFails (¬ (All T.is_infallible source.now))
            (type_size T.row) N (in_place {T = T} [] alloc) (length source.now)) }
    {
        let capacity = source.len();
        let mut small = InlineVec::new_in(alloc);
        if let Err(error) = small.reserve(capacity) {
            return Err(error);
        }
        if small.push_clones(source) {
            return Ok(small);
        }
        Err(TryReserveErrorKind::AllocError { capacity }.into())
    }

    /// Returns a small vector with a clone of each item, as `from_slice_in` does.
    ///
    /// So the clones are inline if there are at most `N` of them.
    ///
    /// # Errors
    /// `CapacityOverflow` or `AllocError`, as `from_slice_in` returns them.
    pub fn clone(&self) -> Result<Self, TryReserveError>
        ensures fits { length self.now.items ≤ N → All T.is_infallible self.now.items
            → IsOk result }
        ensures made { IfOk result
            (IsMadeOf T.is_clone (type_size T.row) N self.now.items self.now.alloc) }
        ensures copied { ClonesAreEqual T.is_clone → IfOk result (λ s. s.items ≡ self.now.items) }
        ensures error { IfErr result (CloningFails (¬ (All T.is_infallible self.now.items))
            (type_size T.row) N (in_place {T = T} [] self.now.alloc) (length self.now.items)) }
    {
        InlineVec::from_slice_in(self.as_slice(), *self.allocator())
    }

    /// Appends a clone of each item of `source`.
    ///
    /// Reserves capacity for all of them before the first item is cloned. Allocates only if they
    /// do not fit.
    ///
    /// # Errors
    /// `CapacityOverflow` or `AllocError`, as `reserve` returns them; the vector is unchanged then.
    /// `AllocError` with the requested length if a clone fails. The clones made so far are dropped
    /// then, and the new capacity is kept.
    #[tactic(auto, using(crate::proofs::Extending::copied))]
    pub fn extend_from_slice(&mut self, source: &[T]) -> Result<(), TryReserveError>
        ensures fits { HasRoom N self.old (length source.now)
            → All T.is_infallible source.now → IsOk result }
        ensures extended { let roomy = with_room (type_size T.row) N self.old (length source.now) in
            OnOk result (AppendsClones T.is_clone roomy source.now self.new) }
        ensures copied { let n = length source.now in
            let roomy = with_room (type_size T.row) N self.old n in ClonesAreEqual T.is_clone
            → OnOk result (self.new ≡ with_written roomy (self.old.items ++ source.now) n) }
        ensures failed { IfErr result (λ e. AppendFails (¬ (All T.is_infallible source.now))
            (type_size T.row) N self.old (length source.now) e self.new) }
    {
        let len = self.len();
        let count = source.len();
        if let Err(error) = self.reserve(count) {
            return Err(error);
        }
        if self.push_clones(source) {
            return Ok(());
        }
        self.truncate(len);
        // The capacity is a `usize`, so the sum does not wrap.
        let _capacity = self.capacity();
        Err(TryReserveErrorKind::AllocError {
            capacity: len + count,
        }
        .into())
    }

    // Appends a clone of each item of `source`, which must fit, up to the first clone that fails.
    // Returns whether all clones were made.
    fn push_clones(&mut self, source: &[T]) -> bool
        requires { HasRoom N self.old (length source.now) }
        ensures added { IsTrue result → AppendsClones T.is_clone self.old source.now self.new }
        ensures part { result ≡ false → AppendsPart self.old (length source.now) self.new }
        ensures failed { result ≡ false → ¬ (All T.is_infallible source.now) }
    {
        'each: for i in 0..source.len() {
            match source[i].clone() {
                Ok(copy) => self.put_last(copy),
                Err(_) => return false,
            }
        }
        true
    }
}
