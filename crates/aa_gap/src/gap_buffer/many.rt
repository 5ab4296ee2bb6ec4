//! Many elements at once: the items of an iterator, and clones.
ghost use Rattle.std.specs.Prelude.{◌≡◌, ◌+◌, ◌≤◌, List, [], ◌++◌, length, All, IfErr, IfOk, IsOk, IsTrue, OnErr, OnOk, false};
ghost use Rattle.std.specs.Mem.{type_size};
ghost use Rattle.std.specs.Iterator.{IsFinite, IsFiniteIterable, ExtendsWithItems, Drains, size};
ghost use Rattle.std.specs.Iterator.Runs.{WholeRun};
ghost use Rattle.aa_raw.specs.Clones.{ClonesCannotFail, ClonesAreEqual};
ghost use Rattle.aa_raw.specs.Growth.{new_capacity};
ghost use Rattle.aa_raw.specs.Errors.{ClonesFail};
ghost use Rattle.aa_gap.specs.Buffer.{Buffer, empty, text, len, HasRoom, LacksRoom};
ghost use Rattle.aa_gap.specs.Extending.{HasInserted, ExtendsByAll, ExtendFails, FailsAtItem, Inserts, IsCopy, InsertsClones};

use crate::gap_buffer::GapBuffer;
use aa_raw::collections::{TryReserveError, TryReserveErrorKind};
use aa_raw::raw_vec::RawVec;
use std::alloc::{AllocError, Allocator};
use std::iter::{Extend, FromIterator, IntoIterator};

impl<T, A: Allocator> GapBuffer<T, A> {
    ghost use Rattle.aa_raw.specs.declared.raw_vec.Growth.TheVariants.{Doubling};

    /// Inserts the items of the finite iterator `iter` before the cursor, in order.
    ///
    /// Reserves capacity for the lower bound of `size_hint` as `reserve` does, then inserts each
    /// item as `insert` does. Does not allocate if the remaining items of `iter` fit.
    ///
    /// # Errors
    /// `CapacityOverflow` or `AllocError`, as `reserve` returns them. If the lower bound cannot be
    /// reserved, the text is unchanged. If a later item cannot be inserted, that item is dropped,
    /// and the text keeps those that were inserted.
    pub fn extend<I: IntoIterator<Item = T>>(&mut self, iter: I) -> Result<(), TryReserveError>
    where
        T: Drop,
        // The iterator that is made of `iter` can be called, and is finite.
        requires finite { IsFiniteIterable I.into_iter_gives I.IntoIter.can_next
            I.IntoIter.remaining iter }

        // Success inserts all items. If they fit, the call succeeds.
        ensures items { OnOk result ((it : I.IntoIter) × (xs : List T) × I.into_iter_gives iter it
            × Drains I.IntoIter.next_gives it xs × (self.new.before ≡ self.old.before ++ xs)) }
        ensures after { OnOk result (self.new.after ≡ self.old.after) }
        ensures runs { OnOk result ((it : I.IntoIter) × I.into_iter_gives iter it
            × WholeRun I.IntoIter.next_gives it
            (λ p. self.new.before ≡ self.old.before ++ p.items)) }
        ensures fits { ((it : I.IntoIter) → I.into_iter_gives iter it
            → HasRoom self.old (size (I.IntoIter.remaining it))) → IsOk result }
        ensures extended { OnOk result ((it : I.IntoIter) × I.into_iter_gives iter it
            × ExtendsByAll I.IntoIter.next_gives I.IntoIter.remaining
            (type_size T.row) it self.old self.new) }

        // Failure keeps the items that were inserted before the error.
        ensures failed { IfErr result (λ e. (it : I.IntoIter) × I.into_iter_gives iter it
            × ExtendFails I.IntoIter.next_gives I.IntoIter.remaining
            (type_size T.row) it self.old e self.new) }
    {
        let items = iter.into_iter();
        let bound = items.size_hint().0;
        if let Err(error) = self.reserve(bound) {
            return Err(error);
        }
        self.insert_items(items)
    }

    // Inserts the items of `iter` before the cursor, one by one.
    #[tactic(auto, using(crate::proofs::Extending::inserts_items))]
    fn insert_items<I: Iterator<Item = T>>(&mut self, iter: I) -> Result<(), TryReserveError>
    where
        T: Drop,
        requires callable { I.can_next iter }
        requires finite { IsFinite (I.remaining iter) }
        ensures items { OnOk result ((xs : List T) × Drains I.next_gives iter xs
            × (self.new.before ≡ self.old.before ++ xs) × (self.new.after ≡ self.old.after)
            × Inserts (type_size T.row) self.old xs self.new) }
        ensures fits { HasRoom self.old (size (I.remaining iter)) → IsOk result }
        ensures failed { IfErr result (λ e. FailsAtItem I.next_gives (type_size T.row)
            iter self.old e self.new) }
    {
        // This shows the prover that there are at least as many places as elements.
        let _within = self.len();
        'each: for item in iter {
            match self.insert(item) {
                Ok(()) => {}
                Err(refused) => return Err(refused.error),
            }
        }
        Ok(())
    }

    /// Returns a text of the items of the finite iterator `iter`, with the cursor at its end.
    ///
    /// An empty text is extended as `extend` does. So it allocates at most once if the lower bound
    /// of `size_hint` is the number of items. Does not allocate for no items, or for zero-sized
    /// items.
    ///
    /// # Errors
    /// `CapacityOverflow` or `AllocError`, as `extend` returns them. The items that were taken from
    /// `iter` are dropped.
    pub fn from_iter_in<I: IntoIterator<Item = T>>(
        iter: I,
        alloc: A,
    ) -> Result<Self, TryReserveError>
    where
        T: Drop,
        // The iterator that is made of `iter` can be called, and is finite.
        requires finite { IsFiniteIterable I.into_iter_gives I.IntoIter.can_next
            I.IntoIter.remaining iter }

        // Success returns all items. If no allocation is needed, the call succeeds.
        ensures items { IfOk result (λ b. (it : I.IntoIter) × I.into_iter_gives iter it
            × Drains I.IntoIter.next_gives it b.before) }
        ensures after { IfOk result (λ b. b.after ≡ []) }
        ensures runs { IfOk result (λ b. (it : I.IntoIter) × I.into_iter_gives iter it
            × WholeRun I.IntoIter.next_gives it (λ p. b.before ≡ p.items)) }
        ensures fits { ((it : I.IntoIter) → I.into_iter_gives iter it
            → size (I.IntoIter.remaining it) ≤ new_capacity (type_size T.row) 0) → IsOk result }
        ensures made { let none = empty (type_size T.row) 0 Doubling alloc in
            IfOk result (λ b. (it : I.IntoIter) × I.into_iter_gives iter it
            × ExtendsByAll I.IntoIter.next_gives I.IntoIter.remaining (type_size T.row)
            it none b) }

        // Failure is that of `extend` on an empty text.
        ensures error { let none = empty (type_size T.row) 0 Doubling alloc in
            IfErr result (λ e. (it : I.IntoIter) × (left : Buffer T A) × I.into_iter_gives iter it
            × ExtendFails I.IntoIter.next_gives I.IntoIter.remaining
            (type_size T.row) it none e left) }
    {
        let mut text = GapBuffer::new_in(alloc);
        match text.extend(iter) {
            Ok(()) => Ok(text),
            Err(error) => Err(error),
        }
    }
}

impl<T: Drop, A: Allocator> Extend<T> for GapBuffer<T, A> {
    ghost extend_gives = { HasInserted };

    /// Inserts the items before the cursor, as the inherent `extend` does, whose error also has the
    /// number.
    fn extend<U: IntoIterator<Item = T>>(&mut self, iter: U) -> Result<(), AllocError>
        requires finite { IsFiniteIterable U.into_iter_gives U.IntoIter.can_next
            U.IntoIter.remaining iter }
        ensures extended { ExtendsWithItems U.into_iter_gives U.IntoIter.next_gives HasInserted iter
            self.old self.new result }
        ensures fits { ((it : U.IntoIter) → U.into_iter_gives iter it
            → HasRoom self.old (size (U.IntoIter.remaining it))) → IsOk result }
    {
        match GapBuffer::extend(self, iter) {
            Ok(()) => Ok(()),
            Err(_) => Err(AllocError),
        }
    }
}

impl<T: Drop, A: Allocator> FromIterator<T> for GapBuffer<T, A> {
    type Alloc = A;

    ghost from_iter_gives = { λ xs b. (b.before ≡ xs) × (b.after ≡ []) };

    /// Returns a text of the items as `from_iter_in` does, whose error also has the number.
    fn from_iter<U: IntoIterator<Item = T>>(alloc: A, iter: U) -> Result<Self, AllocError>
        requires finite { IsFiniteIterable U.into_iter_gives U.IntoIter.can_next
            U.IntoIter.remaining iter }
        ensures collected { IfOk result (λ b. (it : U.IntoIter) × U.into_iter_gives iter it
            × Drains U.IntoIter.next_gives it b.before × (b.after ≡ [])) }
        ensures fits { ((it : U.IntoIter) → U.into_iter_gives iter it
            → size (U.IntoIter.remaining it) ≤ new_capacity (type_size T.row) 0) → IsOk result }
    {
        match GapBuffer::from_iter_in(iter, alloc) {
            Ok(text) => Ok(text),
            Err(_) => Err(AllocError),
        }
    }
}

impl<T: Clone, A: Allocator> GapBuffer<T, A> {
    /// Returns a text with a clone of each element, over a clone of the allocator.
    ///
    /// The cursor is at the same position. The new text has the growth policy of this one, and no
    /// free places unless the elements are zero-sized. Allocates before the first element is
    /// cloned, and only for exactly the length.
    ///
    /// # Errors
    /// `CapacityOverflow`, or `AllocError` with the length, if the allocation fails or if a clone
    /// of an element or of the allocator fails. The clones made so far are dropped.
    #[tactic(auto, using(crate::proofs::Extending::copied))]
    pub fn clone(&self) -> Result<Self, TryReserveError>
    where
        A: Clone,
        // What is returned has clones of the elements and of the allocator.
        ensures made { IfOk result (IsCopy T.is_clone (type_size T.row) self.now) }
        ensures alloc { IfOk result (λ copy. A.is_clone self.now.alloc copy.alloc) }
        ensures copied { ClonesAreEqual T.is_clone → IfOk result
            (λ copy. (copy.before ≡ self.now.before) × (copy.after ≡ self.now.after)) }

        // An `AllocError` has the length. If no clone can fail, the block could not be made.
        ensures error { let infallible = All T.is_infallible (text self.now)
            × A.is_infallible self.now.alloc in
            IfErr result (ClonesFail infallible (len self.now) (type_size T.row)) }
    {
        let capacity = self.len();
        let Ok(alloc) = self.allocator().clone() else {
            return Err(TryReserveErrorKind::AllocError { capacity }.into());
        };
        let growth = self.growth();
        let block = RawVec::with_capacity_and_growth_in(capacity, growth, alloc)?;
        let mut copy = GapBuffer::with_block(block);
        if !copy.insert_text(self) {
            return Err(TryReserveErrorKind::AllocError { capacity }.into());
        }
        copy.move_to(self.cursor());
        Ok(copy)
    }

    // Inserts a clone of each element of the whole text `source`, which must fit, before the cursor,
    // up to the first clone that fails. Returns whether all clones were made.
    #[tactic(auto, using(crate::proofs::Extending::copied))]
    fn insert_text(&mut self, source: &Self) -> bool
        requires { HasRoom self.old (len source.now) }
        ensures added { IsTrue result → (mid : Buffer T A)
            × InsertsClones T.is_clone self.old source.now.before mid
            × InsertsClones T.is_clone mid source.now.after self.new }
        ensures failed { result ≡ false → ¬ (All T.is_infallible (text source.now)) }
    {
        if !self.insert_clones(source.before()) {
            return false;
        }
        self.insert_clones(source.after())
    }

    // Inserts a clone of each element of `source`, which must fit, before the cursor, up to the
    // first clone that fails. Returns whether all clones were made.
    fn insert_clones(&mut self, source: &[T]) -> bool
        requires { HasRoom self.old (length source.now) }
        ensures added { IsTrue result
            → InsertsClones T.is_clone self.old source.now self.new }
        ensures failed { result ≡ false → ¬ (All T.is_infallible source.now) }
    {
        'each: for i in 0..source.len() {
            match source[i].clone() {
                Ok(copy) => self.put(copy),
                Err(_) => return false,
            }
        }
        true
    }
}

impl<T: Clone, A: Allocator + Clone> Clone for GapBuffer<T, A> {
    ghost is_clone = { λ b copy. IsCopy T.is_clone (type_size T.row) b copy
        × A.is_clone b.alloc copy.alloc };

    ghost is_infallible = { λ b. ClonesCannotFail T.is_infallible (type_size T.row) (text b)
        × A.is_infallible b.alloc };

    /// Returns a clone as the inherent `clone` does, whose error also has the number.
    #[tactic(auto, using(crate::proofs::Extending::copied))]
    fn clone(&self) -> Result<Self, AllocError> {
        GapBuffer::clone(self).map_err(|_| AllocError)
    }
}
