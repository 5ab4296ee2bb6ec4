//! Appending the items of an iterator.
ghost use Rattle.std.specs.Prelude.{◌≡◌, ◌+◌, ◌-◌, ◌≤◌, ◌++◌, List, map, IfErr, OnOk, IsOk};
ghost use Rattle.std.specs.Mem.{type_size};
ghost use Rattle.std.specs.Iterator.{IsFinite, IsFiniteIterable, IsNearerEnd, Drains, size};
ghost use Rattle.std.specs.Iterator.Runs.{WholeRun};
ghost use Rattle.std.specs.Borrow.{Bor};
ghost use Rattle.aa_vec.specs.Vector.{len, new_capacity, HasRoom};
ghost use Rattle.aa_vec.specs.Filling.{FillsGap, CanContinue};
ghost use Rattle.aa_vec.specs.Extend.{ExtendResult, CollectResult, YieldsCopies};
ghost use Rattle.aa_vec.specs.Extend.{LowerAtMost, LowerExactly};

use crate::vec::Vec;
use crate::vec::extend::items::Hinted;
use crate::vec::extend::lower_bound::{ByHint, ByLower, LowerBound, Reading};
use crate::vec::tail::gap::with_gap_filled;
use aa_raw::collections::TryReserveError;
use aa_raw::raw_vec::Growth;
use core::mem::replace_with;
use std::alloc::{Allocator, Global};
use std::iter::IntoIterator;

pub mod hints;
pub mod items;
pub(crate) mod lower_bound;

impl<T, A: Allocator> Vec<T, A> {
    // Appends items of `iter` until no place is empty or the iterator ends. Returns how many places
    // are empty then.
    #[inline(always)]
    fn fill_up<I: Iterator<Item = T>>(&mut self, iter: &mut I) -> usize
        requires callable { I.can_next iter.old }
        requires finite { IsFinite (I.remaining iter.old) }
        ensures filled { FillsGap I.next_gives iter.old
            self.old (self.old.capacity - len self.old) 0 result iter.new self.new }
        ensures advanced { result ≡ 0
            → CanContinue I.Iterator iter.old (self.old.capacity - len self.old) iter.new }
        ensures within { self.old.capacity - len self.old - result ≤ size (I.remaining iter.old) }
    {
        let free = self.capacity() - self.len();
        let (left, _iter) = replace_with(self, (iter, free, 0), with_gap_filled);
        left
    }

    // Appends the items of `iter`. Each is taken first. If the vector is full then, capacity is
    // reserved for it and as many more as the lower bound then says. The functions below are built
    // on it.
    #[inline]
    pub(crate) fn extend_with_bound<W: LowerBound<I>, I: Iterator<Item = T>>(
        &mut self,
        iter: &mut I,
    ) -> Result<(), TryReserveError>
    where
        T: Drop,
        requires callable { I.can_next iter.old }
        requires finite { IsFinite (I.remaining iter.old) }
        ensures fits { HasRoom self.old (size (I.remaining iter.old)) → IsOk result }
        ensures extended { ExtendResult I.next_gives W.lower_is (type_size T.row)
            iter.old self.old iter.new result self.new }
        ensures advanced { IfErr result
            (λ _. IsNearerEnd I.can_next I.remaining iter.old iter.new) }
    {
        self.prove_capacity_bounds();
        'full: loop {
            if self.fill_up(iter) != 0 {
                return Ok(());
            }
            let Some(x) = iter.next() else {
                return Ok(());
            };
            self.try_reserve(W::lower_bound(iter).saturating_add(1))?;
            self.put_next(x);
        }
    }

    /// Appends the items of `iter`, which must end, by the hint that `lower` returns.
    ///
    /// Each item is taken before it has a place. Allocates only if the vector is full then: it
    /// grows by its growth policy, for that item and as many more as `lower` then returns.
    ///
    /// Corresponds to allocator-api2's `Vec::extend`, with `lower` in place of `size_hint`.
    ///
    /// # Errors
    /// `CapacityOverflow` if the capacity overflows, which is certain if the requested length
    /// exceeds `usize::MAX`; `AllocError` with the requested capacity if the allocation fails. The
    /// items placed so far are kept. The item that found no place is dropped, and no other item is
    /// taken.
    pub fn extend_hinted<I: Hinted<Item = T>>(&mut self, iter: I) -> Result<(), TryReserveError>
    where
        T: Drop,
        requires callable { I.can_next iter }
        requires finite { IsFinite (I.remaining iter) }
        ensures fits { HasRoom self.old (size (I.remaining iter)) → IsOk result }
        ensures extended { (after : I) × ExtendResult I.next_gives (LowerExactly I.lower_of)
            (type_size T.row) iter self.old after result self.new }
    {
        let mut rest = iter;
        self.extend_hinted_by(&mut rest)
    }

    /// Like `extend_hinted`, but takes the iterator by `&mut`.
    ///
    /// Only the items that are appended are taken from it and, on an error, one more, which is
    /// dropped. Not in allocator-api2.
    #[inline]
    pub fn extend_hinted_by<I: Hinted<Item = T>>(
        &mut self,
        iter: &mut I,
    ) -> Result<(), TryReserveError>
    where
        T: Drop,
        requires callable { I.can_next iter.old }
        requires finite { IsFinite (I.remaining iter.old) }
        ensures fits { HasRoom self.old (size (I.remaining iter.old)) → IsOk result }
        ensures extended { ExtendResult I.next_gives (LowerExactly I.lower_of)
            (type_size T.row) iter.old self.old iter.new result self.new }
        ensures advanced { IfErr result
            (λ _. IsNearerEnd I.can_next I.remaining iter.old iter.new) }
    {
        self.extend_with_bound::<ByLower, I>(iter)
    }

    /// Appends the items of `iter`, which must end.
    ///
    /// Each item is taken before it has a place. Allocates only if the vector is full then: it
    /// grows by its growth policy, for that item and the lower bound that `size_hint` then returns.
    ///
    /// # Errors
    /// As `extend_hinted`. The original aborts if an allocation fails.
    pub fn extend<I: IntoIterator<Item = T>>(&mut self, iter: I) -> Result<(), TryReserveError>
    where
        T: Drop,
        requires finite { IsFiniteIterable I.into_iter_gives I.IntoIter.can_next
            I.IntoIter.remaining iter }
        ensures fits { ((it : I.IntoIter) → I.into_iter_gives iter it
            → HasRoom self.old (size (I.IntoIter.remaining it))) → IsOk result }
        ensures extended { (it : I.IntoIter) × (after : I.IntoIter) × I.into_iter_gives iter it
            × ExtendResult I.IntoIter.next_gives (LowerAtMost I.IntoIter.remaining)
            (type_size T.row) it self.old after result self.new }
    {
        let mut rest = iter.into_iter();
        self.extend_by(&mut rest)
    }

    /// Like `extend`, but takes the iterator by `&mut`.
    ///
    /// Only the items that are appended are taken from it and, on an error, one more, which is
    /// dropped. Corresponds to allocator-api2's `Vec::extend` with `by_ref`.
    #[inline]
    pub fn extend_by<I: Iterator<Item = T>>(&mut self, iter: &mut I) -> Result<(), TryReserveError>
    where
        T: Drop,
        requires callable { I.can_next iter.old }
        requires finite { IsFinite (I.remaining iter.old) }
        ensures fits { HasRoom self.old (size (I.remaining iter.old)) → IsOk result }
        ensures extended { ExtendResult I.next_gives (LowerAtMost I.remaining)
            (type_size T.row) iter.old self.old iter.new result self.new }
        ensures advanced { IfErr result
            (λ _. IsNearerEnd I.can_next I.remaining iter.old iter.new) }
    {
        self.extend_with_bound::<ByHint, I>(iter)
    }

    /// Appends copies of the elements that the items of `iter` refer to; `iter` must end.
    ///
    /// Allocates and fails as `extend` does. Corresponds to allocator-api2's `Vec::extend` over
    /// references, which aborts if an allocation fails.
    pub fn extend_copied<'a, I: IntoIterator<Item = &'a T>>(
        &mut self,
        iter: I,
    ) -> Result<(), TryReserveError>
    where
        T: Copy + 'a,
        requires finite { IsFiniteIterable I.into_iter_gives I.IntoIter.can_next
            I.IntoIter.remaining iter }
        ensures fits { ((it : I.IntoIter) → I.into_iter_gives iter it
            → HasRoom self.old (size (I.IntoIter.remaining it))) → IsOk result }
        ensures items { OnOk result ((it : I.IntoIter) × (rs : List (Bor T))
            × I.into_iter_gives iter it × Drains I.IntoIter.next_gives it rs
            × (self.new.items ≡ self.old.items ++ map (λ r. r.now) rs)) }
        ensures runs { OnOk result ((it : I.IntoIter) × I.into_iter_gives iter it
            × WholeRun I.IntoIter.next_gives it
            (λ p. self.new.items ≡ self.old.items ++ map (λ r. r.now) p.items)) }
        ensures extended { (it : I.IntoIter) × (after : I.IntoIter) × I.into_iter_gives iter it
            × ExtendResult (YieldsCopies I.IntoIter.next_gives) (LowerAtMost I.IntoIter.remaining)
            (type_size T.row) it self.old after result self.new }
    {
        let mut rest = iter.into_iter();
        self.extend_copied_by(&mut rest)
    }

    /// Like `extend_copied`, but takes the iterator by `&mut`.
    ///
    /// Only the references whose copies are appended are taken from it and, on an error, one more.
    /// Corresponds to allocator-api2's `Vec::extend` over references with `by_ref`.
    #[inline]
    pub fn extend_copied_by<'a, I: Iterator<Item = &'a T>>(
        &mut self,
        iter: &mut I,
    ) -> Result<(), TryReserveError>
    where
        T: Copy + 'a,
        requires callable { I.can_next iter.old }
        requires finite { IsFinite (I.remaining iter.old) }
        ensures fits { HasRoom self.old (size (I.remaining iter.old)) → IsOk result }
        ensures items { OnOk result ((rs : List (Bor T)) × Drains I.next_gives iter.old rs
            × (self.new.items ≡ self.old.items ++ map (λ r. r.now) rs)) }
        ensures runs { OnOk result (WholeRun I.next_gives iter.old
            (λ p. self.new.items ≡ self.old.items ++ map (λ r. r.now) p.items)) }
        ensures extended { ExtendResult (YieldsCopies I.next_gives) (LowerAtMost I.remaining)
            (type_size T.row) iter.old self.old iter.new result self.new }
        ensures advanced { IfErr result
            (λ _. IsNearerEnd I.can_next I.remaining iter.old iter.new) }
    {
        let mut copies = Reading { iter };
        self.extend_by(&mut copies)
    }

    /// Creates a vector of the items of `iter`, which must end, in the given allocator.
    ///
    /// A new vector is extended as `extend` does. So it does not allocate if there is no item, or
    /// for zero-sized elements. Not in allocator-api2.
    ///
    /// # Errors
    /// As `extend`. The items taken are dropped, and the error is returned.
    pub fn from_iter_in<I: IntoIterator<Item = T>>(
        iter: I,
        alloc: A,
    ) -> Result<Self, TryReserveError>
    where
        T: Drop,
        requires finite { IsFiniteIterable I.into_iter_gives I.IntoIter.can_next
            I.IntoIter.remaining iter }
        ensures fits { ((it : I.IntoIter) → I.into_iter_gives iter it
            → size (I.IntoIter.remaining it) ≤ new_capacity (type_size T.row) 0) → IsOk result }
        ensures collected { (it : I.IntoIter) × (after : I.IntoIter) × I.into_iter_gives iter it
            × CollectResult I.IntoIter.next_gives (LowerAtMost I.IntoIter.remaining)
            (type_size T.row) it alloc after result }
    {
        let mut rest = iter.into_iter();
        Vec::from_iter_in_by(&mut rest, alloc)
    }

    /// Like `from_iter_in`, but takes the iterator by `&mut`.
    ///
    /// Only the items that find a place are taken from it and, on an error, one more. Not in
    /// allocator-api2.
    #[inline]
    pub fn from_iter_in_by<I: Iterator<Item = T>>(
        iter: &mut I,
        alloc: A,
    ) -> Result<Self, TryReserveError>
    where
        T: Drop,
        requires callable { I.can_next iter.old }
        requires finite { IsFinite (I.remaining iter.old) }
        ensures fits { size (I.remaining iter.old) ≤ new_capacity (type_size T.row) 0
            → IsOk result }
        ensures collected { CollectResult I.next_gives (LowerAtMost I.remaining)
            (type_size T.row) iter.old alloc iter.new result }
        ensures advanced { IfErr result
            (λ _. IsNearerEnd I.can_next I.remaining iter.old iter.new) }
    {
        let mut v = Vec::new_in(alloc);
        match v.extend_by(iter) {
            Ok(()) => Ok(v),
            Err(error) => Err(error),
        }
    }
}

impl<T> Vec<T, Global> {
    /// Creates a vector of the items of `iter`, which must end, in the global allocator.
    ///
    /// Allocates and fails as `from_iter_in` does. The original aborts if an allocation fails.
    pub fn from_iter<I: IntoIterator<Item = T>>(
        alloc: Global,
        iter: I,
    ) -> Result<Self, TryReserveError>
    where
        T: Drop,
        requires finite { IsFiniteIterable I.into_iter_gives I.IntoIter.can_next
            I.IntoIter.remaining iter }
        ensures fits { ((it : I.IntoIter) → I.into_iter_gives iter it
            → size (I.IntoIter.remaining it) ≤ new_capacity (type_size T.row) 0) → IsOk result }
        ensures collected { (it : I.IntoIter) × (after : I.IntoIter) × I.into_iter_gives iter it
            × CollectResult I.IntoIter.next_gives (LowerAtMost I.IntoIter.remaining)
            (type_size T.row) it alloc after result }
    {
        Vec::from_iter_in(iter, alloc)
    }
}
