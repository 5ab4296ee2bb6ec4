//! A gap before the tail: how it is opened, and filled with the items of an iterator.
ghost use Rattle.std.specs.Prelude.{◌≡◌, ◌+◌, ◌-◌, ◌<◌, ◌≤◌, List, ◌∷◌, ◌++◌, drop, IfOk, IfErr, OnOk, IsOk, if◌then◌else◌};
ghost use Rattle.std.specs.Mem.{type_size};
ghost use Rattle.std.specs.Iterator.{IsFinite, Drains, Yields, size};
ghost use Rattle.aa_vec.specs.Vector.{len, HasRoom, LacksRoom, Holds, Writes, run_count};
ghost use Rattle.aa_vec.specs.Tail.{HasTail};
ghost use Rattle.aa_vec.specs.Filling.{WidensGap, FillsGap, CanContinue, FillsAndCloses, Collects, PutsRest, LacksRest, Puts};

use crate::vec::Vec;
use crate::vec::extend::lower_bound::LowerBound;
use aa_raw::collections::TryReserveError;
use aa_raw::raw_vec::first_growth_error;
use core::mem::replace_with;
use std::alloc::Allocator;

impl<T, A: Allocator> Vec<T, A> {
    // Moves items of `iter` into the gap before the `count` elements of the tail, until the gap is
    // full or the iterator ends, and then moves these down. Returns how many places of the gap were
    // left.
    pub(crate) fn fill_and_close<I: Iterator<Item = T>>(
        &mut self,
        gap: usize,
        count: usize,
        iter: &mut I,
    ) -> usize
        // The tail comes after the gap, and the iterator is finite.
        requires has_tail { HasTail self.old gap count }
        requires callable { I.can_next iter.old }
        requires finite { IsFinite (I.remaining iter.old) }

        // The gap is filled as far as there are items, and closed.
        ensures filled { FillsAndCloses I.next_gives iter.old self.old gap count
            result iter.new self.new }
        ensures advanced { result ≡ 0 → CanContinue I.Iterator iter.old gap iter.new }
        ensures within { gap - result ≤ size (I.remaining iter.old) }
    {
        let (left, _iter) = replace_with(self, (iter, gap, count), with_gap_filled);
        self.close_gap(left, count);
        left
    }

    // Reserves capacity for `gap` more elements, and moves the last `count` elements up by `gap`
    // places.
    #[tactic(auto, using(aa_raw::proofs::Calls::in_runs, crate::proofs::Gaps::spare, crate::proofs::Filling::gaps, crate::proofs::Becoming::became))]
    fn widen(&mut self, gap: usize, count: usize) -> Result<(), TryReserveError>
        requires { count ≤ len self.old }
        ensures fits { HasRoom self.old gap → IsOk result }
        ensures widened { OnOk result (WidensGap (type_size T.row) self.old gap count self.new) }
        ensures failed { IfErr result (λ e. LacksRoom (type_size T.row) self.old gap e
            × (self.new ≡ self.old)) }
    {
        self.try_reserve(gap)?;
        let at = self.len() - count;
        self.set_tail(at);
        self.block.prove_capacity_bounds();
        self.block.move_run(at, at + gap, count);
        Ok(())
    }

    // Returns a new vector of `first` and the items of `iter`, over a clone of the allocator. It is
    // extended by the lower bounds of `W`.
    #[tactic(auto, using(crate::proofs::Becoming::became, crate::proofs::Gathered::gathered))]
    fn gather<W: LowerBound<I>, I: Iterator<Item = T>>(
        &self,
        first: T,
        iter: &mut I,
    ) -> Result<Self, TryReserveError>
    where
        T: Drop,
        A: Clone,
        requires callable { I.can_next iter.old }
        requires finite { IsFinite (I.remaining iter.old) }
        ensures collected { IfOk result
            (λ v. Collects I.next_gives W.lower_is iter.old first v iter.new) }
        ensures failed { IfErr result
            (λ e. LacksRest I.next_gives W.lower_is (¬ (A.is_infallible self.now.alloc))
            (type_size T.row) iter.old self.now first e iter.new) }
    {
        let wanted = W::lower_bound(iter).saturating_add(1);
        let Ok(alloc) = self.allocator().clone() else {
            return Err(first_growth_error::<T>(wanted));
        };
        let mut more = Vec::new_in(alloc);
        if let Err(error) = more.try_reserve(wanted) {
            return Err(error);
        }
        more.put_next(first);
        match more.extend_with_bound::<W, I>(iter) {
            Ok(()) => Ok(more),
            Err(error) => Err(error),
        }
    }

    // Inserts `first` and the items of `iter` before the last `count` elements.
    #[tactic(auto, using(crate::proofs::Replacing::runs_put))]
    fn put_rest<W: LowerBound<I>, I: Iterator<Item = T>>(
        &mut self,
        count: usize,
        first: T,
        iter: &mut I,
    ) -> Result<(), TryReserveError>
    where
        T: Drop,
        A: Clone,
        requires count { count ≤ len self.old }
        requires callable { I.can_next iter.old }
        requires finite { IsFinite (I.remaining iter.old) }
        ensures inserted { OnOk result
            (PutsRest I.next_gives (type_size T.row) iter.old self.old count
            first self.new iter.new) }
        ensures failed { IfErr result
            (λ e. LacksRest I.next_gives W.lower_is (¬ (A.is_infallible self.old.alloc))
            (type_size T.row) iter.old self.old first e iter.new × (self.new ≡ self.old)) }
    {
        let mut more = self.gather::<W, I>(first, iter)?;
        self.widen(more.len(), count)?;
        self.take_from(&mut more, 0);
        self.close_gap(0, count);
        Ok(())
    }

    // Inserts the items of `iter` before the last `count` elements: first up to the lower bound,
    // for which it reserves capacity, and then the others.
    pub(crate) fn put_more<W: LowerBound<I>, I: Iterator<Item = T>>(
        &mut self,
        bound: usize,
        count: usize,
        iter: &mut I,
    ) -> Result<(), TryReserveError>
    where
        T: Drop,
        A: Clone,
        requires count { (0 < count) × (count ≤ len self.old) }
        requires callable { I.can_next iter.old }
        requires finite { IsFinite (I.remaining iter.old) }
        ensures { Puts I.next_gives W.lower_is (¬ (A.is_infallible self.old.alloc))
            (type_size T.row) iter.old self.old bound count I.remaining result self.new iter.new }
    {
        self.widen(bound, count)?;
        if self.fill_and_close(bound, count, iter) != 0 {
            return Ok(());
        }
        match iter.next() {
            Some(first) => self.put_rest::<W, I>(count, first, iter),
            None => Ok(()),
        }
    }
}

// Moves items of an iterator into the gap of a vector that it owns, until the gap is full or the
// iterator ends. Nothing that is stored in its places can then change its fields, which are kept in
// registers. `from` has the iterator, the places of the gap, and the number of elements after it.
// Returns how many places of the gap are left, and the iterator. The last number is for the contract
// alone: a function has no parameter that only contracts see.
#[inline(always)]
#[tactic(auto, using(crate::proofs::Filling::gaps))]
pub(crate) fn with_gap_filled<'a, T, A: Allocator, I: Iterator<Item = T>>(
    mut list: Vec<T, A>,
    from: (&'a mut I, usize, usize),
) -> (Vec<T, A>, (usize, &'a mut I))
    // The tail comes after the gap, and the iterator is finite.
    requires has_tail { HasTail list from.1 from.2 }
    requires callable { I.can_next from.0.now }
    requires finite { IsFinite (I.remaining from.0.now) }

    // The gap is filled as far as there are items, and the iterator is returned.
    ensures same_reference { result.1.1.ghost_name ≡ from.entry.0.ghost_name }
    ensures filled { FillsGap I.next_gives from.entry.0.now list from.entry.1 from.entry.2 result.1.0
        result.1.1.now result.0 }
    ensures advanced { result.1.0 ≡ 0
        → CanContinue I.Iterator from.entry.0.now from.entry.1 result.1.1.now }
    ensures within { from.entry.1 - result.1.0 ≤ size (I.remaining from.entry.0.now) }
{
    let (iter, gap, _count) = from;
    let mut left = gap;
    while left != 0 {
        let Some(x) = iter.next() else {
            return (list, (left, iter));
        };
        list.put_next(x);
        left -= 1;
    }
    (list, (0, iter))
}
