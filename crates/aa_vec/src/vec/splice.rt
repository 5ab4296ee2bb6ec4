//! `Splice`: a range of a vector that is replaced by the items of an iterator.
ghost use Rattle.std.specs.Prelude.{◌≡◌, ℕ, ◌+◌, ◌-◌, ◌*◌, ◌<◌, ◌≤◌, ◌++◌, List, [], length, Some, IfErr, OnOk, IsOk};
ghost use Rattle.std.specs.Mem.{type_size};
ghost use Rattle.std.specs.Iterator.{IsFinite};
ghost use Rattle.aa_vec.specs.Vector.{len, HasRoom};
ghost use Rattle.aa_vec.specs.Ranges.{IsRangeOf};
ghost use Rattle.aa_vec.specs.Tail.{HasTail, tail_items};
ghost use Rattle.aa_vec.specs.Extend.{LowerAtMost, LowerExactly};
ghost use Rattle.aa_vec.specs.SpliceItems.{Replaced, gapped};

use crate::vec::Vec;
use crate::vec::extend::items::Hinted;
use crate::vec::extend::lower_bound::{ByHint, ByLower, LowerBound};
use crate::vec::tail::moves::Gap;
use aa_raw::collections::TryReserveError;
use std::alloc::{Allocator, Global};
use std::fmt;
use std::iter::IntoIterator;
use std_alloc::part::SliceRange;

/// A splice: a range of a vector that is replaced by the items of an iterator.
///
/// Returned by `Vec::splice`. The elements of the range can be taken from either end. `finish` or
/// `finish_hinted` drops the others and puts the items in their place.
///
/// A `Splice` must be ended by one of the two. The original is ended by its drop, which could not
/// return an error.
pub struct Splice<'a, I: Iterator, A: Allocator = Global> {
    vec: &'a mut Vec<I::Item, A>,
    // Places after the vector's last element. The elements of the range that were not taken are in
    // those from `front` up to `back`. The elements after the range are in those from `end` up to
    // `total`.
    front: usize,
    back: usize,
    end: usize,
    total: usize,
    iter: I,
    ghost ordered: { (front ≤ back) × (back ≤ end) × (end ≤ total) },
    ghost held: { HasTail vec.now front (back - front)
        × HasTail vec.now end (total - end) },
}

impl<T, A: Allocator> Vec<T, A> {
    ghost use Rattle.aa_vec.specs.Drain.{TakesRange, drain_lender};
    ghost use Rattle.aa_vec.specs.Splice.{splice_range, splice_iter};

    /// Removes the range and returns a splice, whose `finish` replaces it with the items of `iter`.
    ///
    /// The vector holds only the elements before the range until then. The splice returns the
    /// elements of the range from either end. Does not allocate, and does not change the capacity.
    pub fn splice<R: SliceRange, I: IntoIterator<Item = T>>(
        &mut self,
        range: R,
        iter: I,
    ) -> Splice<'_, I::IntoIter, A>
    where
        A: Clone,
        requires range { IsRangeOf R.SliceRange range (len self.old) }
        ensures lender { drain_lender (splice_range result) ≡ self.entry.ghost_name }
        ensures drained { let end = R.end range (len self.old) in
            TakesRange self.old (R.start range) end (splice_range result) }
        ensures items { I.into_iter_gives iter (splice_iter result) }
    {
        let (start, end) = self.bounds_of(range);
        let total = self.set_tail(start);
        let count = end - start;
        Splice {
            vec: self,
            front: 0,
            back: count,
            end: count,
            total,
            iter: iter.into_iter(),
        }
    }
}

impl<'a, I: Iterator, A: Allocator> Splice<'a, I, A> {
    ghost use Rattle.aa_vec.specs.Drain.{drain_remaining};
    ghost use Rattle.aa_vec.specs.Splice.{splice_range, splices_first, splices_last};

    /// Takes and returns the first element of the range, or returns `None` if none remains.
    #[tactic(auto, using(crate::proofs::DrainLemmas::from_ends))]
    pub fn next(&mut self) -> Option<I::Item>
        ensures { splices_first self.old result self.new }
    {
        let first = self.front;
        if first == self.back {
            return None;
        }
        self.front = first + 1;
        Some(self.vec.take_from_tail(first))
    }

    /// Takes and returns the last element of the range, or returns `None` if none remains.
    #[tactic(auto, using(crate::proofs::DrainLemmas::from_ends))]
    pub fn next_back(&mut self) -> Option<I::Item>
        ensures { splices_last self.old result self.new }
    {
        if self.front == self.back {
            return None;
        }
        let last = self.back - 1;
        self.back = last;
        Some(self.vec.take_from_tail(last))
    }

    /// Returns the number of remaining elements of the range.
    #[tactic(auto, using(crate::proofs::DrainLemmas::remaining_count))]
    pub fn len(&self) -> usize
        ensures { result ≡ length (drain_remaining (splice_range self.now)) }
    {
        self.back - self.front
    }

    /// Returns the exact number of remaining elements of the range, as both bounds.
    pub fn size_hint(&self) -> (usize, Option<usize>)
        ensures { let n = length (drain_remaining (splice_range self.now)) in result ≡ (n, Some n) }
    {
        let left = self.len();
        (left, Some(left))
    }
}

impl<'a, I: Iterator, A: Allocator> fmt::Debug for Splice<'a, I, A>
where
    I::Item: fmt::Debug,
{
    fn fmt<W: fmt::Write>(&self, f: &mut fmt::Formatter<W>) -> fmt::Result {
        let rest = self.vec.tail_slice(self.front, self.back - self.front);
        f.debug_tuple("Splice").field(&rest).finish()
    }
}

impl<'a, I: Iterator, A: Allocator + Clone> Splice<'a, I, A>
where
    I::Item: Drop,
{
    ghost use Rattle.aa_vec.specs.Splice.{splice_gap, splice_iter};

    // Ends a splice, with the lower bound that `W` returns. The two functions below are built on it.
    fn finish_by<W: LowerBound<I>>(self) -> Result<(), TryReserveError>
        requires callable { I.can_next (splice_iter self) }
        requires finite { IsFinite (I.remaining (splice_iter self)) }
        ensures { Replaced I.Iterator W.lower_is
            (¬ (A.is_infallible self.entry.vec.now.alloc)) (type_size I.Item.row)
            (splice_iter self.entry) (splice_gap self.entry) result self.exit.0.now }
    {
        let Splice {
            vec,
            front,
            back,
            end,
            total,
            iter,
        } = self;
        Self::finish_parts::<W>(
            vec,
            Gap {
                front,
                back,
                end,
                total,
            },
            iter,
        )
    }

    // The same, from the parts of a splice: drops what was not taken of the range, and replaces it
    // with the items of `iter`.
    fn finish_parts<W: LowerBound<I>>(
        vec: &'a mut Vec<I::Item, A>,
        gap: Gap,
        iter: I,
    ) -> Result<(), TryReserveError>
        requires ordered { (gap.front ≤ gap.back) × (gap.back ≤ gap.end) × (gap.end ≤ gap.total) }
        requires has_tail { HasTail vec.old gap.front (gap.back - gap.front)
            × HasTail vec.old gap.end (gap.total - gap.end) }
        requires callable { I.can_next iter }
        requires finite { IsFinite (I.remaining iter) }
        ensures { Replaced I.Iterator W.lower_is (¬ (A.is_infallible vec.old.alloc))
            (type_size I.Item.row) iter
            (gapped vec.old vec.old.items gap.end (tail_items vec.old gap.end (gap.total - gap.end)))
            result vec.new }
    {
        let mut items = iter;
        let count = gap.total - gap.end;
        vec.drop_from_tail(gap.front, gap.back - gap.front);
        if count == 0 {
            return vec.extend_with_bound::<W, I>(&mut items);
        }
        if vec.fill_and_close(gap.end, count, &mut items) != 0 {
            return Ok(());
        }
        let bound = W::lower_bound(&items);
        vec.put_more::<W, I>(bound, count, &mut items)
    }
}

impl<'a, I: Hinted, A: Allocator + Clone> Splice<'a, I, A>
where
    I::Item: Drop,
{
    ghost use Rattle.std.specs.Iterator.{Drains};
    ghost use Rattle.std.specs.Iterator.Runs.{WholeRun};
    ghost use Rattle.aa_vec.specs.Splice.{splice_gap, splice_iter};

    /// Ends the splice: replaces the rest of the range with the items of the iterator, which must
    /// end.
    ///
    /// The vector then holds what is before the range, the items of the iterator, and what is after
    /// the range. Elements of the range that were not taken are dropped.
    ///
    /// If nothing is after the range, the items are appended as by `extend_hinted`. Else they fill
    /// the places of the range first. Once these are full, capacity for as many items as `lower`
    /// then returns is reserved, by the growth policy, and filled. If still more items come, they
    /// are collected in a temporary vector over a clone of the allocator, as by `extend_hinted`.
    /// Capacity is then reserved for exactly these.
    ///
    /// Does not allocate if fewer items come than the range had elements. Nor does it if nothing is
    /// after the range and the items fit in the capacity. Nor does it if, once the range is full,
    /// no more items remain than `lower` returns and that many fit in the capacity. Nor does it for
    /// zero-sized elements.
    ///
    /// Corresponds to the drop of allocator-api2's `Splice`, with `lower` in place of `size_hint`.
    ///
    /// # Errors
    /// `CapacityOverflow` if the capacity overflows, which is certain if the requested length
    /// exceeds `usize::MAX`; `AllocError` with the requested capacity if the allocation fails.
    /// While items are collected, that is the capacity of the temporary vector. If the clone of the
    /// allocator fails, the error is that of the temporary vector's first growth.
    ///
    /// The vector then holds what is before the range, a beginning of the items, and what is after
    /// the range. The beginning fills the places there were, and the other items are dropped.
    pub fn finish_hinted(self) -> Result<(), TryReserveError>
        requires callable { I.can_next (splice_iter self) }
        requires finite { IsFinite (I.remaining (splice_iter self)) }

        // On success the items are in place of the range, in order.
        ensures items { let s = splice_gap self.entry in OnOk result ((xs : List I.Item)
            × Drains I.next_gives (splice_iter self.entry) xs
            × (self.exit.0.now.items ≡ s.head ++ (xs ++ s.tail))) }
        ensures runs { let s = splice_gap self.entry in
            OnOk result (WholeRun I.next_gives (splice_iter self.entry)
            (λ p. self.exit.0.now.items ≡ s.head ++ (p.items ++ s.tail))) }

        // The record says which items are placed, what is written, and why it failed.
        ensures replaced { Replaced I.Iterator (LowerExactly I.lower_of)
            (¬ (A.is_infallible (splice_gap self.entry).block.alloc)) (type_size I.Item.row)
            (splice_iter self.entry) (splice_gap self.entry) result self.exit.0.now }
    {
        self.finish_by::<ByLower>()
    }
}

impl<'a, I: Iterator, A: Allocator + Clone> Splice<'a, I, A>
where
    I::Item: Drop,
{
    ghost use Rattle.std.specs.Iterator.{Drains, size};
    ghost use Rattle.std.specs.Iterator.Runs.{WholeRun};
    ghost use Rattle.aa_vec.specs.Splice.{splice_gap, splice_iter};

    /// Ends the splice: replaces the rest of the range with the items of the iterator, which must
    /// end.
    ///
    /// Like `finish_hinted`, but with the lower bound that `size_hint` returns. If nothing is after
    /// the range, the items are appended as by `extend`. Nor does it allocate if as many items come
    /// as the range had elements.
    ///
    /// Corresponds to the drop of allocator-api2's `Splice`.
    ///
    /// # Errors
    /// As `finish_hinted`.
    #[tactic(auto, using(crate::proofs::HintLemmas::zero_at_end))]
    pub fn finish(self) -> Result<(), TryReserveError>
        requires callable { I.can_next (splice_iter self) }
        requires finite { IsFinite (I.remaining (splice_iter self)) }

        // On success the items are in place of the range, in order.
        ensures items { let s = splice_gap self.entry in OnOk result ((xs : List I.Item)
            × Drains I.next_gives (splice_iter self.entry) xs
            × (self.exit.0.now.items ≡ s.head ++ (xs ++ s.tail))) }
        ensures runs { let s = splice_gap self.entry in
            OnOk result (WholeRun I.next_gives (splice_iter self.entry)
            (λ p. self.exit.0.now.items ≡ s.head ++ (p.items ++ s.tail))) }
        ensures fits_gap { size (I.remaining (splice_iter self.entry)) ≤ (splice_gap self.entry).gap
            → IsOk result }

        // The record says which items are placed, what is written, and why it failed.
        ensures replaced { Replaced I.Iterator (LowerAtMost I.remaining)
            (¬ (A.is_infallible (splice_gap self.entry).block.alloc)) (type_size I.Item.row)
            (splice_iter self.entry) (splice_gap self.entry) result self.exit.0.now }
    {
        self.finish_by::<ByHint>()
    }
}
