//! `ExtractIf`: an iterator over the elements that a closure removes from a range.
ghost use Rattle.std.specs.Prelude.{◌-◌, ◌≤◌, false};
ghost use Rattle.std.specs.Fn.{CalledAtMut};
ghost use Rattle.aa_vec.specs.Tail.{HasTail, tail_items};
ghost use Rattle.aa_vec.specs.Choosing.{CallableAtMut, MayCallInOrder, IsCallableInOrder};
ghost use Rattle.aa_vec.specs.Until.{KeepsWhen, CallsOnTail, CallsAndShifts, Picks};
ghost use Rattle.aa_vec.specs.Vector.{len};
ghost use Rattle.aa_vec.specs.Ranges.{IsRangeOf};

use crate::vec::Vec;
use crate::vec::retain::count_kept;
use crate::vec::tail::moves::Gap;
use std::alloc::{Allocator, Global};
use std::iter::FusedIterator;
use std::ops::Range;
use std_alloc::part::SliceRange;

/// An iterator over the elements of a range that a closure removes, which borrows the closure at
/// each call.
///
/// Like `ExtractIf`, but contracts describe the final state of the closure. Until it is dropped,
/// the vector holds only the elements before the range. Dropping it closes the gaps. The vector
/// then holds what is before the range, the kept and the untested elements of the range, and what
/// is after it. Forgetting it leaves the vector with what is before the range, and leaks the rest.
/// Does not allocate. Not in allocator-api2.
pub struct ExtractBy<'a, T, A: Allocator = Global> {
    vec: &'a mut Vec<T, A>,
    // Places after the vector's last element. The kept elements are in those up to `kept`, the
    // untested ones in those from `front` up to `end`. The elements after the range are in those
    // from there up to `total`.
    kept: usize,
    front: usize,
    end: usize,
    total: usize,
    ghost ordered: { (kept ≤ front) × (front ≤ end) × (end ≤ total) },
    ghost held: { HasTail vec.now 0 kept × HasTail vec.now front (total - front) },
}

impl<T, A: Allocator> Vec<T, A> {
    // Calls `f` for the elements in the places `rest` in order, up to the first for which it
    // returns `true`. Takes that one out, and moves those before it down to the `kept` ones.
    // Returns how many were moved, the first place that was not tested, and the element.
    fn pick<F: FnMut(&mut T) -> bool>(
        &mut self,
        kept: usize,
        rest: Range<usize>,
        f: &mut F,
    ) -> (usize, usize, Option<T>)
        requires ordered { (kept ≤ rest.start) × (rest.start ≤ rest.end) }
        requires has_tail { HasTail self.old 0 kept
            × HasTail self.old rest.start (rest.end - rest.start) }
        requires callable { MayCallInOrder (KeepsWhen false (CalledAtMut F.FnMut))
            (CallableAtMut F.FnMut) f.old (tail_items self.old rest.start (rest.end - rest.start)) }
        ensures { Picks (CalledAtMut F.FnMut) f.old self.old kept rest.start rest.end result.0
            result.1 result.2 f.new self.new }
    {
        let len = self.len();
        let gap = rest.start - kept;
        let count = rest.end - rest.start;
        self.close_gap(0, kept);
        let passed = self.pass_over(gap, count, f);
        let (next, item) = if passed < count {
            self.block.prove_capacity_bounds();
            let at = rest.start + passed;
            (at + 1, Some(self.take_at(len + at)))
        } else {
            (rest.end, None)
        };
        self.set_tail(len);
        (passed, next, item)
    }

    // Calls `f` for the `count` elements after the gap in order, up to the first for which it
    // returns `true`. Moves those before it down, and returns how many they are. For none or one
    // this is far cheaper than a move of a run.
    fn pass_over<F: FnMut(&mut T) -> bool>(&mut self, gap: usize, count: usize, f: &mut F) -> usize
        requires has_tail { HasTail self.old gap count }
        requires callable { MayCallInOrder (KeepsWhen false (CalledAtMut F.FnMut))
            (CallableAtMut F.FnMut) f.old (tail_items self.old gap count) }
        ensures { CallsAndShifts (KeepsWhen false (CalledAtMut F.FnMut)) f.old self.old gap
            count result f.new self.new }
    {
        let passed = self.count_passed(gap, count, f);
        if passed == 0 {
            return 0;
        }
        if passed == 1 && 0 < gap {
            self.close_gap_by_one(gap);
            return 1;
        }
        self.close_gap(gap, passed);
        passed
    }

    // Calls `f` for them. Returns how many there are before the first for which it returns `true`.
    #[inline(always)]
    #[tactic(auto, using(crate::proofs::Chains::borrowed))]
    fn count_passed<F: FnMut(&mut T) -> bool>(
        &mut self,
        gap: usize,
        count: usize,
        f: &mut F,
    ) -> usize
        requires has_tail { HasTail self.old gap count }
        requires callable { MayCallInOrder (KeepsWhen false (CalledAtMut F.FnMut))
            (CallableAtMut F.FnMut) f.old (tail_items self.old gap count) }
        ensures { CallsOnTail (KeepsWhen false (CalledAtMut F.FnMut)) f.old self.old gap
            count result f.new self.new }
    {
        self.block.prove_capacity_bounds();
        let elements = self.block.slice_mut(self.len + gap, count);
        if count < 2 {
            return count_kept::<0, T, F>(elements, false, f);
        }
        count_kept::<2, T, F>(elements, false, f)
    }
}

impl<'a, T, A: Allocator> ExtractBy<'a, T, A> {
    ghost use Rattle.std.specs.Prelude.{◌≡◌, length};
    ghost use Rattle.aa_vec.specs.Extract.{extract_remaining, Extracts};

    /// Removes and returns the next element for which `f` returns `true`, or returns `None` if
    /// there is none.
    ///
    /// `f` is called for the untested elements in order, up to the first for which it returns
    /// `true`. The others are kept, as `f` leaves them. Once it has returned `None`, it always
    /// does, and `f` is not called again.
    #[tactic(auto, using(crate::proofs::ExtractLemmas::picked))]
    pub fn next_by<F: FnMut(&mut T) -> bool>(&mut self, f: &mut F) -> Option<T>
        requires { IsCallableInOrder (CalledAtMut F.FnMut) (CallableAtMut F.FnMut) f.old
            (extract_remaining self.old) }
        ensures { Extracts (CalledAtMut F.FnMut) f.old self.old result f.new self.new }
    {
        let (passed, next, item) = self.vec.pick(self.kept, self.front..self.end, f);
        self.kept += passed;
        self.front = next;
        item
    }

    /// Returns the number of elements for which the closure was not called yet.
    #[tactic(auto, using(crate::proofs::ExtractLemmas::rest_count))]
    pub fn remaining_len(&self) -> usize
        ensures { result ≡ length (extract_remaining self.now) }
    {
        self.end - self.front
    }
}

impl<'a, T, A: Allocator> Drop for ExtractBy<'a, T, A> {
    ghost use Rattle.aa_vec.specs.Extract.{ClosesExtract};

    // Moves down the untested elements, and what is after the range.
    fn drop(self)
        ensures { ClosesExtract self.entry self.exit.0.now }
    {
        let ExtractBy {
            vec,
            kept,
            front,
            end,
            total,
        } = self;
        vec.close_kept(Gap {
            front: kept,
            back: front,
            end,
            total,
        });
    }
}

/// An iterator over the elements of a range for which a closure returns `true`, which are removed
/// one by one.
///
/// Returned by `Vec::extract_if`. Until it is dropped, the vector holds only the elements before
/// the range. Dropping it closes the gaps. The vector then holds what is before the range, the kept
/// and the untested elements of the range, and what is after it. Forgetting it leaves the vector
/// with what is before the range, and leaks the rest. Does not allocate. Corresponds to std's
/// `ExtractIf`, which allocator-api2 lacks.
#[derive(Drop)]
pub struct ExtractIf<'a, T, F, A: Allocator = Global> {
    by: ExtractBy<'a, T, A>,
    f: F,
}

impl<T, A: Allocator> Vec<T, A> {
    ghost use Rattle.std.specs.Prelude.{◌≡◌};
    ghost use Rattle.aa_vec.specs.Extract.{ExtractsRange, ExtractsAlong, extract_lender};

    /// Returns an iterator that removes the elements of the range for which `f` returns `true`.
    ///
    /// `f` is called for each element in order, as the iterator is advanced. The others are kept,
    /// as `f` leaves them. Does not allocate, and does not change the capacity.
    #[tactic(auto, using(crate::proofs::ExtractRuns::extracts_along))]
    pub fn extract_if<R: SliceRange, F: FnMut(&mut T) -> bool>(
        &mut self,
        range: R,
        f: F,
    ) -> ExtractIf<'_, T, F, A>
        requires range { IsRangeOf R.SliceRange range (len self.old) }
        ensures lender { extract_lender result.by ≡ self.entry.ghost_name }
        ensures closure { result.f ≡ f }
        ensures taken { let end = R.end range (len self.old) in
            ExtractsRange self.old (R.start range) end result.by }
        ensures extracted { ExtractsAlong (CalledAtMut F.FnMut) result }
    {
        ExtractIf {
            by: self.extract_by(range),
            f,
        }
    }

    /// Like `extract_if`, but borrows the closure at each call, so that contracts describe its
    /// final state.
    ///
    /// Returns an iterator whose `next_by` takes the closure by `&mut`. Does not allocate. Not in
    /// allocator-api2.
    pub fn extract_by<R: SliceRange>(&mut self, range: R) -> ExtractBy<'_, T, A>
        requires range { IsRangeOf R.SliceRange range (len self.old) }
        ensures lender { extract_lender result ≡ self.entry.ghost_name }
        ensures taken { let end = R.end range (len self.old) in
            ExtractsRange self.old (R.start range) end result }
    {
        let (start, end) = self.bounds_of(range);
        let total = self.set_tail(start);
        ExtractBy {
            vec: self,
            kept: 0,
            front: 0,
            end: end - start,
            total,
        }
    }
}

impl<'a, T, F: FnMut(&mut T) -> bool + Drop, A: Allocator> Iterator for ExtractIf<'a, T, F, A> {
    ghost use Rattle.std.specs.Prelude.{◌≡◌, length, Some, IfSome};
    ghost use Rattle.std.specs.Iterator.{UpTo, at_most};
    ghost use Rattle.std.specs.Iterator.SizeHint.{IsWithinCount};
    ghost use Rattle.aa_vec.specs.Extract.{extract_remaining, Extracts};

    type Item = T;

    ghost can_next = { λ s. IsCallableInOrder (CalledAtMut F.FnMut)
        (CallableAtMut F.FnMut) s.f (extract_remaining s.by) };

    ghost next_gives = { λ s r t. Extracts (CalledAtMut F.FnMut) s.f s.by r t.f t.by };

    ghost remaining = { λ s. at_most (length (extract_remaining s.by)) };

    /// Removes and returns the next element for which the closure returns `true`, or returns `None`
    /// if there is none.
    ///
    /// The closure is called for the untested elements in order, up to the first for which it
    /// returns `true`. Once this has returned `None`, it always does, and the closure is not called
    /// again.
    fn next(&mut self) -> Option<T> {
        let ExtractIf { by, f } = self;
        by.next_by(f)
    }

    /// Returns 0 and the number of untested elements.
    fn size_hint(&self) -> (usize, Option<usize>)
        ensures lower { IsWithinCount result.0 (at_most (length (extract_remaining self.now.by))) }
        ensures upper { IfSome result.1 (UpTo (at_most (length (extract_remaining self.now.by)))) }
        ensures exact { result ≡ (0, Some (length (extract_remaining self.now.by))) }
    {
        (0, Some(self.by.remaining_len()))
    }
}

impl<'a, T, F: Drop, A: Allocator> FusedIterator for ExtractIf<'a, T, F, A>
where
    ExtractIf<'a, T, F, A>: Iterator,
{}
