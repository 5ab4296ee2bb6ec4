//! `Drain`: an iterator over a range that is removed from a vector.
ghost use Rattle.std.specs.Prelude.{◌≡◌, ◌-◌, ◌≤◌, length, Some, IfSome};
ghost use Rattle.std.specs.Iterator.{UpTo, item_count};
ghost use Rattle.std.specs.Iterator.SizeHint.{IsWithinCount};
ghost use Rattle.aa_vec.specs.Vector.{len};
ghost use Rattle.aa_vec.specs.Ranges.{IsRangeOf};
ghost use Rattle.aa_vec.specs.Tail.{HasTail};

use crate::vec::Vec;
use crate::vec::tail::moves::Gap;
use std::alloc::{Allocator, Global};
use std::convert::AsSlice;
use std::fmt;
use std::iter::FusedIterator;
use std::ops::DerefSlice;
use std_alloc::part::SliceRange;

/// A double-ended iterator over a range that is removed from a vector.
///
/// Returned by `Vec::drain`. Until it is dropped, the vector holds only the elements before the
/// range. Dropping it drops the elements not taken yet and closes the gap. The vector then holds
/// what is before the range and what is after it. Forgetting it leaves the vector with what is
/// before the range, and leaks the rest. Does not allocate.
pub struct Drain<'a, T, A: Allocator = Global> {
    vec: &'a mut Vec<T, A>,
    // Places after the vector's last element. The elements not taken yet are in those from `front`
    // up to `back`. The elements after the range are in those from `end` up to `total`.
    front: usize,
    back: usize,
    end: usize,
    total: usize,
    ghost ordered: { (front ≤ back) × (back ≤ end) × (end ≤ total) },
    ghost held: { HasTail vec.now front (back - front)
        × HasTail vec.now end (total - end) },
}

impl<T, A: Allocator> Vec<T, A> {
    ghost use Rattle.std.specs.Prelude.{List};
    ghost use Rattle.std.specs.Iterator.{Yields};
    ghost use Rattle.std.specs.Iterator.Runs.{YieldsInOrder, YieldsInReverse};
    ghost use Rattle.aa_vec.specs.Drain.{drain_lender, drain_remaining, TakesRange, DrainKeeps, drains_first, drains_last};
    ghost use Rattle.aa_vec.specs.declared.vec.drain.Drain.{Drain};

    /// Removes the range and returns a double-ended iterator over its elements.
    ///
    /// Until the iterator is dropped, the vector holds only the elements before the range. Dropping
    /// it removes what was not taken and closes the gap; forgetting it leaks the rest of the
    /// vector. Does not allocate, and does not change the capacity.
    #[tactic(auto, using(crate::proofs::DrainLemmas::ranges))]
    pub fn drain<R: SliceRange>(&mut self, range: R) -> Drain<'_, T, A>
        requires range { IsRangeOf R.SliceRange range (len self.old) }

        // The iterator borrows the vector, and takes the range out of it.
        ensures lender { drain_lender result ≡ self.entry.ghost_name }
        ensures drained { TakesRange self.old (R.start range) (R.end range (len self.old)) result }

        // Calls of `next` and `next_back` take elements from either end, and keep all else.
        ensures kept { (xs : List T) (later : Drain T A)
            → Yields drains_first result xs later → DrainKeeps result later }
        ensures in_order { YieldsInOrder (drains_first {T = T} {A = A}) drain_remaining }
        ensures in_reverse { YieldsInReverse (drains_last {T = T} {A = A}) drain_remaining }
    {
        let (start, end) = self.bounds_of(range);
        let total = self.set_tail(start);
        let count = end - start;
        Drain {
            vec: self,
            front: 0,
            back: count,
            end: count,
            total,
        }
    }
}

impl<'a, T, A: Allocator> Drain<'a, T, A> {
    ghost use Rattle.aa_vec.specs.Drain.{drain_vec, drain_remaining, KeepsRest};

    /// Returns the elements not taken yet, in order.
    #[tactic(auto, using(crate::proofs::DrainLemmas::rest_is))]
    pub fn as_slice(&self) -> &[T]
        ensures { result.now ≡ drain_remaining self.now }
    {
        self.vec.tail_slice(self.front, self.back - self.front)
    }

    /// Returns the vector's allocator.
    pub fn allocator(&self) -> &A
        ensures { result.now ≡ (drain_vec self.now).alloc }
    {
        self.vec.allocator()
    }

    /// Ends the iterator and keeps the elements not taken yet.
    ///
    /// The vector then holds what is before the range, these elements, and what is after the range.
    /// Does not allocate, and does not change the capacity.
    pub fn keep_rest(self)
        ensures { KeepsRest self.entry self.exit.0.now }
    {
        let Drain {
            vec,
            front,
            back,
            end,
            total,
        } = self;
        vec.close_gaps(Gap {
            front,
            back,
            end,
            total,
        });
    }
}

impl<'a, T, A: Allocator> DerefSlice for Drain<'a, T, A> {
    ghost use Rattle.aa_vec.specs.Drain.{drain_remaining};

    type Elem = T;

    ghost deref_gives = { λ d xs. xs ≡ drain_remaining d };

    /// Returns the elements not taken yet as a slice, as `as_slice` does.
    fn deref(&self) -> &[T] {
        self.as_slice()
    }
}

impl<'a, T, A: Allocator> AsSlice<T> for Drain<'a, T, A> {
    ghost use Rattle.aa_vec.specs.Drain.{drain_remaining};

    ghost items = { drain_remaining };

    /// Returns the elements not taken yet as a slice. Corresponds to the original's `AsRef<[T]>`.
    fn as_slice(&self) -> &[T] {
        Drain::as_slice(self)
    }
}

impl<'a, T: Drop, A: Allocator> Iterator for Drain<'a, T, A> {
    ghost use Rattle.aa_vec.specs.Drain.{drain_remaining, drains_first};

    type Item = T;

    ghost next_gives = { drains_first };

    ghost remaining = { item_count drain_remaining };

    /// Takes and returns the first element, or returns `None` if none remains.
    ///
    /// Once it has returned `None`, it always does.
    #[tactic(auto, using(crate::proofs::DrainLemmas::from_ends))]
    fn next(&mut self) -> Option<T> {
        let first = self.front;
        if first == self.back {
            return None;
        }
        self.front = first + 1;
        Some(self.vec.take_from_tail(first))
    }

    /// Returns the exact number of remaining elements, as both bounds.
    #[tactic(auto, using(crate::proofs::DrainLemmas::remaining_count))]
    fn size_hint(&self) -> (usize, Option<usize>)
        ensures lower { IsWithinCount result.0 (item_count drain_remaining self.now) }
        ensures upper { IfSome result.1 (UpTo (item_count drain_remaining self.now)) }
        ensures exact { result ≡ (
          length (drain_remaining self.now),
          Some (length (drain_remaining self.now)),
        ) }
    {
        let left = self.back - self.front;
        (left, Some(left))
    }
}

impl<'a, T: Drop, A: Allocator> DoubleEndedIterator for Drain<'a, T, A> {
    ghost use Rattle.aa_vec.specs.Drain.{drains_last};

    ghost next_back_gives = { drains_last };

    /// Takes and returns the last element, or returns `None` if none remains.
    ///
    /// Once it has returned `None`, it always does.
    #[tactic(auto, using(crate::proofs::DrainLemmas::from_ends))]
    fn next_back(&mut self) -> Option<T> {
        if self.front == self.back {
            return None;
        }
        let last = self.back - 1;
        self.back = last;
        Some(self.vec.take_from_tail(last))
    }
}

impl<'a, T: Drop, A: Allocator> ExactSizeIterator for Drain<'a, T, A> {
    #[tactic(auto, using(crate::proofs::DrainLemmas::remaining_count))]
    fn len(&self) -> usize {
        self.back - self.front
    }
}

impl<'a, T: Drop, A: Allocator> FusedIterator for Drain<'a, T, A> {}

impl<'a, T: fmt::Debug, A: Allocator> fmt::Debug for Drain<'a, T, A> {
    fn fmt<W: fmt::Write>(&self, f: &mut fmt::Formatter<W>) -> fmt::Result {
        f.debug_tuple("Drain").field(&self.as_slice()).finish()
    }
}

impl<'a, T: Drop, A: Allocator> Drop for Drain<'a, T, A> {
    ghost use Rattle.aa_vec.specs.Drain.{Closes};

    /// Drops the elements not taken yet, and closes the gap.
    fn drop(self)
        ensures { Closes self.entry self.exit.0.now }
    {
        let Drain {
            vec,
            front,
            back,
            end,
            total,
        } = self;
        vec.drop_and_close(Gap {
            front,
            back,
            end,
            total,
        });
    }
}
