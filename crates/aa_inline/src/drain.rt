//! `Drain`: an iterator over a range that is removed from a small vector.
ghost use Rattle.std.specs.Prelude.{◌≡◌, ◌++◌, length, take, drop, Some, IfSome};
ghost use Rattle.std.specs.List.{slice_range};
ghost use Rattle.std.specs.Iterator.{UpTo, at_most};
ghost use Rattle.std.specs.Iterator.SizeHint.{IsWithinCount};
ghost use Rattle.allocator_api2.specs.Ranges.{IsRangeOf};
ghost use Rattle.aa_inline.specs.Inlined.{with_items};

use crate::inline::InlineVec;
use std::alloc::Allocator;
use std::default::MadeWith;
use std::iter::FusedIterator;
use std::mem;
use std_alloc::part::SliceRange;

/// A double-ended iterator over a range that is removed from a small vector.
///
/// Returned by `InlineVec::drain`. Dropping it drops the items not taken yet; the vector then has
/// the others. Forgetting it leaves the items that were not taken at the end of the vector.
pub struct Drain<'a, T: MadeWith<A> + Drop, A: Allocator + Copy, const N: usize> {
    vec: &'a mut InlineVec<T, A, N>,
    // The vector begins with `kept` items that are not in the range. The items not taken yet are
    // the last `left`, from the index `front` on, and between these are blanks.
    kept: usize,
    front: usize,
    left: usize,
}

impl<T: MadeWith<A> + Drop, A: Allocator + Copy, const N: usize> InlineVec<T, A, N> {
    ghost use Rattle.std.specs.Prelude.{List};
    ghost use Rattle.std.specs.Iterator.{Yields};
    ghost use Rattle.std.specs.Iterator.Runs.{YieldsInOrder, YieldsInReverse};
    ghost use Rattle.aa_inline.specs.Drain.{drain_left, drain_len, drain_lender, drain_remaining, CanDrain, DrainKeeps, drains_first, drains_last};
    ghost use Rattle.aa_inline.specs.declared.drain.Drain.{Drain};

    /// Removes the range and returns a double-ended iterator over its items.
    ///
    /// Dropping the iterator drops the items not taken yet. Does not allocate, and does not change
    /// the capacity.
    #[tactic(auto, using(crate::proofs::Bringing::draining))]
    pub fn drain<R: SliceRange>(&mut self, range: R) -> Drain<'_, T, A, N>
        requires range { IsRangeOf R.SliceRange range (length self.old.items) }

        // The iterator borrows the vector, has the items of the range, and leaves the others.
        ensures lender { drain_lender result ≡ self.entry.ghost_name }
        ensures remaining { let n = length self.old.items in
            drain_remaining result ≡ slice_range self.old.items (R.start range) (R.end range n) }
        ensures len { drain_len result ≡ length (drain_remaining result) }
        ensures left { let xs = self.old.items in drain_left result ≡ with_items self.old
            (take (R.start range) xs ++ drop (R.end range (length xs)) xs) }

        // Calls of `next` and `next_back` take items from either end, and keep all else.
        ensures ready { CanDrain T.row A.row N.row A.Allocator result }
        ensures kept { (xs : List T) (later : Drain T A N)
            → Yields drains_first result xs later → DrainKeeps result later }
        ensures in_order { YieldsInOrder (drains_first {T = T} {A = A} {N = N}) drain_remaining }
        ensures in_reverse { YieldsInReverse (drains_last {T = T} {A = A} {N = N})
            drain_remaining }
    {
        let len = self.len();
        let (start, end) = range.within(len);
        let left = end - start;
        self.move_tail(start, end);
        Drain {
            vec: self,
            kept: len - left,
            front: len - left,
            left,
        }
    }
}

impl<'a, T: MadeWith<A> + Drop, A: Allocator + Copy, const N: usize> Iterator
    for Drain<'a, T, A, N> {
    ghost use Rattle.aa_inline.specs.Drain.{drain_len, CanDrain, drains_first};

    type Item = T;

    ghost can_next = { CanDrain T.row A.row N.row A.Allocator };

    ghost next_gives = { drains_first };

    ghost remaining = { λ d. at_most (drain_len d) };

    /// Takes and returns the first item, or returns `None` if none remains.
    #[tactic(auto, using(crate::proofs::Fews::left))]
    fn next(&mut self) -> Option<T> {
        if self.left == 0 {
            return None;
        }
        let first = self.front;
        // The contract of `len` says that the length is a `usize`, so the sum does not wrap.
        let _len = self.vec.len();
        self.front = first + 1;
        self.left -= 1;
        let blank = T::made_with(*self.vec.allocator());
        Some(self.vec.replace(first, blank))
    }

    /// Returns the exact number of remaining items, as both bounds.
    fn size_hint(&self) -> (usize, Option<usize>)
        ensures lower { IsWithinCount result.0 (at_most (drain_len self.now)) }
        ensures upper { IfSome result.1 (UpTo (at_most (drain_len self.now))) }
        ensures exact { result ≡ (drain_len self.now, Some (drain_len self.now)) }
    {
        (self.left, Some(self.left))
    }
}

impl<'a, T: MadeWith<A> + Drop, A: Allocator + Copy, const N: usize> DoubleEndedIterator
    for Drain<'a, T, A, N> {
    ghost use Rattle.aa_inline.specs.Drain.{CanDrain, drains_last};

    ghost can_next_back = { CanDrain T.row A.row N.row A.Allocator };

    ghost next_back_gives = { drains_last };

    /// Takes and returns the last item, or returns `None` if none remains.
    #[tactic(auto, using(crate::proofs::Fews::left))]
    fn next_back(&mut self) -> Option<T> {
        if self.left == 0 {
            return None;
        }
        self.left -= 1;
        self.vec.pop()
    }
}

impl<'a, T: MadeWith<A> + Drop, A: Allocator + Copy, const N: usize> ExactSizeIterator
    for Drain<'a, T, A, N> {
    fn len(&self) -> usize {
        self.left
    }
}

impl<'a, T: MadeWith<A> + Drop, A: Allocator + Copy, const N: usize> FusedIterator
    for Drain<'a, T, A, N> {}

impl<'a, T: MadeWith<A> + Drop, A: Allocator + Copy, const N: usize> Drop for Drain<'a, T, A, N> {
    ghost use Rattle.aa_inline.specs.Drain.{drain_left, FitsInline};

    /// Drops the items not taken yet.
    fn drop(self)
        ensures { FitsInline T.row A.row N.row A.Allocator
            → self.exit.0.now ≡ drain_left self.entry }
    {
        let Drain {
            vec,
            kept,
            front: _,
            left: _,
        } = self;
        // This is known at compile time. The prover lacks it for a vector that is only referred to.
        if mem::size_of_val(&*vec) <= isize::MAX as usize {
            vec.truncate(kept);
        }
    }
}
