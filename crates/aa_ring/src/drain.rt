//! `Drain`: an iterator over a range that is removed from a ring.
ghost use Rattle.std.specs.Prelude.{◌≡◌, ◌^◌, ◌<◌, length, Some, IfSome};
ghost use Rattle.std.specs.Iterator.{UpTo, item_count};
ghost use Rattle.std.specs.Iterator.SizeHint.{IsWithinCount};
ghost use Rattle.aa_ring.specs.Ringed.{with_written};
ghost use Rattle.aa_ring.specs.Drain.{turned_on};

use crate::iter::part_of;
use crate::ring::Ring;
use std::alloc::{Allocator, Global};
use std::fmt;
use std::fmt::{Debug, Formatter};
use std::iter::FusedIterator;
use std_alloc::part::SliceRange;

/// A double-ended iterator over a range that is removed from a ring.
///
/// Returned by `Ring::drain`. Dropping it drops the items not taken yet. The ring then holds what
/// is before the range and what is after it. Forgetting it leaves the ring with these items and
/// those not taken yet, in another order. Does not allocate.
pub struct Drain<'a, T, A: Allocator = Global> {
    ring: &'a mut Ring<T, A>,
    // The items not taken yet are the first `left` ones of the ring.
    left: usize,
    // The others are outside the range. They are in order once rotated to the left by `turn`.
    turn: usize,
}

impl<T, A: Allocator> Ring<T, A> {
    ghost use Rattle.std.specs.Prelude.{List, min, ◌-◌};
    ghost use Rattle.std.specs.Iterator.{Yields};
    ghost use Rattle.std.specs.Iterator.Runs.{YieldsInOrder, YieldsInReverse};
    ghost use Rattle.allocator_api2.specs.Ranges.{IsRangeOf};
    ghost use Rattle.aa_ring.specs.Drain.{drain_lender, drain_remaining, TakesRange, DrainKeeps, drains_first, drains_last, rotated};
    ghost use Rattle.aa_ring.specs.declared.drain.Drain.{Drain};
    ghost use Rattle.std.specs.Prelude.{drop};

    /// Removes the range and returns a double-ended iterator over its items.
    ///
    /// Dropping the iterator drops the items not taken yet. Forgetting it leaves them in the ring,
    /// whose items are then in another order. Does not allocate, and does not change the capacity.
    ///
    /// Moves the items before the range, or those from its first on, whichever are fewer. `next`
    /// moves no item, and `next_back` at most one. Dropping the iterator moves the items before the
    /// range or those after it, whichever are fewer. So draining all items moves none.
    #[tactic(auto, using(crate::proofs::Draining::drains))]
    pub fn drain<R: SliceRange>(&mut self, range: R) -> Drain<'_, T, A>
        // The range is within the length.
        requires range { IsRangeOf R.SliceRange range (length self.old.items) }

        // The iterator borrows the ring, and takes the range out of it.
        ensures lender { drain_lender result ≡ self.entry.ghost_name }
        ensures drained { TakesRange self.old (R.start range)
            (R.end range (length self.old.items)) result }
        ensures fits_usize { length (drain_remaining result) < 2 ^ 64 }

        // Calls of `next` and `next_back` take items from either end, and keep all else.
        ensures kept { (xs : List T) (later : Drain T A)
            → Yields drains_first result xs later → DrainKeeps result later }
        ensures in_order { YieldsInOrder (drains_first {T = T} {A = A}) drain_remaining }
        ensures in_reverse { YieldsInReverse (drains_last {T = T} {A = A}) drain_remaining }
    {
        let len = self.len();
        let (start, end) = range.within(len);
        self.rotate_left(start);
        Drain {
            ring: self,
            left: end - start,
            turn: len - end,
        }
    }

    // Drops the first `removed` items, or all if there are fewer, and rotates the others to the left
    // by `turn` items, or not if there are fewer.
    #[tactic(auto, using(std::proofs::lemmas::Bool::Decides::nat_tests))]
    fn close_drain(&mut self, removed: usize, turn: usize)
    where
        T: Drop,
        ensures { let rest = drop removed self.old.items in
            let moved = min turn (length rest - turn) in
            self.new ≡ with_written self.old (rotated rest turn) moved }
    {
        self.drop_first(removed);
        self.rotate_left(turn.min(self.len()));
    }
}

impl<'a, T: Drop, A: Allocator> Iterator for Drain<'a, T, A> {
    ghost use Rattle.aa_ring.specs.Drain.{drain_remaining, drains_first};

    type Item = T;

    ghost next_gives = { drains_first };

    ghost remaining = { item_count drain_remaining };

    /// Takes and returns the first item, or returns `None` if none remains.
    #[tactic(auto, using(crate::proofs::Draining::taken))]
    fn next(&mut self) -> Option<T> {
        if self.left == 0 {
            return None;
        }
        self.left -= 1;
        self.ring.pop_front()
    }

    /// Returns the exact number of remaining items, as both bounds.
    #[tactic(auto, using(crate::proofs::Draining::taken))]
    fn size_hint(&self) -> (usize, Option<usize>)
        ensures lower { IsWithinCount result.0 (item_count drain_remaining self.now) }
        ensures upper { IfSome result.1 (UpTo (item_count drain_remaining self.now)) }
        ensures exact { let n = length (drain_remaining self.now) in result ≡ (n, Some n) }
    {
        let left = self.left.min(self.ring.len());
        (left, Some(left))
    }
}

impl<'a, T: Drop, A: Allocator> DoubleEndedIterator for Drain<'a, T, A> {
    ghost use Rattle.aa_ring.specs.Drain.{drains_last};

    ghost next_back_gives = { drains_last };

    /// Takes and returns the last item, or returns `None` if none remains.
    ///
    /// If the ring keeps any item, the last one takes the place of the item.
    #[tactic(auto, using(crate::proofs::Draining::taken))]
    fn next_back(&mut self) -> Option<T> {
        if self.left == 0 {
            return None;
        }
        let kept = self.ring.len().saturating_sub(self.left);
        self.left -= 1;
        if kept == 0 {
            return self.ring.pop_back();
        }
        match self.ring.pop_back() {
            Some(last) => {
                self.turn = turned_on(kept, self.turn);
                Some(self.ring.exchange(self.left, last))
            }
            None => unreachable!(),
        }
    }
}

// Returns by how many items `kept` ones are to be rotated, if it was `turn` before the last became
// the first.
fn turned_on(kept: usize, turn: usize) -> usize
    ensures { result ≡ turned_on kept turn }
{
    if turn < kept { turn + 1 } else { 1 }
}

impl<'a, T: Drop, A: Allocator> ExactSizeIterator for Drain<'a, T, A> {
    #[tactic(auto, using(crate::proofs::Draining::taken))]
    fn len(&self) -> usize {
        self.left.min(self.ring.len())
    }
}

impl<'a, T: Drop, A: Allocator> FusedIterator for Drain<'a, T, A> {}

impl<'a, T: Debug, A: Allocator> Debug for Drain<'a, T, A> {
    /// Formats the remaining items as two slices.
    fn fmt<W: fmt::Write>(&self, f: &mut Formatter<W>) -> fmt::Result {
        let (first, others) = self.ring.as_slices();
        let (first, others) = part_of(first, others, 0, self.left.min(self.ring.len()));
        f.debug_tuple("Drain").field(&first).field(&others).finish()
    }
}

impl<'a, T: Drop, A: Allocator> Drop for Drain<'a, T, A> {
    ghost use Rattle.aa_ring.specs.Drain.{Closes};

    /// Drops the items not taken yet, and brings the others in order.
    fn drop(self)
        ensures { Closes self.entry self.exit.0.now }
    {
        let Drain { ring, left, turn } = self;
        ring.close_drain(left, turn);
    }
}
