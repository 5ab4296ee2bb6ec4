//! `Drain`: an iterator that removes all items of a heap.
ghost use Rattle.std.specs.Prelude.{◌≡◌, ◌^◌, ◌<◌, [], length, Some, IfSome};
ghost use Rattle.std.specs.Iterator.{UpTo, item_count};
ghost use Rattle.std.specs.Iterator.SizeHint.{IsWithinCount};
ghost use Rattle.allocator_api2.specs.Vector.{Becomes};

use crate::heap::Heap;
use std::alloc::{Allocator, Global};
use std::fmt;
use std::fmt::{Debug, Formatter};
use std::iter::FusedIterator;

/// An iterator that removes all items of a heap.
///
/// Returned by `Heap::drain`. Dropping it drops the items not taken yet, so that the heap is empty.
/// Forgetting it keeps them in the heap. Does not allocate.
pub struct Drain<'a, T: Ord, A: Allocator = Global> {
    heap: &'a mut Heap<T, A>,
}

impl<T: Ord, A: Allocator> Heap<T, A> {
    ghost use Rattle.std.specs.Prelude.{List};
    ghost use Rattle.std.specs.Iterator.{Yields};
    ghost use Rattle.std.specs.Iterator.Runs.{YieldsInOrder};
    ghost use Rattle.aa_heap.specs.Drain.{drain_lender, drain_remaining, drain_heap, DrainKeeps, drains_next};
    ghost use Rattle.aa_heap.specs.declared.drain.Drain.{Drain};

    /// Removes all items and returns an iterator over them, from the last in heap order to the
    /// first.
    ///
    /// Dropping the iterator drops the items not taken yet. Does not allocate, and does not change
    /// the capacity.
    #[tactic(auto, using(crate::proofs::Draining::drains))]
    pub fn drain(&mut self) -> Drain<'_, T, A>
        // The iterator borrows the heap with its items.
        ensures lender { drain_lender result ≡ self.entry.ghost_name }
        ensures drained { drain_heap result ≡ self.old }
        ensures fits_usize { length (drain_remaining result) < 2 ^ 64 }

        // Calls of `next` take the last item in heap order, and keep all else.
        ensures kept { (xs : List T) (later : Drain T A)
            → Yields drains_next result xs later → DrainKeeps result later }
        ensures in_order { YieldsInOrder (drains_next {T = T} {A = A}) drain_remaining }
    {
        // The contract of `len` says that the number of items is a `usize`.
        let _len = self.len();
        Drain { heap: self }
    }
}

impl<'a, T: Ord + Drop, A: Allocator> Iterator for Drain<'a, T, A> {
    ghost use Rattle.aa_heap.specs.Drain.{drain_remaining, drains_next};

    type Item = T;

    ghost next_gives = { drains_next };

    ghost remaining = { item_count drain_remaining };

    /// Takes and returns the next item, or returns `None` if none remains.
    fn next(&mut self) -> Option<T> {
        self.heap.pop_last()
    }

    /// Returns the exact number of remaining items, as both bounds.
    fn size_hint(&self) -> (usize, Option<usize>)
        ensures lower { IsWithinCount result.0 (item_count drain_remaining self.now) }
        ensures upper { IfSome result.1 (UpTo (item_count drain_remaining self.now)) }
        ensures exact { let n = length (drain_remaining self.now) in result ≡ (n, Some n) }
    {
        let left = self.heap.len();
        (left, Some(left))
    }
}

impl<'a, T: Ord + Drop, A: Allocator> ExactSizeIterator for Drain<'a, T, A> {
    fn len(&self) -> usize {
        self.heap.len()
    }
}

impl<'a, T: Ord + Drop, A: Allocator> FusedIterator for Drain<'a, T, A> {}

impl<'a, T: Ord + Debug, A: Allocator> Debug for Drain<'a, T, A> {
    /// Formats the remaining items, in heap order.
    fn fmt<W: fmt::Write>(&self, f: &mut Formatter<W>) -> fmt::Result {
        f.debug_tuple("Drain").field(&self.heap.as_slice()).finish()
    }
}

impl<'a, T: Ord + Drop, A: Allocator> Drop for Drain<'a, T, A> {
    ghost use Rattle.aa_heap.specs.Drain.{drain_heap};

    /// Drops the items not taken yet.
    fn drop(self)
        ensures { Becomes (drain_heap self.entry) [] 0 0 self.exit.0.now }
    {
        let Drain { heap } = self;
        heap.clear();
    }
}
