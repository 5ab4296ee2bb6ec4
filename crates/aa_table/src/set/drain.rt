//! `Drain`: an iterator that removes all elements of a set.
ghost use Rattle.std.specs.Prelude.{◌≡◌, ◌∷◌, [], Some, IfSome, MatchOption, IsPermutation, length};
ghost use Rattle.std.specs.Iterator.{UpTo, item_count};
ghost use Rattle.std.specs.Iterator.SizeHint.{IsWithinCount};

use super::Set;
use std::alloc::Allocator;
use std::hash::{BuildHasher, Hash};
use std::iter::FusedIterator;

/// An iterator that removes all elements of a set, and returns them.
///
/// Returned by `Set::drain`. The set has the elements that were not returned yet. Dropping the
/// iterator drops them, and the set is then empty; forgetting it leaves them in the set. Does not
/// allocate, and does not change the capacity.
pub struct Drain<'a, T: Eq + Hash, S: BuildHasher, A: Allocator> {
    set: &'a mut Set<T, S, A>,
    // the slot at which the search for the next element begins
    from: usize,
}

impl<T: Eq + Hash + Drop, S: BuildHasher, A: Allocator> Set<T, S, A> {
    ghost use Rattle.aa_table.specs.SetDraining.{drain_lender, drain_set};

    // Returns the number of elements.
    fn remaining(&self) -> usize
        ensures { result ≡ length self.now.elements }
    {
        self.table.remaining()
    }

    // Removes an element and returns it: the first in a slot from `from` on, if there is one.
    #[tactic(auto, using(crate::proofs::Elements::elements))]
    fn take_next(&mut self, from: &mut usize) -> Option<T>
        ensures taken { MatchOption result
            ((self.old.elements ≡ []) × (self.new.elements ≡ []))
            (λ x. IsPermutation self.old.elements (x ∷ self.new.elements)) }
        ensures capacity { self.new.capacity ≡ self.old.capacity }
        ensures resizes { self.new.resizes ≡ self.old.resizes }
        ensures builder { self.new.builder ≡ self.old.builder }
    {
        let Some((element, _)) = self.table.take_next(from) else {
            return None;
        };
        Some(element)
    }

    // Removes all elements and drops them.
    fn drop_all(&mut self)
        ensures { self.new ≡ record self.old { elements = [] } }
    {
        self.table.clear();
    }

    /// Removes all elements, and returns an iterator over them.
    ///
    /// Each element is returned once. The order is not specified. The set is empty once the
    /// iterator is dropped. Does not allocate, and does not change the capacity.
    pub fn drain(&mut self) -> Drain<'_, T, S, A>
        ensures lender { drain_lender result ≡ self.entry.ghost_name }
        ensures drained { drain_set result ≡ self.old }
    {
        Drain { set: self, from: 0 }
    }
}

impl<'a, T: Eq + Hash + Drop, S: BuildHasher, A: Allocator> Iterator for Drain<'a, T, S, A> {
    ghost use Rattle.aa_table.specs.SetDraining.{drain_remaining, DrainsElement};

    type Item = T;

    ghost next_gives = { DrainsElement };

    ghost remaining = { item_count drain_remaining };

    /// Removes an element and returns it, or returns `None` if none remains.
    fn next(&mut self) -> Option<T> {
        self.set.take_next(&mut self.from)
    }

    /// Returns the exact number of remaining elements, as both bounds.
    fn size_hint(&self) -> (usize, Option<usize>)
        ensures lower { IsWithinCount result.0 (item_count drain_remaining self.now) }
        ensures upper { IfSome result.1 (UpTo (item_count drain_remaining self.now)) }
        ensures exact { result
            ≡ (length (drain_remaining self.now), Some (length (drain_remaining self.now))) }
    {
        let left = self.set.remaining();
        (left, Some(left))
    }
}

impl<'a, T: Eq + Hash + Drop, S: BuildHasher, A: Allocator> ExactSizeIterator
    for Drain<'a, T, S, A> {
    fn len(&self) -> usize {
        self.set.remaining()
    }
}

impl<'a, T: Eq + Hash + Drop, S: BuildHasher, A: Allocator> FusedIterator for Drain<'a, T, S, A> {}

impl<'a, T: Eq + Hash + Drop, S: BuildHasher, A: Allocator> Drop for Drain<'a, T, S, A> {
    ghost use Rattle.aa_table.specs.SetDraining.{drain_set};

    /// Removes the remaining elements and drops them.
    fn drop(self)
        ensures { self.exit.0.now ≡ record (drain_set self.entry) { elements = [] } }
    {
        let Drain { set, from: _ } = self;
        set.drop_all();
    }
}
