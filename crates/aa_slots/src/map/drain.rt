//! `Drain`: an iterator that removes all values of a slot map.
ghost use Rattle.std.specs.Prelude.{◌≡◌, ◌++◌, ◌∷◌, ◌+◌, ◌<◌, ◌≤◌, [], is_some, length, true, Some, IfNone, IfSome, MatchOption};
ghost use Rattle.std.specs.Iterator.{UpTo, item_count};
ghost use Rattle.std.specs.Iterator.SizeHint.{IsWithinCount};
ghost use Rattle.aa_slots.specs.Absent.{AreAbsent, IsAllWithin};
ghost use Rattle.aa_slots.specs.Keys.{data_pair};
ghost use Rattle.aa_slots.specs.Slotted.{cleared, count, entries, find, without};

use crate::map::{Key, KeyData, SlotMap};
use crate::slots::{first_held, last_held, slots_in};
use std::alloc::Allocator;
use std::iter::FusedIterator;

/// A double-ended iterator that removes all values of a slot map, in the order of the slots.
///
/// Returned by `SlotMap::drain`. Until it is dropped, the map has the values not taken yet.
/// Dropping it drops them, so that the map is empty; forgetting it keeps them in the map. Does not
/// allocate.
pub struct Drain<'a, T, A: Allocator, K = ()> {
    map: &'a mut SlotMap<T, A, K>,
    // the values not taken yet are in the slots from `at` on and before `end`
    at: usize,
    end: usize,
    ghost held: { IsAllWithin map.now.slots at end },
}

impl<T: Drop, A: Allocator, K> SlotMap<T, A, K> {
    ghost use Rattle.std.specs.Prelude.{List};
    ghost use Rattle.std.specs.Iterator.{Yields};
    ghost use Rattle.aa_slots.specs.Draining.{drain_lender, drain_map, drain_remaining, drains_first, DrainKeeps, DrainsInOrder, DrainsInReverse};
    ghost use Rattle.aa_slots.specs.declared.key.Key.{Key};
    ghost use Rattle.aa_slots.specs.declared.map.drain.Drain.{Drain};

    /// Removes all values, and returns a double-ended iterator over the keys and their values, in
    /// the order of the slots.
    ///
    /// Afterwards no key that was issued has a value. Dropping the iterator drops the values not
    /// taken yet. Does not allocate, and does not change the capacity.
    #[tactic(auto, using(crate::proofs::Draining::drains))]
    pub fn drain(&mut self) -> Drain<'_, T, A, K>
        // The iterator borrows the map with its values.
        ensures lender { drain_lender result ≡ self.entry.ghost_name }
        ensures drained { drain_map result ≡ self.old }
        ensures count { length (drain_remaining result) ≡ count self.old.slots }

        // Calls of `next` and `next_back` take values from either end, and keep all else.
        ensures kept { (xs : List (Key K × T)) (later : Drain T A K)
            → Yields drains_first result xs later → DrainKeeps result later }
        ensures in_order { DrainsInOrder T A K }
        ensures in_reverse { DrainsInReverse T A K }
    {
        let end = self.slot_count();
        Drain {
            map: self,
            at: 0,
            end,
        }
    }

    // Returns the key of the first value in the slots from `from` on and before `end`, if there is
    // one.
    #[tactic(auto, using(crate::proofs::Draining::between))]
    fn first_between(&self, from: usize, end: usize) -> Option<KeyData>
        ensures within { IfSome result (λ k. (from ≤ k.index) × (k.index < end)) }
        ensures found { IfSome result (λ k. is_some (find self.now k) ≡ true) }
        ensures first { IfSome result (λ k. AreAbsent self.now.slots from k.index) }
        ensures none { IfNone result (AreAbsent self.now.slots from end) }
    {
        let slots = slots_in(&self.slots);
        first_held(slots, from, end.min(slots.len()))
    }

    // Returns the key of the last value in the slots from `from` on and before `end`, if there is
    // one.
    #[tactic(auto, using(crate::proofs::Draining::between))]
    fn last_between(&self, from: usize, end: usize) -> Option<KeyData>
        ensures within { IfSome result (λ k. (from ≤ k.index) × (k.index < end)) }
        ensures found { IfSome result (λ k. is_some (find self.now k) ≡ true) }
        ensures last { IfSome result (λ k. AreAbsent self.now.slots (k.index + 1) end) }
        ensures none { IfNone result (AreAbsent self.now.slots from end) }
    {
        let slots = slots_in(&self.slots);
        last_held(slots, from, end.min(slots.len()))
    }

    // Removes the value of `key`, which has one, and returns it.
    pub(super) fn take(&mut self, key: KeyData) -> T
        requires { is_some (find self.old key) ≡ true }
        ensures value { find self.old key ≡ Some result }
        ensures removed { self.new ≡ without self.old key }
    {
        match self.remove(Key::from(key)) {
            Some(value) => value,
            None => unreachable!(),
        }
    }

    // Removes the first value and returns it with its key. All are in the slots from `at` on and
    // before `end`.
    fn take_first(&mut self, at: &mut usize, end: usize) -> Option<(Key<K>, T)>
        requires { IsAllWithin self.old.slots at.old end }
        ensures within { IsAllWithin self.new.slots at.new end }
        ensures removed { MatchOption result ((entries self.old ≡ []) × (self.new ≡ self.old))
            (λ e. self.new ≡ without self.old e.0.parts) }
        ensures taken { IfSome result (λ e. entries self.old ≡ data_pair e ∷ entries self.new) }
    {
        let key = self.first_between(*at, end)?;
        *at = key.index + 1;
        Some((Key::from(key), self.take(key)))
    }

    // Removes the last value and returns it with its key. All are in the slots from `at` on and
    // before `end`.
    fn take_last(&mut self, at: usize, end: &mut usize) -> Option<(Key<K>, T)>
        requires { IsAllWithin self.old.slots at end.old }
        ensures within { IsAllWithin self.new.slots at end.new }
        ensures removed { MatchOption result ((entries self.old ≡ []) × (self.new ≡ self.old))
            (λ e. self.new ≡ without self.old e.0.parts) }
        ensures taken { IfSome result (λ e. entries self.old ≡ entries self.new ++ data_pair e ∷ []) }
    {
        let key = self.last_between(at, *end)?;
        *end = key.index;
        Some((Key::from(key), self.take(key)))
    }
}

impl<'a, T: Drop, A: Allocator, K> Iterator for Drain<'a, T, A, K> {
    ghost use Rattle.aa_slots.specs.Draining.{drain_remaining, drains_first};

    type Item = (Key<K>, T);

    ghost next_gives = { drains_first };

    ghost remaining = { item_count drain_remaining };

    /// Removes the first value and returns it with its key, or returns `None` if none remains.
    fn next(&mut self) -> Option<(Key<K>, T)> {
        self.map.take_first(&mut self.at, self.end)
    }

    /// Returns the exact number of the remaining pairs, as both bounds.
    #[tactic(auto, using(crate::proofs::Finds::finds))]
    fn size_hint(&self) -> (usize, Option<usize>)
        ensures lower { IsWithinCount result.0 (item_count drain_remaining self.now) }
        ensures upper { IfSome result.1 (UpTo (item_count drain_remaining self.now)) }
        ensures exact { let n = length (drain_remaining self.now) in result ≡ (n, Some n) }
    {
        let left = self.map.len();
        (left, Some(left))
    }
}

impl<'a, T: Drop, A: Allocator, K> DoubleEndedIterator for Drain<'a, T, A, K> {
    ghost use Rattle.aa_slots.specs.Draining.{drains_last};

    ghost next_back_gives = { drains_last };

    /// Removes the last value and returns it with its key, or returns `None` if none remains.
    fn next_back(&mut self) -> Option<(Key<K>, T)> {
        self.map.take_last(self.at, &mut self.end)
    }
}

#[tactic(auto, using(crate::proofs::Finds::finds))]
impl<'a, T: Drop, A: Allocator, K> ExactSizeIterator for Drain<'a, T, A, K> {
    fn len(&self) -> usize {
        self.map.len()
    }
}

impl<'a, T: Drop, A: Allocator, K> FusedIterator for Drain<'a, T, A, K> {}

impl<'a, T: Drop, A: Allocator, K> Drop for Drain<'a, T, A, K> {
    ghost use Rattle.aa_slots.specs.Draining.{drain_map};

    /// Removes and drops the values not taken yet.
    fn drop(self)
        ensures { self.exit.0.now ≡ cleared (drain_map self.entry) }
    {
        let Drain { map, at: _, end: _ } = self;
        map.clear();
    }
}
