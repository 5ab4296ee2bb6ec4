//! Iterators that lend the values of a slot map mutably.
ghost use Rattle.std.specs.Prelude.{◌≡◌, length, Some, IfSome};
ghost use Rattle.std.specs.Iterator.{YieldsFirstBy, YieldsLastBy, UpTo, item_count};
ghost use Rattle.std.specs.Iterator.SizeHint.{IsWithinCount};
ghost use Rattle.aa_raw.specs.EntriesMut.{borrow_name, places_left};
ghost use Rattle.aa_slots.specs.Inside.{seen, AreHeld};
ghost use Rattle.aa_slots.specs.IterMut.{values};
ghost use Rattle.aa_slots.specs.Slotted.{count, entries_from};

use crate::map::Key;
use crate::slots::{Slot, first_held, last_held};
use allocator_api2::raw_vec::EntriesMut;
use std::iter::FusedIterator;
use std::marker::{Model, PhantomData};

/// A double-ended iterator over the keys of a slot map and mutable references to their values, in
/// the order of the slots.
///
/// Returned by `SlotMap::iter_mut`. A contract sees it as the list of the remaining pairs, and the
/// name of its borrow of the map.
#[derive(Drop)]
pub struct IterMut<'a, T, K = ()> {
    slots: &'a [Slot],
    values: EntriesMut<'a, (), T>,
    // where the remaining slots begin and end, and how many of them have a value
    at: usize,
    end: usize,
    left: usize,
    kind: PhantomData<K>,
}

impl<'a, T, K> Model for IterMut<'a, T, K> {
    ghost use Rattle.aa_raw.specs.EntriesMut.{borrow_name, places_left};
    ghost use Rattle.aa_slots.specs.Inside.{rest_of, seen, IsRest};
    ghost use Rattle.aa_slots.specs.IterMut.{Lent};

    ghost Value = { Lent T };

    ghost view = { λ it. record {
      entries = rest_of (seen it.slots.now (places_left it.values)) it.at it.end;
      borrow = borrow_name it.values;
    } };

    ghost invariant = { λ it. IsRest
        it.slots.now (places_left it.values) it.at it.end it.left };
}

impl<'a, T, K> IterMut<'a, T, K> {
    /// Returns an iterator over all values of these slots, of which there are `left`.
    #[tactic(auto, using(crate::proofs::Remaining::all_slots))]
    pub(crate) fn over(slots: &'a [Slot], values: EntriesMut<'a, (), T>, left: usize) -> Self
        requires held { AreHeld slots.now (places_left values) }
        requires count { left ≡ count (seen slots.now (places_left values)) }
        ensures entries { result.entries
            ≡ entries_from 0 (seen slots.now (places_left values.entry)) }
        ensures borrow { result.borrow ≡ borrow_name values.entry }
    {
        IterMut {
            slots,
            values,
            at: 0,
            end: slots.len(),
            left,
            kind: PhantomData,
        }
    }
}

impl<'a, T, K> Iterator for IterMut<'a, T, K> {
    type Item = (Key<K>, &'a mut T);

    ghost next_gives = { YieldsFirstBy (λ item. (item.0.parts, item.1.now)) (λ it. it.entries) };

    ghost remaining = { item_count (λ it. it.entries) };

    /// Returns the next key with a mutable reference to its value, or `None` if none remains.
    #[tactic(auto, using(crate::proofs::Remaining::from_first))]
    fn next(&mut self) -> Option<(Key<K>, &'a mut T)> {
        let key = first_held(self.slots, self.at, self.end)?;
        self.at = key.index + 1;
        self.left -= 1;
        Some((Key::from(key), self.values.take(key.index).1))
    }

    /// Returns the exact number of the remaining pairs.
    fn size_hint(&self) -> (usize, Option<usize>)
        ensures lower { IsWithinCount result.0 (item_count (λ it. it.entries) self.now) }
        ensures upper { IfSome result.1 (UpTo (item_count (λ it. it.entries) self.now)) }
        ensures exact { result ≡ (length self.now.entries, Some (length self.now.entries)) }
    {
        (self.left, Some(self.left))
    }
}

impl<'a, T, K> DoubleEndedIterator for IterMut<'a, T, K> {
    ghost next_back_gives = { YieldsLastBy (λ item. (item.0.parts, item.1.now)) (λ it. it.entries) };

    /// Returns the last of the remaining keys with a mutable reference to its value, or `None` if
    /// none remains.
    #[tactic(auto, using(crate::proofs::Remaining::from_last))]
    fn next_back(&mut self) -> Option<(Key<K>, &'a mut T)> {
        let key = last_held(self.slots, self.at, self.end)?;
        self.end = key.index;
        self.left -= 1;
        Some((Key::from(key), self.values.take(key.index).1))
    }
}

impl<'a, T, K> ExactSizeIterator for IterMut<'a, T, K> {
    fn len(&self) -> usize {
        self.left
    }
}

impl<'a, T, K> FusedIterator for IterMut<'a, T, K> {}

/// A double-ended iterator over mutable references to the values of a slot map, in the order of the
/// slots.
///
/// Returned by `SlotMap::values_mut`. A contract sees it as an `IterMut`.
#[derive(Drop)]
pub struct ValuesMut<'a, T, K = ()> {
    pub(crate) rest: IterMut<'a, T, K>,
}

impl<'a, T, K> Model for ValuesMut<'a, T, K> {
    ghost use Rattle.aa_slots.specs.IterMut.{Lent};

    ghost Value = { Lent T };

    ghost view = { λ it. it.rest };
}

impl<'a, T, K> Iterator for ValuesMut<'a, T, K> {
    type Item = &'a mut T;

    ghost next_gives = { YieldsFirstBy (λ value. value.now) values };

    ghost remaining = { item_count (λ it. it.entries) };

    /// Returns a mutable reference to the next value, or `None` if none remains.
    fn next(&mut self) -> Option<&'a mut T> {
        match self.rest.next() {
            Some((_, value)) => Some(value),
            None => None,
        }
    }

    /// Returns the exact number of the remaining values.
    fn size_hint(&self) -> (usize, Option<usize>)
        ensures lower { IsWithinCount result.0 (item_count (λ it. it.entries) self.now) }
        ensures upper { IfSome result.1 (UpTo (item_count (λ it. it.entries) self.now)) }
        ensures exact { result ≡ (length self.now.entries, Some (length self.now.entries)) }
    {
        self.rest.size_hint()
    }
}

impl<'a, T, K> DoubleEndedIterator for ValuesMut<'a, T, K> {
    ghost next_back_gives = { YieldsLastBy (λ value. value.now) values };

    /// Returns a mutable reference to the last of the remaining values, or `None` if none remains.
    fn next_back(&mut self) -> Option<&'a mut T> {
        match self.rest.next_back() {
            Some((_, value)) => Some(value),
            None => None,
        }
    }
}

impl<'a, T, K> ExactSizeIterator for ValuesMut<'a, T, K> {
    fn len(&self) -> usize {
        self.rest.len()
    }
}

impl<'a, T, K> FusedIterator for ValuesMut<'a, T, K> {}
