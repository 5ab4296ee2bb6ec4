//! The iterator by value over the keys and values of a slot map.
ghost use Rattle.std.specs.Prelude.{◌≡◌, length, Some, IfSome};
ghost use Rattle.std.specs.Iterator.{YieldsFirstBy, YieldsLastBy, UpTo, item_count};
ghost use Rattle.std.specs.Iterator.SizeHint.{IsWithinCount};
ghost use Rattle.aa_slots.specs.Inside.{seen, states_of, AreHeld};
ghost use Rattle.aa_slots.specs.Keys.{data_pair};
ghost use Rattle.aa_slots.specs.Slotted.{count, entries_from};

use crate::blocks::drop_between;
use crate::map::Key;
use crate::slots::{Slot, first_held, last_held, slots_in};
use allocator_api2::raw_vec::RawVec;
use allocator_api2::vec::Vec;
use std::alloc::Allocator;
use std::iter::FusedIterator;
use std::marker::{Model, PhantomData};

/// A double-ended iterator by value over the keys and values of a slot map, in the order of the
/// slots.
///
/// Returned by `SlotMap::into_iter`. When dropped, it drops the remaining values in order and
/// deallocates the memory. A contract sees it as the list of the remaining pairs.
pub struct IntoIter<T, A: Allocator, K = ()> {
    values: RawVec<((), T), A>,
    slots: Option<Vec<Slot, A>>,
    // where the remaining slots begin and end, and how many of them have a value
    at: usize,
    end: usize,
    left: usize,
    kind: PhantomData<K>,
}

impl<T, A: Allocator, K> Model for IntoIter<T, A, K> {
    ghost use Rattle.std.specs.Prelude.{List};
    ghost use Rattle.aa_slots.specs.declared.key.KeyData.{KeyData};
    ghost use Rattle.aa_slots.specs.Inside.{rest_of, seen, states_of, IsRest};

    ghost Value = { List (KeyData × T) };

    ghost view = { λ it. rest_of (seen (states_of it.slots) it.values.places) it.at it.end };

    ghost invariant = { λ it. IsRest
        (states_of it.slots) it.values.places it.at it.end it.left };
}

impl<T, A: Allocator, K> IntoIter<T, A, K> {
    /// Returns an iterator over all values of these slots, of which there are `left`.
    #[tactic(auto, using(crate::proofs::Remaining::all_slots))]
    pub(crate) fn over(slots: Option<Vec<Slot, A>>, values: RawVec<((), T), A>, left: usize) -> Self
        requires held { AreHeld (states_of slots) values.places }
        requires count { left ≡ count (seen (states_of slots) values.places) }
        ensures { result ≡ entries_from 0 (seen (states_of slots) values.places) }
    {
        let end = slots_in(&slots).len();
        IntoIter {
            values,
            slots,
            at: 0,
            end,
            left,
            kind: PhantomData,
        }
    }
}

impl<T: Drop, A: Allocator, K> Drop for IntoIter<T, A, K> {
    /// Drops the remaining values and frees the blocks.
    #[tactic(auto, using(allocator_api2::proofs::Blocks::emptied))]
    fn drop(self) {
        let IntoIter {
            mut values,
            slots,
            at,
            end,
            left: _,
            kind: _,
        } = self;
        drop_between(slots_in(&slots), &mut values, at, end);
        values.forget_from(0);
        drop(slots);
    }
}

impl<T: Drop, A: Allocator, K> Iterator for IntoIter<T, A, K> {
    type Item = (Key<K>, T);

    ghost next_gives = { YieldsFirstBy data_pair (λ rest. rest) };

    ghost remaining = { item_count (λ rest. rest) };

    /// Returns the next key with its value, or `None` if none remains.
    #[tactic(auto, using(crate::proofs::Remaining::from_first))]
    fn next(&mut self) -> Option<(Key<K>, T)> {
        let key = first_held(slots_in(&self.slots), self.at, self.end)?;
        self.at = key.index + 1;
        self.left -= 1;
        Some((Key::from(key), self.values.take(key.index).1))
    }

    /// Returns the exact number of the remaining pairs.
    fn size_hint(&self) -> (usize, Option<usize>)
        ensures lower { IsWithinCount result.0 (item_count (λ rest. rest) self.now) }
        ensures upper { IfSome result.1 (UpTo (item_count (λ rest. rest) self.now)) }
        ensures exact { result ≡ (length self.now, Some (length self.now)) }
    {
        (self.left, Some(self.left))
    }
}

impl<T: Drop, A: Allocator, K> DoubleEndedIterator for IntoIter<T, A, K> {
    ghost next_back_gives = { YieldsLastBy data_pair (λ rest. rest) };

    /// Returns the last of the remaining keys with its value, or `None` if none remains.
    #[tactic(auto, using(crate::proofs::Remaining::from_last))]
    fn next_back(&mut self) -> Option<(Key<K>, T)> {
        let key = last_held(slots_in(&self.slots), self.at, self.end)?;
        self.end = key.index;
        self.left -= 1;
        Some((Key::from(key), self.values.take(key.index).1))
    }
}

impl<T: Drop, A: Allocator, K> ExactSizeIterator for IntoIter<T, A, K> {
    fn len(&self) -> usize {
        self.left
    }
}

impl<T: Drop, A: Allocator, K> FusedIterator for IntoIter<T, A, K> {}
