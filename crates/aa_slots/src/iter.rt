//! Iterators over the keys and values of a slot map.
ghost use Rattle.std.specs.Prelude.{◌≡◌, length, Some, IfSome, ⊤};
ghost use Rattle.std.specs.Iterator.{YieldsFirstBy, YieldsLastBy, UpTo, item_count};
ghost use Rattle.std.specs.Iterator.SizeHint.{IsWithinCount};
ghost use Rattle.aa_slots.specs.Iterating.{pair_of, YieldsPairsInOrder, YieldsPairsInReverse};
ghost use Rattle.aa_slots.specs.Inside.{seen, AreHeld};
ghost use Rattle.aa_slots.specs.Slotted.{count, entries, entries_from};

use crate::map::{Key, SlotMap};
use crate::slots::{Slot, first_held, last_held};
use allocator_api2::raw_vec::RawVec;
use std::alloc::{AllocError, Allocator};
use std::fmt;
use std::fmt::{Debug, Formatter};
use std::iter::FusedIterator;
use std::marker::{Model, PhantomData};

/// A double-ended iterator over the keys and values of a slot map, in the order of the slots.
///
/// Returned by `SlotMap::iter`. A contract sees it as the list of the remaining pairs.
#[derive(Drop)]
pub struct Iter<'a, T, A: Allocator, K = ()> {
    slots: &'a [Slot],
    values: &'a RawVec<((), T), A>,
    // where the remaining slots begin and end, and how many of them have a value
    at: usize,
    end: usize,
    left: usize,
    kind: PhantomData<K>,
}

impl<'a, T, A: Allocator, K> Model for Iter<'a, T, A, K> {
    ghost use Rattle.std.specs.Prelude.{List};
    ghost use Rattle.aa_slots.specs.declared.key.KeyData.{KeyData};
    ghost use Rattle.aa_slots.specs.Inside.{rest_of, seen, IsRest};

    ghost Value = { List (KeyData × T) };

    ghost view = { λ it. rest_of (seen it.slots.now it.values.now.places) it.at it.end };

    ghost invariant = { λ it. IsRest it.slots.now it.values.now.places it.at it.end it.left };
}

impl<'a, T, A: Allocator, K> Iter<'a, T, A, K> {
    /// Returns an iterator over all values of these slots, of which there are `left`.
    #[tactic(auto, using(crate::proofs::Remaining::all_slots))]
    pub(crate) fn over(slots: &'a [Slot], values: &'a RawVec<((), T), A>, left: usize) -> Self
        requires held { AreHeld slots.now values.now.places }
        requires count { left ≡ count (seen slots.now values.now.places) }
        ensures { result ≡ entries_from 0 (seen slots.now values.now.places) }
    {
        Iter {
            slots,
            values,
            at: 0,
            end: slots.len(),
            left,
            kind: PhantomData,
        }
    }

    // Returns an iterator over the same remaining pairs.
    fn duplicate(&self) -> Self
        ensures { result ≡ self.now }
    {
        Iter {
            slots: self.slots,
            values: self.values,
            at: self.at,
            end: self.end,
            left: self.left,
            kind: PhantomData,
        }
    }
}

impl<'a, T, A: Allocator, K> Iterator for Iter<'a, T, A, K> {
    type Item = (Key<K>, &'a T);

    ghost next_gives = { YieldsFirstBy pair_of (λ rest. rest) };

    ghost remaining = { item_count (λ rest. rest) };

    /// Returns the next key with its value, or `None` if none remains.
    #[tactic(auto, using(crate::proofs::Remaining::from_first))]
    fn next(&mut self) -> Option<(Key<K>, &'a T)> {
        let key = first_held(self.slots, self.at, self.end)?;
        let entry = self.values.place(key.index);
        self.at = key.index + 1;
        self.left -= 1;
        Some((Key::from(key), &entry.1))
    }

    /// Returns the exact number of the remaining pairs.
    fn size_hint(&self) -> (usize, Option<usize>)
        ensures lower { IsWithinCount result.0 (item_count (λ rest. rest) self.now) }
        ensures upper { IfSome result.1 (UpTo (item_count (λ rest. rest) self.now)) }
        ensures exact { result ≡ (length self.now, Some (length self.now)) }
    {
        (self.left, Some(self.left))
    }
}

impl<'a, T, A: Allocator, K> DoubleEndedIterator for Iter<'a, T, A, K> {
    ghost next_back_gives = { YieldsLastBy pair_of (λ rest. rest) };

    /// Returns the last of the remaining keys with its value, or `None` if none remains.
    #[tactic(auto, using(crate::proofs::Remaining::from_last))]
    fn next_back(&mut self) -> Option<(Key<K>, &'a T)> {
        let key = last_held(self.slots, self.at, self.end)?;
        let entry = self.values.place(key.index);
        self.end = key.index;
        self.left -= 1;
        Some((Key::from(key), &entry.1))
    }
}

impl<'a, T, A: Allocator, K> ExactSizeIterator for Iter<'a, T, A, K> {
    fn len(&self) -> usize {
        self.left
    }
}

impl<'a, T, A: Allocator, K> FusedIterator for Iter<'a, T, A, K> {}

impl<'a, T, A: Allocator, K> Clone for Iter<'a, T, A, K> {
    ghost is_clone = { λ it copy. copy ≡ it };

    ghost is_infallible = { λ _. ⊤ };

    /// Returns an iterator over the same remaining pairs.
    fn clone(&self) -> Result<Self, AllocError> {
        Ok(self.duplicate())
    }
}

impl<'a, T: Debug, A: Allocator, K> Debug for Iter<'a, T, A, K> {
    /// Formats the remaining pairs as a list.
    fn fmt<W: fmt::Write>(&self, f: &mut Formatter<W>) -> fmt::Result {
        f.debug_list().entries(self.duplicate()).finish()
    }
}

/// A double-ended iterator over the keys of a slot map, in the order of the slots.
///
/// Returned by `SlotMap::keys`. A contract sees it as the list of the remaining keys.
#[derive(Drop)]
pub struct Keys<'a, T, A: Allocator, K = ()> {
    pub(crate) rest: Iter<'a, T, A, K>,
}

impl<'a, T, A: Allocator, K> Model for Keys<'a, T, A, K> {
    ghost use Rattle.std.specs.Prelude.{List, map};
    ghost use Rattle.aa_slots.specs.declared.key.KeyData.{KeyData};

    ghost Value = { List KeyData };

    ghost view = { λ it. map (λ (e : KeyData × T). e.0) it.rest };
}

impl<'a, T, A: Allocator, K> Iterator for Keys<'a, T, A, K> {
    type Item = Key<K>;

    ghost next_gives = { YieldsFirstBy (λ key. key.parts) (λ rest. rest) };

    ghost remaining = { item_count (λ rest. rest) };

    /// Returns the next key, or `None` if none remains.
    fn next(&mut self) -> Option<Key<K>> {
        match self.rest.next() {
            Some((key, _)) => Some(key),
            None => None,
        }
    }

    /// Returns the exact number of the remaining keys.
    fn size_hint(&self) -> (usize, Option<usize>)
        ensures lower { IsWithinCount result.0 (item_count (λ rest. rest) self.now) }
        ensures upper { IfSome result.1 (UpTo (item_count (λ rest. rest) self.now)) }
        ensures exact { result ≡ (length self.now, Some (length self.now)) }
    {
        self.rest.size_hint()
    }
}

impl<'a, T, A: Allocator, K> DoubleEndedIterator for Keys<'a, T, A, K> {
    ghost next_back_gives = { YieldsLastBy (λ key. key.parts) (λ rest. rest) };

    /// Returns the last of the remaining keys, or `None` if none remains.
    fn next_back(&mut self) -> Option<Key<K>> {
        match self.rest.next_back() {
            Some((key, _)) => Some(key),
            None => None,
        }
    }
}

impl<'a, T, A: Allocator, K> ExactSizeIterator for Keys<'a, T, A, K> {
    fn len(&self) -> usize {
        self.rest.len()
    }
}

impl<'a, T, A: Allocator, K> FusedIterator for Keys<'a, T, A, K> {}

/// A double-ended iterator over the values of a slot map, in the order of the slots.
///
/// Returned by `SlotMap::values`. A contract sees it as the list of the remaining values.
#[derive(Drop)]
pub struct Values<'a, T, A: Allocator, K = ()> {
    pub(crate) rest: Iter<'a, T, A, K>,
}

impl<'a, T, A: Allocator, K> Model for Values<'a, T, A, K> {
    ghost use Rattle.std.specs.Prelude.{List, map};
    ghost use Rattle.aa_slots.specs.declared.key.KeyData.{KeyData};

    ghost Value = { List T };

    ghost view = { λ it. map (λ (e : KeyData × T). e.1) it.rest };
}

impl<'a, T, A: Allocator, K> Iterator for Values<'a, T, A, K> {
    type Item = &'a T;

    ghost next_gives = { YieldsFirstBy (λ value. value.now) (λ rest. rest) };

    ghost remaining = { item_count (λ rest. rest) };

    /// Returns the next value, or `None` if none remains.
    fn next(&mut self) -> Option<&'a T> {
        match self.rest.next() {
            Some((_, value)) => Some(value),
            None => None,
        }
    }

    /// Returns the exact number of the remaining values.
    fn size_hint(&self) -> (usize, Option<usize>)
        ensures lower { IsWithinCount result.0 (item_count (λ rest. rest) self.now) }
        ensures upper { IfSome result.1 (UpTo (item_count (λ rest. rest) self.now)) }
        ensures exact { result ≡ (length self.now, Some (length self.now)) }
    {
        self.rest.size_hint()
    }
}

impl<'a, T, A: Allocator, K> DoubleEndedIterator for Values<'a, T, A, K> {
    ghost next_back_gives = { YieldsLastBy (λ value. value.now) (λ rest. rest) };

    /// Returns the last of the remaining values, or `None` if none remains.
    fn next_back(&mut self) -> Option<&'a T> {
        match self.rest.next_back() {
            Some((_, value)) => Some(value),
            None => None,
        }
    }
}

impl<'a, T, A: Allocator, K> ExactSizeIterator for Values<'a, T, A, K> {
    fn len(&self) -> usize {
        self.rest.len()
    }
}

impl<'a, T, A: Allocator, K> FusedIterator for Values<'a, T, A, K> {}

impl<'a, T, A: Allocator, K> IntoIterator for &'a SlotMap<T, A, K> {
    type Item = (Key<K>, &'a T);

    type IntoIter = Iter<'a, T, A, K>;

    ghost into_iter_gives = { λ m i. (i ≡ entries m.now) × (length i ≡ count m.now.slots)
        × YieldsPairsInOrder T K × YieldsPairsInReverse T K };

    fn into_iter(self) -> Iter<'a, T, A, K> {
        self.iter()
    }
}
