//! Mutable borrows of all values of a slot map.
ghost use Rattle.std.specs.Prelude.{◌≡◌, length, map};
ghost use Rattle.std.specs.Borrow.{sem};
ghost use Rattle.aa_raw.specs.EntriesMut.{borrow_name, places_left};
ghost use Rattle.aa_slots.specs.Inside.{seen, states_of, AreHeld};
ghost use Rattle.aa_slots.specs.IterMut.{values, KeepsKeys};
ghost use Rattle.aa_slots.specs.Slotted.{count, entries};

use crate::iter_mut::{IterMut, ValuesMut};
use crate::map::{Key, SlotMap};
use crate::slots::{Slot, slots_in};
use allocator_api2::raw_vec::EntriesMut;
use allocator_api2::vec::Vec;
use std::alloc::Allocator;

impl<T, A: Allocator, K> SlotMap<T, A, K> {
    ghost use Rattle.aa_slots.specs.IterMutLends.{lends_values};

    // Borrows the slots, and the values in their places.
    fn lend(&mut self) -> (&Option<Vec<Slot, A>>, EntriesMut<'_, (), T>)
        ensures* writes_back { sem 𝓛
            (lends_values T.row A.row K.row A.Allocator self.entry (borrow_name result.1)) }
        ensures slots { seen (states_of result.0.now) (places_left result.1) ≡ self.old.slots }
        ensures held { AreHeld (states_of result.0.now) (places_left result.1) }
    {
        let values = self.values.entries_mut();
        (&self.slots, values)
    }

    /// Returns a double-ended iterator over the keys and mutable references to their values.
    ///
    /// Each key that has a value is returned once, in the order of `iter`. When the borrow ends,
    /// each has the last value written to it. Does not allocate.
    #[tactic(auto, using(crate::proofs::Values::kept_keys))]
    pub fn iter_mut(&mut self) -> IterMut<'_, T, K>
        ensures* writes_back { sem 𝓛
            (lends_values T.row A.row K.row A.Allocator self.entry result.borrow) }
        ensures keys { KeepsKeys self.old.slots }
        ensures entries { result.entries ≡ entries self.old }
        ensures count { length result.entries ≡ count self.old.slots }
    {
        let left = self.len();
        let (slots, values) = self.lend();
        IterMut::over(slots_in(slots), values, left)
    }

    /// Returns a double-ended iterator over mutable references to the values, in the order of
    /// `iter`.
    ///
    /// When the borrow ends, each key has the last value written to it. Does not allocate.
    pub fn values_mut(&mut self) -> ValuesMut<'_, T, K>
        ensures* writes_back { sem 𝓛
            (lends_values T.row A.row K.row A.Allocator self.entry result.borrow) }
        ensures keys { KeepsKeys self.old.slots }
        ensures values { values result ≡ map (λ e. e.1) (entries self.old) }
        ensures count { length result.entries ≡ count self.old.slots }
    {
        ValuesMut {
            rest: self.iter_mut(),
        }
    }
}

impl<'a, T, A: Allocator, K> IntoIterator for &'a mut SlotMap<T, A, K> {
    type Item = (Key<K>, &'a mut T);

    type IntoIter = IterMut<'a, T, K>;

    ghost into_iter_gives = { λ m it. (it.entries ≡ entries m.now)
        × (length it.entries ≡ count m.now.slots) };

    fn into_iter(self) -> IterMut<'a, T, K> {
        self.iter_mut()
    }
}
