//! Removal of the values that a closure does not keep.
ghost use Rattle.std.specs.Prelude.{◌≡◌, is_some, length, option_map, true};
ghost use Rattle.aa_slots.specs.Retaining.{Keeps};
ghost use Rattle.aa_slots.specs.Slotted.{entries, find, slot_at, without};

use crate::map::{Key, KeyData, SlotMap};
use crate::slots::{serial_at, slots_in};
use std::alloc::Allocator;

impl<T: Drop, A: Allocator, K> SlotMap<T, A, K> {
    // Returns the number of slots.
    pub(super) fn slot_count(&self) -> usize
        ensures { result ≡ length self.now.slots }
    {
        slots_in(&self.slots).len()
    }

    // Returns the key whose value is in the slot at `index`, or `None` if the slot is free.
    fn key_at(&self, index: usize) -> Option<KeyData>
        ensures { result ≡ option_map (λ e. record { index = index; serial = e.0 })
            (slot_at self.now.slots index) }
    {
        let serial = serial_at(slots_in(&self.slots), index)?;
        Some(KeyData { index, serial })
    }

    // Removes and drops the value of `key`, which has one.
    fn discard(&mut self, key: KeyData)
        requires { is_some (find self.old key) ≡ true }
        ensures { self.new ≡ without self.old key }
    {
        let _removed = self.remove(Key::from(key));
    }

    /// Keeps only the values for which `f` returns `true`, and lets `f` change them.
    ///
    /// `f` is called once for each key with its value, in the order of the slots. The other values
    /// are dropped, and their keys then have none. Does not allocate.
    #[tactic(auto, using(crate::proofs::Retaining::passing))]
    pub fn retain<F: FnMut(Key<K>, &mut T) -> bool + Drop>(&mut self, mut f: F)
        requires { F.IsAlwaysCallable f }
        ensures kept { (last : F) × Keeps F.step f (entries self.old) (entries self.new) last }
        ensures slots { length self.new.slots ≡ length self.old.slots }
        ensures capacity { self.new.capacity ≡ self.old.capacity }
        ensures growth { self.new.growth ≡ self.old.growth }
        ensures resizes { self.new.resizes ≡ self.old.resizes }
        ensures issued { self.new.issued ≡ self.old.issued }
    {
        'each: for index in 0..self.slot_count() {
            let Some(key) = self.key_at(index) else {
                continue;
            };
            if !f(Key::from(key), &mut self[Key::from(key)]) {
                self.discard(key);
            }
        }
    }
}
