//! The slot map: a map from keys that it issues to values, in which no key is issued twice.
ghost use Rattle.std.specs.Prelude.{◌≡◌, ◌≢◌, ◌+◌, ◌<◌, ◌≤◌, ◌^◌, [], length, map, is_some, nat_lt, if◌then◌else◌, None, Some, IfErr, IfOk, IfSome, IfNone, IsOk, IsTrue, OnErr, OnOk, option_copied, option_map, slice_get, drop, ◌↔◌};
ghost use Rattle.std.specs.Borrow.{sem};
ghost use Rattle.std.specs.Option.{option_copied_mut};
ghost use Rattle.allocator_api2.specs.Errors.{IsErrorFor};
ghost use Rattle.aa_slots.specs.Iterating.{YieldsPairsInOrder, YieldsPairsInReverse};
ghost use Rattle.aa_slots.specs.Slotted.{cleared, count, empty, entries, entries_from, find, grown, with_room, without, HasRoom, Puts};
ghost use Rattle.aa_slots.specs.declared.key.KeyData.{KeyData};

use crate::blocks::{added_by, drop_between};
use crate::iter::{Iter, Keys, Values};
pub use crate::key::{Key, KeyData};
use crate::slots::{Chain, Slot, first_held, is_held_at, put, release, slots_in};
use allocator_api2::collections::{Refused, TryReserveError, TryReserveErrorKind};
use allocator_api2::counter::Counter;
use allocator_api2::raw_vec::{Growth, RawVec};
use allocator_api2::vec::Vec;
use std::alloc::{Allocator, Global};
use std::marker::{Model, PhantomData};

// The number of keys that a map can issue.
const KEYS: u64 = 1 << 63;

mod capacity;
mod clone;
mod compare;
pub mod drain;
pub mod extract_if;
mod insert;
mod into;
mod lend;
mod retain;
mod traits;

/// A slot map: it returns a key for each value inserted, which finds the value until it is removed.
///
/// A contract sees a map as its slots, its capacity, its growth policy, how often it moved to new
/// blocks or grew its own, and the number of keys issued. A slot is free, or has a value and the
/// serial of its key.
///
/// `K` is the kind of its keys, any type: a map takes no keys of another kind, so that the keys of
/// two maps with different kinds can't be confused. Use a key only with the map that returned it:
/// a key of another map of the same kind finds a value if slot and serial are the same.
pub struct SlotMap<T, A: Allocator = Global, K = ()> {
    // each value in the place with the index of its slot
    values: RawVec<((), T), A>,
    // `None` until the map first allocates
    slots: Option<Vec<Slot, A>>,
    free: Chain,
    issued: u64,
    // how often the values moved to a new block, or theirs grew
    moves: Counter,
    kind: PhantomData<K>,
}

impl<T, A: Allocator, K> Model for SlotMap<T, A, K> {
    ghost use Rattle.aa_slots.specs.Slotted.{Slotted};

    ghost Value = { Slotted T };

    ghost use Rattle.aa_slots.specs.Inside.{capacity_of, states_of, view_of, IsSound, MoveTogether};

    ghost view = { λ m. view_of m.slots m.values m.issued };

    ghost invariant = { λ m.
        IsSound (states_of m.slots) m.values.places m.free (capacity_of m.slots)
        × MoveTogether m.slots m.values m.moves.count };
}

impl<T: Drop, A: Allocator, K> Drop for SlotMap<T, A, K> {
    /// Drops all values and frees the blocks.
    #[tactic(auto, using(allocator_api2::proofs::Blocks::emptied))]
    fn drop(self) {
        let SlotMap {
            mut values,
            slots,
            free: _,
            issued: _,
            moves: _,
            kind: _,
        } = self;
        let all = slots_in(&slots);
        drop_between(all, &mut values, 0, all.len());
        values.forget_from(0);
        drop(slots);
    }
}

impl<T, A: Allocator> SlotMap<T, A> {
    ghost use Rattle.allocator_api2.specs.declared.raw_vec.Growth.TheVariants.{Doubling};

    /// Returns an empty map that has issued no keys.
    ///
    /// Does not allocate.
    pub fn new_in(alloc: A) -> Self
        ensures { result ≡ empty 0 Doubling }
    {
        SlotMap::with_key_in(alloc)
    }

    /// Returns an empty map with the growth policy `growth`, that has issued no keys.
    ///
    /// Does not allocate. By the policy `InPlace`, both blocks of a full map grow in place, if its
    /// allocator can.
    pub fn with_growth_in(growth: Growth, alloc: A) -> Self
        ensures { result ≡ empty 0 growth }
    {
        SlotMap::with_growth_and_key_in(growth, alloc)
    }
}

#[tactic(auto, using(crate::proofs::Finds::finds))]
impl<T, A: Allocator, K> SlotMap<T, A, K> {
    ghost use Rattle.aa_slots.specs.Lends.{lends_value};
    ghost use Rattle.allocator_api2.specs.declared.raw_vec.Growth.TheVariants.{Doubling};

    /// Returns an empty map whose keys are of the kind `K`, and that has issued none.
    ///
    /// Does not allocate.
    pub fn with_key_in(alloc: A) -> Self
        ensures { result ≡ empty 0 Doubling }
    {
        SlotMap::with_growth_and_key_in(Growth::Doubling, alloc)
    }

    /// Returns an empty map with the growth policy `growth`, whose keys are of the kind `K`, and
    /// that has issued none.
    ///
    /// Does not allocate. The policy is that of `with_growth_in`.
    pub fn with_growth_and_key_in(growth: Growth, alloc: A) -> Self
        ensures { result ≡ empty 0 growth }
    {
        SlotMap {
            values: RawVec::with_growth_in(growth, alloc),
            slots: None,
            free: Chain { first: 0, count: 0 },
            issued: 0,
            moves: Counter::zero(),
            kind: PhantomData,
        }
    }

    /// Returns the growth policy.
    pub fn growth(&self) -> Growth
        ensures { result ≡ self.now.growth }
    {
        self.values.growth()
    }

    /// Returns the number of values.
    pub fn len(&self) -> usize
        ensures count { result ≡ count self.now.slots }
        ensures within { result ≤ self.now.capacity }
    {
        slots_in(&self.slots).len() - self.free.count
    }

    /// Returns `true` if the map has no values.
    pub fn is_empty(&self) -> bool
        ensures { IsTrue result ↔ (count self.now.slots ≡ 0) }
    {
        self.len() == 0
    }

    /// Returns a reference to the value of `key`, or `None` if it has none.
    pub fn get(&self, key: Key<K>) -> Option<&T>
        ensures { option_copied result ≡ find self.now key.parts }
    {
        let key = key.data();
        if self.holds(key) {
            Some(&self.values.place(key.index).1)
        } else {
            None
        }
    }

    /// Returns `true` if the map has a value for `key`.
    pub fn contains_key(&self, key: Key<K>) -> bool
        ensures { result ≡ is_some (find self.now key.parts) }
    {
        self.holds(key.data())
    }

    // Returns `true` if the map has a value for the key with this data.
    #[inline(always)]
    fn holds(&self, key: KeyData) -> bool
        ensures { result ≡ is_some (find self.now key) }
    {
        is_held_at(slots_in(&self.slots), key.index, key.serial)
    }

    /// Returns a mutable reference to the value of `key`, or `None` if it has none.
    pub fn get_mut(&mut self, key: Key<K>) -> Option<&mut T>
        ensures* writes_back { sem 𝓛
            (lends_value T.row A.row K.row A.Allocator self.entry key.parts result) }
        ensures value { option_copied_mut result ≡ find self.old key.parts }
    {
        let key = key.data();
        if self.holds(key) {
            Some(&mut self.values.place_mut(key.index).1)
        } else {
            None
        }
    }

    /// Returns a double-ended iterator over the keys and their values, in the order of the slots.
    #[tactic(auto, using(crate::proofs::Iterating::walked))]
    pub fn iter(&self) -> Iter<'_, T, A, K>
        ensures all { result ≡ entries self.now }
        ensures count { length result ≡ count self.now.slots }
        ensures in_order { YieldsPairsInOrder T K }
        ensures in_reverse { YieldsPairsInReverse T K }
    {
        Iter::over(slots_in(&self.slots), &self.values, self.len())
    }

    /// Returns a double-ended iterator over the keys that have a value, in the order of the slots.
    pub fn keys(&self) -> Keys<'_, T, A, K>
        ensures all { result ≡ map (λ e. e.0) (entries self.now) }
    {
        Keys { rest: self.iter() }
    }

    /// Returns a double-ended iterator over the values, in the order of the slots.
    pub fn values(&self) -> Values<'_, T, A, K>
        ensures all { result ≡ map (λ e. e.1) (entries self.now) }
    {
        Values { rest: self.iter() }
    }

    // Returns the key of the first value in the slots from `from` on, or `None` if there is none.
    #[tactic(auto, using(crate::proofs::Passing::firsts))]
    pub(crate) fn key_from(&self, from: usize) -> Option<KeyData>
        ensures within { IfSome result (λ k. k.index + 1 < 2 ^ 64) }
        ensures first { result ≡ option_map (λ e. e.0)
            (slice_get (entries_from from (drop from self.now.slots)) 0) }
    {
        let slots = slots_in(&self.slots);
        first_held(slots, from, slots.len())
    }
}

#[tactic(auto, using(crate::proofs::Finds::finds))]
impl<T: Drop, A: Allocator + Clone, K> SlotMap<T, A, K> {
    // Reserves capacity for one more value. If the map is full, grows it by its growth policy.
    #[inline]
    fn make_room(&mut self) -> Result<(), TryReserveError>
        // If the map is not full, it succeeds.
        ensures fits { HasRoom self.old 1 → IsOk result }

        // On success, there is capacity for one more value. Only the capacity and the blocks may
        // change.
        ensures enough { OnOk result (count self.new.slots < self.new.capacity) }
        ensures slots { self.new.slots ≡ self.old.slots }
        ensures growth { self.new.growth ≡ self.old.growth }
        ensures issued { self.new.issued ≡ self.old.issued }
        ensures capacity { OnOk result (self.new.capacity ≡
            (if nat_lt (count self.old.slots) self.old.capacity then self.old.capacity
            else grown self.old.growth self.old.capacity)) }
        ensures resizes { OnOk result (self.new.resizes ≡
            (if nat_lt (count self.old.slots) self.old.capacity then self.old.resizes
            else self.old.resizes + 1)) }

        // An error has the requested capacity, and leaves the map unchanged.
        ensures error { IfErr result (λ e. IsErrorFor e (grown self.old.growth self.old.capacity)) }
        ensures unchanged { OnErr result (self.new ≡ self.old) }
    {
        if self.has_room() {
            return Ok(());
        }
        self.grow()
    }

    // Returns `true` if there is capacity for one more value. A free slot has it.
    #[inline(always)]
    fn has_room(&self) -> bool
        ensures room { result ≡ nat_lt (count self.now.slots) self.now.capacity }
        ensures within { count self.now.slots ≤ self.now.capacity }
    {
        if self.free.count > 0 {
            return true;
        }
        slots_in(&self.slots).len() < self.capacity()
    }

    // Grows a full map by its growth policy, by four at least. Rarely called, so its code is apart.
    #[cold]
    #[inline(never)]
    fn grow(&mut self) -> Result<(), TryReserveError>
        requires { count self.old.slots ≡ self.old.capacity }
        ensures enough { OnOk result (count self.new.slots < self.new.capacity) }
        ensures slots { self.new.slots ≡ self.old.slots }
        ensures growth { self.new.growth ≡ self.old.growth }
        ensures issued { self.new.issued ≡ self.old.issued }
        ensures capacity { OnOk result
            (self.new.capacity ≡ grown self.old.growth self.old.capacity) }
        ensures resizes { OnOk result (self.new.resizes ≡ self.old.resizes + 1) }
        ensures error { IfErr result (λ e. IsErrorFor e (grown self.old.growth self.old.capacity)) }
        ensures unchanged { OnErr result (self.new ≡ self.old) }
    {
        self.reserve(added_by(self.growth(), self.len()))
    }

    /// Inserts `value` and returns its key, which was not issued before.
    ///
    /// Allocates only if the map is full, and then grows by its growth policy: unless another was
    /// chosen, it doubles its capacity, or adds four if that is more.
    ///
    /// # Errors
    /// `CapacityOverflow` if 2^63 keys were issued, or the bytes exceed `isize::MAX`; `AllocError`
    /// with the requested capacity if an allocation or a clone of the allocator fails.
    /// The map is unchanged, and `value` is returned in the error.
    #[inline(always)]
    pub fn insert(&mut self, value: T) -> Result<Key<K>, Refused<T>>
        // If the map is not full, and keys remain to be issued, it succeeds.
        ensures fits { HasRoom self.old 1 → self.old.issued < 2 ^ 63 → IsOk result }

        // On success, the key is new and finds the value; the other keys find what they found.
        ensures put { IfOk result (λ k. Puts self.old.slots k.parts value self.new.slots) }
        ensures fresh { IfOk result (λ k. k.parts.serial ≡ self.old.issued) }
        ensures issued { OnOk result (self.new.issued ≡ self.old.issued + 1) }
        ensures found { IfOk result (λ k. find self.new k.parts ≡ Some value) }
        ensures others { IfOk result
            (λ k. (j : KeyData) → j ≢ k.parts → find self.new j ≡ find self.old j) }

        // There is one value more. The blocks grow only if the map was full, and the policy is as
        // before.
        ensures count { OnOk result (count self.new.slots ≡ count self.old.slots + 1) }
        ensures growth { self.new.growth ≡ self.old.growth }
        ensures capacity { OnOk result (self.new.capacity ≡
            (if nat_lt (count self.old.slots) self.old.capacity then self.old.capacity
            else grown self.old.growth self.old.capacity)) }
        ensures resizes { OnOk result (self.new.resizes ≡
            (if nat_lt (count self.old.slots) self.old.capacity then self.old.resizes
            else self.old.resizes + 1)) }

        // An error returns the value, has the requested capacity, and leaves the map unchanged.
        ensures returned { IfErr result (λ r. r.source ≡ value) }
        ensures error { IfErr result
            (λ r. IsErrorFor r.error (grown self.old.growth self.old.capacity)) }
        ensures unchanged { OnErr result (self.new ≡ self.old) }
    {
        let serial = self.issued;
        if serial >= KEYS {
            return Err(Refused {
                source: value,
                error: TryReserveErrorKind::CapacityOverflow.into(),
            });
        }
        if let Err(error) = self.make_room() {
            return Err(Refused {
                source: value,
                error,
            });
        }
        let index = match &mut self.slots {
            Some(slots) => put(slots, &mut self.values, &mut self.free, serial, value),
            None => unreachable!(),
        };
        self.issued = serial + 1;
        Ok(Key::from(KeyData { index, serial }))
    }
}

#[tactic(auto, using(crate::proofs::Finds::finds))]
impl<T: Drop, A: Allocator, K> SlotMap<T, A, K> {
    /// Removes the value of `key` and returns it, or `None` if the key has none.
    ///
    /// Afterwards the key has no value. Does not allocate.
    #[inline]
    pub fn remove(&mut self, key: Key<K>) -> Option<T>
        // It returns the value of the key. If there was none, nothing changes.
        ensures value { result ≡ find self.old key.parts }
        ensures removed { IfSome result (λ _. self.new ≡ without self.old key.parts) }
        ensures none { IfNone result (self.new ≡ self.old) }

        // The key then has no value; the other keys find what they found.
        ensures absent { find self.new key.parts ≡ None }
        ensures others { (j : KeyData) → j ≢ key.parts → find self.new j ≡ find self.old j }
        ensures count { IfSome result (λ _. count self.new.slots + 1 ≡ count self.old.slots) }
    {
        let key = key.data();
        if !self.holds(key) {
            return None;
        }
        let removed = match &mut self.slots {
            Some(slots) => release(slots, &mut self.values, &mut self.free, key.index),
            None => unreachable!(),
        };
        Some(removed)
    }

    /// Removes and drops all values.
    ///
    /// Afterwards no key that was issued has a value. The capacity does not change.
    pub fn clear(&mut self)
        ensures removed { self.new ≡ cleared self.old }
        ensures absent { (k : KeyData) → find self.new k ≡ None }
    {
        let all = slots_in(&self.slots);
        drop_between(all, &mut self.values, 0, all.len());
        self.free = Chain { first: 0, count: 0 };
        match &mut self.slots {
            Some(slots) => slots.clear(),
            None => {}
        }
    }
}
