//! `OrderedMap::entry`, and the calls of an entry.
ghost use Rattle.std.specs.Prelude.{◌≡◌, ◌<◌, is_some, length, option_map, true, None, Some, IfErr, IfOk, IfSome, IsOk, MatchOption, OnErr};
ghost use Rattle.std.specs.Borrow.{sem, Bor, MutBor};
ghost use Rattle.std.specs.Fn.{FnOnceReturnsAt};
ghost use Rattle.std.specs.Map.{keys_of};
ghost use Rattle.std.specs.Map.Calls.{ModifiesValue};
ghost use Rattle.std.specs.Option.{unwrap_or, UnwrapsOrElse};
ghost use Rattle.allocator_api2.specs.Errors.{IsErrorFor};
ghost use Rattle.aa_ordered.specs.Capacity.{requested};
ghost use Rattle.aa_ordered.specs.Entries.{entry_of, value, OrderedView};
ghost use Rattle.aa_ordered.specs.Entry.{Occupied, Vacant, entry_key, entry_map, entry_value, lends_entry, lends_occupied, removes, stored_key, writes, MatchEntry};
ghost use Rattle.aa_ordered.specs.Inserting.{Inserts};

use super::{Entry, OccupiedEntry, VacantEntry};
use crate::map::OrderedMap;
use allocator_api2::collections::Refused;
use std::alloc::Allocator;
use std::cmp::Ord;
use std::default::Default;
use std::mem;

impl<K: Ord + Drop, V: Drop, A: Allocator + Clone> OrderedMap<K, V, A> {
    /// Returns the entry of `key`, by which its value is read, changed or inserted.
    ///
    /// Does not allocate.
    pub fn entry(&mut self, key: K) -> Entry<'_, K, V, A>
        // It borrows this map as it is, at `key`.
        ensures lender { (entry_map result).ghost_name ≡ self.entry.ghost_name }
        ensures unchanged { (entry_map result).now ≡ self.old }
        ensures key { entry_key result ≡ key }

        // It is occupied if the key is present.
        ensures found { MatchEntry result
            (is_some (value K.cmp self.old.entries key) ≡ true)
            (value K.cmp self.old.entries key ≡ None) }
    {
        if self.contains_key(&key) {
            Entry::Occupied(OccupiedEntry { map: self, key })
        } else {
            Entry::Vacant(VacantEntry { map: self, key })
        }
    }
}

impl<'a, K: Ord + Drop, V: Drop, A: Allocator + Clone> OccupiedEntry<'a, K, V, A> {
    /// Returns a reference to the stored key.
    pub fn key(&self) -> &K
        ensures { option_map (λ e. e.0) (entry_of K.cmp self.now.map.now.entries self.now.key)
            ≡ Some result.now }
    {
        match self.map.get_key_value(&self.key) {
            Some((key, _)) => key,
            None => unreachable!(),
        }
    }

    /// Returns a reference to the value.
    pub fn get(&self) -> &V
        ensures { entry_value (Occupied self.now) ≡ Some result.now }
    {
        match self.map.get(&self.key) {
            Some(value) => value,
            None => unreachable!(),
        }
    }

    /// Calls `f` with a mutable reference to the value.
    ///
    /// Not in std, whose `get_mut` returns the reference.
    pub fn modify<F: FnOnce(&mut V)>(&mut self, f: F)
        requires callable { (p : MutBor V) → entry_value (Occupied self.old) ≡ Some p.now
            → F.pre f p }

        // It is an entry of the same map and key.
        ensures lender { self.new.map.ghost_name ≡ self.old.map.ghost_name }
        ensures key { self.new.key ≡ self.old.key }

        // Its value is what the call left, and the map has it. The keys do not change.
        ensures called { ModifiesValue F.FnOnce f (entry_value (Occupied self.old))
            (entry_value (Occupied self.new)) }
        ensures written { IfSome (entry_value (Occupied self.new))
            (λ v. self.new.map.now ≡ writes K.cmp self.old.map.now self.old.key v) }
        ensures keys { keys_of self.new.map.now.entries ≡ keys_of self.old.map.now.entries }
    {
        f(self.map.stored_mut(&self.key));
    }

    /// Consumes the entry and returns a mutable reference to the value in the map.
    ///
    /// When the borrow ends, the key has the last value written to it.
    pub fn into_mut(self) -> &'a mut V
        ensures* writes_back { sem 𝓛 (lends_occupied K.row V.row A.row A.Allocator self.entry
            result) }
        ensures value { entry_value (Occupied self.entry) ≡ Some result.now }
    {
        let OccupiedEntry { map, key } = self;
        map.stored_mut(&key)
    }

    /// Sets the value to `value`, and returns the old value.
    pub fn insert(&mut self, value: V) -> V
        ensures old { entry_value (Occupied self.old) ≡ Some result }
        ensures lender { self.new.map.ghost_name ≡ self.old.map.ghost_name }
        ensures written { self.new.map.now ≡ writes K.cmp self.old.map.now self.old.key value }
        ensures key { self.new.key ≡ self.old.key }
    {
        mem::replace(self.map.stored_mut(&self.key), value)
    }

    /// Removes the entry from the map and returns its value.
    ///
    /// Does not allocate, and does not change the capacity.
    pub fn remove(self) -> V
        ensures value { entry_value (Occupied self.entry) ≡ Some result }
        ensures removed { self.exit.0.now ≡ removes K.cmp (entry_map (Occupied self.entry)).now
            (entry_key (Occupied self.entry)) }
    {
        let (_key, value) = self.remove_entry();
        value
    }

    /// Removes the entry from the map and returns the stored key and its value.
    ///
    /// Does not allocate, and does not change the capacity.
    pub fn remove_entry(self) -> (K, V)
        ensures entry { entry_of K.cmp (entry_map (Occupied self.entry)).now.entries
            (entry_key (Occupied self.entry)) ≡ Some result }
        ensures removed { self.exit.0.now ≡ removes K.cmp (entry_map (Occupied self.entry)).now
            (entry_key (Occupied self.entry)) }
    {
        let key = self.key;
        self.map.take(&key)
    }
}

impl<'a, K: Ord + Drop, V: Drop, A: Allocator + Clone> VacantEntry<'a, K, V, A> {
    /// Returns a reference to the key that `insert` would store.
    pub fn key(&self) -> &K
        ensures { result.now ≡ entry_key (Vacant self.now) }
    {
        &self.key
    }

    /// Consumes the entry and returns its key.
    pub fn into_key(self) -> K
        ensures key { result ≡ entry_key (Vacant self.entry) }
        ensures unchanged { self.exit.0.now ≡ (entry_map (Vacant self.entry)).now }
    {
        let VacantEntry { map: _, key } = self;
        key
    }

    /// Inserts the key with the value `value`, and returns a mutable reference to the value.
    ///
    /// When the borrow ends, the key has the last value written to it. Allocates only if the map
    /// has as many entries as its capacity, or more.
    ///
    /// # Errors
    /// The errors of `OrderedMap::insert`. The map is unchanged, and key and value are returned in
    /// the error.
    pub fn insert(self, value: V) -> Result<&'a mut V, Refused<(K, V)>>
        // If there is capacity, it succeeds.
        ensures fits { let map = (entry_map (Vacant self.entry)).now in
            length map.entries < map.capacity → IsOk result }

        // When the borrow ends, the map has the key with the last value written to it. An error
        // leaves the map unchanged.
        ensures* writes_back { sem 𝓛 (lends_entry K.row V.row A.row A.Allocator
            (Vacant self.entry) result) }
        ensures value { IfOk result (λ v. v.now ≡ value) }

        // An error returns key and value, and says why it failed.
        ensures returned { IfErr result
            (λ r. r.source ≡ (entry_key (Vacant self.entry), value)) }
        ensures error { IfErr result
            (λ r. IsErrorFor r.error (requested (entry_map (Vacant self.entry)).now 1)) }
    {
        let VacantEntry { map, key } = self;
        map.insert_vacant(key, value)
    }
}

impl<'a, K: Ord + Drop, V: Drop, A: Allocator + Clone> Entry<'a, K, V, A> {
    /// Returns a reference to the stored key, or to the one that was passed if none is stored.
    pub fn key(&self) -> &K
        ensures { result.now ≡ stored_key self.now }
    {
        match self {
            Entry::Occupied(entry) => entry.key(),
            Entry::Vacant(entry) => entry.key(),
        }
    }

    /// Inserts `default` if the key is absent, and returns a mutable reference to the value.
    ///
    /// When the borrow ends, the key has the last value written to it. Allocates only if the key is
    /// absent and the map has as many entries as its capacity, or more.
    ///
    /// # Errors
    /// The errors of `OrderedMap::insert`. The map is unchanged, and key and value are returned in
    /// the error.
    pub fn or_insert(self, default: V) -> Result<&'a mut V, Refused<(K, V)>>
        // If there is capacity, it succeeds.
        ensures fits { let map = (entry_map self.entry).now in
            length map.entries < map.capacity → IsOk result }

        // When the borrow ends, the key has the last value written to it. An error leaves the map
        // unchanged.
        ensures* writes_back { sem 𝓛 (lends_entry K.row V.row A.row A.Allocator self.entry
            result) }
        ensures value { IfOk result
            (λ v. v.now ≡ unwrap_or (entry_value self.entry) default) }

        // An error returns key and value, and says why it failed.
        ensures returned { IfErr result (λ r. r.source ≡ (entry_key self.entry, default)) }
        ensures absent { OnErr result (entry_value self.entry ≡ None) }
        ensures error { IfErr result
            (λ r. IsErrorFor r.error (requested (entry_map self.entry).now 1)) }
    {
        match self {
            Entry::Occupied(entry) => Ok(entry.into_mut()),
            Entry::Vacant(entry) => entry.insert(default),
        }
    }

    /// Like `or_insert`, but inserts what `default` returns, which is called only if the key is
    /// absent.
    ///
    /// # Errors
    /// The errors of `OrderedMap::insert`. The map is unchanged, and key and value are returned in
    /// the error.
    pub fn or_insert_with<F: FnOnce() -> V + Drop>(
        self,
        default: F,
    ) -> Result<&'a mut V, Refused<(K, V)>>
        requires callable { entry_value self ≡ None → F.pre default }

        // If there is capacity, it succeeds.
        ensures fits { let map = (entry_map self.entry).now in
            length map.entries < map.capacity → IsOk result }

        // When the borrow ends, the key has the last value written to it. An error leaves the map
        // unchanged.
        ensures* writes_back { sem 𝓛 (lends_entry K.row V.row A.row A.Allocator self.entry
            result) }
        ensures value { IfOk result
            (λ v. UnwrapsOrElse (entry_value self.entry) (F.post default) v.now) }

        // An error returns key and value, and says why it failed.
        ensures returned { IfErr result
            (λ r. (r.source.0 ≡ entry_key self.entry) × F.post default r.source.1) }
        ensures absent { OnErr result (entry_value self.entry ≡ None) }
        ensures error { IfErr result
            (λ r. IsErrorFor r.error (requested (entry_map self.entry).now 1)) }
    {
        match self {
            Entry::Occupied(entry) => Ok(entry.into_mut()),
            Entry::Vacant(entry) => entry.insert(default()),
        }
    }

    /// Like `or_insert_with`, but `default` is called with a reference to the key.
    ///
    /// # Errors
    /// The errors of `OrderedMap::insert`. The map is unchanged, and key and value are returned in
    /// the error.
    pub fn or_insert_with_key<F: FnOnce(&K) -> V + Drop>(
        self,
        default: F,
    ) -> Result<&'a mut V, Refused<(K, V)>>
        requires callable { entry_value self ≡ None
            → (p : Bor K) → p.now ≡ entry_key self → F.pre default p }

        // If there is capacity, it succeeds.
        ensures fits { let map = (entry_map self.entry).now in
            length map.entries < map.capacity → IsOk result }

        // When the borrow ends, the key has the last value written to it. An error leaves the map
        // unchanged.
        ensures* writes_back { sem 𝓛 (lends_entry K.row V.row A.row A.Allocator self.entry
            result) }
        ensures value { IfOk result (λ v. UnwrapsOrElse (entry_value self.entry)
            (FnOnceReturnsAt F.FnOnce default (entry_key self.entry)) v.now) }

        // An error returns key and value, and says why it failed.
        ensures returned { IfErr result (λ r. (r.source.0 ≡ entry_key self.entry)
            × FnOnceReturnsAt F.FnOnce default (entry_key self.entry) r.source.1) }
        ensures absent { OnErr result (entry_value self.entry ≡ None) }
        ensures error { IfErr result
            (λ r. IsErrorFor r.error (requested (entry_map self.entry).now 1)) }
    {
        match self {
            Entry::Occupied(entry) => Ok(entry.into_mut()),
            Entry::Vacant(entry) => {
                let value = default(entry.key());
                entry.insert(value)
            }
        }
    }

    /// Like `or_insert`, but inserts the default value of its type.
    ///
    /// # Errors
    /// The errors of `OrderedMap::insert`. The map is unchanged, and key and value are returned in
    /// the error.
    pub fn or_default(self) -> Result<&'a mut V, Refused<(K, V)>>
    where
        V: Default,
        // If there is capacity, it succeeds.
        ensures fits { let map = (entry_map self.entry).now in
            length map.entries < map.capacity → IsOk result }

        // When the borrow ends, the key has the last value written to it. An error leaves the map
        // unchanged.
        ensures* writes_back { sem 𝓛 (lends_entry K.row V.row A.row A.Allocator self.entry
            result) }
        ensures value { IfOk result
            (λ v. UnwrapsOrElse (entry_value self.entry) V.is_default v.now) }

        // An error returns key and value, and says why it failed.
        ensures returned { IfErr result
            (λ r. (r.source.0 ≡ entry_key self.entry) × V.is_default r.source.1) }
        ensures absent { OnErr result (entry_value self.entry ≡ None) }
        ensures error { IfErr result
            (λ r. IsErrorFor r.error (requested (entry_map self.entry).now 1)) }
    {
        match self {
            Entry::Occupied(entry) => Ok(entry.into_mut()),
            Entry::Vacant(entry) => entry.insert(V::default()),
        }
    }

    /// Calls `f` with a mutable reference to the value if the key is present, and returns the entry.
    pub fn and_modify<F: FnOnce(&mut V) + Drop>(self, f: F) -> Entry<'a, K, V, A>
        requires callable { (p : MutBor V) → entry_value self ≡ Some p.now → F.pre f p }

        // It is an entry of the same map and key.
        ensures lender { (entry_map result).ghost_name ≡ (entry_map self.entry).ghost_name }
        ensures key { entry_key result ≡ entry_key self.entry }

        // Its value is what the call left, and the map has it. An absent key changes nothing.
        ensures called { ModifiesValue F.FnOnce f (entry_value self.entry) (entry_value result) }
        ensures after { MatchOption (entry_value result)
            ((entry_map result).now ≡ (entry_map self.entry).now)
            (λ v. (entry_map result).now
            ≡ writes K.cmp (entry_map self.entry).now (entry_key self.entry) v) }

        // What is written through it is as if it was written through the entry before.
        ensures update { (v : V) (u : OrderedView K V)
            → Inserts K.cmp (entry_map result).now (entry_key result) v u
            → Inserts K.cmp (entry_map self.entry).now (entry_key self.entry) v u }
    {
        match self {
            Entry::Occupied(mut entry) => {
                entry.modify(f);
                Entry::Occupied(entry)
            }
            Entry::Vacant(entry) => Entry::Vacant(entry),
        }
    }
}
