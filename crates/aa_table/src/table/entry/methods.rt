//! `Table::entry`, and the calls of an entry that is occupied or vacant.
ghost use Rattle.std.specs.Prelude.{◌≡◌, None, Some, IfErr, IfOk, IsOk, OnErr, MatchOption, length, is_some, true};
ghost use Rattle.std.specs.Borrow.{sem, Bor, MutBor};
ghost use Rattle.std.specs.Fn.{FnOnceReturnsAt};
ghost use Rattle.std.specs.Map.Calls.{ModifiesValue};
ghost use Rattle.std.specs.Option.{unwrap_or, UnwrapsOrElse};
ghost use Rattle.aa_table.specs.Full.{LacksRoom};
ghost use Rattle.aa_table.specs.Contents.{capacity_for, value, HasRoom, TableView};
ghost use Rattle.aa_table.specs.Entry.{entry_table, entry_key, entry_value, stored_key, with_value, MatchEntry, Puts, Writes};
ghost use Rattle.aa_table.specs.EntryLends.{lends_entry};

use super::{Entry, OccupiedEntry, VacantEntry};
use crate::index::{find_in, hash_of};
use crate::table::Table;
use allocator_api2::collections::Refused;
use std::alloc::Allocator;
use std::default::Default;
use std::hash::{BuildHasher, Hash};

impl<K: Eq + Hash + Drop, V: Drop, S: BuildHasher, A: Allocator + Clone> Table<K, V, S, A> {
    /// Returns the entry of `key`, by which its value is read, changed or inserted.
    ///
    /// Searches for the key once. Does not allocate.
    pub fn entry(&mut self, key: K) -> Entry<'_, K, V, S, A>
        // It borrows this table as it is, at `key`.
        ensures lender { (entry_table result).ghost_name ≡ self.entry.ghost_name }
        ensures unchanged { (entry_table result).now ≡ self.old }
        ensures key { entry_key result ≡ key }

        // It is occupied if the key is present.
        ensures value { entry_value result ≡ value K.eq self.old.entries key }
        ensures found { MatchEntry result
            (is_some (value K.eq self.old.entries key) ≡ true)
            (value K.eq self.old.entries key ≡ None) }

        // Through it, the key is given a value.
        ensures update { (v : V) (u : TableView K V S) → Writes result v u
            → Puts K.eq self.old key v u }
    {
        let hash = hash_of(&self.builder, &key);
        match find_in(&self.index, &self.places, hash, &key) {
            Some(slot) => Entry::Occupied(OccupiedEntry {
                table: self,
                key,
                slot,
            }),
            None => Entry::Vacant(VacantEntry {
                table: self,
                key,
                hash,
            }),
        }
    }
}

impl<'a, K: Eq + Hash, V, S: BuildHasher, A: Allocator> Entry<'a, K, V, S, A> {
    /// Returns a reference to the stored key, or to the one that was passed if none is stored.
    pub fn key(&self) -> &K
        ensures { result.now ≡ stored_key self.now }
    {
        match self {
            Entry::Occupied(entry) => entry.key(),
            Entry::Vacant(entry) => entry.key(),
        }
    }
}

impl<'a, K: Eq + Hash + Drop, V: Drop, S: BuildHasher, A: Allocator + Clone> Entry<'a, K, V, S, A> {
    /// Inserts `default` if the key is absent, and returns a mutable reference to the value.
    ///
    /// When the borrow ends, the key has the last value written to it. Allocates only if the key is
    /// absent and the table is full, and then as `reserve(1)` does.
    ///
    /// # Errors
    /// The errors of `reserve(1)`. The table is unchanged, and key and value are returned in the
    /// error.
    pub fn or_insert(self, default: V) -> Result<&'a mut V, Refused<(K, V)>>
        // If the table is not full, it succeeds.
        ensures fits { HasRoom (entry_table self.entry).now 1 → IsOk result }

        // When the borrow ends, the key has the last value written to it. An error leaves the table
        // unchanged.
        ensures* writes_back { sem 𝓛 (lends_entry K.row V.row S.row A.row S.Hasher.row
            A.Allocator self.entry result) }
        ensures value { IfOk result
            (λ v. v.now ≡ unwrap_or (entry_value self.entry) default) }

        // An error returns key and value, and says why it failed.
        ensures returned { IfErr result (λ r. r.source ≡ (entry_key self.entry, default)) }
        ensures absent { OnErr result (entry_value self.entry ≡ None) }
        ensures error { let table = (entry_table self.entry).now in
            IfErr result (λ r. LacksRoom table.capacity (length table.entries) 1
            (capacity_for table 1) r.error) }
    {
        match self {
            Entry::Occupied(entry) => Ok(entry.into_mut()),
            Entry::Vacant(entry) => entry.insert(default),
        }
    }

    /// Like `or_insert`, but inserts what `default` returns, which is called only if the key is
    /// absent.
    ///
    /// # Errors
    /// The errors of `reserve(1)`. The table is unchanged, and key and value are returned in the
    /// error.
    pub fn or_insert_with<F: FnOnce() -> V + Drop>(
        self,
        default: F,
    ) -> Result<&'a mut V, Refused<(K, V)>>
        requires callable { entry_value self ≡ None → F.pre default }

        // If the table is not full, it succeeds.
        ensures fits { HasRoom (entry_table self.entry).now 1 → IsOk result }

        // When the borrow ends, the key has the last value written to it. An error leaves the table
        // unchanged.
        ensures* writes_back { sem 𝓛 (lends_entry K.row V.row S.row A.row S.Hasher.row
            A.Allocator self.entry result) }
        ensures value { IfOk result
            (λ v. UnwrapsOrElse (entry_value self.entry) (F.post default) v.now) }

        // An error returns key and value, and says why it failed.
        ensures returned { IfErr result
            (λ r. (r.source.0 ≡ entry_key self.entry) × F.post default r.source.1) }
        ensures absent { OnErr result (entry_value self.entry ≡ None) }
        ensures error { let table = (entry_table self.entry).now in
            IfErr result (λ r. LacksRoom table.capacity (length table.entries) 1
            (capacity_for table 1) r.error) }
    {
        match self {
            Entry::Occupied(entry) => Ok(entry.into_mut()),
            Entry::Vacant(entry) => entry.insert(default()),
        }
    }

    /// Like `or_insert_with`, but `default` is called with a reference to the key.
    ///
    /// # Errors
    /// The errors of `reserve(1)`. The table is unchanged, and key and value are returned in the
    /// error.
    pub fn or_insert_with_key<F: FnOnce(&K) -> V + Drop>(
        self,
        default: F,
    ) -> Result<&'a mut V, Refused<(K, V)>>
        requires callable { entry_value self ≡ None
            → (p : Bor K) → p.now ≡ entry_key self → F.pre default p }

        // If the table is not full, it succeeds.
        ensures fits { HasRoom (entry_table self.entry).now 1 → IsOk result }

        // When the borrow ends, the key has the last value written to it. An error leaves the table
        // unchanged.
        ensures* writes_back { sem 𝓛 (lends_entry K.row V.row S.row A.row S.Hasher.row
            A.Allocator self.entry result) }
        ensures value { IfOk result (λ v. UnwrapsOrElse (entry_value self.entry)
            (FnOnceReturnsAt F.FnOnce default (entry_key self.entry)) v.now) }

        // An error returns key and value, and says why it failed.
        ensures returned { IfErr result (λ r. (r.source.0 ≡ entry_key self.entry)
            × FnOnceReturnsAt F.FnOnce default (entry_key self.entry) r.source.1) }
        ensures absent { OnErr result (entry_value self.entry ≡ None) }
        ensures error { let table = (entry_table self.entry).now in
            IfErr result (λ r. LacksRoom table.capacity (length table.entries) 1
            (capacity_for table 1) r.error) }
    {
        match self {
            Entry::Occupied(entry) => Ok(entry.into_mut()),
            Entry::Vacant(entry) => {
                let value = default(entry.key());
                entry.insert(value)
            }
        }
    }

    /// Like `or_insert`, but inserts the default value of its type.
    ///
    /// # Errors
    /// The errors of `reserve(1)`. The table is unchanged, and key and value are returned in the
    /// error.
    pub fn or_default(self) -> Result<&'a mut V, Refused<(K, V)>>
    where
        V: Default,
        // If the table is not full, it succeeds.
        ensures fits { HasRoom (entry_table self.entry).now 1 → IsOk result }

        // When the borrow ends, the key has the last value written to it. An error leaves the table
        // unchanged.
        ensures* writes_back { sem 𝓛 (lends_entry K.row V.row S.row A.row S.Hasher.row
            A.Allocator self.entry result) }
        ensures value { IfOk result
            (λ v. UnwrapsOrElse (entry_value self.entry) V.is_default v.now) }

        // An error returns key and value, and says why it failed.
        ensures returned { IfErr result
            (λ r. (r.source.0 ≡ entry_key self.entry) × V.is_default r.source.1) }
        ensures absent { OnErr result (entry_value self.entry ≡ None) }
        ensures error { let table = (entry_table self.entry).now in
            IfErr result (λ r. LacksRoom table.capacity (length table.entries) 1
            (capacity_for table 1) r.error) }
    {
        match self {
            Entry::Occupied(entry) => Ok(entry.into_mut()),
            Entry::Vacant(entry) => entry.insert(V::default()),
        }
    }
}

impl<'a, K: Eq + Hash, V, S: BuildHasher, A: Allocator> Entry<'a, K, V, S, A> {
    /// Calls `f` with a mutable reference to the value if the key is present, and returns the entry.
    pub fn and_modify<F: FnOnce(&mut V) + Drop>(self, f: F) -> Entry<'a, K, V, S, A>
        requires callable { (p : MutBor V) → entry_value self ≡ Some p.now → F.pre f p }

        // It is an entry of the same table and key.
        ensures lender { (entry_table result).ghost_name ≡ (entry_table self.entry).ghost_name }
        ensures key { entry_key result ≡ entry_key self.entry }

        // Its value is what the call left, and the table has it. An absent key changes nothing.
        ensures called { ModifiesValue F.FnOnce f (entry_value self.entry) (entry_value result) }
        ensures after { MatchOption (entry_value result)
            ((entry_table result).now ≡ (entry_table self.entry).now)
            (λ v. (entry_table result).now
            ≡ with_value K.eq (entry_table self.entry).now (entry_key self.entry) v) }

        // What is written through it is as if it was written through the entry before.
        ensures update { (v : V) (u : TableView K V S) → Writes result v u
            → Writes self.entry v u }
    {
        match self {
            Entry::Occupied(mut entry) => {
                entry.modify(f);
                Entry::Occupied(entry)
            }
            Entry::Vacant(entry) => Entry::Vacant(entry),
        }
    }
}
