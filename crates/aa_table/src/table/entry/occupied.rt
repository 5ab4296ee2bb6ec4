//! The entry of a key that is present.
ghost use Rattle.std.specs.Prelude.{◌≡◌, Some};
ghost use Rattle.std.specs.Borrow.{sem, MutBor};
ghost use Rattle.std.specs.Map.Calls.{ModifiesValue};
ghost use Rattle.aa_table.specs.Entry.{Occupied, entry_table, entry_key, entry_value, stored_key, IsWritten};
ghost use Rattle.aa_table.specs.EntryLends.{lends_occupied};
ghost use Rattle.aa_table.specs.Removing.{Removes};

use super::OccupiedEntry;
use std::alloc::Allocator;
use std::hash::{BuildHasher, Hash};
use std::mem;

impl<'a, K: Eq + Hash, V, S: BuildHasher, A: Allocator> OccupiedEntry<'a, K, V, S, A> {
    /// Returns a reference to the stored key.
    pub fn key(&self) -> &K
        ensures { result.now ≡ stored_key (Occupied self.now) }
    {
        self.table.stored(self.slot, &self.key).0
    }

    /// Returns a reference to the value.
    pub fn get(&self) -> &V
        ensures { entry_value (Occupied self.now) ≡ Some result.now }
    {
        self.table.stored(self.slot, &self.key).1
    }

    /// Calls `f` with a mutable reference to the value.
    ///
    /// Not in std, whose `get_mut` returns the reference.
    pub fn modify<F: FnOnce(&mut V)>(&mut self, f: F)
        requires callable { (p : MutBor V) → entry_value (Occupied self.old) ≡ Some p.now
            → F.pre f p }
        ensures called { ModifiesValue F.FnOnce f (entry_value (Occupied self.old))
            (entry_value (Occupied self.new)) }
        ensures written { (v : V) × IsWritten (Occupied self.old) v (Occupied self.new) }
    {
        let slot = self.slot;
        f(self.table.stored_mut(slot, &self.key));
    }

    /// Sets the value to `value`, and returns the old value.
    pub fn insert(&mut self, value: V) -> V
        ensures old { entry_value (Occupied self.old) ≡ Some result }
        ensures written { IsWritten (Occupied self.old) value (Occupied self.new) }
    {
        let slot = self.slot;
        mem::replace(self.table.stored_mut(slot, &self.key), value)
    }
}

impl<'a, K: Eq + Hash + Drop, V: Drop, S: BuildHasher, A: Allocator + Clone> OccupiedEntry<
    'a,
    K,
    V,
    S,
    A,
> {
    /// Consumes the entry and returns a mutable reference to the value in the table.
    ///
    /// When the borrow ends, the key has the last value written to it. The keys and their order do
    /// not change.
    pub fn into_mut(self) -> &'a mut V
        ensures* writes_back { sem 𝓛 (lends_occupied K.row V.row S.row A.row S.Hasher.row
            A.Allocator self.entry result) }
        ensures value { entry_value (Occupied self.entry) ≡ Some result.now }
    {
        let OccupiedEntry { table, key, slot } = self;
        table.stored_mut(slot, &key)
    }

    /// Removes the entry from the table and returns its value.
    ///
    /// Preserves the order of the other keys. Does not allocate, and does not change the capacity:
    /// another key can then be inserted.
    pub fn remove(self) -> V
        // It returns the value, and the table is then the old one without the key.
        ensures value { entry_value (Occupied self.entry) ≡ Some result }
        ensures removed { Removes K.eq (entry_table (Occupied self.entry)).now
            (entry_key (Occupied self.entry)) self.exit.0.now }
    {
        let (_key, value) = self.remove_entry();
        value
    }

    /// Removes the entry from the table and returns the stored key and its value.
    ///
    /// Preserves the order of the other keys. Does not allocate, and does not change the capacity:
    /// another key can then be inserted.
    pub fn remove_entry(self) -> (K, V)
        // It returns the stored entry, and the table is then the old one without the key.
        ensures key { result.0 ≡ stored_key (Occupied self.entry) }
        ensures value { entry_value (Occupied self.entry) ≡ Some result.1 }
        ensures removed { Removes K.eq (entry_table (Occupied self.entry)).now
            (entry_key (Occupied self.entry)) self.exit.0.now }
    {
        let key = self.key;
        self.table.take(&key)
    }
}
