//! The entry of a key that is absent.
ghost use Rattle.std.specs.Prelude.{◌≡◌, IfErr, IfOk, IsOk, length};
ghost use Rattle.std.specs.Borrow.{sem};
ghost use Rattle.aa_table.specs.Full.{LacksRoom};
ghost use Rattle.aa_table.specs.Contents.{capacity_for, HasRoom};
ghost use Rattle.aa_table.specs.Entry.{Vacant, entry_table, entry_key};
ghost use Rattle.aa_table.specs.EntryLends.{lends_entry};

use super::VacantEntry;
use allocator_api2::collections::Refused;
use std::alloc::Allocator;
use std::hash::{BuildHasher, Hash};

impl<'a, K: Eq + Hash, V, S: BuildHasher, A: Allocator> VacantEntry<'a, K, V, S, A> {
    /// Returns a reference to the key that `insert` would store.
    pub fn key(&self) -> &K
        ensures { result.now ≡ entry_key (Vacant self.now) }
    {
        &self.key
    }

    /// Consumes the entry and returns its key.
    pub fn into_key(self) -> K
        ensures key { result ≡ entry_key (Vacant self.entry) }
        ensures unchanged { self.exit.0.now ≡ (entry_table (Vacant self.entry)).now }
    {
        let VacantEntry {
            table: _,
            key,
            hash: _,
        } = self;
        key
    }
}

impl<'a, K: Eq + Hash + Drop, V: Drop, S: BuildHasher, A: Allocator + Clone> VacantEntry<
    'a,
    K,
    V,
    S,
    A,
> {
    /// Inserts the key with the value `value`, and returns a mutable reference to the value.
    ///
    /// When the borrow ends, the key has the last value written to it. Allocates only if the table
    /// is full, and then as `reserve(1)` does.
    ///
    /// # Errors
    /// The errors of `reserve(1)`. The table is unchanged, and key and value are returned in the
    /// error.
    pub fn insert(self, value: V) -> Result<&'a mut V, Refused<(K, V)>>
        // If the table is not full, it succeeds.
        ensures fits { HasRoom (entry_table (Vacant self.entry)).now 1 → IsOk result }

        // When the borrow ends, the table has the key with the last value written to it. An error
        // leaves the table unchanged.
        ensures* writes_back { sem 𝓛 (lends_entry K.row V.row S.row A.row S.Hasher.row
            A.Allocator (Vacant self.entry) result) }
        ensures value { IfOk result (λ v. v.now ≡ value) }

        // An error returns key and value, and says why it failed.
        ensures returned { IfErr result
            (λ r. r.source ≡ (entry_key (Vacant self.entry), value)) }
        ensures error { let table = (entry_table (Vacant self.entry)).now in
            IfErr result (λ r. LacksRoom table.capacity (length table.entries) 1
            (capacity_for table 1) r.error) }
    {
        let VacantEntry { table, key, hash } = self;
        table.insert_vacant(hash, key, value)
    }
}
