//! Insertion of an absent key, by a mutable reference to its value.
ghost use Rattle.std.specs.Prelude.{◌≡◌, None, IfOk, IfErr, IsOk, OnOk, length};
ghost use Rattle.std.specs.Borrow.{sem};
ghost use Rattle.aa_table.specs.Full.{LacksRoom};
ghost use Rattle.aa_table.specs.Contents.{keys_like, value, HasRoom, capacity_for};
ghost use Rattle.aa_table.specs.Places.{hashes};

use super::{Table, TryInsertError};
use crate::index::{find_in, hash_of};
use allocator_api2::collections::Refused;
use std::alloc::Allocator;
use std::hash::{BuildHasher, Hash};

impl<K: Eq + Hash + Drop, V: Drop, S: BuildHasher, A: Allocator + Clone> Table<K, V, S, A> {
    ghost use Rattle.aa_table.specs.Inserting.{TryInsertFails};
    ghost use Rattle.aa_table.specs.InsertLends.{lends_added};

    // Inserts an absent key, and returns a mutable reference to its value.
    #[inline]
    pub(crate) fn insert_vacant(
        &mut self,
        hash: u64,
        key: K,
        item: V,
    ) -> Result<&mut V, Refused<(K, V)>>
        requires hash { hash
            ≡ hashes S.BuildHasher S.Hasher.Hasher K.hash_input self.old.builder key }
        requires absent { keys_like K.eq key self.old.entries ≡ 0 }

        // When the borrow ends, the table has the key with the last value written to it.
        ensures* writes_back { sem 𝓛 (lends_added K.row V.row S.row A.row S.Hasher.row
            K.Hash S.BuildHasher S.Hasher.Hasher A.Allocator self.entry key result) }
        ensures value { IfOk result (λ v. v.now ≡ item) }
        ensures fits { HasRoom self.old 1 → IsOk result }

        // An error is that of `reserve(1)`.
        ensures returned { IfErr result (λ r. r.source ≡ (key, item)) }
        ensures error { IfErr result
            (λ r. LacksRoom self.old.capacity (length self.old.entries) 1 (capacity_for self.old 1)
            r.error) }
    {
        if let Err(error) = self.reserve(1) {
            return Err(Refused {
                source: (key, item),
                error,
            });
        }
        let slot = match &mut self.index {
            Some(index) => index.put_new(&mut self.places, hash, (key, item)),
            None => unreachable!(),
        };
        self.count += 1;
        Ok(&mut self.places.place_mut(slot).1)
    }

    /// Inserts `key` with the value `item`, if the key is absent, and returns a mutable reference
    /// to the value.
    ///
    /// When the borrow ends, the key has the last value written to it. Allocates only if the key is
    /// absent and the table is full, and then as `reserve(1)` does.
    ///
    /// # Errors
    /// `Occupied` if the key is present; otherwise the errors of `reserve(1)`. The table is
    /// unchanged, and key and value are returned in the error.
    #[inline]
    pub fn try_insert(&mut self, key: K, item: V) -> Result<&mut V, TryInsertError<K, V>>
        // If the key is absent and the table is not full, it succeeds.
        ensures fits { value K.eq self.old.entries key ≡ None → HasRoom self.old 1
            → IsOk result }

        // On success, the key was absent, and has the last value written when the borrow ends. An
        // error leaves the table unchanged.
        ensures* writes_back { sem 𝓛 (lends_added K.row V.row S.row A.row S.Hasher.row
            K.Hash S.BuildHasher S.Hasher.Hasher A.Allocator self.entry key result) }
        ensures new { OnOk result (value K.eq self.old.entries key ≡ None) }
        ensures value { IfOk result (λ v. v.now ≡ item) }

        // An error returns key and value, and says why it failed.
        ensures error { IfErr result (TryInsertFails K.eq self.old key item) }
    {
        let hash = hash_of(&self.builder, &key);
        if let Some(_) = find_in(&self.index, &self.places, hash, &key) {
            return Err(TryInsertError::Occupied { key, value: item });
        }
        match self.insert_vacant(hash, key, item) {
            Ok(value) => Ok(value),
            Err(refused) => Err(TryInsertError::Refused(refused)),
        }
    }
}
