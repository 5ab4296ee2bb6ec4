//! Insertion of a key that is absent, and the value of one that is present.
ghost use Rattle.std.specs.Prelude.{◌≡◌, ◌<◌, is_some, length, true, None, Some, IfErr, IfOk, IsOk, OnOk};
ghost use Rattle.std.specs.Borrow.{sem};
ghost use Rattle.std.specs.BTreeMap.{insert_entry};
ghost use Rattle.std.specs.Map.{keys_of};
ghost use Rattle.allocator_api2.specs.Errors.{IsErrorFor};
ghost use Rattle.aa_ordered.specs.Capacity.{requested};
ghost use Rattle.aa_ordered.specs.Entries.{entry_of, value, without};

use super::find::find;
use super::spots::insert_at;
use super::{OrderedMap, TryInsertError};
use allocator_api2::collections::Refused;
use std::alloc::Allocator;
use std::cmp::Ord;

impl<K: Ord + Drop, V: Drop, A: Allocator + Clone> OrderedMap<K, V, A> {
    ghost use Rattle.aa_ordered.specs.Inserting.{lends_inserted};
    ghost use Rattle.aa_ordered.specs.TryInserting.{TryInsertFails};

    // Inserts `key`, which is absent, with the value `item`, and returns a mutable reference to the
    // value.
    pub(crate) fn insert_vacant(&mut self, key: K, item: V) -> Result<&mut V, Refused<(K, V)>>
        requires { value K.cmp self.old.entries key ≡ None }
        ensures* writes_back { sem 𝓛 (lends_inserted K.row V.row A.row K.Ord A.Allocator self.entry
            key result) }
        ensures value { IfOk result (λ v. v.now ≡ item) }
        ensures fits { length self.old.entries < self.old.capacity → IsOk result }
        ensures returned { IfErr result (λ r. r.source ≡ (key, item)) }
        ensures error { IfErr result (λ r. IsErrorFor r.error (requested self.old 1)) }
    {
        let spot = match find(&self.leaves, &key) {
            Ok(_) => unreachable!(),
            Err(spot) => spot,
        };
        match insert_at(&mut self.leaves, spot, (key, item)) {
            Ok(to) => {
                self.leaves.prove_bounds();
                self.len += 1;
                Ok(&mut self.leaves.item_mut(to.list, to.at).1)
            }
            Err(refused) => Err(refused),
        }
    }

    // Removes `key`, which is present, and returns the stored key and its value.
    pub(crate) fn take(&mut self, key: &K) -> (K, V)
        requires { is_some (value K.cmp self.old.entries key.now) ≡ true }
        ensures entry { entry_of K.cmp self.old.entries key.now ≡ Some result }
        ensures removed { self.new
            ≡ record self.old { entries = without K.cmp self.old.entries key.now } }
    {
        match self.remove_entry(key) {
            Some(entry) => entry,
            None => unreachable!(),
        }
    }

    /// Inserts `key` with the value `item`, if the key is absent, and returns a mutable reference
    /// to the value.
    ///
    /// When the borrow ends, the key has the last value written to it. Allocates only if the key is
    /// absent and the map has as many entries as its capacity, or more.
    ///
    /// # Errors
    /// `Occupied` if the key is present; otherwise the errors of `insert`. The map is unchanged,
    /// and key and value are returned in the error.
    pub fn try_insert(&mut self, key: K, item: V) -> Result<&mut V, TryInsertError<K, V>>
        // If the key is absent and there is capacity, it succeeds.
        ensures fits { value K.cmp self.old.entries key ≡ None
            → length self.old.entries < self.old.capacity → IsOk result }

        // On success, the key was absent, and has the last value written when the borrow ends. An
        // error leaves the map unchanged.
        ensures* writes_back { sem 𝓛 (lends_inserted K.row V.row A.row K.Ord A.Allocator self.entry
            key result) }
        ensures new { OnOk result (value K.cmp self.old.entries key ≡ None) }
        ensures value { IfOk result (λ v. v.now ≡ item) }

        // An error returns key and value, and says why it failed.
        ensures error { IfErr result (TryInsertFails K.cmp self.old key item) }
    {
        if self.contains_key(&key) {
            return Err(TryInsertError::Occupied { key, value: item });
        }
        match self.insert_vacant(key, item) {
            Ok(value) => Ok(value),
            Err(refused) => Err(TryInsertError::Refused(refused)),
        }
    }
}

impl<K: Ord, V, A: Allocator> OrderedMap<K, V, A> {
    ghost use Rattle.aa_ordered.specs.Lends.{lends_there};

    // Returns a mutable reference to the value of `key`, which is present. The keys do not change.
    pub(crate) fn stored_mut(&mut self, key: &K) -> &mut V
        requires { is_some (value K.cmp self.old.entries key.now) ≡ true }
        ensures* writes_back { sem 𝓛 (lends_there K.row V.row A.row K.Ord A.Allocator self.entry
            key.now result) }
        ensures value { value K.cmp self.old.entries key.now ≡ Some result.now }
        ensures keys { (v : V) → keys_of (insert_entry K.cmp self.old.entries key.now v)
            ≡ keys_of self.old.entries }
    {
        match find(&self.leaves, key) {
            Ok(spot) => &mut self.leaves.item_mut(spot.list, spot.at).1,
            Err(_) => unreachable!(),
        }
    }
}
