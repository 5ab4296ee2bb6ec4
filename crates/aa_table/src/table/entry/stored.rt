//! The stored entry of a key that is present.
ghost use Rattle.std.specs.Prelude.{◌≡◌, Some, true, is_some};
ghost use Rattle.std.specs.Borrow.{sem};
ghost use Rattle.aa_table.specs.Contents.{entry_of, value};
ghost use Rattle.aa_table.specs.Removing.{Removes};

use crate::index::find_near;
use crate::table::Table;
use std::alloc::Allocator;
use std::hash::{BuildHasher, Hash};

impl<K: Eq + Hash, V, S: BuildHasher, A: Allocator> Table<K, V, S, A> {
    ghost use Rattle.aa_table.specs.Lends.{lends_there};

    // Returns references to the stored key and the value of `key`, which is present.
    //
    // Looks in the slot `hint` first.
    #[inline]
    pub(crate) fn stored(&self, hint: usize, key: &K) -> (&K, &V)
        requires there { is_some (value K.eq self.now.entries key.now) ≡ true }
        ensures { entry_of K.eq self.now.entries key.now ≡ Some (result.0.now, result.1.now) }
    {
        match find_near(&self.builder, &self.index, &self.places, hint, key) {
            Some(slot) => {
                let entry = self.places.place(slot);
                (&entry.0, &entry.1)
            }
            None => unreachable!(),
        }
    }

    // Returns a mutable reference to the value of `key`, which is present.
    //
    // Looks in the slot `hint` first. Preserves the keys and their order.
    #[inline]
    pub(crate) fn stored_mut(&mut self, hint: usize, key: &K) -> &mut V
        requires there { is_some (value K.eq self.old.entries key.now) ≡ true }
        ensures* writes_back { sem 𝓛 (lends_there K.row V.row S.row A.row S.Hasher.row
            K.Hash S.BuildHasher S.Hasher.Hasher A.Allocator self.entry key.now result) }
        ensures value { value K.eq self.old.entries key.now ≡ Some result.now }
    {
        match find_near(&self.builder, &self.index, &self.places, hint, key) {
            Some(slot) => &mut self.places.place_mut(slot).1,
            None => unreachable!(),
        }
    }
}

impl<K: Eq + Hash + Drop, V: Drop, S: BuildHasher, A: Allocator + Clone> Table<K, V, S, A> {
    // Removes `key`, which is present, and returns the stored key and its value.
    pub(crate) fn take(&mut self, key: &K) -> (K, V)
        requires there { is_some (value K.eq self.old.entries key.now) ≡ true }
        ensures entry { entry_of K.eq self.old.entries key.now ≡ Some result }
        ensures removed { Removes K.eq self.old key.now self.new }
    {
        match self.remove_entry(key) {
            Some(entry) => entry,
            None => unreachable!(),
        }
    }
}
