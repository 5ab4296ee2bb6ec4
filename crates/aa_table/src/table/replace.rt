//! Replacement of a stored key by an equal one.
ghost use Rattle.std.specs.Prelude.{◌≡◌, None, Some, IfErr, IfOk, OnErr, OnOk};
ghost use Rattle.std.specs.Map.{set_key};
ghost use Rattle.std.specs.Option.{option_map};
ghost use Rattle.aa_table.specs.Contents.{entry_of, value};

use super::Table;
use crate::index::{find_in, hash_of};
use std::alloc::Allocator;
use std::hash::{BuildHasher, Hash};
use std::mem;

impl<K: Eq + Hash, V, S: BuildHasher, A: Allocator> Table<K, V, S, A> {
    // Stores `key` in the place of the key that is equal to it, and returns that key, or returns
    // `key` if there is none.
    pub(crate) fn replace_key(&mut self, key: K) -> Result<K, K>
        // On success, the result is the old key. Its value does not change.
        ensures old { IfOk result (λ old.
            option_map (λ e. e.0) (entry_of K.eq self.old.entries key) ≡ Some old) }
        ensures replaced { OnOk result
            (self.new.entries ≡ set_key (K.eq key) self.old.entries key) }
        ensures capacity { self.new.capacity ≡ self.old.capacity }
        ensures resizes { self.new.resizes ≡ self.old.resizes }
        ensures builder { self.new.builder ≡ self.old.builder }

        // Otherwise the key is absent, and nothing changes.
        ensures returned { IfErr result (λ back. back ≡ key) }
        ensures absent { OnErr result (entry_of K.eq self.old.entries key ≡ None) }
        ensures unchanged { OnErr result (self.new ≡ self.old) }
    {
        let hash = hash_of(&self.builder, &key);
        match find_in(&self.index, &self.places, hash, &key) {
            Some(slot) => Ok(mem::replace(&mut self.places.place_mut(slot).0, key)),
            None => Err(key),
        }
    }
}
