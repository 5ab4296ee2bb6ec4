//! Mutable borrows of all values of a table.
ghost use Rattle.std.specs.Prelude.{◌≡◌, ◌≤◌, length, map};
ghost use Rattle.std.specs.Borrow.{sem};
ghost use Rattle.aa_raw.specs.EntriesMut.{borrow_name, places_left};
ghost use Rattle.allocator_api2.specs.Places.{somes};
ghost use Rattle.aa_table.specs.IterMut.{values, KeepsKeys};
ghost use Rattle.aa_table.specs.Places.{tags_of, AreFree, AreHeld};
ghost use Rattle.aa_table.specs.Walks.{AreGroups};

use super::Table;
use crate::index::{HashIndex, tags_in};
use crate::iter_mut::{IterMut, ValuesMut};
use allocator_api2::raw_vec::EntriesMut;
use std::alloc::Allocator;
use std::hash::{BuildHasher, Hash};

impl<K: Eq + Hash, V, S: BuildHasher, A: Allocator> Table<K, V, S, A> {
    ghost use Rattle.aa_table.specs.IterMutLends.{lends_values};

    // Borrows the index, and the entries in their places.
    fn lend(&mut self) -> (&Option<HashIndex<A>>, EntriesMut<'_, K, V>)
        ensures* writes_back { sem 𝓛 (lends_values K.row V.row S.row A.row S.Hasher.row
            K.Hash S.BuildHasher S.Hasher.Hasher A.Allocator self.entry (borrow_name result.1)) }
        ensures entries { somes (places_left result.1) ≡ self.old.entries }
        ensures indexed { AreHeld (tags_of result.0.now) (places_left result.1)
            × AreFree (tags_of result.0.now) (places_left result.1)
            × (length (tags_of result.0.now) ≤ length (places_left result.1))
            × AreGroups (tags_of result.0.now) }
    {
        let entries = self.places.entries_mut();
        (&self.index, entries)
    }

    /// Returns an iterator over the keys and mutable references to their values.
    ///
    /// Each key is returned once, in the order of `iter`. When the borrow ends, each key has the
    /// last value written to it. Does not allocate.
    #[tactic(auto, using(crate::proofs::Values::kept_keys))]
    pub fn iter_mut(&mut self) -> IterMut<'_, K, V>
        ensures* writes_back { sem 𝓛 (lends_values K.row V.row S.row A.row S.Hasher.row
            K.Hash S.BuildHasher S.Hasher.Hasher A.Allocator self.entry result.borrow) }
        ensures keys { KeepsKeys self.old.entries }
        ensures entries { result.entries ≡ self.old.entries }
    {
        let count = self.count;
        let (index, entries) = self.lend();
        IterMut::over(tags_in(index), entries, count)
    }

    /// Returns an iterator over mutable references to the values, in the order of `iter`.
    ///
    /// When the borrow ends, each key has the last value written to it. Does not allocate.
    pub fn values_mut(&mut self) -> ValuesMut<'_, K, V>
        ensures* writes_back { sem 𝓛 (lends_values K.row V.row S.row A.row S.Hasher.row
            K.Hash S.BuildHasher S.Hasher.Hasher A.Allocator self.entry result.borrow) }
        ensures keys { KeepsKeys self.old.entries }
        ensures values { values result ≡ map (λ e. e.1) self.old.entries }
    {
        ValuesMut {
            rest: self.iter_mut(),
        }
    }
}

impl<'a, K: Eq + Hash, V, S: BuildHasher, A: Allocator> IntoIterator for &'a mut Table<K, V, S, A> {
    type Item = (&'a K, &'a mut V);

    type IntoIter = IterMut<'a, K, V>;

    ghost into_iter_gives = { λ table it. it.entries ≡ table.now.entries };

    fn into_iter(self) -> IterMut<'a, K, V> {
        self.iter_mut()
    }
}
