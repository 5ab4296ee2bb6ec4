//! The ordered map: a map from keys to values, in the order of the keys.
ghost use Rattle.std.specs.Prelude.{◌≡◌, ◌+◌, ◌-◌, ◌*◌, ◌<◌, ◌↔◌, [], drop, is_some, length, max, take, true, IfErr, IfOk, IsOk, IsTrue, OnErr, OnOk, option_copied, option_map, slice_get};
ghost use Rattle.std.specs.Borrow.{sem};
ghost use Rattle.std.specs.Option.{option_copied_mut};
ghost use Rattle.std.specs.BTreeMap.{insert_entry, is_at};
ghost use Rattle.std.specs.Map.{lookup, lookup_entry, remove_entry};
ghost use Rattle.allocator_api2.specs.Errors.{IsErrorFor};
ghost use Rattle.aa_ordered.specs.Capacity.{requested, resizes_to, MayGrowForOne};
ghost use Rattle.aa_ordered.specs.Entries.{empty, value, IsOrdered};

use crate::leaves::Leaves;
use crate::lookup::Lookup;
use allocator_api2::collections::{Refused, TryReserveError};
use find::find;
use spots::{insert_at, remove_at};
use std::alloc::{AllocError, Allocator, Global};
use std::cmp::Ord;
use std::marker::Model;
use std::mem;

mod append;
mod capacity;
mod ends;
mod find;
mod retain;
mod split;
mod spots;
mod vacant;

/// An ordered map over any allocator: a B-tree of two levels.
///
/// A contract sees a map as the list of its entries, in the order of the keys, its capacity, and the
/// number of times that it moved to new blocks.
///
/// The entries are in leaves of one block, of at most 64 entries each, so that no leaf is an
/// allocation of its own. Two neighbouring leaves have at least 64 entries together.
pub struct OrderedMap<K: Ord, V, A: Allocator = Global> {
    pub(crate) leaves: Leaves<(K, V), A>,
    pub(crate) len: usize,
}

/// Why `try_insert` did not insert a key with its value, both of which it returns.
#[derive(Drop)]
pub enum TryInsertError<K, V> {
    /// The key is present.
    Occupied { key: K, value: V },
    /// The key is absent, and the map could not reserve capacity.
    Refused(Refused<(K, V)>),
}

impl<K: Ord, V, A: Allocator> Model for OrderedMap<K, V, A> {
    ghost use Rattle.aa_ordered.specs.Entries.{OrderedView};

    ghost Value = { OrderedView K V };

    ghost use Rattle.aa_ordered.specs.Inside.{view_of, IsMap};

    ghost view = { λ m. view_of m.leaves };

    ghost invariant = { λ m. IsMap K.cmp m.leaves m.len };
}

impl<K: Ord + Drop, V: Drop, A: Allocator> Drop for OrderedMap<K, V, A> {
    fn drop(self) {
        let OrderedMap { leaves, len: _ } = self;
        drop(leaves);
    }
}

impl<K: Ord, V, A: Allocator> OrderedMap<K, V, A> {
    ghost use Rattle.aa_ordered.specs.Leaves.{items};

    // Consumes the map and returns its leaves.
    pub(crate) fn into_leaves(self) -> Leaves<(K, V), A>
        ensures entries { items result ≡ self.entries }
        ensures ordered { IsOrdered K.cmp self.entries }
    {
        let OrderedMap { leaves, len: _ } = self;
        leaves
    }
}

impl<K: Ord, V, A: Allocator + Copy> OrderedMap<K, V, A> {
    /// Returns an empty map.
    ///
    /// Does not allocate.
    pub fn new_in(alloc: A) -> Self
        ensures { result ≡ empty }
    {
        OrderedMap {
            leaves: Leaves::new_in(alloc, alloc),
            len: 0,
        }
    }
}

impl<K: Ord, V, A: Allocator + Clone> OrderedMap<K, V, A> {
    /// Like `new_in`, but for an allocator that is cloned, and may fail to be.
    ///
    /// # Errors
    /// The error of `alloc.clone()`.
    pub fn try_new_in(alloc: A) -> Result<Self, AllocError>
        ensures { IfOk result (λ m. m ≡ empty) }
    {
        let other = alloc.clone()?;
        let leaves = Leaves::new_in(alloc, other);
        Ok(OrderedMap { leaves, len: 0 })
    }
}

impl<K: Ord, V, A: Allocator> OrderedMap<K, V, A> {
    ghost use Rattle.aa_ordered.specs.Lends.{lends_value};

    /// Returns a reference to the underlying allocator.
    pub fn allocator(&self) -> &A {
        self.leaves.allocator()
    }

    /// Returns the number of entries.
    pub fn len(&self) -> usize
        ensures len { result ≡ length self.now.entries }
        ensures ordered { IsOrdered K.cmp self.now.entries }
    {
        self.len
    }

    /// Returns `true` if the map has no entries.
    pub fn is_empty(&self) -> bool
        ensures { IsTrue result ↔ (self.now.entries ≡ []) }
    {
        self.len == 0
    }

    /// Returns the number of entries that the map can always hold without another allocation.
    ///
    /// Depending on their keys, it may hold up to twice as many.
    pub fn capacity(&self) -> usize
        ensures { result ≡ self.now.capacity }
    {
        let room = self.leaves.room();
        if room == 0 {
            return 0;
        }
        self.leaves.prove_bounds();
        (room + 1) * 32
    }

    /// Returns a reference to the value of `key`, or `None` if the key is absent.
    ///
    /// `key` is a `&K`, or a borrowed form of the key, as a `&str` for a text (`Lookup`).
    pub fn get<Q: Lookup<K>>(&self, key: Q) -> Option<&V>
        ensures { option_copied result ≡ lookup (is_at (Q.order key)) self.now.entries }
    {
        match find(&self.leaves, key) {
            Ok(spot) => Some(&self.leaves.list(spot.list)[spot.at].1),
            Err(_) => None,
        }
    }

    /// Returns references to the key that is equal to `key` and its value, or `None` if the key is
    /// absent.
    ///
    /// `key` may be a borrowed form of the key, as for `get`.
    pub fn get_key_value<Q: Lookup<K>>(&self, key: Q) -> Option<(&K, &V)>
        ensures { option_map (λ p. (p.0.now, p.1.now)) result
            ≡ lookup_entry (is_at (Q.order key)) self.now.entries }
    {
        match find(&self.leaves, key) {
            Ok(spot) => {
                let entry = &self.leaves.list(spot.list)[spot.at];
                Some((&entry.0, &entry.1))
            }
            Err(_) => None,
        }
    }

    /// Returns `true` if the map has a value for `key`.
    ///
    /// `key` may be a borrowed form of the key, as for `get`.
    pub fn contains_key<Q: Lookup<K>>(&self, key: Q) -> bool
        ensures { result ≡ is_some (lookup (is_at (Q.order key)) self.now.entries) }
    {
        self.get(key).is_some()
    }

    /// Returns a mutable reference to the value of `key`, or `None` if the key is absent.
    ///
    /// `key` may be a borrowed form of the key, as for `get`.
    pub fn get_mut<Q: Lookup<K>>(&mut self, key: Q) -> Option<&mut V>
        ensures* writes_back { sem 𝓛 (lends_value K.row V.row A.row K.Ord A.Allocator self.entry
            (is_at (Q.order key)) result) }
        ensures value { option_copied_mut result
            ≡ lookup (is_at (Q.order key)) self.old.entries }
    {
        match find(&self.leaves, key) {
            Ok(spot) => Some(&mut self.leaves.item_mut(spot.list, spot.at).1),
            Err(_) => None,
        }
    }
}

impl<K: Ord + Drop, V, A: Allocator + Clone> OrderedMap<K, V, A> {
    /// Inserts `key` with the value `item`, and returns the old value of the key, if it had one.
    ///
    /// A key that is present remains, and `key` is dropped. Allocates only if the key is absent and
    /// the map has as many entries as its capacity, or more, and then at least doubles the number
    /// of leaves.
    ///
    /// # Errors
    /// `CapacityOverflow` if the bytes exceed `isize::MAX`; `AllocError` with the number of entries
    /// in the requested leaves if an allocation fails. The map is unchanged, and key and value are
    /// returned in the error.
    pub fn insert(&mut self, key: K, item: V) -> Result<Option<V>, Refused<(K, V)>>
        // If the key is present, or there is capacity, it succeeds without an allocation.
        ensures there { is_some (value K.cmp self.old.entries key) ≡ true → IsOk result }
        ensures fits { length self.old.entries < self.old.capacity → IsOk result }

        // On success, the key has the new value, and the old value is returned.
        ensures old { IfOk result (λ old. old ≡ value K.cmp self.old.entries key) }
        ensures inserted { OnOk result
            (self.new.entries ≡ insert_entry K.cmp self.old.entries key item) }

        // The capacity changes only by an allocation, and to that of the requested leaves.
        ensures kept { is_some (value K.cmp self.old.entries key) ≡ true
            → self.new.capacity ≡ self.old.capacity }
        ensures capacity { length self.old.entries < self.old.capacity
            → self.new.capacity ≡ self.old.capacity }
        ensures grown { MayGrowForOne self.old self.new }
        ensures resizes { self.new.resizes ≡ resizes_to self.old self.new.capacity }

        // An error returns key and value, says why it failed, and leaves the map unchanged.
        ensures returned { IfErr result (λ r. r.source ≡ (key, item)) }
        ensures error { IfErr result (λ r. IsErrorFor r.error (requested self.old 1)) }
        ensures unchanged { OnErr result (self.new ≡ self.old) }
    {
        match find(&self.leaves, &key) {
            Ok(spot) => {
                let value = &mut self.leaves.item_mut(spot.list, spot.at).1;
                Ok(Some(mem::replace(value, item)))
            }
            Err(spot) => {
                insert_at(&mut self.leaves, spot, (key, item))?;
                self.leaves.prove_bounds();
                self.len += 1;
                Ok(None)
            }
        }
    }
}

impl<K: Ord, V, A: Allocator> OrderedMap<K, V, A> {
    /// Removes `key` and returns the key that was stored and its value, or `None` if it is absent.
    ///
    /// `key` may be a borrowed form of the key, as for `get`. Does not allocate, and does not change
    /// the capacity.
    pub fn remove_entry<Q: Lookup<K>>(&mut self, key: Q) -> Option<(K, V)>
        ensures old { result ≡ lookup_entry (is_at (Q.order key)) self.old.entries }
        ensures removed { self.new ≡ record self.old {
          entries = remove_entry (is_at (Q.order key)) self.old.entries;
        } }
    {
        match find(&self.leaves, key) {
            Ok(spot) => {
                let entry = remove_at(&mut self.leaves, spot);
                self.len -= 1;
                Some(entry)
            }
            Err(_) => None,
        }
    }
}

impl<K: Ord + Drop, V: Drop, A: Allocator> OrderedMap<K, V, A> {
    /// Removes all entries, and drops them in the order of the keys.
    ///
    /// Does not allocate, and does not change the capacity.
    pub fn clear(&mut self)
        ensures { self.new ≡ record self.old { entries = [] } }
    {
        self.leaves.clear();
        self.len = 0;
    }
}

impl<K: Ord + Drop, V, A: Allocator> OrderedMap<K, V, A> {
    /// Removes `key` and returns its value, or `None` if the key is absent.
    ///
    /// `key` may be a borrowed form of the key, as for `get`. Does not allocate, and does not change
    /// the capacity.
    pub fn remove<Q: Lookup<K>>(&mut self, key: Q) -> Option<V>
        ensures old { result ≡ lookup (is_at (Q.order key)) self.old.entries }
        ensures removed { self.new ≡ record self.old {
          entries = remove_entry (is_at (Q.order key)) self.old.entries;
        } }
    {
        match self.remove_entry(key) {
            Some((_, item)) => Some(item),
            None => None,
        }
    }
}
