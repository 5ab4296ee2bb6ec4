//! The hash table: a finite map from keys to values, by the equality of the keys.
ghost use Rattle.std.specs.Prelude.{◌≡◌, ◌+◌, ◌-◌, ◌<◌, ◌≤◌, [], ◌∷◌, None, Some, IfOk, IfErr, OnOk, OnErr, IsOk, IsSome, option_copied, option_map, is_some, map, max, min, if◌then◌else◌, true, false, length, ◌==◌, IsPermutation};
ghost use Rattle.std.specs.Borrow.{sem};
ghost use Rattle.std.specs.Map.{lookup, lookup_entry, remove_entry, set_value};
ghost use Rattle.std.specs.Option.{option_copied_mut};
ghost use Rattle.allocator_api2.specs.declared.collections.TryReserveErrorKind.TheVariants.{AllocError, CapacityOverflow};
ghost use Rattle.aa_table.specs.Full.{LacksRoom};
ghost use Rattle.aa_table.specs.Contents.{empty, value, keys_like, Sets, SetsBy, IsMap, HasRoom, capacity_for, resizes_for, fresh_capacity, fresh_resizes, shrunk_capacity, max_keys};
ghost use Rattle.aa_table.specs.Shrinking.{CountsShrink, SameSlots};
ghost use Rattle.aa_table.specs.Places.{hashes};

use crate::growth::{MIN_CAPACITY, drop_between, fit, fresh_capacity, resize};
use crate::index::{HashIndex, find_in, hash_of, tags_in};
use crate::into_parts::{IntoKeys, IntoValues};
use crate::iter::{IntoIter, Iter, Keys, Values};
use crate::lookup::Lookup;
use allocator_api2::collections::{Refused, TryReserveError, TryReserveErrorKind};
use allocator_api2::counter::Counter;
use allocator_api2::raw_vec::RawVec;
use std::alloc::{Allocator, Global};
use std::hash::{BuildHasher, BuildHasherDefault, FoldHasher, Hash};
use std::marker::Model;
use std::mem;
use std::ops::Index;

pub mod drain;
pub mod entry;
mod lend;
mod replace;
mod retain;
mod vacant;

// The most keys for which `reserve` allocates.
const MAX_KEYS: usize = 2_000_000_000;

/// A hash table over any allocator that can be cloned.
///
/// A contract sees a table as its entries, its capacity, the number of times that it moved to new
/// blocks, and the builder of its hashers. Each key has a home slot, and each slot a tag: a byte of
/// the hash of its key.
pub struct Table<
    K: Eq + Hash,
    V,
    S: BuildHasher = BuildHasherDefault<FoldHasher>,
    A: Allocator = Global,
> {
    // each key with its value, in the place with the number of its slot
    places: RawVec<(K, V), A>,
    // `None` until the table first allocates
    index: Option<HashIndex<A>>,
    builder: S,
    count: usize,
    capacity: usize,
    // how often the table moved to new blocks
    resizes: Counter,
}

/// Why `try_insert` did not insert a key with its value, both of which it returns.
#[derive(Drop)]
pub enum TryInsertError<K, V> {
    /// The key is present.
    Occupied { key: K, value: V },
    /// The table is full, and could not reserve capacity.
    Refused(Refused<(K, V)>),
}

impl<K: Eq + Hash, V, S: BuildHasher, A: Allocator> Model for Table<K, V, S, A> {
    ghost use Rattle.aa_table.specs.Contents.{TableView};

    ghost Value = { TableView K V S };

    ghost use Rattle.aa_table.specs.Places.{hashes, IsTable};
    ghost use Rattle.aa_table.specs.Inside.{view_of};

    ghost view = { λ t. view_of t.builder t.places.places t.capacity t.resizes.count };

    ghost invariant = { λ t. IsTable K.eq
        (hashes S.BuildHasher S.Hasher.Hasher K.hash_input t.builder)
        t.places t.index t.count t.capacity };
}

impl<K: Eq + Hash + Drop, V: Drop, S: BuildHasher + Drop, A: Allocator> Drop for Table<K, V, S, A> {
    fn drop(self) {
        let Table {
            mut places,
            index,
            builder,
            count: _,
            capacity: _,
            resizes: _,
        } = self;
        let tags = tags_in(&index);
        drop_between(tags, &mut places, 0, tags.len());
        drop(index);
        drop(builder);
    }
}

impl<K: Eq + Hash + Drop, V: Drop, A: Allocator + Clone> Table<
    K,
    V,
    BuildHasherDefault<FoldHasher>,
    A,
> {
    /// Returns an empty table with the toolchain's hasher.
    ///
    /// Does not allocate.
    pub fn new_in(alloc: A) -> Self
        ensures entries { result.entries ≡ [] }
        ensures capacity { result.capacity ≡ 0 }
        ensures resizes { result.resizes ≡ 0 }
    {
        Table::with_hasher_in(BuildHasherDefault::new(), alloc)
    }

    /// Returns an empty table with capacity for `capacity` keys or more.
    ///
    /// Uses the toolchain's hasher. The capacity is 0 for 0 keys, and at least 14 for more.
    /// Does not allocate if `capacity` is 0.
    ///
    /// # Errors
    /// `CapacityOverflow` if `capacity` is more than 2,000,000,000 or the bytes exceed
    /// `isize::MAX`; `AllocError` with the greater of `capacity` and 14 if the allocation fails.
    pub fn with_capacity_in(capacity: usize, alloc: A) -> Result<Self, TryReserveError>
        ensures entries { IfOk result (λ t. t.entries ≡ []) }
        ensures room { IfOk result (λ t. capacity ≤ t.capacity) }
        ensures made { IfOk result (λ t. t.capacity ≡ fresh_capacity capacity) }
        ensures resizes { IfOk result (λ t. t.resizes ≡ fresh_resizes capacity) }
        ensures error { IfErr result (LacksRoom 0 0 capacity (max capacity 14)) }
    {
        Table::with_capacity_and_hasher_in(capacity, BuildHasherDefault::new(), alloc)
    }
}

impl<K: Eq + Hash + Drop, V: Drop, S: BuildHasher + Drop, A: Allocator + Clone> Table<K, V, S, A> {
    /// Returns an empty table with capacity for `capacity` keys or more, whose hashers are made by
    /// `builder`.
    ///
    /// The capacity is 0 for 0 keys, and at least 14 for more. Does not allocate if `capacity` is 0.
    ///
    /// # Errors
    /// As for `with_capacity_in`.
    #[tactic(auto, using(crate::proofs::Maps::none_permuted))]
    pub fn with_capacity_and_hasher_in(
        capacity: usize,
        builder: S,
        alloc: A,
    ) -> Result<Self, TryReserveError>
        ensures entries { IfOk result (λ t. t.entries ≡ []) }
        ensures room { IfOk result (λ t. capacity ≤ t.capacity) }
        ensures made { IfOk result (λ t. t.capacity ≡ fresh_capacity capacity) }
        ensures resizes { IfOk result (λ t. t.resizes ≡ fresh_resizes capacity) }
        ensures builder { IfOk result (λ t. t.builder ≡ builder) }
        ensures error { IfErr result (LacksRoom 0 0 capacity (max capacity 14)) }
    {
        let mut table = Table::with_hasher_in(builder, alloc);
        table.reserve(capacity)?;
        Ok(table)
    }
}

impl<K: Eq + Hash, V, S: BuildHasher, A: Allocator> Table<K, V, S, A> {
    ghost use Rattle.aa_table.specs.Lends.{lends_value};

    /// Returns an empty table whose hashers are made by `builder`.
    ///
    /// Does not allocate.
    pub fn with_hasher_in(builder: S, alloc: A) -> Self
        ensures { result ≡ empty builder }
    {
        Table {
            places: RawVec::new_in(alloc),
            index: None,
            builder,
            count: 0,
            capacity: 0,
            resizes: Counter::zero(),
        }
    }

    /// Returns a reference to the builder of the hashers.
    pub fn hasher(&self) -> &S
        ensures { result.now ≡ self.now.builder }
    {
        &self.builder
    }

    /// Returns a reference to the underlying allocator.
    pub fn allocator(&self) -> &A {
        self.places.allocator()
    }

    /// Returns the number of keys, each of which is counted once.
    pub fn len(&self) -> usize
        ensures count { result ≡ length self.now.entries }
        ensures once { IsMap K.eq self.now.entries }
        ensures within { result ≤ self.now.capacity }
    {
        self.count
    }

    /// Returns `true` if the table has no keys.
    pub fn is_empty(&self) -> bool
        ensures { result ≡ (length self.now.entries == 0) }
    {
        self.count == 0
    }

    /// Returns the number of keys that the table can hold without another allocation.
    pub fn capacity(&self) -> usize
        ensures { result ≡ self.now.capacity }
    {
        self.capacity
    }

    /// Returns the number of new keys that can be inserted without another allocation.
    pub fn room(&self) -> usize
        ensures { result ≡ self.now.capacity - length self.now.entries }
    {
        self.capacity - self.count
    }

    /// Returns a reference to the value of `key`, or `None` if the key is absent.
    ///
    /// `key` is a `&K`, or a borrowed form of the key, as a `&str` for a text (`Lookup`).
    #[inline]
    pub fn get<Q: Lookup<K>>(&self, key: Q) -> Option<&V>
        ensures { option_copied result ≡ lookup (Q.matches key) self.now.entries }
    {
        let hash = hash_of(&self.builder, &key);
        match find_in(&self.index, &self.places, hash, key) {
            Some(slot) => Some(&self.places.place(slot).1),
            None => None,
        }
    }

    /// Returns references to the stored key and the value of `key`, or `None` if the key is absent.
    ///
    /// `key` may be a borrowed form of the key, as for `get`. The stored key matches it.
    #[inline]
    pub fn get_key_value<Q: Lookup<K>>(&self, key: Q) -> Option<(&K, &V)>
        ensures { option_map (λ e. (e.0.now, e.1.now)) result
            ≡ lookup_entry (Q.matches key) self.now.entries }
    {
        let hash = hash_of(&self.builder, &key);
        match find_in(&self.index, &self.places, hash, key) {
            Some(slot) => {
                let entry = self.places.place(slot);
                Some((&entry.0, &entry.1))
            }
            None => None,
        }
    }

    /// Returns `true` if the table has a value for `key`.
    ///
    /// `key` may be a borrowed form of the key, as for `get`.
    #[inline]
    pub fn contains_key<Q: Lookup<K>>(&self, key: Q) -> bool
        ensures { result ≡ is_some (lookup (Q.matches key) self.now.entries) }
    {
        self.get(key).is_some()
    }

    /// Returns a mutable reference to the value of `key`, or `None` if the key is absent.
    ///
    /// `key` may be a borrowed form of the key, as for `get`. Preserves the keys and their order.
    #[inline]
    pub fn get_mut<Q: Lookup<K>>(&mut self, key: Q) -> Option<&mut V>
        ensures* writes_back { sem 𝓛 (lends_value K.row V.row S.row A.row S.Hasher.row
            K.Hash S.BuildHasher S.Hasher.Hasher A.Allocator self.entry (Q.matches key) result) }
        ensures value { option_copied_mut result ≡ lookup (Q.matches key) self.old.entries }
    {
        let hash = hash_of(&self.builder, &key);
        match find_in(&self.index, &self.places, hash, key) {
            Some(slot) => Some(&mut self.places.place_mut(slot).1),
            None => None,
        }
    }

    /// Returns an iterator over the keys and their values.
    ///
    /// Each key is returned once. The order is not specified.
    pub fn iter(&self) -> Iter<'_, K, V, A>
        ensures { result ≡ self.now.entries }
    {
        let tags = tags_in(&self.index);
        Iter::over(tags, &self.places, self.count)
    }

    /// Returns an iterator over the keys, in the order of `iter`.
    pub fn keys(&self) -> Keys<'_, K, V, A>
        ensures { result ≡ map (λ e. e.0) self.now.entries }
    {
        Keys { rest: self.iter() }
    }

    /// Returns an iterator over the values, in the order of `iter`.
    pub fn values(&self) -> Values<'_, K, V, A>
        ensures { result ≡ map (λ e. e.1) self.now.entries }
    {
        Values { rest: self.iter() }
    }
}

impl<K: Eq + Hash + Drop, V: Drop, S: BuildHasher, A: Allocator + Clone> Table<K, V, S, A> {
    // Inserts an absent key into a free slot of a table that is not full.
    #[inline(always)]
    fn add(&mut self, hash: u64, key: K, item: V)
        // The key is absent, and the table is not full.
        requires hash { hash
            ≡ hashes S.BuildHasher S.Hasher.Hasher K.hash_input self.old.builder key }
        requires room { HasRoom self.old 1 }
        requires absent { keys_like K.eq key self.old.entries ≡ 0 }

        // The table has the entry too. Only the order of the others may change.
        ensures added { IsPermutation ((key, item) ∷ self.old.entries) self.new.entries }
        ensures capacity { self.new.capacity ≡ self.old.capacity }
        ensures resizes { self.new.resizes ≡ self.old.resizes }
        ensures builder { self.new.builder ≡ self.old.builder }
    {
        match &mut self.index {
            Some(index) => {
                index.put_new(&mut self.places, hash, (key, item));
            }
            None => unreachable!(),
        }
        self.count += 1;
    }

    // Like `add`, but never inlined: the cold path of `insert`, after the table has grown.
    #[cold]
    #[inline(never)]
    fn add_slow(&mut self, hash: u64, key: K, item: V)
        // The key is absent, and the table is not full.
        requires hash { hash
            ≡ hashes S.BuildHasher S.Hasher.Hasher K.hash_input self.old.builder key }
        requires room { HasRoom self.old 1 }
        requires absent { keys_like K.eq key self.old.entries ≡ 0 }

        // The table has the entry too. Only the order of the others may change.
        ensures added { IsPermutation ((key, item) ∷ self.old.entries) self.new.entries }
        ensures capacity { self.new.capacity ≡ self.old.capacity }
        ensures resizes { self.new.resizes ≡ self.old.resizes }
        ensures builder { self.new.builder ≡ self.old.builder }
    {
        self.add(hash, key, item);
    }

    // Inserts an absent key, and first reserves capacity for it if the table is full.
    #[inline(always)]
    fn insert_new(&mut self, hash: u64, key: K, item: V) -> Result<(), Refused<(K, V)>>
        requires hash { hash
            ≡ hashes S.BuildHasher S.Hasher.Hasher K.hash_input self.old.builder key }
        requires absent { keys_like K.eq key self.old.entries ≡ 0 }

        // On success, the table has the entry too. Only the order of the others may change.
        ensures fits { HasRoom self.old 1 → IsOk result }
        ensures added { OnOk result
            (IsPermutation ((key, item) ∷ self.old.entries) self.new.entries) }
        ensures made { OnOk result (self.new.capacity ≡ capacity_for self.old 1) }
        ensures resizes { OnOk result (self.new.resizes ≡ resizes_for self.old 1) }
        ensures builder { self.new.builder ≡ self.old.builder }

        // An error is that of `reserve(1)`.
        ensures returned { IfErr result (λ r. r.source ≡ (key, item)) }
        ensures error { IfErr result
            (λ r. LacksRoom self.old.capacity (length self.old.entries) 1 (capacity_for self.old 1)
            r.error) }
        ensures unchanged { OnErr result (self.new ≡ self.old) }
    {
        if self.room() > 0 {
            self.add(hash, key, item);
            return Ok(());
        }
        if let Err(error) = self.reserve(1) {
            return Err(Refused {
                source: (key, item),
                error,
            });
        }
        self.add_slow(hash, key, item);
        Ok(())
    }

    /// Inserts `key` with the value `item`, and returns the old value of the key, if it had one.
    ///
    /// A key that is present is kept, and `key`, which is equal to it, is dropped.
    /// Allocates only if the key is absent and the table is full, and then as `reserve(1)` does.
    ///
    /// # Errors
    /// The errors of `reserve(1)`. The table is unchanged, and key and value are returned in the
    /// error.
    #[inline]
    pub fn insert(&mut self, key: K, item: V) -> Result<Option<V>, Refused<(K, V)>>
        // If the table is not full, it succeeds.
        ensures fits { HasRoom self.old 1 → IsOk result }

        // On success, the key has the new value, and the old value is returned.
        ensures old { IfOk result (λ old. old ≡ value K.eq self.old.entries key) }
        ensures inserted { OnOk result
            (Sets K.eq self.old.entries key (Some item) self.new.entries) }

        // The entry of a key that is present keeps its key and its place in the order. A new key
        // may change the order of the others.
        ensures written { IfOk result (λ old. is_some old ≡ true →
            self.new.entries ≡ set_value (K.eq key) self.old.entries item) }
        ensures added { IfOk result (λ old. is_some old ≡ false →
            IsPermutation ((key, item) ∷ self.old.entries) self.new.entries) }

        // The number of keys and the capacity grow only for a new key.
        ensures one_more { IfOk result (λ old. is_some old ≡ false →
            length self.new.entries ≡ length self.old.entries + 1) }
        ensures replaced_count { IfOk result (λ old. is_some old ≡ true →
            length self.new.entries ≡ length self.old.entries) }
        ensures made { IfOk result (λ old. is_some old ≡ false →
            self.new.capacity ≡ capacity_for self.old 1) }
        ensures replaced { IfOk result (λ old. is_some old ≡ true →
            self.new.capacity ≡ self.old.capacity) }

        // It moves to new blocks only for a new key, and only if the table was full.
        ensures resized { IfOk result (λ old. is_some old ≡ false →
            self.new.resizes ≡ resizes_for self.old 1) }
        ensures steady { IfOk result (λ old. is_some old ≡ true →
            self.new.resizes ≡ self.old.resizes) }

        // The builder does not change.
        ensures builder { self.new.builder ≡ self.old.builder }

        // An error returns key and value, says why it failed, and leaves the table unchanged.
        ensures returned { IfErr result (λ r. r.source ≡ (key, item)) }
        ensures new { OnErr result (value K.eq self.old.entries key ≡ None) }
        ensures error { IfErr result
            (λ r. LacksRoom self.old.capacity (length self.old.entries) 1 (capacity_for self.old 1)
            r.error) }
        ensures unchanged { OnErr result (self.new ≡ self.old) }
    {
        let hash = hash_of(&self.builder, &key);
        if let Some(slot) = find_in(&self.index, &self.places, hash, &key) {
            let old = mem::replace(&mut self.places.place_mut(slot).1, item);
            return Ok(Some(old));
        }
        match self.insert_new(hash, key, item) {
            Ok(()) => Ok(None),
            Err(refused) => Err(refused),
        }
    }

    /// Reserves capacity for at least `additional` new keys.
    ///
    /// Does not allocate if the capacity is already sufficient, and then changes nothing. Otherwise
    /// allocates new blocks and moves all keys, which may change their order. The new capacity is
    /// the greatest of twice the old one, the number of keys with `additional` more, and 14.
    ///
    /// # Errors
    /// `CapacityOverflow` if there would be more than 2,000,000,000 keys or the bytes exceed
    /// `isize::MAX`; `AllocError` with the requested capacity if the allocation fails.
    /// The table is unchanged. Blocks that were allocated before the one that failed are freed.
    #[inline]
    pub fn reserve(&mut self, additional: usize) -> Result<(), TryReserveError>
        // If the capacity is sufficient, it succeeds.
        ensures fits { HasRoom self.old additional → IsOk result }

        // On success, the capacity is exact, and sufficient.
        ensures made { OnOk result (self.new.capacity ≡ capacity_for self.old additional) }
        ensures resizes { OnOk result (self.new.resizes ≡ resizes_for self.old additional) }
        ensures enough { OnOk result (HasRoom self.new additional) }

        // An error says why it failed.
        ensures error { IfErr result (LacksRoom self.old.capacity (length self.old.entries)
            additional (capacity_for self.old additional)) }
        ensures overflow { IfErr result (λ e. max_keys < length self.old.entries + additional
            → e.kind ≡ CapacityOverflow) }

        // Only the order of the entries may change, and only if an allocation succeeds.
        ensures same { IsPermutation self.old.entries self.new.entries }
        ensures sufficient { HasRoom self.old additional → self.new ≡ self.old }
        ensures builder { self.new.builder ≡ self.old.builder }
        ensures unchanged { OnErr result (self.new ≡ self.old) }
    {
        let keys = self.count.saturating_add(additional);
        if keys <= self.capacity {
            return Ok(());
        }
        if keys > MAX_KEYS {
            return Err(TryReserveErrorKind::CapacityOverflow.into());
        }
        let capacity = (2 * self.capacity).max(keys).max(MIN_CAPACITY);
        resize(
            &self.builder,
            &mut self.places,
            &mut self.index,
            capacity,
            &mut self.resizes,
        )?;
        self.capacity = capacity;
        Ok(())
    }

    /// Removes `key` and returns its value, or `None` if the key is absent.
    ///
    /// `key` may be a borrowed form of the key, as for `get`.
    /// Preserves the order of the other keys. Does not allocate, and does not change the capacity:
    /// another key can then be inserted.
    #[inline]
    pub fn remove<Q: Lookup<K>>(&mut self, key: Q) -> Option<V>
        // It returns the value of the key, which then has none.
        ensures old { result ≡ lookup (Q.matches key) self.old.entries }
        ensures removed { SetsBy K.eq (Q.matches key) self.old.entries None self.new.entries }
        ensures taken { lookup (Q.matches key) self.new.entries ≡ None }
        ensures others { self.new.entries ≡ remove_entry (Q.matches key) self.old.entries }

        // If the key was present, there is one key less, and capacity for one more.
        ensures one_less { IsSome result
            → length self.new.entries + 1 ≡ length self.old.entries }
        ensures room { IsSome result → HasRoom self.new 1 }

        // Capacity and builder do not change, and no block is allocated. If the key was absent,
        // nothing changes.
        ensures capacity { self.new.capacity ≡ self.old.capacity }
        ensures resizes { self.new.resizes ≡ self.old.resizes }
        ensures builder { self.new.builder ≡ self.old.builder }
        ensures absent { result ≡ None → self.new ≡ self.old }
    {
        match self.remove_entry(key) {
            Some(entry) => Some(entry.1),
            None => None,
        }
    }

    /// Removes `key` and returns the stored key and its value, or `None` if the key is absent.
    ///
    /// `key` may be a borrowed form of the key, as for `get`. The stored key matches it.
    /// Preserves the order of the other keys. Does not allocate, and does not change the capacity:
    /// another key can then be inserted.
    #[inline]
    pub fn remove_entry<Q: Lookup<K>>(&mut self, key: Q) -> Option<(K, V)>
        // It returns the entry of the key, which then has none.
        ensures old { result ≡ lookup_entry (Q.matches key) self.old.entries }
        ensures removed { SetsBy K.eq (Q.matches key) self.old.entries None self.new.entries }
        ensures taken { lookup (Q.matches key) self.new.entries ≡ None }
        ensures others { self.new.entries ≡ remove_entry (Q.matches key) self.old.entries }

        // If the key was present, there is one key less, and capacity for one more.
        ensures one_less { IsSome result
            → length self.new.entries + 1 ≡ length self.old.entries }
        ensures room { IsSome result → HasRoom self.new 1 }

        // Capacity and builder do not change, and no block is allocated. If the key was absent,
        // nothing changes.
        ensures capacity { self.new.capacity ≡ self.old.capacity }
        ensures resizes { self.new.resizes ≡ self.old.resizes }
        ensures builder { self.new.builder ≡ self.old.builder }
        ensures absent { result ≡ None → self.new ≡ self.old }
    {
        let hash = hash_of(&self.builder, &key);
        let Some(slot) = find_in(&self.index, &self.places, hash, key) else {
            return None;
        };
        let entry = match &mut self.index {
            Some(index) => index.take_out(&mut self.places, hash, slot),
            None => unreachable!(),
        };
        self.count -= 1;
        Some(entry)
    }

    /// Shrinks the capacity to that of a new table for as many keys, if that is less.
    ///
    /// A new table for n keys has the capacity n, but at least 14, or 0 if n is 0.
    /// If the table is empty, frees all blocks and does not allocate. Otherwise allocates new
    /// blocks, which may change the order of the keys, unless they would have as many slots as
    /// before.
    ///
    /// # Errors
    /// `AllocError` with the requested capacity. The table is unchanged.
    pub fn shrink_to_fit(&mut self) -> Result<(), TryReserveError>
        // If nothing has to be allocated, it succeeds.
        ensures empty { length self.old.entries ≡ 0 → IsOk result }
        ensures fits { self.old.capacity ≤ fresh_capacity (length self.old.entries)
            → IsOk result }

        // On success, the capacity is that of a new table, or the old one if that is less.
        ensures shrunk { OnOk result (self.new.capacity
            ≡ min self.old.capacity (fresh_capacity (length self.old.entries))) }
        ensures resizes { OnOk result (CountsShrink
            (SameSlots self.old.capacity self.new.capacity) self.new.capacity
            self.old.resizes self.new.resizes) }
        ensures sufficient { self.old.capacity ≤ fresh_capacity (length self.old.entries)
            → self.new ≡ self.old }

        // The entries and the builder do not change, except for the order.
        ensures entries { IsPermutation self.old.entries self.new.entries }
        ensures builder { self.new.builder ≡ self.old.builder }

        // An error has the requested capacity, and leaves the table unchanged.
        ensures error { IfErr result
            (λ e. e.kind ≡ AllocError (fresh_capacity (length self.old.entries))) }
        ensures unchanged { OnErr result (self.new ≡ self.old) }
    {
        self.shrink_to(0)
    }

    /// Shrinks the capacity to that of a new table for `min_capacity` keys, or for as many as the
    /// table has if these are more. Changes nothing if the capacity is not more than that.
    ///
    /// A new table for n keys has the capacity n, but at least 14, or 0 if n is 0.
    /// If the table is empty and `min_capacity` is 0, frees all blocks and does not allocate.
    /// Otherwise allocates new blocks, which may change the order of the keys, unless they would
    /// have as many slots as before.
    ///
    /// # Errors
    /// `AllocError` with the requested capacity. The table is unchanged.
    pub fn shrink_to(&mut self, min_capacity: usize) -> Result<(), TryReserveError>
        // If nothing has to be allocated, it succeeds.
        ensures empty { max (length self.old.entries) min_capacity ≡ 0 → IsOk result }
        ensures fits { self.old.capacity ≤ shrunk_capacity (length self.old.entries) min_capacity
            → IsOk result }

        // On success, the capacity is that of a new table, or the old one if that is less.
        ensures shrunk { OnOk result (self.new.capacity
            ≡ min self.old.capacity (shrunk_capacity (length self.old.entries) min_capacity)) }
        ensures resizes { OnOk result (CountsShrink
            (SameSlots self.old.capacity self.new.capacity) self.new.capacity
            self.old.resizes self.new.resizes) }
        ensures sufficient { self.old.capacity
            ≤ shrunk_capacity (length self.old.entries) min_capacity → self.new ≡ self.old }

        // The entries and the builder do not change, except for the order.
        ensures entries { IsPermutation self.old.entries self.new.entries }
        ensures builder { self.new.builder ≡ self.old.builder }

        // An error has the requested capacity, and leaves the table unchanged.
        ensures error { IfErr result
            (λ e. e.kind ≡ AllocError (shrunk_capacity (length self.old.entries) min_capacity)) }
        ensures unchanged { OnErr result (self.new ≡ self.old) }
    {
        let requested = fresh_capacity(self.count.max(min_capacity));
        if self.capacity <= requested {
            return Ok(());
        }
        fit(
            &self.builder,
            &mut self.places,
            &mut self.index,
            requested,
            &mut self.resizes,
        )?;
        self.capacity = requested;
        Ok(())
    }
}

impl<K: Eq + Hash + Drop, V: Drop, S: BuildHasher, A: Allocator> Table<K, V, S, A> {
    /// Removes all keys and drops them with their values.
    ///
    /// Does not allocate, and does not change the capacity.
    pub fn clear(&mut self)
        ensures { self.new ≡ record self.old { entries = [] } }
    {
        self.count = 0;
        match &mut self.index {
            Some(index) => {
                let tags = index.tags.as_slice();
                drop_between(tags, &mut self.places, 0, tags.len());
                index.clear();
            }
            None => {}
        }
    }
}

impl<K: Eq + Hash + Drop, V: Drop, S: BuildHasher + Drop, A: Allocator> Table<K, V, S, A> {
    /// Consumes the table and returns an iterator over its keys and values.
    ///
    /// Does not allocate.
    pub fn into_iter(self) -> IntoIter<K, V, A>
        ensures { result ≡ self.entries }
    {
        let Table {
            places,
            index,
            builder,
            count,
            capacity: _,
            resizes: _,
        } = self;
        drop(builder);
        IntoIter::over(index, places, count)
    }

    /// Consumes the table and returns an iterator over its keys, in the order of `iter`.
    ///
    /// Does not allocate.
    pub fn into_keys(self) -> IntoKeys<K, V, A>
        ensures { result ≡ map (λ e. e.0) self.entries }
    {
        let keys = self.into_iter();
        IntoKeys { rest: keys }
    }

    /// Consumes the table and returns an iterator over its values, in the order of `iter`.
    ///
    /// Does not allocate.
    pub fn into_values(self) -> IntoValues<K, V, A>
        ensures { result ≡ map (λ e. e.1) self.entries }
    {
        let values = self.into_iter();
        IntoValues { rest: values }
    }
}

impl<K: Eq + Hash, V, S: BuildHasher, A: Allocator, Q: Lookup<K>> Index<Q> for Table<K, V, S, A> {
    type Output = V;

    ghost can_index = { λ t k. IsSome (lookup (Q.matches k) t.entries) };

    ghost index_gives = { λ t k v. lookup (Q.matches k) t.entries ≡ Some v };

    /// Returns a reference to the value of `key`, which must be present.
    fn index(&self, key: Q) -> &V {
        match self.get(key) {
            Some(value) => value,
            None => unreachable!(),
        }
    }
}
