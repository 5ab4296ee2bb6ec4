//! Removal of the keys that a closure does not keep.
ghost use Rattle.std.specs.Prelude.{◌≡◌, ◌≢◌, ◌+◌, ◌<◌, ◌≤◌, Some, None, length, slice_set, is_some, get_or};
ghost use Rattle.allocator_api2.specs.Places.{IsFilled, somes};
ghost use Rattle.aa_table.specs.Places.{hashes, hashes_of};
ghost use Rattle.aa_table.specs.Retaining.{MayReturn, Retains, Visits};
ghost use Rattle.aa_table.specs.Slots.{IsIndex, tag_at};

use super::Table;
use crate::index::{HashIndex, hash_of};
use crate::keeper::{Keeper, OnEntry};
use crate::slots::is_free;
use allocator_api2::raw_vec::RawVec;
use std::alloc::Allocator;
use std::hash::{BuildHasher, Hash};

// Calls `keeper` for an entry.
#[inline(always)]
fn call_for<K, V, P: Keeper<K, V>>(keeper: &mut P, entry: &mut (K, V)) -> bool
    requires { P.is_callable keeper.old }
    ensures callable { P.is_callable keeper.new }
    ensures called { P.calls keeper.old entry.old result entry.new.1 keeper.new }
    ensures same { entry.new.0 ≡ entry.old.0 }
{
    keeper.keeps(&entry.0, &mut entry.1)
}

// Removes and drops the entry in a slot.
fn discard<K: Eq + Hash + Drop, V: Drop, S: BuildHasher, A: Allocator>(
    builder: &S,
    index: &mut HashIndex<A>,
    places: &mut RawVec<(K, V), A>,
    slot: usize,
)
    requires within { slot < length index.old.tags.items }
    requires filled { IsFilled places.old.places slot }
    requires index { IsIndex index.old.tags.items index.old.overflows.items
        (hashes_of (hashes S.BuildHasher S.Hasher.Hasher K.hash_input builder.now)
        places.old.places) }

    // The slot is free, and the rest remains indexed.
    ensures taken { places.new.places ≡ slice_set places.old.places slot None }
    ensures tags { index.new.tags.items ≡ slice_set index.old.tags.items slot 0 }
    ensures index { IsIndex index.new.tags.items index.new.overflows.items
        (hashes_of (hashes S.BuildHasher S.Hasher.Hasher K.hash_input builder.now)
        places.new.places) }
{
    let hash = hash_of(builder, &places.place(slot).0);
    drop(index.take_out(places, hash, slot));
}

// Calls `keeper` for the entry in a slot, if there is one, and removes and drops it if `keeper`
// returns `false`. Returns the number of removed entries.
#[inline(always)]
fn visit<K: Eq + Hash + Drop, V: Drop, S: BuildHasher, A: Allocator, P: Keeper<K, V>>(
    builder: &S,
    index: &mut HashIndex<A>,
    places: &mut RawVec<(K, V), A>,
    slot: usize,
    keeper: &mut P,
) -> usize
    requires callable { P.is_callable keeper.old }
    requires within { slot < length index.old.tags.items }
    requires index { IsIndex index.old.tags.items index.old.overflows.items
        (hashes_of (hashes S.BuildHasher S.Hasher.Hasher K.hash_input builder.now)
        places.old.places) }

    // Only this place is changed.
    ensures callable { P.is_callable keeper.new }
    ensures visited { Visits P.calls keeper.old (get_or places.old.places slot None)
        (get_or places.new.places slot None) keeper.new }
    ensures others { places.new.places
        ≡ slice_set places.old.places slot (get_or places.new.places slot None) }
    ensures count { result + length (somes places.new.places) ≡ length (somes places.old.places) }
    ensures within { result ≤ 1 }

    // The rest remains indexed.
    ensures slots { length index.new.tags.items ≡ length index.old.tags.items }
    ensures index { IsIndex index.new.tags.items index.new.overflows.items
        (hashes_of (hashes S.BuildHasher S.Hasher.Hasher K.hash_input builder.now)
        places.new.places) }
{
    if is_free(index.tags.as_slice(), slot) {
        return 0;
    }
    if call_for(keeper, places.place_mut(slot)) {
        return 0;
    }
    discard(builder, index, places, slot);
    1
}

// Removes and drops the entries for which `keeper` returns `false`, and returns their number.
//
// `keeper` is called once for each entry, in the order of the slots.
#[tactic(auto, using(crate::proofs::Retaining::passing))]
fn retain_in<K: Eq + Hash + Drop, V: Drop, S: BuildHasher, A: Allocator, P: Keeper<K, V>>(
    builder: &S,
    index: &mut HashIndex<A>,
    places: &mut RawVec<(K, V), A>,
    keeper: &mut P,
) -> usize
    requires callable { P.is_callable keeper.old }
    requires index { IsIndex index.old.tags.items index.old.overflows.items
        (hashes_of (hashes S.BuildHasher S.Hasher.Hasher K.hash_input builder.now)
        places.old.places) }

    // The other entries are as the calls left them, in the same places, and are indexed.
    ensures kept { Retains P.calls keeper.old (somes places.old.places) (somes places.new.places)
        keeper.new }
    ensures count { result + length (somes places.new.places) ≡ length (somes places.old.places) }
    ensures places { length places.new.places ≡ length places.old.places }
    ensures slots { length index.new.tags.items ≡ length index.old.tags.items }
    ensures index { IsIndex index.new.tags.items index.new.overflows.items
        (hashes_of (hashes S.BuildHasher S.Hasher.Hasher K.hash_input builder.now)
        places.new.places) }
{
    let mut removed = 0;
    'each: for slot in 0..index.tags.len() {
        removed += visit(builder, index, places, slot, keeper);
    }
    removed
}

impl<K: Eq + Hash + Drop, V: Drop, S: BuildHasher, A: Allocator> Table<K, V, S, A> {
    // Removes and drops the entries for which `keeper` returns `false`.
    pub(crate) fn retain_by<P: Keeper<K, V>>(&mut self, keeper: &mut P)
        requires { P.is_callable keeper.old }
        ensures kept { Retains P.calls keeper.old self.old.entries self.new.entries keeper.new }
        ensures capacity { self.new.capacity ≡ self.old.capacity }
        ensures resizes { self.new.resizes ≡ self.old.resizes }
        ensures builder { self.new.builder ≡ self.old.builder }
    {
        if let Some(index) = &mut self.index {
            self.count -= retain_in(&self.builder, index, &mut self.places, keeper);
        }
    }

    /// Keeps only the keys for which `f` returns `true`, and lets `f` change their values.
    ///
    /// `f` is called once for each key with its value, in the order of `iter`. The others are
    /// dropped. Preserves the order. Does not allocate, and does not change the capacity.
    pub fn retain<F: FnMut(&K, &mut V) -> bool + Drop>(&mut self, f: F)
        requires { F.IsAlwaysCallable f }
        ensures kept { (last : F)
            × Retains (MayReturn F.step) f self.old.entries self.new.entries last }
        ensures capacity { self.new.capacity ≡ self.old.capacity }
        ensures resizes { self.new.resizes ≡ self.old.resizes }
        ensures builder { self.new.builder ≡ self.old.builder }
    {
        self.retain_by(&mut OnEntry { keep: f });
    }
}
