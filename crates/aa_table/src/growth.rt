//! Growing and shrinking the blocks of a table.
ghost use Rattle.std.specs.Prelude.{◌≡◌, ◌≢◌, ℕ, ◌*◌, ◌/◌, ◌+◌, ◌^◌, ◌<◌, ◌≤◌, [], ◌++◌, None, length, get_or, map, replicate, IsPermutation, IfOk, IfErr, OnOk, OnErr, ◌⊎◌, ◌-◌};
ghost use Rattle.std.specs.Int.{div_ceil, IsNextPowerOfTwo};
ghost use Rattle.allocator_api2.specs.Clones.{ClonesAreEqual};
ghost use Rattle.allocator_api2.specs.Errors.{IsErrorFor};
ghost use Rattle.allocator_api2.specs.Places.{somes};
ghost use Rattle.allocator_api2.specs.declared.collections.TryReserveErrorKind.TheVariants.{AllocError};
ghost use Rattle.aa_table.specs.Contents.{fresh_capacity};
ghost use Rattle.aa_table.specs.Shrinking.{CountsShrink};
ghost use Rattle.aa_table.specs.Slots.{tag_at, HasPlaces, IsIndex, IsMemory, IsSlotCount, IsSlots};
ghost use Rattle.aa_table.specs.Places.{hashes, hashes_of, tags_of, AreFree, AreHeld, AreHeldBetween, IsIndexed};
ghost use Rattle.aa_table.specs.Walks.{AreGroups};

use crate::index::{HashIndex, hash_of, tags_in};
use crate::slots::{GROUP_SIZE, Overflow, is_free};
use crate::walk::taken_in;
use allocator_api2::collections::{TryReserveError, TryReserveErrorKind};
use allocator_api2::counter::Counter;
use allocator_api2::raw_vec::RawVec;
use allocator_api2::vec::Vec;
use std::alloc::Allocator;
use std::hash::{BuildHasher, Hash};

// The load factor: the number of keys for each sixteen slots.
const KEYS_PER_GROUP: usize = 14;

/// The least capacity of a table that has allocated.
pub const MIN_CAPACITY: usize = 14;

/// Returns the `AllocError` of a failed allocation for `capacity` keys.
pub fn alloc_error(capacity: usize) -> TryReserveError
    ensures { result.kind ≡ AllocError capacity }
{
    TryReserveErrorKind::AllocError { capacity }.into()
}

/// Returns the capacity of a new table for `count` keys.
pub fn fresh_capacity(count: usize) -> usize
    ensures { result ≡ fresh_capacity count }
{
    if count == 0 {
        0
    } else {
        count.max(MIN_CAPACITY)
    }
}

// Returns the number of probe groups for `capacity` keys: a power of two, plus one.
fn groups_for(capacity: usize) -> usize
    requires { capacity < 2 ^ 32 }
    ensures enough { capacity < 16 * result }
    ensures more { 2 ≤ result }
    ensures small { result < 2 ^ 33 }
    ensures least { IsNextPowerOfTwo (div_ceil capacity 14) (result - 1) }
{
    capacity.div_ceil(KEYS_PER_GROUP).next_power_of_two() + 1
}

// Returns the number of slots for `capacity` keys.
fn slots_for(capacity: usize) -> usize
    requires { capacity < 2 ^ 32 }
    ensures enough { capacity < result }
    ensures more { 17 ≤ result }
    ensures small { result < 2 ^ 37 }
    ensures least { IsSlotCount capacity result }
{
    groups_for(capacity) * GROUP_SIZE
}

// Returns a vector of `count` copies of `item`, allocated by a clone of `alloc`.
//
// An error has the number `capacity`.
fn copies_of<T: Clone, A: Allocator + Clone>(
    item: T,
    count: usize,
    alloc: &A,
    capacity: usize,
) -> Result<Vec<T, A>, TryReserveError>
    requires { ClonesAreEqual T.is_clone }
    ensures made { IfOk result (λ v. v.items ≡ replicate count item) }
    ensures error { IfErr result (λ e. e.kind ≡ AllocError capacity) }
{
    let Ok(own) = alloc.clone() else {
        return Err(alloc_error(capacity));
    };
    match Vec::from_elem_in(item, count, own) {
        Ok(made) => Ok(made),
        Err(_) => Err(alloc_error(capacity)),
    }
}

// Returns an index without keys that has capacity for `capacity`, allocated by clones of `alloc`.
//
// An error has the number `capacity`.
fn index_for<A: Allocator + Clone>(
    alloc: &A,
    capacity: usize,
) -> Result<HashIndex<A>, TryReserveError>
    requires { capacity < 2 ^ 32 }

    // There are as many slots as the capacity needs.
    ensures slots { IfOk result (λ i. IsSlots i.tags.items i.overflows.items) }
    ensures room { IfOk result (λ i. capacity < length i.tags.items) }
    ensures least { IfOk result (λ i. IsSlotCount capacity (length i.tags.items)) }

    // All slots are free.
    ensures free { IfOk result (λ i. i.tags.items ≡ replicate (length i.tags.items) 0) }
    ensures none { IfOk result (λ i. i.overflows.items
        ≡ replicate (length i.overflows.items) (record { byte = 0 })) }

    // An error has the requested capacity.
    ensures error { IfErr result (λ e. e.kind ≡ AllocError capacity) }
{
    let slots = slots_for(capacity);
    let tags = copies_of(0, slots, alloc, capacity)?;
    let overflows = copies_of(Overflow::none(), slots, alloc, capacity)?;
    Ok(HashIndex { tags, overflows })
}

// Returns a block of at least `slots` empty places, allocated by a clone of `alloc`.
//
// An `AllocError` has the number `capacity`.
fn places_for<K, V, A: Allocator + Clone>(
    alloc: &A,
    slots: usize,
    capacity: usize,
) -> Result<RawVec<(K, V), A>, TryReserveError>
    ensures many { IfOk result (λ b. slots ≤ length b.places) }
    ensures least { IfOk result (λ b. HasPlaces slots (length b.places)) }
    ensures empty { IfOk result (λ b. (s : ℕ) → get_or b.places s None ≡ None) }
    ensures error { IfErr result (λ e. IsErrorFor e capacity) }
{
    let Ok(own) = alloc.clone() else {
        return Err(alloc_error(capacity));
    };
    match RawVec::with_capacity_in(slots, own) {
        Ok(made) => {
            made.prove_capacity_bounds();
            Ok(made)
        }
        Err(error) => match error.kind() {
            TryReserveErrorKind::CapacityOverflow => Err(error),
            TryReserveErrorKind::AllocError { capacity: _ } => Err(alloc_error(capacity)),
        },
    }
}

// Moves all entries to other places, and adds them to the index of these.
fn move_all<K: Eq + Hash, V, S: BuildHasher, A: Allocator>(
    builder: &S,
    tags: &[u8],
    from: &mut RawVec<(K, V), A>,
    index: &mut HashIndex<A>,
    to: &mut RawVec<(K, V), A>,
)
    // The slots with a tag have the entries, and the other places are empty.
    requires held { AreHeld tags.now from.old.places }
    requires free { AreFree tags.now from.old.places }
    requires empty { (s : ℕ) → get_or to.old.places s None ≡ None }
    requires index { IsIndex index.old.tags.items index.old.overflows.items
        (hashes_of (hashes S.BuildHasher S.Hasher.Hasher K.hash_input builder.now) to.old.places) }
    requires room { length (somes from.old.places) < length index.old.tags.items }

    // All entries are in the other places, and their index is complete.
    ensures moved { IsPermutation (somes from.old.places) (somes to.new.places) }
    ensures emptied { (s : ℕ) → get_or from.new.places s None ≡ None }
    ensures index { IsIndex index.new.tags.items index.new.overflows.items
        (hashes_of (hashes S.BuildHasher S.Hasher.Hasher K.hash_input builder.now) to.new.places) }
    ensures slots { length index.new.tags.items ≡ length index.old.tags.items }
    ensures places { length to.new.places ≡ length to.old.places }
{
    'each: for slot in 0..tags.len() {
        if !is_free(tags, slot) {
            let entry = from.take(slot);
            let hash = hash_of(builder, &entry.0);
            index.put_new(to, hash, entry);
        }
    }
}

// Like `move_all`, but moves nothing if there is no old index.
fn move_indexed<K: Eq + Hash, V, S: BuildHasher, A: Allocator>(
    builder: &S,
    old: &Option<HashIndex<A>>,
    from: &mut RawVec<(K, V), A>,
    index: &mut HashIndex<A>,
    to: &mut RawVec<(K, V), A>,
)
    // The old index is complete, and the other places are empty.
    requires indexed { IsIndexed K.eq
        (hashes S.BuildHasher S.Hasher.Hasher K.hash_input builder.now) old.now from.old.places }
    requires empty { (s : ℕ) → get_or to.old.places s None ≡ None }
    requires index { IsIndex index.old.tags.items index.old.overflows.items
        (hashes_of (hashes S.BuildHasher S.Hasher.Hasher K.hash_input builder.now) to.old.places) }
    requires room { length (somes from.old.places) < length index.old.tags.items }

    // All entries are in the other places, and their index is complete.
    ensures moved { IsPermutation (somes from.old.places) (somes to.new.places) }
    ensures emptied { (s : ℕ) → get_or from.new.places s None ≡ None }
    ensures index { IsIndex index.new.tags.items index.new.overflows.items
        (hashes_of (hashes S.BuildHasher S.Hasher.Hasher K.hash_input builder.now) to.new.places) }
    ensures slots { length index.new.tags.items ≡ length index.old.tags.items }
    ensures places { length to.new.places ≡ length to.old.places }
{
    match old {
        Some(old_index) => move_all(builder, old_index.tags.as_slice(), from, index, to),
        None => {}
    }
}

/// Moves all entries to a new index and new places with capacity for `capacity` keys.
///
/// Allocates these before it moves an entry, and then frees the old ones. Counts this as one of
/// `resizes`.
///
/// # Errors
/// `CapacityOverflow` if the bytes exceed `isize::MAX`; `AllocError` with the number `capacity` if
/// an allocation fails. Index, places and count are unchanged.
#[cold]
#[inline(never)]
pub fn resize<K: Eq + Hash, V, S: BuildHasher, A: Allocator + Clone>(
    builder: &S,
    places: &mut RawVec<(K, V), A>,
    index: &mut Option<HashIndex<A>>,
    capacity: usize,
    resizes: &mut Counter,
) -> Result<(), TryReserveError>
    // The capacity is sufficient for the entries, and their index is complete.
    requires more { length (somes places.old.places) ≤ capacity }
    requires small { capacity < 2 ^ 32 }
    requires indexed { IsIndexed K.eq
        (hashes S.BuildHasher S.Hasher.Hasher K.hash_input builder.now) index.old places.old.places }

    // On success, all entries are in the new places, and the new index is complete.
    ensures moved { OnOk result
        (IsPermutation (somes places.old.places) (somes places.new.places)) }
    ensures indexed { OnOk result (IsIndexed K.eq
        (hashes S.BuildHasher S.Hasher.Hasher K.hash_input builder.now) index.new places.new.places) }

    // The numbers of slots and places are those for the capacity.
    ensures room { OnOk result (capacity < length (tags_of index.new)) }
    ensures slots { OnOk result (IsSlotCount capacity (length (tags_of index.new))) }
    ensures places { OnOk result
        (HasPlaces (length (tags_of index.new)) (length places.new.places)) }
    ensures counted { OnOk result (resizes.new.count ≡ resizes.old.count + 1) }

    // An error has the requested capacity, and leaves all unchanged.
    ensures error { IfErr result (λ e. IsErrorFor e capacity) }
    ensures unchanged { OnErr result (places.new ≡ places.old) }
    ensures kept { OnErr result (index.new ≡ index.old) }
    ensures count { OnErr result (resizes.new.count ≡ resizes.old.count) }
{
    let mut fresh = index_for(places.allocator(), capacity)?;
    let mut room = places_for(places.allocator(), fresh.tags.len(), capacity)?;
    move_indexed(builder, index, places, &mut fresh, &mut room);
    *places = room;
    *index = Some(fresh);
    resizes.add(1);
    Ok(())
}

// Frees the blocks of a table that has no keys.
fn free_blocks<K, V, A: Allocator>(places: &mut RawVec<(K, V), A>, index: &mut Option<HashIndex<A>>)
    requires empty { (s : ℕ) → get_or places.old.places s None ≡ None }
    ensures empty { (s : ℕ) → get_or places.new.places s None ≡ None }
    ensures places { HasPlaces 0 (length places.new.places) }
    ensures index { index.new ≡ None }
{
    *index = None;
    places.prove_capacity_bounds();
    match places.shrink_to_fit(0, 0) {
        Ok(()) => {}
        Err(_) => unreachable!(),
    }
}

/// Shrinks index and places to those of a new table with this capacity.
///
/// For the capacity 0, frees all blocks. Allocates only if the number of slots has to change, and
/// counts this as one of `resizes`.
///
/// # Errors
/// `AllocError` with the number `capacity`. Index, places and count are unchanged.
pub fn fit<K: Eq + Hash, V, S: BuildHasher, A: Allocator + Clone>(
    builder: &S,
    places: &mut RawVec<(K, V), A>,
    index: &mut Option<HashIndex<A>>,
    capacity: usize,
    resizes: &mut Counter,
) -> Result<(), TryReserveError>
    // The capacity is sufficient for the entries, and their index is complete.
    requires more { length (somes places.old.places) ≤ capacity }
    requires small { capacity < 2 ^ 32 }
    requires indexed { IsIndexed K.eq
        (hashes S.BuildHasher S.Hasher.Hasher K.hash_input builder.now) index.old places.old.places }
    requires places { HasPlaces (length (tags_of index.old)) (length places.old.places) }

    // On success, all entries are in the places, and their index is complete.
    ensures moved { OnOk result
        (IsPermutation (somes places.old.places) (somes places.new.places)) }
    ensures indexed { OnOk result (IsIndexed K.eq
        (hashes S.BuildHasher S.Hasher.Hasher K.hash_input builder.now) index.new places.new.places) }

    // The numbers of slots and places are those for the capacity.
    ensures room { OnOk result (capacity ≡ 0 ⊎ capacity < length (tags_of index.new)) }
    ensures memory { OnOk result
        (IsMemory capacity (length (tags_of index.new)) (length places.new.places)) }
    ensures counted { OnOk result
        (CountsShrink (IsSlotCount capacity (length (tags_of index.old))) capacity
        resizes.old.count resizes.new.count) }

    // An error has the requested capacity, and leaves all unchanged.
    ensures some { OnErr result (0 < capacity) }
    ensures error { IfErr result (λ e. e.kind ≡ AllocError capacity) }
    ensures unchanged { OnErr result (places.new ≡ places.old) }
    ensures kept { OnErr result (index.new ≡ index.old) }
    ensures count { OnErr result (resizes.new.count ≡ resizes.old.count) }
{
    if capacity == 0 {
        free_blocks(places, index);
        return Ok(());
    }
    if tags_in(index).len() == slots_for(capacity) {
        return Ok(());
    }
    match resize(builder, places, index, capacity, resizes) {
        Ok(()) => Ok(()),
        Err(_) => Err(alloc_error(capacity)),
    }
}

// Drops the keys with their values in the slots from `from` on and before `end`, one by one.
fn drop_slots<K: Drop, V: Drop, A: Allocator>(
    tags: &[u8],
    places: &mut RawVec<(K, V), A>,
    from: usize,
    end: usize,
)
    requires within { end ≤ length tags.now }
    requires held { AreHeldBetween tags.now places.old.places from end }
    ensures len { length places.new.places ≡ length places.old.places }
    ensures dropped { (s : ℕ) → from ≤ s → s < end → tag_at tags.now s ≢ 0
        → get_or places.new.places s None ≡ None }
    ensures others { (s : ℕ) → get_or places.old.places s None ≡ None
        → get_or places.new.places s None ≡ None }
    ensures after { (s : ℕ) → end ≤ s
        → get_or places.new.places s None ≡ get_or places.old.places s None }
{
    'each: for slot in from..end {
        if !is_free(tags, slot) {
            drop(places.take(slot));
        }
    }
}

/// Drops the keys with their values in the slots from `from` on and before `end`.
///
/// Skips each group without a key at once.
pub fn drop_between<K: Drop, V: Drop, A: Allocator>(
    tags: &[u8],
    places: &mut RawVec<(K, V), A>,
    from: usize,
    end: usize,
)
    requires groups { AreGroups tags.now }
    requires within { end ≤ length tags.now }
    requires held { AreHeldBetween tags.now places.old.places from end }
    ensures len { length places.new.places ≡ length places.old.places }
    ensures dropped { (s : ℕ) → from ≤ s → s < end → tag_at tags.now s ≢ 0
        → get_or places.new.places s None ≡ None }
    ensures others { (s : ℕ) → get_or places.old.places s None ≡ None
        → get_or places.new.places s None ≡ None }
{
    // Such loops are seen to do nothing where nothing has to be dropped.
    'each: for group in from / GROUP_SIZE..end.div_ceil(GROUP_SIZE) {
        let base = group * GROUP_SIZE;
        if taken_in(tags, base) != 0 {
            let last = end.min(base + GROUP_SIZE);
            drop_slots(tags, places, from.max(base), last);
        }
    }
}
