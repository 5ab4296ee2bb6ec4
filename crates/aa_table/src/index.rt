//! The index of a table: finds the slot of a key by the hash of the key.
ghost use Rattle.std.specs.Prelude.{◌≡◌, ◌≢◌, ℕ, ◌+◌, ◌*◌, ◌/◌, ◌<◌, ◌≤◌, suc, true, false, List, Option, None, Some, length, get_or, slice_set, replicate, count_by, ◌==◌, IfSome, IfNone, IsTrue};
ghost use Rattle.allocator_api2.specs.Places.{IsFilled};
ghost use Rattle.aa_table.specs.Slots.{tag_at, tag_of, probe_start, reach_of, IsSlots, IsIndex};
ghost use Rattle.aa_table.specs.Places.{key_at, hashes, tags_of, AreHeld, Lacks, IsReachable, AreFindable};

use crate::lookup::Lookup;
use crate::slots::{
    GROUP_SIZE, Overflow, clear_all, has_overflow, home, is_free, probe_group, put, reach, release,
    slot_of, slot_past, tag,
};
use allocator_api2::raw_vec::RawVec;
use allocator_api2::vec::Vec;
use std::alloc::Allocator;
use std::hash::{BuildHasher, Hash, Hasher};

/// The tags and the overflow bytes of all slots.
#[derive(Drop)]
pub struct HashIndex<A: Allocator> {
    pub tags: Vec<u8, A>,
    pub overflows: Vec<Overflow, A>,
}

/// Returns the hash of a key.
#[tactic(auto, unfolding(crate::specs::Places::hash_by))]
#[inline(always)]
pub fn hash_of<Q: Hash, S: BuildHasher>(builder: &S, key: &Q) -> u64
    ensures { result ≡ hashes S.BuildHasher S.Hasher.Hasher Q.hash_input builder.now key.now }
{
    let mut state = builder.build_hasher();
    key.hash(&mut state);
    state.finish()
}

// Returns `true` if the key in this slot is the one that `key` looks up.
#[inline(always)]
fn is_at<K: Eq + Hash, V, A: Allocator, Q: Lookup<K>>(
    places: &RawVec<(K, V), A>,
    slot: usize,
    key: Q,
) -> bool
    requires { IsFilled places.now.places slot }
    ensures { result ≡ key_at (Q.matches key) places.now.places slot }
{
    key.matches(&places.place(slot).0)
}

impl<A: Allocator> HashIndex<A> {
    // Returns the slot of the key in the group from `from` on, or `None` if no slot with this tag
    // has it.
    #[inline]
    fn slot_with<K: Eq + Hash, V, Q: Lookup<K>>(
        &self,
        from: usize,
        tag: u8,
        places: &RawVec<(K, V), A>,
        key: Q,
    ) -> Option<usize>
        requires room { from + 16 ≤ length self.now.tags.items }
        requires held { AreHeld self.now.tags.items places.now.places }
        requires tag { tag ≢ 0 }
        ensures some { IfSome result (λ s. (s < length self.now.tags.items)
            × (key_at (Q.matches key) places.now.places s ≡ true)) }
        ensures none { IfNone result
            (Lacks (Q.matches key) self.now.tags.items places.now.places from tag) }
    {
        let mut past = 0;
        'each: while past < GROUP_SIZE {
            let Some(slot) = slot_past(self.tags.as_slice(), from, past, tag) else {
                return None;
            };
            if is_at(places, slot, key) {
                return Some(slot);
            }
            past = slot - from + 1;
        }
        None
    }

    // Returns the slot of a key outside its home group, searching group by group.
    #[cold]
    #[inline(never)]
    fn find_overflow<K: Eq + Hash, V, Q: Lookup<K>>(
        &self,
        places: &RawVec<(K, V), A>,
        hash: u64,
        key: Q,
    ) -> Option<usize>
        requires slots { IsSlots self.now.tags.items self.now.overflows.items }
        requires held { AreHeld self.now.tags.items places.now.places }
        ensures some { IfSome result (λ s. (s < length self.now.tags.items)
            × (key_at (Q.matches key) places.now.places s ≡ true)) }
        ensures none { let n = length self.now.tags.items in
            IfNone result ((step : ℕ) → step < reach_of self.now.overflows.items n hash
            → Lacks (Q.matches key) self.now.tags.items places.now.places
            (probe_start n hash (suc step)) (tag_of hash)) }
    {
        let tag = tag(hash);
        let from = home(hash, self.tags.len());
        let groups = self.tags.len() / GROUP_SIZE;
        'each: for before in 0..reach(self.overflows.as_slice(), from, groups) {
            let at = probe_group(from / GROUP_SIZE, before + 1, groups);
            if let Some(slot) = self.slot_with(at * GROUP_SIZE, tag, places, key) {
                return Some(slot);
            }
        }
        None
    }

    // Like `find`, but never inlined: compares all slots with the tag, in the home group and after
    // it.
    #[cold]
    #[inline(never)]
    fn find_slow<K: Eq + Hash, V, Q: Lookup<K>>(
        &self,
        places: &RawVec<(K, V), A>,
        hash: u64,
        key: Q,
    ) -> Option<usize>
        requires slots { IsSlots self.now.tags.items self.now.overflows.items }
        requires held { AreHeld self.now.tags.items places.now.places }
        requires reachable { IsReachable (Q.matches key) self.now.tags.items
            self.now.overflows.items places.now.places hash }
        ensures found { IfSome result (λ s. (s < length self.now.tags.items)
            × (key_at (Q.matches key) places.now.places s ≡ true)) }
        ensures absent { IfNone result
            ((s : ℕ) → key_at (Q.matches key) places.now.places s ≡ false) }
    {
        let from = home(hash, self.tags.len());
        if let Some(slot) = self.slot_with(from, tag(hash), places, key) {
            return Some(slot);
        }
        if has_overflow(self.overflows.as_slice(), from) {
            self.find_overflow(places, hash, key)
        } else {
            None
        }
    }

    /// Returns the slot of a key with this hash, or `None` if the key is absent.
    ///
    /// Compares `key` with the first key of the home group that has its tag. The search continues
    /// only if that is another key, or if keys overflowed the home group.
    #[inline(always)]
    pub fn find<K: Eq + Hash, V, Q: Lookup<K>>(
        &self,
        places: &RawVec<(K, V), A>,
        hash: u64,
        key: Q,
    ) -> Option<usize>
        requires slots { IsSlots self.now.tags.items self.now.overflows.items }
        requires held { AreHeld self.now.tags.items places.now.places }
        requires reachable { IsReachable (Q.matches key) self.now.tags.items
            self.now.overflows.items places.now.places hash }
        ensures found { IfSome result (λ s. (s < length self.now.tags.items)
            × (key_at (Q.matches key) places.now.places s ≡ true)) }
        ensures absent { IfNone result
            ((s : ℕ) → key_at (Q.matches key) places.now.places s ≡ false) }
    {
        let from = home(hash, self.tags.len());
        match slot_of(self.tags.as_slice(), from, tag(hash)) {
            Some(slot) => {
                if is_at(places, slot, key) {
                    return Some(slot);
                }
            }
            None => {
                if has_overflow(self.overflows.as_slice(), from) {
                    return self.find_overflow(places, hash, key);
                }
                return None;
            }
        }
        self.find_slow(places, hash, key)
    }

    // Returns `true` only if the slot has the key that `key` looks up.
    #[inline(always)]
    fn has_at<K: Eq + Hash, V, Q: Lookup<K>>(
        &self,
        places: &RawVec<(K, V), A>,
        slot: usize,
        key: Q,
    ) -> bool
        requires { AreHeld self.now.tags.items places.now.places }
        ensures { IsTrue result → (slot < length self.now.tags.items)
            × (key_at (Q.matches key) places.now.places slot ≡ true) }
    {
        slot < self.tags.len() && !is_free(self.tags.as_slice(), slot) && is_at(places, slot, key)
    }

    /// Inserts an absent key with its value into a free slot, and returns the slot.
    ///
    /// Does not allocate.
    #[inline(always)]
    pub fn put_new<K: Eq, V>(
        &mut self,
        places: &mut RawVec<(K, V), A>,
        hash: u64,
        entry: (K, V),
    ) -> usize
        // There is a free slot, and a place for each slot.
        requires slots { IsSlots self.old.tags.items self.old.overflows.items }
        requires free { 0 < count_by (λ t. t == 0) self.old.tags.items }
        requires places { length self.old.tags.items ≤ length places.old.places }

        // The result was free, and has the entry and the tag of the hash.
        ensures within { result < length self.old.tags.items }
        ensures was_free { tag_at self.old.tags.items result ≡ 0 }
        ensures tags { self.new.tags.items ≡ slice_set self.old.tags.items result (tag_of hash) }
        ensures put { places.new.places ≡ slice_set places.old.places result (Some entry) }

        // The index remains one, with the hash in this slot.
        ensures index { (hs : List (Option ℕ))
            → IsIndex self.old.tags.items self.old.overflows.items hs
            → IsIndex self.new.tags.items self.new.overflows.items
            (slice_set hs result (Some hash)) }
    {
        let slot = put(
            self.tags.as_mut_slice(),
            self.overflows.as_mut_slice(),
            hash,
        );
        places.put(slot, entry);
        slot
    }

    /// Removes a key with its value from its slot, and returns them.
    ///
    /// Does not allocate.
    #[inline(always)]
    pub fn take_out<K: Eq, V>(
        &mut self,
        places: &mut RawVec<(K, V), A>,
        hash: u64,
        slot: usize,
    ) -> (K, V)
        // The slot has an entry.
        requires slots { IsSlots self.old.tags.items self.old.overflows.items }
        requires within { slot < length self.old.tags.items }
        requires filled { IsFilled places.old.places slot }

        // The entry is returned, and the slot is free.
        ensures value { get_or places.old.places slot None ≡ Some result }
        ensures taken { places.new.places ≡ slice_set places.old.places slot None }
        ensures tags { self.new.tags.items ≡ slice_set self.old.tags.items slot 0 }

        // The index remains one, without a hash in this slot.
        ensures index { (hs : List (Option ℕ))
            → IsIndex self.old.tags.items self.old.overflows.items hs
            → get_or hs slot None ≡ Some hash
            → IsIndex self.new.tags.items self.new.overflows.items (slice_set hs slot None) }
    {
        release(
            self.tags.as_mut_slice(),
            self.overflows.as_mut_slice(),
            hash,
            slot,
        );
        places.take(slot)
    }

    /// Frees all slots.
    pub fn clear(&mut self)
        ensures tags { self.new.tags.items ≡ replicate (length self.old.tags.items) 0 }
        ensures overflows { length self.new.overflows.items ≡ length self.old.overflows.items }
    {
        clear_all(self.tags.as_mut_slice(), self.overflows.as_mut_slice());
    }
}

/// Returns the slot of a key with this hash, or `None` if the key is absent or there is no index.
#[inline(always)]
pub fn find_in<K: Eq + Hash, V, A: Allocator, Q: Lookup<K>>(
    index: &Option<HashIndex<A>>,
    places: &RawVec<(K, V), A>,
    hash: u64,
    key: Q,
) -> Option<usize>
    requires { AreFindable (Q.matches key) index.now places.now.places hash }
    ensures within { IfSome result (λ s. s < length (tags_of index.now)) }
    ensures found { IfSome result (λ s. key_at (Q.matches key) places.now.places s ≡ true) }
    ensures absent { IfNone result ((s : ℕ) → key_at (Q.matches key) places.now.places s ≡ false) }
{
    match index {
        Some(made) => made.find(places, hash, key),
        None => None,
    }
}

/// Like `find_in`, but hashes the key and searches for it only if it is not in the slot `hint`.
#[inline]
pub fn find_near<K: Eq + Hash, V, S: BuildHasher, A: Allocator, Q: Lookup<K>>(
    builder: &S,
    index: &Option<HashIndex<A>>,
    places: &RawVec<(K, V), A>,
    hint: usize,
    key: Q,
) -> Option<usize>
    requires { AreFindable (Q.matches key) index.now places.now.places
        (hashes S.BuildHasher S.Hasher.Hasher Q.hash_input builder.now key) }
    ensures within { IfSome result (λ s. s < length (tags_of index.now)) }
    ensures found { IfSome result (λ s. key_at (Q.matches key) places.now.places s ≡ true) }
    ensures absent { IfNone result ((s : ℕ) → key_at (Q.matches key) places.now.places s ≡ false) }
{
    match index {
        Some(made) => {
            if made.has_at(places, hint, key) {
                return Some(hint);
            }
            let hash = hash_of(builder, &key);
            made.find(places, hash, key)
        }
        None => None,
    }
}

/// Returns the tags of all slots, or an empty slice if there is no index.
#[inline]
pub fn tags_in<A: Allocator>(index: &Option<HashIndex<A>>) -> &[u8]
    ensures { result.now ≡ tags_of index.now }
{
    match index {
        Some(made) => made.tags.as_slice(),
        None => &[],
    }
}
