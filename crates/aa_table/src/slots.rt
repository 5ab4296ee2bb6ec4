//! The slots of a table: control bytes that are searched in probe groups of sixteen.
//!
//! The control byte (tag) of a slot is 0 if the slot is free, and otherwise a part of the hash of
//! its key. A search begins with the home group: the sixteen slots from the home slot of the hash.
//! It continues with whole groups only if a key with that home slot has overflowed its home group.
ghost use Rattle.std.specs.Prelude.{◌≡◌, ◌≢◌, ℕ, ◌+◌, ◌-◌, ◌*◌, ◌/◌, ◌<◌, ◌≤◌, List, Option, length, get_or, slice_set, count_by, replicate, min, IsFalse, ◌↔◌, if◌then◌else◌, Some, None, IfSome, IfNone, ◌==◌};
ghost use Rattle.aa_table.specs.Slots.{tag_at, tag_of, home_of, probe_group_of, probe_start, reach_of, overflow_at, overflow_count, overflow_groups, one_more, one_less, IsSlots, ProbeReaches, IsIndex};

use std::simd::prelude::*;

/// The number of slots in a probe group, whose tags are compared at once.
pub const GROUP_SIZE: usize = 16;

// The tag of a free slot.
const FREE: u8 = 0;

// The greatest count of a half byte, which means 15 or more.
const MANY: u8 = 15;

/// The overflow byte of a home slot: what is known of the keys that overflowed its home group.
///
/// The upper half counts these keys. The lower half is the number of further groups that a search
/// for them visits. Each is at most 15: a count of 15 is not exact, and 15 groups are all groups.
#[derive(Clone, Copy)]
pub struct Overflow {
    byte: u8,
}

impl Overflow {
    /// Returns the overflow byte of a home slot whose keys are all in its home group.
    pub fn none() -> Overflow
        ensures { result ≡ record { byte = 0 } }
    {
        Overflow { byte: 0 }
    }

    // Returns the number of keys that overflowed, at most 15.
    #[inline]
    fn keys(self) -> u8
        ensures value { result ≡ overflow_count self }
        ensures within { result ≤ 15 }
    {
        self.byte / 16
    }

    // Returns the number of further groups to search; 15 means all of them.
    #[inline]
    fn groups(self) -> u8
        ensures value { result ≡ overflow_groups self }
        ensures within { result ≤ 15 }
    {
        self.byte % 16
    }

    // Returns the byte with one more key, which is `step` groups away.
    #[inline]
    fn one_more(self, step: usize) -> Overflow
        ensures { result ≡ one_more self step }
    {
        let keys = (self.keys() + 1).min(MANY);
        let groups = self.groups().max(step.min(15) as u8);
        Overflow {
            byte: 16 * keys + groups,
        }
    }

    // Returns the byte with one key less.
    fn one_less(self) -> Overflow
        ensures { result ≡ one_less self }
    {
        match self.keys() {
            MANY => self,
            0 | 1 => Overflow::none(),
            _ => Overflow {
                byte: self.byte - 16,
            },
        }
    }
}

/// Returns `true` if the slot is free.
#[inline(always)]
pub fn is_free(tags: &[u8], slot: usize) -> bool
    requires { slot < length tags.now }
    ensures { result ≡ (tag_at tags.now slot == 0) }
{
    tags[slot] == FREE
}

/// Returns the tag for keys with this hash, which is never that of a free slot.
#[inline(always)]
pub fn tag(hash: u64) -> u8
    ensures { result ≡ tag_of hash }
{
    ((hash >> 56) as u8).max(1)
}

/// Returns the home slot of a hash in a table with `count` slots.
#[inline(always)]
pub fn home(hash: u64, count: usize) -> usize
    requires { 17 ≤ count }
    ensures value { result ≡ home_of count hash }
    ensures within { result + 16 ≤ count }
{
    hash as usize & (count - GROUP_SIZE - 1)
}

/// Returns the first slot with the tag in the group from `from` on, after its first `past` slots.
///
/// Returns `None` if no such slot has the tag.
#[inline(always)]
pub fn slot_past(tags: &[u8], from: usize, past: usize, tag: u8) -> Option<usize>
    requires room { from + 16 ≤ length tags.now }
    requires past { past ≤ 15 }
    ensures some { IfSome result
        (λ s. (from + past ≤ s) × (s < from + 16) × (tag_at tags.now s ≡ tag)) }
    ensures first { IfSome result
        (λ s. (i : ℕ) → from + past ≤ i → i < s → tag_at tags.now i ≢ tag) }
    ensures none { IfNone result
        ((i : ℕ) → from + past ≤ i → i < from + 16 → tag_at tags.now i ≢ tag) }
{
    let same = u8x16::from_slice(&tags[from..from + GROUP_SIZE])
        .simd_eq(u8x16::splat(tag))
        .to_bitmask();
    let later = same >> past;
    if later == 0 {
        None
    } else {
        Some(from + past + later.trailing_zeros() as usize)
    }
}

/// Returns the first slot with the tag in the group of sixteen slots from `from` on.
///
/// Returns `None` if no slot of the group has the tag.
#[inline(always)]
pub fn slot_of(tags: &[u8], from: usize, tag: u8) -> Option<usize>
    requires { from + 16 ≤ length tags.now }
    ensures some { IfSome result
        (λ s. (from ≤ s) × (s < from + 16) × (tag_at tags.now s ≡ tag)) }
    ensures first { IfSome result (λ s. (i : ℕ) → from ≤ i → i < s → tag_at tags.now i ≢ tag) }
    ensures none { IfNone result ((i : ℕ) → from ≤ i → i < from + 16 → tag_at tags.now i ≢ tag) }
{
    slot_past(tags, from, 0, tag)
}

/// Returns the probe group that is `step` steps after the group `home`, of `count` groups.
///
/// The first group follows the last.
#[inline(always)]
pub fn probe_group(home: usize, step: usize, count: usize) -> usize
    requires home { home < count }
    requires step { step ≤ count }
    ensures value { result ≡ probe_group_of count home step }
    ensures within { result < count }
{
    let left = count - home;
    if step < left {
        home + step
    } else {
        step - left
    }
}

/// Returns `true` if a key with this home slot may have overflowed the home group.
#[inline(always)]
pub fn has_overflow(overflows: &[Overflow], home: usize) -> bool
    requires { home < length overflows.now }
    ensures { IsFalse result ↔ ((overflow_at overflows.now home).byte ≡ 0) }
{
    overflows[home].byte != 0
}

/// Returns the number of groups that a search visits after the home group.
#[inline]
pub fn reach(overflows: &[Overflow], home: usize, groups: usize) -> usize
    requires { home < length overflows.now }
    ensures { let b = overflow_groups (overflow_at overflows.now home) in
        result ≡ if b == 15 then groups else min groups b }
{
    let byte = overflows[home].groups();
    if byte == MANY {
        groups
    } else {
        groups.min(byte as usize)
    }
}

// Counts one more key that overflowed its home group, by `step` groups.
#[inline]
fn add_overflow(overflows: &mut [Overflow], home: usize, step: usize)
    requires { home < length overflows.old }
    ensures { overflows.new
        ≡ slice_set overflows.old home (one_more (overflow_at overflows.old home) step) }
{
    overflows[home] = overflows[home].one_more(step);
}

// Counts one key less that overflowed its home group.
#[cold]
#[inline(never)]
fn remove_overflow(overflows: &mut [Overflow], home: usize)
    requires { home < length overflows.old }
    ensures { overflows.new ≡ slice_set overflows.old home
        (one_less (overflow_at overflows.old home)) }
{
    overflows[home] = overflows[home].one_less();
}

// Takes the first free slot for a key whose home group is full, group by group, and returns it.
#[cold]
#[inline(never)]
fn put_overflow(tags: &mut [u8], overflows: &mut [Overflow], hash: u64) -> usize
    // There is a free slot.
    requires slots { IsSlots tags.old overflows.old }
    requires free { 0 < count_by (λ t. t == 0) tags.old }

    // The result was free, and has the tag of the hash.
    ensures within { result < length tags.old }
    ensures was_free { tag_at tags.old result ≡ 0 }
    ensures tags { tags.new ≡ slice_set tags.old result (tag_of hash) }

    // An index remains one, with the hash in this slot.
    ensures index { (hs : List (Option ℕ)) → IsIndex tags.old overflows.old hs
        → IsIndex tags.new overflows.new (slice_set hs result (Some hash)) }
{
    let count = tags.len();
    let from = home(hash, count);
    let groups = count / GROUP_SIZE;
    'each: for before in 0..groups {
        let at = probe_group(from / GROUP_SIZE, before + 1, groups);
        if let Some(slot) = slot_of(tags, at * GROUP_SIZE, FREE) {
            tags[slot] = tag(hash);
            add_overflow(overflows, from, before + 1);
            return slot;
        }
    }
    unreachable!()
}

/// Takes a free slot for a key with this hash, and returns it.
///
/// The slot is in the home group unless that is full.
#[inline(always)]
pub fn put(tags: &mut [u8], overflows: &mut [Overflow], hash: u64) -> usize
    // There is a free slot.
    requires slots { IsSlots tags.old overflows.old }
    requires free { 0 < count_by (λ t. t == 0) tags.old }

    // The result was free, and has the tag of the hash.
    ensures within { result < length tags.old }
    ensures was_free { tag_at tags.old result ≡ 0 }
    ensures tags { tags.new ≡ slice_set tags.old result (tag_of hash) }

    // An index remains one, with the hash in this slot.
    ensures index { (hs : List (Option ℕ)) → IsIndex tags.old overflows.old hs
        → IsIndex tags.new overflows.new (slice_set hs result (Some hash)) }
{
    let from = home(hash, tags.len());
    if let Some(slot) = slot_of(tags, from, FREE) {
        tags[slot] = tag(hash);
        return slot;
    }
    put_overflow(tags, overflows, hash)
}

/// Frees the slot of a key with this hash.
#[inline(always)]
pub fn release(tags: &mut [u8], overflows: &mut [Overflow], hash: u64, slot: usize)
    requires slots { IsSlots tags.old overflows.old }
    requires slot { slot < length tags.old }
    ensures tags { tags.new ≡ slice_set tags.old slot 0 }
    ensures index { (hs : List (Option ℕ)) → IsIndex tags.old overflows.old hs
        → get_or hs slot None ≡ Some hash
        → IsIndex tags.new overflows.new (slice_set hs slot None) }
{
    let from = home(hash, tags.len());
    tags[slot] = FREE;
    if slot < from || slot - from >= GROUP_SIZE {
        remove_overflow(overflows, from);
    }
}

/// Frees all slots and clears their overflow bytes.
pub fn clear_all(tags: &mut [u8], overflows: &mut [Overflow])
    ensures tags { tags.new ≡ replicate (length tags.old) 0 }
    ensures overflows { overflows.new ≡ replicate (length overflows.old) (record { byte = 0 }) }
{
    tags.fill_with(|| FREE);
    overflows.fill_with(|| Overflow::none());
}
