//! A walk over the taken slots of a table, in order, by a mask of the taken slots of each group.
ghost use Rattle.std.specs.Prelude.{◌≡◌, ◌≢◌, ℕ, ◌+◌, ◌<◌, ◌≤◌, length, IfSome, IfNone};
ghost use Rattle.aa_table.specs.Slots.{tag_at};
ghost use Rattle.aa_table.specs.Walks.{mask_of, AreGroups, HasTaken, IsWalk};

use crate::slots::{GROUP_SIZE, is_free};
use std::simd::prelude::*;

/// The state of a walk over the taken slots of a table.
#[derive(Clone, Copy)]
pub struct Walk {
    // the first slot that remains
    pub from: usize,
    // the first slot of the group that the walk is in
    pub base: usize,
    // the remaining taken slots of this group, the lowest bit first
    pub mask: u64,
}

/// Returns the mask of the taken slots of the group from `base` on.
#[inline(always)]
pub fn taken_in(tags: &[u8], base: usize) -> u64
    requires { base + 16 ≤ length tags.now }
    ensures { (from : ℕ) → from ≤ base → result ≡ mask_of tags.now base from }
{
    u8x16::from_slice(&tags[base..base + GROUP_SIZE])
        .simd_ne(u8x16::splat(0))
        .to_bitmask()
}

impl Walk {
    /// Returns a walk over all taken slots.
    #[inline]
    pub fn start(tags: &[u8]) -> Walk
        requires { AreGroups tags.now }
        ensures walk { IsWalk tags.now result }
        ensures from { result.from ≡ 0 }
    {
        let mask = if tags.is_empty() {
            0
        } else {
            taken_in(tags, 0)
        };
        Walk {
            from: 0,
            base: 0,
            mask,
        }
    }

    /// Passes the next taken slot, of which there must be one, and returns it.
    #[inline(always)]
    pub fn next_taken(&mut self, tags: &[u8]) -> usize
        requires walk { IsWalk tags.now self.old }
        requires some { HasTaken tags.now self.old.from }

        // The result is the first taken slot from `from` on.
        ensures within { self.old.from ≤ result }
        ensures taken { tag_at tags.now result ≢ 0 }
        ensures first { (i : ℕ) → self.old.from ≤ i → i < result → tag_at tags.now i ≡ 0 }

        // The walk continues after it.
        ensures walk { IsWalk tags.now self.new }
        ensures passed { self.new.from ≡ result + 1 }
    {
        'each: while self.mask == 0 {
            self.base += GROUP_SIZE;
            self.mask = taken_in(tags, self.base);
        }
        let slot = self.base + self.mask.trailing_zeros() as usize;
        self.mask &= self.mask - 1;
        self.from = slot + 1;
        slot
    }
}

// Returns the last taken slot from `from` on and before `end`, or `None`: slot by slot.
fn last_of_few(tags: &[u8], from: usize, end: usize) -> Option<usize>
    requires { end ≤ length tags.now }
    ensures some { IfSome result
        (λ s. (from ≤ s) × (s < end) × (tag_at tags.now s ≢ 0)) }
    ensures last { IfSome result (λ s. (i : ℕ) → s < i → i < end → tag_at tags.now i ≡ 0) }
    ensures none { IfNone result ((i : ℕ) → from ≤ i → i < end → tag_at tags.now i ≡ 0) }
{
    'each: for slot in (from..end).rev() {
        if !is_free(tags, slot) {
            return Some(slot);
        }
    }
    None
}

/// Returns the last taken slot from `from` on and before `end`, or `None` if there is none.
///
/// Tests the slot before `end` first, then sixteen at once, and fewer than sixteen one by one.
#[inline]
pub fn last_taken(tags: &[u8], from: usize, end: usize) -> Option<usize>
    requires { end ≤ length tags.now }
    ensures some { IfSome result
        (λ s. (from ≤ s) × (s < end) × (tag_at tags.now s ≢ 0)) }
    ensures last { IfSome result (λ s. (i : ℕ) → s < i → i < end → tag_at tags.now i ≡ 0) }
    ensures none { IfNone result ((i : ℕ) → from ≤ i → i < end → tag_at tags.now i ≡ 0) }
{
    if from < end && !is_free(tags, end - 1) {
        return Some(end - 1);
    }
    let mut last = end;
    'each: while last >= GROUP_SIZE && from < last {
        let first = last - GROUP_SIZE;
        let mask = taken_in(tags, first);
        if mask != 0 {
            let slot = first + (63 - mask.leading_zeros() as usize);
            return if slot < from { None } else { Some(slot) };
        }
        last = first;
    }
    last_of_few(tags, from, last)
}
