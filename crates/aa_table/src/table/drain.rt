//! `Drain`: an iterator that removes all keys of a table.
ghost use Rattle.std.specs.Prelude.{◌≡◌, ◌≢◌, ◌∷◌, ◌<◌, [], Some, None, IfSome, IfNone, MatchOption, IsPermutation, ℕ, length, ◌≤◌};
ghost use Rattle.std.specs.Iterator.{UpTo, item_count};
ghost use Rattle.std.specs.Iterator.SizeHint.{IsWithinCount};
ghost use Rattle.aa_table.specs.Slots.{tag_at};

use super::Table;
use crate::index::{hash_of, tags_in};
use crate::slots::is_free;
use std::alloc::Allocator;
use std::hash::{BuildHasher, Hash};
use std::iter::FusedIterator;

/// An iterator that removes all keys of a table, and returns them with their values.
///
/// Returned by `Table::drain`. The table has the entries that were not returned yet. Dropping the
/// iterator drops them, and the table is then empty; forgetting it leaves them in the table. Does
/// not allocate, and does not change the capacity.
pub struct Drain<'a, K: Eq + Hash, V, S: BuildHasher, A: Allocator> {
    table: &'a mut Table<K, V, S, A>,
    // the slot at which the search for the next key begins
    from: usize,
}

// Returns the first taken slot from `from` on, or `None` if there is none.
fn taken_from(tags: &[u8], from: usize) -> Option<usize>
    ensures some { IfSome result (λ s. (s < length tags.now) × (tag_at tags.now s ≢ 0)) }
    ensures none { IfNone result ((s : ℕ) → from ≤ s → tag_at tags.now s ≡ 0) }
{
    'each: for slot in from..tags.len() {
        if !is_free(tags, slot) {
            return Some(slot);
        }
    }
    None
}

// Returns a taken slot, the first from `from` on if there is one, or `None` if all are free.
fn next_taken(tags: &[u8], from: usize) -> Option<usize>
    ensures some { IfSome result (λ s. (s < length tags.now) × (tag_at tags.now s ≢ 0)) }
    ensures none { IfNone result ((s : ℕ) → tag_at tags.now s ≡ 0) }
{
    match taken_from(tags, from) {
        Some(slot) => Some(slot),
        None => taken_from(tags, 0),
    }
}

impl<K: Eq + Hash + Drop, V: Drop, S: BuildHasher, A: Allocator> Table<K, V, S, A> {
    ghost use Rattle.aa_table.specs.Draining.{drain_lender, drain_table};

    // Returns the number of keys.
    pub(crate) fn remaining(&self) -> usize
        ensures { result ≡ length self.now.entries }
    {
        self.count
    }

    // Removes an entry and returns it: the first in a slot from `from` on, if there is one.
    pub(crate) fn take_next(&mut self, from: &mut usize) -> Option<(K, V)>
        ensures taken { MatchOption result
            ((self.old.entries ≡ []) × (self.new.entries ≡ []))
            (λ e. IsPermutation self.old.entries (e ∷ self.new.entries)) }
        ensures capacity { self.new.capacity ≡ self.old.capacity }
        ensures resizes { self.new.resizes ≡ self.old.resizes }
        ensures builder { self.new.builder ≡ self.old.builder }
    {
        if self.count == 0 {
            return None;
        }
        let Some(slot) = next_taken(tags_in(&self.index), *from) else {
            return None;
        };
        *from = slot + 1;
        let hash = hash_of(&self.builder, &self.places.place(slot).0);
        let entry = match &mut self.index {
            Some(index) => index.take_out(&mut self.places, hash, slot),
            None => unreachable!(),
        };
        self.count -= 1;
        Some(entry)
    }

    /// Removes all keys, and returns an iterator over them and their values.
    ///
    /// Each key is returned once. The order is not specified. The table is empty once the iterator
    /// is dropped. Does not allocate, and does not change the capacity.
    pub fn drain(&mut self) -> Drain<'_, K, V, S, A>
        ensures lender { drain_lender result ≡ self.entry.ghost_name }
        ensures drained { drain_table result ≡ self.old }
    {
        Drain {
            table: self,
            from: 0,
        }
    }
}

impl<'a, K: Eq + Hash + Drop, V: Drop, S: BuildHasher, A: Allocator> Iterator
    for Drain<'a, K, V, S, A> {
    ghost use Rattle.aa_table.specs.Draining.{drain_remaining, DrainsEntry};

    type Item = (K, V);

    ghost next_gives = { DrainsEntry };

    ghost remaining = { item_count drain_remaining };

    /// Removes a key and returns it with its value, or returns `None` if none remains.
    fn next(&mut self) -> Option<(K, V)> {
        self.table.take_next(&mut self.from)
    }

    /// Returns the exact number of remaining keys, as both bounds.
    fn size_hint(&self) -> (usize, Option<usize>)
        ensures lower { IsWithinCount result.0 (item_count drain_remaining self.now) }
        ensures upper { IfSome result.1 (UpTo (item_count drain_remaining self.now)) }
        ensures exact { result
            ≡ (length (drain_remaining self.now), Some (length (drain_remaining self.now))) }
    {
        let left = self.table.remaining();
        (left, Some(left))
    }
}

impl<'a, K: Eq + Hash + Drop, V: Drop, S: BuildHasher, A: Allocator> ExactSizeIterator
    for Drain<'a, K, V, S, A> {
    fn len(&self) -> usize {
        self.table.remaining()
    }
}

impl<'a, K: Eq + Hash + Drop, V: Drop, S: BuildHasher, A: Allocator> FusedIterator
    for Drain<'a, K, V, S, A> {}

impl<'a, K: Eq + Hash + Drop, V: Drop, S: BuildHasher, A: Allocator> Drop
    for Drain<'a, K, V, S, A> {
    ghost use Rattle.aa_table.specs.Draining.{drain_table};

    /// Removes the remaining keys and drops them with their values.
    fn drop(self)
        ensures { self.exit.0.now ≡ record (drain_table self.entry) { entries = [] } }
    {
        let Drain { table, from: _ } = self;
        table.clear();
    }
}
