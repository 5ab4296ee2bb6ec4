//! Iterators that lend the values of a table mutably.
ghost use Rattle.std.specs.Prelude.{◌≡◌, ◌≤◌, length, Some, IfSome};
ghost use Rattle.std.specs.Iterator.{YieldsFirstBy, UpTo, item_count};
ghost use Rattle.std.specs.Iterator.SizeHint.{IsWithinCount};
ghost use Rattle.aa_raw.specs.EntriesMut.{borrow_name, places_left};
ghost use Rattle.aa_raw.specs.Places.{somes};
ghost use Rattle.aa_table.specs.IterMut.{values};
ghost use Rattle.aa_table.specs.Places.{AreFree, AreHeld};
ghost use Rattle.aa_table.specs.Walks.{AreGroups};

use crate::walk::Walk;
use allocator_api2::raw_vec::EntriesMut;
use std::iter::FusedIterator;
use std::marker::Model;

/// An iterator over the keys of a table and mutable references to their values.
///
/// Returned by `Table::iter_mut`. A contract sees it as the list of the remaining pairs, and the
/// name of its borrow of the table.
#[derive(Drop)]
pub struct IterMut<'a, K, V> {
    tags: &'a [u8],
    entries: EntriesMut<'a, K, V>,
    // the walk over the remaining slots, and the number of keys in them
    walk: Walk,
    left: usize,
}

impl<'a, K, V> Model for IterMut<'a, K, V> {
    ghost use Rattle.std.specs.Prelude.{length};
    ghost use Rattle.aa_raw.specs.EntriesMut.{borrow_name, places_left};
    ghost use Rattle.aa_table.specs.Remaining.{remaining_in, IsRemaining};
    ghost use Rattle.aa_table.specs.IterMut.{Lent};

    ghost Value = { Lent K V };

    ghost view = { λ it. record {
      entries = remaining_in (places_left it.entries) it.walk.from (length it.tags.now);
      borrow = borrow_name it.entries;
    } };

    ghost invariant = { λ it. IsRemaining
        it.tags.now (places_left it.entries) it.walk (length it.tags.now) it.left };
}

impl<'a, K, V> IterMut<'a, K, V> {
    /// Returns an iterator over all `count` entries of a table with these tags.
    #[tactic(auto, using(crate::proofs::Remaining::all_slots))]
    pub(crate) fn over(tags: &'a [u8], entries: EntriesMut<'a, K, V>, count: usize) -> Self
        requires slots { AreGroups tags.now }
        requires places { length tags.now ≤ length (places_left entries) }
        requires held { AreHeld tags.now (places_left entries) }
        requires free { AreFree tags.now (places_left entries) }
        requires count { count ≡ length (somes (places_left entries)) }
        ensures entries { result.entries ≡ somes (places_left entries.entry) }
        ensures borrow { result.borrow ≡ borrow_name entries.entry }
    {
        IterMut {
            tags,
            entries,
            walk: Walk::start(tags),
            left: count,
        }
    }
}

impl<'a, K, V> Iterator for IterMut<'a, K, V> {
    type Item = (&'a K, &'a mut V);

    ghost next_gives = { YieldsFirstBy (λ item. (item.0.now, item.1.now)) (λ it. it.entries) };

    ghost remaining = { item_count (λ it. it.entries) };

    /// Returns the next key with a mutable reference to its value, or `None` if none remains.
    #[tactic(auto, using(crate::proofs::Remaining::from_first))]
    #[inline]
    fn next(&mut self) -> Option<(&'a K, &'a mut V)> {
        if self.left == 0 {
            return None;
        }
        let slot = self.walk.next_taken(self.tags);
        self.left -= 1;
        Some(self.entries.take(slot))
    }

    /// Returns the exact number of remaining keys, as both bounds.
    fn size_hint(&self) -> (usize, Option<usize>)
        ensures lower { IsWithinCount result.0 (item_count (λ it. it.entries) self.now) }
        ensures upper { IfSome result.1 (UpTo (item_count (λ it. it.entries) self.now)) }
        ensures exact { result ≡ (length self.now.entries, Some (length self.now.entries)) }
    {
        (self.left, Some(self.left))
    }
}

impl<'a, K, V> ExactSizeIterator for IterMut<'a, K, V> {
    fn len(&self) -> usize {
        self.left
    }
}

impl<'a, K, V> FusedIterator for IterMut<'a, K, V> {}

/// An iterator over mutable references to the values of a table.
///
/// Returned by `Table::values_mut`. A contract sees it as an `IterMut`.
#[derive(Drop)]
pub struct ValuesMut<'a, K, V> {
    pub(crate) rest: IterMut<'a, K, V>,
}

impl<'a, K, V> Model for ValuesMut<'a, K, V> {
    ghost use Rattle.aa_table.specs.IterMut.{Lent};

    ghost Value = { Lent K V };

    ghost view = { λ it. it.rest };
}

impl<'a, K, V> Iterator for ValuesMut<'a, K, V> {
    type Item = &'a mut V;

    ghost next_gives = { YieldsFirstBy (λ value. value.now) values };

    ghost remaining = { item_count (λ it. it.entries) };

    /// Returns a mutable reference to the next value, or `None` if none remains.
    fn next(&mut self) -> Option<&'a mut V> {
        match self.rest.next() {
            Some((_, value)) => Some(value),
            None => None,
        }
    }

    /// Returns the exact number of remaining values, as both bounds.
    fn size_hint(&self) -> (usize, Option<usize>)
        ensures lower { IsWithinCount result.0 (item_count (λ it. it.entries) self.now) }
        ensures upper { IfSome result.1 (UpTo (item_count (λ it. it.entries) self.now)) }
        ensures exact { result ≡ (length self.now.entries, Some (length self.now.entries)) }
    {
        self.rest.size_hint()
    }
}

impl<'a, K, V> ExactSizeIterator for ValuesMut<'a, K, V> {
    fn len(&self) -> usize {
        self.rest.len()
    }
}

impl<'a, K, V> FusedIterator for ValuesMut<'a, K, V> {}
