//! Iterators that lend the values of a map mutably, in the order of the keys.
ghost use Rattle.std.specs.Prelude.{◌≡◌, length, Some, IfSome};
ghost use Rattle.std.specs.Borrow.{sem};
ghost use Rattle.std.specs.Iterator.{YieldsFirstBy, YieldsLastBy, UpTo, item_count};
ghost use Rattle.std.specs.Iterator.SizeHint.{IsWithinCount};
ghost use Rattle.std.specs.Map.{values_of};
ghost use Rattle.aa_ordered.specs.Entries.{IsOrdered};
ghost use Rattle.aa_ordered.specs.IterMut.{values, KeepsKeys};

use crate::leaves::{Head, LEAF};
use crate::map::OrderedMap;
use allocator_api2::raw_vec::EntriesMut;
use std::alloc::Allocator;
use std::cmp::Ord;
use std::iter::FusedIterator;
use std::marker::Model;

/// A double-ended iterator over the keys of a map and mutable references to their values, in the
/// order of the keys.
///
/// Returned by `OrderedMap::iter_mut`. A contract sees it as the list of the remaining entries, and
/// the name of its borrow of the map.
#[derive(Drop)]
pub struct IterMut<'a, K, V> {
    // the heads of the lists that no entry was taken from, and the entries in all places
    heads: &'a [Head],
    entries: EntriesMut<'a, K, V>,
    // where the remaining entries of the list before those begin and end
    at: usize,
    end: usize,
    // where the remaining entries of the list after those begin and end
    from: usize,
    until: usize,
    // the number of all remaining entries
    left: usize,
}

impl<'a, K, V> Model for IterMut<'a, K, V> {
    ghost use Rattle.aa_raw.specs.EntriesMut.{borrow_name, places_left};
    ghost use Rattle.aa_ordered.specs.IterMut.{entries_in, IsLending, Lent};

    ghost Value = { Lent K V };

    ghost view = { λ it. record {
      entries = entries_in
          (places_left it.entries) it.heads.now it.at it.end it.from it.until;
      borrow = borrow_name it.entries;
    } };

    ghost invariant = { λ it. IsLending
        (places_left it.entries) it.heads.now it.at it.end it.from it.until it.left };
}

impl<'a, K, V> Iterator for IterMut<'a, K, V> {
    type Item = (&'a K, &'a mut V);

    ghost next_gives = { YieldsFirstBy (λ item. (item.0.now, item.1.now)) (λ it. it.entries) };

    ghost remaining = { item_count (λ it. it.entries) };

    /// Returns the next key with a mutable reference to its value, or `None` if none remains.
    #[inline]
    fn next(&mut self) -> Option<(&'a K, &'a mut V)> {
        if self.left == 0 {
            return None;
        }
        'list: while self.at == self.end {
            match self.heads.split_first() {
                Some((head, others)) => {
                    self.at = head.leaf * LEAF;
                    self.end = self.at + head.len;
                    self.heads = others;
                }
                None => {
                    self.at = self.from;
                    self.end = self.until;
                    self.from = self.until;
                }
            }
        }
        let at = self.at;
        self.at = at + 1;
        self.left -= 1;
        Some(self.entries.take(at))
    }

    /// Returns the exact number of remaining entries, as both bounds.
    fn size_hint(&self) -> (usize, Option<usize>)
        ensures lower { IsWithinCount result.0 (item_count (λ it. it.entries) self.now) }
        ensures upper { IfSome result.1 (UpTo (item_count (λ it. it.entries) self.now)) }
        ensures exact { result ≡ (length self.now.entries, Some (length self.now.entries)) }
    {
        (self.left, Some(self.left))
    }
}

impl<'a, K, V> DoubleEndedIterator for IterMut<'a, K, V> {
    ghost next_back_gives = { YieldsLastBy (λ item. (item.0.now, item.1.now)) (λ it. it.entries) };

    /// Returns the last of the remaining keys with a mutable reference to its value, or `None` if
    /// none remains.
    #[inline]
    fn next_back(&mut self) -> Option<(&'a K, &'a mut V)> {
        if self.left == 0 {
            return None;
        }
        'list: while self.from == self.until {
            match self.heads.split_last() {
                Some((head, others)) => {
                    self.from = head.leaf * LEAF;
                    self.until = self.from + head.len;
                    self.heads = others;
                }
                None => {
                    self.from = self.at;
                    self.until = self.end;
                    self.at = self.end;
                }
            }
        }
        let last = self.until - 1;
        self.until = last;
        self.left -= 1;
        Some(self.entries.take(last))
    }
}

impl<'a, K, V> ExactSizeIterator for IterMut<'a, K, V> {
    fn len(&self) -> usize {
        self.left
    }
}

impl<'a, K, V> FusedIterator for IterMut<'a, K, V> {}

/// A double-ended iterator over mutable references to the values of a map, in the order of the
/// keys.
///
/// Returned by `OrderedMap::values_mut`. A contract sees it as an `IterMut`.
#[derive(Drop)]
pub struct ValuesMut<'a, K, V> {
    rest: IterMut<'a, K, V>,
}

impl<'a, K, V> Model for ValuesMut<'a, K, V> {
    ghost use Rattle.aa_ordered.specs.IterMut.{Lent};

    ghost Value = { Lent K V };

    ghost view = { λ it. it.rest };
}

impl<'a, K, V> Iterator for ValuesMut<'a, K, V> {
    type Item = &'a mut V;

    ghost next_gives = { YieldsFirstBy (λ value. value.now) values };

    ghost remaining = { item_count (λ it. it.entries) };

    /// Returns a mutable reference to the next value, or `None` if none remains.
    #[inline]
    fn next(&mut self) -> Option<&'a mut V> {
        match self.rest.next() {
            Some((_, value)) => Some(value),
            None => None,
        }
    }

    /// Returns the exact number of remaining values, as both bounds.
    fn size_hint(&self) -> (usize, Option<usize>)
        ensures lower { IsWithinCount result.0 (item_count (λ it. it.entries) self.now) }
        ensures upper { IfSome result.1 (UpTo (item_count (λ it. it.entries) self.now)) }
        ensures exact { result ≡ (length self.now.entries, Some (length self.now.entries)) }
    {
        self.rest.size_hint()
    }
}

impl<'a, K, V> DoubleEndedIterator for ValuesMut<'a, K, V> {
    ghost next_back_gives = { YieldsLastBy (λ value. value.now) values };

    /// Returns a mutable reference to the last of the remaining values, or `None` if none remains.
    #[inline]
    fn next_back(&mut self) -> Option<&'a mut V> {
        match self.rest.next_back() {
            Some((_, value)) => Some(value),
            None => None,
        }
    }
}

impl<'a, K, V> ExactSizeIterator for ValuesMut<'a, K, V> {
    fn len(&self) -> usize {
        self.rest.len()
    }
}

impl<'a, K, V> FusedIterator for ValuesMut<'a, K, V> {}

impl<K: Ord, V, A: Allocator> OrderedMap<K, V, A> {
    ghost use Rattle.aa_ordered.specs.IterLends.{lends_values};

    /// Returns a double-ended iterator over the keys and mutable references to their values, in
    /// the order of the keys.
    ///
    /// When the borrow ends, each key has the last value written to it. Does not allocate.
    #[tactic(auto, using(crate::proofs::Revalued::kept_keys))]
    pub fn iter_mut(&mut self) -> IterMut<'_, K, V>
        ensures* writes_back { sem 𝓛 (lends_values K.row V.row A.row K.Ord A.Allocator self.entry
            result.borrow) }
        ensures keys { KeepsKeys self.old.entries }
        ensures entries { result.entries ≡ self.old.entries }
        ensures ordered { IsOrdered K.cmp self.old.entries }
    {
        self.leaves.prove_bounds();
        let left = self.len;
        let (heads, used, entries) = self.lend();
        IterMut {
            heads: &heads.as_slice()[..used],
            entries,
            at: 0,
            end: 0,
            from: 0,
            until: 0,
            left,
        }
    }

    /// Returns a double-ended iterator over mutable references to the values, in the order of the
    /// keys.
    ///
    /// When the borrow ends, each key has the last value written to it. Does not allocate.
    pub fn values_mut(&mut self) -> ValuesMut<'_, K, V>
        ensures* writes_back { sem 𝓛 (lends_values K.row V.row A.row K.Ord A.Allocator self.entry
            result.borrow) }
        ensures keys { KeepsKeys self.old.entries }
        ensures values { values result ≡ values_of self.old.entries }
    {
        ValuesMut {
            rest: self.iter_mut(),
        }
    }
}

impl<'a, K: Ord, V, A: Allocator> IntoIterator for &'a mut OrderedMap<K, V, A> {
    type Item = (&'a K, &'a mut V);

    type IntoIter = IterMut<'a, K, V>;

    ghost into_iter_gives = { λ map it. (it.entries ≡ map.now.entries)
        × IsOrdered K.cmp map.now.entries };

    fn into_iter(self) -> IterMut<'a, K, V> {
        self.iter_mut()
    }
}
