//! Double-ended iterators over the keys and values of a map, in the order of the keys.
ghost use Rattle.std.specs.Prelude.{◌≡◌, length, Some, IfSome};
ghost use Rattle.std.specs.Iterator.{UpTo, YieldsFirstBy, YieldsLastBy, item_count};
ghost use Rattle.std.specs.Iterator.SizeHint.{IsWithinCount};
ghost use Rattle.std.specs.Map.{keys_of, values_of};
ghost use Rattle.aa_ordered.specs.Entries.{IsOrdered};

pub mod items;

use crate::map::OrderedMap;
use items::Items;
use std::alloc::Allocator;
use std::cmp::Ord;
use std::iter::FusedIterator;
use std::marker::Model;

/// A double-ended iterator over the entries of a map, in the order of the keys.
///
/// Returned by `OrderedMap::iter`. A contract sees it as the list of the remaining entries.
#[derive(Drop)]
pub struct Iter<'a, K, V, A: Allocator> {
    items: Items<'a, (K, V), A>,
    left: usize,
}

impl<'a, K, V, A: Allocator> Model for Iter<'a, K, V, A> {
    ghost use Rattle.std.specs.Prelude.{◌≡◌, List, length};

    ghost Value = { List (K × V) };

    ghost view = { λ i. i.items };

    ghost invariant = { λ i. i.left ≡ length i.items };
}

impl<'a, K, V, A: Allocator> Iter<'a, K, V, A> {
    // Returns an iterator over these `count` entries.
    pub(crate) fn over(items: Items<'a, (K, V), A>, count: usize) -> Self
        requires { count ≡ length items }
        ensures { result ≡ items.entry }
    {
        Iter { items, left: count }
    }

    // Returns an iterator over the same remaining entries.
    pub(crate) fn duplicate(&self) -> Self
        ensures { result ≡ self.now }
    {
        Iter {
            items: self.items.duplicate(),
            left: self.left,
        }
    }
}

impl<'a, K, V, A: Allocator> Iterator for Iter<'a, K, V, A> {
    type Item = (&'a K, &'a V);

    ghost next_gives = { YieldsFirstBy (λ item. (item.0.now, item.1.now)) (λ rest. rest) };

    ghost remaining = { item_count (λ rest. rest) };

    /// Returns the next key with its value, or `None` if none remains.
    #[inline]
    fn next(&mut self) -> Option<(&'a K, &'a V)> {
        let entry = self.items.take_first()?;
        self.left -= 1;
        Some((&entry.0, &entry.1))
    }

    /// Returns the exact number of remaining entries, as both bounds.
    fn size_hint(&self) -> (usize, Option<usize>)
        ensures lower { IsWithinCount result.0 (item_count (λ rest. rest) self.now) }
        ensures upper { IfSome result.1 (UpTo (item_count (λ rest. rest) self.now)) }
        ensures exact { result ≡ (length self.now, Some (length self.now)) }
    {
        (self.left, Some(self.left))
    }
}

impl<'a, K, V, A: Allocator> DoubleEndedIterator for Iter<'a, K, V, A> {
    ghost next_back_gives = { YieldsLastBy (λ item. (item.0.now, item.1.now)) (λ rest. rest) };

    /// Returns the last remaining key with its value, or `None` if none remains.
    #[inline]
    fn next_back(&mut self) -> Option<(&'a K, &'a V)> {
        let entry = self.items.take_last()?;
        self.left -= 1;
        Some((&entry.0, &entry.1))
    }
}

impl<'a, K, V, A: Allocator> ExactSizeIterator for Iter<'a, K, V, A> {
    fn len(&self) -> usize {
        self.left
    }
}

impl<'a, K, V, A: Allocator> FusedIterator for Iter<'a, K, V, A> {}

/// A double-ended iterator over the keys of a map, in the order of the keys.
///
/// Returned by `OrderedMap::keys`. A contract sees it as the list of the remaining keys.
#[derive(Drop)]
pub struct Keys<'a, K, V, A: Allocator> {
    pub(crate) rest: Iter<'a, K, V, A>,
}

impl<'a, K, V, A: Allocator> Model for Keys<'a, K, V, A> {
    ghost use Rattle.std.specs.Prelude.{List, map};

    ghost Value = { List K };

    ghost view = { λ it. map (λ (e : K × V). e.0) it.rest };
}

impl<'a, K, V, A: Allocator> Iterator for Keys<'a, K, V, A> {
    type Item = &'a K;

    ghost next_gives = { YieldsFirstBy (λ key. key.now) (λ rest. rest) };

    ghost remaining = { item_count (λ rest. rest) };

    /// Returns the next key, or `None` if none remains.
    #[inline]
    fn next(&mut self) -> Option<&'a K> {
        match self.rest.next() {
            Some((key, _)) => Some(key),
            None => None,
        }
    }

    /// Returns the exact number of remaining keys, as both bounds.
    fn size_hint(&self) -> (usize, Option<usize>)
        ensures lower { IsWithinCount result.0 (item_count (λ rest. rest) self.now) }
        ensures upper { IfSome result.1 (UpTo (item_count (λ rest. rest) self.now)) }
        ensures exact { result ≡ (length self.now, Some (length self.now)) }
    {
        self.rest.size_hint()
    }
}

impl<'a, K, V, A: Allocator> DoubleEndedIterator for Keys<'a, K, V, A> {
    ghost next_back_gives = { YieldsLastBy (λ key. key.now) (λ rest. rest) };

    /// Returns the last remaining key, or `None` if none remains.
    #[inline]
    fn next_back(&mut self) -> Option<&'a K> {
        match self.rest.next_back() {
            Some((key, _)) => Some(key),
            None => None,
        }
    }
}

impl<'a, K, V, A: Allocator> ExactSizeIterator for Keys<'a, K, V, A> {
    fn len(&self) -> usize {
        self.rest.len()
    }
}

impl<'a, K, V, A: Allocator> FusedIterator for Keys<'a, K, V, A> {}

/// A double-ended iterator over the values of a map, in the order of the keys.
///
/// Returned by `OrderedMap::values`. A contract sees it as the list of the remaining values.
#[derive(Drop)]
pub struct Values<'a, K, V, A: Allocator> {
    pub(crate) rest: Iter<'a, K, V, A>,
}

impl<'a, K, V, A: Allocator> Model for Values<'a, K, V, A> {
    ghost use Rattle.std.specs.Prelude.{List, map};

    ghost Value = { List V };

    ghost view = { λ it. map (λ (e : K × V). e.1) it.rest };
}

impl<'a, K, V, A: Allocator> Iterator for Values<'a, K, V, A> {
    type Item = &'a V;

    ghost next_gives = { YieldsFirstBy (λ value. value.now) (λ rest. rest) };

    ghost remaining = { item_count (λ rest. rest) };

    /// Returns the next value, or `None` if none remains.
    #[inline]
    fn next(&mut self) -> Option<&'a V> {
        match self.rest.next() {
            Some((_, value)) => Some(value),
            None => None,
        }
    }

    /// Returns the exact number of remaining values, as both bounds.
    fn size_hint(&self) -> (usize, Option<usize>)
        ensures lower { IsWithinCount result.0 (item_count (λ rest. rest) self.now) }
        ensures upper { IfSome result.1 (UpTo (item_count (λ rest. rest) self.now)) }
        ensures exact { result ≡ (length self.now, Some (length self.now)) }
    {
        self.rest.size_hint()
    }
}

impl<'a, K, V, A: Allocator> DoubleEndedIterator for Values<'a, K, V, A> {
    ghost next_back_gives = { YieldsLastBy (λ value. value.now) (λ rest. rest) };

    /// Returns the last remaining value, or `None` if none remains.
    #[inline]
    fn next_back(&mut self) -> Option<&'a V> {
        match self.rest.next_back() {
            Some((_, value)) => Some(value),
            None => None,
        }
    }
}

impl<'a, K, V, A: Allocator> ExactSizeIterator for Values<'a, K, V, A> {
    fn len(&self) -> usize {
        self.rest.len()
    }
}

impl<'a, K, V, A: Allocator> FusedIterator for Values<'a, K, V, A> {}

impl<K: Ord, V, A: Allocator> OrderedMap<K, V, A> {
    /// Returns a double-ended iterator over the entries, in the order of the keys.
    ///
    /// Does not allocate.
    pub fn iter(&self) -> Iter<'_, K, V, A>
        ensures all { result ≡ self.now.entries }
        ensures ordered { IsOrdered K.cmp self.now.entries }
    {
        Iter::over(Items::all(&self.leaves), self.len)
    }

    /// Returns a double-ended iterator over the keys, in their order.
    ///
    /// Does not allocate.
    pub fn keys(&self) -> Keys<'_, K, V, A>
        ensures all { result ≡ keys_of self.now.entries }
        ensures ordered { IsOrdered K.cmp self.now.entries }
    {
        Keys { rest: self.iter() }
    }

    /// Returns a double-ended iterator over the values, in the order of the keys.
    ///
    /// Does not allocate.
    pub fn values(&self) -> Values<'_, K, V, A>
        ensures { result ≡ values_of self.now.entries }
    {
        Values { rest: self.iter() }
    }
}

impl<'a, K: Ord, V, A: Allocator> IntoIterator for &'a OrderedMap<K, V, A> {
    type Item = (&'a K, &'a V);

    type IntoIter = Iter<'a, K, V, A>;

    ghost into_iter_gives = { λ map it. (it ≡ map.now.entries)
        × IsOrdered K.cmp map.now.entries };

    fn into_iter(self) -> Iter<'a, K, V, A> {
        self.iter()
    }
}
