//! Double-ended iterators that own the keys and values of a map, in the order of the keys.
ghost use Rattle.std.specs.Prelude.{◌≡◌, length, Some, IfSome};
ghost use Rattle.std.specs.Iterator.{YieldsFirst, YieldsLast, UpTo, item_count};
ghost use Rattle.std.specs.Iterator.SizeHint.{IsWithinCount};
ghost use Rattle.std.specs.Map.{keys_of, values_of};
ghost use Rattle.aa_ordered.specs.Entries.{IsOrdered};

use crate::leaves::taking::IntoItems;
use crate::map::OrderedMap;
use std::alloc::Allocator;
use std::cmp::Ord;
use std::iter::FusedIterator;
use std::marker::Model;

/// A double-ended iterator that owns the entries of a map.
///
/// Returned by `OrderedMap::into_iter`. When dropped, it drops the remaining entries and frees the
/// memory. A contract sees it as the list of the remaining entries.
#[derive(Drop)]
pub struct IntoIter<K, V, A: Allocator> {
    items: IntoItems<(K, V), A>,
}

impl<K, V, A: Allocator> Model for IntoIter<K, V, A> {
    ghost use Rattle.std.specs.Prelude.{List};

    ghost Value = { List (K × V) };

    ghost view = { λ it. it.items };
}

impl<K: Drop, V: Drop, A: Allocator> Iterator for IntoIter<K, V, A> {
    type Item = (K, V);

    ghost next_gives = { YieldsFirst (λ rest. rest) };

    ghost remaining = { item_count (λ rest. rest) };

    /// Returns the next key with its value, or `None` if none remains.
    #[inline]
    fn next(&mut self) -> Option<(K, V)> {
        self.items.next()
    }

    /// Returns the exact number of remaining entries, as both bounds.
    fn size_hint(&self) -> (usize, Option<usize>)
        ensures lower { IsWithinCount result.0 (item_count (λ rest. rest) self.now) }
        ensures upper { IfSome result.1 (UpTo (item_count (λ rest. rest) self.now)) }
        ensures exact { result ≡ (length self.now, Some (length self.now)) }
    {
        self.items.size_hint()
    }
}

impl<K: Drop, V: Drop, A: Allocator> DoubleEndedIterator for IntoIter<K, V, A> {
    ghost next_back_gives = { YieldsLast (λ rest. rest) };

    /// Returns the last remaining key with its value, or `None` if none remains.
    #[inline]
    fn next_back(&mut self) -> Option<(K, V)> {
        self.items.next_back()
    }
}

impl<K: Drop, V: Drop, A: Allocator> ExactSizeIterator for IntoIter<K, V, A> {
    fn len(&self) -> usize {
        self.items.len()
    }
}

impl<K: Drop, V: Drop, A: Allocator> FusedIterator for IntoIter<K, V, A> {}

/// A double-ended iterator that owns the keys of a map.
///
/// Returned by `OrderedMap::into_keys`. A contract sees it as the list of the remaining keys.
#[derive(Drop)]
pub struct IntoKeys<K, V, A: Allocator> {
    rest: IntoIter<K, V, A>,
}

impl<K, V, A: Allocator> Model for IntoKeys<K, V, A> {
    ghost use Rattle.std.specs.Prelude.{List, map};

    ghost Value = { List K };

    ghost view = { λ it. map (λ (e : K × V). e.0) it.rest };
}

impl<K: Drop, V: Drop, A: Allocator> Iterator for IntoKeys<K, V, A> {
    type Item = K;

    ghost next_gives = { YieldsFirst (λ rest. rest) };

    ghost remaining = { item_count (λ rest. rest) };

    /// Returns the next key and drops its value, or returns `None` if none remains.
    #[inline]
    fn next(&mut self) -> Option<K> {
        match self.rest.next() {
            Some((key, _)) => Some(key),
            None => None,
        }
    }

    /// Returns the exact number of remaining keys, as both bounds.
    fn size_hint(&self) -> (usize, Option<usize>)
        ensures lower { IsWithinCount result.0 (item_count (λ rest. rest) self.now) }
        ensures upper { IfSome result.1 (UpTo (item_count (λ rest. rest) self.now)) }
        ensures exact { result ≡ (length self.now, Some (length self.now)) }
    {
        self.rest.size_hint()
    }
}

impl<K: Drop, V: Drop, A: Allocator> DoubleEndedIterator for IntoKeys<K, V, A> {
    ghost next_back_gives = { YieldsLast (λ rest. rest) };

    /// Returns the last remaining key and drops its value, or returns `None` if none remains.
    #[inline]
    fn next_back(&mut self) -> Option<K> {
        match self.rest.next_back() {
            Some((key, _)) => Some(key),
            None => None,
        }
    }
}

impl<K: Drop, V: Drop, A: Allocator> ExactSizeIterator for IntoKeys<K, V, A> {
    fn len(&self) -> usize {
        self.rest.len()
    }
}

impl<K: Drop, V: Drop, A: Allocator> FusedIterator for IntoKeys<K, V, A> {}

/// A double-ended iterator that owns the values of a map.
///
/// Returned by `OrderedMap::into_values`. A contract sees it as the list of the remaining values.
#[derive(Drop)]
pub struct IntoValues<K, V, A: Allocator> {
    rest: IntoIter<K, V, A>,
}

impl<K, V, A: Allocator> Model for IntoValues<K, V, A> {
    ghost use Rattle.std.specs.Prelude.{List, map};

    ghost Value = { List V };

    ghost view = { λ it. map (λ (e : K × V). e.1) it.rest };
}

impl<K: Drop, V: Drop, A: Allocator> Iterator for IntoValues<K, V, A> {
    type Item = V;

    ghost next_gives = { YieldsFirst (λ rest. rest) };

    ghost remaining = { item_count (λ rest. rest) };

    /// Returns the next value and drops its key, or returns `None` if none remains.
    #[inline]
    fn next(&mut self) -> Option<V> {
        match self.rest.next() {
            Some((_, value)) => Some(value),
            None => None,
        }
    }

    /// Returns the exact number of remaining values, as both bounds.
    fn size_hint(&self) -> (usize, Option<usize>)
        ensures lower { IsWithinCount result.0 (item_count (λ rest. rest) self.now) }
        ensures upper { IfSome result.1 (UpTo (item_count (λ rest. rest) self.now)) }
        ensures exact { result ≡ (length self.now, Some (length self.now)) }
    {
        self.rest.size_hint()
    }
}

impl<K: Drop, V: Drop, A: Allocator> DoubleEndedIterator for IntoValues<K, V, A> {
    ghost next_back_gives = { YieldsLast (λ rest. rest) };

    /// Returns the last remaining value and drops its key, or returns `None` if none remains.
    #[inline]
    fn next_back(&mut self) -> Option<V> {
        match self.rest.next_back() {
            Some((_, value)) => Some(value),
            None => None,
        }
    }
}

impl<K: Drop, V: Drop, A: Allocator> ExactSizeIterator for IntoValues<K, V, A> {
    fn len(&self) -> usize {
        self.rest.len()
    }
}

impl<K: Drop, V: Drop, A: Allocator> FusedIterator for IntoValues<K, V, A> {}

impl<K: Ord + Drop, V: Drop, A: Allocator> OrderedMap<K, V, A> {
    /// Consumes the map and returns a double-ended iterator over its entries, in the order of the
    /// keys.
    ///
    /// Does not allocate.
    pub fn into_iter(self) -> IntoIter<K, V, A>
        ensures all { result ≡ self.entries }
        ensures ordered { IsOrdered K.cmp self.entries }
    {
        IntoIter {
            items: self.into_leaves().into_items(),
        }
    }

    /// Consumes the map and returns a double-ended iterator over its keys, in their order.
    ///
    /// Does not allocate.
    pub fn into_keys(self) -> IntoKeys<K, V, A>
        ensures all { result ≡ keys_of self.entries }
        ensures ordered { IsOrdered K.cmp self.entries }
    {
        IntoKeys {
            rest: self.into_iter(),
        }
    }

    /// Consumes the map and returns a double-ended iterator over its values, in the order of the
    /// keys.
    ///
    /// Does not allocate.
    pub fn into_values(self) -> IntoValues<K, V, A>
        ensures { result ≡ values_of self.entries }
    {
        IntoValues {
            rest: self.into_iter(),
        }
    }
}

impl<K: Ord + Drop, V: Drop, A: Allocator> IntoIterator for OrderedMap<K, V, A> {
    type Item = (K, V);

    type IntoIter = IntoIter<K, V, A>;

    ghost into_iter_gives = { λ map it. (it ≡ map.entries) × IsOrdered K.cmp map.entries };

    fn into_iter(self) -> IntoIter<K, V, A> {
        OrderedMap::into_iter(self)
    }
}
