//! Iterators that own the keys of a table, or the values.
ghost use Rattle.std.specs.Prelude.{◌≡◌, length, Some, IfSome};
ghost use Rattle.std.specs.Iterator.{YieldsFirst, UpTo, item_count};
ghost use Rattle.std.specs.Iterator.SizeHint.{IsWithinCount};

use crate::iter::IntoIter;
use std::alloc::Allocator;
use std::iter::FusedIterator;
use std::marker::Model;

/// An iterator that owns the keys of a table.
///
/// Returned by `Table::into_keys`. A contract sees it as the list of the remaining keys.
#[derive(Drop)]
pub struct IntoKeys<K, V, A: Allocator> {
    pub(crate) rest: IntoIter<K, V, A>,
}

impl<K, V, A: Allocator> Model for IntoKeys<K, V, A> {
    ghost use Rattle.std.specs.Prelude.{List, map};

    ghost Value = { List K };

    ghost view = { λ it. map (λ (e : K × V). e.0) it.rest };
}

impl<K: Drop, V: Drop, A: Allocator> Iterator for IntoKeys<K, V, A> {
    type Item = K;

    ghost next_gives = { YieldsFirst (λ rest. rest) };

    ghost remaining = { item_count (λ rest. rest) };

    /// Returns the next key and drops its value, or returns `None` if none remains.
    #[inline]
    fn next(&mut self) -> Option<K> {
        match self.rest.next() {
            Some((key, _)) => Some(key),
            None => None,
        }
    }

    /// Returns the exact number of remaining keys, as both bounds.
    fn size_hint(&self) -> (usize, Option<usize>)
        ensures lower { IsWithinCount result.0 (item_count (λ rest. rest) self.now) }
        ensures upper { IfSome result.1 (UpTo (item_count (λ rest. rest) self.now)) }
        ensures exact { result ≡ (length self.now, Some (length self.now)) }
    {
        self.rest.size_hint()
    }
}

impl<K: Drop, V: Drop, A: Allocator> ExactSizeIterator for IntoKeys<K, V, A> {
    fn len(&self) -> usize {
        self.rest.len()
    }
}

impl<K: Drop, V: Drop, A: Allocator> FusedIterator for IntoKeys<K, V, A> {}

/// An iterator that owns the values of a table.
///
/// Returned by `Table::into_values`. A contract sees it as the list of the remaining values.
#[derive(Drop)]
pub struct IntoValues<K, V, A: Allocator> {
    pub(crate) rest: IntoIter<K, V, A>,
}

impl<K, V, A: Allocator> Model for IntoValues<K, V, A> {
    ghost use Rattle.std.specs.Prelude.{List, map};

    ghost Value = { List V };

    ghost view = { λ it. map (λ (e : K × V). e.1) it.rest };
}

impl<K: Drop, V: Drop, A: Allocator> Iterator for IntoValues<K, V, A> {
    type Item = V;

    ghost next_gives = { YieldsFirst (λ rest. rest) };

    ghost remaining = { item_count (λ rest. rest) };

    /// Returns the next value and drops its key, or returns `None` if none remains.
    #[inline]
    fn next(&mut self) -> Option<V> {
        match self.rest.next() {
            Some((_, value)) => Some(value),
            None => None,
        }
    }

    /// Returns the exact number of remaining values, as both bounds.
    fn size_hint(&self) -> (usize, Option<usize>)
        ensures lower { IsWithinCount result.0 (item_count (λ rest. rest) self.now) }
        ensures upper { IfSome result.1 (UpTo (item_count (λ rest. rest) self.now)) }
        ensures exact { result ≡ (length self.now, Some (length self.now)) }
    {
        self.rest.size_hint()
    }
}

impl<K: Drop, V: Drop, A: Allocator> ExactSizeIterator for IntoValues<K, V, A> {
    fn len(&self) -> usize {
        self.rest.len()
    }
}

impl<K: Drop, V: Drop, A: Allocator> FusedIterator for IntoValues<K, V, A> {}
