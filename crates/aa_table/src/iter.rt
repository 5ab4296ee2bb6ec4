//! Double-ended iterators over the keys and values of a table.
ghost use Rattle.std.specs.Prelude.{◌≡◌, ◌≤◌, length, Some, IfSome};
ghost use Rattle.std.specs.Iterator.{YieldsFirst, YieldsFirstBy, YieldsLast, YieldsLastBy, UpTo, item_count};
ghost use Rattle.std.specs.Iterator.SizeHint.{IsWithinCount};
ghost use Rattle.allocator_api2.specs.Places.{somes};
ghost use Rattle.aa_table.specs.Places.{tags_of, AreFree, AreHeld};
ghost use Rattle.aa_table.specs.Walks.{AreGroups};

use crate::growth::drop_between;
use crate::index::{HashIndex, tags_in};
use crate::walk::{Walk, last_taken};
use allocator_api2::raw_vec::RawVec;
use std::alloc::Allocator;
use std::iter::FusedIterator;
use std::marker::Model;

// Returns the size hint of an iterator with `left` remaining items.
#[inline]
fn exact_hint(left: usize) -> (usize, Option<usize>)
    ensures { result ≡ (left, Some left) }
{
    (left, Some(left))
}

/// An iterator over the keys and values of a table.
///
/// Returned by `Table::iter`. A contract sees it as the list of the remaining pairs.
#[derive(Drop)]
pub struct Iter<'a, K, V, A: Allocator> {
    tags: &'a [u8],
    places: &'a RawVec<(K, V), A>,
    // the walk over the remaining slots, where they end, and the number of keys in them
    walk: Walk,
    end: usize,
    left: usize,
}

impl<'a, K, V, A: Allocator> Model for Iter<'a, K, V, A> {
    ghost use Rattle.std.specs.Prelude.{List};
    ghost use Rattle.aa_table.specs.Remaining.{remaining_in, IsRemaining};

    ghost Value = { List (K × V) };

    ghost view = { λ it. remaining_in it.places.now.places it.walk.from it.end };

    ghost invariant = { λ it. IsRemaining it.tags.now it.places.now.places it.walk it.end it.left };
}

impl<'a, K, V, A: Allocator> Iter<'a, K, V, A> {
    /// Returns an iterator over all keys of a table with `count` keys.
    #[tactic(auto, using(crate::proofs::Remaining::all_slots))]
    pub(crate) fn over(tags: &'a [u8], places: &'a RawVec<(K, V), A>, count: usize) -> Self
        requires groups { AreGroups tags.now }
        requires places { length tags.now ≤ length places.now.places }
        requires held { AreHeld tags.now places.now.places }
        requires free { AreFree tags.now places.now.places }
        requires count { count ≡ length (somes places.now.places) }
        ensures { result ≡ somes places.now.places }
    {
        Iter {
            tags,
            places,
            walk: Walk::start(tags),
            end: tags.len(),
            left: count,
        }
    }

    // Returns an iterator over the same remaining entries.
    pub(crate) fn duplicate(&self) -> Self
        ensures { result ≡ self.now }
    {
        Iter {
            tags: self.tags,
            places: self.places,
            walk: self.walk,
            end: self.end,
            left: self.left,
        }
    }
}

impl<'a, K, V, A: Allocator> Iterator for Iter<'a, K, V, A> {
    type Item = (&'a K, &'a V);

    ghost next_gives = { YieldsFirstBy (λ item. (item.0.now, item.1.now)) (λ rest. rest) };

    ghost remaining = { item_count (λ rest. rest) };

    /// Returns the next key with its value, or `None` if none remains.
    #[tactic(auto, using(crate::proofs::Remaining::from_first))]
    #[inline]
    fn next(&mut self) -> Option<(&'a K, &'a V)> {
        if self.left == 0 {
            return None;
        }
        let slot = self.walk.next_taken(self.tags);
        let entry = self.places.place(slot);
        self.left -= 1;
        Some((&entry.0, &entry.1))
    }

    /// Returns the exact number of remaining keys, as both bounds.
    fn size_hint(&self) -> (usize, Option<usize>)
        ensures lower { IsWithinCount result.0 (item_count (λ rest. rest) self.now) }
        ensures upper { IfSome result.1 (UpTo (item_count (λ rest. rest) self.now)) }
        ensures exact { result ≡ (length self.now, Some (length self.now)) }
    {
        exact_hint(self.left)
    }
}

impl<'a, K, V, A: Allocator> DoubleEndedIterator for Iter<'a, K, V, A> {
    ghost next_back_gives = { YieldsLastBy (λ item. (item.0.now, item.1.now)) (λ rest. rest) };

    /// Returns the last remaining key with its value, or `None` if none remains.
    #[tactic(auto, using(crate::proofs::Remaining::from_last))]
    fn next_back(&mut self) -> Option<(&'a K, &'a V)> {
        let slot = last_taken(self.tags, self.walk.from, self.end)?;
        let entry = self.places.place(slot);
        self.end = slot;
        self.left -= 1;
        Some((&entry.0, &entry.1))
    }
}

impl<'a, K, V, A: Allocator> ExactSizeIterator for Iter<'a, K, V, A> {
    fn len(&self) -> usize {
        self.left
    }
}

impl<'a, K, V, A: Allocator> FusedIterator for Iter<'a, K, V, A> {}

/// An iterator over the keys of a table.
///
/// Returned by `Table::keys`. A contract sees it as the list of the remaining keys.
#[derive(Drop)]
pub struct Keys<'a, K, V, A: Allocator> {
    pub(crate) rest: Iter<'a, K, V, A>,
}

impl<'a, K, V, A: Allocator> Model for Keys<'a, K, V, A> {
    ghost use Rattle.std.specs.Prelude.{List, map};

    ghost Value = { List K };

    ghost view = { λ it. map (λ (e : K × V). e.0) it.rest };
}

impl<'a, K, V, A: Allocator> Iterator for Keys<'a, K, V, A> {
    type Item = &'a K;

    ghost next_gives = { YieldsFirstBy (λ key. key.now) (λ rest. rest) };

    ghost remaining = { item_count (λ rest. rest) };

    /// Returns the next key, or `None` if none remains.
    #[inline]
    fn next(&mut self) -> Option<&'a K> {
        match self.rest.next() {
            Some((key, _)) => Some(key),
            None => None,
        }
    }

    /// Returns the exact number of remaining keys, as both bounds.
    fn size_hint(&self) -> (usize, Option<usize>)
        ensures lower { IsWithinCount result.0 (item_count (λ rest. rest) self.now) }
        ensures upper { IfSome result.1 (UpTo (item_count (λ rest. rest) self.now)) }
        ensures exact { result ≡ (length self.now, Some (length self.now)) }
    {
        self.rest.size_hint()
    }
}

impl<'a, K, V, A: Allocator> ExactSizeIterator for Keys<'a, K, V, A> {
    fn len(&self) -> usize {
        self.rest.len()
    }
}

impl<'a, K, V, A: Allocator> FusedIterator for Keys<'a, K, V, A> {}

/// An iterator over the values of a table.
///
/// Returned by `Table::values`. A contract sees it as the list of the remaining values.
#[derive(Drop)]
pub struct Values<'a, K, V, A: Allocator> {
    pub(crate) rest: Iter<'a, K, V, A>,
}

impl<'a, K, V, A: Allocator> Model for Values<'a, K, V, A> {
    ghost use Rattle.std.specs.Prelude.{List, map};

    ghost Value = { List V };

    ghost view = { λ it. map (λ (e : K × V). e.1) it.rest };
}

impl<'a, K, V, A: Allocator> Iterator for Values<'a, K, V, A> {
    type Item = &'a V;

    ghost next_gives = { YieldsFirstBy (λ value. value.now) (λ rest. rest) };

    ghost remaining = { item_count (λ rest. rest) };

    /// Returns the next value, or `None` if none remains.
    #[inline]
    fn next(&mut self) -> Option<&'a V> {
        match self.rest.next() {
            Some((_, value)) => Some(value),
            None => None,
        }
    }

    /// Returns the exact number of remaining values, as both bounds.
    fn size_hint(&self) -> (usize, Option<usize>)
        ensures lower { IsWithinCount result.0 (item_count (λ rest. rest) self.now) }
        ensures upper { IfSome result.1 (UpTo (item_count (λ rest. rest) self.now)) }
        ensures exact { result ≡ (length self.now, Some (length self.now)) }
    {
        self.rest.size_hint()
    }
}

impl<'a, K, V, A: Allocator> ExactSizeIterator for Values<'a, K, V, A> {
    fn len(&self) -> usize {
        self.rest.len()
    }
}

impl<'a, K, V, A: Allocator> FusedIterator for Values<'a, K, V, A> {}

/// An iterator that owns the keys and values of a table.
///
/// Returned by `Table::into_iter`. A contract sees it as the list of the remaining pairs.
pub struct IntoIter<K, V, A: Allocator> {
    index: Option<HashIndex<A>>,
    places: RawVec<(K, V), A>,
    // the walk over the remaining slots, where they end, and the number of keys in them
    walk: Walk,
    end: usize,
    left: usize,
}

impl<K, V, A: Allocator> Model for IntoIter<K, V, A> {
    ghost use Rattle.std.specs.Prelude.{List};
    ghost use Rattle.aa_table.specs.Remaining.{remaining_in, IsRemaining};
    ghost use Rattle.aa_table.specs.Places.{tags_of};

    ghost Value = { List (K × V) };

    ghost view = { λ it. remaining_in it.places.places it.walk.from it.end };

    ghost invariant = { λ it. IsRemaining
        (tags_of it.index) it.places.places it.walk it.end it.left };
}

impl<K, V, A: Allocator> IntoIter<K, V, A> {
    /// Returns an iterator over all keys of a table with `count` keys.
    #[tactic(auto, using(crate::proofs::Remaining::all_slots))]
    pub(crate) fn over(index: Option<HashIndex<A>>, places: RawVec<(K, V), A>, count: usize) -> Self
        requires groups { AreGroups (tags_of index) }
        requires places { length (tags_of index) ≤ length places.places }
        requires held { AreHeld (tags_of index) places.places }
        requires free { AreFree (tags_of index) places.places }
        requires count { count ≡ length (somes places.places) }
        ensures { result ≡ somes places.places }
    {
        let tags = tags_in(&index);
        let (walk, end) = (Walk::start(tags), tags.len());
        IntoIter {
            index,
            places,
            walk,
            end,
            left: count,
        }
    }
}

impl<K: Drop, V: Drop, A: Allocator> Drop for IntoIter<K, V, A> {
    /// Drops the remaining keys and values, and frees the blocks.
    #[tactic(auto, using(allocator_api2::proofs::Blocks::emptied))]
    fn drop(self) {
        let IntoIter {
            index,
            mut places,
            walk,
            end,
            left: _,
        } = self;
        drop_between(tags_in(&index), &mut places, walk.from, end);
        places.forget_from(0);
        drop(index);
    }
}

impl<K: Drop, V: Drop, A: Allocator> Iterator for IntoIter<K, V, A> {
    type Item = (K, V);

    ghost next_gives = { YieldsFirst (λ rest. rest) };

    ghost remaining = { item_count (λ rest. rest) };

    /// Returns the next key with its value, or `None` if none remains.
    #[tactic(auto, using(crate::proofs::Remaining::from_first))]
    #[inline]
    fn next(&mut self) -> Option<(K, V)> {
        if self.left == 0 {
            return None;
        }
        let slot = self.walk.next_taken(tags_in(&self.index));
        self.left -= 1;
        Some(self.places.take(slot))
    }

    /// Returns the exact number of remaining keys, as both bounds.
    fn size_hint(&self) -> (usize, Option<usize>)
        ensures lower { IsWithinCount result.0 (item_count (λ rest. rest) self.now) }
        ensures upper { IfSome result.1 (UpTo (item_count (λ rest. rest) self.now)) }
        ensures exact { result ≡ (length self.now, Some (length self.now)) }
    {
        exact_hint(self.left)
    }
}

impl<K: Drop, V: Drop, A: Allocator> DoubleEndedIterator for IntoIter<K, V, A> {
    ghost next_back_gives = { YieldsLast (λ rest. rest) };

    /// Returns the last remaining key with its value, or `None` if none remains.
    #[tactic(auto, using(crate::proofs::Remaining::from_last))]
    fn next_back(&mut self) -> Option<(K, V)> {
        let slot = last_taken(tags_in(&self.index), self.walk.from, self.end)?;
        self.end = slot;
        self.left -= 1;
        Some(self.places.take(slot))
    }
}

impl<K: Drop, V: Drop, A: Allocator> ExactSizeIterator for IntoIter<K, V, A> {
    fn len(&self) -> usize {
        self.left
    }
}

impl<K: Drop, V: Drop, A: Allocator> FusedIterator for IntoIter<K, V, A> {}
