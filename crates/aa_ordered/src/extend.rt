//! A map made of the items of an iterator, or extended by them.
ghost use Rattle.std.specs.Prelude.{◌≡◌, ◌/◌, ◌^◌, ◌≤◌, List, length, max, Err, IfErr, IfOk, IsOk};
ghost use Rattle.std.specs.Iterator.{Drains, ExtendsWithItems, IsFiniteIterable, size};
ghost use Rattle.allocator_api2.specs.Errors.{IsErrorFor};
ghost use Rattle.aa_ordered.specs.Capacity.{requested};
ghost use Rattle.aa_ordered.specs.Entries.{empty, OrderedView};
ghost use Rattle.aa_ordered.specs.Iterating.{HasCapacity, InsertsAll};

use crate::map::OrderedMap;
use allocator_api2::collections::TryReserveError;
use std::alloc::{AllocError, Allocator};
use std::cmp::Ord;
use std::iter::{Extend, FromIterator, IntoIterator};

impl<K: Ord + Drop, V: Drop, A: Allocator + Clone> OrderedMap<K, V, A> {
    /// Inserts the items of `iter`, each a key with its value; `iter` must end.
    ///
    /// Of equal keys the first remains, with the value of the last. Inserts each item as `insert`
    /// does.
    ///
    /// # Errors
    /// The errors of `insert`. The map keeps the items before the one that could not be inserted,
    /// which is dropped.
    pub fn extend<U: IntoIterator<Item = (K, V)>>(&mut self, iter: U) -> Result<(), TryReserveError>
        requires finite { IsFiniteIterable U.into_iter_gives U.IntoIter.can_next
            U.IntoIter.remaining iter }
        ensures extended { ExtendsWithItems U.into_iter_gives U.IntoIter.next_gives
            (InsertsAll K.cmp) iter self.old self.new result }

        // It succeeds if there is capacity for all items.
        ensures fits { ((it : U.IntoIter) → U.into_iter_gives iter it
            → HasCapacity self.old (size (U.IntoIter.remaining it))) → IsOk result }
        ensures steady { ((it : U.IntoIter) → U.into_iter_gives iter it
            → HasCapacity self.old (size (U.IntoIter.remaining it)))
            → (self.new.capacity ≡ self.old.capacity) × (self.new.resizes ≡ self.old.resizes) }
        ensures error { IfErr result (λ e. IsErrorFor e (requested self.new 1)) }
    {
        'each: for entry in iter {
            let (key, item) = entry;
            match self.insert(key, item) {
                Ok(old) => drop(old),
                Err(refused) => return Err(refused.error),
            }
        }
        Ok(())
    }
}

impl<K: Ord + Drop, V: Drop, A: Allocator + Copy> OrderedMap<K, V, A> {
    /// Returns a map of the items of `iter`, which must end.
    ///
    /// Inserts them as `extend` does.
    ///
    /// # Errors
    /// As for `extend` of an empty map. All items that were taken are dropped.
    pub fn from_iter_in<U: IntoIterator<Item = (K, V)>>(
        iter: U,
        alloc: A,
    ) -> Result<Self, TryReserveError>
        requires finite { IsFiniteIterable U.into_iter_gives U.IntoIter.can_next
            U.IntoIter.remaining iter }
        ensures collected { IfOk result (λ map. (it : U.IntoIter) × (xs : List (K × V))
            × U.into_iter_gives iter it × Drains U.IntoIter.next_gives it xs
            × InsertsAll K.cmp empty xs map) }
        ensures few { IfOk result (λ map. 2 ^ map.resizes ≤ max 2 (length map.entries / 8)) }
        ensures fits { ((it : U.IntoIter) → U.into_iter_gives iter it
            → size (U.IntoIter.remaining it) ≡ 0) → IsOk result }
        ensures failed { IfErr result (λ e. (map : OrderedView K V)
            × ExtendsWithItems U.into_iter_gives U.IntoIter.next_gives (InsertsAll K.cmp) iter
            empty map (Err e) × IsErrorFor e (requested map 1)) }
    {
        let mut map = OrderedMap::new_in(alloc);
        match map.extend(iter) {
            Ok(()) => Ok(map),
            Err(error) => Err(error),
        }
    }
}

impl<K: Ord + Drop, V: Drop, A: Allocator + Clone> Extend<(K, V)> for OrderedMap<K, V, A> {
    ghost extend_gives = { InsertsAll K.cmp };

    /// Inserts the items as the inherent `extend` does, whose error also has the number.
    fn extend<U: IntoIterator<Item = (K, V)>>(&mut self, iter: U) -> Result<(), AllocError>
        requires finite { IsFiniteIterable U.into_iter_gives U.IntoIter.can_next
            U.IntoIter.remaining iter }
        ensures extended { ExtendsWithItems U.into_iter_gives U.IntoIter.next_gives
            (InsertsAll K.cmp) iter self.old self.new result }
        ensures fits { ((it : U.IntoIter) → U.into_iter_gives iter it
            → HasCapacity self.old (size (U.IntoIter.remaining it))) → IsOk result }
        ensures steady { ((it : U.IntoIter) → U.into_iter_gives iter it
            → HasCapacity self.old (size (U.IntoIter.remaining it)))
            → (self.new.capacity ≡ self.old.capacity) × (self.new.resizes ≡ self.old.resizes) }
    {
        match OrderedMap::extend(self, iter) {
            Ok(()) => Ok(()),
            Err(_) => Err(AllocError),
        }
    }
}

impl<K: Ord + Drop, V: Drop, A: Allocator + Copy> FromIterator<(K, V)> for OrderedMap<K, V, A> {
    type Alloc = A;

    ghost from_iter_gives = { InsertsAll K.cmp empty };

    /// Returns a map of the items as `from_iter_in` does, whose error also has the number.
    fn from_iter<U: IntoIterator<Item = (K, V)>>(alloc: A, iter: U) -> Result<Self, AllocError>
        requires finite { IsFiniteIterable U.into_iter_gives U.IntoIter.can_next
            U.IntoIter.remaining iter }
        ensures collected { IfOk result (λ map. (it : U.IntoIter) × (xs : List (K × V))
            × U.into_iter_gives iter it × Drains U.IntoIter.next_gives it xs
            × InsertsAll K.cmp empty xs map) }
        ensures fits { ((it : U.IntoIter) → U.into_iter_gives iter it
            → size (U.IntoIter.remaining it) ≡ 0) → IsOk result }
    {
        match OrderedMap::from_iter_in(iter, alloc) {
            Ok(map) => Ok(map),
            Err(_) => Err(AllocError),
        }
    }
}
