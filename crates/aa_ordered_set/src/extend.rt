//! A set made of the items of an iterator, or extended by them.
ghost use Rattle.std.specs.Prelude.{◌≡◌, ◌/◌, ◌^◌, ◌≤◌, List, length, map, max, Err, IfErr, IfOk, IsOk};
ghost use Rattle.std.specs.Iterator.{Drains, ExtendsWithItems, IsFiniteIterable, size};
ghost use Rattle.allocator_api2.specs.Errors.{IsErrorFor};
ghost use Rattle.aa_ordered.specs.Capacity.{requested};
ghost use Rattle.aa_ordered.specs.Iterating.{HasCapacity};
ghost use Rattle.aa_ordered_set.specs.Sets.{empty, map_of, InsertsElements, SetView};

use crate::set::OrderedSet;
use allocator_api2::collections::TryReserveError;
use std::alloc::{AllocError, Allocator};
use std::cmp::Ord;
use std::iter::{Extend, FromIterator, IntoIterator};

impl<T: Ord + Drop, A: Allocator + Clone> OrderedSet<T, A> {
    /// Inserts the items of `iter`, which must end.
    ///
    /// Of equal elements the first is kept. Inserts each item as `insert` does.
    ///
    /// # Errors
    /// The errors of `insert`. The set keeps the items before the one that could not be inserted,
    /// which is dropped.
    pub fn extend<U: IntoIterator<Item = T>>(&mut self, iter: U) -> Result<(), TryReserveError>
        requires finite { IsFiniteIterable U.into_iter_gives U.IntoIter.can_next
            U.IntoIter.remaining iter }
        ensures extended { ExtendsWithItems U.into_iter_gives U.IntoIter.next_gives
            (InsertsElements T.cmp) iter self.old self.new result }

        // It succeeds if there is capacity for all items.
        ensures fits { ((it : U.IntoIter) → U.into_iter_gives iter it
            → HasCapacity (map_of self.old) (size (U.IntoIter.remaining it))) → IsOk result }
        ensures steady { ((it : U.IntoIter) → U.into_iter_gives iter it
            → HasCapacity (map_of self.old) (size (U.IntoIter.remaining it)))
            → (self.new.capacity ≡ self.old.capacity) × (self.new.resizes ≡ self.old.resizes) }
        ensures error { IfErr result (λ e. IsErrorFor e (requested (map_of self.new) 1)) }
    {
        'each: for value in iter {
            match self.insert(value) {
                Ok(_) => {}
                Err(refused) => return Err(refused.error),
            }
        }
        Ok(())
    }
}

impl<T: Ord + Drop, A: Allocator + Copy> OrderedSet<T, A> {
    /// Returns a set of the items of `iter`, which must end.
    ///
    /// Inserts them as `extend` does.
    ///
    /// # Errors
    /// As for `extend` of an empty set. All items that were taken are dropped.
    pub fn from_iter_in<U: IntoIterator<Item = T>>(
        iter: U,
        alloc: A,
    ) -> Result<Self, TryReserveError>
        requires finite { IsFiniteIterable U.into_iter_gives U.IntoIter.can_next
            U.IntoIter.remaining iter }
        ensures collected { IfOk result (λ s. (it : U.IntoIter) × (xs : List T)
            × U.into_iter_gives iter it × Drains U.IntoIter.next_gives it xs
            × InsertsElements T.cmp empty xs s) }
        ensures few { IfOk result (λ s. 2 ^ s.resizes ≤ max 2 (length s.elements / 8)) }
        ensures fits { ((it : U.IntoIter) → U.into_iter_gives iter it
            → size (U.IntoIter.remaining it) ≡ 0) → IsOk result }
        ensures failed { IfErr result (λ e. (s : SetView T)
            × ExtendsWithItems U.into_iter_gives U.IntoIter.next_gives (InsertsElements T.cmp) iter
            empty s (Err e) × IsErrorFor e (requested (map_of s) 1)) }
    {
        let mut set = OrderedSet::new_in(alloc);
        match set.extend(iter) {
            Ok(()) => Ok(set),
            Err(error) => Err(error),
        }
    }
}

impl<T: Ord + Drop, A: Allocator + Clone> Extend<T> for OrderedSet<T, A> {
    ghost extend_gives = { InsertsElements T.cmp };

    /// Inserts the items as the inherent `extend` does, whose error also has the number.
    fn extend<U: IntoIterator<Item = T>>(&mut self, iter: U) -> Result<(), AllocError>
        requires finite { IsFiniteIterable U.into_iter_gives U.IntoIter.can_next
            U.IntoIter.remaining iter }
        ensures extended { ExtendsWithItems U.into_iter_gives U.IntoIter.next_gives
            (InsertsElements T.cmp) iter self.old self.new result }
        ensures fits { ((it : U.IntoIter) → U.into_iter_gives iter it
            → HasCapacity (map_of self.old) (size (U.IntoIter.remaining it))) → IsOk result }
        ensures steady { ((it : U.IntoIter) → U.into_iter_gives iter it
            → HasCapacity (map_of self.old) (size (U.IntoIter.remaining it)))
            → (self.new.capacity ≡ self.old.capacity) × (self.new.resizes ≡ self.old.resizes) }
    {
        match OrderedSet::extend(self, iter) {
            Ok(()) => Ok(()),
            Err(_) => Err(AllocError),
        }
    }
}

impl<'a, T: Ord + Copy + Drop + 'a, A: Allocator + Clone> Extend<&'a T> for OrderedSet<T, A> {
    ghost extend_gives = { λ s xs after. InsertsElements T.cmp s (map (λ x. x.now) xs) after };

    /// Inserts a copy of each item, as the inherent `extend` inserts the items.
    fn extend<U: IntoIterator<Item = &'a T>>(&mut self, iter: U) -> Result<(), AllocError>
        requires finite { IsFiniteIterable U.into_iter_gives U.IntoIter.can_next
            U.IntoIter.remaining iter }
        ensures extended { ExtendsWithItems U.into_iter_gives U.IntoIter.next_gives
            (λ s xs after. InsertsElements T.cmp s (map (λ x. x.now) xs) after)
            iter self.old self.new result }
        ensures fits { ((it : U.IntoIter) → U.into_iter_gives iter it
            → HasCapacity (map_of self.old) (size (U.IntoIter.remaining it))) → IsOk result }
        ensures steady { ((it : U.IntoIter) → U.into_iter_gives iter it
            → HasCapacity (map_of self.old) (size (U.IntoIter.remaining it)))
            → (self.new.capacity ≡ self.old.capacity) × (self.new.resizes ≡ self.old.resizes) }
    {
        'each: for value in iter {
            match self.insert(*value) {
                Ok(_) => {}
                Err(_) => return Err(AllocError),
            }
        }
        Ok(())
    }
}

impl<T: Ord + Drop, A: Allocator + Copy> FromIterator<T> for OrderedSet<T, A> {
    type Alloc = A;

    ghost from_iter_gives = { InsertsElements T.cmp empty };

    /// Returns a set of the items as `from_iter_in` does, whose error also has the number.
    fn from_iter<U: IntoIterator<Item = T>>(alloc: A, iter: U) -> Result<Self, AllocError>
        requires finite { IsFiniteIterable U.into_iter_gives U.IntoIter.can_next
            U.IntoIter.remaining iter }
        ensures collected { IfOk result (λ s. (it : U.IntoIter) × (xs : List T)
            × U.into_iter_gives iter it × Drains U.IntoIter.next_gives it xs
            × InsertsElements T.cmp empty xs s) }
        ensures fits { ((it : U.IntoIter) → U.into_iter_gives iter it
            → size (U.IntoIter.remaining it) ≡ 0) → IsOk result }
    {
        match OrderedSet::from_iter_in(iter, alloc) {
            Ok(set) => Ok(set),
            Err(_) => Err(AllocError),
        }
    }
}
