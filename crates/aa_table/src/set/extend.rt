//! A set made of the items of an iterator, or extended by them.
ghost use Rattle.std.specs.Prelude.{◌≡◌, ◌*◌, ◌^◌, ◌≤◌, List, length, map, max, [], Err, IfErr, IfOk, IsOk, OnOk};
ghost use Rattle.std.specs.Iterator.{Drains, ExtendsWithItems, IsFiniteIterable, size};
ghost use Rattle.std.specs.Iterator.Runs.{WholeRun};
ghost use Rattle.aa_table.specs.Full.{LacksRoom};
ghost use Rattle.aa_table.specs.SetContents.{no_elements, set_capacity_for, InsertsElements, SetHasRoom, SetView};

use super::Set;
use allocator_api2::collections::TryReserveError;
use std::alloc::{AllocError, Allocator};
use std::hash::{BuildHasher, BuildHasherDefault, FoldHasher, Hash};
use std::iter::{Extend, FromIterator, IntoIterator};

impl<T: Eq + Hash + Drop, S: BuildHasher, A: Allocator + Clone> Set<T, S, A> {
    /// Inserts the items of `iter`, which must end.
    ///
    /// Of equal elements the first is kept. Inserts each item as `insert` does, and allocates only
    /// if the set is full then. Does not allocate if there is capacity for all of them.
    ///
    /// # Errors
    /// The errors of `insert`. The set keeps the items before the one that could not be inserted,
    /// which is dropped.
    pub fn extend<U: IntoIterator<Item = T>>(&mut self, iter: U) -> Result<(), TryReserveError>
        requires finite { IsFiniteIterable U.into_iter_gives U.IntoIter.can_next
            U.IntoIter.remaining iter }
        ensures extended { ExtendsWithItems U.into_iter_gives U.IntoIter.next_gives
            (InsertsElements T.eq) iter self.old self.new result }
        ensures runs { OnOk result ((it : U.IntoIter) × U.into_iter_gives iter it
            × WholeRun U.IntoIter.next_gives it
            (λ p. InsertsElements T.eq self.old p.items self.new)) }
        ensures fits { ((it : U.IntoIter) → U.into_iter_gives iter it
            → SetHasRoom self.old (size (U.IntoIter.remaining it))) → IsOk result }
        ensures steady { ((it : U.IntoIter) → U.into_iter_gives iter it
            → SetHasRoom self.old (size (U.IntoIter.remaining it)))
            → (self.new.capacity ≡ self.old.capacity) × (self.new.resizes ≡ self.old.resizes) }
        ensures error { IfErr result (LacksRoom self.new.capacity (length self.new.elements) 1
            (set_capacity_for self.new 1)) }
    {
        'each: for value in iter {
            match self.insert(value) {
                Ok(_) => {}
                Err(refused) => return Err(refused.error),
            }
        }
        Ok(())
    }
}

impl<T: Eq + Hash + Drop, A: Allocator + Clone> Set<T, BuildHasherDefault<FoldHasher>, A> {
    /// Returns a set of the items of `iter`, with the toolchain's hasher; `iter` must end.
    ///
    /// Inserts them as `extend` does.
    ///
    /// # Errors
    /// As for `extend` of an empty set. All items that were taken are dropped.
    pub fn from_iter_in<U: IntoIterator<Item = T>>(
        iter: U,
        alloc: A,
    ) -> Result<Self, TryReserveError>
        requires finite { IsFiniteIterable U.into_iter_gives U.IntoIter.can_next
            U.IntoIter.remaining iter }
        ensures collected { IfOk result (λ s. (it : U.IntoIter) × (xs : List T)
            × U.into_iter_gives iter it × Drains U.IntoIter.next_gives it xs
            × InsertsElements T.eq (no_elements s.builder) xs s) }
        ensures runs { IfOk result (λ s. (it : U.IntoIter) × U.into_iter_gives iter it
            × WholeRun U.IntoIter.next_gives it
            (λ p. InsertsElements T.eq (no_elements s.builder) p.items s)) }
        ensures few { IfOk result
            (λ s. 7 * 2 ^ s.resizes ≤ max 14 (2 * length s.elements)) }
        ensures fits { ((it : U.IntoIter) → U.into_iter_gives iter it
            → size (U.IntoIter.remaining it) ≡ 0) → IsOk result }
        ensures failed { IfErr result (λ e. (s : SetView T (BuildHasherDefault FoldHasher))
            × ExtendsWithItems U.into_iter_gives U.IntoIter.next_gives (InsertsElements T.eq)
            iter (no_elements s.builder) s (Err e)
            × LacksRoom s.capacity (length s.elements) 1 (set_capacity_for s 1) e) }
    {
        let mut set = Set::new_in(alloc);
        match set.extend(iter) {
            Ok(()) => Ok(set),
            Err(error) => Err(error),
        }
    }
}

impl<T: Eq + Hash + Drop, S: BuildHasher, A: Allocator + Clone> Extend<T> for Set<T, S, A> {
    ghost extend_gives = { InsertsElements T.eq };

    /// Inserts the items as the inherent `extend` does, whose error also has the number.
    fn extend<U: IntoIterator<Item = T>>(&mut self, iter: U) -> Result<(), AllocError>
        requires finite { IsFiniteIterable U.into_iter_gives U.IntoIter.can_next
            U.IntoIter.remaining iter }
        ensures extended { ExtendsWithItems U.into_iter_gives U.IntoIter.next_gives
            (InsertsElements T.eq) iter self.old self.new result }
        ensures fits { ((it : U.IntoIter) → U.into_iter_gives iter it
            → SetHasRoom self.old (size (U.IntoIter.remaining it))) → IsOk result }
        ensures steady { ((it : U.IntoIter) → U.into_iter_gives iter it
            → SetHasRoom self.old (size (U.IntoIter.remaining it)))
            → (self.new.capacity ≡ self.old.capacity) × (self.new.resizes ≡ self.old.resizes) }
    {
        match Set::extend(self, iter) {
            Ok(()) => Ok(()),
            Err(_) => Err(AllocError),
        }
    }
}

impl<'a, T: Eq + Hash + Copy + Drop + 'a, S: BuildHasher, A: Allocator + Clone> Extend<&'a T>
    for Set<T, S, A> {
    ghost extend_gives = { λ s xs after. InsertsElements T.eq s (map (λ x. x.now) xs) after };

    /// Inserts a copy of each item, as the inherent `extend` inserts the items.
    fn extend<U: IntoIterator<Item = &'a T>>(&mut self, iter: U) -> Result<(), AllocError>
        requires finite { IsFiniteIterable U.into_iter_gives U.IntoIter.can_next
            U.IntoIter.remaining iter }
        ensures extended { ExtendsWithItems U.into_iter_gives U.IntoIter.next_gives
            (λ s xs after. InsertsElements T.eq s (map (λ x. x.now) xs) after)
            iter self.old self.new result }
        ensures fits { ((it : U.IntoIter) → U.into_iter_gives iter it
            → SetHasRoom self.old (size (U.IntoIter.remaining it))) → IsOk result }
        ensures steady { ((it : U.IntoIter) → U.into_iter_gives iter it
            → SetHasRoom self.old (size (U.IntoIter.remaining it)))
            → (self.new.capacity ≡ self.old.capacity) × (self.new.resizes ≡ self.old.resizes) }
    {
        'each: for value in iter {
            match self.insert(*value) {
                Ok(_) => {}
                Err(_) => return Err(AllocError),
            }
        }
        Ok(())
    }
}

impl<T: Eq + Hash + Drop, S: BuildHasher + Default + Drop, A: Allocator + Clone> FromIterator<T>
    for Set<T, S, A> {
    type Alloc = A;

    ghost from_iter_gives = { λ xs s. InsertsElements T.eq (no_elements s.builder) xs s };

    /// Returns a set of the items, with a default builder of hashers.
    fn from_iter<U: IntoIterator<Item = T>>(alloc: A, iter: U) -> Result<Self, AllocError>
        requires finite { IsFiniteIterable U.into_iter_gives U.IntoIter.can_next
            U.IntoIter.remaining iter }
        ensures collected { IfOk result (λ s. (it : U.IntoIter) × (xs : List T)
            × U.into_iter_gives iter it × Drains U.IntoIter.next_gives it xs
            × InsertsElements T.eq (no_elements s.builder) xs s) }
        ensures fits { ((it : U.IntoIter) → U.into_iter_gives iter it
            → size (U.IntoIter.remaining it) ≡ 0) → IsOk result }
    {
        let mut set = Set::with_hasher_in(S::default(), alloc);
        match Set::extend(&mut set, iter) {
            Ok(()) => Ok(set),
            Err(_) => Err(AllocError),
        }
    }
}
