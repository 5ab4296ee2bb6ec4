//! A table made of the items of an iterator, or extended by them.
ghost use Rattle.std.specs.Prelude.{map, max, ◌≡◌, ◌*◌, ◌^◌, ◌≤◌, List, length, [], Err, IfErr, IfOk, IsOk, OnOk};
ghost use Rattle.std.specs.Iterator.{Drains, ExtendsWithItems, IsFiniteIterable, size};
ghost use Rattle.std.specs.Iterator.Runs.{WholeRun};
ghost use Rattle.aa_table.specs.Full.{LacksRoom};
ghost use Rattle.aa_table.specs.Contents.{capacity_for, empty, HasRoom, InsertsAll, TableView};

use crate::table::Table;
use allocator_api2::collections::TryReserveError;
use std::alloc::{AllocError, Allocator};
use std::hash::{BuildHasher, BuildHasherDefault, FoldHasher, Hash};
use std::iter::{Extend, FromIterator, IntoIterator};

impl<K: Eq + Hash + Drop, V: Drop, S: BuildHasher, A: Allocator + Clone> Table<K, V, S, A> {
    /// Inserts the items of `iter`, each a key with its value; `iter` must end.
    ///
    /// The last of equal keys sets the value. Inserts each item as `insert` does, and allocates
    /// only if the table is full then. Does not allocate if there is capacity for all of them.
    ///
    /// # Errors
    /// The errors of `insert`. The table keeps the items before the one that could not be inserted,
    /// which is dropped.
    pub fn extend<U: IntoIterator<Item = (K, V)>>(&mut self, iter: U) -> Result<(), TryReserveError>
        requires finite { IsFiniteIterable U.into_iter_gives U.IntoIter.can_next
            U.IntoIter.remaining iter }
        ensures extended { ExtendsWithItems U.into_iter_gives U.IntoIter.next_gives
            (InsertsAll K.eq) iter self.old self.new result }
        ensures runs { OnOk result ((it : U.IntoIter) × U.into_iter_gives iter it
            × WholeRun U.IntoIter.next_gives it
            (λ p. InsertsAll K.eq self.old p.items self.new)) }
        ensures fits { ((it : U.IntoIter) → U.into_iter_gives iter it
            → HasRoom self.old (size (U.IntoIter.remaining it))) → IsOk result }
        ensures steady { ((it : U.IntoIter) → U.into_iter_gives iter it
            → HasRoom self.old (size (U.IntoIter.remaining it)))
            → (self.new.capacity ≡ self.old.capacity) × (self.new.resizes ≡ self.old.resizes) }
        ensures error { IfErr result (LacksRoom self.new.capacity (length self.new.entries) 1
            (capacity_for self.new 1)) }
    {
        'each: for entry in iter {
            let (key, item) = entry;
            match self.insert(key, item) {
                Ok(old) => drop(old),
                Err(refused) => return Err(refused.error),
            }
        }
        Ok(())
    }
}

impl<K: Eq + Hash + Drop, V: Drop, A: Allocator + Clone> Table<
    K,
    V,
    BuildHasherDefault<FoldHasher>,
    A,
> {
    /// Returns a table of the items of `iter`, with the toolchain's hasher; `iter` must end.
    ///
    /// Inserts them as `extend` does.
    ///
    /// # Errors
    /// As for `extend` of an empty table. All items that were taken are dropped.
    pub fn from_iter_in<U: IntoIterator<Item = (K, V)>>(
        iter: U,
        alloc: A,
    ) -> Result<Self, TryReserveError>
        requires finite { IsFiniteIterable U.into_iter_gives U.IntoIter.can_next
            U.IntoIter.remaining iter }
        ensures collected { IfOk result (λ t. (it : U.IntoIter) × (xs : List (K × V))
            × U.into_iter_gives iter it × Drains U.IntoIter.next_gives it xs
            × InsertsAll K.eq (empty t.builder) xs t) }
        ensures runs { IfOk result (λ t. (it : U.IntoIter) × U.into_iter_gives iter it
            × WholeRun U.IntoIter.next_gives it
            (λ p. InsertsAll K.eq (empty t.builder) p.items t)) }
        ensures few { IfOk result
            (λ t. 7 * 2 ^ t.resizes ≤ max 14 (2 * length t.entries)) }
        ensures fits { ((it : U.IntoIter) → U.into_iter_gives iter it
            → size (U.IntoIter.remaining it) ≡ 0) → IsOk result }
        ensures failed { IfErr result (λ e. (t : TableView K V (BuildHasherDefault FoldHasher))
            × ExtendsWithItems U.into_iter_gives U.IntoIter.next_gives (InsertsAll K.eq)
            iter (empty t.builder) t (Err e)
            × LacksRoom t.capacity (length t.entries) 1 (capacity_for t 1) e) }
    {
        let mut table = Table::new_in(alloc);
        match table.extend(iter) {
            Ok(()) => Ok(table),
            Err(error) => Err(error),
        }
    }
}

impl<K: Eq + Hash + Drop, V: Drop, S: BuildHasher, A: Allocator + Clone> Extend<(K, V)>
    for Table<K, V, S, A> {
    ghost extend_gives = { InsertsAll K.eq };

    /// Inserts the items as the inherent `extend` does, whose error also has the number.
    fn extend<U: IntoIterator<Item = (K, V)>>(&mut self, iter: U) -> Result<(), AllocError>
        requires finite { IsFiniteIterable U.into_iter_gives U.IntoIter.can_next
            U.IntoIter.remaining iter }
        ensures extended { ExtendsWithItems U.into_iter_gives U.IntoIter.next_gives
            (InsertsAll K.eq) iter self.old self.new result }
        ensures fits { ((it : U.IntoIter) → U.into_iter_gives iter it
            → HasRoom self.old (size (U.IntoIter.remaining it))) → IsOk result }
        ensures steady { ((it : U.IntoIter) → U.into_iter_gives iter it
            → HasRoom self.old (size (U.IntoIter.remaining it)))
            → (self.new.capacity ≡ self.old.capacity) × (self.new.resizes ≡ self.old.resizes) }
    {
        match Table::extend(self, iter) {
            Ok(()) => Ok(()),
            Err(_) => Err(AllocError),
        }
    }
}

impl<
    'a,
    K: Eq + Hash + Copy + Drop + 'a,
    V: Copy + Drop + 'a,
    S: BuildHasher,
    A: Allocator + Clone,
> Extend<(&'a K, &'a V)> for Table<K, V, S, A> {
    ghost extend_gives = { λ t xs after.
        InsertsAll K.eq t (map (λ e. (e.0.now, e.1.now)) xs) after };

    /// Inserts a copy of each item, as the inherent `extend` inserts the items.
    fn extend<U: IntoIterator<Item = (&'a K, &'a V)>>(&mut self, iter: U) -> Result<(), AllocError>
        requires finite { IsFiniteIterable U.into_iter_gives U.IntoIter.can_next
            U.IntoIter.remaining iter }
        ensures extended { ExtendsWithItems U.into_iter_gives U.IntoIter.next_gives
            (λ t xs after. InsertsAll K.eq t (map (λ e. (e.0.now, e.1.now)) xs) after)
            iter self.old self.new result }
        ensures fits { ((it : U.IntoIter) → U.into_iter_gives iter it
            → HasRoom self.old (size (U.IntoIter.remaining it))) → IsOk result }
        ensures steady { ((it : U.IntoIter) → U.into_iter_gives iter it
            → HasRoom self.old (size (U.IntoIter.remaining it)))
            → (self.new.capacity ≡ self.old.capacity) × (self.new.resizes ≡ self.old.resizes) }
    {
        'each: for entry in iter {
            match self.insert(*entry.0, *entry.1) {
                Ok(old) => drop(old),
                Err(_) => return Err(AllocError),
            }
        }
        Ok(())
    }
}

impl<
    K: Eq + Hash + Drop,
    V: Drop,
    S: BuildHasher + Default + Drop,
    A: Allocator + Clone,
> FromIterator<(K, V)> for Table<K, V, S, A> {
    type Alloc = A;

    ghost from_iter_gives = { λ xs t. InsertsAll K.eq (empty t.builder) xs t };

    /// Returns a table of the items, with a default builder of hashers.
    fn from_iter<U: IntoIterator<Item = (K, V)>>(alloc: A, iter: U) -> Result<Self, AllocError>
        requires finite { IsFiniteIterable U.into_iter_gives U.IntoIter.can_next
            U.IntoIter.remaining iter }
        ensures collected { IfOk result (λ t. (it : U.IntoIter) × (xs : List (K × V))
            × U.into_iter_gives iter it × Drains U.IntoIter.next_gives it xs
            × InsertsAll K.eq (empty t.builder) xs t) }
        ensures fits { ((it : U.IntoIter) → U.into_iter_gives iter it
            → size (U.IntoIter.remaining it) ≡ 0) → IsOk result }
    {
        let mut table = Table::with_hasher_in(S::default(), alloc);
        match Table::extend(&mut table, iter) {
            Ok(()) => Ok(table),
            Err(_) => Err(AllocError),
        }
    }
}
