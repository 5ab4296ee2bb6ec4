//! A hash set over any allocator that can be cloned: a table whose keys have no values.
ghost use Rattle.std.specs.Prelude.{◌≡◌, ◌-◌, ◌+◌, ◌<◌, ◌≤◌, [], ◌∷◌, IfOk, IfErr, OnOk, OnErr, IsOk, IsSome, IsTrue, Bool, None, option_copied, true, false, not, min, max, filter, find, length, ◌==◌, is_some, IsPermutation};
ghost use Rattle.std.specs.Fn.{CalledAt};
ghost use Rattle.std.specs.List.{list_all, list_any};
ghost use Rattle.std.specs.List.Retain.{IsFiltered};
ghost use Rattle.std.specs.Set.{is_member, remove_key, swap_key};
ghost use Rattle.allocator_api2.specs.declared.collections.TryReserveErrorKind.TheVariants.{AllocError, CapacityOverflow};
ghost use Rattle.aa_table.specs.Full.{LacksRoom};
ghost use Rattle.aa_table.specs.Contents.{fresh_capacity, fresh_resizes, shrunk_capacity, max_keys};
ghost use Rattle.aa_table.specs.SetContents.{no_elements, set_capacity_for, set_resizes_for, AreDistinct, SetHasRoom};
ghost use Rattle.aa_table.specs.Shrinking.{CountsShrink, SameSlots};

use crate::into_parts::IntoKeys;
use crate::iter::Keys;
use crate::keeper::OnKey;
use crate::lookup::Lookup;
use crate::table::Table;
use allocator_api2::collections::{Refused, TryReserveError};
use std::alloc::{Allocator, Global};
use std::hash::{BuildHasher, BuildHasherDefault, FoldHasher, Hash};
use std::marker::Model;

pub mod algebra;
pub mod drain;
mod extend;
mod operators;
mod traits;

/// A hash set over any allocator that can be cloned.
///
/// A contract sees a set as its elements, its capacity, the number of times that it moved to new
/// blocks, and the builder of its hashers.
#[derive(Drop)]
pub struct Set<
    T: Eq + Hash,
    S: BuildHasher = BuildHasherDefault<FoldHasher>,
    A: Allocator = Global,
> {
    table: Table<T, (), S, A>,
}

impl<T: Eq + Hash, S: BuildHasher, A: Allocator> Model for Set<T, S, A> {
    ghost use Rattle.aa_table.specs.SetContents.{set_of, SetView};

    ghost Value = { SetView T S };

    ghost view = { λ s. set_of s.table };
}

impl<T: Eq + Hash + Drop, A: Allocator + Clone> Set<T, BuildHasherDefault<FoldHasher>, A> {
    /// Returns an empty set with the toolchain's hasher.
    ///
    /// Does not allocate.
    pub fn new_in(alloc: A) -> Self
        ensures elements { result.elements ≡ [] }
        ensures capacity { result.capacity ≡ 0 }
        ensures resizes { result.resizes ≡ 0 }
    {
        Set {
            table: Table::new_in(alloc),
        }
    }

    /// Returns an empty set with capacity for `capacity` elements or more.
    ///
    /// Uses the toolchain's hasher. The capacity is 0 for 0 elements, and at least 14 for more.
    /// Does not allocate if `capacity` is 0.
    ///
    /// # Errors
    /// `CapacityOverflow` if `capacity` is more than 2,000,000,000 or the bytes exceed
    /// `isize::MAX`; `AllocError` with the greater of `capacity` and 14 if the allocation fails.
    pub fn with_capacity_in(capacity: usize, alloc: A) -> Result<Self, TryReserveError>
        ensures elements { IfOk result (λ s. s.elements ≡ []) }
        ensures made { IfOk result (λ s. s.capacity ≡ fresh_capacity capacity) }
        ensures resizes { IfOk result (λ s. s.resizes ≡ fresh_resizes capacity) }
        ensures error { IfErr result (LacksRoom 0 0 capacity (max capacity 14)) }
    {
        match Table::with_capacity_in(capacity, alloc) {
            Ok(table) => Ok(Set { table }),
            Err(error) => Err(error),
        }
    }
}

impl<T: Eq + Hash, S: BuildHasher, A: Allocator> Set<T, S, A> {
    /// Returns an empty set whose hashers are made by `builder`.
    ///
    /// Does not allocate.
    pub fn with_hasher_in(builder: S, alloc: A) -> Self
        ensures { result ≡ no_elements builder }
    {
        Set {
            table: Table::with_hasher_in(builder, alloc),
        }
    }

    /// Returns a reference to the builder of the hashers.
    pub fn hasher(&self) -> &S
        ensures { result.now ≡ self.now.builder }
    {
        self.table.hasher()
    }

    /// Returns a reference to the underlying allocator.
    pub fn allocator(&self) -> &A {
        self.table.allocator()
    }

    /// Returns the number of elements, each of which is counted once.
    #[tactic(auto, using(crate::proofs::Elements::elements))]
    pub fn len(&self) -> usize
        ensures count { result ≡ length self.now.elements }
        ensures once { AreDistinct T.eq self.now.elements }
        ensures within { result ≤ self.now.capacity }
    {
        self.table.len()
    }

    /// Returns `true` if the set has no elements.
    pub fn is_empty(&self) -> bool
        ensures { result ≡ (length self.now.elements == 0) }
    {
        self.table.is_empty()
    }

    /// Returns the number of elements that the set can hold without another allocation.
    pub fn capacity(&self) -> usize
        ensures { result ≡ self.now.capacity }
    {
        self.table.capacity()
    }

    /// Returns `true` if the set has an element equal to `value`.
    ///
    /// `value` is a `&T`, or a borrowed form of the element, as a `&str` for a text (`Lookup`).
    #[tactic(auto, using(crate::proofs::Elements::elements))]
    #[inline]
    pub fn contains<Q: Lookup<T>>(&self, value: Q) -> bool
        ensures { result ≡ list_any (Q.matches value) self.now.elements }
    {
        self.table.contains_key(value)
    }

    /// Returns a reference to the element equal to `value`, or `None` if there is none.
    ///
    /// `value` may be a borrowed form of the element, as for `contains`.
    #[tactic(auto, using(crate::proofs::Elements::elements))]
    #[inline]
    pub fn get<Q: Lookup<T>>(&self, value: Q) -> Option<&T>
        ensures { option_copied result ≡ find (Q.matches value) self.now.elements }
    {
        match self.table.get_key_value(value) {
            Some((element, _)) => Some(element),
            None => None,
        }
    }

    /// Returns `true` if each element is in `other`.
    pub fn is_subset(&self, other: &Set<T, S, A>) -> bool
        ensures { result ≡ list_all (is_member T.eq other.now.elements) self.now.elements }
    {
        'each: for value in self.iter() {
            if !other.contains(value) {
                return false;
            }
        }
        true
    }

    /// Returns `true` if each element of `other` is in this set.
    pub fn is_superset(&self, other: &Set<T, S, A>) -> bool
        ensures { result ≡ list_all (is_member T.eq self.now.elements) other.now.elements }
    {
        other.is_subset(self)
    }

    /// Returns `true` if no element is in `other`.
    pub fn is_disjoint(&self, other: &Set<T, S, A>) -> bool
        ensures { result
            ≡ list_all (λ x. not (is_member T.eq other.now.elements x)) self.now.elements }
    {
        'each: for value in self.iter() {
            if other.contains(value) {
                return false;
            }
        }
        true
    }

    /// Returns an iterator over the elements.
    ///
    /// Each element is returned once. The order is not specified.
    pub fn iter(&self) -> Keys<'_, T, (), A>
        ensures { result ≡ self.now.elements }
    {
        self.table.keys()
    }
}

impl<T: Eq + Hash + Drop, S: BuildHasher, A: Allocator + Clone> Set<T, S, A> {
    /// Inserts `value`, and returns `true` if it is new.
    ///
    /// An element that is equal to it is kept, and `value` is dropped.
    /// Allocates only if `value` is new and the set is full, and then as `reserve(1)` does.
    ///
    /// # Errors
    /// The errors of `reserve(1)`. The set is unchanged, and `value` is returned in the error.
    #[tactic(auto, using(crate::proofs::Elements::elements))]
    #[inline]
    pub fn insert(&mut self, value: T) -> Result<bool, Refused<T>>
        // If the set is not full, it succeeds.
        ensures fits { SetHasRoom self.old 1 → IsOk result }

        // On success, the result says whether the value is new. Only the order of the other
        // elements may change.
        ensures new { IfOk result (λ new. new ≡ not (is_member T.eq self.old.elements value)) }
        ensures added { IfOk result (λ new. new ≡ true →
            IsPermutation (value ∷ self.old.elements) self.new.elements) }
        ensures made { IfOk result (λ new. new ≡ true →
            self.new.capacity ≡ set_capacity_for self.old 1) }
        ensures resized { IfOk result (λ new. new ≡ true →
            self.new.resizes ≡ set_resizes_for self.old 1) }

        // If it is not new, nothing changes. The builder never does.
        ensures kept { IfOk result (λ new. new ≡ false → self.new ≡ self.old) }
        ensures builder { self.new.builder ≡ self.old.builder }

        // An error returns the value, says why it failed, and leaves the set unchanged.
        ensures returned { IfErr result (λ r. r.source ≡ value) }
        ensures absent { OnErr result (is_member T.eq self.old.elements value ≡ false) }
        ensures error { IfErr result (λ r. LacksRoom self.old.capacity (length self.old.elements) 1
            (set_capacity_for self.old 1) r.error) }
        ensures unchanged { OnErr result (self.new ≡ self.old) }
    {
        let old = match self.table.insert(value, ()) {
            Ok(old) => old,
            Err(refused) => {
                return Err(Refused {
                    source: refused.source.0,
                    error: refused.error,
                });
            }
        };
        Ok(old.is_none())
    }

    /// Inserts `value` in the place of the element that is equal to it, and returns that element, or
    /// `None` if there was none.
    ///
    /// Preserves the order if there was one. Allocates only if `value` is new and the set is full,
    /// and then as `reserve(1)` does.
    ///
    /// # Errors
    /// The errors of `reserve(1)`. The set is unchanged, and `value` is returned in the error.
    #[tactic(auto, using(crate::proofs::Elements::elements))]
    pub fn replace(&mut self, value: T) -> Result<Option<T>, Refused<T>>
        // If the set is not full, it succeeds.
        ensures fits { SetHasRoom self.old 1 → IsOk result }

        // On success, the result is the old element, whose place the value has. Without one, only
        // the order of the other elements may change.
        ensures old { IfOk result (λ old. old ≡ find (T.eq value) self.old.elements) }
        ensures replaced { IfOk result (λ old. is_some old ≡ true → self.new ≡ record self.old {
          elements = swap_key (T.eq value) self.old.elements value;
        }) }
        ensures added { IfOk result (λ old. is_some old ≡ false →
            IsPermutation (value ∷ self.old.elements) self.new.elements) }
        ensures made { IfOk result (λ old. is_some old ≡ false →
            self.new.capacity ≡ set_capacity_for self.old 1) }
        ensures resized { IfOk result (λ old. is_some old ≡ false →
            self.new.resizes ≡ set_resizes_for self.old 1) }
        ensures builder { self.new.builder ≡ self.old.builder }

        // An error returns the value, says why it failed, and leaves the set unchanged.
        ensures returned { IfErr result (λ r. r.source ≡ value) }
        ensures absent { OnErr result (find (T.eq value) self.old.elements ≡ None) }
        ensures error { IfErr result (λ r. LacksRoom self.old.capacity (length self.old.elements) 1
            (set_capacity_for self.old 1) r.error) }
        ensures unchanged { OnErr result (self.new ≡ self.old) }
    {
        let value = match self.table.replace_key(value) {
            Ok(old) => return Ok(Some(old)),
            Err(value) => value,
        };
        if let Err(refused) = self.table.insert(value, ()) {
            return Err(Refused {
                source: refused.source.0,
                error: refused.error,
            });
        }
        Ok(None)
    }

    /// Reserves capacity for at least `additional` new elements.
    ///
    /// Does not allocate if the capacity is already sufficient, and then changes nothing. Otherwise
    /// allocates new blocks and moves all elements, which may change their order. The new capacity
    /// is the greatest of twice the old one, the number of elements with `additional` more, and 14.
    ///
    /// # Errors
    /// `CapacityOverflow` if there would be more than 2,000,000,000 elements or the bytes exceed
    /// `isize::MAX`; `AllocError` with the requested capacity if the allocation fails.
    /// The set is unchanged. Blocks that were allocated before the one that failed are freed.
    #[tactic(auto, using(crate::proofs::Elements::elements))]
    pub fn reserve(&mut self, additional: usize) -> Result<(), TryReserveError>
        // If the capacity is sufficient, it succeeds.
        ensures fits { SetHasRoom self.old additional → IsOk result }

        // On success, the capacity is exact, and sufficient.
        ensures made { OnOk result (self.new.capacity ≡ set_capacity_for self.old additional) }
        ensures resizes { OnOk result (self.new.resizes ≡ set_resizes_for self.old additional) }
        ensures enough { OnOk result (SetHasRoom self.new additional) }

        // An error says why it failed.
        ensures error { IfErr result (LacksRoom self.old.capacity (length self.old.elements)
            additional (set_capacity_for self.old additional)) }
        ensures overflow { IfErr result (λ e. max_keys < length self.old.elements + additional
            → e.kind ≡ CapacityOverflow) }

        // Only the order of the elements may change, and only if an allocation succeeds.
        ensures same { IsPermutation self.old.elements self.new.elements }
        ensures sufficient { SetHasRoom self.old additional → self.new ≡ self.old }
        ensures builder { self.new.builder ≡ self.old.builder }
        ensures unchanged { OnErr result (self.new ≡ self.old) }
    {
        self.table.reserve(additional)
    }

    /// Shrinks the capacity to that of a new set for as many elements, if that is less.
    ///
    /// A new set for n elements has the capacity n, but at least 14, or 0 if n is 0.
    /// If the set is empty, frees all blocks and does not allocate. Otherwise allocates new blocks,
    /// which may change the order of the elements, unless they would have as many slots as before.
    ///
    /// # Errors
    /// `AllocError` with the requested capacity. The set is unchanged.
    #[tactic(auto, using(crate::proofs::Elements::elements))]
    pub fn shrink_to_fit(&mut self) -> Result<(), TryReserveError>
        // If nothing has to be allocated, it succeeds.
        ensures empty { length self.old.elements ≡ 0 → IsOk result }
        ensures fits { self.old.capacity ≤ fresh_capacity (length self.old.elements)
            → IsOk result }

        // On success, the capacity is that of a new set, or the old one if that is less.
        ensures shrunk { OnOk result (self.new.capacity
            ≡ min self.old.capacity (fresh_capacity (length self.old.elements))) }
        ensures resizes { OnOk result (CountsShrink
            (SameSlots self.old.capacity self.new.capacity) self.new.capacity
            self.old.resizes self.new.resizes) }
        ensures sufficient { self.old.capacity ≤ fresh_capacity (length self.old.elements)
            → self.new ≡ self.old }

        // The elements and the builder do not change, except for the order.
        ensures same { IsPermutation self.old.elements self.new.elements }
        ensures builder { self.new.builder ≡ self.old.builder }

        // An error has the requested capacity, and leaves the set unchanged.
        ensures error { IfErr result
            (λ e. e.kind ≡ AllocError (fresh_capacity (length self.old.elements))) }
        ensures unchanged { OnErr result (self.new ≡ self.old) }
    {
        self.table.shrink_to_fit()
    }

    /// Shrinks the capacity to that of a new set for `min_capacity` elements, or for as many as the
    /// set has if these are more. Changes nothing if the capacity is not more than that.
    ///
    /// A new set for n elements has the capacity n, but at least 14, or 0 if n is 0.
    /// If the set is empty and `min_capacity` is 0, frees all blocks and does not allocate.
    /// Otherwise allocates new blocks, which may change the order of the elements, unless they would
    /// have as many slots as before.
    ///
    /// # Errors
    /// `AllocError` with the requested capacity. The set is unchanged.
    #[tactic(auto, using(crate::proofs::Elements::elements))]
    pub fn shrink_to(&mut self, min_capacity: usize) -> Result<(), TryReserveError>
        // If nothing has to be allocated, it succeeds.
        ensures empty { max (length self.old.elements) min_capacity ≡ 0 → IsOk result }
        ensures fits { self.old.capacity ≤ shrunk_capacity (length self.old.elements) min_capacity
            → IsOk result }

        // On success, the capacity is that of a new set, or the old one if that is less.
        ensures shrunk { OnOk result (self.new.capacity
            ≡ min self.old.capacity (shrunk_capacity (length self.old.elements) min_capacity)) }
        ensures resizes { OnOk result (CountsShrink
            (SameSlots self.old.capacity self.new.capacity) self.new.capacity
            self.old.resizes self.new.resizes) }
        ensures sufficient { self.old.capacity
            ≤ shrunk_capacity (length self.old.elements) min_capacity → self.new ≡ self.old }

        // The elements and the builder do not change, except for the order.
        ensures same { IsPermutation self.old.elements self.new.elements }
        ensures builder { self.new.builder ≡ self.old.builder }

        // An error has the requested capacity, and leaves the set unchanged.
        ensures error { IfErr result
            (λ e. e.kind ≡ AllocError (shrunk_capacity (length self.old.elements) min_capacity)) }
        ensures unchanged { OnErr result (self.new ≡ self.old) }
    {
        self.table.shrink_to(min_capacity)
    }

    /// Removes the element equal to `value`, and returns `true` if there was one.
    ///
    /// `value` may be a borrowed form of the element, as for `contains`.
    /// Preserves the order of the others. Does not allocate, and does not change the capacity.
    #[tactic(auto, using(crate::proofs::Elements::elements))]
    #[inline]
    pub fn remove<Q: Lookup<T>>(&mut self, value: Q) -> bool
        ensures found { result ≡ list_any (Q.matches value) self.old.elements }
        ensures removed { self.new.elements ≡ remove_key (Q.matches value) self.old.elements }
        ensures capacity { self.new.capacity ≡ self.old.capacity }
        ensures resizes { self.new.resizes ≡ self.old.resizes }
        ensures builder { self.new.builder ≡ self.old.builder }
    {
        self.table.remove(value).is_some()
    }

    /// Removes the element equal to `value` and returns it, or returns `None` if there is none.
    ///
    /// `value` may be a borrowed form of the element, as for `contains`.
    /// Preserves the order of the others. Does not allocate, and does not change the capacity.
    #[tactic(auto, using(crate::proofs::Elements::elements))]
    #[inline]
    pub fn take<Q: Lookup<T>>(&mut self, value: Q) -> Option<T>
        ensures found { result ≡ find (Q.matches value) self.old.elements }
        ensures removed { self.new.elements ≡ remove_key (Q.matches value) self.old.elements }
        ensures capacity { self.new.capacity ≡ self.old.capacity }
        ensures resizes { self.new.resizes ≡ self.old.resizes }
        ensures builder { self.new.builder ≡ self.old.builder }
    {
        let Some((element, _)) = self.table.remove_entry(value) else {
            return None;
        };
        Some(element)
    }
}

impl<T: Eq + Hash + Drop, S: BuildHasher, A: Allocator> Set<T, S, A> {
    /// Removes all elements and drops them.
    ///
    /// Does not allocate, and does not change the capacity.
    pub fn clear(&mut self)
        ensures { self.new ≡ record self.old { elements = [] } }
    {
        self.table.clear();
    }

    /// Keeps only the elements for which `f` returns `true`.
    ///
    /// `f` is called once for each element, in the order of `iter`. The others are dropped.
    /// Preserves the order. Does not allocate, and does not change the capacity.
    pub fn retain<F: FnMut(&T) -> bool + Drop>(&mut self, f: F)
        requires { F.IsAlwaysCallable f }
        ensures kept { IsFiltered (CalledAt F.FnMut) f self.old.elements self.new.elements }
        ensures pure_test { (test : T → Bool) → ((x : T) (res : Bool) (g : F)
            → CalledAt F.FnMut f x res g → (res ≡ test x) × (g ≡ f))
            → self.new.elements ≡ filter test self.old.elements }
        ensures capacity { self.new.capacity ≡ self.old.capacity }
        ensures resizes { self.new.resizes ≡ self.old.resizes }
        ensures builder { self.new.builder ≡ self.old.builder }
    {
        self.table.retain_by(&mut OnKey { keep: f });
    }
}

impl<T: Eq + Hash + Drop, S: BuildHasher + Drop, A: Allocator> Set<T, S, A> {
    /// Consumes the set and returns an iterator over its elements.
    ///
    /// Does not allocate.
    pub fn into_iter(self) -> IntoKeys<T, (), A>
        ensures { result ≡ self.elements }
    {
        self.table.into_keys()
    }
}
