//! The ordered set: a map whose keys have no values.
ghost use Rattle.std.specs.Prelude.{◌≡◌, ◌<◌, ◌≤◌, ◌↔◌, if◌then◌else◌, [], Bool, true, false, not, filter, find, is_some, length, IfErr, IfOk, IsOk, IsTrue, OnErr, OnOk, option_copied};
ghost use Rattle.std.specs.BTreeMap.{is_at};
ghost use Rattle.std.specs.BTreeSet.{insert_key, replace_key};
ghost use Rattle.std.specs.Fn.{CalledAt};
ghost use Rattle.std.specs.List.{list_any};
ghost use Rattle.std.specs.List.Retain.{IsFiltered};
ghost use Rattle.std.specs.Ordering.{eq_by_cmp};
ghost use Rattle.std.specs.Set.{remove_key};
ghost use Rattle.allocator_api2.specs.Errors.{IsErrorFor};
ghost use Rattle.aa_ordered.specs.Capacity.{requested, reserved_capacity, reserved_resizes, resizes_to, MayGrowForOne};
ghost use Rattle.aa_ordered_set.specs.Sets.{empty, has, map_of, IsAscending};

use aa_ordered::into_iter::IntoKeys;
use aa_ordered::iter::Keys;
use aa_ordered::lookup::Lookup;
use aa_ordered::map::OrderedMap;
use allocator_api2::collections::{Refused, TryReserveError};
use std::alloc::{AllocError, Allocator, Global};
use std::cmp::Ord;
use std::marker::Model;

mod capacity;
mod ends;
mod moving;

/// An ordered set over any allocator: the keys of an `OrderedMap`.
///
/// A contract sees a set as its elements in ascending order, its capacity, and the number of times
/// that it moved to new blocks.
pub struct OrderedSet<T: Ord, A: Allocator = Global> {
    pub(crate) map: OrderedMap<T, (), A>,
}

impl<T: Ord, A: Allocator> Model for OrderedSet<T, A> {
    ghost use Rattle.aa_ordered_set.specs.Sets.{set_of, SetView};

    ghost Value = { SetView T };

    ghost view = { λ s. set_of s.map };
}

impl<T: Ord + Drop, A: Allocator> Drop for OrderedSet<T, A> {
    fn drop(self) {
        let OrderedSet { map } = self;
        drop(map);
    }
}

impl<T: Ord, A: Allocator + Copy> OrderedSet<T, A> {
    /// Returns an empty set.
    ///
    /// Does not allocate.
    pub fn new_in(alloc: A) -> Self
        ensures { result ≡ empty }
    {
        OrderedSet {
            map: OrderedMap::new_in(alloc),
        }
    }
}

impl<T: Ord, A: Allocator + Clone> OrderedSet<T, A> {
    /// Like `new_in`, but for an allocator that is cloned, and may fail to be.
    ///
    /// # Errors
    /// The error of `alloc.clone()`.
    pub fn try_new_in(alloc: A) -> Result<Self, AllocError>
        ensures { IfOk result (λ s. s ≡ empty) }
    {
        match OrderedMap::try_new_in(alloc) {
            Ok(map) => Ok(OrderedSet { map }),
            Err(error) => Err(error),
        }
    }
}

impl<T: Ord, A: Allocator> OrderedSet<T, A> {
    /// Returns a reference to the underlying allocator.
    pub fn allocator(&self) -> &A {
        self.map.allocator()
    }

    /// Returns the number of elements.
    #[tactic(auto, using(crate::proofs::Keys::keys))]
    pub fn len(&self) -> usize
        ensures len { result ≡ length self.now.elements }
        ensures ascending { IsAscending T.cmp self.now.elements }
    {
        self.map.len()
    }

    // Shows that the elements are in order.
    #[inline(always)]
    fn prove_order(&self)
        ensures { IsAscending T.cmp self.now.elements }
    {
        let _ = self.len();
    }

    /// Returns `true` if the set has no elements.
    #[tactic(auto, using(crate::proofs::Keys::keys))]
    pub fn is_empty(&self) -> bool
        ensures { IsTrue result ↔ (self.now.elements ≡ []) }
    {
        self.map.is_empty()
    }

    /// Returns the number of elements that the set can always hold without another allocation.
    ///
    /// Depending on the elements, it may hold up to twice as many.
    pub fn capacity(&self) -> usize
        ensures { result ≡ self.now.capacity }
    {
        self.map.capacity()
    }

    /// Returns `true` if the set has an element equal to `value`.
    ///
    /// `value` is a `&T`, or a borrowed form of the element, as a `&str` for a text (`Lookup`).
    #[tactic(auto, using(crate::proofs::Keys::keys))]
    pub fn contains<Q: Lookup<T>>(&self, value: Q) -> bool
        ensures { result ≡ list_any (is_at (Q.order value)) self.now.elements }
    {
        self.map.contains_key(value)
    }

    /// Returns a reference to the element equal to `value`, or `None` if there is none.
    ///
    /// `value` may be a borrowed form of the element, as for `contains`.
    #[tactic(auto, using(crate::proofs::Keys::keys))]
    pub fn get<Q: Lookup<T>>(&self, value: Q) -> Option<&T>
        ensures { option_copied result ≡ find (is_at (Q.order value)) self.now.elements }
    {
        match self.map.get_key_value(value) {
            Some((element, _)) => Some(element),
            None => None,
        }
    }

    /// Returns a double-ended iterator over the elements, in ascending order.
    ///
    /// Does not allocate.
    pub fn iter(&self) -> Keys<'_, T, (), A>
        ensures all { result ≡ self.now.elements }
        ensures ascending { IsAscending T.cmp self.now.elements }
    {
        self.map.keys()
    }
}

impl<T: Ord + Drop, A: Allocator + Clone> OrderedSet<T, A> {
    /// Inserts `value`, and returns `true` if it is new.
    ///
    /// An element that is equal to it is kept, and `value` is dropped. Allocates only if `value` is
    /// new and the set has as many elements as its capacity, or more, and then at least doubles the
    /// number of leaves.
    ///
    /// # Errors
    /// `CapacityOverflow` if the bytes exceed `isize::MAX`; `AllocError` with the number of elements
    /// in the requested leaves if an allocation fails. The set is unchanged, and `value` is returned
    /// in the error.
    #[tactic(auto, using(crate::proofs::Keys::keys))]
    pub fn insert(&mut self, value: T) -> Result<bool, Refused<T>>
        // If the value is present, or there is capacity, it succeeds without an allocation.
        ensures there { has T.cmp self.old.elements value ≡ true → IsOk result }
        ensures fits { length self.old.elements < self.old.capacity → IsOk result }

        // On success, the value is an element, and the result says whether it is new.
        ensures new { IfOk result (λ new. new ≡ not (has T.cmp self.old.elements value)) }
        ensures inserted { OnOk result
            (self.new.elements ≡ insert_key T.cmp self.old.elements value) }
        ensures kept { has T.cmp self.old.elements value ≡ true → self.new ≡ self.old }

        // The capacity changes only by an allocation, and to that of the requested leaves.
        ensures capacity { length self.old.elements < self.old.capacity
            → self.new.capacity ≡ self.old.capacity }
        ensures grown { MayGrowForOne (map_of self.old) (map_of self.new) }
        ensures resizes { self.new.resizes ≡ resizes_to (map_of self.old) self.new.capacity }

        // An error returns the value, says why it failed, and leaves the set unchanged.
        ensures returned { IfErr result (λ r. r.source ≡ value) }
        ensures error { IfErr result (λ r. IsErrorFor r.error (requested (map_of self.old) 1)) }
        ensures unchanged { OnErr result (self.new ≡ self.old) }
    {
        self.prove_order();
        let old = match self.map.insert(value, ()) {
            Ok(old) => old,
            Err(refused) => {
                return Err(Refused {
                    source: refused.source.0,
                    error: refused.error,
                });
            }
        };
        Ok(old.is_none())
    }

    // Inserts `value`, where there is capacity.
    #[tactic(auto, using(crate::proofs::Keys::keys))]
    pub(crate) fn insert_within(&mut self, value: T)
        requires { length self.old.elements < self.old.capacity }
        ensures { self.new ≡ record self.old {
          elements = insert_key T.cmp self.old.elements value;
        } }
    {
        match self.insert(value) {
            Ok(_) => {}
            Err(_) => unreachable!(),
        }
    }

    /// Inserts `value` in the place of the element that is equal to it, and returns that element, or
    /// `None` if there was none.
    ///
    /// If `value` is new, allocates as `insert` does, else only if the set has more elements than
    /// its capacity, and then as `reserve(0)` does.
    ///
    /// # Errors
    /// `CapacityOverflow` if the bytes exceed `isize::MAX`; `AllocError` with the number of elements
    /// in the requested leaves if an allocation fails. The set is unchanged, and `value` is returned
    /// in the error.
    #[tactic(auto, using(crate::proofs::Keys::keys))]
    pub fn replace(&mut self, value: T) -> Result<Option<T>, Refused<T>>
        // If there is capacity, it succeeds without an allocation.
        ensures there { has T.cmp self.old.elements value ≡ true
            → length self.old.elements ≤ self.old.capacity → IsOk result }
        ensures fits { length self.old.elements < self.old.capacity → IsOk result }

        // On success, the value is an element, and the old one is returned.
        ensures old { IfOk result
            (λ old. old ≡ find (eq_by_cmp T.cmp value) self.old.elements) }
        ensures replaced { OnOk result
            (self.new.elements ≡ replace_key T.cmp self.old.elements value) }

        // If the value is present, the capacity is reserved for as many elements.
        ensures capacity { has T.cmp self.old.elements value ≡ true
            → OnOk result (self.new.capacity ≡ reserved_capacity (map_of self.old) 0) }
        ensures counted { has T.cmp self.old.elements value ≡ true
            → OnOk result (self.new.resizes ≡ reserved_resizes (map_of self.old) 0) }

        // If the value is new, the capacity changes as by `insert`.
        ensures grown { has T.cmp self.old.elements value ≡ false
            → MayGrowForOne (map_of self.old) (map_of self.new) }
        ensures resizes { has T.cmp self.old.elements value ≡ false
            → self.new.resizes ≡ resizes_to (map_of self.old) self.new.capacity }

        // An error returns the value, says why it failed, and leaves the set unchanged.
        ensures returned { IfErr result (λ r. r.source ≡ value) }
        ensures error { IfErr result (λ r. IsErrorFor r.error (requested (map_of self.old)
            (if has T.cmp self.old.elements value then 0 else 1))) }
        ensures unchanged { OnErr result (self.new ≡ self.old) }
    {
        self.prove_order();
        if !self.contains(&value) {
            self.insert(value)?;
            return Ok(None);
        }
        if let Err(error) = self.reserve(0) {
            return Err(Refused {
                source: value,
                error,
            });
        }
        let old = self.take(&value);
        self.insert_within(value);
        Ok(old)
    }
}

impl<T: Ord, A: Allocator> OrderedSet<T, A> {
    /// Removes the element equal to `value` and returns it, or returns `None` if there is none.
    ///
    /// `value` may be a borrowed form of the element, as for `contains`. Does not allocate, and does
    /// not change the capacity.
    #[tactic(auto, using(crate::proofs::Keys::keys))]
    pub fn take<Q: Lookup<T>>(&mut self, value: Q) -> Option<T>
        ensures old { result ≡ find (is_at (Q.order value)) self.old.elements }
        ensures removed { self.new ≡ record self.old {
          elements = remove_key (is_at (Q.order value)) self.old.elements;
        } }
    {
        let Some((element, _)) = self.map.remove_entry(value) else {
            return None;
        };
        Some(element)
    }
}

impl<T: Ord + Drop, A: Allocator> OrderedSet<T, A> {
    /// Removes the element equal to `value`, and returns `true` if there was one.
    ///
    /// `value` may be a borrowed form of the element, as for `contains`. Does not allocate, and does
    /// not change the capacity.
    #[tactic(auto, using(crate::proofs::Keys::keys))]
    pub fn remove<Q: Lookup<T>>(&mut self, value: Q) -> bool
        ensures found { result ≡ list_any (is_at (Q.order value)) self.old.elements }
        ensures removed { self.new ≡ record self.old {
          elements = remove_key (is_at (Q.order value)) self.old.elements;
        } }
    {
        self.map.remove(value).is_some()
    }

    /// Removes all elements, and drops them in ascending order.
    ///
    /// Does not allocate, and does not change the capacity.
    pub fn clear(&mut self)
        ensures { self.new ≡ record self.old { elements = [] } }
    {
        self.map.clear();
    }

    /// Keeps only the elements for which `f` returns `true`.
    ///
    /// `f` is called once for each element, in ascending order. The others are dropped. Does not
    /// allocate, and does not change the capacity.
    pub fn retain<F: FnMut(&T) -> bool + Drop>(&mut self, mut f: F)
        requires { F.IsAlwaysCallable f }
        ensures kept { IsFiltered (CalledAt F.FnMut) f self.old.elements self.new.elements }
        ensures pure_test { (test : T → Bool) → ((x : T) (res : Bool) (g : F)
            → CalledAt F.FnMut f x res g → (res ≡ test x) × (g ≡ f))
            → self.new.elements ≡ filter test self.old.elements }
        ensures capacity { self.new.capacity ≡ self.old.capacity }
        ensures resizes { self.new.resizes ≡ self.old.resizes }
    {
        self.map.retain(
            move |value: &T, _: &mut ()| -> bool
                requires { F.IsAlwaysCallable f }
                ensures callable { F.IsAlwaysCallable f.exit }
                ensures called { CalledAt F.FnMut f.entry value.now result f.exit }
            { f(value) },
        );
    }

    /// Consumes the set and returns a double-ended iterator over its elements, in ascending order.
    ///
    /// Does not allocate.
    pub fn into_iter(self) -> IntoKeys<T, (), A>
        ensures all { result ≡ self.elements }
        ensures ascending { IsAscending T.cmp self.elements }
    {
        let OrderedSet { map } = self;
        map.into_keys()
    }
}
