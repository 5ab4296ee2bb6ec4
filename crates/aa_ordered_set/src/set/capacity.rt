//! The capacity of a set.
ghost use Rattle.std.specs.Prelude.{◌≡◌, ◌+◌, ◌*◌, ◌<◌, ◌≤◌, [], length, IfErr, IfOk, IsOk, OnErr, OnOk};
ghost use Rattle.allocator_api2.specs.Errors.{IsErrorFor};
ghost use Rattle.aa_ordered.specs.Capacity.{capacity_of, fresh_resizes, leaves_for, leaves_of, requested, reserved_capacity, reserved_resizes, resizes_to, IsAllocErrorWithin};
ghost use Rattle.aa_ordered_set.specs.Sets.{map_of};

use super::OrderedSet;
use aa_ordered::map::OrderedMap;
use allocator_api2::collections::TryReserveError;
use std::alloc::Allocator;
use std::cmp::Ord;

impl<T: Ord, A: Allocator + Clone> OrderedSet<T, A> {
    /// Reserves capacity for at least `additional` more elements.
    ///
    /// Allocates only if the capacity is not sufficient, and then at least doubles the number of
    /// leaves: a new block over a clone of the allocator, to which the elements move.
    ///
    /// # Errors
    /// `CapacityOverflow` if the number of elements would exceed `usize::MAX` or the bytes
    /// `isize::MAX`; `AllocError` with the number of elements in the requested leaves if an
    /// allocation fails. The set is unchanged.
    #[tactic(auto, using(crate::proofs::Keys::keys))]
    pub fn reserve(&mut self, additional: usize) -> Result<(), TryReserveError>
        ensures fits { length self.old.elements + additional ≤ self.old.capacity → IsOk result }
        ensures reserved { OnOk result (self.new ≡ record self.old {
          capacity = reserved_capacity (map_of self.old) additional;
          resizes = reserved_resizes (map_of self.old) additional;
        }) }
        ensures room { OnOk result (length self.new.elements + additional ≤ self.new.capacity) }
        ensures error { IfErr result
            (λ e. IsErrorFor e (requested (map_of self.old) additional)) }
        ensures unchanged { OnErr result (self.new ≡ self.old) }
    {
        self.map.reserve(additional)
    }

    /// Reduces the capacity as much as possible.
    ///
    /// It is then less than the number of elements plus 64, and 0 if the set is empty.
    ///
    /// Allocates only if there are elements and free leaves: a new block over a clone of the
    /// allocator, to which the elements move.
    ///
    /// # Errors
    /// `AllocError` with the number of elements in the requested leaves if an allocation fails. The
    /// set is unchanged.
    #[tactic(auto, using(crate::proofs::Keys::keys))]
    pub fn shrink_to_fit(&mut self) -> Result<(), TryReserveError>
        // If the elements fit in no fewer leaves, it succeeds without an allocation.
        ensures fits { leaves_of self.old.capacity * 64 < length self.old.elements + 64
            → IsOk result }

        // The elements do not change, and the capacity does not become more.
        ensures elements { self.new.elements ≡ self.old.elements }
        ensures capacity { self.new.capacity ≤ self.old.capacity }
        ensures shrunk { OnOk result (self.new.capacity < length self.old.elements + 64) }
        ensures none { OnOk result (self.old.elements ≡ [] → self.new.capacity ≡ 0) }
        ensures resizes { self.new.resizes ≡ resizes_to (map_of self.old) self.new.capacity }

        // An error says how many places were requested, and leaves the set unchanged.
        ensures error { let n = length self.old.elements in
            IfErr result (λ e. IsAllocErrorWithin e n (2 * n + 64)) }
        ensures fewer { let n = length self.old.elements in
            IfErr result (λ e. IsAllocErrorWithin e n (leaves_of self.old.capacity * 64)) }
        ensures unchanged { OnErr result (self.new ≡ self.old) }
    {
        self.map.shrink_to_fit()
    }
}

impl<T: Ord + Drop, A: Allocator + Copy> OrderedSet<T, A> {
    /// Returns an empty set with capacity for at least `capacity` elements.
    ///
    /// Does not allocate if `capacity` is 0.
    ///
    /// # Errors
    /// `CapacityOverflow` if the bytes exceed `isize::MAX`; `AllocError` with the number of elements
    /// in the requested leaves if an allocation fails.
    pub fn with_capacity_in(capacity: usize, alloc: A) -> Result<Self, TryReserveError>
        ensures made { IfOk result (λ s. s ≡ record {
          elements = [];
          capacity = capacity_of (leaves_for capacity);
          resizes = fresh_resizes capacity;
        }) }
        ensures room { IfOk result (λ s. capacity ≤ s.capacity) }
        ensures none { capacity ≡ 0 → IsOk result }
        ensures error { IfErr result (λ e. IsErrorFor e (leaves_for capacity * 64)) }
    {
        match OrderedMap::with_capacity_in(capacity, alloc) {
            Ok(map) => Ok(OrderedSet { map }),
            Err(error) => Err(error),
        }
    }
}
