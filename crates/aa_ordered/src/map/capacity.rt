//! The capacity of a map.
ghost use Rattle.std.specs.Prelude.{◌≡◌, ◌+◌, ◌*◌, ◌<◌, ◌≤◌, [], length, IfErr, IfOk, IsOk, OnErr, OnOk};
ghost use Rattle.allocator_api2.specs.Errors.{IsErrorFor};
ghost use Rattle.aa_ordered.specs.Capacity.{capacity_of, fresh_resizes, leaves_for, leaves_of, requested, reserved_capacity, reserved_resizes, resizes_to, IsAllocErrorWithin};

use super::OrderedMap;
use allocator_api2::collections::{TryReserveError, TryReserveErrorKind};
use std::alloc::Allocator;
use std::cmp::Ord;

// Returns the least number of leaves with capacity for `count` entries.
fn leaves_for(count: usize) -> usize
    ensures { result ≡ leaves_for count }
{
    if count == 0 {
        return 0;
    }
    let leaves = (count - 1) / 32;
    if leaves == 0 { 1 } else { leaves }
}

impl<K: Ord, V, A: Allocator + Clone> OrderedMap<K, V, A> {
    /// Reserves capacity for at least `additional` more entries.
    ///
    /// Allocates only if the capacity is not sufficient, and then at least doubles the number of
    /// leaves: a new block over a clone of the allocator, to which the entries move.
    ///
    /// # Errors
    /// `CapacityOverflow` if the number of entries would exceed `usize::MAX` or the bytes
    /// `isize::MAX`; `AllocError` with the number of entries in the requested leaves if an
    /// allocation fails. The map is unchanged.
    pub fn reserve(&mut self, additional: usize) -> Result<(), TryReserveError>
        ensures fits { length self.old.entries + additional ≤ self.old.capacity → IsOk result }
        ensures reserved { OnOk result (self.new ≡ record self.old {
          capacity = reserved_capacity self.old additional;
          resizes = reserved_resizes self.old additional;
        }) }
        ensures room { OnOk result (length self.new.entries + additional ≤ self.new.capacity) }
        ensures error { IfErr result (λ e. IsErrorFor e (requested self.old additional)) }
        ensures unchanged { OnErr result (self.new ≡ self.old) }
    {
        let capacity = self.capacity();
        self.leaves.prove_bounds();
        let Some(count) = self.len.checked_add(additional) else {
            return Err(TryReserveErrorKind::CapacityOverflow.into());
        };
        if count <= capacity {
            return Ok(());
        }
        self.leaves
            .try_reserve(leaves_for(count) - self.leaves.len())
    }

    /// Reduces the capacity as much as possible.
    ///
    /// It is then less than the number of entries plus 64, and 0 if the map is empty.
    ///
    /// Allocates only if there are entries and free leaves: a new block over a clone of the
    /// allocator, to which the entries move.
    ///
    /// # Errors
    /// `AllocError` with the number of entries in the requested leaves if an allocation fails. The
    /// map is unchanged.
    pub fn shrink_to_fit(&mut self) -> Result<(), TryReserveError>
        // If the entries fit in no fewer leaves, it succeeds without an allocation.
        ensures fits { leaves_of self.old.capacity * 64 < length self.old.entries + 64
            → IsOk result }

        // The entries do not change, and the capacity does not become more.
        ensures entries { self.new.entries ≡ self.old.entries }
        ensures capacity { self.new.capacity ≤ self.old.capacity }
        ensures shrunk { OnOk result (self.new.capacity < length self.old.entries + 64) }
        ensures none { OnOk result (self.old.entries ≡ [] → self.new.capacity ≡ 0) }
        ensures resizes { self.new.resizes ≡ resizes_to self.old self.new.capacity }

        // An error says how many places were requested, and leaves the map unchanged.
        ensures error { let n = length self.old.entries in
            IfErr result (λ e. IsAllocErrorWithin e n (2 * n + 64)) }
        ensures fewer { let n = length self.old.entries in
            IfErr result (λ e. IsAllocErrorWithin e n (leaves_of self.old.capacity * 64)) }
        ensures unchanged { OnErr result (self.new ≡ self.old) }
    {
        self.leaves.prove_bounds();
        self.leaves.shrink_to(0)
    }
}

impl<K: Ord + Drop, V: Drop, A: Allocator + Copy> OrderedMap<K, V, A> {
    /// Returns an empty map with capacity for at least `capacity` entries.
    ///
    /// Does not allocate if `capacity` is 0.
    ///
    /// # Errors
    /// `CapacityOverflow` if the bytes exceed `isize::MAX`; `AllocError` with the number of entries
    /// in the requested leaves if an allocation fails.
    pub fn with_capacity_in(capacity: usize, alloc: A) -> Result<Self, TryReserveError>
        ensures made { IfOk result (λ m. m ≡ record {
          entries = [];
          capacity = capacity_of (leaves_for capacity);
          resizes = fresh_resizes capacity;
        }) }
        ensures room { IfOk result (λ m. capacity ≤ m.capacity) }
        ensures none { capacity ≡ 0 → IsOk result }
        ensures error { IfErr result (λ e. IsErrorFor e (leaves_for capacity * 64)) }
    {
        let mut map = OrderedMap::new_in(alloc);
        map.reserve(capacity)?;
        Ok(map)
    }
}
