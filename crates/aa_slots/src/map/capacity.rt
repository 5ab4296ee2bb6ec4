//! The capacity of a slot map.
ghost use Rattle.std.specs.Prelude.{◌≡◌, ◌+◌, ◌-◌, length, IfErr, IfOk, IsOk, OnErr, OnOk};
ghost use Rattle.allocator_api2.specs.Errors.{IsErrorFor};
ghost use Rattle.allocator_api2.specs.declared.raw_vec.Growth.TheVariants.{Doubling};
ghost use Rattle.aa_slots.specs.Slotted.{count, empty, shrunk, with_room, HasRoom};

use crate::blocks;
use crate::map::SlotMap;
use crate::slots::capacity_in;
use allocator_api2::collections::{TryReserveError, TryReserveErrorKind};
use std::alloc::Allocator;

impl<T: Drop, A: Allocator + Clone> SlotMap<T, A> {
    /// Returns an empty map that has issued no keys, with capacity for exactly `capacity` values.
    ///
    /// Allocates if `capacity` is above 0.
    ///
    /// # Errors
    /// `CapacityOverflow`, or `AllocError` with the number `capacity`, also if a clone of the
    /// allocator fails.
    pub fn with_capacity_in(capacity: usize, alloc: A) -> Result<Self, TryReserveError>
        ensures made { IfOk result (λ m. m ≡ empty capacity Doubling) }
        ensures fits { capacity ≡ 0 → IsOk result }
        ensures error { IfErr result (λ e. IsErrorFor e capacity) }
    {
        SlotMap::with_capacity_and_key_in(capacity, alloc)
    }
}

impl<T: Drop, A: Allocator + Clone, K> SlotMap<T, A, K> {
    /// Returns an empty map whose keys are of the kind `K`, with capacity for exactly `capacity`
    /// values. It has issued no keys.
    ///
    /// Allocates if `capacity` is above 0.
    ///
    /// # Errors
    /// `CapacityOverflow`, or `AllocError` with the number `capacity`, also if a clone of the
    /// allocator fails.
    pub fn with_capacity_and_key_in(capacity: usize, alloc: A) -> Result<Self, TryReserveError>
        ensures made { IfOk result (λ m. m ≡ empty capacity Doubling) }
        ensures fits { capacity ≡ 0 → IsOk result }
        ensures error { IfErr result (λ e. IsErrorFor e capacity) }
    {
        let mut map = SlotMap::with_key_in(alloc);
        map.reserve(capacity)?;
        Ok(map)
    }

    /// Reserves capacity for exactly `additional` more values.
    ///
    /// Does not allocate if the capacity is already sufficient. By the policy `InPlace`, both
    /// blocks of a map without free slots grow in place, if they are full and the allocator can.
    ///
    /// # Errors
    /// `CapacityOverflow` if the bytes exceed `isize::MAX`; `AllocError` with the requested
    /// capacity, the number of values with `additional` more, if an allocation or a clone of the
    /// allocator fails. The map is unchanged. By the policy `InPlace`, the block of its values may
    /// be larger.
    pub fn reserve(&mut self, additional: usize) -> Result<(), TryReserveError>
        ensures fits { HasRoom self.old additional → IsOk result }
        ensures enough { OnOk result (HasRoom self.new additional) }
        ensures reserved { OnOk result (self.new ≡ with_room self.old additional) }
        ensures error { IfErr result
            (λ e. IsErrorFor e (count self.old.slots + additional)) }
        ensures unchanged { OnErr result (self.new ≡ self.old) }
    {
        if additional <= self.room() {
            return Ok(());
        }
        match self.len().checked_add(additional) {
            Some(capacity) => blocks::reserve(
                &mut self.slots,
                &mut self.values,
                self.free.count,
                capacity,
                &mut self.moves,
            ),
            None => Err(TryReserveErrorKind::CapacityOverflow.into()),
        }
    }

    /// Shrinks the capacity to the number of slots, free ones included.
    ///
    /// Free slots are kept, since each value stays in the slot of its key. Allocates unless the
    /// capacity is that number already.
    ///
    /// # Errors
    /// `AllocError` with the number of slots, also if a clone of the allocator fails. The map is
    /// unchanged.
    pub fn shrink_to_fit(&mut self) -> Result<(), TryReserveError>
        ensures shrunk { OnOk result (self.new ≡ shrunk self.old) }
        ensures fits { self.old.capacity ≡ length self.old.slots → IsOk result }
        ensures error { IfErr result (λ e. IsErrorFor e (length self.old.slots)) }
        ensures unchanged { OnErr result (self.new ≡ self.old) }
    {
        let free = self.free.count;
        match &mut self.slots {
            Some(slots) => blocks::shrink(slots, &mut self.values, free, &mut self.moves),
            None => Ok(()),
        }
    }
}

impl<T, A: Allocator, K> SlotMap<T, A, K> {
    /// Returns the number of values that the map can hold without another allocation.
    pub fn capacity(&self) -> usize
        ensures { result ≡ self.now.capacity }
    {
        capacity_in(&self.slots)
    }

    // Returns the number of values that can be inserted without another allocation.
    pub(crate) fn room(&self) -> usize
        ensures { result ≡ self.now.capacity - count self.now.slots }
    {
        self.capacity() - self.len()
    }
}
