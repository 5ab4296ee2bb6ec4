//! Clones of slot maps.
ghost use Rattle.std.specs.Prelude.{◌≡◌, [], length, IfErr, IfOk, IsOk};
ghost use Rattle.allocator_api2.specs.Clones.{ClonesAreEqual};
ghost use Rattle.allocator_api2.specs.Errors.{IsErrorFor};
ghost use Rattle.aa_slots.specs.Slotted.{IsClonedMap};

use crate::blocks::{clone_slots, clone_values, count_move};
use crate::map::SlotMap;
use crate::slots::slots_in;
use allocator_api2::collections::TryReserveError;
use allocator_api2::counter::Counter;
use std::alloc::{AllocError, Allocator};
use std::marker::PhantomData;

impl<T: Clone + Drop, A: Allocator + Clone, K> SlotMap<T, A, K> {
    /// Returns a map with a clone of each value for the same key, over a clone of the allocator.
    ///
    /// It has capacity for exactly the slots of this one, free ones included, and issues the keys
    /// that this one would issue. Allocates before the first clone of a value.
    ///
    /// # Errors
    /// `CapacityOverflow`, or `AllocError` with the number of slots, also if a clone of the
    /// allocator or of a value fails. The clones made so far are dropped.
    pub fn clone(&self) -> Result<Self, TryReserveError>
        // On success, each key of this map finds a clone of its value, or an equal one.
        ensures made { IfOk result (IsClonedMap T.is_clone self.now) }
        ensures copied { ClonesAreEqual T.is_clone → IfOk result
            (λ copy. copy.slots ≡ self.now.slots) }

        // Without slots it succeeds, if a clone of the allocator can't fail. An error has the
        // number of slots.
        ensures fits { ((a : A) → A.is_infallible a) → self.now.slots ≡ [] → IsOk result }
        ensures error { IfErr result (λ e. IsErrorFor e (length self.now.slots)) }
    {
        let slots = clone_slots(&self.slots)?;
        let all = slots_in(&self.slots);
        let values = clone_values(all, &self.values)?;
        let mut moves = Counter::zero();
        count_move(&mut moves, all.len());
        Ok(SlotMap {
            values,
            slots,
            free: self.free,
            issued: self.issued,
            moves,
            kind: PhantomData,
        })
    }
}

impl<T: Clone + Drop, A: Allocator + Clone, K> Clone for SlotMap<T, A, K> {
    ghost is_clone = { IsClonedMap T.is_clone };

    ghost is_infallible = { λ m. ((a : A) → A.is_infallible a) × (m.slots ≡ []) };

    /// Returns a clone as the inherent `clone` does, whose error also has the number.
    fn clone(&self) -> Result<Self, AllocError> {
        SlotMap::clone(self).map_err(|_| AllocError)
    }
}
