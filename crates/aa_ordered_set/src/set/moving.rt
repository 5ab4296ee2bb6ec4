//! Moving the elements of a set into another.
ghost use Rattle.std.specs.Prelude.{◌≡◌, ◌+◌, ◌*◌, ◌≤◌, [], length, IfErr, IfOk, IsOk, OnErr, OnOk};
ghost use Rattle.allocator_api2.specs.Errors.{IsErrorFor};
ghost use Rattle.aa_ordered.specs.Capacity.{capacity_of, fresh_resizes, leaves_for, requested, reserved_capacity, reserved_resizes};
ghost use Rattle.aa_ordered_set.specs.Sets.{insert_keys, less, map_of, not_less};

use super::OrderedSet;
use allocator_api2::collections::TryReserveError;
use std::alloc::Allocator;
use std::cmp::Ord;

impl<T: Ord + Drop, A: Allocator + Clone> OrderedSet<T, A> {
    /// Moves all elements of `other` into this set, in ascending order. `other` is empty then, and
    /// keeps its capacity.
    ///
    /// Of two equal elements that of this set is kept. Reserves capacity for all elements of `other`
    /// first, and allocates only for that.
    ///
    /// # Errors
    /// The errors of `reserve`. The sets are unchanged.
    #[tactic(auto, using(crate::proofs::Keys::keys))]
    pub fn append(&mut self, other: &mut Self) -> Result<(), TryReserveError>
        ensures fits { length self.old.elements + length other.old.elements ≤ self.old.capacity
            → IsOk result }
        ensures appended { OnOk result (self.new ≡ record {
          elements = insert_keys T.cmp self.old.elements other.old.elements;
          capacity = reserved_capacity (map_of self.old) (length other.old.elements);
          resizes = reserved_resizes (map_of self.old) (length other.old.elements);
        }) }
        ensures emptied { OnOk result (other.new ≡ record other.old { elements = [] }) }
        ensures error { IfErr result
            (λ e. IsErrorFor e (requested (map_of self.old) (length other.old.elements))) }
        ensures unchanged { OnErr result (self.new ≡ self.old) }
        ensures unchanged_there { OnErr result (other.new ≡ other.old) }
    {
        self.map.append(&mut other.map)
    }
}

impl<T: Ord + Drop, A: Allocator + Copy> OrderedSet<T, A> {
    /// Splits the set at `value`, and returns a set of the elements that are not less.
    ///
    /// The elements that are less than `value` remain, and the capacity does not change. The
    /// returned set has the same allocator, and capacity for its elements; allocates only for that.
    ///
    /// # Errors
    /// `CapacityOverflow` if the bytes exceed `isize::MAX`; `AllocError` with the number of elements
    /// in the requested leaves if an allocation fails. The set is unchanged.
    #[tactic(auto, using(crate::proofs::Keys::keys))]
    pub fn split_off(&mut self, value: &T) -> Result<Self, TryReserveError>
        // If no element is split off, it succeeds without an allocation.
        ensures none { not_less T.cmp self.old.elements value.now ≡ [] → IsOk result }

        // The elements that are less remain, and the others are returned.
        ensures kept { OnOk result (self.new
            ≡ record self.old { elements = less T.cmp self.old.elements value.now }) }
        ensures split { let rest = not_less T.cmp self.old.elements value.now in
            IfOk result (λ s. s ≡ record {
              elements = rest;
              capacity = capacity_of (leaves_for (length rest));
              resizes = fresh_resizes (length rest);
            }) }

        // An error says why it failed, and leaves the set unchanged.
        ensures error { let rest = not_less T.cmp self.old.elements value.now in
            IfErr result (λ e. IsErrorFor e (leaves_for (length rest) * 64)) }
        ensures unchanged { OnErr result (self.new ≡ self.old) }
    {
        let map = match self.map.split_off(value) {
            Ok(map) => map,
            Err(error) => return Err(error),
        };
        Ok(OrderedSet { map })
    }
}
