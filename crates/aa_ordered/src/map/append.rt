//! Moving the entries of a map into another.
ghost use Rattle.std.specs.Prelude.{◌≡◌, ◌+◌, ◌<◌, ◌≤◌, [], length, IfErr, IsOk, OnErr, OnOk};
ghost use Rattle.std.specs.BTreeMap.{insert_entry};
ghost use Rattle.allocator_api2.specs.Errors.{IsErrorFor};
ghost use Rattle.aa_ordered.specs.Iterating.{insert_all};
ghost use Rattle.aa_ordered.specs.Capacity.{requested, reserved_capacity, reserved_resizes};

use super::OrderedMap;
use allocator_api2::collections::TryReserveError;
use std::alloc::Allocator;
use std::cmp::Ord;

impl<K: Ord + Drop, V: Drop, A: Allocator + Clone> OrderedMap<K, V, A> {
    // Inserts `key` with the value `item`, where there is capacity.
    pub(crate) fn put_within(&mut self, key: K, item: V)
        requires { length self.old.entries < self.old.capacity }
        ensures inserted { self.new.entries ≡ insert_entry K.cmp self.old.entries key item }
        ensures capacity { self.new.capacity ≡ self.old.capacity }
        ensures resizes { self.new.resizes ≡ self.old.resizes }
    {
        match self.insert(key, item) {
            Ok(_) => {}
            Err(_) => unreachable!(),
        }
    }

    /// Moves all entries of `other` into this map, in the order of their keys. `other` is empty
    /// then, and keeps its capacity.
    ///
    /// A key of both has the value of `other` then. Reserves capacity for all entries of `other`
    /// first, and allocates only for that.
    ///
    /// # Errors
    /// The errors of `reserve`. The maps are unchanged.
    pub fn append(&mut self, other: &mut Self) -> Result<(), TryReserveError>
        ensures fits { length self.old.entries + length other.old.entries ≤ self.old.capacity
            → IsOk result }
        ensures appended { OnOk result (self.new ≡ record {
          entries = insert_all K.cmp self.old.entries other.old.entries;
          capacity = reserved_capacity self.old (length other.old.entries);
          resizes = reserved_resizes self.old (length other.old.entries);
        }) }
        ensures emptied { OnOk result (other.new ≡ record other.old { entries = [] }) }
        ensures error { IfErr result
            (λ e. IsErrorFor e (requested self.old (length other.old.entries))) }
        ensures unchanged { OnErr result (self.new ≡ self.old) }
        ensures unchanged_there { OnErr result (other.new ≡ other.old) }
    {
        self.reserve(other.len())?;
        'each: while let Some((key, item)) = other.pop_first() {
            self.put_within(key, item);
        }
        Ok(())
    }
}
