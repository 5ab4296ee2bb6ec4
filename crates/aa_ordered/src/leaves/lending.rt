//! Mutable borrows of all values of a map.
ghost use Rattle.std.specs.Borrow.{sem};
ghost use Rattle.aa_raw.specs.EntriesMut.{borrow_name, places_left};
ghost use Rattle.aa_ordered.specs.Entries.{IsOrdered};

use super::Head;
use crate::map::OrderedMap;
use allocator_api2::raw_vec::EntriesMut;
use allocator_api2::vec::Vec;
use std::alloc::Allocator;
use std::cmp::Ord;

impl<K: Ord, V, A: Allocator> OrderedMap<K, V, A> {
    ghost use Rattle.aa_ordered.specs.IterLends.{lends_values};
    ghost use Rattle.aa_ordered.specs.IterMut.{IsLent};

    // Borrows the heads of the leaves, and the entries in their places. The number is that of the
    // lists.
    pub(crate) fn lend(&mut self) -> (&Vec<Head, A>, usize, EntriesMut<'_, K, V>)
        ensures* writes_back { sem 𝓛 (lends_values K.row V.row A.row K.Ord A.Allocator self.entry
            (borrow_name result.2)) }
        ensures lent { IsLent (places_left result.2) result.0.now.items result.1 self.old }
        ensures ordered { IsOrdered K.cmp self.old.entries }
    {
        let used = self.leaves.used;
        let entries = self.leaves.block.entries_mut();
        (&self.leaves.heads, used, entries)
    }
}
