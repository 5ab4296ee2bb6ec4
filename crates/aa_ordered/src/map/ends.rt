//! The first and the last entry of a map.
ghost use Rattle.std.specs.Prelude.{◌≡◌, ◌-◌, drop, length, option_map, slice_get, take};

use super::OrderedMap;
use super::spots::{first_spot, last_spot, remove_at};
use std::alloc::Allocator;
use std::cmp::Ord;

impl<K: Ord, V, A: Allocator> OrderedMap<K, V, A> {
    /// Returns the least key with its value, or `None` if the map is empty.
    pub fn first_key_value(&self) -> Option<(&K, &V)>
        ensures { option_map (λ p. (p.0.now, p.1.now)) result ≡ slice_get self.now.entries 0 }
    {
        match first_spot(&self.leaves) {
            Some(spot) => {
                let first = &self.leaves.list(spot.list)[spot.at];
                Some((&first.0, &first.1))
            }
            None => None,
        }
    }

    /// Returns the greatest key with its value, or `None` if the map is empty.
    pub fn last_key_value(&self) -> Option<(&K, &V)>
        ensures { option_map (λ p. (p.0.now, p.1.now)) result
            ≡ slice_get self.now.entries (length self.now.entries - 1) }
    {
        match last_spot(&self.leaves) {
            Some(spot) => {
                let last = &self.leaves.list(spot.list)[spot.at];
                Some((&last.0, &last.1))
            }
            None => None,
        }
    }

    /// Removes the least key and returns it with its value, or `None` if the map is empty.
    ///
    /// Does not allocate, and does not change the capacity.
    pub fn pop_first(&mut self) -> Option<(K, V)>
        ensures first { result ≡ slice_get self.old.entries 0 }
        ensures removed { self.new ≡ record self.old { entries = drop 1 self.old.entries } }
    {
        match first_spot(&self.leaves) {
            Some(spot) => {
                let first = remove_at(&mut self.leaves, spot);
                self.len -= 1;
                Some(first)
            }
            None => None,
        }
    }

    /// Removes the greatest key and returns it with its value, or `None` if the map is empty.
    ///
    /// Does not allocate, and does not change the capacity.
    pub fn pop_last(&mut self) -> Option<(K, V)>
        ensures last { result ≡ slice_get self.old.entries (length self.old.entries - 1) }
        ensures removed { self.new
            ≡ record self.old { entries = take (length self.old.entries - 1) self.old.entries } }
    {
        match last_spot(&self.leaves) {
            Some(spot) => {
                let last = remove_at(&mut self.leaves, spot);
                self.len -= 1;
                Some(last)
            }
            None => None,
        }
    }
}
