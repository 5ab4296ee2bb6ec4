//! The first and the last element of a set.
ghost use Rattle.std.specs.Prelude.{◌≡◌, ◌-◌, drop, length, option_copied, slice_get, take};

use super::OrderedSet;
use std::alloc::Allocator;
use std::cmp::Ord;

impl<T: Ord, A: Allocator> OrderedSet<T, A> {
    /// Returns a reference to the least element, or `None` if the set is empty.
    #[tactic(auto, using(crate::proofs::Keys::keys))]
    pub fn first(&self) -> Option<&T>
        ensures { option_copied result ≡ slice_get self.now.elements 0 }
    {
        match self.map.first_key_value() {
            Some((element, _)) => Some(element),
            None => None,
        }
    }

    /// Returns a reference to the greatest element, or `None` if the set is empty.
    #[tactic(auto, using(crate::proofs::Keys::keys))]
    pub fn last(&self) -> Option<&T>
        ensures { option_copied result
            ≡ slice_get self.now.elements (length self.now.elements - 1) }
    {
        match self.map.last_key_value() {
            Some((element, _)) => Some(element),
            None => None,
        }
    }

    /// Removes the least element and returns it, or returns `None` if the set is empty.
    ///
    /// Does not allocate, and does not change the capacity.
    #[tactic(auto, using(crate::proofs::Keys::keys))]
    pub fn pop_first(&mut self) -> Option<T>
        ensures first { result ≡ slice_get self.old.elements 0 }
        ensures removed { self.new ≡ record self.old { elements = drop 1 self.old.elements } }
    {
        match self.map.pop_first() {
            Some((element, _)) => Some(element),
            None => None,
        }
    }

    /// Removes the greatest element and returns it, or returns `None` if the set is empty.
    ///
    /// Does not allocate, and does not change the capacity.
    #[tactic(auto, using(crate::proofs::Keys::keys))]
    pub fn pop_last(&mut self) -> Option<T>
        ensures last { result ≡ slice_get self.old.elements (length self.old.elements - 1) }
        ensures removed { self.new ≡ record self.old {
          elements = take (length self.old.elements - 1) self.old.elements;
        } }
    {
        match self.map.pop_last() {
            Some((element, _)) => Some(element),
            None => None,
        }
    }
}
