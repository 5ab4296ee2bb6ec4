//! Items by their index, and at the two ends.
ghost use Rattle.std.specs.Prelude.{◌≡◌, ◌-◌, ◌<◌, length, slice_get, slice_index_or, option_copied, Some};
ghost use Rattle.std.specs.List.{list_any};
ghost use Rattle.std.specs.Option.{option_copied_mut};
ghost use Rattle.std.specs.Borrow.{sem};

use crate::ring::Ring;
use std::alloc::Allocator;
use std::ops::{Index, IndexMut};

impl<T, A: Allocator> Ring<T, A> {
    ghost use Rattle.aa_ring.specs.Lends.{lends_item, lends_if_there};

    // Returns a mutable reference to the item at `index`.
    #[tactic(auto, using(crate::proofs::Rings::written_anew))]
    pub(super) fn item_mut(&mut self, index: usize) -> &mut T
        requires { index < length self.old.items }
        ensures* writes_back { sem 𝓛 (lends_item T.row A.row A.Allocator self.entry index result) }
        ensures value { slice_get self.old.items index ≡ Some result.now }
    {
        self.block.prove_capacity_bounds();
        if index < self.count {
            return self.block.place_mut(self.front + index);
        }
        self.block.place_mut(index - self.count)
    }

    /// Returns a mutable reference to the item at `index`, or `None` if there is none.
    ///
    /// The first item is at index 0.
    pub fn get_mut(&mut self, index: usize) -> Option<&mut T>
        ensures* writes_back { sem 𝓛
            (lends_if_there T.row A.row A.Allocator self.entry index result) }
        ensures value { option_copied_mut result ≡ slice_get self.old.items index }
    {
        if index < self.len() {
            return Some(self.item_mut(index));
        }
        None
    }

    /// Returns a reference to the first item, or `None` if the ring is empty.
    pub fn front(&self) -> Option<&T>
        ensures { option_copied result ≡ slice_get self.now.items 0 }
    {
        self.get(0)
    }

    /// Returns a mutable reference to the first item, or `None` if the ring is empty.
    pub fn front_mut(&mut self) -> Option<&mut T>
        ensures* writes_back { sem 𝓛 (lends_if_there T.row A.row A.Allocator self.entry 0 result) }
        ensures value { option_copied_mut result ≡ slice_get self.old.items 0 }
    {
        self.get_mut(0)
    }

    /// Returns a reference to the last item, or `None` if the ring is empty.
    pub fn back(&self) -> Option<&T>
        ensures { option_copied result ≡ slice_get self.now.items (length self.now.items - 1) }
    {
        self.get(self.len().saturating_sub(1))
    }

    /// Returns a mutable reference to the last item, or `None` if the ring is empty.
    pub fn back_mut(&mut self) -> Option<&mut T>
        ensures* writes_back { sem 𝓛 (lends_if_there T.row A.row A.Allocator self.entry
            (length self.old.items - 1) result) }
        ensures value { option_copied_mut result
            ≡ slice_get self.old.items (length self.old.items - 1) }
    {
        let last = self.len().saturating_sub(1);
        self.get_mut(last)
    }

    /// Returns `true` if an item equals `x`.
    #[tactic(auto, using(crate::proofs::Rings::as_two))]
    pub fn contains(&self, x: &T) -> bool
    where
        T: PartialEq,
        ensures { result ≡ list_any (λ y. T.eq y x.now) self.now.items }
    {
        let (first, others) = self.as_slices();
        first.contains(x) || others.contains(x)
    }

    /// Returns a reference to the allocator.
    pub fn allocator(&self) -> &A
        ensures { result.now ≡ self.now.alloc }
    {
        self.block.allocator()
    }
}

impl<T, A: Allocator> Index<usize> for Ring<T, A> {
    type Output = T;

    ghost can_index = { λ r i. i < length r.items };

    ghost index_gives = { λ r i x. x ≡ slice_index_or r.items i x };

    /// Returns a reference to the item at `index`, which must be below the length.
    fn index(&self, index: usize) -> &T {
        match self.get(index) {
            Some(item) => item,
            None => unreachable!(),
        }
    }
}

impl<T, A: Allocator> IndexMut<usize> for Ring<T, A> {
    ghost use Rattle.aa_ring.specs.Lends.{lends_item};

    /// Returns a mutable reference to the item at `index`, which must be below the length.
    fn index_mut(&mut self, index: usize) -> &mut T
        requires { index < length self.old.items }
        ensures* writes_back { sem 𝓛 (lends_item T.row A.row A.Allocator self.entry index result) }
        ensures value { result.now ≡ slice_index_or self.old.items index result.now }
    {
        self.item_mut(index)
    }
}
