//! Access to elements by index, and iteration over all of them.
ghost use Rattle.std.specs.Prelude.{◌≡◌, ◌<◌, length, slice_index_or};
ghost use Rattle.std.specs.Borrow.{sem};
ghost use Rattle.std.specs.Iterator.Adapters.{IterYieldsInOrder, IterYieldsInReverse};
ghost use Rattle.std.specs.Slice.Iter.{iter_rest, iter_mut_rest};

use crate::vec::Vec;
use std::alloc::Allocator;
use std::ops::{Index, IndexMut};
use std::slice::{Iter, IterMut};

impl<T, A: Allocator> Vec<T, A> {
    ghost use Rattle.aa_vec.specs.VecLends.{lends_item, lends_all};

    /// Returns a double-ended iterator over the elements, in order.
    ///
    /// Corresponds to the slice's `iter`.
    pub fn iter(&self) -> Iter<'_, T>
        ensures remaining { iter_rest result ≡ self.now.items }
        ensures in_order { IterYieldsInOrder T }
        ensures in_reverse { IterYieldsInReverse T }
    {
        self.as_slice().iter()
    }

    /// Returns a double-ended iterator over the elements, in order, that allows modifying each.
    ///
    /// Corresponds to the slice's `iter_mut`.
    pub fn iter_mut(&mut self) -> IterMut<'_, T>
        ensures* writes_back { sem 𝓛 (lends_all T.row A.row A.Allocator self.entry result) }
        ensures remaining { iter_mut_rest result ≡ self.old.items }
    {
        self.as_mut_slice().iter_mut()
    }

    // Returns a mutable reference to the element at `index`.
    #[tactic(auto, using(aa_raw::proofs::Positions::at_positions, crate::proofs::Tidy::few_at_end))]
    fn item_mut(&mut self, index: usize) -> &mut T
        requires { index < length self.old.items }
        ensures* writes_back { sem 𝓛 (lends_item T.row A.row A.Allocator self.entry index result) }
        ensures value { result.now ≡ slice_index_or self.old.items index result.now }
    {
        self.block.place_mut(index)
    }
}

impl<T, A: Allocator> Index<usize> for Vec<T, A> {
    type Output = T;

    ghost can_index = { λ v i. i < length v.items };

    ghost index_gives = { λ v i x. x ≡ slice_index_or v.items i x };

    /// Returns a reference to the element at `index`, which is below the length.
    fn index(&self, index: usize) -> &T {
        &self.as_slice()[index]
    }
}

impl<T, A: Allocator> IndexMut<usize> for Vec<T, A> {
    ghost use Rattle.aa_vec.specs.VecLends.{lends_item};

    /// Returns a mutable reference to the element at `index`, which is below the length.
    fn index_mut(&mut self, index: usize) -> &mut T
        requires { index < length self.old.items }
        ensures* writes_back { sem 𝓛 (lends_item T.row A.row A.Allocator self.entry index result) }
        ensures value { result.now ≡ slice_index_or self.old.items index result.now }
    {
        self.item_mut(index)
    }
}
