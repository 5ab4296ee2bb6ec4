//! A boxed slice as a slice: by dot, in a `for` loop, and collected from an iterator.
ghost use Rattle.std.specs.Prelude.{◌≡◌, ◌^◌, ◌<◌, ◌≤◌, length, slice_index_or, IfOk, IsOk};
ghost use Rattle.std.specs.Mem.{type_size};
ghost use Rattle.std.specs.Borrow.{sem};
ghost use Rattle.std.specs.Iterator.{Drains, IsFiniteIterable, size};
ghost use Rattle.std.specs.Iterator.Adapters.{IterYieldsInOrder, IterYieldsInReverse, IterMutYieldsInOrder};
ghost use Rattle.std.specs.Slice.Iter.{iter_rest, iter_mut_rest};
ghost use Rattle.aa_raw.specs.Growth.{new_capacity};
ghost use Rattle.aa_raw.specs.declared.raw_vec.Growth.TheVariants.{Doubling};
ghost use Rattle.aa_boxed.specs.Slice.{CollectCost};

use crate::boxed::slice::BoxedSlice;
use aa_raw::vec::into_iter::IntoIter;
use core::ops::{AsDeref, AsDerefMut};
use std::alloc::{AllocError, Allocator};
use std::convert::AsSlice;
use std::iter::{FromIterator, IntoIterator};
use std::ops::{DerefSlice, DerefSliceMut, Index, IndexMut};
use std::slice::{Iter, IterMut};

impl<T, A: Allocator> DerefSlice for BoxedSlice<T, A> {
    type Elem = T;

    ghost deref_gives = { λ b xs. xs ≡ b.items };

    /// Returns the elements as a slice, as `as_slice` does.
    fn deref(&self) -> &[T] {
        self.as_slice()
    }
}

impl<T, A: Allocator> DerefSliceMut for BoxedSlice<T, A> {
    ghost use Rattle.aa_boxed.specs.BoxedSliceLends.{lends_items};

    /// Returns the elements as a mutable slice, as `as_mut_slice` does.
    fn deref_mut(&mut self) -> &mut [T]
        ensures* writes_back { sem 𝓛 (lends_items T.row A.row A.Allocator self.entry result) }
        ensures value { result.now ≡ self.old.items }
    {
        BoxedSlice::as_mut_slice(self)
    }
}

impl<T, A: Allocator> AsSlice<T> for BoxedSlice<T, A> {
    ghost items = { λ b. b.items };

    /// Returns the elements as a slice. Corresponds to allocator-api2's `AsRef<[T]>`.
    fn as_slice(&self) -> &[T] {
        BoxedSlice::as_slice(self)
    }
}

impl<'a, T: 'a, A: Allocator + 'a> AsDeref<'a> for BoxedSlice<T, A> {
    ghost use Rattle.std.specs.Prelude.{List};

    type Shown = &'a [T];

    ghost as_deref_gives = { λ b xs. xs.now ≡ b.items };

    ghost View = { List T };

    ghost view = { λ b. b.items };

    ghost output_view = { λ xs. xs.now };

    fn shown(&'a self) -> &'a [T] {
        self.as_slice()
    }
}

impl<'a, T: 'a, A: Allocator + 'a> AsDerefMut<'a> for BoxedSlice<T, A> {
    ghost use Rattle.std.specs.Prelude.{List};

    type Shown = &'a mut [T];

    ghost as_deref_mut_gives = { λ b xs. xs.now ≡ b.items };

    ghost View = { List T };

    ghost view = { λ b. b.items };

    ghost output_view = { λ xs. xs.now };

    fn shown_mut(&'a mut self) -> &'a mut [T] {
        self.as_mut_slice()
    }
}

impl<'a, T, A: Allocator> IntoIterator for &'a BoxedSlice<T, A> {
    type Item = &'a T;

    type IntoIter = Iter<'a, T>;

    ghost into_iter_gives = { λ b i. (iter_rest i ≡ b.now.items) × (length (iter_rest i) < 2 ^ 64)
        × IterYieldsInOrder T × IterYieldsInReverse T };

    /// Returns a double-ended iterator over references to the elements, in order.
    fn into_iter(self) -> Iter<'a, T> {
        self.as_slice().iter()
    }
}

impl<'a, T, A: Allocator> IntoIterator for &'a mut BoxedSlice<T, A> {
    ghost use Rattle.aa_boxed.specs.BoxedSliceLends.{lends_all};

    type Item = &'a mut T;

    type IntoIter = IterMut<'a, T>;

    ghost into_iter_gives = { λ b i. (iter_mut_rest i ≡ b.now.items)
        × (length (iter_mut_rest i) < 2 ^ 64) × IterMutYieldsInOrder T };

    /// Returns a double-ended iterator over mutable references to the elements, in order.
    fn into_iter(self) -> IterMut<'a, T>
        ensures* writes_back { sem 𝓛 (lends_all T.row A.row A.Allocator self.entry result) }
        ensures into_iter_gives { (iter_mut_rest result ≡ self.old.items)
            × (length (iter_mut_rest result) < 2 ^ 64) × IterMutYieldsInOrder T }
    {
        self.as_mut_slice().iter_mut()
    }
}

impl<T: Drop, A: Allocator> IntoIterator for BoxedSlice<T, A> {
    type Item = T;

    type IntoIter = IntoIter<T, A>;

    ghost into_iter_gives = { λ b i. (i.items ≡ b.items) × (i.grown ≡ b.grown) × (i.alloc ≡ b.alloc)
        × (i.capacity ≡ new_capacity (type_size T.row) (length b.items)) };

    /// Returns a double-ended iterator over the elements, by value, in the same block.
    ///
    /// Does not allocate.
    fn into_iter(self) -> IntoIter<T, A> {
        let (block, len) = self.into_block();
        block.prove_capacity_bounds();
        IntoIter::from_block(block, len)
    }
}

impl<T: Drop, A: Allocator> FromIterator<T> for BoxedSlice<T, A> {
    type Alloc = A;

    ghost from_iter_gives = { λ xs b. (b.items ≡ xs) × (b.growth ≡ Doubling) };

    /// Returns the items of `iter` as `from_iter_in` does, but its error has no number.
    fn from_iter<U: IntoIterator<Item = T>>(
        alloc: A,
        iter: U,
    ) -> Result<BoxedSlice<T, A>, AllocError>
        requires finite { IsFiniteIterable U.into_iter_gives U.IntoIter.can_next
            U.IntoIter.remaining iter }
        ensures collected { IfOk result (λ b. (it : U.IntoIter) × U.into_iter_gives iter it
            × Drains U.IntoIter.next_gives it b.items × (b.growth ≡ Doubling)
            × CollectCost (type_size T.row) (length b.items) (size (U.IntoIter.remaining it))
            b.grown) }
        ensures fits { ((it : U.IntoIter) → U.into_iter_gives iter it
            → size (U.IntoIter.remaining it) ≤ new_capacity (type_size T.row) 0) → IsOk result }
    {
        match BoxedSlice::from_iter_in(iter, alloc) {
            Ok(list) => Ok(list),
            Err(_) => Err(AllocError),
        }
    }
}

impl<T, A: Allocator> Index<usize> for BoxedSlice<T, A> {
    type Output = T;

    ghost can_index = { λ b i. i < length b.items };

    ghost index_gives = { λ b i x. x ≡ slice_index_or b.items i x };

    /// Returns a reference to the element at `index`, which is below the length.
    fn index(&self, index: usize) -> &T {
        &self.as_slice()[index]
    }
}

impl<T, A: Allocator> IndexMut<usize> for BoxedSlice<T, A> {
    ghost use Rattle.aa_boxed.specs.BoxedSliceLends.{lends_item};

    /// Returns a mutable reference to the element at `index`, which is below the length.
    fn index_mut(&mut self, index: usize) -> &mut T
        requires { index < length self.old.items }
        ensures* writes_back { sem 𝓛 (lends_item T.row A.row A.Allocator self.entry index result) }
        ensures value { result.now ≡ slice_index_or self.old.items index result.now }
    {
        self.item_mut(index)
    }
}
