//! The items of a small vector: by their index, and by its iterators.
ghost use Rattle.std.specs.Prelude.{◌≡◌, ◌<◌, ◌≤◌, ◌^◌, [], All, length, slice_get, slice_index_or, IfSome, Some};
ghost use Rattle.std.specs.Borrow.{sem};
ghost use Rattle.std.specs.List.{AllZip};
ghost use Rattle.std.specs.Option.{option_copied_mut};
ghost use Rattle.std.specs.Iterator.{UpTo, YieldsFirst, YieldsLast, item_count};
ghost use Rattle.std.specs.Iterator.Adapters.{IterYieldsInOrder, IterYieldsInReverse, IterMutYieldsInOrder, IterMutYieldsInReverse};
ghost use Rattle.std.specs.Iterator.SizeHint.{IsWithinCount};
ghost use Rattle.std.specs.Iterator.Runs.{YieldsInOrder, YieldsInReverse};
ghost use Rattle.std.specs.Slice.Iter.{iter_rest, iter_mut_rest};
ghost use Rattle.aa_inline.specs.Inlined.{in_place};

use crate::inline::{Data, InlineVec};
use std::alloc::{AllocError, Allocator};
use std::default::MadeWith;
use std::fmt::{Debug, Formatter};
use std::iter::FusedIterator;
use std::marker::Model;
use std::ops::{Index, IndexMut};
use std::slice::{Iter, IterMut};
use std::{fmt, mem};

impl<T, A: Allocator, const N: usize> InlineVec<T, A, N> {
    ghost use Rattle.aa_inline.specs.Lends.{lends_item, lends_if_there, lends_items, lends_all};

    /// Returns a double-ended iterator over references to the items, in order.
    pub fn iter(&self) -> Iter<'_, T>
        ensures remaining { iter_rest result ≡ self.now.items }
        ensures runs { IterYieldsInOrder T }
        ensures runs_back { IterYieldsInReverse T }
    {
        self.as_slice().iter()
    }

    /// Returns the items as a mutable slice.
    pub fn as_mut_slice(&mut self) -> &mut [T]
        ensures* writes_back { sem 𝓛
            (lends_items T.row A.row N.row A.Allocator self.entry result) }
        ensures value { result.now ≡ self.old.items }
    {
        match &mut self.data {
            Data::InPlace(few, _) => few.as_mut_slice(),
            Data::InBlock(heap) => heap.as_mut_slice(),
        }
    }

    /// Returns a double-ended iterator over mutable references to the items, in order.
    pub fn iter_mut(&mut self) -> IterMut<'_, T>
        ensures* writes_back { sem 𝓛 (lends_all T.row A.row N.row A.Allocator self.entry result) }
        ensures remaining { iter_mut_rest result ≡ self.old.items }
        ensures runs { IterMutYieldsInOrder T }
        ensures runs_back { IterMutYieldsInReverse T }
    {
        self.as_mut_slice().iter_mut()
    }

    // Returns a mutable reference to the item at `index`.
    pub(crate) fn item_mut(&mut self, index: usize) -> &mut T
        requires { index < length self.old.items }
        ensures* writes_back { sem 𝓛
            (lends_item T.row A.row N.row A.Allocator self.entry index result) }
        ensures value { slice_get self.old.items index ≡ Some result.now }
    {
        match &mut self.data {
            Data::InPlace(few, _) => few.item_mut(index),
            Data::InBlock(heap) => &mut heap[index],
        }
    }

    /// Returns a mutable reference to the item at `index`, or `None` if there is none.
    ///
    /// The first item is at index 0.
    pub fn get_mut(&mut self, index: usize) -> Option<&mut T>
        ensures* writes_back { sem 𝓛
            (lends_if_there T.row A.row N.row A.Allocator self.entry index result) }
        ensures value { option_copied_mut result ≡ slice_get self.old.items index }
    {
        if index < self.len() {
            return Some(self.item_mut(index));
        }
        None
    }
}

impl<'a, T, A: Allocator, const N: usize> IntoIterator for &'a InlineVec<T, A, N> {
    type Item = &'a T;

    type IntoIter = Iter<'a, T>;

    ghost into_iter_gives = { λ s i. (iter_rest i ≡ s.now.items) × (length (iter_rest i) < 2 ^ 64)
        × IterYieldsInOrder T × IterYieldsInReverse T };

    /// Returns the same as `iter`.
    #[inline]
    fn into_iter(self) -> Iter<'a, T> {
        let items = self.as_slice();
        items.iter()
    }
}

impl<'a, T, A: Allocator, const N: usize> IntoIterator for &'a mut InlineVec<T, A, N> {
    ghost use Rattle.aa_inline.specs.Lends.{lends_all};

    type Item = &'a mut T;

    type IntoIter = IterMut<'a, T>;

    ghost into_iter_gives = { λ s i.
        (iter_mut_rest i ≡ s.now.items) × (length (iter_mut_rest i) < 2 ^ 64)
        × IterMutYieldsInOrder T × IterMutYieldsInReverse T };

    /// Returns the same as `iter_mut`.
    #[inline]
    fn into_iter(self) -> IterMut<'a, T>
        ensures* writes_back { sem 𝓛 (lends_all T.row A.row N.row A.Allocator self.entry result) }
        ensures into_iter_gives { (iter_mut_rest result ≡ self.old.items)
            × (length (iter_mut_rest result) < 2 ^ 64)
            × IterMutYieldsInOrder T × IterMutYieldsInReverse T }
    {
        let items = self.as_mut_slice();
        items.iter_mut()
    }
}

impl<T, A: Allocator, const N: usize> Index<usize> for InlineVec<T, A, N> {
    type Output = T;

    ghost can_index = { λ s i. i < length s.items };

    ghost index_gives = { λ s i x. x ≡ slice_index_or s.items i x };

    /// Returns a reference to the item at `index`, which must be below the length.
    fn index(&self, index: usize) -> &T {
        &self.as_slice()[index]
    }
}

impl<T, A: Allocator, const N: usize> IndexMut<usize> for InlineVec<T, A, N> {
    ghost use Rattle.aa_inline.specs.Lends.{lends_item};

    /// Returns a mutable reference to the item at `index`, which must be below the length.
    fn index_mut(&mut self, index: usize) -> &mut T
        requires { index < length self.old.items }
        ensures* writes_back { sem 𝓛
            (lends_item T.row A.row N.row A.Allocator self.entry index result) }
        ensures value { result.now ≡ slice_index_or self.old.items index result.now }
    {
        self.item_mut(index)
    }
}

/// A double-ended iterator that owns the items of a small vector.
///
/// When dropped, it drops the remaining items and deallocates the block. Contracts see it as the
/// list of the remaining items.
#[derive(Drop)]
pub struct IntoIter<T, A: Allocator, const N: usize> {
    rest: InlineVec<T, A, N>,
    // The number of items taken from the front, where blanks are now.
    front: usize,
}

impl<T, A: Allocator, const N: usize> Model for IntoIter<T, A, N> {
    ghost use Rattle.std.specs.Prelude.{◌≤◌, List, drop, length};

    ghost Value = { List T };

    ghost view = { λ i. drop i.front i.rest.items };

    ghost invariant = { λ i. i.front ≤ length i.rest.items };
}

impl<T, A: Allocator, const N: usize> IntoIter<T, A, N> {
    /// Returns the remaining items as a slice, in order.
    pub fn as_slice(&self) -> &[T]
        ensures { result.now ≡ self.now }
    {
        &self.rest.as_slice()[self.front..]
    }
}

impl<T, A: Allocator, const N: usize> InlineVec<T, A, N> {
    /// Returns a double-ended iterator that owns the items.
    ///
    /// Does not allocate.
    pub fn into_iter(self) -> IntoIter<T, A, N>
        ensures items { result ≡ self.items }
        ensures runs { YieldsInOrder (YieldsFirst {A = T} (λ rest. rest)) (λ rest. rest) }
        ensures runs_back { YieldsInReverse (YieldsLast {A = T} (λ rest. rest)) (λ rest. rest) }
    {
        IntoIter {
            rest: self,
            front: 0,
        }
    }
}

impl<T: MadeWith<A> + Drop, A: Allocator + Copy, const N: usize> IntoIterator
    for InlineVec<T, A, N> {
    type Item = T;

    type IntoIter = IntoIter<T, A, N>;

    ghost into_iter_gives = { λ s i. (i ≡ s.items)
        × YieldsInOrder (YieldsFirst {A = T} (λ rest. rest)) (λ rest. rest)
        × YieldsInReverse (YieldsLast {A = T} (λ rest. rest)) (λ rest. rest) };

    fn into_iter(self) -> IntoIter<T, A, N> {
        InlineVec::into_iter(self)
    }
}

impl<T: MadeWith<A> + Drop, A: Allocator + Copy, const N: usize> Iterator for IntoIter<T, A, N> {
    type Item = T;

    ghost next_gives = { YieldsFirst (λ rest. rest) };

    ghost remaining = { item_count (λ rest. rest) };

    /// Returns the next item, or `None` if none remains.
    #[tactic(auto, using(crate::proofs::Fews::left))]
    fn next(&mut self) -> Option<T> {
        let front = self.front;
        if front == self.rest.len() {
            return None;
        }
        self.front = front + 1;
        let blank = T::made_with(*self.rest.allocator());
        Some(self.rest.replace(front, blank))
    }

    /// Returns the exact number of the remaining items.
    #[tactic(auto, using(crate::proofs::Fews::left))]
    fn size_hint(&self) -> (usize, Option<usize>)
        ensures lower { IsWithinCount result.0 (item_count (λ rest. rest) self.now) }
        ensures upper { IfSome result.1 (UpTo (item_count (λ rest. rest) self.now)) }
        ensures exact { result ≡ (length self.now, Some (length self.now)) }
    {
        let left = self.rest.len() - self.front;
        (left, Some(left))
    }
}

impl<T: MadeWith<A> + Drop, A: Allocator + Copy, const N: usize> DoubleEndedIterator
    for IntoIter<T, A, N> {
    ghost next_back_gives = { YieldsLast (λ rest. rest) };

    /// Returns the last of the remaining items, or `None` if none remains.
    #[tactic(auto, using(crate::proofs::Fews::left))]
    fn next_back(&mut self) -> Option<T> {
        if self.front == self.rest.len() {
            return None;
        }
        self.rest.pop()
    }
}

impl<T: MadeWith<A> + Drop, A: Allocator + Copy, const N: usize> ExactSizeIterator
    for IntoIter<T, A, N> {
    #[tactic(auto, using(crate::proofs::Fews::left))]
    fn len(&self) -> usize {
        self.rest.len() - self.front
    }
}

impl<T: MadeWith<A> + Drop, A: Allocator + Copy, const N: usize> FusedIterator
    for IntoIter<T, A, N> {}

impl<T: MadeWith<A> + Clone, A: Allocator + Copy, const N: usize> Clone for IntoIter<T, A, N> {
    ghost is_clone = { AllZip T.is_clone };

    ghost is_infallible = { λ left. (length left ≤ N) × All T.is_infallible left };

    /// Returns an iterator over clones of the remaining items.
    ///
    /// Allocates only if they are more than `N`.
    fn clone(&self) -> Result<Self, AllocError> {
        match InlineVec::from_slice_in(self.as_slice(), *self.rest.allocator()) {
            Ok(rest) => Ok(IntoIter { rest, front: 0 }),
            Err(_) => Err(AllocError),
        }
    }
}

impl<T: Debug, A: Allocator, const N: usize> Debug for IntoIter<T, A, N> {
    fn fmt<W: fmt::Write>(&self, f: &mut Formatter<W>) -> fmt::Result {
        f.debug_tuple("IntoIter").field(&self.as_slice()).finish()
    }
}
