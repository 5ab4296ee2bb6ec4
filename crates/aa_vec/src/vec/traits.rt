//! A vector as a slice: by dot, in a `for` loop, and collected from an iterator.
ghost use Rattle.std.specs.Prelude.{◌≡◌, ◌^◌, ◌<◌, ◌≤◌, List, length, IfOk, IsOk};
ghost use Rattle.std.specs.Mem.{type_size};
ghost use Rattle.std.specs.Borrow.{sem};
ghost use Rattle.std.specs.Iterator.{Drains, ExtendsWithItems, IsFiniteIterable, size};
ghost use Rattle.std.specs.Iterator.Adapters.{IterYieldsInOrder, IterYieldsInReverse, IterMutYieldsInOrder, IterMutYieldsInReverse};
ghost use Rattle.std.specs.Slice.Iter.{iter_rest, iter_mut_rest};
ghost use Rattle.aa_raw.specs.Growth.{new_capacity};
ghost use Rattle.aa_vec.specs.Extend.{HasCollected, HasExtended, HasCopied};
ghost use Rattle.aa_vec.specs.Vector.{HasRoom};

use crate::vec::Vec;
use core::ops::AsDerefMut;
use std::alloc::{AllocError, Allocator};
use std::convert::AsSlice;
use std::iter::{Extend, FromIterator, IntoIterator};
use std::ops::{AsDeref, DerefSlice, DerefSliceMut};
use std::slice::{Iter, IterMut};

impl<T, A: Allocator> DerefSlice for Vec<T, A> {
    type Elem = T;

    ghost deref_gives = { λ v xs. xs ≡ v.items };

    /// Returns a slice of all elements, as `as_slice` does.
    #[inline]
    fn deref(&self) -> &[T] {
        self.as_slice()
    }
}

impl<T, A: Allocator> DerefSliceMut for Vec<T, A> {
    ghost use Rattle.aa_vec.specs.VecLends.{lends_items};

    /// Returns a mutable slice of all elements, as `as_mut_slice` does.
    #[inline]
    fn deref_mut(&mut self) -> &mut [T]
        ensures* writes_back { sem 𝓛 (lends_items T.row A.row A.Allocator self.entry result) }
        ensures value { result.now ≡ self.old.items }
    {
        Vec::as_mut_slice(self)
    }
}

impl<T, A: Allocator> AsSlice<T> for Vec<T, A> {
    ghost items = { λ v. v.items };

    /// Returns a slice of all elements. Corresponds to the original's `AsRef<[T]>`.
    fn as_slice(&self) -> &[T] {
        Vec::as_slice(self)
    }
}

impl<'a, T: 'a, A: Allocator + 'a> AsDeref<'a> for Vec<T, A> {
    ghost use Rattle.std.specs.Prelude.{List};

    type Shown = &'a [T];

    ghost as_deref_gives = { λ v xs. xs.now ≡ v.items };

    ghost View = { List T };

    ghost view = { λ v. v.items };

    ghost output_view = { λ xs. xs.now };

    fn shown(&'a self) -> &'a [T] {
        self.as_slice()
    }
}

impl<'a, T: 'a, A: Allocator + 'a> AsDerefMut<'a> for Vec<T, A> {
    ghost use Rattle.std.specs.Prelude.{List};

    type Shown = &'a mut [T];

    ghost as_deref_mut_gives = { λ v xs. xs.now ≡ v.items };

    ghost View = { List T };

    ghost view = { λ v. v.items };

    ghost output_view = { λ xs. xs.now };

    fn shown_mut(&'a mut self) -> &'a mut [T] {
        self.as_mut_slice()
    }
}

impl<'a, T, A: Allocator> IntoIterator for &'a Vec<T, A> {
    type Item = &'a T;

    type IntoIter = Iter<'a, T>;

    ghost into_iter_gives = { λ v i. (iter_rest i ≡ v.now.items) × (length (iter_rest i) < 2 ^ 64)
        × IterYieldsInOrder T × IterYieldsInReverse T };

    /// Returns a double-ended iterator over references to the elements, in order.
    fn into_iter(self) -> Iter<'a, T> {
        self.as_slice().iter()
    }
}

impl<'a, T, A: Allocator> IntoIterator for &'a mut Vec<T, A> {
    ghost use Rattle.aa_vec.specs.VecLends.{lends_all};

    type Item = &'a mut T;

    type IntoIter = IterMut<'a, T>;

    ghost into_iter_gives = { λ v i. (iter_mut_rest i ≡ v.now.items)
        × (length (iter_mut_rest i) < 2 ^ 64)
        × IterMutYieldsInOrder T × IterMutYieldsInReverse T };

    /// Returns a double-ended iterator over mutable references to the elements, in order.
    fn into_iter(self) -> IterMut<'a, T>
        ensures* writes_back { sem 𝓛 (lends_all T.row A.row A.Allocator self.entry result) }
        ensures into_iter_gives { (iter_mut_rest result ≡ self.old.items)
            × (length (iter_mut_rest result) < 2 ^ 64)
            × IterMutYieldsInOrder T × IterMutYieldsInReverse T }
    {
        self.as_mut_slice().iter_mut()
    }
}

impl<T: Drop, A: Allocator> FromIterator<T> for Vec<T, A> {
    type Alloc = A;

    ghost from_iter_gives = { HasCollected };

    /// Returns the items of `iter` as `from_iter_in` does, but its error has no number.
    fn from_iter<I: IntoIterator<Item = T>>(alloc: A, iter: I) -> Result<Vec<T, A>, AllocError>
        requires finite { IsFiniteIterable I.into_iter_gives I.IntoIter.can_next
            I.IntoIter.remaining iter }
        ensures collected { IfOk result (λ v. (it : I.IntoIter) × (xs : List T)
            × I.into_iter_gives iter it × Drains I.IntoIter.next_gives it xs × HasCollected xs v) }
        ensures fits { ((it : I.IntoIter) → I.into_iter_gives iter it
            → size (I.IntoIter.remaining it) ≤ new_capacity (type_size T.row) 0) → IsOk result }
    {
        match Vec::from_iter_in(iter, alloc) {
            Ok(v) => Ok(v),
            Err(_) => Err(AllocError),
        }
    }
}

impl<T: Drop, A: Allocator> Extend<T> for Vec<T, A> {
    ghost extend_gives = { HasExtended };

    /// Appends the items of `iter` as `Vec::extend` does, but its error has no number.
    fn extend<I: IntoIterator<Item = T>>(&mut self, iter: I) -> Result<(), AllocError>
        requires finite { IsFiniteIterable I.into_iter_gives I.IntoIter.can_next
            I.IntoIter.remaining iter }
        ensures extended { ExtendsWithItems I.into_iter_gives I.IntoIter.next_gives HasExtended iter
            self.old self.new result }
        ensures fits { ((it : I.IntoIter) → I.into_iter_gives iter it
            → HasRoom self.old (size (I.IntoIter.remaining it))) → IsOk result }
    {
        match Vec::extend(self, iter) {
            Ok(()) => Ok(()),
            Err(_) => Err(AllocError),
        }
    }
}

impl<'a, T: Copy + 'a, A: Allocator> Extend<&'a T> for Vec<T, A> {
    ghost extend_gives = { HasCopied };

    /// Appends copies as `Vec::extend_copied` does, but its error has no number.
    fn extend<I: IntoIterator<Item = &'a T>>(&mut self, iter: I) -> Result<(), AllocError>
        requires finite { IsFiniteIterable I.into_iter_gives I.IntoIter.can_next
            I.IntoIter.remaining iter }
        ensures extended { ExtendsWithItems I.into_iter_gives I.IntoIter.next_gives HasCopied iter
            self.old self.new result }
        ensures fits { ((it : I.IntoIter) → I.into_iter_gives iter it
            → HasRoom self.old (size (I.IntoIter.remaining it))) → IsOk result }
    {
        match self.extend_copied(iter) {
            Ok(()) => Ok(()),
            Err(_) => Err(AllocError),
        }
    }
}
