//! `IntoIter`: the iterator by value over the items of a block, from either end.
ghost use Rattle.std.specs.Prelude.{◌≡◌, ◌-◌, ◌≤◌, [], length, Some, IfSome};
ghost use Rattle.std.specs.Borrow.{sem};
ghost use Rattle.std.specs.Iterator.{YieldsFirst, YieldsLast, UpTo, item_count};
ghost use Rattle.std.specs.Iterator.SizeHint.{IsWithinCount};
ghost use Rattle.aa_raw.specs.IntoIter.{Remaining, remaining_in, takes_first, takes_last};
ghost use Rattle.aa_raw.specs.Places.{IsRun, run};
ghost use Rattle.aa_raw.specs.IntoIterInner.{view_of, IsBetween};

use crate::raw_vec::RawVec;
use std::alloc::{Allocator, Global};
use std::convert::AsSlice;
use std::default::Default;
use std::fmt;
use std::iter::FusedIterator;
use std::marker::Model;
use std::ops::{DerefSlice, DerefSliceMut};

/// An iterator over the remaining items of a block, from either end.
///
/// When dropped, it drops the items in order and deallocates the memory. Contracts also see the
/// capacity and the counters of the block.
pub struct IntoIter<T, A: Allocator = Global> {
    block: RawVec<T, A>,
    front: usize,
    back: usize,
}

impl<T, A: Allocator> Model for IntoIter<T, A> {
    ghost Value = { Remaining T A };

    ghost view = { view_of };

    ghost invariant = { IsBetween };
}

impl<T, A: Allocator> IntoIter<T, A> {
    ghost use Rattle.aa_raw.specs.IntoIterLends.{lends_remaining};

    /// Returns an iterator over the values in the first `len` places of `block`, and takes the
    /// block by value.
    ///
    /// Does not allocate. Not in allocator-api2, where a vector takes itself apart.
    #[tactic(auto, using(crate::proofs::Calls::in_runs))]
    pub fn from_block(block: RawVec<T, A>, len: usize) -> Self
        requires { IsRun block.places 0 len }
        ensures { result ≡ remaining_in block (run block.places 0 len) }
    {
        let mut block = block;
        block.forget_from(len);
        IntoIter {
            block,
            front: 0,
            back: len,
        }
    }

    /// Returns the remaining items as a slice, in order.
    #[tactic(auto, using(crate::proofs::Calls::shown))]
    pub fn as_slice(&self) -> &[T]
        ensures { result.now ≡ self.now.items }
    {
        self.block.slice(self.front, self.back - self.front)
    }

    /// Returns the remaining items as a mutable slice, in order.
    #[tactic(auto, using(crate::proofs::Calls::shown, crate::proofs::Beyond::around_run))]
    pub fn as_mut_slice(&mut self) -> &mut [T]
        ensures* writes_back { sem 𝓛 (lends_remaining T.row A.row A.Allocator self.entry result) }
        ensures value { result.now ≡ self.old.items }
    {
        self.block.slice_mut(self.front, self.back - self.front)
    }

    /// Returns a reference to the underlying allocator.
    pub fn allocator(&self) -> &A
        ensures { result.now ≡ self.now.alloc }
    {
        self.block.allocator()
    }

    /// Returns the number of remaining items.
    ///
    /// It is exact for zero-sized elements too.
    #[inline]
    #[tactic(auto, using(crate::proofs::Calls::shown))]
    pub fn len(&self) -> usize
        ensures { result ≡ length self.now.items }
    {
        self.back - self.front
    }

    /// Returns the number of remaining items, and drops them.
    pub fn count(self) -> usize
    where
        T: Drop,
        ensures { result ≡ length self.items }
    {
        self.len()
    }

    /// Removes the first remaining item and returns it.
    ///
    /// Returns `None` at the end, and from then on always.
    #[inline(always)]
    #[tactic(auto, using(crate::proofs::Calls::at_ends, crate::proofs::Beyond::at_sides))]
    pub fn next(&mut self) -> Option<T>
        ensures { takes_first self.old result self.new }
    {
        let front = self.front;
        if front == self.back {
            return None;
        }
        self.front = front + 1;
        Some(self.block.take(front))
    }

    /// Removes the last remaining item and returns it.
    ///
    /// Returns `None` at the end, and from then on always. In allocator-api2 this call lets the
    /// length grow for zero-sized elements.
    #[inline(always)]
    #[tactic(auto, using(crate::proofs::Calls::at_ends, crate::proofs::Beyond::at_sides))]
    pub fn next_back(&mut self) -> Option<T>
        ensures { takes_last self.old result self.new }
    {
        if self.front == self.back {
            return None;
        }
        let last = self.back - 1;
        self.back = last;
        Some(self.block.take(last))
    }
}

impl<T, A: Allocator> DerefSlice for IntoIter<T, A> {
    type Elem = T;

    ghost deref_gives = { λ left xs. xs ≡ left.items };

    /// Returns the remaining items as a slice, as `as_slice` does.
    fn deref(&self) -> &[T] {
        self.as_slice()
    }
}

impl<T, A: Allocator> DerefSliceMut for IntoIter<T, A> {
    ghost use Rattle.aa_raw.specs.IntoIterLends.{lends_remaining};

    /// Returns the remaining items as a mutable slice, as `as_mut_slice` does.
    fn deref_mut(&mut self) -> &mut [T]
        ensures* writes_back { sem 𝓛 (lends_remaining T.row A.row A.Allocator self.entry result) }
        ensures value { result.now ≡ self.old.items }
    {
        self.as_mut_slice()
    }
}

impl<T, A: Allocator> AsSlice<T> for IntoIter<T, A> {
    ghost items = { λ left. left.items };

    /// Returns the remaining items as a slice. Corresponds to the original's `AsRef<[T]>`.
    fn as_slice(&self) -> &[T] {
        IntoIter::as_slice(self)
    }
}

impl<T: Drop, A: Allocator> Iterator for IntoIter<T, A> {
    type Item = T;

    ghost next_gives = { YieldsFirst (λ left. left.items) };

    ghost remaining = { item_count (λ left. left.items) };

    #[inline]
    fn next(&mut self) -> Option<T> {
        IntoIter::next(self)
    }

    /// Returns the exact number of remaining items as both bounds.
    fn size_hint(&self) -> (usize, Option<usize>)
        ensures lower { IsWithinCount result.0 (item_count (λ left. left.items) self.now) }
        ensures upper { IfSome result.1 (UpTo (item_count (λ left. left.items) self.now)) }
        ensures exact { result ≡ (length self.now.items, Some (length self.now.items)) }
    {
        let left = IntoIter::len(self);
        (left, Some(left))
    }
}

impl<T: Drop, A: Allocator> DoubleEndedIterator for IntoIter<T, A> {
    ghost next_back_gives = { YieldsLast (λ left. left.items) };

    #[inline]
    fn next_back(&mut self) -> Option<T> {
        IntoIter::next_back(self)
    }
}

impl<T: Drop, A: Allocator> ExactSizeIterator for IntoIter<T, A> {
    fn len(&self) -> usize {
        IntoIter::len(self)
    }
}

impl<T: Drop, A: Allocator> FusedIterator for IntoIter<T, A> {}

impl<T, A: Allocator + Default> Default for IntoIter<T, A> {
    ghost is_default = { λ left. (left.items ≡ []) × A.is_default left.alloc };

    /// Returns an empty iterator over the default allocator.
    ///
    /// Does not allocate.
    #[tactic(auto, using(crate::proofs::Calls::at_ends))]
    fn default() -> Self {
        IntoIter::from_block(RawVec::new_in(A::default()), 0)
    }
}

impl<T: fmt::Debug, A: Allocator> fmt::Debug for IntoIter<T, A> {
    fn fmt<W: fmt::Write>(&self, f: &mut fmt::Formatter<W>) -> fmt::Result {
        f.debug_tuple("IntoIter").field(&self.as_slice()).finish()
    }
}

impl<T: Drop, A: Allocator> Drop for IntoIter<T, A> {
    /// Drops the remaining items in order, and deallocates the memory.
    #[tactic(auto, using(crate::proofs::Beyond::emptied))]
    fn drop(self) {
        let Self {
            mut block,
            front,
            back,
        } = self;
        block.drop_run(front, back - front);
    }
}
