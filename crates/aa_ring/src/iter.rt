//! The iterators of a ring.
ghost use Rattle.std.specs.Prelude.{◌≡◌, ◌+◌, ◌^◌, ◌<◌, ◌≤◌, ◌++◌, length, slice_range, IfSome, Some, ⊤};
ghost use Rattle.std.specs.Iterator.{UpTo, YieldsFirst, YieldsLast, at_most, item_count};
ghost use Rattle.std.specs.Iterator.SizeHint.{IsWithinCount};
ghost use Rattle.std.specs.List.{AllZip};
ghost use Rattle.std.specs.Map.Iter.{TakesFirst, TakesLast, ShowsInOrder, ShowsInReverse, GivesInOrder, GivesInReverse, deref};
ghost use Rattle.allocator_api2.specs.Ranges.{IsRangeOf};

use crate::ring::Ring;
use std::alloc::{AllocError, Allocator, Global};
use std::fmt;
use std::fmt::{Debug, Formatter};
use std::iter::FusedIterator;
use std::marker::Model;
use std_alloc::part::SliceRange;

/// A double-ended iterator over references to the items.
///
/// Contracts see it as the list of the remaining items.
#[derive(Drop)]
pub struct Iter<'a, T> {
    first: &'a [T],
    others: &'a [T],
}

impl<'a, T> Model for Iter<'a, T> {
    ghost use Rattle.std.specs.Prelude.{◌+◌, ◌^◌, ◌<◌, List, ◌++◌, length};

    ghost Value = { List T };

    ghost view = { λ i. i.first.now ++ i.others.now };

    ghost invariant = { λ i. length i.first.now + length i.others.now < 2 ^ 64 };
}

impl<T, A: Allocator> Ring<T, A> {
    /// Returns a double-ended iterator over references to the items, from front to back.
    pub fn iter(&self) -> Iter<'_, T>
        ensures items { result ≡ self.now.items }
        ensures fits_usize { length result < 2 ^ 64 }
        ensures in_order { ShowsInOrder (deref {X = T}) }
        ensures in_reverse { ShowsInReverse (deref {X = T}) }
    {
        // The contract of `len` says that the number of items is a `usize`.
        let _len = self.len();
        let (first, others) = self.as_slices();
        Iter { first, others }
    }

    /// Returns a double-ended iterator over references to the items of the range, from front to
    /// back.
    #[tactic(auto, using(crate::proofs::Showing::ranged))]
    pub fn range<R: SliceRange>(&self, range: R) -> Iter<'_, T>
        // The range is within the length.
        requires range { IsRangeOf R.SliceRange range (length self.now.items) }

        // The iterator has the items of the range.
        ensures items { let end = R.end range (length self.now.items) in
            result ≡ slice_range self.now.items (R.start range) end }
        ensures fits_usize { length result < 2 ^ 64 }
        ensures in_order { ShowsInOrder (deref {X = T}) }
        ensures in_reverse { ShowsInReverse (deref {X = T}) }
    {
        let (start, end) = range.within(self.len());
        let (first, others) = self.as_slices();
        let part = part_of(first, others, start, end);
        Iter {
            first: part.0,
            others: part.1,
        }
    }
}

// Returns the items from `start` up to `end` of two slices in line, as two slices.
#[tactic(auto, using(crate::proofs::Showing::ranged))]
pub(crate) fn part_of<'a, T>(
    first: &'a [T],
    others: &'a [T],
    start: usize,
    end: usize,
) -> (&'a [T], &'a [T])
    requires { (start ≤ end) × (end ≤ length first.now + length others.now) }
    ensures items { let xs = first.now ++ others.now in
        result.0.now ++ result.1.now ≡ slice_range xs start end }
    ensures fewer { length result.0.now + length result.1.now
        ≤ length first.now + length others.now }
{
    let count = first.len();
    (
        &first[start.min(count)..end.min(count)],
        &others[start.saturating_sub(count)..end.saturating_sub(count)],
    )
}

// Returns an iterator over the items of one slice.
pub(crate) fn over_slice<T>(items: &[T]) -> Iter<'_, T>
    ensures { result ≡ items.now }
{
    Iter {
        first: items,
        others: &items[items.len()..],
    }
}

impl<'a, T> Iterator for Iter<'a, T> {
    type Item = &'a T;

    ghost next_gives = { TakesFirst deref };

    ghost remaining = { λ left. at_most (length left) };

    /// Returns the next item, or `None` if none remains.
    fn next(&mut self) -> Option<&'a T> {
        let first = self.first;
        if !first.is_empty() {
            self.first = &first[1..];
            return Some(&first[0]);
        }
        let others = self.others;
        if others.is_empty() {
            return None;
        }
        self.others = &others[1..];
        Some(&others[0])
    }

    /// Returns the exact number of the remaining items.
    fn size_hint(&self) -> (usize, Option<usize>)
        ensures lower { IsWithinCount result.0 (at_most (length self.now)) }
        ensures upper { IfSome result.1 (UpTo (at_most (length self.now))) }
        ensures exact { result ≡ (length self.now, Some (length self.now)) }
    {
        let left = self.len();
        (left, Some(left))
    }
}

impl<'a, T> DoubleEndedIterator for Iter<'a, T> {
    ghost next_back_gives = { TakesLast deref };

    /// Returns the last of the remaining items, or `None` if none remains.
    fn next_back(&mut self) -> Option<&'a T> {
        let others = self.others;
        if !others.is_empty() {
            let last = others.len() - 1;
            self.others = &others[..last];
            return Some(&others[last]);
        }
        let first = self.first;
        if first.is_empty() {
            return None;
        }
        let last = first.len() - 1;
        self.first = &first[..last];
        Some(&first[last])
    }
}

impl<'a, T> ExactSizeIterator for Iter<'a, T> {
    fn len(&self) -> usize {
        self.first.len() + self.others.len()
    }
}

impl<'a, T> FusedIterator for Iter<'a, T> {}

impl<'a, T> Clone for Iter<'a, T> {
    ghost is_clone = { λ left copy. copy ≡ left };

    ghost is_infallible = { λ _. ⊤ };

    /// Returns an iterator over the remaining items.
    fn clone(&self) -> Result<Self, AllocError> {
        Ok(Iter {
            first: self.first,
            others: self.others,
        })
    }
}

impl<'a, T: Debug> Debug for Iter<'a, T> {
    /// Formats the remaining items as two slices.
    fn fmt<W: fmt::Write>(&self, f: &mut Formatter<W>) -> fmt::Result {
        let (first, others) = (self.first, self.others);
        f.debug_tuple("Iter").field(&first).field(&others).finish()
    }
}

impl<'a, T, A: Allocator> IntoIterator for &'a Ring<T, A> {
    type Item = &'a T;

    type IntoIter = Iter<'a, T>;

    ghost into_iter_gives = { λ ring i. (i ≡ ring.now.items) × (length i < 2 ^ 64)
        × ShowsInOrder (deref {X = T}) × ShowsInReverse (deref {X = T}) };

    fn into_iter(self) -> Iter<'a, T> {
        self.iter()
    }
}

/// A double-ended iterator that owns the items of a ring.
///
/// When dropped, it drops the remaining items in order and deallocates the block. Contracts see it
/// as the list of the remaining items.
#[derive(Drop)]
pub struct IntoIter<T, A: Allocator = Global> {
    rest: Ring<T, A>,
}

impl<T, A: Allocator> Model for IntoIter<T, A> {
    ghost use Rattle.std.specs.Prelude.{List};

    ghost Value = { List T };

    ghost view = { λ i. i.rest.items };
}

impl<T, A: Allocator> Ring<T, A> {
    /// Returns a double-ended iterator that owns the items.
    ///
    /// It owns the block as well, so this does not allocate.
    pub fn into_iter(self) -> IntoIter<T, A>
        ensures items { result ≡ self.items }
        ensures fits_usize { length result < 2 ^ 64 }
        ensures in_order { GivesInOrder T }
        ensures in_reverse { GivesInReverse T }
    {
        // The contract of `len` says that the number of items is a `usize`.
        let _len = self.len();
        IntoIter { rest: self }
    }
}

impl<T: Drop, A: Allocator> IntoIterator for Ring<T, A> {
    type Item = T;

    type IntoIter = IntoIter<T, A>;

    ghost into_iter_gives = { λ ring i. (i ≡ ring.items) × (length i < 2 ^ 64)
        × GivesInOrder T × GivesInReverse T };

    fn into_iter(self) -> IntoIter<T, A> {
        Ring::into_iter(self)
    }
}

impl<T: Drop, A: Allocator> Iterator for IntoIter<T, A> {
    type Item = T;

    ghost next_gives = { YieldsFirst (λ rest. rest) };

    ghost remaining = { item_count (λ rest. rest) };

    /// Returns the next item, or `None` if none remains.
    fn next(&mut self) -> Option<T> {
        self.rest.pop_front()
    }

    /// Returns the exact number of the remaining items.
    fn size_hint(&self) -> (usize, Option<usize>)
        ensures lower { IsWithinCount result.0 (item_count (λ rest. rest) self.now) }
        ensures upper { IfSome result.1 (UpTo (item_count (λ rest. rest) self.now)) }
        ensures exact { result ≡ (length self.now, Some (length self.now)) }
    {
        let left = self.rest.len();
        (left, Some(left))
    }
}

impl<T: Drop, A: Allocator> DoubleEndedIterator for IntoIter<T, A> {
    ghost next_back_gives = { YieldsLast (λ rest. rest) };

    /// Returns the last of the remaining items, or `None` if none remains.
    fn next_back(&mut self) -> Option<T> {
        self.rest.pop_back()
    }
}

impl<T: Drop, A: Allocator> ExactSizeIterator for IntoIter<T, A> {
    fn len(&self) -> usize {
        self.rest.len()
    }
}

impl<T: Drop, A: Allocator> FusedIterator for IntoIter<T, A> {}

impl<T: Clone, A: Allocator + Clone> Clone for IntoIter<T, A> {
    ghost is_clone = { AllZip T.is_clone };

    /// Returns an iterator over a clone of each remaining item, as `Ring`'s `clone` makes them.
    fn clone(&self) -> Result<Self, AllocError> {
        match self.rest.clone() {
            Ok(rest) => Ok(IntoIter { rest }),
            Err(_) => Err(AllocError),
        }
    }
}

impl<T: Debug, A: Allocator> Debug for IntoIter<T, A> {
    /// Formats the remaining items as a ring of them is formatted.
    fn fmt<W: fmt::Write>(&self, f: &mut Formatter<W>) -> fmt::Result {
        f.debug_tuple("IntoIter").field(&self.rest).finish()
    }
}
