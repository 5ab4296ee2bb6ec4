//! Double-ended iterators over the items of consecutive lists of an arena.
ghost use Rattle.std.specs.Prelude.{◌≡◌, ◌+◌, ◌-◌, ◌<◌, ◌≤◌, ◌∷◌, ◌++◌, [], length, drop, take, slice_index_or, slice_range, Some, None, IfSome, MatchOption};
ghost use Rattle.aa_ordered.specs.Ranges.{items_of};
ghost use Rattle.std.specs.Iterator.{YieldsFirst, YieldsFirstBy, YieldsLast, YieldsLastBy, UpTo, item_count};

use crate::leaves::Leaves;
use std::alloc::Allocator;
use std::marker::Model;

/// The lists of an arena from an index on and before another.
#[derive(Drop)]
pub(crate) struct Lists<'a, T, A: Allocator> {
    leaves: &'a Leaves<T, A>,
    from: usize,
    end: usize,
}

impl<'a, T, A: Allocator> Model for Lists<'a, T, A> {
    ghost use Rattle.std.specs.Prelude.{◌≤◌, List, length, slice_range};

    ghost Value = { List (List T) };

    ghost view = { λ l. slice_range l.leaves.now.lists l.from l.end };

    ghost invariant = { λ l. (l.from ≤ l.end) × (l.end ≤ length l.leaves.now.lists) };
}

impl<'a, T, A: Allocator> Lists<'a, T, A> {
    // Returns all lists of the arena.
    pub(crate) fn all(leaves: &'a Leaves<T, A>) -> Self
        ensures { result ≡ leaves.now.lists }
    {
        Lists {
            leaves,
            from: 0,
            end: leaves.len(),
        }
    }

    // Returns the same lists.
    #[inline]
    pub(crate) fn duplicate(&self) -> Self
        ensures { result ≡ self.now }
    {
        Lists {
            leaves: self.leaves,
            from: self.from,
            end: self.end,
        }
    }

    // Returns the number of lists.
    pub(crate) fn len(&self) -> usize
        ensures { result ≡ length self.now }
    {
        self.end - self.from
    }

    // Returns the list at index `i`.
    pub(crate) fn list(&self, i: usize) -> &'a [T]
        requires { i < length self.now }
        ensures { result.now ≡ slice_index_or self.now i result.now }
    {
        prove!(i < self.end - self.from);
        self.leaves.list(self.from + i)
    }

    // Removes the first `n` lists.
    pub(crate) fn skip(&mut self, n: usize)
        requires { n ≤ length self.old }
        ensures { self.new ≡ drop n self.old }
    {
        self.from += n;
    }

    // Removes the lists from index `n` on.
    pub(crate) fn truncate(&mut self, n: usize)
        requires { n ≤ length self.old }
        ensures { self.new ≡ take n self.old }
    {
        self.end = self.from + n;
    }

    // Removes and returns the first list, or returns `None` if there is none.
    #[inline]
    pub(crate) fn take_first(&mut self) -> Option<&'a [T]>
        ensures { MatchOption result ((self.old ≡ []) × (self.new ≡ []))
            (λ list. self.old ≡ list.now ∷ self.new) }
    {
        if self.from == self.end {
            return None;
        }
        let list = self.leaves.list(self.from);
        self.from += 1;
        Some(list)
    }

    // Removes and returns the last list, or returns `None` if there is none.
    #[inline]
    pub(crate) fn take_last(&mut self) -> Option<&'a [T]>
        ensures { MatchOption result ((self.old ≡ []) × (self.new ≡ []))
            (λ list. self.old ≡ self.new ++ list.now ∷ []) }
    {
        if self.from == self.end {
            return None;
        }
        self.end -= 1;
        Some(self.leaves.list(self.end))
    }
}

/// A double-ended iterator over the items of consecutive lists of an arena.
///
/// A contract sees it as the list of the remaining items.
#[derive(Drop)]
pub(crate) struct Items<'a, T, A: Allocator> {
    front: &'a [T],
    rest: Lists<'a, T, A>,
    back: &'a [T],
}

impl<'a, T, A: Allocator> Model for Items<'a, T, A> {
    ghost use Rattle.std.specs.Prelude.{List, ◌++◌};
    ghost use Rattle.aa_ordered.specs.Ranges.{items_of};

    ghost Value = { List T };

    ghost view = { λ i. i.front.now ++ items_of i.rest ++ i.back.now };
}

impl<'a, T, A: Allocator> Items<'a, T, A> {
    // Returns an iterator over all items of the arena.
    pub(crate) fn all(leaves: &'a Leaves<T, A>) -> Self
        ensures { result ≡ items_of leaves.now.lists }
    {
        Items {
            front: &[],
            rest: Lists::all(leaves),
            back: &[],
        }
    }

    // Returns an iterator over the items of a slice, of some lists, and of another slice.
    #[inline]
    pub(crate) fn of(front: &'a [T], rest: Lists<'a, T, A>, back: &'a [T]) -> Self
        ensures { result ≡ front.entry.now ++ items_of rest.entry ++ back.entry.now }
    {
        Items { front, rest, back }
    }

    // Returns an iterator over the same remaining items.
    #[inline]
    pub(crate) fn duplicate(&self) -> Self
        ensures { result ≡ self.now }
    {
        Items {
            front: self.front,
            rest: self.rest.duplicate(),
            back: self.back,
        }
    }

    // Returns the next item, or `None` if none remains.
    #[inline]
    pub(crate) fn take_first(&mut self) -> Option<&'a T>
        ensures { MatchOption result ((self.old ≡ []) × (self.new ≡ []))
            (λ item. self.old ≡ item.now ∷ self.new) }
    {
        loop {
            if let Some((first, others)) = self.front.split_first() {
                self.front = others;
                return Some(first);
            }
            if let Some(list) = self.rest.take_first() {
                self.front = list;
            } else if self.back.is_empty() {
                return None;
            } else {
                self.front = self.back;
                self.back = &[];
            }
        }
    }

    // Returns the last remaining item, or `None` if none remains.
    #[inline]
    pub(crate) fn take_last(&mut self) -> Option<&'a T>
        ensures { MatchOption result ((self.old ≡ []) × (self.new ≡ []))
            (λ item. self.old ≡ self.new ++ item.now ∷ []) }
    {
        loop {
            if let Some((last, others)) = self.back.split_last() {
                self.back = others;
                return Some(last);
            }
            if let Some(list) = self.rest.take_last() {
                self.back = list;
            } else if self.front.is_empty() {
                return None;
            } else {
                self.back = self.front;
                self.front = &[];
            }
        }
    }
}
