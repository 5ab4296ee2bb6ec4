//! Two sets: subsets, and iterators over what one or both of them have.
ghost use Rattle.std.specs.Prelude.{◌≡◌, filter, false, not, true};
ghost use Rattle.std.specs.Iterator.{YieldsFirstBy, item_count};
ghost use Rattle.std.specs.List.{list_all};
ghost use Rattle.std.specs.Set.{sorted_merge};
ghost use Rattle.aa_ordered_set.specs.Sets.{has, IsAscending};

use crate::peeked::Peeked;
use crate::set::OrderedSet;
use aa_ordered::iter::Keys;
use std::alloc::Allocator;
use std::cmp::{Ord, Ordering};
use std::iter::FusedIterator;
use std::marker::Model;

/// An iterator over the elements of a set that are in another set, in ascending order.
///
/// Returned by `OrderedSet::intersection`. A contract sees it as the list of the remaining elements.
#[derive(Drop)]
pub struct Intersection<'a, T: Ord, A: Allocator> {
    rest: Keys<'a, T, (), A>,
    other: &'a OrderedSet<T, A>,
}

impl<'a, T: Ord, A: Allocator> Model for Intersection<'a, T, A> {
    ghost use Rattle.std.specs.Prelude.{List, filter};
    ghost use Rattle.aa_ordered_set.specs.Sets.{has};

    ghost Value = { List T };

    ghost view = { λ it. filter (has T.cmp it.other.now.elements) it.rest };
}

impl<'a, T: Ord, A: Allocator> Iterator for Intersection<'a, T, A> {
    type Item = &'a T;

    ghost next_gives = { YieldsFirstBy (λ value. value.now) (λ rest. rest) };

    ghost remaining = { item_count (λ rest. rest) };

    /// Returns the next element that is in both sets, or `None` if none remains.
    fn next(&mut self) -> Option<&'a T> {
        'each: while let Some(value) = self.rest.next() {
            if self.other.contains(value) {
                return Some(value);
            }
        }
        None
    }

    /// Returns 0 and the number of elements that were not looked up yet.
    fn size_hint(&self) -> (usize, Option<usize>) {
        (0, Some(self.rest.len()))
    }
}

impl<'a, T: Ord, A: Allocator> FusedIterator for Intersection<'a, T, A> {}

/// An iterator over the elements of a set that are not in another set, in ascending order.
///
/// Returned by `OrderedSet::difference`. A contract sees it as the list of the remaining elements.
#[derive(Drop)]
pub struct Difference<'a, T: Ord, A: Allocator> {
    rest: Keys<'a, T, (), A>,
    other: &'a OrderedSet<T, A>,
}

impl<'a, T: Ord, A: Allocator> Model for Difference<'a, T, A> {
    ghost use Rattle.std.specs.Prelude.{List, filter, not};
    ghost use Rattle.aa_ordered_set.specs.Sets.{has};

    ghost Value = { List T };

    ghost view = { λ it. filter (λ x. not (has T.cmp it.other.now.elements x)) it.rest };
}

impl<'a, T: Ord, A: Allocator> Iterator for Difference<'a, T, A> {
    type Item = &'a T;

    ghost next_gives = { YieldsFirstBy (λ value. value.now) (λ rest. rest) };

    ghost remaining = { item_count (λ rest. rest) };

    /// Returns the next element that is not in the other set, or `None` if none remains.
    fn next(&mut self) -> Option<&'a T> {
        'each: while let Some(value) = self.rest.next() {
            if !self.other.contains(value) {
                return Some(value);
            }
        }
        None
    }

    /// Returns 0 and the number of elements that were not looked up yet.
    fn size_hint(&self) -> (usize, Option<usize>) {
        (0, Some(self.rest.len()))
    }
}

impl<'a, T: Ord, A: Allocator> FusedIterator for Difference<'a, T, A> {}

/// An iterator over the elements of two sets, in ascending order.
///
/// Returned by `OrderedSet::union`. A contract sees it as the list of the remaining elements.
#[derive(Drop)]
pub struct Union<'a, T: Ord, A: Allocator> {
    first: Peeked<'a, T, A>,
    second: Peeked<'a, T, A>,
}

impl<'a, T: Ord, A: Allocator> Model for Union<'a, T, A> {
    ghost use Rattle.std.specs.Prelude.{List, true};
    ghost use Rattle.std.specs.Set.{sorted_merge};

    ghost Value = { List T };

    ghost view = { λ it. sorted_merge T.cmp true it.first it.second };
}

impl<'a, T: Ord, A: Allocator> Iterator for Union<'a, T, A> {
    type Item = &'a T;

    ghost next_gives = { YieldsFirstBy (λ value. value.now) (λ rest. rest) };

    ghost remaining = { item_count (λ rest. rest) };

    /// Returns the least remaining element of either set, or `None` if none remains.
    ///
    /// Of two equal elements returns that of the first set.
    fn next(&mut self) -> Option<&'a T> {
        let Some(x) = self.first.peek() else {
            return self.second.next();
        };
        let Some(y) = self.second.peek() else {
            return self.first.next();
        };
        match x.cmp(y) {
            Ordering::Less => {
                self.first.advance();
                Some(x)
            }
            Ordering::Equal => {
                self.first.advance();
                self.second.advance();
                Some(x)
            }
            Ordering::Greater => {
                self.second.advance();
                Some(y)
            }
        }
    }
}

impl<'a, T: Ord, A: Allocator> FusedIterator for Union<'a, T, A> {}

/// An iterator over the elements that exactly one of two sets has, in ascending order.
///
/// Returned by `OrderedSet::symmetric_difference`. A contract sees it as the list of the remaining
/// elements.
#[derive(Drop)]
pub struct SymmetricDifference<'a, T: Ord, A: Allocator> {
    first: Peeked<'a, T, A>,
    second: Peeked<'a, T, A>,
}

impl<'a, T: Ord, A: Allocator> Model for SymmetricDifference<'a, T, A> {
    ghost use Rattle.std.specs.Prelude.{List, false};
    ghost use Rattle.std.specs.Set.{sorted_merge};

    ghost Value = { List T };

    ghost view = { λ it. sorted_merge T.cmp false it.first it.second };
}

impl<'a, T: Ord, A: Allocator> Iterator for SymmetricDifference<'a, T, A> {
    type Item = &'a T;

    ghost next_gives = { YieldsFirstBy (λ value. value.now) (λ rest. rest) };

    ghost remaining = { item_count (λ rest. rest) };

    /// Returns the least remaining element that exactly one of the sets has, or `None` if none
    /// remains.
    fn next(&mut self) -> Option<&'a T> {
        'each: loop {
            let Some(x) = self.first.peek() else {
                return self.second.next();
            };
            let Some(y) = self.second.peek() else {
                return self.first.next();
            };
            match x.cmp(y) {
                Ordering::Less => {
                    self.first.advance();
                    return Some(x);
                }
                Ordering::Equal => {
                    self.first.advance();
                    self.second.advance();
                }
                Ordering::Greater => {
                    self.second.advance();
                    return Some(y);
                }
            }
        }
    }
}

impl<'a, T: Ord, A: Allocator> FusedIterator for SymmetricDifference<'a, T, A> {}

impl<T: Ord, A: Allocator> OrderedSet<T, A> {
    /// Returns `true` if each element is in `other`.
    pub fn is_subset(&self, other: &OrderedSet<T, A>) -> bool
        ensures { result ≡ list_all (has T.cmp other.now.elements) self.now.elements }
    {
        'each: for value in self.iter() {
            if !other.contains(value) {
                return false;
            }
        }
        true
    }

    /// Returns `true` if each element of `other` is in this set.
    pub fn is_superset(&self, other: &OrderedSet<T, A>) -> bool
        ensures { result ≡ list_all (has T.cmp self.now.elements) other.now.elements }
    {
        other.is_subset(self)
    }

    /// Returns `true` if no element is in `other`.
    pub fn is_disjoint(&self, other: &OrderedSet<T, A>) -> bool
        ensures { result
            ≡ list_all (λ x. not (has T.cmp other.now.elements x)) self.now.elements }
    {
        'each: for value in self.iter() {
            if other.contains(value) {
                return false;
            }
        }
        true
    }

    /// Returns an iterator over the elements that are in `other`, in ascending order.
    ///
    /// Looks each element up in `other`. Does not allocate.
    pub fn intersection<'a>(&'a self, other: &'a OrderedSet<T, A>) -> Intersection<'a, T, A>
        ensures { result ≡ filter (has T.cmp other.now.elements) self.now.elements }
    {
        Intersection {
            rest: self.iter(),
            other,
        }
    }

    /// Returns an iterator over the elements that are not in `other`, in ascending order.
    ///
    /// Looks each element up in `other`. Does not allocate.
    pub fn difference<'a>(&'a self, other: &'a OrderedSet<T, A>) -> Difference<'a, T, A>
        ensures { result ≡ filter (λ x. not (has T.cmp other.now.elements x)) self.now.elements }
    {
        Difference {
            rest: self.iter(),
            other,
        }
    }

    /// Returns an iterator over the elements of both sets, in ascending order.
    ///
    /// Of two equal elements it returns that of this set. Merges the two sets. Does not allocate.
    pub fn union<'a>(&'a self, other: &'a OrderedSet<T, A>) -> Union<'a, T, A>
        ensures merged { result ≡ sorted_merge T.cmp true self.now.elements other.now.elements }
        ensures ascending { IsAscending T.cmp result }
    {
        Union {
            first: Peeked::of(self.iter()),
            second: Peeked::of(other.iter()),
        }
    }

    /// Returns an iterator over the elements that exactly one of the sets has, in ascending order.
    ///
    /// Merges the two sets. Does not allocate.
    pub fn symmetric_difference<'a>(
        &'a self,
        other: &'a OrderedSet<T, A>,
    ) -> SymmetricDifference<'a, T, A>
        ensures merged { result ≡ sorted_merge T.cmp false self.now.elements other.now.elements }
        ensures ascending { IsAscending T.cmp result }
    {
        SymmetricDifference {
            first: Peeked::of(self.iter()),
            second: Peeked::of(other.iter()),
        }
    }
}
