//! Iterators over the intersection, the difference and the union of two sets.
ghost use Rattle.std.specs.Prelude.{◌≡◌, ◌++◌, not, filter, IfSome};
ghost use Rattle.std.specs.Iterator.{YieldsFirstBy, UpTo, item_count};
ghost use Rattle.std.specs.Iterator.SizeHint.{IsWithinCount};
ghost use Rattle.std.specs.Set.{is_member};

use super::Set;
use crate::iter::Keys;
use std::alloc::Allocator;
use std::hash::{BuildHasher, Hash};
use std::iter::FusedIterator;
use std::marker::Model;

/// An iterator over the elements of a set that are in another set.
///
/// Returned by `Set::intersection`. A contract sees it as the list of the remaining elements.
#[derive(Drop)]
pub struct Intersection<'a, T: Eq + Hash, S: BuildHasher, A: Allocator> {
    rest: Keys<'a, T, (), A>,
    other: &'a Set<T, S, A>,
}

impl<'a, T: Eq + Hash, S: BuildHasher, A: Allocator> Model for Intersection<'a, T, S, A> {
    ghost use Rattle.std.specs.Prelude.{List, filter};
    ghost use Rattle.std.specs.Set.{is_member};

    ghost Value = { List T };

    ghost view = { λ it. filter (is_member T.eq it.other.now.elements) it.rest };
}

impl<'a, T: Eq + Hash, S: BuildHasher, A: Allocator> Iterator for Intersection<'a, T, S, A> {
    type Item = &'a T;

    ghost next_gives = { YieldsFirstBy (λ value. value.now) (λ rest. rest) };

    ghost remaining = { item_count (λ rest. rest) };

    /// Returns the next element that is in both sets, or `None` if none remains.
    fn next(&mut self) -> Option<&'a T> {
        'each: while let Some(value) = self.rest.next() {
            if self.other.contains(value) {
                return Some(value);
            }
        }
        None
    }

    /// Returns 0 and the number of elements that were not looked up yet.
    fn size_hint(&self) -> (usize, Option<usize>) {
        (0, Some(self.rest.len()))
    }
}

impl<'a, T: Eq + Hash, S: BuildHasher, A: Allocator> FusedIterator for Intersection<'a, T, S, A> {}

/// An iterator over the elements of a set that are not in another set.
///
/// Returned by `Set::difference`. A contract sees it as the list of the remaining elements.
#[derive(Drop)]
pub struct Difference<'a, T: Eq + Hash, S: BuildHasher, A: Allocator> {
    rest: Keys<'a, T, (), A>,
    other: &'a Set<T, S, A>,
}

impl<'a, T: Eq + Hash, S: BuildHasher, A: Allocator> Model for Difference<'a, T, S, A> {
    ghost use Rattle.std.specs.Prelude.{List, filter, not};
    ghost use Rattle.std.specs.Set.{is_member};

    ghost Value = { List T };

    ghost view = { λ it. filter (λ x. not (is_member T.eq it.other.now.elements x)) it.rest };
}

impl<'a, T: Eq + Hash, S: BuildHasher, A: Allocator> Iterator for Difference<'a, T, S, A> {
    type Item = &'a T;

    ghost next_gives = { YieldsFirstBy (λ value. value.now) (λ rest. rest) };

    ghost remaining = { item_count (λ rest. rest) };

    /// Returns the next element that is not in the other set, or `None` if none remains.
    fn next(&mut self) -> Option<&'a T> {
        'each: while let Some(value) = self.rest.next() {
            if !self.other.contains(value) {
                return Some(value);
            }
        }
        None
    }

    /// Returns 0 and the number of elements that were not looked up yet.
    fn size_hint(&self) -> (usize, Option<usize>) {
        (0, Some(self.rest.len()))
    }
}

impl<'a, T: Eq + Hash, S: BuildHasher, A: Allocator> FusedIterator for Difference<'a, T, S, A> {}

/// An iterator over the elements of two sets, without those of the second that the first has.
///
/// Returned by `Set::union`. A contract sees it as the list of the remaining elements.
#[derive(Drop)]
pub struct Union<'a, T: Eq + Hash, S: BuildHasher, A: Allocator> {
    first: Keys<'a, T, (), A>,
    second: Difference<'a, T, S, A>,
}

impl<'a, T: Eq + Hash, S: BuildHasher, A: Allocator> Model for Union<'a, T, S, A> {
    ghost use Rattle.std.specs.Prelude.{List, ◌++◌};

    ghost Value = { List T };

    ghost view = { λ it. it.first ++ it.second };
}

impl<'a, T: Eq + Hash, S: BuildHasher, A: Allocator> Iterator for Union<'a, T, S, A> {
    type Item = &'a T;

    ghost next_gives = { YieldsFirstBy (λ value. value.now) (λ rest. rest) };

    ghost remaining = { item_count (λ rest. rest) };

    /// Returns the next element of the first set, then those that only the second has, or `None`
    /// if none remains.
    fn next(&mut self) -> Option<&'a T> {
        match self.first.next() {
            Some(value) => Some(value),
            None => self.second.next(),
        }
    }
}

impl<'a, T: Eq + Hash, S: BuildHasher, A: Allocator> FusedIterator for Union<'a, T, S, A> {}

/// An iterator over the elements of each of two sets that the other does not have.
///
/// Returned by `Set::symmetric_difference`. A contract sees it as the list of the remaining
/// elements.
#[derive(Drop)]
pub struct SymmetricDifference<'a, T: Eq + Hash, S: BuildHasher, A: Allocator> {
    first: Difference<'a, T, S, A>,
    second: Difference<'a, T, S, A>,
}

impl<'a, T: Eq + Hash, S: BuildHasher, A: Allocator> Model for SymmetricDifference<'a, T, S, A> {
    ghost use Rattle.std.specs.Prelude.{List, ◌++◌};

    ghost Value = { List T };

    ghost view = { λ it. it.first ++ it.second };
}

impl<'a, T: Eq + Hash, S: BuildHasher, A: Allocator> Iterator for SymmetricDifference<'a, T, S, A> {
    type Item = &'a T;

    ghost next_gives = { YieldsFirstBy (λ value. value.now) (λ rest. rest) };

    ghost remaining = { item_count (λ rest. rest) };

    /// Returns the next element that only the first set has, then those that only the second has,
    /// or `None` if none remains.
    fn next(&mut self) -> Option<&'a T> {
        if let Some(value) = self.first.next() {
            return Some(value);
        }
        self.second.next()
    }
}

impl<'a, T: Eq + Hash, S: BuildHasher, A: Allocator> FusedIterator
    for SymmetricDifference<'a, T, S, A> {}

impl<T: Eq + Hash, S: BuildHasher, A: Allocator> Set<T, S, A> {
    /// Returns an iterator over the elements that are in `other`, in the order of `iter`.
    pub fn intersection<'a>(&'a self, other: &'a Set<T, S, A>) -> Intersection<'a, T, S, A>
        ensures { result ≡ filter (is_member T.eq other.now.elements) self.now.elements }
    {
        Intersection {
            rest: self.iter(),
            other,
        }
    }

    /// Returns an iterator over the elements that are not in `other`, in the order of `iter`.
    pub fn difference<'a>(&'a self, other: &'a Set<T, S, A>) -> Difference<'a, T, S, A>
        ensures { result
            ≡ filter (λ x. not (is_member T.eq other.now.elements x)) self.now.elements }
    {
        Difference {
            rest: self.iter(),
            other,
        }
    }

    /// Returns an iterator over the elements, and then over those that only `other` has.
    pub fn union<'a>(&'a self, other: &'a Set<T, S, A>) -> Union<'a, T, S, A>
        ensures { result ≡ self.now.elements
            ++ filter (λ x. not (is_member T.eq self.now.elements x)) other.now.elements }
    {
        Union {
            first: self.iter(),
            second: other.difference(self),
        }
    }

    /// Returns an iterator over the elements that are not in `other`, and then over those that only
    /// `other` has.
    pub fn symmetric_difference<'a>(
        &'a self,
        other: &'a Set<T, S, A>,
    ) -> SymmetricDifference<'a, T, S, A>
        ensures { result
            ≡ filter (λ x. not (is_member T.eq other.now.elements x)) self.now.elements
            ++ filter (λ x. not (is_member T.eq self.now.elements x)) other.now.elements }
    {
        SymmetricDifference {
            first: self.difference(other),
            second: other.difference(self),
        }
    }
}
