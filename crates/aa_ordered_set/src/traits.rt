//! A set as the standard traits see it: made empty, cloned, iterated over, and formatted.
ghost use Rattle.std.specs.Prelude.{◌≡◌, ⊤, IfOk, IsOk};
ghost use Rattle.aa_ordered_set.specs.Sets.{empty, IsAscending, IsSetCopy};

use crate::range::Range;
use crate::set::OrderedSet;
use aa_ordered::into_iter::IntoKeys;
use aa_ordered::iter::Keys;
use std::alloc::{AllocError, Allocator};
use std::cmp::Ord;
use std::default::{Emptied, MadeWith};
use std::fmt;
use std::fmt::{Debug, Formatter};

impl<T: Ord, A: Allocator + Copy> MadeWith<A> for OrderedSet<T, A> {
    ghost is_made_with = { λ s. s ≡ empty };

    /// Returns an empty set.
    ///
    /// Does not allocate.
    fn made_with(alloc: A) -> Self {
        OrderedSet::new_in(alloc)
    }
}

impl<T: Ord, A: Allocator + Copy> Emptied for OrderedSet<T, A> {
    ghost is_emptied = { λ s. s ≡ empty };

    /// Returns an empty set with the allocator of `like`.
    ///
    /// Does not allocate, and does not fail.
    fn emptied(like: &Self) -> Result<Self, AllocError>
        ensures made { IfOk result (λ s. s ≡ empty) }
        ensures fits { IsOk result }
    {
        Ok(OrderedSet::new_in(*like.allocator()))
    }
}

impl<T: Ord + Clone + Drop, A: Allocator + Copy> Clone for OrderedSet<T, A> {
    ghost is_clone = { IsSetCopy T.cmp T.is_clone };

    /// Returns a set with a clone of each element, and the same allocator.
    ///
    /// Allocates once for all elements, and inserts them in order.
    ///
    /// # Errors
    /// `AllocError` if an allocation or a clone fails. No set is returned then.
    fn clone(&self) -> Result<Self, AllocError> {
        match self.map.clone() {
            Ok(map) => Ok(OrderedSet { map }),
            Err(error) => Err(error),
        }
    }
}

impl<'a, T: Ord, A: Allocator> IntoIterator for &'a OrderedSet<T, A> {
    type Item = &'a T;

    type IntoIter = Keys<'a, T, (), A>;

    ghost into_iter_gives = { λ set it. (it ≡ set.now.elements)
        × IsAscending T.cmp set.now.elements };

    fn into_iter(self) -> Keys<'a, T, (), A> {
        self.iter()
    }
}

impl<T: Ord + Drop, A: Allocator> IntoIterator for OrderedSet<T, A> {
    type Item = T;

    type IntoIter = IntoKeys<T, (), A>;

    ghost into_iter_gives = { λ set it. (it ≡ set.elements) × IsAscending T.cmp set.elements };

    fn into_iter(self) -> IntoKeys<T, (), A> {
        OrderedSet::into_iter(self)
    }
}

impl<T: Ord + Debug, A: Allocator> Debug for OrderedSet<T, A> {
    /// Formats the elements as a set, in ascending order.
    fn fmt<W: fmt::Write>(&self, f: &mut Formatter<W>) -> fmt::Result {
        f.debug_set().entries(self.iter()).finish()
    }
}

impl<'a, T, A: Allocator> Clone for Range<'a, T, A> {
    ghost is_clone = { λ it copy. copy ≡ it };

    ghost is_infallible = { λ _. ⊤ };

    /// Returns an iterator over the same remaining elements.
    fn clone(&self) -> Result<Self, AllocError> {
        match self.rest.clone() {
            Ok(rest) => Ok(Range { rest }),
            Err(error) => Err(error),
        }
    }
}

impl<'a, T: Debug, A: Allocator> Debug for Range<'a, T, A> {
    /// Formats the remaining elements as a list.
    fn fmt<W: fmt::Write>(&self, f: &mut Formatter<W>) -> fmt::Result {
        match self.clone() {
            Ok(rest) => f.debug_list().entries(rest).finish(),
            Err(_) => Err(fmt::Error),
        }
    }
}
