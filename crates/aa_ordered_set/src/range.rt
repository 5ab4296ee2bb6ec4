//! Ranges of the elements of a set.
ghost use Rattle.std.specs.Prelude.{◌≡◌, filter};
ghost use Rattle.std.specs.BTreeMap.Range.{range_contains};
ghost use Rattle.std.specs.Iterator.{YieldsFirstBy, YieldsLastBy, item_count};
ghost use Rattle.aa_ordered_set.specs.Sets.{IsAscending};

use crate::set::OrderedSet;
use aa_ordered::range::Range as MapRange;
use std::alloc::Allocator;
use std::cmp::Ord;
use std::iter::FusedIterator;
use std::marker::Model;
use std::ops::RangeBounds;

/// A double-ended iterator over the elements of a range, in ascending order.
///
/// Returned by `OrderedSet::range`. A contract sees it as the list of the remaining elements.
#[derive(Drop)]
pub struct Range<'a, T, A: Allocator> {
    pub(crate) rest: MapRange<'a, T, (), A>,
}

impl<'a, T, A: Allocator> Model for Range<'a, T, A> {
    ghost use Rattle.std.specs.Prelude.{List};
    ghost use Rattle.std.specs.Map.{keys_of};

    ghost Value = { List T };

    ghost view = { λ r. keys_of r.rest };
}

impl<'a, T, A: Allocator> Iterator for Range<'a, T, A> {
    type Item = &'a T;

    ghost next_gives = { YieldsFirstBy (λ value. value.now) (λ rest. rest) };

    ghost remaining = { item_count (λ rest. rest) };

    /// Returns the next element of the range, or `None` if none remains.
    #[inline]
    fn next(&mut self) -> Option<&'a T> {
        match self.rest.next() {
            Some((value, _)) => Some(value),
            None => None,
        }
    }
}

impl<'a, T, A: Allocator> DoubleEndedIterator for Range<'a, T, A> {
    ghost next_back_gives = { YieldsLastBy (λ value. value.now) (λ rest. rest) };

    /// Returns the last remaining element of the range, or `None` if none remains.
    #[inline]
    fn next_back(&mut self) -> Option<&'a T> {
        match self.rest.next_back() {
            Some((value, _)) => Some(value),
            None => None,
        }
    }
}

impl<'a, T, A: Allocator> FusedIterator for Range<'a, T, A> {}

impl<T: Ord, A: Allocator> OrderedSet<T, A> {
    /// Returns a double-ended iterator over the elements that are in the range, in ascending order.
    ///
    /// Finds both ends by binary search. A range that runs backwards is empty. Does not allocate.
    #[tactic(auto, using(crate::proofs::Keys::keys))]
    pub fn range<R: RangeBounds<T> + Drop>(&self, range: R) -> Range<'_, T, A>
        ensures between { R.has_bounds range → result
            ≡ filter (range_contains T.cmp (R.start_bound range) (R.end_bound range))
            self.now.elements }
        ensures ascending { IsAscending T.cmp self.now.elements }
    {
        Range {
            rest: self.map.range(range),
        }
    }
}
