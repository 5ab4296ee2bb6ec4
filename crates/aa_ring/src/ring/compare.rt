//! Comparisons and hashes of rings, item by item.
ghost use Rattle.std.specs.Prelude.{◌≡◌};
ghost use Rattle.std.specs.Hash as fed;
ghost use Rattle.std.specs.Hash.{on_Alike, items_Alike};
ghost use Rattle.std.specs.Cmp.{on_equiv, on_total, on_po, on_per};
ghost use Rattle.std.specs.Cmp.Lexicographic.{pointwise, slice_cmp, slice_partial_cmp, lists_equiv, lists_agrees, lists_total, lists_ties, lists_po, lists_per};

use crate::iter::{Iter, over_slice};
use crate::ring::Ring;
use std::alloc::Allocator;
use std::cmp::Ordering;
use std::hash::{Hash, Hasher};

/// Returns whether the items are equal, one by one. The two allocators may be of different types.
///
/// Corresponds to the standard library's `==` of a ring and another.
pub fn same<T: PartialEq, A: Allocator, B: Allocator>(left: &Ring<T, A>, right: &Ring<T, B>) -> bool
    ensures { result ≡ pointwise T.eq left.now.items right.now.items }
{
    remaining_are_same(left.iter(), right.iter())
}

/// Returns whether the items are equal to those of the slice `right`, one by one.
///
/// Corresponds to the standard library's `==` of a ring and a slice, an array or a vector.
pub fn same_as_slice<T: PartialEq, A: Allocator>(left: &Ring<T, A>, right: &[T]) -> bool
    ensures { result ≡ pointwise T.eq left.now.items right.now }
{
    remaining_are_same(left.iter(), over_slice(right))
}

// Returns whether the remaining items of two iterators are equal, one by one.
fn remaining_are_same<'a, 'b, T: PartialEq>(left: Iter<'a, T>, right: Iter<'b, T>) -> bool
    ensures { result ≡ pointwise T.eq left.entry right.entry }
{
    let mut items = left;
    let mut others = right;
    'each: loop {
        match (items.next(), others.next()) {
            (None, None) => return true,
            (Some(item), Some(other)) => {
                if *item != *other {
                    return false;
                }
            }
            _ => return false,
        }
    }
}

/// Compares the items of two rings lexicographically.
///
/// Returns the order of the first two items that are not equal: `None` if they have none. If one
/// ring is a prefix of the other, returns the order of the lengths.
pub fn partial_compare_items<T: PartialOrd, A: Allocator, B: Allocator>(
    left: &Ring<T, A>,
    right: &Ring<T, B>,
) -> Option<Ordering>
    ensures { result ≡ slice_partial_cmp T.partial_cmp left.now.items right.now.items }
{
    let mut items = left.iter();
    let mut others = right.iter();
    'each: loop {
        match (items.next(), others.next()) {
            (None, None) => return Some(Ordering::Equal),
            (None, Some(_)) => return Some(Ordering::Less),
            (Some(_), None) => return Some(Ordering::Greater),
            (Some(item), Some(other)) => match item.partial_cmp(other) {
                Some(Ordering::Equal) => {}
                unequal => return unequal,
            },
        }
    }
}

/// Compares the items of two rings lexicographically.
///
/// Returns the order of the first two items that are not equal. If one ring is a prefix of the
/// other, returns the order of the lengths.
pub fn compare_items<T: Ord, A: Allocator, B: Allocator>(
    left: &Ring<T, A>,
    right: &Ring<T, B>,
) -> Ordering
    ensures { result ≡ slice_cmp T.cmp left.now.items right.now.items }
{
    let mut items = left.iter();
    let mut others = right.iter();
    'each: loop {
        match (items.next(), others.next()) {
            (None, None) => return Ordering::Equal,
            (None, Some(_)) => return Ordering::Less,
            (Some(_), None) => return Ordering::Greater,
            (Some(item), Some(other)) => match item.cmp(other) {
                Ordering::Equal => {}
                unequal => return unequal,
            },
        }
    }
}

impl<T: PartialEq, A: Allocator> PartialEq for Ring<T, A> {
    ghost eq = { λ left right. pointwise T.eq left.items right.items };

    ghost laws = { on_per (λ r. r.items) (lists_per T.laws) };

    /// Returns whether the items are equal, one by one.
    fn eq(&self, other: &Self) -> bool {
        same(self, other)
    }
}

impl<T: Eq, A: Allocator> Eq for Ring<T, A> {
    ghost laws = { on_equiv (λ r. r.items) (lists_equiv T.Eq.laws) };
}

impl<T: PartialOrd, A: Allocator> PartialOrd for Ring<T, A> {
    ghost partial_cmp = { λ left right. slice_partial_cmp T.partial_cmp left.items right.items };

    ghost laws = { on_po (λ r. r.items) (lists_po T.PartialOrd.laws) };

    /// Returns the lexicographic order of the items, or `None` if the first unequal ones have none.
    fn partial_cmp(&self, other: &Self) -> Option<Ordering> {
        partial_compare_items(self, other)
    }
}

impl<T: Ord, A: Allocator> Ord for Ring<T, A> {
    ghost cmp = { λ left right. slice_cmp T.cmp left.items right.items };

    ghost total = { on_total (λ r. r.items) (lists_total T.total) };

    ghost matches_eq = { λ left right. lists_ties T.cmp T.matches_eq left.items right.items };

    ghost matches_partial_cmp = { λ left right.
        lists_agrees T.matches_partial_cmp left.items right.items };

    /// Returns the lexicographic order of the items.
    fn cmp(&self, other: &Self) -> Ordering {
        compare_items(self, other)
    }
}

impl<T: Hash, A: Allocator> Hash for Ring<T, A> {
    ghost hash_input = { λ r. fed.slice T.hash_input r.items };

    ghost respects_eq = { (on_Alike (λ r. r.items)
        (items_Alike (record { fed = T.respects_eq }))).fed };

    /// Feeds the length, and then the items in order, into the hasher `state`.
    #[tactic(auto, using(crate::proofs::Rings::as_two))]
    fn hash<H: Hasher>(&self, state: &mut H) {
        let (first, others) = self.as_slices();
        state.write_usize(self.len());
        T::hash_slice(first, state);
        T::hash_slice(others, state);
    }
}
