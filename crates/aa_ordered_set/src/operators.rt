//! `&a | &b` and the like: new sets of clones of the elements of two sets.
ghost use Rattle.std.specs.Prelude.{◌≡◌, ◌*◌, ◌≤◌, List, filter, false, length, map, not, true, IfOk, IfErr, IfSome};
ghost use Rattle.std.specs.Iterator.{Drains, IsFiniteIterable, size};
ghost use Rattle.std.specs.Set.{sorted_merge};
ghost use Rattle.allocator_api2.specs.Errors.{IsErrorFor};
ghost use Rattle.aa_ordered.specs.Capacity.{leaves_for};
ghost use Rattle.aa_ordered_set.specs.Sets.{has};
ghost use Rattle.aa_ordered_set.specs.Operators.{IsSetOfClones, MakesSet};

use crate::set::OrderedSet;
use allocator_api2::collections::{TryReserveError, TryReserveErrorKind};
use std::alloc::Allocator;
use std::cmp::Ord;
use std::iter::IntoIterator;
use std::ops::{BitAnd, BitOr, BitXor, Sub};

// Returns the number of items, or `None` if it exceeds `usize::MAX`.
fn count_of<'a, T: 'a, U: IntoIterator<Item = &'a T>>(items: U) -> Option<usize>
    requires finite { IsFiniteIterable U.into_iter_gives U.IntoIter.can_next
        U.IntoIter.remaining items }
    ensures { IfSome result (λ n. (it : U.IntoIter) × (xs : List _) × U.into_iter_gives items it
        × Drains U.IntoIter.next_gives it xs × (n ≡ length xs)) }
{
    let mut count = 0usize;
    'each: for _value in items {
        count = count.checked_add(1)?;
    }
    Some(count)
}

// Returns the error of a failed clone, in a new set for `count` elements.
fn clone_error(count: usize) -> TryReserveError
    ensures { IsErrorFor result (leaves_for count * 64) }
{
    if count == 0 {
        return TryReserveErrorKind::AllocError { capacity: 0 }.into();
    }
    let leaves = ((count - 1) / 32).max(1);
    match leaves.checked_mul(64) {
        Some(capacity) => TryReserveErrorKind::AllocError { capacity }.into(),
        None => TryReserveErrorKind::CapacityOverflow.into(),
    }
}

// Returns a set of clones of the items, with capacity for `count`, which are as many or more.
fn clones_of<
    'a,
    T: Ord + Clone + Drop + 'a,
    U: IntoIterator<Item = &'a T> + Drop,
    A: Allocator + Copy,
>(items: U, count: usize, alloc: A) -> Result<OrderedSet<T, A>, TryReserveError>
    requires finite { IsFiniteIterable U.into_iter_gives U.IntoIter.can_next
        U.IntoIter.remaining items }
    requires enough { (it : U.IntoIter) → U.into_iter_gives items it
        → size (U.IntoIter.remaining it) ≤ count }
    ensures made { IfOk result (λ s. (it : U.IntoIter) × (xs : List _)
        × U.into_iter_gives items it × Drains U.IntoIter.next_gives it xs
        × IsSetOfClones T.cmp T.is_clone (map (λ x. x.now) xs) count s) }
    ensures error { IfErr result (λ e. IsErrorFor e (leaves_for count * 64)) }
{
    let mut made = OrderedSet::with_capacity_in(count, alloc)?;
    'each: for value in items {
        match value.clone() {
            Ok(copy) => made.insert_within(copy),
            Err(_) => return Err(clone_error(count)),
        }
    }
    Ok(made)
}

impl<'a, 'b, T: Ord + Clone + Drop, A: Allocator + Copy> BitOr<&'b OrderedSet<T, A>>
    for &'a OrderedSet<T, A> {
    type Output = Result<OrderedSet<T, A>, TryReserveError>;

    ghost bitor_gives = { λ a b r. MakesSet T.cmp T.is_clone
        (sorted_merge T.cmp true a.now.elements b.now.elements) r };

    /// Returns the union: a new set of clones of the elements that either set has.
    ///
    /// Of two equal elements it has a clone of that of `self`. It has the allocator of `self`, and
    /// capacity for exactly as many elements, which is reserved at once.
    ///
    /// # Errors
    /// `CapacityOverflow`, or `AllocError` with the number of elements in the requested leaves, if
    /// the allocation or a clone fails.
    fn bitor(self, other: &'b OrderedSet<T, A>) -> Result<OrderedSet<T, A>, TryReserveError> {
        let Some(count) = count_of(self.union(other)) else {
            return Err(TryReserveErrorKind::CapacityOverflow.into());
        };
        clones_of(self.union(other), count, *self.allocator())
    }
}

impl<'a, 'b, T: Ord + Clone + Drop, A: Allocator + Copy> BitAnd<&'b OrderedSet<T, A>>
    for &'a OrderedSet<T, A> {
    type Output = Result<OrderedSet<T, A>, TryReserveError>;

    ghost bitand_gives = { λ a b r. MakesSet T.cmp T.is_clone
        (filter (has T.cmp b.now.elements) a.now.elements) r };

    /// Returns the intersection: a new set of clones of the elements that both sets have.
    ///
    /// The clones are of the elements of `self`. Allocator, capacity and errors are as for `|`.
    fn bitand(self, other: &'b OrderedSet<T, A>) -> Result<OrderedSet<T, A>, TryReserveError> {
        let Some(count) = count_of(self.intersection(other)) else {
            return Err(TryReserveErrorKind::CapacityOverflow.into());
        };
        clones_of(self.intersection(other), count, *self.allocator())
    }
}

impl<'a, 'b, T: Ord + Clone + Drop, A: Allocator + Copy> Sub<&'b OrderedSet<T, A>>
    for &'a OrderedSet<T, A> {
    type Output = Result<OrderedSet<T, A>, TryReserveError>;

    ghost sub_gives = { λ a b r. MakesSet T.cmp T.is_clone
        (filter (λ x. not (has T.cmp b.now.elements x)) a.now.elements) r };

    /// Returns the difference: a new set of clones of the elements that `other` does not have.
    ///
    /// Allocator, capacity and errors are as for `|`.
    fn sub(self, other: &'b OrderedSet<T, A>) -> Result<OrderedSet<T, A>, TryReserveError> {
        let Some(count) = count_of(self.difference(other)) else {
            return Err(TryReserveErrorKind::CapacityOverflow.into());
        };
        clones_of(self.difference(other), count, *self.allocator())
    }
}

impl<'a, 'b, T: Ord + Clone + Drop, A: Allocator + Copy> BitXor<&'b OrderedSet<T, A>>
    for &'a OrderedSet<T, A> {
    type Output = Result<OrderedSet<T, A>, TryReserveError>;

    ghost bitxor_gives = { λ a b r. MakesSet T.cmp T.is_clone
        (sorted_merge T.cmp false a.now.elements b.now.elements) r };

    /// Returns the symmetric difference: a new set of clones of the elements that exactly one of the
    /// sets has.
    ///
    /// Allocator, capacity and errors are as for `|`.
    fn bitxor(self, other: &'b OrderedSet<T, A>) -> Result<OrderedSet<T, A>, TryReserveError> {
        let Some(count) = count_of(self.symmetric_difference(other)) else {
            return Err(TryReserveErrorKind::CapacityOverflow.into());
        };
        clones_of(self.symmetric_difference(other), count, *self.allocator())
    }
}
