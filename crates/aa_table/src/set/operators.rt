//! `&a | &b` and the like: new sets of clones of the elements of two sets.
ghost use Rattle.std.specs.Prelude.{◌≡◌, ◌++◌, ◌∷◌, [], length, not, filter, IsTrue};
ghost use Rattle.std.specs.Set.{is_member};
ghost use Rattle.aa_table.specs.SetContents.{SetHasRoom};
ghost use Rattle.aa_table.specs.SetOperators.{is_in, part_of, InsertsClones, MakesSet};

use super::Set;
use crate::growth::{alloc_error, fresh_capacity};
use allocator_api2::collections::{TryReserveError, TryReserveErrorKind};
use std::alloc::Allocator;
use std::hash::{BuildHasher, Hash};
use std::ops::{BitAnd, BitOr, BitXor, Sub};

// A part of a set, beside another set.
#[derive(Clone, Copy)]
pub(crate) enum Part {
    // all elements
    All,
    // those that the other set has too
    Common,
    // those that the other set does not have
    Own,
    // no elements
    Nothing,
}

impl<T: Eq + Hash, S: BuildHasher, A: Allocator> Set<T, S, A> {
    // Returns `true` if `value` is in this part of a set, beside `self`.
    fn has_in(&self, part: Part, value: &T) -> bool
        ensures { result ≡ is_in T.eq part self.now.elements value.now }
    {
        match part {
            Part::All => true,
            Part::Common => self.contains(value),
            Part::Own => !self.contains(value),
            Part::Nothing => false,
        }
    }

    // Returns the number of elements in this part of the set, beside `other`.
    fn count_in(&self, part: Part, other: &Self) -> usize
        ensures { result ≡ length (part_of T.eq part self.now.elements other.now.elements) }
    {
        let mut rest = self.iter();
        let mut count = rest.len();
        'each: while let Some(value) = rest.next() {
            if !other.has_in(part, value) {
                count -= 1;
            }
        }
        count
    }
}

impl<T: Eq + Hash + Clone + Drop, S: BuildHasher, A: Allocator + Clone> Set<T, S, A> {
    // Inserts a clone of `value`, for which there is capacity. Returns whether it was made.
    fn insert_clone(&mut self, value: &T) -> bool
        requires { SetHasRoom self.old 1 }
        ensures { IsTrue result
            → InsertsClones T.eq T.is_clone self.old (value.now ∷ []) self.new }
    {
        let Ok(copy) = value.clone() else {
            return false;
        };
        let Ok(_) = self.insert(copy) else {
            return false;
        };
        true
    }

    // Inserts a clone of each element in this part of `from`, beside `other`, for which there is
    // capacity. Returns whether all were made.
    fn insert_clones(&mut self, from: &Self, part: Part, other: &Self) -> bool
        requires { SetHasRoom self.old
            (length (part_of T.eq part from.now.elements other.now.elements)) }
        ensures { IsTrue result → InsertsClones T.eq T.is_clone self.old
            (part_of T.eq part from.now.elements other.now.elements) self.new }
    {
        let mut rest = from.iter();
        'each: while let Some(value) = rest.next() {
            if !other.has_in(part, value) {
                continue 'each;
            }
            if !self.insert_clone(value) {
                return false;
            }
        }
        true
    }
}

impl<T: Eq + Hash + Clone + Drop, S: BuildHasher + Default + Drop, A: Allocator + Clone> Set<
    T,
    S,
    A,
> {
    // Returns a set of clones of a part of `first`, beside `second`, and of a part of `second`,
    // beside `first`.
    fn of_parts(
        first: &Self,
        part: Part,
        second: &Self,
        more: Part,
    ) -> Result<Self, TryReserveError>
        ensures { MakesSet T.eq T.is_clone S.is_default
            (part_of T.eq part first.now.elements second.now.elements
            ++ part_of T.eq more second.now.elements first.now.elements) result }
    {
        let (some, others) = (first.count_in(part, second), second.count_in(more, first));
        let Some(count) = some.checked_add(others) else {
            return Err(TryReserveErrorKind::CapacityOverflow.into());
        };
        let Ok(alloc) = first.table.allocator().clone() else {
            return Err(alloc_error(fresh_capacity(count)));
        };
        let mut made = Set::with_hasher_in(S::default(), alloc);
        made.reserve(count)?;
        if made.insert_clones(first, part, second) && made.insert_clones(second, more, first) {
            return Ok(made);
        }
        Err(alloc_error(fresh_capacity(count)))
    }
}

impl<
    'a,
    'b,
    T: Eq + Hash + Clone + Drop,
    S: BuildHasher + Default + Drop,
    A: Allocator + Clone,
> BitOr<&'b Set<T, S, A>> for &'a Set<T, S, A> {
    type Output = Result<Set<T, S, A>, TryReserveError>;

    ghost bitor_gives = { λ a b r. MakesSet T.eq T.is_clone S.is_default (a.now.elements
        ++ filter (λ x. not (is_member T.eq a.now.elements x)) b.now.elements) r };

    /// Returns the union: a new set of clones of the elements that either set has.
    ///
    /// It has a default builder and a clone of the allocator of `self`. Allocates once, for exactly
    /// as many elements.
    ///
    /// # Errors
    /// `CapacityOverflow`, or `AllocError` with the capacity of a new set for as many elements, if
    /// the allocation or a clone fails.
    fn bitor(self, other: &'b Set<T, S, A>) -> Result<Set<T, S, A>, TryReserveError> {
        Set::of_parts(self, Part::All, other, Part::Own)
    }
}

impl<
    'a,
    'b,
    T: Eq + Hash + Clone + Drop,
    S: BuildHasher + Default + Drop,
    A: Allocator + Clone,
> BitAnd<&'b Set<T, S, A>> for &'a Set<T, S, A> {
    type Output = Result<Set<T, S, A>, TryReserveError>;

    ghost bitand_gives = { λ a b r. MakesSet T.eq T.is_clone S.is_default
        (filter (is_member T.eq b.now.elements) a.now.elements) r };

    /// Returns the intersection: a new set of clones of the elements that both sets have.
    ///
    /// The clones are of the elements of `self`. Builder, allocator and errors are as for `|`.
    fn bitand(self, other: &'b Set<T, S, A>) -> Result<Set<T, S, A>, TryReserveError> {
        Set::of_parts(self, Part::Common, other, Part::Nothing)
    }
}

impl<
    'a,
    'b,
    T: Eq + Hash + Clone + Drop,
    S: BuildHasher + Default + Drop,
    A: Allocator + Clone,
> Sub<&'b Set<T, S, A>> for &'a Set<T, S, A> {
    type Output = Result<Set<T, S, A>, TryReserveError>;

    ghost sub_gives = { λ a b r. MakesSet T.eq T.is_clone S.is_default
        (filter (λ x. not (is_member T.eq b.now.elements x)) a.now.elements) r };

    /// Returns the difference: a new set of clones of the elements that `other` does not have.
    ///
    /// Builder, allocator and errors are as for `|`.
    fn sub(self, other: &'b Set<T, S, A>) -> Result<Set<T, S, A>, TryReserveError> {
        Set::of_parts(self, Part::Own, other, Part::Nothing)
    }
}

impl<
    'a,
    'b,
    T: Eq + Hash + Clone + Drop,
    S: BuildHasher + Default + Drop,
    A: Allocator + Clone,
> BitXor<&'b Set<T, S, A>> for &'a Set<T, S, A> {
    type Output = Result<Set<T, S, A>, TryReserveError>;

    ghost bitxor_gives = { λ a b r. MakesSet T.eq T.is_clone S.is_default
        (filter (λ x. not (is_member T.eq b.now.elements x)) a.now.elements
        ++ filter (λ x. not (is_member T.eq a.now.elements x)) b.now.elements) r };

    /// Returns the symmetric difference: a new set of clones of the elements that only one of the
    /// sets has.
    ///
    /// Builder, allocator and errors are as for `|`.
    fn bitxor(self, other: &'b Set<T, S, A>) -> Result<Set<T, S, A>, TryReserveError> {
        Set::of_parts(self, Part::Own, other, Part::Own)
    }
}
