//! A set as the standard traits see it: made empty, cloned, iterated over, formatted, and compared.
ghost use Rattle.std.specs.Prelude.{◌≡◌, [], IfOk, IsOk};
ghost use Rattle.std.specs.Cmp.{on_equiv, partial_equiv_from_equiv};
ghost use Rattle.aa_table.specs.SameElements.{same-equiv};
ghost use Rattle.aa_table.specs.SetContents.{same_elements, IsSetCopy};

use super::Set;
use crate::into_parts::IntoKeys;
use crate::iter::Keys;
use crate::table::Table;
use std::alloc::{AllocError, Allocator};
use std::default::{Emptied, MadeWith};
use std::fmt;
use std::fmt::{Debug, Formatter};
use std::hash::{BuildHasher, Hash};

impl<T: Eq + Hash, S: BuildHasher + Default, A: Allocator> MadeWith<A> for Set<T, S, A> {
    ghost is_made_with = { λ s. (s.elements ≡ []) × (s.capacity ≡ 0) × (s.resizes ≡ 0)
        × S.is_default s.builder };

    /// Returns an empty set with a default builder of hashers.
    ///
    /// Does not allocate.
    fn made_with(alloc: A) -> Self {
        Set::with_hasher_in(S::default(), alloc)
    }
}

impl<T: Eq + Hash, S: BuildHasher + Clone, A: Allocator + Clone> Emptied for Set<T, S, A> {
    ghost is_emptied = { λ s. (s.elements ≡ []) × (s.capacity ≡ 0) × (s.resizes ≡ 0) };

    /// Returns an empty set with clones of the builder and the allocator of `like`.
    ///
    /// Does not allocate, unless one of these clones does.
    ///
    /// # Errors
    /// `AllocError` if a clone fails.
    fn emptied(like: &Self) -> Result<Self, AllocError>
        ensures made { IfOk result (λ s. (s.elements ≡ []) × (s.capacity ≡ 0) × (s.resizes ≡ 0)) }
        ensures fits { S.is_infallible like.now.builder → ((a : A) → A.is_infallible a)
            → IsOk result }
    {
        match Table::emptied(&like.table) {
            Ok(table) => Ok(Set { table }),
            Err(error) => Err(error),
        }
    }
}

impl<T: Eq + Hash + Clone + Drop, S: BuildHasher + Clone + Drop, A: Allocator + Clone> Clone
    for Set<T, S, A> {
    ghost is_clone = { IsSetCopy T.eq T.is_clone S.is_clone };

    /// Returns a set with a clone of each element, and clones of the builder and the allocator.
    ///
    /// Allocates once for all elements. Equal clones are one element.
    ///
    /// # Errors
    /// `AllocError` if an allocation or a clone fails. No set is returned then.
    fn clone(&self) -> Result<Self, AllocError> {
        match self.table.clone() {
            Ok(table) => Ok(Set { table }),
            Err(error) => Err(error),
        }
    }
}

impl<'a, T: Eq + Hash, S: BuildHasher, A: Allocator> IntoIterator for &'a Set<T, S, A> {
    type Item = &'a T;

    type IntoIter = Keys<'a, T, (), A>;

    ghost into_iter_gives = { λ set it. it ≡ set.now.elements };

    fn into_iter(self) -> Keys<'a, T, (), A> {
        self.iter()
    }
}

impl<T: Eq + Hash + Drop, S: BuildHasher + Drop, A: Allocator> IntoIterator for Set<T, S, A> {
    type Item = T;

    type IntoIter = IntoKeys<T, (), A>;

    ghost into_iter_gives = { λ set it. it ≡ set.elements };

    fn into_iter(self) -> IntoKeys<T, (), A> {
        Set::into_iter(self)
    }
}

impl<T: Eq + Hash + Debug, S: BuildHasher, A: Allocator> Debug for Set<T, S, A> {
    /// Formats the elements as a set, in the order of `iter`.
    fn fmt<W: fmt::Write>(&self, f: &mut Formatter<W>) -> fmt::Result {
        f.debug_set().entries(self.iter()).finish()
    }
}

impl<T: Eq + Hash, S: BuildHasher, A: Allocator> PartialEq for Set<T, S, A> {
    ghost eq = { λ left right. same_elements T.eq left.elements right.elements };

    ghost laws = { partial_equiv_from_equiv
        (on_equiv (λ s. s.elements) (same-equiv T.Eq.laws)) };

    /// Returns `true` if each element of either set is in the other.
    fn eq(&self, other: &Self) -> bool {
        self.is_subset(other) && other.is_subset(self)
    }
}

impl<T: Eq + Hash, S: BuildHasher, A: Allocator> Eq for Set<T, S, A> {
    ghost laws = { on_equiv (λ s. s.elements) (same-equiv T.Eq.laws) };
}
