//! A table as the standard traits see it: made empty, iterated over, formatted, and compared.
ghost use Rattle.std.specs.Prelude.{◌≡◌, [], ⊤, IfOk, IsOk};

use crate::iter::{IntoIter, Iter, Keys, Values};
use crate::table::Table;
use std::alloc::{AllocError, Allocator};
use std::default::{Emptied, MadeWith};
use std::fmt;
use std::fmt::{Debug, Formatter};
use std::hash::{BuildHasher, Hash};

impl<K: Eq + Hash, V, S: BuildHasher + Default, A: Allocator> MadeWith<A> for Table<K, V, S, A> {
    ghost is_made_with = { λ t. (t.entries ≡ []) × (t.capacity ≡ 0) × (t.resizes ≡ 0)
        × S.is_default t.builder };

    /// Returns an empty table with a default builder of hashers.
    ///
    /// Does not allocate.
    fn made_with(alloc: A) -> Self {
        Table::with_hasher_in(S::default(), alloc)
    }
}

impl<K: Eq + Hash, V, S: BuildHasher + Clone, A: Allocator + Clone> Emptied for Table<K, V, S, A> {
    ghost is_emptied = { λ t. (t.entries ≡ []) × (t.capacity ≡ 0) × (t.resizes ≡ 0) };

    /// Returns an empty table with clones of the builder and the allocator of `like`.
    ///
    /// Does not allocate, unless one of these clones does.
    ///
    /// # Errors
    /// `AllocError` if a clone fails.
    fn emptied(like: &Self) -> Result<Self, AllocError>
        ensures made { IfOk result (λ t. (t.entries ≡ []) × (t.capacity ≡ 0) × (t.resizes ≡ 0)) }
        ensures fits { S.is_infallible like.now.builder → ((a : A) → A.is_infallible a)
            → IsOk result }
    {
        let alloc = like.allocator().clone()?;
        Ok(Table::with_hasher_in(like.hasher().clone()?, alloc))
    }
}

impl<'a, K: Eq + Hash, V, S: BuildHasher, A: Allocator> IntoIterator for &'a Table<K, V, S, A> {
    type Item = (&'a K, &'a V);

    type IntoIter = Iter<'a, K, V, A>;

    ghost into_iter_gives = { λ table it. it ≡ table.now.entries };

    fn into_iter(self) -> Iter<'a, K, V, A> {
        self.iter()
    }
}

impl<K: Eq + Hash + Drop, V: Drop, S: BuildHasher + Drop, A: Allocator> IntoIterator
    for Table<K, V, S, A> {
    type Item = (K, V);

    type IntoIter = IntoIter<K, V, A>;

    ghost into_iter_gives = { λ table it. it ≡ table.entries };

    fn into_iter(self) -> IntoIter<K, V, A> {
        Table::into_iter(self)
    }
}

impl<K: Eq + Hash + Debug, V: Debug, S: BuildHasher, A: Allocator> Debug for Table<K, V, S, A> {
    /// Formats the entries as a map, in the order of `iter`.
    fn fmt<W: fmt::Write>(&self, f: &mut Formatter<W>) -> fmt::Result {
        f.debug_map().entries(self.iter()).finish()
    }
}

impl<'a, K, V, A: Allocator> Clone for Iter<'a, K, V, A> {
    ghost is_clone = { λ it copy. copy ≡ it };

    ghost is_infallible = { λ _. ⊤ };

    /// Returns an iterator over the same remaining entries.
    fn clone(&self) -> Result<Self, AllocError> {
        Ok(self.duplicate())
    }
}

impl<'a, K, V, A: Allocator> Clone for Keys<'a, K, V, A> {
    ghost is_clone = { λ it copy. copy ≡ it };

    ghost is_infallible = { λ _. ⊤ };

    /// Returns an iterator over the same remaining keys.
    fn clone(&self) -> Result<Self, AllocError> {
        Ok(Keys {
            rest: self.rest.duplicate(),
        })
    }
}

impl<'a, K, V, A: Allocator> Clone for Values<'a, K, V, A> {
    ghost is_clone = { λ it copy. copy ≡ it };

    ghost is_infallible = { λ _. ⊤ };

    /// Returns an iterator over the same remaining values.
    fn clone(&self) -> Result<Self, AllocError> {
        Ok(Values {
            rest: self.rest.duplicate(),
        })
    }
}

impl<'a, K: Debug, V: Debug, A: Allocator> Debug for Iter<'a, K, V, A> {
    /// Formats the remaining entries as a list of pairs.
    fn fmt<W: fmt::Write>(&self, f: &mut Formatter<W>) -> fmt::Result {
        f.debug_list().entries(self.duplicate()).finish()
    }
}

impl<'a, K: Debug, V, A: Allocator> Debug for Keys<'a, K, V, A> {
    /// Formats the remaining keys as a list.
    fn fmt<W: fmt::Write>(&self, f: &mut Formatter<W>) -> fmt::Result {
        let keys = Keys {
            rest: self.rest.duplicate(),
        };
        f.debug_list().entries(keys).finish()
    }
}

impl<'a, K, V: Debug, A: Allocator> Debug for Values<'a, K, V, A> {
    /// Formats the remaining values as a list.
    fn fmt<W: fmt::Write>(&self, f: &mut Formatter<W>) -> fmt::Result {
        let values = Values {
            rest: self.rest.duplicate(),
        };
        f.debug_list().entries(values).finish()
    }
}
