//! A map as the standard traits see it: made empty, formatted, indexed, and its iterators cloned.
ghost use Rattle.std.specs.Prelude.{◌≡◌, [], Some, ⊤, IfOk, IsOk, IsSome};
ghost use Rattle.aa_ordered.specs.Entries.{empty, value};

use crate::iter::{Iter, Keys, Values};
use crate::map::OrderedMap;
use crate::range::Range;
use std::alloc::{AllocError, Allocator};
use std::cmp::Ord;
use std::default::{Emptied, MadeWith};
use std::fmt;
use std::fmt::{Debug, Formatter};
use std::ops::Index;

impl<K: Ord, V, A: Allocator + Copy> MadeWith<A> for OrderedMap<K, V, A> {
    ghost is_made_with = { λ m. m ≡ empty };

    /// Returns an empty map.
    ///
    /// Does not allocate.
    fn made_with(alloc: A) -> Self {
        OrderedMap::new_in(alloc)
    }
}

impl<K: Ord, V, A: Allocator + Copy> Emptied for OrderedMap<K, V, A> {
    ghost is_emptied = { λ m. m ≡ empty };

    /// Returns an empty map with the allocator of `like`.
    ///
    /// Does not allocate, and does not fail.
    fn emptied(like: &Self) -> Result<Self, AllocError>
        ensures made { IfOk result (λ m. m ≡ empty) }
        ensures fits { IsOk result }
    {
        Ok(OrderedMap::new_in(*like.allocator()))
    }
}

impl<'k, K: Ord, V, A: Allocator> Index<&'k K> for OrderedMap<K, V, A> {
    type Output = V;

    ghost can_index = { λ m k. IsSome (value K.cmp m.entries k.now) };

    ghost index_gives = { λ m k v. value K.cmp m.entries k.now ≡ Some v };

    /// Returns a reference to the value of the key, which is present.
    fn index(&self, key: &'k K) -> &V {
        match self.get(key) {
            Some(item) => item,
            None => unreachable!(),
        }
    }
}

impl<K: Ord + Debug, V: Debug, A: Allocator> Debug for OrderedMap<K, V, A> {
    /// Formats the entries as a map, in the order of the keys.
    fn fmt<W: fmt::Write>(&self, f: &mut Formatter<W>) -> fmt::Result {
        f.debug_map().entries(self.iter()).finish()
    }
}

impl<'a, K, V, A: Allocator> Clone for Iter<'a, K, V, A> {
    ghost is_clone = { λ it copy. copy ≡ it };

    ghost is_infallible = { λ _. ⊤ };

    /// Returns an iterator over the same remaining entries.
    fn clone(&self) -> Result<Self, AllocError> {
        Ok(self.duplicate())
    }
}

impl<'a, K, V, A: Allocator> Clone for Keys<'a, K, V, A> {
    ghost is_clone = { λ it copy. copy ≡ it };

    ghost is_infallible = { λ _. ⊤ };

    /// Returns an iterator over the same remaining keys.
    fn clone(&self) -> Result<Self, AllocError> {
        Ok(Keys {
            rest: self.rest.duplicate(),
        })
    }
}

impl<'a, K, V, A: Allocator> Clone for Values<'a, K, V, A> {
    ghost is_clone = { λ it copy. copy ≡ it };

    ghost is_infallible = { λ _. ⊤ };

    /// Returns an iterator over the same remaining values.
    fn clone(&self) -> Result<Self, AllocError> {
        Ok(Values {
            rest: self.rest.duplicate(),
        })
    }
}

impl<'a, K, V, A: Allocator> Clone for Range<'a, K, V, A> {
    ghost is_clone = { λ it copy. copy ≡ it };

    ghost is_infallible = { λ _. ⊤ };

    /// Returns an iterator over the same remaining entries.
    fn clone(&self) -> Result<Self, AllocError> {
        Ok(self.duplicate())
    }
}

impl<'a, K: Debug, V: Debug, A: Allocator> Debug for Iter<'a, K, V, A> {
    /// Formats the remaining entries as a list of pairs.
    fn fmt<W: fmt::Write>(&self, f: &mut Formatter<W>) -> fmt::Result {
        f.debug_list().entries(self.duplicate()).finish()
    }
}

impl<'a, K: Debug, V, A: Allocator> Debug for Keys<'a, K, V, A> {
    /// Formats the remaining keys as a list.
    fn fmt<W: fmt::Write>(&self, f: &mut Formatter<W>) -> fmt::Result {
        let keys = Keys {
            rest: self.rest.duplicate(),
        };
        f.debug_list().entries(keys).finish()
    }
}

impl<'a, K, V: Debug, A: Allocator> Debug for Values<'a, K, V, A> {
    /// Formats the remaining values as a list.
    fn fmt<W: fmt::Write>(&self, f: &mut Formatter<W>) -> fmt::Result {
        let values = Values {
            rest: self.rest.duplicate(),
        };
        f.debug_list().entries(values).finish()
    }
}

impl<'a, K: Debug, V: Debug, A: Allocator> Debug for Range<'a, K, V, A> {
    /// Formats the remaining entries as a list of pairs.
    fn fmt<W: fmt::Write>(&self, f: &mut Formatter<W>) -> fmt::Result {
        f.debug_list().entries(self.duplicate()).finish()
    }
}
