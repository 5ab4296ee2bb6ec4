//! Small vectors that collections and iterators make: by the traits of std.
ghost use Rattle.std.specs.Prelude.{◌≡◌, ◌≤◌, ◌++◌, List, [], length, map, All, IfOk, IsOk, Ok};
ghost use Rattle.std.specs.Mem.{type_size};
ghost use Rattle.std.specs.Iterator.{Drains, ExtendsWithItems, IsFiniteIterable, size};
ghost use Rattle.aa_inline.specs.Extending.{IsMadeOf};
ghost use Rattle.aa_inline.specs.Inlined.{in_place, HasRoom};

use crate::inline::InlineVec;
use std::alloc::{AllocError, Allocator};
use std::default::{Emptied, MadeWith};
use std::iter::{Extend, FromIterator};

impl<T: MadeWith<A> + Drop, A: Allocator + Copy, const N: usize> FromIterator<T>
    for InlineVec<T, A, N> {
    type Alloc = A;

    ghost from_iter_gives = { λ xs s. s.items ≡ xs };

    /// Returns the same as `from_iter_in`, whose error also has the number.
    fn from_iter<U: IntoIterator<Item = T>>(alloc: A, iter: U) -> Result<Self, AllocError>
        requires finite { IsFiniteIterable U.into_iter_gives U.IntoIter.can_next
            U.IntoIter.remaining iter }
        ensures collected { IfOk result (λ s. (it : U.IntoIter) × (xs : List T)
            × U.into_iter_gives iter it × Drains U.IntoIter.next_gives it xs × (s.items ≡ xs)) }
        ensures fits { ((it : U.IntoIter) → U.into_iter_gives iter it
            → size (U.IntoIter.remaining it) ≤ N) → IsOk result }
    {
        match InlineVec::from_iter_in(iter, alloc) {
            Ok(small) => Ok(small),
            Err(_) => Err(AllocError),
        }
    }
}

impl<T: MadeWith<A> + Drop, A: Allocator + Copy, const N: usize> Extend<T> for InlineVec<T, A, N> {
    ghost extend_gives = { λ s xs t. t.items ≡ s.items ++ xs };

    /// Appends the items as the inherent `extend` does, whose error also has the number.
    fn extend<U: IntoIterator<Item = T>>(&mut self, iter: U) -> Result<(), AllocError>
        requires finite { IsFiniteIterable U.into_iter_gives U.IntoIter.can_next
            U.IntoIter.remaining iter }
        ensures extended { ExtendsWithItems U.into_iter_gives U.IntoIter.next_gives
            (λ s xs t. t.items ≡ s.items ++ xs) iter self.old self.new result }
        ensures fits { ((it : U.IntoIter) → U.into_iter_gives iter it
            → HasRoom N self.old (size (U.IntoIter.remaining it))) → IsOk result }
    {
        match InlineVec::extend(self, iter) {
            Ok(()) => Ok(()),
            Err(_) => Err(AllocError),
        }
    }
}

impl<T: MadeWith<A> + Drop, A: Allocator + Copy, const N: usize> MadeWith<A>
    for InlineVec<T, A, N> {
    ghost is_made_with = { λ s. s ≡ in_place [] s.alloc };

    /// Returns the same as `new_in`.
    fn made_with(alloc: A) -> Self
        ensures made { result ≡ in_place [] alloc }
        ensures empty { result ≡ in_place [] result.alloc }
    {
        InlineVec::new_in(alloc)
    }
}

impl<T: MadeWith<A> + Drop, A: Allocator + Copy, const N: usize> Emptied for InlineVec<T, A, N> {
    ghost is_emptied = { λ s. s ≡ in_place [] s.alloc };

    /// Returns an empty vector over the allocator of `like`.
    ///
    /// Does not allocate.
    fn emptied(like: &Self) -> Result<Self, AllocError>
        ensures made { result ≡ Ok (in_place [] like.now.alloc) }
        ensures empty { IfOk result (λ s. s ≡ in_place [] s.alloc) }
    {
        Ok(InlineVec::new_in(*like.allocator()))
    }
}

impl<T: MadeWith<A> + Clone, A: Allocator + Copy, const N: usize> Clone for InlineVec<T, A, N> {
    ghost is_clone = { λ s copy. IsMadeOf T.is_clone (type_size T.row) N s.items s.alloc copy };

    ghost is_infallible = { λ s. (length s.items ≤ N) × All T.is_infallible s.items };

    /// Returns the same as the inherent `clone`, whose error also has the number.
    fn clone(&self) -> Result<Self, AllocError> {
        match InlineVec::clone(self) {
            Ok(copy) => Ok(copy),
            Err(_) => Err(AllocError),
        }
    }
}

impl<'a, T: MadeWith<A> + Copy + 'a, A: Allocator + Copy, const N: usize> Extend<&'a T>
    for InlineVec<T, A, N> {
    ghost extend_gives = { λ s rs t. t.items ≡ s.items ++ map (λ r. r.now) rs };

    /// Appends copies of what the items of `iter` refer to.
    ///
    /// Allocates and fails as for items by value.
    fn extend<U: IntoIterator<Item = &'a T>>(&mut self, iter: U) -> Result<(), AllocError>
        requires finite { IsFiniteIterable U.into_iter_gives U.IntoIter.can_next
            U.IntoIter.remaining iter }
        ensures extended { ExtendsWithItems U.into_iter_gives U.IntoIter.next_gives
            (λ s rs t. t.items ≡ s.items ++ map (λ r. r.now) rs) iter self.old self.new result }
        ensures fits { ((it : U.IntoIter) → U.into_iter_gives iter it
            → HasRoom N self.old (size (U.IntoIter.remaining it))) → IsOk result }
    {
        let items = iter.into_iter();
        let bound = items.size_hint().0;
        if let Err(_) = self.reserve(bound) {
            return Err(AllocError);
        }
        'each: for item in items {
            if let Err(_) = self.push(*item) {
                return Err(AllocError);
            }
        }
        Ok(())
    }
}
