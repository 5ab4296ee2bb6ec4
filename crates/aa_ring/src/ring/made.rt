//! Rings that are made of nothing, or of the items of an iterator.
ghost use Rattle.std.specs.Prelude.{◌≡◌, ◌≤◌, List, map, IfOk, IsOk};
ghost use Rattle.std.specs.Mem.{type_size};
ghost use Rattle.std.specs.Iterator.{Drains, ExtendsWithItems, IsFiniteIterable, size};
ghost use Rattle.allocator_api2.specs.Growth.{new_capacity};
ghost use Rattle.allocator_api2.specs.declared.raw_vec.Growth.TheVariants.{Doubling};
ghost use Rattle.aa_ring.specs.Extending.{HasExtended};
ghost use Rattle.aa_ring.specs.Ringed.{empty, HasRoom};

use crate::ring::Ring;
use std::alloc::{AllocError, Allocator};
use std::default::{Emptied, MadeWith};
use std::iter::{Extend, FromIterator};

impl<T, A: Allocator> MadeWith<A> for Ring<T, A> {
    ghost is_made_with = { λ r. r ≡ empty (type_size T.row) 0 Doubling r.alloc };

    /// Returns an empty ring over `alloc`.
    ///
    /// Does not allocate.
    fn made_with(alloc: A) -> Self {
        Ring::new_in(alloc)
    }
}

impl<T, A: Allocator + Clone> Emptied for Ring<T, A> {
    ghost is_emptied = { λ r. r ≡ empty (type_size T.row) 0 Doubling r.alloc };

    /// Returns an empty ring over a clone of the allocator of `like`.
    fn emptied(like: &Self) -> Result<Self, AllocError>
        ensures made { IfOk result
            (λ r. r ≡ empty (type_size T.row) 0 Doubling r.alloc) }
        ensures fits { A.is_infallible like.now.alloc → IsOk result }
    {
        Ok(Ring::new_in(like.allocator().clone()?))
    }
}

impl<T: Drop, A: Allocator> FromIterator<T> for Ring<T, A> {
    type Alloc = A;

    ghost from_iter_gives = { λ xs r. (a : A) × HasExtended (type_size T.row)
        (empty (type_size T.row) 0 Doubling a) xs r };

    /// Returns the items of `iter` as `from_iter_in` does, but its error has no number.
    fn from_iter<I: IntoIterator<Item = T>>(alloc: A, iter: I) -> Result<Self, AllocError>
        requires finite { IsFiniteIterable I.into_iter_gives I.IntoIter.can_next
            I.IntoIter.remaining iter }
        ensures collected { IfOk result (λ r. (it : I.IntoIter) × (xs : List T)
            × I.into_iter_gives iter it × Drains I.IntoIter.next_gives it xs × (a : A)
            × HasExtended (type_size T.row) (empty (type_size T.row) 0 Doubling a)
            xs r) }
        ensures fits { ((it : I.IntoIter) → I.into_iter_gives iter it
            → size (I.IntoIter.remaining it) ≤ new_capacity (type_size T.row) 0) → IsOk result }
    {
        match Ring::from_iter_in(iter, alloc) {
            Ok(ring) => Ok(ring),
            Err(_) => Err(AllocError),
        }
    }
}

impl<T: Drop, A: Allocator> Extend<T> for Ring<T, A> {
    ghost extend_gives = { HasExtended (type_size T.row) };

    /// Appends the items of `iter` as `Ring::extend` does, but its error has no number.
    fn extend<I: IntoIterator<Item = T>>(&mut self, iter: I) -> Result<(), AllocError>
        requires finite { IsFiniteIterable I.into_iter_gives I.IntoIter.can_next
            I.IntoIter.remaining iter }
        ensures extended { ExtendsWithItems I.into_iter_gives I.IntoIter.next_gives
            (HasExtended (type_size T.row)) iter self.old self.new result }
        ensures fits { ((it : I.IntoIter) → I.into_iter_gives iter it
            → HasRoom self.old (size (I.IntoIter.remaining it))) → IsOk result }
    {
        match Ring::extend(self, iter) {
            Ok(()) => Ok(()),
            Err(_) => Err(AllocError),
        }
    }
}

impl<'a, T: Copy + 'a, A: Allocator> Extend<&'a T> for Ring<T, A> {
    ghost extend_gives = { λ r xs after.
        HasExtended (type_size T.row) r (map (λ x. x.now) xs) after };

    /// Appends a copy of each item of `iter`, as `push_back` does.
    fn extend<I: IntoIterator<Item = &'a T>>(&mut self, iter: I) -> Result<(), AllocError>
        requires finite { IsFiniteIterable I.into_iter_gives I.IntoIter.can_next
            I.IntoIter.remaining iter }
        ensures extended { ExtendsWithItems I.into_iter_gives I.IntoIter.next_gives
            (λ r xs after. HasExtended (type_size T.row) r (map (λ x. x.now) xs) after)
            iter self.old self.new result }
        ensures fits { ((it : I.IntoIter) → I.into_iter_gives iter it
            → HasRoom self.old (size (I.IntoIter.remaining it))) → IsOk result }
    {
        'each: for item in iter {
            match self.push_back(*item) {
                Ok(()) => {}
                Err(_) => return Err(AllocError),
            }
        }
        Ok(())
    }
}
