//! Empty heaps by traits, heaps of the items of an iterator, and debug output.
ghost use Rattle.std.specs.Prelude.{◌≡◌, ◌≤◌, List, map, IfOk, IsOk};
ghost use Rattle.std.specs.Fmt.{debug_list};
ghost use Rattle.std.specs.Mem.{type_size};
ghost use Rattle.std.specs.Iterator.{Drains, ExtendsWithItems, IsFiniteIterable, size};
ghost use Rattle.std_alloc.specs.BinaryHeap.{IsHeap};
ghost use Rattle.allocator_api2.specs.Extend.{HasCollected, HasExtended};
ghost use Rattle.allocator_api2.specs.Growth.{new_capacity};
ghost use Rattle.allocator_api2.specs.Vector.{Vector, HasRoom, IsNew};
ghost use Rattle.aa_heap.specs.Heaps.{Reorders, CollectsInto, ExtendsTo};

use crate::heap::Heap;
use crate::order;
use allocator_api2::vec::Vec;
use std::alloc::{AllocError, Allocator};
use std::default::{Emptied, MadeWith};
use std::fmt;
use std::fmt::{Debug, Formatter};
use std::iter::{Extend, FromIterator};

impl<T: Ord, A: Allocator> MadeWith<A> for Heap<T, A> {
    ghost is_made_with = { λ h. IsNew (type_size T.row) 0 h.alloc h };

    /// Returns an empty heap over `alloc`.
    ///
    /// Does not allocate.
    fn made_with(alloc: A) -> Self {
        Heap::new_in(alloc)
    }
}

impl<T: Ord, A: Allocator + Clone> Emptied for Heap<T, A> {
    ghost is_emptied = { λ h. IsNew (type_size T.row) 0 h.alloc h };

    /// Returns an empty heap over a clone of the allocator of `like`.
    fn emptied(like: &Self) -> Result<Self, AllocError>
        ensures made { IfOk result (λ h. IsNew (type_size T.row) 0 h.alloc h) }
        ensures fits { A.is_infallible like.now.alloc → IsOk result }
    {
        Ok(Heap::new_in(like.allocator().clone()?))
    }
}

impl<T: Ord + Drop, A: Allocator> FromIterator<T> for Heap<T, A> {
    type Alloc = A;

    ghost from_iter_gives = { CollectsInto T.cmp };

    /// Returns the items of `iter` as `from_iter_in` does, but its error has no number.
    fn from_iter<I: IntoIterator<Item = T>>(alloc: A, iter: I) -> Result<Self, AllocError>
        requires finite { IsFiniteIterable I.into_iter_gives I.IntoIter.can_next
            I.IntoIter.remaining iter }
        ensures collected { IfOk result (λ h. (it : I.IntoIter) × (xs : List T)
            × I.into_iter_gives iter it × Drains I.IntoIter.next_gives it xs
            × CollectsInto T.cmp xs h) }
        ensures fits { ((it : I.IntoIter) → I.into_iter_gives iter it
            → size (I.IntoIter.remaining it) ≤ new_capacity (type_size T.row) 0) → IsOk result }
    {
        match <Vec<T, A> as FromIterator<T>>::from_iter(alloc, iter) {
            Ok(vec) => Ok(Heap::from_vec(vec)),
            Err(error) => Err(error),
        }
    }
}

impl<T: Ord + Drop, A: Allocator> Extend<T> for Heap<T, A> {
    ghost extend_gives = { ExtendsTo T.cmp };

    /// Adds the items of `iter` as `Heap::extend` does, but its error has no number.
    fn extend<I: IntoIterator<Item = T>>(&mut self, iter: I) -> Result<(), AllocError>
        requires finite { IsFiniteIterable I.into_iter_gives I.IntoIter.can_next
            I.IntoIter.remaining iter }
        ensures extended { ExtendsWithItems I.into_iter_gives I.IntoIter.next_gives
            (ExtendsTo T.cmp) iter self.old self.new result }
        ensures fits { ((it : I.IntoIter) → I.into_iter_gives iter it
            → HasRoom self.old (size (I.IntoIter.remaining it))) → IsOk result }
    {
        let start = self.vec.len();
        let added = <Vec<T, A> as Extend<T>>::extend(&mut self.vec, iter);
        order::take_in(&mut self.vec, start);
        added
    }
}

impl<'a, T: Ord + Copy + 'a, A: Allocator> Extend<&'a T> for Heap<T, A> {
    ghost extend_gives = { λ h xs after. ExtendsTo T.cmp h (map (λ x. x.now) xs) after };

    /// Adds a copy of each item of `iter`, as `Heap::extend` adds items.
    fn extend<I: IntoIterator<Item = &'a T>>(&mut self, iter: I) -> Result<(), AllocError>
        requires finite { IsFiniteIterable I.into_iter_gives I.IntoIter.can_next
            I.IntoIter.remaining iter }
        ensures extended { ExtendsWithItems I.into_iter_gives I.IntoIter.next_gives
            (λ h xs after. ExtendsTo T.cmp h (map (λ x. x.now) xs) after)
            iter self.old self.new result }
        ensures fits { ((it : I.IntoIter) → I.into_iter_gives iter it
            → HasRoom self.old (size (I.IntoIter.remaining it))) → IsOk result }
    {
        let start = self.vec.len();
        let copied = <Vec<T, A> as Extend<&'a T>>::extend(&mut self.vec, iter);
        order::take_in(&mut self.vec, start);
        copied
    }
}

impl<T: Ord + Debug, A: Allocator> Debug for Heap<T, A> {
    ghost debug_output = { λ h. debug_list T.debug_output h.items };

    /// Formats the items, in heap order, as a slice of them is formatted.
    fn fmt<W: fmt::Write>(&self, f: &mut Formatter<W>) -> fmt::Result {
        self.vec.fmt(f)
    }
}
