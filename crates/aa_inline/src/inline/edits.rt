//! Many items inserted in the middle, or removed from it.
ghost use Rattle.std.specs.Prelude.{◌≡◌, ◌-◌, ◌≤◌, List, [], ◌++◌, length, take, drop, reverse, IfErr, IfOk, IsOk, OnErr, OnOk};
ghost use Rattle.std.specs.List.{slice_range};
ghost use Rattle.std.specs.Mem.{type_size};
ghost use Rattle.std.specs.Iterator.{IsFiniteIterable, Drains, size};
ghost use Rattle.allocator_api2.specs.Extend.{LowerAtMost};
ghost use Rattle.aa_inline.specs.Extending.{ExtendsByAll, ExtendFails, with_tail_at};
ghost use Rattle.aa_inline.specs.Inlined.{Inlined, in_place, with_items, with_room, with_written, HasRoom, LacksRoom};

use crate::inline::InlineVec;
use allocator_api2::collections::TryReserveError;
use std::alloc::Allocator;
use std::default::MadeWith;

impl<T: MadeWith<A> + Drop, A: Allocator + Copy, const N: usize> InlineVec<T, A, N> {
    /// Inserts the items of `iter`, which must end, at `index`, in order.
    ///
    /// Allocates as `extend` does: not at all if the remaining items of `iter` fit in the capacity.
    ///
    /// # Errors
    /// `CapacityOverflow` or `AllocError`, as `extend` returns them. The items that `extend` would
    /// keep are inserted at `index`.
    #[tactic(auto, using(crate::proofs::Bringing::ranging))]
    pub fn insert_many<U: IntoIterator<Item = T>>(
        &mut self,
        index: usize,
        iter: U,
    ) -> Result<(), TryReserveError>
        // The index is at most the length. The iterator that `iter` becomes can be called, and is
        // finite.
        requires within { index ≤ length self.old.items }
        requires finite { IsFiniteIterable U.into_iter_gives U.IntoIter.can_next
            U.IntoIter.remaining iter }

        // Success inserts all items. If they fit, the call succeeds.
        ensures items { OnOk result ((it : U.IntoIter) × U.into_iter_gives iter it
            × (xs : List T) × Drains U.IntoIter.next_gives it xs
            × (self.new.items ≡ take index self.old.items ++ (xs ++ drop index self.old.items))) }
        ensures fits { (it : U.IntoIter) × U.into_iter_gives iter it
            × (HasRoom N self.old (size (U.IntoIter.remaining it)) → IsOk result) }
        ensures inserted { OnOk result ((s : Inlined T A)
            × ((it : U.IntoIter) × U.into_iter_gives iter it
            × ExtendsByAll U.IntoIter.next_gives (LowerAtMost U.IntoIter.remaining)
            (type_size T.row) N it self.old s)
            × (self.new ≡ with_items s (with_tail_at index (length self.old.items) s.items))) }

        // Failure inserts the items that were taken before the error.
        ensures failed { IfErr result (λ e. (s : Inlined T A)
            × ((it : U.IntoIter) × U.into_iter_gives iter it
            × ExtendFails U.IntoIter.next_gives (LowerAtMost U.IntoIter.remaining)
            (type_size T.row) N it self.old e s)
            × (self.new ≡ with_items s (with_tail_at index (length self.old.items) s.items))) }
    {
        let len = self.len();
        let done = self.extend(iter);
        self.move_tail(index, len);
        done
    }

    /// Removes the items of `start..end` and returns them, in order, as a small vector of their
    /// own.
    ///
    /// The items after the range shift down. Allocates only if the range has more than `N` items.
    ///
    /// # Errors
    /// `CapacityOverflow`, or `AllocError` with at least the length of the range, if the allocation
    /// fails. The vector is unchanged.
    #[tactic(auto, using(crate::proofs::Bringing::ranging))]
    pub fn take_range(&mut self, start: usize, end: usize) -> Result<Self, TryReserveError>
        // The range is in the vector.
        requires { (start ≤ end) × (end ≤ length self.old.items) }

        // If at most `N` items are removed, the call succeeds.
        ensures fits { end - start ≤ N → IsOk result }

        // Success returns the items of the range, and keeps the others.
        ensures taken { let xs = slice_range self.old.items start end in
            let roomy = with_room (type_size T.row) N (in_place [] self.old.alloc) (end - start) in
            IfOk result (λ s. s ≡ with_written roomy xs (end - start)) }
        ensures remaining { OnOk result (self.new
            ≡ with_items self.old (take start self.old.items ++ drop end self.old.items)) }

        // Failure changes nothing.
        ensures error { IfErr result (LacksRoom (type_size T.row) N
            (in_place {T = T} [] self.old.alloc) (end - start)) }
        ensures unchanged { OnErr result (self.new ≡ self.old) }
    {
        let mut taken = InlineVec::new_in(*self.allocator());
        taken.reserve(end - start)?;
        self.move_tail(start, end);
        let rest = self.len() - (end - start);
        self.move_last(rest, &mut taken);
        taken.reverse_items();
        Ok(taken)
    }

    /// Splits the vector at `at`, which is at most the length, and returns the items from there on
    /// as a small vector of their own.
    ///
    /// The other items remain inline, or in the block. Allocates only if more than `N` items are
    /// split off.
    ///
    /// # Errors
    /// `CapacityOverflow`, or `AllocError` with at least the number of these items, if the
    /// allocation fails. The vector is unchanged.
    #[tactic(auto, using(crate::proofs::Bringing::splitting))]
    pub fn split_off(&mut self, at: usize) -> Result<Self, TryReserveError>
        requires { at ≤ length self.old.items }

        // If at most `N` items are split off, the call succeeds.
        ensures fits { length self.old.items - at ≤ N → IsOk result }

        // Success returns the items from `at` on, and keeps the others.
        ensures split { let n = length self.old.items - at in
            let roomy = with_room (type_size T.row) N (in_place [] self.old.alloc) n in
            IfOk result (λ s. s ≡ with_written roomy (drop at self.old.items) n) }
        ensures remaining { OnOk result (self.new ≡ with_items self.old (take at self.old.items)) }

        // Failure changes nothing.
        ensures error { IfErr result (LacksRoom (type_size T.row) N
            (in_place {T = T} [] self.old.alloc) (length self.old.items - at)) }
        ensures unchanged { OnErr result (self.new ≡ self.old) }
    {
        let len = self.len();
        self.take_range(at, len)
    }

    /// Moves all items of `other` to the end of this vector, and leaves `other` empty.
    ///
    /// Allocates only if the items do not fit, as `reserve` does. The capacity of `other` does not
    /// change.
    ///
    /// # Errors
    /// `CapacityOverflow` or `AllocError`, as `reserve` returns them. Both vectors are unchanged.
    pub fn append(&mut self, other: &mut Self) -> Result<(), TryReserveError>
        // If the items fit, the call succeeds.
        ensures fits { HasRoom N self.old (length other.old.items) → IsOk result }

        // Success moves all items.
        ensures moved { let n = length other.old.items in
            let roomy = with_room (type_size T.row) N self.old n in
            OnOk result (self.new ≡ with_written roomy (self.old.items ++ other.old.items) n) }
        ensures emptied { OnOk result (other.new ≡ with_items other.old []) }

        // Failure changes nothing.
        ensures error { IfErr result
            (LacksRoom (type_size T.row) N self.old (length other.old.items)) }
        ensures unchanged { OnErr result ((self.new ≡ self.old) × (other.new ≡ other.old)) }
    {
        self.reserve(other.len())?;
        other.reverse_items();
        self.take_reversed(other);
        Ok(())
    }

    // Moves all items of `other`, the last one first, to the end. They must fit.
    #[tactic(auto, using(crate::proofs::Bringing::moving))]
    fn take_reversed(&mut self, other: &mut Self)
        requires { HasRoom N self.old (length other.old.items) }
        ensures moved { let xs = other.old.items in
            self.new ≡ with_written self.old (self.old.items ++ reverse xs) (length xs) }
        ensures emptied { other.new ≡ with_items other.old [] }
    {
        'each: while let Some(item) = other.pop() {
            self.put_last(item);
        }
    }

    // Moves the items from `from` on before the one at `index`.
    #[tactic(auto, using(crate::proofs::Bringing::bringing))]
    pub(crate) fn move_tail(&mut self, index: usize, from: usize)
        requires { (index ≤ from) × (from ≤ length self.old.items) }
        ensures { self.new ≡ with_items self.old (with_tail_at index from self.old.items) }
    {
        move_tail(self.as_mut_slice(), index, from);
    }

    // Reverses the items.
    #[tactic(auto, using(crate::proofs::Bringing::bringing))]
    fn reverse_items(&mut self)
        ensures { self.new ≡ with_items self.old (reverse self.old.items) }
    {
        self.as_mut_slice().reverse();
    }

    // Moves all items after the first `rest`, the last one first, to the end of `to`.
    #[tactic(auto, using(crate::proofs::Bringing::moving))]
    fn move_last(&mut self, rest: usize, to: &mut Self)
        // The first `rest` items exist. The vector `to` is empty, and the other items fit in it.
        requires within { rest ≤ length self.old.items }
        requires empty { to.old.items ≡ [] }
        requires room { HasRoom N to.old (length self.old.items - rest) }

        // The first `rest` items are kept; the others are moved, in reverse order.
        ensures whole { self.old.items ≡ self.new.items ++ reverse to.new.items }
        ensures count { length self.new.items ≡ rest }
        ensures kept { self.new ≡ with_items self.old self.new.items }
        ensures moved { to.new ≡ with_written to.old to.new.items (length to.new.items) }
    {
        'each: while self.len() > rest {
            match self.pop() {
                Some(item) => to.put_last(item),
                None => unreachable!(),
            }
        }
    }
}

// Moves the items from `from` on before the one at `index`.
#[tactic(auto, using(crate::proofs::Bringing::bringing))]
fn move_tail<T>(items: &mut [T], index: usize, from: usize)
    requires { (index ≤ from) × (from ≤ length items.old) }
    ensures { items.new ≡ with_tail_at index from items.old }
{
    let (_front, back) = items.split_at_mut(index);
    back.rotate_left(from - index);
}
