//! A ring that is split in two.
ghost use Rattle.std.specs.Prelude.{◌≡◌, ◌-◌, ◌≤◌, ◌++◌, length, take, drop, IfErr, IfOk, OnErr, OnOk};
ghost use Rattle.std.specs.Mem.{type_size};
ghost use Rattle.allocator_api2.specs.Errors.{ClonesFail};
ghost use Rattle.aa_ring.specs.Ringed.{empty, with_written, HasRoom};

use crate::ring::Ring;
use allocator_api2::collections::{TryReserveError, TryReserveErrorKind};
use allocator_api2::raw_vec::RawVec;
use std::alloc::Allocator;

impl<T, A: Allocator> Ring<T, A> {
    /// Splits the ring at `at`, and returns the items from there on as a new ring.
    ///
    /// `at` is at most the length. The new ring is over a clone of the allocator, with capacity for
    /// exactly its items and the growth policy of this one, whose capacity does not change. Moves
    /// each of these items once. Allocates once, but not for no items or for zero-sized ones.
    ///
    /// # Errors
    /// `AllocError` with the number of these items if the allocation or the clone of the allocator
    /// fails. The ring is unchanged.
    #[tactic(auto, using(crate::proofs::Splitting::split))]
    pub fn split_off(&mut self, at: usize) -> Result<Self, TryReserveError>
    where
        A: Clone,
        requires { at ≤ length self.old.items }

        // Success leaves the two parts.
        ensures head { OnOk result (self.new ≡ with_written self.old (take at self.old.items) 0) }
        ensures tail { let n = length self.old.items - at in
            IfOk result (λ r. r ≡ with_written (empty (type_size T.row) n self.old.growth r.alloc)
            (drop at self.old.items) n) }
        ensures alloc { IfOk result (λ r. A.is_clone self.old.alloc r.alloc) }

        // An error changes nothing.
        ensures error { let sure = A.is_infallible self.old.alloc in
            IfErr result (ClonesFail sure (length self.old.items - at) (type_size T.row)) }
        ensures unchanged { OnErr result (self.new ≡ self.old) }
    {
        let mut tail = self.empty_like(self.len() - at)?;
        self.move_last(at, &mut tail);
        Ok(tail)
    }

    // Moves the items from `at` on to the front of `tail`, in which they must fit.
    #[tactic(auto, using(crate::proofs::Splitting::split))]
    fn move_last(&mut self, at: usize, tail: &mut Self)
        requires within { at ≤ length self.old.items }
        requires room { HasRoom tail.old (length self.old.items - at) }
        ensures left { self.new ≡ with_written self.old (take at self.old.items) 0 }
        ensures moved { let n = length self.old.items - at in
            tail.new ≡ with_written tail.old (drop at self.old.items ++ tail.old.items) n }
    {
        let mut end = self.len();
        'each: while end > at {
            match self.pop_back() {
                Some(item) => tail.put_front(item),
                None => unreachable!(),
            }
            end -= 1;
        }
    }

    // Returns an empty ring over a clone of the allocator, with capacity for exactly `capacity`
    // items and the growth policy of this one.
    #[tactic(auto, using(allocator_api2::proofs::Blocks::with_room))]
    pub(super) fn empty_like(&self, capacity: usize) -> Result<Self, TryReserveError>
    where
        A: Clone,
        ensures made { IfOk result
            (λ r. r ≡ empty (type_size T.row) capacity self.now.growth r.alloc) }
        ensures alloc { IfOk result (λ r. A.is_clone self.now.alloc r.alloc) }
        ensures error { IfErr result
            (ClonesFail (A.is_infallible self.now.alloc) capacity (type_size T.row)) }
    {
        let Ok(alloc) = self.block.allocator().clone() else {
            return Err(TryReserveErrorKind::AllocError { capacity }.into());
        };
        let growth = self.block.growth();
        let block = RawVec::with_capacity_and_growth_in(capacity, growth, alloc)?;
        Ok(Ring::from_block(block))
    }
}
