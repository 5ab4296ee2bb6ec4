//! Runs of elements that are moved from one vector to another.
ghost use Rattle.std.specs.Prelude.{◌≡◌, ◌-◌, ◌<◌, ◌≤◌, [], ◌++◌, take, drop, IfOk, IfErr, OnOk, OnErr, IsOk, length, if◌then◌else◌, ◌==◌};
ghost use Rattle.std.specs.Mem.{type_size};
ghost use Rattle.aa_raw.specs.Errors.{ClonesFail};
ghost use Rattle.aa_vec.specs.Vector.{len, HasRoom, LacksRoom, Becomes, run_count, with_room};
ghost use Rattle.aa_vec.specs.Split.{Splits};

use crate::vec::Vec;
use aa_raw::collections::TryReserveError;
use aa_raw::counter::Counter;
use std::alloc::Allocator;
use std::mem::replace;

impl<T, A: Allocator> Vec<T, A> {
    /// Moves all elements of `other` to the end of this vector, leaving `other` empty.
    ///
    /// `other` keeps its capacity. Allocates only if the elements do not fit, and then grows by the
    /// growth policy.
    ///
    /// # Errors
    /// Returns the same errors as `try_reserve`. Neither vector is changed.
    #[inline]
    #[tactic(auto, using(crate::proofs::Becoming::becomes, crate::proofs::Becoming::became))]
    pub fn append(&mut self, other: &mut Self) -> Result<(), TryReserveError>
        // Elements that fit are moved without an error.
        ensures fits { HasRoom self.old (len other.old) → IsOk result }
        ensures appended { let moved = length other.old.items in
            let roomy = with_room (type_size T.row) self.old (length self.old.items) moved in
            OnOk result (Becomes roomy (self.old.items ++ other.old.items) moved (run_count moved)
            self.new) }
        ensures emptied { OnOk result (Becomes other.old [] 0 0 other.new) }

        // An error changes neither vector.
        ensures error { IfErr result (LacksRoom (type_size T.row) self.old (len other.old)) }
        ensures unchanged { OnErr result (self.new ≡ self.old) }
        ensures other_unchanged { OnErr result (other.new ≡ other.old) }
    {
        if let Err(error) = self.try_reserve(other.len()) {
            return Err(error);
        }
        self.take_from(other, 0);
        Ok(())
    }

    // Moves the elements of `other` from the index `at` on to the end of this vector. They fit.
    #[inline]
    #[tactic(auto, using(aa_raw::proofs::Calls::in_runs, crate::proofs::Joining::transferred, crate::proofs::Becoming::becomes, crate::proofs::Tidy::few_at_end))]
    pub(crate) fn take_from(&mut self, other: &mut Self, at: usize)
        requires within { at ≤ len other.old }
        requires room { HasRoom self.old (len other.old - at) }
        ensures filled { let moved = len other.old - at in
            let items = self.old.items ++ drop at other.old.items in
            Becomes self.old items moved (run_count moved) self.new }
        ensures spare { self.new.spare ≡ drop (len other.old - at) self.old.spare }
        ensures remaining { Becomes other.old (take at other.old.items) 0 0 other.new }
    {
        let len = self.len;
        let count = other.len - at;
        self.block.prove_capacity_bounds();
        self.block.transfer(len, &mut other.block, at, count);
        other.len = at;
        self.len = len + count;
    }

    /// Splits the vector at `at`, and returns the elements from there on as a new vector.
    ///
    /// `at` is at most the length. The new vector is over a clone of the allocator, with capacity
    /// for exactly its elements. `split_off(0)` returns the old block; this vector then gets a new
    /// block of the same capacity. Allocates if the new block has any places and the elements are
    /// not zero-sized.
    ///
    /// # Errors
    /// Returns `CapacityOverflow`, or `AllocError` with the requested capacity, also if the clone
    /// of the allocator fails. The vector is unchanged.
    #[tactic(auto, using(aa_raw::proofs::Calls::with_room))]
    pub fn split_off(&mut self, at: usize) -> Result<Self, TryReserveError>
    where
        A: Clone,
        requires { at ≤ len self.old }

        // Success leaves the two parts, of which one is over a clone of the allocator.
        ensures split { IfOk result (λ v. Splits (type_size T.row) self.old at self.new v) }
        ensures tail_alloc { IfOk result (λ v. 0 < at → A.is_clone self.old.alloc v.alloc) }
        ensures head_alloc { OnOk result (at ≡ 0 → A.is_clone self.old.alloc self.new.alloc) }

        // An error changes nothing.
        ensures error { let room = if at == 0 then self.old.capacity else len self.old - at in
            let sure = A.is_infallible self.old.alloc in
            IfErr result (ClonesFail sure room (type_size T.row)) }
        ensures unchanged { OnErr result (self.new ≡ self.old) }
    {
        let len = self.len;
        if at == 0 {
            let block = self.block_like(self.block.capacity())?;
            self.len = 0;
            return Ok(Vec {
                block: replace(&mut self.block, block),
                len,
                apart: replace(&mut self.apart, Counter::zero()),
                settled: replace(&mut self.settled, Counter::zero()),
            });
        }
        let mut tail = self.empty_like(len - at)?;
        tail.take_from(self, at);
        Ok(tail)
    }
}
