//! Insertion and removal at a position.
ghost use Rattle.std.specs.Prelude.{◌≡◌, ◌+◌, ◌-◌, ◌<◌, ◌≤◌, [], ◌∷◌, ◌++◌, length, take, insert, remove, swap_remove, slice_get, slice_set, get_or, Some, None, IfErr, OnOk, OnErr, IsOk, if◌then◌else◌, ◌==◌};
ghost use Rattle.std.specs.Mem.{type_size};
ghost use Rattle.aa_raw.specs.Block.{with_places};
ghost use Rattle.aa_raw.specs.Places.{IsFilled};
ghost use Rattle.aa_vec.specs.Vector.{len, HasRoom, LacksRoom, Becomes, run_count, with_room};

use crate::vec::Vec;
use aa_raw::collections::Refused;
use aa_raw::raw_vec::RawVec;
use std::alloc::Allocator;

impl<T, A: Allocator> Vec<T, A> {
    /// Appends `value` if there is spare capacity.
    ///
    /// Does not allocate.
    ///
    /// # Errors
    /// If the vector is full, `value` is returned in the error. The vector is unchanged.
    #[inline]
    #[tactic(auto, using(aa_raw::proofs::Calls::at_ends, crate::proofs::Becoming::becomes, crate::proofs::Tidy::few_at_end))]
    pub fn push_within_capacity(&mut self, value: T) -> Result<(), T>
        ensures fits { OnOk result (len self.old < self.old.capacity) }
        ensures pushed { OnOk result
            (Becomes self.old (self.old.items ++ value ∷ []) 1 1 self.new) }
        ensures full { OnErr result (len self.old ≡ self.old.capacity) }
        ensures returned { IfErr result (λ x. x ≡ value) }
        ensures unchanged { OnErr result (self.new ≡ self.old) }
    {
        let len = self.len;
        if len == self.block.capacity() {
            return Err(value);
        }
        self.block.put(len, value);
        self.len = len + 1;
        Ok(())
    }

    /// Inserts `element` at `index`, moving all elements from there on up by one.
    ///
    /// `index` is at most the length. Allocates only if the vector is full, and then grows by its
    /// growth policy. Writes `len - index + 1` elements, besides those that a growth moves.
    ///
    /// # Errors
    /// Returns the same errors as `push`. The vector is unchanged and `element` is returned in the
    /// error.
    #[tactic(auto, using(aa_raw::proofs::Positions::at_positions, crate::proofs::Room::placed_in_room))]
    pub fn insert(&mut self, index: usize, element: T) -> Result<(), Refused<T>>
        requires { index ≤ length self.old.items }

        // An element that fits is inserted without an error.
        ensures fits { HasRoom self.old 1 → IsOk result }
        ensures inserted { let moved = length self.old.items - index in
            let roomy = with_room (type_size T.row) self.old (length self.old.items) 1 in
            OnOk result (Becomes roomy (insert self.old.items index element) (moved + 1)
            (run_count moved + 1) self.new) }

        // An error returns the element, and changes nothing.
        ensures error { IfErr result (λ r. LacksRoom (type_size T.row) self.old 1 r.error) }
        ensures returned { IfErr result (λ r. r.source ≡ element) }
        ensures unchanged { OnErr result (self.new ≡ self.old) }
    {
        let len = self.len;
        if let Err(error) = self.block.reserve_for_push(len) {
            return Err(Refused {
                source: element,
                error,
            });
        }
        self.block.move_run(index, index + 1, len - index);
        self.block.put(index, element);
        self.len = len + 1;
        Ok(())
    }

    /// Removes the element at `index` and returns it, moving all elements after it down by one.
    ///
    /// `index` is below the length. Moves `len - index - 1` elements. Does not allocate, and does
    /// not change the capacity.
    #[tactic(auto, using(aa_raw::proofs::Positions::at_positions, crate::proofs::Becoming::becomes))]
    pub fn remove(&mut self, index: usize) -> T
        requires { index < len self.old }
        ensures value { slice_get self.old.items index ≡ Some result }
        ensures removed { let moved = length self.old.items - index - 1 in
            Becomes self.old (remove self.old.items index) moved (run_count moved) self.new }
        ensures room { HasRoom self.new 1 }
    {
        let last = self.len - 1;
        let value = self.block.take(index);
        self.block.move_run(index + 1, index, last - index);
        self.len = last;
        value
    }

    /// Removes the element at `index` and returns it, replacing it with the last element.
    ///
    /// `index` is below the length. Moves at most one element. Does not allocate, and does not
    /// change the capacity.
    #[tactic(auto, using(aa_raw::proofs::Positions::at_positions, crate::proofs::Becoming::becomes))]
    pub fn swap_remove(&mut self, index: usize) -> T
        requires { index < len self.old }
        ensures value { slice_get self.old.items index ≡ Some result }
        ensures removed { let moved = run_count (length self.old.items - index - 1) in
            Becomes self.old (swap_remove self.old.items index result) moved moved self.new }
        ensures room { HasRoom self.new 1 }
    {
        let last = self.len - 1;
        if index == last {
            let value = take_slow(&mut self.block, index);
            self.len = last;
            return value;
        }
        let value = self.block.take(index);
        self.block.move_one(last, index);
        self.len = last;
        value
    }

    /// Keeps the first `len` elements, and drops the others.
    ///
    /// Does nothing if there are no more than `len`. Does not allocate, and does not change the
    /// capacity.
    #[tactic(auto, using(aa_raw::proofs::Calls::in_runs, crate::proofs::Becoming::becomes, crate::proofs::Tidy::few_at_end))]
    pub fn truncate(&mut self, len: usize)
    where
        T: Drop,
        ensures truncated { Becomes self.old (take len self.old.items) 0 0 self.new }
    {
        if self.len <= len {
            return;
        }
        let count = self.len - len;
        self.len = len;
        self.block.drop_run(len, count);
    }

    /// Removes and drops all elements.
    ///
    /// Does not allocate, and does not change the capacity.
    pub fn clear(&mut self)
    where
        T: Drop,
        ensures cleared { Becomes self.old [] 0 0 self.new }
    {
        self.truncate(0);
    }
}

// `take`, out of line, so that the code after it is for the common case.
#[cold]
#[inline(never)]
fn take_slow<T, A: Allocator>(block: &mut RawVec<T, A>, at: usize) -> T
    requires { IsFilled block.old.places at }
    ensures value { get_or block.old.places at None ≡ Some result }
    ensures after { block.new ≡ with_places block.old (slice_set block.old.places at None) }
{
    block.take(at)
}
