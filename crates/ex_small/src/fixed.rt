//! A vector of fixed capacity, built on a block: it allocates when it is made, and never again.
ghost use Rattle.std.specs.Prelude.{◌≡◌, ◌<◌, [], ◌∷◌, ◌++◌, length, IfOk, IfErr, OnOk, IsOk, MatchOption};
ghost use Rattle.std.specs.Mem.{type_size};
ghost use Rattle.allocator_api2.specs.Growth.{new_capacity};
ghost use Rattle.allocator_api2.specs.Errors.{AllocationFails};
ghost use Rattle.ex_small.specs.Held.{empty, with_items};

use allocator_api2::collections::TryReserveError;
use allocator_api2::raw_vec::RawVec;
use std::alloc::Allocator;
use std::marker::Model;

/// A vector with the capacity that it was made with.
///
/// Contracts see the values and the capacity.
pub struct Fixed<T, A: Allocator> {
    block: RawVec<T, A>,
    len: usize,
}

impl<T, A: Allocator> Model for Fixed<T, A> {
    ghost use Rattle.ex_small.specs.Held.{Held};

    ghost Value = { Held T };

    ghost use Rattle.ex_small.specs.FixedInner.{view_of, IsFront};

    ghost view = { view_of };

    ghost invariant = { IsFront };
}

#[tactic(auto, using(allocator_api2::proofs::Blocks::at_ends))]
impl<T, A: Allocator> Fixed<T, A> {
    /// Returns an empty vector with capacity for `capacity` values.
    ///
    /// The capacity for zero-sized values is `usize::MAX`. This is the only call that allocates.
    ///
    /// # Errors
    /// `CapacityOverflow`, or `AllocError` with `capacity`, if the allocation fails.
    #[tactic(auto, using(allocator_api2::proofs::Blocks::with_room))]
    pub fn with_capacity_in(capacity: usize, alloc: A) -> Result<Self, TryReserveError>
        ensures made { IfOk result (λ v. v ≡ empty (new_capacity (type_size T.row) capacity)) }
        ensures error { IfErr result (AllocationFails capacity (type_size T.row)) }
    {
        let block = RawVec::with_capacity_in(capacity, alloc)?;
        Ok(Fixed { block, len: 0 })
    }

    /// Returns the number of values.
    pub fn len(&self) -> usize
        ensures { result ≡ length self.now.items }
    {
        self.len
    }

    /// Returns the number of values that the vector can hold.
    pub fn capacity(&self) -> usize
        ensures { result ≡ self.now.capacity }
    {
        self.block.capacity()
    }

    /// Returns the values as a slice.
    #[tactic(auto, using(allocator_api2::proofs::Blocks::shown))]
    pub fn as_slice(&self) -> &[T]
        ensures { result.now ≡ self.now.items }
    {
        self.block.slice(0, self.len)
    }

    /// Appends `item`.
    ///
    /// Does not allocate.
    ///
    /// # Errors
    /// Returns `item` if the vector is full. The vector is unchanged.
    pub fn push(&mut self, item: T) -> Result<(), T>
        ensures fits { length self.old.items < self.old.capacity → IsOk result }
        ensures pushed { OnOk result
            (self.new ≡ with_items self.old (self.old.items ++ item ∷ [])) }
        ensures full { IfErr result (λ x. (length self.old.items ≡ self.old.capacity) × (x ≡ item)
            × (self.new ≡ self.old)) }
    {
        if self.len == self.block.capacity() {
            return Err(item);
        }
        self.block.put(self.len, item);
        self.len += 1;
        Ok(())
    }

    /// Removes the last value and returns it, or returns `None` if the vector is empty.
    pub fn pop(&mut self) -> Option<T>
        ensures taken { MatchOption result ((self.old.items ≡ []) × (self.new.items ≡ []))
            (λ x. self.old.items ≡ self.new.items ++ x ∷ []) }
        ensures kept { self.new ≡ with_items self.old self.new.items }
    {
        if self.len == 0 {
            return None;
        }
        let last = self.len - 1;
        let item = self.block.take(last);
        self.len = last;
        Some(item)
    }
}

#[tactic(auto, using(allocator_api2::proofs::Blocks::in_runs, allocator_api2::proofs::Blocks::emptied))]
impl<T: Drop, A: Allocator> Drop for Fixed<T, A> {
    /// Drops the values in order, and deallocates the block.
    fn drop(self) {
        let Fixed { mut block, len } = self;
        block.drop_run(0, len);
        block.forget_from(len);
    }
}
