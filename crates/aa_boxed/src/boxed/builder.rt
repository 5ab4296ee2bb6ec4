//! A builder of boxed slices: a block that is filled from its first place on.
ghost use Rattle.std.specs.Prelude.{◌≡◌, ◌≢◌, ◌+◌, ◌<◌, ◌≤◌, [], length, All, IfOk, IfErr, OnErr, OnOk, IsOk, if◌then◌else◌, ◌==◌};
ghost use Rattle.std.specs.Bool.{OnTrue, OnFalse};
ghost use Rattle.std.specs.List.{AllZip};
ghost use Rattle.std.specs.Mem.{type_size};
ghost use Rattle.aa_raw.specs.Growth.{amortized, min_capacity, usize_max};
ghost use Rattle.aa_raw.specs.Errors.{AllocationFails};
ghost use Rattle.aa_raw.specs.Room.{LacksRoom};
ghost use Rattle.aa_boxed.specs.Slice.{Building, empty_builder, with_appended, with_pushed, with_room, finished, shrunk};
ghost use Rattle.aa_boxed.specs.BoxedSliceInner.{building_of, IsFront};

use crate::boxed::slice::BoxedSlice;
use aa_raw::collections::{TryReserveError, TryReserveErrorKind};
use aa_raw::raw_vec::{Growth, RawVec};
use std::alloc::Allocator;
use std::marker::Model;

// The items so far, in the first places of a block. When dropped, drops them and deallocates the
// memory.
pub(crate) struct Builder<T, A: Allocator> {
    block: RawVec<T, A>,
    len: usize,
}

impl<T, A: Allocator> Model for Builder<T, A> {
    ghost Value = { Building T A };

    ghost view = { building_of };

    ghost invariant = { IsFront };
}

impl<T, A: Allocator> Builder<T, A> {
    // Returns a builder without items, in a block with capacity for exactly `capacity`, with the
    // growth policy `growth`.
    #[tactic(auto, using(aa_raw::proofs::Calls::at_ends, aa_raw::proofs::Beyond::emptied))]
    pub(crate) fn with_room(
        growth: Growth,
        capacity: usize,
        alloc: A,
    ) -> Result<Self, TryReserveError>
        ensures made { IfOk result
            (λ f. f ≡ empty_builder (type_size T.row) capacity growth alloc) }
        ensures error { IfErr result (AllocationFails capacity (type_size T.row)) }
    {
        let block = RawVec::with_capacity_and_growth_in(capacity, growth, alloc)?;
        Ok(Builder { block, len: 0 })
    }

    // Returns `true` if there is no spare capacity.
    #[tactic(auto, using(aa_raw::proofs::Calls::at_ends))]
    pub(crate) fn is_full(&self) -> bool
        ensures full { OnTrue result (length self.now.items ≡ self.now.capacity) }
        ensures free { OnFalse result (length self.now.items < self.now.capacity) }
    {
        self.len == self.block.capacity()
    }

    // Appends `item`.
    #[tactic(auto, using(aa_raw::proofs::Calls::at_ends, aa_raw::proofs::Beyond::grown_at_end))]
    pub(crate) fn put(&mut self, item: T)
        requires { length self.old.items < self.old.capacity }
        ensures { self.new ≡ with_pushed self.old item }
    {
        let len = self.len;
        self.block.prove_capacity_bounds();
        self.block.put(len, item);
        self.len = len + 1;
    }

    // Reserves capacity for `additional` more items, by the growth policy.
    #[tactic(auto, using(aa_raw::proofs::Calls::with_room, aa_raw::proofs::Beyond::grown_at_end))]
    pub(crate) fn reserve(&mut self, additional: usize) -> Result<(), TryReserveError>
        // Success leaves the reserved capacity. The block grows only for items with a size.
        ensures reserved { OnOk result
            (self.new ≡ with_room (type_size T.row) self.old additional) }
        ensures room { OnOk result (length self.old.items + additional ≤ self.new.capacity) }
        ensures has_size { OnOk result
            (self.old.capacity < length self.old.items + additional → 0 < type_size T.row) }

        // Failure changes nothing, and says why capacity is lacking.
        ensures unchanged { OnErr result (self.new ≡ self.old) }
        ensures error { let items = length self.old.items in let capacity = self.old.capacity in
            let least = min_capacity (type_size T.row) in
            let requested = amortized self.old.growth capacity (items + additional) least in
            IfErr result (LacksRoom (type_size T.row) capacity items additional requested) }
    {
        self.block.try_reserve(self.len, additional)
    }

    // Returns the items as a boxed slice, in the same block, which must have no spare capacity
    // unless they are zero-sized.
    #[tactic(auto, using(aa_raw::proofs::Calls::at_ends))]
    pub(crate) fn finish_exact(self) -> BoxedSlice<T, A>
        requires { length self.items ≢ self.capacity → self.capacity ≡ usize_max }
        ensures { result ≡ finished self }
    {
        let Builder { block, len } = self;
        BoxedSlice::from_block(block, len)
    }

    // Shrinks the block to the items and returns them as a boxed slice.
    #[tactic(auto, using(aa_raw::proofs::Calls::with_room, aa_raw::proofs::Beyond::grown_at_end))]
    pub(crate) fn finish_shrunk(self) -> Result<BoxedSlice<T, A>, TryReserveError>
    where
        T: Drop,
        ensures finished { IfOk result (λ b. b ≡ finished (shrunk (type_size T.row) self)) }
        ensures error { IfErr result
            (λ e. (0 < length self.items) × (0 < type_size T.row)
            × (e.kind ≡ TryReserveErrorKind.AllocError (length self.items))) }
    {
        let mut builder = self;
        let len = builder.len;
        match builder.block.shrink_to_fit(len, len) {
            Ok(()) => Ok(builder.finish_exact()),
            Err(error) => Err(error),
        }
    }

    // Appends copies of all elements of `source`.
    #[tactic(auto, using(aa_raw::proofs::Calls::in_runs, aa_raw::proofs::Beyond::grown_at_end))]
    pub(crate) fn put_copies(&mut self, source: &[T])
    where
        T: Copy,
        requires { length self.old.items + length source.now ≤ self.old.capacity }
        ensures { self.new ≡ with_appended self.old source.now }
    {
        let len = self.len;
        self.block.prove_capacity_bounds();
        self.block.put_copies(len, source);
        self.len = len + source.len();
    }

    // Appends a clone of each element of `source`, up to the first clone that fails, to a builder
    // without items. Returns `true` if none fails.
    pub(crate) fn put_clones(&mut self, source: &[T]) -> bool
    where
        T: Clone,
        // There are no items yet, and the clones fit in the capacity.
        requires empty { self.old.items ≡ [] }
        requires fits { length source.now ≤ self.old.capacity }

        // It returns `true` if all were cloned, and `false` if a clone failed.
        ensures cloned { OnTrue result (AllZip T.is_clone source.now self.new.items) }
        ensures failed { OnFalse result (¬ (All T.is_infallible source.now)) }

        // The block and the allocator do not change.
        ensures capacity { self.new.capacity ≡ self.old.capacity }
        ensures growth { self.new.growth ≡ self.old.growth }
        ensures grown { self.new.grown ≡ self.old.grown }
        ensures alloc { self.new.alloc ≡ self.old.alloc }
    {
        let count = source.len();
        'each: for i in 0..count {
            match source[i].clone() {
                Ok(copy) => self.put(copy),
                Err(_) => return false,
            }
        }
        true
    }
}

impl<T: Drop, A: Allocator> Drop for Builder<T, A> {
    #[tactic(auto, using(aa_raw::proofs::Beyond::emptied))]
    fn drop(self) {
        let Builder { mut block, len } = self;
        block.drop_run(0, len);
    }
}
