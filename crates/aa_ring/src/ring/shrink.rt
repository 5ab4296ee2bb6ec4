//! Calls that shrink the capacity.
ghost use Rattle.std.specs.Prelude.{◌≡◌, ◌+◌, ◌<◌, ◌≤◌, ◌++◌, length, max, IfErr, OnErr, OnOk};
ghost use Rattle.std.specs.Mem.{type_size};
ghost use Rattle.allocator_api2.specs.Places.{IsRun, run};
ghost use Rattle.allocator_api2.specs.Room.{NeedsNewBlock};
ghost use Rattle.allocator_api2.specs.declared.collections.TryReserveErrorKind.TheVariants.{AllocError};
ghost use Rattle.aa_ring.specs.RingInner.{HasParts};
ghost use Rattle.aa_ring.specs.Ringed.{contiguous, shrunk, with_less};

use crate::ring::Ring;
use crate::ring::contiguous::{close, turn};
use allocator_api2::collections::TryReserveError;
use allocator_api2::raw_vec::RawVec;
use std::alloc::Allocator;

impl<T, A: Allocator> Ring<T, A> {
    /// Shrinks the capacity to `capacity`, or to the length if that is greater.
    ///
    /// Does nothing if the capacity is no greater than that. Else moves the items into one slice,
    /// allocates a block of just that capacity, but none for 0, and deallocates the old one. Does
    /// not allocate for zero-sized items.
    ///
    /// # Errors
    /// `AllocError` with the requested capacity if the allocation fails. The ring then has its
    /// items in one slice, and is else unchanged.
    #[tactic(auto, using(std::proofs::lemmas::Bool::Decides::nat_tests))]
    pub fn shrink_to(&mut self, capacity: usize) -> Result<(), TryReserveError>
        ensures shrunk { let n = max (length self.old.items) capacity in
            OnOk result (self.new ≡ shrunk (type_size T.row) self.old n) }
        ensures only_if_allocating { let n = max (length self.old.items) capacity in
            OnErr result (NeedsNewBlock (type_size T.row) self.old.capacity n) }
        ensures error { let n = max (length self.old.items) capacity in
            IfErr result (λ e. e.kind ≡ AllocError n) }
        ensures kept { OnErr result (self.new ≡ contiguous self.old self.old.items) }
    {
        let wanted = self.len().max(capacity);
        if self.capacity() <= wanted {
            return Ok(());
        }
        self.cut_to(wanted)
    }

    /// Shrinks the capacity to the length, as `shrink_to(0)` does.
    ///
    /// # Errors
    /// `AllocError` with the length if the allocation fails. The ring then has its items in one
    /// slice, and is else unchanged.
    pub fn shrink_to_fit(&mut self) -> Result<(), TryReserveError>
        ensures shrunk { OnOk result
            (self.new ≡ shrunk (type_size T.row) self.old (length self.old.items)) }
        ensures only_if_allocating { OnErr result
            (NeedsNewBlock (type_size T.row) self.old.capacity (length self.old.items)) }
        ensures error { IfErr result (λ e. e.kind ≡ AllocError (length self.old.items)) }
        ensures kept { OnErr result (self.new ≡ contiguous self.old self.old.items) }
    {
        self.shrink_to(0)
    }

    // Moves the items into one slice, and shrinks the block to `wanted` places, in which they fit.
    #[tactic(auto, using(allocator_api2::proofs::Blocks::with_room, crate::proofs::Rings::in_one_run))]
    fn cut_to(&mut self, wanted: usize) -> Result<(), TryReserveError>
        requires fits { length self.old.items ≤ wanted }
        requires fewer { wanted < self.old.capacity }
        ensures shrunk { let whole = contiguous self.old self.old.items in
            OnOk result (self.new ≡ with_less (type_size T.row) whole wanted) }
        ensures only_if_allocating { OnErr result
            (NeedsNewBlock (type_size T.row) self.old.capacity wanted) }
        ensures error { IfErr result (λ e. e.kind ≡ AllocError wanted) }
        ensures kept { OnErr result (self.new ≡ contiguous self.old self.old.items) }
    {
        self.block.prove_capacity_bounds();
        let len = self.count + self.wrapped;
        let moved = gather(&mut self.block, self.front, self.count, self.wrapped);
        self.front = 0;
        self.count = len;
        self.wrapped = 0;
        self.added.add(len - moved);
        self.block.shrink_to_fit(len, wanted)
    }
}

// Moves the `wrapped` values at the first places and the `count` values from `front` on into one
// run at the first places, the latter first. Returns how many values were written.
#[tactic(auto, using(crate::proofs::Rings::gathered))]
pub(super) fn gather<T, A: Allocator>(
    block: &mut RawVec<T, A>,
    front: usize,
    count: usize,
    wrapped: usize,
) -> usize
    requires { HasParts block.old.places front count wrapped }

    // They are one run now.
    ensures filled { IsRun block.new.places 0 (count + wrapped) }
    ensures items { run block.new.places 0 (count + wrapped)
        ≡ run block.old.places front count ++ run block.old.places 0 wrapped }

    // Everything else of the block is as before, but for the number of writes.
    ensures capacity { length block.new.places ≡ length block.old.places }
    ensures kept { (block.new.growth ≡ block.old.growth) × (block.new.grown ≡ block.old.grown)
        × (block.new.alloc ≡ block.old.alloc) }
    ensures written { block.new.written ≡ block.old.written + result }
    ensures few { result ≤ count + wrapped }
{
    block.prove_capacity_bounds();
    let moved = close(block, front, count, wrapped);
    if wrapped > 0 {
        turn(block, wrapped + count, wrapped);
    }
    moved
}
