//! Reserving exact capacity.
ghost use Rattle.std.specs.Prelude.{◌≡◌, ◌+◌, ◌<◌, length, IfErr, IsOk, OnErr, OnOk};
ghost use Rattle.std.specs.Mem.{type_size};
ghost use Rattle.aa_ring.specs.Ringed.{contiguous, with_exact_room, HasRoom, LacksExactRoom};

use crate::ring::Ring;
use crate::ring::shrink::gather;
use allocator_api2::collections::TryReserveError;
use std::alloc::Allocator;

impl<T, A: Allocator> Ring<T, A> {
    /// Reserves capacity for exactly `additional` more items.
    ///
    /// Does nothing if they fit. Else moves the items into one slice, allocates a block with
    /// capacity for no more than these, and moves each item there once.
    ///
    /// # Errors
    /// `CapacityOverflow` if the new length would exceed `usize::MAX` or the block would be too
    /// large. `AllocError` with the new length if the allocation fails. The ring then has its items
    /// in one slice, and is else unchanged.
    #[tactic(auto, using(std::proofs::lemmas::Bool::Decides::nat_tests))]
    pub fn reserve_exact(&mut self, additional: usize) -> Result<(), TryReserveError>
        ensures fits { HasRoom self.old additional → IsOk result }
        ensures enough { OnOk result (HasRoom self.new additional) }
        ensures reserved { OnOk result (self.new ≡ with_exact_room self.old additional) }
        ensures error { IfErr result (LacksExactRoom (type_size T.row) self.old additional) }
        ensures kept { OnErr result (self.new ≡ contiguous self.old self.old.items) }
    {
        if additional <= self.capacity() - self.len() {
            return Ok(());
        }
        self.grow_exactly(additional)
    }

    // Moves the items into one slice, and grows the block to places for these and exactly
    // `additional` more, which do not fit.
    #[tactic(auto, using(allocator_api2::proofs::Blocks::with_room, crate::proofs::Rings::in_one_run))]
    fn grow_exactly(&mut self, additional: usize) -> Result<(), TryReserveError>
        requires full { self.old.capacity < length self.old.items + additional }
        ensures enough { OnOk result (HasRoom self.new additional) }
        ensures reserved { OnOk result (self.new ≡ with_exact_room self.old additional) }
        ensures error { IfErr result (LacksExactRoom (type_size T.row) self.old additional) }
        ensures kept { OnErr result (self.new ≡ contiguous self.old self.old.items) }
    {
        self.block.prove_capacity_bounds();
        let len = self.count + self.wrapped;
        let moved = gather(&mut self.block, self.front, self.count, self.wrapped);
        self.front = 0;
        self.count = len;
        self.wrapped = 0;
        self.added.add(len - moved);
        self.block.try_reserve_exact(len, additional)
    }
}
