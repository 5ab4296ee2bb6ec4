//! Growth of a block in place.
ghost use Rattle.std.specs.Prelude.{◌≡◌, ◌<◌, ◌≤◌, length, IsTrue, false};
ghost use Rattle.std.specs.Mem.{type_size};
ghost use Rattle.aa_raw.specs.Places.{IsCapacity, IsRun};
ghost use Rattle.aa_raw.specs.Block.{shrunk_to};

use super::packed::{MAX_PACKED, packed};
use super::{Growth, RawVec};
use crate::row::resize::regrow;
use std::alloc::Allocator;

#[tactic(auto, using(crate::proofs::Reserving::after_calls))]
impl<T, A: Allocator> RawVec<T, A> {
    // Returns `true` if a growth of the block, with `len` values, extends its memory.
    pub(super) fn is_extended(&self, len: usize) -> bool
        ensures { IsTrue result → (0 < len) × (len ≡ length self.now.places) }
    {
        match self.growth() {
            Growth::InPlace => len != 0 && len == self.capacity(),
            _ => false,
        }
    }

    // Grows the memory of a full block to `capacity` places, in place if the allocator can. Returns
    // `false` if the allocation fails.
    pub(super) fn extend_to(&mut self, capacity: usize) -> bool
        requires full { let n = length self.old.places in IsRun self.old.places 0 n
            × (0 < n) × (n ≤ capacity) }
        requires possible { (0 < type_size T.row) × IsCapacity T.row capacity }
        ensures extended { IsTrue result
            → self.new ≡ shrunk_to self.old (length self.old.places) capacity }
        ensures unchanged { result ≡ false → self.new ≡ self.old }
    {
        if MAX_PACKED <= capacity {
            return false;
        }
        let len = self.capacity();
        let word = packed(capacity, self.growth());
        let grown = regrow(
            &self.alloc,
            &mut self.row,
            &mut self.claim,
            len,
            len,
            capacity,
        );
        if grown {
            self.grown.add_block(len, capacity);
            self.word = word;
        }
        grown
    }
}
