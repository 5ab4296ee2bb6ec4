//! Appending one value to a vector that is not full.
ghost use Rattle.std.specs.Prelude.{◌≡◌, ◌<◌, [], ◌∷◌, ◌++◌, drop};
ghost use Rattle.aa_vec.specs.Vector.{len, Becomes};

use crate::vec::Vec;
use std::alloc::Allocator;

impl<T, A: Allocator> Vec<T, A> {
    // Appends `value` to a vector that is not full.
    #[inline]
    #[tactic(auto, using(aa_raw::proofs::Calls::at_ends, crate::proofs::Becoming::becomes, crate::proofs::Tidy::few_at_end))]
    pub(crate) fn put_next(&mut self, value: T)
        requires room { len self.old < self.old.capacity }
        ensures put { Becomes self.old (self.old.items ++ value ∷ []) 1 1 self.new }
        ensures spare { self.new.spare ≡ drop 1 self.old.spare }
    {
        let len = self.len;
        // Like `prove_capacity_bounds`; but the loops that this is inlined into are faster if the
        // capacity is read.
        let _within = self.block.capacity();
        self.block.put(len, value);
        self.len = len + 1;
    }
}
