//! Reserving capacity, and shrinking it.
ghost use Rattle.std.specs.Prelude.{◌≡◌, length, max, IfErr, OnOk, OnErr, IsOk};
ghost use Rattle.std.specs.Mem.{type_size};
ghost use Rattle.aa_raw.specs.Room.{NeedsNewBlock};
ghost use Rattle.aa_vec.specs.Vector.{len, HasRoom, LacksRoom, LacksExactRoom, Becomes, with_room, with_exact_room, with_less};
ghost use Rattle.aa_raw.specs.declared.collections.TryReserveErrorKind.TheVariants.{AllocError};

use crate::vec::Vec;
use aa_raw::collections::TryReserveError;
use std::alloc::Allocator;

#[tactic(auto, using(aa_raw::proofs::Calls::with_room, crate::proofs::Becoming::same_fields))]
impl<T, A: Allocator> Vec<T, A> {
    /// Reserves capacity for `additional` more elements.
    ///
    /// Does nothing if they fit. Otherwise allocates, and grows by the growth policy.
    ///
    /// # Errors
    /// Returns `CapacityOverflow`, always if the new length would exceed `usize::MAX`; or
    /// `AllocError` with the requested capacity. The vector is unchanged.
    #[tactic(auto, using(aa_raw::proofs::Calls::with_room, crate::proofs::Becoming::same_fields, crate::proofs::Tidy::reserved_whole))]
    pub fn try_reserve(&mut self, additional: usize) -> Result<(), TryReserveError>
        ensures fits { HasRoom self.old additional → IsOk result }
        ensures reserved { let n = length self.old.items in
            let roomy = with_room (type_size T.row) self.old n additional in
            OnOk result (Becomes roomy self.old.items 0 0 self.new) }
        ensures error { IfErr result (LacksRoom (type_size T.row) self.old additional) }
        ensures unchanged { OnErr result (self.new ≡ self.old) }
    {
        self.block.try_reserve(self.len, additional)
    }

    /// Reserves capacity for exactly `additional` more elements.
    ///
    /// Does nothing if they fit. Otherwise allocates capacity for no more than these.
    ///
    /// # Errors
    /// Returns `CapacityOverflow`, always if the new length would exceed `usize::MAX`; or
    /// `AllocError` with the new length. The vector is unchanged.
    #[tactic(auto, using(aa_raw::proofs::Calls::with_room, crate::proofs::Becoming::same_fields, crate::proofs::Tidy::reserved_whole))]
    pub fn try_reserve_exact(&mut self, additional: usize) -> Result<(), TryReserveError>
        ensures fits { HasRoom self.old additional → IsOk result }
        ensures reserved { let n = length self.old.items in
            let roomy = with_exact_room self.old n additional in
            OnOk result (Becomes roomy self.old.items 0 0 self.new) }
        ensures error { IfErr result (LacksExactRoom (type_size T.row) self.old additional) }
        ensures unchanged { OnErr result (self.new ≡ self.old) }
    {
        self.block.try_reserve_exact(self.len, additional)
    }

    /// Reserves capacity for `additional` more elements, as `try_reserve` does.
    ///
    /// Allocates only if they do not fit.
    ///
    /// # Errors
    /// Returns the same errors as `try_reserve`. The original aborts instead.
    pub fn reserve(&mut self, additional: usize) -> Result<(), TryReserveError>
        ensures fits { HasRoom self.old additional → IsOk result }
        ensures reserved { let n = length self.old.items in
            let roomy = with_room (type_size T.row) self.old n additional in
            OnOk result (Becomes roomy self.old.items 0 0 self.new) }
        ensures error { IfErr result (LacksRoom (type_size T.row) self.old additional) }
        ensures unchanged { OnErr result (self.new ≡ self.old) }
    {
        self.try_reserve(additional)
    }

    /// Reserves capacity for exactly `additional` more elements, as `try_reserve_exact` does.
    ///
    /// Allocates only if they do not fit.
    ///
    /// # Errors
    /// Returns the same errors as `try_reserve_exact`. The original aborts instead.
    pub fn reserve_exact(&mut self, additional: usize) -> Result<(), TryReserveError>
        ensures fits { HasRoom self.old additional → IsOk result }
        ensures reserved { let n = length self.old.items in
            let roomy = with_exact_room self.old n additional in
            OnOk result (Becomes roomy self.old.items 0 0 self.new) }
        ensures error { IfErr result (LacksExactRoom (type_size T.row) self.old additional) }
        ensures unchanged { OnErr result (self.new ≡ self.old) }
    {
        self.try_reserve_exact(additional)
    }

    /// Shrinks the capacity to `capacity`, or to the length if that is greater.
    ///
    /// Does nothing if the capacity is no greater than that, or for zero-sized elements. Otherwise
    /// allocates a block of just that capacity, but none for 0, and deallocates the old one.
    ///
    /// # Errors
    /// Returns `AllocError` with the requested capacity. The vector is unchanged. The original
    /// aborts instead.
    #[tactic(auto, using(aa_raw::proofs::Calls::with_room, crate::proofs::Becoming::same_fields, crate::proofs::Tidy::few_at_end))]
    pub fn shrink_to(&mut self, capacity: usize) -> Result<(), TryReserveError>
        ensures shrunk { let n = max (length self.old.items) capacity in
            let less = with_less (type_size T.row) self.old n in
            OnOk result (Becomes less self.old.items 0 0 self.new) }
        ensures only_if_allocating { OnErr result
            (NeedsNewBlock (type_size T.row) self.old.capacity (max (len self.old) capacity)) }
        ensures error { IfErr result (λ e. e.kind ≡ AllocError (max (len self.old) capacity)) }
        ensures unchanged { OnErr result (self.new ≡ self.old) }
    {
        let wanted = self.len.max(capacity).min(self.block.capacity());
        self.block.shrink_to_fit(self.len, wanted)
    }

    /// Shrinks the capacity to the length, as `shrink_to(0)` does.
    ///
    /// Allocates only if the length is neither 0 nor the capacity, and the elements are not
    /// zero-sized.
    ///
    /// # Errors
    /// Returns `AllocError` with the length. The vector is unchanged. The original aborts instead.
    pub fn shrink_to_fit(&mut self) -> Result<(), TryReserveError>
        ensures shrunk { let less = with_less (type_size T.row) self.old (length self.old.items) in
            OnOk result (Becomes less self.old.items 0 0 self.new) }
        ensures only_if_allocating { OnErr result
            (NeedsNewBlock (type_size T.row) self.old.capacity (len self.old)) }
        ensures error { IfErr result (λ e. e.kind ≡ AllocError (len self.old)) }
        ensures unchanged { OnErr result (self.new ≡ self.old) }
    {
        self.shrink_to(0)
    }
}
