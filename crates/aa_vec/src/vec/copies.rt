//! Copies of elements that are `Copy`.
//!
//! Each call is a second one beside that for `Clone`, since a call can't distinguish the two. It
//! can't fail for a clone. If a clone is a plain copy, it is no faster.
ghost use Rattle.std.specs.Prelude.{◌≡◌, ◌+◌, ◌-◌, ◌<◌, ◌≤◌, ◌++◌, length, take, drop, slice_range, IfOk, IfErr, OnOk, OnErr, IsOk};
ghost use Rattle.std.specs.Mem.{type_size};
ghost use Rattle.aa_raw.specs.Errors.{AllocationFails, ClonesFail};
ghost use Rattle.aa_raw.specs.declared.raw_vec.Growth.TheVariants.{Doubling};
ghost use Rattle.aa_vec.specs.Vector.{len, HasRoom, LacksRoom, GrowsTo, Holds};
ghost use Rattle.aa_vec.specs.Copies.{WritesAtMost, IsMadeWithin};
ghost use Rattle.aa_vec.specs.Ranges.{IsRangeOf};

use crate::vec::Vec;
use aa_raw::collections::TryReserveError;
use core::mem::replace_with;
use std::alloc::{Allocator, Global};
use std_alloc::part::SliceRange;

impl<T: Copy> Vec<T, Global> {
    /// Returns a vector of copies of the elements of `slice` on the global allocator.
    ///
    /// Like `from_slice`, for elements that are `Copy`: only the allocation can fail. Allocates as
    /// that does.
    ///
    /// # Errors
    /// Returns `CapacityOverflow`, or `AllocError` with the length of `slice`.
    ///
    /// Corresponds to what allocator-api2's `From<&[T]>` compiles to for such elements.
    pub fn from_slice_copied(alloc: Global, slice: &[T]) -> Result<Self, TryReserveError>
        ensures made { IfOk result (IsMadeWithin (type_size T.row) Doubling slice.now) }
        ensures alloc { IfOk result (λ v. v.alloc ≡ alloc) }
        ensures error { IfErr result (AllocationFails (length slice.now) (type_size T.row)) }
    {
        Vec::from_slice_copied_in(slice, alloc)
    }
}

impl<T: Copy, A: Allocator> Vec<T, A> {
    /// Returns a vector of copies of the elements of `slice`, with capacity for exactly these.
    ///
    /// Like `from_slice_in`, for elements that are `Copy`: only the allocation can fail. Allocates
    /// as that does.
    ///
    /// # Errors
    /// Returns `CapacityOverflow`, or `AllocError` with the length of `slice`.
    ///
    /// Not in allocator-api2.
    pub fn from_slice_copied_in(slice: &[T], alloc: A) -> Result<Self, TryReserveError>
        ensures made { IfOk result (IsMadeWithin (type_size T.row) Doubling slice.now) }
        ensures alloc { IfOk result (λ v. v.alloc ≡ alloc) }
        ensures error { IfErr result (AllocationFails (length slice.now) (type_size T.row)) }
    {
        let mut made = Vec::with_capacity_in(slice.len(), alloc)?;
        made.put_copies(slice);
        Ok(made)
    }

    /// Returns a copy of the vector, over a clone of the allocator.
    ///
    /// Like `clone`, for elements that are `Copy`: only the allocation and the clone of the
    /// allocator can fail. Allocates as that does.
    ///
    /// # Errors
    /// Returns `CapacityOverflow`, or `AllocError` with the length.
    ///
    /// Corresponds to what allocator-api2's `Clone` compiles to for such elements.
    pub fn clone_copied(&self) -> Result<Self, TryReserveError>
    where
        A: Clone,
        ensures made { IfOk result (IsMadeWithin (type_size T.row) self.now.growth self.now.items) }
        ensures alloc { IfOk result (λ v. A.is_clone self.now.alloc v.alloc) }
        ensures error { IfErr result
            (ClonesFail (A.is_infallible self.now.alloc) (len self.now) (type_size T.row)) }
    {
        let mut made = self.empty_like(self.len())?;
        made.put_copies(self.as_slice());
        Ok(made)
    }

    /// Appends a copy of each element of `other`.
    ///
    /// Like `extend_from_slice`, for elements that are `Copy`: only the allocation can fail.
    /// Allocates as `try_reserve` does.
    ///
    /// # Errors
    /// Returns the same errors as `try_reserve`. The vector is unchanged.
    ///
    /// Corresponds to what allocator-api2's `extend_from_slice` compiles to for such elements.
    #[inline(always)]
    #[tactic(auto, using(crate::proofs::Becoming::became))]
    pub fn extend_from_slice_copied(&mut self, other: &[T]) -> Result<(), TryReserveError>
        ensures fits { HasRoom self.old (length other.now) → IsOk result }
        ensures extended { OnOk result (GrowsTo (type_size T.row) self.old
            (length other.now) (self.old.items ++ other.now) self.new) }
        ensures written { OnOk result (WritesAtMost self.old (length other.now) self.new) }
        ensures error { IfErr result (LacksRoom (type_size T.row) self.old (length other.now)) }
        ensures unchanged { OnErr result (self.new ≡ self.old) }
    {
        if let Err(error) = self.try_reserve(other.len()) {
            return Err(error);
        }
        self.put_copies(other);
        Ok(())
    }

    /// Appends a copy of each element of the range.
    ///
    /// Like `extend_from_within`, for elements that are `Copy`: only the allocation can fail.
    /// Allocates as `try_reserve` does.
    ///
    /// # Errors
    /// Returns the same errors as `try_reserve`. The vector is unchanged.
    ///
    /// Corresponds to what allocator-api2's `extend_from_within` compiles to for such elements.
    #[tactic(auto, using(crate::proofs::Becoming::became))]
    pub fn extend_from_within_copied<R: SliceRange>(
        &mut self,
        range: R,
    ) -> Result<(), TryReserveError>
        requires range { IsRangeOf R.SliceRange range (len self.old) }

        // Elements that fit are copied without an error.
        ensures fits { let end = R.end range (len self.old) in
            HasRoom self.old (end - R.start range) → IsOk result }
        ensures extended { let end = R.end range (len self.old) in
            let own = slice_range self.old.items (R.start range) end in
            OnOk result (GrowsTo (type_size T.row) self.old (end - R.start range)
            (self.old.items ++ own) self.new) }
        ensures written { let end = R.end range (len self.old) in
            OnOk result (WritesAtMost self.old (end - R.start range) self.new) }

        // An error changes nothing.
        ensures error { let end = R.end range (len self.old) in
            IfErr result (LacksRoom (type_size T.row) self.old (end - R.start range)) }
        ensures unchanged { OnErr result (self.new ≡ self.old) }
    {
        let (start, end) = self.bounds_of(range);
        let count = end - start;
        if let Err(error) = self.try_reserve(count) {
            return Err(error);
        }
        self.put_own_copies(start, count);
        Ok(())
    }

    // Appends copies of all elements of `source`, which fit.
    #[inline(always)]
    #[tactic(auto, using(aa_raw::proofs::Calls::in_runs, crate::proofs::Tidy::few_at_end))]
    fn put_copies(&mut self, source: &[T])
        requires room { HasRoom self.old (length source.now) }
        ensures items { Holds self.old (self.old.items ++ source.now) self.new }
        ensures written { WritesAtMost self.old (length source.now) self.new }
    {
        let len = self.len;
        self.block.prove_capacity_bounds();
        self.block.put_copies(len, source);
        self.len = len + source.len();
    }

    // Appends copies of `count` of the vector's own elements, from the index `from` on. They fit.
    fn put_own_copies(&mut self, from: usize, count: usize)
        requires range { from + count ≤ len self.old }
        requires room { HasRoom self.old count }
        ensures items { Holds self.old
            (self.old.items ++ take count (drop from self.old.items)) self.new }
        ensures written { WritesAtMost self.old count self.new }
    {
        replace_with(self, (from, count), with_own_copies)
    }
}

// The loop owns the vector that it fills: nothing that is stored in its places can then change its
// fields, which are kept in registers. So it compiles to copies of many elements at once.

// `put_own_copies`, of `own.1` elements from the index `own.0` on.
fn with_own_copies<T: Copy, A: Allocator>(
    mut list: Vec<T, A>,
    own: (usize, usize),
) -> (Vec<T, A>, ())
    requires range { own.0 + own.1 ≤ len list }
    requires room { HasRoom list own.1 }
    ensures items { Holds list (list.items ++ take own.1 (drop own.0 list.items)) result.0 }
    ensures written { WritesAtMost list own.1 result.0 }
{
    let (from, count) = own;
    'each: for at in 0..count {
        let item = list.as_slice()[from + at];
        list.put_next(item);
    }
    (list, ())
}
