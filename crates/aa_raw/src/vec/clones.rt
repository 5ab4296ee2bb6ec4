//! Clones of an `IntoIter`.
ghost use Rattle.std.specs.Prelude.{◌≡◌, ◌+◌, ◌<◌, ◌≤◌, length, take, All, IfOk, IfErr};
ghost use Rattle.std.specs.List.{AllZip};
ghost use Rattle.std.specs.Mem.{type_size};
ghost use Rattle.aa_raw.specs.Clones.{ClonesCannotFail, ClonesAreEqual, HoldsClones};
ghost use Rattle.aa_raw.specs.Growth.{new_capacity};
ghost use Rattle.aa_raw.specs.Growths.{of_new};
ghost use Rattle.aa_raw.specs.Errors.{ClonesFail};

use crate::collections::{TryReserveError, TryReserveErrorKind};
use crate::raw_vec::RawVec;
use crate::vec::into_iter::IntoIter;
use std::alloc::{AllocError, Allocator};

impl<T: Clone, A: Allocator + Clone> IntoIter<T, A> {
    /// Returns an iterator over clones of the remaining items, in order, over a clone of the
    /// allocator.
    ///
    /// Its capacity is the number of items, or `usize::MAX` if they are zero-sized. Allocates once,
    /// before the first clone, unless there are no items or they are zero-sized.
    ///
    /// # Errors
    /// `CapacityOverflow` if the items take more than `isize::MAX` bytes. `AllocError` with the
    /// number of items if the allocation, the clone of the allocator or that of an item fails. The
    /// clones made so far are dropped.
    ///
    /// Corresponds to allocator-api2's `Clone`.
    pub fn clone(&self) -> Result<Self, TryReserveError>
        // What is returned holds clones of the items and of the allocator, in a block made for just
        // these items.
        ensures made { IfOk result (λ copy. AllZip T.is_clone self.now.items copy.items) }
        ensures alloc { IfOk result (λ copy. A.is_clone self.now.alloc copy.alloc) }
        ensures capacity { IfOk result
            (λ copy. copy.capacity ≡ new_capacity (type_size T.row) (length self.now.items)) }
        ensures counts { let n = length self.now.items in IfOk result
            (λ copy. (copy.grown ≡ of_new (type_size T.row) n) × (copy.written ≡ n)
            × (copy.runs ≡ n)) }

        // If every clone equals its source, the items are the same.
        ensures copied { ClonesAreEqual T.is_clone → IfOk result
            (λ copy. copy.items ≡ self.now.items) }

        // An `AllocError` has the number of items. If no clone can fail, the block could not be
        // made.
        ensures error { let infallible = All T.is_infallible self.now.items
            × A.is_infallible self.now.alloc in
            IfErr result (ClonesFail infallible (length self.now.items) (type_size T.row)) }
    {
        let items = self.as_slice();
        let capacity = items.len();
        let Ok(alloc) = self.allocator().clone() else {
            return Err(TryReserveErrorKind::AllocError { capacity }.into());
        };
        let mut block = RawVec::with_capacity_in(capacity, alloc)?;
        let put = put_clones(&mut block, items);
        let made = IntoIter::from_block(block, put);
        if put == capacity {
            return Ok(made);
        }
        Err(TryReserveErrorKind::AllocError { capacity }.into())
    }
}

impl<T: Clone, A: Allocator + Clone> Clone for IntoIter<T, A> {
    ghost is_clone = { λ left copy. AllZip T.is_clone left.items copy.items
        × A.is_clone left.alloc copy.alloc };

    ghost is_infallible = { λ left. ClonesCannotFail T.is_infallible (type_size T.row) left.items
        × A.is_infallible left.alloc };

    /// Returns the same as the inherent `clone`, whose error also has the number of items.
    fn clone(&self) -> Result<Self, AllocError> {
        IntoIter::clone(self).map_err(|_| AllocError)
    }
}

// Writes clones of the elements of `source` into the first places, up to the first clone that
// fails. Returns how many.
#[tactic(auto, unfolding(crate::specs::Places::run))]
fn put_clones<T: Clone, A: Allocator>(block: &mut RawVec<T, A>, source: &[T]) -> usize
    requires room { length source.now ≤ length block.old.places }

    // The first places hold clones of the first elements.
    ensures within { result ≤ length source.now }
    ensures put { HoldsClones T.is_clone (take result source.now) block.new.places }

    // Apart from its places, the block is unchanged but for its counters.
    ensures capacity { length block.new.places ≡ length block.old.places }
    ensures counts { (block.new.grown ≡ block.old.grown)
        × (block.new.written ≡ block.old.written + result)
        × (block.new.runs ≡ block.old.runs + result) }
    ensures alloc { block.new.alloc ≡ block.old.alloc }

    // There are fewer than the elements only if a clone can fail.
    ensures only_if_fallible { result < length source.now → ¬ (All T.is_infallible source.now) }
{
    let count = source.len();
    'each: for put in 0..count {
        match source[put].clone() {
            Ok(copy) => block.put(put, copy),
            Err(_) => return put,
        }
    }
    count
}
