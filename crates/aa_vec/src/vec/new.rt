//! Constructors: vectors of clones, and empty vectors with the growth policy of another.
ghost use Rattle.std.specs.Prelude.{◌≡◌, [], ◌<◌, length, replicate, All, IfOk, IfErr};
ghost use Rattle.std.specs.Mem.{type_size};
ghost use Rattle.aa_raw.specs.Block.{fresh};
ghost use Rattle.aa_raw.specs.Clones.{ClonesCannotFail};
ghost use Rattle.aa_raw.specs.Errors.{ClonesFail};
ghost use Rattle.aa_raw.specs.declared.raw_vec.Growth.TheVariants.{Doubling};
ghost use Rattle.aa_vec.specs.Vector.{len};
ghost use Rattle.aa_vec.specs.Copies.{ClonesAreEqual, IsMade, IsMadeOf, IsMadeOfOne};

use crate::vec::Vec;
use aa_raw::collections::{TryReserveError, TryReserveErrorKind};
use aa_raw::counter::Counter;
use aa_raw::raw_vec::{Growth, RawVec};
use std::alloc::{AllocError, Allocator, Global};

impl<T: Clone> Vec<T, Global> {
    /// Returns a vector of a clone of each element of `slice` on the global allocator.
    ///
    /// It has capacity for exactly these. Allocates as `from_slice_in` does.
    ///
    /// # Errors
    /// Returns the same errors as `from_slice_in`.
    ///
    /// Corresponds to allocator-api2's `From<&[T]>`.
    pub fn from_slice(alloc: Global, slice: &[T]) -> Result<Self, TryReserveError>
        ensures made { IfOk result (IsMadeOf T.is_clone (type_size T.row) Doubling slice.now) }
        ensures alloc { IfOk result (λ v. v.alloc ≡ alloc) }
        ensures copied { ClonesAreEqual T.is_clone → IfOk result
            (IsMade (type_size T.row) (length slice.now) Doubling slice.now (length slice.now)) }
        ensures error { IfErr result
            (ClonesFail (All T.is_infallible slice.now) (length slice.now) (type_size T.row)) }
    {
        Vec::from_slice_in(slice, alloc)
    }

    /// Returns a vector of `n` elements on the global allocator, clones of `element` and last
    /// `element` itself.
    ///
    /// Allocates as `from_elem_in` does.
    ///
    /// # Errors
    /// Returns the same errors as `from_elem_in`.
    pub fn from_elem(alloc: Global, element: T, n: usize) -> Result<Self, TryReserveError>
        ensures made { IfOk result (IsMadeOfOne T.is_clone (type_size T.row) element n) }
        ensures alloc { IfOk result (λ v. v.alloc ≡ alloc) }
        ensures copied { ClonesAreEqual T.is_clone → IfOk result
            (IsMade (type_size T.row) n Doubling (replicate n element) n) }
        ensures error { IfErr result
            (ClonesFail (1 < n → T.is_infallible element) n (type_size T.row)) }
    {
        Vec::from_elem_in(element, n, alloc)
    }
}

impl<T: Clone, A: Allocator> Vec<T, A> {
    /// Returns a vector of a clone of each element of `slice`, with capacity for exactly these.
    ///
    /// Allocates once, before the first clone.
    ///
    /// # Errors
    /// Returns `CapacityOverflow`, or `AllocError` with the length of `slice`, also if a clone
    /// fails. The clones made so far are dropped.
    ///
    /// Not in allocator-api2.
    pub fn from_slice_in(slice: &[T], alloc: A) -> Result<Self, TryReserveError>
        ensures made { IfOk result (IsMadeOf T.is_clone (type_size T.row) Doubling slice.now) }
        ensures alloc { IfOk result (λ v. v.alloc ≡ alloc) }
        ensures copied { ClonesAreEqual T.is_clone → IfOk result
            (IsMade (type_size T.row) (length slice.now) Doubling slice.now (length slice.now)) }
        ensures error { IfErr result
            (ClonesFail (All T.is_infallible slice.now) (length slice.now) (type_size T.row)) }
    {
        let capacity = slice.len();
        let mut made = Vec::with_capacity_in(capacity, alloc)?;
        if made.push_clones(slice) {
            return Ok(made);
        }
        Err(TryReserveErrorKind::AllocError { capacity }.into())
    }

    /// Returns a vector of `n` elements, clones of `element` and last `element` itself.
    ///
    /// It has capacity for exactly `n`. Allocates once, before the first clone.
    ///
    /// # Errors
    /// Returns `CapacityOverflow`, or `AllocError` with the number `n`, also if a clone fails. The
    /// clones made so far are dropped.
    pub fn from_elem_in(element: T, n: usize, alloc: A) -> Result<Self, TryReserveError>
        ensures made { IfOk result (IsMadeOfOne T.is_clone (type_size T.row) element n) }
        ensures alloc { IfOk result (λ v. v.alloc ≡ alloc) }
        ensures copied { ClonesAreEqual T.is_clone → IfOk result
            (IsMade (type_size T.row) n Doubling (replicate n element) n) }
        ensures error { IfErr result
            (ClonesFail (1 < n → T.is_infallible element) n (type_size T.row)) }
    {
        let mut made = Vec::with_capacity_in(n, alloc)?;
        if n == 0 {
            return Ok(made);
        }
        if made.fill(n, element) {
            return Ok(made);
        }
        Err(TryReserveErrorKind::AllocError { capacity: n }.into())
    }

    /// Returns a vector of a clone of each element, over a clone of the allocator.
    ///
    /// It has the growth policy of this one, and capacity for exactly the elements. Allocates once,
    /// before the first clone of an element.
    ///
    /// # Errors
    /// Returns `CapacityOverflow`, or `AllocError` with the length, also if a clone of the
    /// allocator or of an element fails. The clones made so far are dropped.
    ///
    /// Corresponds to allocator-api2's `Clone`, which returns no error.
    pub fn clone(&self) -> Result<Self, TryReserveError>
    where
        A: Clone,
        ensures made { IfOk result
            (IsMadeOf T.is_clone (type_size T.row) self.now.growth self.now.items) }
        ensures alloc { IfOk result (λ v. A.is_clone self.now.alloc v.alloc) }
        ensures copied { ClonesAreEqual T.is_clone → IfOk result (IsMade (type_size T.row)
            (len self.now) self.now.growth self.now.items (len self.now)) }
        ensures error { IfErr result
            (ClonesFail (All T.is_infallible self.now.items × A.is_infallible self.now.alloc)
            (len self.now) (type_size T.row)) }
    {
        let capacity = self.len();
        let mut made = self.empty_like(capacity)?;
        if made.push_clones(self.as_slice()) {
            return Ok(made);
        }
        Err(TryReserveErrorKind::AllocError { capacity }.into())
    }
}

impl<T: Clone, A: Allocator + Clone> Clone for Vec<T, A> {
    ghost is_clone = { λ v copy. IsMadeOf T.is_clone (type_size T.row) v.growth v.items copy
        × A.is_clone v.alloc copy.alloc };

    ghost is_infallible = { λ v. ClonesCannotFail T.is_infallible (type_size T.row) v.items
        × A.is_infallible v.alloc };

    /// Like the inherent `clone`, but returns an error without a number.
    fn clone(&self) -> Result<Self, AllocError> {
        Vec::clone(self).map_err(|_| AllocError)
    }
}

impl<T, A: Allocator> Vec<T, A> {
    // Returns an empty vector with capacity for `capacity` elements, over a clone of the allocator.
    // It has the growth policy of this one.
    pub(crate) fn empty_like(&self, capacity: usize) -> Result<Self, TryReserveError>
    where
        A: Clone,
        ensures made { IfOk result (IsMade (type_size T.row) capacity self.now.growth [] 0) }
        ensures alloc { IfOk result (λ v. A.is_clone self.now.alloc v.alloc) }
        ensures error { IfErr result
            (ClonesFail (A.is_infallible self.now.alloc) capacity (type_size T.row)) }
    {
        empty_over(self.allocator(), self.growth(), capacity)
    }

    // Returns a block of `capacity` empty places over a clone of the allocator, with the growth
    // policy of this vector.
    pub(crate) fn block_like(&self, capacity: usize) -> Result<RawVec<T, A>, TryReserveError>
    where
        A: Clone,
        ensures made { IfOk result
            (λ b. b ≡ fresh (type_size T.row) capacity self.now.growth b.alloc) }
        ensures alloc { IfOk result (λ b. A.is_clone self.now.alloc b.alloc) }
        ensures error { IfErr result
            (ClonesFail (A.is_infallible self.now.alloc) capacity (type_size T.row)) }
    {
        block_over(self.block.allocator(), self.block.growth(), capacity)
    }
}

// Returns an empty vector with capacity for `capacity` elements, over a clone of the allocator,
// with the policy `growth`.
#[tactic(auto, using(aa_raw::proofs::Calls::with_room, crate::proofs::Tidy::few_at_end))]
pub(crate) fn empty_over<T, A: Allocator + Clone>(
    alloc: &A,
    growth: Growth,
    capacity: usize,
) -> Result<Vec<T, A>, TryReserveError>
    ensures made { IfOk result (IsMade (type_size T.row) capacity growth [] 0) }
    ensures alloc { IfOk result (λ v. A.is_clone alloc.now v.alloc) }
    ensures error { IfErr result
        (ClonesFail (A.is_infallible alloc.now) capacity (type_size T.row)) }
{
    let block = block_over(alloc, growth, capacity)?;
    Ok(Vec {
        block,
        len: 0,
        apart: Counter::zero(),
        settled: Counter::zero(),
    })
}

// Returns a block of `capacity` empty places over a clone of the allocator, with the policy
// `growth`.
fn block_over<T, A: Allocator + Clone>(
    alloc: &A,
    growth: Growth,
    capacity: usize,
) -> Result<RawVec<T, A>, TryReserveError>
    ensures made { IfOk result (λ b. b ≡ fresh (type_size T.row) capacity growth b.alloc) }
    ensures alloc { IfOk result (λ b. A.is_clone alloc.now b.alloc) }
    ensures error { IfErr result
        (ClonesFail (A.is_infallible alloc.now) capacity (type_size T.row)) }
{
    let Ok(alloc) = alloc.clone() else {
        return Err(TryReserveErrorKind::AllocError { capacity }.into());
    };
    RawVec::with_capacity_and_growth_in(capacity, growth, alloc)
}
