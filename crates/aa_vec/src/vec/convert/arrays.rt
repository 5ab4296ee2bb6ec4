//! Conversions between arrays and vectors, and the flattening of vectors of arrays.
ghost use Rattle.std.specs.Prelude.{◌≡◌, ◌≢◌, ◌+◌, ◌*◌, ◌<◌, ◌≤◌, [], ◌++◌, length, MatchResult, IfOk, IfErr, OnOk, OnErr};
ghost use Rattle.std.specs.Mem.{type_size};
ghost use Rattle.aa_raw.specs.Growth.{usize_max};
ghost use Rattle.aa_raw.specs.Errors.{AllocationFails, ClonesFail};
ghost use Rattle.aa_raw.specs.declared.collections.TryReserveErrorKind.TheVariants.{CapacityOverflow};
ghost use Rattle.aa_raw.specs.declared.raw_vec.Growth.TheVariants.{Doubling};
ghost use Rattle.aa_vec.specs.Vector.{len, new_capacity, Becomes, run_count};
ghost use Rattle.aa_vec.specs.Copies.{IsMade};
ghost use Rattle.aa_vec.specs.Arrays.{flattened, LacksRoomForFlattened};

use crate::vec::new::empty_over;
use crate::vec::tail::forget_apart;
use crate::vec::{SliceIntoVec, Vec};
use aa_boxed::boxed::Box;
use aa_raw::collections::{Refused, TryReserveError, TryReserveErrorKind};
use aa_raw::raw_vec::RawVec;
use std::alloc::{Allocator, Global};

impl<T> Vec<T, Global> {
    /// Returns a vector of the elements of an array on the global allocator, with capacity for
    /// exactly these.
    ///
    /// Allocates as `from_array_in` does.
    ///
    /// # Errors
    /// Returns the same errors as `from_array_in`. The array is returned in the error.
    ///
    /// Corresponds to allocator-api2's `From<[T; N]>`, which aborts if the allocation fails.
    pub fn from_array<const N: usize>(alloc: Global, items: [T; N]) -> Result<Self, Refused<[T; N]>>
        ensures made { IfOk result (IsMade (type_size T.row) N Doubling items (run_count N)) }
        ensures alloc { IfOk result (λ v. v.alloc ≡ alloc) }
        ensures returned { IfErr result (λ r. r.source ≡ items) }
        ensures error { IfErr result (λ r. AllocationFails N (type_size T.row) r.error) }
    {
        Vec::from_array_in(items, alloc)
    }
}

impl<T, A: Allocator> Vec<T, A> {
    /// Returns a vector of the elements of an array, with capacity for exactly these.
    ///
    /// Allocates if there are any and they are not zero-sized.
    ///
    /// # Errors
    /// Returns `CapacityOverflow`, or `AllocError` with the length of the array. The array is
    /// returned in the error.
    ///
    /// Not in allocator-api2.
    #[tactic(auto, using(aa_raw::proofs::Calls::in_runs))]
    pub fn from_array_in<const N: usize>(items: [T; N], alloc: A) -> Result<Self, Refused<[T; N]>>
        ensures made { IfOk result (IsMade (type_size T.row) N Doubling items (run_count N)) }
        ensures alloc { IfOk result (λ v. v.alloc ≡ alloc) }
        ensures returned { IfErr result (λ r. r.source ≡ items) }
        ensures error { IfErr result (λ r. AllocationFails N (type_size T.row) r.error) }
    {
        match Vec::with_capacity_in(N, alloc) {
            Ok(made) => {
                let mut made = made;
                made.put_block(items);
                Ok(made)
            }
            Err(error) => Err(Refused {
                source: items,
                error,
            }),
        }
    }

    // Appends the elements of an array, which fit.
    #[inline]
    #[tactic(auto, using(aa_raw::proofs::Calls::in_runs, crate::proofs::Becoming::becomes, crate::proofs::Tidy::few_at_end))]
    pub(crate) fn put_block<const N: usize>(&mut self, items: [T; N])
        requires long { length items ≡ N }
        requires room { len self.old + N ≤ self.old.capacity }
        ensures { Becomes self.old (self.old.items ++ items) N (run_count N) self.new }
    {
        let len = self.len;
        self.block.prove_capacity_bounds();
        self.block.put_array(len, items);
        self.len = len + N;
    }

    // Returns all elements as an array, and deallocates the block.
    #[tactic(auto, using(aa_raw::proofs::Calls::in_runs, aa_raw::proofs::Calls::shown, aa_raw::proofs::Beyond::emptied, crate::proofs::Tidy::few_at_end))]
    fn take_out<const N: usize>(self) -> [T; N]
        requires { len self ≡ N }
        ensures { result ≡ self.items }
    {
        let Vec {
            mut block,
            len,
            apart,
            settled,
        } = self;
        let items = block.take_array();
        forget_apart(&mut block, len, &apart, &settled);
        items
    }
}

impl<T, A: Allocator, const N: usize> TryFrom<Vec<T, A>> for [T; N] {
    type Error = Vec<T, A>;

    ghost try_from_gives = { λ v r. MatchResult r
        (λ xs. (xs ≡ v.items) × (len v ≡ N))
        (λ w. (w ≡ v) × (len v ≢ N)) };

    /// Returns the elements of a vector of length `N` as an array, and deallocates its block.
    ///
    /// Does not allocate.
    ///
    /// # Errors
    /// A vector of another length is returned in the error, unchanged.
    fn try_from(v: Vec<T, A>) -> Result<[T; N], Vec<T, A>> {
        if v.len() != N {
            return Err(v);
        }
        Ok(v.take_out())
    }
}

impl<T, A: Allocator, const N: usize> Vec<[T; N], A> {
    /// Returns a vector of the elements of all arrays, in order.
    ///
    /// The new vector is over a clone of the allocator, and has the growth policy of this one. Its
    /// capacity is that for the elements of as many arrays as this one has capacity for. The
    /// elements are moved there, and the old block is deallocated. Allocates if the new capacity is
    /// above 0 and the elements are not zero-sized.
    ///
    /// # Errors
    /// Returns `CapacityOverflow`, always if the number of elements would exceed `usize::MAX`; or
    /// `AllocError` with the requested capacity, also if the clone of the allocator fails. The
    /// vector is returned in the error, unchanged.
    ///
    /// The original keeps the block, and panics if the number of elements would exceed
    /// `usize::MAX`.
    pub fn into_flattened(self) -> Result<Vec<T, A>, Refused<Self>>
    where
        A: Clone,
        ensures made { let calls = len self * run_count N in
            let items = flattened self.items in
            IfOk result (IsMade (type_size T.row) (self.capacity * N) self.growth items calls) }
        ensures alloc { IfOk result (λ v. A.is_clone self.alloc v.alloc) }
        ensures returned { IfErr result (λ r. r.source ≡ self) }
        ensures error { let sure = A.is_infallible self.alloc in
            IfErr result (λ r. LacksRoomForFlattened sure N (type_size T.row) self r.error) }
    {
        match self.room_for_all() {
            Ok(flat) => Ok(self.pour_into(flat)),
            Err(error) => Err(Refused {
                source: self,
                error,
            }),
        }
    }

    // Returns an empty vector over a clone of the allocator, with the same growth policy. It has
    // capacity for the elements of as many arrays as this one has places.
    #[tactic(auto, using(crate::proofs::Flattening::in_arrays))]
    fn room_for_all(&self) -> Result<Vec<T, A>, TryReserveError>
    where
        A: Clone,
        ensures made { let capacity = self.now.capacity * N in
            IfOk result (IsMade (type_size T.row) capacity self.now.growth [] 0) }
        ensures alloc { IfOk result (λ v. A.is_clone self.now.alloc v.alloc) }
        ensures enough { IfOk result (λ v. len self.now * N ≤ v.capacity) }
        ensures error { let sure = A.is_infallible self.now.alloc in
            IfErr result (LacksRoomForFlattened sure N (type_size T.row) self.now) }
    {
        self.check_number()?;
        self.prove_capacity_bounds();
        empty_over(self.allocator(), self.growth(), self.flat_capacity())
    }

    // Fails if the arrays have more than `usize::MAX` elements in all.
    #[tactic(auto, using(aa_raw::proofs::Calls::at_ends))]
    fn check_number(&self) -> Result<(), TryReserveError>
        ensures fits_usize { OnOk result (len self.now * N ≤ usize_max) }
        ensures over { OnErr result (usize_max < len self.now * N) }
        ensures error { IfErr result (λ e. e.kind ≡ CapacityOverflow) }
    {
        if self.len.checked_mul(N).is_none() {
            return Err(TryReserveErrorKind::CapacityOverflow.into());
        }
        Ok(())
    }

    // Returns the capacity for the elements of the arrays of all places. The capacity of a block
    // without memory shows whether the elements are zero-sized.
    #[tactic(auto, using(aa_raw::proofs::Beyond::emptied))]
    fn flat_capacity(&self) -> usize
        ensures { result ≡ new_capacity (type_size T.row) (self.now.capacity * N) }
    {
        let none: RawVec<T, &A> = RawVec::new_in(self.block.allocator());
        let capacity = self.block.capacity();
        let zst_capacity = none.capacity();
        if zst_capacity == 0 {
            capacity * N
        } else {
            zst_capacity
        }
    }

    // Appends the elements of all arrays, in order, to a vector that has capacity for them.
    // Deallocates the old block, and returns that vector.
    #[tactic(auto, using(aa_raw::proofs::Calls::at_ends, aa_raw::proofs::Beyond::at_sides, crate::proofs::Flattening::poured, crate::proofs::Becoming::becomes, crate::proofs::Becoming::became, crate::proofs::Tidy::few_at_end))]
    fn pour_into(self, flat: Vec<T, A>) -> Vec<T, A>
        requires room { len flat + len self * N ≤ flat.capacity }
        ensures poured { let calls = len self * run_count N in
            Becomes flat (flat.items ++ flattened self.items) (len self * N) calls result }
        ensures long { length (flattened self.items) ≡ len self * N }
    {
        let Vec {
            mut block,
            len,
            apart,
            settled,
        } = self;
        let mut flat = flat;
        'each: for i in 0..len {
            flat.put_block(block.take(i));
        }
        forget_apart(&mut block, len, &apart, &settled);
        flat
    }
}

/// The conversion of a boxed array into a vector.
///
/// In the original, `into_vec` is a method of the box itself; here the vector is built on the box.
pub trait ArrayIntoVec<T, A: Allocator + Clone, const N: usize> {
    ghost use Rattle.std.specs.Prelude.{List};
    ghost use Rattle.aa_boxed.specs.Boxed.{Boxed};
    ghost use Rattle.aa_vec.specs.Arrays.{IsUnboxedArray};

    /// The boxed array.
    ghost as_array: { Self → Boxed (List T) A };

    /// Returns a vector of the elements, over a clone of the allocator, with capacity for exactly
    /// these.
    ///
    /// The elements are moved to a new block, and that of the box is deallocated. Allocates if
    /// there are elements and they are not zero-sized.
    ///
    /// # Errors
    /// Returns `CapacityOverflow`, or `AllocError` with the number of elements, also if the clone
    /// of the allocator fails. The box is returned in the error, unchanged.
    ///
    /// Corresponds to allocator-api2's `Box<[T; N], A>::into_vec`, which keeps the block.
    fn into_vec(self) -> Result<Vec<T, A>, Refused<Self>>
        ensures made { IfOk result (IsUnboxedArray A.is_clone (type_size T.row) (as_array self)) }
        ensures returned { IfErr result (λ r. r.source ≡ self) }
        ensures error { let sure = A.is_infallible (as_array self).alloc in
            IfErr result (λ r. ClonesFail sure N (type_size T.row) r.error) };
}

impl<T, A: Allocator + Clone, const N: usize> ArrayIntoVec<T, A, N> for Box<[T; N], A> {
    ghost as_array = { λ b. b };

    fn into_vec(self) -> Result<Vec<T, A>, Refused<Self>> {
        match Box::slice(self) {
            Ok(list) => Ok(list.into_vec()),
            Err(error) => Err(error),
        }
    }
}
