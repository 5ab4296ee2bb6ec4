//! Conversions of arrays to boxed slices, and of boxed slices to boxed arrays.
ghost use Rattle.std.specs.Prelude.{◌≡◌, ◌≤◌, length, MatchResult, IfOk, IfErr};
ghost use Rattle.std.specs.Mem.{type_size};
ghost use Rattle.aa_raw.specs.Errors.{AllocationFails, ClonesFail};
ghost use Rattle.aa_raw.specs.Growths.{of_new};
ghost use Rattle.aa_raw.specs.declared.raw_vec.Growth.TheVariants.{Doubling};
ghost use Rattle.aa_boxed.specs.Room.{IsExactFor};
ghost use Rattle.aa_boxed.specs.Arrays.{Unboxes, ReturnsBoxed};
ghost use Rattle.aa_boxed.specs.Slice.{new_slice};

use crate::boxed::{Box, BoxedSlice, UninitBox};
use aa_raw::collections::{Refused, TryReserveErrorKind};
use aa_raw::raw_vec::RawVec;
use std::alloc::{Allocator, Global};

impl<T> BoxedSlice<T, Global> {
    /// Returns the elements of an array as a boxed slice, allocated by the global allocator.
    ///
    /// Does not allocate if the array is empty or its elements are zero-sized.
    ///
    /// # Errors
    /// `CapacityOverflow`; or `AllocError` with the length of the array. `items` is returned in the
    /// error.
    ///
    /// Corresponds to allocator-api2's `From<[T; N]>` for `Box<[T]>`, which aborts instead of
    /// returning an error.
    pub fn from_array<const N: usize>(alloc: Global, items: [T; N]) -> Result<Self, Refused<[T; N]>>
        ensures made { IfOk result (λ b. b ≡ new_slice (type_size T.row) items alloc) }
        ensures returned { IfErr result (λ r. r.source ≡ items) }
        ensures error { IfErr result (λ r. AllocationFails N (type_size T.row) r.error) }
    {
        BoxedSlice::from_array_in(items, alloc)
    }
}

impl<T, A: Allocator> BoxedSlice<T, A> {
    /// Returns the elements of an array as a boxed slice, allocated by `alloc`.
    ///
    /// Does not allocate if the array is empty or its elements are zero-sized.
    ///
    /// # Errors
    /// `CapacityOverflow`; or `AllocError` with the length of the array. `items` is returned in the
    /// error.
    ///
    /// Not in allocator-api2.
    pub fn from_array_in<const N: usize>(items: [T; N], alloc: A) -> Result<Self, Refused<[T; N]>>
        ensures made { IfOk result (λ b. b ≡ new_slice (type_size T.row) items alloc) }
        ensures returned { IfErr result (λ r. r.source ≡ items) }
        ensures error { IfErr result (λ r. AllocationFails N (type_size T.row) r.error) }
    {
        match RawVec::with_capacity_in(N, alloc) {
            Ok(block) => Ok(slice_from_array(block, items)),
            Err(error) => Err(Refused {
                source: items,
                error,
            }),
        }
    }

    /// Returns the elements as a boxed array, over a clone of the allocator, if there are `N` of
    /// them.
    ///
    /// Allocates a new block, and deallocates that of the boxed slice. Does not allocate if `N` is
    /// 0 or the elements are zero-sized.
    ///
    /// # Errors
    /// The boxed slice, unchanged, if its length is not `N`, or if the allocation or the clone of
    /// the allocator fails.
    ///
    /// Corresponds to allocator-api2's `TryFrom<Box<[T], A>>` for `Box<[T; N], A>`, which keeps the
    /// block.
    pub fn try_into_array<const N: usize>(self) -> Result<Box<[T; N], A>, Self>
    where
        A: Clone,
        ensures { MatchResult result (λ b. Unboxes A.is_clone N self b)
            (λ s. ReturnsBoxed (A.is_infallible self.alloc) N (type_size T.row) self s) }
    {
        if self.as_slice().len() != N {
            return Err(self);
        }
        let Ok(alloc) = self.allocator().clone() else {
            return Err(self);
        };
        match Box::new_uninit_in(alloc) {
            Ok(room) => Ok(UninitBox::write(room, self.into_array())),
            Err(_) => Err(self),
        }
    }

    // Returns all elements as an array, and deallocates the block.
    #[tactic(auto, using(aa_raw::proofs::Calls::in_runs, aa_raw::proofs::Calls::shown, aa_raw::proofs::Beyond::emptied))]
    fn into_array<const N: usize>(self) -> [T; N]
        requires { length self.items ≡ N }
        ensures { result ≡ self.items }
    {
        let (mut block, _len) = self.into_block();
        block.take_array()
    }
}

impl<T, A: Allocator, const N: usize> Box<[T; N], A> {
    /// Returns the elements of the array as a boxed slice, over a clone of the allocator.
    ///
    /// Allocates a new block, and deallocates that of the box. Does not allocate if `N` is 0 or the
    /// elements are zero-sized.
    ///
    /// # Errors
    /// `CapacityOverflow`; or `AllocError` with the number of elements, if the allocation or the
    /// clone of the allocator fails. The box is returned in the error, unchanged.
    ///
    /// allocator-api2's `slice` keeps the block.
    pub fn slice(b: Self) -> Result<BoxedSlice<T, A>, Refused<Self>>
    where
        A: Clone,
        ensures made { IfOk result (λ s. s.items ≡ b.value) }
        ensures growth { IfOk result (λ s. s.growth ≡ Doubling) }
        ensures grown { IfOk result (λ s. s.grown ≡ of_new (type_size T.row) (length b.value)) }
        ensures alloc { IfOk result (λ s. A.is_clone b.alloc s.alloc) }
        ensures returned { IfErr result (λ r. r.source ≡ b) }
        ensures error { IfErr result
            (λ r. ClonesFail (A.is_infallible b.alloc) N (type_size T.row) r.error) }
    {
        let Ok(alloc) = Box::allocator(&b).clone() else {
            let error = TryReserveErrorKind::AllocError { capacity: N }.into();
            return Err(Refused { source: b, error });
        };
        match RawVec::with_capacity_in(N, alloc) {
            Ok(block) => Ok(slice_from_array(block, Box::into_inner(b))),
            Err(error) => Err(Refused { source: b, error }),
        }
    }
}

// Returns the elements of an array as a boxed slice, in an empty block that they fill exactly.
#[tactic(auto, using(aa_raw::proofs::Calls::in_runs, aa_raw::proofs::Calls::shown))]
fn slice_from_array<T, A: Allocator, const N: usize>(
    block: RawVec<T, A>,
    items: [T; N],
) -> BoxedSlice<T, A>
    requires exact { IsExactFor N block.places × (N ≤ length block.places) }
    ensures { result ≡ record {
      items = items;
      growth = block.growth;
      grown = block.grown;
      alloc = block.alloc;
    } }
{
    let mut block = block;
    block.put_array(0, items);
    BoxedSlice::from_block(block, N)
}
