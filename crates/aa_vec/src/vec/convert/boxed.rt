//! Conversions between vectors and boxed slices.
ghost use Rattle.std.specs.Prelude.{◌≡◌, ◌≢◌, IfOk, IfErr};
ghost use Rattle.std.specs.Mem.{type_size};
ghost use Rattle.aa_raw.specs.Growth.{usize_max};
ghost use Rattle.aa_vec.specs.Vector.{len, with_less};
ghost use Rattle.aa_vec.specs.Boxes.{boxed, ReturnsVector, IsUnboxed};

use crate::vec::Vec;
use aa_boxed::boxed::BoxedSlice;
use aa_raw::collections::Refused;
use aa_raw::counter::Counter;
use std::alloc::Allocator;

impl<T, A: Allocator> Vec<T, A> {
    /// Returns the elements as a boxed slice.
    ///
    /// Spare capacity is freed as by `shrink_to_fit`. So it allocates only if the length is neither
    /// 0 nor the capacity, and the elements are not zero-sized.
    ///
    /// # Errors
    /// Returns `AllocError` with the length. The vector is returned in the error, unchanged.
    ///
    /// The original aborts if the allocation fails.
    #[tactic(auto, using(aa_raw::proofs::Calls::at_ends, crate::proofs::Becoming::became))]
    pub fn into_boxed_slice(self) -> Result<BoxedSlice<T, A>, Refused<Self>>
        ensures made { let less = with_less (type_size T.row) self (len self) in
            IfOk result (λ b. b ≡ record {
              items = less.items;
              growth = less.growth;
              grown = less.grown;
              alloc = less.alloc;
            }) }
        ensures failed { IfErr result (λ r. ReturnsVector (type_size T.row) self r) }
    {
        let mut vec = self;
        match vec.shrink_to_fit() {
            Ok(()) => Ok(vec.whole()),
            Err(error) => Err(Refused { source: vec, error }),
        }
    }

    // Returns the elements of a vector without spare capacity as a boxed slice.
    #[tactic(auto, using(aa_raw::proofs::Calls::at_ends))]
    fn whole(self) -> BoxedSlice<T, A>
        requires { len self ≢ self.capacity → self.capacity ≡ usize_max }
        ensures { result ≡ boxed self }
    {
        let Vec {
            block,
            len,
            apart: _apart,
            settled: _settled,
        } = self;
        BoxedSlice::from_block(block, len)
    }
}

/// The conversion of a boxed slice into a vector.
///
/// In the original, `into_vec` is a method of the boxed slice itself; here the vector is built on
/// the boxed slice.
pub trait SliceIntoVec<T, A: Allocator> {
    ghost use Rattle.aa_boxed.specs.Slice.{Slice};

    /// The boxed slice.
    ghost as_slice: { Self → Slice T A };

    /// Returns a vector of the elements, without spare capacity.
    ///
    /// Does not allocate.
    ///
    /// Corresponds to allocator-api2's `Box<[T], A>::into_vec`.
    fn into_vec(self) -> Vec<T, A>
        ensures { IsUnboxed (type_size T.row) (as_slice self) result };
}

impl<T, A: Allocator> SliceIntoVec<T, A> for BoxedSlice<T, A> {
    ghost as_slice = { λ b. b };

    #[tactic(auto, using(crate::proofs::Boxing::unboxed, crate::proofs::Tidy::few_at_end))]
    fn into_vec(self) -> Vec<T, A> {
        let (block, len) = self.into_block();
        block.prove_capacity_bounds();
        Vec {
            block,
            len,
            apart: Counter::zero(),
            settled: Counter::zero(),
        }
    }
}
