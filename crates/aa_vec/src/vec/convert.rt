//! Conversions from and to vectors; here into an iterator over the elements, and from and to a block.
ghost use Rattle.std.specs.Prelude.{◌≡◌};
ghost use Rattle.aa_raw.specs.Places.{IsRun};
ghost use Rattle.aa_vec.specs.Boxes.{all_remaining};
ghost use Rattle.aa_vec.specs.Vector.{vector_in};

use crate::vec::{IntoIter, Vec};
use aa_raw::counter::Counter;
use aa_raw::raw_vec::RawVec;
use std::alloc::Allocator;

pub mod arrays;
pub mod boxed;

impl<T, A: Allocator> Vec<T, A> {
    /// Returns a double-ended iterator over the elements, by value.
    ///
    /// The iterator takes over the block, with its capacity and counters. Does not allocate.
    pub fn into_iter(self) -> IntoIter<T, A>
        ensures { result ≡ all_remaining self }
    {
        let Vec {
            block,
            len,
            apart: _apart,
            settled: _settled,
        } = self;
        IntoIter::from_block(block, len)
    }

    /// Returns the block of the vector, and the number of elements, which are in its first places.
    ///
    /// Does not allocate. Corresponds to allocator-api2's `into_raw_parts_with_alloc`.
    pub fn into_block(self) -> (RawVec<T, A>, usize)
        ensures filled { IsRun result.0.places 0 result.1 }
        ensures same { vector_in result.0 result.1 ≡ self }
    {
        let Self {
            block,
            len,
            apart: _apart,
            settled: _settled,
        } = self;
        (block, len)
    }

    /// Returns a vector of the values in the first `len` places of `block`.
    ///
    /// Does not allocate. The values in the other places are not dropped with the vector.
    /// Corresponds to allocator-api2's `from_raw_parts_in`.
    #[tactic(auto, using(crate::proofs::Tidy::few_at_end))]
    pub fn from_block(block: RawVec<T, A>, len: usize) -> Self
        requires { IsRun block.places 0 len }
        ensures { result ≡ vector_in block len }
    {
        // They may hold as many values as there are places.
        let mut apart = Counter::zero();
        apart.add(block.capacity());
        Vec {
            block,
            len,
            apart,
            settled: Counter::zero(),
        }
    }
}

impl<T: Drop, A: Allocator> IntoIterator for Vec<T, A> {
    type Item = T;

    type IntoIter = IntoIter<T, A>;

    ghost into_iter_gives = { λ v i. i ≡ all_remaining v };

    fn into_iter(self) -> IntoIter<T, A> {
        Vec::into_iter(self)
    }
}
