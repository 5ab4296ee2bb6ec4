//! Rings made of vectors, and vectors made of rings, in one block.
ghost use Rattle.std.specs.Prelude.{◌≡◌};
ghost use Rattle.aa_ring.specs.Vectors.{HasItemsOf, of_vector};

use crate::ring::Ring;
use crate::ring::shrink::gather;
use allocator_api2::counter::Counter;
use allocator_api2::vec::Vec;
use std::alloc::Allocator;

impl<T, A: Allocator> From<Vec<T, A>> for Ring<T, A> {
    ghost from_gives = { λ list ring. ring ≡ of_vector list };

    /// Returns a ring of the elements of `list`, in the block of the vector.
    ///
    /// Does not allocate, and moves no element.
    #[tactic(auto, using(allocator_api2::proofs::Blocks::with_room, crate::proofs::Rings::in_one_run))]
    fn from(list: Vec<T, A>) -> Self {
        let (block, len) = list.into_block();
        Ring {
            block,
            front: 0,
            count: len,
            wrapped: 0,
            added: Counter::zero(),
        }
    }
}

impl<T, A: Allocator> Ring<T, A> {
    /// Returns a vector of the items, in the block of the ring.
    ///
    /// Does not allocate. The items are moved to the beginning of the block, unless they are there.
    /// Corresponds to std's `From<VecDeque>`.
    #[tactic(auto, using(allocator_api2::proofs::Blocks::with_room, crate::proofs::Rings::in_one_run))]
    pub fn into_vec(self) -> Vec<T, A>
        ensures { HasItemsOf self result }
    {
        let Ring {
            mut block,
            front,
            count,
            wrapped,
            added: _,
        } = self;
        block.prove_capacity_bounds();
        let _written = gather(&mut block, front, count, wrapped);
        Vec::from_block(block, count + wrapped)
    }
}

impl<T, A: Allocator> From<Ring<T, A>> for Vec<T, A> {
    ghost from_gives = { HasItemsOf };

    /// Returns the items as `Ring::into_vec` does.
    fn from(ring: Ring<T, A>) -> Self {
        ring.into_vec()
    }
}
