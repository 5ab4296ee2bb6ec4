//! The tail of a vector, that is elements in the places after its items: steps over them, and gaps
//! that are opened, filled and closed.
ghost use Rattle.std.specs.Prelude.{◌≡◌, ◌+◌, ◌-◌, ◌≤◌, length};
ghost use Rattle.aa_raw.specs.Block.{without};
ghost use Rattle.aa_vec.specs.Tail.{count_from};

use aa_raw::counter::Counter;
use aa_raw::raw_vec::RawVec;
use std::alloc::Allocator;

pub(crate) mod gap;
pub(crate) mod moves;
pub(crate) mod steps;

// Forgets the values in the places of `block` from the index `from` on, which are no more than were
// set apart and not settled. Nothing else of this crate forgets a value.
#[inline(always)]
pub(crate) fn forget_apart<T, A: Allocator>(
    block: &mut RawVec<T, A>,
    from: usize,
    _apart: &Counter,
    _settled: &Counter,
)
    requires within { from ≤ length block.old.places }
    requires few { count_from block.old.places from + _settled.now.count ≤ _apart.now.count }
    ensures { block.new ≡ without block.old from (length block.old.places - from) }
{
    block.forget_from(from);
}
