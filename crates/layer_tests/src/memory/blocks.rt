//! The block.
use crate::memory::is_all_freed;
use aa_raw::collections::{TryReserveError, TryReserveErrorKind};
use aa_raw::raw_vec::{RawVec, first_growth_error};
use std::alloc::Global;
use std::cell::Cell;
use test_allocators::Faulty;
use test_allocators::counted::Counted;

type Block<'a> = RawVec<Counted<'a>, &'a Faulty<Global>>;

// Drops two of three values, forgets the third, and drops the block. Returns how many values were
// dropped before that.
#[tactic(auto, unfolding(aa_raw::specs::Places::with_run))]
fn two_dropped<'a>(heap: &'a Faulty<Global>, drops: &'a Cell<u32>) -> Result<u32, TryReserveError> {
    let mut block: Block<'a> = RawVec::with_capacity_in(3, heap)?;
    let one = |value| Counted { value, drops };
    block.put_array(0, [one(0), one(1), one(2)]);
    block.drop_run(0, 2);
    block.forget_run(2, 1);
    Ok(drops.get())
}

// A value that was forgotten is not dropped with the block.
#[test]
fn a_run_is_dropped_and_a_block_freed(rt: HostRuntime) {
    let heap = Faulty::new(rt.alloc());
    let drops = Cell::new(0);
    assert!(rt; two_dropped(&heap, &drops) == Ok(2) && drops.get() == 2);
    assert!(rt; heap.requests() == 1 && is_all_freed(&heap));
}

#[test]
fn a_first_growth_that_fails_has_its_kind(rt: HostRuntime) {
    for (required, kind) in [
        (3, TryReserveErrorKind::AllocError { capacity: 4 }),
        (9, TryReserveErrorKind::AllocError { capacity: 9 }),
        (1 << 61, TryReserveErrorKind::CapacityOverflow),
        (usize::MAX, TryReserveErrorKind::CapacityOverflow),
    ] {
        assert!(rt;
            first_growth_error::<u32>(required).kind() == kind,
            "{required}"
        );
    }
}
