//! Growth that keeps two runs of a block, and its errors.
ghost use Rattle.std.specs.Prelude.{◌≡◌, [], ◌∷◌, Some, None, IfOk};

use crate::raw::outcome_of;
use aa_raw::collections::TryReserveError;
use aa_raw::raw_vec::RawVec;
use std::alloc::Global;
use std::test::Fail;
use test_allocators::Faulty;

type Block<'a> = RawVec<u32, &'a Faulty<Global>>;

// A block `12 13 _ 10 11`, as a queue has that went around.
#[tactic(auto, unfolding(aa_raw::specs::Places::with_run))]
fn around<'a>(heap: &'a Faulty<Global>) -> Result<Block<'a>, TryReserveError>
    ensures { IfOk result
        (λ block. block.places ≡ Some 12 ∷ Some 13 ∷ None ∷ Some 10 ∷ Some 11 ∷ []) }
{
    let mut block = RawVec::with_capacity_in(5, heap)?;
    block.put_array(0, [12, 13]);
    block.put_array(3, [10, 11]);
    Ok(block)
}

// Reserves capacity in such a block, in line or at the ends. Returns the capacity then.
fn reserved(
    block: &mut Block<'_>,
    in_line: bool,
    additional: usize,
) -> Result<usize, TryReserveError>
    requires { block.old.places ≡ Some 12 ∷ Some 13 ∷ None ∷ Some 10 ∷ Some 11 ∷ [] }
{
    if in_line {
        block.try_reserve_joined((3, 2), (0, 2), additional)?;
        if additional > 1 && block.slice(0, 4) != [10, 11, 12, 13].as_slice() {
            return Ok(0);
        }
    } else {
        block.try_reserve_parted((0, 2), (3, 2), additional)?;
    }
    Ok(block.capacity())
}

// The same, of a block whose values are then forgotten, and which is dropped.
#[tactic(auto, using(aa_raw::proofs::Beyond::emptied))]
fn room_of(mut block: Block<'_>, in_line: bool, additional: usize) -> Result<usize, TryReserveError>
    requires { block.places ≡ Some 12 ∷ Some 13 ∷ None ∷ Some 10 ∷ Some 11 ∷ [] }
{
    let room = reserved(&mut block, in_line, additional);
    block.forget_from(0);
    room
}

// In line or at the ends, how many more, how many requests fail, whether the call succeeds, and the
// capacity that there is or that was requested in vain, or 0 past the limits. One more value fits
// without a growth; otherwise those in line are kept so.
fn rooms() -> [(bool, usize, u64, bool, usize); 8] {
    [
        (true, 1, 1, true, 5),
        (false, 1, 1, true, 5),
        (true, 2, 0, true, 10),
        (false, 7, 0, true, 11),
        (true, 2, 1, false, 10),
        (false, 7, 1, false, 11),
        (true, usize::MAX - 3, 0, false, 0),
        (false, usize::MAX, 0, false, 0),
    ]
}

#[test]
fn a_growth_of_two_runs_can_fail(rt: HostRuntime) -> Result<(), Fail> {
    let heap = Faulty::new(rt.alloc());
    for (in_line, additional, count, granted, capacity) in rooms() {
        heap.fail_requests(1, count);
        let before = heap.requests();
        let room = outcome_of(room_of(around(&heap)?, in_line, additional));
        assert!(rt; room == (granted, capacity) && heap.outstanding() == 0);
        // The block itself is one request, and a growth is another.
        let growths = if capacity > 5 { 1u64 } else { 0 };
        assert!(rt; heap.requests().wrapping_sub(before) == growths.wrapping_add(1));
    }
    Ok(())
}
