//! What no clause says of a block: sizes, the tables of capacities, and each public call once.
#![tactic(auto, using(aa_raw::proofs::Beyond::emptied))]

ghost use Rattle.std.specs.Prelude.{◌≡◌, [], ◌∷◌, Some, None, IfOk, OnOk};

use crate::memory::has_due_requests;
use crate::raw::outcome_of;
use aa_raw::collections::{Refused, TryReserveError, TryReserveErrorKind};
use aa_raw::raw_vec::{Growth, RawVec};
use std::alloc::{AllocError, Allocator, Global};
use std::mem::size_of;
use std::test::Fail;
use test_allocators::Faulty;

const _: () = prove!(size_of::<RawVec<u64, Global>>() == 16);

// A block `10 11 _`.
fn two_of_three(alloc: Global) -> Result<RawVec<u32>, TryReserveError>
    ensures { IfOk result (λ block. block.places ≡ Some 10 ∷ Some 11 ∷ None ∷ []) }
{
    let mut block: RawVec<u32> = RawVec::with_capacity(alloc, 3)?;
    block.put(0, 10);
    block.put(1, 11);
    Ok(block)
}

#[test]
fn places_are_put_and_taken(rt: HostRuntime) -> Result<(), Fail> {
    let mut block = two_of_three(rt.alloc())?;
    let _alloc: &Global = block.allocator();
    block.put(1, 12);
    assert!(rt; *block.place(1) == 12);
    assert!(rt; block.take(1) == 12 && block.take(0) == 10);
    Ok(())
}

#[test]
#[tactic(auto, unfolding(aa_raw::specs::Places::with_run, aa_raw::specs::Places::moved))]
fn places_are_written_to(rt: HostRuntime) -> Result<(), Fail> {
    let mut block = two_of_three(rt.alloc())?;
    *block.place_mut(1) = 13;
    block.slice_mut(0, 2)[0] = 9;
    assert!(rt; block.slice(0, 2) == [9, 13].as_slice());
    block.drop_run(0, 2);
    Ok(())
}

// Grows a block with two values, and cuts it to these. Returns its capacity between.
fn grown_and_cut(block: &mut RawVec<u32>) -> Result<usize, TryReserveError>
    requires { block.old.places ≡ Some 10 ∷ Some 11 ∷ None ∷ [] }
    ensures { OnOk result (block.new.places ≡ Some 10 ∷ Some 11 ∷ []) }
{
    block.reserve(2, 2)?;
    let grown = block.capacity();
    block.shrink_to_fit(2, 2)?;
    Ok(grown)
}

#[test]
fn values_are_kept_when_a_block_grows_or_shrinks(rt: HostRuntime) -> Result<(), Fail> {
    let mut block = two_of_three(rt.alloc())?;
    let grown = grown_and_cut(&mut block);
    let kept = grown.is_ok() && block.slice(0, 2) == [10, 11].as_slice();
    block.forget_from(0);
    assert!(rt; grown == Ok(6) && kept);
    Ok(())
}

// A call that reserves capacity in an empty block, or frees it.
#[derive(Clone, Copy)]
enum Room {
    Reserve(usize),
    TryReserve(usize),
    ReserveExact(usize),
    TryReserveExact(usize),
    ForPush,
    Shrink(usize),
}

fn made<T, A: Allocator>(room: Room, block: &mut RawVec<T, A>) -> Result<(), TryReserveError> {
    match room {
        Room::Reserve(count) => block.reserve(0, count),
        Room::TryReserve(count) => block.try_reserve(0, count),
        Room::ReserveExact(count) => block.reserve_exact(0, count),
        Room::TryReserveExact(count) => block.try_reserve_exact(0, count),
        Room::ForPush => block.reserve_for_push(0),
        Room::Shrink(capacity) => block.shrink_to_fit(0, capacity.min(block.capacity())),
    }
}

// Returns whether a new block has this capacity after each of these calls, or an overflow if there
// is none. A call makes one request if it allocates a new block, and else none.
fn has_capacities<T>(
    heap: &Faulty<Global>,
    growth: Option<Growth>,
    rooms: &[(Room, Option<usize>)],
) -> bool {
    let mut block: RawVec<T, &Faulty<Global>> = match growth {
        Some(growth) => RawVec::with_growth_in(growth, heap),
        None => RawVec::new_in(heap),
    };
    let mut all = block.growth() == growth.unwrap_or(Growth::Doubling);
    for (room, capacity) in rooms {
        let (places, requests) = (block.capacity(), heap.requests());
        let came = made(*room, &mut block);
        all = all && is_so(came, block.capacity(), *capacity);
        all = all && has_due_requests(heap, requests, places, block.capacity());
    }
    block.forget_from(0);
    all
}

fn is_so(outcome: Result<(), TryReserveError>, capacity: usize, wanted: Option<usize>) -> bool {
    match wanted {
        Some(wanted) => outcome.is_ok() && capacity == wanted,
        None => outcome == Err(TryReserveErrorKind::CapacityOverflow.into()),
    }
}

// Growths and cuts, one after the other, and the capacity after each. What fits leaves it.
const ROOMS: [(Room, Option<usize>); 10] = [
    (Room::TryReserveExact(3), Some(3)),
    (Room::TryReserveExact(5), Some(5)),
    (Room::Reserve(5), Some(5)),
    (Room::TryReserve(5), Some(5)),
    (Room::ReserveExact(5), Some(5)),
    (Room::ForPush, Some(5)),
    (Room::Shrink(5), Some(5)),
    (Room::ReserveExact(12), Some(12)),
    (Room::Shrink(2), Some(2)),
    (Room::Shrink(0), Some(0)),
];

// Doubling continues from an exact capacity.
const DOUBLING: [(Room, Option<usize>); 3] = [
    (Room::TryReserve(1 << 63), None),
    (Room::Reserve(9), Some(9)),
    (Room::Reserve(10), Some(18)),
];

const SPARING: [(Room, Option<usize>); 2] = [
    (Room::ForPush, Some(8)),
    (Room::Reserve(9), Some(12)),
];

const ZST: [(Room, Option<usize>); 3] = [
    (Room::TryReserve(usize::MAX), Some(usize::MAX)),
    (Room::TryReserveExact(usize::MAX), Some(usize::MAX)),
    (Room::Shrink(0), Some(usize::MAX)),
];

const FIRST: Room = Room::TryReserve(1);

#[test]
fn capacity_is_as_requested_or_as_the_growth_policy_has_it(rt: HostRuntime) {
    let heap = Faulty::new(rt.alloc());
    assert!(rt; has_capacities::<u32>(&heap, None, &ROOMS));
    assert!(rt; has_capacities::<u8>(&heap, None, &DOUBLING));
    assert!(rt; has_capacities::<u8>(&heap, Some(Growth::Sparing), &SPARING));
    assert!(rt; has_capacities::<u32>(&heap, Some(Growth::InPlace), &ROOMS));
    assert!(rt; has_capacities::<u8>(&heap, Some(Growth::InPlace), &DOUBLING));
    assert!(rt; has_capacities::<()>(&heap, None, &ZST));
    // The least capacity is by the size.
    assert!(rt; has_capacities::<u8>(&heap, None, &[(FIRST, Some(8))]));
    assert!(rt; has_capacities::<[u8; 1024]>(&heap, None, &[(FIRST, Some(4))]));
    assert!(rt; has_capacities::<[u8; 1025]>(&heap, None, &[(FIRST, Some(1))]));
    assert!(rt; heap.outstanding() == 0);
}

// The capacity of a block for numbers that is made with so many places.
fn made_with(alloc: Global, capacity: usize) -> Result<usize, TryReserveError> {
    let block: RawVec<u32> = RawVec::with_capacity_in(capacity, alloc)?;
    Ok(block.capacity())
}

#[test]
fn a_block_has_the_capacity_requested(rt: HostRuntime) {
    for (capacity, granted, has) in [(3, true, 3), (1 << 61, false, 0)] {
        assert!(rt; outcome_of(made_with(rt.alloc(), capacity)) == (granted, has));
    }
}

#[test]
#[tactic(auto, using(aa_raw::proofs::Calls::at_ends, aa_raw::proofs::Beyond::emptied))]
fn zsts_do_not_allocate(rt: HostRuntime) {
    let mut block: RawVec<()> = RawVec::new(rt.alloc());
    block.put(5, ());
    let _unit: &() = block.place(5);
    block.take(5);
    block.put(0, ());
    let failed = block.try_reserve(1, usize::MAX);
    assert!(rt; failed == Err(TryReserveErrorKind::CapacityOverflow.into()));
    assert!(rt; block.capacity() == usize::MAX);
    block.forget_from(0);
}

#[test]
fn errors_have_their_kind(rt: HostRuntime) -> Result<(), Fail> {
    let refused = Refused {
        source: 7,
        error: TryReserveErrorKind::AllocError { capacity: 5 }.into(),
    };
    let error: TryReserveError = refused.into();
    assert!(rt; error.kind() == TryReserveErrorKind::AllocError { capacity: 5 });
    let error: TryReserveError = AllocError.into();
    assert!(rt; error.kind() == TryReserveErrorKind::AllocError { capacity: 1 });
    Ok(())
}

// Of a block of 2^62 bytes, twice as many are too many, though one more would do.
#[test]
fn a_growth_past_the_limits_is_no_capacity(rt: HostRuntime) {
    let many = 1 << 62;
    for (growth, capacity, required, grown) in [
        (Growth::Doubling, many, many + 1, None),
        (Growth::Sparing, many, many + 1, Some(many + many / 2)),
        (Growth::Doubling, 3, 4, Some(8)),
        (Growth::Doubling, 8, 9, Some(16)),
        (Growth::Sparing, 8, 9, Some(12)),
        (Growth::Sparing, 8, 1 << 63, None),
    ] {
        assert!(rt; growth.capacity_for::<u8>(capacity, required) == grown);
    }
}

#[test]
fn errors_are_printed(rt: HostRuntime) -> Result<(), Fail> {
    for (kind, text) in [
        (
            TryReserveErrorKind::AllocError { capacity: 5 },
            "memory allocation failed because the memory allocator returned an error",
        ),
        (
            TryReserveErrorKind::CapacityOverflow,
            "memory allocation failed because the computed capacity exceeded the collection's maximum",
        ),
    ] {
        let error: TryReserveError = kind.into();
        assert!(rt; error.to_string(rt.alloc())?.as_str() == text);
    }
    Ok(())
}
