//! Boxes and blocks over an allocator that fails.
use crate::seen::{End, boxed, end_of, is_all_freed};
use allocator_api2::boxed::{Box, BoxedSlice};
use allocator_api2::collections::TryReserveError;
use allocator_api2::raw_vec::RawVec;
use std::alloc::{AllocError, Allocator, Global};
use test_allocators::Faulty;

// A call that makes a box, and what may become of one.
#[derive(Clone, Copy)]
enum Call {
    NewIn,
    TryNewIn,
    TryDefault,
    NewUninitIn,
    TryNewUninitIn,
    IntoBoxedSlice,
}

// How it ends to try to put a value into a box.
fn tried<T: Drop, A: Allocator>(x: T, alloc: A) -> Result<Box<T, A>, AllocError> {
    Box::try_new_in(x, alloc)
}

// A box as a list of one.
fn boxed_list<A: Allocator>(alloc: A) -> Result<BoxedSlice<u64, A>, TryReserveError> {
    Ok(Box::into_boxed_slice(boxed(7, alloc)?))
}

// Whether a call makes its box, and how many bytes are outstanding then.
fn made<'a>(call: Call, heap: &'a Faulty<Global>) -> (bool, u64) {
    match call {
        Call::NewIn => beside(heap, boxed(7u64, heap)),
        Call::TryNewIn => beside(heap, tried(7u64, heap)),
        Call::TryDefault => beside(heap, Box::<u64, &Faulty<Global>>::try_default(heap)),
        Call::NewUninitIn => beside(heap, Box::<u64, &Faulty<Global>>::new_uninit_in(heap)),
        Call::TryNewUninitIn => beside(heap, Box::<u64, &Faulty<Global>>::try_new_uninit_in(heap)),
        Call::IntoBoxedSlice => beside(heap, boxed_list(heap)),
    }
}

// Returns whether something was made, and how many bytes are outstanding until it is dropped.
fn beside<T: Drop, E: Drop>(heap: &Faulty<Global>, made: Result<T, E>) -> (bool, u64) {
    match made {
        Ok(_is_kept) => (true, heap.outstanding()),
        Err(_) => (false, heap.outstanding()),
    }
}

// Returns what a call makes when its request fails, and once more, the number of the requests, and
// whether each block is freed once.
fn made_twice(alloc: Global, call: Call) -> ((bool, u64), (bool, u64), u64, bool) {
    let heap = Faulty::new(alloc);
    heap.fail_requests(0, 1);
    let first = made(call, &heap);
    let then = made(call, &heap);
    (first, then, heap.requests(), is_all_freed(&heap))
}

#[test]
fn a_failed_box_is_not_made(rt: HostRuntime) {
    for call in [
        Call::NewIn,
        Call::TryNewIn,
        Call::TryDefault,
        Call::NewUninitIn,
        Call::TryNewUninitIn,
        Call::IntoBoxedSlice,
    ] {
        assert!(rt; made_twice(rt.alloc(), call) == ((false, 0), (true, 8), 2, true));
    }
}

// Whether a box is made of a box.
fn box_of_box(heap: &Faulty<Global>) -> bool {
    match boxed(1, heap) {
        Ok(value) => tried(value, heap).is_ok(),
        Err(_) => true,
    }
}

#[test]
fn a_failed_box_drops_its_value(rt: HostRuntime) {
    let heap = Faulty::new(rt.alloc());
    heap.fail_requests(1, 1);
    assert!(rt; !box_of_box(&heap));
    assert!(rt; is_all_freed(&heap));
}

// What is allocated and deallocated for a box of a unit; or none if it fails.
fn counts_of_unit(heap: &Faulty<Global>) -> Option<(u64, u64)> {
    heap.fail_requests(0, u64::MAX);
    match tried((), heap) {
        Ok(unit) => {
            drop(unit);
            Some((heap.requests(), heap.frees()))
        }
        Err(_) => None,
    }
}

#[test]
fn a_box_of_a_unit_does_not_allocate(rt: HostRuntime) {
    assert!(rt; counts_of_unit(&Faulty::new(rt.alloc())) == Some((0, 0)));
}

// Calls of a block without values.
#[derive(Clone, Copy)]
enum Room {
    Reserve,
    TryReserve,
    ReserveExact,
    TryReserveExact,
    ForPush,
    ShrinkToFit(usize),
}

// Numbers on the allocator of a test.
type Block<'a> = RawVec<u32, &'a Faulty<Global>>;

// Reserves capacity for three, or for one, or frees all but so many places, and returns how this
// ends.
fn reserved(call: Room, block: &mut Block<'_>) -> End {
    end_of(match call {
        Room::Reserve => block.reserve(0, 3),
        Room::TryReserve => block.try_reserve(0, 3),
        Room::ReserveExact => block.reserve_exact(0, 3),
        Room::TryReserveExact => block.try_reserve_exact(0, 3),
        Room::ForPush => block.reserve_for_push(0),
        Room::ShrinkToFit(count) => shrunk(block, count),
    })
}

// Returns the result of freeing all but so many places.
#[tactic(auto, using(aa_raw::proofs::Calls::with_room))]
fn shrunk(block: &mut Block<'_>, count: usize) -> Result<(), TryReserveError> {
    let wanted = count.min(block.capacity());
    block.shrink_to_fit(0, wanted)
}

// A call of a block with so many places, the number of its requests, the capacity that it requests,
// and then that of the block.
type Row = (Room, usize, u64, usize, usize);

fn rooms() -> [Row; 9] {
    [
        (Room::Reserve, 0, 1, 4, 4),
        (Room::TryReserve, 0, 1, 4, 4),
        (Room::ReserveExact, 0, 1, 3, 3),
        (Room::TryReserveExact, 0, 1, 3, 3),
        (Room::ForPush, 0, 1, 4, 4),
        (Room::TryReserve, 2, 1, 4, 4),
        (Room::ShrinkToFit(2), 4, 1, 2, 2),
        (Room::ShrinkToFit(4), 4, 0, 0, 4),
        (Room::ShrinkToFit(0), 4, 0, 0, 0),
    ]
}

// How a call of a block ends when its first request fails, and how once more, each beside the
// capacity then.
type Seen = (End, usize, End, usize);

#[tactic(auto, using(aa_raw::proofs::Beyond::emptied))]
fn seen_on(heap: &Faulty<Global>, call: Room, room: usize) -> Seen {
    let Ok(mut block) = RawVec::with_capacity_in(room, heap) else {
        return (End::TooLong, 0, End::TooLong, 0);
    };
    heap.fail_requests(0, 1);
    let first = reserved(call, &mut block);
    let left = block.capacity();
    let then = reserved(call, &mut block);
    let capacity = block.capacity();
    block.forget_from(0);
    (first, left, then, capacity)
}

// Returns that, how many requests fail, and whether each block is freed once.
fn seen(alloc: Global, call: Room, room: usize) -> (Seen, u64, bool) {
    let heap = Faulty::new(alloc);
    let seen = seen_on(&heap, call, room);
    (seen, heap.failures(), is_all_freed(&heap))
}

#[test]
fn a_failed_growth_keeps_the_block(rt: HostRuntime) {
    for (call, room, failed, requested, capacity) in rooms() {
        let (first, left) = if failed == 1 {
            (End::NoMemory(requested), room)
        } else {
            (End::Done, capacity)
        };
        let wanted = ((first, left, End::Done, capacity), failed, true);
        assert!(rt; seen(rt.alloc(), call, room) == wanted);
    }
}
