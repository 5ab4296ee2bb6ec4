//! The recycler.
use crate::allocators::{Step, go, has_room, pushes};
use aa_allocators::recycler::Recycler;
use std::alloc::Global;
use test_allocators::Faulty;

type Over<'a> = Recycler<&'a Faulty<Global>>;

// Each call over the recycler is in one place, which takes a proof some seconds.

fn has(recycler: &Over<'_>, bytes: usize) -> bool {
    has_room(recycler, bytes)
}

fn steps_are_right(books: Global, recycler: &Over<'_>, steps: &[Step]) -> bool {
    go(books, recycler, steps)
}

fn grows(recycler: &Over<'_>, count: u32) -> bool {
    pushes(recycler, 7u32, count)
}

// How many blocks are kept, and their bytes.
fn kept(recycler: &Over<'_>) -> (usize, usize) {
    let kept = recycler.kept();
    (kept.blocks, kept.bytes)
}

// Returns the numbers of requests, of freed blocks and of outstanding bytes.
fn seen(heap: &Faulty<Global>) -> (u64, u64, u64) {
    (heap.requests(), heap.frees(), heap.outstanding())
}

// What was seen of the heap and is kept, as it has to be.
fn shows(
    heap: &Faulty<Global>,
    recycler: &Over<'_>,
    of_heap: (u64, u64, u64),
    of_kept: (usize, usize),
) -> bool {
    seen(heap) == of_heap && kept(recycler) == of_kept
}

// Blocks for 4, 8 .. 1,024 numbers are requested, of 16, 32 .. 4,096 bytes.
fn growth_is_served(heap: &Faulty<Global>, recycler: &Over<'_>) -> bool {
    let mut all = true;
    for _ in 0..2 {
        all = grows(recycler, 1_000) && shows(heap, recycler, (9, 0, 8_176), (9, 8_176)) && all;
    }
    recycler.trim();
    all && shows(heap, recycler, (9, 9, 0), (0, 0)) && grows(recycler, 4)
}

#[test]
fn growth_reuses_freed_blocks(rt: HostRuntime) {
    let heap = Faulty::new(rt.alloc());
    assert!(rt; growth_is_served(&heap, &Recycler::new(&heap)) && seen(&heap) == (10, 10, 0));
}

const MOST: usize = 16 << 20;

// Bytes, and how many blocks were requested and freed then. Sizes are rounded up to a power of two,
// and blocks larger than the largest class are freed at once.
fn sizes() -> [(usize, u64, u64); 8] {
    [
        (1, 1, 0),
        (16, 1, 0),
        (17, 2, 0),
        (32, 2, 0),
        (96, 3, 0),
        (MOST, 4, 0),
        (MOST / 2 + 1, 4, 0),
        (MOST + 1, 5, 1),
    ]
}

// How many sizes are served so.
fn served(heap: &Faulty<Global>, recycler: &Over<'_>) -> u32 {
    let mut count = 0u32;
    for (bytes, requests, frees) in sizes() {
        if has(recycler, bytes) && (heap.requests(), heap.frees()) == (requests, frees) {
            count = count.saturating_add(1);
        }
    }
    count
}

#[test]
fn a_block_serves_each_size_of_its_class(rt: HostRuntime) {
    let heap = Faulty::new(rt.alloc());
    let recycler = Recycler::new(&heap);
    assert!(rt; served(&heap, &recycler) == 8 && kept(&recycler) == (4, 16_777_392));
}

// Whether the limit of 64 bytes holds for blocks of 16 bytes, and for others beside them.
fn is_limited(books: Global, heap: &Faulty<Global>, recycler: &Over<'_>) -> bool {
    let mut all = recycler.limit() == 64 && steps_are_right(books, recycler, &[Step::Take; 6]);
    all = shows(heap, recycler, (6, 2, 64), (4, 64)) && all;
    for bytes in [64usize, 65] {
        all = has(recycler, bytes) && all;
    }
    all && shows(heap, recycler, (8, 3, 128), (5, 128))
}

#[test]
fn a_limit_holds_for_each_class(rt: HostRuntime) {
    let heap = Faulty::new(rt.alloc());
    assert!(rt; is_limited(rt.alloc(), &heap, &Recycler::with_limit(&heap, 64)));
}

// Whether a recycler and its clone keep a block each, and one is trimmed alone.
fn twin_keeps(heap: &Faulty<Global>, recycler: &Over<'_>) -> bool {
    let Ok(twin) = recycler.clone() else {
        return false;
    };
    let granted = has(recycler, 8) && has(&twin, 8) && twin.limit() == 1_000;
    twin.trim();
    granted && shows(heap, recycler, (2, 1, 16), (1, 16))
}

#[test]
fn a_clone_keeps_blocks_of_its_own(rt: HostRuntime) {
    let heap = Faulty::new(rt.alloc());
    assert!(rt; twin_keeps(&heap, &Recycler::with_limit(&heap, 1_000)));
}

// Returns whether a block of 40 bytes serves only those of its class when the inner allocator
// fails.
fn is_kept(heap: &Faulty<Global>, recycler: &Over<'_>) -> bool {
    let mut all = true;
    for (bytes, granted) in [(40, true), (33, true), (65, false), (64, true)] {
        all = has(recycler, bytes) == granted && all;
        heap.fail_requests(0, u64::MAX);
    }
    all
}

#[test]
fn kept_blocks_are_granted_when_the_inner_allocator_fails(rt: HostRuntime) {
    let heap = Faulty::new(rt.alloc());
    assert!(rt; is_kept(&heap, &Recycler::new(&heap)));
}
