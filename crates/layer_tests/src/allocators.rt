//! The allocators that tests take.
use std::alloc::{Allocator, Global};
use std::mem::forget;
use test_allocators::Faulty;
use test_allocators::failing::Failing;

// Returns the number of requests, of failed requests, of freed blocks, and of outstanding bytes.
fn counts<B: Allocator>(heap: &Faulty<B>) -> (u64, u64, u64, u64) {
    (
        heap.requests(),
        heap.failures(),
        heap.frees(),
        heap.outstanding(),
    )
}

// Returns a vector with capacity for five numbers, if the allocation succeeds.
fn room<A: Allocator>(heap: A) -> Option<Vec<u32, A>> {
    Vec::with_capacity(heap, 5).ok()
}

fn is_granted<A: Allocator>(heap: A) -> bool {
    room(heap).is_some()
}

// Returns whether so many pushes onto an empty vector succeed.
fn pushes<A: Allocator>(heap: A, count: u32) -> bool {
    let mut numbers: Vec<u32, A> = Vec::new(heap);
    for number in 0..count {
        if numbers.push(number).is_err() {
            return false;
        }
    }
    true
}

#[test]
fn what_grows_and_what_leaks_is_counted(rt: HostRuntime) {
    let heap = Faulty::new(rt.alloc());
    // Blocks for 4, 8, 16 and 32 numbers.
    assert!(rt; pushes(&heap, 20) && counts(&heap) == (4, 0, 4, 0));
    forget(room(&heap));
    assert!(rt; counts(&heap) == (5, 0, 4, 20));
}

#[test]
fn only_requests_of_the_range_fail(rt: HostRuntime) {
    let heap = Faulty::new(rt.alloc());
    // What is skipped and fails, and which of the next four requests then fail.
    for (skip, count, failed) in [
        (0, 0, [false, false, false, false]),
        (1, 1, [false, true, false, false]),
        (0, 2, [true, true, false, false]),
        (2, u64::MAX, [false, false, true, true]),
    ] {
        heap.fail_requests(skip, count);
        for want in failed {
            assert!(rt;
                is_granted(&heap) != want,
                "after fail_requests({skip}, {count})"
            );
        }
    }
    assert!(rt; counts(&heap) == (16, 5, 11, 0));
}

// Returns the counts of a clone after one request, or `None` if the clone fails.
fn twin_counts(heap: &Faulty<Global>) -> Option<(u64, u64, u64, u64)> {
    let Ok(twin) = heap.clone() else {
        return None;
    };
    let _granted = is_granted(&twin);
    Some(counts(&twin))
}

// A clone does not fail the requests that the original fails.
#[test]
fn a_clone_can_fail(rt: HostRuntime) {
    let heap = Faulty::new(rt.alloc());
    heap.fail_requests(0, u64::MAX);
    for (fails, expected) in [(true, None), (false, Some((1, 0, 1, 0)))] {
        heap.fail_clones(fails);
        assert!(rt; twin_counts(&heap) == expected);
    }
}

#[test]
fn every_request_to_failing_fails(rt: HostRuntime) {
    assert!(rt; !is_granted(Failing::default()));
}
