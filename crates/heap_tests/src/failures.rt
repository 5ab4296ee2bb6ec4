//! Failed allocations, which change nothing; and calls that need none.
use aa_heap::heap::Heap;
use allocator_api2::collections::{TryReserveError, TryReserveErrorKind};
use allocator_api2::vec::Vec;
use std::alloc::Global;
use test_allocators::Faulty;

// A heap over an allocator that may fail.
type Small<'a> = Heap<u32, &'a Faulty<Global>>;

// Returns a heap of 1, 2, 3 and 4, which is full.
fn full<'a>(heap: &'a Faulty<Global>) -> Small<'a> {
    let mut queue: Small<'_> = Heap::new_in(heap);
    for number in [1, 2, 3, 4] {
        let _ = queue.push(number);
    }
    queue
}

// Whether a call failed for lack of memory for so many items.
fn lacks(ended: Result<(), TryReserveError>, capacity: usize) -> bool {
    match ended {
        Ok(()) => false,
        Err(error) => error.kind() == TryReserveErrorKind::AllocError { capacity },
    }
}

// Whether a push fails, and returns the item.
fn fails_for(queue: &mut Small<'_>, item: u32, capacity: usize) -> bool {
    match queue.push(item) {
        Ok(()) => false,
        Err(refused) => refused.source == item && lacks(Err(refused.error), capacity),
    }
}

#[test]
fn failed_calls_change_nothing(rt: HostRuntime) {
    let heap = Faulty::new(rt.alloc());
    let mut queue = full(&heap);
    let mut other = full(&heap);
    heap.fail_requests(0, 100);
    assert!(rt; fails_for(&mut queue, 9, 8));
    assert!(rt; lacks(queue.append(&mut other), 8) && other.len() == 4);
    assert!(rt; lacks(queue.reserve(9), 13) && lacks(queue.reserve_exact(2), 6));
    assert!(rt; lacks(queue.extend([7]), 8));
    assert!(rt; queue.as_slice() == [4, 3, 2, 1].as_slice() && queue.capacity() == 4);
    assert!(rt; heap.failures() == 5 && queue.pop() == Some(4));
    assert!(rt; lacks(queue.shrink_to_fit(), 3) && queue.peek() == Some(&3));
}

// Whether those items stay that were placed before the failure, in heap order.
fn keeps_the_first(heap: &Faulty<Global>) -> bool {
    let mut queue = full(heap);
    let popped = queue.pop() == Some(4);
    heap.fail_requests(0, 1);
    popped && lacks(queue.extend([8, 9]), 8) && queue.as_slice() == [8, 3, 2, 1].as_slice()
}

#[test]
fn a_failed_extend_keeps_the_first_items(rt: HostRuntime) {
    let heap = Faulty::new(rt.alloc());
    assert!(rt; keeps_the_first(&heap) && heap.outstanding() == 0);
}

// Whether a clone and a collected heap fail.
fn fails_to_make(heap: &Faulty<Global>) -> bool {
    let items = [1u32, 2];
    let none: Result<Small<'_>, TryReserveError> = Heap::from_iter_in(items.iter().copied(), heap);
    none.is_err() && Heap::<u32, _>::with_capacity_in(3, heap).is_err()
}

#[test]
fn no_heap_is_made_without_memory(rt: HostRuntime) {
    let heap = Faulty::new(rt.alloc());
    heap.fail_requests(0, 100);
    assert!(rt; fails_to_make(&heap) && heap.failures() == 2 && heap.outstanding() == 0);
}

// Pushes and pops three items a hundred times.
fn turns(queue: &mut Small<'_>) -> bool {
    let mut same = true;
    for number in 0..100 {
        for item in [number, number + 2, number + 1] {
            same = queue.push(item).is_ok() && same;
        }
        same = queue.pop() == Some(number + 2) && queue.pop() == Some(number + 1) && same;
        same = queue.pop() == Some(number) && queue.pop().is_none() && same;
    }
    same
}

#[test]
fn items_that_fit_need_no_memory(rt: HostRuntime) {
    let heap = Faulty::new(rt.alloc());
    if let Ok(mut queue) = Heap::with_capacity_in(3, &heap) {
        assert!(rt; turns(&mut queue) && heap.requests() == 1);
    }
    assert!(rt; heap.requests() == 1 && heap.failures() == 0 && heap.outstanding() == 0);
}
