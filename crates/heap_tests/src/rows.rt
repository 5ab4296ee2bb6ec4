//! Rows of pseudo-random numbers, which a heap sorts as a slice is sorted.
use aa_heap::heap::Heap;
use allocator_api2::boxed::Box;
use allocator_api2::vec::Vec;
use std::alloc::Global;
use test_allocators::Faulty;

// Returns 200 pseudo-random numbers below 256, so that many are equal.
fn numbers() -> [u32; 200] {
    let mut row = [0; 200];
    let mut state = 1u32;
    for i in 0..200 {
        state = state.wrapping_mul(1664525).wrapping_add(1013904223);
        row[i] = state >> 24;
    }
    row
}

// Returns the numbers in ascending order.
fn sorted() -> [u32; 200] {
    let mut row = numbers();
    row.sort_unstable();
    row
}

// Pushes each number. Returns whether they are popped from the greatest down.
fn pops_in_order(heap: &Faulty<Global>) -> Option<bool> {
    let mut queue = Heap::new_in(heap);
    for number in numbers() {
        queue.push(number).ok()?;
    }
    let row = sorted();
    let mut same = queue.len() == 200;
    for i in 0..200 {
        let greatest = Some(row[199 - i]);
        same = queue.peek().copied() == greatest && queue.pop() == greatest && same;
    }
    Some(same && queue.is_empty() && queue.pop().is_none())
}

#[test]
fn pushed_numbers_are_popped_in_order(rt: HostRuntime) {
    let heap = Faulty::new(rt.alloc());
    assert!(rt; pops_in_order(&heap) == Some(true));
    // Blocks for 4, 8, 16, 32, 64, 128 and 256 numbers.
    assert!(rt; heap.requests() == 7 && heap.outstanding() == 0);
}

#[test]
fn collected_numbers_are_sorted(rt: HostRuntime) {
    let heap = Faulty::new(rt.alloc());
    let row = numbers();
    if let Ok(queue) = Heap::from_iter_in(row.iter().copied(), &heap) {
        assert!(rt; queue.into_sorted_vec().as_slice() == sorted().as_slice());
    }
    assert!(rt; heap.frees() == heap.requests() && heap.outstanding() == 0);
}

// Fills a heap with the numbers in boxes, and pops the first half.
fn takes_half(heap: &Faulty<Global>) -> Option<bool> {
    let mut queue = Heap::with_capacity_in(200, heap).ok()?;
    for number in numbers() {
        queue.push(Box::new_in(number, heap).ok()?).ok()?;
    }
    let row = sorted();
    let mut same = true;
    for i in 0..100 {
        let greatest = queue.pop()?;
        same = *greatest == row[199 - i] && same;
    }
    Some(same && queue.len() == 100)
}

#[test]
fn items_are_dropped_once(rt: HostRuntime) {
    let heap = Faulty::new(rt.alloc());
    assert!(rt; takes_half(&heap) == Some(true));
    // One block of the heap, and one of each box.
    assert!(rt; heap.requests() == 201 && heap.frees() == 201 && heap.outstanding() == 0);
}
