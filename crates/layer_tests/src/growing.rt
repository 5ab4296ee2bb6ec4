//! How vectors grow.
use crate::lists::add;
use crate::memory::is_all_freed;
use aa_raw::raw_vec::Growth;
use aa_vec::vec::{SliceIntoVec, Vec};
use std::alloc::Global;
use test_allocators::Faulty;

// Pushes until the vector grows: its capacity then.
fn next_capacity<T: Copy>(v: &mut Vec<T>, x: T) -> usize {
    for _ in v.len()..=v.capacity() {
        add(v, x);
    }
    v.capacity()
}

// Whether a new vector, each time that it grows, has these capacities in turn.
fn grows_to<T: Copy>(alloc: Global, growth: Growth, x: T, capacities: &[usize]) -> bool {
    let mut v = Vec::with_growth_in(growth, alloc);
    let mut all = v.is_empty() && v.capacity() == 0 && v.growth() == growth;
    for capacity in capacities {
        all = next_capacity(&mut v, x) == *capacity && all;
    }
    all
}

// The first push reserves capacity by the size.
#[test]
fn vectors_double_or_grow_by_half(rt: HostRuntime) {
    let (doubling, sparing) = (Growth::Doubling, Growth::Sparing);
    let in_place = Growth::InPlace;
    assert!(rt; grows_to(rt.alloc(), doubling, 7u8, &[8, 16, 32]));
    assert!(rt; grows_to(rt.alloc(), doubling, 7u32, &[4, 8, 16]));
    assert!(rt; grows_to(rt.alloc(), doubling, [7u8; 1024], &[4]));
    assert!(rt; grows_to(rt.alloc(), doubling, [7u8; 1025], &[1]));
    assert!(rt; grows_to(rt.alloc(), sparing, [7u8; 1025], &[1, 2, 3, 5, 8, 12]));
    assert!(rt; grows_to(rt.alloc(), sparing, 7u8, &[8, 12, 18, 27, 41]));
    assert!(rt; grows_to(rt.alloc(), sparing, 7u32, &[4, 6, 9, 14, 21]));
    assert!(rt; grows_to(rt.alloc(), in_place, 7u8, &[8, 16, 32]));
    assert!(rt; grows_to(rt.alloc(), in_place, [7u8; 1025], &[1, 2, 4, 8]));
}

// Returns the number of elements after so many pushes, and the capacity.
fn pushed(alloc: Global, count: u32) -> (usize, usize) {
    let mut v = Vec::new(alloc);
    for x in 0..count {
        add(&mut v, x);
    }
    (v.len(), v.capacity())
}

#[test]
fn a_hundred_thousand_pushes_are_accepted(rt: HostRuntime) {
    assert!(rt; pushed(rt.alloc(), 100_000) == (100_000, 131_072));
}

// The elements 1 to 4 in a full vector that grows in place: a push fails, and then succeeds. What
// the vector and its clone are after each.
fn grown_in_place(heap: &Faulty<Global>) -> Option<[(usize, usize, u32, Growth); 2]> {
    let mut v = Vec::with_growth_in(Growth::InPlace, heap);
    v.reserve_exact(4).ok()?;
    for x in 1..5u32 {
        add(&mut v, x);
    }
    heap.fail_requests(0, 1);
    let failed = v.push(5).is_err();
    let kept = state_of(&v);
    v.push(5).ok()?;
    let at = v.len().min(3);
    let moved = v.split_off(at).ok()?.into_boxed_slice().ok()?.into_vec();
    if failed {
        Some([kept, state_of(&moved)])
    } else {
        None
    }
}

// Its length, capacity, last element, and growth policy.
fn state_of(v: &Vec<u32, &Faulty<Global>>) -> (usize, usize, u32, Growth) {
    (v.len(), v.capacity(), *v.last().unwrap_or(&0), v.growth())
}

#[test]
fn a_failed_growth_in_place_keeps_the_vector(rt: HostRuntime) {
    let heap = Faulty::new(rt.alloc());
    let wanted = [(4, 4, 4, Growth::InPlace), (2, 2, 5, Growth::InPlace)];
    assert!(rt; grown_in_place(&heap) == Some(wanted));
    assert!(rt; heap.failures() == 1 && is_all_freed(&heap));
}
