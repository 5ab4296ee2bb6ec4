//! Allocations that fail.
use aa_ordered_set::set::OrderedSet;
use allocator_api2::collections::TryReserveErrorKind;
use std::alloc::Global;
use std::ops::Range;
use test_allocators::Faulty;

// A set over an allocator that may fail.
type Small<'a> = OrderedSet<u32, &'a Faulty<Global>>;

fn none<'a>(heap: &'a Faulty<Global>) -> Small<'a> {
    OrderedSet::new_in(heap)
}

// Inserts a value. Returns whether it is new, or the value in the error.
fn put(set: &mut Small<'_>, value: u32) -> Result<bool, u32> {
    match set.insert(value) {
        Ok(new) => Ok(new),
        Err(back) => Err(back.source),
    }
}

// Whether values go in as new ones.
fn takes(set: &mut Small<'_>, values: Range<u32>) -> bool {
    let mut all = true;
    for value in values {
        all = put(set, value) == Ok(true) && all;
    }
    all
}

#[test]
fn a_failed_insert_changes_nothing(rt: HostRuntime) {
    // Each request for memory of the first elements fails in turn.
    for failed in 0u64..6 {
        let heap = Faulty::new(rt.alloc());
        let mut set = none(&heap);
        heap.fail_requests(failed, 1);
        for value in 0u32..200 {
            let before = heap.failures();
            let result = put(&mut set, value);
            if heap.failures() > before {
                assert!(rt; result == Err(value) && set.len() == value as usize);
                assert!(rt; put(&mut set, value) == Ok(true));
            }
        }
        assert!(rt; heap.failures() == 1 && set.len() == 200);
    }
}

// The kind of the error of a failed reserve.
fn reserved(set: &mut Small<'_>, additional: usize) -> Option<TryReserveErrorKind> {
    match set.reserve(additional) {
        Ok(()) => None,
        Err(error) => Some(error.kind()),
    }
}

// The kind of the error of an extension.
fn extended(set: &mut Small<'_>, values: Range<u32>) -> Option<TryReserveErrorKind> {
    match set.extend(values) {
        Ok(()) => None,
        Err(error) => Some(error.kind()),
    }
}

// The value in the error of a failed replacement, and the kind of the error.
fn replaced(set: &mut Small<'_>, value: u32) -> Option<(u32, TryReserveErrorKind)> {
    match set.replace(value) {
        Ok(_) => None,
        Err(back) => Some((back.source, back.error.kind())),
    }
}

// A new set has one leaf, of 64 places, and then twice as many.
#[test]
fn errors_have_the_requested_number(rt: HostRuntime) {
    let heap = Faulty::new(rt.alloc());
    let mut set = none(&heap);
    let kind = TryReserveErrorKind::AllocError { capacity: 64 };
    heap.fail_requests(0, 3);
    assert!(rt; reserved(&mut set, 10) == Some(kind) && extended(&mut set, 0..9) == Some(kind));
    assert!(rt; replaced(&mut set, 3) == Some((3, kind)) && set.is_empty());
    assert!(rt; takes(&mut set, 0..64) && (set.len(), set.capacity()) == (64, 64));
    let kind = TryReserveErrorKind::AllocError { capacity: 128 };
    heap.fail_requests(0, 2);
    assert!(rt; extended(&mut set, 60..70) == Some(kind) && set.len() == 64);
    assert!(rt; replaced(&mut set, 70) == Some((70, kind)) && replaced(&mut set, 3) == None);
    assert!(rt; reserved(&mut set, usize::MAX) == Some(TryReserveErrorKind::CapacityOverflow));
    assert!(rt; set.len() == 64 && heap.failures() == 5);
}

#[test]
fn sets_are_unchanged_by_failed_moves(rt: HostRuntime) {
    let heap = Faulty::new(rt.alloc());
    let (mut set, mut other) = (none(&heap), none(&heap));
    assert!(rt; takes(&mut set, 0..150) && takes(&mut other, 100..250));
    heap.fail_requests(0, 3);
    assert!(rt; set.append(&mut other).is_err() && set.split_off(&100).is_err());
    assert!(rt; set.clone().is_err() && (set.len(), other.len()) == (150, 150));
    assert!(rt; set.append(&mut other).is_ok() && set.len() == 250 && heap.failures() == 3);
}

#[test]
fn a_failed_shrink_changes_nothing(rt: HostRuntime) {
    let heap = Faulty::new(rt.alloc());
    let mut set = none(&heap);
    assert!(rt; takes(&mut set, 0..300));
    set.retain(|value| *value % 10 == 0);
    let before = set.capacity();
    heap.fail_requests(0, 1);
    assert!(rt; set.shrink_to_fit().is_err() && (set.len(), set.capacity()) == (30, before));
    assert!(rt; set.shrink_to_fit().is_ok() && set.capacity() < 94 && set.len() == 30);
}
