//! Two sets.
use aa_ordered_set::set::OrderedSet;
use allocator_api2::collections::{TryReserveError, TryReserveErrorKind};
use std::alloc::Global;
use std::ops::Range;
use test_allocators::Faulty;

// A set over an allocator that may fail.
type Small<'a> = OrderedSet<u32, &'a Faulty<Global>>;

// A set of these values.
fn made<'a>(heap: &'a Faulty<Global>, values: Range<u32>) -> Small<'a> {
    let mut set = OrderedSet::new_in(heap);
    for value in values {
        match set.insert(value) {
            Ok(_) => {}
            Err(_) => {}
        }
    }
    set
}

// Whether a set is a subset of another, is one the other way round, and is disjoint from it.
fn compared<'a>(left: &Small<'a>, right: &Small<'a>) -> (bool, bool, bool) {
    (
        left.is_subset(right),
        left.is_superset(right),
        left.is_disjoint(right),
    )
}

#[test]
fn sets_are_compared(rt: HostRuntime) {
    let heap = Faulty::new(rt.alloc());
    let (few, many, others) = (made(&heap, 2..3), made(&heap, 1..20), made(&heap, 20..30));
    assert!(rt; compared(&few, &many) == (true, false, false));
    assert!(rt; compared(&many, &few) == (false, true, false));
    assert!(rt; compared(&many, &others) == (false, false, true));
    assert!(rt; compared(&many, &many) == (true, true, false));
}

#[test]
fn sets_are_merged_in_order(rt: HostRuntime) {
    let heap = Faulty::new(rt.alloc());
    let (left, right) = (made(&heap, 1..5), made(&heap, 3..7));
    let (mut next, mut one) = (1u32, [1u32, 2, 5, 6].iter());
    for value in left.union(&right) {
        assert!(rt; *value == next);
        next = next.wrapping_add(1);
    }
    assert!(rt; next == 7);
    for value in left.symmetric_difference(&right) {
        assert!(rt; Some(value) == one.next());
    }
    assert!(rt; one.next().is_none());
}

#[test]
fn common_and_own_elements_are_in_order(rt: HostRuntime) {
    let heap = Faulty::new(rt.alloc());
    let (left, right) = (made(&heap, 1..5), made(&heap, 3..7));
    let mut both = left.intersection(&right);
    assert!(rt; both.size_hint() == (0, Some(4)));
    assert!(rt; both.next() == Some(&3) && both.next() == Some(&4) && both.next().is_none());
    let mut own = right.difference(&left);
    assert!(rt; own.next() == Some(&5) && own.next() == Some(&6) && own.next().is_none());
}

// The sum of the elements of a set that an operator made, their number and the capacity, or the
// error.
fn summed(
    made: Result<Small<'_>, TryReserveError>,
) -> Result<(u32, usize, usize), TryReserveErrorKind> {
    let set = match made {
        Ok(set) => set,
        Err(error) => return Err(error.kind()),
    };
    let mut sum = 0u32;
    for value in &set {
        sum = sum.saturating_add(*value);
    }
    Ok((sum, set.len(), set.capacity()))
}

#[test]
fn operators_make_new_sets(rt: HostRuntime) {
    let heap = Faulty::new(rt.alloc());
    let (left, right) = (made(&heap, 1..5), made(&heap, 3..20));
    assert!(rt; summed(&left | &right) == Ok((190, 19, 64)));
    assert!(rt; summed(&left & &right) == Ok((7, 2, 64)));
    assert!(rt; summed(&left - &right) == Ok((3, 2, 64)));
    assert!(rt; summed(&left ^ &right) == Ok((183, 17, 64)));
    assert!(rt; summed(&left - &left) == Ok((0, 0, 0)));
}

#[test]
fn an_operator_may_fail(rt: HostRuntime) {
    let heap = Faulty::new(rt.alloc());
    let (left, right) = (made(&heap, 1..5), made(&heap, 3..20));
    let before = heap.requests();
    heap.fail_requests(0, 1);
    let kind = TryReserveErrorKind::AllocError { capacity: 64 };
    assert!(rt; summed(&left | &right) == Err(kind) && (left.len(), right.len()) == (4, 17));
    assert!(rt; summed(&left | &right).is_ok() && heap.failures() == 1);
    // One request failed, and the other set takes two blocks.
    assert!(rt; heap.requests() == before.wrapping_add(3));
}
