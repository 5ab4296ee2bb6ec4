//! The hash set.
use aa_table::set::Set;
use allocator_api2::collections::{TryReserveError, TryReserveErrorKind};
use std::alloc::{AllocError, Global};
use std::default::{Emptied, MadeWith};
use std::hash::{BuildHasherDefault, FoldHasher};
use std::iter::Extend;
use std::ops::Range;
use std::test::Fail;
use test_allocators::Faulty;

// A set over an allocator that may fail.
type Small<'a> = Set<u64, BuildHasherDefault<FoldHasher>, &'a Faulty<Global>>;

fn none<'a>(heap: &'a Faulty<Global>) -> Small<'a> {
    Set::new_in(heap)
}

// Whether values go in as new ones.
fn takes(set: &mut Small<'_>, values: Range<u64>) -> bool {
    let mut all = true;
    for value in values {
        all = matches!(set.insert(value), Ok(true)) && all;
    }
    all
}

// The value in the error of a failed insert, and the kind of the error.
fn returned(set: &mut Small<'_>, value: u64) -> Option<(u64, TryReserveErrorKind)> {
    match set.insert(value) {
        Ok(_) => None,
        Err(back) => Some((back.source, back.error.kind())),
    }
}

#[test]
fn elements_are_inserted_once_and_removed(rt: HostRuntime) {
    let heap = Faulty::new(rt.alloc());
    let mut set = none(&heap);
    assert!(rt; takes(&mut set, 0..14) && matches!(set.insert(3), Ok(false)));
    assert!(rt; set.contains(&3) && set.get(&3) == Some(&3) && set.get(&20).is_none());
    heap.fail_requests(0, 1);
    let kind = TryReserveErrorKind::AllocError { capacity: 28 };
    assert!(rt; returned(&mut set, 14) == Some((14, kind)) && set.len() == 14);
    assert!(rt; set.remove(&3) && !set.remove(&3) && set.take(&4) == Some(4));
    assert!(rt; (set.len(), set.capacity()) == (12, 14) && set.take(&4).is_none());
    let mut sum = 0u64;
    for value in &set {
        sum = sum.saturating_add(*value);
    }
    assert!(rt; sum == 84 && set.reserve(3).is_ok() && set.capacity() == 28);
    set.clear();
    assert!(rt; set.is_empty() && set.into_iter().next().is_none());
    assert!(rt; heap.outstanding() == 0);
}

// Whether a set is a subset of another, is one the other way round, and is disjoint from it.
fn compared<'a>(left: &Small<'a>, right: &Small<'a>) -> (bool, bool, bool) {
    (
        left.is_subset(right),
        left.is_superset(right),
        left.is_disjoint(right),
    )
}

#[test]
fn sets_are_compared_and_printed(rt: HostRuntime) -> Result<(), Fail> {
    let heap = Faulty::new(rt.alloc());
    let (mut few, mut many, mut others) = (none(&heap), none(&heap), none(&heap));
    assert!(rt; takes(&mut few, 2..3) && takes(&mut many, 1..20) && takes(&mut others, 20..30));
    assert!(rt; compared(&few, &many) == (true, false, false));
    assert!(rt; compared(&many, &few) == (false, true, false));
    assert!(rt; compared(&many, &others) == (false, false, true));
    assert!(rt; few == few && few != many && prints(rt.alloc(), &few, "{2}")?);
    Ok(())
}

#[test]
fn sets_are_joined(rt: HostRuntime) {
    let heap = Faulty::new(rt.alloc());
    let (mut left, mut right) = (none(&heap), none(&heap));
    assert!(rt; takes(&mut left, 1..5) && takes(&mut right, 3..9));
    let (mut both, mut only, mut any, mut one) = (0u64, 0u64, 0u64, 0u64);
    for value in left.intersection(&right) {
        both = both.saturating_add(*value);
    }
    for value in left.difference(&right) {
        only = only.saturating_add(*value);
    }
    for value in left.union(&right) {
        any = any.saturating_add(*value);
    }
    for value in left.symmetric_difference(&right) {
        one = one.saturating_add(*value);
    }
    assert!(rt; (both, only, any, one) == (7, 3, 36, 29));
}

// Whether a set is printed so.
fn prints(alloc: Global, set: &Small<'_>, text: &str) -> Result<bool, AllocError> {
    let printed = format!(in alloc; "{set:?}")?;
    Ok(printed.as_str() == text)
}

// A set over the global allocator.
type Plain = Set<u64>;

// A set of these values.
fn made(alloc: Global, values: &[u64]) -> Result<Plain, AllocError> {
    values.iter().copied().collect(alloc)
}

#[test]
fn sets_are_collected_and_cloned(rt: HostRuntime) -> Result<(), Fail> {
    let heap = rt.alloc();
    let mut set = made(heap, &[1, 2, 1, 3])?;
    assert!(rt; set.len() == 3 && set == set.clone()?);
    assert!(rt; Plain::emptied(&set)? == Plain::made_with(heap));
    set.extend([3, 4])?;
    Extend::extend(&mut set, &[4, 5])?;
    assert!(rt; set == made(heap, &[5, 4, 3, 2, 1])?);
    let all = Set::from_iter_in(set, heap)?;
    assert!(rt; all.len() == 5 && all.contains(&4));
    Ok(())
}

#[test]
fn elements_are_replaced_and_drained(rt: HostRuntime) {
    let heap = Faulty::new(rt.alloc());
    let mut set = none(&heap);
    assert!(rt; takes(&mut set, 0..10));
    assert!(rt; set.replace(4).ok() == Some(Some(4)) && set.replace(10).ok() == Some(None));
    let mut sum = 0u64;
    for value in set.drain() {
        sum = sum.saturating_add(value);
    }
    assert!(rt; sum == 55 && set.is_empty() && set.capacity() == 14);
    assert!(rt; takes(&mut set, 0..9));
    let mut drain = set.drain();
    assert!(rt; drain.len() == 9 && drain.next().is_some() && drain.len() == 8);
    drop(drain);
    assert!(rt; set.is_empty() && set.allocator().requests() == 3);
}

// The value in the error of a failed replacement, and the kind of the error.
fn replaced(set: &mut Small<'_>, value: u64) -> Option<(u64, TryReserveErrorKind)> {
    match set.replace(value) {
        Ok(_) => None,
        Err(back) => Some((back.source, back.error.kind())),
    }
}

// The kind of the error of an extension.
fn extended(set: &mut Small<'_>, values: Range<u64>) -> Option<TryReserveErrorKind> {
    match set.extend(values) {
        Ok(()) => None,
        Err(error) => Some(error.kind()),
    }
}

#[test]
fn a_set_that_cannot_grow_keeps_its_elements(rt: HostRuntime) {
    let heap = Faulty::new(rt.alloc());
    let mut set = none(&heap);
    assert!(rt; takes(&mut set, 0..12));
    let kind = TryReserveErrorKind::AllocError { capacity: 28 };
    heap.fail_requests(0, 2);
    assert!(rt; extended(&mut set, 12..20) == Some(kind) && set.len() == 14);
    assert!(rt; replaced(&mut set, 20) == Some((20, kind)) && replaced(&mut set, 13) == None);
    assert!(rt; set.len() == 14 && set.contains(&13) && !set.contains(&20));
}

#[test]
fn elements_that_a_closure_keeps_remain(rt: HostRuntime) {
    let heap = Faulty::new(rt.alloc());
    let mut set = none(&heap);
    assert!(rt; takes(&mut set, 0..100));
    let mut calls = 0u64;
    set.retain(|value| {
        calls = calls.wrapping_add(1);
        *value & 3 == 0
    });
    assert!(rt; calls == 100 && set.len() == 25 && set.capacity() == 112);
    assert!(rt; set.contains(&4) && !set.contains(&5) && heap.requests() == 12);
}

#[test]
fn a_set_shrinks_to_its_elements_or_a_bound(rt: HostRuntime) {
    let heap = Faulty::new(rt.alloc());
    let mut set = none(&heap);
    assert!(rt; takes(&mut set, 0..100));
    set.retain(|value| *value < 10);
    assert!(rt; set.shrink_to(50).is_ok() && (set.len(), set.capacity()) == (10, 50));
    heap.fail_requests(0, 1);
    assert!(rt; set.shrink_to(20).is_err() && (set.len(), set.capacity()) == (10, 50));
    assert!(rt; set.shrink_to_fit().is_ok() && (set.len(), set.capacity()) == (10, 14));
}

// The sum of the elements of a set that an operator made, their number and the capacity, or the
// error.
fn summed(
    made: Result<Small<'_>, TryReserveError>,
) -> Result<(u64, usize, usize), TryReserveErrorKind> {
    let set = match made {
        Ok(set) => set,
        Err(error) => return Err(error.kind()),
    };
    let mut sum = 0u64;
    for value in &set {
        sum = sum.saturating_add(*value);
    }
    Ok((sum, set.len(), set.capacity()))
}

#[test]
fn operators_make_new_sets(rt: HostRuntime) {
    let heap = Faulty::new(rt.alloc());
    let (mut left, mut right) = (none(&heap), none(&heap));
    assert!(rt; takes(&mut left, 1..5) && takes(&mut right, 3..20));
    assert!(rt; summed(&left | &right) == Ok((190, 19, 19)));
    assert!(rt; summed(&left & &right) == Ok((7, 2, 14)));
    assert!(rt; summed(&left - &right) == Ok((3, 2, 14)));
    assert!(rt; summed(&left ^ &right) == Ok((183, 17, 17)));
    assert!(rt; summed(&left - &left) == Ok((0, 0, 0)));
    heap.fail_requests(0, 1);
    let kind = TryReserveErrorKind::AllocError { capacity: 19 };
    assert!(rt; summed(&left | &right) == Err(kind) && (left.len(), right.len()) == (4, 17));
}

// An empty set with capacity for ten.
fn with_capacity(alloc: Global) -> Result<Plain, TryReserveError> {
    Set::with_capacity_in(10, alloc)
}

// The sum of the elements.
fn sum(set: &Plain) -> u64 {
    let mut sum = 0u64;
    for value in set.iter() {
        sum = sum.saturating_add(*value);
    }
    sum
}

#[test]
fn a_set_is_made_with_capacity_or_a_hasher(rt: HostRuntime) -> Result<(), Fail> {
    let mut set = with_capacity(rt.alloc())?;
    set.extend([1, 2, 3])?;
    assert!(rt; set.capacity() == 14 && sum(&set) == 6);
    let twin: Plain = Set::with_hasher_in(BuildHasherDefault::default(), rt.alloc());
    let _hasher: &BuildHasherDefault<FoldHasher> = twin.hasher();
    assert!(rt; twin.is_empty() && twin.capacity() == 0);
    Ok(())
}
