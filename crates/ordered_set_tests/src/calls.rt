//! Insertion, lookup and removal.
use aa_ordered_set::set::OrderedSet;
use std::alloc::Global;
use std::ops::Bound;
use std::string::String;
use std::test::Fail;
use test_allocators::Faulty;

// A set over an allocator that may fail.
type Small<'a> = OrderedSet<u32, &'a Faulty<Global>>;

fn none<'a>(heap: &'a Faulty<Global>) -> Small<'a> {
    OrderedSet::new_in(heap)
}

// Whether the values below 300 go in as new ones, each `step` after the one before, modulo 300.
fn takes(set: &mut Small<'_>, step: u32) -> bool {
    let mut all = true;
    let mut value = 0u32;
    for _ in 0..300 {
        all = matches!(set.insert(value), Ok(true)) && all;
        value = value.wrapping_add(step) % 300;
    }
    all
}

// Whether the elements are 0, 1, 2 and so on, up to a count.
fn counts(set: &Small<'_>, count: u32) -> bool {
    let mut next = 0u32;
    let mut all = true;
    for value in set {
        all = *value == next && all;
        next = next.wrapping_add(1);
    }
    all && next == count
}

#[test]
fn elements_are_in_order(rt: HostRuntime) {
    for step in [1u32, 299, 167] {
        let heap = Faulty::new(rt.alloc());
        let mut set = none(&heap);
        assert!(rt; takes(&mut set, step) && set.len() == 300 && counts(&set, 300));
        assert!(rt; matches!(set.insert(7), Ok(false)) && set.len() == 300);
        assert!(rt; set.contains(&299) && !set.contains(&300));
        assert!(rt; set.get(&5) == Some(&5) && set.get(&300).is_none());
        assert!(rt; set.first() == Some(&0) && set.last() == Some(&299));
    }
}

#[test]
fn elements_are_removed(rt: HostRuntime) {
    let heap = Faulty::new(rt.alloc());
    let mut set = none(&heap);
    assert!(rt; takes(&mut set, 167));
    let before = heap.requests();
    assert!(rt; set.pop_first() == Some(0) && set.pop_last() == Some(299));
    assert!(rt; set.take(&5) == Some(5) && set.take(&5).is_none());
    assert!(rt; set.remove(&6) && !set.remove(&6) && set.len() == 296);
    set.retain(|value| *value % 2 == 0);
    assert!(rt; set.len() == 148 && set.first() == Some(&2) && set.last() == Some(&298));
    set.clear();
    assert!(rt; set.is_empty() && set.pop_first().is_none() && set.pop_last().is_none());
    assert!(rt; takes(&mut set, 167) && heap.requests() == before);
}

// The number of elements between two.
fn count_between(set: &Small<'_>, low: u32, high: u32) -> usize {
    let mut count = 0usize;
    for _ in set.range(low..high) {
        count = count.wrapping_add(1);
    }
    count
}

#[test]
fn ranges_have_both_ends(rt: HostRuntime) {
    let heap = Faulty::new(rt.alloc());
    let mut set = none(&heap);
    assert!(rt; takes(&mut set, 167));
    assert!(rt; count_between(&set, 30, 60) == 30 && count_between(&set, 60, 30) == 0);
    let mut some = set.range(31..=200);
    assert!(rt; some.next() == Some(&31) && some.next_back() == Some(&200));
    assert!(rt; set.range(..=2).next_back() == Some(&2) && set.range(300..).next().is_none());
    let mut inner = set.range((Bound::Excluded(30), Bound::Excluded(32)));
    assert!(rt; inner.next() == Some(&31) && inner.next().is_none());
    let mut all = set.iter();
    assert!(rt; all.len() == 300 && all.next_back() == Some(&299) && all.next() == Some(&0));
    let mut owned = set.into_iter();
    assert!(rt; owned.next() == Some(0) && owned.next_back() == Some(299) && owned.len() == 298);
}

// The elements from the one given on are in a set of their own then.
#[test]
fn a_set_is_split_and_joined(rt: HostRuntime) {
    let heap = Faulty::new(rt.alloc());
    let mut set = none(&heap);
    assert!(rt; takes(&mut set, 101));
    let Ok(mut rest) = set.split_off(&200) else {
        assert!(rt; false);
        return;
    };
    assert!(rt; set.last() == Some(&199) && rest.first() == Some(&200) && rest.len() == 100);
    assert!(rt; set.insert(250).is_ok() && rest.insert(17).is_ok());
    assert!(rt; set.append(&mut rest).is_ok() && rest.is_empty() && counts(&set, 300));
}

// An empty set with capacity for 300.
fn roomy<'a>(heap: &'a Faulty<Global>) -> Option<Small<'a>> {
    OrderedSet::with_capacity_in(300, heap).ok()
}

#[test]
fn capacity_takes_any_elements(rt: HostRuntime) {
    let heap = Faulty::new(rt.alloc());
    let Some(mut set) = roomy(&heap) else {
        assert!(rt; false);
        return;
    };
    let before = heap.requests();
    assert!(rt; set.capacity() == 320 && takes(&mut set, 299) && heap.requests() == before);
    assert!(rt; set.reserve(100).is_ok() && set.capacity() >= 400);
    set.retain(|value| *value < 10);
    assert!(rt; set.shrink_to_fit().is_ok() && set.capacity() < 74 && counts(&set, 10));
    set.clear();
    assert!(rt; set.shrink_to_fit().is_ok() && set.capacity() == 0 && heap.outstanding() == 0);
}

// A set over a clone of the allocator.
fn over_a_clone<'a>(heap: &'a Faulty<Global>) -> Option<Small<'a>> {
    OrderedSet::try_new_in(heap).ok()
}

// Text elements own memory, which is freed with them. An equal one is kept, or replaced.
#[test]
fn elements_may_own_memory(rt: HostRuntime) -> Result<(), Fail> {
    let heap = rt.alloc();
    let mut set: OrderedSet<String, Global> = OrderedSet::new_in(heap);
    for number in 0u32..200 {
        assert!(rt; set.insert(format!(in heap; "{}", 999 - number)?).is_ok());
    }
    let key = format!(in heap; "850")?;
    assert!(rt; set.contains(&key) && set.remove(&key) && !set.contains(&key));
    let same = key.clone()?;
    assert!(rt; matches!(set.replace(key), Ok(None)) && matches!(set.replace(same), Ok(Some(_))));
    assert!(rt; set.len() == 200);
    Ok(())
}

#[test]
fn a_set_may_clone_its_allocator(rt: HostRuntime) {
    let heap = Faulty::new(rt.alloc());
    if let Some(mut set) = over_a_clone(&heap) {
        assert!(rt; matches!(set.insert(3), Ok(true)) && set.allocator().requests() == 2);
    }
    assert!(rt; heap.outstanding() == 0);
}
