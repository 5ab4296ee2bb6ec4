//! Insertion, lookup and removal.
use aa_ordered::entry::Entry;
use aa_ordered::map::{OrderedMap, TryInsertError};
use allocator_api2::collections::TryReserveErrorKind;
use std::alloc::Global;
use std::string::String;
use std::test::Fail;
use test_allocators::Faulty;

// A map over an allocator that may fail.
type Small<'a> = OrderedMap<u64, u64, &'a Faulty<Global>>;

fn none<'a>(heap: &'a Faulty<Global>) -> Small<'a> {
    OrderedMap::new_in(heap)
}

// Sets the value of a key. Returns the old value, or what the error returns.
fn put(map: &mut Small<'_>, key: u64, value: u64) -> Result<Option<u64>, (u64, u64)> {
    match map.insert(key, value) {
        Ok(old) => Ok(old),
        Err(back) => Err(back.source),
    }
}

// Whether the keys below 300 go in as new ones, each `step` after the one before, modulo 300.
fn takes(map: &mut Small<'_>, step: u64) -> bool {
    let mut all = true;
    let mut key = 0;
    for _ in 0..300 {
        all = put(map, key, key / 2) == Ok(None) && all;
        key = key.wrapping_add(step) % 300;
    }
    all
}

// Whether the least keys are those of a sorted list, which are removed.
fn is_sorted(map: &mut Small<'_>, count: u64) -> bool {
    let mut all = true;
    for key in 0..count {
        all = map.pop_first() == Some((key, key / 2)) && all;
    }
    all && map.is_empty()
}

// Keys go in at the front, at the end, and scattered, over leaves that split and shift.
#[test]
fn keys_are_sorted(rt: HostRuntime) {
    for step in [1, 299, 167, 101, 7] {
        let heap = Faulty::new(rt.alloc());
        let mut map = none(&heap);
        assert!(rt; takes(&mut map, step) && map.len() == 300);
        assert!(rt; map.get(&299) == Some(&149) && map.get(&300) == None);
        assert!(rt; map.first_key_value() == Some((&0, &0)));
        assert!(rt; map.last_key_value() == Some((&299, &149)));
        assert!(rt; is_sorted(&mut map, 300));
        drop(map);
        assert!(rt; heap.outstanding() == 0);
    }
}

// Whether each third key is removed, in scattered order, and the others remain.
fn thins(map: &mut Small<'_>) -> bool {
    let mut all = true;
    let mut key = 0;
    for _ in 0..300 {
        if key % 3 > 0 {
            all = map.remove(&key) == Some(key / 2) && map.remove(&key) == None && all;
        }
        key = key.wrapping_add(67) % 300;
    }
    all
}

// Leaves are joined, and those that are free then take entries without an allocation.
#[test]
fn keys_are_removed(rt: HostRuntime) {
    let heap = Faulty::new(rt.alloc());
    let mut map = none(&heap);
    assert!(rt; takes(&mut map, 167));
    let before = heap.requests();
    assert!(rt; thins(&mut map) && map.len() == 100);
    for key in 0u64..300 {
        assert!(rt; map.contains_key(&key) == (key % 3 == 0));
    }
    for key in 0u64..300 {
        if key % 3 > 0 {
            assert!(rt; put(&mut map, key, key / 2) == Ok(None));
        }
    }
    assert!(rt; is_sorted(&mut map, 300) && heap.requests() == before);
}

#[test]
fn values_are_written_and_kept(rt: HostRuntime) {
    let heap = Faulty::new(rt.alloc());
    let mut map = none(&heap);
    assert!(rt; takes(&mut map, 101));
    if let Some(value) = map.get_mut(&60) {
        *value = 7;
    }
    assert!(rt; put(&mut map, 60, 30) == Ok(Some(7)) && map.len() == 300);
    map.retain(|key, value| {
        *value = *key;
        *key % 2 == 0
    });
    assert!(rt; map.len() == 150 && map.pop_last() == Some((298, 298)));
    assert!(rt; map.remove_entry(&4) == Some((4, 4)) && map.get(&5) == None);
    map.clear();
    assert!(rt; map.is_empty() && map.pop_first() == None);
}

// The entries of both are there, and those of the second map have its values.
#[test]
fn maps_are_joined(rt: HostRuntime) {
    let heap = Faulty::new(rt.alloc());
    let mut map = none(&heap);
    let mut other = none(&heap);
    for key in 0u64..150 {
        assert!(rt;
            put(&mut map, key, 0) == Ok(None)
                && put(&mut other, key.wrapping_add(100), 1) == Ok(None)
        );
    }
    heap.fail_requests(0, 1);
    assert!(rt; map.append(&mut other).is_err() && map.len() == 150 && other.len() == 150);
    assert!(rt; map.append(&mut other).is_ok() && map.len() == 250 && other.is_empty());
    assert!(rt; map.get(&99) == Some(&0) && map.get(&100) == Some(&1) && map.get(&249) == Some(&1));
}

// The keys from the one given on are in a map of their own then.
#[test]
fn a_map_is_split(rt: HostRuntime) {
    for key in [0u64, 1, 63, 150, 299, 300] {
        let heap = Faulty::new(rt.alloc());
        let mut map = none(&heap);
        assert!(rt; takes(&mut map, 167));
        heap.fail_requests(0, 1);
        assert!(rt; map.split_off(&150).is_err() && map.len() == 300);
        let Ok(rest) = map.split_off(&key) else {
            assert!(rt; false);
            return;
        };
        let half = key / 2;
        let first = if key < 300 { Some((&key, &half)) } else { None };
        assert!(rt; rest.first_key_value() == first && rest.len() as u64 == 300 - key);
        assert!(rt; is_sorted(&mut map, key));
        drop(map);
        drop(rest);
        assert!(rt; heap.outstanding() == 0);
    }
}

// Adds to the value of a key, which is 0 if the key is absent.
fn adds(map: &mut Small<'_>, key: u64, count: u64) -> bool {
    match map.entry(key).or_insert(0) {
        Ok(value) => {
            *value = value.wrapping_add(count);
            true
        }
        Err(_) => false,
    }
}

#[test]
fn entries_insert_and_change(rt: HostRuntime) {
    let heap = Faulty::new(rt.alloc());
    let mut map = none(&heap);
    for key in 0u64..200 {
        assert!(rt; adds(&mut map, key % 100, key));
    }
    assert!(rt; map.len() == 100 && map.get(&7) == Some(&114));
}

// Adds to the value of a key that is present, and inserts 0 otherwise. Returns the value then.
fn added(map: &mut Small<'_>, key: u64, count: u64) -> Option<u64> {
    let entry = map
        .entry(key)
        .and_modify(|value| *value = value.wrapping_add(count));
    if *entry.key() != key {
        return None;
    }
    Some(*entry.or_default().ok()?)
}

#[test]
fn entries_are_modified_or_take_defaults(rt: HostRuntime) {
    let heap = Faulty::new(rt.alloc());
    let mut map = none(&heap);
    for key in 0u64..200 {
        let value = if key < 100 { 0 } else { key };
        assert!(rt; added(&mut map, key % 100, key) == Some(value));
    }
    assert!(rt; map.len() == 100 && map.get(&7) == Some(&107));
}

// Inserts a key that is absent. Returns its value, or what the error returns and whether the key is
// present.
fn put_new(map: &mut Small<'_>, key: u64, value: u64) -> Result<u64, (u64, u64, bool)> {
    match map.try_insert(key, value) {
        Ok(value) => Ok(*value),
        Err(TryInsertError::Occupied { key, value }) => Err((key, value, true)),
        Err(TryInsertError::Refused(back)) => Err((back.source.0, back.source.1, false)),
    }
}

#[test]
fn a_value_is_not_replaced(rt: HostRuntime) {
    let heap = Faulty::new(rt.alloc());
    let mut map = none(&heap);
    heap.fail_requests(0, 1);
    assert!(rt; put_new(&mut map, 3, 1) == Err((3, 1, false)) && map.is_empty());
    assert!(rt; put_new(&mut map, 3, 1) == Ok(1) && map.get(&3) == Some(&1));
    assert!(rt; put_new(&mut map, 3, 2) == Err((3, 2, true)) && map.get(&3) == Some(&1));
    assert!(rt; map.len() == 1 && heap.failures() == 1);
}

#[test]
fn capacity_takes_any_keys(rt: HostRuntime) {
    for step in [1, 299, 167] {
        let heap = Faulty::new(rt.alloc());
        let Ok(mut map) = OrderedMap::with_capacity_in(300, &heap) else {
            assert!(rt; false);
            return;
        };
        let before = heap.requests();
        assert!(rt; map.capacity() == 320 && takes(&mut map, step));
        assert!(rt; heap.requests() == before && map.capacity() == 320);
    }
}

// Whether the keys below 1,000 go in, and then nine of ten are removed.
fn leaves_a_tenth(map: &mut Small<'_>) -> bool {
    let mut all = true;
    for key in 0u64..1000 {
        all = put(map, key, key / 2) == Ok(None) && all;
    }
    for key in 0u64..1000 {
        if key % 10 > 0 {
            all = map.remove(&key) == Some(key / 2) && all;
        }
    }
    all
}

// The leaves without entries are freed. A failed request changes nothing.
#[test]
fn capacity_shrinks_to_fit(rt: HostRuntime) {
    let heap = Faulty::new(rt.alloc());
    let mut map = none(&heap);
    assert!(rt; leaves_a_tenth(&mut map) && map.len() == 100);
    let before = map.capacity();
    heap.fail_requests(0, 1);
    assert!(rt; map.shrink_to_fit().is_err() && map.capacity() == before && map.len() == 100);
    assert!(rt; before >= 500 && map.get(&990) == Some(&495));
    assert!(rt; map.shrink_to_fit().is_ok() && map.capacity() < 164 && map.len() == 100);
    for key in 0u64..1000 {
        assert!(rt; map.get(&key).is_some() == (key % 10 == 0));
    }
    let requests = heap.requests();
    assert!(rt; map.shrink_to_fit().is_ok() && heap.requests() == requests);
    for key in 0u64..100 {
        assert!(rt; map.pop_first() == Some((key * 10, key * 5)));
    }
    assert!(rt; map.shrink_to_fit().is_ok() && map.capacity() == 0 && heap.outstanding() == 0);
}

#[test]
fn a_failed_call_changes_nothing(rt: HostRuntime) {
    // Each request for memory of the first keys fails in turn.
    for failed in 0u64..6 {
        let heap = Faulty::new(rt.alloc());
        let mut map = none(&heap);
        heap.fail_requests(failed, 1);
        for key in 0u64..200 {
            let before = heap.failures();
            let result = put(&mut map, key, key);
            if heap.failures() > before {
                assert!(rt; result == Err((key, key)) && map.len() as u64 == key);
                assert!(rt; put(&mut map, key, key) == Ok(None));
            }
        }
        assert!(rt; heap.failures() == 1 && map.get(&199) == Some(&199));
    }
}

// Text keys own memory, which is freed with them.
#[test]
fn keys_may_own_memory(rt: HostRuntime) -> Result<(), Fail> {
    let heap = rt.alloc();
    let mut map: OrderedMap<String, u64, Global> = OrderedMap::new_in(heap);
    for number in 0u64..200 {
        let key = format!(in heap; "{}", 999 - number)?;
        assert!(rt; map.insert(key, number).is_ok());
    }
    let key = format!(in heap; "850")?;
    assert!(rt; map.get(&key) == Some(&149) && map.remove(&key) == Some(149));
    assert!(rt; map.get(&key) == None && map.len() == 199);
    assert!(rt; map.insert(key, 3).is_ok() && map.len() == 200);
    Ok(())
}

// Whether a reserve of so many fails with no request.
fn is_past_the_limits(map: &mut Small<'_>, additional: usize) -> bool {
    match map.reserve(additional) {
        Ok(()) => false,
        Err(error) => error.kind() == TryReserveErrorKind::CapacityOverflow,
    }
}

#[test]
fn no_map_grows_past_the_limits(rt: HostRuntime) {
    let heap = Faulty::new(rt.alloc());
    let mut map = none(&heap);
    for additional in [1 << 60, usize::MAX] {
        assert!(rt; is_past_the_limits(&mut map, additional) && heap.requests() == 0);
    }
}

// Removes a key by its entry. Returns the key and its value if it was present.
fn removed(map: &mut Small<'_>, key: u64) -> Option<(u64, u64)> {
    match map.entry(key) {
        Entry::Occupied(entry) => Some(entry.remove_entry()),
        Entry::Vacant(_) => None,
    }
}

// Inserts twice the key as its value, unless it is present, and removes it by its entry. Returns its
// value.
fn doubled(map: &mut Small<'_>, key: u64) -> Option<u64> {
    map.entry(key)
        .or_insert_with_key(|k| k.wrapping_mul(2))
        .ok()?;
    match map.entry(key) {
        Entry::Occupied(entry) => Some(entry.remove()),
        Entry::Vacant(_) => None,
    }
}

#[test]
fn keys_are_removed_by_their_entries(rt: HostRuntime) {
    let heap = Faulty::new(rt.alloc());
    let mut map = none(&heap);
    for key in 0u64..200 {
        assert!(rt; adds(&mut map, key, 1));
    }
    for key in 50u64..150 {
        assert!(rt; removed(&mut map, key) == Some((key, 1)) && removed(&mut map, key) == None);
    }
    assert!(rt; doubled(&mut map, 70) == Some(140) && doubled(&mut map, 20) == Some(1));
    assert!(rt; map.len() == 99 && map.get(&49) == Some(&1) && map.get(&70) == None);
}

// Sets the value of a key that is present. Returns the old value and the new one, or the key if it
// is absent.
fn replaced(map: &mut Small<'_>, key: u64, value: u64) -> Result<(u64, u64), u64> {
    match map.entry(key) {
        Entry::Occupied(mut entry) => {
            let old = entry.insert(value);
            Ok((old, *entry.get()))
        }
        Entry::Vacant(entry) => Err(entry.into_key()),
    }
}

#[test]
fn values_are_replaced_by_their_entries(rt: HostRuntime) {
    let heap = Faulty::new(rt.alloc());
    let mut map = none(&heap);
    assert!(rt; adds(&mut map, 5, 1) && replaced(&mut map, 5, 7) == Ok((1, 7)));
    assert!(rt; replaced(&mut map, 6, 7) == Err(6) && map.len() == 1 && map.get(&5) == Some(&7));
}

// The value of a key, which is 4 if it was absent.
fn value_or_four(map: &mut Small<'_>, key: u64) -> Option<u64> {
    match map.entry(key).or_insert_with(|| 4) {
        Ok(value) => Some(*value),
        Err(_) => None,
    }
}

// A map whose allocator is cloned.
fn over_a_clone<'a>(heap: &'a Faulty<Global>) -> Option<Small<'a>> {
    OrderedMap::try_new_in(heap).ok()
}

#[test]
fn an_absent_value_is_made(rt: HostRuntime) {
    let heap = Faulty::new(rt.alloc());
    if let Some(mut map) = over_a_clone(&heap) {
        assert!(rt; value_or_four(&mut map, 3) == Some(4));
        assert!(rt; map.get_key_value(&3) == Some((&3, &4)) && map.get_key_value(&4).is_none());
        assert!(rt; map.allocator().requests() == 2);
    }
    assert!(rt; heap.requests() == 2 && heap.failures() == 0);
}
