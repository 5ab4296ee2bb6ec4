//! The slot map.
use aa_slots::cursor::CursorMut;
use aa_slots::map::{Key, SlotMap};
use aa_table::set::Set;
use allocator_api2::collections::TryReserveErrorKind;
use allocator_api2::raw_vec::Growth;
use allocator_api2::vec::Vec;
use std::alloc::{AllocError, Global};
use std::default::{Emptied, MadeWith};
use std::mem::forget;
use std::test::Fail;
use test_allocators::Faulty;

// A map over an allocator that may fail.
type Small<'a> = SlotMap<u32, &'a Faulty<Global>>;

fn put(map: &mut Small<'_>, value: u32) -> Option<Key> {
    map.insert(value).ok()
}

// The value of a key.
fn has(map: &Small<'_>, key: Key) -> Option<u32> {
    map.get(key).copied()
}

// Removes a key, and returns its value.
fn taken(map: &mut Small<'_>, key: Key) -> Option<u32> {
    map.remove(key)
}

// Whether a key that went is never found again, and others are.
fn keeps_keys_apart(map: &mut Small<'_>) -> Option<bool> {
    let a = put(map, 1)?;
    let b = put(map, 2)?;
    let removed = (taken(map, a), taken(map, a)) == (Some(1), None);
    let c = put(map, 3)?;
    write(map, b, 20);
    Some(
        removed
            && finds(map, a, None)
            && finds(map, b, Some(20))
            && finds(map, c, Some(3))
            && has_new_key(map, c, b),
    )
}

// Writes the value of a key.
fn write(map: &mut Small<'_>, key: Key, value: u32) {
    if let Some(old) = map.get_mut(key) {
        *old = value;
    }
}

fn finds(map: &Small<'_>, key: Key, value: Option<u32>) -> bool {
    has(map, key) == value && map.contains_key(key) == value.is_some()
}

// Whether the first keys are these, with 3 and 20.
fn has_new_key(map: &Small<'_>, first: Key, second: Key) -> bool {
    let mut keys = map.iter();
    keys.next() == Some((first, &3)) && keys.next() == Some((second, &20))
}

// Passes a value with this key, and doubles it.
fn doubles(values: &mut CursorMut<'_, u32, &Faulty<Global>>, key: Key) -> bool {
    let next = values.peek_key() == Some(key);
    match values.next() {
        Some(value) => {
            *value = value.wrapping_mul(2);
            next
        }
        None => false,
    }
}

// Whether a cursor passes the values in order, but not the free slots, and writes each.
fn doubles_all(map: &mut Small<'_>) -> Option<bool> {
    let a = put(map, 1)?;
    let b = put(map, 2)?;
    let c = put(map, 3)?;
    let removed = taken(map, b) == Some(2);
    let mut values = map.cursor_mut();
    let doubled = doubles(&mut values, a) && doubles(&mut values, c);
    let ended = values.peek_key().is_none() && values.next().is_none();
    Some(
        removed
            && doubled
            && ended
            && finds(map, a, Some(2))
            && finds(map, b, None)
            && finds(map, c, Some(6))
            && map.len() == 2,
    )
}

#[test]
fn a_cursor_writes_each_value(rt: HostRuntime) {
    let heap = Faulty::new(rt.alloc());
    let mut map: Small<'_> = SlotMap::new_in(&heap);
    assert!(rt; doubles_all(&mut map) == Some(true));
    map.fill(9);
    assert!(rt; map.iter().all(|(_, value)| *value == 9) && map.len() == 2);
    assert!(rt; heap.requests() == 2);
}

#[test]
fn a_key_is_never_found_again(rt: HostRuntime) {
    let heap = Faulty::new(rt.alloc());
    let mut map: Small<'_> = SlotMap::new_in(&heap);
    assert!(rt; keeps_keys_apart(&mut map) == Some(true));
    assert!(rt; heap.requests() == 2 && map.len() == 2);
}

// A key has no mark of its map: another map finds what has the same slot and serial.
#[test]
fn a_key_of_another_map_may_find_a_value(rt: HostRuntime) {
    let heap = Faulty::new(rt.alloc());
    let mut map: Small<'_> = SlotMap::new_in(&heap);
    let mut other: Small<'_> = SlotMap::new_in(&heap);
    let key = put(&mut map, 1);
    assert!(rt; finds_any(&other, key) == None);
    assert!(rt; put(&mut other, 2) == key && finds_any(&other, key) == Some(2));
    assert!(rt; finds_any(&map, key) == Some(1));
}

// Returns the value of a key, if there is one.
fn finds_any(map: &Small<'_>, key: Option<Key>) -> Option<u32> {
    has(map, key?)
}

// Returns the value in the error, and the kind of the error.
fn returned(map: &mut Small<'_>, value: u32) -> Option<(u32, TryReserveErrorKind)> {
    match map.insert(value) {
        Ok(_) => None,
        Err(back) => Some((back.source, back.error.kind())),
    }
}

fn makes_room(map: &mut Small<'_>, additional: usize) -> bool {
    map.reserve(additional).is_ok()
}

// Returns the error of a shrink whose requests fail after the first `granted` ones.
fn shrink_error(
    map: &mut Small<'_>,
    heap: &Faulty<Global>,
    granted: u64,
) -> Option<TryReserveErrorKind> {
    heap.fail_requests(granted, 1);
    match map.shrink_to_fit() {
        Ok(()) => None,
        Err(error) => Some(error.kind()),
    }
}

// Whether a map shrinks to its slots, of which one is free, and is unchanged if it fails.
fn shrinks_to_its_slots(map: &mut Small<'_>, heap: &Faulty<Global>) -> Option<bool> {
    let reserved = makes_room(map, 8);
    let first = put(map, 1)?;
    let second = put(map, 2)?;
    let third = put(map, 3)?;
    let removed = taken(map, second) == Some(2);
    let kind = Some(TryReserveErrorKind::AllocError { capacity: 3 });
    let failed = shrink_error(map, heap, 0) == kind && shrink_error(map, heap, 1) == kind;
    let unchanged = map.capacity() == 8;
    heap.fail_requests(0, 0);
    let shrunk = map.shrink_to_fit().is_ok() && map.capacity() == 3;
    let again = shrink_error(map, heap, 0).is_none() && put(map, 4)?.data() > second.data();
    let kept = finds(map, first, Some(1)) && finds(map, second, None) && finds(map, third, Some(3));
    Some(reserved && removed && failed && unchanged && shrunk && again && kept)
}

#[test]
fn a_map_shrinks_to_its_slots(rt: HostRuntime) {
    let heap = Faulty::new(rt.alloc());
    let mut map: Small<'_> = SlotMap::new_in(&heap);
    assert!(rt; map.shrink_to_fit().is_ok() && heap.requests() == 0);
    assert!(rt; shrinks_to_its_slots(&mut map, &heap) == Some(true));
    assert!(rt; map.len() == 3 && map.capacity() == 3);
}

// Inserts a value, and removes it again unless it is one of the first two. Returns whether this
// succeeds.
fn insert_and_remove(map: &mut Small<'_>, value: u32) -> bool {
    match put(map, value) {
        Some(key) => value < 2 || taken(map, key) == Some(value),
        None => false,
    }
}

// Returns whether there is capacity for three keys, though all requests fail.
fn is_steady(map: &mut Small<'_>) -> bool {
    let mut all = true;
    for value in 0u32..1000 {
        all = insert_and_remove(map, value) && all;
    }
    put(map, 3).is_some() && all
}

// At a steady size no more memory is requested.
#[test]
fn reserved_capacity_is_used_when_the_heap_fails(rt: HostRuntime) {
    let heap = Faulty::new(rt.alloc());
    let mut map: Small<'_> = SlotMap::new_in(&heap);
    // The request of each of the two blocks may fail.
    for granted in 0..2 {
        heap.fail_requests(granted, 1);
        assert!(rt; !makes_room(&mut map, 3) && map.capacity() == 0);
    }
    heap.fail_requests(0, 0);
    assert!(rt; makes_room(&mut map, 3) && map.capacity() == 3);
    heap.fail_requests(0, u64::MAX);
    assert!(rt; is_steady(&mut map));
    let failed = TryReserveErrorKind::AllocError { capacity: 7 };
    assert!(rt; returned(&mut map, 4) == Some((4, failed)) && map.len() == 3);
}

// The capacities of a full map of twelve, and of one that grew from it, and the requests of the
// insert that made it grow. One before failed at its second request.
fn grown_twice(growth: Growth, heap: &Faulty<Global>) -> Option<(usize, usize, u64)> {
    let mut map: Small<'_> = SlotMap::with_growth_in(growth, heap);
    let mut all = makes_room(&mut map, 12);
    for value in 0u32..12 {
        all = put(&mut map, value).is_some() && all;
    }
    heap.fail_requests(1, 1);
    all = put(&mut map, 12).is_none() && all;
    let (kept, before) = (map.capacity(), heap.requests());
    all = put(&mut map, 12).is_some() && map.len() == 13 && all;
    if all && map.growth() == growth {
        Some((kept, map.capacity(), heap.requests().saturating_sub(before)))
    } else {
        None
    }
}

// A block that grew in place is kept if the other one could not.
#[test]
fn a_full_map_grows_by_its_policy(rt: HostRuntime) {
    let heap = Faulty::new(rt.alloc());
    for (growth, capacity, requests) in [
        (Growth::Doubling, 24, 2),
        (Growth::Sparing, 18, 2),
        (Growth::InPlace, 24, 1),
    ] {
        assert!(rt; grown_twice(growth, &heap) == Some((12, capacity, requests)));
    }
    assert!(rt; heap.outstanding() == 0);
}

// A map with 1 and 3, where 3 is in the slot of a value that was removed.
fn one_and_three<'a>(heap: &'a Faulty<Global>) -> Small<'a> {
    let mut map: Small<'a> = MadeWith::made_with(heap);
    for value in 1u32..4 {
        if let (2, Some(key)) = (value, put(&mut map, value)) {
            let _removed = taken(&mut map, key);
        }
    }
    map
}

fn value_of(pair: Option<(Key, &u32)>) -> Option<u32> {
    match pair {
        Some((_, value)) => Some(*value),
        None => None,
    }
}

// The number of pairs, the values at the two ends, and how many are left.
fn ends(map: &Small<'_>) -> (usize, Option<u32>, Option<u32>, Option<usize>) {
    let mut pairs = map.iter();
    let len = pairs.len();
    let last = value_of(pairs.next_back());
    let first = value_of(pairs.next());
    (len, first, last, pairs.size_hint().1)
}

// Writes 7 by index for each key, and returns what a loop over the map then sees.
fn sevens(map: &mut Small<'_>, key: Option<Key>) -> (u32, u32) {
    let mut read = 0;
    if let Some(key) = key {
        if map.contains_key(key) {
            map[key] = 7;
            read = map[key];
        }
    }
    let mut sum = 0u32;
    for (_, value) in &*map {
        sum = sum.wrapping_add(*value);
    }
    (read, sum)
}

#[test]
fn pairs_come_from_both_ends(rt: HostRuntime) {
    let heap = Faulty::new(rt.alloc());
    let mut map = one_and_three(&heap);
    assert!(rt; ends(&map) == (2, Some(1), Some(3), Some(0)));
    let key = put(&mut map, 5);
    assert!(rt; sevens(&mut map, key) == (7, 11));
}

// What a map of 1 and 3 and its iterator print.
fn printed(alloc: Global, heap: &Faulty<Global>) -> Result<String, AllocError> {
    let map = one_and_three(heap);
    let pairs = map.iter().clone()?;
    format!(in alloc; "{map:?} {pairs:?}")
}

#[test]
fn a_map_prints_its_keys_and_values(rt: HostRuntime) -> Result<(), Fail> {
    let heap = Faulty::new(rt.alloc());
    let text = printed(rt.alloc(), &heap)?;
    let pairs = "{Key { index: 0, serial: 0 }: 1, Key { index: 1, serial: 2 }: 3} \
        [(Key { index: 0, serial: 0 }, 1), (Key { index: 1, serial: 2 }, 3)]";
    assert!(rt; text.as_str() == pairs);
    Ok(())
}

// Whether an empty map is made on a clone of the allocator.
fn is_emptied(map: &Small<'_>) -> bool {
    match Small::emptied(map) {
        Ok(made) => made.is_empty() && !map.is_empty(),
        Err(_) => false,
    }
}

#[test]
fn a_map_is_emptied(rt: HostRuntime) {
    let heap = Faulty::new(rt.alloc());
    let mut map = one_and_three(&heap);
    assert!(rt; is_emptied(&map));
    map.clear();
    assert!(rt; map.is_empty() && put(&mut map, 4).is_some() && map.len() == 1);
    assert!(rt; heap.requests() == 2);
}

// Returns whether a map equals its clone, whether it still does once a value was written, and
// whether both issue the same key.
fn is_cloned(map: &mut Small<'_>, key: Option<Key>) -> Option<(bool, bool, bool)> {
    let mut copy = map.clone().ok()?;
    let same = *map == copy && copy.len() == map.len();
    write(map, key?, 30);
    let still = *map == copy;
    Some((same, still, put(map, 9) == put(&mut copy, 9)))
}

// Returns the kind of the error of a clone.
fn clone_fails(map: &Small<'_>) -> Option<TryReserveErrorKind> {
    match map.clone() {
        Ok(_) => None,
        Err(error) => Some(error.kind()),
    }
}

#[test]
fn a_map_equals_its_clone(rt: HostRuntime) {
    let heap = Faulty::new(rt.alloc());
    let mut map = one_and_three(&heap);
    let key = put(&mut map, 5);
    assert!(rt; insert_and_remove(&mut map, 7));
    let failed = TryReserveErrorKind::AllocError { capacity: 4 };
    heap.fail_requests(0, 1);
    assert!(rt; clone_fails(&map) == Some(failed));
    assert!(rt; is_cloned(&mut map, key) == Some((true, false, true)));
    drop(map);
    assert!(rt; heap.outstanding() == 0);
}

// The keys from the front and the values from the back, one of each, and how many remain.
fn first_and_last(map: &Small<'_>) -> (Option<Key>, Option<u32>, usize, usize) {
    let mut keys = map.keys();
    let mut values = map.values();
    let (key, value) = (keys.next(), values.next_back().copied());
    (key, value, keys.len(), values.len())
}

#[test]
fn keys_and_values_come_from_both_ends(rt: HostRuntime) {
    let heap = Faulty::new(rt.alloc());
    let mut map: Small<'_> = SlotMap::new_in(&heap);
    let key = put(&mut map, 1);
    assert!(rt; put(&mut map, 2).is_some() && first_and_last(&map) == (key, Some(2), 1, 1));
}

// The first value and the last one, taken out of a map, and how many remain.
fn taken_out(map: Small<'_>) -> (Option<u32>, Option<u32>, usize) {
    let mut pairs = map.into_iter();
    let first = pairs.next().map(|(_, value)| value);
    let last = pairs.next_back().map(|(_, value)| value);
    (first, last, pairs.len())
}

#[test]
fn values_are_taken_out(rt: HostRuntime) {
    let heap = Faulty::new(rt.alloc());
    let mut map = one_and_three(&heap);
    let key = put(&mut map, 5);
    let last = put(&mut map, 7);
    assert!(rt; key.is_some() && last.is_some());
    assert!(rt; taken_out(map) == (Some(1), Some(7), 2) && heap.outstanding() == 0);
}

// Keeps the odd values and adds one to each of them; returns how many there were.
fn keeps_odd(map: &mut Small<'_>) -> u32 {
    let mut calls = 0u32;
    map.retain(|_, value| {
        calls = calls.wrapping_add(1);
        let keep = *value % 2 == 1;
        *value = value.wrapping_add(1);
        keep
    });
    calls
}

#[test]
fn values_are_retained_by_a_closure(rt: HostRuntime) {
    let heap = Faulty::new(rt.alloc());
    let mut map = one_and_three(&heap);
    let (four, five) = (put(&mut map, 4), put(&mut map, 5));
    assert!(rt; keeps_odd(&mut map) == 4 && map.len() == 3 && heap.requests() == 2);
    assert!(rt; finds_any(&map, four) == None && finds_any(&map, five) == Some(6));
}

// Whether a value is even. Adds four to one that is not.
fn is_even(value: &mut u32) -> bool {
    let even = *value % 2 == 0;
    if !even {
        *value = value.wrapping_add(4);
    }
    even
}

// Removes the first even value, and returns it and how many were not tested.
fn first_extracted(map: &mut Small<'_>) -> (Option<(Key, u32)>, Option<usize>) {
    let mut evens = map.extract_if(|_, value| is_even(value));
    let first = evens.next();
    (first, evens.size_hint().1)
}

// Removes all even values, and returns the first of them.
fn evens_extracted<'a>(map: &mut Small<'a>, heap: &'a Faulty<Global>) -> Option<(Key, u32)> {
    let evens = map.extract_if(|_, value| is_even(value));
    let all: Vec<(Key, u32), &'a Faulty<Global>> = evens.collect(heap).ok()?;
    all.first().copied()
}

// Removes the first even value by a closure that also counts its calls; returns it and the count.
fn extracted_by(map: &mut Small<'_>) -> (Option<u32>, u32) {
    let mut calls = 0u32;
    let mut count = |_: Key, value: &mut u32| {
        calls = calls.wrapping_add(1);
        is_even(value)
    };
    let mut evens = map.extract_by();
    let first = evens.next_by(&mut count).map(|(_, value)| value);
    (first, calls)
}

#[test]
fn values_are_extracted_by_a_closure(rt: HostRuntime) {
    let heap = Faulty::new(rt.alloc());
    let mut map = one_and_three(&heap);
    let four = put(&mut map, 4);
    let (six, eight) = (put(&mut map, 6), put(&mut map, 8));
    let found = four.map(|key| (key, 4));
    assert!(rt; first_extracted(&mut map) == (found, Some(2)) && map.len() == 4);
    assert!(rt; finds_any(&map, four) == None && finds_any(&map, six) == Some(6));
    assert!(rt; extracted_by(&mut map) == (Some(6), 3) && finds_any(&map, six) == None);
    let found = eight.map(|key| (key, 8));
    assert!(rt; evens_extracted(&mut map, &heap) == found && heap.requests() == 5);
    assert!(rt; digits_drained(&mut map) == 145);
}

// Doubles the values from the front, and adds one to the last of them. Returns how many values there
// were, and their keys in order.
fn doubled<'a>(map: &mut Small<'a>) -> (usize, Option<Key>, Option<Key>) {
    let mut pairs = map.iter_mut();
    let all = pairs.len();
    let mut first = None;
    if let Some((key, value)) = pairs.next() {
        *value = value.wrapping_mul(2);
        first = Some(key);
    }
    let mut last = None;
    if let Some((key, value)) = pairs.next_back() {
        *value = value.wrapping_add(1);
        last = Some(key);
    }
    (all, first, last)
}

// Writes the index of each value, in order, plus 10 to all values, and plus 100 in a loop.
fn numbered(map: &mut Small<'_>) -> usize {
    let mut index = 0u32;
    for value in map.values_mut() {
        *value = value.wrapping_add(10).wrapping_add(index);
        index = index.wrapping_add(1);
    }
    for (_, value) in &mut *map {
        *value = value.wrapping_add(100);
    }
    map.values_mut().len()
}

#[test]
fn values_are_borrowed_all_at_once(rt: HostRuntime) {
    let heap = Faulty::new(rt.alloc());
    let mut map = one_and_three(&heap);
    let key = put(&mut map, 5);
    let (all, first, last) = doubled(&mut map);
    assert!(rt; all == 3 && last == key && finds_any(&map, last) == Some(6));
    assert!(rt; finds_any(&map, first) == Some(2) && numbered(&mut map) == 3);
    assert!(rt; finds_any(&map, first) == Some(112) && finds_any(&map, last) == Some(118));
    assert!(rt; heap.requests() == 2 && map.len() == 3);
}

// Writes all values of a map that has none, and returns how many there were.
fn none_written(map: &mut Small<'_>) -> usize {
    let mut count = 0usize;
    for value in map.values_mut() {
        *value = 7;
        count = count.wrapping_add(1);
    }
    count
}

#[test]
fn an_empty_map_lends_no_values(rt: HostRuntime) {
    let heap = Faulty::new(rt.alloc());
    let mut map: Small<'_> = SlotMap::new_in(&heap);
    assert!(rt; none_written(&mut map) == 0);
    let key = put(&mut map, 1);
    assert!(rt; removed_any(&mut map, key) == Some(1) && none_written(&mut map) == 0);
    assert!(rt; map.iter_mut().next().is_none() && finds_any(&map, key) == None);
}

// Removes a key, if there is one, and returns its value.
fn removed_any(map: &mut Small<'_>, key: Option<Key>) -> Option<u32> {
    taken(map, key?)
}

// The capacity of a new map for 5 values, once one was inserted.
fn capacity_of_five<'a>(heap: &'a Faulty<Global>) -> Option<usize> {
    let mut map = Small::with_capacity_in(5, heap).ok()?;
    let _key = put(&mut map, 1)?;
    Some(map.capacity())
}

#[test]
fn a_map_is_made_with_capacity(rt: HostRuntime) {
    let heap = Faulty::new(rt.alloc());
    assert!(rt; capacity_of_five(&heap) == Some(5) && heap.requests() == 2);
    for granted in 0..2 {
        heap.fail_requests(granted, 1);
        assert!(rt; capacity_of_five(&heap) == None && heap.outstanding() == 0);
    }
}

// How many pairs a drain has, the first and the last, and how many it then has.
fn ends_drained(map: &mut Small<'_>) -> (usize, Option<u32>, Option<(Key, u32)>, usize) {
    let mut pairs = map.drain();
    let all = pairs.len();
    let first = pairs.next().map(|(_, value)| value);
    let last = pairs.next_back();
    (all, first, last, pairs.len())
}

// Removes all values, and returns their digits in order.
fn digits_drained(map: &mut Small<'_>) -> u32 {
    let mut digits = 0u32;
    for (_, value) in map.drain() {
        digits = digits.wrapping_mul(10).wrapping_add(value);
    }
    digits
}

#[test]
fn a_map_is_drained(rt: HostRuntime) {
    let heap = Faulty::new(rt.alloc());
    let mut map = one_and_three(&heap);
    let five = put(&mut map, 5);
    assert!(rt; digits_drained(&mut map) == 135 && map.is_empty() && map.capacity() == 4);
    let six = put(&mut map, 6);
    assert!(rt; finds_any(&map, five) == None && six.is_some() && six != five);
    let seven = put(&mut map, 7);
    let eight = put(&mut map, 8);
    let last = eight.map(|key| (key, 8));
    assert!(rt; ends_drained(&mut map) == (3, Some(6), last, 1) && map.is_empty());
    assert!(rt; finds_any(&map, seven) == None && heap.requests() == 2);
}

// Takes the first of three values out of a drain, and forgets the drain.
fn forgotten(map: &mut Small<'_>) -> Option<u32> {
    let mut pairs = map.drain();
    let first = pairs.next().map(|(_, value)| value);
    forget(pairs);
    first
}

#[test]
fn a_forgotten_drain_leaves_values_in_the_map(rt: HostRuntime) {
    let heap = Faulty::new(rt.alloc());
    let mut map = one_and_three(&heap);
    let five = put(&mut map, 5);
    assert!(rt; forgotten(&mut map) == Some(1) && map.len() == 2);
    assert!(rt; finds_any(&map, five) == Some(5) && put(&mut map, 7).is_some());
    assert!(rt; digits_drained(&mut map) == 735 && map.len() == 0);
}

// Whether the key of a new value is put into a set once, and is no key that no map issues.
fn is_new_once(map: &mut SlotMap<u8>, seen: &mut Set<Key>) -> bool {
    match map.insert(7) {
        Ok(key) => {
            let added = matches!(seen.insert(key), Ok(true))
                && matches!(seen.insert(key), Ok(false));
            added && key < Key::default() && map.get(Key::default()).is_none()
        }
        Err(_) => false,
    }
}

#[test]
fn keys_are_put_in_a_set(rt: HostRuntime) {
    let mut map = SlotMap::new_in(rt.alloc());
    let mut seen = Set::new_in(rt.alloc());
    assert!(rt; is_new_once(&mut map, &mut seen) && is_new_once(&mut map, &mut seen));
    assert!(rt; seen.len() == 2 && map.len() == 2);
}
