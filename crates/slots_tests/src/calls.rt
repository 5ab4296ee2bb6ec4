//! Calls of the slot map that call a closure.
use aa_slots::map::{Key, SlotMap};
use allocator_api2::collections::TryReserveErrorKind;
use std::alloc::Global;
use test_allocators::Faulty;

// A map whose values have their own keys.
type Nodes<'a> = SlotMap<(Key, u32), &'a Faulty<Global>>;

// Inserts a value with its key.
fn put(map: &mut Nodes<'_>, value: u32) -> Option<Key> {
    map.insert_with_key(|key| (key, value)).ok()
}

// Whether each value has the key that finds it, in a free slot as in a new one.
fn values_know_their_keys(map: &mut Nodes<'_>) -> Option<bool> {
    let first = put(map, 1)?;
    let second = put(map, 2)?;
    let removed = map.remove(first) == Some((first, 1));
    let third = put(map, 3)?;
    let fourth = put(map, 4)?;
    Some(
        removed
            && map.get(second) == Some(&(second, 2))
            && map.get(third) == Some(&(third, 3))
            && map.get(fourth) == Some(&(fourth, 4))
            && map.get(first).is_none(),
    )
}

#[test]
fn a_value_is_made_with_its_key(rt: HostRuntime) {
    let heap = Faulty::new(rt.alloc());
    let mut map: Nodes<'_> = SlotMap::new_in(&heap);
    assert!(rt; values_know_their_keys(&mut map) == Some(true) && map.len() == 3);
    assert!(rt; map.iter().all(|(key, value)| key == value.0));
}

// Returns how an insertion fails, and whether the closure was called.
fn fails(map: &mut Nodes<'_>) -> (Option<TryReserveErrorKind>, bool) {
    let mut called = false;
    let inserted = map.insert_with_key(|key| {
        called = true;
        (key, 1)
    });
    match inserted {
        Ok(_) => (None, called),
        Err(error) => (Some(error.kind()), called),
    }
}

#[test]
fn no_value_is_made_if_memory_lacks(rt: HostRuntime) {
    let heap = Faulty::new(rt.alloc());
    let mut map: Nodes<'_> = SlotMap::new_in(&heap);
    heap.fail_requests(0, 1);
    let kind = TryReserveErrorKind::AllocError { capacity: 4 };
    assert!(rt; fails(&mut map) == (Some(kind), false));
    assert!(rt; map.is_empty() && fails(&mut map) == (None, true) && map.len() == 1);
}
