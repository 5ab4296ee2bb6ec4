//! The slot map.
use aa_slots::map::{Key, SlotMap};
use std::alloc::Global;
use std::cell::Cell;
use test_allocators::Faulty;
use test_allocators::counted::Counted;
use test_allocators::ends::{End, end_by, end_of, is_all_freed};

type Slots<'a> = SlotMap<Counted<'a>, &'a Faulty<Global>>;

// Puts a value into a slot map: its key, or how that fails.
fn put<'a>(map: &mut Slots<'a>, drops: &'a Cell<u32>) -> Result<Key, End> {
    match map.insert(Counted { value: 0, drops }) {
        Ok(key) => Ok(key),
        Err(refused) => Err(end_by(refused.error)),
    }
}

// Puts four values, takes one out twice, and puts another: how many are dropped by then.
fn five_come<'a>(map: &mut Slots<'a>, drops: &'a Cell<u32>) -> u32 {
    let first = put(map, drops);
    for _ in 0..3 {
        let _key = put(map, drops);
    }
    if let Ok(key) = first {
        for _ in 0..2 {
            drop(map.remove(key));
        }
    }
    let _key = put(map, drops);
    drops.get()
}

fn reserved(map: &mut Slots<'_>, additional: usize) -> End {
    end_of(map.reserve(additional))
}

// Whether each value of a slot map is dropped once, and its calls make these requests.
fn slots_are_so<'a>(heap: &'a Faulty<Global>, drops: &'a Cell<u32>) -> bool {
    let mut map: Slots<'a> = SlotMap::new_in(heap);
    let mut all = heap.requests() == 0;
    heap.fail_requests(0, 1);
    all = put(&mut map, drops).err() == Some(End::NoMemory(4)) && drops.get() == 1 && all;
    all = five_come(&mut map, drops) == 2 && heap.requests() == 3 && all;
    // The capacity to reserve, how this ends, and all requests by then.
    for (additional, failed, end, requests) in [
        (0, 1, End::Done, 3),
        (2, 1, End::NoMemory(6), 4),
        (2, 0, End::Done, 6),
        (2, 1, End::Done, 6),
        (1 << 60, 0, End::TooLong, 6),
        (usize::MAX, 0, End::TooLong, 6),
    ] {
        heap.fail_requests(0, failed);
        all = reserved(&mut map, additional) == end && heap.requests() == requests && all;
    }
    all && map.len() == 4
}

#[test]
fn values_of_a_slot_map_are_dropped_once(rt: HostRuntime) {
    let heap = Faulty::new(rt.alloc());
    let drops = Cell::new(0);
    assert!(rt; slots_are_so(&heap, &drops) && drops.get() == 6 && is_all_freed(&heap));
}

// Whether each value of a slot map is dropped once that is iterated over by value.
fn pairs_are_so<'a>(heap: &'a Faulty<Global>, drops: &'a Cell<u32>) -> bool {
    let mut map: Slots<'a> = SlotMap::new_in(heap);
    let before = five_come(&mut map, drops);
    let mut pairs = map.into_iter();
    drop(pairs.next());
    before == 1 && drops.get() == 2 && pairs.len() == 3
}

#[test]
fn pairs_of_a_slot_map_are_dropped_once(rt: HostRuntime) {
    let heap = Faulty::new(rt.alloc());
    let drops = Cell::new(0);
    assert!(rt; pairs_are_so(&heap, &drops) && drops.get() == 5 && is_all_freed(&heap));
}

// Whether a drain drops each value of a slot map once, those not taken too, and allocates nothing.
fn drained_are_so<'a>(heap: &'a Faulty<Global>, drops: &'a Cell<u32>) -> bool {
    let mut map: Slots<'a> = SlotMap::new_in(heap);
    let before = five_come(&mut map, drops);
    let requests = heap.requests();
    let mut pairs = map.drain();
    drop(pairs.next());
    let taken = drops.get();
    drop(pairs);
    (before, taken, drops.get()) == (1, 2, 5) && heap.requests() == requests && map.is_empty()
}

#[test]
fn drained_values_of_a_slot_map_are_dropped_once(rt: HostRuntime) {
    let heap = Faulty::new(rt.alloc());
    let drops = Cell::new(0);
    assert!(rt; drained_are_so(&heap, &drops) && drops.get() == 5 && is_all_freed(&heap));
}

// Whether an extraction drops the value that it removes, keeps the others, and allocates nothing.
fn extracted_are_so<'a>(heap: &'a Faulty<Global>, drops: &'a Cell<u32>) -> bool {
    let mut map: Slots<'a> = SlotMap::new_in(heap);
    let before = five_come(&mut map, drops);
    let requests = heap.requests();
    let mut pairs = map.extract_if(|_, _| true);
    drop(pairs.next());
    drop(pairs);
    (before, drops.get(), map.len()) == (1, 2, 3) && heap.requests() == requests
}

#[test]
fn extracted_values_of_a_slot_map_are_dropped_once(rt: HostRuntime) {
    let heap = Faulty::new(rt.alloc());
    let drops = Cell::new(0);
    assert!(rt; extracted_are_so(&heap, &drops) && drops.get() == 5 && is_all_freed(&heap));
}
