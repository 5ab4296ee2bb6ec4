//! Drops of entries, and memory that is freed.
use aa_ordered::map::OrderedMap;
use std::alloc::Global;
use std::cell::Cell;
use test_allocators::Faulty;
use test_allocators::counted::Counted;

// A map of values that count their drops.
type Values<'a> = OrderedMap<u64, Counted<'a>, &'a Faulty<Global>>;

// Sets the value of a key. Returns whether it did; the old value is dropped.
fn put<'a>(map: &mut Values<'a>, drops: &'a Cell<u32>, key: u64) -> bool {
    map.insert(key, Counted { value: 0, drops }).is_ok()
}

// Inserts 200 keys, which take several leaves. Returns whether it did.
fn fill<'a>(map: &mut Values<'a>, drops: &'a Cell<u32>) -> bool {
    let mut all = true;
    for key in 0u64..200 {
        all = put(map, drops, key) && all;
    }
    all
}

// Whether four values are dropped: one that a failed call returned, one that was replaced, one that
// was removed, and one whose key was present.
fn four_are_dropped<'a>(heap: &'a Faulty<Global>, drops: &'a Cell<u32>) -> bool {
    let mut map: Values<'a> = OrderedMap::new_in(heap);
    heap.fail_requests(0, 1);
    let mut all = !put(&mut map, drops, 0) && drops.get() == 1;
    all = fill(&mut map, drops) && put(&mut map, drops, 7) && drops.get() == 2 && all;
    for _ in 0..2 {
        drop(map.remove(&7));
    }
    all = drops.get() == 3 && all;
    let is_new = map.try_insert(9, Counted { value: 0, drops }).is_ok();
    all && !is_new && drops.get() == 4 && map.len() == 199
}

#[test]
fn values_are_dropped_once(rt: HostRuntime) {
    let heap = Faulty::new(rt.alloc());
    let drops = Cell::new(0);
    assert!(rt; four_are_dropped(&heap, &drops) && drops.get() == 203 && heap.outstanding() == 0);
}

// Whether a map that is cleared drops its values once, and takes others without an allocation.
fn clear_drops_once<'a>(heap: &'a Faulty<Global>, drops: &'a Cell<u32>) -> bool {
    let mut map: Values<'a> = OrderedMap::new_in(heap);
    let filled = fill(&mut map, drops);
    let requests = heap.requests();
    map.clear();
    let cleared = drops.get() == 200 && map.is_empty();
    filled && cleared && fill(&mut map, drops) && heap.requests() == requests
}

#[test]
fn cleared_values_are_dropped_once(rt: HostRuntime) {
    let heap = Faulty::new(rt.alloc());
    let drops = Cell::new(0);
    assert!(rt; clear_drops_once(&heap, &drops) && drops.get() == 400 && heap.outstanding() == 0);
}

// Whether two entries are taken from the ends of an iterator by value, and 198 remain in it.
fn two_are_taken<'a>(heap: &'a Faulty<Global>, drops: &'a Cell<u32>) -> bool {
    let mut map: Values<'a> = OrderedMap::new_in(heap);
    let filled = fill(&mut map, drops);
    let mut pairs = map.into_iter();
    drop(pairs.next());
    drop(pairs.next_back());
    filled && drops.get() == 2 && pairs.len() == 198
}

#[test]
fn values_that_are_not_taken_are_dropped_once(rt: HostRuntime) {
    let heap = Faulty::new(rt.alloc());
    let drops = Cell::new(0);
    assert!(rt; two_are_taken(&heap, &drops) && drops.get() == 200 && heap.outstanding() == 0);
}
