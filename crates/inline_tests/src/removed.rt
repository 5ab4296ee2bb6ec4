//! The calls of a small vector that remove what a closure or a range says, inline and in a block.
ghost use Rattle.std.specs.Prelude.{◌≤◌, length};

use aa_inline::inline::InlineVec;
use std::alloc::Global;
use std::cell::Cell;
use test_allocators::Faulty;
use test_allocators::counted::Counted;
use test_allocators::ends::is_all_freed;

// Up to three items inline.
type Small<'a> = InlineVec<u64, &'a Faulty<Global>, 3>;

// A call that takes a closure, owned or by `&mut`.
#[derive(Clone, Copy)]
enum Choice {
    Retain,
    RetainMut,
    RetainBy,
    DedupBy,
    DedupWithin,
    DedupByKey,
    PopIf,
}

fn is_odd(x: &u64) -> bool {
    *x % 2 == 1
}

// Doubles a number, and keeps it unless it is 4 then.
fn is_kept(x: &mut u64) -> bool {
    *x = x.wrapping_mul(2);
    *x != 4
}

// A small number takes the place of the last one kept.
fn takes_place(x: &mut u64, last: &mut u64) -> bool {
    let is_small = *x < 5;
    if is_small {
        *last = *x;
    }
    is_small
}

fn third(x: &mut u64) -> u64 {
    *x / 3
}

#[tactic(auto, using(allocator_api2::proofs::Callers::callers))]
fn choose(choice: Choice, v: &mut Small<'_>) {
    match choice {
        Choice::Retain => v.retain(is_odd),
        Choice::RetainMut => v.retain_mut(is_kept),
        Choice::RetainBy => v.retain_by(&mut is_kept),
        Choice::DedupBy => v.dedup_by(takes_place),
        Choice::DedupWithin => v.dedup_within(&mut takes_place),
        Choice::DedupByKey => v.dedup_by_key(third),
        Choice::PopIf => {
            let _last = v.pop_if(is_kept);
        }
    }
}

// Whether the call leaves this of the items.
fn leaves(heap: &Faulty<Global>, choice: Choice, items: &[u64], left: &[u64]) -> bool {
    match Small::from_slice_in(items, heap) {
        Ok(small) => {
            let mut small = small;
            choose(choice, &mut small);
            small.as_slice() == left
        }
        Err(_) => false,
    }
}

#[test]
fn closures_choose_the_items(rt: HostRuntime) {
    let heap = Faulty::new(rt.alloc());
    for (choice, items, left) in [
        (
            Choice::Retain,
            [1u64, 2, 3].as_slice(),
            [1u64, 3].as_slice(),
        ),
        (Choice::Retain, &[2, 1, 2, 3, 4], &[1, 3]),
        (Choice::RetainMut, &[1, 2, 3], &[2, 6]),
        (Choice::RetainBy, &[2, 1, 2, 4], &[2, 8]),
        (Choice::DedupBy, &[7, 3, 8], &[3, 8]),
        (Choice::DedupBy, &[9], &[9]),
        (Choice::DedupWithin, &[9, 1, 6, 2], &[1, 2]),
        (Choice::DedupByKey, &[3, 4, 6], &[3, 6]),
        (Choice::DedupByKey, &[0, 3, 4, 5, 9], &[0, 3, 9]),
        (Choice::PopIf, &[1, 2], &[1, 4]),
        (Choice::PopIf, &[1, 3], &[1]),
        (Choice::PopIf, &[1, 2, 3, 5], &[1, 2, 3]),
        (Choice::PopIf, &[], &[]),
    ] {
        assert!(rt; leaves(&heap, choice, items, left));
    }
    assert!(rt; heap.outstanding() == 0);
}

// The first and the last item of a range that is removed.
fn ends_of_range(v: &mut Small<'_>, start: usize, end: usize) -> (Option<u64>, Option<u64>) {
    if start <= end && end <= v.len() {
        let mut items = v.drain(start..end);
        return (items.next(), items.next_back());
    }
    (None, None)
}

// Whether the item at 0 is the only one that is removed.
fn first_is_removed(v: &mut Small<'_>) -> bool {
    v.len() > 0 && first_of_range(v, 0, 1) == Some(0)
}

// Removes the items from `start` on, up to `end`, and returns the first of them.
fn first_of_range(v: &mut Small<'_>, start: usize, end: usize) -> Option<u64>
    requires { (start ≤ end) × (end ≤ length v.old.items) }
{
    let mut items = v.drain(start..end);
    items.next()
}

// Splits all but the first item off, and returns how many these are.
fn split_first(v: &mut Small<'_>) -> usize {
    if v.is_empty() {
        return 0;
    }
    match v.split_off(1) {
        Ok(others) => others.len(),
        Err(_) => 0,
    }
}

#[test]
fn a_range_is_drained(rt: HostRuntime) {
    let heap = Faulty::new(rt.alloc());
    for (count, requests) in [(3u64, 0), (7, 1)] {
        let mut v: Small<'_> = InlineVec::new_in(&heap);
        assert!(rt; v.extend(0..count).is_ok());
        assert!(rt; ends_of_range(&mut v, 1, 2) == (Some(1), None));
        assert!(rt; first_is_removed(&mut v) && v.first() == Some(&2));
        let before = heap.requests();
        assert!(rt; split_first(&mut v) as u64 == count.wrapping_sub(3));
        assert!(rt; v.as_slice() == [2u64].as_slice());
        assert!(rt; heap.requests().wrapping_sub(before) == requests);
    }
    assert!(rt; heap.outstanding() == 0);
}

// Up to two items inline that count their drops.
type Drops<'a> = InlineVec<Option<Counted<'a>>, &'a Faulty<Global>, 2>;

// How many of so many items are dropped once the first one and the last one of the range of all but
// the first were taken and dropped, once the range was, and once the vector was.
fn drops_of_range<'a>(heap: &'a Faulty<Global>, drops: &'a Cell<u32>, len: u32) -> [u32; 3] {
    let mut v: Drops<'a> = InlineVec::new_in(heap);
    for value in 0..len {
        let _pushed = v.push(Some(Counted { value, drops }));
    }
    if v.is_empty() {
        return [0; 3];
    }
    let mut items = v.drain(1..);
    drop(items.next());
    drop(items.next_back());
    let taken = drops.get();
    drop(items);
    let removed = drops.get();
    drop(v);
    [taken, removed, drops.get()]
}

#[test]
fn what_is_left_of_a_range_is_dropped(rt: HostRuntime) {
    let heap = Faulty::new(rt.alloc());
    let drops = Cell::new(0);
    for (len, dropped) in [(1, [0, 0, 1]), (2, [1, 1, 2]), (6, [2, 5, 6])] {
        drops.set(0);
        assert!(rt; drops_of_range(&heap, &drops, len) == dropped);
    }
    assert!(rt; is_all_freed(&heap));
}

// Returns the items as an array, or how many there are if they don't fill it.
fn array_of(alloc: Global, items: &[u32]) -> Result<[u32; 3], usize> {
    let mut v: InlineVec<u32, Global, 3> = InlineVec::new_in(alloc);
    match v.extend_from_slice(items) {
        Ok(()) => v.into_inner().map_err(|v| v.len()),
        Err(_) => Err(0),
    }
}

#[test]
fn items_that_fill_the_places_are_an_array(rt: HostRuntime) {
    assert!(rt; array_of(rt.alloc(), &[1, 2, 3]) == Ok([1, 2, 3]));
    assert!(rt; array_of(rt.alloc(), &[1, 2]) == Err(2));
    assert!(rt; array_of(rt.alloc(), &[1, 2, 3, 4]) == Err(4));
}
