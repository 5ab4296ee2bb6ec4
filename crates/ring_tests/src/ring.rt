//! The ring.
ghost use Rattle.std.specs.Prelude.{◌*◌, ◌≤◌, length, IfSome};

use aa_ring::laws::push_all;
use aa_ring::ring::{Ring, compare_items, partial_compare_items, same, same_as_slice};
use allocator_api2::collections::{TryReserveError, TryReserveErrorKind};
use allocator_api2::vec::Vec;
use std::alloc::{AllocError, Allocator, Global};
use std::cmp::Ordering;
use std::default::{Emptied, MadeWith};
use std::fmt::Debug;
use std::hash::{DefaultHasher, Hash, Hasher};
use std::iter::Extend;
use std::mem::size_of;
use std::ops::Range;
use std::test::Fail;
use test_allocators::Faulty;

// A ring over an allocator that may fail.
type Small<'a> = Ring<u64, &'a Faulty<Global>>;

// A ring of these items, each pushed at the front if its flag is true. Growth moves at most two for
// each of them.
fn pushed<A: Allocator>(items: &[(bool, u64)], alloc: A) -> Option<Ring<u64, A>>
    ensures { IfSome result (λ r. r.grown.moved ≤ 2 * length items.now) }
{
    let mut ring: Ring<u64, A> = Ring::new_in(alloc);
    push_all(&mut ring, items).ok()?;
    Some(ring)
}

#[test]
fn items_are_pushed_at_the_end_that_each_names(rt: HostRuntime) {
    let heap = Faulty::new(rt.alloc());
    let Some(ring) = pushed(&[(false, 3), (true, 2), (true, 1), (false, 4)], &heap) else {
        assert!(rt; false);
        return;
    };
    assert!(rt; has(&ring, &[1, 2, 3, 4]));
    heap.fail_requests(0, 1);
    assert!(rt; pushed(&[(true, 1)], &heap).is_none());
}

// Returns whether the ring has these items, by its iterator and by their index.
fn has(ring: &Small<'_>, items: &[u64]) -> bool {
    let mut same = ring.len() == items.len();
    let mut shown = ring.iter();
    for i in 0..items.len() {
        let item = Some(items[i]);
        same = shown.next().copied() == item && ring.get(i).copied() == item && same;
    }
    same
}

// Whether the ring takes these items at its back.
fn takes(ring: &mut Small<'_>, items: Range<u64>) -> bool {
    let mut all = true;
    for item in items {
        all = ring.push_back(item).is_ok() && all;
    }
    all
}

// Whether the ring takes an item at its front.
fn takes_in_front(ring: &mut Small<'_>, item: u64) -> bool {
    ring.push_front(item).is_ok()
}

// Returns a ring of these items, of which the first two are after the others in its block.
fn turned<'a>(heap: &'a Faulty<Global>, items: Range<u64>) -> Small<'a> {
    let mut ring: Small<'_> = Ring::new_in(heap);
    let mut rest = items;
    let (first, second) = (rest.next(), rest.next());
    takes(&mut ring, rest);
    for item in [second, first] {
        if let Some(item) = item {
            takes_in_front(&mut ring, item);
        }
    }
    ring
}

#[test]
fn items_are_pushed_and_popped_at_both_ends(rt: HostRuntime) {
    let heap = Faulty::new(rt.alloc());
    let mut ring = turned(&heap, 0..6);
    assert!(rt; (ring.pop_front(), ring.pop_back()) == (Some(0), Some(5)));
    assert!(rt; has(&ring, &[1, 2, 3, 4]));
    ring.clear();
    assert!(rt; ring.is_empty());
    drop(ring);
    assert!(rt; heap.outstanding() == 0);
}

#[test]
fn items_are_turned_into_one_slice(rt: HostRuntime) {
    let heap = Faulty::new(rt.alloc());
    let mut ring = turned(&heap, 0..4);
    assert!(rt; ring.as_slices().0 == [0, 1].as_slice());
    ring.make_contiguous().reverse();
    assert!(rt; ring.as_slices().0 == [3, 2, 1, 0].as_slice());
}

#[test]
fn all_items_are_written_in_place(rt: HostRuntime) {
    let heap = Faulty::new(rt.alloc());
    let mut ring = turned(&heap, 0..5);
    for item in &mut ring {
        *item = item.wrapping_add(10);
    }
    if let Some(last) = ring.iter_mut().next_back() {
        *last = 24;
    }
    // Blocks for four items and for eight.
    assert!(rt; has(&ring, &[10, 11, 12, 13, 24]) && heap.requests() == 2);
}

#[test]
fn items_are_written_in_place(rt: HostRuntime) {
    let heap = Faulty::new(rt.alloc());
    let mut ring = turned(&heap, 0..5);
    if let Some(place) = ring.get_mut(3) {
        *place = 13;
    }
    if let Some(first) = ring.front_mut() {
        *first = 20;
    }
    if let Some(last) = ring.back_mut() {
        *last = 24;
    }
    if ring.len() > 1 {
        ring[1] = 21;
    }
    assert!(rt; (ring.front(), ring.back()) == (Some(&20), Some(&24)));
    // Blocks for four items and for eight.
    assert!(rt; has(&ring, &[20, 21, 2, 13, 24]) && heap.requests() == 2);
}

// The capacity of a vector of all items but the first and the last.
fn between(ring: &Small<'_>, heap: &Faulty<Global>) -> Option<usize> {
    let mut items = ring.iter();
    let (_first, _last) = (items.next()?, items.next_back()?);
    Some(Vec::from_iter_in(items, heap).ok()?.capacity())
}

// The same of a ring that is consumed.
fn between_owned(ring: Small<'_>, heap: &Faulty<Global>) -> Option<usize> {
    let mut items = ring.into_iter();
    let (_first, _last) = (items.next()?, items.next_back()?);
    Some(Vec::from_iter_in(items, heap).ok()?.capacity())
}

// A vector of what comes makes one block.
#[test]
fn iterators_know_their_length(rt: HostRuntime) {
    let heap = Faulty::new(rt.alloc());
    let ring = turned(&heap, 0..1000);
    let before = heap.requests();
    assert!(rt; between(&ring, &heap) == Some(998) && between_owned(ring, &heap) == Some(998));
    assert!(rt; heap.requests().wrapping_sub(before) == 2 && heap.outstanding() == 0);
}

// A call that allocates.
#[derive(Clone, Copy)]
enum Call {
    WithCapacity(usize),
    PushBack,
    PushFront,
    Reserve(usize),
    // Of the numbers from 4 up to this one.
    Extend(u64),
    FromIter(u64),
    Append,
    Clone,
    // Before the second item.
    Insert,
    Resize(usize),
    // Of the numbers from 4 on.
    ResizeWith(usize),
    // At the first item.
    SplitOff,
}

// Cuts the ring to a length, or appends the numbers from 4 on.
#[tactic(auto, using(allocator_api2::proofs::Callers::callers))]
fn resizes_with(ring: &mut Small<'_>, len: usize) -> Result<(), TryReserveError> {
    let mut next = 3u64;
    ring.resize_with(len, || {
        next = next.wrapping_add(1);
        next
    })
}

// Does it to a ring, and to another. It returns the length of what it makes or changes.
fn called<'a>(
    call: Call,
    ring: &mut Small<'a>,
    other: &mut Small<'a>,
    heap: &'a Faulty<Global>,
) -> Result<usize, TryReserveError> {
    match call {
        Call::WithCapacity(count) => return Ok(Small::with_capacity_in(count, heap)?.capacity()),
        Call::PushBack => ring.push_back(4)?,
        Call::PushFront => ring.push_front(4)?,
        Call::Reserve(count) => ring.reserve(count)?,
        Call::Extend(end) => ring.extend(4..end)?,
        Call::FromIter(end) => return Ok(Small::from_iter_in(4..end, heap)?.len()),
        Call::Append => ring.append(other)?,
        Call::Clone => return Ok(ring.clone()?.len()),
        Call::Insert if ring.len() > 0 => ring.insert(1, 4)?,
        Call::Insert => {}
        Call::Resize(len) => ring.resize(len, 4)?,
        Call::ResizeWith(len) => resizes_with(ring, len)?,
        Call::SplitOff => return Ok(ring.split_off(0)?.len()),
    }
    Ok(ring.len())
}

// The calls, the length of what each makes or leaves of a ring of four items in four places, and
// the capacity that it requests.
const CALLS: [(Call, usize, usize); 12] = [
    (Call::WithCapacity(5), 5, 5),
    (Call::PushBack, 5, 8),
    (Call::PushFront, 5, 8),
    (Call::Reserve(5), 4, 9),
    (Call::Extend(9), 9, 9),
    (Call::FromIter(9), 5, 5),
    (Call::Append, 5, 8),
    (Call::Clone, 4, 4),
    (Call::Insert, 5, 8),
    (Call::Resize(9), 9, 9),
    (Call::ResizeWith(9), 9, 9),
    (Call::SplitOff, 4, 4),
];

#[test]
fn a_failed_call_changes_nothing(rt: HostRuntime) {
    let heap = Faulty::new(rt.alloc());
    for (call, len, capacity) in CALLS {
        let (mut ring, mut other) = (turned(&heap, 0..4), turned(&heap, 7..8));
        heap.fail_requests(0, 1);
        let error = Err(TryReserveErrorKind::AllocError { capacity }.into());
        assert!(rt; called(call, &mut ring, &mut other, &heap) == error);
        assert!(rt; has(&ring, &[0, 1, 2, 3]) && has(&other, &[7]));
        let before = heap.requests();
        assert!(rt; called(call, &mut ring, &mut other, &heap) == Ok(len));
        assert!(rt; heap.requests().wrapping_sub(before) == 1);
    }
    assert!(rt; heap.outstanding() == 0);
}

#[test]
fn what_fits_does_not_allocate(rt: HostRuntime) {
    let heap = Faulty::new(rt.alloc());
    let (mut ring, mut other) = (turned(&heap, 0..4), turned(&heap, 7..8));
    for (call, len, requests) in [
        (Call::Reserve(12), 4, 1),
        (Call::Reserve(12), 4, 0),
        (Call::PushBack, 5, 0),
        (Call::PushFront, 6, 0),
        (Call::Extend(9), 11, 0),
        (Call::Append, 12, 0),
        (Call::Insert, 13, 0),
        (Call::Resize(15), 15, 0),
        (Call::Resize(2), 2, 0),
        (Call::ResizeWith(12), 12, 0),
        (Call::ResizeWith(1), 1, 0),
        (Call::WithCapacity(0), 0, 0),
        (Call::FromIter(4), 0, 0),
    ] {
        let before = heap.requests();
        assert!(rt;
            called(call, &mut ring, &mut other, &heap) == Ok(len),
            "{len}"
        );
        assert!(rt; heap.requests().wrapping_sub(before) == requests, "{len}");
    }
}

#[test]
fn no_ring_grows_past_the_limits(rt: HostRuntime) {
    let heap = Faulty::new(rt.alloc());
    let (mut ring, mut other) = (turned(&heap, 0..4), turned(&heap, 7..8));
    let before = heap.requests();
    for call in [
        Call::WithCapacity(1 << 60),
        Call::Reserve((1 << 60) - 4),
        Call::Reserve(usize::MAX),
        Call::Extend(u64::MAX),
        Call::FromIter(u64::MAX),
        Call::Resize(usize::MAX),
    ] {
        let error = Err(TryReserveErrorKind::CapacityOverflow.into());
        assert!(rt; called(call, &mut ring, &mut other, &heap) == error);
    }
    assert!(rt; heap.requests() == before && has(&ring, &[0, 1, 2, 3]));
}

#[test]
fn a_ring_has_its_size(rt: HostRuntime) {
    assert!(rt; size_of::<Ring<u64, Global>>() == 40);
}

#[test]
fn rings_are_compared(rt: HostRuntime) {
    let heap = Faulty::new(rt.alloc());
    let (less, more) = (turned(&heap, 0..5), turned(&heap, 0..6));
    assert!(rt; less == less && less < more && heap.requests() == 4);
    assert!(rt; same(&less, &less) && !same(&less, &more));
    assert!(rt; same_as_slice(&less, &[0, 1, 2, 3, 4]) && !same_as_slice(&less, &[0, 1, 2, 3]));
}

// Turns the ring to the left, or to the right, if it has as many items.
fn turns(ring: &mut Small<'_>, left: bool, by: usize) -> bool {
    if ring.len() < by {
        return false;
    }
    if left {
        ring.rotate_left(by);
    } else {
        ring.rotate_right(by);
    }
    true
}

#[test]
fn a_ring_turns_both_ways(rt: HostRuntime) {
    let heap = Faulty::new(rt.alloc());
    let mut ring = turned(&heap, 0..5);
    for (left, by, items) in [
        (true, 1, [1, 2, 3, 4, 0]),
        (true, 4, [0, 1, 2, 3, 4]),
        (false, 2, [3, 4, 0, 1, 2]),
        (false, 5, [3, 4, 0, 1, 2]),
    ] {
        assert!(rt; turns(&mut ring, left, by) && has(&ring, &items), "{by}");
    }
}

// Inserts an item, if the index is within the ring.
fn inserts(ring: &mut Small<'_>, index: usize, item: u64) -> bool {
    index <= ring.len() && ring.insert(index, item).is_ok()
}

#[test]
fn items_are_inserted_and_removed_anywhere(rt: HostRuntime) {
    let heap = Faulty::new(rt.alloc());
    let mut ring = turned(&heap, 0..6);
    assert!(rt; (ring.remove(1), ring.remove(4), ring.remove(4)) == (Some(1), Some(5), None));
    assert!(rt;
        inserts(&mut ring, 1, 10) && inserts(&mut ring, 4, 11) && inserts(&mut ring, 6, 12)
    );
    assert!(rt; has(&ring, &[0, 10, 2, 3, 11, 4, 12]));
    assert!(rt; (ring.swap_remove_back(1), ring.swap_remove_front(3)) == (Some(10), Some(3)));
    assert!(rt; has(&ring, &[12, 2, 0, 11, 4]));
    assert!(rt; (ring.swap_remove_back(5), ring.swap_remove_front(5)) == (None, None));
}

// Keeps the even items.
#[tactic(auto, using(allocator_api2::proofs::Callers::callers))]
fn keep_even(ring: &mut Small<'_>) {
    ring.retain(|item| *item % 2 == 0);
}

// Keeps the items above 2, ten more of each.
#[tactic(auto, using(allocator_api2::proofs::Callers::callers))]
fn raise_above_two(ring: &mut Small<'_>) {
    ring.retain_mut(|item| {
        let kept = *item > 2;
        *item = item.wrapping_add(10);
        kept
    });
}

// Adds one to an item at an end, and takes it if it was even.
fn pops(ring: &mut Small<'_>, at_front: bool) -> Option<u64> {
    if at_front {
        ring.pop_front_if(|item| is_even_and_grows(item))
    } else {
        ring.pop_back_if(|item| is_even_and_grows(item))
    }
}

fn is_even_and_grows(item: &mut u64) -> bool {
    let even = *item % 2 == 0;
    *item = item.wrapping_add(1);
    even
}

#[test]
fn items_are_changed_and_removed_by_closures(rt: HostRuntime) {
    let heap = Faulty::new(rt.alloc());
    let mut ring = turned(&heap, 0..6);
    raise_above_two(&mut ring);
    assert!(rt; has(&ring, &[13, 14, 15]));
    assert!(rt; (pops(&mut ring, true), pops(&mut ring, true)) == (None, Some(15)));
    assert!(rt; (pops(&mut ring, false), pops(&mut ring, false)) == (None, Some(17)));
    assert!(rt; has(&ring, &[14]) && resizes_with(&mut ring, 3).is_ok());
    assert!(rt; has(&ring, &[14, 4, 5]) && resizes_with(&mut ring, 0).is_ok());
    assert!(rt; pops(&mut ring, true).is_none() && pops(&mut ring, false).is_none());
}

#[test]
fn sorted_items_are_found_and_shown(rt: HostRuntime) {
    let heap = Faulty::new(rt.alloc());
    let mut ring = turned(&heap, 0..9);
    keep_even(&mut ring);
    assert!(rt; has(&ring, &[0, 2, 4, 6, 8]));
    for (item, found) in [(0, Ok(0)), (6, Ok(3)), (8, Ok(4)), (1, Err(1)), (9, Err(5))] {
        assert!(rt; ring.binary_search(&item) == found);
        assert!(rt; ring.binary_search_by(|other| other.cmp(&item)) == found);
    }
    for (key, found) in [(1, Ok(0)), (7, Ok(3)), (9, Ok(4)), (0, Err(0)), (4, Err(2))] {
        let by_key = ring.binary_search_by_key(&key, |item| item.wrapping_add(1));
        assert!(rt; by_key == found);
    }
    for (end, count) in [(0, 0), (1, 1), (5, 3), (9, 5)] {
        assert!(rt; ring.partition_point(|item| *item < end) == count);
    }
    if ring.len() == 5 {
        let mut part = ring.range(1..);
        assert!(rt; (part.next(), part.next_back(), part.len()) == (Some(&2), Some(&8), 2));
    }
}

// Exchanges two items, if they are there.
fn exchanges(ring: &mut Small<'_>, i: usize, j: usize) -> bool {
    if i < ring.len() && j < ring.len() {
        ring.swap(i, j);
        return true;
    }
    false
}

#[test]
fn items_are_exchanged_and_capacity_is_freed(rt: HostRuntime) {
    let heap = Faulty::new(rt.alloc());
    let mut ring = turned(&heap, 0..6);
    assert!(rt; exchanges(&mut ring, 1, 4) && exchanges(&mut ring, 0, 1));
    assert!(rt; has(&ring, &[4, 0, 2, 3, 1, 5]) && ring.capacity() == 8);
    heap.fail_requests(0, 1);
    let error = TryReserveErrorKind::AllocError { capacity: 6 }.into();
    assert!(rt; ring.shrink_to_fit() == Err(error) && ring.capacity() == 8);
    assert!(rt; ring.shrink_to(7) == Ok(()) && ring.capacity() == 7);
    assert!(rt; ring.shrink_to_fit() == Ok(()) && ring.capacity() == 6);
    assert!(rt; has(&ring, &[4, 0, 2, 3, 1, 5]));
}

#[test]
fn exact_capacity_is_reserved(rt: HostRuntime) {
    let heap = Faulty::new(rt.alloc());
    let mut ring = turned(&heap, 0..6);
    assert!(rt; ring.reserve_exact(2) == Ok(()) && ring.capacity() == 8);
    heap.fail_requests(0, 1);
    let error = TryReserveErrorKind::AllocError { capacity: 9 }.into();
    assert!(rt; ring.reserve_exact(3) == Err(error) && ring.capacity() == 8);
    let error = TryReserveErrorKind::CapacityOverflow.into();
    assert!(rt; ring.reserve_exact(usize::MAX) == Err(error) && has(&ring, &[0, 1, 2, 3, 4, 5]));
    assert!(rt; ring.reserve_exact(3) == Ok(()) && ring.capacity() == 9);
    assert!(rt; has(&ring, &[0, 1, 2, 3, 4, 5]));
}

#[test]
fn all_items_are_taken_out(rt: HostRuntime) {
    let heap = Faulty::new(rt.alloc());
    let mut ring = turned(&heap, 0..6);
    let mut items = ring.drain(..);
    assert!(rt; (items.next(), items.next_back(), items.len()) == (Some(0), Some(5), 4));
    drop(items);
    assert!(rt; ring.is_empty() && ring.capacity() == 8);
}

// Takes an item from the front of a range of the ring, and then so many from its back. Returns the
// first, the last one taken, and how many are left, if the range is within the ring.
fn takes_out(
    ring: &mut Small<'_>,
    range: Range<usize>,
    from_back: usize,
) -> Option<(Option<u64>, Option<u64>, usize)> {
    if range.start > range.end || range.end > ring.len() {
        return None;
    }
    let mut items = ring.drain(range);
    let first = items.next();
    let mut last = None;
    for _taken in 0..from_back {
        last = items.next_back();
    }
    Some((first, last, items.len()))
}

#[test]
fn a_part_is_taken_out(rt: HostRuntime) {
    let heap = Faulty::new(rt.alloc());
    for (range, from_back, seen, items) in [
        (2..6, 2, (Some(2), Some(4), 1), [0, 1, 6, 7].as_slice()),
        (0..5, 4, (Some(0), Some(1), 0), &[5, 6, 7]),
        (4..8, 1, (Some(4), Some(7), 2), &[0, 1, 2, 3]),
        (1..7, 6, (Some(1), None, 0), &[0, 7]),
        (3..3, 1, (None, None, 0), &[0, 1, 2, 3, 4, 5, 6, 7]),
    ] {
        let mut ring = turned(&heap, 0..8);
        let before = heap.requests();
        assert!(rt;
            takes_out(&mut ring, range, from_back) == Some(seen),
            "{from_back}"
        );
        assert!(rt; has(&ring, items) && ring.capacity() == 8 && heap.requests() == before);
    }
}

// Splits the ring at an index. Returns what is split off and its capacity, if the index is within
// the ring.
fn splits<'a>(ring: &mut Small<'a>, at: usize) -> Option<(Small<'a>, usize)> {
    if at > ring.len() {
        return None;
    }
    let tail = ring.split_off(at).ok()?;
    let capacity = tail.capacity();
    Some((tail, capacity))
}

#[test]
fn a_ring_is_split_and_cut_in_front(rt: HostRuntime) {
    let heap = Faulty::new(rt.alloc());
    let mut ring = turned(&heap, 0..7);
    if let Some((tail, capacity)) = splits(&mut ring, 4) {
        assert!(rt; has(&tail, &[4, 5, 6]) && capacity == 3);
    }
    assert!(rt; has(&ring, &[0, 1, 2, 3]) && ring.capacity() == 8);
    ring.truncate_front(5);
    assert!(rt; ring.len() == 4);
    ring.truncate_front(1);
    assert!(rt; has(&ring, &[3]) && ring.capacity() == 8);
    let before = heap.requests();
    if let Some((tail, capacity)) = splits(&mut ring, 1) {
        assert!(rt; tail.is_empty() && capacity == 0 && heap.requests() == before);
    }
}

// A ring of what an iterator returns, extended by each kind of item.
fn collected<'a>(heap: &'a Faulty<Global>) -> Result<Small<'a>, AllocError> {
    let mut ring: Small<'_> = (0..2).collect(heap)?;
    Extend::extend(&mut ring, 2..3)?;
    Extend::extend(&mut ring, &[3u64])?;
    match ring.extend([4, 5]) {
        Ok(()) => Ok(ring),
        Err(_) => Err(AllocError),
    }
}

#[test]
fn items_are_collected(rt: HostRuntime) -> Result<(), Fail> {
    let heap = Faulty::new(rt.alloc());
    let ring = collected(&heap)?;
    assert!(rt; has(&ring, &[0, 1, 2, 3, 4, 5]));
    assert!(rt; ring.contains(&5) && !ring.contains(&6) && ring.allocator().requests() == 2);
    Ok(())
}

#[test]
fn rings_are_made_empty(rt: HostRuntime) -> Result<(), Fail> {
    let heap = Faulty::new(rt.alloc());
    let made: Small<'_> = MadeWith::made_with(&heap);
    assert!(rt; made.is_empty() && Small::emptied(&turned(&heap, 0..4))?.is_empty());
    Ok(())
}

fn hash_of<T: Hash>(value: &T) -> u64 {
    let mut hasher = DefaultHasher::new();
    value.hash(&mut hasher);
    hasher.finish()
}

// Whether a value is printed so.
fn prints<T: Debug>(alloc: Global, value: &T, text: &str) -> Result<bool, AllocError> {
    Ok(format!(in alloc; "{value:?}")?.as_str() == text)
}

#[test]
fn rings_print_and_hash_as_their_items(rt: HostRuntime) -> Result<(), Fail> {
    let heap = Faulty::new(rt.alloc());
    let ring = turned(&heap, 0..4);
    let items: &[u64] = &[0, 1, 2, 3];
    assert!(rt; hash_of(&ring) == hash_of(&items));
    assert!(rt; prints(rt.alloc(), &ring, "[0, 1, 2, 3]")?);
    assert!(rt; prints(rt.alloc(), &ring.iter(), "Iter([0, 1], [2, 3])")?);
    assert!(rt; prints(rt.alloc(), &ring.into_iter(), "IntoIter([0, 1, 2, 3])")?);
    Ok(())
}

fn is_above_one(x: &mut u64) -> bool {
    *x > 1
}

// Keeps the items above one.
#[tactic(auto, using(allocator_api2::proofs::Callers::callers))]
fn keep_above_one(ring: &mut Small<'_>) {
    ring.retain_by(&mut is_above_one);
}

// How two rings over different allocators compare, by both calls.
fn compared(left: &Small<'_>, right: &Ring<u64>) -> (Ordering, Option<Ordering>) {
    (
        compare_items(left, right),
        partial_compare_items(left, right),
    )
}

#[test]
fn rings_over_different_allocators_are_compared(rt: HostRuntime) -> Result<(), Fail> {
    let heap = Faulty::new(rt.alloc());
    let mut ring: Small<'_> = Ring::new_in(&heap);
    assert!(rt; takes(&mut ring, 0..4));
    keep_above_one(&mut ring);
    let mut other: Ring<u64> = Ring::new_in(rt.alloc());
    other.extend([2, 4])?;
    assert!(rt; compared(&ring, &other) == (Ordering::Less, Some(Ordering::Less)));
    Ok(())
}

#[test]
fn vectors_and_rings_take_over_each_others_block(rt: HostRuntime) {
    let heap = Faulty::new(rt.alloc());
    let ring = turned(&heap, 0..4);
    let requests = heap.requests();
    let list: Vec<u64, &Faulty<Global>> = ring.into();
    assert!(rt; list[..] == [0, 1, 2, 3][..]);
    let ring: Small<'_> = list.into();
    assert!(rt; has(&ring, &[0, 1, 2, 3]) && heap.requests() == requests);
    drop(ring);
    assert!(rt; heap.outstanding() == 0);
}
