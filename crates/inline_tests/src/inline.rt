//! The small vector.
ghost use Rattle.std.specs.Prelude.{◌≡◌, ◌+◌, ◌<◌, false, length, OnOk};

use aa_inline::inline::InlineVec;
use allocator_api2::collections::{Refused, TryReserveError};
use allocator_api2::vec::Vec;
use std::alloc::{AllocError, Allocator, Global};
use std::cell::Cell;
use std::cmp::Ordering;
use std::io::Write;
use std::iter::Extend;
use std::mem::{self, size_of};
use std::ops::Range;
use std::test::Fail;
use test_allocators::Faulty;
use test_allocators::counted::Counted;
use test_allocators::ends::{End, end_by, end_of, is_all_freed};

// Up to three items inline, over an allocator that may fail.
type Small<'a> = InlineVec<u64, &'a Faulty<Global>, 3>;

// Each call of the small vector is in one place, in a function without a contract: such a place
// takes a proof some seconds, and a call of the function much less.

fn none<'a>(heap: &'a Faulty<Global>) -> Small<'a> {
    InlineVec::new_in(heap)
}

fn len(v: &Small<'_>) -> usize {
    v.len()
}

// Whether the vector has these items.
fn has(v: &Small<'_>, items: &[u64]) -> bool {
    v.as_slice() == items
}

// Pushes an item. If the vector is full inline, that allocates one block, and each item is written
// to it once.
#[tactic(auto, unfolding(aa_inline::specs::Inlined::with_room, aa_inline::specs::Inlined::in_block))]
fn spill<A: Allocator + Copy>(v: &mut InlineVec<u64, A, 3>, item: u64) -> Result<(), Refused<u64>>
    ensures inline { v.old.spilled ≡ false → length v.old.items < 3
        → v.new.grown.blocks ≡ v.old.grown.blocks }
    ensures blocks { v.old.spilled ≡ false → length v.old.items ≡ 3
        → OnOk result (v.new.grown.blocks ≡ v.old.grown.blocks + 1) }
    ensures written { v.old.spilled ≡ false → length v.old.items ≡ 3
        → OnOk result (v.new.written ≡ v.old.written + 4) }
{
    v.push(item)
}

// Puts an item at the end.
fn push(v: &mut Small<'_>, item: u64) -> End {
    match spill(v, item) {
        Ok(()) => End::Done,
        Err(refused) => end_by(refused.error),
    }
}

// Puts an item at the front.
fn push_front(v: &mut Small<'_>, item: u64) -> End {
    match v.insert(0, item) {
        Ok(()) => End::Done,
        Err(refused) => end_by(refused.error),
    }
}

// Whether the vector takes these items at its end, one after the other.
fn takes(v: &mut Small<'_>, items: Range<u64>) -> bool {
    let mut all = true;
    for item in items {
        all = push(v, item) == End::Done && all;
    }
    all
}

// Puts items before the one at `index`, or at the end.
fn put_at(v: &mut Small<'_>, index: usize, items: Range<u64>) -> End {
    end_of(v.insert_many(index.min(v.len()), items))
}

// Whether the vector takes these items at its front, one after the other.
fn takes_in_front(v: &mut Small<'_>, items: Range<u64>) -> bool {
    let mut all = true;
    for item in items {
        all = push_front(v, item) == End::Done && all;
    }
    all
}

// How many items from `start` on, up to `end`, are taken out.
fn taken(v: &mut Small<'_>, start: usize, end: usize) -> Result<usize, TryReserveError> {
    if start <= end && end <= v.len() {
        return match v.take_range(start, end) {
            Ok(out) => Ok(len(&out)),
            Err(error) => Err(error),
        };
    }
    Ok(0)
}

// Makes just so many places, or as many as there are items.
fn set_places(v: &mut Small<'_>, capacity: usize) -> End {
    end_of(v.grow(capacity.max(v.len())))
}

// Whether there are just so many places then.
fn gets_places(v: &mut Small<'_>, capacity: usize) -> bool {
    set_places(v, capacity) == End::Done && v.capacity() == capacity
}

fn copied<'a>(items: &[u64], heap: &'a Faulty<Global>) -> Result<Small<'a>, TryReserveError> {
    InlineVec::from_slice_in(items, heap)
}

// How many items go into a vector.
fn poured(v: Small<'_>) -> Result<usize, TryReserveError> {
    match v.into_vec() {
        Ok(items) => Ok(items.len()),
        Err(refused) => Err(refused.error),
    }
}

// How many items go into a boxed slice.
fn boxed(v: Small<'_>) -> Result<usize, TryReserveError> {
    match v.into_boxed_slice() {
        Ok(items) => Ok(items.as_slice().len()),
        Err(refused) => Err(refused.error),
    }
}

// Appends two items of another vector.
fn appends(v: &mut Small<'_>) -> Result<(), TryReserveError> {
    let mut other = none(*v.allocator());
    takes(&mut other, 8..10);
    v.append(&mut other)
}

fn cloned<'a>(v: &Small<'a>) -> Result<Small<'a>, TryReserveError> {
    v.clone()
}

// How many items come out, one after the other, into a vector.
fn collected(v: Small<'_>) -> Option<usize> {
    let heap = *v.allocator();
    match Vec::from_iter_in(v.into_iter(), heap) {
        Ok(items) => Some(items.len()),
        Err(_) => None,
    }
}

// Whether items come so, and with so many requests.
fn requests_lower_bound(heap: &Faulty<Global>, v: &mut Small<'_>) -> bool {
    let mut all = true;
    // The first item and the one after the last, how many requests fail, whether they come, and how
    // many requests there were then.
    for (first, end, failed, come, requests) in [
        (0, 3, 9, true, 0),
        (3, 4, 1, false, 1),
        (3, 4, 0, true, 2),
    ] {
        heap.fail_requests(0, failed);
        all = takes(v, first..end) == come && heap.requests() == requests && all;
    }
    all && has(v, &[0, 1, 2, 3])
}

#[test]
fn the_first_items_do_not_allocate(rt: HostRuntime) {
    let heap = Faulty::new(rt.alloc());
    assert!(rt; requests_lower_bound(&heap, &mut none(&heap)) && heap.outstanding() == 0);
}

// How many items go into a vector that came in front.
fn poured_of(heap: &Faulty<Global>, count: u64) -> Option<usize> {
    let mut v = none(heap);
    if takes_in_front(&mut v, 0..count) {
        return poured(v).ok();
    }
    None
}

#[test]
fn all_go_into_a_vector(rt: HostRuntime) {
    let heap = Faulty::new(rt.alloc());
    for (count, len) in [(0, 0), (2, 2), (7, 7)] {
        assert!(rt; poured_of(&heap, count) == Some(len));
    }
    assert!(rt; heap.outstanding() == 0);
}

// Up to two elements in place that count their drops.
type Drops<'a> = InlineVec<Option<Counted<'a>>, &'a Faulty<Global>, 2>;

// How many of so many items are dropped once the last, the first of the others, and an item of each
// end of what is left were taken, before the rest is.
fn come_and_go<'a>(heap: &'a Faulty<Global>, drops: &'a Cell<u32>, len: u32) -> u32 {
    let mut v: Drops<'a> = InlineVec::new_in(heap);
    for value in 0..len {
        let _pushed = v.push(Some(Counted { value, drops }));
    }
    drop(v.pop());
    if v.len() > 0 {
        drop(v.remove(0));
    }
    let mut items = v.into_iter();
    drop(items.next());
    drop(items.next_back());
    drops.get()
}

#[test]
fn each_item_is_dropped_once(rt: HostRuntime) {
    let heap = Faulty::new(rt.alloc());
    let drops = Cell::new(0);
    // Two fit inline, three need one block, and five another.
    for (len, requests) in [(0, 0), (1, 0), (2, 0), (3, 1), (4, 1), (5, 2), (8, 2)] {
        drops.set(0);
        let before = heap.requests();
        assert!(rt; come_and_go(&heap, &drops, len) == len.min(4) && drops.get() == len);
        assert!(rt; heap.requests().wrapping_sub(before) == requests, "{len}");
    }
    assert!(rt; is_all_freed(&heap));
}

// Keeps the items whose number is not 1.
#[tactic(auto, using(allocator_api2::proofs::Callers::callers))]
fn keep_others(v: &mut Drops<'_>) {
    v.retain(|item| match item {
        Some(counted) => counted.value != 1,
        None => false,
    });
}

// The number of items dropped after each of four calls, on a vector of so many.
fn dropped_by<'a>(heap: &'a Faulty<Global>, drops: &'a Cell<u32>, len: u32) -> [u32; 4] {
    let mut v: Drops<'a> = InlineVec::new_in(heap);
    for value in 0..len {
        let _pushed = v.push(Some(Counted { value, drops }));
    }
    keep_others(&mut v);
    let retained = drops.get();
    if v.len() > 0 {
        drop(v.swap_remove(0));
    }
    let swapped = drops.get();
    v.truncate(1);
    let truncated = drops.get();
    v.clear();
    [retained, swapped, truncated, drops.get()]
}

#[test]
fn each_removed_item_is_dropped_at_once(rt: HostRuntime) {
    let heap = Faulty::new(rt.alloc());
    let drops = Cell::new(0);
    for (len, dropped) in [(2, [1, 2, 2, 2]), (5, [1, 2, 4, 5])] {
        drops.set(0);
        assert!(rt; dropped_by(&heap, &drops, len) == dropped);
    }
    assert!(rt; is_all_freed(&heap));
}

// Up to two texts inline, over the allocator of the vector.
type Texts<'a> = InlineVec<String<&'a Faulty<Global>>, &'a Faulty<Global>, 2>;

// Appends texts, one by one.
fn push_texts<'a>(texts: &mut Texts<'a>, words: &[&str]) -> Result<(), AllocError> {
    for word in words {
        let mut text = String::new(*texts.allocator());
        text.push_str(word)?;
        if let Err(_) = texts.push(text) {
            return Err(AllocError);
        }
    }
    Ok(())
}

// Whether the last of three texts, of which the first two are inline first, is removed.
fn texts_come_and_go(heap: &Faulty<Global>) -> Result<bool, AllocError> {
    let mut texts: Texts<'_> = InlineVec::new_in(heap);
    push_texts(&mut texts, &["a", "bc", "def"])?;
    match texts.pop() {
        Some(text) => Ok(text.as_str() == "def" && texts.len() == 2),
        None => Ok(false),
    }
}

#[test]
fn texts_are_held_without_a_default(rt: HostRuntime) -> Result<(), Fail> {
    let heap = Faulty::new(rt.alloc());
    assert!(rt; texts_come_and_go(&heap)? && is_all_freed(&heap));
    Ok(())
}

// Whether all items are taken out, and none is left.
fn is_drained(v: &mut Small<'_>) -> bool {
    let mut items = v.drain(..);
    let ends = (items.next(), items.next_back());
    drop(items);
    ends == (Some(4), Some(7)) && v.is_empty()
}

#[test]
fn items_are_appended_and_repeats_removed(rt: HostRuntime) {
    let heap = Faulty::new(rt.alloc());
    let mut v = collected_of(&[4, 4, 5, 5, 5, 4], &heap).unwrap_or(none(&heap));
    v.dedup();
    assert!(rt; has(&v, &[4, 5, 4]));
    assert!(rt; appends(&mut v).is_ok() && has(&v, &[4, 5, 4, 8, 9]));
    assert!(rt; v.resize(2, 7).is_ok() && v.resize(4, 7).is_ok() && has(&v, &[4, 5, 7, 7]));
    assert!(rt; is_drained(&mut v) && v.spilled());
}

// Appends the numbers from 11 on, one for each call of a closure, or truncates.
#[tactic(auto, using(allocator_api2::proofs::Callers::callers))]
fn resize_with(v: &mut Small<'_>, len: usize) -> End {
    let mut last = 10u64;
    end_of(v.resize_with(len, || {
        last = last.wrapping_add(1);
        last
    }))
}

#[test]
fn results_are_appended_in_order(rt: HostRuntime) {
    let heap = Faulty::new(rt.alloc());
    let mut v = none(&heap);
    assert!(rt; resize_with(&mut v, 3) == End::Done && has(&v, &[11, 12, 13]));
    heap.fail_requests(0, 1);
    assert!(rt; resize_with(&mut v, 5) == End::NoMemory(5) && has(&v, &[11, 12, 13]));
    assert!(rt; !v.spilled() && resize_with(&mut v, 5) == End::Done);
    assert!(rt; has(&v, &[11, 12, 13, 11, 12]) && heap.requests() == 2);
    assert!(rt; resize_with(&mut v, 1) == End::Done && has(&v, &[11]));
}

// Whether the vector has so much capacity after this call.
fn shrinks(v: &mut Small<'_>, min_capacity: usize, capacity: usize) -> bool {
    end_of(v.shrink_to(min_capacity)) == End::Done && v.capacity() == capacity
}

#[test]
fn the_capacity_shrinks_to_a_lower_bound(rt: HostRuntime) {
    let heap = Faulty::new(rt.alloc());
    let mut v = none(&heap);
    assert!(rt; takes(&mut v, 0..3) && shrinks(&mut v, 9, 3) && takes(&mut v, 3..5));
    heap.fail_requests(0, 1);
    assert!(rt; end_of(v.shrink_to(6)) == End::NoMemory(6) && v.capacity() == 8);
    assert!(rt; has(&v, &[0, 1, 2, 3, 4]));
    for (min_capacity, capacity) in [(9, 8), (6, 6), (7, 6), (0, 5)] {
        assert!(rt; shrinks(&mut v, min_capacity, capacity));
    }
    v.truncate(2);
    assert!(rt; shrinks(&mut v, 4, 4) && v.spilled());
    assert!(rt; shrinks(&mut v, 3, 3) && !v.spilled() && has(&v, &[0, 1]));
    assert!(rt; heap.outstanding() == 0);
}

// A small vector in the block of the vector into which the items go.
fn through_vec(v: Small<'_>) -> Option<Small<'_>> {
    match v.into_vec() {
        Ok(items) => Some(InlineVec::from_vec(items)),
        Err(_) => None,
    }
}

#[test]
fn a_vector_becomes_a_small_vector(rt: HostRuntime) {
    let heap = Faulty::new(rt.alloc());
    let mut first = none(&heap);
    assert!(rt; takes(&mut first, 8..10));
    let mut v = through_vec(first).unwrap_or(none(&heap));
    assert!(rt; has(&v, &[8, 9]) && v.spilled() && v.capacity() == 4 && heap.requests() == 1);
    assert!(rt; shrinks(&mut v, 3, 3) && !v.spilled() && has(&v, &[8, 9]));
    assert!(rt; heap.outstanding() == 0);
}

// The bytes that are written to a vector of up to five inline.
fn written(heap: &Faulty<Global>) -> Option<InlineVec<u8, &Faulty<Global>, 5>> {
    let mut bytes: InlineVec<u8, &Faulty<Global>, 5> = InlineVec::new_in(heap);
    bytes.write_all(b"small").ok()?;
    Some(bytes)
}

#[test]
fn bytes_are_written(rt: HostRuntime) {
    let heap = Faulty::new(rt.alloc());
    match written(&heap) {
        Some(bytes) => assert!(rt; bytes.as_slice() == b"small".as_slice() && heap.requests() == 0),
        None => assert!(rt; false),
    }
}

// A vector of the items, to which references are appended.
fn extended<'a>(heap: &'a Faulty<Global>) -> Result<Small<'a>, AllocError> {
    let mut v = none(heap);
    Extend::extend(&mut v, &[1u64, 2])?;
    Ok(v)
}

#[test]
fn references_are_appended(rt: HostRuntime) -> Result<(), Fail> {
    let heap = Faulty::new(rt.alloc());
    assert!(rt; has(&extended(&heap)?, &[1, 2]) && heap.requests() == 0);
    Ok(())
}

// The sum of the items, each of which is halved before.
fn sum_of_halves(v: &mut Small<'_>) -> u64 {
    for item in &mut *v {
        *item /= 2;
    }
    let mut sum = 0u64;
    for item in &*v {
        sum = sum.wrapping_add(*item);
    }
    sum
}

// Whether the items are sorted and found as those of a slice are.
fn is_sorted_as_a_slice(v: &mut Small<'_>) -> bool {
    v.sort_unstable();
    v.first() == Some(&1) && v.contains(&9) && v[1..] == [3, 4, 9]
}

fn collected_of<'a>(items: &[u64], heap: &'a Faulty<Global>) -> Option<Small<'a>> {
    items.iter().copied().collect(heap).ok()
}

#[test]
fn a_small_vector_is_a_slice(rt: HostRuntime) {
    let heap = Faulty::new(rt.alloc());
    let mut small = collected_of(&[9, 3, 4, 1], &heap).unwrap_or(none(&heap));
    assert!(rt; is_sorted_as_a_slice(&mut small) && sum_of_halves(&mut small) == 7);
    let other = collected_of(&[0, 1, 2, 5], &heap).unwrap_or(none(&heap));
    assert!(rt; small < other && small.cmp(&other) == Ordering::Less && small != other);
}

// What a vector prints, and an iterator over clones of its items.
fn printed(v: Small<'_>, alloc: Global) -> Result<String, AllocError> {
    let text = format!(in alloc; "{v:?}")?;
    let mut items = v.into_iter();
    drop(items.next_back());
    let copies = items.clone()?;
    if copies.as_slice() == items.as_slice() {
        return format!(in alloc; "{text} {copies:?}");
    }
    Ok(text)
}

#[test]
fn a_small_vector_prints_as_a_slice(rt: HostRuntime) -> Result<(), Fail> {
    let heap = Faulty::new(rt.alloc());
    let small = collected_of(&[1, 2], &heap).unwrap_or(none(&heap));
    let text = printed(small, rt.alloc())?;
    assert!(rt; text.as_str() == "[1, 2] IntoIter([1])");
    Ok(())
}

#[test]
fn an_empty_place_takes_what_an_item_takes(rt: HostRuntime) {
    assert!(rt; size_of::<InlineVec<u64, Global, 4>>() == 48);
    assert!(rt; size_of::<InlineVec<u8, Global, 16>>() == 32);
    assert!(rt; size_of::<InlineVec<Option<u64>, Global, 4>>() == 80);
}

// Whether many items come and go so.
fn many_come(heap: &Faulty<Global>, v: &mut Small<'_>) -> bool {
    let mut all = true;
    // Where they are put, the first and the one after the last, and how many requests there were
    // then.
    for (index, first, end, requests) in [
        (0, 0, 2, 0),
        (1, 7, 8, 0),
        (2, 20, 24, 1),
        (7, 100, 1000, 2),
    ] {
        all = put_at(v, index, first..end) == End::Done && heap.requests() == requests && all;
    }
    // Four have no place without memory, and three have.
    heap.fail_requests(0, 9);
    for (end, out) in [(4, None), (3, Some(3))] {
        all = taken(v, 0, end).ok() == out && all;
    }
    all && len(v) == 904
}

#[test]
fn many_items_are_pushed_and_taken(rt: HostRuntime) {
    let heap = Faulty::new(rt.alloc());
    assert!(rt; many_come(&heap, &mut none(&heap)));
}

// Returns whether capacity is reserved and freed so, with three items.
fn reserves_places(heap: &Faulty<Global>, v: &mut Small<'_>) -> bool {
    let mut all = takes(v, 0..3);
    // How many places, how many requests fail, and whether there are so many then.
    for (capacity, failed, made) in [(9, 0, true), (5, 0, true), (8, 1, false), (3, 9, true)] {
        heap.fail_requests(0, failed);
        all = gets_places(v, capacity) == made && has(v, &[0, 1, 2]) && all;
    }
    all && heap.outstanding() == 0
}

#[test]
fn capacity_is_reserved_and_released(rt: HostRuntime) {
    let heap = Faulty::new(rt.alloc());
    assert!(rt; reserves_places(&heap, &mut none(&heap)));
}

// How many items are in a vector of what comes out of a clone of copies.
fn passed_on(items: &[u64], heap: &Faulty<Global>) -> Option<usize> {
    let small = copied(items, heap).ok()?;
    collected(cloned(&small).ok()?)
}

// The requests of a small vector of copies, of a clone of it, and of a vector of what is taken from
// that.
#[test]
fn the_lower_bound_is_requested_once(rt: HostRuntime) {
    let heap = Faulty::new(rt.alloc());
    let items = [1u64, 2, 3, 4, 5];
    for (count, requests) in [(3, 1), (5, 4)] {
        assert!(rt; passed_on(&items[..count], &heap) == Some(count));
        assert!(rt; heap.requests() == requests);
    }
    assert!(rt; heap.outstanding() == 0);
}

// A call that allocates if items do not fit inline.
#[derive(Clone, Copy)]
enum Call {
    Push,
    PushFront,
    Reserve(usize),
    Extend(u64),
    InsertMany(u64),
    SetPlaces(usize),
    ShrinkToFit,
    TakeRange,
    IntoVec,
    Clone,
    FromIter(u64),
    FromSlice,
    WithCapacity(usize),
    ExtendFromSlice,
    Append,
    Resize(usize),
    IntoBoxedSlice,
}

// How it ends on a vector. What it makes is dropped.
fn end_of_call(call: Call, v: &mut Small<'_>, heap: &Faulty<Global>) -> End {
    let len = len(v);
    match call {
        Call::Push => push(v, 7),
        Call::PushFront => push_front(v, 7),
        Call::Reserve(additional) => end_of(v.reserve(additional)),
        Call::Extend(end) => end_of(v.extend(0..end)),
        Call::InsertMany(end) => put_at(v, 1, 0..end),
        Call::SetPlaces(capacity) => set_places(v, capacity),
        Call::ShrinkToFit => end_of(v.shrink_to_fit()),
        Call::TakeRange => end_of(taken(v, 0, len)),
        Call::IntoVec => end_of(poured(mem::replace(v, none(*v.allocator())))),
        Call::Clone => end_of(cloned(v)),
        Call::FromIter(end) => end_of(Small::from_iter_in(0..end, heap)),
        Call::FromSlice => end_of(copied(&[1, 2, 3, 4], heap)),
        Call::WithCapacity(capacity) => end_of(Small::with_capacity_in(capacity, heap)),
        Call::ExtendFromSlice => end_of(v.extend_from_slice(&[1, 2, 3, 4])),
        Call::Append => end_of(appends(v)),
        Call::Resize(len) => end_of(v.resize(len, 7)),
        Call::IntoBoxedSlice => end_of(boxed(mem::replace(v, none(*v.allocator())))),
    }
}

// A vector of the numbers from 0 up to `count`, how a call ends, and its requests.
fn seen(heap: &Faulty<Global>, call: Call, count: u64, failed: u64) -> (End, u64) {
    let mut v = none(heap);
    takes(&mut v, 0..count);
    let before = heap.requests();
    heap.fail_requests(0, failed);
    let end = end_of_call(call, &mut v, heap);
    heap.fail_requests(0, 0);
    (end, heap.requests().wrapping_sub(before))
}

// A call on so many items, of which three fit inline, and the number of elements that it allocates;
// 0 if it does not allocate.
fn rows() -> [(Call, u64, usize); 31] {
    [
        (Call::Push, 3, 4),
        (Call::Push, 2, 0),
        (Call::PushFront, 3, 4),
        (Call::Reserve(1), 2, 0),
        (Call::Reserve(7), 3, 10),
        (Call::Extend(1), 2, 0),
        (Call::Extend(7), 3, 10),
        (Call::InsertMany(1), 2, 0),
        (Call::InsertMany(7), 3, 10),
        (Call::SetPlaces(9), 3, 9),
        (Call::SetPlaces(3), 3, 0),
        (Call::ShrinkToFit, 3, 0),
        (Call::ShrinkToFit, 5, 5),
        (Call::TakeRange, 3, 0),
        (Call::TakeRange, 5, 5),
        (Call::IntoVec, 3, 4),
        (Call::IntoVec, 5, 0),
        (Call::Clone, 3, 0),
        (Call::Clone, 4, 4),
        (Call::FromIter(3), 0, 0),
        (Call::FromIter(4), 0, 4),
        (Call::FromSlice, 0, 4),
        (Call::WithCapacity(9), 0, 9),
        (Call::WithCapacity(2), 0, 0),
        (Call::ExtendFromSlice, 3, 7),
        (Call::Append, 1, 0),
        (Call::Append, 2, 4),
        (Call::Resize(3), 2, 0),
        (Call::Resize(9), 3, 9),
        (Call::IntoBoxedSlice, 2, 2),
        (Call::IntoBoxedSlice, 4, 0),
    ]
}

#[test]
fn each_call_allocates_once_or_not(rt: HostRuntime) {
    let heap = Faulty::new(rt.alloc());
    for (call, count, number) in rows() {
        if number == 0 {
            assert!(rt; seen(&heap, call, count, 1) == (End::Done, 0), "on {count}");
        } else {
            assert!(rt;
                seen(&heap, call, count, 1) == (End::NoMemory(number), 1),
                "{number}"
            );
            assert!(rt; seen(&heap, call, count, 0) == (End::Done, 1), "{number}");
        }
    }
    assert!(rt; is_all_freed(&heap));
}

#[test]
fn no_small_vector_grows_past_the_limits(rt: HostRuntime) {
    let heap = Faulty::new(rt.alloc());
    for call in [
        Call::Reserve(usize::MAX),
        Call::Reserve((1 << 60) - 3),
        Call::Extend(u64::MAX),
        Call::InsertMany(u64::MAX),
        Call::SetPlaces(1 << 60),
        Call::FromIter(u64::MAX),
        Call::WithCapacity(1 << 60),
        Call::Resize(1 << 60),
    ] {
        assert!(rt; seen(&heap, call, 3, 0) == (End::TooLong, 0));
    }
}

// Doubles each item, and writes to the one at an index and to the first. Returns whether there are
// such.
fn writes(v: &mut Small<'_>, index: usize, item: u64) -> bool {
    for x in v.iter_mut() {
        *x = x.wrapping_mul(2);
    }
    let Some(place) = v.get_mut(index) else {
        return false;
    };
    *place = item;
    match v.as_mut_slice().first_mut() {
        Some(first) => *first = 9,
        None => return false,
    }
    true
}

// The sum of the items, and the one at an index.
fn sum_and_item(v: &Small<'_>, index: usize) -> (u64, Option<u64>) {
    let mut sum = 0u64;
    for x in v.iter() {
        sum = sum.saturating_add(*x);
    }
    (sum, v.get(index).copied())
}

#[test]
fn items_are_written_in_place(rt: HostRuntime) {
    let heap = Faulty::new(rt.alloc());
    for (count, last, sum, item) in [(2u64, 1, 78, 60), (5, 4, 114, 16)] {
        let mut v = none(&heap);
        for x in 0..count {
            assert!(rt; push(&mut v, x) == End::Done);
        }
        // The second call doubles, and finds no item at the index.
        assert!(rt; writes(&mut v, 1, 30) && !writes(&mut v, 5, 30));
        assert!(rt; sum_and_item(&v, last) == (sum, Some(item)));
    }
}
