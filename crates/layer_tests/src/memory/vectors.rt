//! Vectors, and what is made of them.
use crate::calls::{Taking, taken};
use crate::lists::counted_up;
use crate::memory::is_all_freed;
use aa_raw::raw_vec::Growth;
use aa_vec::vec::Vec;
use std::alloc::Global;
use std::cell::Cell;
use test_allocators::Faulty;
use test_allocators::counted::Counted;

type Many<'a> = Vec<Counted<'a>, &'a Faulty<Global>>;

// A call on a vector, or what may become of it.
#[derive(Clone, Copy)]
enum Call {
    Take(Taking),
    Retain,
    DedupByKey,
    SplitOff(usize),
    IntoBoxedSlice,
    // With an item taken from each end.
    IntoIter,
}

fn is_odd(x: &Counted<'_>) -> bool {
    x.value % 2 == 1
}

fn third(x: &mut Counted<'_>) -> u32 {
    x.value / 3
}

#[tactic(auto, using(aa_vec::proofs::Callers::callers))]
fn keep_odd(v: &mut Many<'_>) {
    v.retain(is_odd);
}

#[tactic(auto, using(aa_vec::proofs::Callers::callers))]
fn remove_repeats(v: &mut Many<'_>) {
    v.dedup_by_key(third);
}

// Calls on a vector; what it makes is dropped.
fn called(call: Call, v: &mut Many<'_>) {
    match call {
        Call::Take(taking) => drop(taken(taking, v)),
        Call::Retain => keep_odd(v),
        Call::DedupByKey => remove_repeats(v),
        Call::SplitOff(at) => drop(v.split_off(at.min(v.len()))),
        _ => {}
    }
}

// How many elements are dropped once a vector became a boxed slice, before that is dropped.
fn boxed(v: Many<'_>, drops: &Cell<u32>) -> u32 {
    let _list = v.into_boxed_slice();
    drops.get()
}

// How many are dropped once an item was taken from each end, before the others are.
fn taken_from_ends(v: Many<'_>, drops: &Cell<u32>) -> u32 {
    let mut items = v.into_iter();
    drop(items.next());
    drop(items.next_back());
    drops.get()
}

// How many requests a call makes, and how many elements it drops.
fn seen(call: Call, v: Many<'_>, heap: &Faulty<Global>, drops: &Cell<u32>) -> (u64, u32) {
    let mut v = v;
    let before = heap.requests();
    let dropped = match call {
        Call::IntoBoxedSlice => boxed(v, drops),
        Call::IntoIter => taken_from_ends(v, drops),
        _ => {
            called(call, &mut v);
            drops.get()
        }
    };
    (heap.requests().saturating_sub(before), dropped)
}

// A call on nine elements in 16 places, its requests, and how many elements it drops.
fn rows() -> [(Call, u64, u32); 11] {
    [
        (Call::Take(Taking::Pop), 0, 1),
        (Call::Take(Taking::Remove(1)), 0, 1),
        (Call::Take(Taking::SwapRemove(1)), 0, 1),
        (Call::Take(Taking::Truncate(6)), 0, 3),
        (Call::Take(Taking::Clear), 0, 9),
        (Call::Retain, 0, 5),
        (Call::DedupByKey, 0, 6),
        (Call::SplitOff(7), 1, 2),
        (Call::SplitOff(9), 0, 0),
        (Call::IntoBoxedSlice, 1, 0),
        (Call::IntoIter, 0, 2),
    ]
}

// Returns whether a row holds, each element is dropped once then, and all memory is freed.
fn is_so(alloc: Global, (call, requests, dropped): (Call, u64, u32)) -> bool {
    let heap = Faulty::new(alloc);
    let drops = Cell::new(0);
    let came = seen(call, counted_up(&heap, &drops, 9), &heap, &drops);
    came == (requests, dropped) && drops.get() == 9 && is_all_freed(&heap)
}

#[test]
fn elements_of_a_vector_are_dropped_once(rt: HostRuntime) {
    for row in rows() {
        assert!(rt; is_so(rt.alloc(), row), "{} of {}", row.2, row.1);
    }
}

// Returns the capacity of an empty vector that is made so, or `None` if it is not made.
fn room_of_new(heap: &Faulty<Global>, way: u32) -> Option<usize> {
    let v: Vec<u32, &Faulty<Global>> = match way {
        0 => Vec::new_in(heap),
        1 => Vec::with_growth_in(Growth::Sparing, heap),
        _ => Vec::with_capacity_in(0, heap).ok()?,
    };
    Some(v.capacity())
}

#[test]
fn an_empty_vector_does_not_allocate(rt: HostRuntime) {
    let heap = Faulty::new(rt.alloc());
    for way in 0..3 {
        assert!(rt; room_of_new(&heap, way) == Some(0) && heap.requests() == 0);
    }
}
