//! Each call that changes a vector, once on its happy path, and with the capacity that it leaves.
use crate::clones::{append_slice, assigned, filled, within};
use crate::lists::{add, digits, reads};
use crate::memory::has_due_requests;
use aa_raw::collections::TryReserveError;
use aa_vec::vec::{Items, Vec};
use std::alloc::{Allocator, Global};
use test_allocators::Faulty;

// A call that takes elements out of a vector.
#[derive(Clone, Copy)]
pub(crate) enum Taking {
    Pop,
    Remove(usize),
    SwapRemove(usize),
    Truncate(usize),
    Clear,
}

// Returns the outcome of a call. A call at a place that does not exist does nothing.
pub(crate) fn taken<T: Drop, A: Allocator>(taking: Taking, v: &mut Vec<T, A>) -> Option<T> {
    match taking {
        Taking::Pop => return v.pop(),
        Taking::Remove(at) if at < v.len() => return Some(v.remove(at)),
        Taking::SwapRemove(at) if at < v.len() => return Some(v.swap_remove(at)),
        Taking::Remove(_) | Taking::SwapRemove(_) => {}
        Taking::Truncate(len) => v.truncate(len),
        Taking::Clear => v.clear(),
    }
    None
}

// A call that changes a vector, with its arguments.
#[derive(Clone, Copy)]
enum Call {
    Take(Taking),
    Push(u32),
    // A push and a pop, so many times.
    PushAndPop(u32),
    PushWithinCapacity(u32),
    Insert(usize, u32),
    Append,
    AssignFrom,
    Reserve(usize),
    TryReserve(usize),
    ReserveExact(usize),
    TryReserveExact(usize),
    ShrinkTo(usize),
    ShrinkToFit,
    ExtendFromSlice,
    ExtendFromWithin(usize),
    ExtendFromSliceCopied,
    ExtendFromWithinCopied(usize),
    Resize(usize, u32),
    Extend,
    ExtendBy,
    ExtendHinted,
    ExtendHintedBy,
    ExtendCopied,
    ExtendCopiedBy,
}

// Returns the outcome of a call, or the value in its error.
fn called<A: Allocator>(
    call: Call,
    v: &mut Vec<u32, A>,
    other: Vec<u32, A>,
) -> Result<Option<u32>, TryReserveError> {
    match call {
        Call::Take(taking) => return Ok(taken(taking, v)),
        Call::PushWithinCapacity(x) => return Ok(v.push_within_capacity(x).err()),
        Call::PushAndPop(count) => return Ok(pushed_and_popped(v, count)),
        Call::Push(x) => v.push(x)?,
        Call::Insert(at, x) => v.insert(at.min(v.len()), x)?,
        Call::Reserve(count) => v.reserve(count)?,
        Call::TryReserve(count) => v.try_reserve(count)?,
        Call::ReserveExact(count) => v.reserve_exact(count)?,
        Call::TryReserveExact(count) => v.try_reserve_exact(count)?,
        Call::ShrinkTo(capacity) => v.shrink_to(capacity)?,
        Call::ShrinkToFit => v.shrink_to_fit()?,
        _ => lengthened(call, v, other)?,
    }
    Ok(None)
}

// The last of the elements that are pushed and popped, one after another.
fn pushed_and_popped<A: Allocator>(v: &mut Vec<u32, A>, count: u32) -> Option<u32> {
    let mut last = None;
    for x in 0..count {
        add(v, x);
        last = taken(Taking::Pop, v);
    }
    last
}

// The calls that append several elements, or replace a range by them.
fn lengthened<A: Allocator>(
    call: Call,
    v: &mut Vec<u32, A>,
    other: Vec<u32, A>,
) -> Result<(), TryReserveError> {
    let len = v.len();
    match call {
        Call::ExtendFromSlice => append_slice(v, other.as_slice()),
        Call::ExtendFromSliceCopied => v.extend_from_slice_copied(other.as_slice()),
        Call::ExtendFromWithin(from) => within(v, from, len),
        Call::ExtendFromWithinCopied(from) => v.extend_from_within_copied(from.min(len)..len),
        Call::Resize(len, x) => filled(v, len, x),
        Call::AssignFrom => assigned(v, &other),
        _ => extended(call, v, other),
    }
}

// The calls that append all elements of another vector.
fn extended<A: Allocator>(
    call: Call,
    v: &mut Vec<u32, A>,
    other: Vec<u32, A>,
) -> Result<(), TryReserveError> {
    match call {
        Call::Extend => v.extend(other.into_iter()),
        Call::ExtendBy => v.extend_by(&mut other.into_iter()),
        Call::ExtendHinted => v.extend_hinted(Items::new(other, Some(5))),
        Call::ExtendHintedBy => v.extend_hinted_by(&mut Items::new(other, None)),
        Call::ExtendCopied => v.extend_copied(other.iter()),
        Call::ExtendCopiedBy => v.extend_copied_by(&mut other.iter()),
        _ => {
            let mut other = other;
            v.append(&mut other)
        }
    }
}

// The digits of numbers, the capacity, a call on them and on the others 7 and 8, its outcome, and
// the digits and the capacity that it leaves.
type Row = (u32, usize, Call, Option<u32>, u32, usize);

// Whether a row is as the vector has it, and the call makes one request if it needs a new block,
// and else none.
fn is_so(heap: &Faulty<Global>, (items, room, call, outcome, left, capacity): Row) -> bool {
    let mut v = digits(heap, items, room);
    let other = digits(heap, 78, 2);
    let before = heap.requests();
    let came = called(call, &mut v, other);
    let due = has_due_requests(heap, before, room, v.capacity());
    came == Ok(outcome) && due && reads(&v, left, capacity)
}

#[test]
fn elements_are_put_and_taken(rt: HostRuntime) {
    let rows: [Row; 28] = [
        (193, 8, Call::Take(Taking::Pop), Some(3), 19, 8),
        (192, 4, Call::Take(Taking::Remove(1)), Some(9), 12, 4),
        (123, 4, Call::Take(Taking::SwapRemove(0)), Some(1), 32, 4),
        (123, 4, Call::Take(Taking::Truncate(1)), None, 1, 4),
        (1, 4, Call::Take(Taking::Clear), None, 0, 4),
        (7777, 4, Call::Push(8), None, 77778, 8),
        (123, 4, Call::PushWithinCapacity(4), None, 1234, 4),
        (1234, 4, Call::PushWithinCapacity(7), Some(7), 1234, 4),
        (123, 4, Call::Insert(1, 9), None, 1923, 4),
        (123, 10, Call::Reserve(8), None, 123, 20),
        (123, 10, Call::TryReserve(8), None, 123, 20),
        (123, 10, Call::ReserveExact(8), None, 123, 11),
        (123, 11, Call::TryReserveExact(9), None, 123, 12),
        (123, 10, Call::ShrinkTo(4), None, 123, 4),
        (0, 10, Call::ShrinkToFit, None, 0, 0),
        (1, 4, Call::Resize(3, 7), None, 177, 4),
        (123, 3, Call::ExtendFromSlice, None, 12378, 6),
        (123, 3, Call::ExtendFromSliceCopied, None, 12378, 6),
        (123, 3, Call::ExtendFromWithin(1), None, 12323, 6),
        (123, 3, Call::ExtendFromWithinCopied(1), None, 12323, 6),
        (123, 4, Call::AssignFrom, None, 78, 4),
        (12, 2, Call::Append, None, 1278, 4),
        (1234, 4, Call::Extend, None, 123478, 8),
        (12, 2, Call::ExtendBy, None, 1278, 4),
        (12, 2, Call::ExtendHinted, None, 1278, 8),
        (12, 2, Call::ExtendHintedBy, None, 1278, 4),
        (12, 2, Call::ExtendCopied, None, 1278, 4),
        (12, 2, Call::ExtendCopiedBy, None, 1278, 4),
    ];
    let heap = Faulty::new(rt.alloc());
    for row in rows {
        assert!(rt; is_so(&heap, row), "{} in {}", row.4, row.5);
    }
    assert!(rt; heap.outstanding() == 0);
}

#[test]
fn what_fits_does_not_allocate(rt: HostRuntime) {
    let rows: [Row; 17] = [
        (123, 4, Call::Push(4), None, 1234, 4),
        (123, 4, Call::PushAndPop(1000), Some(999), 123, 4),
        (123, 10, Call::Reserve(7), None, 123, 10),
        (123, 10, Call::TryReserve(7), None, 123, 10),
        (123, 10, Call::ReserveExact(7), None, 123, 10),
        (123, 10, Call::TryReserveExact(7), None, 123, 10),
        (123, 10, Call::ShrinkTo(10), None, 123, 10),
        (123, 3, Call::ShrinkToFit, None, 123, 3),
        (1234, 4, Call::Resize(1, 7), None, 1, 4),
        (12, 4, Call::ExtendFromSlice, None, 1278, 4),
        (12, 4, Call::ExtendFromSliceCopied, None, 1278, 4),
        (12, 4, Call::ExtendFromWithin(0), None, 1212, 4),
        (12, 4, Call::ExtendFromWithinCopied(0), None, 1212, 4),
        (12, 4, Call::Append, None, 1278, 4),
        (12, 4, Call::ExtendBy, None, 1278, 4),
        (12, 7, Call::ExtendHinted, None, 1278, 7),
        (12, 4, Call::ExtendCopiedBy, None, 1278, 4),
    ];
    let heap = Faulty::new(rt.alloc());
    for row in rows {
        assert!(rt; is_so(&heap, row), "{} in {}", row.4, row.5);
    }
}

// Writes to the first and the last of three.
fn put_at_ends<A: Allocator>(v: &mut Vec<u32, A>) {
    if v.len() == 3 {
        v[0] = v[1].wrapping_add(4);
        v.as_mut_slice()[2] = 5;
    }
}

fn halve<A: Allocator>(v: &mut Vec<u32, A>) {
    for x in v.iter_mut() {
        *x /= 2;
    }
}

fn greatest<A: Allocator>(v: &Vec<u32, A>) -> Option<u32> {
    v.iter().copied().max()
}

fn sum<A: Allocator>(v: Vec<u32, A>) -> u32 {
    let mut sum = 0u32;
    for x in v {
        sum = sum.wrapping_add(x);
    }
    sum
}

#[test]
fn elements_are_written_in_place(rt: HostRuntime) {
    let heap = Faulty::new(rt.alloc());
    let mut v = digits(&heap, 123, 4);
    put_at_ends(&mut v);
    halve(&mut v);
    assert!(rt; greatest(&v) == Some(3) && heap.requests() == 1 && reads(&v, 312, 4));
    let before = heap.requests();
    assert!(rt; sum(v) == 6 && heap.requests() == before && heap.outstanding() == 0);
}
