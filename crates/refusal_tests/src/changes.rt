//! Calls that change a vector or make something of its elements: each request fails in turn, also
//! those of the elements' clones.
use crate::items::{Fill, Watched, filled, spliced};
use crate::seen::{
    End, Held, boxed, digits, end_by, end_of, end_of_made, has_items, held, is_all_freed, numbers,
};
use allocator_api2::SliceExt;
use allocator_api2::collections::{Refused, TryReserveError};
use allocator_api2::vec::{Items, Vec};
use std::alloc::{AllocError, Allocator, Global};
use std::cell::Cell;
use std::clone::Clone;
use test_allocators::Faulty;

// A call of a name, with the numbers that it takes.
#[derive(Clone, Copy)]
pub(crate) enum Call {
    Push,
    Insert,
    TryReserve(usize),
    Reserve(usize),
    TryReserveExact(usize),
    ReserveExact(usize),
    ShrinkTo(usize),
    ShrinkToFit,
    Append,
    SplitOff(usize),
    ExtendFromSlice,
    ExtendFromWithin,
    Resize(usize),
    AssignFrom,
    // Of an iterator without a lower bound.
    Fill(Fill),
    ExtendHinted(usize),
    ExtendHintedBy(usize),
    // With one element of the range taken first, and the hint of the items.
    SpliceHinted(usize, usize, Option<usize>),
    // Of the items of the other list, with an exact hint.
    SpliceExact(usize, usize),
    // What these make is dropped.
    FromSliceIn,
    FromElemIn(usize),
    ToVecIn,
    ToVecIn2,
    Clone,
    ItemsClone,
    SliceClone,
    // These by the trait, whose error has no number.
    TraitClone,
    TraitItemsClone,
    TraitSliceClone,
    // Of a box of the other vector.
    TraitBoxClone,
}

// Returns how a call ends that takes another element and another vector. If the element is returned
// in the error, it is put back. Counts how often the iterator is called.
pub(crate) fn called<T: Clone + Drop, A: Allocator + Clone + Drop>(
    call: Call,
    v: &mut Vec<T, A>,
    one: &mut Option<T>,
    other: Vec<T, A>,
    alloc: A,
    calls: &Cell<u32>,
) -> End {
    match call {
        Call::Push | Call::Insert | Call::Resize(_) => called_with_one(call, v, one),
        _ => called_with_items(call, v, other, alloc, calls),
    }
}

// Returns how a call ends that takes an element.
pub(crate) fn called_with_one<T: Clone + Drop, A: Allocator>(
    call: Call,
    v: &mut Vec<T, A>,
    one: &mut Option<T>,
) -> End {
    let Some(x) = one.take() else {
        return End::TooLong;
    };
    match call {
        Call::Push => end_with_value(v.push(x), one),
        Call::Insert => end_with_value(v.insert(v.len().min(1), x), one),
        Call::Resize(len) => end_of(v.resize(len, x)),
        _ => End::TooLong,
    }
}

// Returns how a call ends that returns its element in the error.
fn end_with_value<T: Drop>(ended: Result<(), Refused<T>>, one: &mut Option<T>) -> End {
    match ended {
        Ok(()) => End::Done,
        Err(error) => {
            *one = Some(error.source);
            end_by(error.error)
        }
    }
}

// Returns how a call ends that takes items, and counts how often the iterator is called.
fn called_with_items<T: Clone + Drop, A: Allocator + Clone + Drop>(
    call: Call,
    v: &mut Vec<T, A>,
    other: Vec<T, A>,
    alloc: A,
    calls: &Cell<u32>,
) -> End {
    match call {
        Call::Fill(fill) => {
            let inner = Items::new(other, None);
            filled(fill, v, Watched { inner, calls }, alloc)
        }
        Call::SpliceHinted(from, to, hint) => spliced(v, (from, to), Items::new(other, hint)),
        Call::SpliceExact(from, to) => {
            filled(Fill::Splice(from, to), v, other.into_iter(), alloc)
        }
        Call::ExtendHinted(hint) => {
            let inner = Items::new(other, Some(hint));
            end_of(v.extend_hinted(Watched { inner, calls }))
        }
        Call::ExtendHintedBy(hint) => {
            let inner = Items::new(other, Some(hint));
            end_of(v.extend_hinted_by(&mut Watched { inner, calls }))
        }
        _ => called_to_make(call, v, other, alloc),
    }
}

// How a call ends that makes something of the other vector.
fn called_to_make<T: Clone + Drop, A: Allocator + Clone + Drop>(
    call: Call,
    v: &mut Vec<T, A>,
    other: Vec<T, A>,
    alloc: A,
) -> End {
    match call {
        Call::FromSliceIn => end_of_made(Vec::from_slice_in(other.as_slice(), alloc)),
        Call::FromElemIn(count) => end_of_made(Vec::from_elem_in(other, count, alloc)),
        Call::ToVecIn => end_of_made(other.as_slice().to_vec_in(alloc)),
        Call::ToVecIn2 => end_of_made(other.as_slice().to_vec_in2(alloc)),
        Call::Clone => end_of_made(other.clone()),
        Call::ItemsClone => end_of_made(other.into_iter().clone()),
        Call::SliceClone => end_of_boxed_clone(other),
        Call::TraitClone => end_of_clone(Clone::clone(&other)),
        Call::TraitItemsClone => end_of_clone(Clone::clone(&other.into_iter())),
        Call::TraitSliceClone => end_of_trait_clone(other),
        Call::TraitBoxClone => end_of_box_clone(other, alloc),
        Call::SplitOff(at) => end_of_made(v.split_off(at.min(v.len()))),
        _ => {
            let mut other = other;
            end_of(called_with_many(call, v, &mut other))
        }
    }
}

// How the clone of a boxed slice of full places ends, which needs no memory to be boxed.
fn end_of_boxed_clone<T: Clone + Drop, A: Allocator + Clone>(items: Vec<T, A>) -> End {
    match items.into_boxed_slice() {
        Ok(list) => end_of_made(list.clone()),
        Err(_) => End::TooLong,
    }
}

// The same of the clone by the trait.
fn end_of_trait_clone<T: Clone + Drop, A: Allocator + Clone + Drop>(items: Vec<T, A>) -> End {
    match items.into_boxed_slice() {
        Ok(list) => end_of_clone(Clone::clone(&list)),
        Err(_) => End::TooLong,
    }
}

// How it ends to box a value and clone the box.
fn end_of_box_clone<T: Clone + Drop, A: Allocator + Clone + Drop>(x: T, alloc: A) -> End {
    match boxed(x, alloc) {
        Ok(made) => end_of_clone(Clone::clone(&made)),
        Err(error) => end_by(error),
    }
}

// Returns how a clone by the trait ends, whose error has no number.
fn end_of_clone<T: Drop>(made: Result<T, AllocError>) -> End {
    match made {
        Ok(_) => End::Done,
        Err(_) => End::NoMemory(0),
    }
}

// Returns the result of a call that takes another vector.
pub(crate) fn called_with_many<T: Clone + Drop, A: Allocator + Clone>(
    call: Call,
    v: &mut Vec<T, A>,
    other: &mut Vec<T, A>,
) -> Result<(), TryReserveError> {
    match call {
        Call::Append => v.append(other),
        Call::ExtendFromSlice => v.extend_from_slice(other.as_slice()),
        Call::ExtendFromWithin => v.extend_from_within(v.len().min(1)..v.len()),
        Call::AssignFrom => v.assign_from(other),
        _ => called_for_room(call, v),
    }
}

// Returns the result of a call that only changes the capacity.
fn called_for_room<T: Drop, A: Allocator>(
    call: Call,
    v: &mut Vec<T, A>,
) -> Result<(), TryReserveError> {
    match call {
        Call::TryReserve(more) => v.try_reserve(more),
        Call::Reserve(more) => v.reserve(more),
        Call::TryReserveExact(more) => v.try_reserve_exact(more),
        Call::ReserveExact(more) => v.reserve_exact(more),
        Call::ShrinkTo(least) => v.shrink_to(least),
        _ => v.shrink_to_fit(),
    }
}

// How a call ended, the elements as the digits of a number, the capacity, the number of requests,
// and the number that is returned in the error, or 0.
type Seen = (End, u32, usize, u64, u32);

// The numbers and the capacity of a vector, and the numbers of the other.
type Before<'a> = (&'a [u32], usize, &'a [u32]);

// Returns what is seen of a call with the element 9, when the request numbered `failed` fails; how
// often the iterator is called, and whether each block is freed once.
fn seen(alloc: Global, call: Call, before: Before<'_>, failed: u64) -> (Seen, u32, bool) {
    let heap = Faulty::new(alloc);
    let calls = Cell::new(0);
    let seen = seen_on(&heap, call, before, failed, &calls);
    (seen, calls.get(), is_all_freed(&heap))
}

fn seen_on(
    heap: &Faulty<Global>,
    call: Call,
    (first, room, others): Before<'_>,
    failed: u64,
    calls: &Cell<u32>,
) -> Seen {
    let mut v = held(heap, first, room);
    let other = held(heap, others, others.len());
    let mut one = match call {
        Call::Push | Call::Insert | Call::Resize(_) => boxed(9, heap).ok(),
        _ => None,
    };
    let before = heap.requests();
    heap.fail_requests(failed, 1);
    let end = called(call, &mut v, &mut one, other, heap, calls);
    let requests = heap.requests().saturating_sub(before);
    (
        end,
        digits(v.as_slice()),
        v.capacity(),
        requests,
        number(one),
    )
}

// Returns the number in an element that may have been returned.
fn number(back: Option<Held<'_>>) -> u32 {
    match back {
        Some(one) => *one,
        None => 0,
    }
}

// A call on the elements 1, 2 and 3 with capacity for so many, and 4, 5 and 6; its requests; the
// number in the error if the first of them fails, or a later one; and the elements and the capacity
// if none does.
type Row = (Call, usize, u64, usize, usize, u32, usize);

fn changes() -> [Row; 32] {
    [
        (Call::Push, 3, 1, 6, 0, 1239, 6),
        (Call::Insert, 3, 1, 6, 0, 1923, 6),
        (Call::TryReserve(2), 3, 1, 6, 0, 123, 6),
        (Call::Reserve(2), 3, 1, 6, 0, 123, 6),
        (Call::TryReserveExact(2), 3, 1, 5, 0, 123, 5),
        (Call::ReserveExact(2), 3, 1, 5, 0, 123, 5),
        (Call::ShrinkTo(4), 10, 1, 4, 0, 123, 4),
        (Call::ShrinkToFit, 10, 1, 3, 0, 123, 3),
        (Call::Append, 3, 1, 6, 0, 123456, 6),
        (Call::SplitOff(1), 4, 1, 2, 0, 1, 4),
        (Call::SplitOff(0), 4, 1, 4, 0, 0, 4),
        (Call::ExtendFromSlice, 3, 4, 6, 6, 123456, 6),
        (Call::ExtendFromWithin, 3, 3, 6, 5, 12323, 6),
        (Call::Resize(5), 3, 2, 6, 5, 12399, 6),
        (Call::Fill(Fill::Extend), 3, 1, 6, 0, 123456, 6),
        (Call::Fill(Fill::ExtendBy), 3, 1, 6, 0, 123456, 6),
        (Call::ExtendHinted(0), 3, 1, 6, 0, 123456, 6),
        (Call::ExtendHintedBy(0), 3, 1, 6, 0, 123456, 6),
        (Call::Fill(Fill::FromIterIn), 3, 1, 4, 0, 123, 3),
        (Call::Fill(Fill::FromIterInBy), 3, 1, 4, 0, 123, 3),
        (Call::Fill(Fill::SliceFromIterIn), 3, 2, 4, 3, 123, 3),
        (Call::FromSliceIn, 3, 4, 3, 3, 123, 3),
        (Call::FromElemIn(3), 3, 9, 3, 3, 123, 3),
        (Call::ToVecIn, 3, 4, 3, 3, 123, 3),
        (Call::ToVecIn2, 3, 4, 3, 3, 123, 3),
        (Call::Clone, 3, 4, 3, 3, 123, 3),
        (Call::ItemsClone, 3, 4, 3, 3, 123, 3),
        (Call::SliceClone, 3, 4, 3, 3, 123, 3),
        (Call::TraitClone, 3, 4, 0, 0, 123, 3),
        (Call::TraitItemsClone, 3, 4, 0, 0, 123, 3),
        (Call::TraitSliceClone, 3, 4, 0, 0, 123, 3),
        (Call::TraitBoxClone, 3, 6, 1, 0, 123, 3),
    ]
}

// Returns what is seen of a row when the request numbered `failed` fails: the elements are
// unchanged, and at the first request the capacity too. A push or an insert returns its element in
// the error.
fn left_of((call, room, requests, first, later, done, grown): Row, failed: u64) -> Seen {
    if failed == requests {
        return (End::Done, done, grown, requests, 0);
    }
    let requested = failed.saturating_add(1);
    match call {
        Call::Push | Call::Insert => (End::NoMemory(first), 123, room, requested, 9),
        _ if failed == 0 => (End::NoMemory(first), 123, room, requested, 0),
        _ => (End::NoMemory(later), 123, grown, requested, 0),
    }
}

#[test]
fn each_request_of_a_change_can_fail(rt: HostRuntime) {
    for row in changes() {
        for failed in 0..row.2.saturating_add(1) {
            let (came, _calls, once) = seen(
                rt.alloc(),
                row.0,
                (&[1, 2, 3], row.1, &[4, 5, 6]),
                failed,
            );
            assert!(rt; came == left_of(row, failed) && once);
        }
    }
}

// What a part begins with: the numbers and the places of a list, and the numbers of another.
#[derive(Clone, Copy)]
enum Start {
    Full,
    OneFree,
    TwoFree,
    One,
    OneOfFour,
    NoneOfThree,
    Four,
    FourForOne,
    ThreeForTwo,
}

fn lists(from: Start) -> Before<'static> {
    match from {
        Start::Full => (&[1, 2, 3], 3, &[4, 5, 6]),
        Start::OneFree => (&[1, 2, 3], 4, &[4, 5, 6]),
        Start::TwoFree => (&[1, 2, 3], 5, &[4, 5, 6, 7, 8]),
        Start::One => (&[1], 1, &[4, 5, 6]),
        Start::OneOfFour => (&[1], 4, &[]),
        Start::NoneOfThree => (&[], 3, &[]),
        Start::Four => (&[1, 2, 3, 4], 4, &[7, 8, 9, 10]),
        Start::FourForOne => (&[1, 2, 3, 4], 4, &[9]),
        Start::ThreeForTwo => (&[1, 2, 3], 3, &[8, 9]),
    }
}

// A call, what it begins with, the request that fails; how it ends, the elements, the capacity and
// the requests; and how often the iterator is called: in an extension once for each element that is
// placed and once more, or for the end.
type Part = (Call, Start, u64, End, u32, usize, u64, u32);

const HINT: Call = Call::SpliceHinted(1, 3, Some(1));

const HINTED: Call = Call::SpliceExact(1, 3);

const UNTRUE: Call = Call::SpliceHinted(1, 2, Some(usize::MAX));

const UNTRUE_OF_THREE: Call = Call::SpliceHinted(0, 3, Some(usize::MAX));

// After an extension what fits is kept. After an assignment a part is kept, and the old elements
// are dropped. After a splice the elements after the range are kept too. A hint past the limits is
// an error if items are left and the range is full. A `resize` by one element clones nothing, and a
// vector without elements shrinks to no capacity without allocation.
fn parts() -> [Part; 23] {
    let (extend, by) = (Call::Fill(Fill::Extend), Call::Fill(Fill::ExtendBy));
    let (hinted, made) = (Call::ExtendHinted(0), Call::Fill(Fill::FromIterIn));
    let assign = Call::AssignFrom;
    [
        (extend, Start::OneFree, 0, End::NoMemory(8), 1234, 4, 1, 2),
        (extend, Start::OneFree, 1, End::Done, 123456, 8, 1, 4),
        (by, Start::TwoFree, 0, End::NoMemory(10), 12345, 5, 1, 3),
        (hinted, Start::OneFree, 0, End::NoMemory(8), 1234, 4, 1, 2),
        (hinted, Start::TwoFree, 1, End::Done, 12345678, 10, 1, 6),
        (made, Start::TwoFree, 0, End::NoMemory(4), 123, 5, 1, 1),
        (made, Start::TwoFree, 1, End::NoMemory(8), 123, 5, 2, 5),
        (made, Start::TwoFree, 2, End::Done, 123, 5, 2, 6),
        (assign, Start::Full, 0, End::NoMemory(3), 0, 3, 1, 0),
        (assign, Start::One, 0, End::NoMemory(4), 0, 1, 1, 0),
        (assign, Start::One, 1, End::NoMemory(3), 0, 4, 2, 0),
        (assign, Start::One, 2, End::NoMemory(3), 4, 4, 3, 0),
        (assign, Start::One, 3, End::NoMemory(3), 45, 4, 4, 0),
        (assign, Start::One, 4, End::Done, 456, 4, 4, 0),
        (Call::Resize(2), Start::OneOfFour, 0, End::Done, 19, 4, 0, 0),
        (
            Call::ShrinkToFit,
            Start::NoneOfThree,
            0,
            End::Done,
            0,
            0,
            0,
            0,
        ),
        (HINT, Start::Four, 0, End::NoMemory(8), 1784, 4, 1, 0),
        (HINT, Start::Four, 1, End::NoMemory(4), 17894, 8, 2, 0),
        (HINT, Start::Four, 2, End::Done, 179004, 8, 2, 0),
        (HINTED, Start::Four, 0, End::NoMemory(8), 1784, 4, 1, 0),
        (HINTED, Start::Four, 1, End::Done, 179004, 8, 1, 0),
        (
            UNTRUE_OF_THREE,
            Start::FourForOne,
            0,
            End::Done,
            94,
            4,
            0,
            0,
        ),
        (UNTRUE, Start::ThreeForTwo, 0, End::TooLong, 183, 3, 0, 0),
    ]
}

// Whether what is seen of a part is what it says.
fn is_left(alloc: Global, part: Part) -> bool {
    let (call, from, failed, end, digits, capacity, requests, calls) = part;
    let left = (end, digits, capacity, requests, 0);
    seen(alloc, call, lists(from), failed) == (left, calls, true)
}

#[test]
fn each_request_of_many_items_leaves_a_part(rt: HostRuntime) {
    for part in parts() {
        assert!(rt; is_left(rt.alloc(), part));
    }
}

// How many of five pushes of numbers succeed in four places if every allocation fails; how the next
// ends, and the number that it returns; and whether the vector then holds those before it.
fn pushed(heap: &Faulty<Global>) -> (u32, End, Option<u32>, bool) {
    let mut v = numbers(heap, &[], 4);
    heap.fail_requests(0, u64::MAX);
    for x in 1..=5u32 {
        let mut one = Some(x);
        let end = called_with_one(Call::Push, &mut v, &mut one);
        if end != End::Done {
            return (x - 1, end, one, has_items(&v, &[1, 2, 3, 4], 4));
        }
    }
    (5, End::Done, None, false)
}

#[test]
fn a_push_that_fits_does_not_allocate(rt: HostRuntime) {
    let heap = Faulty::new(rt.alloc());
    assert!(rt; pushed(&heap) == (4, End::NoMemory(8), Some(5), true));
    assert!(rt; is_all_freed(&heap));
}

// How it ends to append a vector of one number to one of two if so many allocations fail, and
// whether the two vectors then have these numbers and places.
fn appended(
    heap: &Faulty<Global>,
    fails: u64,
    (first, places): (&[u32], usize),
    (second, others): (&[u32], usize),
) -> (End, bool) {
    let mut v = numbers(heap, &[1, 2], 2);
    let mut other = numbers(heap, &[3], 4);
    heap.fail_requests(0, fails);
    let end = end_of(called_with_many(Call::Append, &mut v, &mut other));
    (
        end,
        has_items(&v, first, places) && has_items(&other, second, others),
    )
}

#[test]
fn a_failed_append_leaves_both_vectors(rt: HostRuntime) {
    let heap = Faulty::new(rt.alloc());
    let failed = appended(&heap, 1, (&[1, 2], 2), (&[3], 4));
    assert!(rt; failed == (End::NoMemory(4), true));
    let done = appended(&heap, 0, (&[1, 2, 3], 4), (&[], 4));
    assert!(rt; done == (End::Done, true));
    assert!(rt; is_all_freed(&heap));
}
