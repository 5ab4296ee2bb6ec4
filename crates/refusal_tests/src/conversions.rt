//! Conversions between vectors, boxed slices and arrays in boxes: an error returns the value.
use crate::seen::{End, boxed, end_by, is_all_freed, numbers, put, room_for};
use allocator_api2::boxed::{Box, BoxedSlice};
use allocator_api2::vec::{ArrayIntoVec, SliceIntoVec, Vec};
use std::alloc::{Allocator, Global};
use test_allocators::Faulty;

// Three numbers, in one of their forms.
#[derive(Drop)]
enum Three<A: Allocator> {
    Vector(Vec<u32, A>),
    List(BoxedSlice<u32, A>),
    Boxed(Box<[u32; 3], A>),
}

// What they become.
#[derive(Clone, Copy)]
enum Step {
    IntoBoxedSlice,
    TryIntoArray,
    Slice,
    IntoVec,
    SliceIntoVec,
}

// Returns how a step ends, and what there is then. The error of `try_into_array` has no number.
fn converted<A: Allocator + Clone + Drop>(step: Step, three: Three<A>) -> (End, Three<A>) {
    match (step, three) {
        (Step::IntoBoxedSlice, Three::Vector(v)) => match v.into_boxed_slice() {
            Ok(list) => (End::Done, Three::List(list)),
            Err(error) => (end_by(error.error), Three::Vector(error.source)),
        },
        (Step::TryIntoArray, Three::List(list)) => match list.try_into_array::<3>() {
            Ok(array) => (End::Done, Three::Boxed(array)),
            Err(list) => (End::NoMemory(0), Three::List(list)),
        },
        (Step::SliceIntoVec, Three::List(list)) => (End::Done, Three::Vector(list.into_vec())),
        (step, Three::Boxed(array)) => from_boxed(step, array),
        (_, three) => (End::TooLong, three),
    }
}

// The same of an array in a box.
fn from_boxed<A: Allocator + Clone>(step: Step, array: Box<[u32; 3], A>) -> (End, Three<A>) {
    let error = match step {
        Step::Slice => match Box::slice(array) {
            Ok(list) => return (End::Done, Three::List(list)),
            Err(error) => error,
        },
        _ => match array.into_vec() {
            Ok(v) => return (End::Done, Three::Vector(v)),
            Err(error) => error,
        },
    };
    (end_by(error.error), Three::Boxed(error.source))
}

// Whether they are 1, 2 and 3.
fn is_whole<A: Allocator>(three: &Three<A>) -> bool {
    [1, 2, 3].as_slice()
        == match three {
            Three::Vector(v) => v.as_slice(),
            Three::List(list) => list.as_slice(),
            Three::Boxed(array) => array.as_slice(),
        }
}

// Each step makes one request, and fails with this number; or it makes none.
fn steps() -> [(Step, Option<usize>); 7] {
    [
        (Step::IntoBoxedSlice, Some(3)),
        (Step::TryIntoArray, Some(0)),
        (Step::Slice, Some(3)),
        (Step::TryIntoArray, Some(0)),
        (Step::IntoVec, Some(3)),
        (Step::IntoBoxedSlice, None),
        (Step::SliceIntoVec, None),
    ]
}

// Takes a step, after one that fails: whether it ends as it must, and what there is then.
fn stepped<A: Allocator + Clone + Drop>(
    step: Step,
    error: Option<usize>,
    three: Three<A>,
) -> (bool, Three<A>) {
    let (end, left) = converted(step, three);
    let whole = is_whole(&left);
    match error {
        Some(number) if end == End::NoMemory(number) && whole => {
            let (end, made) = converted(step, left);
            (end == End::Done && is_whole(&made), made)
        }
        Some(_) => (false, left),
        None => (end == End::Done && whole, left),
    }
}

// Takes each step, and fails the first request of each. Returns how many end as they must.
fn steps_taken(heap: &Faulty<Global>) -> usize {
    let mut three = Three::Vector(numbers(heap, &[1, 2, 3], 4));
    let mut taken = 0usize;
    for (step, error) in steps() {
        heap.fail_requests(0, 1);
        let (right, made) = stepped(step, error, three);
        if right {
            taken = taken.saturating_add(1);
        }
        three = made;
    }
    taken
}

#[test]
fn each_request_of_the_conversions_can_fail(rt: HostRuntime) {
    let heap = Faulty::new(rt.alloc());
    assert!(rt; steps_taken(&heap) == steps().len());
    assert!(rt; (heap.requests(), heap.failures()) == (11, 5));
    assert!(rt; is_all_freed(&heap));
}

// The capacity of a vector that is returned because its boxed slice fails.
fn capacity_returned(heap: &Faulty<Global>) -> Option<usize> {
    let three = Three::Vector(numbers(heap, &[1, 2, 3], 4));
    heap.fail_requests(0, 1);
    match converted(Step::IntoBoxedSlice, three) {
        (End::NoMemory(3), Three::Vector(v)) => Some(v.capacity()),
        _ => None,
    }
}

#[test]
fn a_vector_that_is_returned_keeps_its_capacity(rt: HostRuntime) {
    assert!(rt; capacity_returned(&Faulty::new(rt.alloc())) == Some(4));
}

// Returns how a step ends when the allocator's clone fails, and whether the numbers are kept then.
fn uncloned(alloc: Global, step: Step) -> (End, bool) {
    let heap = Faulty::new(alloc);
    heap.fail_clones(true);
    let (end, left) = match step {
        Step::TryIntoArray => {
            let three = Three::Vector(numbers(heap, &[1, 2, 3], 3));
            let (_end, list) = converted(Step::IntoBoxedSlice, three);
            converted(step, list)
        }
        _ => match boxed([1, 2, 3], heap) {
            Ok(array) => from_boxed(step, array),
            Err(error) => return (end_by(error), false),
        },
    };
    (end, is_whole(&left))
}

#[test]
fn a_failed_clone_of_the_allocator_returns_the_vector(rt: HostRuntime) {
    for (step, number) in [
        (Step::Slice, 3),
        (Step::IntoVec, 3),
        (Step::TryIntoArray, 0),
    ] {
        assert!(rt; uncloned(rt.alloc(), step) == (End::NoMemory(number), true));
    }
}

// Joins two pairs. Returns how this ends, and whether their numbers are kept then.
fn flattened<A: Allocator + Clone>(alloc: A) -> (End, bool) {
    let mut pairs = room_for(2, alloc);
    put(&mut pairs, [1u32, 2]);
    put(&mut pairs, [3, 4]);
    joined(pairs)
}

fn joined<A: Allocator + Clone>(pairs: Vec<[u32; 2], A>) -> (End, bool) {
    match pairs.into_flattened() {
        Ok(flat) => (End::Done, flat.as_slice() == [1, 2, 3, 4].as_slice()),
        Err(error) => {
            let whole = error.source.as_slice() == [[1, 2], [3, 4]].as_slice();
            (end_by(error.error), whole)
        }
    }
}

#[test]
fn a_failed_flattening_returns_the_vector(rt: HostRuntime) {
    let heap = Faulty::new(rt.alloc());
    heap.fail_requests(1, 1);
    assert!(rt; flattened(&heap) == (End::NoMemory(4), true));
    assert!(rt; flattened(&heap) == (End::Done, true));
    assert!(rt; is_all_freed(&heap));
    let uncloned = Faulty::new(rt.alloc());
    uncloned.fail_clones(true);
    assert!(rt; flattened(uncloned) == (End::NoMemory(4), true));
}
