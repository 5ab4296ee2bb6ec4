//! What the tests of failed calls share: how a call ends, and the lists that it takes. What each
//! place costs that calls the library is the reading of that call's contract, so a call is in one
//! place, in a helper without contract. While a list is made no request fails: else the test sees a
//! shorter one.
use allocator_api2::boxed::Box;
use allocator_api2::collections::{TryReserveError, TryReserveErrorKind};
use allocator_api2::vec::Vec;
use allocator_api2::vec_of;
use std::alloc::{Allocator, Global};
use test_allocators::Faulty;

// How a call ended: done, or failed for lack of memory for so many elements, or for a length or a
// size past the limits.
#[derive(Clone, Copy, PartialEq, Drop)]
pub(crate) enum End {
    Done,
    NoMemory(usize),
    TooLong,
}

pub(crate) fn end_of(ended: Result<(), TryReserveError>) -> End {
    match ended {
        Ok(()) => End::Done,
        Err(error) => end_by(error),
    }
}

pub(crate) fn end_by(error: TryReserveError) -> End {
    match error.kind() {
        TryReserveErrorKind::AllocError { capacity } => End::NoMemory(capacity),
        TryReserveErrorKind::CapacityOverflow => End::TooLong,
    }
}

// How a call ended that makes something, which is dropped.
pub(crate) fn end_of_made<T: Drop>(ended: Result<T, TryReserveError>) -> End {
    match ended {
        Ok(_) => End::Done,
        Err(error) => end_by(error),
    }
}

// A list on the allocator of a test.
pub(crate) type List<'a, T> = Vec<T, &'a Faulty<Global>>;

// A number in a box, whose clone allocates: what is outstanding and what was freed count the
// elements.
pub(crate) type Held<'a> = Box<u32, &'a Faulty<Global>>;

// A box of a value.
pub(crate) fn boxed<T: Drop, A: Allocator>(x: T, alloc: A) -> Result<Box<T, A>, TryReserveError> {
    match Box::new_in(x, alloc) {
        Ok(made) => Ok(made),
        Err(error) => Err(error.into()),
    }
}

// Returns an empty vector with capacity for so many.
pub(crate) fn room_for<T, A: Allocator>(capacity: usize, alloc: A) -> Vec<T, A> {
    let mut v = vec_of![in alloc];
    let _ended = v.reserve_exact(capacity);
    v
}

// Appends an element.
pub(crate) fn put<T: Drop, A: Allocator>(v: &mut Vec<T, A>, x: T) {
    let _ended = v.push(x);
}

// The numbers, with so many places.
pub(crate) fn numbers<A: Allocator>(alloc: A, items: &[u32], places: usize) -> Vec<u32, A> {
    let mut v = room_for(places, alloc);
    for x in items {
        put(&mut v, *x);
    }
    v
}

// The same of numbers in memory of their own.
pub(crate) fn held<'a>(
    heap: &'a Faulty<Global>,
    items: &[u32],
    places: usize,
) -> List<'a, Held<'a>> {
    let mut v = room_for(places, heap);
    for x in items {
        if let Ok(one) = boxed(*x, heap) {
            put(&mut v, one);
        }
    }
    v
}

// So many units.
pub(crate) fn units<A: Allocator>(count: usize, alloc: A) -> Vec<(), A> {
    let mut v = room_for(0, alloc);
    for _ in 0..count {
        put(&mut v, ());
    }
    v
}

// Returns whether a vector has these elements, and capacity `capacity`.
pub(crate) fn has_items<T: PartialEq, A: Allocator>(
    v: &Vec<T, A>,
    items: &[T],
    capacity: usize,
) -> bool {
    v.as_slice() == items && v.capacity() == capacity
}

// The numbers as the digits of one.
pub(crate) fn digits(elements: &[Held<'_>]) -> u32 {
    let mut all = 0u32;
    for x in elements {
        all = all.wrapping_mul(10).wrapping_add(**x);
    }
    all
}

// Returns whether each block was freed once.
pub(crate) fn is_all_freed(heap: &Faulty<Global>) -> bool {
    heap.outstanding() == 0 && heap.frees().saturating_add(heap.failures()) == heap.requests()
}
