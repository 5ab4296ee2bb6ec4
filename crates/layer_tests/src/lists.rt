//! Lists that the tests start from, and how they are compared, each call in one place. None of
//! these reports a failure: the list is then not what the tests look for.
use crate::clones::append_slice;
use aa_raw::collections::TryReserveError;
use aa_vec::vec::Vec;
use std::alloc::{Allocator, Global};
use std::cell::Cell;
use test_allocators::counted::Counted;

/// Appends an element. If this fails, the element is dropped at once.
pub(crate) fn add<T: Drop, A: Allocator>(v: &mut Vec<T, A>, x: T) {
    let _added = v.push(x);
}

/// An empty vector with so many places.
pub(crate) fn places<T, A: Allocator + Copy>(alloc: A, capacity: usize) -> Vec<T, A> {
    match Vec::with_capacity_in(capacity, alloc) {
        Ok(v) => v,
        Err(_) => Vec::new_in(alloc),
    }
}

/// Returns the elements of a slice, in a vector with capacity `capacity`.
pub(crate) fn list<T: Copy>(alloc: Global, items: &[T], capacity: usize) -> Vec<T> {
    let mut v = places(alloc, capacity);
    let _put = append_slice(&mut v, items);
    v
}

/// Returns the digits of a number of at most seven, 0 for none, in a vector with capacity
/// `capacity`. A row of a table is proved faster so than with slices.
pub(crate) fn digits<A: Allocator + Copy>(alloc: A, number: u32, capacity: usize) -> Vec<u32, A> {
    let mut v = places(alloc, capacity);
    for place in [1_000_000, 100_000, 10_000, 1_000, 100, 10, 1u32] {
        if place <= number {
            add(&mut v, number / place % 10);
        }
    }
    v
}

/// Whether a vector has these digits, in these many places.
pub(crate) fn reads<A: Allocator + Copy>(v: &Vec<u32, A>, number: u32, capacity: usize) -> bool {
    *v == digits(*v.allocator(), number, 0) && v.capacity() == capacity
}

/// Returns the elements with the numbers from 0 up to `end`. One that fails to be pushed is counted
/// too early.
pub(crate) fn counted_up<'a, A: Allocator + Copy>(
    alloc: A,
    drops: &'a Cell<u32>,
    end: u32,
) -> Vec<Counted<'a>, A> {
    let mut v = places(alloc, 16);
    for value in 0..end {
        add(&mut v, Counted { value, drops });
    }
    v
}

/// Whether a vector has these elements, in these many places.
pub(crate) fn has_items<T: PartialEq>(v: &Vec<T>, items: &[T], capacity: usize) -> bool {
    v.as_slice() == items && v.capacity() == capacity
}

/// Whether a call made such a vector.
pub(crate) fn made(
    outcome: Result<Vec<u32>, TryReserveError>,
    number: u32,
    capacity: usize,
) -> bool {
    match outcome {
        Ok(v) => reads(&v, number, capacity),
        Err(_) => false,
    }
}
