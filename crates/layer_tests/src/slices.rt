//! Vectors, boxed slices and their iterators where a slice is expected, and collected.
use aa_boxed::boxed::{Box, BoxedSlice, BoxedText};
use aa_raw::collections::TryReserveError;
use aa_vec::vec::Vec;
use std::alloc::{AllocError, Global};
use std::convert::{AsMut, AsRef, AsSlice, AsStr};
use std::iter::{Extend, FromIterator};
use std::ops::AsDeref;
use std::test::Fail;

// The first element of what lends a slice, and how many there are.
fn first_of<S: AsSlice<u32>>(s: &S) -> (Option<u32>, usize) {
    let items = s.as_slice();
    (items.first().copied(), items.len())
}

fn boxed_numbers(alloc: Global) -> Option<BoxedSlice<u32>> {
    (1..4).collect(alloc).ok()
}

// The elements of a boxed slice, each with its lowest bit turned, after one was set and all were
// sorted: all of them by one exclusive or, the last, and the second.
fn turned(mut list: BoxedSlice<u32>) -> (u32, Option<u32>, Option<u32>) {
    for x in &mut list {
        *x ^= 1;
    }
    if !list.is_empty() {
        list[0] = 9;
    }
    list.sort_unstable();
    let mut all = 0;
    for x in &list {
        all ^= *x;
    }
    (all, list.last().copied(), list.get(1).copied())
}

#[test]
fn a_boxed_slice_is_a_slice(rt: HostRuntime) {
    let Some(list) = boxed_numbers(rt.alloc()) else {
        assert!(rt; false);
        return;
    };
    assert!(rt; first_of(&list) == (Some(1), 3));
    assert!(rt; turned(list) == (8, Some(9), Some(3)));
}

// What a boxed slice's iterator by value shows after one call.
fn taken_apart(list: BoxedSlice<u32>) -> (Option<u32>, (Option<u32>, usize), bool) {
    let mut items = list.into_iter();
    let first = items.next();
    items.reverse();
    (first, first_of(&items), items.contains(&2))
}

#[test]
fn an_iterator_by_value_is_a_slice(rt: HostRuntime) {
    let Some(list) = boxed_numbers(rt.alloc()) else {
        assert!(rt; false);
        return;
    };
    assert!(rt; taken_apart(list) == (Some(1), (Some(3), 2), true));
}

fn collected(alloc: Global) -> Option<Vec<u32>> {
    let mut v: Vec<u32> = (1..3).collect(alloc).ok()?;
    Extend::extend(&mut v, 7..9).ok()?;
    Extend::extend(&mut v, &[5, 6]).ok()?;
    Some(v)
}

// The last element by `as_deref`, and what is left of a range, as a slice and by dot.
fn shown(v: &mut Vec<u32>) -> (Option<u32>, (Option<u32>, usize), Option<u32>) {
    v.reverse();
    let last = v.shown().last().copied();
    let range = v.drain(..v.len() / 2);
    (last, first_of(&range), range.get(2).copied())
}

#[test]
fn a_vector_and_a_range_are_slices(rt: HostRuntime) {
    let Some(mut v) = collected(rt.alloc()) else {
        assert!(rt; false);
        return;
    };
    assert!(rt; shown(&mut v) == (Some(1), (Some(6), 3), Some(8)));
    assert!(rt; v[..] == [7, 2, 1][..]);
}

fn boxed_text(alloc: Global) -> Result<BoxedText, TryReserveError> {
    BoxedText::from_text(alloc, "héllo")
}

fn length_by<S: AsStr>(s: &S) -> usize {
    s.as_str().len()
}

#[test]
fn a_boxed_text_is_a_str(rt: HostRuntime) -> Result<(), Fail> {
    let text = boxed_text(rt.alloc())?;
    assert!(rt; text.starts_with("hé") && text.chars().count() == 5 && text.shown().len() == 6);
    assert!(rt; length_by(&text) == 6);
    Ok(())
}

fn boxed_array(alloc: Global) -> Result<Box<[u32; 3]>, AllocError> {
    Box::new(alloc, [3, 1, 2])
}

fn sorted(mut b: Box<[u32; 3]>) -> (u32, u32) {
    b.sort_unstable();
    b.as_mut()[2] = 8;
    let mut all = 0;
    for x in b.iter() {
        all ^= *x;
    }
    (all, b.as_ref()[0])
}

#[test]
fn the_array_in_a_box_is_a_slice(rt: HostRuntime) -> Result<(), Fail> {
    let b = boxed_array(rt.alloc())?;
    assert!(rt; sorted(b) == (11, 1));
    Ok(())
}
