//! Each call that makes a vector, once on its happy path.
use crate::clones::{repeated, twin};
use crate::lists::{add, digits, list, made, places, reads};
use aa_raw::collections::TryReserveError;
use aa_raw::raw_vec::Growth;
use aa_vec::vec::{SliceIntoVec, Vec, cautious};
use std::alloc::Global;
use std::mem::size_of;

const _: () = prove!(size_of::<Vec<u64, Global>>() == 24);

// A call that makes a vector.
#[derive(Clone, Copy)]
enum Make {
    New,
    NewIn,
    NewGrowingIn,
    WithCapacity,
    WithCapacityIn,
    FromSlice,
    FromSliceIn,
    FromElem,
    FromElemIn,
    FromSliceCopied,
    FromSliceCopiedIn,
    FromIter,
    FromIterIn,
    FromIterInBy,
    FromArray,
    FromArrayIn,
    Clone,
    CloneCopied,
    SplitOff,
    Boxed,
    Flattened,
}

// Returns what the call makes, of a vector if it needs one.
fn made_by(call: Make, alloc: Global, v: Vec<u32>) -> Result<Vec<u32>, TryReserveError> {
    match call {
        Make::New => Ok(Vec::new(alloc)),
        Make::NewIn => Ok(Vec::new_in(alloc)),
        Make::NewGrowingIn => Ok(Vec::with_growth_in(Growth::Sparing, alloc)),
        Make::WithCapacity => Vec::with_capacity(alloc, 3),
        Make::WithCapacityIn => Vec::with_capacity_in(7, alloc),
        Make::FromSlice => Vec::from_slice(alloc, v.as_slice()),
        Make::FromSliceIn => Vec::from_slice_in(v.as_slice(), alloc),
        Make::FromElem => repeated(alloc, 5, v.len()),
        Make::FromElemIn => Vec::from_elem_in(5, v.len(), alloc),
        Make::FromSliceCopied => Vec::from_slice_copied(alloc, v.as_slice()),
        Make::FromSliceCopiedIn => Vec::from_slice_copied_in(v.as_slice(), alloc),
        Make::FromIter => Vec::from_iter(alloc, 1..6),
        Make::FromIterIn => Vec::from_iter_in(1..4, alloc),
        Make::FromIterInBy => Vec::from_iter_in_by(&mut (1..4), alloc),
        _ => made_of(call, alloc, v),
    }
}

// What it makes of a vector or an array.
fn made_of(call: Make, alloc: Global, v: Vec<u32>) -> Result<Vec<u32>, TryReserveError> {
    match call {
        Make::Clone => twin(&v),
        Make::CloneCopied => v.clone_copied(),
        Make::SplitOff => {
            let mut v = v;
            let at = v.len().min(1);
            v.split_off(at)
        }
        Make::Boxed => Ok(v.into_boxed_slice()?.into_vec()),
        Make::FromArray => Ok(Vec::from_array(alloc, [1, 2, 3])?),
        Make::FromArrayIn => Ok(Vec::from_array_in([1, 2, 3], alloc)?),
        _ => Ok(list(alloc, &[[1, 2], [3, 4]], 3).into_flattened()?),
    }
}

// A call, the digits of its vector, those of what it makes, and the capacity.
type Row = (Make, u32, u32, usize);

// Whether a row is as the vector has it.
fn is_so(alloc: Global, (call, items, left, capacity): Row) -> bool {
    made(
        made_by(call, alloc, digits(alloc, items, 4)),
        left,
        capacity,
    )
}

#[test]
fn vectors_are_made(rt: HostRuntime) {
    let rows: [Row; 21] = [
        (Make::New, 0, 0, 0),
        (Make::NewIn, 0, 0, 0),
        (Make::NewGrowingIn, 0, 0, 0),
        (Make::WithCapacity, 0, 0, 3),
        (Make::WithCapacityIn, 0, 0, 7),
        (Make::FromSlice, 78, 78, 2),
        (Make::FromSliceIn, 78, 78, 2),
        (Make::FromElem, 123, 555, 3),
        (Make::FromElemIn, 0, 0, 0),
        (Make::FromSliceCopied, 78, 78, 2),
        (Make::FromSliceCopiedIn, 78, 78, 2),
        (Make::FromIter, 0, 12345, 5),
        (Make::FromIterIn, 0, 123, 4),
        (Make::FromIterInBy, 0, 123, 4),
        (Make::FromArray, 0, 123, 3),
        (Make::FromArrayIn, 0, 123, 3),
        (Make::Clone, 123, 123, 3),
        (Make::CloneCopied, 123, 123, 3),
        (Make::SplitOff, 123, 23, 2),
        (Make::Boxed, 123, 123, 3),
        (Make::Flattened, 0, 1234, 6),
    ];
    for row in rows {
        assert!(rt; is_so(rt.alloc(), row), "{} in {}", row.2, row.3);
    }
    assert!(rt; cautious(Some(5000)) == 4096 && cautious(None) == 0);
}

// The length and the capacity of the elements of three empty arrays.
fn flattened(alloc: Global) -> Option<(usize, usize)> {
    let arrays: Vec<[u32; 0]> = list(alloc, &[[], [], []], 3);
    match arrays.into_flattened() {
        Ok(v) => Some((v.len(), v.capacity())),
        Err(_) => None,
    }
}

#[test]
fn empty_arrays_are_flattened(rt: HostRuntime) {
    assert!(rt; flattened(rt.alloc()) == Some((0, 0)));
}

// A vector of another length is returned.
#[test]
fn a_vector_becomes_an_array(rt: HostRuntime) {
    let Err(back) = <[u32; 2]>::try_from(digits(rt.alloc(), 123, 3)) else {
        return assert!(rt; false);
    };
    assert!(rt; reads(&back, 123, 3));
    match <[u32; 3]>::try_from(back) {
        Ok(array) => assert!(rt; array == [1, 2, 3]),
        Err(_) => assert!(rt; false),
    }
}

// The vectors of 1 and 2, and of 3.
fn rows_of(alloc: Global) -> Vec<Vec<u32>> {
    let mut rows = places(alloc, 2);
    add(&mut rows, digits(alloc, 12, 2));
    add(&mut rows, digits(alloc, 3, 1));
    rows
}

// Whether its clone is equal to it, whose elements are cloned by the trait.
fn is_cloned(alloc: Global) -> bool {
    let rows = rows_of(alloc);
    match twin(&rows) {
        Ok(copy) => copy == rows,
        Err(_) => false,
    }
}

#[test]
fn a_vector_of_vectors_is_cloned(rt: HostRuntime) {
    assert!(rt; is_cloned(rt.alloc()));
}
