//! What no clause says: sizes, that calls succeed, and each public call once.
use crate::boxed::boxed;
use aa_boxed::boxed::{Box, UninitBox};
use std::alloc::{AllocError, Global};
use std::cell::Cell;
use std::mem::size_of;
use test_allocators::counted::Counted;
use test_allocators::failing::Failing;

const _: () = prove!(size_of::<Box<u64, Global>>() == 8);

// Each way to allocate memory for a number.
fn room(alloc: Global, way: u32) -> Result<UninitBox<u32>, AllocError> {
    match way {
        0 => Box::new_uninit(alloc),
        1 => Box::new_uninit_in(alloc),
        2 => Box::try_new_uninit(alloc),
        _ => Box::try_new_uninit_in(alloc),
    }
}

// Each way to make a box of a number.
fn made(alloc: Global, x: u32, way: u32) -> Result<Box<u32>, AllocError> {
    match way {
        0..=3 => Ok(UninitBox::write(room(alloc, way)?, x)),
        4 => Box::new(alloc, x),
        5 => Box::try_new(alloc, x),
        6 => Box::new_in(x, alloc),
        7 => Box::try_new_in(x, alloc),
        _ => Box::try_default(alloc),
    }
}

// The number in a box made so, and two more.
fn two_more(alloc: Global, way: u32) -> Option<u32> {
    let Ok(mut b) = made(alloc, 5, way) else {
        return None;
    };
    let _alloc: &Global = Box::allocator(&b);
    *b = b.wrapping_add(2);
    Some(Box::into_inner(b))
}

#[test]
fn boxes_are_made(rt: HostRuntime) {
    for way in 0..9 {
        assert!(rt; two_more(rt.alloc(), way) == Some(if way < 8 { 7 } else { 2 }));
    }
}

#[test]
fn an_unwritten_box_frees_its_memory(rt: HostRuntime) {
    for way in 0..4 {
        assert!(rt; room(rt.alloc(), way).is_ok());
    }
}

// How a box ends.
#[derive(Clone, Copy)]
enum End {
    Dropped,
    TakenOut,
    MadeASlice,
}

// Ends a box, and drops what comes of it.
fn ended<T: Drop>(b: Box<T>, end: End) {
    match end {
        End::Dropped => drop(b),
        End::TakenOut => drop(Box::into_inner(b)),
        End::MadeASlice => drop(Box::into_boxed_slice(b)),
    }
}

// How many values were dropped once there was a box, once it had another value, and at its end.
fn dropped(alloc: Global, drops: &Cell<u32>, end: End) -> Option<[u32; 3]> {
    let Ok(mut b) = boxed(alloc, Counted { value: 1, drops }) else {
        return None;
    };
    let made = drops.get();
    *b = Counted { value: 2, drops };
    let written = drops.get();
    ended(b, end);
    Some([made, written, drops.get()])
}

#[test]
fn each_value_is_dropped_once(rt: HostRuntime) {
    for end in [End::Dropped, End::TakenOut, End::MadeASlice] {
        let drops = Cell::new(0);
        assert!(rt; dropped(rt.alloc(), &drops, end) == Some([0, 1, 2]));
    }
}

// Whether the error is printed so if the allocation of a box fails.
fn error_is_printed(alloc: Global, text: &str) -> Result<bool, AllocError> {
    match Box::try_new_in(5u32, Failing) {
        Ok(_) => Ok(false),
        Err(error) => Ok(error.to_string(alloc)?.as_str() == text),
    }
}

#[test]
fn a_failed_allocation_is_printed(rt: HostRuntime) {
    assert!(rt;
        matches!(
            error_is_printed(rt.alloc(), "memory allocation failed"),
            Ok(true)
        )
    );
}
