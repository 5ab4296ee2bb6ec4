//! Arrays that become boxed slices, and boxed slices that become boxes of arrays.
use crate::boxed::has;
use aa_boxed::boxed::{Box, BoxedSlice};
use std::alloc::Global;
use std::cell::Cell;
use test_allocators::counted::Counted;

// Makes a slice of an array, a boxed array of that, a slice again, and one of its block.
fn there_and_back<T: Drop>(alloc: Global, array: [T; 2]) -> Option<BoxedSlice<T>> {
    let Ok(list) = BoxedSlice::from_array(alloc, array) else {
        return None;
    };
    let Ok(array) = list.try_into_array::<2>() else {
        return None;
    };
    let Ok(list) = Box::slice(array) else {
        return None;
    };
    let (block, len) = list.into_block();
    Some(BoxedSlice::from_block(block, len))
}

fn is_one_two(list: Option<BoxedSlice<u32>>) -> bool {
    match list {
        Some(list) => has(&list, &[1, 2]),
        None => false,
    }
}

#[test]
fn an_array_becomes_a_slice_and_comes_back(rt: HostRuntime) {
    assert!(rt; is_one_two(there_and_back(rt.alloc(), [1, 2])));
}

// Whether there is a slice, and how many elements are dropped before it is.
fn made_and_dropped<T: Drop>(list: Option<BoxedSlice<T>>, drops: &Cell<u32>) -> (bool, u32) {
    (list.is_some(), drops.get())
}

#[test]
fn each_element_of_an_array_is_dropped_once(rt: HostRuntime) {
    let count = Cell::new(0);
    let drops = &count;
    let two = [Counted { value: 1, drops }, Counted { value: 2, drops }];
    let (made, dropped) = made_and_dropped(there_and_back(rt.alloc(), two), drops);
    assert!(rt; made && dropped == 0 && drops.get() == 2);
}

// The slice that does not become an array of one.
fn returned(alloc: Global, array: [u32; 2]) -> Option<BoxedSlice<u32>> {
    match BoxedSlice::from_array_in(array, alloc) {
        Ok(list) => list.try_into_array::<1>().err(),
        Err(_) => None,
    }
}

#[test]
fn a_slice_of_another_length_is_returned(rt: HostRuntime) {
    assert!(rt; is_one_two(returned(rt.alloc(), [1, 2])));
}
