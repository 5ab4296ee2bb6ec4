//! Calls that clone the allocator: each fails, with the number if there is one.
use crate::changes::{Call, called};
use crate::copies::end_of_plain_clone;
use crate::seen::{End, has_items, numbers};
use allocator_api2::vec::Vec;
use std::alloc::Global;
use std::cell::Cell;
use test_allocators::Faulty;

// Numbers in full places, on an allocator whose clones fail.
fn uncloned(alloc: Global, items: &[u32]) -> Vec<u32, Faulty<Global>> {
    let v = numbers(Faulty::new(alloc), items, items.len());
    v.allocator().fail_clones(true);
    v
}

// How a call ends on the numbers 1 to 4 and on others, and whether these are left in so many
// places.
fn end_of_call(
    alloc: Global,
    call: Call,
    others: &[u32],
    left: &[u32],
    places: usize,
) -> (End, bool) {
    let mut v = uncloned(alloc, &[1, 2, 3, 4]);
    let other = uncloned(alloc, others);
    let end = called(
        call,
        &mut v,
        &mut None,
        other,
        Faulty::new(alloc),
        &Cell::new(0),
    );
    (end, has_items(&v, left, places))
}

// A failed clone ends a splice like the first growth.
#[test]
fn a_failed_clone_of_the_allocator_leaves_a_vector(rt: HostRuntime) {
    let (four, spliced) = ([1, 2, 3, 4].as_slice(), [1, 7, 8, 9, 4].as_slice());
    assert!(rt; end_of_plain_clone(&uncloned(rt.alloc(), four)) == End::NoMemory(4));
    for (call, others, number, left, places) in [
        (Call::Clone, [1, 2, 3].as_slice(), 3, four, 4),
        (Call::SliceClone, [1, 2, 3].as_slice(), 3, four, 4),
        (Call::ItemsClone, [2, 3].as_slice(), 2, four, 4),
        (Call::SplitOff(2), [].as_slice(), 2, four, 4),
        (
            Call::SpliceHinted(1, 3, Some(1)),
            [7, 8, 9, 10].as_slice(),
            4,
            spliced,
            8,
        ),
    ] {
        let came = end_of_call(rt.alloc(), call, others, left, places);
        assert!(rt; came == (End::NoMemory(number), true));
    }
}
