//! Each request for memory fails in turn.
use crate::gap::texts::{add, edited_twice, nine_put, put, reads};
use crate::raw::outcome_of;
use aa_gap::gap_buffer::{Edit, GapBuffer};
use aa_raw::collections::{TryReserveError, TryReserveErrorKind};
use std::alloc::Global;
use test_allocators::Faulty;

type Text<'a> = GapBuffer<u32, &'a Faulty<Global>>;

// Returns the value in the error of a failed insert, and the kind of the error.
fn returned(text: &mut Text<'_>, x: u32) -> Option<(u32, TryReserveErrorKind)> {
    match text.insert(x) {
        Ok(()) => None,
        Err(refused) => Some((refused.source, refused.error.kind())),
    }
}

fn has_room(text: &mut Text<'_>, count: usize) -> bool {
    text.reserve(count).is_ok()
}

// Returns the capacity of a new text with capacity for so many numbers.
fn made(heap: &Faulty<Global>, capacity: usize) -> Result<usize, TryReserveError> {
    let text: Text<'_> = GapBuffer::with_capacity_in(capacity, heap)?;
    Ok(text.capacity())
}

#[test]
fn a_failed_insert_or_reserve_leaves_the_text(rt: HostRuntime) {
    let heap = Faulty::new(rt.alloc());
    let mut text = nine_put(&heap);
    heap.fail_requests(0, 2);
    let failed = TryReserveErrorKind::AllocError { capacity: 8 };
    assert!(rt; returned(&mut text, 8) == Some((8, failed)));
    for (granted, capacity) in [(false, 4), (true, 8)] {
        assert!(rt; has_room(&mut text, 1) == granted);
        assert!(rt; reads(&text, 19, 23, capacity));
    }
    drop(text);
    assert!(rt; heap.outstanding() == 0);
}

#[test]
fn a_block_has_its_places_or_its_number(rt: HostRuntime) {
    let heap = Faulty::new(rt.alloc());
    for (count, capacity, granted) in [(0, 3, true), (1, 5, false)] {
        heap.fail_requests(0, count);
        assert!(rt; outcome_of(made(&heap, capacity)) == (granted, capacity));
    }
}

// Twenty numbers, each put at the start.
fn twenty_inserts(alloc: Global) -> Vec<Edit<u32>> {
    let mut edits: Vec<Edit<u32>> = Vec::new(alloc);
    for x in 0..20u32 {
        add(&mut edits, Edit::Insert(x));
        add(&mut edits, Edit::MoveTo(0));
    }
    edits
}

// Returns the number of edits after a failed one, whether they succeed, and the length then.
fn edited<'a>(heap: &'a Faulty<Global>, edits: Vec<Edit<u32>>) -> (Option<usize>, bool, usize) {
    let mut text: Text<'a> = GapBuffer::new_in(heap);
    let (left, well) = edited_twice(&mut text, edits);
    (left, well, text.len())
}

#[test]
fn edits_continue_after_a_failed_one(rt: HostRuntime) {
    let heap = Faulty::new(rt.alloc());
    // Blocks for 4, 8, 16 and 32 numbers: the edits that are left of 40.
    for (request, left) in [(0, 39), (1, 31), (2, 23), (3, 7)] {
        heap.fail_requests(request, 1);
        let left_over = edited(&heap, twenty_inserts(rt.alloc()));
        assert!(rt; left_over == (Some(left), true, 19), "request {request}");
    }
    assert!(rt; heap.failures() == 4 && heap.outstanding() == 0);
}

#[test]
fn zsts_do_not_allocate(rt: HostRuntime) {
    let heap = Faulty::new(rt.alloc());
    let mut text: GapBuffer<(), &Faulty<Global>> = GapBuffer::new_in(&heap);
    assert!(rt; text.reserve(1_000_000).is_ok() && put(&mut text, ()));
    assert!(rt; (text.len(), heap.requests()) == (1, 0));
}
