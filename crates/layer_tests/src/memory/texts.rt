//! The gap buffer.
use crate::gap::texts::put;
use crate::memory::is_all_freed;
use aa_gap::gap_buffer::GapBuffer;
use aa_raw::raw_vec::Growth;
use std::alloc::Global;
use std::cell::Cell;
use test_allocators::Faulty;
use test_allocators::counted::Counted;

type Text<'a> = GapBuffer<Counted<'a>, &'a Faulty<Global>>;

// A call on a text, or what becomes of it.
#[derive(Clone, Copy)]
enum Call {
    DeleteBack,
    DeleteForward,
    MoveTo(usize),
    Reserve(usize),
    Clear,
    Drop,
    // With an element taken from each end.
    IntoIter,
}

fn called(call: Call, text: &mut Text<'_>) {
    match call {
        Call::DeleteBack => drop(text.delete_back()),
        Call::DeleteForward => drop(text.delete_forward()),
        Call::MoveTo(position) => text.move_to(position.min(text.len())),
        Call::Reserve(count) => {
            let _made = text.reserve(count);
        }
        Call::Clear => text.clear(),
        Call::Drop | Call::IntoIter => {}
    }
}

// Three elements in four places, the cursor after the first.
fn three<'a>(heap: &'a Faulty<Global>, drops: &'a Cell<u32>) -> Text<'a> {
    let mut text = GapBuffer::new_in(heap);
    for value in 0..3 {
        let _put = put(&mut text, Counted { value, drops });
    }
    text.move_to(text.len().min(1));
    text
}

// Takes the first and the last element of a text, and drops the others.
fn take_ends(text: Text<'_>) {
    let mut items = text.into_iter();
    drop(items.next());
    drop(items.next_back());
}

// How many requests a call makes, and how many elements it drops.
fn seen(call: Call, text: Text<'_>, heap: &Faulty<Global>, drops: &Cell<u32>) -> (u64, u32) {
    let mut text = text;
    let before = heap.requests();
    match call {
        Call::Drop => drop(text),
        Call::IntoIter => take_ends(text),
        _ => called(call, &mut text),
    }
    (heap.requests().saturating_sub(before), drops.get())
}

// Returns whether a call makes so many requests and drops so many elements, each is dropped once
// then, and all memory is freed.
fn is_so(alloc: Global, (call, requests, dropped): (Call, u64, u32)) -> bool {
    let heap = Faulty::new(alloc);
    let drops = Cell::new(0);
    let came = seen(call, three(&heap, &drops), &heap, &drops);
    came == (requests, dropped) && drops.get() == 3 && is_all_freed(&heap)
}

#[test]
fn elements_of_a_text_are_dropped_once(rt: HostRuntime) {
    for row in [
        (Call::DeleteBack, 0, 1),
        (Call::DeleteForward, 0, 1),
        (Call::MoveTo(3), 0, 0),
        (Call::Reserve(1), 0, 0),
        (Call::Reserve(2), 1, 0),
        (Call::Clear, 0, 3),
        (Call::Drop, 0, 3),
        (Call::IntoIter, 0, 3),
    ] {
        assert!(rt; is_so(rt.alloc(), row), "{} of {}", row.2, row.1);
    }
}

// How many places an empty text has whose growth is so.
fn room_of_new(heap: &Faulty<Global>, growth: Option<Growth>) -> usize {
    let text: GapBuffer<u32, &Faulty<Global>> = match growth {
        None => GapBuffer::new_in(heap),
        Some(growth) => GapBuffer::with_growth_in(growth, heap),
    };
    text.capacity()
}

#[test]
fn an_empty_text_does_not_allocate(rt: HostRuntime) {
    let heap = Faulty::new(rt.alloc());
    for growth in [None, Some(Growth::Sparing)] {
        assert!(rt; room_of_new(&heap, growth) == 0 && heap.requests() == 0);
    }
}
