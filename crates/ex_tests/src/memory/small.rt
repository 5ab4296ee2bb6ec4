//! The smaller collections, and the guide's stack.
use ex_small::arena::Arena;
use ex_small::editor::Editor;
use ex_small::fixed::Fixed;
use ex_small::text::TextBuilder;
use guide::stack::Stack;
use std::alloc::Global;
use std::cell::Cell;
use test_allocators::Faulty;
use test_allocators::counted::Counted;
use test_allocators::ends::{End, end_by, end_of, is_all_freed};

type Values<'a> = Arena<Counted<'a>, &'a Faulty<Global>>;

type Few<'a> = Fixed<Counted<'a>, &'a Faulty<Global>>;

type Pile<'a> = Stack<Counted<'a>, &'a Faulty<Global>>;

fn one<'a>(drops: &'a Cell<u32>) -> Counted<'a> {
    Counted { value: 0, drops }
}

// Puts four values into an arena and replaces the last, and returns how this ends. Each but the
// first finds the capacity that there is then.
fn four_put<'a>(arena: &mut Values<'a>, drops: &'a Cell<u32>) -> End {
    for _ in 0..4 {
        match arena.alloc(one(drops)) {
            Ok(id) => drop(arena.replace(id, one(drops))),
            Err(refused) => return end_by(refused.error),
        }
    }
    End::Done
}

// Whether each call makes its requests and has its kind of error.
fn arena_is_so<'a>(heap: &'a Faulty<Global>, drops: &'a Cell<u32>) -> bool {
    let mut arena: Values<'a> = Arena::new_in(heap);
    let mut all = heap.requests() == 0;
    for (failed, end, requests, dropped) in [
        (1, End::NoMemory(4), 1, 1),
        (0, End::Done, 2, 5),
        (1, End::NoMemory(8), 3, 6),
    ] {
        heap.fail_requests(0, failed);
        all = four_put(&mut arena, drops) == end && all;
        all = (heap.requests(), drops.get()) == (requests, dropped) && all;
    }
    for (additional, end, requests) in [
        (0, End::Done, 3),
        (5, End::NoMemory(9), 4),
        (1 << 60, End::TooLong, 4),
        (usize::MAX, End::TooLong, 4),
    ] {
        heap.fail_requests(0, 1);
        all = end_of(arena.reserve(additional)) == end && heap.requests() == requests && all;
    }
    all
}

#[test]
fn values_of_an_arena_are_dropped_once(rt: HostRuntime) {
    let heap = Faulty::new(rt.alloc());
    let drops = Cell::new(0);
    assert!(rt; arena_is_so(&heap, &drops) && drops.get() == 10 && is_all_freed(&heap));
}

// Returns how many values are dropped once a third one is returned, and another is taken out.
fn two_kept<'a>(few: &mut Few<'a>, drops: &'a Cell<u32>) -> u32 {
    for _ in 0..3 {
        drop(few.push(one(drops)));
    }
    drop(few.pop());
    drops.get()
}

// That of one with two places, or how it fails to make one with so many.
fn fixed<'a>(heap: &'a Faulty<Global>, capacity: usize, drops: &'a Cell<u32>) -> Result<u32, End> {
    match Fixed::with_capacity_in(capacity, heap) {
        Ok(few) => {
            let mut few: Few<'a> = few;
            Ok(two_kept(&mut few, drops))
        }
        Err(error) => Err(end_by(error)),
    }
}

#[test]
fn values_of_a_fixed_vector_are_dropped_once(rt: HostRuntime) {
    let heap = Faulty::new(rt.alloc());
    let drops = Cell::new(0);
    for (capacity, failed, came, requests) in [
        (2, 1, Err(End::NoMemory(2)), 1),
        (1 << 60, 0, Err(End::TooLong), 1),
        (2, 0, Ok(2), 2),
    ] {
        heap.fail_requests(0, failed);
        assert!(rt; fixed(&heap, capacity, &drops) == came && heap.requests() == requests);
    }
    assert!(rt; drops.get() == 3 && is_all_freed(&heap));
}

fn pushed<'a>(pile: &mut Pile<'a>, drops: &'a Cell<u32>) -> End {
    match pile.push(one(drops)) {
        Ok(()) => End::Done,
        Err(refused) => end_by(refused.error),
    }
}

// How many values of four are dropped once the first and the last were taken, before the others.
fn stack_used<'a>(heap: &'a Faulty<Global>, drops: &'a Cell<u32>) -> (End, u32) {
    let mut pile: Pile<'a> = Stack::new_in(heap);
    heap.fail_requests(0, 1);
    let end = pushed(&mut pile, drops);
    for _ in 0..4 {
        let _end = pushed(&mut pile, drops);
    }
    drop(pile.pop());
    drop(pile.pop_first());
    (end, drops.get())
}

#[test]
fn values_of_a_stack_are_dropped_once(rt: HostRuntime) {
    let heap = Faulty::new(rt.alloc());
    let drops = Cell::new(0);
    assert!(rt; stack_used(&heap, &drops) == (End::NoMemory(4), 3) && heap.requests() == 2);
    assert!(rt; drops.get() == 5 && is_all_freed(&heap));
}

// A call on a text that is built, or on a line that is typed.
#[derive(Clone, Copy)]
enum Call {
    PushStr,
    PushNumber,
    ReserveText(usize),
    TypeIn,
    ReserveLine(usize),
}

type Words<'a> = TextBuilder<&'a Faulty<Global>>;

type Line<'a> = Editor<&'a Faulty<Global>>;

fn end_of_call(call: Call, text: &mut Words<'_>, line: &mut Line<'_>) -> End {
    end_of(match call {
        Call::PushStr => text.push_str("abcd"),
        Call::PushNumber => text.push_u64(1024),
        Call::ReserveText(additional) => text.reserve(additional),
        Call::TypeIn => line.type_in(b"abcd"),
        Call::ReserveLine(additional) => line.reserve(additional),
    })
}

// A call one after another: whether its first request fails, how it ends, and how many
// requests it makes.
fn rows() -> [(Call, u64, End, u64); 16] {
    let (done, long) = (End::Done, End::TooLong);
    [
        (Call::PushStr, 1, End::NoMemory(8), 1),
        (Call::PushStr, 0, done, 1),
        (Call::PushStr, 1, done, 0),
        (Call::PushStr, 1, End::NoMemory(16), 1),
        (Call::PushStr, 0, done, 1),
        // The digits have a block of their own first.
        (Call::PushNumber, 1, End::NoMemory(20), 1),
        (Call::PushNumber, 0, done, 1),
        (Call::ReserveText(0), 1, done, 0),
        (Call::ReserveText(1), 1, End::NoMemory(32), 1),
        (Call::ReserveText(usize::MAX), 1, long, 0),
        (Call::TypeIn, 1, End::NoMemory(8), 1),
        (Call::TypeIn, 0, done, 1),
        (Call::TypeIn, 1, done, 0),
        (Call::ReserveLine(0), 1, done, 0),
        (Call::ReserveLine(1), 1, End::NoMemory(16), 1),
        (Call::ReserveLine(usize::MAX), 1, long, 0),
    ]
}

// Returns how many rows hold, and how it ends to finish the text when its block fails.
fn built(heap: &Faulty<Global>) -> (usize, End) {
    let (mut text, mut line) = (TextBuilder::new_in(heap), Editor::new_in(heap));
    let mut right = 0usize;
    for (call, refused, end, requests) in rows() {
        heap.fail_requests(0, refused);
        let before = heap.requests();
        let came = end_of_call(call, &mut text, &mut line);
        if came == end && heap.requests().wrapping_sub(before) == requests {
            right = right.saturating_add(1);
        }
    }
    heap.fail_requests(0, 1);
    match text.finish() {
        Ok(_) => (right, End::Done),
        Err(refused) => (right, end_by(refused.error)),
    }
}

#[test]
fn texts_and_lines_allocate_as_they_grow(rt: HostRuntime) {
    let heap = Faulty::new(rt.alloc());
    assert!(rt; built(&heap) == (16, End::NoMemory(16)) && is_all_freed(&heap));
}
