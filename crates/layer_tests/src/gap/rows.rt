//! Worked examples, and each call once.
use crate::gap::texts::{add, edited_twice, nine_put, put, reads};
use crate::memory::has_due_requests;
use crate::printed::are_printed;
use aa_gap::gap_buffer::{Edit, GapBuffer};
use aa_raw::raw_vec::Growth;
use std::alloc::{Allocator, Global};
use std::test::Fail;
use test_allocators::Faulty;

// A call on a text, with its arguments.
#[derive(Clone, Copy)]
enum Call {
    Insert(u32),
    InsertWithin(u32),
    DeleteForward,
    DeleteBack,
    Reserve(usize),
    Clear,
}

// Returns the outcome of a call, or the value in its error, or 0 if it fails without one.
fn called<A: Allocator>(call: Call, text: &mut GapBuffer<u32, A>) -> Option<u32> {
    let granted = match call {
        Call::Insert(x) => put(text, x),
        Call::Reserve(count) => text.reserve(count).is_ok(),
        Call::InsertWithin(x) => return text.insert_within(x).err(),
        Call::DeleteForward => return text.delete_forward(),
        Call::DeleteBack => return text.delete_back(),
        Call::Clear => {
            text.clear();
            true
        }
    };
    if granted { None } else { Some(0) }
}

// Two calls on `[1,9|2,3]`, the outcome of the second, and the digits and the capacity that they
// leave.
type Row = (Call, Call, Option<u32>, u32, u32, usize);

fn rows() -> [Row; 8] {
    let (insert, within) = (Call::Insert(8), Call::InsertWithin(8));
    let forward = Call::DeleteForward;
    [
        (Call::Reserve(0), within, Some(8), 19, 23, 4),
        (within, insert, None, 198, 23, 8),
        (insert, forward, Some(2), 198, 3, 8),
        (insert, Call::DeleteBack, Some(8), 19, 23, 8),
        (Call::Reserve(0), Call::Reserve(4), None, 19, 23, 8),
        (Call::Reserve(4), Call::Reserve(5), None, 19, 23, 16),
        (Call::Clear, forward, None, 0, 0, 4),
        (Call::Clear, within, None, 8, 0, 4),
    ]
}

// Whether a row is as the text has it, and the second call makes one request if it needs a new
// block, and else none.
fn is_so(heap: &Faulty<Global>, (first, second, outcome, before, after, capacity): Row) -> bool {
    let mut text = nine_put(heap);
    let started = reads(&text, 19, 23, 4) && called(first, &mut text) != Some(0);
    let (places, requests) = (text.capacity(), heap.requests());
    let came = called(second, &mut text);
    let due = has_due_requests(heap, requests, places, text.capacity());
    started && due && came == outcome && reads(&text, before, after, capacity)
}

#[test]
fn elements_are_put_and_taken_at_the_cursor(rt: HostRuntime) {
    let heap = Faulty::new(rt.alloc());
    for row in rows() {
        assert!(rt; is_so(&heap, row), "{} | {}", row.3, row.4);
    }
    assert!(rt; heap.outstanding() == 0);
}

#[test]
fn the_whole_text_is_read(rt: HostRuntime) -> Result<(), Fail> {
    let heap = Faulty::new(rt.alloc());
    let text = nine_put(&heap);
    for (index, x) in [(1, Some(&9)), (2, Some(&2)), (4, None)] {
        assert!(rt; text.get(index) == x);
    }
    assert!(rt; text.iter().eq([1u32, 9, 2, 3].iter()));
    assert!(rt; are_printed(rt.alloc(), &"is", &text, "is [1, 9, 2, 3]")?);
    assert!(rt; heap.requests() == 1);
    Ok(())
}

#[test]
#[tactic(auto, using(aa_raw::proofs::Beyond::emptied))]
fn a_text_is_taken_apart(rt: HostRuntime) {
    let mut text: GapBuffer<u32> = GapBuffer::new_in(rt.alloc());
    assert!(rt; text.insert(5).is_ok());
    let (mut block, before, after) = text.into_parts();
    assert!(rt; (before, after) == (1, 0));
    assert!(rt; block.take(0) == 5);
    block.forget_from(0);
}

#[test]
fn capacity_is_as_requested(rt: HostRuntime) {
    let text: GapBuffer<u32> = GapBuffer::new_in(rt.alloc());
    assert!(rt; text.growth() == Growth::Doubling);
    let _alloc: &Global = text.allocator();
    let mut sparing: GapBuffer<u8> = GapBuffer::with_growth_in(Growth::Sparing, rt.alloc());
    for (count, capacity) in [(8, 8), (9, 12)] {
        assert!(rt; sparing.reserve(count).is_ok() && sparing.capacity() == capacity);
    }
}

#[test]
fn edits_come_from_an_iterator(rt: HostRuntime) {
    let mut edits = Vec::new(rt.alloc());
    for x in 1..3 {
        add(&mut edits, Edit::Insert(x));
    }
    add(&mut edits, Edit::MoveTo(1));
    add(&mut edits, Edit::Insert(9));
    add(&mut edits, Edit::DeleteForward);
    add(&mut edits, Edit::DeleteBack);
    add(&mut edits, Edit::MoveTo(9));
    let mut text: GapBuffer<u32> = GapBuffer::new_in(rt.alloc());
    assert!(rt; edited_twice(&mut text, edits) == (None, true));
    assert!(rt; reads(&text, 1, 0, 4));
}

// So many inserts of a number, so many deletions before the cursor, a move to the start, and so
// many inserts there.
fn script(alloc: Global, [first, deleted, second]: [u32; 3]) -> Vec<Edit<u32>> {
    let mut edits: Vec<Edit<u32>> = Vec::new(alloc);
    for x in 0..first {
        add(&mut edits, Edit::Insert(x));
    }
    for _ in 0..deleted {
        add(&mut edits, Edit::DeleteBack);
    }
    add(&mut edits, Edit::MoveTo(0));
    for x in 0..second {
        add(&mut edits, Edit::Insert(x));
    }
    edits
}

// The capacity of a text of numbers after a script.
fn grown(alloc: Global, growth: Growth, counts: [u32; 3]) -> Option<usize> {
    let mut text: GapBuffer<u32> = GapBuffer::with_growth_in(growth, alloc);
    match edited_twice(&mut text, script(alloc, counts)) {
        (None, true) => Some(text.capacity()),
        _ => None,
    }
}

// With doubling and with sparing growth: 4, 8 and 16 places, or 4, 6, 9 and 14. A deletion frees
// none, and an insert into a free place does not allocate.
fn capacities() -> [(u32, u32, u32, usize, usize); 6] {
    [
        (0, 3, 0, 0, 0),
        (4, 0, 0, 4, 4),
        (5, 0, 0, 8, 6),
        (5, 5, 6, 8, 6),
        (8, 4, 5, 16, 9),
        (8, 4, 6, 16, 14),
    ]
}

#[test]
fn a_text_grows_where_an_insert_finds_no_place(rt: HostRuntime) {
    for (first, deleted, second, doubling, sparing) in capacities() {
        let counts = [first, deleted, second];
        let doubled = grown(rt.alloc(), Growth::Doubling, counts);
        let spared = grown(rt.alloc(), Growth::Sparing, counts);
        assert!(rt;
            (doubled, spared) == (Some(doubling), Some(sparing)),
            "{first}"
        );
    }
}

#[test]
fn seventeen_inserts_make_four_requests(rt: HostRuntime) {
    let heap = Faulty::new(rt.alloc());
    let mut text: GapBuffer<u32, _> = GapBuffer::new_in(&heap);
    for x in 0..17u32 {
        assert!(rt; put(&mut text, x));
    }
    assert!(rt; text.capacity() == 32 && heap.requests() == 4);
}
