//! The smaller collections, and records.
use allocator_api2::vec::Vec;
use ex_small::arena::Arena;
use ex_small::editor::Editor;
use ex_small::fixed::Fixed;
use ex_small::records::{decode, encode, push_record};
use ex_small::text::TextBuilder;
use std::alloc::Global;
use test_allocators::Faulty;

type Numbers<'a> = Arena<u64, &'a Faulty<Global>>;

// Returns the value in the error, if the call fails.
fn returned(arena: &mut Numbers<'_>, value: u64) -> Option<u64> {
    match arena.alloc(value) {
        Ok(_) => None,
        Err(back) => Some(back.source),
    }
}

// Returns whether there is capacity for so many then.
fn makes_room(arena: &mut Numbers<'_>, additional: usize) -> bool {
    arena.reserve(additional).is_ok()
}

// Whether two values are found, and written, by their handles.
fn is_found(arena: &mut Numbers<'_>) -> bool {
    let Ok(one) = arena.alloc(10) else {
        return false;
    };
    let Ok(two) = arena.alloc(20) else {
        return false;
    };
    *arena.get_mut(one) = 11;
    let old = arena.replace(two, 21);
    old == 20 && *arena.get(one) == 11 && arena.try_get(two).copied() == Some(21)
}

// Returns whether two more values are put, and a third is returned.
fn is_full(arena: &mut Numbers<'_>) -> bool {
    let mut all = true;
    for back in [None, None, Some(7)] {
        all = returned(arena, 7) == back && all;
    }
    all && arena.len() == 4
}

// Capacity that was reserved is there though all requests fail, and no more than that.
#[test]
fn values_are_found_by_their_handles(rt: HostRuntime) {
    let heap = Faulty::new(rt.alloc());
    let mut arena: Numbers<'_> = Arena::new_in(&heap);
    heap.fail_requests(0, 2);
    assert!(rt; returned(&mut arena, 7) == Some(7));
    for made in [false, true] {
        assert!(rt; makes_room(&mut arena, 4) == made);
    }
    heap.fail_requests(0, u64::MAX);
    assert!(rt; is_found(&mut arena) && is_full(&mut arena));
}

// Whether these bytes are so many records, as those are.
fn decodes(books: Global, bytes: &[u8], records: &[&[u8]]) -> bool {
    match decode(bytes, books) {
        Ok(Some(back)) => back.as_slice() == records,
        _ => false,
    }
}

// Whether these bytes are no records.
fn is_error(books: Global, bytes: &[u8]) -> bool {
    match decode(bytes, books) {
        Ok(None) => true,
        _ => false,
    }
}

// Returns whether records are so many bytes, are decoded from them, and not from all but the first.
fn come_back(books: Global, records: &[&[u8]], len: usize) -> bool {
    match encode(records, books) {
        Ok(bytes) if bytes.as_slice().len() == len && 0 < len => {
            is_error(books, &bytes.as_slice()[1..]) && decodes(books, bytes.as_slice(), records)
        }
        _ => false,
    }
}

#[test]
fn records_come_back(rt: HostRuntime) {
    let records: [&[u8]; 3] = [b"one", b"", b"three"];
    assert!(rt; come_back(rt.alloc(), &records, 32));
}

fn is_pushed(log: &mut Vec<u8, &Faulty<Global>>, entry: &[u8]) -> bool {
    push_record(log, entry).is_ok()
}

#[test]
fn a_record_is_pushed(rt: HostRuntime) {
    let heap = Faulty::new(rt.alloc());
    let mut log = Vec::new_in(&heap);
    heap.fail_requests(0, 1);
    for pushed in [false, true] {
        assert!(rt; is_pushed(&mut log, b"ab") == pushed);
    }
    assert!(rt; log.as_slice() == b"\x02\0\0\0\0\0\0\0ab".as_slice());
}

type Words<'a> = TextBuilder<&'a Faulty<Global>>;

fn is_put(text: &mut Words<'_>, part: &str) -> bool {
    text.push_str(part).is_ok()
}

fn is_put_as_digits(text: &mut Words<'_>, number: u64) -> bool {
    text.push_u64(number).is_ok()
}

fn gets_room(text: &mut Words<'_>, additional: usize) -> bool {
    text.reserve(additional).is_ok()
}

// Returns whether a text is built while some requests fail.
fn is_built(heap: &Faulty<Global>, text: &mut Words<'_>) -> bool {
    heap.fail_requests(0, 2);
    let mut all = !is_put(text, "n = ");
    for made in [false, true] {
        all = gets_room(text, 8) == made && all;
    }
    heap.fail_requests(0, 2);
    all = is_put(text, "n = ") && all;
    for put in [false, false, true] {
        all = is_put_as_digits(text, 1024) == put && all;
    }
    all && text.as_str() == "n = 1024"
}

// Whether it is this text at last.
fn is_finished(text: Words<'_>, all: &str) -> bool {
    match text.finish() {
        Ok(done) => done.as_str() == all,
        Err(_) => false,
    }
}

#[test]
fn a_text_is_built(rt: HostRuntime) {
    let heap = Faulty::new(rt.alloc());
    let mut text: Words<'_> = TextBuilder::new_in(&heap);
    let built = is_built(&heap, &mut text);
    assert!(rt; is_finished(text, "n = 1024") && built);
}

type Line<'a> = Editor<&'a Faulty<Global>>;

fn is_typed(line: &mut Line<'_>, bytes: &[u8]) -> bool {
    line.type_in(bytes).is_ok()
}

fn is_widened(line: &mut Line<'_>, additional: usize) -> bool {
    line.reserve(additional).is_ok()
}

fn moves_to(line: &mut Line<'_>, position: usize) {
    line.go_to(position);
}

// Returns whether these bytes are on either side of the cursor.
fn shows(line: &Line<'_>, before: &[u8], after: &[u8]) -> bool {
    line.before() == before && line.after() == after
}

// Returns whether a word is typed into a line once there is capacity.
fn is_typed_within(heap: &Faulty<Global>, line: &mut Line<'_>) -> bool {
    let mut all = is_typed(line, b"a line");
    moves_to(line, 2);
    heap.fail_requests(0, 2);
    all = !is_typed(line, b"very long ") && shows(line, b"a ", b"line") && all;
    for made in [false, true] {
        all = is_widened(line, 10) == made && all;
    }
    heap.fail_requests(0, u64::MAX);
    all = is_typed(line, b"very long ") && line.backspace() == Some(b' ') && all;
    moves_to(line, 99);
    shows(line, b"a very longline", b"") && all
}

#[test]
fn a_word_is_typed_into_a_line(rt: HostRuntime) {
    let heap = Faulty::new(rt.alloc());
    assert!(rt; is_typed_within(&heap, &mut Editor::new_in(&heap)));
}

type Few<'a> = Fixed<u64, &'a Faulty<Global>>;

fn pair<'a>(heap: &'a Faulty<Global>) -> Option<Few<'a>> {
    Fixed::with_capacity_in(2, heap).ok()
}

// Returns the item in the error, if the call fails.
fn is_left(few: &mut Few<'_>, item: u64) -> Option<u64> {
    few.push(item).err()
}

// Returns whether two items are put, a third one is returned, and one is taken.
fn is_returned(few: &mut Few<'_>) -> bool {
    let mut all = true;
    for (item, back) in [(1, None), (2, None), (3, Some(3))] {
        all = is_left(few, item) == back && all;
    }
    all = few.as_slice() == [1u64, 2].as_slice() && all;
    few.pop() == Some(2) && (few.len(), few.capacity()) == (1, 2) && all
}

#[test]
fn a_full_vector_returns_the_value(rt: HostRuntime) {
    let heap = Faulty::new(rt.alloc());
    heap.fail_requests(0, 1);
    assert!(rt; pair(&heap).is_none());
    match pair(&heap) {
        Some(mut few) => assert!(rt; is_returned(&mut few)),
        None => assert!(rt; false),
    }
    assert!(rt; heap.outstanding() == 0);
}
