//! Calls of plain copies, of bytes and of texts, and those that reserve capacity: each request
//! fails in turn.
use crate::items::{copied, copied_by};
use crate::seen::{End, end_by, end_of, end_of_made, is_all_freed, put, room_for};
use allocator_api2::boxed::{BoxedSlice, BoxedText, append_texts};
use allocator_api2::collections::{Refused, TryReserveError};
use allocator_api2::gap_buffer::GapBuffer;
use allocator_api2::raw_vec::RawVec;
use allocator_api2::slice::Repeat;
use allocator_api2::vec::Vec;
use allocator_api2::vec_of;
use std::alloc::{Allocator, Global};
use std::io::{ErrorKind, Result as Written, Write};
use std::string::String;
use test_allocators::Faulty;

// Bytes on the allocator of a test.
type Bytes<'a> = Vec<u8, &'a Faulty<Global>>;

#[derive(Clone, Copy)]
pub(crate) enum Call {
    ExtendFromSliceCopied,
    ExtendFromWithinCopied,
    ExtendCopied,
    ExtendCopiedBy,
    ResizeWith(usize),
    ResizeBy(usize),
    CloneCopied,
    Write,
    WriteAll,
    // What these make is dropped.
    BlockWithCapacityIn(usize),
    TextWithCapacityIn(usize),
    WithCapacityIn(usize),
    FromSliceCopiedIn,
    // Of two numbers, so many times.
    Repeated(usize),
    FromTextIn,
    FromArrayIn,
    VecOfElements,
    VecOfCopies,
    SliceFromSlice,
    SliceFromArrayIn,
    TextFromText,
}

// Returns how a write of two bytes ends, which returns how many it wrote. A failed one has only its
// kind.
fn end_of_write(written: Written<usize>) -> End {
    match written {
        Ok(2) => End::Done,
        Ok(_) => End::TooLong,
        Err(error) if error.kind() == ErrorKind::OutOfMemory => End::NoMemory(0),
        Err(_) => End::TooLong,
    }
}

// Appends plain copies of a slice, and returns how this ends.
pub(crate) fn end_of_copies<T: Copy, A: Allocator>(v: &mut Vec<T, A>, others: &[T]) -> End {
    end_of(v.extend_from_slice_copied(others))
}

// How the plain clone of a vector ends.
pub(crate) fn end_of_plain_clone<T: Copy + Drop, A: Allocator + Clone>(v: &Vec<T, A>) -> End {
    end_of_made(v.clone_copied())
}

fn d() -> u8 {
    b'd'
}

// Appends as many bytes as are missing, by a function that is passed owned or by `&mut`, and
// returns how this ends.
#[tactic(auto, using(allocator_api2::proofs::Callers::callers))]
fn end_of_results(v: &mut Bytes<'_>, len: usize, is_borrowed: bool) -> End {
    if is_borrowed {
        end_of(v.resize_by(len, &mut d))
    } else {
        end_of(v.resize_with(len, d))
    }
}

// How a call ends on a vector of bytes.
pub(crate) fn called<'a>(call: Call, v: &mut Bytes<'a>, heap: &'a Faulty<Global>) -> End {
    match call {
        Call::ExtendFromSliceCopied => end_of_copies(v, b"de"),
        Call::ExtendFromWithinCopied => {
            let len = v.len();
            end_of(v.extend_from_within_copied(len.min(1)..len))
        }
        Call::ExtendCopied => copied(v, b"defghijklm".iter()),
        Call::ExtendCopiedBy => copied_by(v, &mut b"de".iter()),
        Call::ResizeWith(len) => end_of_results(v, len, false),
        Call::ResizeBy(len) => end_of_results(v, len, true),
        Call::CloneCopied => end_of_plain_clone(v),
        Call::Write => end_of_write(v.write(b"de")),
        Call::WriteAll => match v.write_all(b"de") {
            Ok(()) => End::Done,
            Err(error) => end_of_write(Err(error)),
        },
        _ => made(call, heap),
    }
}

// Returns how a call ends that makes something, or reserves capacity.
fn made(call: Call, heap: &Faulty<Global>) -> End {
    match call {
        Call::BlockWithCapacityIn(many) => { end_of_made(block_capacity(many, heap)) }
        Call::TextWithCapacityIn(many) => {
            end_of_made(GapBuffer::<u32, _>::with_capacity_in(many, heap))
        }
        Call::WithCapacityIn(many) => end_of_made(Vec::<u32, _>::with_capacity_in(many, heap)),
        Call::FromSliceCopiedIn => end_of_made(Vec::from_slice_copied_in(&[1u32, 2, 3], heap)),
        Call::Repeated(times) => end_of_made(u32::repeat_in(&[1, 2], times, heap)),
        Call::FromTextIn => end_of_made(Vec::from_text_in("aé", heap)),
        Call::SliceFromSlice => end_of_made(BoxedSlice::from_slice(heap, &[1u32, 2, 3])),
        Call::FromArrayIn => end_of_array(Vec::from_array_in([1, 2, 3], heap)),
        Call::VecOfElements => end_of_array(vec_of![in heap; 1, 2, 3]),
        Call::VecOfCopies => end_of_made(vec_of![in heap; 7u32; 3]),
        Call::SliceFromArrayIn => end_of_array(BoxedSlice::from_array_in([1, 2, 3], heap)),
        _ => end_of_made(text_of(heap, "abc")),
    }
}

// The capacity of a block that is made with so many places, and dropped.
#[tactic(auto, using(aa_raw::proofs::Beyond::emptied))]
fn block_capacity(many: usize, heap: &Faulty<Global>) -> Result<usize, TryReserveError> {
    let block = RawVec::<u32, _>::with_capacity_in(many, heap)?;
    Ok(block.capacity())
}

// Makes something of the numbers 1 to 3, which an error returns, and returns how this ends.
fn end_of_array<T: Drop>(ended: Result<T, Refused<[u32; 3]>>) -> End {
    match ended {
        Ok(_) => End::Done,
        Err(error) => {
            let back = error.source;
            if back == [1, 2, 3] {
                end_by(error.error)
            } else {
                End::TooLong
            }
        }
    }
}

// A text in a box.
fn text_of<A: Allocator>(alloc: A, text: &str) -> Result<BoxedText<A>, TryReserveError> {
    BoxedText::from_text(alloc, text)
}

// Returns how a call on the bytes a, b and c in full places ends when its first request fails or
// succeeds, how many there were, whether the bytes are those of `left`, and the capacity; and
// whether each block is freed once.
fn seen(alloc: Global, call: Call, failed: u64, left: &[u8]) -> ((End, u64, bool, usize), bool) {
    let heap = Faulty::new(alloc);
    let seen = seen_on(&heap, call, failed, left);
    (seen, is_all_freed(&heap))
}

fn seen_on(heap: &Faulty<Global>, call: Call, failed: u64, left: &[u8]) -> (End, u64, bool, usize) {
    let mut v = room_for(3, heap);
    let _ended = end_of_copies(&mut v, b"abc");
    let before = heap.requests();
    heap.fail_requests(failed, 1);
    let end = called(call, &mut v, heap);
    let requests = heap.requests().saturating_sub(before);
    (end, requests, v.as_slice() == left, v.capacity())
}

// A call, how many requests it makes, the number in the error if the first fails, and the bytes and
// the capacity if none does. With no request, the first would fail.
type Row<'a> = (Call, u64, usize, &'a [u8], usize);

fn copies() -> [Row<'static>; 23] {
    [
        (Call::ExtendFromSliceCopied, 1, 8, b"abcde", 8),
        (Call::ExtendFromWithinCopied, 1, 8, b"abcbc", 8),
        (Call::ExtendCopied, 1, 13, b"abcdefghijklm", 13),
        (Call::ExtendCopiedBy, 1, 8, b"abcde", 8),
        (Call::ResizeWith(5), 1, 8, b"abcdd", 8),
        (Call::ResizeBy(5), 1, 8, b"abcdd", 8),
        (Call::CloneCopied, 1, 3, b"abc", 3),
        (Call::Write, 1, 0, b"abcde", 8),
        (Call::WriteAll, 1, 0, b"abcde", 8),
        (Call::BlockWithCapacityIn(0), 0, 0, b"abc", 3),
        (Call::BlockWithCapacityIn(5), 1, 5, b"abc", 3),
        (Call::TextWithCapacityIn(5), 1, 5, b"abc", 3),
        (Call::WithCapacityIn(5), 1, 5, b"abc", 3),
        (Call::FromSliceCopiedIn, 1, 3, b"abc", 3),
        (Call::Repeated(3), 1, 6, b"abc", 3),
        (Call::Repeated(0), 0, 0, b"abc", 3),
        (Call::FromTextIn, 1, 3, b"abc", 3),
        (Call::FromArrayIn, 1, 3, b"abc", 3),
        (Call::VecOfElements, 1, 3, b"abc", 3),
        (Call::VecOfCopies, 1, 3, b"abc", 3),
        (Call::SliceFromSlice, 1, 3, b"abc", 3),
        (Call::SliceFromArrayIn, 1, 3, b"abc", 3),
        (Call::TextFromText, 1, 3, b"abc", 3),
    ]
}

#[test]
fn failed_copies_leave_the_bytes(rt: HostRuntime) {
    for (call, requests, number, done, grown) in copies() {
        if requests > 0 {
            let left = (End::NoMemory(number), 1, true, 3);
            assert!(rt; seen(rt.alloc(), call, 0, b"abc") == (left, true));
        }
        let left = (End::Done, requests, true, grown);
        assert!(rt; seen(rt.alloc(), call, requests, done) == (left, true));
    }
}

// These texts in boxes.
fn texts_of(alloc: Global, all: [&str; 2]) -> Vec<BoxedText<Global>> {
    let mut texts = room_for(2, alloc);
    for text in all {
        if let Ok(text) = text_of(alloc, text) {
            put(&mut texts, text);
        }
    }
    texts
}

// Appends texts to an `a` when a request fails. Returns how this ends, and whether this is left.
fn end_of_texts(heap: &Faulty<Global>, texts: Vec<BoxedText<Global>>, left: &str) -> (End, bool) {
    let mut all: String<&Faulty<Global>> = String::new(heap);
    let _ended = all.push_str("a");
    heap.fail_requests(0, 1);
    let end = end_of(append_texts(&mut all, texts.into_iter()));
    (end, all.as_str() == left)
}

#[test]
fn a_failed_text_leaves_those_before_it(rt: HostRuntime) {
    let heap = Faulty::new(rt.alloc());
    let texts = texts_of(
        rt.alloc(),
        ["b", "cccccccccccccccccccccccccccccccccccccccc"],
    );
    assert!(rt; end_of_texts(&heap, texts, "ab") == (End::NoMemory(42), true));
}
