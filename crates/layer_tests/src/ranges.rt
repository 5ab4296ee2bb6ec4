//! Ranges: what they show before they end, and splices.
use crate::lists::{digits, reads};
use crate::memory::has_due_requests;
use aa_vec::vec::{Drain, Vec};
use std::alloc::{AllocError, Allocator, Global};
use std::mem::size_of;
use std::ops::Range;
use std::test::Fail;
use test_allocators::Faulty;

const _: () = prove!(size_of::<Drain<u64, Global>>() == 40);

/// The range of these places, as far as they are there.
pub(crate) fn range_of<T, A: Allocator>(
    v: &mut Vec<T, A>,
    from: usize,
    to: usize,
) -> Drain<'_, T, A> {
    let to = to.min(v.len());
    v.drain(from.min(to)..to)
}

// Returns whether a range shows that these elements are left.
fn is_left<A: Allocator>(range: &Drain<'_, u32, A>, left: &[u32]) -> bool {
    let len = left.len();
    range.size_hint() == (len, Some(len)) && range.len() == len && range.as_slice() == left
}

#[test]
fn a_drain_shows_what_was_not_taken(rt: HostRuntime) -> Result<(), Fail> {
    let heap = Faulty::new(rt.alloc());
    let mut v = digits(&heap, 123456, 6);
    let mut range = range_of(&mut v, 1, 4);
    let first = range.next();
    let is_right = is_left(&range, &[3, 4]);
    let text = format!(in rt.alloc(); "{range:?}");
    let _alloc: &&Faulty<Global> = range.allocator();
    drop(range);
    drop(v);
    assert!(rt; first == Some(2) && is_right && (heap.requests(), heap.frees()) == (1, 1));
    assert!(rt; text?.as_str() == "Drain([3, 4])");
    Ok(())
}

fn is_even(x: &mut u32) -> bool {
    *x % 2 == 0
}

// Extracts the first even element, and returns how many were not tested then.
#[tactic(auto, using(aa_vec::proofs::Callers::callers))]
fn first_even<A: Allocator>(v: &mut Vec<u32, A>) -> (Option<u32>, usize) {
    let to = v.len();
    let mut range = v.extract_by(0..to);
    let first = range.next_by(&mut is_even);
    (first, range.remaining_len())
}

#[test]
fn an_element_is_extracted_by_a_borrowed_closure(rt: HostRuntime) {
    let heap = Faulty::new(rt.alloc());
    let mut v = digits(&heap, 5678, 4);
    assert!(rt; first_even(&mut v) == (Some(6), 2) && heap.requests() == 1);
    assert!(rt; reads(&v, 578, 4));
}

// Replaces a range of a vector, as far as it lies within.
fn replaced<A: Allocator + Clone>(
    v: &mut Vec<u32, A>,
    (from, to): (usize, usize),
    with: Range<u32>,
) -> bool {
    let to = to.min(v.len());
    v.splice(from.min(to)..to, with).finish().is_ok()
}

// The digits of numbers, their capacity, a range of their places, the new numbers, and the digits
// and the capacity that are left.
type Row = (u32, usize, (usize, usize), Range<u32>, u32, usize);

// Whether a row is as the vector has it, with a request if it needs a new block, and else none.
fn is_so(heap: &Faulty<Global>, (items, room, range, with, left, capacity): Row) -> bool {
    let mut v = digits(heap, items, room);
    let before = heap.requests();
    let done = replaced(&mut v, range, with);
    done && has_due_requests(heap, before, room, v.capacity()) && reads(&v, left, capacity)
}

#[test]
fn a_range_is_replaced_by_any_iterator(rt: HostRuntime) {
    let heap = Faulty::new(rt.alloc());
    assert!(rt; is_so(&heap, (1234, 4, (0, 3), 9..10, 94, 4)));
    assert!(rt; is_so(&heap, (12, 2, (1, 1), 9..10, 192, 4)));
    assert!(rt; is_so(&heap, (123, 3, (1, 3), 8..10, 189, 3)));
}

// Takes the first and the last of the places 1 to 3, and replaces these by a seven.
fn ends_replaced(v: &mut Vec<u32>) -> (Option<u32>, Option<u32>) {
    let to = v.len().min(4);
    let mut range = v.splice(to.min(1)..to, 7..8);
    let ends = (range.next(), range.next_back());
    let _ended = range.finish();
    ends
}

#[test]
fn a_splice_is_taken_from_both_ends(rt: HostRuntime) {
    let mut v = digits(rt.alloc(), 12345, 5);
    assert!(rt; ends_replaced(&mut v) == (Some(2), Some(4)) && reads(&v, 175, 5));
}

// What a splice of the places 1 and 2 by a seven prints.
fn printed(alloc: Global, v: &mut Vec<u32>) -> Result<String, AllocError> {
    let to = v.len().min(3);
    let range = v.splice(to.min(1)..to, 7..8);
    let text = format!(in alloc; "{range:?}");
    let _ended = range.finish();
    text
}

#[test]
fn a_splice_prints_what_was_not_taken(rt: HostRuntime) -> Result<(), Fail> {
    let mut v = digits(rt.alloc(), 1234, 4);
    let text = printed(rt.alloc(), &mut v);
    assert!(rt; reads(&v, 174, 4));
    drop(v);
    assert!(rt; text?.as_str() == "Splice([2, 3])");
    Ok(())
}
