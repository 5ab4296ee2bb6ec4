//! What no clause says of a text as traits see it: each once, and what its calls request.
use crate::gap::texts::{nine_put, put, reads};
use crate::printed::are_printed;
use aa_gap::gap_buffer::GapBuffer;
use aa_raw::collections::TryReserveError;
use aa_vec::vec::Vec;
use std::alloc::{AllocError, Global};
use std::clone::Clone;
use std::cmp::Ordering;
use std::default::{Emptied, MadeWith};
use std::hash::{DefaultHasher, Hash, Hasher};
use std::iter::Extend;
use std::ops::Range;
use std::test::Fail;
use test_allocators::Faulty;

type Text<'a> = GapBuffer<u32, &'a Faulty<Global>>;

// What an iterator yields at its two ends, and how many elements remain.
fn ends(text: &Text<'_>) -> (Option<u32>, Option<u32>, usize, Option<usize>) {
    let mut items = text.iter();
    let (first, last) = (items.next().copied(), items.next_back().copied());
    let hint = match items.clone() {
        Ok(twin) => twin.size_hint().1,
        Err(_) => None,
    };
    (first, last, items.len(), hint)
}

// The number with the digits of a text.
fn digits(text: &Text<'_>) -> u32 {
    let mut number = 0u32;
    for x in text {
        number = number.wrapping_mul(10).wrapping_add(*x);
    }
    number
}

#[test]
fn a_text_is_iterated_from_both_ends(rt: HostRuntime) -> Result<(), Fail> {
    let heap = Faulty::new(rt.alloc());
    let text = nine_put(&heap);
    assert!(rt; ends(&text) == (Some(1), Some(3), 2, Some(2)));
    assert!(rt; digits(&text) == 1923 && !text.is_empty());
    assert!(rt; are_printed(rt.alloc(), &"", &text.iter(), " Iter([1, 9], [2, 3])")?);
    Ok(())
}

#[test]
fn a_text_is_written_in_place(rt: HostRuntime) {
    let heap = Faulty::new(rt.alloc());
    let mut text = nine_put(&heap);
    let requests = heap.requests();
    text.make_contiguous().reverse();
    assert!(rt; reads(&text, 3291, 0, 4));
    text.move_to(0);
    for x in &mut text {
        *x = x.wrapping_sub(1);
    }
    assert!(rt; reads(&text, 2180, 0, 4));
    text.move_to(text.len().min(1));
    if let Some(last) = text.iter_mut().next_back() {
        *last = 7;
    }
    assert!(rt; reads(&text, 2187, 0, 4) && heap.requests() == requests);
}

fn hash_of<T: Hash>(x: &T) -> u64 {
    let mut hasher = DefaultHasher::new();
    x.hash(&mut hasher);
    hasher.finish()
}

// How two texts compare, in each way, and whether their hashes are the same.
fn compared<'a>(left: &Text<'a>, right: &Text<'a>) -> (bool, Option<Ordering>, Ordering, bool) {
    let order = left.cmp(right);
    (
        *left == *right,
        left.partial_cmp(right),
        order,
        hash_of(left) == hash_of(right),
    )
}

#[test]
fn texts_compare_wherever_the_cursor_is(rt: HostRuntime) {
    let heap = Faulty::new(rt.alloc());
    let text = nine_put(&heap);
    let mut other = nine_put(&heap);
    other.move_to(0);
    let equal = (true, Some(Ordering::Equal), Ordering::Equal, true);
    assert!(rt; compared(&text, &other) == equal);
    assert!(rt; put(&mut other, 0));
    assert!(rt;
        compared(&text, &other) == (false, Some(Ordering::Greater), Ordering::Greater, false)
    );
}

// A call that makes a text, or inserts into one.
#[derive(Clone, Copy)]
enum Make {
    Collect,
    FromIterIn,
    Extend,
    ExtendAsTrait,
    Clone,
    CloneAsTrait,
}

// A text of these numbers.
fn text_of<'a>(numbers: Range<u32>, heap: &'a Faulty<Global>) -> Result<Text<'a>, TryReserveError> {
    GapBuffer::from_iter_in(numbers, heap)
}

// Returns the outcome of a call, with the numbers from 4 on or with those of a text.
fn made<'a>(call: Make, heap: &'a Faulty<Global>) -> Result<Text<'a>, TryReserveError> {
    let mut text = nine_put(heap);
    match call {
        Make::Collect => return Ok((4..7).collect(heap)?),
        Make::FromIterIn => return text_of(4..7, heap),
        Make::Extend => text.extend(4..6)?,
        Make::ExtendAsTrait => Extend::extend(&mut text, 4..6)?,
        Make::Clone => return text.clone(),
        Make::CloneAsTrait => return Ok(Clone::clone(&text)?),
    }
    Ok(text)
}

// A call, and the digits before and after the cursor and the capacity that it leaves.
fn rows() -> [(Make, u32, u32, usize); 6] {
    [
        (Make::Collect, 456, 0, 4),
        (Make::FromIterIn, 456, 0, 4),
        (Make::Extend, 1945, 23, 8),
        (Make::ExtendAsTrait, 1945, 23, 8),
        (Make::Clone, 19, 23, 4),
        (Make::CloneAsTrait, 19, 23, 4),
    ]
}

fn is_so(heap: &Faulty<Global>, (call, before, after, capacity): (Make, u32, u32, usize)) -> bool {
    match made(call, heap) {
        Ok(text) => reads(&text, before, after, capacity),
        Err(_) => false,
    }
}

// Each makes one request more than the text that it begins with, which makes one.
#[test]
fn a_text_is_made_of_items_or_clones(rt: HostRuntime) {
    let heap = Faulty::new(rt.alloc());
    for row in rows() {
        let requests = heap.requests();
        assert!(rt; is_so(&heap, row), "{}", row.1);
        assert!(rt; heap.requests().saturating_sub(requests) == 2);
    }
    assert!(rt; heap.outstanding() == 0);
}

// The second request fails.
#[test]
fn a_failed_request_makes_no_text(rt: HostRuntime) {
    let heap = Faulty::new(rt.alloc());
    for (call, _, _, _) in rows() {
        heap.fail_requests(1, 1);
        assert!(rt; made(call, &heap).is_err() && heap.outstanding() == 0);
    }
}

// How many elements of a text are copied to a vector.
fn count_copied(text: &Text<'_>) -> Result<usize, TryReserveError> {
    let mut copies: Vec<u32, &Faulty<Global>> = Vec::new_in(*text.allocator());
    copies.extend_copied(text.iter())?;
    Ok(copies.len())
}

// Of a thousand elements, beside how many requests there were for the text, and for both.
fn requests_of_vector(heap: &Faulty<Global>) -> Option<(usize, u64, u64)> {
    match text_of(0..1000, heap) {
        Ok(text) => {
            let requests = heap.requests();
            let count = count_copied(&text).unwrap_or(0);
            Some((count, requests, heap.requests()))
        }
        Err(_) => None,
    }
}

#[test]
fn a_vector_of_a_text_takes_one_block(rt: HostRuntime) {
    let heap = Faulty::new(rt.alloc());
    assert!(rt; requests_of_vector(&heap) == Some((1000, 1, 2)));
}

// The lengths of the two strings of "aé" with the cursor there, or how many bytes before the fault
// are valid.
fn strings(text: &GapBuffer<u8>) -> Result<(usize, usize), usize> {
    match text.as_strs() {
        Ok((before, after)) => Ok((before.len(), after.len())),
        Err(error) => Err(error.valid_up_to()),
    }
}

fn is_split(alloc: Global, position: usize, outcome: Result<(usize, usize), usize>) -> bool {
    let mut text: GapBuffer<u8> = GapBuffer::new_in(alloc);
    for byte in b"a\xc3\xa9" {
        if text.insert(*byte).is_err() {
            return false;
        }
    }
    text.move_to(text.len().min(position));
    strings(&text) == outcome
}

#[test]
fn bytes_are_two_strings(rt: HostRuntime) {
    for (position, outcome) in [(0, Ok((0, 3))), (1, Ok((1, 2))), (2, Err(1))] {
        assert!(rt; is_split(rt.alloc(), position, outcome), "{position}");
    }
}

// The lengths of two texts that are made empty: one like this text, and one with its allocator.
fn made_empty(text: &Text<'_>) -> Option<(usize, usize)> {
    let like: Text<'_> = Emptied::emptied(text).ok()?;
    let with: Text<'_> = MadeWith::made_with(*text.allocator());
    Some((like.len(), with.len()))
}

#[test]
fn a_text_is_made_empty(rt: HostRuntime) {
    let heap = Faulty::new(rt.alloc());
    assert!(rt; made_empty(&nine_put(&heap)) == Some((0, 0)));
}
