//! How many items are taken from an iterator when an allocation fails.
ghost use Rattle.std.specs.Prelude.{None, IfErr};
ghost use Rattle.std.specs.Iterator.{IsFinite, IsNearerEnd};

use crate::boxed::text_of;
use aa_boxed::boxed::{BoxedSlice, BoxedText, append_texts, append_texts_by};
use aa_raw::collections::{TryReserveError, TryReserveErrorKind};
use std::alloc::{Allocator, Global};
use std::cell::Cell;
use std::string::String;
use std::vec::Vec;
use test_allocators::Faulty;

// An iterator whose calls of `next` are counted, and which has no lower bound.
#[derive(Drop)]
struct Counting<'a, I> {
    iter: I,
    calls: &'a Cell<u32>,
}

impl<I: Iterator> Iterator for Counting<'_, I> {
    type Item = I::Item;

    ghost can_next = { λ s. I.can_next s.iter };

    ghost next_gives = { λ s r t. I.next_gives s.iter r t.iter };

    ghost remaining = { λ s. I.remaining s.iter };

    fn next(&mut self) -> Option<I::Item> {
        self.calls.set(self.calls.get().saturating_add(1));
        self.iter.next()
    }
}

// Nine numbers without a size hint need an allocation at the first, the fifth and the ninth. At the
// end the spare capacity is freed. A row has the number of the request that fails, of the items
// that were taken, and of the places that were requested.
const FAILURES: [(u64, u32, usize); 4] = [(0, 1, 4), (1, 5, 8), (2, 9, 16), (3, 10, 9)];

// Returns the error of a slice of nine items, which the call takes by `&mut` or owned.
fn slice_error(
    heap: &Faulty<Global>,
    borrowed: bool,
    calls: &Cell<u32>,
) -> Option<TryReserveError> {
    let mut iter = Counting {
        iter: 0..9u32,
        calls,
    };
    if borrowed {
        return BoxedSlice::from_iter_in_by(&mut iter, heap).err();
    }
    BoxedSlice::from_iter_in(iter, heap).err()
}

#[test]
fn a_failed_slice_takes_no_further_item(rt: HostRuntime) {
    let heap = Faulty::new(rt.alloc());
    let calls = Cell::new(0);
    for (skip, taken, capacity) in FAILURES {
        let error = Some(TryReserveErrorKind::AllocError { capacity }.into());
        for borrowed in [false, true] {
            calls.set(0);
            heap.fail_requests(skip, 1);
            assert!(rt; slice_error(&heap, borrowed, &calls) == error && calls.get() == taken);
        }
    }
}

// These texts, one after another.
fn texts(alloc: Global, all: [&str; 3]) -> Vec<BoxedText> {
    let mut texts: Vec<BoxedText> = Vec::new(alloc);
    for text in all {
        if let Ok(text) = text_of(alloc, text) {
            let _added = texts.push(text);
        }
    }
    texts
}

// Appends the texts that fit to the first of two strings, and the remaining ones to the other. If
// this fails too, the caller may continue once more.
fn append_over<I: Iterator<Item = BoxedText<A>>, A: Allocator, S: Allocator, R: Allocator>(
    first: &mut String<S>,
    other: &mut String<R>,
    iter: &mut I,
) -> Result<(), TryReserveError>
    requires callable { I.can_next iter.old }
    requires finite { IsFinite (I.remaining iter.old) }
    ensures { IfErr result (λ _. IsNearerEnd I.can_next I.remaining iter.old iter.new) }
{
    match append_texts_by(first, iter) {
        Ok(()) => Ok(()),
        Err(_) => append_texts_by(other, iter),
    }
}

// Collects the items into a block of the first allocator, or the remaining ones into one of the
// other. That the iterator may be called after its end matters if it is at its end when an
// allocation fails.
fn slice_over<I: Iterator<Item = T>, T: Drop, A: Allocator>(
    iter: &mut I,
    first: A,
    other: A,
) -> Result<BoxedSlice<T, A>, TryReserveError>
    requires callable { I.can_next iter.old }
    requires finite { IsFinite (I.remaining iter.old) }
    requires callable_after_end { (s t : I) → I.next_gives s None t → I.can_next t }
{
    match BoxedSlice::from_iter_in_by(iter, first) {
        Ok(slice) => Ok(slice),
        Err(_) => BoxedSlice::from_iter_in_by(iter, other),
    }
}

#[test]
fn texts_are_appended(rt: HostRuntime) {
    let mut all = String::new(rt.alloc());
    let texts = texts(rt.alloc(), ["b", "", "cc"]);
    assert!(rt; append_texts(&mut all, texts.into_iter()).is_ok());
    assert!(rt; all.as_str() == "bcc");
}

// Returns whether texts fit in the first string, which has spare capacity for one byte, or in the
// other, and whether the first then reads so.
fn found_room(
    heap: &Faulty<Global>,
    other: &mut String,
    texts: Vec<BoxedText>,
    first: &str,
) -> bool {
    let Ok(mut all) = String::with_capacity(heap, 2) else {
        return false;
    };
    let started = all.push_str("a").is_ok();
    heap.fail_requests(0, 1);
    let well = append_over(&mut all, other, &mut texts.into_iter()).is_ok();
    started && well && all.as_str() == first
}

// Of three texts the first fits, and the second does not.
#[test]
fn a_failed_append_of_texts_takes_no_further_one(rt: HostRuntime) {
    let heap = Faulty::new(rt.alloc());
    let mut other = String::new(rt.alloc());
    let texts = texts(rt.alloc(), ["b", "ccc", "d"]);
    assert!(rt; found_room(&heap, &mut other, texts, "ab") && other.as_str() == "d");
}
