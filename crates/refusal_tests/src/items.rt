//! Calls that take an iterator: that capacity for the lower bound of `size_hint` is reserved at
//! once. The contract bounds what `size_hint` returns, and names no number.
ghost use Rattle.std.specs.Iterator.{IsFinite};

use crate::seen::{End, end_of, end_of_made, put, room_for};
use allocator_api2::boxed::BoxedSlice;
use allocator_api2::vec::{Hinted, Items, Vec};
use std::alloc::{Allocator, Global};
use std::cell::Cell;
use test_allocators::Faulty;

// An iterator whose calls are counted.
#[derive(Drop)]
pub(crate) struct Watched<'a, I> {
    pub(crate) inner: I,
    pub(crate) calls: &'a Cell<u32>,
}

impl<I: Iterator> Iterator for Watched<'_, I> {
    type Item = I::Item;

    ghost can_next = { λ s. I.can_next s.inner };

    ghost next_gives = { λ s r t. I.next_gives s.inner r t.inner };

    ghost remaining = { λ s. I.remaining s.inner };

    fn next(&mut self) -> Option<I::Item> {
        self.calls.set(self.calls.get().saturating_add(1));
        self.inner.next()
    }

    fn size_hint(&self) -> (usize, Option<usize>) {
        self.inner.size_hint()
    }
}

impl<I: Hinted> Hinted for Watched<'_, I> {
    ghost lower_of = { λ s. I.lower_of s.inner };

    fn lower(&self) -> usize {
        self.inner.lower()
    }
}

// A call that appends items, replaces a range by them, or makes a vector or a boxed slice of them.
#[derive(Clone, Copy)]
pub(crate) enum Fill {
    Extend,
    ExtendBy,
    FromIterIn,
    FromIterInBy,
    SliceFromIterIn,
    Splice(usize, usize),
}

// Returns how a call ends that takes its items owned. What it makes is dropped.
pub(crate) fn filled<I: Iterator<Item = T> + Drop, T: Drop, A: Allocator + Clone + Drop>(
    call: Fill,
    v: &mut Vec<T, A>,
    items: I,
    alloc: A,
) -> End
    requires callable { I.can_next items }
    requires finite { IsFinite (I.remaining items) }
{
    let mut items = items;
    match call {
        Fill::Extend => end_of(v.extend(items)),
        Fill::FromIterIn => end_of_made(Vec::from_iter_in(items, alloc)),
        Fill::SliceFromIterIn => end_of_made(BoxedSlice::from_iter_in(items, alloc)),
        Fill::Splice(from, to) if from <= to && to <= v.len() => {
            end_of(v.splice(from..to, items).finish())
        }
        _ => filled_by(call, v, &mut items, alloc),
    }
}

// Returns how a call ends that takes its items by `&mut`.
pub(crate) fn filled_by<I: Iterator<Item = T>, T: Drop, A: Allocator + Drop>(
    call: Fill,
    v: &mut Vec<T, A>,
    items: &mut I,
    alloc: A,
) -> End
    requires callable { I.can_next items.old }
    requires finite { IsFinite (I.remaining items.old) }
{
    match call {
        Fill::ExtendBy => end_of(v.extend_by(items)),
        _ => end_of_made(Vec::from_iter_in_by(items, alloc)),
    }
}

// Replaces a range, from which one element is taken first, by items with a hint.
pub(crate) fn spliced<T: Drop, A: Allocator + Clone>(
    v: &mut Vec<T, A>,
    (from, to): (usize, usize),
    items: Items<T, A>,
) -> End {
    if from > to || to > v.len() {
        return End::TooLong;
    }
    let mut range = v.splice(from..to, items);
    let _first = range.next();
    end_of(range.finish_hinted())
}

// Appends copies, and returns how this ends.
pub(crate) fn copied<'a, I: Iterator<Item = &'a T>, T: Copy + 'a, A: Allocator>(
    v: &mut Vec<T, A>,
    items: I,
) -> End
    requires callable { I.can_next items }
    requires finite { IsFinite (I.remaining items) }
{
    end_of(v.extend_copied(items))
}

// The same of an iterator that is taken by `&mut`.
pub(crate) fn copied_by<'a, I: Iterator<Item = &'a T>, T: Copy + 'a, A: Allocator>(
    v: &mut Vec<T, A>,
    items: &mut I,
) -> End
    requires callable { I.can_next items.old }
    requires finite { IsFinite (I.remaining items.old) }
{
    end_of(v.extend_copied_by(items))
}

// A call on the numbers 1 up to so many in full places, the numbers from one up to another with an
// exact `size_hint`, the request that fails, the number in its error, the digits of what is left
// and in how many places, and the requests.
type Row = (Fill, usize, u32, u32, u64, usize, u64, usize, u64);

fn rows() -> [Row; 8] {
    let between = Fill::Splice(1, 3);
    [
        (Fill::Extend, 2, 0, 10, 1, 0, 120123456789, 12, 1),
        (Fill::FromIterIn, 2, 0, 10, 1, 0, 12, 2, 1),
        (Fill::Splice(2, 2), 2, 0, 10, 1, 0, 120123456789, 12, 1),
        (Fill::Splice(1, 2), 3, 8, 9, 0, 0, 183, 3, 0),
        (between, 4, 8, 10, 0, 0, 1894, 4, 0),
        (between, 4, 7, 10, 1, 0, 17894, 8, 1),
        (between, 4, 7, 10, 0, 8, 1784, 4, 1),
        (between, 4, 1, 10, 1, 0, 11234567894, 11, 1),
    ]
}

// The number with these digits.
fn digits_of(items: &[u32]) -> u64 {
    let mut number = 0u64;
    for x in items {
        number = number.wrapping_mul(10).wrapping_add(*x as u64);
    }
    number
}

// Returns how a call ends that takes its items, the requests, and the digits of what is left and
// its places.
fn came_of(alloc: Global, (call, len, from, to, failed, ..): Row) -> (End, u64, u64, usize) {
    let heap = Faulty::new(alloc);
    let mut v = room_for(len, &heap);
    for x in [1, 2, 3, 4] {
        if v.len() < len {
            put(&mut v, x);
        }
    }
    let before = heap.requests();
    heap.fail_requests(failed, 1);
    let came = filled(call, &mut v, from..to, &heap);
    let requested = heap.requests().saturating_sub(before);
    (came, requested, digits_of(v.as_slice()), v.capacity())
}

#[test]
fn capacity_for_the_lower_bound_is_reserved_at_once(rt: HostRuntime) {
    for row in rows() {
        let end = if row.5 == 0 {
            End::Done
        } else {
            End::NoMemory(row.5)
        };
        assert!(rt; came_of(rt.alloc(), row) == (end, row.8, row.6, row.7));
    }
}
