//! Ranges that are dropped early, forgotten, or taken from both ends until they meet: what is left,
//! and what is dropped.
use crate::lists::{add, counted_up, places};
use crate::ranges::range_of;
use aa_vec::vec::{Items, Vec};
use std::alloc::Global;
use std::cell::Cell;
use std::mem::forget;
use std::rc::Rc;
use test_allocators::Faulty;
use test_allocators::counted::Counted;

// Elements that count their drops, over an allocator that counts its requests.
type Many<'a> = Vec<Counted<'a>, &'a Faulty<Global>>;

// How a range is left.
#[derive(Clone, Copy)]
enum Left {
    Ended,
    Kept,
    Forgotten,
}

// Takes `first` items from the front and `last` from the back, by turns, as far as there are so
// many, and drops them: how many came.
macro_rules! taken_from_ends {
    ($items:ident, $first:ident, $last:ident) => {{
        let mut taken = 0u32;
        for turn in 0..$first.max($last) {
            if turn < $first && $items.next().is_some() {
                taken = taken.saturating_add(1);
            }
            if turn < $last && $items.next_back().is_some() {
                taken = taken.saturating_add(1);
            }
        }
        taken
    }};
}

// Takes from both ends of a range, and leaves it so: how many came, and how many elements had been
// dropped just before it was left.
fn drained(
    v: &mut Many<'_>,
    (first, last): (u32, u32),
    left: Left,
    drops: &Cell<u32>,
) -> (u32, u32) {
    let mut range = range_of(v, 2, 8);
    let taken = taken_from_ends!(range, first, last);
    let dropped = drops.get();
    match left {
        Left::Ended => drop(range),
        Left::Kept => range.keep_rest(),
        Left::Forgotten => forget(range),
    }
    (taken, dropped)
}

// The values of elements, as the digits of a number that begins with 1.
fn digits(v: &Many<'_>) -> u64 {
    let mut all = 1u64;
    for x in v.iter() {
        all = all.wrapping_mul(10).wrapping_add(u64::from(x.value));
    }
    all
}

// The numbers of elements taken from either end, how many came, how the range is left, the digits
// of the elements then, and how many were dropped.
type DrainRow = ((u32, u32), u32, Left, u64, u32);

// Whether ten elements are as they must be once a range was left so, which makes no request: each
// is dropped once with the vector, unless a range of them was forgotten.
fn is_left(v: Many<'_>, left: Left, values: u64, drops: &Cell<u32>) -> bool {
    let is_right = digits(&v) == values && v.allocator().requests() == 1;
    drop(v);
    is_right && (drops.get() == 10) != matches!(left, Left::Forgotten)
}

// Whether a drain of the third to the eighth of ten is so.
fn drain_is_so(alloc: Global, (ends, taken, left, values, dropped): DrainRow) -> bool {
    let heap = Faulty::new(alloc);
    let drops = Cell::new(0u32);
    let mut v = counted_up(&heap, &drops, 10);
    let outcome = drained(&mut v, ends, left, &drops);
    let same = outcome == (taken, taken) && drops.get() == dropped;
    is_left(v, left, values, &drops) && same && heap.outstanding() == 0
}

#[test]
fn what_is_left_of_a_drain_is_dropped_kept_or_lost(rt: HostRuntime) {
    for row in [
        ((1, 2), 3, Left::Ended, 10189, 6),
        ((3, 3), 6, Left::Ended, 10189, 6),
        ((0, 9), 6, Left::Ended, 10189, 6),
        ((1, 2), 3, Left::Kept, 10134589, 3),
        ((4, 4), 6, Left::Kept, 10189, 6),
        ((7, 0), 6, Left::Forgotten, 101, 6),
        ((1, 0), 1, Left::Forgotten, 101, 1),
    ] {
        assert!(rt; drain_is_so(rt.alloc(), row), "{}", row.3);
    }
}

// Extracts the even elements of a range, up to `count`, and leaves the others. Returns the upper
// bound of the size hint then.
#[tactic(auto, using(aa_vec::proofs::Callers::callers))]
fn extracted(v: &mut Many<'_>, count: u32, left: Left) -> Option<usize> {
    let to = v.len().min(8);
    let mut range = v.extract_if(to.min(2)..to, |x| x.value % 2 == 0);
    for _ in 0..count {
        drop(range.next());
    }
    let (_none, upper) = range.size_hint();
    if matches!(left, Left::Ended) {
        drop(range);
    } else {
        forget(range);
    }
    upper
}

// How often a range is called, how it is left, its upper bound then, the digits of the elements,
// and how many were dropped.
type ExtractRow = (u32, Left, usize, u64, u32);

// Whether an extraction of the third to the eighth of ten is so.
fn extraction_is_so(alloc: Global, (count, left, upper, values, dropped): ExtractRow) -> bool {
    let heap = Faulty::new(alloc);
    let drops = Cell::new(0u32);
    let mut v = counted_up(&heap, &drops, 10);
    let outcome = extracted(&mut v, count, left);
    let same = outcome == Some(upper) && drops.get() == dropped;
    is_left(v, left, values, &drops) && same && heap.outstanding() == 0
}

// The elements that were not tested are kept at the end of the range.
#[test]
fn what_is_left_of_an_extraction_is_kept_or_lost(rt: HostRuntime) {
    for row in [
        (0, Left::Ended, 6, 10123456789, 0),
        (2, Left::Ended, 3, 101356789, 2),
        (4, Left::Ended, 0, 10135789, 3),
        (0, Left::Forgotten, 6, 101, 0),
        (2, Left::Forgotten, 3, 101, 2),
    ] {
        assert!(rt; extraction_is_so(rt.alloc(), row), "{}", row.3);
    }
}

// Elements without references that can be counted: the vector has as many as `origin` is shared by.
fn sharing(alloc: Global, origin: &Rc<()>, count: usize) -> Vec<Rc<()>> {
    let mut v = places(alloc, count);
    for _ in 0..count {
        if let Ok(twin) = origin.clone() {
            add(&mut v, twin);
        }
    }
    v
}

// Replaces six of ten by items, once elements were taken from both ends. Returns how many came, and
// the size hint of the others, or `None` if the splice fails.
fn spliced(
    v: &mut Vec<Rc<()>>,
    items: Items<Rc<()>>,
    (first, last): (u32, u32),
) -> Option<(u32, usize, Option<usize>)> {
    let to = v.len().min(8);
    let mut range = v.splice(to.min(2)..to, items);
    let taken = taken_from_ends!(range, first, last);
    let len = range.len();
    let (_least, most) = range.size_hint();
    range.finish_hinted().ok()?;
    Some((taken, len, most))
}

// Returns whether so many come and are left, if two are put in their place, and whether all other
// elements are dropped.
fn splice_is_so(alloc: Global, ends: (u32, u32), taken: u32, left: usize) -> bool {
    let Ok(origin) = Rc::new(alloc, ()) else {
        return false;
    };
    let mut v = sharing(alloc, &origin, 10);
    let items = Items::new(sharing(alloc, &origin, 2), None);
    let outcome = spliced(&mut v, items, ends);
    outcome == Some((taken, left, Some(left))) && v.len() == 6 && Rc::strong_count(&origin) == 7
}

// A splice must be ended, so that none is forgotten.
#[test]
fn what_is_left_of_a_splice_is_dropped(rt: HostRuntime) {
    for (ends, taken, left) in [
        ((0, 0), 0, 6),
        ((1, 2), 3, 3),
        ((3, 3), 6, 0),
        ((7, 0), 6, 0),
        ((0, 9), 6, 0),
    ] {
        assert!(rt; splice_is_so(rt.alloc(), ends, taken, left), "{taken}");
    }
}
