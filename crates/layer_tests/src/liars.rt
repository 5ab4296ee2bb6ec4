//! Untrue arguments: hints, iterators that end early, closures with alternating results, an
//! equality that never holds, clones that differ.
ghost use Rattle.std.specs.Prelude.{◌≡◌, ◌-◌, false};
ghost use Rattle.std.specs.Iterator.{at_most};
ghost use Rattle.std.proofs.Common.{refl};

use crate::clones::{append_slice, assigned, filled, repeated, twin, within};
use crate::lists::{add, counted_up, has_items, list, places};
use aa_raw::collections::{TryReserveError, TryReserveErrorKind};
use aa_vec::vec::{Hinted, Vec};
use std::alloc::{AllocError, Global};
use std::cell::Cell;
use std::clone::Clone;
use test_allocators::counted::Counted;

// What becomes of a hint as an item comes.
#[derive(Clone, Copy)]
enum Manner {
    Constant,
    CountsDown,
    TurnsTo(usize),
}

impl Manner {
    fn next_hint(self, hint: usize) -> (usize, Manner) {
        match self {
            Manner::Constant => (hint, self),
            Manner::CountsDown => (hint.saturating_sub(1), self),
            Manner::TurnsTo(other) => (other, Manner::TurnsTo(hint)),
        }
    }
}

// The numbers from `next` up to `end`, with `hint` as the lower bound. If it pauses, each third
// number is an end, after which the others follow.
#[derive(Drop)]
struct Liar {
    next: u32,
    end: u32,
    pauses: bool,
    hint: usize,
    manner: Manner,
}

impl Iterator for Liar {
    type Item = u32;

    ghost remaining = { λ s. at_most (s.end - s.next) };

    fn next(&mut self) -> Option<u32> {
        let x = self.next;
        if x >= self.end {
            return None;
        }
        let (hint, manner) = self.manner.next_hint(self.hint);
        self.next = x + 1;
        self.hint = hint;
        self.manner = manner;
        if self.pauses && x % 3 == 0 {
            return None;
        }
        Some(x)
    }
}

impl Hinted for Liar {
    ghost lower_of = { λ s. s.hint };

    fn lower(&self) -> usize {
        self.hint
    }
}

// The numbers from 0 to 4.
fn items_with(hint: usize, manner: Manner) -> Liar {
    Liar {
        next: 0,
        end: 5,
        pauses: false,
        hint,
        manner,
    }
}

// Returns the result of a call whose numbers fit, or are past the limit.
fn result_of(fits: bool) -> Result<(), TryReserveError> {
    if fits {
        return Ok(());
    }
    Err(TryReserveErrorKind::CapacityOverflow.into())
}

// Appends items, with or without their hint.
fn extended(v: &mut Vec<u32>, items: &mut Liar, hinted: bool) -> Result<(), TryReserveError> {
    if hinted {
        v.extend_hinted_by(items)
    } else {
        v.extend_by(items)
    }
}

// Returns whether an empty vector with so much capacity is extended with this result, and then has
// these numbers and this capacity.
fn extends_to(
    alloc: Global,
    room: usize,
    items: Liar,
    fits: bool,
    left: &[u32],
    capacity: usize,
) -> bool {
    let mut items = items;
    let mut v = places(alloc, room);
    extended(&mut v, &mut items, true) == result_of(fits) && has_items(&v, left, capacity)
}

#[test]
fn untrue_hints_decide_the_capacity_alone(rt: HostRuntime) {
    let all = [0, 1, 2, 3, 4].as_slice();
    let four = [0, 1, 2, 3].as_slice();
    for (hint, manner, room, fits, left, capacity) in [
        (0, Manner::Constant, 0, true, all, 8),
        (usize::MAX, Manner::Constant, 0, false, [].as_slice(), 0),
        (usize::MAX, Manner::Constant, 4, false, four, 4),
        (usize::MAX, Manner::Constant, 5, true, all, 5),
        (5, Manner::CountsDown, 0, true, all, 5),
        (9, Manner::TurnsTo(0), 0, true, all, 8),
        (0, Manner::TurnsTo(9), 0, true, all, 10),
        (0, Manner::TurnsTo(usize::MAX), 0, false, [].as_slice(), 0),
    ] {
        let items = items_with(hint, manner);
        assert!(rt;
            extends_to(rt.alloc(), room, items, fits, left, capacity),
            "hint {hint}"
        );
    }
}

// Replaces a range of a vector, as far as it exists, with or without the hint.
fn spliced(
    v: &mut Vec<u32>,
    (from, to): (usize, usize),
    items: Liar,
    hinted: bool,
) -> Result<(), TryReserveError> {
    let to = to.min(v.len());
    let range = v.splice(from.min(to)..to, items);
    if hinted {
        range.finish_hinted()
    } else {
        range.finish()
    }
}

// Replaces two places from this one, and returns whether the call has this result, and leaves these
// numbers with this capacity.
fn splices_to(
    alloc: Global,
    from: usize,
    items: Liar,
    fits: bool,
    left: &[u32],
    capacity: usize,
) -> bool {
    let mut v = list(alloc, &[1, 2, 3, 4], 4);
    let spliced_as = spliced(&mut v, (from, from.saturating_add(2)), items, true);
    spliced_as == result_of(fits) && has_items(&v, left, capacity)
}

// In the middle, and at the end.
#[test]
fn untrue_hints_of_a_splice_decide_the_capacity_alone(rt: HostRuntime) {
    let all = [1, 0, 1, 2, 3, 4, 4].as_slice();
    let full = [1, 0, 1, 4].as_slice();
    let all_appended = [1, 2, 0, 1, 2, 3, 4].as_slice();
    let full_appended = [1, 2, 0, 1].as_slice();
    for (from, hint, manner, fits, left, capacity) in [
        (1, 0, Manner::Constant, true, all, 8),
        (1, 100, Manner::Constant, true, all, 104),
        (1, usize::MAX, Manner::Constant, false, full, 4),
        (1, 100, Manner::CountsDown, true, all, 102),
        (1, 9, Manner::TurnsTo(0), true, all, 13),
        (1, 1, Manner::TurnsTo(usize::MAX), true, all, 8),
        (1, 0, Manner::TurnsTo(usize::MAX), false, full, 4),
        (2, 100, Manner::Constant, true, all_appended, 105),
        (2, usize::MAX, Manner::Constant, false, full_appended, 4),
        (2, 9, Manner::TurnsTo(usize::MAX), false, full_appended, 4),
        (2, usize::MAX, Manner::TurnsTo(9), true, all_appended, 14),
    ] {
        let items = items_with(hint, manner);
        assert!(rt;
            splices_to(rt.alloc(), from, items, fits, left, capacity),
            "hint {hint} from {from} on"
        );
    }
}

// The numbers from this one up to 9, with pauses. The hint is the number of these up to 9.
fn pausing(next: u32) -> Liar {
    Liar {
        next,
        end: 9,
        pauses: true,
        hint: 9usize.saturating_sub(next as usize),
        manner: Manner::CountsDown,
    }
}

// Returns whether a vector with so much capacity takes 1 and 2, then 4 and 5, and then 7 and 8,
// since 3 and 6 are ends.
fn stops_at_ends(alloc: Global, room: usize) -> bool {
    let mut v = places(alloc, room);
    let mut items = pausing(1);
    let mut all = true;
    for (hinted, len, next) in [(false, 2, 4), (true, 4, 7), (false, 6, 9)] {
        all = extended(&mut v, &mut items, hinted).is_ok() && all;
        all = all && v.len() == len && items.next == next;
    }
    all && v.as_slice() == [1, 2, 4, 5, 7, 8].as_slice()
}

#[test]
fn an_iterator_is_not_called_after_its_end(rt: HostRuntime) {
    for room in [0, 1, 2, 3, 4, 9] {
        assert!(rt; stops_at_ends(rt.alloc(), room), "{room}");
    }
}

// Whether a range of four sevens is replaced so by the numbers from `first` up to the next end.
fn is_replaced(alloc: Global, range: (usize, usize), first: u32, left: &[u32]) -> bool {
    let mut all = true;
    for hinted in [false, true] {
        let mut v = list(alloc, &[7, 7, 7, 7], 4);
        all = spliced(&mut v, range, pausing(first), hinted).is_ok() && all;
        all = v.as_slice() == left && all;
    }
    all
}

#[test]
fn a_splice_does_not_call_an_iterator_after_its_end(rt: HostRuntime) {
    for (range, first, left) in [
        ((1, 3), 0, [7, 7].as_slice()),
        ((1, 4), 1, [7, 1, 2].as_slice()),
        ((0, 3), 1, [1, 2, 7].as_slice()),
        ((1, 3), 1, [7, 1, 2, 7].as_slice()),
        ((1, 2), 1, [7, 1, 2, 7, 7].as_slice()),
        ((2, 2), 4, [7, 7, 4, 5, 7, 7].as_slice()),
    ] {
        assert!(rt; is_replaced(rt.alloc(), range, first, left), "{left:?}");
    }
}

// The closure returns `true` at each call whose number `turn` divides. Returns the number of calls.
#[tactic(auto, using(aa_vec::proofs::Callers::callers))]
fn retained_by_turns<T: Drop>(v: &mut Vec<T>, turn: u32) -> u32 {
    let mut calls = 0u32;
    v.retain_by(&mut |_| {
        calls = calls.wrapping_add(1);
        calls.checked_rem(turn) == Some(0)
    });
    calls
}

// The same of two neighbours.
#[tactic(auto, using(aa_vec::proofs::Callers::callers))]
fn deduplicated_by_turns<T: Drop>(v: &mut Vec<T>, turn: u32) -> u32 {
    let mut calls = 0u32;
    v.dedup_within(&mut |_, _| {
        calls = calls.wrapping_add(1);
        calls.checked_rem(turn) == Some(0)
    });
    calls
}

// How many of nine are left, how often the closure was called, and how many were dropped.
fn left_by_turns(alloc: Global, removes: bool, turn: u32) -> (usize, u32, u32) {
    let drops = Cell::new(0);
    let mut v = counted_up(alloc, &drops, 9);
    let calls = if removes {
        deduplicated_by_turns(&mut v, turn)
    } else {
        retained_by_turns(&mut v, turn)
    };
    (v.len(), calls, drops.get())
}

#[test]
fn alternating_results_keep_and_remove(rt: HostRuntime) {
    for (turn, kept, dropped, distinct, repeats) in [
        (1, 9, 0, 1, 8),
        (2, 4, 5, 5, 4),
        (3, 3, 6, 7, 2),
        (9, 1, 8, 9, 0),
        (10, 0, 9, 9, 0),
    ] {
        assert!(rt; left_by_turns(rt.alloc(), false, turn) == (kept, 9, dropped));
        assert!(rt; left_by_turns(rt.alloc(), true, turn) == (distinct, 8, repeats));
    }
}

// A value that equals none, itself neither.
#[derive(Drop)]
struct Unlike {
    value: u32,
}

impl PartialEq for Unlike {
    ghost eq = { λ _ _. false };

    ghost laws = { record { symm = λ x y. refl; trans = λ x y z p q. p } };

    fn eq(&self, _other: &Unlike) -> bool {
        false
    }
}

// So many sevens that equal nothing.
fn sevens(alloc: Global, count: u32) -> Vec<Unlike> {
    let mut v = places(alloc, 4);
    for _ in 0..count {
        add(&mut v, Unlike { value: 7 });
    }
    v
}

#[test]
fn an_equality_that_never_holds_removes_nothing(rt: HostRuntime) {
    let none = sevens(rt.alloc(), 0);
    assert!(rt; none == none);
    let mut v = sevens(rt.alloc(), 3);
    v.dedup();
    assert!(rt; v.len() == 3);
    assert!(rt; v != v && v != none);
}

// A value whose clone is one more.
#[derive(Drop)]
struct Drifting {
    value: u32,
}

impl Clone for Drifting {
    fn clone(&self) -> Result<Self, AllocError> {
        Ok(valued(self.value.wrapping_add(1)))
    }
}

fn valued(value: u32) -> Drifting {
    Drifting { value }
}

// The values of elements, each as two digits of a number.
fn digits(v: &[Drifting]) -> u64 {
    let mut all = 0u64;
    for x in v {
        all = all.wrapping_mul(100).wrapping_add(u64::from(x.value));
    }
    all
}

// Returns what 2 and 6 become when clones are appended to them.
fn lengthened(v: Vec<Drifting>) -> u64 {
    let mut v = v;
    let _put = append_slice(&mut v, &[valued(8)]);
    let _repeated = within(&mut v, 1, 3);
    let _filled = filled(&mut v, 8, valued(30));
    digits(v.as_slice())
}

#[test]
fn clones_that_differ_are_appended(rt: HostRuntime) {
    match Vec::from_slice(rt.alloc(), &[valued(1), valued(5)]) {
        Ok(v) => assert!(rt; lengthened(v) == 2_06_09_07_10_31_31_30),
        Err(_) => assert!(rt; false),
    }
}

// The clones of elements, those elements assigned these, and the clones of the items of these.
fn copied(v: Vec<Drifting>) -> [u64; 3] {
    let mut v = v;
    let Ok(copy) = twin(&v) else {
        return [0; 3];
    };
    let _assigned = assigned(&mut v, &copy);
    let assigned = digits(v.as_slice());
    match v.into_iter().clone() {
        Ok(items) => [digits(copy.as_slice()), assigned, digits(items.as_slice())],
        Err(_) => [0; 3],
    }
}

#[test]
fn clones_that_differ_are_made(rt: HostRuntime) {
    match repeated(rt.alloc(), valued(7), 3) {
        Ok(v) => {
            assert!(rt; digits(v.as_slice()) == 8_08_07);
            assert!(rt; copied(v) == [9_09_08, 10_10_09, 11_11_10]);
        }
        Err(_) => assert!(rt; false),
    }
}
