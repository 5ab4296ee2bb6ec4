//! Each call that takes a closure, once on its happy path.
use crate::lists::{digits, reads};
use crate::memory::has_due_requests;
use aa_raw::collections::TryReserveError;
use aa_vec::vec::Vec;
use std::alloc::{Allocator, Global};
use test_allocators::Faulty;

// A call that takes a closure, owned or by `&mut`.
#[derive(Clone, Copy)]
enum Choice {
    Retain,
    RetainMut,
    RetainBy,
    Dedup,
    DedupBy,
    DedupWithin,
    DedupByKey,
    DedupWithinKey,
    ResizeWith,
    ResizeBy,
}

fn is_odd(x: &u32) -> bool {
    *x % 2 == 1
}

// Doubles a number, and keeps it unless it is 4 then.
fn is_kept(x: &mut u32) -> bool {
    *x = x.wrapping_mul(2);
    *x != 4
}

// A small number takes the place of the last one kept.
fn takes_place(x: &mut u32, last: &mut u32) -> bool {
    let is_small = *x < 5;
    if is_small {
        *last = *x;
    }
    is_small
}

fn third(x: &mut u32) -> u32 {
    *x / 3
}

fn seven() -> u32 {
    7
}

#[tactic(auto, using(aa_vec::proofs::Callers::callers))]
fn chosen<A: Allocator>(choice: Choice, v: &mut Vec<u32, A>) -> Result<(), TryReserveError> {
    match choice {
        Choice::Retain => v.retain(is_odd),
        Choice::RetainMut => v.retain_mut(is_kept),
        Choice::RetainBy => v.retain_by(&mut is_kept),
        Choice::Dedup => v.dedup(),
        Choice::DedupBy => v.dedup_by(takes_place),
        Choice::DedupWithin => v.dedup_within(&mut takes_place),
        Choice::DedupByKey => v.dedup_by_key(third),
        Choice::DedupWithinKey => v.dedup_within_key(&mut third),
        Choice::ResizeWith => return v.resize_with(5, seven),
        Choice::ResizeBy => return v.resize_by(5, &mut seven),
    }
    Ok(())
}

// A call, the digits of the elements, and those that are left.
type Row = (Choice, u32, u32);

// Whether a row is as the vector has it, and the call makes no request.
fn is_so(heap: &Faulty<Global>, (choice, items, left): Row) -> bool {
    let mut v = digits(heap, items, 7);
    let before = heap.requests();
    let came = chosen(choice, &mut v).is_ok();
    came && has_due_requests(heap, before, 7, v.capacity()) && reads(&v, left, 7)
}

#[test]
fn elements_are_chosen(rt: HostRuntime) {
    let rows: [Row; 10] = [
        (Choice::Retain, 1234567, 1357),
        (Choice::RetainMut, 1234, 268),
        (Choice::RetainBy, 1234, 268),
        (Choice::Dedup, 12232, 1232),
        (Choice::DedupBy, 12936, 236),
        (Choice::DedupWithin, 12936, 236),
        (Choice::DedupByKey, 36796, 3696),
        (Choice::DedupWithinKey, 3465, 365),
        (Choice::ResizeWith, 123, 12377),
        (Choice::ResizeBy, 123, 12377),
    ];
    let heap = Faulty::new(rt.alloc());
    for row in rows {
        assert!(rt; is_so(&heap, row), "{}", row.2);
    }
}
