//! How calls use their closures: in which order, with which arguments, and what the closures
//! remove.
use crate::lists::{add, places};
use aa_vec::vec::Vec;
use std::alloc::Global;
use std::cell::Cell;

// Appends two decimal digits to those that were recorded.
fn recorded(calls: u64, x: u32) -> u64 {
    calls.wrapping_mul(100).wrapping_add(u64::from(x))
}

// The elements, each as two digits of a number.
fn digits(v: &Vec<u32>) -> u64 {
    let mut all = 0u64;
    for x in v.iter() {
        all = recorded(all, *x);
    }
    all
}

// The vector with these digits, of eight elements at most.
fn elements(alloc: Global, number: u64) -> Vec<u32> {
    let mut v = places(alloc, 8);
    let mut place = 100_000_000_000_000u64;
    for _ in 0..8 {
        if place <= number {
            let x = number.checked_div(place).unwrap_or(0) % 100;
            add(&mut v, x as u32);
        }
        place /= 100;
    }
    v
}

// A call, and what its closure does.
#[derive(Clone, Copy)]
enum Choice {
    // `retain_mut` with `true` at every second call, from the first on.
    RetainByTurns,
    // `dedup_by`: adds a small element to the last one that was kept, and removes it.
    AddsUp,
    // `dedup_by` with `true` at every second call.
    ByTurns,
    // `dedup_by`: removes an element that is greater than the last one by two at most.
    Near,
    // `dedup_by_key` with the tens.
    Tens,
}

// The arguments of all calls of the closure, as digits.
fn chosen(choice: Choice, v: &mut Vec<u32>) -> u64 {
    match choice {
        Choice::RetainByTurns => retained(v),
        Choice::Tens => deduplicated_by_key(v),
        _ => deduplicated(choice, v),
    }
}

#[tactic(auto, using(aa_vec::proofs::Callers::callers))]
fn retained(v: &mut Vec<u32>) -> u64 {
    let mut calls = 0u64;
    let mut count = 0u32;
    v.retain_mut(|x: &mut u32| {
        calls = recorded(calls, *x);
        count = count.wrapping_add(1);
        count % 2 == 1
    });
    calls
}

#[tactic(auto, using(aa_vec::proofs::Callers::callers))]
fn deduplicated_by_key(v: &mut Vec<u32>) -> u64 {
    let mut calls = 0u64;
    v.dedup_by_key(|x: &mut u32| {
        calls = recorded(calls, *x);
        *x / 10
    });
    calls
}

#[tactic(auto, using(aa_vec::proofs::Callers::callers))]
fn deduplicated(choice: Choice, v: &mut Vec<u32>) -> u64 {
    let mut calls = 0u64;
    let mut count = 0u32;
    v.dedup_by(|x: &mut u32, last: &mut u32| {
        calls = recorded(recorded(calls, *x), *last);
        count = count.wrapping_add(1);
        match choice {
            Choice::ByTurns => count % 2 == 0,
            Choice::Near => x.wrapping_sub(*last) <= 2,
            _ if *x < 5 => {
                *last = x.wrapping_add(*last);
                true
            }
            _ => false,
        }
    });
    calls
}

// A call, the digits of the elements, those of the arguments, and those of what is left.
type Row = (Choice, u64, u64, u64);

// Whether a row is as the vector has it.
fn is_so(alloc: Global, (choice, items, calls, left): Row) -> bool {
    let mut v = elements(alloc, items);
    chosen(choice, &mut v) == calls && digits(&v) == left
}

#[test]
fn closures_are_called_in_order(rt: HostRuntime) {
    let rows: [Row; 10] = [
        (Choice::RetainByTurns, 5_06_07, 5_06_07, 5_07),
        (Choice::AddsUp, 1_02_03_10, 2_01_03_03_10_06, 6_10),
        (
            Choice::ByTurns,
            1_02_03_04_05,
            2_01_03_02_04_02_05_04,
            1_02_04,
        ),
        (Choice::Near, 1_03_05, 3_01_05_01, 1_05),
        (Choice::Near, 4, 0, 4),
        (Choice::Near, 0, 0, 0),
        (Choice::Tens, 10_21, 21_10, 10_21),
        (
            Choice::Tens,
            10_20_21_30_20,
            20_10_21_20_30_20_20_30,
            10_20_30_20,
        ),
        (Choice::Tens, 10, 0, 10),
        (Choice::Tens, 0, 0, 0),
    ];
    for row in rows {
        assert!(rt; is_so(rt.alloc(), row), "{} left", row.3);
    }
}

// Takes out of a range the elements that `divisor` divides, by `count` calls of `next`. The closure
// adds ten to each. The arguments of its calls, and the elements taken, as digits.
#[tactic(auto, using(aa_vec::proofs::Callers::callers))]
fn extracted(v: &mut Vec<u32>, (from, to): (usize, usize), divisor: u32, count: u32) -> (u64, u64) {
    let to = to.min(v.len());
    let calls = Cell::new(0u64);
    let mut taken = 0u64;
    let mut range = v.extract_if(from.min(to)..to, |x: &mut u32| {
        calls.set(recorded(calls.get(), *x));
        let takes = x.checked_rem(divisor) == Some(0);
        *x = x.wrapping_add(10);
        takes
    });
    for _ in 0..count {
        if let Some(x) = range.next() {
            taken = recorded(taken, x);
        }
    }
    drop(range);
    (calls.get(), taken)
}

// The digits of the elements, a range, a divisor, and the number of calls of `next`; and the digits
// of the arguments, of the elements taken, and of those left.
type Extraction = (u64, (usize, usize), u32, u32, u64, u64, u64);

// Whether an extraction is as the vector has it.
fn extraction_is_so(alloc: Global, row: Extraction) -> bool {
    let (items, range, divisor, count, calls, taken, left) = row;
    let mut v = elements(alloc, items);
    extracted(&mut v, range, divisor, count) == (calls, taken) && digits(&v) == left
}

// The closure is called neither after the range ends nor when it is dropped.
#[test]
fn a_closure_takes_elements_out_in_order(rt: HostRuntime) {
    let (six, eight) = (1_02_03_04_05_06, 1_02_03_04_05_06_07_08);
    let all = 2_03_04_05_06_07;
    let rows: [Extraction; 7] = [
        (six, (1, 6), 2, 2, 2_03_04, 12_14, 1_13_05_06),
        (eight, (1, 7), 3, 4, all, 13_16, 1_12_14_15_17_08),
        (eight, (1, 7), 3, 1, 2_03, 13, 1_12_04_05_06_07_08),
        (eight, (1, 7), 9, 2, all, 0, 1_12_13_14_15_16_17_08),
        (eight, (1, 7), 1, 6, all, 12_13_14_15_16_17, 1_08),
        (eight, (1, 7), 1, 0, 0, 0, eight),
        (eight, (3, 3), 1, 1, 0, 0, eight),
    ];
    for row in rows {
        assert!(rt; extraction_is_so(rt.alloc(), row), "{} left", row.6);
    }
}
