//! The cases over the toolchain's own vector.
ghost use Rattle.std.specs.Prelude.{◌<◌, ◌≤◌};

mod collections;
mod trees;
mod users;

use crate::bench::Lists;
use crate::checksum::checksum_from;
use crate::element::{Element, Wide};
use crate::standard::collections::Held;
use crate::standard::users::Users;
use benchcases::case::{Call, Case, Choice, Pieces, Size};
use benchcases::lines::Task;
use std::alloc::Global;
use std::cmp::Ordering;
use std::io::Write;
use std::mem::replace;

/// The vectors of a case, before and after its run.
#[derive(Drop)]
pub struct Vectors {
    alloc: Global,
    numbers: Pair<u32>,
    // For the cases at the front and others. They share no code with the rest, since this would
    // change what the compiler inlines.
    longs: Pair<u64>,
    bytes: Pair<u8>,
    wides: Pair<Wide>,
    units: Pair<()>,
    source: Vec<u8>,
    // For the inserts in the middle, likewise.
    shorts: Pair<u16>,
    held: Held,
    users: Users,
}

// Two vectors of one type of elements.
#[derive(Drop)]
struct Pair<E> {
    list: Vec<E>,
    other: Vec<E>,
}

impl Lists for Vectors {
    fn try_new(alloc: Global, task: Task<'_>) -> Option<Self> {
        let mut vectors = Vectors {
            alloc,
            numbers: Pair::new(alloc),
            longs: Pair::new(alloc),
            bytes: Pair::new(alloc),
            wides: Pair::new(alloc),
            units: Pair::new(alloc),
            source: Vec::new(alloc),
            shorts: Pair::new(alloc),
            held: Held::new(alloc),
            users: Users::new(alloc),
        };
        if vectors.prepare(task.case, task.count) {
            Some(vectors)
        } else {
            None
        }
    }

    fn run(&mut self, task: Task<'_>) -> bool {
        let count = task.count;
        let numbers = &mut self.numbers.list;
        match task.case {
            Case::Sized(call, size) => self.run_sized(call, size, count),
            Case::Held(collection) => self.held.run(collection, count),
            Case::Used(used) => self.users.run(used, count),
            Case::Chosen(choice) => choose(numbers, choice),
            Case::Pieces(pieces) => {
                put_pieces(&mut self.bytes.list, self.source.as_slice(), pieces, count)
            }
            Case::PushPop => push_pop(numbers, count),
            Case::PushReserved => push_reserved(numbers, count),
            Case::PushFull => push_full(numbers),
            Case::FibPush => fib_push(numbers, count),
            Case::RetainWide => retain_wide(&mut self.wides.list),
            Case::InsertFront => insert_front(&mut self.longs.list),
            Case::RemoveFront => remove_front(&mut self.longs.list),
            Case::SwapRemove => swap_remove(numbers, count),
            Case::EqBytes => {
                let is_equal = eq_bytes(&self.bytes.list, &self.bytes.other);
                numbers.push(u32::from(is_equal)).is_ok()
            }
            Case::CmpBytes => {
                let is_equal = cmp_bytes(&self.bytes.list, &self.bytes.other).is_eq();
                numbers.push(u32::from(is_equal)).is_ok()
            }
            Case::ExtendFromSlice => {
                extend_from_slice(&mut self.bytes.list, self.source.as_slice())
            }
            Case::Extend => extend(numbers, count),
            Case::ExtendUnhinted => extend_unhinted(numbers, count),
            Case::ExtendThrice => extend_thrice(numbers, count),
            Case::Append => append(numbers, &mut self.numbers.other),
            Case::SplitJoin => split_join(&mut self.longs.list, count),
            Case::DrainTaken => drain_taken(numbers),
            Case::DrainDropped => drain_dropped(numbers),
            Case::DrainFront => drain_front(&mut self.longs.list),
            Case::DrainBack => drain_back(&mut self.shorts.list, &mut self.shorts.other, count),
            Case::IntoIter => {
                let list = replace(numbers, Vec::new(self.alloc));
                numbers.push(into_iter(list)).is_ok()
            }
            Case::SpliceGrowing => splice_growing(numbers, count),
            Case::SpliceInPlace => splice_in_place(numbers, count),
            Case::SpliceFront => splice_front(&mut self.longs.list),
            Case::InsertMiddle => insert_middle(&mut self.shorts.list),
            Case::GapInsert => gap_insert(&mut self.shorts.list),
            Case::GapTyping => gap_typing(&mut self.shorts.list, count),
        }
    }

    fn checksum(&self) -> u64 {
        let numbers = self.numbers.checksum(1);
        let longs = self.longs.checksum(numbers);
        let bytes = self.bytes.checksum(longs);
        let wides = self.wides.checksum(bytes);
        let units = self.units.checksum(wides);
        let shorts = self.shorts.checksum(units);
        let held = self.held.checksum(shorts);
        self.users.checksum(held)
    }
}

impl Vectors {
    // Fills the vectors as the case expects them, and returns whether every allocation succeeded.
    fn prepare(&mut self, case: Case, count: u32) -> bool {
        let numbers = &mut self.numbers.list;
        match case {
            Case::Sized(call, Size::Four) => self.numbers.prepare(call, count),
            Case::Sized(call, Size::One) => self.bytes.prepare(call, count),
            Case::Sized(call, Size::TwentyFour) => self.wides.prepare(call, count),
            Case::Sized(call, Size::Zero) => self.units.prepare(call, count),
            Case::PushReserved | Case::Extend | Case::ExtendUnhinted => true,
            Case::SpliceGrowing | Case::FibPush => true,
            Case::RetainWide => fill(&mut self.wides.list, count, 1),
            Case::ExtendThrice => numbers.reserve(count as usize).is_ok(),
            Case::Held(collection) => self.held.prepare(collection, count),
            Case::Used(used) => self.users.prepare(used, count),
            Case::Chosen(choice) => fill_for(numbers, choice, count),
            Case::Pieces(_) => fill_at_random(&mut self.source, count.max(24), 24),
            Case::PushPop => fill(numbers, 3, 1),
            Case::PushFull => {
                numbers.reserve_exact(count as usize).is_ok() && fill(numbers, count, 1)
            }
            Case::InsertFront | Case::RemoveFront | Case::DrainFront | Case::SpliceFront => {
                fill(&mut self.longs.list, count, 1)
            }
            Case::SwapRemove | Case::IntoIter | Case::SpliceInPlace => fill(numbers, count, 1),
            Case::SplitJoin => fill(&mut self.longs.list, 100, 1),
            Case::DrainBack => fill(&mut self.shorts.list, 1000, 1),
            Case::InsertMiddle | Case::GapInsert | Case::GapTyping => {
                fill(&mut self.shorts.list, count, 1)
            }
            Case::DrainTaken | Case::DrainDropped => fill(numbers, count.saturating_mul(2), 1),
            // A number, so that no allocation is needed for that of the result.
            Case::EqBytes | Case::CmpBytes => {
                fill(numbers, 1, 1)
                    && fill(&mut self.bytes.list, count, 1)
                    && fill(&mut self.bytes.other, count, 1)
            }
            Case::ExtendFromSlice => fill(&mut self.source, count, 1),
            Case::Append => fill(&mut self.numbers.other, count, 1),
        }
    }

    fn run_sized(&mut self, call: Call, size: Size, count: u32) -> bool {
        match size {
            Size::Four => self.numbers.run(call, count),
            Size::One => self.bytes.run(call, count),
            Size::TwentyFour => self.wides.run(call, count),
            Size::Zero => self.units.run(call, count),
        }
    }
}

impl<E: Element> Pair<E> {
    fn new(alloc: Global) -> Self {
        Pair {
            list: Vec::new(alloc),
            other: Vec::new(alloc),
        }
    }

    fn prepare(&mut self, call: Call, count: u32) -> bool {
        match call {
            Call::Push | Call::PushInPlace => true,
            Call::InsertPop | Call::RemovePush => fill(&mut self.list, 1000, 1),
            Call::Clone => fill(&mut self.list, count, 1),
        }
    }

    fn run(&mut self, call: Call, count: u32) -> bool {
        match call {
            Call::Push => push(&mut self.list, count),
            Call::PushInPlace => push_in_place(&mut self.list, count),
            Call::InsertPop => insert_pop(&mut self.list, count),
            Call::RemovePush => remove_push(&mut self.list, count),
            Call::Clone => clone(&self.list, &mut self.other),
        }
    }

    fn checksum(&self, sum: u64) -> u64 {
        let list = checksum_from(sum, self.list.as_slice());
        checksum_from(list, self.other.as_slice())
    }
}

// Appends the elements of each number below `count`, divided by `runs`.
fn fill<E: Element>(list: &mut Vec<E>, count: u32, runs: u32) -> bool
    requires { 0 < runs }
{
    each_is_granted!(i in 0..count, list.push(E::of(i / runs)))
}

// Appends the elements of `count` numbers from 1 to `greatest`, in no regular order.
fn fill_at_random<E: Element>(list: &mut Vec<E>, count: u32, greatest: u32) -> bool
    requires { (0 < greatest) × (greatest ≤ 65536) }
{
    let mut state: u32 = 1;
    for _ in 0..count {
        state = state.wrapping_mul(1_664_525).wrapping_add(1_013_904_223);
        if list.push(E::of((state >> 16) % greatest + 1)).is_err() {
            return false;
        }
    }
    true
}

// Fills the list that the choice is made from.
fn fill_for(list: &mut Vec<u32>, choice: Choice, count: u32) -> bool {
    match choice {
        Choice::Dedup => fill(list, count, 3),
        Choice::RetainRandom => fill_at_random(list, count, 65_536),
        _ => fill(list, count, 1),
    }
}

fn choose(list: &mut Vec<u32>, choice: Choice) -> bool {
    match choice {
        Choice::RetainHalf => retain_half(list),
        Choice::RetainMost => retain_most(list),
        Choice::RetainRandom => retain_random(list),
        Choice::RetainNone => retain_none(list),
        Choice::ExtractHalf => extract_half(list),
        Choice::Dedup => dedup(list),
        Choice::DedupByKey => dedup_by_key(list),
    }
}

fn put_pieces(list: &mut Vec<u8>, source: &[u8], pieces: Pieces, count: u32) -> bool {
    match pieces {
        Pieces::OfFour => pieces_of_4(list, source, count),
        Pieces::OfTwenty => pieces_of_20(list, source, count),
        Pieces::Mixed => pieces_mixed(list, source),
        Pieces::Written => write_pieces(list, source, count),
    }
}

#[inline(never)]
fn push<E: Element>(list: &mut Vec<E>, count: u32) -> bool {
    each_is_granted!(i in 0..count, list.push(E::of(i)))
}

#[inline(never)]
fn push_in_place<E: Element>(list: &mut Vec<E>, count: u32) -> bool {
    each_is_granted!(i in 0..count, list.push(E::of(i)))
}

#[inline(never)]
fn insert_pop<E: Element>(list: &mut Vec<E>, count: u32) -> bool {
    let mut sum: u32 = 0;
    for i in 0..count {
        let middle = list.len() / 2;
        if list.insert(middle, E::of(i)).is_err() {
            return false;
        }
        if let Some(x) = list.pop() {
            sum = sum.wrapping_add(x.number());
        }
    }
    list.push(E::of(sum)).is_ok()
}

#[inline(never)]
fn remove_push<E: Element>(list: &mut Vec<E>, count: u32) -> bool {
    let mut sum: u32 = 0;
    for i in 0..count {
        if list.is_empty() {
            return false;
        }
        let middle = list.len() / 2;
        sum = sum.wrapping_add(list.remove(middle).number());
        if list.push(E::of(i)).is_err() {
            return false;
        }
    }
    list.push(E::of(sum)).is_ok()
}

#[inline(never)]
fn clone<E: Element>(list: &Vec<E>, copy: &mut Vec<E>) -> bool {
    match list.clone() {
        Ok(made) => {
            *copy = made;
            true
        }
        Err(_) => false,
    }
}

#[inline(never)]
fn push_pop(list: &mut Vec<u32>, count: u32) -> bool {
    in_and_out!(u32, i in 0..count, list.push(i), list.pop(), |sum| list.push(sum))
}

#[inline(never)]
fn push_reserved(list: &mut Vec<u32>, count: u32) -> bool {
    if list.reserve(count as usize).is_err() {
        return false;
    }
    each_is_granted!(i in 0..count, list.push(i))
}

#[inline(never)]
fn push_full(list: &mut Vec<u32>) -> bool {
    list.push(0).is_ok()
}

#[inline(never)]
fn fib_push(list: &mut Vec<u32>, count: u32) -> bool {
    for _ in 0..count {
        let next = match list.as_slice() {
            [.., a, b] => a.wrapping_add(*b),
            _ => 1,
        };
        if list.push(next).is_err() {
            return false;
        }
    }
    true
}

#[inline(never)]
fn insert_front(list: &mut Vec<u64>) -> bool {
    in_and_out!(u64, i in 0..100, list.insert(0, i), list.pop(), |sum| list.push(sum))
}

#[inline(never)]
fn remove_front(list: &mut Vec<u64>) -> bool {
    let mut sum: u64 = 0;
    for i in 0..100 {
        if list.is_empty() {
            return false;
        }
        sum = sum.wrapping_add(list.remove(0));
        if list.push(i).is_err() {
            return false;
        }
    }
    list.push(sum).is_ok()
}

#[inline(never)]
fn retain_half(list: &mut Vec<u32>) -> bool {
    list.retain(|x| *x % 2 == 0);
    true
}

#[inline(never)]
fn retain_most(list: &mut Vec<u32>) -> bool {
    list.retain(|x| *x % 100 != 0);
    true
}

#[inline(never)]
fn retain_random(list: &mut Vec<u32>) -> bool {
    list.retain(|x| *x > 32_768);
    true
}

#[inline(never)]
fn retain_none(list: &mut Vec<u32>) -> bool {
    list.retain(|x| *x == u32::MAX);
    true
}

#[inline(never)]
fn retain_wide(list: &mut Vec<Wide>) -> bool {
    list.retain(|x| x.number() % 2 == 0);
    true
}

#[inline(never)]
fn extract_half(list: &mut Vec<u32>) -> bool {
    let mut sum: u32 = 0;
    let len = list.len();
    for x in list.extract_if(0..len, |x| *x % 2 == 0) {
        sum = sum.wrapping_add(x);
    }
    list.push(sum).is_ok()
}

#[inline(never)]
fn dedup(list: &mut Vec<u32>) -> bool {
    list.dedup();
    true
}

#[inline(never)]
fn dedup_by_key(list: &mut Vec<u32>) -> bool {
    list.dedup_by_key(|x| *x / 3);
    true
}

#[inline(never)]
fn swap_remove(list: &mut Vec<u32>, count: u32) -> bool {
    let mut sum: u32 = 0;
    for _ in 0..count {
        if list.is_empty() {
            return false;
        }
        let middle = list.len() / 2;
        sum = sum.wrapping_add(list.swap_remove(middle));
    }
    list.push(sum).is_ok()
}

#[inline(never)]
fn pieces_of_4(list: &mut Vec<u8>, source: &[u8], count: u32) -> bool {
    each_is_granted!(piece of source.get(0..4), _ in 0..count, list.extend_from_slice(piece))
}

#[inline(never)]
fn pieces_of_20(list: &mut Vec<u8>, source: &[u8], count: u32) -> bool {
    each_is_granted!(piece of source.get(0..20), _ in 0..count, list.extend_from_slice(piece))
}

// The bytes of `source` are the lengths of the pieces.
#[inline(never)]
fn pieces_mixed(list: &mut Vec<u8>, source: &[u8]) -> bool {
    for length in source {
        let Some(piece) = source.get(0..usize::from(*length)) else {
            return false;
        };
        if list.extend_from_slice(piece).is_err() {
            return false;
        }
    }
    true
}

#[inline(never)]
fn write_pieces(list: &mut Vec<u8>, source: &[u8], count: u32) -> bool {
    each_is_granted!(piece of source.get(0..7), _ in 0..count, list.write_all(piece))
}

#[inline(never)]
fn eq_bytes(list: &Vec<u8>, other: &Vec<u8>) -> bool {
    list == other
}

#[inline(never)]
fn cmp_bytes(list: &Vec<u8>, other: &Vec<u8>) -> Ordering {
    list.cmp(other)
}

#[inline(never)]
fn extend_from_slice(list: &mut Vec<u8>, source: &[u8]) -> bool {
    list.extend_from_slice(source).is_ok()
}

#[inline(never)]
fn extend(list: &mut Vec<u32>, count: u32) -> bool {
    list.extend(0..count).is_ok()
}

#[inline(never)]
fn extend_unhinted(list: &mut Vec<u32>, count: u32) -> bool {
    list.extend((0..count).filter(|_| true)).is_ok()
}

#[inline(never)]
fn extend_thrice(list: &mut Vec<u32>, count: u32) -> bool {
    let third = count / 3;
    list.extend(0..third).is_ok()
        && list.extend(third..2 * third).is_ok()
        && list.extend(2 * third..3 * third).is_ok()
}

#[inline(never)]
fn append(list: &mut Vec<u32>, other: &mut Vec<u32>) -> bool {
    list.append(other).is_ok()
}

#[inline(never)]
fn split_join(list: &mut Vec<u64>, count: u32) -> bool {
    for _ in 0..count / 100 {
        let middle = list.len() / 2;
        let Ok(mut tail) = list.split_off(middle) else {
            return false;
        };
        if list.append(&mut tail).is_err() {
            return false;
        }
    }
    true
}

#[inline(never)]
fn drain_taken(list: &mut Vec<u32>) -> bool {
    let mut sum: u32 = 0;
    let quarter = list.len() / 4;
    let rest = list.len() - quarter;
    for x in list.drain(quarter..rest) {
        sum = sum.wrapping_add(x);
    }
    list.push(sum).is_ok()
}

#[inline(never)]
fn drain_dropped(list: &mut Vec<u32>) -> bool {
    let quarter = list.len() / 4;
    let rest = list.len() - quarter;
    drop(list.drain(quarter..rest));
    true
}

#[inline(never)]
fn drain_front(list: &mut Vec<u64>) -> bool {
    for i in 0..100 {
        if list.is_empty() {
            return false;
        }
        drop(list.drain(0..1));
        if list.push(i).is_err() {
            return false;
        }
    }
    true
}

#[inline(never)]
fn drain_back(list: &mut Vec<u16>, taken: &mut Vec<u16>, count: u32) -> bool {
    for _ in 0..count / 10 {
        let middle = list.len() / 2;
        let end = middle.saturating_add(10).min(list.len());
        if taken.extend(list.drain(middle..end)).is_err() {
            return false;
        }
        if list.append(taken).is_err() {
            return false;
        }
    }
    true
}

#[inline(never)]
fn into_iter(list: Vec<u32>) -> u32 {
    let mut sum: u32 = 0;
    for x in list {
        sum = sum.wrapping_add(x);
    }
    sum
}

#[inline(never)]
fn splice_growing(list: &mut Vec<u32>, count: u32) -> bool {
    for _ in 0..count / 100 {
        let middle = list.len() / 2;
        if list.splice(middle..middle, 0..100).is_err() {
            return false;
        }
    }
    true
}

#[inline(never)]
fn splice_in_place(list: &mut Vec<u32>, count: u32) -> bool {
    for _ in 0..count / 100 {
        let middle = list.len() / 2;
        let end = middle.saturating_add(100).min(list.len());
        if list.splice(middle..end, 0..100).is_err() {
            return false;
        }
    }
    true
}

#[inline(never)]
fn splice_front(list: &mut Vec<u64>) -> bool {
    in_and_out!(u64, i in 0..100, list.splice(0..0, i..i + 1), list.pop(), |sum| list.push(sum))
}

#[inline(never)]
fn insert_middle(list: &mut Vec<u16>) -> bool {
    let middle = list.len() / 2;
    for i in 0..1000 {
        let at = middle.saturating_add(usize::from(i)).min(list.len());
        if list.insert(at, i).is_err() {
            return false;
        }
    }
    true
}

// The toolchain has no gap buffer.
#[inline(never)]
fn gap_insert(list: &mut Vec<u16>) -> bool {
    insert_middle(list)
}

#[inline(never)]
fn gap_typing(list: &mut Vec<u16>, count: u32) -> bool {
    let mut state: u32 = 1;
    for _ in 0..count / 100 {
        state = state.wrapping_mul(1_664_525).wrapping_add(1_013_904_223);
        let at = ((state >> 8) as usize % list.len().max(1)).min(list.len());
        if list.splice(at..at, 0..100).is_err() {
            return false;
        }
    }
    true
}
