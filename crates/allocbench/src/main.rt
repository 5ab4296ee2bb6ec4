//! Measures vectors and boxes over the allocators of `aa_allocators`, beside the global allocator.
//!
//! The times show what each layer costs. Pushes are measured beside pushes onto the toolchain's
//! vector, which grows in place.
#![tactic(auto)]

use aa_allocators::budget::Budget;
use aa_allocators::counting::Counting;
use aa_allocators::pool::Pool;
use aa_allocators::recycler::Recycler;
use allocator_api2::boxed::Box;
use allocator_api2::vec::Vec;
use std::alloc::{Allocator, Global};
use std::io::{Error, ErrorKind};
use std::mem::size_of;
use std::rt::Clock;
use std::time::Instant;

/// A case: what is done over an allocator.
#[derive(Clone, Copy)]
enum Case {
    /// Pushes numbers of 4 bytes onto one vector.
    Pushes,
    /// Pushes elements of 24 bytes onto one vector.
    Pushes24,
    /// Allocates boxes and drops them, one after the other.
    Boxes,
    /// Keeps boxes in one vector, and then drops all.
    Kept,
    /// Links boxes into a list, and then removes them.
    List,
}

impl Case {
    fn name(self) -> &'static str {
        match self {
            Case::Pushes => "pushes",
            Case::Pushes24 => "pushes_24",
            Case::Boxes => "boxes",
            Case::Kept => "kept",
            Case::List => "list",
        }
    }

    // Returns the size in bytes of the blocks that the case mostly requests.
    fn size(self) -> usize {
        match self {
            Case::Pushes | Case::Pushes24 | Case::Boxes | Case::Kept => size_of::<u64>(),
            Case::List => size_of::<Node<&Pool<Global>>>(),
        }
    }

    // Runs the case and returns the sum of its elements, or `None` if an allocation fails.
    fn run<A: Allocator + Copy>(self, heap: A, count: u32) -> Option<u64> {
        match self {
            Case::Pushes => pushes(heap, count),
            Case::Pushes24 => pushes_24(heap, count),
            Case::Boxes => boxes(heap, count),
            Case::Kept => kept(heap, count),
            Case::List => list(heap, count),
        }
    }

    // Returns whether the case can be run over the toolchain's vector.
    fn is_theirs(self) -> bool {
        match self {
            Case::Pushes | Case::Pushes24 => true,
            Case::Boxes | Case::Kept | Case::List => false,
        }
    }

    // Runs the case over the toolchain's vector, if it can be.
    fn run_theirs(self, alloc: Global, count: u32) -> Option<u64> {
        match self {
            Case::Pushes => their_pushes(alloc, count),
            Case::Pushes24 => their_pushes_24(alloc, count),
            Case::Boxes | Case::Kept | Case::List => None,
        }
    }
}

fn pushes<A: Allocator>(heap: A, count: u32) -> Option<u64> {
    let mut list: Vec<u32, A> = Vec::new_in(heap);
    for number in 0..count {
        if list.push(number).is_err() {
            return None;
        }
    }
    Some(sum(list.as_slice()))
}

fn their_pushes(alloc: Global, count: u32) -> Option<u64> {
    let mut list: std::vec::Vec<u32> = std::vec::Vec::new(alloc);
    for number in 0..count {
        if list.push(number).is_err() {
            return None;
        }
    }
    Some(sum(list.as_slice()))
}

fn sum(list: &[u32]) -> u64 {
    let mut sum = 0u64;
    for number in list.iter() {
        sum = sum.wrapping_add(u64::from(*number));
    }
    sum
}

fn pushes_24<A: Allocator>(heap: A, count: u32) -> Option<u64> {
    let mut list: Vec<[u64; 3], A> = Vec::new_in(heap);
    for number in 0..count {
        if list.push([u64::from(number); 3]).is_err() {
            return None;
        }
    }
    Some(sum_24(list.as_slice()))
}

fn their_pushes_24(alloc: Global, count: u32) -> Option<u64> {
    let mut list: std::vec::Vec<[u64; 3]> = std::vec::Vec::new(alloc);
    for number in 0..count {
        if list.push([u64::from(number); 3]).is_err() {
            return None;
        }
    }
    Some(sum_24(list.as_slice()))
}

fn sum_24(list: &[[u64; 3]]) -> u64 {
    let mut sum = 0u64;
    for item in list.iter() {
        sum = sum.wrapping_add(item[2]);
    }
    sum
}

fn boxes<A: Allocator + Copy>(heap: A, count: u32) -> Option<u64> {
    let mut sum = 0u64;
    for number in 0..count {
        match Box::new_in(u64::from(number), heap) {
            Ok(it) => sum = sum.wrapping_add(*it),
            Err(_) => return None,
        }
    }
    Some(sum)
}

fn kept<A: Allocator + Copy>(heap: A, count: u32) -> Option<u64> {
    let mut list: Vec<Box<u64, A>, A> = Vec::new_in(heap);
    for number in 0..count {
        match Box::new_in(u64::from(number), heap) {
            Ok(it) => {
                if list.push(it).is_err() {
                    return None;
                }
            }
            Err(_) => return None,
        }
    }
    let mut sum = 0u64;
    for it in list.iter() {
        sum = sum.wrapping_add(**it);
    }
    Some(sum)
}

/// A node: a number, and the rest of the list.
struct Node<A: Allocator> {
    next: Option<Box<Node<A>, A>>,
    number: u64,
}

// A loop, so that a long list needs no deep stack.
impl<A: Allocator> Drop for Node<A> {
    fn drop(mut self) {
        loop {
            let Node { next, number: _ } = self;
            match next {
                None => return,
                Some(node) => self = Box::into_inner(node),
            }
        }
    }
}

impl<A: Allocator> Node<A> {
    fn into_parts(self) -> (u64, Option<Box<Node<A>, A>>) {
        let Node { next, number } = self;
        (number, next)
    }
}

fn list<A: Allocator + Copy>(heap: A, count: u32) -> Option<u64> {
    let mut head: Option<Box<Node<A>, A>> = None;
    for number in 0..count {
        let number = u64::from(number);
        match Box::new_in(Node { next: head, number }, heap) {
            Ok(node) => head = Some(node),
            Err(_) => return None,
        }
    }
    let mut sum = 0u64;
    for _ in 0..count {
        let Some(node) = head else {
            return None;
        };
        let (number, next) = Box::into_inner(node).into_parts();
        sum = sum.wrapping_add(number);
        head = next;
    }
    Some(sum)
}

// The number of runs of each allocator in a row. The later runs find its memory as it left it, and
// not as five others did.
const IN_A_ROW: u32 = 4;

/// The allocator of a case.
#[derive(Clone, Copy, PartialEq)]
enum Heap {
    Global,
    Budget,
    Counting,
    Pool,
    Recycler,
    /// The global allocator, under the toolchain's vector.
    Theirs,
}

impl Heap {
    fn name(self) -> &'static str {
        match self {
            Heap::Global => "Global",
            Heap::Budget => "Budget",
            Heap::Counting => "Counting",
            Heap::Pool => "Pool",
            Heap::Recycler => "Recycler",
            Heap::Theirs => "the toolchain's vector",
        }
    }

    // Returns whether the case can be run over this allocator.
    fn takes(self, case: Case) -> bool {
        self != Heap::Theirs || case.is_theirs()
    }
}

/// The allocators of a line.
#[derive(Drop)]
struct Heaps {
    alloc: Global,
    budget: Budget<Global>,
    counting: Counting<Global>,
    pool: Pool<Global>,
    recycler: Recycler<Global>,
}

impl Heaps {
    fn new(alloc: Global, case: Case) -> Heaps {
        Heaps {
            alloc,
            budget: Budget::new(alloc, usize::MAX),
            counting: Counting::new(alloc),
            pool: Pool::new(alloc, case.size()),
            recycler: Recycler::new(alloc),
        }
    }

    fn run(&self, heap: Heap, case: Case, count: u32) -> Option<u64> {
        match heap {
            Heap::Global => case.run(self.alloc, count),
            Heap::Budget => case.run(&self.budget, count),
            Heap::Counting => case.run(&self.counting, count),
            Heap::Pool => case.run(&self.pool, count),
            Heap::Recycler => case.run(&self.recycler, count),
            Heap::Theirs => case.run_theirs(self.alloc, count),
        }
    }

    // Returns whether all allocators lead to the same sum, twice for those that reuse blocks.
    fn agree(&self, case: Case, count: u32) -> bool {
        let mut first = None;
        for heap in [
            Heap::Global,
            Heap::Budget,
            Heap::Counting,
            Heap::Pool,
            Heap::Pool,
            Heap::Recycler,
            Heap::Recycler,
            Heap::Theirs,
        ] {
            if heap.takes(case) {
                let Some(sum) = self.run(heap, case, count) else {
                    return false;
                };
                if *first.get_or_insert(sum) != sum {
                    return false;
                }
            }
        }
        true
    }
}

// Returns the time of the fastest of a few runs in a row.
fn time_of<R: Clock>(
    clock: &R,
    heaps: &Heaps,
    heap: Heap,
    case: Case,
    count: u32,
) -> Result<u128, Error> {
    let mut fastest = u128::MAX;
    for _ in 0..IN_A_ROW {
        let start = Instant::now(clock)?;
        let done = heaps.run(heap, case, count);
        let time = start.elapsed(clock)?.as_nanos();
        if done.is_none() {
            return Err(Error::from(ErrorKind::OutOfMemory));
        }
        fastest = fastest.min(time);
    }
    Ok(fastest)
}

/// An allocator, and the time of its fastest run.
#[derive(Clone, Copy)]
struct Timed {
    heap: Heap,
    fastest: u128,
}

impl Timed {
    fn new(heap: Heap) -> Timed {
        Timed {
            heap,
            fastest: u128::MAX,
        }
    }
}

// Returns the fastest times of `repeat` rounds, in which the allocators take turns.
fn rounds<R: Clock>(
    clock: &R,
    heaps: &Heaps,
    case: Case,
    count: u32,
    repeat: u32,
) -> Result<[Timed; 6], Error> {
    let mut times = [
        Timed::new(Heap::Global),
        Timed::new(Heap::Budget),
        Timed::new(Heap::Counting),
        Timed::new(Heap::Pool),
        Timed::new(Heap::Recycler),
        Timed::new(Heap::Theirs),
    ];
    for _ in 0..repeat {
        for it in times.iter_mut() {
            if it.heap.takes(case) {
                let time = time_of(clock, heaps, it.heap, case, count)?;
                it.fastest = it.fastest.min(time);
            }
        }
    }
    Ok(times)
}

// Returns the times of the rounds, over new allocators.
fn times<R: Clock>(
    clock: &R,
    alloc: Global,
    case: Case,
    count: u32,
    repeat: u32,
) -> Result<[Timed; 6], Error> {
    let heaps = Heaps::new(alloc, case);
    rounds(clock, &heaps, case, count, repeat)
}

// Returns whether all lead to the same sum, and the number of requests to the counting allocator.
fn check(alloc: Global, case: Case, count: u32) -> (bool, u64) {
    let heaps = Heaps::new(alloc, case);
    let same = heaps.agree(case, count);
    (same, heaps.counting.counts().requests)
}

// Returns the time in tenths of a nanosecond for each element.
fn tenths(time: u128, count: u32) -> u128 {
    time.saturating_mul(10) / u128::from(count.max(1))
}

fn print_times<R: Print>(rt: &R, case: Case, count: u32, times: [Timed; 6]) -> Result<(), Error> {
    print!(rt; "{} {count}", case.name())?;
    let mut before = ":";
    for it in times {
        if it.heap.takes(case) {
            print!(rt; "{before} {} {}", it.heap.name(), tenths(it.fastest, count))?;
            before = ",";
        }
    }
    println!(rt; " tenths of a nanosecond")
}

// Prints the line of one case: the time of each allocator, or with `repeat` 0 whether all lead to
// the same sum.
fn line<R: Print + Clock>(
    rt: &R,
    alloc: Global,
    case: Case,
    count: u32,
    repeat: u32,
) -> Result<(), Error> {
    if repeat == 0 {
        let (same, requests) = check(alloc, case, count);
        let name = case.name();
        return println!(rt; "{name} {count}: the same: {same}, {requests} requests");
    }
    let times = times(rt, alloc, case, count, repeat)?;
    print_times(rt, case, count, times)
}

// Parses a line of the input: the number of elements, and that of rounds, or 0 to report no time.
fn numbers(line: &str) -> Option<(u32, u32)> {
    let mut words = line.split_ascii_whitespace();
    let count = words.next()?.parse().ok()?;
    let repeat = words.next()?.parse().ok()?;
    Some((count, repeat))
}

fn main(rt: HostRuntime) -> Result<(), Error> {
    for text in rt.lines(rt.alloc()) {
        let text = text?;
        let Some((count, repeat)) = numbers(text.as_str()) else {
            return Err(Error::from(ErrorKind::InvalidInput));
        };
        for case in [
            Case::Pushes,
            Case::Pushes24,
            Case::Boxes,
            Case::Kept,
            Case::List,
        ] {
            line(&rt, rt.alloc(), case, count, repeat)?;
        }
    }
    Ok(())
}
