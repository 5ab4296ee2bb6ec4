//! `run`, command by command: on lists of 0 to 100 numbers, with all places full, one free and many
//! free, and each request failing in turn. What a command replies and what it leaves are in the
//! contract of `run`; what a failed one leaves is compared here too. That it fails only if a
//! request does, or past the limits, is in none.
ghost use Rattle.std.specs.Prelude.{◌≡◌, ℕ, List, [], ◌∷◌};
ghost use Rattle.aa_raw.specs.declared.raw_vec.Growth.TheVariants.{Doubling};
ghost use Rattle.allocator_api2.specs.Growths.{of_new};
ghost use Rattle.allocator_api2.specs.Run.{cost_of};
ghost use Rattle.allocator_api2.specs.declared.runner.Command.TheVariants.{ExtractIf};
ghost use Rattle.allocator_api2.specs.declared.runner.Reply.TheVariants.{Done};
ghost use Rattle.aa_vec.specs.Vector.{Vector};

use crate::seen::{List, put, room_for};
use allocator_api2::collections::TryReserveErrorKind;
use allocator_api2::runner::{Command, Reply, run};
use allocator_api2::vec::Vec;
use std::alloc::Global;
use std::test::Fail;
use test_allocators::Faulty;

// A command whose element is 7, and whose items are as many numbers as its first one says.
#[derive(Clone, Copy)]
enum Called {
    Push,
    Within,
    Pop,
    Insert(usize),
    Remove(usize),
    SwapRemove(usize),
    Truncate(usize),
    Clear,
    Reserve(usize),
    ReserveExact(usize),
    ShrinkTo(usize),
    SplitOff(usize),
    Append,
    Extend(u32, Option<usize>),
    ExtendFromWithin(usize, usize),
    Resize(usize),
    Retain,
    Dedup,
    Drain(usize, usize, usize, usize, bool),
    ExtractIf(usize, usize, usize),
    Splice(u32, usize, usize, Option<usize>),
}

type Commands<'a> = List<'a, Command<u32, &'a Faulty<Global>>>;

// So many numbers, in pairs, and so many places more.
fn pairs<'a>(heap: &'a Faulty<Global>, count: u32, free: usize) -> List<'a, u32> {
    let mut list = room_for((count as usize).saturating_add(free), heap);
    for x in 0..count {
        put(&mut list, x / 2);
    }
    list
}

// Returns the command of `run` for a row.
fn command_of<'a>(heap: &'a Faulty<Global>, call: Called) -> Command<u32, &'a Faulty<Global>> {
    match call {
        Called::Push => Command::Push(7),
        Called::Within => Command::Within(7),
        Called::Pop => Command::Pop,
        Called::Insert(at) => Command::Insert(at, 7),
        Called::Remove(at) => Command::Remove(at),
        Called::SwapRemove(at) => Command::SwapRemove(at),
        Called::Truncate(n) => Command::Truncate(n),
        Called::Clear => Command::Clear,
        Called::Reserve(n) => Command::Reserve(n),
        Called::ReserveExact(n) => Command::ReserveExact(n),
        Called::ShrinkTo(n) => Command::ShrinkTo(n),
        Called::SplitOff(at) => Command::SplitOff(at),
        Called::Append => Command::Append,
        Called::Extend(count, hint) => Command::Extend {
            items: pairs(heap, count, 0),
            hint,
        },
        Called::ExtendFromWithin(from, to) => Command::ExtendFromWithin(from, to),
        Called::Resize(n) => Command::Resize(n, 7),
        Called::Retain => Command::Retain,
        Called::Dedup => Command::Dedup,
        Called::Drain(start, end, front, back, keep) => Command::Drain {
            start,
            end,
            front,
            back,
            keep,
        },
        Called::ExtractIf(start, end, take) => Command::ExtractIf { start, end, take },
        Called::Splice(count, start, end, hint) => Command::Splice {
            start,
            end,
            items: pairs(heap, count, 0),
            hint,
        },
    }
}

// The list of that command.
fn commands_of<'a>(heap: &'a Faulty<Global>, call: Called) -> Commands<'a> {
    let mut commands = room_for(1, heap);
    put(&mut commands, command_of(heap, call));
    commands
}

// How a command ended: done in some way, failed for lack of memory, or past the limits; or there is
// not one reply.
#[derive(Clone, Copy, PartialEq)]
enum Ended {
    Done,
    NoMemory,
    TooLong,
    NoReply,
}

fn ended_by(replies: &[Reply<u32>]) -> Ended {
    match replies {
        [Reply::Refused(TryReserveErrorKind::AllocError { .. })] => Ended::NoMemory,
        [Reply::Refused(TryReserveErrorKind::CapacityOverflow)] => Ended::TooLong,
        [_] => Ended::Done,
        _ => Ended::NoReply,
    }
}

// Runs a command while the request numbered `failed` of the run fails: how it ends.
fn ran<'a>(
    heap: &'a Faulty<Global>,
    main: &mut List<'a, u32>,
    side: &mut List<'a, u32>,
    commands: Commands<'a>,
    failed: u64,
) -> Ended {
    let Ok(mut replies) = Vec::with_capacity_in(commands.len(), heap) else {
        return Ended::NoReply;
    };
    heap.fail_requests(failed, 1);
    run(
        main,
        side,
        commands,
        &mut |x: &mut u32| *x % 2 == 0,
        &mut |x: &mut u32, y: &mut u32| x == y,
        &mut replies,
    );
    heap.fail_requests(0, 0);
    ended_by(replies.as_slice())
}

// Whether numbers are those of a list of pairs from an index on.
fn are_pairs(numbers: &[u32], from: usize) -> bool {
    let mut index = from;
    for x in numbers {
        if *x as usize != index / 2 {
            return false;
        }
        index = index.saturating_add(1);
    }
    true
}

// The range of main that a command replaces, and the number of its items.
fn replaced_by(call: Called, len: usize) -> ((usize, usize), usize) {
    match call {
        Called::Extend(count, _hint) => ((len, len), count as usize),
        Called::Splice(count, start, end, _hint) => ((start, end), count as usize),
        _ => ((len, len), 0),
    }
}

// Returns whether a list of so many pairs is as a failed command leaves it: the numbers before the
// range and after it, and between them the first of its items. The items fill the range, or every
// place if nothing follows. The capacity changes only for such a command, or for one that clones.
fn is_left(list: &List<'_, u32>, call: Called, len: usize, free: usize) -> bool {
    let ((start, end), count) = replaced_by(call, len);
    let (all, after) = (list.as_slice(), len.saturating_sub(end));
    let (head, rest) = all.split_at(start.min(all.len()));
    let (items, tail) = rest.split_at(rest.len().saturating_sub(after));
    let places = len.saturating_add(free);
    let fits = match call {
        Called::Extend(..) | Called::Splice(..) if after == 0 => list.capacity() == all.len(),
        Called::Splice(..) => end <= start.saturating_add(items.len()),
        Called::ExtendFromWithin(..) | Called::Resize(_) => true,
        _ => list.capacity() == places,
    };
    let counted = head.len() == start && tail.len() == after && items.len() <= count;
    let numbered = are_pairs(head, 0) && are_pairs(items, 0) && are_pairs(tail, end);
    fits && counted && numbered && places <= list.capacity()
}

// Runs a command on lists of so many numbers, and of three, with so many places more, while the
// request numbered `failed` of the run fails: how it ends, whether there was such a request, and
// whether a failed command leaves the lists as it must.
fn came_of(
    heap: &Faulty<Global>,
    call: Called,
    len: u32,
    free: usize,
    failed: u64,
) -> (Ended, bool, bool) {
    let mut main = pairs(heap, len, free);
    let mut side = pairs(heap, 3, free);
    let commands = commands_of(heap, call);
    let before = heap.failures();
    let ended = ran(heap, &mut main, &mut side, commands, failed);
    let left = ended == Ended::Done
        || is_left(&main, call, len as usize, free) && is_left(&side, Called::Clear, 3, free);
    (ended, heap.failures() != before, left)
}

// Returns whether a command fails once whenever a request does, each in turn, and else not for lack
// of memory; and whether each failed one leaves the lists as it must.
fn each_request_can_fail(heap: &Faulty<Global>, call: Called, len: u32, free: usize) -> bool {
    for failed in 0..64 {
        let (ended, any, left) = came_of(heap, call, len, free, failed);
        if ended == Ended::NoReply || any != (ended == Ended::NoMemory) || !left {
            return false;
        }
        if !any {
            return true;
        }
    }
    false
}

// Commands at the indices of a list: its start, its middle, its end and one past it.
fn edits(len: usize) -> [Called; 20] {
    let (mid, past) = (len / 2, len.saturating_add(1));
    [
        Called::Push,
        Called::Within,
        Called::Pop,
        Called::Insert(0),
        Called::Insert(mid),
        Called::Insert(len),
        Called::Insert(past),
        Called::Remove(0),
        Called::Remove(mid),
        Called::Remove(len),
        Called::SwapRemove(0),
        Called::SwapRemove(len.saturating_sub(1)),
        Called::SwapRemove(len),
        Called::Truncate(mid),
        Called::Truncate(past),
        Called::Clear,
        Called::SplitOff(0),
        Called::SplitOff(mid),
        Called::SplitOff(len),
        Called::SplitOff(past),
    ]
}

// Commands that request places, and that add many elements.
fn many(len: usize) -> [Called; 25] {
    let (mid, past) = (len / 2, len.saturating_add(1));
    [
        Called::Reserve(0),
        Called::Reserve(1),
        Called::Reserve(past),
        Called::Reserve(usize::MAX),
        Called::ReserveExact(1),
        Called::ReserveExact(past),
        Called::ReserveExact(usize::MAX),
        Called::ShrinkTo(0),
        Called::ShrinkTo(past),
        Called::Append,
        Called::Extend(0, None),
        Called::Extend(1, None),
        Called::Extend(9, None),
        Called::Extend(9, Some(0)),
        Called::Extend(9, Some(3)),
        Called::Extend(9, Some(20)),
        Called::ExtendFromWithin(0, len),
        Called::ExtendFromWithin(mid, len),
        Called::ExtendFromWithin(mid, mid),
        Called::ExtendFromWithin(len, past),
        Called::ExtendFromWithin(past, len),
        Called::Resize(mid),
        Called::Resize(len),
        Called::Resize(past),
        Called::Resize(len.saturating_add(9)),
    ]
}

// Commands over ranges, and those that call a closure.
fn ranges(len: usize) -> [Called; 25] {
    let (mid, past) = (len / 2, len.saturating_add(1));
    [
        Called::Retain,
        Called::Dedup,
        Called::Drain(0, len, 1, 1, true),
        Called::Drain(0, mid, usize::MAX, 1, true),
        Called::Drain(mid, len, 0, 2, false),
        Called::Drain(mid, mid, 1, 1, false),
        Called::Drain(0, past, 1, 1, true),
        Called::Drain(past, len, 1, 1, true),
        Called::ExtractIf(0, len, usize::MAX),
        Called::ExtractIf(mid, len, 1),
        Called::ExtractIf(0, mid, 0),
        Called::ExtractIf(0, past, 1),
        Called::ExtractIf(past, len, 1),
        Called::Splice(0, 0, mid, None),
        Called::Splice(1, 0, mid, None),
        Called::Splice(9, 0, mid, None),
        Called::Splice(9, 0, mid, Some(0)),
        Called::Splice(9, 0, mid, Some(4)),
        Called::Splice(9, mid, mid, Some(1)),
        Called::Splice(1, 0, mid, Some(50)),
        Called::Splice(9, mid, len, None),
        Called::Splice(9, mid, len, Some(1)),
        Called::Splice(0, 0, len, Some(50)),
        Called::Splice(1, mid, past, None),
        Called::Splice(1, past, len, None),
    ]
}

// Returns how many of some commands do not fail as they must on a list of so many.
fn faults_of(heap: &Faulty<Global>, all: &[Called], len: u32) -> usize {
    let mut faults = 0usize;
    for call in all {
        for free in [0, 1, 40] {
            if !each_request_can_fail(heap, *call, len, free) {
                faults = faults.saturating_add(1);
            }
        }
    }
    faults
}

// How many of all of them.
fn faults(heap: &Faulty<Global>, len: u32) -> [usize; 3] {
    let places = len as usize;
    [
        faults_of(heap, &edits(places), len),
        faults_of(heap, &many(places), len),
        faults_of(heap, &ranges(places), len),
    ]
}

#[test]
fn each_command_fails_where_a_request_does(rt: HostRuntime) {
    let heap = Faulty::new(rt.alloc());
    for len in 0..=100 {
        assert!(rt; faults(&heap, len) == [0, 0, 0], "on a list of {len}");
    }
    assert!(rt; heap.outstanding() == 0);
}

// Returns whether a command on three numbers without spare capacity fails for a size or a length.
fn is_too_long(alloc: Global, call: Called) -> bool {
    came_of(&Faulty::new(alloc), call, 3, 0, u64::MAX) == (Ended::TooLong, false, true)
}

// More than the limit on bytes allows beside three numbers, and more than can be counted.
#[test]
fn each_command_fails_past_the_limits(rt: HostRuntime) {
    let (much, most) = ((1 << 61) - 1, usize::MAX);
    for call in [
        Called::Reserve(much),
        Called::Reserve(most),
        Called::ReserveExact(much),
        Called::ReserveExact(most),
        Called::Extend(2, Some(much)),
        Called::Extend(2, Some(most)),
        Called::Resize(1 << 61),
        Called::Splice(2, 0, 1, Some(1 << 61)),
        Called::Splice(2, 0, 1, Some(most)),
    ] {
        assert!(rt; is_too_long(rt.alloc(), call));
    }
}

// Of `[1,2,3,4,5,6]` an extraction removes 2 and 4: it writes at most three elements of main. (A
// number represents the allocator.)
fn two_taken_out()
    ensures { let of : List ℕ → Vector ℕ ℕ = λ xs. record {
      items = xs;
      capacity = 6;
      growth = Doubling;
      grown = of_new 4 6;
      written = 0;
      runs = 0;
      alloc = 0;
      spare = [];
    } in
        cost_of (of (1 ∷ 2 ∷ 3 ∷ 4 ∷ 5 ∷ 6 ∷ [])) (of []) (ExtractIf 1 6 2) [] Done
        (of (1 ∷ 3 ∷ 5 ∷ 6 ∷ [])) ≡ 3 }
{}
