//! The command `Drain` of `run`, and its parts.
ghost use Rattle.std.specs.Prelude.{◌+◌, ◌-◌, ◌≤◌, length, ⊤};
ghost use Rattle.std.specs.Mem.{type_size};
ghost use Rattle.aa_vec.specs.Drain.{drain_remaining};
ghost use Rattle.aa_vec.specs.Vector.{len, HasRoom};
ghost use Rattle.allocator_api2.specs.Commands.{Performs};
ghost use Rattle.allocator_api2.specs.RangeCommands.{Drained, TakesFront, TakesBack, ends_at};
ghost use Rattle.allocator_api2.specs.declared.runner.Command.{Command};

use crate::runner::{Reply, push_within};
use aa_vec::vec::{Drain, Vec};
use std::alloc::Allocator;
use std::ops::Range;

// Which items of a range are taken, and what becomes of the others.
#[derive(Drop)]
pub(crate) struct Taking {
    // How many items are taken from the front.
    pub(crate) front: usize,
    // How many of the others are taken from the back.
    pub(crate) back: usize,
    // Whether the remaining items are kept, or else dropped.
    pub(crate) keep: bool,
}

// Tests the range, reserves capacity in side for the requested elements, and then moves them there.
#[tactic(auto, using(aa_vec::proofs::Becoming::became, crate::proofs::ByKind::failed))]
pub(crate) fn drain<T: Drop, A: Allocator>(
    main: &mut Vec<T, A>,
    side: &mut Vec<T, A>,
    range: Range<usize>,
    taking: Taking,
) -> Reply<T>
    ensures { Performs (type_size T.row) ⊤ main.old side.old
        (Command.Drain range.start range.end taking.front taking.back taking.keep)
        result main.new side.new }
{
    if range.start > range.end || range.end > main.len() {
        return Reply::Range;
    }
    let count = range.end - range.start;
    let front = taking.front.min(count);
    let back = taking.back.min(count - front);
    if let Err(error) = side.try_reserve(front + back) {
        return Reply::Refused(error.kind());
    }
    let keep = taking.keep;
    drain_into(main, side, range, Taking { front, back, keep });
    Reply::Done
}

// Takes these items of a range, those from the front first, and appends them to side, which has
// spare capacity for them.
fn drain_into<T: Drop, A: Allocator>(
    main: &mut Vec<T, A>,
    side: &mut Vec<T, A>,
    range: Range<usize>,
    taking: Taking,
)
    requires range { (range.start ≤ range.end) × (range.end ≤ len main.old)
        × (taking.front + taking.back ≤ range.end - range.start) }
    requires room { HasRoom side.old (taking.front + taking.back) }
    ensures { Drained main.old side.old (ends_at range.start range.end taking.front taking.back)
        taking.keep main.new side.new }
{
    let mut items = main.drain(range);
    take_front(&mut items, side, taking.front);
    take_back(&mut items, side, taking.back);
    if taking.keep {
        items.keep_rest();
    }
}

// Takes `count` items from the front, and appends them to a vector that has spare capacity for
// them.
#[tactic(auto, using(crate::proofs::Taking::takes))]
fn take_front<T: Drop, A: Allocator>(
    items: &mut Drain<'_, T, A>,
    side: &mut Vec<T, A>,
    count: usize,
)
    requires { (count ≤ length (drain_remaining items.old)) × HasRoom side.old count }
    ensures { TakesFront items.old side.old count items.new side.new }
{
    'each: for _taken in 0..count {
        match items.next() {
            Some(item) => push_within(side, item),
            None => unreachable!(),
        }
    }
}

// Like `take_front`, but from the back, the last item first.
#[tactic(auto, using(crate::proofs::Taking::takes))]
fn take_back<T: Drop, A: Allocator>(items: &mut Drain<'_, T, A>, side: &mut Vec<T, A>, count: usize)
    requires { (count ≤ length (drain_remaining items.old)) × HasRoom side.old count }
    ensures { TakesBack items.old side.old count items.new side.new }
{
    'each: for _taken in 0..count {
        match items.next_back() {
            Some(item) => push_within(side, item),
            None => unreachable!(),
        }
    }
}
