//! `run`, which runs a list of commands on two vectors, as a run of the list machine.
ghost use Rattle.std.specs.Prelude.{◌≡◌, List, [], ◌∷◌, ◌++◌, length};
ghost use Rattle.std.specs.Mem.{type_size};
ghost use Rattle.aa_vec.specs.Copies.{ClonesAreEqual};
ghost use Rattle.aa_vec.specs.Vector.{HasRoom, Holds, SameBlock};
ghost use Rattle.allocator_api2.specs.Commands.{PerformsStep};
ghost use Rattle.allocator_api2.specs.Machine.{state_of, calls_of, IsPossible};
ghost use Rattle.allocator_api2.specs.Run.{RunsWithin, MayCall, IsCallableOnRuns};

use crate::runner::draining::Taking;
use crate::runner::extracting::Part;
use aa_raw::collections::TryReserveErrorKind;
use aa_vec::vec::Vec;
use std::alloc::{Allocator, Global};

mod commands;
mod draining;
mod extracting;

/// A command for `run`, which acts on the vector `main`, and in some cases on `side` too.
#[derive(Drop)]
pub enum Command<T, A: Allocator = Global> {
    /// Appends an element.
    Push(T),
    /// Appends an element if there is spare capacity, and otherwise returns it. Does not allocate.
    Within(T),
    /// Removes the last element and returns it.
    Pop,
    /// Inserts an element at an index, which is at most the length.
    Insert(usize, T),
    /// Removes the element at an index and returns it, and moves those after it down by one.
    Remove(usize),
    /// Removes the element at an index and returns it, replacing it with the last element.
    SwapRemove(usize),
    /// Shortens main to this length, dropping the rest. Does nothing if main is not longer.
    Truncate(usize),
    /// Drops all elements.
    Clear,
    /// Reserves capacity for at least this many more elements, growing by the growth policy.
    Reserve(usize),
    /// Reserves capacity for this many more elements, growing to no more than that.
    ReserveExact(usize),
    /// Shrinks the capacity to this lower bound, or to the length if that is greater.
    ShrinkTo(usize),
    /// Splits main at an index, which is at most the length. The elements from there on replace
    /// those of side.
    SplitOff(usize),
    /// Appends all elements of side, leaving side empty.
    Append,
    /// Appends the items of an iterator, with this lower bound in its size hint.
    Extend {
        /// The items, in order.
        items: Vec<T, A>,
        /// The lower bound, which need not be true; `None` for the number of remaining items.
        hint: Option<usize>,
    },
    /// Appends clones of the elements from the first index up to, but not including, the second.
    ExtendFromWithin(usize, usize),
    /// Truncates main to this length, or appends clones of an element up to it, and the element
    /// itself last.
    Resize(usize, T),
    /// Calls `keep` once for each element, in order, and drops those for which it returns `false`.
    Retain,
    /// Calls `same` for each element but the first, with the last element kept before it, and drops
    /// the element if `same` returns `true`.
    Dedup,
    /// Removes elements from the front and then from the back of a range, and appends them to side
    /// in this order.
    Drain {
        /// The index of the range's first element.
        start: usize,
        /// The index before which it ends, which is at most the length.
        end: usize,
        /// How many elements are removed from the front, or the length of the range if smaller.
        front: usize,
        /// How many of the others are removed from the back, or all of them if they are fewer.
        back: usize,
        /// Whether the remaining elements of the range are kept in main, or else dropped.
        keep: bool,
    },
    /// Removes from a range the elements for which `keep` returns `true`, up to a number of them,
    /// and appends them to side. `keep` is not called after the last of them.
    ExtractIf {
        /// The index of the range's first element.
        start: usize,
        /// The index before which it ends, which is at most the length.
        end: usize,
        /// The greatest number of elements that are removed.
        take: usize,
    },
    /// Replaces a range with the items of an iterator, with this lower bound in its size hint.
    Splice {
        /// The index of the range's first element.
        start: usize,
        /// The index before which it ends, which is at most the length.
        end: usize,
        /// The items, in order.
        items: Vec<T, A>,
        /// The lower bound, which need not be true; `None` for the number of remaining items.
        hint: Option<usize>,
    },
}

/// The reply of `run` to a command.
#[derive(Drop)]
pub enum Reply<T> {
    /// The command succeeded.
    Done,
    /// The command succeeded and returns the element that it removed.
    Item(T),
    /// There was no element to return.
    Nothing,
    /// The element is returned, since there was no spare capacity.
    Back(T),
    /// The command failed: the capacity overflowed, or an allocation or a clone failed. The error
    /// is of this kind.
    Refused(TryReserveErrorKind),
    /// An index or a range is out of bounds, and both vectors are unchanged.
    Range,
}

/// Runs the commands on the two vectors, in order, and appends a reply for each to `replies`.
///
/// `replies` has spare capacity for them, and does not grow. `Retain` and `ExtractIf` call `keep`,
/// and `Dedup` calls `same`. Each closure continues from the state that its last call left.
///
/// Allocates where a vector grows. A failed allocation is returned as the command's reply, and the
/// run continues with the next command.
///
/// **For every element type, allocator, pair of closures and list of commands, `run` leaves the two
/// lists, capacities and replies of a run of the list machine, in which only a command that does
/// not fit may fail; and from an empty vector, adding n elements by pushes, inserts, appends and
/// extensions, under any size hints, whatever is removed between, moves at most 2n elements by
/// growth, or 3n if sparing.**
pub fn run<T, A, K, S>(
    main: &mut Vec<T, A>,
    side: &mut Vec<T, A>,
    commands: Vec<Command<T, A>, A>,
    keep: &mut K,
    same: &mut S,
    replies: &mut Vec<Reply<T>, A>,
)
where
    T: Clone + Drop,
    A: Allocator + Clone + Drop,
    K: FnMut(&mut T) -> bool,
    S: FnMut(&mut T, &mut T) -> bool,
    // There is spare capacity for the replies, clones are equal, and the closures may be called.
    requires room { HasRoom replies.old (length commands.items) }
    requires copies { ClonesAreEqual T.is_clone }
    requires callable { IsCallableOnRuns (type_size T.row)
        (calls_of A.is_clone A.is_infallible K.FnMut S.FnMut)
        (state_of main.old side.old keep.old same.old) commands.items }

    // It is a run of the list machine, whose replies are appended to those before.
    ensures run { (replied : List (Reply T)) × (replies.new.items ≡ replies.old.items ++ replied)
        × RunsWithin (type_size T.row) (calls_of A.is_clone A.is_infallible K.FnMut S.FnMut)
        (state_of main.old side.old keep.old same.old) commands.items replied
        (state_of main.new side.new keep.new same.new) }
    ensures same_block { SameBlock replies.old replies.new }
{
    prove_possible(main, side);
    for command in commands {
        let reply = step(main, side, command, keep, same);
        prove_possible(main, side);
        push_within(replies, reply);
    }
}

// Appends a value to a vector that has spare capacity for it.
#[tactic(auto, using(aa_vec::proofs::Becoming::became))]
pub(crate) fn push_within<T: Drop, A: Allocator>(list: &mut Vec<T, A>, value: T)
    requires { HasRoom list.old 1 }
    ensures { Holds list.old (list.old.items ++ value ∷ []) list.new }
{
    match list.push(value) {
        Ok(()) => {}
        Err(_) => unreachable!(),
    }
}

// Proves that any two vectors are a possible state of the machine. Does nothing when called.
fn prove_possible<T, A: Allocator>(main: &Vec<T, A>, side: &Vec<T, A>)
    ensures { IsPossible main.now side.now }
{
    main.prove_capacity_bounds();
    side.prove_capacity_bounds();
}

// Performs one command, and returns its reply.
#[tactic(auto, using(crate::proofs::Taken::replied))]
fn step<T, A, K, S>(
    main: &mut Vec<T, A>,
    side: &mut Vec<T, A>,
    command: Command<T, A>,
    keep: &mut K,
    same: &mut S,
) -> Reply<T>
where
    T: Clone + Drop,
    A: Allocator + Clone + Drop,
    K: FnMut(&mut T) -> bool,
    S: FnMut(&mut T, &mut T) -> bool,
    requires copies { ClonesAreEqual T.is_clone }
    requires callable { MayCall (type_size T.row)
        (calls_of A.is_clone A.is_infallible K.FnMut S.FnMut)
        (state_of main.old side.old keep.old same.old) command }
    ensures { PerformsStep (type_size T.row) (calls_of A.is_clone A.is_infallible K.FnMut S.FnMut)
        (state_of main.old side.old keep.old same.old) command result
        (state_of main.new side.new keep.new same.new) }
{
    match command {
        Command::Push(value) => commands::push(main, value),
        Command::Within(value) => commands::within(main, value),
        Command::Pop => commands::pop(main),
        Command::Insert(index, value) => commands::insert(main, index, value),
        Command::Remove(index) => commands::remove(main, index),
        Command::SwapRemove(index) => commands::swap_remove(main, index),
        Command::Truncate(len) => commands::truncate(main, len),
        Command::Clear => commands::clear(main),
        Command::Reserve(additional) => commands::reserve(main, additional),
        Command::ReserveExact(additional) => commands::reserve_exact(main, additional),
        Command::ShrinkTo(capacity) => commands::shrink_to(main, capacity),
        Command::SplitOff(at) => commands::split_off(main, side, at),
        Command::Append => commands::append(main, side),
        Command::Extend { items, hint } => commands::extend(main, items, hint),
        Command::ExtendFromWithin(from, to) => commands::extend_from_within(main, from, to),
        Command::Resize(len, value) => commands::resize(main, len, value),
        Command::Retain => commands::retain(main, keep),
        Command::Dedup => commands::dedup(main, same),
        Command::Drain {
            start,
            end,
            front,
            back,
            keep,
        } => draining::drain(main, side, start..end, Taking { front, back, keep }),
        Command::ExtractIf { start, end, take } => {
            let range = start..end;
            extracting::extract(main, side, Part { range, most: take }, keep)
        }
        Command::Splice {
            start,
            end,
            items,
            hint,
        } => commands::splice(main, start..end, items, hint),
    }
}
