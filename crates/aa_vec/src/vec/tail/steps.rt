//! Steps over elements after a gap, of which some are kept and one is removed.
ghost use Rattle.std.specs.Prelude.{◌+◌, ◌-◌, ◌<◌, ◌≤◌};
ghost use Rattle.aa_vec.specs.Tail.{HasTail};
ghost use Rattle.aa_vec.specs.Until.{TakesNext};
ghost use Rattle.aa_vec.specs.Vector.{len};

use crate::vec::Vec;
use std::alloc::Allocator;

// Of the elements in the places from `at` up to `end`, moves the first `kept` down to the last item,
// and drops the next one, if there is one. Returns the next place. There are at least `LEAST`. If
// these are two, the gap before them is not empty, and none or one kept is far less work than a run.
#[inline(always)]
#[tactic(auto, using(crate::proofs::Tails::first_tail))]
pub(crate) fn step_over<const LEAST: usize, T: Drop, A: Allocator>(
    mut list: Vec<T, A>,
    at: usize,
    end: usize,
    kept: usize,
) -> (Vec<T, A>, usize)
    requires ordered { len list ≤ at }
    requires least { at + LEAST ≤ end }
    requires has_gap { 1 < LEAST → len list < at }
    requires within { at + kept ≤ end }
    requires has_tail { HasTail list (at - len list) (end - at) }
    ensures { TakesNext list (at - len list) at end kept result.0 result.1 }
{
    let gap = at - list.len();
    if 1 < LEAST && kept == 1 {
        list.close_gap_by_one(gap);
        drop(list.take_from_tail(gap));
        return (list, at + 1 + 1);
    }
    if 1 < LEAST && kept == 0 {
        drop(list.take_from_tail(gap));
        return (list, at + 1);
    }
    // A move of exactly two is compiled for itself, and takes less than a run.
    if kept == 2 {
        list.close_gap(gap, 2);
    } else {
        list.close_gap(gap, kept);
    }
    if end <= at + kept {
        return (list, end);
    }
    drop(list.take_from_tail(gap));
    (list, at + kept + 1)
}
