//! The command `ExtractIf` of `run`, and its parts.
ghost use Rattle.std.specs.Prelude.{◌≡◌, ◌+◌, ◌-◌, ◌≤◌, min, length, slice_range, ◌++◌};
ghost use Rattle.std.specs.Fn.{CalledAtMut};
ghost use Rattle.std.specs.Mem.{type_size};
ghost use Rattle.aa_vec.specs.Choosing.{CallableAtMut, IsCallableInOrder};
ghost use Rattle.aa_vec.specs.Extract.{extract_remaining};
ghost use Rattle.aa_vec.specs.Vector.{len, HasRoom};
ghost use Rattle.allocator_api2.specs.Commands.{TakesChosen, state_with_keep};
ghost use Rattle.allocator_api2.specs.RangeCommands.{Chosen, TakesUpTo};

use crate::runner::{Reply, push_within};
use aa_vec::vec::{ExtractBy, Vec};
use std::alloc::Allocator;
use std::ops::Range;

// A range of main from which elements are removed, and the greatest number of them.
#[derive(Drop)]
pub(crate) struct Part {
    pub(crate) range: Range<usize>,
    pub(crate) most: usize,
}

// Tests the range, reserves capacity in side for the most elements that may be taken, and then
// moves those there that are.
#[tactic(auto, using(aa_vec::proofs::Becoming::became, crate::proofs::ByKind::failed))]
pub(crate) fn extract<T: Drop, A: Allocator, K: FnMut(&mut T) -> bool>(
    main: &mut Vec<T, A>,
    side: &mut Vec<T, A>,
    part: Part,
    keep: &mut K,
) -> Reply<T>
    requires { IsCallableInOrder (CalledAtMut K.FnMut) (CallableAtMut K.FnMut)
        keep.old (slice_range main.old.items part.range.start part.range.end) }
    ensures { TakesChosen (type_size T.row) (CalledAtMut K.FnMut)
        (state_with_keep main.old side.old keep.old) part.range.start part.range.end part.most
        result (state_with_keep main.new side.new keep.new) }
{
    let Part { range, most } = part;
    if range.start > range.end || range.end > main.len() {
        return Reply::Range;
    }
    let most = most.min(range.end - range.start);
    if let Err(error) = side.try_reserve(most) {
        return Reply::Refused(error.kind());
    }
    extract_into(main, side, Part { range, most }, keep);
    Reply::Done
}

// Removes elements from a part, and appends them to a vector that has spare capacity for them.
fn extract_into<T: Drop, A: Allocator, K: FnMut(&mut T) -> bool>(
    main: &mut Vec<T, A>,
    side: &mut Vec<T, A>,
    part: Part,
    keep: &mut K,
)
    requires range { (part.range.start ≤ part.range.end) × (part.range.end ≤ len main.old) }
    requires room { HasRoom side.old part.most }
    requires callable { IsCallableInOrder (CalledAtMut K.FnMut) (CallableAtMut K.FnMut)
        keep.old (slice_range main.old.items part.range.start part.range.end) }
    ensures { Chosen (CalledAtMut K.FnMut)
        (state_with_keep main.old side.old keep.old) part.range.start part.range.end part.most
        (state_with_keep main.new side.new keep.new) }
{
    let mut items = main.extract_by(part.range);
    take_chosen(&mut items, side, part.most, keep);
}

// Takes at most `most` elements from an extracting range, and appends them to side.
#[tactic(auto, using(crate::proofs::ExtractParts::choosing))]
fn take_chosen<T: Drop, A: Allocator, K: FnMut(&mut T) -> bool>(
    range: &mut ExtractBy<'_, T, A>,
    side: &mut Vec<T, A>,
    most: usize,
    keep: &mut K,
)
    requires room { HasRoom side.old most }
    requires callable { IsCallableInOrder (CalledAtMut K.FnMut) (CallableAtMut K.FnMut)
        keep.old (extract_remaining range.old) }
    ensures { TakesUpTo (CalledAtMut K.FnMut)
        keep.old range.old side.old most keep.new range.new side.new }
{
    'each: for _taken in 0..most {
        match range.next_by(keep) {
            Some(item) => push_within(side, item),
            None => return,
        }
    }
}
