//! The commands of `run`: each tests its indices, calls the method of the vector that corresponds
//! to it, and returns the reply.
ghost use Rattle.std.specs.Prelude.{◌≡◌, ◌<◌, ⊤};
ghost use Rattle.std.specs.Fn.{CalledAtMut, CalledAtPairMut};
ghost use Rattle.std.specs.Mem.{type_size};
ghost use Rattle.aa_raw.specs.Closures.{CallableAtPairMut};
ghost use Rattle.aa_vec.specs.Choosing.{CallableAtMut, IsCallableInOrder, IsCallableAlong, Retains, Deduplicates};
ghost use Rattle.aa_vec.specs.Copies.{ClonesAreEqual};
ghost use Rattle.aa_vec.specs.Vector.{Vector};
ghost use Rattle.allocator_api2.specs.Commands.{Performs, PerformsOnMain};
ghost use Rattle.allocator_api2.specs.declared.runner.Command.TheVariants.{Push, Within, Pop, Insert, Remove, SwapRemove, Truncate, Clear, Reserve, ReserveExact, ShrinkTo, SplitOff, Append, Extend, ExtendFromWithin, Resize, Splice};
ghost use Rattle.allocator_api2.specs.declared.runner.Reply.{Reply};

use crate::runner::Reply;
use aa_vec::vec::{Items, Vec};
use std::alloc::Allocator;
use std::ops::Range;

#[tactic(auto, using(aa_vec::proofs::Becoming::became, crate::proofs::ByKind::failed))]
pub(crate) fn push<T, A: Allocator>(main: &mut Vec<T, A>, value: T) -> Reply<T>
where
    T: Drop,
    ensures { PerformsOnMain (type_size T.row) main.old (Push value) result main.new }
{
    match main.push(value) {
        Ok(()) => Reply::Done,
        Err(refused) => Reply::Refused(refused.error.kind()),
    }
}

#[tactic(auto, using(aa_vec::proofs::Becoming::became))]
pub(crate) fn within<T, A: Allocator>(main: &mut Vec<T, A>, value: T) -> Reply<T>
    ensures { PerformsOnMain (type_size T.row) main.old (Within value) result main.new }
{
    match main.push_within_capacity(value) {
        Ok(()) => Reply::Done,
        Err(value) => Reply::Back(value),
    }
}

#[tactic(auto, using(aa_vec::proofs::Becoming::became))]
pub(crate) fn pop<T, A: Allocator>(main: &mut Vec<T, A>) -> Reply<T>
    ensures { PerformsOnMain (type_size T.row) main.old Pop result main.new }
{
    match main.pop() {
        Some(value) => Reply::Item(value),
        None => Reply::Nothing,
    }
}

#[tactic(auto, using(aa_vec::proofs::Becoming::became, crate::proofs::ByKind::failed))]
pub(crate) fn insert<T: Drop, A: Allocator>(
    main: &mut Vec<T, A>,
    index: usize,
    value: T,
) -> Reply<T>
    ensures { PerformsOnMain (type_size T.row) main.old (Insert index value) result main.new }
{
    if index > main.len() {
        return Reply::Range;
    }
    match main.insert(index, value) {
        Ok(()) => Reply::Done,
        Err(refused) => Reply::Refused(refused.error.kind()),
    }
}

#[tactic(auto, using(aa_vec::proofs::Becoming::became))]
pub(crate) fn remove<T, A: Allocator>(main: &mut Vec<T, A>, index: usize) -> Reply<T>
    ensures { PerformsOnMain (type_size T.row) main.old (Remove index) result main.new }
{
    if index >= main.len() {
        return Reply::Range;
    }
    Reply::Item(main.remove(index))
}

#[tactic(auto, using(aa_vec::proofs::Becoming::became))]
pub(crate) fn swap_remove<T, A: Allocator>(main: &mut Vec<T, A>, index: usize) -> Reply<T>
    ensures { PerformsOnMain (type_size T.row) main.old (SwapRemove index) result main.new }
{
    if index >= main.len() {
        return Reply::Range;
    }
    Reply::Item(main.swap_remove(index))
}

#[tactic(auto, using(aa_vec::proofs::Becoming::became))]
pub(crate) fn truncate<T: Drop, A: Allocator>(main: &mut Vec<T, A>, len: usize) -> Reply<T>
    ensures { PerformsOnMain (type_size T.row) main.old (Truncate len) result main.new }
{
    main.truncate(len);
    Reply::Done
}

#[tactic(auto, using(aa_vec::proofs::Becoming::became))]
pub(crate) fn clear<T: Drop, A: Allocator>(main: &mut Vec<T, A>) -> Reply<T>
    ensures { PerformsOnMain (type_size T.row) main.old Clear result main.new }
{
    main.clear();
    Reply::Done
}

#[tactic(auto, using(aa_vec::proofs::Becoming::became, crate::proofs::ByKind::failed))]
pub(crate) fn reserve<T, A: Allocator>(main: &mut Vec<T, A>, additional: usize) -> Reply<T>
    ensures { PerformsOnMain (type_size T.row) main.old (Reserve additional) result main.new }
{
    match main.try_reserve(additional) {
        Ok(()) => Reply::Done,
        Err(error) => Reply::Refused(error.kind()),
    }
}

#[tactic(auto, using(aa_vec::proofs::Becoming::became, crate::proofs::ByKind::failed))]
pub(crate) fn reserve_exact<T, A: Allocator>(main: &mut Vec<T, A>, additional: usize) -> Reply<T>
    ensures { PerformsOnMain (type_size T.row) main.old (ReserveExact additional) result main.new }
{
    match main.try_reserve_exact(additional) {
        Ok(()) => Reply::Done,
        Err(error) => Reply::Refused(error.kind()),
    }
}

#[tactic(auto, using(aa_vec::proofs::Becoming::became, crate::proofs::ByKind::failed))]
pub(crate) fn shrink_to<T, A: Allocator>(main: &mut Vec<T, A>, capacity: usize) -> Reply<T>
    ensures { PerformsOnMain (type_size T.row) main.old (ShrinkTo capacity) result main.new }
{
    match main.shrink_to(capacity) {
        Ok(()) => Reply::Done,
        Err(error) => Reply::Refused(error.kind()),
    }
}

#[tactic(auto, using(crate::proofs::ByKind::failed))]
pub(crate) fn split_off<T: Drop, A: Allocator + Clone + Drop>(
    main: &mut Vec<T, A>,
    side: &mut Vec<T, A>,
    at: usize,
) -> Reply<T>
    ensures performed { let sure = A.is_infallible main.old.alloc in
        Performs (type_size T.row) sure main.old side.old (SplitOff at) result main.new side.new }
    ensures tail_clone { result ≡ Reply.Done → 0 < at → A.is_clone main.old.alloc side.new.alloc }
    ensures head_clone { result ≡ Reply.Done → at ≡ 0 → A.is_clone main.old.alloc main.new.alloc }
{
    if at > main.len() {
        return Reply::Range;
    }
    match main.split_off(at) {
        Ok(tail) => {
            *side = tail;
            Reply::Done
        }
        Err(error) => Reply::Refused(error.kind()),
    }
}

#[tactic(auto, using(aa_vec::proofs::Becoming::became, crate::proofs::ByKind::failed))]
pub(crate) fn append<T, A: Allocator>(main: &mut Vec<T, A>, side: &mut Vec<T, A>) -> Reply<T>
    ensures { Performs (type_size T.row) ⊤ main.old side.old Append result main.new side.new }
{
    match main.append(side) {
        Ok(()) => Reply::Done,
        Err(error) => Reply::Refused(error.kind()),
    }
}

pub(crate) fn extend<T: Drop, A: Allocator + Drop>(
    main: &mut Vec<T, A>,
    items: Vec<T, A>,
    hint: Option<usize>,
) -> Reply<T>
    ensures { PerformsOnMain (type_size T.row) main.old (Extend items hint) result main.new }
{
    match main.extend_hinted(Items::new(items, hint)) {
        Ok(()) => Reply::Done,
        Err(error) => Reply::Refused(error.kind()),
    }
}

#[tactic(auto, using(aa_vec::proofs::Becoming::becomes, crate::proofs::ByKind::failed))]
pub(crate) fn extend_from_within<T: Clone + Drop, A: Allocator>(
    main: &mut Vec<T, A>,
    from: usize,
    to: usize,
) -> Reply<T>
    requires copies { ClonesAreEqual T.is_clone }
    ensures { PerformsOnMain (type_size T.row) main.old (ExtendFromWithin from to) result main.new }
{
    if from > to || to > main.len() {
        return Reply::Range;
    }
    match main.extend_from_within(from..to) {
        Ok(()) => Reply::Done,
        Err(error) => Reply::Refused(error.kind()),
    }
}

#[tactic(auto, using(aa_vec::proofs::Becoming::becomes, crate::proofs::ByKind::failed))]
pub(crate) fn resize<T: Clone + Drop, A: Allocator>(
    main: &mut Vec<T, A>,
    len: usize,
    value: T,
) -> Reply<T>
    requires copies { ClonesAreEqual T.is_clone }
    ensures { PerformsOnMain (type_size T.row) main.old (Resize len value) result main.new }
{
    match main.resize(len, value) {
        Ok(()) => Reply::Done,
        Err(error) => Reply::Refused(error.kind()),
    }
}

pub(crate) fn retain<T, A, K>(main: &mut Vec<T, A>, keep: &mut K) -> Reply<T>
where
    T: Drop,
    A: Allocator,
    K: FnMut(&mut T) -> bool,
    requires { IsCallableInOrder (CalledAtMut K.FnMut)
        (CallableAtMut K.FnMut) keep.old main.old.items }
    ensures done { result ≡ Reply.Done }
    ensures retained { Retains (CalledAtMut K.FnMut) keep.old main.old keep.new main.new }
{
    main.retain_by(keep);
    Reply::Done
}

pub(crate) fn dedup<T, A, S>(main: &mut Vec<T, A>, same: &mut S) -> Reply<T>
where
    T: Drop,
    A: Allocator,
    S: FnMut(&mut T, &mut T) -> bool,
    requires { IsCallableAlong (CalledAtPairMut S.FnMut) (CallableAtPairMut S.FnMut)
        same.old main.old.items }
    ensures done { result ≡ Reply.Done }
    ensures deduplicated { Deduplicates (CalledAtPairMut S.FnMut)
        same.old main.old same.new main.new }
{
    main.dedup_within(same);
    Reply::Done
}

pub(crate) fn splice<T: Drop, A: Allocator + Clone + Drop>(
    main: &mut Vec<T, A>,
    range: Range<usize>,
    items: Vec<T, A>,
    hint: Option<usize>,
) -> Reply<T>
    ensures { let sure = A.is_infallible main.old.alloc in
        (side : Vector T A) → Performs (type_size T.row) sure main.old side
        (Splice range.start range.end items hint) result main.new side }
{
    if range.start > range.end || range.end > main.len() {
        return Reply::Range;
    }
    let splice = main.splice(range, Items::new(items, hint));
    match splice.finish_hinted() {
        Ok(()) => Reply::Done,
        Err(error) => Reply::Refused(error.kind()),
    }
}
