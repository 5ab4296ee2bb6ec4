//! Inserting and removing items at spots of lists, which remain balanced.
ghost use Rattle.std.specs.Prelude.{◌≡◌, ◌⊎◌, ◌+◌, ◌*◌, ◌<◌, ◌≤◌, [], ◌∷◌, length, insert, remove, drop, take, max, slice_get, slice_set, Some, IfErr, IfNone, IfOk, IfSome, IsOk, OnErr, OnOk};
ghost use Rattle.allocator_api2.specs.Errors.{IsErrorFor};
ghost use Rattle.aa_ordered.specs.Balance.{first, joined, last, lengths, position, HasRoom, IsAt, IsBalanced, IsSpot};
ghost use Rattle.aa_ordered.specs.Capacity.{capacity_of, leaves_for};
ghost use Rattle.aa_ordered.specs.Leaves.{list_at, resizes_to};

use crate::leaves::{LEAF, Leaves};
use allocator_api2::collections::{Refused, TryReserveError};
use std::alloc::Allocator;

// Half of the number of places of a leaf.
const HALF: usize = 32;

/// An index of a list, and an index in that list.
#[derive(Clone, Copy, Drop)]
pub(crate) struct Spot {
    pub(crate) list: usize,
    pub(crate) at: usize,
}

/// Returns the spot of the first item, or `None` if there are no items.
pub(crate) fn first_spot<T, A: Allocator>(leaves: &Leaves<T, A>) -> Option<Spot>
    requires { IsBalanced (lengths leaves.now.lists) }
    ensures item { IfSome result (λ s. IsAt leaves.now.lists s.list s.at) }
    ensures first { IfSome result (λ s. position leaves.now.lists s.list s.at ≡ 0) }
    ensures none { IfNone result (joined leaves.now.lists ≡ []) }
{
    if leaves.len() == 0 {
        return None;
    }
    Some(Spot { list: 0, at: 0 })
}

/// Returns the spot of the last item, or `None` if there are no items.
pub(crate) fn last_spot<T, A: Allocator>(leaves: &Leaves<T, A>) -> Option<Spot>
    requires { IsBalanced (lengths leaves.now.lists) }
    ensures item { IfSome result (λ s. IsAt leaves.now.lists s.list s.at) }
    ensures last { IfSome result (λ s. position leaves.now.lists s.list s.at + 1
        ≡ length (joined leaves.now.lists)) }
    ensures none { IfNone result (joined leaves.now.lists ≡ []) }
{
    let count = leaves.len();
    if count == 0 {
        return None;
    }
    let list = count - 1;
    let at = leaves.list(list).len() - 1;
    Some(Spot { list, at })
}

// Returns the length of the list at index `i`, or 64 if there is none.
fn len_from<T, A: Allocator>(leaves: &Leaves<T, A>, i: usize) -> usize
    ensures len { result ≡ first (drop i (lengths leaves.now.lists)) }
    ensures within { result ≤ 64 }
    ensures list { result < 64 → i < length leaves.now.lists }
{
    if i < leaves.len() {
        leaves.list(i).len()
    } else {
        LEAF
    }
}

// Returns the length of the list before index `i`, or 64 if there is none.
fn len_before<T, A: Allocator>(leaves: &Leaves<T, A>, i: usize) -> usize
    requires { i < length leaves.now.lists }
    ensures len { result ≡ last (take i (lengths leaves.now.lists)) }
    ensures within { result ≤ 64 }
    ensures list { result < 64 → 0 < i }
{
    if i == 0 {
        LEAF
    } else {
        leaves.list(i - 1).len()
    }
}

// Returns how many items to move from a full list to one with `count`: half the difference, or
// `most` if that is less.
fn share(count: usize, most: usize) -> usize
    requires few { count < 32 }
    requires some { 0 < most }
    ensures some { 0 < result }
    ensures most { result ≤ most }
    ensures half { count + 2 * result ≤ 64 }
{
    let half = (LEAF - count) / 2;
    if half < most { half } else { most }
}

// Moves items of the full list of a spot to the end of the list before it, which is at most half
// full.
fn shift_back<T, A: Allocator>(leaves: &mut Leaves<T, A>, spot: Spot) -> Spot
    requires balanced { IsBalanced (lengths leaves.old.lists) }
    requires list { spot.list < length leaves.old.lists }
    requires full { length (list_at leaves.old spot.list) ≡ 64 }
    requires within { spot.at ≤ 64 }
    requires before { last (take spot.list (lengths leaves.old.lists)) < 32 }
    ensures moved { HasRoom leaves.old.lists (position leaves.old.lists spot.list spot.at)
        leaves.new.lists result.list result.at }
    ensures room { leaves.new.room ≡ leaves.old.room }
    ensures resizes { leaves.new.resizes ≡ leaves.old.resizes }
{
    leaves.prove_bounds();
    let i = spot.list - 1;
    let count = leaves.list(i).len();
    let k = share(count, len_from(leaves, spot.list + 1));
    leaves.shift_back(i, k);
    if spot.at < k {
        Spot {
            list: i,
            at: count + spot.at,
        }
    } else {
        Spot {
            list: spot.list,
            at: spot.at - k,
        }
    }
}

// Moves items of the full list of a spot to the front of the list after it, which is at most half
// full.
fn shift_on<T, A: Allocator>(leaves: &mut Leaves<T, A>, spot: Spot) -> Spot
    requires balanced { IsBalanced (lengths leaves.old.lists) }
    requires list { spot.list < length leaves.old.lists }
    requires full { length (list_at leaves.old spot.list) ≡ 64 }
    requires within { spot.at ≤ 64 }
    requires after { first (drop (spot.list + 1) (lengths leaves.old.lists)) < 32 }
    ensures moved { HasRoom leaves.old.lists (position leaves.old.lists spot.list spot.at)
        leaves.new.lists result.list result.at }
    ensures room { leaves.new.room ≡ leaves.old.room }
    ensures resizes { leaves.new.resizes ≡ leaves.old.resizes }
{
    leaves.prove_bounds();
    let next = spot.list + 1;
    let count = leaves.list(next).len();
    let k = share(count, len_before(leaves, spot.list));
    leaves.shift(spot.list, k);
    let kept = LEAF - k;
    if spot.at <= kept {
        spot
    } else {
        Spot {
            list: next,
            at: spot.at - kept,
        }
    }
}

// Splits the full list of a spot into halves.
fn split<T, A: Allocator>(leaves: &mut Leaves<T, A>, spot: Spot) -> Spot
    requires balanced { IsBalanced (lengths leaves.old.lists) }
    requires list { spot.list < length leaves.old.lists }
    requires full { length (list_at leaves.old spot.list) ≡ 64 }
    requires within { spot.at ≤ 64 }
    requires before { 32 ≤ last (take spot.list (lengths leaves.old.lists)) }
    requires after { 32 ≤ first (drop (spot.list + 1) (lengths leaves.old.lists)) }
    requires room { length leaves.old.lists < leaves.old.room }
    ensures moved { HasRoom leaves.old.lists (position leaves.old.lists spot.list spot.at)
        leaves.new.lists result.list result.at }
    ensures room { leaves.new.room ≡ leaves.old.room }
    ensures resizes { leaves.new.resizes ≡ leaves.old.resizes }
{
    leaves.prove_bounds();
    leaves.split(spot.list, HALF);
    if spot.at <= HALF {
        spot
    } else {
        Spot {
            list: spot.list + 1,
            at: spot.at - HALF,
        }
    }
}

// Makes room for one more item at a spot in a full list, and returns where it is then.
#[cold]
#[inline(never)]
fn make_room_slow<T, A: Allocator + Clone>(
    leaves: &mut Leaves<T, A>,
    spot: Spot,
) -> Result<Spot, TryReserveError>
    requires balanced { IsBalanced (lengths leaves.old.lists) }
    requires list { spot.list < length leaves.old.lists }
    requires full { length (list_at leaves.old spot.list) ≡ 64 }
    requires within { spot.at ≤ 64 }
    ensures fits { length (joined leaves.old.lists) < capacity_of leaves.old.room → IsOk result }
    ensures moved { IfOk result (λ s. HasRoom leaves.old.lists
        (position leaves.old.lists spot.list spot.at) leaves.new.lists s.list s.at) }
    ensures room { length (joined leaves.old.lists) < capacity_of leaves.old.room
        → leaves.new.room ≡ leaves.old.room }
    ensures grown { (leaves.new.room ≡ leaves.old.room) ⊎ (leaves.new.room
        ≡ max (2 * leaves.old.room) (leaves_for (length (joined leaves.old.lists) + 1))) }
    ensures resizes { leaves.new.resizes ≡ resizes_to leaves.old leaves.new.room }
    ensures error { IfErr result (λ e. IsErrorFor e
        (max (2 * leaves.old.room) (leaves_for (length (joined leaves.old.lists) + 1)) * 64)) }
    ensures unchanged { OnErr result (leaves.new ≡ leaves.old) }
{
    leaves.prove_bounds();
    if len_before(leaves, spot.list) < HALF {
        return Ok(shift_back(leaves, spot));
    }
    if len_from(leaves, spot.list + 1) < HALF {
        return Ok(shift_on(leaves, spot));
    }
    leaves.try_reserve(1)?;
    Ok(split(leaves, spot))
}

// Makes room for one more item at a spot, and returns where it is then.
#[inline(always)]
fn make_room<T, A: Allocator + Clone>(
    leaves: &mut Leaves<T, A>,
    spot: Spot,
) -> Result<Spot, TryReserveError>
    requires balanced { IsBalanced (lengths leaves.old.lists) }
    requires list { spot.list < length leaves.old.lists }
    requires within { spot.at ≤ length (list_at leaves.old spot.list) }
    ensures fits { length (joined leaves.old.lists) < capacity_of leaves.old.room → IsOk result }
    ensures moved { IfOk result (λ s. HasRoom leaves.old.lists
        (position leaves.old.lists spot.list spot.at) leaves.new.lists s.list s.at) }
    ensures room { length (joined leaves.old.lists) < capacity_of leaves.old.room
        → leaves.new.room ≡ leaves.old.room }
    ensures grown { (leaves.new.room ≡ leaves.old.room) ⊎ (leaves.new.room
        ≡ max (2 * leaves.old.room) (leaves_for (length (joined leaves.old.lists) + 1))) }
    ensures resizes { leaves.new.resizes ≡ resizes_to leaves.old leaves.new.room }
    ensures error { IfErr result (λ e. IsErrorFor e
        (max (2 * leaves.old.room) (leaves_for (length (joined leaves.old.lists) + 1)) * 64)) }
    ensures unchanged { OnErr result (leaves.new ≡ leaves.old) }
{
    if leaves.list(spot.list).len() < LEAF {
        return Ok(spot);
    }
    make_room_slow(leaves, spot)
}

// Inserts the first item.
#[cold]
#[inline(never)]
fn insert_first<T, A: Allocator + Clone>(
    leaves: &mut Leaves<T, A>,
    item: T,
) -> Result<(), Refused<T>>
    requires { leaves.old.lists ≡ [] }
    ensures fits { 0 < leaves.old.room → IsOk result }
    ensures inserted { OnOk result (leaves.new.lists ≡ (item ∷ []) ∷ []) }
    ensures room { 0 < leaves.old.room → leaves.new.room ≡ leaves.old.room }
    ensures grown { (leaves.new.room ≡ leaves.old.room) ⊎ (leaves.new.room ≡ 1) }
    ensures resizes { leaves.new.resizes ≡ resizes_to leaves.old leaves.new.room }
    ensures returned { IfErr result (λ r. r.source ≡ item) }
    ensures error { IfErr result (λ r. IsErrorFor r.error 64) }
    ensures unchanged { OnErr result (leaves.new ≡ leaves.old) }
{
    if let Err(error) = leaves.try_reserve(1) {
        return Err(Refused {
            source: item,
            error,
        });
    }
    leaves.add_first(item);
    Ok(())
}

/// Inserts `item` at a spot, and returns where it is then.
///
/// # Errors
/// `CapacityOverflow` or `AllocError`. The lists are unchanged, and `item` is returned in the
/// error.
#[inline]
pub(crate) fn insert_at<T, A: Allocator + Clone>(
    leaves: &mut Leaves<T, A>,
    spot: Spot,
    item: T,
) -> Result<Spot, Refused<T>>
    requires balanced { IsBalanced (lengths leaves.old.lists) }
    requires spot { IsSpot leaves.old.lists spot.list spot.at }
    ensures fits { length (joined leaves.old.lists) < capacity_of leaves.old.room → IsOk result }
    ensures inserted { OnOk result (joined leaves.new.lists ≡ insert (joined leaves.old.lists)
        (position leaves.old.lists spot.list spot.at) item) }
    ensures item { IfOk result (λ s. IsAt leaves.new.lists s.list s.at) }
    ensures place { IfOk result (λ s. position leaves.new.lists s.list s.at
        ≡ position leaves.old.lists spot.list spot.at) }
    ensures balanced { OnOk result (IsBalanced (lengths leaves.new.lists)) }
    ensures room { length (joined leaves.old.lists) < capacity_of leaves.old.room
        → leaves.new.room ≡ leaves.old.room }
    ensures grown { (leaves.new.room ≡ leaves.old.room) ⊎ (leaves.new.room
        ≡ max (2 * leaves.old.room) (leaves_for (length (joined leaves.old.lists) + 1))) }
    ensures resizes { leaves.new.resizes ≡ resizes_to leaves.old leaves.new.room }
    ensures returned { IfErr result (λ r. r.source ≡ item) }
    ensures error { IfErr result (λ r. IsErrorFor r.error
        (max (2 * leaves.old.room) (leaves_for (length (joined leaves.old.lists) + 1)) * 64)) }
    ensures unchanged { OnErr result (leaves.new ≡ leaves.old) }
{
    if leaves.len() == 0 {
        return match insert_first(leaves, item) {
            Ok(()) => Ok(Spot { list: 0, at: 0 }),
            Err(refused) => Err(refused),
        };
    }
    match make_room(leaves, spot) {
        Ok(to) => {
            leaves.insert(to.list, to.at, item);
            Ok(to)
        }
        Err(error) => Err(Refused {
            source: item,
            error,
        }),
    }
}

// Joins the list of a spot to a neighbour, or removes it, if it has become too short.
//
// Returns where the spot is then.
fn mend<T, A: Allocator>(leaves: &mut Leaves<T, A>, spot: Spot) -> Spot
    requires list { spot.list < length leaves.old.lists }
    requires within { spot.at ≤ length (list_at leaves.old spot.list) }
    requires nearly { IsBalanced (slice_set (lengths leaves.old.lists) spot.list
        (length (list_at leaves.old spot.list) + 1)) }
    ensures same { joined leaves.new.lists ≡ joined leaves.old.lists }
    ensures balanced { IsBalanced (lengths leaves.new.lists) }
    ensures room { leaves.new.room ≡ leaves.old.room }
    ensures resizes { leaves.new.resizes ≡ leaves.old.resizes }
    ensures within { result.at ≤ length (list_at leaves.new result.list) }
    ensures place { position leaves.new.lists result.list result.at
        ≡ position leaves.old.lists spot.list spot.at }
{
    leaves.prove_bounds();
    let i = spot.list;
    let count = leaves.list(i).len();
    if count == 0 {
        leaves.drop_list(i);
        return spot;
    }
    let before = len_before(leaves, i);
    if before + count < LEAF {
        leaves.join(i - 1);
        return Spot {
            list: i - 1,
            at: before + spot.at,
        };
    }
    if count + len_from(leaves, i + 1) < LEAF {
        leaves.join(i);
    }
    spot
}

/// Removes the item at a spot and returns it, and the spot of the item after it.
pub(crate) fn take_at<T, A: Allocator>(leaves: &mut Leaves<T, A>, spot: Spot) -> (T, Spot)
    requires balanced { IsBalanced (lengths leaves.old.lists) }
    requires item { IsAt leaves.old.lists spot.list spot.at }
    ensures item { slice_get (joined leaves.old.lists)
        (position leaves.old.lists spot.list spot.at) ≡ Some result.0 }
    ensures removed { joined leaves.new.lists ≡ remove (joined leaves.old.lists)
        (position leaves.old.lists spot.list spot.at) }
    ensures balanced { IsBalanced (lengths leaves.new.lists) }
    ensures room { leaves.new.room ≡ leaves.old.room }
    ensures resizes { leaves.new.resizes ≡ leaves.old.resizes }
    ensures within { result.1.at ≤ length (list_at leaves.new result.1.list) }
    ensures place { position leaves.new.lists result.1.list result.1.at
        ≡ position leaves.old.lists spot.list spot.at }
{
    let item = leaves.remove(spot.list, spot.at);
    (item, mend(leaves, spot))
}

/// Removes the item at a spot, and returns it.
pub(crate) fn remove_at<T, A: Allocator>(leaves: &mut Leaves<T, A>, spot: Spot) -> T
    requires balanced { IsBalanced (lengths leaves.old.lists) }
    requires item { IsAt leaves.old.lists spot.list spot.at }
    ensures item { slice_get (joined leaves.old.lists)
        (position leaves.old.lists spot.list spot.at) ≡ Some result }
    ensures removed { joined leaves.new.lists ≡ remove (joined leaves.old.lists)
        (position leaves.old.lists spot.list spot.at) }
    ensures balanced { IsBalanced (lengths leaves.new.lists) }
    ensures room { leaves.new.room ≡ leaves.old.room }
    ensures resizes { leaves.new.resizes ≡ leaves.old.resizes }
{
    take_at(leaves, spot).0
}

/// Returns the spot of the next item, where `spot` is that of an item or at the end of its list.
pub(crate) fn settle<T, A: Allocator>(leaves: &Leaves<T, A>, spot: Spot) -> Spot
    requires balanced { IsBalanced (lengths leaves.now.lists) }
    requires within { spot.at ≤ length (list_at leaves.now spot.list) }
    ensures place { position leaves.now.lists result.list result.at
        ≡ position leaves.now.lists spot.list spot.at }
    ensures item { result.list < length leaves.now.lists
        → IsAt leaves.now.lists result.list result.at }
    ensures end { length leaves.now.lists ≤ result.list
        → position leaves.now.lists spot.list spot.at ≡ length (joined leaves.now.lists) }
{
    if spot.list >= leaves.len() || spot.at < leaves.list(spot.list).len() {
        return spot;
    }
    leaves.prove_bounds();
    Spot {
        list: spot.list + 1,
        at: 0,
    }
}
