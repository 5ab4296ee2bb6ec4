//! Growing, copying and dropping the two blocks of a slot map.
ghost use Rattle.std.specs.Prelude.{◌≡◌, ◌≢◌, ◌<◌, ◌≤◌, ◌+◌, [], length, min, Some, IfErr, IfOk, OnErr, OnOk, IsOk, IsTrue};
ghost use Rattle.std.specs.Mem.{type_size};
ghost use Rattle.allocator_api2.specs.Errors.{ClonesFail, IsErrorFor};
ghost use Rattle.allocator_api2.specs.Places.{AreEmpty, IsRun};
ghost use Rattle.aa_slots.specs.Inside.{ahead, blocks_of, capacity_of, seen, states_of, AreClones, AreHeld, AreHeldBetween, HasPolicy, MoveTogether};
ghost use Rattle.aa_slots.specs.Slotted.{count, fresh_resizes, grown, shrunk_resizes};
ghost use Rattle.allocator_api2.specs.declared.collections.TryReserveErrorKind.TheVariants.{AllocError};
ghost use Rattle.allocator_api2.specs.declared.raw_vec.Growth.{Growth};
ghost use Rattle.allocator_api2.specs.declared.raw_vec.Growth.TheVariants.{InPlace};

use crate::slots::{Slot, State, capacity_in, slots_in};
use allocator_api2::collections::{TryReserveError, TryReserveErrorKind};
use allocator_api2::counter::Counter;
use allocator_api2::raw_vec::{Growth, RawVec};
use allocator_api2::vec::Vec;
use std::alloc::Allocator;

/// Returns the `AllocError` of a failed allocation for `capacity` values.
pub fn alloc_error(capacity: usize) -> TryReserveError
    ensures { result.kind ≡ AllocError capacity }
{
    TryReserveErrorKind::AllocError { capacity }.into()
}

/// Returns the number of slots that the policy adds to `capacity` full ones, which is 4 at least.
pub fn added_by(growth: Growth, capacity: usize) -> usize
    ensures { capacity + result ≡ grown growth capacity }
{
    let more = match growth {
        Growth::Doubling | Growth::InPlace => capacity,
        Growth::Sparing => capacity - capacity / 2,
    };
    more.max(4)
}

/// Drops the values of the slots from `from` on and before `end`, one by one.
pub fn drop_between<T: Drop, A: Allocator>(
    slots: &[Slot],
    values: &mut RawVec<((), T), A>,
    from: usize,
    end: usize,
)
    requires within { end ≤ length slots.now }
    requires held { AreHeldBetween slots.now values.old.places from end }
    ensures places { length values.new.places ≡ length values.old.places }
    ensures counts { values.new.grown ≡ values.old.grown }
    ensures growth { values.new.growth ≡ values.old.growth }
{
    'each: for index in from..end {
        if let State::Held(_) = slots[index].state() {
            drop(values.take(index));
        }
    }
}

// Moves all values to other places of the same index.
fn move_all<T, A: Allocator>(
    slots: &[Slot],
    from: &mut RawVec<((), T), A>,
    to: &mut RawVec<((), T), A>,
)
    requires held { AreHeld slots.now from.old.places }
    requires room { length slots.now ≤ length to.old.places }
    ensures held { AreHeld slots.now to.new.places }
    ensures moved { seen slots.now to.new.places ≡ seen slots.now from.old.places }
    ensures room { length to.new.places ≡ length to.old.places }
    ensures counts { to.new.grown ≡ to.old.grown }
    ensures growth { to.new.growth ≡ to.old.growth }
{
    'each: for index in 0..slots.len() {
        if let State::Held(_) = slots[index].state() {
            to.put(index, from.take(index));
        }
    }
}

// Moves all values to other places of the same index, at once if no slot is `free`.
#[tactic(auto, using(allocator_api2::proofs::Blocks::in_runs, crate::proofs::Growing::transferred))]
fn move_values<T, A: Allocator>(
    slots: &[Slot],
    from: &mut RawVec<((), T), A>,
    to: &mut RawVec<((), T), A>,
    free: usize,
)
    requires held { AreHeld slots.now from.old.places }
    requires counted { free + count (seen slots.now from.old.places) ≡ length slots.now }
    requires places { length slots.now ≤ length from.old.places }
    requires room { length slots.now ≤ length to.old.places }
    ensures held { AreHeld slots.now to.new.places }
    ensures moved { seen slots.now to.new.places ≡ seen slots.now from.old.places }
    ensures room { length to.new.places ≡ length to.old.places }
    ensures counts { to.new.grown ≡ to.old.grown }
    ensures growth { to.new.growth ≡ to.old.growth }
{
    if free == 0 {
        to.transfer(0, from, 0, slots.len());
    } else {
        move_all(slots, from, to);
    }
}

/// Counts a move to blocks for `capacity` slots as one of `moves`, unless there are none.
#[inline(always)]
pub fn count_move(moves: &mut Counter, capacity: usize)
    ensures { moves.new.count ≡ moves.old.count + fresh_resizes capacity }
{
    if capacity != 0 {
        moves.add(1);
    }
}

// Moves all values to the block `fresh`, which was made for `capacity` slots, and frees their own.
// Of the slots, `free` have no value.
//
// Counts this as one of `moves`, unless `capacity` is 0.
#[tactic(auto, using(allocator_api2::proofs::Blocks::emptied))]
fn move_to<T, A: Allocator>(
    slots: &[Slot],
    values: &mut RawVec<((), T), A>,
    mut fresh: RawVec<((), T), A>,
    free: usize,
    capacity: usize,
    moves: &mut Counter,
)
    requires held { AreHeld slots.now values.old.places }
    requires counted { free + count (seen slots.now values.old.places) ≡ length slots.now }
    requires places { length slots.now ≤ length values.old.places }
    requires room { length slots.now ≤ length fresh.places }
    ensures held { AreHeld slots.now values.new.places }
    ensures moved { seen slots.now values.new.places ≡ seen slots.now values.old.places }
    ensures room { length values.new.places ≡ length fresh.places }
    ensures counts { values.new.grown ≡ fresh.grown }
    ensures growth { values.new.growth ≡ fresh.growth }
    ensures counted { moves.new.count ≡ moves.old.count + fresh_resizes capacity }
{
    move_values(slots, values, &mut fresh, free);
    values.forget_from(0);
    *values = fresh;
    count_move(moves, capacity);
}

// Returns a block with capacity for `capacity` elements, over a clone of the allocator of `like`,
// and with its growth policy.
//
// An `AllocError` has the number `capacity`.
#[tactic(auto, using(allocator_api2::proofs::Blocks::emptied))]
fn block_for<E, A: Allocator + Clone>(
    like: &RawVec<E, A>,
    capacity: usize,
) -> Result<RawVec<E, A>, TryReserveError>
    ensures room { IfOk result (λ b. capacity ≤ length b.places) }
    ensures empty { IfOk result (λ b. AreEmpty b.places) }
    ensures once { IfOk result (λ b. b.grown.blocks ≤ min 1 capacity) }
    ensures growth { IfOk result (λ b. b.growth ≡ like.now.growth) }
    ensures fits { A.is_infallible like.now.alloc → capacity ≡ 0 → IsOk result }
    ensures error { IfErr result
        (ClonesFail (A.is_infallible like.now.alloc) capacity (type_size E.row)) }
{
    let Ok(own) = like.allocator().clone() else {
        return Err(alloc_error(capacity));
    };
    let made = RawVec::with_capacity_and_growth_in(capacity, like.growth(), own)?;
    made.prove_capacity_bounds();
    Ok(made)
}

// Reserves exactly `capacity` slots, more than there is memory for, in a vector with this growth
// policy.
fn reserve_slots<A: Allocator + Clone>(
    slots: &mut Option<Vec<Slot, A>>,
    growth: Growth,
    alloc: &A,
    capacity: usize,
) -> Result<(), TryReserveError>
    requires within { length (states_of slots.old) ≤ capacity_of slots.old }
    requires more { capacity_of slots.old < capacity }
    requires same { HasPolicy slots.old growth }
    ensures slots { states_of slots.new ≡ states_of slots.old }
    ensures growth { HasPolicy slots.new growth }
    ensures room { OnOk result (capacity_of slots.new ≡ capacity) }
    ensures counted { OnOk result (blocks_of slots.new ≡ blocks_of slots.old + 1) }
    ensures error { IfErr result (ClonesFail (A.is_infallible alloc.now) capacity 8) }
    ensures unchanged { OnErr result (slots.new ≡ slots.old) }
{
    match slots {
        Some(made) => made.try_reserve_exact(capacity - made.len()),
        None => {
            let Ok(own) = alloc.clone() else {
                return Err(alloc_error(capacity));
            };
            let mut made = Vec::with_growth_in(growth, own);
            made.try_reserve_exact(capacity)?;
            *slots = Some(made);
            Ok(())
        }
    }
}

/// Reserves memory for exactly `capacity` slots with their values, more than there is memory for.
///
/// Moves both to new blocks, or grows their own by the policy `InPlace`, if no slot is free. Counts
/// this as one of `moves`.
///
/// # Errors
/// `CapacityOverflow` if the bytes exceed `isize::MAX`; `AllocError` with the number `capacity`.
/// Both blocks are unchanged, but that of the values may be larger by the policy `InPlace`.
#[cold]
#[inline(never)]
#[tactic(auto, using(allocator_api2::proofs::Blocks::emptied, crate::proofs::Growing::full))]
pub fn reserve<T, A: Allocator + Clone>(
    slots: &mut Option<Vec<Slot, A>>,
    values: &mut RawVec<((), T), A>,
    free: usize,
    capacity: usize,
    moves: &mut Counter,
) -> Result<(), TryReserveError>
    requires held { AreHeld (states_of slots.old) values.old.places }
    requires counted { free + count (seen (states_of slots.old) values.old.places)
        ≡ length (states_of slots.old) }
    requires within { length (states_of slots.old) ≤ capacity_of slots.old }
    requires places { capacity_of slots.old ≤ length values.old.places }
    requires together { MoveTogether slots.old values.old moves.old.count }
    requires more { capacity_of slots.old < capacity }

    // The slots and their values are unchanged, each value in its place.
    ensures slots { states_of slots.new ≡ states_of slots.old }
    ensures held { AreHeld (states_of slots.new) values.new.places }
    ensures values { seen (states_of slots.new) values.new.places
        ≡ seen (states_of slots.old) values.old.places }

    // There is memory for more slots on success, and as before on an error.
    ensures places { capacity_of slots.new ≤ length values.new.places }
    ensures growth { values.new.growth ≡ values.old.growth }
    ensures together { MoveTogether slots.new values.new moves.new.count }
    ensures capacity { OnOk result (capacity_of slots.new ≡ capacity) }
    ensures counted { OnOk result (blocks_of slots.new ≡ blocks_of slots.old + 1) }
    ensures error { IfErr result (λ e. IsErrorFor e capacity) }
    ensures unchanged { OnErr result (slots.new ≡ slots.old) }
    ensures kept { OnErr result (values.old.growth ≢ InPlace → values.new ≡ values.old) }
{
    if free == 0 && may_extend(slots, values, capacity) {
        return extend(slots, values, capacity, moves);
    }
    let fresh = block_for(values, capacity)?;
    reserve_slots(slots, values.growth(), values.allocator(), capacity)?;
    move_to(slots_in(slots), values, fresh, free, capacity, moves);
    Ok(())
}

// Returns `true` if the policy is `InPlace`, and the block of the values has as many places as that
// of the slots, or as many as these need.
fn may_extend<T, A: Allocator>(
    slots: &Option<Vec<Slot, A>>,
    values: &RawVec<((), T), A>,
    capacity: usize,
) -> bool
    ensures growth { IsTrue result → values.now.growth ≡ InPlace }
    ensures same_capacity { IsTrue result → length values.now.places < capacity
        → capacity_of slots.now ≡ length values.now.places }
{
    match values.growth() {
        Growth::InPlace => {
            capacity <= values.capacity() || capacity_in(slots) == values.capacity()
        }
        _ => false,
    }
}

// Grows both blocks to `capacity`, each as its policy says. All slots have values.
#[tactic(auto, using(allocator_api2::proofs::Blocks::with_room, crate::proofs::Growing::same))]
fn extend<T, A: Allocator + Clone>(
    slots: &mut Option<Vec<Slot, A>>,
    values: &mut RawVec<((), T), A>,
    capacity: usize,
    moves: &mut Counter,
) -> Result<(), TryReserveError>
    requires full { IsRun values.old.places 0 (length (states_of slots.old)) }
    requires held { AreHeld (states_of slots.old) values.old.places }
    requires within { length (states_of slots.old) ≤ capacity_of slots.old }
    requires places { capacity_of slots.old ≤ length values.old.places }
    requires together { moves.old.count ≡ blocks_of slots.old }
    requires bound { values.old.grown.blocks
        ≤ moves.old.count + ahead (capacity_of slots.old) (length values.old.places) }
    requires same_capacity { length values.old.places < capacity
        → capacity_of slots.old ≡ length values.old.places }
    requires more { capacity_of slots.old < capacity }
    requires same { HasPolicy slots.old values.old.growth }

    // The slots and their values are unchanged, each value in its place.
    ensures slots { states_of slots.new ≡ states_of slots.old }
    ensures held { AreHeld (states_of slots.new) values.new.places }
    ensures values { seen (states_of slots.new) values.new.places
        ≡ seen (states_of slots.old) values.old.places }

    // There is memory for more slots on success, and for as many as before on an error.
    ensures places { capacity_of slots.new ≤ length values.new.places }
    ensures growth { values.new.growth ≡ values.old.growth }
    ensures same { HasPolicy slots.new values.new.growth }
    ensures together { moves.new.count ≡ blocks_of slots.new }
    ensures bound { values.new.grown.blocks
        ≤ moves.new.count + ahead (capacity_of slots.new) (length values.new.places) }
    ensures capacity { OnOk result (capacity_of slots.new ≡ capacity) }
    ensures counted { OnOk result (blocks_of slots.new ≡ blocks_of slots.old + 1) }
    ensures error { IfErr result (λ e. IsErrorFor e capacity) }
    ensures unchanged { OnErr result (slots.new ≡ slots.old) }
{
    let len = slots_in(slots).len();
    values.try_reserve_exact(len, capacity - len)?;
    reserve_slots(slots, values.growth(), values.allocator(), capacity)?;
    moves.add(1);
    Ok(())
}

/// Shrinks the memory to that for exactly the slots that there are.
///
/// Moves both to smaller blocks, unless there is memory for no more slots. Counts this as one of
/// `moves`, unless there are no slots. Of the slots, `free` have no value.
///
/// # Errors
/// `AllocError` with the number of slots. Both blocks are unchanged.
#[tactic(auto, using(allocator_api2::proofs::Blocks::emptied))]
pub fn shrink<T, A: Allocator + Clone>(
    slots: &mut Vec<Slot, A>,
    values: &mut RawVec<((), T), A>,
    free: usize,
    moves: &mut Counter,
) -> Result<(), TryReserveError>
    requires held { AreHeld slots.old.items values.old.places }
    requires counted { free + count (seen slots.old.items values.old.places)
        ≡ length slots.old.items }
    requires within { length slots.old.items ≤ slots.old.capacity }
    requires places { slots.old.capacity ≤ length values.old.places }
    requires together { MoveTogether (Some slots.old) values.old moves.old.count }

    // The slots and their values are unchanged, each value in its place.
    ensures slots { slots.new.items ≡ slots.old.items }
    ensures held { AreHeld slots.new.items values.new.places }
    ensures values { seen slots.new.items values.new.places
        ≡ seen slots.old.items values.old.places }

    // There is memory for these slots on success, and as before on an error.
    ensures places { slots.new.capacity ≤ length values.new.places }
    ensures growth { values.new.growth ≡ values.old.growth }
    ensures together { MoveTogether (Some slots.new) values.new moves.new.count }
    ensures capacity { OnOk result (slots.new.capacity ≡ length slots.old.items) }
    ensures counted { OnOk result (slots.new.grown.blocks ≡ shrunk_resizes
        slots.old.grown.blocks slots.old.capacity (length slots.old.items)) }
    ensures error { IfErr result (λ e. IsErrorFor e (length slots.old.items)) }
    ensures fits { slots.old.capacity ≡ length slots.old.items → IsOk result }
    ensures unchanged { OnErr result (slots.new ≡ slots.old) }
    ensures kept { OnErr result (values.new ≡ values.old) }
{
    let len = slots.len();
    if len == slots.capacity() {
        return Ok(());
    }
    let fresh = block_for(values, len)?;
    slots.shrink_to_fit()?;
    move_to(slots.as_slice(), values, fresh, free, len, moves);
    Ok(())
}

/// Returns a copy of the slots, over a clone of the allocator, with capacity for no more.
pub fn clone_slots<A: Allocator + Clone>(
    slots: &Option<Vec<Slot, A>>,
) -> Result<Option<Vec<Slot, A>>, TryReserveError>
    ensures slots { IfOk result (λ copy. states_of copy ≡ states_of slots.now) }
    ensures capacity { IfOk result (λ copy. capacity_of copy ≡ length (states_of slots.now)) }
    ensures blocks { IfOk result
        (λ copy. blocks_of copy ≡ fresh_resizes (length (states_of slots.now))) }
    ensures growth { (g : Growth) → HasPolicy slots.now g → IfOk result (λ copy. HasPolicy copy g) }
    ensures fits { ((a : A) → A.is_infallible a) → states_of slots.now ≡ [] → IsOk result }
    ensures error { IfErr result
        (ClonesFail ((a : A) → A.is_infallible a) (length (states_of slots.now)) 8) }
{
    match slots {
        Some(made) => Ok(Some(made.clone()?)),
        None => Ok(None),
    }
}

// Writes a clone of each value from `from` into the place of the same index in `to`.
//
// If a clone fails, drops those made and returns `false`.
fn put_clones<T: Clone + Drop, A: Allocator>(
    slots: &[Slot],
    from: &RawVec<((), T), A>,
    to: &mut RawVec<((), T), A>,
) -> bool
    requires held { AreHeld slots.now from.now.places }
    requires room { length slots.now ≤ length to.old.places }
    ensures made { IsTrue result → AreClones T.is_clone slots.now from.now.places to.new.places }
    ensures room { length to.new.places ≡ length to.old.places }
    ensures counts { to.new.grown ≡ to.old.grown }
    ensures growth { to.new.growth ≡ to.old.growth }
    ensures fits { slots.now ≡ [] → IsTrue result }
{
    'each: for index in 0..slots.len() {
        if let State::Held(_) = slots[index].state() {
            match from.place(index).1.clone() {
                Ok(copy) => to.put(index, ((), copy)),
                Err(_) => {
                    drop_between(slots, to, 0, index);
                    return false;
                }
            }
        }
    }
    true
}

/// Returns a block with a clone of the value of each slot, over a clone of the allocator.
#[tactic(auto, using(allocator_api2::proofs::Blocks::emptied))]
pub fn clone_values<T: Clone + Drop, A: Allocator + Clone>(
    slots: &[Slot],
    values: &RawVec<((), T), A>,
) -> Result<RawVec<((), T), A>, TryReserveError>
    requires held { AreHeld slots.now values.now.places }
    ensures made { IfOk result
        (λ copy. AreClones T.is_clone slots.now values.now.places copy.places) }
    ensures room { IfOk result (λ copy. length slots.now ≤ length copy.places) }
    ensures once { IfOk result (λ copy. copy.grown.blocks ≤ min 1 (length slots.now)) }
    ensures growth { IfOk result (λ copy. copy.growth ≡ values.now.growth) }
    ensures fits { ((a : A) → A.is_infallible a) → slots.now ≡ [] → IsOk result }
    ensures error { IfErr result (λ e. IsErrorFor e (length slots.now)) }
{
    let mut copy = block_for(values, slots.len())?;
    if put_clones(slots, values, &mut copy) {
        Ok(copy)
    } else {
        copy.forget_from(0);
        Err(alloc_error(slots.len()))
    }
}
