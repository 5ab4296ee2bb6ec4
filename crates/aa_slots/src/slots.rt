//! The slots of a map: each has a value or is free, and the free slots form a linked list.
//!
//! A slot is one word. The values are in a second block, each in the place with the index of its
//! slot.
ghost use Rattle.std.specs.Prelude.{◌≡◌, ◌+◌, ◌^◌, ◌<◌, ◌≤◌, IfNone, IfSome, length, is_some, None, Some, true, option_map, slice_set};
ghost use Rattle.aa_slots.specs.Inside.{capacity_of, is_held_by, next_index, number_in, seen, serial_in, state_at, states_of, AreFree, IsSound};
ghost use Rattle.aa_slots.specs.Slotted.{count, slot_at, Puts};
ghost use Rattle.aa_slots.specs.declared.slots.State.TheVariants.{Free, Held};

use crate::key::KeyData;
use allocator_api2::raw_vec::RawVec;
use allocator_api2::vec::Vec;
use std::alloc::{AllocError, Allocator};
use std::marker::Model;

/// What a slot is.
#[derive(Clone, Copy, Drop)]
pub enum State {
    /// No value: the index of the next free slot.
    Free(usize),
    /// A value: the serial of its key.
    Held(u64),
}

/// A slot: its state as one word, which is odd if the slot has a value.
///
/// A contract sees it as its state.
#[derive(Drop)]
pub struct Slot {
    word: u64,
}

/// The list of free slots: the index of the first, and their number.
#[derive(Clone, Copy)]
pub struct Chain {
    pub first: usize,
    pub count: usize,
}

impl Model for Slot {
    ghost use Rattle.aa_slots.specs.Inside.{state_of};
    ghost use Rattle.aa_slots.specs.declared.slots.State.{State};

    ghost Value = { State };

    ghost view = { λ s. state_of s.word };
}

impl Slot {
    /// Returns a free slot, before the free slot `next`.
    #[inline(always)]
    pub fn free(next: usize) -> Slot
        requires { next < 2 ^ 63 }
        ensures { result ≡ Free next }
    {
        Slot {
            word: 2 * next as u64,
        }
    }

    /// Returns a slot that has the value of the key with this serial.
    #[inline(always)]
    pub fn held(serial: u64) -> Slot
        requires { serial < 2 ^ 63 }
        ensures { result ≡ Held serial }
    {
        Slot {
            word: 2 * serial + 1,
        }
    }

    /// Returns the state of the slot.
    #[inline(always)]
    pub fn state(&self) -> State
        ensures state { result ≡ self.now }
        ensures small { number_in result < 2 ^ 63 }
    {
        if self.word % 2 == 0 {
            State::Free((self.word / 2) as usize)
        } else {
            State::Held(self.word / 2)
        }
    }
}

impl Clone for Slot {
    ghost use Rattle.std.specs.Prelude.{⊤};

    ghost is_clone = { λ s copy. copy ≡ s };

    ghost is_infallible = { λ _. ⊤ };

    /// Returns a slot with the same state.
    fn clone(&self) -> Result<Self, AllocError> {
        Ok(Slot { word: self.word })
    }
}

/// Returns the slots of a map, none if it has not allocated.
#[inline(always)]
pub fn slots_in<A: Allocator>(slots: &Option<Vec<Slot, A>>) -> &[Slot]
    ensures { result.now ≡ states_of slots.now }
{
    match slots {
        Some(made) => made.as_slice(),
        None => &[],
    }
}

/// Returns the number of slots for which a map has memory.
#[inline(always)]
pub fn capacity_in<A: Allocator>(slots: &Option<Vec<Slot, A>>) -> usize
    ensures { result ≡ capacity_of slots.now }
{
    match slots {
        Some(made) => made.capacity(),
        None => 0,
    }
}

/// Returns the serial of the key whose value is in the slot at `index`, if there is one.
#[inline(always)]
pub fn serial_at(slots: &[Slot], index: usize) -> Option<u64>
    ensures { result ≡ serial_in (state_at slots.now index) }
{
    match slots.get(index) {
        Some(slot) => match slot.state() {
            State::Held(serial) => Some(serial),
            State::Free(_) => None,
        },
        None => None,
    }
}

/// Returns `true` if the slot at `index` has the value of the key with this serial.
#[inline(always)]
pub fn is_held_at(slots: &[Slot], index: usize, serial: u64) -> bool
    ensures { result ≡ is_held_by serial (state_at slots.now index) }
{
    match slots.get(index) {
        Some(slot) => match slot.state() {
            State::Held(own) => own == serial,
            State::Free(_) => false,
        },
        None => false,
    }
}

/// Returns the key of the first value in the slots from `from` on and before `end`, if there is
/// one.
#[inline]
pub fn first_held(slots: &[Slot], from: usize, end: usize) -> Option<KeyData>
    requires { end ≤ length slots.now }
    ensures within { IfSome result (λ k. (from ≤ k.index) × (k.index < end)) }
    ensures held { IfSome result (λ k. state_at slots.now k.index ≡ Held k.serial) }
    ensures first { IfSome result (λ k. AreFree slots.now from k.index) }
    ensures none { IfNone result (AreFree slots.now from end) }
{
    'each: for index in from..end {
        if let State::Held(serial) = slots[index].state() {
            return Some(KeyData { index, serial });
        }
    }
    None
}

/// Returns the key of the last value in the slots from `from` on and before `end`, if there is
/// one.
pub fn last_held(slots: &[Slot], from: usize, end: usize) -> Option<KeyData>
    requires { end ≤ length slots.now }
    ensures within { IfSome result (λ k. (from ≤ k.index) × (k.index < end)) }
    ensures held { IfSome result (λ k. state_at slots.now k.index ≡ Held k.serial) }
    ensures last { IfSome result (λ k. AreFree slots.now (k.index + 1) end) }
    ensures none { IfNone result (AreFree slots.now from end) }
{
    let mut past = end;
    'each: while from < past {
        past -= 1;
        if let State::Held(serial) = slots[past].state() {
            return Some(KeyData {
                index: past,
                serial,
            });
        }
    }
    None
}

// Writes a value into the first free slot, and returns its index.
#[inline]
fn put_first<T, A: Allocator>(
    slots: &mut Vec<Slot, A>,
    values: &mut RawVec<((), T), A>,
    free: &mut Chain,
    serial: u64,
    value: T,
) -> usize
    requires sound { IsSound slots.old.items values.old.places free.old slots.old.capacity }
    requires some { 0 < free.old.count }
    requires serial { serial < 2 ^ 63 }
    ensures sound { IsSound slots.new.items values.new.places free.new slots.new.capacity }
    ensures index { result ≡ free.old.first }
    ensures put { Puts (seen slots.old.items values.old.places)
        (record { index = result; serial = serial }) value
        (seen slots.new.items values.new.places) }
    ensures capacity { slots.new.capacity ≡ slots.old.capacity }
    ensures counts { slots.new.grown ≡ slots.old.grown }
    ensures same { slots.new.growth ≡ slots.old.growth }
    ensures value_counts { values.new.grown ≡ values.old.grown }
    ensures growth { values.new.growth ≡ values.old.growth }
    ensures places { length values.new.places ≡ length values.old.places }
{
    let at = free.first;
    match slots[at].state() {
        State::Free(next) => free.first = next,
        State::Held(_) => unreachable!(),
    }
    slots[at] = Slot::held(serial);
    values.put(at, ((), value));
    free.count -= 1;
    at
}

// Appends a new slot with a value, and returns its index.
#[inline]
fn push_new<T, A: Allocator>(
    slots: &mut Vec<Slot, A>,
    values: &mut RawVec<((), T), A>,
    free: &Chain,
    serial: u64,
    value: T,
) -> usize
    requires sound { IsSound slots.old.items values.old.places free.now slots.old.capacity }
    requires none { free.now.count ≡ 0 }
    requires room { length slots.old.items < slots.old.capacity }
    requires serial { serial < 2 ^ 63 }
    ensures sound { IsSound slots.new.items values.new.places free.now slots.new.capacity }
    ensures index { result ≡ length slots.old.items }
    ensures put { Puts (seen slots.old.items values.old.places)
        (record { index = result; serial = serial }) value
        (seen slots.new.items values.new.places) }
    ensures capacity { slots.new.capacity ≡ slots.old.capacity }
    ensures counts { slots.new.grown ≡ slots.old.grown }
    ensures same { slots.new.growth ≡ slots.old.growth }
    ensures value_counts { values.new.grown ≡ values.old.grown }
    ensures growth { values.new.growth ≡ values.old.growth }
    ensures places { length values.new.places ≡ length values.old.places }
{
    let at = slots.len();
    match slots.push_within_capacity(Slot::held(serial)) {
        Ok(()) => {}
        Err(_) => unreachable!(),
    }
    values.put(at, ((), value));
    at
}

/// Returns the index of the slot into which `put` writes the next value.
#[inline(always)]
pub fn next_index<A: Allocator>(slots: &Vec<Slot, A>, free: &Chain) -> usize
    ensures { result ≡ next_index slots.now.items free.now }
{
    if free.count == 0 {
        slots.len()
    } else {
        free.first
    }
}

/// Writes a value into a free slot, or into a new one if no slot is free, and returns its index.
///
/// Does not allocate: there is capacity for one more value.
#[inline]
pub fn put<T, A: Allocator>(
    slots: &mut Vec<Slot, A>,
    values: &mut RawVec<((), T), A>,
    free: &mut Chain,
    serial: u64,
    value: T,
) -> usize
    requires sound { IsSound slots.old.items values.old.places free.old slots.old.capacity }
    requires room { count (seen slots.old.items values.old.places) < slots.old.capacity }
    requires serial { serial < 2 ^ 63 }
    ensures sound { IsSound slots.new.items values.new.places free.new slots.new.capacity }
    ensures index { result ≡ next_index slots.old.items free.old }
    ensures put { Puts (seen slots.old.items values.old.places)
        (record { index = result; serial = serial }) value
        (seen slots.new.items values.new.places) }
    ensures capacity { slots.new.capacity ≡ slots.old.capacity }
    ensures counts { slots.new.grown ≡ slots.old.grown }
    ensures same { slots.new.growth ≡ slots.old.growth }
    ensures value_counts { values.new.grown ≡ values.old.grown }
    ensures growth { values.new.growth ≡ values.old.growth }
    ensures places { length values.new.places ≡ length values.old.places }
{
    if free.count == 0 {
        push_new(slots, values, free, serial, value)
    } else {
        put_first(slots, values, free, serial, value)
    }
}

/// Removes the value from a slot and returns it. The slot is then the first free one.
///
/// Does not allocate.
#[inline]
pub fn release<T, A: Allocator>(
    slots: &mut Vec<Slot, A>,
    values: &mut RawVec<((), T), A>,
    free: &mut Chain,
    at: usize,
) -> T
    // The slot has a value.
    requires sound { IsSound slots.old.items values.old.places free.old slots.old.capacity }
    requires held { is_some (slot_at (seen slots.old.items values.old.places) at) ≡ true }

    // The value is returned, and the slot is free.
    ensures sound { IsSound slots.new.items values.new.places free.new slots.new.capacity }
    ensures value { Some result
        ≡ option_map (λ e. e.1) (slot_at (seen slots.old.items values.old.places) at) }
    ensures freed { seen slots.new.items values.new.places
        ≡ slice_set (seen slots.old.items values.old.places) at None }
    ensures capacity { slots.new.capacity ≡ slots.old.capacity }
    ensures counts { slots.new.grown ≡ slots.old.grown }
    ensures same { slots.new.growth ≡ slots.old.growth }
    ensures value_counts { values.new.grown ≡ values.old.grown }
    ensures growth { values.new.growth ≡ values.old.growth }
    ensures places { length values.new.places ≡ length values.old.places }
{
    slots.prove_capacity_bounds();
    slots[at] = Slot::free(free.first);
    free.first = at;
    free.count += 1;
    values.take(at).1
}
