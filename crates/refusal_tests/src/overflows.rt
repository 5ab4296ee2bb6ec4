//! Lengths and sizes past the limits: a length past `usize::MAX`, and bytes past `isize::MAX`.
use crate::changes::{Call, called, called_with_many, called_with_one};
use crate::copies;
use crate::items::{Fill, copied, filled};
use crate::seen::{End, end_of, end_of_made, has_items, numbers, put, room_for, units};
use allocator_api2::collections::TryReserveError;
use allocator_api2::gap_buffer::GapBuffer;
use allocator_api2::vec::Vec;
use allocator_api2::{SliceExt, vec_of};
use std::alloc::Global;
use std::cell::Cell;
use std::mem::forget;
use test_allocators::Faulty;
use test_allocators::failing::Failing;

// One number fewer than the limit on bytes allows fails only for lack of memory.
#[test]
fn no_capacity_is_reserved_past_the_limits(rt: HostRuntime) {
    let heap = Faulty::new(rt.alloc());
    let mut bytes = room_for(0, &heap);
    heap.fail_requests(0, u64::MAX);
    for call in [
        copies::Call::BlockWithCapacityIn(1 << 61),
        copies::Call::BlockWithCapacityIn(usize::MAX),
        copies::Call::TextWithCapacityIn(1 << 61),
        copies::Call::TextWithCapacityIn(usize::MAX),
        copies::Call::WithCapacityIn(1 << 61),
        copies::Call::WithCapacityIn(usize::MAX),
        copies::Call::Repeated(1 << 60),
        copies::Call::Repeated(usize::MAX / 2),
        copies::Call::ResizeWith(1 << 63),
        copies::Call::ResizeWith(usize::MAX),
    ] {
        assert!(rt; copies::called(call, &mut bytes, &heap) == End::TooLong);
    }
    let fitting = (1 << 61) - 1;
    let call = copies::Call::WithCapacityIn(fitting);
    assert!(rt; copies::called(call, &mut bytes, &heap) == End::NoMemory(fitting));
}

// Calls on the global allocator that pass on to those with an allocator.
#[derive(Clone, Copy)]
enum OnGlobal {
    WithCapacity,
    FromElem,
    Repeat,
    Repeat2,
    ToVec,
    ToVec2,
    VecOfCopies,
    VecOfElements,
}

// What a call makes, of the numbers 1 and 2 or of so many.
fn made(alloc: Global, call: OnGlobal, many: usize) -> Result<Vec<u32>, TryReserveError> {
    let pair = [1u32, 2];
    let s = pair.as_slice();
    match call {
        OnGlobal::WithCapacity => Vec::with_capacity(alloc, many),
        OnGlobal::FromElem => Vec::from_elem(alloc, 7, many),
        OnGlobal::Repeat => SliceExt::repeat(&s, alloc, many),
        OnGlobal::Repeat2 => s.repeat2(alloc, many),
        OnGlobal::ToVec => SliceExt::to_vec(&s, alloc),
        OnGlobal::ToVec2 => s.to_vec2(alloc),
        OnGlobal::VecOfCopies => vec_of![in alloc; 7; many],
        OnGlobal::VecOfElements => Ok(vec_of![in alloc; 1, 2]?),
    }
}

#[test]
fn no_vector_is_made_past_the_limits(rt: HostRuntime) {
    for (call, many) in [
        (OnGlobal::WithCapacity, 1 << 61),
        (OnGlobal::WithCapacity, usize::MAX),
        (OnGlobal::FromElem, 1 << 61),
        (OnGlobal::FromElem, usize::MAX),
        (OnGlobal::Repeat, usize::MAX),
        (OnGlobal::Repeat2, usize::MAX),
    ] {
        assert!(rt; end_of_made(made(rt.alloc(), call, many)) == End::TooLong);
    }
}

// Whether a call makes a vector of these, in just their places.
fn makes(alloc: Global, call: OnGlobal, many: usize, items: &[u32]) -> bool {
    match made(alloc, call, many) {
        Ok(v) => has_items(&v, items, items.len()),
        Err(_) => false,
    }
}

#[test]
fn vectors_are_made_of_a_slice(rt: HostRuntime) {
    for (call, many, items) in [
        (OnGlobal::Repeat, 3, [1, 2, 1, 2, 1, 2].as_slice()),
        (OnGlobal::Repeat2, 0, [].as_slice()),
        (OnGlobal::ToVec, 0, [1, 2].as_slice()),
        (OnGlobal::ToVec2, 0, [1, 2].as_slice()),
        (OnGlobal::VecOfCopies, 3, [7, 7, 7].as_slice()),
        (OnGlobal::VecOfElements, 0, [1, 2].as_slice()),
    ] {
        assert!(rt; makes(rt.alloc(), call, many, items));
    }
}

// How a call ends on the number 7 in its one place, and whether that is left.
fn end_of_call(alloc: Global, call: Call) -> (End, bool) {
    let mut v = numbers(alloc, &[7], 1);
    let other = numbers(alloc, &[8], 1);
    let end = called(call, &mut v, &mut Some(8), other, alloc, &Cell::new(0));
    (end, has_items(&v, &[7], 1))
}

#[test]
fn no_vector_grows_past_the_limits(rt: HostRuntime) {
    for many in [(1 << 61) - 1, usize::MAX] {
        for call in [
            Call::TryReserve(many),
            Call::Reserve(many),
            Call::TryReserveExact(many),
            Call::ReserveExact(many),
            Call::Resize(many.saturating_add(1)),
            Call::ExtendHinted(many),
            Call::FromElemIn(many),
        ] {
            assert!(rt; end_of_call(rt.alloc(), call) == (End::TooLong, true));
        }
    }
}

// How it ends to reserve so many more places after one element.
fn end_of_reserve<T: Clone + Drop>(alloc: Global, x: T, more: usize) -> End {
    let mut v = room_for(1, alloc);
    put(&mut v, x);
    end_of(called_with_many(Call::TryReserve(more), &mut v, &mut room_for(0, alloc)))
}

#[test]
fn no_more_places_are_reserved_than_can_be_counted(rt: HostRuntime) {
    assert!(rt; end_of_reserve(rt.alloc(), 7u8, usize::MAX) == End::TooLong);
    assert!(rt; end_of_reserve(rt.alloc(), (), usize::MAX) == End::TooLong);
    assert!(rt; end_of_reserve(rt.alloc(), (), usize::MAX - 1) == End::Done);
}

// Reserves capacity for so many after one number of a text, and returns how this ends.
fn end_of_room_in_text(alloc: Global, many: usize) -> End {
    let mut text: GapBuffer<u32> = GapBuffer::new_in(alloc);
    let _ended = text.insert(7);
    end_of(text.reserve(many))
}

#[test]
fn no_capacity_is_reserved_in_a_text_past_the_limits(rt: HostRuntime) {
    for many in [(1 << 61) - 1, usize::MAX] {
        assert!(rt; end_of_room_in_text(rt.alloc(), many) == End::TooLong);
    }
}

// Returns how a call that takes so many items ends on a 7 in its one place, and whether that is
// left.
fn end_of_fill(alloc: Global, call: Fill, many: usize) -> (End, bool) {
    let mut v = room_for(1, alloc);
    put(&mut v, 7);
    let end = filled(call, &mut v, 0..many, alloc);
    (end, has_items(&v, &[7], 1))
}

#[test]
fn no_item_is_put_past_the_limits(rt: HostRuntime) {
    for call in [
        Fill::Extend,
        Fill::ExtendBy,
        Fill::FromIterIn,
        Fill::SliceFromIterIn,
        Fill::Splice(1, 1),
    ] {
        for many in [1 << 60, usize::MAX] {
            assert!(rt; end_of_fill(rt.alloc(), call, many) == (End::TooLong, true));
        }
    }
}

// As many units as can be counted.
fn most_units(alloc: Global) -> Vec<()> {
    let mut v: Vec<[(); MOST]> = room_for(0, alloc);
    put(&mut v, [(); MOST]);
    match v.into_flattened() {
        Ok(flat) => flat,
        Err(_) => room_for(0, alloc),
    }
}

const MOST: usize = 18446744073709551615;

// Appends a unit, and returns how this ends.
fn end_of_unit(call: Call, v: &mut Vec<()>, other: Vec<()>) -> End {
    match call {
        Call::Push | Call::Insert => called_with_one(call, v, &mut Some(())),
        Call::Append | Call::ExtendFromSlice => {
            let mut other = other;
            end_of(called_with_many(call, v, &mut other))
        }
        _ => copied(v, [()].iter()),
    }
}

#[test]
fn no_unit_is_appended_to_as_many_as_can_be_counted(rt: HostRuntime) {
    let mut v = most_units(rt.alloc());
    assert!(rt; v.len() == usize::MAX);
    for call in [
        Call::Push,
        Call::Insert,
        Call::Append,
        Call::ExtendFromSlice,
        Call::Fill(Fill::Extend),
    ] {
        assert!(rt; end_of_unit(call, &mut v, units(1, rt.alloc())) == End::TooLong);
    }
    forget(v);
}

#[test]
fn zsts_do_not_allocate(rt: HostRuntime) {
    assert!(rt; units(5, Failing).len() == 5);
}

// Units on an allocator whose allocations all fail.
type Units = Vec<(), Failing>;

fn drain_second(v: &mut Units) {
    let to = v.len().min(2);
    drop(v.drain(to.min(1)..to));
}

// How it ends to append one unit by an iterator with the lower bound `usize::MAX`.
fn end_of_one_more(v: &mut Units) -> End {
    let (call, one) = (Call::ExtendHinted(usize::MAX), units(1, Failing));
    called(call, v, &mut None, one, Failing, &Cell::new(0))
}

fn shape(v: &Units) -> (usize, usize) {
    (v.len(), v.capacity())
}

// Pushes three units, drains the second, splits off the last, and appends one to the first. The
// shapes of both vectors, or none if a call fails.
fn shapes() -> Option<[(usize, usize); 2]> {
    let Ok(mut v) = Vec::with_capacity_in(5, Failing) else {
        return None;
    };
    for _ in 0..3 {
        put(&mut v, ());
    }
    drain_second(&mut v);
    let Ok(tail) = v.split_off(v.len().min(1)) else {
        return None;
    };
    match end_of_one_more(&mut v) {
        End::Done => Some([shape(&v), shape(&tail)]),
        _ => None,
    }
}

#[test]
fn no_call_on_units_allocates(rt: HostRuntime) {
    assert!(rt; shapes() == Some([(2, usize::MAX), (1, usize::MAX)]));
}
