//! Capacity that is reserved first, and pushes that use it.
ghost use Rattle.std.specs.Prelude.{◌≡◌, ◌+◌, ◌*◌, ◌^◌, ◌<◌, ◌≤◌, ◌↔◌, max, [], ◌∷◌, ◌++◌, length, replicate, IfErr, IfOk, OnErr, OnOk, IsOk, IsTrue};
ghost use Rattle.allocator_api2.specs.Errors.{error_for};
ghost use Rattle.allocator_api2.specs.Vector.{HasRoom, Holds, SameBlock};

use allocator_api2::collections::{Refused, TryReserveError, TryReserveErrorKind};
use allocator_api2::counter::Counter;
use allocator_api2::vec::Vec;
use std::alloc::Allocator;

/// Appends a number.
///
/// Succeeds if the vector has spare capacity.
///
/// # Errors
/// If the allocation fails, the vector is unchanged and `x` is returned in the error.
pub fn add<A: Allocator>(v: &mut Vec<u64, A>, x: u64) -> Result<(), Refused<u64>>
    ensures fits { HasRoom v.old 1 → IsOk result }
    ensures added { OnOk result (v.new.items ≡ v.old.items ++ x ∷ []) }
    ensures failed { IfErr result (λ r. (r.source ≡ x) × (v.new ≡ v.old)) }
{
    v.push(x)
}

/// Appends two numbers, or neither.
///
/// Succeeds if the vector has spare capacity for both.
///
/// # Errors
/// If the allocation fails, the vector is unchanged.
pub fn add_two<A: Allocator>(v: &mut Vec<u64, A>, a: u64, b: u64) -> Result<(), TryReserveError>
    ensures fits { HasRoom v.old 2 → IsOk result }
    ensures both { OnOk result (v.new.items ≡ v.old.items ++ a ∷ b ∷ []) }
    ensures neither { OnErr result (v.new ≡ v.old) }
{
    v.try_reserve(2)?;
    push_within(v, a);
    push_within(v, b);
    Ok(())
}

/// Appends a pair, or neither.
///
/// Allocates only if fewer than two places are free, and then for exactly two more. Moves each
/// element at most once.
pub fn add_pair<A: Allocator>(v: &mut Vec<u64, A>, a: u64, b: u64) -> Result<(), TryReserveError>
    // If two more fit, it succeeds in the same block.
    ensures fits { HasRoom v.old 2 → IsOk result × SameBlock v.old v.new }
    // Success leaves the pair at the end, and the capacity that is needed for it.
    ensures appended { OnOk result (v.new.items ≡ v.old.items ++ a ∷ b ∷ []) }
    ensures capacity { OnOk result (v.new.capacity ≡ max v.old.capacity (length v.old.items + 2)) }
    ensures counts { OnOk result (v.new.grown.moved ≤ v.old.grown.moved + length v.old.items) }
    ensures blocks { OnOk result (v.new.grown.blocks ≤ v.old.grown.blocks + 1) }
    // Failure changes nothing. The error is that of a request for so many elements of 8 bytes.
    ensures error { IfErr result (λ e. e ≡ error_for 8 (length v.old.items + 2)) }
    ensures unchanged { OnErr result (v.new ≡ v.old) }
{
    v.try_reserve_exact(2)?;
    push_within(v, a);
    push_within(v, b);
    Ok(())
}

/// Reserves capacity for `count` more numbers.
///
/// # Errors
/// Returns `true` if it may succeed once memory is free, and `false` if no block can have so many.
/// The vector is unchanged.
pub fn reserve_or_wait<A: Allocator>(v: &mut Vec<u64, A>, count: usize) -> Result<(), bool>
    ensures room { OnOk result (HasRoom v.new count) }
    ensures items { v.new.items ≡ v.old.items }
    ensures error { let bytes = (length v.old.items + count) * 8 in
        IfErr result (λ wait. IsTrue wait ↔ (bytes < 2 ^ 63)) }
    ensures unchanged { OnErr result (v.new ≡ v.old) }
{
    match v.try_reserve_exact(count) {
        Ok(()) => Ok(()),
        Err(error) => Err(error.kind() != TryReserveErrorKind::CapacityOverflow),
    }
}

/// Returns a vector of two numbers.
pub fn two_in<A: Allocator>(alloc: A, a: u64, b: u64) -> Result<Vec<u64, A>, TryReserveError>
    ensures { IfOk result (λ v. v.items ≡ a ∷ b ∷ []) }
{
    let mut v = Vec::with_capacity_in(2, alloc)?;
    push_within(&mut v, a);
    push_within(&mut v, b);
    Ok(v)
}

/// Appends `count` zeroes, or none.
pub fn add_zeroes<A: Allocator>(v: &mut Vec<u64, A>, count: usize) -> Result<(), TryReserveError>
    ensures fits { HasRoom v.old count → IsOk result }
    ensures all { OnOk result (v.new.items ≡ v.old.items ++ replicate count 0) }
    ensures none { OnErr result (v.new ≡ v.old) }
{
    v.try_reserve(count)?;
    'each: for _i in 0..count {
        push_within(v, 0);
    }
    Ok(())
}

// Appends a number, which must fit, and so does not allocate.
fn push_within<A: Allocator>(v: &mut Vec<u64, A>, x: u64)
    requires room { HasRoom v.old 1 }
    ensures { Holds v.old (v.old.items ++ x ∷ []) v.new }
{
    match v.push_within_capacity(x) {
        Ok(()) => {}
        Err(_) => unreachable!(),
    }
}

/// Raises a ghost counter to the length of `v`, so that it keeps the greatest one.
///
/// Does nothing at run time.
pub fn note_length<T, A: Allocator>(longest: &mut Counter, v: &Vec<T, A>)
    ensures { longest.new.count ≡ max longest.old.count (length v.now.items) }
{
    longest.raise(v.len());
}
