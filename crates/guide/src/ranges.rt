//! Ranges removed from a vector, and inserted into one.
ghost use Rattle.std.specs.Prelude.{◌≡◌, ◌≤◌, ◌++◌, ◌/◌, drop, length, map, take, OnErr, OnOk, ℕ, List, [], ◌∷◌, slice_range, MatchOption};
ghost use Rattle.allocator_api2.specs.Vector.{HasRoom, Holds};

use allocator_api2::collections::TryReserveError;
use allocator_api2::vec::Vec;
use std::alloc::Allocator;

/// Moves the first `count` numbers of `from` to the end of `to`.
///
/// The contract does not say what remains in `from`, because the range is passed on by value.
pub fn move_first<A: Allocator>(
    from: &mut Vec<u32, A>,
    to: &mut Vec<u32, A>,
    count: usize,
) -> Result<(), TryReserveError>
    requires { count ≤ length from.old.items }
    ensures { OnOk result (to.new.items ≡ to.old.items ++ take count from.old.items) }
{
    to.extend(from.drain(0..count))
}

/// Removes a range and returns its first number, or `None` if the range is empty.
pub fn first_of_range<A: Allocator>(v: &mut Vec<u32, A>, start: usize, end: usize) -> Option<u32>
    requires { (start ≤ end) × (end ≤ length v.old.items) }
    ensures first { MatchOption result (slice_range v.old.items start end ≡ [])
        (λ x. (others : List ℕ) × (slice_range v.old.items start end ≡ x ∷ others)) }
    ensures removed { v.new.items ≡ take start v.old.items ++ drop end v.old.items }
{
    let mut range = v.drain(start..end);
    range.next()
}

/// Replaces a range by the items of `with`.
pub fn replace<A: Allocator + Clone>(
    v: &mut Vec<u32, A>,
    start: usize,
    end: usize,
    with: Vec<u32, A>,
) -> Result<(), TryReserveError>
    requires { (start ≤ end) × (end ≤ length v.old.items) }
    ensures { OnOk result
        (v.new.items ≡ take start v.old.items ++ (with.items ++ drop end v.old.items)) }
{
    v.splice(start..end, with.into_iter()).finish()?;
    Ok(())
}

/// Replaces a range by a copy of the numbers of a slice.
pub fn replace_with_copy<A: Allocator + Clone>(
    v: &mut Vec<u32, A>,
    start: usize,
    end: usize,
    with: &[u32],
) -> Result<(), TryReserveError>
    requires { (start ≤ end) × (end ≤ length v.old.items) }
    ensures { OnOk result (v.new.items ≡ take start v.old.items ++
        (with.now ++ drop end v.old.items)) }
{
    let copy = Vec::from_slice_copied_in(with, v.allocator().clone()?)?;
    v.splice(start..end, copy.into_iter()).finish()
}

/// Appends half of each of these numbers.
pub fn add_halves<A: Allocator>(v: &mut Vec<u32, A>, numbers: &[u32]) -> Result<(), TryReserveError>
    ensures { OnOk result (v.new.items ≡ v.old.items ++ map (λ x. x / 2) numbers.now) }
{
    v.extend(numbers.iter().map(|x| *x / 2))
}

/// Rotates the numbers to the left by `count`: the first `count` become the last.
///
/// Allocates a temporary vector for them.
///
/// # Errors
/// If an allocation fails, the vector is unchanged.
pub fn rotate_left<A: Allocator + Clone>(
    v: &mut Vec<u32, A>,
    count: usize,
) -> Result<(), TryReserveError>
    requires { count ≤ length v.old.items }
    ensures turned { OnOk result (v.new.items ≡ drop count v.old.items ++ take count v.old.items) }
    ensures unchanged { OnErr result (v.new ≡ v.old) }
{
    v.prove_capacity_bounds();
    let mut first = Vec::with_capacity_in(count, v.allocator().clone()?)?;
    take_first(v, count, &mut first);
    v.append(&mut first)
}

// Moves the first `count` numbers to the end of `to`, in which they must fit. The range is in a
// variable, so that the contract says what remains.
fn take_first<A: Allocator>(v: &mut Vec<u32, A>, count: usize, to: &mut Vec<u32, A>)
    requires within { count ≤ length v.old.items }
    requires room { HasRoom to.old count }
    ensures moved { to.new.items ≡ to.old.items ++ take count v.old.items }
    ensures remaining { Holds v.old (drop count v.old.items) v.new }
{
    let mut range = v.drain(0..count);
    while let Some(x) = range.next() {
        match to.push_within_capacity(x) {
            Ok(()) => {}
            Err(_) => unreachable!(),
        }
    }
}
