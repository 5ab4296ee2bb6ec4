//! Elements at positions, and loops over them.
ghost use Rattle.std.specs.Prelude.{◌≡◌, ◌+◌, ◌<◌, ◌≤◌, ◌^◌, [], ◌∷◌, ◌++◌, drop, length, replicate, slice_index, slice_set, sum, take, EachIndex, IfOk, OnErr, OnOk};

use allocator_api2::collections::{Refused, TryReserveError};
use allocator_api2::vec::Vec;
use std::alloc::Allocator;

/// Inserts a number before the one at `index`.
pub fn insert_before<A: Allocator>(
    v: &mut Vec<u32, A>,
    index: usize,
    x: u32,
) -> Result<(), Refused<u32>>
    requires { index ≤ length v.old.items }
    ensures { OnOk result (v.new.items ≡ take index v.old.items ++ x ∷ drop index v.old.items) }
{
    v.insert(index, x)
}

/// Removes the first number and returns it.
pub fn remove_first<A: Allocator>(v: &mut Vec<u32, A>) -> u32
    requires { 0 < length v.old.items }
    ensures { v.old.items ≡ result ∷ v.new.items }
{
    v.remove(0)
}

/// Adds one to the number at `index`.
pub fn add_one_at<A: Allocator>(v: &mut Vec<u32, A>, index: usize)
    requires within { index < length v.old.items }
    requires fits { slice_index v.old.items index + 1 < 2 ^ 32 }
    ensures { v.new.items ≡ slice_set v.old.items index (slice_index v.old.items index + 1) }
{
    v[index] += 1;
}

/// Splits a vector in two: keeps the first `at` numbers, and returns a vector of the others.
///
/// # Errors
/// If the allocation fails, the vector is unchanged.
pub fn cut<A: Allocator + Clone>(
    v: &mut Vec<u32, A>,
    at: usize,
) -> Result<Vec<u32, A>, TryReserveError>
    requires { at ≤ length v.old.items }
    ensures head { OnOk result (v.new.items ≡ take at v.old.items) }
    ensures tail { IfOk result (λ rest. rest.items ≡ drop at v.old.items) }
    ensures unchanged { OnErr result (v.new ≡ v.old) }
{
    v.split_off(at)
}

/// Returns the sum of the numbers. A method of the iterator needs no loop invariant.
pub fn total<A: Allocator>(v: &Vec<u32, A>) -> u32
    requires { sum v.now.items < 2 ^ 32 }
    ensures { result ≡ sum v.now.items }
{
    v.iter().sum()
}

/// Sets each number to zero, by a loop over the mutable slice.
pub fn clear_each<A: Allocator>(v: &mut Vec<u32, A>)
    ensures len { length v.new.items ≡ length v.old.items }
    ensures all { EachIndex v.new.items (λ k. slice_index v.new.items k ≡ 0) }
{
    let slice = v.as_mut_slice();
    for x in slice.iter_mut() {
        *x = 0;
    }
}

/// Sets each number to zero, by a loop over the positions.
pub fn clear_by_index<A: Allocator>(v: &mut Vec<u32, A>)
    ensures { v.new.items ≡ replicate (length v.old.items) 0 }
{
    for i in 0..v.len() {
        v[i] = 0;
    }
}
