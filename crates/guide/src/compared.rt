//! Slices: copied into vectors, repeated, and compared with vectors.
ghost use Rattle.std.specs.Prelude.{◌≡◌, ◌↔◌, IfOk, IsTrue};
ghost use Rattle.std.specs.List.{repeat};

use allocator_api2::collections::TryReserveError;
use allocator_api2::slice::SliceExt;
use allocator_api2::vec::{Vec, same};
use std::alloc::{Allocator, Global};

/// Returns a vector of the numbers.
pub fn collected<A: Allocator>(xs: &[u32], alloc: A) -> Result<Vec<u32, A>, TryReserveError>
    ensures { IfOk result (λ v. v.items ≡ xs.now) }
{
    xs.to_vec_in2(alloc)
}

/// Returns a vector of the numbers, allocated with the global allocator.
pub fn collected_globally(xs: &[u32], alloc: Global) -> Result<Vec<u32>, TryReserveError>
    ensures { IfOk result (λ v. v.items ≡ xs.now) }
{
    xs.to_vec2(alloc)
}

/// Returns a vector of the numbers, `n` times.
pub fn repeated(xs: &[u32], alloc: Global, n: usize) -> Result<Vec<u32>, TryReserveError>
    ensures { IfOk result (λ v. v.items ≡ repeat n xs.now) }
{
    xs.repeat2(alloc, n)
}

/// Returns `true` if the vector has these numbers.
pub fn is_made_of<A: Allocator>(v: &Vec<u32, A>, xs: &[u32]) -> bool
    ensures { IsTrue result ↔ (v.now.items ≡ xs.now) }
{
    same(v, xs)
}
