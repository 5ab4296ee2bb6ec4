//! Vectors and boxes in a vector.
ghost use Rattle.std.specs.Prelude.{◌≡◌, ◌<◌, ◌^◌, [], ◌∷◌, ◌++◌, length, map, sum, OnOk, OnErr};
ghost use Rattle.std.specs.Prelude.{slice_get, Some, IfSome};

use allocator_api2::boxed::Box;
use allocator_api2::collections::{Refused, TryReserveError};
use allocator_api2::vec::Vec;
use std::alloc::Allocator;

/// Appends a number to a row.
pub fn push_to_row<A: Allocator>(
    rows: &mut Vec<Vec<u32, A>, A>,
    row: usize,
    x: u32,
) -> Result<(), Refused<u32>>
    requires { row < length rows.old.items }
    ensures { OnOk result (length rows.new.items ≡ length rows.old.items) }
{
    rows[row].push(x)
}

/// Returns how many numbers the rows have.
pub fn count_all<A: Allocator>(rows: &Vec<Vec<u32, A>, A>) -> usize
    requires { sum (map (λ r. length r.items) rows.now.items) < 2 ^ 64 }
    ensures { result ≡ sum (map (λ r. length r.items) rows.now.items) }
{
    rows.iter().map(|row| row.len()).sum()
}

/// Appends a number in a box.
///
/// # Errors
/// If the allocation of the box or of the vector fails, the vector is unchanged.
pub fn push_boxed<A: Allocator + Copy>(
    v: &mut Vec<Box<u64, A>, A>,
    x: u64,
) -> Result<(), TryReserveError>
    ensures pushed { OnOk result (map (λ b. b.value) v.new.items ≡ map
        (λ b. b.value) v.old.items ++ x ∷ []) }
    ensures unchanged { OnErr result (v.new ≡ v.old) }
{
    let b = Box::new_in(x, *v.allocator())?;
    v.push(b)?;
    Ok(())
}
