//! Elements moved from one vector to another, or to a vector of the standard library and back.
ghost use Rattle.std.specs.Prelude.{◌≡◌, ◌*◌, ◌++◌, filter, flat_map, map, nat_lt, not, IfOk, OnOk};

use allocator_api2::collections::TryReserveError;
use allocator_api2::vec::Vec;
use std::alloc::{AllocError, Allocator};
use std::vec::Vec as StdVec;

/// Moves the elements of one vector, each by a push, to the end of another.
#[tactic(auto, using(allocator_api2::proofs::Callers::callers))]
pub fn push_each<A: Allocator>(
    from: Vec<u64, A>,
    to: &mut Vec<u64, A>,
) -> Result<(), TryReserveError>
    ensures { OnOk result (to.new.items ≡ to.old.items ++ from.items) }
{
    for x in from {
        to.push(x)?;
    }
    Ok(())
}

/// Partitions a vector: moves the numbers below `pivot` to the end of `small`, and the others to
/// the end of `big`.
pub fn part_at<A: Allocator>(
    from: Vec<u64, A>,
    pivot: u64,
    small: &mut Vec<u64, A>,
    big: &mut Vec<u64, A>,
) -> Result<(), TryReserveError>
    ensures below { OnOk result
        (small.new.items ≡ small.old.items ++ filter (λ x. nat_lt x pivot) from.items) }
    ensures others { OnOk result
        (big.new.items ≡ big.old.items ++ filter (λ x. not (nat_lt x pivot)) from.items) }
{
    for x in from {
        if x < pivot {
            small.push(x)?;
        } else {
            big.push(x)?;
        }
    }
    Ok(())
}

/// Moves the elements of all rows, in order, to the end of another vector.
pub fn join_rows<A: Allocator>(
    rows: Vec<Vec<u32, A>, A>,
    to: &mut Vec<u32, A>,
) -> Result<(), TryReserveError>
    ensures { OnOk result (to.new.items ≡ to.old.items ++ flat_map (λ r. r.items) rows.items) }
{
    for mut row in rows {
        to.append(&mut row)?;
    }
    Ok(())
}

/// Returns a vector of the doubles of the numbers below 100.
pub fn doubled_small<A: Allocator>(
    numbers: &[u32],
    alloc: A,
) -> Result<Vec<u32, A>, TryReserveError>
    ensures { IfOk result (λ v. v.items ≡ map (λ x. x * 2)
        (filter (λ x. nat_lt x 100) numbers.now)) }
{
    Vec::from_iter_in(
        numbers.iter().copied().filter(|x| *x < 100).map(|x| x * 2),
        alloc,
    )
}

/// Returns a vector of the elements of a vector of the standard library.
pub fn from_std_vec<A: Allocator, B: Allocator>(
    from: StdVec<u64, B>,
    alloc: A,
) -> Result<Vec<u64, A>, TryReserveError>
    ensures { IfOk result (λ v. v.items ≡ from.items) }
{
    Vec::from_iter_in(from.into_iter(), alloc)
}

/// Returns a vector of the standard library with the elements of one of this library.
pub fn to_std_vec<A: Allocator, B: Allocator>(
    from: Vec<u64, A>,
    alloc: B,
) -> Result<StdVec<u64, B>, AllocError>
    ensures { IfOk result (λ v. v.items ≡ from.items) }
{
    let mut to = StdVec::new(alloc);
    for x in from {
        if to.push(x).is_err() {
            return Err(AllocError);
        }
    }
    Ok(to)
}
