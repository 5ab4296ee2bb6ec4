//! Closures that choose elements.
ghost use Rattle.std.specs.Prelude.{◌≡◌, ◌==◌, ◌+◌, ◌-◌, ◌%◌, ◌++◌, filter, length, nat_lt, not, replicate, take, OnOk};
ghost use Rattle.std.specs.List.{dedup};

use allocator_api2::collections::TryReserveError;
use allocator_api2::vec::Vec;
use std::alloc::Allocator;

/// Removes all elements that are equal to `key`.
#[tactic(auto, using(allocator_api2::proofs::Callers::callers))]
pub fn remove_all<A: Allocator>(v: &mut Vec<u64, A>, key: u64)
    ensures { v.new.items ≡ filter (λ x. not (x == key)) v.old.items }
{
    v.retain(|x| *x != key);
}

/// Keeps only the elements below `top`.
#[tactic(auto, using(allocator_api2::proofs::Callers::callers))]
pub fn keep_below<A: Allocator>(v: &mut Vec<u64, A>, top: u64)
    ensures { v.new.items ≡ filter (λ x. nat_lt x top) v.old.items }
{
    v.retain(|x| *x < top);
}

/// Removes all but the first of each run of equal elements.
pub fn distinct<A: Allocator>(v: &mut Vec<u64, A>)
    ensures { v.new.items ≡ dedup (λ x y. x == y) v.old.items }
{
    v.dedup();
}

/// Removes all but the first of each run of pairs with equal keys, and returns how many were
/// removed.
#[tactic(auto, using(allocator_api2::proofs::Callers::callers))]
pub fn distinct_keys<A: Allocator>(v: &mut Vec<(u32, u32), A>) -> usize
    ensures kept { v.new.items ≡ dedup (λ x y. x.0 == y.0) v.old.items }
    ensures count { result + length v.new.items ≡ length v.old.items }
{
    let before = v.len();
    v.dedup_by_key(|p| p.0);
    before - v.len()
}

/// Truncates to `count` elements, or appends sevens up to that length.
#[tactic(auto, using(allocator_api2::proofs::Callers::callers))]
pub fn sevens_up_to<A: Allocator>(v: &mut Vec<u64, A>, count: usize) -> Result<(), TryReserveError>
    ensures { OnOk result
        (v.new.items ≡ take count v.old.items ++ replicate (count - length v.old.items) 7) }
{
    v.resize_with(count, || 7)
}

/// Moves the even numbers of one vector to the end of another, and keeps the others.
#[tactic(auto, using(allocator_api2::proofs::Callers::sifts))]
pub fn move_even<A: Allocator>(
    from: &mut Vec<u64, A>,
    to: &mut Vec<u64, A>,
) -> Result<(), TryReserveError>
    ensures moved { OnOk result (to.new.items ≡ to.old.items ++ filter
        (λ x. x % 2 == 0) from.old.items) }
    ensures kept { OnOk result (from.new.items ≡ filter (λ x. not (x % 2 == 0)) from.old.items) }
{
    let mut is_even = |x: &mut u64| *x % 2 == 0;
    let mut range = from.extract_by(0..from.len());
    while let Some(x) = range.next_by(&mut is_even) {
        to.push(x)?;
    }
    Ok(())
}

/// Moves the even numbers of one vector to the end of another.
///
/// The contract does not say what remains in the first one, because the iterator is passed on by
/// value.
#[tactic(auto, using(allocator_api2::proofs::Callers::takes))]
pub fn take_even<A: Allocator>(
    from: &mut Vec<u64, A>,
    to: &mut Vec<u64, A>,
) -> Result<(), TryReserveError>
    ensures { OnOk result
        (to.new.items ≡ to.old.items ++ filter (λ x. x % 2 == 0) from.old.items) }
{
    to.extend(from.extract_if(0..from.len(), |x| *x % 2 == 0))
}
