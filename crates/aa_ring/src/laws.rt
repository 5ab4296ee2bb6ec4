//! What is proved about sequences of calls.
ghost use Rattle.std.specs.Prelude.{length, OnOk};
ghost use Rattle.aa_ring.specs.Paid.{IsPaid};

use crate::ring::Ring;
use allocator_api2::collections::TryReserveError;
use std::alloc::Allocator;

/// Pushes each item at the end that its flag names: at the front if it is `true`.
///
/// The ring must be empty, must double, and must not have grown before. Growth then moves at most
/// two items for each item that is pushed.
///
/// # Errors
/// Returns the first error of a push. The items before it are pushed.
#[tactic(auto, using(crate::proofs::Paid::paid))]
pub fn push_all<T: Copy + Drop, A: Allocator>(
    ring: &mut Ring<T, A>,
    items: &[(bool, T)],
) -> Result<(), TryReserveError>
    requires { IsPaid 0 ring.old }
    ensures { OnOk result (IsPaid (length items.now) ring.new) }
{
    'each: for i in 0..items.len() {
        let (at_front, item) = items[i];
        if at_front {
            ring.push_front(item)?;
        } else {
            ring.push_back(item)?;
        }
    }
    Ok(())
}
