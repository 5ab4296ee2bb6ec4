//! The block and its items.
mod blocks;
mod items;
mod moves;
mod places;
mod runs;

use aa_raw::collections::{TryReserveError, TryReserveErrorKind};

/// Returns whether capacity was reserved, and the capacity that there is or that was requested in
/// vain, or 0 past the limits.
pub(crate) fn outcome_of(room: Result<usize, TryReserveError>) -> (bool, usize) {
    match room {
        Ok(capacity) => (true, capacity),
        Err(error) => match error.kind() {
            TryReserveErrorKind::AllocError { capacity } => (false, capacity),
            TryReserveErrorKind::CapacityOverflow => (false, 0),
        },
    }
}
