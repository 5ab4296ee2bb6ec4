//! How a call ended, and whether all memory was freed.
ghost use Rattle.std.specs.Prelude.{◌≡◌};
ghost use Rattle.test_allocators.specs.Ends.{end_of_kind, end_of_result};

use aa_raw::collections::{TryReserveError, TryReserveErrorKind};
use aa_watched::faulty::Faulty;
use std::alloc::Global;

/// How a call ended: done, or failed since the allocation of so many elements failed, or since a
/// length or a size is past the limits.
#[derive(Clone, Copy, PartialEq, Debug, Drop)]
pub enum End {
    Done,
    NoMemory(usize),
    TooLong,
}

/// Returns how a call that failed with this error ended.
pub fn end_by(error: TryReserveError) -> End
    ensures { result ≡ end_of_kind error.kind }
{
    match error.kind() {
        TryReserveErrorKind::AllocError { capacity } => End::NoMemory(capacity),
        TryReserveErrorKind::CapacityOverflow => End::TooLong,
    }
}

/// How a call ended that returns something, which is dropped.
pub fn end_of<T: Drop>(ended: Result<T, TryReserveError>) -> End
    ensures { result ≡ end_of_result ended }
{
    match ended {
        Ok(_) => End::Done,
        Err(error) => end_by(error),
    }
}

/// Returns whether each allocated block was freed once.
pub fn is_all_freed(heap: &Faulty<Global>) -> bool {
    let granted = heap.requests().saturating_sub(heap.failures());
    heap.outstanding() == 0 && heap.frees() == granted
}
