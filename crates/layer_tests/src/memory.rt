//! That memory is freed, that each element is dropped once, and how many requests a call makes: no
//! contract says these.
mod blocks;
mod boxes;
mod texts;
mod vectors;

use std::alloc::Global;
use test_allocators::Faulty;

/// Whether a call made one request if it changed the capacity to one of a new block, and else none.
pub(crate) fn has_due_requests(heap: &Faulty<Global>, before: u64, from: usize, to: usize) -> bool {
    let due = if from == to || to == 0 { 0 } else { 1u64 };
    heap.requests().saturating_sub(before) == due
}

/// Returns whether each allocated block was freed once.
pub(crate) fn is_all_freed(heap: &Faulty<Global>) -> bool {
    let granted = heap.requests().saturating_sub(heap.failures());
    heap.outstanding() == 0 && heap.frees() == granted
}
