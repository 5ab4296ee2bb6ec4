//! The calls that clone elements, each in one place, for all types that are cloned in the tests.
use aa_raw::collections::TryReserveError;
use aa_vec::vec::Vec;
use std::alloc::{Allocator, Global};
use std::clone::Clone;

/// `Vec::extend_from_slice`.
pub(crate) fn append_slice<T: Clone + Drop, A: Allocator>(
    v: &mut Vec<T, A>,
    others: &[T],
) -> Result<(), TryReserveError> {
    v.extend_from_slice(others)
}

/// `Vec::extend_from_within`, as far as there are these places.
pub(crate) fn within<T: Clone + Drop, A: Allocator>(
    v: &mut Vec<T, A>,
    from: usize,
    to: usize,
) -> Result<(), TryReserveError> {
    let to = to.min(v.len());
    v.extend_from_within(from.min(to)..to)
}

/// `Vec::resize`.
pub(crate) fn filled<T: Clone + Drop, A: Allocator>(
    v: &mut Vec<T, A>,
    len: usize,
    x: T,
) -> Result<(), TryReserveError> {
    v.resize(len, x)
}

/// `Vec::assign_from`.
pub(crate) fn assigned<T: Clone + Drop, A: Allocator>(
    v: &mut Vec<T, A>,
    source: &Vec<T, A>,
) -> Result<(), TryReserveError> {
    v.assign_from(source)
}

/// `Vec::clone`.
pub(crate) fn twin<T: Clone + Drop>(v: &Vec<T>) -> Result<Vec<T>, TryReserveError> {
    v.clone()
}

/// `Vec::from_elem`.
pub(crate) fn repeated<T: Clone + Drop>(
    alloc: Global,
    x: T,
    count: usize,
) -> Result<Vec<T>, TryReserveError> {
    Vec::from_elem(alloc, x, count)
}
