//! What is printed of values.
use std::alloc::{AllocError, Global};
use std::fmt::{Debug, Display};

/// Whether the first is printed for users, and the second for programmers, so.
pub(crate) fn are_printed<T: Display, U: Debug>(
    alloc: Global,
    x: &T,
    y: &U,
    text: &str,
) -> Result<bool, AllocError> {
    Ok(format!(in alloc; "{x} {y:?}")?.as_str() == text)
}
