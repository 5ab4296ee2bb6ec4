//! The gap buffer.
mod claims;
mod counted;
mod failures;
mod rows;
pub(crate) mod texts;
mod traits;
