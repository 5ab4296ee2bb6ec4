//! Allocators that call a watch before each allocation: one with a budget, one that counts, and one
//! for tests that fails chosen requests.
#![tactic(auto)]

/// An allocator with a limit on the bytes in use.
pub mod budget;
/// An allocator that counts its requests.
pub mod counting;
/// An allocator for tests that fails the requests of a chosen range.
pub mod faulty;
/// A limit on the bytes in use, as a plain value.
pub mod ledger;
// A cell that notes how many bytes are allocated under a limit.
mod noted;
/// An allocator that calls a watch before each allocation.
pub mod watched;
