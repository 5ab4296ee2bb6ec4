//! A test suite for authors of allocators.
//!
//! It makes random calls over an allocator and returns a report, or the first fault that it finds.
#![tactic(auto)]

/// A watch over the inner allocator of an allocator under test.
pub mod below;
/// The configuration of a test run, with what the author claims of the allocator.
pub mod config;
mod edge;
/// Random calls over an allocator, with a mark in each place.
pub mod stress;
/// The faults of an allocator.
pub mod fault;
mod grown;
mod pattern;
/// Pseudorandom numbers.
pub mod random;
/// The report of a test run.
pub mod reach;
mod referee;
/// The steps of a test run, which can be made again with fewer.
pub mod script;
mod sets;
mod zoo;
