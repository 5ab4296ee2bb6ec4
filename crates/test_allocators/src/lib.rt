//! Allocators and elements for tests. Not part of the library.
//!
//! `Faulty` fails the requests of a chosen range, passes the others on to an inner allocator, and
//! counts. `Failing` fails every request. `Counted` is an element that counts its drops. `End` says
//! how a call ended.
#![tactic(auto)]

/// An element for tests that counts its drops.
pub mod counted;
/// How a call ended, and whether all memory was freed.
pub mod ends;
/// An allocator for tests that fails every request.
pub mod failing;

pub use aa_watched::faulty::Faulty;
