//! Tests of the heap; no part of the library.
#![tactic(auto)]

#[cfg(test)]
mod calls;
#[cfg(test)]
mod claims;
#[cfg(test)]
mod failures;
#[cfg(test)]
mod rows;
