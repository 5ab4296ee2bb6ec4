//! Tests of the ring; no part of the library.
#![tactic(auto)]

#[cfg(test)]
mod memory;
#[cfg(test)]
mod ring;
