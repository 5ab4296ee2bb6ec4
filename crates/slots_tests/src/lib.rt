//! Tests of the slot map; no part of the library.
#![tactic(auto)]

#[cfg(test)]
mod calls;
#[cfg(test)]
mod kinds;
#[cfg(test)]
mod memory;
#[cfg(test)]
mod slots;
