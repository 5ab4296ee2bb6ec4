//! Tests of the table and the set; no part of the library.
#![tactic(auto)]

#[cfg(test)]
mod lookup;
#[cfg(test)]
mod memory;
#[cfg(test)]
mod set;
#[cfg(test)]
mod table;
