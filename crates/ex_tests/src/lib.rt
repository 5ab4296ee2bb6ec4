//! Tests of the examples, of the guide's callers and of the benchmark's cases, with a module for
//! each crate or part of it. Not part of these.
#![tactic(auto)]

#[cfg(test)]
mod allocators;
#[cfg(test)]
mod callers;
#[cfg(test)]
mod cases;
#[cfg(test)]
mod layers;
#[cfg(test)]
mod ledgers;
#[cfg(test)]
mod memory;
#[cfg(test)]
mod parts;
#[cfg(test)]
mod recycler;
#[cfg(test)]
mod small;
#[cfg(test)]
mod spaced;
#[cfg(test)]
mod stress;
#[cfg(test)]
mod trees;
