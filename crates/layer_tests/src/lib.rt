//! Tests of the library's layers up to the vector, of the block, the boxes, the gap buffer and the
//! vector, of the allocators that tests take, and callers of them with contracts of their own; no
//! part of the library.
#![tactic(auto)]

#[cfg(test)]
mod allocators;
#[cfg(test)]
mod boxed;
#[cfg(test)]
mod calls;
#[cfg(test)]
mod choosing;
#[cfg(test)]
mod claims;
#[cfg(test)]
mod clones;
#[cfg(test)]
mod compared;
#[cfg(test)]
mod gap;
#[cfg(test)]
mod growing;
#[cfg(test)]
mod left_early;
#[cfg(test)]
mod liars;
#[cfg(test)]
mod lists;
#[cfg(test)]
mod makes;
#[cfg(test)]
mod memory;
#[cfg(test)]
mod printed;
#[cfg(test)]
mod ranges;
#[cfg(test)]
mod raw;
#[cfg(test)]
mod recorded;
#[cfg(test)]
mod sizes;
#[cfg(test)]
mod slices;
