//! Tests of the ordered set. Not part of it.
#![tactic(auto)]

#[cfg(test)]
mod algebra;
#[cfg(test)]
mod calls;
#[cfg(test)]
mod drops;
#[cfg(test)]
mod failures;
#[cfg(test)]
mod lookup;
#[cfg(test)]
mod traits;
