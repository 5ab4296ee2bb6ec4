//! Tests of the ordered map. Not part of it.
#![tactic(auto)]

#[cfg(test)]
mod drops;
#[cfg(test)]
mod iterators;
#[cfg(test)]
mod lookup;
#[cfg(test)]
mod map;
