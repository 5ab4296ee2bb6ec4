//! Tests of the small vector; no part of the library.
#![tactic(auto)]

#[cfg(test)]
mod inline;
#[cfg(test)]
mod removed;
