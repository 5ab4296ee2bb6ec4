//! The cases of the benchmark: their names, and which lines of its script are tasks.
#![tactic(auto)]

pub mod case;
pub mod lines;
