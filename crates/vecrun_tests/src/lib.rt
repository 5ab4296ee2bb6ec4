//! Tests of whole scripts: what is printed, which line is bad, and which fault is reported if an
//! allocation, a read or a write fails.
#![tactic(auto)]

#[cfg(test)]
mod scripts;
