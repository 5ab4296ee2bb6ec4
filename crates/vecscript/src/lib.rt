//! Scripts of commands on two lists of numbers: parsing the lines, running the commands, and
//! printing the replies and the lists.
#![tactic(auto)]

mod lines;
mod print;
mod reading;
pub mod script;
mod writing;
