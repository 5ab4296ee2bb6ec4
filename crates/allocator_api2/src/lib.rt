//! allocator-api2 in Rattle: a vector and a box that allocate with any allocator, proved.
//!
//! The modules have the paths of the original. `gap_buffer` is not in allocator-api2. `runner` runs
//! lists of commands on two vectors, and its contract is the library's main theorem.
#![tactic(auto)]

pub use aa_boxed::boxed;
pub use aa_gap::gap_buffer;
pub use aa_raw::{alloc, collections, counter, raw_box, raw_vec, size};
pub use aa_vec::vec;
pub use slice::SliceExt;

pub mod laws;
mod macros;
pub mod runner;
pub mod slice;
