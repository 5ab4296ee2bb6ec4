//! That memory is freed, that each element is dropped once, how many requests a call makes, and
//! which error it returns: no contract says all of these.
mod allocators;
mod small;
mod trees;
