//! Recursive types with derived traits.
use aa_boxed::boxed::{Box, BoxedSlice};
use aa_vec::vec::Vec;
use std::alloc::{Allocator, Global};

/// A type that is recursive through a box.
#[derive(PartialEq, Eq, PartialOrd, Ord, Hash, Debug, Clone, Drop)]
pub struct Link<A: Allocator> {
    pub value: u32,
    pub next: Option<Box<Link<A>, A>>,
}

/// A type that is recursive through a vector.
#[derive(PartialEq, Eq, PartialOrd, Ord, Hash, Debug, Clone, Drop)]
pub struct Wood<A: Allocator> {
    pub value: u32,
    pub below: Vec<Wood<A>, A>,
}

/// A type that is recursive through a boxed slice.
#[derive(PartialEq, Eq, PartialOrd, Ord, Hash, Debug, Clone, Drop)]
pub struct Sealed<A: Allocator> {
    pub value: u32,
    pub below: BoxedSlice<Sealed<A>, A>,
}
