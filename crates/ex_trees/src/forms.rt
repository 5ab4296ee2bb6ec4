//! Other forms of recursive types.
use aa_boxed::boxed::{Box, BoxedSlice};
use aa_raw::vec::into_iter::IntoIter;
use aa_vec::vec::Vec;
use std::alloc::{Allocator, Global};

/// A type that is recursive through a box, over the global allocator.
#[derive(Drop)]
pub struct Plain {
    pub value: u32,
    pub next: Option<Box<Plain>>,
}

/// A type that is recursive through vectors, boxes and boxed slices.
#[derive(Drop)]
pub enum Json<A: Allocator> {
    Null,
    Number(u64),
    Text(Vec<u8, A>),
    Array(Vec<Json<A>, A>),
    Fields(Vec<(u64, Json<A>), A>),
    Boxed(Box<Json<A>, A>),
    Fixed(BoxedSlice<Json<A>, A>),
}

/// A type that is recursive through a vector of boxes.
#[derive(Drop)]
pub struct Boxes<A: Allocator> {
    pub below: Vec<Box<Boxes<A>, A>, A>,
}

/// A type that is recursive through a boxed vector.
#[derive(Drop)]
pub struct BoxedVec<A: Allocator> {
    pub below: Box<Vec<BoxedVec<A>, A>, A>,
}

/// A type that is recursive through the iterator over a vector's items.
#[derive(Drop)]
pub struct Rest<A: Allocator> {
    pub left: IntoIter<Rest<A>, A>,
}

/// Returns the first remaining item, or `None` if none remains.
pub fn first_left<A: Allocator>(rest: &mut Rest<A>) -> Option<Rest<A>> {
    rest.left.next()
}

/// Returns a value with no others below it.
///
/// Does not allocate.
pub fn none_below<A: Allocator>(alloc: A) -> Boxes<A> {
    Boxes {
        below: Vec::new_in(alloc),
    }
}

/// Returns `true` if the value contains a text at some depth, not counting `Fields`.
#[cycle(text)]
pub fn has_text<A: Allocator>(json: &Json<A>) -> bool {
    match json {
        Json::Null => false,
        Json::Number(_) => false,
        Json::Text(_) => true,
        Json::Array(items) => some_text(items.as_slice()),
        Json::Fields(_) => false,
        Json::Boxed(inner) => has_text(&**inner),
        Json::Fixed(items) => some_text(items.as_slice()),
    }
}

#[cycle(text)]
fn some_text<A: Allocator>(items: &[Json<A>]) -> bool {
    for item in items {
        if has_text(item) {
            return true;
        }
    }
    false
}
