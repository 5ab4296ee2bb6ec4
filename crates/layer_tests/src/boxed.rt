//! The boxes. A call of the library that several of these tests make is here, in one place.
mod arrays;
mod boxes;
mod lists;
mod taken;
mod traits;

use aa_boxed::boxed::{Box, BoxedSlice, BoxedText};
use aa_raw::collections::TryReserveError;
use std::alloc::{AllocError, Global};

fn boxed<T: Drop>(alloc: Global, x: T) -> Result<Box<T>, AllocError> {
    Box::new(alloc, x)
}

fn slice_of(alloc: Global, items: &[u32]) -> Result<BoxedSlice<u32>, TryReserveError> {
    BoxedSlice::from_slice(alloc, items)
}

fn text_of(alloc: Global, text: &str) -> Result<BoxedText, TryReserveError> {
    BoxedText::from_text(alloc, text)
}

// Whether a boxed slice has these elements.
fn has<T: PartialEq>(list: &BoxedSlice<T>, items: &[T]) -> bool {
    list.as_slice() == items
}
