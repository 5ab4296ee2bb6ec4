//! Texts that the tests start from, and what they do to them and compare.
use aa_gap::gap_buffer::{Edit, GapBuffer};
use std::alloc::Allocator;

/// Inserts an element before the cursor, and returns whether this succeeded. If it fails, the
/// element is dropped.
pub(crate) fn put<T: Drop, A: Allocator>(text: &mut GapBuffer<T, A>, x: T) -> bool {
    text.insert(x).is_ok()
}

/// Appends an edit.
pub(crate) fn add<T: Drop>(edits: &mut Vec<Edit<T>>, edit: Edit<T>) {
    let _added = edits.push(edit);
}

/// Returns `[1,9|2,3]`, with the cursor after the 9, in 4 places.
pub(crate) fn nine_put<A: Allocator>(alloc: A) -> GapBuffer<u32, A> {
    let mut text = GapBuffer::new_in(alloc);
    for x in 1..4u32 {
        let _put = put(&mut text, x);
    }
    text.move_to(text.len().min(1));
    let _put = put(&mut text, 9);
    text
}

/// Whether a text has elements with these digits on either side of its cursor, in these many
/// places.
pub(crate) fn reads<A: Allocator>(
    text: &GapBuffer<u32, A>,
    before: u32,
    after: u32,
    capacity: usize,
) -> bool {
    digits(text.before()) == before
        && digits(text.after()) == after
        && text.cursor() == text.before().len()
        && text.capacity() == capacity
}

// The number with these digits: 19 of 1 and 9, 0 of none.
fn digits(items: &[u32]) -> u32 {
    let mut number = 0u32;
    for x in items {
        number = number.wrapping_mul(10).wrapping_add(*x);
    }
    number
}

/// Applies edits, and then those after a failed one. Returns the number of these, and whether they
/// succeeded.
pub(crate) fn edited_twice<T: Drop, A: Allocator>(
    text: &mut GapBuffer<T, A>,
    edits: Vec<Edit<T>>,
) -> (Option<usize>, bool) {
    let mut rest = edits.into_iter();
    let stopped = if text.edit_all(&mut rest).is_err() {
        Some(rest.len())
    } else {
        None
    };
    (stopped, text.edit_all(&mut rest).is_ok())
}
