//! Elements that count how often such an element is dropped.
use crate::gap::texts::{add, edited_twice};
use aa_gap::gap_buffer::{Edit, GapBuffer};
use std::alloc::Global;
use std::cell::Cell;
use test_allocators::Faulty;
use test_allocators::counted::Counted;

// So many edits that put such an element, and one that deletes the last.
fn inserts(alloc: Global, drops: &Cell<u32>, count: u32) -> Vec<Edit<Counted<'_>>> {
    let mut edits = Vec::new(alloc);
    for value in 0..count {
        add(&mut edits, Edit::Insert(Counted { value, drops }));
    }
    add(&mut edits, Edit::DeleteBack);
    edits
}

// Returns the number of edits after a failed one, whether they succeed, and how many elements are
// dropped by then.
fn edited(
    heap: &Faulty<Global>,
    edits: Vec<Edit<Counted<'_>>>,
    drops: &Cell<u32>,
) -> (Option<usize>, bool, u32) {
    let mut text = GapBuffer::new_in(heap);
    heap.fail_requests(0, 1);
    let (left, well) = edited_twice(&mut text, edits);
    (left, well, drops.get())
}

#[test]
fn edits_drop_what_fails_and_what_is_deleted(rt: HostRuntime) {
    let heap = Faulty::new(rt.alloc());
    let drops = Cell::new(0);
    let edits = inserts(rt.alloc(), &drops, 3);
    assert!(rt; edited(&heap, edits, &drops) == (Some(3), true, 2) && drops.get() == 3);
}
