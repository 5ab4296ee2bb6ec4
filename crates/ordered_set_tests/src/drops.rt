//! Elements that own memory, which is freed once.
use aa_ordered_set::set::OrderedSet;
use allocator_api2::boxed::Box;
use std::alloc::Global;
use test_allocators::Faulty;

// A number in a block of its own.
type Boxed<'a> = Box<u32, &'a Faulty<Global>>;

// A set of boxes over their allocator.
type Boxes<'a> = OrderedSet<Boxed<'a>, &'a Faulty<Global>>;

// Inserts a number in a box. Returns whether it is new, or `None` if an allocation fails.
fn put<'a>(set: &mut Boxes<'a>, heap: &'a Faulty<Global>, number: u32) -> Option<bool> {
    set.insert(Box::new_in(number, heap).ok()?).ok()
}

// Fills a set with the numbers below 100, each of them twice, and removes the first half.
fn takes_half<'a>(heap: &'a Faulty<Global>) -> Option<bool> {
    let mut set: Boxes<'a> = OrderedSet::with_capacity_in(100, heap).ok()?;
    let mut same = true;
    for number in 0u32..100 {
        same = put(&mut set, heap, number)? && !put(&mut set, heap, number)? && same;
    }
    for number in 0u32..50 {
        same = *set.pop_first()? == number && same;
    }
    Some(same && set.len() == 50)
}

#[test]
fn elements_are_dropped_once(rt: HostRuntime) {
    let heap = Faulty::new(rt.alloc());
    assert!(rt; takes_half(&heap) == Some(true));
    // Two blocks of the set, and one of each box.
    assert!(rt; heap.requests() == 202 && heap.frees() == 202 && heap.outstanding() == 0);
}

// Replaces one element, clears the set, and leaves another for the drop.
fn replaces_one<'a>(heap: &'a Faulty<Global>) -> Option<bool> {
    let mut set: Boxes<'a> = OrderedSet::new_in(heap);
    let mut same = put(&mut set, heap, 1)?;
    let old = set.replace(Box::new_in(1u32, heap).ok()?).ok()??;
    same = *old == 1 && set.len() == 1 && heap.frees() == 0 && same;
    drop(old);
    same = heap.frees() == 1 && same;
    set.clear();
    Some(heap.frees() == 2 && put(&mut set, heap, 2)? && same)
}

#[test]
fn replaced_elements_are_dropped_once(rt: HostRuntime) {
    let heap = Faulty::new(rt.alloc());
    assert!(rt; replaces_one(&heap) == Some(true) && heap.outstanding() == 0);
}
