//! A place for one value: each public call once, and the memory that it requests.
use crate::memory::is_all_freed;
use aa_raw::raw_box::RawBox;
use std::alloc::Global;
use test_allocators::Faulty;

// Puts one value into a new place, and another over it. Returns what was there each time.
fn held_in_turn<T: Copy>(heap: &Faulty<Global>, x: T, y: T) -> Option<(T, T)> {
    let Ok(mut place) = RawBox::allocate_in(heap) else {
        return None;
    };
    let _heap: &&Faulty<Global> = place.allocator();
    place.put(x);
    let first = *place.get();
    *place.get_mut() = y;
    Some((first, place.take()))
}

#[test]
fn a_place_holds_one_value(rt: HostRuntime) {
    let heap = Faulty::new(rt.alloc());
    assert!(rt; held_in_turn(&heap, 7u64, 8) == Some((7, 8)) && heap.requests() == 1);
    assert!(rt; held_in_turn(&heap, (), ()) == Some(((), ())) && heap.requests() == 1);
    assert!(rt; is_all_freed(&heap));
}

// Puts a value into a new place, and takes it from the block that the place becomes. Returns it
// beside the capacity of the block.
#[tactic(auto, using(aa_raw::proofs::Beyond::emptied))]
fn taken_as_block<T: Copy>(heap: &Faulty<Global>, x: T) -> Option<(T, usize)> {
    let Ok(mut place) = RawBox::allocate_in(heap) else {
        return None;
    };
    place.put(x);
    let mut block = place.into_raw_vec();
    let value = block.take(0);
    let capacity = block.capacity();
    block.forget_from(0);
    Some((value, capacity))
}

#[test]
fn a_place_becomes_a_block(rt: HostRuntime) {
    let heap = Faulty::new(rt.alloc());
    assert!(rt; taken_as_block(&heap, 7u64) == Some((7, 1)) && heap.requests() == 1);
    assert!(rt; taken_as_block(&heap, ()) == Some(((), usize::MAX)) && heap.requests() == 1);
    assert!(rt; is_all_freed(&heap));
}
