//! The ring.
use aa_ring::ring::Ring;
use allocator_api2::raw_vec::Growth;
use std::alloc::Global;
use std::cell::Cell;
use test_allocators::Faulty;
use test_allocators::counted::Counted;
use test_allocators::ends::is_all_freed;

type Small<'a> = Ring<Counted<'a>, &'a Faulty<Global>>;

// A call on a ring, or what becomes of it.
#[derive(Clone, Copy)]
enum Call {
    PopFront,
    PopBack,
    Clear,
    Truncate(usize),
    MakeContiguous,
    RotateLeft,
    Reserve(usize),
    Remove(usize),
    SwapRemoveBack(usize),
    TruncateFront(usize),
    // What is split off is dropped.
    SplitOff(usize),
    // With one item taken.
    Drain,
    // Of the items from this index on, without the last, with one item taken.
    DrainFrom(usize),
    // Of none.
    Retain,
    ShrinkToFit,
    Drop,
    // With an item taken from each end.
    IntoIter,
}

// Six items in eight places, of which the first three are at the end of the block.
fn six<'a>(heap: &'a Faulty<Global>, drops: &'a Cell<u32>) -> Small<'a> {
    let mut ring: Small<'a> = match Ring::with_capacity_in(8, heap) {
        Ok(ring) => ring,
        Err(_) => Ring::new_in(heap),
    };
    for value in 0..3 {
        let _back = ring.push_back(Counted { value, drops });
        let _front = ring.push_front(Counted { value, drops });
    }
    ring
}

#[tactic(auto, using(allocator_api2::proofs::Callers::callers))]
fn keep_none(ring: &mut Small<'_>) {
    ring.retain(|_| false);
}

fn called(call: Call, ring: &mut Small<'_>) {
    match call {
        Call::PopFront => drop(ring.pop_front()),
        Call::PopBack => drop(ring.pop_back()),
        Call::Clear => ring.clear(),
        Call::Truncate(len) => ring.truncate(len),
        Call::MakeContiguous => {
            let _items = ring.make_contiguous();
        }
        Call::RotateLeft => ring.rotate_left(ring.len().min(1)),
        Call::Reserve(count) => {
            let _made = ring.reserve(count);
        }
        Call::Remove(index) => drop(ring.remove(index)),
        Call::SwapRemoveBack(index) => drop(ring.swap_remove_back(index)),
        Call::TruncateFront(len) => ring.truncate_front(len),
        Call::SplitOff(at) if at <= ring.len() => drop(ring.split_off(at)),
        Call::SplitOff(_) => {}
        Call::Drain => {
            let mut items = ring.drain(..);
            drop(items.next());
        }
        Call::DrainFrom(start) => {
            if start < ring.len() {
                let end = ring.len() - 1;
                let mut items = ring.drain(start..end);
                drop(items.next_back());
            }
        }
        Call::Retain => keep_none(ring),
        Call::ShrinkToFit => {
            let _shrunk = ring.shrink_to_fit();
        }
        Call::Drop | Call::IntoIter => {}
    }
}

// How many items are dropped once one was taken from each end, before the others are.
fn taken_from_ends(ring: Small<'_>, drops: &Cell<u32>) -> u32 {
    let mut items = ring.into_iter();
    drop(items.next());
    drop(items.next_back());
    drops.get()
}

// How many requests a call makes, and how many items it drops.
fn seen(call: Call, ring: Small<'_>, heap: &Faulty<Global>, drops: &Cell<u32>) -> (u64, u32) {
    let mut ring = ring;
    let before = heap.requests();
    let dropped = match call {
        Call::Drop => {
            drop(ring);
            drops.get()
        }
        Call::IntoIter => taken_from_ends(ring, drops),
        _ => {
            called(call, &mut ring);
            drops.get()
        }
    };
    (heap.requests().saturating_sub(before), dropped)
}

// Returns whether a call makes so many requests and drops so many items, each is dropped once then,
// and all memory is freed.
fn is_so(alloc: Global, (call, requests, dropped): (Call, u64, u32)) -> bool {
    let heap = Faulty::new(alloc);
    let drops = Cell::new(0);
    let came = seen(call, six(&heap, &drops), &heap, &drops);
    came == (requests, dropped) && drops.get() == 6 && is_all_freed(&heap)
}

#[test]
fn items_of_a_ring_are_dropped_once(rt: HostRuntime) {
    for row in [
        (Call::PopFront, 0, 1),
        (Call::PopBack, 0, 1),
        (Call::Clear, 0, 6),
        (Call::Truncate(2), 0, 4),
        (Call::Truncate(4), 0, 2),
        (Call::MakeContiguous, 0, 0),
        (Call::RotateLeft, 0, 0),
        (Call::Reserve(2), 0, 0),
        (Call::Reserve(3), 1, 0),
        (Call::Remove(2), 0, 1),
        (Call::Remove(6), 0, 0),
        (Call::SwapRemoveBack(1), 0, 1),
        (Call::TruncateFront(2), 0, 4),
        (Call::TruncateFront(4), 0, 2),
        (Call::SplitOff(2), 1, 4),
        (Call::SplitOff(6), 0, 0),
        (Call::Drain, 0, 6),
        (Call::DrainFrom(2), 0, 3),
        (Call::Retain, 0, 6),
        (Call::ShrinkToFit, 1, 0),
        (Call::Drop, 0, 6),
        (Call::IntoIter, 0, 2),
    ] {
        assert!(rt; is_so(rt.alloc(), row), "{} of {}", row.2, row.1);
    }
}

// A ring's length, capacity and last item.
type Seen = (usize, usize, Option<u32>);

fn seen_at_end(ring: &Ring<u32, &Faulty<Global>>) -> Seen {
    (ring.len(), ring.capacity(), ring.back().copied())
}

// A full ring that grows in place: a push onto it fails, and then succeeds. What it is after each.
fn grown_in_place(heap: &Faulty<Global>) -> Option<(Seen, Seen)> {
    let mut ring = Ring::with_growth_in(Growth::InPlace, heap);
    for item in 1..5u32 {
        ring.push_back(item).ok()?;
    }
    heap.fail_requests(0, 1);
    let failed = ring.push_back(5).is_err() && ring.growth() == Growth::InPlace;
    let kept = seen_at_end(&ring);
    ring.push_back(5).ok()?;
    if failed {
        Some((kept, seen_at_end(&ring)))
    } else {
        None
    }
}

#[test]
fn a_failed_growth_in_place_keeps_the_ring(rt: HostRuntime) {
    let heap = Faulty::new(rt.alloc());
    let wanted = ((4, 4, Some(4)), (5, 8, Some(5)));
    assert!(rt; grown_in_place(&heap) == Some(wanted));
    assert!(rt; heap.failures() == 1 && is_all_freed(&heap));
}
