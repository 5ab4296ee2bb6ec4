//! Allocators over one that counts: what they pass on, and that it is freed.
use crate::allocators::has_room;
use aa_allocators::fallback::Fallback;
use aa_allocators::guarded::Guarded;
use aa_allocators::pool::Pool;
use aa_allocators::rack::Rack;
use aa_allocators::recycler::Recycler;
use aa_allocators::rounded::Rounded;
use aa_allocators::segregated::Segregated;
use aa_allocators::spaced::Spaced;
use aa_allocators::zeroing::Zeroing;
use aa_watched::budget::Budget;
use aa_watched::counting::Counting;
use aa_watched::watched::{Watch, Watched};
use allocator_api2::raw_vec::Growth;
use allocator_api2::vec::Vec;
use std::alloc::{Allocator, Global};
use std::cell::Cell;
use test_allocators::Faulty;
use test_allocators::ends::is_all_freed;

// An allocator over another.
#[derive(Clone, Copy)]
enum Layer {
    // Of 64 bytes.
    Budget,
    Counting,
    // Both allocators of it are the same one, as of `Segregated`.
    Fallback,
    Faulty,
    Guarded,
    // Of blocks of 8 bytes, which has none.
    Pool,
    Rack,
    Recycler,
    Rounded,
    Segregated,
    Spaced,
    Zeroing,
}

// Returns whether a request for so many bytes succeeds, and the blocks of the inner allocator that
// were freed by then.
fn request<A: Allocator>(heap: A, below: &Faulty<Global>, bytes: usize) -> (bool, u64) {
    let granted = has_room(&heap, bytes);
    (granted, below.frees())
}

// That of each layer, which is dropped then.
fn request_from(layer: Layer, below: &Faulty<Global>, bytes: usize) -> (bool, u64) {
    match layer {
        Layer::Budget => request(Budget::new(below, 64), below, bytes),
        Layer::Counting => request(Counting::new(below), below, bytes),
        Layer::Fallback => request(Fallback::new(below, below), below, bytes),
        Layer::Faulty => request(Faulty::new(below), below, bytes),
        Layer::Guarded => request(Guarded::new(below), below, bytes),
        Layer::Pool => request(Pool::new(below, 8), below, bytes),
        Layer::Rack => request(Rack::new(below, 64), below, bytes),
        Layer::Recycler => request(Recycler::new(below), below, bytes),
        Layer::Rounded => request(Rounded::over(below), below, bytes),
        Layer::Segregated => request(Segregated::new(below, below, 64), below, bytes),
        Layer::Spaced => request(Spaced::new(below), below, bytes),
        Layer::Zeroing => request(Zeroing::new(below), below, bytes),
    }
}

// A layer, the bytes that are requested from it, whether the inner allocator fails; and whether the
// request succeeds, the requests to the inner allocator, and its blocks that were freed before the
// layer is dropped.
type Row = (Layer, usize, bool, bool, u64, u64);

fn rows() -> [Row; 25] {
    [
        (Layer::Budget, 64, false, true, 1, 1),
        (Layer::Budget, 65, false, false, 0, 0),
        (Layer::Budget, 64, true, false, 1, 0),
        (Layer::Counting, 64, false, true, 1, 1),
        (Layer::Counting, 64, true, false, 1, 0),
        (Layer::Fallback, 64, false, true, 1, 1),
        (Layer::Fallback, 64, true, true, 2, 1),
        (Layer::Faulty, 64, false, true, 1, 1),
        (Layer::Faulty, 64, true, false, 1, 0),
        (Layer::Guarded, 64, false, true, 1, 1),
        (Layer::Guarded, 64, true, false, 1, 0),
        (Layer::Pool, 64, false, true, 1, 1),
        (Layer::Pool, 64, true, false, 1, 0),
        (Layer::Rack, 64, false, true, 1, 1),
        (Layer::Rack, 64, true, false, 1, 0),
        (Layer::Recycler, 64, false, true, 1, 0),
        (Layer::Recycler, 64, true, false, 1, 0),
        (Layer::Rounded, 64, false, true, 1, 1),
        (Layer::Rounded, 64, true, false, 1, 0),
        (Layer::Segregated, 64, false, true, 1, 1),
        (Layer::Segregated, 65, true, false, 1, 0),
        (Layer::Spaced, 64, false, true, 1, 1),
        (Layer::Spaced, 64, true, false, 1, 0),
        (Layer::Zeroing, 64, false, true, 1, 1),
        (Layer::Zeroing, 64, true, false, 1, 0),
    ]
}

// Returns whether a row holds, and all memory is freed.
fn is_so(alloc: Global, (layer, bytes, fails, granted, requests, frees): Row) -> bool {
    let below = Faulty::new(alloc);
    below.fail_requests(0, u64::from(fails));
    let came = request_from(layer, &below, bytes);
    came == (granted, frees) && below.requests() == requests && is_all_freed(&below)
}

#[test]
fn a_layer_passes_on_one_request(rt: HostRuntime) {
    for row in rows() {
        assert!(rt;
            is_so(rt.alloc(), row),
            "{} bytes, {} requests, {} back",
            row.1,
            row.4,
            row.5
        );
    }
}

// A watch that keeps how many blocks the allocator below it had freed when one was last allocated.
#[derive(Drop)]
struct FreedBelow<'a> {
    below: &'a Counting<Global>,
    frees: Cell<u64>,
}

impl Watch for FreedBelow<'_> {
    fn should_fail(&self, _size: usize, _align: usize) -> bool {
        false
    }

    fn on_allocate(&self, _size: usize, _align: usize) {
        self.frees.set(self.below.counts().frees);
    }

    fn on_failure(&self, _size: usize, _align: usize) {}

    fn on_deallocate(&self, _size: usize, _align: usize) {}
}

// Fills a vector of four places, which then grows in place. Returns its capacity, and how many
// blocks the allocator below had freed when the one above knew of the new block.
fn grown_over(below: &Counting<Global>) -> Option<(usize, u64)> {
    let frees = Cell::new(0);
    let heap = Watched::with_watch(below, FreedBelow { below, frees });
    let mut v = Vec::with_growth_in(Growth::InPlace, &heap);
    for x in [1u64, 2, 3, 4, 5] {
        v.push(x).ok()?;
    }
    Some((v.capacity(), heap.watch().frees.get()))
}

#[test]
fn growth_in_place_is_passed_on(rt: HostRuntime) {
    let below = Counting::new(rt.alloc());
    assert!(rt; grown_over(&below) == Some((8, 1)) && below.counts().requests == 2);
}
