//! What an allocator over others shows of its parts.
use aa_allocators::choice::Chooser;
use aa_allocators::fallback::Fallback;
use aa_allocators::guarded::Guarded;
use aa_allocators::layered::Layered;
use aa_allocators::pool::Pool;
use aa_allocators::rack::Rack;
use aa_allocators::recycler::Recycler;
use aa_allocators::rounded::Rounded;
use aa_allocators::segregated::Segregated;
use aa_allocators::zeroing::Zeroing;
use aa_watched::budget::{Budget, Purse};
use aa_watched::counting::Counting;
use std::alloc::Global;

// The limit of a budget's purse, and what was granted, remains and ever was granted.
fn numbers(purse: &Purse) -> (usize, usize, usize, usize) {
    (
        purse.limit(),
        purse.granted(),
        purse.remaining(),
        purse.most(),
    )
}

// The limit of a budget.
fn limit(heap: &Budget<Global>) -> usize {
    heap.watch().limit()
}

#[test]
fn a_purse_shows_its_numbers(rt: HostRuntime) {
    let heap = Budget::new(rt.alloc(), 48);
    assert!(rt; numbers(heap.watch()) == (48, 0, 48, 0));
}

#[test]
fn two_allocators_are_shown(rt: HostRuntime) {
    let (small, large) = (Budget::new(rt.alloc(), 8), Budget::new(rt.alloc(), 16));
    let heap = Fallback::new(small, large);
    assert!(rt; limit(heap.first()) == 8 && limit(heap.second()) == 16);
    let (small, large) = (Budget::new(rt.alloc(), 8), Budget::new(rt.alloc(), 16));
    let heap = Segregated::new(small, large, 64);
    assert!(rt; limit(heap.first()) == 8 && limit(heap.second()) == 16);
    assert!(rt; heap.chooser().is_first(64, 1) && !heap.chooser().is_first(65, 1));
}

#[test]
fn an_inner_allocator_is_shown(rt: HostRuntime) {
    let heap = Guarded::new(Budget::new(rt.alloc(), 8));
    assert!(rt; limit(heap.inner()) == 8 && heap.broken() == 0);
    let heap = Zeroing::new(Budget::new(rt.alloc(), 8));
    assert!(rt; limit(heap.inner()) == 8);
    let heap = Pool::new(Budget::new(rt.alloc(), 8), 24);
    assert!(rt; limit(heap.inner()) == 8 && heap.size() == 24);
    let heap = Rounded::over(Budget::new(rt.alloc(), 8));
    assert!(rt; limit(heap.inner()) == 8);
}

// The bytes that a rack keeps with a limit of 64 blocks, and those after it is cleared.
fn cleared(rack: &Rack<Counting<Global>>) -> (u64, u64) {
    let kept = rack.inner().counts().outstanding;
    rack.clear();
    if rack.limit() == 64 {
        return (kept, rack.inner().counts().outstanding);
    }
    (0, 0)
}

#[test]
fn a_rack_is_cleared(rt: HostRuntime) {
    let heap = Recycler::with_limit(Counting::new(rt.alloc()), 64);
    let granted = Box::new(&heap, 7u64).is_ok();
    assert!(rt; granted && cleared(heap.inner()) == (16, 0));
}
