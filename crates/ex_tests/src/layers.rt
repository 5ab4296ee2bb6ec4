//! Layers and choices, as an author of allocators writes them: without a proof.
ghost use Rattle.std.specs.Prelude.{◌+◌, max, nat_eq};

use aa_allocator_tests::below::{Below, count_below};
use aa_allocator_tests::config::Config;
use aa_allocator_tests::stress::stress_with_clone;
use aa_allocators::choice::{Choice, Chooser};
use aa_allocators::fallback::Fallback;
use aa_allocators::guarded::Guarded;
use aa_allocators::layered::{Layer, Layered};
use aa_allocators::pool::Pool;
use aa_allocators::recycler::Recycler;
use aa_allocators::segregated::Segregated;
use aa_allocators::spaced::Spaced;
use aa_allocators::zeroing::Zeroing;
use aa_watched::budget::Budget;
use std::alloc::{Allocator, Global};
use test_allocators::Faulty;

// Requests 24 bytes more than a collection does, at alignment 8 or more.
#[derive(Clone, Copy)]
struct Padded;

impl Layer for Padded {
    ghost size_for = { λ _ size _. size + 24 };

    ghost align_for = { λ _ _ align. max align 8 };

    fn size_for(&self, size: usize, _align: usize) -> Option<usize> {
        size.checked_add(24)
    }

    fn align_for(&self, _size: usize, align: usize) -> usize {
        align.max(8)
    }
}

// Has blocks of one size from the first allocator.
#[derive(Clone, Copy)]
struct OfSize {
    size: usize,
}

impl Chooser for OfSize {
    ghost is_first = { λ it size _. nat_eq size it.size };

    fn is_first(&self, size: usize, _align: usize) -> bool {
        size == self.size
    }
}

// Whether a stress run over an allocator and its clone finds no fault.
fn is_right<B: Allocator, A: Allocator + Clone>(
    books: Global,
    below: &Below<B>,
    heap: A,
    guaranteed_size: usize,
) -> bool {
    let config = Config {
        guaranteed_size,
        guaranteed_bytes: 8_000_000,
        ..Config::new(7, 40)
    };
    stress_with_clone(books, below, heap, config).is_ok()
}

#[test]
fn layers_are_right(rt: HostRuntime) {
    let below = count_below(rt.alloc());
    assert!(rt; is_right(rt.alloc(), &below, Spaced::new(&below), 1_048_576));
    assert!(rt;
        is_right(
            rt.alloc(),
            &below,
            Layered::with_layer(&below, Padded),
            1_048_576
        )
    );
}

#[test]
fn choices_are_right(rt: HostRuntime) {
    let below = count_below(rt.alloc());
    for limit in [0usize, 64, usize::MAX] {
        let heap = Segregated::new(Recycler::new(&below), &below, limit);
        assert!(rt; is_right(rt.alloc(), &below, heap, 1_048_576), "{limit}");
    }
    let heap = Choice::with_chooser(Pool::new(&below, 24), &below, OfSize { size: 24 });
    assert!(rt; is_right(rt.alloc(), &below, heap, 1_048_576));
}

// Whether so many bytes can be requested.
fn has_room<A: Allocator>(heap: A, bytes: usize) -> bool {
    Vec::<u8, A>::with_capacity(heap, bytes).is_ok()
}

// Returns the requests to each of two allocators, of which the second fails, and whether a request
// succeeds.
fn requested(alloc: Global, bytes: usize) -> (bool, u64, u64) {
    let (small, large) = (Faulty::new(alloc), Faulty::new(alloc));
    large.fail_requests(0, u64::MAX);
    let granted = has_room(&Segregated::new(&small, &large, 64), bytes);
    (granted, small.requests(), large.requests())
}

#[test]
fn a_choice_requests_from_one_allocator(rt: HostRuntime) {
    assert!(rt; requested(rt.alloc(), 64) == (true, 1, 0));
    assert!(rt; requested(rt.alloc(), 65) == (false, 0, 1));
}

// Returns the outstanding bytes below a layer while it has a block of so many bytes.
fn taken(alloc: Global, bytes: usize) -> u64 {
    let below = Faulty::new(alloc);
    let heap = Layered::with_layer(&below, Padded);
    let block = Vec::<u8, &Layered<&Faulty<Global>, Padded>>::with_capacity(&heap, bytes);
    let outstanding = below.outstanding();
    let granted = block.is_ok();
    if granted { outstanding } else { 0 }
}

#[test]
fn a_layer_requests_another_layout(rt: HostRuntime) {
    assert!(rt; taken(rt.alloc(), 16) == 40 && taken(rt.alloc(), 17) == 48);
}

// The inner allocator was called, and the layer chooses layouts.
#[test]
fn a_layer_shows_its_parts(rt: HostRuntime) {
    let below = Faulty::new(rt.alloc());
    let heap = Layered::with_layer(&below, Padded);
    assert!(rt; has_room(&heap, 16) && heap.inner().requests() == 1);
    assert!(rt; heap.layer().size_for(16, 1) == Some(40) && heap.layer().align_for(16, 1) == 8);
}

#[test]
fn a_fallback_is_right(rt: HostRuntime) {
    let below = count_below(rt.alloc());
    for limit in [0usize, 5_000, usize::MAX] {
        let heap = Fallback::new(Budget::new(&below, limit), &below);
        assert!(rt; is_right(rt.alloc(), &below, heap, 1_048_576), "{limit}");
    }
}

// Returns the outstanding bytes of two allocators.
fn outstanding(first: &Faulty<Global>, second: &Faulty<Global>) -> (u64, u64) {
    (first.outstanding(), second.outstanding())
}

// Whether of two blocks the first allocator has the first one, and the second, which it fails, is
// the second allocator's. They are freed in this order.
fn are_apart(first: &Faulty<Global>, second: &Faulty<Global>) -> bool {
    let heap = Fallback::new(first, second);
    let one = Box::new(&heap, 7u64);
    first.fail_requests(0, 1);
    let other = Box::new(&heap, 8u64);
    let both = outstanding(first, second) == (16, 16) && one.is_ok();
    drop(one);
    both && outstanding(first, second) == (0, 16) && other.is_ok()
}

#[test]
fn each_block_is_freed_by_its_allocator(rt: HostRuntime) {
    let (first, second) = (Faulty::new(rt.alloc()), Faulty::new(rt.alloc()));
    assert!(rt; are_apart(&first, &second) && outstanding(&first, &second) == (0, 0));
}

// Returns whether a request succeeds if both allocators fail it, and the requests to each.
fn failed(first: &Faulty<Global>, second: &Faulty<Global>) -> (bool, u64, u64) {
    first.fail_requests(0, 1);
    second.fail_requests(0, 1);
    let granted = has_room(Fallback::new(first, second), 8);
    (granted, first.requests(), second.requests())
}

#[test]
fn a_fallback_fails_if_both_do(rt: HostRuntime) {
    let (first, second) = (Faulty::new(rt.alloc()), Faulty::new(rt.alloc()));
    assert!(rt; failed(&first, &second) == (false, 1, 1));
}

// Returns the number of broken blocks after a stress run over a guarded allocator, if it finds no
// fault.
fn broken(books: Global, below: &Below<Global>) -> Option<u64> {
    let heap = Guarded::new(below);
    let right = is_right(books, below, &heap, 1_048_576);
    let broken = heap.broken();
    if right { Some(broken) } else { None }
}

#[test]
fn a_guarded_allocator_is_right(rt: HostRuntime) {
    let below = count_below(rt.alloc());
    assert!(rt; is_right(rt.alloc(), &below, Guarded::new(&below), 1_048_576));
    assert!(rt; broken(rt.alloc(), &below) == Some(0));
}

#[test]
fn a_zeroing_allocator_is_right(rt: HostRuntime) {
    let below = count_below(rt.alloc());
    assert!(rt; is_right(rt.alloc(), &below, Zeroing::new(&below), 1_048_576));
}
