use aa_allocators::spaced::Spaced;
use aa_watched::counting::Counting;
use std::alloc::Global;

// Returns how many bytes of the inner allocator are allocated for capacity for four numbers, of
// which one is there.
fn taken(below: &Counting<Global>, heap: &Spaced<&Counting<Global>>) -> Option<u64> {
    let mut numbers: Vec<u32, &Spaced<&Counting<Global>>> = Vec::with_capacity(heap, 4).ok()?;
    let pushed = numbers.push(7).is_ok();
    if pushed {
        return Some(below.counts().outstanding);
    }
    None
}

#[test]
fn twice_the_size_is_requested_and_freed(rt: HostRuntime) {
    let below = Counting::new(rt.alloc());
    assert!(rt; taken(&below, &Spaced::new(&below)) == Some(32));
    let counts = below.counts();
    assert!(rt; (counts.frees, counts.outstanding) == (1, 0));
}
