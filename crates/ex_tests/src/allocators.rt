//! The budget, the count and the pool. No clause says what their cells hold.
use aa_allocators::budget::Budget;
use aa_allocators::counting::{Counting, Counts};
use aa_allocators::pool::Pool;
use allocator_api2::boxed::Box;
use allocator_api2::vec::Vec;
use std::alloc::{Allocator, Global};

/// Returns whether a box for the item can be allocated. It is freed at once.
pub(crate) fn is_granted<T: Drop, A: Allocator>(heap: A, item: T) -> bool {
    Box::new_in(item, heap).is_ok()
}

/// Returns whether a vector of so many bytes can be allocated. It is freed at once.
pub(crate) fn has_room<A: Allocator>(heap: A, count: usize) -> bool {
    Vec::<u8, A>::with_capacity_in(count, heap).is_ok()
}

/// Returns whether so many pushes onto an empty vector succeed.
pub(crate) fn pushes<T: Copy, A: Allocator>(heap: A, item: T, count: u32) -> bool {
    let mut list: Vec<T, A> = Vec::new_in(heap);
    for _ in 0..count {
        if list.push(item).is_err() {
            return false;
        }
    }
    true
}

/// What is done with boxes over an allocator.
#[derive(Clone, Copy)]
pub(crate) enum Step {
    /// One more box is allocated.
    Take,
    /// The allocation of one more box fails.
    Refused,
    /// The box of this place is dropped, and the last one takes its place.
    Back(usize),
}

// Allocates one more box for its number, and returns whether this succeeded.
fn taken<A: Allocator>(heap: A, boxes: &mut Vec<Box<u64, A>, Global>) -> bool {
    let Ok(one) = Box::new_in(boxes.len() as u64, heap) else {
        return false;
    };
    boxes.push(one).is_ok()
}

// Drops a box, and returns its number.
fn freed<A: Allocator>(boxes: &mut Vec<Box<u64, A>, Global>, at: usize) -> Option<u64> {
    if at < boxes.len() {
        return Some(*boxes.swap_remove(at));
    }
    None
}

/// Returns whether the steps are so. All boxes are freed then.
pub(crate) fn go<A: Allocator + Copy>(books: Global, heap: A, steps: &[Step]) -> bool {
    let mut boxes: Vec<Box<u64, A>, Global> = Vec::new_in(books);
    let mut all = true;
    for step in steps {
        all = all
            && match *step {
                Step::Take => taken(heap, &mut boxes),
                Step::Refused => !taken(heap, &mut boxes),
                Step::Back(at) => freed(&mut boxes, at).is_some(),
            };
    }
    all
}

/// Returns the numbers of requests, of freed blocks and of outstanding bytes.
pub(crate) fn seen<B: Allocator>(heap: &Counting<B>) -> (u64, u64, u64) {
    let counts = heap.counts();
    (counts.requests, counts.frees, counts.outstanding)
}

/// What is out of a budget, what is left, and the most that ever was out.
pub(crate) fn purse<B: Allocator>(heap: &Budget<B>) -> (usize, usize, usize) {
    let purse = heap.watch();
    (purse.granted(), purse.remaining(), purse.most())
}

// Returns whether eight numbers fit in 48 bytes, and no ninth.
fn grants_eight(heap: &Budget<Global>) -> bool {
    let mut all = true;
    // The block for four is freed once that for eight is allocated, and nine do not fit.
    for (count, granted) in [(8, true), (9, false)] {
        all = pushes(heap, 7u32, count) == granted && purse(heap) == (0, 48, 48) && all;
    }
    all
}

// Whether the steps go so over a budget, and its purse then.
fn keeps_limit(books: Global, limit: usize, steps: &[Step]) -> (bool, (usize, usize, usize)) {
    let heap = Budget::new(books, limit);
    let all = go(books, &heap, steps);
    (all, purse(&heap))
}

#[test]
fn a_budget_grants_what_is_left(rt: HostRuntime) {
    let heap = Budget::new(rt.alloc(), 48);
    assert!(rt; heap.watch().limit() == 48 && grants_eight(&heap));
    let steps = [
        Step::Take,
        Step::Take,
        Step::Refused,
        Step::Back(0),
        Step::Take,
    ];
    assert!(rt; keeps_limit(rt.alloc(), 16, &steps) == (true, (0, 16, 16)));
}

// Returns whether a clone allocates a box without a change of the other one.
fn twin_grants(heap: &Budget<Global>) -> bool {
    match heap.clone() {
        Ok(twin) => {
            is_granted(&twin, 1u64) && (purse(heap), purse(&twin)) == ((0, 8, 0), (0, 8, 8))
        }
        Err(_) => false,
    }
}

#[test]
fn a_clone_has_a_budget_of_its_own(rt: HostRuntime) {
    let heap = Budget::new(rt.alloc(), 8);
    assert!(rt; twin_grants(&heap));
}

const REPORT: &str = "\
9 requests, 1 failed, 8 blocks freed
151008 bytes granted in all, 0 outstanding, 80000 at most
the greatest request: 800000 bytes
up to     16 bytes: 1
up to     64 bytes: 2
up to    256 bytes: 2
up to   1024 bytes: 1
above  65536 bytes: 3
";

// Makes pushes, and two vectors that succeed and one that fails. Returns whether it is so, and the
// counts.
fn request_all(heap: &Counting<Budget<Global>>) -> (bool, Counts) {
    let mut all = pushes(heap, 7u32, 100);
    for (count, granted) in [(80_000, true), (70_000, true), (800_000, false)] {
        all = has_room(heap, count) == granted && all;
    }
    (all, heap.counts())
}

// Whether the counts are printed so.
fn is_printed(books: Global, counts: Counts, text: &str) -> bool {
    match format!(in books; "{counts}") {
        Ok(printed) => printed.as_str() == text,
        Err(_) => false,
    }
}

#[test]
fn a_report_shows_what_was_allocated(rt: HostRuntime) {
    let (all, counts) = request_all(&Counting::new(Budget::new(rt.alloc(), 500_000)));
    assert!(rt; all && is_printed(rt.alloc(), counts, REPORT));
}

// A pool over a count and a budget.
type Pooled<'a> = Pool<&'a Counting<Budget<Global>>>;

// Each call over the pool is in one place, which takes a proof some seconds.

fn pool_steps_are_right(books: Global, pool: &Pooled<'_>, steps: &[Step]) -> bool {
    go(books, pool, steps)
}

fn pool_grants<T: Drop>(pool: &Pooled<'_>, item: T) -> bool {
    is_granted(pool, item)
}

// A count over so many bytes.
fn heap_of(books: Global, limit: usize) -> Counting<Budget<Global>> {
    Counting::new(Budget::new(books, limit))
}

// Blocks are freed in any order. Of seven boxes three reuse a block.
const POOLED: [Step; 12] = [
    Step::Take,
    Step::Take,
    Step::Take,
    Step::Back(1),
    Step::Back(0),
    Step::Take,
    Step::Take,
    Step::Take,
    Step::Back(3),
    Step::Back(0),
    Step::Back(1),
    Step::Take,
];

// Returns whether boxes reuse blocks, nothing is kept once the pool is cleared, and it still
// allocates then.
fn is_used_again(books: Global, heap: &Counting<Budget<Global>>) -> bool {
    let pool = Pool::new(heap, 8);
    let used = pool_steps_are_right(books, &pool, &POOLED) && seen(heap) == (4, 0, 32);
    pool.clear();
    let cleared = seen(heap) == (4, 4, 0);
    used && cleared && pool_grants(&pool, 7u64) && seen(heap) == (5, 4, 8)
}

#[test]
fn blocks_freed_in_any_order_are_reused(rt: HostRuntime) {
    let heap = heap_of(rt.alloc(), usize::MAX);
    assert!(rt; is_used_again(rt.alloc(), &heap) && seen(&heap) == (5, 5, 0));
}

// Whether a pool and its clone keep a block each, and one is cleared alone.
fn twin_keeps(pool: &Pooled<'_>) -> bool {
    let Ok(twin) = pool.clone() else {
        return false;
    };
    let granted = pool_grants(pool, [0u64; 3]) && pool_grants(&twin, [0u64; 3]);
    pool.clear();
    granted && twin.size() == 24 && seen(pool.inner()) == (2, 1, 24)
}

#[test]
fn a_cloned_pool_keeps_blocks_of_its_own(rt: HostRuntime) {
    let heap = heap_of(rt.alloc(), usize::MAX);
    assert!(rt; twin_keeps(&Pool::new(&heap, 24)));
}

// Returns whether boxes of three types are allocated. One of the same layout reuses the block of
// another.
fn grants_layouts(pool: &Pooled<'_>) -> bool {
    pool_grants(pool, [1u32; 4])
        && pool_grants(pool, [1u64; 2])
        && pool_grants(pool, (1u64, 2u32))
        && seen(pool.inner()) == (2, 1, 16)
}

#[test]
fn requests_of_another_layout_are_passed_on(rt: HostRuntime) {
    let heap = heap_of(rt.alloc(), usize::MAX);
    assert!(rt; grants_layouts(&Pool::new(&heap, 16)));
}

// Whether a pool over 24 bytes sheds what it keeps once it is cleared.
fn sheds(books: Global, pool: &Pooled<'_>) -> bool {
    let steps = [
        Step::Take,
        Step::Take,
        Step::Take,
        Step::Refused,
        Step::Back(1),
        Step::Take,
    ];
    let mut all = pool_steps_are_right(books, pool, &steps);
    // What is kept counts until it is cleared.
    for granted in [false, true] {
        all = pool_grants(pool, [0u8; 16]) == granted && all;
        pool.clear();
    }
    all
}

#[test]
fn a_pool_over_a_budget_sheds(rt: HostRuntime) {
    let heap = heap_of(rt.alloc(), 24);
    assert!(rt; sheds(rt.alloc(), &Pool::new(&heap, 8)));
    let counts = heap.counts();
    assert!(rt; (counts.outstanding, counts.most) == (0, 24));
}
