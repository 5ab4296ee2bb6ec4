//! The items of a block, from either end.
ghost use Rattle.std.specs.Prelude.{◌≡◌, IfOk};

use crate::printed::are_printed;
use aa_raw::collections::TryReserveError;
use aa_raw::raw_vec::RawVec;
use aa_raw::vec::into_iter::IntoIter;
use std::alloc::{AllocError, Allocator, Global};
use std::cell::Cell;
use std::test::Fail;
use test_allocators::Faulty;
use test_allocators::counted::Counted;

// Returns the two values as items. If an allocation fails, they are dropped.
#[tactic(auto, using(aa_raw::proofs::Calls::at_ends))]
fn two<T: Drop, A: Allocator>(
    alloc: A,
    [first, second]: [T; 2],
) -> Result<IntoIter<T, A>, TryReserveError> {
    let mut block: RawVec<T, A> = RawVec::with_capacity_in(2, alloc)?;
    block.put(0, first);
    block.put(1, second);
    Ok(IntoIter::from_block(block, 2))
}

// The last item and the first, and how many are left then.
fn taken<T: Drop>(items: &mut IntoIter<T>) -> (Option<T>, Option<T>, usize) {
    (items.next_back(), items.next(), items.len())
}

// The last item, and how many are left then.
fn last_taken<T: Drop>(items: &mut IntoIter<T>) -> (Option<T>, usize) {
    (items.next_back(), items.len())
}

#[test]
fn items_come_from_both_ends(rt: HostRuntime) -> Result<(), Fail> {
    let mut items = two(rt.alloc(), [1u32, 2])?;
    assert!(rt; taken(&mut items) == (Some(2), Some(1), 0));
    assert!(rt; taken(&mut items) == (None, None, 0));
    Ok(())
}

// The length falls by one with each item.
#[test]
fn zst_items_are_counted(rt: HostRuntime) -> Result<(), Fail> {
    let mut items = two(rt.alloc(), [(), ()])?;
    assert!(rt; last_taken(&mut items) == (Some(()), 1));
    assert!(rt; last_taken(&mut items) == (Some(()), 0));
    assert!(rt; last_taken(&mut items) == (None, 0));
    Ok(())
}

// Returns the size hint, whether both are threes once these are written to all, and whether they
// are printed so.
fn written_to(
    alloc: Global,
    items: IntoIter<u32, &Faulty<Global>>,
) -> ((usize, Option<usize>), bool, bool) {
    let mut items = items;
    let _alloc: &&Faulty<Global> = items.allocator();
    let hint = items.size_hint();
    items.as_mut_slice().fill(3);
    let written = items.as_slice() == [3, 3].as_slice();
    let printed = are_printed(alloc, &"are", &items, "are IntoIter([3, 3])");
    (hint, written, matches!(printed, Ok(true)))
}

#[test]
fn items_are_written_to_and_printed(rt: HostRuntime) -> Result<(), Fail> {
    let heap = Faulty::new(rt.alloc());
    let items = two(&heap, [1u32, 2])?;
    assert!(rt; written_to(rt.alloc(), items) == ((2, Some(2)), true, true));
    assert!(rt; (heap.requests(), heap.frees()) == (1, 1));
    Ok(())
}

fn counted(drops: &Cell<u32>) -> [Counted<'_>; 2] {
    [Counted { value: 0, drops }, Counted { value: 0, drops }]
}

// Returns how many items are dropped when one was taken, before the others are.
fn one_taken<T: Drop>(items: IntoIter<T>, drops: &Cell<u32>) -> u32 {
    let mut items = items;
    drop(items.next());
    drops.get()
}

#[test]
fn items_are_dropped_once(rt: HostRuntime) -> Result<(), Fail> {
    let drops = Cell::new(0);
    let dropped = one_taken(two(rt.alloc(), counted(&drops))?, &drops);
    assert!(rt; dropped == 1 && drops.get() == 2);
    let count = two(rt.alloc(), counted(&drops))?.count();
    assert!(rt; count == 2 && drops.get() == 4);
    Ok(())
}

// A generic caller learns the items.
fn collected(alloc: Global, items: IntoIter<u8, Global>) -> Result<Vec<u8>, AllocError>
    ensures { IfOk result (λ v. v.items ≡ items.items) }
{
    items.collect(alloc)
}

#[test]
fn generic_callers_take_the_items(rt: HostRuntime) -> Result<(), Fail> {
    let seen = collected(rt.alloc(), two(rt.alloc(), [6, 7])?)?;
    assert!(rt; seen.as_slice() == [6, 7].as_slice());
    Ok(())
}
