//! Moves of values within and between blocks.
#![tactic(auto, unfolding(aa_raw::specs::Places::with_run, aa_raw::specs::Places::moved))]

ghost use Rattle.std.specs.Prelude.{◌≡◌, ◌+◌, [], ◌∷◌, Some, None, IfOk};
ghost use Rattle.aa_raw.specs.Block.{with_places};

use aa_raw::collections::TryReserveError;
use aa_raw::raw_vec::RawVec;
use std::alloc::Global;
use std::test::Fail;

// A block `a b c _ _`.
fn row(alloc: Global, a: u32, b: u32, c: u32) -> Result<RawVec<u32, Global>, TryReserveError>
    ensures { IfOk result (λ block. block.places ≡ Some a ∷ Some b ∷ Some c ∷ None ∷ None ∷ []) }
{
    let mut block = RawVec::with_capacity_in(5, alloc)?;
    block.put(0, a);
    block.put(1, b);
    block.put(2, c);
    Ok(block)
}

// The values of a block `a b c _ _` are moved to its end.
fn moves_up(block: &mut RawVec<u32, Global>, _a: u32, _b: u32, _c: u32)
    requires { block.old.places ≡ Some _a ∷ Some _b ∷ Some _c ∷ None ∷ None ∷ [] }
    ensures places { block.new.places ≡ None ∷ None ∷ Some _a ∷ Some _b ∷ Some _c ∷ [] }
    ensures written { block.new.written ≡ block.old.written + 3 }
    ensures runs { block.new.runs ≡ block.old.runs + 1 }
{
    block.move_run(0, 2, 3);
}

// They are moved there and back: six values were written in all.
fn moves_there_and_back(block: &mut RawVec<u32, Global>, _a: u32, _b: u32, _c: u32)
    requires { block.old.places ≡ Some _a ∷ Some _b ∷ Some _c ∷ None ∷ None ∷ [] }
    ensures places { block.new.places ≡ block.old.places }
    ensures written { block.new.written ≡ block.old.written + 6 }
    ensures runs { block.new.runs ≡ block.old.runs + 2 }
{
    moves_up(block, _a, _b, _c);
    block.move_run(2, 0, 3);
}

// The values of a block `_ _ a b c` are moved down by one place.
fn moves_down(block: &mut RawVec<u32, Global>, _a: u32, _b: u32, _c: u32)
    requires { block.old.places ≡ None ∷ None ∷ Some _a ∷ Some _b ∷ Some _c ∷ [] }
    ensures places { block.new.places ≡ None ∷ Some _a ∷ Some _b ∷ Some _c ∷ None ∷ [] }
    ensures written { block.new.written ≡ block.old.written + 3 }
    ensures runs { block.new.runs ≡ block.old.runs + 1 }
{
    block.move_down(2, 1, 3);
}

// A closure that borrows the places 0 and 2 writes to the first of them.
fn writes_through(block: &mut RawVec<u32, Global>, _a: u32, _b: u32, _c: u32)
    requires { block.old.places ≡ Some _a ∷ Some _b ∷ Some _c ∷ None ∷ None ∷ [] }
    ensures { block.new ≡ with_places block.old (Some _c ∷ Some _b ∷ Some _c ∷ None ∷ None ∷ []) }
{
    block.pair_with(0, 2, &mut |x: &mut u32, y: &mut u32| *x = *y);
}

#[test]
fn values_move_within_a_block(rt: HostRuntime) -> Result<(), Fail> {
    let mut block = row(rt.alloc(), 10, 11, 12)?;
    block.move_run(0, 2, 3);
    block.move_down(2, 1, 3);
    block.move_one(3, 0);
    assert!(rt; block.slice(0, 3) == [12, 10, 11].as_slice());
    block.drop_run(0, 3);
    Ok(())
}

#[test]
fn values_move_to_another_block(rt: HostRuntime) -> Result<(), Fail> {
    let mut to: RawVec<u32, Global> = RawVec::with_capacity_in(4, rt.alloc())?;
    let mut from = row(rt.alloc(), 10, 11, 12)?;
    to.put(0, 9);
    to.transfer(1, &mut from, 1, 2);
    assert!(rt; to.slice(0, 3) == [9, 11, 12].as_slice());
    assert!(rt; from.take(0) == 10);
    to.drop_run(0, 3);
    Ok(())
}

#[test]
fn arrays_are_put_and_taken(rt: HostRuntime) -> Result<(), Fail> {
    let mut block: RawVec<u16, Global> = RawVec::with_capacity_in(4, rt.alloc())?;
    block.put_array(0, [1, 2, 3]);
    let two: [u16; 2] = block.take_array();
    assert!(rt; two == [1, 2]);
    assert!(rt; block.take(2) == 3);
    Ok(())
}

#[test]
fn copies_are_put(rt: HostRuntime) -> Result<(), Fail> {
    let mut block: RawVec<u16, Global> = RawVec::with_capacity_in(12, rt.alloc())?;
    block.put_copies(2, &[0, 1, 2, 3, 4, 5, 6, 7, 8, 9]);
    assert!(rt; block.slice(8, 4) == [6, 7, 8, 9].as_slice());
    block.drop_run(2, 10);
    Ok(())
}

// Writes to the first of two places, and returns half of the second.
fn one_more(x: &mut u32, y: &mut u32) -> u32 {
    *x = y.wrapping_add(1);
    *y / 2
}

#[test]
fn two_places_are_borrowed_at_once(rt: HostRuntime) -> Result<(), Fail> {
    let mut block = row(rt.alloc(), 10, 11, 12)?;
    let half = block.pair_with(2, 0, &mut one_more);
    assert!(rt; half == 5 && block.slice(0, 3) == [10, 11, 11].as_slice());
    block.drop_run(0, 3);
    Ok(())
}
