//! Callers whose contracts say what worked examples write, and what their memory costs: the elements
//! that growth moves, the blocks that are allocated, and the places that are held at once.
ghost use Rattle.std.specs.Prelude.{◌≡◌, ◌+◌, ◌-◌, ◌<◌, ◌≤◌, max, [], ◌∷◌, length, None, Some, IfOk, OnOk};
ghost use Rattle.std.specs.Mem.{type_size};
ghost use Rattle.aa_raw.specs.declared.raw_vec.Growth.TheVariants.{Doubling, Sparing};
ghost use Rattle.aa_vec.specs.Vector.{Holds};

use aa_raw::collections::TryReserveError;
use aa_vec::vec::{IntoIter, Items, Vec};
use std::alloc::Allocator;

// Two of four are replaced by three. If the hint is exact or 0, the element after the range is
// written once; if it is a hundred, twice.
fn two_by_three<A: Allocator + Clone>(
    v: &mut Vec<u32, A>,
    items: Items<u32, A>,
) -> Result<(), TryReserveError>
    requires old { (v.old.items ≡ 1 ∷ 2 ∷ 3 ∷ 4 ∷ []) × (v.old.capacity ≡ 4)
        × (v.old.growth ≡ Doubling) }
    requires new { items.items ≡ 7 ∷ 8 ∷ 9 ∷ [] }
    ensures items { OnOk result (v.new.items ≡ 1 ∷ 7 ∷ 8 ∷ 9 ∷ 4 ∷ []) }
    ensures exact { items.hint ≡ None
        → OnOk result ((v.new.capacity ≡ 8) × (v.new.written ≡ v.old.written + 4)) }
    ensures hundred { items.hint ≡ Some 100
        → OnOk result ((v.new.capacity ≡ 104) × (v.new.written ≡ v.old.written + 5)) }
    ensures none { items.hint ≡ Some 0
        → OnOk result ((v.new.capacity ≡ 8) × (v.new.written ≡ v.old.written + 4)) }
{
    let range = v.splice(1..3, items);
    range.finish_hinted()?;
    Ok(())
}

// Seventeen pushes onto an empty vector, into blocks of 4, 8, 16 and 32 places: growth moves 28
// elements, and holds at most the last two blocks at once.
#[tactic(auto, using(crate::proofs::Claimed::pushed_next))]
fn seventeen_pushes<A: Allocator>(v: &mut Vec<u32, A>) -> Result<(), TryReserveError>
    requires { (v.old.items ≡ []) × (v.old.capacity ≡ 0) × (v.old.growth ≡ Doubling) }
    ensures { OnOk result ((v.new.capacity ≡ 32)
        × (v.new.grown.moved ≡ v.old.grown.moved + 28)
        × (v.new.grown.blocks ≡ v.old.grown.blocks + 4)
        × (v.new.grown.held ≡ max v.old.grown.held 48)) }
{
    'each: for x in 0..17 {
        v.push(x)?;
    }
    Ok(())
}

// Fifteen pushes onto an empty vector that grows sparingly, into blocks of 4, 6, 9, 14 and 21
// places: growth moves 33 elements.
#[tactic(auto, using(crate::proofs::Claimed::pushed_next))]
fn fifteen_sparing_pushes<A: Allocator>(v: &mut Vec<u32, A>) -> Result<(), TryReserveError>
    requires { (v.old.items ≡ []) × (v.old.capacity ≡ 0) × (v.old.growth ≡ Sparing) }
    ensures { OnOk result ((v.new.capacity ≡ 21)
        × (v.new.grown.moved ≡ v.old.grown.moved + 33)
        × (v.new.grown.blocks ≡ v.old.grown.blocks + 5)
        × (v.new.grown.held ≡ max v.old.grown.held 35)) }
{
    'each: for x in 0..15 {
        v.push(x)?;
    }
    Ok(())
}

// Four pushes onto an empty vector, and then ten times a push and a pop: the first of these moves
// four elements to a second block, and no other allocates.
#[tactic(auto, using(crate::proofs::Claimed::pushed_next))]
fn pushes_and_pops<A: Allocator>(v: &mut Vec<u32, A>) -> Result<(), TryReserveError>
    requires { (v.old.items ≡ []) × (v.old.capacity ≡ 0) × (v.old.growth ≡ Doubling) }
    ensures { OnOk result ((v.new.capacity ≡ 8)
        × (v.new.grown.moved ≡ v.old.grown.moved + 4)
        × (v.new.grown.blocks ≡ v.old.grown.blocks + 2)
        × (v.new.grown.held ≡ max v.old.grown.held 12)) }
{
    'fill: for x in 0..4 {
        v.push(x)?;
    }
    'each: for x in 0..10 {
        v.push(x)?;
        let _last = v.pop();
    }
    Ok(())
}

// Seventeen items are appended to an empty vector, with a hint of five each time, into blocks of 6,
// 12 and 24 places: growth moves 18 elements.
fn seventeen_items<A: Allocator>(
    v: &mut Vec<u32, A>,
    items: Items<u32, A>,
) -> Result<(), TryReserveError>
    requires old { (v.old.items ≡ []) × (v.old.capacity ≡ 0) × (v.old.growth ≡ Doubling) }
    requires new { (length items.items ≡ 17) × (items.hint ≡ Some 5) }
    ensures { OnOk result ((v.new.capacity ≡ 24)
        × (v.new.grown.moved ≡ v.old.grown.moved + 18)
        × (v.new.grown.blocks ≡ v.old.grown.blocks + 3)
        × (v.new.grown.held ≡ max v.old.grown.held 36)) }
{
    v.extend_hinted(items)
}

// An insert before two of three elements: three are written.
fn one_put_in<A: Allocator>(v: &mut Vec<u32, A>) -> Result<(), TryReserveError>
    requires { v.old.items ≡ 1 ∷ 2 ∷ 3 ∷ [] }
    ensures { OnOk result ((v.new.items ≡ 1 ∷ 9 ∷ 2 ∷ 3 ∷ [])
        × (v.new.written ≡ v.old.written + 3)) }
{
    v.insert(1, 9)?;
    Ok(())
}

// It is taken out again: two are written.
fn one_taken_out<A: Allocator>(v: &mut Vec<u32, A>) -> u32
    requires { v.old.items ≡ 1 ∷ 9 ∷ 2 ∷ 3 ∷ [] }
    ensures { (result ≡ 9) × Holds v.old (1 ∷ 2 ∷ 3 ∷ []) v.new
        × (v.new.written ≡ v.old.written + 2) }
{
    v.remove(1)
}

// Nine pushes of bytes onto an empty vector, into blocks of 8 and 16 places: growth moves eight
// elements.
fn nine_bytes<A: Allocator>(v: &mut Vec<u8, A>) -> Result<(), TryReserveError>
    requires { (v.old.items ≡ []) × (v.old.capacity ≡ 0) × (v.old.growth ≡ Doubling) }
    ensures { OnOk result ((v.new.capacity ≡ 16)
        × (v.new.grown.moved ≡ v.old.grown.moved + 8)
        × (v.new.grown.blocks ≡ v.old.grown.blocks + 2)
        × (v.new.grown.held ≡ max v.old.grown.held 24)) }
{
    v.push(0)?;
    'each: for x in 1..8 {
        v.push(x)?;
    }
    v.push(8)?;
    Ok(())
}

// From the middle half of six one element is taken at each end, and the other is kept: three are
// written.
fn middle_kept<A: Allocator>(v: &mut Vec<u32, A>) -> (Option<u32>, Option<u32>)
    requires { v.old.items ≡ 0 ∷ 1 ∷ 2 ∷ 3 ∷ 4 ∷ 5 ∷ [] }
    ensures { Holds v.old (0 ∷ 2 ∷ 4 ∷ 5 ∷ []) v.new × (v.new.written ≡ v.old.written + 3) }
{
    let mut range = v.drain(1..4);
    let first = range.next();
    let last = range.next_back();
    range.keep_rest();
    (first, last)
}

// Doubles each, and removes those that are 4 then: two elements are written, in one run.
fn doubled_without_four<A: Allocator>(v: &mut Vec<u32, A>)
    requires { v.old.items ≡ 1 ∷ 2 ∷ 3 ∷ 4 ∷ [] }
    ensures items { Holds v.old (2 ∷ 6 ∷ 8 ∷ []) v.new }
    ensures written { (v.new.written ≡ v.old.written + 2) × (v.new.runs ≤ v.old.runs + 1) }
{
    v.retain_mut(|x| {
        *x = x.wrapping_mul(2);
        *x != 4
    });
}

// Kept elements move as runs: four are written, in two.
fn without_two_and_six<A: Allocator>(v: &mut Vec<u32, A>)
    requires { v.old.items ≡ 1 ∷ 2 ∷ 3 ∷ 4 ∷ 5 ∷ 6 ∷ 7 ∷ [] }
    ensures items { Holds v.old (1 ∷ 3 ∷ 4 ∷ 5 ∷ 7 ∷ []) v.new }
    ensures written { (v.new.written ≡ v.old.written + 4) × (v.new.runs ≤ v.old.runs + 2) }
{
    v.retain(|x| *x % 4 != 2);
}

// Three are written, in two runs.
fn repeats_removed<A: Allocator>(v: &mut Vec<u32, A>)
    requires { v.old.items ≡ 1 ∷ 1 ∷ 2 ∷ 3 ∷ 3 ∷ 4 ∷ [] }
    ensures items { Holds v.old (1 ∷ 2 ∷ 3 ∷ 4 ∷ []) v.new }
    ensures written { (v.new.written ≡ v.old.written + 3) × (v.new.runs ≤ v.old.runs + 2) }
{
    v.dedup();
}

// If capacity has to be reserved, the elements have a size: zero-sized elements always have all
// places.
fn grows_by_size_alone<T, A: Allocator>(
    v: &mut Vec<T, A>,
    additional: usize,
) -> Result<(), TryReserveError>
    ensures { OnOk result (v.old.capacity - length v.old.items < additional
        → 0 < type_size T.row) }
{
    v.prove_capacity_bounds();
    v.try_reserve(additional)?;
    v.prove_capacity_bounds();
    Ok(())
}

// Ten places are one block, and none are no block.
fn ten_places<A: Allocator>(alloc: A) -> Result<Vec<u32, A>, TryReserveError>
    ensures { IfOk result (λ v. (v.grown.blocks ≡ 1) × (v.grown.held ≡ 10)) }
{
    Vec::with_capacity_in(10, alloc)
}

fn no_places<A: Allocator>(alloc: A) -> Result<Vec<u32, A>, TryReserveError>
    ensures { IfOk result (λ v. (v.grown.blocks ≡ 0) × (v.grown.held ≡ 0)) }
{
    Vec::with_capacity_in(0, alloc)
}

// Removing elements allocates no block, one by one, as a range or all; nor does an iterator over
// them.
fn popped<T, A: Allocator>(v: &mut Vec<T, A>) -> Option<T>
    ensures { v.new.grown ≡ v.old.grown }
{
    v.pop()
}

fn drained<T: Drop, A: Allocator>(v: &mut Vec<T, A>) -> Option<T>
    ensures { v.new.grown ≡ v.old.grown }
{
    v.drain(..).next()
}

fn cleared<T: Drop, A: Allocator>(v: &mut Vec<T, A>)
    ensures { v.new.grown ≡ v.old.grown }
{
    v.clear();
}

fn iterated<T, A: Allocator>(v: Vec<T, A>) -> IntoIter<T, A>
    ensures { result.grown ≡ v.grown }
{
    v.into_iter()
}

// A vector with elements and spare capacity shrinks into one new block, while it holds the old one.
fn shrunk<A: Allocator>(v: &mut Vec<u32, A>) -> Result<(), TryReserveError>
    requires { (0 < length v.old.items) × (length v.old.items < v.old.capacity) }
    ensures blocks { OnOk result (v.new.grown.blocks ≡ v.old.grown.blocks + 1) }
    ensures held { OnOk result (v.new.grown.held
        ≡ max v.old.grown.held (v.old.capacity + length v.old.items)) }
{
    v.shrink_to_fit()
}

// Items whose number the hint says, and of which not all fit: capacity for all is allocated at
// once, in one block.
fn counted_items<T: Drop, A: Allocator>(
    v: &mut Vec<T, A>,
    items: Items<T, A>,
) -> Result<(), TryReserveError>
    requires short { v.old.capacity < length v.old.items + length items.items }
    requires counted { items.hint ≡ None }
    ensures { OnOk result (v.new.grown.blocks ≡ v.old.grown.blocks + 1) }
{
    v.extend_hinted(items)?;
    v.prove_capacity_bounds();
    Ok(())
}
