//! Inserting, removing and moving values in a leaf of a block.
ghost use Rattle.std.specs.Prelude.{◌≡◌, ◌≢◌, ℕ, ◌+◌, ◌-◌, ◌*◌, ◌<◌, ◌≤◌, ◌∷◌, ◌++◌, length, take, drop, slice_get, get_or, Some};
ghost use Rattle.std.specs.List.{All};
ghost use Rattle.allocator_api2.specs.Places.{IsRun, run};
ghost use Rattle.aa_ordered.specs.declared.leaves.Head.{Head};
ghost use Rattle.aa_ordered.specs.Arena.{Keeps, IsHeld, IsMoved, heads_of};

use super::{Head, LEAF};
use allocator_api2::raw_vec::RawVec;
use std::alloc::Allocator;

/// Inserts `item` at index `at` of the first `len` values of a leaf, of which there are fewer than
/// 64.
#[inline]
#[tactic(auto, using(crate::proofs::Moves::in_leaf))]
pub(crate) fn insert_at<T, A: Allocator>(
    block: &mut RawVec<T, A>,
    leaf: usize,
    len: usize,
    at: usize,
    item: T,
)
    requires places { (leaf + 1) * 64 ≤ length block.old.places }
    requires filled { IsRun block.old.places (leaf * 64) len }
    requires within { at ≤ len }
    requires room { len < 64 }
    ensures filled { IsRun block.new.places (leaf * 64) (len + 1) }
    ensures items { let xs = run block.old.places (leaf * 64) len in
        run block.new.places (leaf * 64) (len + 1) ≡ take at xs ++ item ∷ drop at xs }
    ensures others { Keeps block.old.places block.new.places leaf leaf }
{
    block.prove_capacity_bounds();
    let from = leaf * LEAF;
    block.move_run(from + at, from + at + 1, len - at);
    block.put(from + at, item);
}

/// Removes the value at index `at` of the first `len` values of a leaf, and returns it.
#[tactic(auto, using(crate::proofs::Moves::in_leaf))]
pub(crate) fn remove_at<T, A: Allocator>(
    block: &mut RawVec<T, A>,
    leaf: usize,
    len: usize,
    at: usize,
) -> T
    requires places { (leaf + 1) * 64 ≤ length block.old.places }
    requires filled { IsRun block.old.places (leaf * 64) len }
    requires within { at < len }
    requires room { len ≤ 64 }
    ensures item { slice_get (run block.old.places (leaf * 64) len) at ≡ Some result }
    ensures filled { IsRun block.new.places (leaf * 64) (len - 1) }
    ensures items { let xs = run block.old.places (leaf * 64) len in
        run block.new.places (leaf * 64) (len - 1) ≡ take at xs ++ drop (at + 1) xs }
    ensures others { Keeps block.old.places block.new.places leaf leaf }
{
    block.prove_capacity_bounds();
    let from = leaf * LEAF;
    let item = block.take(from + at);
    block.move_run(from + at + 1, from + at, len - at - 1);
    item
}

/// Moves the last `k` of the first `len` values of a leaf before the first `count` values of
/// another leaf.
#[tactic(auto, using(crate::proofs::Moves::up))]
pub(crate) fn move_up<T, A: Allocator>(
    block: &mut RawVec<T, A>,
    leaf: usize,
    len: usize,
    k: usize,
    to: usize,
    count: usize,
)
    requires places { ((leaf + 1) * 64 ≤ length block.old.places)
        × ((to + 1) * 64 ≤ length block.old.places) }
    requires apart { leaf ≢ to }
    requires filled { IsRun block.old.places (leaf * 64) len }
    requires filled_there { IsRun block.old.places (to * 64) count }
    requires within { (len ≤ 64) × (k ≤ len) }
    requires room { count + k ≤ 64 }
    ensures filled { IsRun block.new.places (leaf * 64) (len - k) }
    ensures filled_there { IsRun block.new.places (to * 64) (count + k) }
    ensures kept { run block.new.places (leaf * 64) (len - k)
        ≡ take (len - k) (run block.old.places (leaf * 64) len) }
    ensures moved { run block.new.places (to * 64) (count + k)
        ≡ drop (len - k) (run block.old.places (leaf * 64) len)
        ++ run block.old.places (to * 64) count }
    ensures others { Keeps block.old.places block.new.places leaf to }
{
    block.prove_capacity_bounds();
    let target = to * LEAF;
    block.move_run(target, target + k, count);
    block.move_run(leaf * LEAF + (len - k), target, k);
}

/// Moves the first `k` of the first `len` values of a leaf after the first `count` values of
/// another leaf.
#[tactic(auto, using(crate::proofs::Moves::down))]
pub(crate) fn move_down<T, A: Allocator>(
    block: &mut RawVec<T, A>,
    leaf: usize,
    len: usize,
    k: usize,
    to: usize,
    count: usize,
)
    requires places { ((leaf + 1) * 64 ≤ length block.old.places)
        × ((to + 1) * 64 ≤ length block.old.places) }
    requires apart { leaf ≢ to }
    requires filled { IsRun block.old.places (leaf * 64) len }
    requires filled_there { IsRun block.old.places (to * 64) count }
    requires within { (len ≤ 64) × (k ≤ len) }
    requires room { count + k ≤ 64 }
    ensures filled { IsRun block.new.places (leaf * 64) (len - k) }
    ensures filled_there { IsRun block.new.places (to * 64) (count + k) }
    ensures kept { run block.new.places (leaf * 64) (len - k)
        ≡ drop k (run block.old.places (leaf * 64) len) }
    ensures moved { run block.new.places (to * 64) (count + k)
        ≡ run block.old.places (to * 64) count
        ++ take k (run block.old.places (leaf * 64) len) }
    ensures others { Keeps block.old.places block.new.places leaf to }
{
    block.prove_capacity_bounds();
    let source = leaf * LEAF;
    block.move_run(source, to * LEAF + count, k);
    block.move_run(source + k, source, len - k);
}

/// Drops the values of these lists, in order.
pub(crate) fn drop_lists<T: Drop, A: Allocator>(block: &mut RawVec<T, A>, heads: &[Head])
    requires held { All (IsHeld block.old.places) heads.now }
    requires once { (leaf : ℕ) → heads_of leaf heads.now ≤ 1 }
    ensures count { length block.new.places ≡ length block.old.places }
{
    'each: for i in 0..heads.len() {
        let head = heads[i];
        block.prove_capacity_bounds();
        block.drop_run(head.leaf * LEAF, head.len);
    }
}

/// Moves these lists to the first leaves of another block, in order.
pub(crate) fn move_lists<T, A: Allocator>(
    from: &mut RawVec<T, A>,
    heads: &[Head],
    to: &mut RawVec<T, A>,
)
    requires held { All (IsHeld from.old.places) heads.now }
    requires once { (leaf : ℕ) → heads_of leaf heads.now ≤ 1 }
    requires room { length heads.now * 64 ≤ length to.old.places }
    ensures lists { (i : ℕ) (h : Head) → i < length heads.now → h ≡ get_or heads.now i h
        → IsMoved from.old.places to.new.places i h }
    ensures count { length to.new.places ≡ length to.old.places }
{
    'each: for i in 0..heads.len() {
        let head = heads[i];
        from.prove_capacity_bounds();
        to.prove_capacity_bounds();
        to.transfer(i * LEAF, from, head.leaf * LEAF, head.len);
    }
}
