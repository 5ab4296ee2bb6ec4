//! All items as one mutable slice.
ghost use Rattle.std.specs.Prelude.{◌≡◌, ◌+◌, ◌^◌, ◌<◌, ◌≤◌, ◌++◌, length, take, drop};
ghost use Rattle.std.specs.Borrow.{sem};
ghost use Rattle.std.specs.Iterator.Adapters.{IterMutYieldsInOrder, IterMutYieldsInReverse};
ghost use Rattle.std.specs.Slice.Iter.{iter_mut_rest};
ghost use Rattle.allocator_api2.specs.Block.{with_places};
ghost use Rattle.allocator_api2.specs.Places.{IsRun, run};
ghost use Rattle.aa_ring.specs.RingInner.{HasParts};

use crate::ring::Ring;
use allocator_api2::raw_vec::RawVec;
use std::alloc::Allocator;
use std::slice::IterMut;

impl<T, A: Allocator> Ring<T, A> {
    ghost use Rattle.aa_ring.specs.Lends.{lends_items, lends_all};

    /// Moves the items into one slice, in order, and returns it.
    ///
    /// Moves nothing if they are in one slice already. Does not allocate, and does not change the
    /// capacity. In either case `written` counts each item once. `as_slices` returns all items in
    /// its first slice afterwards.
    #[tactic(auto, using(allocator_api2::proofs::Blocks::shown, crate::proofs::Rings::in_one_run))]
    pub fn make_contiguous(&mut self) -> &mut [T]
        ensures* writes_back { sem 𝓛 (lends_items T.row A.row A.Allocator self.entry result) }
        ensures value { result.now ≡ self.old.items }
    {
        self.block.prove_capacity_bounds();
        let len = self.count + self.wrapped;
        let (front, moved) = straighten(&mut self.block, self.front, self.count, self.wrapped);
        self.front = front;
        self.count = len;
        self.wrapped = 0;
        self.added.add(len - moved);
        self.block.slice_mut(front, len)
    }

    /// Moves the items into one slice, as `make_contiguous` does, and returns a double-ended
    /// iterator over mutable references to them, from front to back.
    pub fn iter_mut(&mut self) -> IterMut<'_, T>
        ensures* writes_back { sem 𝓛 (lends_all T.row A.row A.Allocator self.entry result) }
        ensures items { iter_mut_rest result ≡ self.old.items }
        ensures fits_usize { length (iter_mut_rest result) < 2 ^ 64 }
        ensures in_order { IterMutYieldsInOrder T }
        ensures in_reverse { IterMutYieldsInReverse T }
    {
        self.make_contiguous().iter_mut()
    }
}

impl<'a, T, A: Allocator> IntoIterator for &'a mut Ring<T, A> {
    ghost use Rattle.aa_ring.specs.Lends.{lends_all};

    type Item = &'a mut T;

    type IntoIter = IterMut<'a, T>;

    ghost into_iter_gives = { λ ring i. (iter_mut_rest i ≡ ring.now.items)
        × (length (iter_mut_rest i) < 2 ^ 64)
        × IterMutYieldsInOrder T × IterMutYieldsInReverse T };

    /// Returns the same as `iter_mut`, which moves the items into one slice.
    fn into_iter(self) -> IterMut<'a, T>
        ensures* writes_back { sem 𝓛 (lends_all T.row A.row A.Allocator self.entry result) }
        ensures into_iter_gives { (iter_mut_rest result ≡ self.old.items)
            × (length (iter_mut_rest result) < 2 ^ 64)
            × IterMutYieldsInOrder T × IterMutYieldsInReverse T }
    {
        self.iter_mut()
    }
}

// Moves the `wrapped` values at the first places and the `count` values from `front` on into one
// run, the latter first. Returns the place where it begins, and how many values were written.
#[tactic(auto, using(crate::proofs::Rings::straightened))]
fn straighten<T, A: Allocator>(
    block: &mut RawVec<T, A>,
    front: usize,
    count: usize,
    wrapped: usize,
) -> (usize, usize)
    requires { HasParts block.old.places front count wrapped }

    // They are one run now.
    ensures filled { IsRun block.new.places result.0 (count + wrapped) }
    ensures items { run block.new.places result.0 (count + wrapped)
        ≡ run block.old.places front count ++ run block.old.places 0 wrapped }

    // Everything else of the block is as before, but for the number of writes.
    ensures capacity { length block.new.places ≡ length block.old.places }
    ensures kept { (block.new.growth ≡ block.old.growth) × (block.new.grown ≡ block.old.grown)
        × (block.new.alloc ≡ block.old.alloc) }
    ensures written { block.new.written ≡ block.old.written + result.1 }
    ensures few { result.1 ≤ count + wrapped }
{
    if wrapped == 0 {
        return (front, 0);
    }
    block.prove_capacity_bounds();
    let moved = close(block, front, count, wrapped);
    turn(block, wrapped + count, wrapped);
    (0, moved)
}

// Moves the run from `from` on down to the end of the run at the first places. Returns how many
// values were written.
#[tactic(auto, using(allocator_api2::proofs::Blocks::in_runs))]
pub(super) fn close<T, A: Allocator>(
    block: &mut RawVec<T, A>,
    from: usize,
    count: usize,
    others: usize,
) -> usize
    // The two runs are filled, and do not overlap.
    requires { IsRun block.old.places 0 others × IsRun block.old.places from count
        × (others ≤ from) }

    // They are one run now, at the first places.
    ensures filled { IsRun block.new.places 0 (others + count) }
    ensures items { run block.new.places 0 (others + count)
        ≡ run block.old.places 0 others ++ run block.old.places from count }

    // Everything else of the block is as before, but for the number of writes.
    ensures capacity { length block.new.places ≡ length block.old.places }
    ensures kept { (block.new.growth ≡ block.old.growth) × (block.new.grown ≡ block.old.grown)
        × (block.new.alloc ≡ block.old.alloc) }
    ensures written { block.new.written ≡ block.old.written + result }
    ensures few { result ≤ count }
{
    block.move_run(from, others, count);
    if from == others { 0 } else { count }
}

// Rotates the first `len` values of the block to the left by `by`.
#[tactic(auto, using(crate::proofs::Rings::rewritten))]
pub(super) fn turn<T, A: Allocator>(block: &mut RawVec<T, A>, len: usize, by: usize)
    requires { IsRun block.old.places 0 len × (by ≤ len) }
    ensures filled { IsRun block.new.places 0 len }
    ensures items { let before = run block.old.places 0 len in
        run block.new.places 0 len ≡ drop by before ++ take by before }
    ensures kept { block.new ≡ with_places block.old block.new.places }
    ensures capacity { length block.new.places ≡ length block.old.places }
{
    rotate(block.slice_mut(0, len), by);
}

// Rotates a slice to the left by `by`.
#[tactic(auto, using(crate::proofs::Rings::turned))]
fn rotate<T>(items: &mut [T], by: usize)
    requires { by ≤ length items.old }
    ensures { items.new ≡ drop by items.old ++ take by items.old }
{
    let rest = items.len() - by;
    items.reverse();
    let (first, others) = items.split_at_mut(rest);
    first.reverse();
    others.reverse();
}
