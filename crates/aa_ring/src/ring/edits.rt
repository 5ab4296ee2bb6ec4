//! Items inserted, removed and exchanged anywhere in a ring.
ghost use Rattle.std.specs.Prelude.{◌≡◌, ◌+◌, ◌-◌, ◌^◌, ◌<◌, ◌≤◌, length, insert, remove, min, swap_remove, slice_get, slice_set, IfErr, IfNone, IfSome, IsOk, OnErr, OnOk, Some};
ghost use Rattle.std.specs.Mem.{type_size};
ghost use Rattle.allocator_api2.specs.Vector.{run_count};
ghost use Rattle.std.specs.List.{swap};
ghost use Rattle.aa_ring.specs.RingInner.{place_at};
ghost use Rattle.aa_ring.specs.Ringed.{swap_remove_front, with_items, with_written, with_room, HasRoom, LacksRoom};

use crate::ring::Ring;
use allocator_api2::collections::Refused;
use std::alloc::Allocator;
use std::mem;

impl<T, A: Allocator> Ring<T, A> {
    /// Inserts `item` at `index`, which must be at most the length.
    ///
    /// Allocates only if the ring is full, and then as `reserve(1)` does. Moves the items before
    /// `index` or those from there on, whichever are fewer.
    ///
    /// # Errors
    /// `CapacityOverflow` or `AllocError`, as `reserve(1)` returns them. The ring is unchanged and
    /// `item` is returned in the error.
    pub fn insert(&mut self, index: usize, item: T) -> Result<(), Refused<T>>
        // The index is at most the length.
        requires { index ≤ length self.old.items }

        // If one more item fits, the call succeeds.
        ensures fits { HasRoom self.old 1 → IsOk result }
        ensures inserted { let xs = self.old.items in
            let roomy = with_room (type_size T.row) self.old 1 in
            let moved = min index (length xs - index) in
            OnOk result (self.new ≡ with_written roomy (insert xs index item) (moved + 1)) }

        // Failure changes nothing, and returns the item.
        ensures returned { IfErr result (λ r. r.source ≡ item) }
        ensures error { IfErr result (λ r. LacksRoom (type_size T.row) self.old 1 r.error) }
        ensures unchanged { OnErr result (self.new ≡ self.old) }
    {
        if let Err(error) = self.reserve(1) {
            return Err(Refused {
                source: item,
                error,
            });
        }
        if index <= self.len() - index {
            self.insert_from_front(index, item);
        } else {
            self.insert_from_back(index, item);
        }
        Ok(())
    }

    // Inserts `item`, which must fit, at `index`. The items before it move to the front.
    #[tactic(auto, using(crate::proofs::Carrying::carried))]
    fn insert_from_front(&mut self, index: usize, item: T)
        requires within { index ≤ length self.old.items }
        requires room { HasRoom self.old 1 }
        ensures { let xs = self.old.items in
            self.new ≡ with_written self.old (insert xs index item) (index + 1) }
    {
        let mut carried = item;
        let mut at = index;
        'each: while at > 0 {
            at -= 1;
            carried = self.exchange(at, carried);
        }
        self.put_front(carried);
    }

    // Inserts `item`, which must fit, at `index`. The items from there on move to the back.
    #[tactic(auto, using(crate::proofs::Carrying::carried))]
    fn insert_from_back(&mut self, index: usize, item: T)
        requires within { index ≤ length self.old.items }
        requires room { HasRoom self.old 1 }
        ensures { let xs = self.old.items in
            self.new ≡ with_written self.old (insert xs index item) (length xs - index + 1) }
    {
        let mut carried = item;
        'each: for at in index..self.len() {
            carried = self.exchange(at, carried);
        }
        self.put_back(carried);
    }

    /// Removes the item at `index` and returns it, or returns `None` if there is none.
    ///
    /// The first item is at index 0. Does not allocate, and does not change the capacity. Moves the
    /// items before it or those after it by one place, whichever are fewer.
    pub fn remove(&mut self, index: usize) -> Option<T>
        ensures value { result ≡ slice_get self.old.items index }
        ensures removed { let xs = self.old.items in
            let moved = min index (length xs - index - 1) in
            self.new ≡ with_written self.old (remove xs index) moved }
    {
        let len = self.len();
        if index >= len {
            return None;
        }
        if index <= len - index - 1 {
            return Some(self.remove_from_front(index));
        }
        Some(self.remove_from_back(index))
    }

    // Removes the item at `index` and returns it. The items before it move to the back.
    #[tactic(auto, using(crate::proofs::Carrying::carried))]
    fn remove_from_front(&mut self, index: usize) -> T
        requires { index < length self.old.items }
        ensures value { slice_get self.old.items index ≡ Some result }
        ensures removed { self.new ≡ with_written self.old (remove self.old.items index) index }
    {
        let Some(first) = self.pop_front() else {
            unreachable!();
        };
        let mut carried = first;
        'each: for at in 0..index {
            carried = self.exchange(at, carried);
        }
        carried
    }

    // Removes the item at `index` and returns it. The items after it move to the front.
    #[tactic(auto, using(crate::proofs::Carrying::carried))]
    fn remove_from_back(&mut self, index: usize) -> T
        requires { index < length self.old.items }
        ensures value { slice_get self.old.items index ≡ Some result }
        ensures removed { let xs = self.old.items in
            self.new ≡ with_written self.old (remove xs index) (length xs - index - 1) }
    {
        let Some(last) = self.pop_back() else {
            unreachable!();
        };
        let mut carried = last;
        let mut at = self.len();
        'each: while at > index {
            at -= 1;
            carried = self.exchange(at, carried);
        }
        carried
    }

    /// Removes the item at `index` and returns it, or returns `None` if there is none. The last
    /// item takes its place.
    ///
    /// Moves at most one item. Does not allocate, and does not change the capacity.
    #[tactic(auto, using(crate::proofs::Swapping::swapped))]
    pub fn swap_remove_back(&mut self, index: usize) -> Option<T>
        ensures value { result ≡ slice_get self.old.items index }
        ensures removed { IfSome result (λ x. let xs = self.old.items in
            let moved = run_count (length xs - index - 1) in
            self.new ≡ with_written self.old (swap_remove xs index x) moved) }
        ensures unchanged { IfNone result (self.new ≡ self.old) }
    {
        let len = self.len();
        if index >= len {
            return None;
        }
        let last = self.pop_back();
        if index == len - 1 {
            return last;
        }
        match last {
            Some(item) => Some(self.exchange(index, item)),
            None => unreachable!(),
        }
    }

    /// Removes the item at `index` and returns it, or returns `None` if there is none. The first
    /// item takes its place.
    ///
    /// Moves at most one item. Does not allocate, and does not change the capacity.
    #[tactic(auto, using(crate::proofs::Swapping::swapped))]
    pub fn swap_remove_front(&mut self, index: usize) -> Option<T>
        ensures value { result ≡ slice_get self.old.items index }
        ensures removed { IfSome result (λ x. let xs = self.old.items in
            self.new ≡ with_written self.old (swap_remove_front xs index x) (run_count index)) }
        ensures unchanged { IfNone result (self.new ≡ self.old) }
    {
        if index >= self.len() {
            return None;
        }
        let first = self.pop_front();
        if index == 0 {
            return first;
        }
        match first {
            Some(item) => Some(self.exchange(index - 1, item)),
            None => unreachable!(),
        }
    }

    /// Exchanges the items at `i` and `j`.
    ///
    /// Both indices are below the length. Nothing is counted as written.
    #[tactic(auto, using(crate::proofs::Rings::counted))]
    pub fn swap(&mut self, i: usize, j: usize)
        requires { (i < length self.old.items) × (j < length self.old.items) }
        ensures { self.new ≡ with_items self.old (swap self.old.items i j) }
    {
        if i == j {
            return;
        }
        self.block.prove_capacity_bounds();
        let first = place_of(self.front, self.count, i);
        let second = place_of(self.front, self.count, j);
        self.block.pair_with(
            first,
            second,
            &mut |x: &mut T, y: &mut T|
                ensures { (x.new ≡ y.old) × (y.new ≡ x.old) }
            { mem::swap(x, y) },
        );
    }

    // Replaces the item at `index` by `item`, which counts as written, and returns the old one.
    pub(crate) fn exchange(&mut self, index: usize, item: T) -> T
        requires { index < length self.old.items }
        ensures value { slice_get self.old.items index ≡ Some result }
        ensures replaced { let xs = slice_set self.old.items index item in
            self.new ≡ with_written self.old xs 1 }
    {
        self.added.add(1);
        mem::replace(self.item_mut(index), item)
    }
}

// Returns the place of the item at `index`, if the first `count` items are at the places from
// `front` on, and the others at the first places.
fn place_of(front: usize, count: usize, index: usize) -> usize
    requires { front + count < 2 ^ 64 }
    ensures { result ≡ place_at front count index }
{
    if index < count {
        return front + index;
    }
    index - count
}
