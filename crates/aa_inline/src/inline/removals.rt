//! Items removed: those after a length, all of them, one that the last item replaces, or those for
//! which a closure returns `false`.
ghost use Rattle.std.specs.Prelude.{◌≡◌, ◌-◌, ◌<◌, Bool, List, Some, [], ◌∷◌, ◌++◌, filter, length, slice_get, swap_remove, take};
ghost use Rattle.std.specs.Fn.{CalledAt, CalledAtMut, FnOnceReturnsAtMut, FnOnceTakesAtMut, TakesAt};
ghost use Rattle.allocator_api2.specs.Choosing.{CallableAtMut, IsCallableInOrder, Reads};
ghost use Rattle.allocator_api2.specs.Vector.{run_count};
ghost use Rattle.aa_inline.specs.Inlined.{with_items, with_written};
ghost use Rattle.aa_inline.specs.Retaining.{PopsIf, Retains};

use crate::inline::{Data, InlineVec};
use std::alloc::Allocator;
use std::default::MadeWith;

impl<T: MadeWith<A> + Drop, A: Allocator + Copy, const N: usize> InlineVec<T, A, N> {
    /// Keeps the first `len` items, and drops the others.
    ///
    /// Does nothing if there are no more than `len`. Does not allocate: the items remain inline, or
    /// in the block.
    pub fn truncate(&mut self, len: usize)
        ensures truncated { self.new ≡ with_items self.old (take len self.old.items) }
    {
        match &mut self.data {
            Data::InPlace(few, alloc) => return few.truncate(len, *alloc),
            Data::InBlock(heap) => heap.truncate(len),
        }
    }

    /// Removes and drops all items.
    ///
    /// Does not allocate, and does not change the capacity.
    pub fn clear(&mut self)
        ensures emptied { self.new ≡ with_items self.old [] }
    {
        self.truncate(0);
    }

    /// Removes the item at `index` and returns it, replacing it with the last item.
    ///
    /// Moves at most one item. Does not allocate.
    pub fn swap_remove(&mut self, index: usize) -> T
        requires { index < length self.old.items }
        ensures value { slice_get self.old.items index ≡ Some result }
        ensures removed { let moved = run_count (length self.old.items - index - 1) in
            let xs = swap_remove self.old.items index result in
            self.new ≡ with_written self.old xs moved }
    {
        match &mut self.data {
            Data::InPlace(few, alloc) => return few.swap_remove(index, T::made_with(*alloc)),
            Data::InBlock(heap) => heap.swap_remove(index),
        }
    }

    /// Removes the last item and returns it, if `predicate` returns `true` for it.
    ///
    /// `predicate` is called once, if there is an item, and the item is left or returned as
    /// `predicate` leaves it. Does not allocate, and does not move the other items.
    pub fn pop_if<F: FnOnce(&mut T) -> bool>(&mut self, predicate: F) -> Option<T>
        requires { (others : List T) (last : T) → self.old.items ≡ others ++ last ∷ []
            → FnOnceTakesAtMut F.FnOnce predicate last }
        ensures popped { PopsIf (FnOnceReturnsAtMut F.FnOnce) predicate
            self.old.items result self.new.items }
        ensures kept { self.new ≡ with_items self.old self.new.items }
    {
        let len = self.len();
        if len == 0 {
            return None;
        }
        if call_once_on(predicate, self.item_mut(len - 1)) {
            return self.pop();
        }
        None
    }

    /// Keeps only the items for which `f` returns `true`, in order, and drops the others.
    ///
    /// `f` is called once for each item, in order. Does not allocate: the items remain inline, or
    /// in the block.
    pub fn retain<F: FnMut(&T) -> bool + Drop>(&mut self, mut f: F)
        requires { IsCallableInOrder (Reads F.FnMut) (TakesAt F.FnMut) f self.old.items }
        ensures retained { (last : F) × Retains (Reads F.FnMut) f self.old last self.new }
        ensures pure_test { (test : T → Bool) → ((x : T) (res : Bool) (g : F)
            → CalledAt F.FnMut f x res g → (res ≡ test x) × (g ≡ f))
            → self.new.items ≡ filter test self.old.items }
    {
        self.retain_by(
            &mut move |item: &mut T|
                requires { TakesAt F.FnMut f item.old }
                ensures { Reads F.FnMut f.entry item.old result f.exit item.new }
            { f(item) },
        );
    }

    /// Keeps only the items for which `f` returns `true`, in order, and lets `f` change them.
    ///
    /// `f` is called once for each item, in order. Each item is kept or dropped as `f` leaves it.
    /// Does not allocate: the items remain inline, or in the block.
    pub fn retain_mut<F: FnMut(&mut T) -> bool + Drop>(&mut self, mut f: F)
        requires { IsCallableInOrder (CalledAtMut F.FnMut)
            (CallableAtMut F.FnMut) f self.old.items }
        ensures { (last : F) × Retains (CalledAtMut F.FnMut) f self.old last self.new }
    {
        self.retain_by(&mut f);
    }

    /// Like `retain_mut`, but takes the closure by `&mut`, so that contracts describe its final
    /// state.
    ///
    /// Keeps only the items for which `keep` returns `true`. It is called once for each item, in
    /// order. Each item is kept or dropped as `keep` leaves it. Does not allocate: the items remain
    /// inline, or in the block.
    pub fn retain_by<F: FnMut(&mut T) -> bool>(&mut self, keep: &mut F)
        requires { IsCallableInOrder (CalledAtMut F.FnMut)
            (CallableAtMut F.FnMut) keep.old self.old.items }
        ensures { Retains (CalledAtMut F.FnMut) keep.old self.old keep.new self.new }
    {
        match &mut self.data {
            Data::InPlace(few, alloc) => return few.retain_by(keep, *alloc),
            Data::InBlock(heap) => heap.retain_by(keep),
        }
    }
}

// Calls `f` at `item`.
#[inline(always)]
fn call_once_on<T, F: FnOnce(&mut T) -> bool>(f: F, item: &mut T) -> bool
    requires { FnOnceTakesAtMut F.FnOnce f item.old }
    ensures { FnOnceReturnsAtMut F.FnOnce f item.old result item.new }
{
    f(item)
}
