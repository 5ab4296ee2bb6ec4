//! Lists of at most 64 items each, in the leaves of one block.
ghost use Rattle.std.specs.Prelude.{◌≡◌, ◌+◌, ◌-◌, ◌*◌, ◌^◌, ◌<◌, ◌≤◌, [], ◌∷◌, ◌++◌, length, take, drop, slice_get, slice_set, Some, IsTrue, ◌↔◌};
ghost use Rattle.std.specs.Borrow.{sem};
ghost use Rattle.std.specs.List.{All};
ghost use Rattle.aa_ordered.specs.Leaves.{list_at, replaced, with_list, with_lists};

use allocator_api2::counter::Counter;
use allocator_api2::raw_vec::RawVec;
use allocator_api2::vec::Vec;
use std::alloc::Allocator;
use std::marker::Model;
use std::mem;

mod heads;
mod lending;
mod moves;
mod room;
mod slices;
pub(crate) mod taking;

use slices::Slices;

/// The number of places of a leaf.
pub(crate) const LEAF: usize = 64;

/// A leaf of the block, and the number of its items.
#[derive(Clone, Copy, Drop)]
pub(crate) struct Head {
    pub(crate) leaf: usize,
    pub(crate) len: usize,
}

/// Lists of at most 64 items each, in the leaves of one block.
///
/// A contract sees the lists, in order, the number of leaves, and the number of times that the lists
/// moved to new blocks. No function allocates, except `try_reserve` and `shrink_to`.
pub struct Leaves<T, A: Allocator> {
    block: RawVec<T, A>,
    // a head for each leaf: first those of the lists, in order, and then those of the free leaves
    heads: Vec<Head, A>,
    used: usize,
    // how often the lists moved to new blocks
    resizes: Counter,
}

impl<T, A: Allocator> Model for Leaves<T, A> {
    ghost use Rattle.aa_ordered.specs.Leaves.{LeavesView};

    ghost Value = { LeavesView T };

    ghost use Rattle.aa_ordered.specs.Arena.{view_of, IsWhole};

    ghost view = { view_of };

    ghost invariant = { IsWhole };
}

impl<T, A: Allocator> Leaves<T, A> {
    ghost use Rattle.aa_ordered.specs.LeavesLends.{lends_item};

    /// Returns an arena with no lists and no leaves, over an allocator and a clone of it.
    ///
    /// Does not allocate.
    pub fn new_in(alloc: A, other: A) -> Self
        ensures { result ≡ record { lists = []; room = 0; resizes = 0 } }
    {
        Leaves {
            block: RawVec::new_in(alloc),
            heads: Vec::new_in(other),
            used: 0,
            resizes: Counter::zero(),
        }
    }

    /// Returns the number of lists.
    #[inline(always)]
    pub fn len(&self) -> usize
        ensures count { result ≡ length self.now.lists }
        ensures within { result ≤ self.now.room }
    {
        self.used
    }

    /// Returns the number of leaves: the most lists without another allocation.
    #[inline(always)]
    pub fn room(&self) -> usize
        ensures { result ≡ self.now.room }
    {
        self.heads.len()
    }

    /// Proves the bounds of the lists, and does nothing at run time.
    ///
    /// Each list has at most 64 items, and there are at most `usize::MAX` in all leaves.
    #[inline(always)]
    pub fn prove_bounds(&self)
        ensures lists { All (λ l. length l ≤ 64) self.now.lists }
        ensures within { length self.now.lists ≤ self.now.room }
        ensures room { self.now.room * 64 < 2 ^ 64 }
    {
        self.block.prove_capacity_bounds();
    }

    /// Returns a reference to the underlying allocator.
    pub fn allocator(&self) -> &A {
        self.block.allocator()
    }

    /// Returns the list at index `i` as a slice.
    #[inline]
    #[tactic(auto, using(crate::proofs::Arena::in_arena))]
    pub fn list(&self, i: usize) -> &[T]
        requires { i < length self.now.lists }
        ensures list { result.now ≡ list_at self.now i }
        ensures get { slice_get self.now.lists i ≡ Some result.now }
        ensures within { length result.now ≤ 64 }
    {
        let head = self.heads[i];
        self.block.prove_capacity_bounds();
        self.block.slice(head.leaf * LEAF, head.len)
    }

    /// Returns a mutable reference to the item at index `at` of the list at index `i`.
    #[inline]
    pub fn item_mut(&mut self, i: usize, at: usize) -> &mut T
        requires list { i < length self.old.lists }
        requires within { at < length (list_at self.old i) }
        ensures* writes_back { sem 𝓛 (lends_item T.row A.row A.Allocator self.entry i at result) }
        ensures value { slice_get (list_at self.old i) at ≡ Some result.now }
    {
        let head = self.heads[i];
        self.block.prove_capacity_bounds();
        self.block.place_mut(head.leaf * LEAF + at)
    }

    /// Inserts `item` at index `at` of the list at index `i`, which has fewer than 64 items.
    ///
    /// Moves the items of the list from there on up by one.
    #[inline]
    #[tactic(auto, using(crate::proofs::Arena::in_arena))]
    pub fn insert(&mut self, i: usize, at: usize, item: T)
        requires list { i < length self.old.lists }
        requires within { at ≤ length (list_at self.old i) }
        requires room { length (list_at self.old i) < 64 }
        ensures { let xs = list_at self.old i in
            self.new ≡ with_list self.old i (take at xs ++ item ∷ drop at xs) }
    {
        let head = self.heads[i];
        moves::insert_at(&mut self.block, head.leaf, head.len, at, item);
        self.heads[i] = Head {
            leaf: head.leaf,
            len: head.len + 1,
        };
    }

    /// Removes the item at index `at` of the list at index `i`, and returns it.
    ///
    /// Moves the items of the list after it down by one. The list may be empty then.
    pub fn remove(&mut self, i: usize, at: usize) -> T
        requires list { i < length self.old.lists }
        requires within { at < length (list_at self.old i) }
        ensures item { slice_get (list_at self.old i) at ≡ Some result }
        ensures removed { let xs = list_at self.old i in
            self.new ≡ with_list self.old i (take at xs ++ drop (at + 1) xs) }
    {
        let head = self.heads[i];
        let item = moves::remove_at(&mut self.block, head.leaf, head.len, at);
        self.heads[i] = Head {
            leaf: head.leaf,
            len: head.len - 1,
        };
        item
    }

    /// Replaces the item at index `at` of the list at index `i`, and returns the old one.
    pub fn replace(&mut self, i: usize, at: usize, item: T) -> T
        requires list { i < length self.old.lists }
        requires within { at < length (list_at self.old i) }
        ensures old { slice_get (list_at self.old i) at ≡ Some result }
        ensures replaced { self.new
            ≡ with_list self.old i (slice_set (list_at self.old i) at item) }
    {
        mem::replace(self.item_mut(i, at), item)
    }

    /// Adds a list with `item` alone, after the other lists, in a free leaf.
    pub fn push_list(&mut self, item: T)
        requires { length self.old.lists < self.old.room }
        ensures { self.new ≡ with_lists self.old (self.old.lists ++ (item ∷ []) ∷ []) }
    {
        let used = self.used;
        let head = self.heads[used];
        self.block.prove_capacity_bounds();
        self.block.put(head.leaf * LEAF, item);
        self.heads[used] = Head {
            leaf: head.leaf,
            len: 1,
        };
        self.used = used + 1;
    }

    /// Adds the first list, with `item` alone.
    pub fn add_first(&mut self, item: T)
        requires none { self.old.lists ≡ [] }
        requires room { 0 < self.old.room }
        ensures { self.new ≡ with_lists self.old ((item ∷ []) ∷ []) }
    {
        self.push_list(item);
    }

    /// Splits the list at index `i` into its first `at` items and the others.
    ///
    /// Moves the others to a free leaf.
    pub fn split(&mut self, i: usize, at: usize)
        requires list { i < length self.old.lists }
        requires within { at ≤ length (list_at self.old i) }
        requires room { length self.old.lists < self.old.room }
        ensures { let xs = list_at self.old i in
            self.new ≡ with_lists self.old
            (replaced self.old.lists i 1 (take at xs ∷ drop at xs ∷ [])) }
    {
        let used = self.used;
        let head = self.heads[i];
        let free = self.heads[used];
        let count = head.len - at;
        moves::move_up(&mut self.block, head.leaf, head.len, count, free.leaf, 0);
        self.heads[used] = Head {
            leaf: free.leaf,
            len: count,
        };
        self.heads[i] = Head {
            leaf: head.leaf,
            len: at,
        };
        heads::move_down(self.heads.as_mut_slice(), used, i + 1);
        self.used = used + 1;
    }

    /// Moves the last `k` items of the list at index `i` to the front of the next list.
    pub fn shift(&mut self, i: usize, k: usize)
        requires lists { i + 1 < length self.old.lists }
        requires within { k ≤ length (list_at self.old i) }
        requires room { length (list_at self.old (i + 1)) + k ≤ 64 }
        ensures { let xs = list_at self.old i in let n = length xs - k in
            self.new ≡ with_lists self.old (replaced self.old.lists i 2
            (take n xs ∷ (drop n xs ++ list_at self.old (i + 1)) ∷ [])) }
    {
        let from = self.heads[i];
        let to = self.heads[i + 1];
        moves::move_up(&mut self.block, from.leaf, from.len, k, to.leaf, to.len);
        self.heads[i] = Head {
            leaf: from.leaf,
            len: from.len - k,
        };
        self.heads[i + 1] = Head {
            leaf: to.leaf,
            len: to.len + k,
        };
    }

    /// Moves the first `k` items of the list after index `i` to the end of the list at `i`.
    pub fn shift_back(&mut self, i: usize, k: usize)
        requires lists { i + 1 < length self.old.lists }
        requires within { k ≤ length (list_at self.old (i + 1)) }
        requires room { length (list_at self.old i) + k ≤ 64 }
        ensures { let ys = list_at self.old (i + 1) in
            self.new ≡ with_lists self.old (replaced self.old.lists i 2
            ((list_at self.old i ++ take k ys) ∷ drop k ys ∷ [])) }
    {
        let to = self.heads[i];
        let from = self.heads[i + 1];
        moves::move_down(&mut self.block, from.leaf, from.len, k, to.leaf, to.len);
        self.heads[i] = Head {
            leaf: to.leaf,
            len: to.len + k,
        };
        self.heads[i + 1] = Head {
            leaf: from.leaf,
            len: from.len - k,
        };
    }

    /// Removes the empty list at index `i`. Its leaf is free then.
    pub fn drop_list(&mut self, i: usize)
        requires list { i < length self.old.lists }
        requires empty { list_at self.old i ≡ [] }
        ensures { self.new ≡ with_lists self.old (replaced self.old.lists i 1 []) }
    {
        let last = self.used - 1;
        heads::move_up(self.heads.as_mut_slice(), i, last);
        self.used = last;
    }

    /// Joins the list at index `i` and the next one, which together have at most 64 items.
    ///
    /// Moves the items of the next one. Its leaf is free then.
    pub fn join(&mut self, i: usize)
        requires lists { i + 1 < length self.old.lists }
        requires room { length (list_at self.old i) + length (list_at self.old (i + 1)) ≤ 64 }
        ensures { let xs = list_at self.old i in let ys = list_at self.old (i + 1) in
            self.new ≡ with_lists self.old
            (replaced self.old.lists i 2 ((xs ++ ys) ∷ [])) }
    {
        self.prove_bounds();
        let count = self.list(i + 1).len();
        self.shift_back(i, count);
        self.drop_list(i + 1);
    }
}

impl<T, A: Allocator> Leaves<T, A> {
    /// Returns a double-ended iterator over the lists, as slices.
    pub fn slices(&self) -> Slices<'_, T, A>
        ensures { result ≡ self.now.lists }
    {
        Slices {
            block: &self.block,
            heads: &self.heads.as_slice()[..self.used],
        }
    }
}

impl<T: Drop, A: Allocator> Leaves<T, A> {
    /// Removes all lists and drops their items, in order.
    ///
    /// Does not allocate, and does not change the number of leaves.
    pub fn clear(&mut self)
        ensures { self.new ≡ with_lists self.old [] }
    {
        let used = self.used;
        self.used = 0;
        moves::drop_lists(&mut self.block, &self.heads.as_slice()[..used]);
    }
}

impl<T: Drop, A: Allocator> Drop for Leaves<T, A> {
    /// Drops the items of all lists, in order.
    #[tactic(auto, using(allocator_api2::proofs::Blocks::emptied))]
    fn drop(self) {
        let Leaves {
            mut block,
            heads,
            used,
            resizes: _,
        } = self;
        moves::drop_lists(&mut block, &heads.as_slice()[..used]);
        block.forget_from(0);
        drop(heads);
    }
}
