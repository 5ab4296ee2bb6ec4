//! `PeekMut`: the greatest item of a heap, to be read, changed or removed.
ghost use Rattle.std.specs.Prelude.{◌≡◌, ◌-◌, ◌∷◌, slice_get, Some, IfSome, IsPermutation, IsSome, ◌↔◌, ◌<◌};
ghost use Rattle.std_alloc.specs.BinaryHeap.{IsHeap, IsUpperBound};
ghost use Rattle.allocator_api2.specs.Vector.{len, Becomes, HasRoom, run_count};

use crate::heap::Heap;
use std::alloc::{Allocator, Global};
use std::fmt;
use std::fmt::{Debug, Formatter};
use std::ops::{Deref, DerefMut};

/// The greatest item of a heap, taken out until this is dropped.
///
/// Returned by `Heap::peek_mut`. Dropping it adds the item, as it is then, without an allocation.
/// Forgetting it leaks the item. Contracts see the `item`, and the borrowed heap of the others.
pub struct PeekMut<'a, T: Ord, A: Allocator = Global> {
    heap: &'a mut Heap<T, A>,
    item: T,
}

impl<T: Ord, A: Allocator> Heap<T, A> {
    ghost use Rattle.std.specs.Borrow.{sem};
    ghost use Rattle.aa_heap.specs.Peek.{peeked, peek_heap, peek_lender, rests_if_empty};

    /// Returns the greatest item to be read, changed or removed, or `None` if the heap is empty.
    ///
    /// It is taken out as by `pop`, and added as by `push` once the result is dropped, so both take
    /// their time. Does not allocate, and does not change the capacity.
    pub fn peek_mut(&mut self) -> Option<PeekMut<'_, T, A>>
        // It borrows the heap, without its first item, which is no less than any other.
        ensures some { IsSome result ↔ (0 < len self.old) }
        ensures lender { IfSome result (λ p. peek_lender p ≡ self.entry.ghost_name) }
        ensures first { IfSome result (λ p. slice_get self.old.items 0 ≡ Some (peeked p)) }
        ensures greatest { IfSome result (λ p. IsUpperBound T.cmp (peeked p) self.old.items) }
        ensures others { IfSome result
            (λ p. IsPermutation self.old.items (peeked p ∷ (peek_heap p).items)) }
        ensures taken { let moved = run_count (len self.old - 1) in IfSome result
            (λ p. Becomes self.old (peek_heap p).items moved moved (peek_heap p)) }
        ensures room { IfSome result (λ p. HasRoom (peek_heap p) 1) }

        // An empty heap is unchanged.
        ensures* empty { sem 𝓛 (rests_if_empty T.row A.row T.Ord A.Allocator self.entry
            result) }
    {
        // The contract of `len` says that the number of items is within the capacity.
        let _len = self.len();
        let item = self.pop()?;
        Some(PeekMut { heap: self, item })
    }
}

impl<T: Ord + Drop, A: Allocator> Heap<T, A> {
    // Adds an item if it fits.
    fn put_back(&mut self, item: T)
        ensures items { HasRoom self.old 1 → IsPermutation (item ∷ self.old.items) self.new.items }
        ensures added { HasRoom self.old 1 → Becomes self.old self.new.items 1 1 self.new }
        ensures order { IsHeap T.cmp self.new.items }
    {
        let _added = self.push(item);
    }
}

impl<'a, T: Ord, A: Allocator> PeekMut<'a, T, A> {
    ghost use Rattle.aa_heap.specs.Peek.{peeked, peek_heap};

    /// Removes the item from the heap and returns it.
    ///
    /// Does not allocate.
    pub fn pop(this: PeekMut<'a, T, A>) -> T
        ensures item { result ≡ peeked this.entry }
        ensures others { this.exit.0.now ≡ peek_heap this.entry }
    {
        let PeekMut { heap: _, item } = this;
        item
    }
}

impl<'a, T: Ord, A: Allocator> Deref for PeekMut<'a, T, A> {
    type Target = T;

    ghost use Rattle.aa_heap.specs.Peek.{peeked};

    ghost deref_gives = { λ p x. x ≡ peeked p };

    /// Returns a reference to the item.
    fn deref(&self) -> &T
        ensures { result.now ≡ peeked self.now }
    {
        &self.item
    }
}

impl<'a, T: Ord, A: Allocator> DerefMut for PeekMut<'a, T, A> {
    ghost use Rattle.std.specs.Borrow.{sem};
    ghost use Rattle.aa_heap.specs.Peek.{lends_item, peeked};

    ghost deref_mut_gives = { λ p x. x ≡ peeked p };

    /// Returns a mutable reference to the item.
    ///
    /// The last item written through it is added to the heap when this is dropped.
    fn deref_mut(&mut self) -> &mut T
        ensures* writes_back { sem 𝓛 (lends_item T.row A.row T.Ord A.Allocator self.entry result) }
        ensures value { result.now ≡ peeked self.old }
    {
        &mut self.item
    }
}

impl<'a, T: Ord + Debug, A: Allocator> Debug for PeekMut<'a, T, A> {
    /// Formats the item.
    fn fmt<W: fmt::Write>(&self, f: &mut Formatter<W>) -> fmt::Result {
        f.debug_tuple("PeekMut").field(&self.item).finish()
    }
}

impl<'a, T: Ord + Drop, A: Allocator> Drop for PeekMut<'a, T, A> {
    ghost use Rattle.aa_heap.specs.Peek.{peeked, peek_heap};

    /// Adds the item to the heap, which has capacity for it since it was taken out.
    fn drop(self)
        ensures items { HasRoom (peek_heap self.entry) 1
            → IsPermutation (peeked self.entry ∷ (peek_heap self.entry).items)
            self.exit.0.now.items }
        ensures added { HasRoom (peek_heap self.entry) 1
            → Becomes (peek_heap self.entry) self.exit.0.now.items 1 1 self.exit.0.now }
        ensures order { IsHeap T.cmp self.exit.0.now.items }
    {
        let PeekMut { heap, item } = self;
        heap.put_back(item);
    }
}
