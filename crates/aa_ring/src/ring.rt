//! `Ring`: a double-ended queue.
ghost use Rattle.std.specs.Prelude.{◌≡◌, ◌<◌, ◌≤◌, [], ◌∷◌, ◌++◌, length, take, slice_get, option_copied, IfErr, IfOk, OnErr, OnOk, IsOk, IsTrue, MatchOption, ◌↔◌};
ghost use Rattle.std.specs.Mem.{type_size};
ghost use Rattle.allocator_api2.specs.Errors.{AllocationFails};
ghost use Rattle.aa_ring.specs.Ringed.{empty, with_written, with_room, HasRoom, LacksRoom};

use allocator_api2::collections::{Refused, TryReserveError};
use allocator_api2::counter::Counter;
use allocator_api2::raw_vec::{Growth, RawVec};
pub use compare::{compare_items, partial_compare_items, same, same_as_slice};
use std::alloc::{Allocator, Global};
use std::marker::Model;

mod access;
mod compare;
mod contiguous;
mod edits;
mod format;
mod made;
mod many;
mod pops;
mod reserve;
mod resize;
mod retain;
mod search;
mod shrink;
mod split;
mod turns;
mod vectors;

/// A double-ended queue over the allocator `A`.
///
/// The items are in one circular block. It grows when it is full and one more item is pushed:
/// unless another growth policy was chosen, it doubles.
pub struct Ring<T, A: Allocator = Global> {
    block: RawVec<T, A>,
    // The first `count` items are at the places from `front` on.
    front: usize,
    count: usize,
    // The `wrapped` items after them are at the first places of the block.
    wrapped: usize,
    // What `make_contiguous` counts as written beyond what the block counts.
    added: Counter,
}

impl<T, A: Allocator> Model for Ring<T, A> {
    ghost use Rattle.aa_ring.specs.Ringed.{Ringed};

    ghost Value = { Ringed T A };

    ghost use Rattle.aa_ring.specs.RingInner.{view_of, IsRing};

    ghost view = { view_of };

    ghost invariant = { IsRing };
}

#[tactic(auto, using(crate::proofs::Rings::counted))]
impl<T, A: Allocator> Ring<T, A> {
    ghost use Rattle.allocator_api2.specs.declared.raw_vec.Growth.TheVariants.{Doubling};

    /// Returns an empty ring.
    ///
    /// Does not allocate.
    #[tactic(auto, using(allocator_api2::proofs::Blocks::with_room))]
    pub fn new_in(alloc: A) -> Self
        ensures { result ≡ empty (type_size T.row) 0 Doubling alloc }
    {
        Ring::from_block(RawVec::new_in(alloc))
    }

    /// Returns an empty ring with the growth policy `growth`.
    ///
    /// Does not allocate. By the policy `InPlace`, a full ring whose first item is in the first
    /// place grows in place, if its allocator can.
    #[tactic(auto, using(allocator_api2::proofs::Blocks::with_room))]
    pub fn with_growth_in(growth: Growth, alloc: A) -> Self
        ensures { result ≡ empty (type_size T.row) 0 growth alloc }
    {
        Ring::from_block(RawVec::with_growth_in(growth, alloc))
    }

    /// Returns an empty ring with capacity for exactly `capacity` items.
    ///
    /// Allocates if `capacity` is above 0, except for zero-sized items.
    ///
    /// # Errors
    /// `CapacityOverflow`, or `AllocError` with `capacity`, if the allocation fails.
    #[tactic(auto, using(allocator_api2::proofs::Blocks::with_room))]
    pub fn with_capacity_in(capacity: usize, alloc: A) -> Result<Self, TryReserveError>
        ensures made { IfOk result (λ r. r ≡ empty (type_size T.row) capacity Doubling alloc) }
        ensures error { IfErr result (AllocationFails capacity (type_size T.row)) }
    {
        Ok(Ring::from_block(RawVec::with_capacity_in(capacity, alloc)?))
    }

    // Returns an empty ring that owns `block`.
    #[tactic(auto, using(allocator_api2::proofs::Blocks::with_room))]
    fn from_block(block: RawVec<T, A>) -> Self
        ensures { result ≡ record {
          items = [];
          capacity = length block.places;
          growth = block.growth;
          grown = block.grown;
          written = block.written;
          alloc = block.alloc;
        } }
    {
        Ring {
            block,
            front: 0,
            count: 0,
            wrapped: 0,
            added: Counter::zero(),
        }
    }

    /// Returns the number of items.
    pub fn len(&self) -> usize
        ensures count { result ≡ length self.now.items }
        ensures within { result ≤ self.now.capacity }
    {
        self.block.prove_capacity_bounds();
        self.count + self.wrapped
    }

    /// Returns `true` if the ring has no items.
    pub fn is_empty(&self) -> bool
        ensures { IsTrue result ↔ (self.now.items ≡ []) }
    {
        self.len() == 0
    }

    /// Returns the number of items that the ring can hold before it allocates.
    ///
    /// Returns `usize::MAX` for zero-sized items.
    pub fn capacity(&self) -> usize
        ensures { result ≡ self.now.capacity }
    {
        self.block.capacity()
    }

    /// Returns the growth policy.
    pub fn growth(&self) -> Growth
        ensures { result ≡ self.now.growth }
    {
        self.block.growth()
    }

    /// Returns a reference to the item at `index`, or `None` if there is none.
    ///
    /// The first item is at index 0.
    #[tactic(auto, using(crate::proofs::Rings::read))]
    pub fn get(&self, index: usize) -> Option<&T>
        ensures { option_copied result ≡ slice_get self.now.items index }
    {
        self.block.prove_capacity_bounds();
        if index < self.count {
            return Some(self.block.place(self.front + index));
        }
        if index - self.count < self.wrapped {
            return Some(self.block.place(index - self.count));
        }
        None
    }

    /// Returns a pair of slices that contain, in order, the items of the ring.
    #[tactic(auto, using(allocator_api2::proofs::Blocks::shown))]
    pub fn as_slices(&self) -> (&[T], &[T])
        ensures { result.0.now ++ result.1.now ≡ self.now.items }
    {
        let first = self.block.slice(self.front, self.count);
        (first, self.block.slice(0, self.wrapped))
    }

    // Appends `item`, which must fit. The `prove!` says that a place is free.
    #[tactic(auto, using(crate::proofs::Rings::put_at_back))]
    fn put_back(&mut self, item: T)
        requires { HasRoom self.old 1 }
        ensures { self.new ≡ with_written self.old (self.old.items ++ item ∷ []) 1 }
    {
        let capacity = self.block.capacity();
        prove!(self.count + self.wrapped < capacity);
        let end = self.front + self.count;
        if end < capacity {
            self.block.put(end, item);
            self.count += 1;
        } else {
            self.block.put(self.wrapped, item);
            self.wrapped += 1;
        }
    }

    // Prepends `item`, which must fit. The `prove!` says that a place is free.
    #[tactic(auto, using(crate::proofs::Rings::put_at_front))]
    fn put_front(&mut self, item: T)
        requires { HasRoom self.old 1 }
        ensures { self.new ≡ with_written self.old (item ∷ self.old.items) 1 }
    {
        let capacity = self.block.capacity();
        prove!(self.count + self.wrapped < capacity);
        if self.front > 0 {
            self.front -= 1;
            self.block.put(self.front, item);
            self.count += 1;
        } else {
            // The items start at the first place of the block. They become the wrapped ones.
            let last = capacity - 1;
            self.block.put(last, item);
            self.wrapped = self.count;
            self.front = last;
            self.count = 1;
        }
    }

    /// Appends `item` to the back.
    ///
    /// Allocates only if the ring is full, and then as `reserve(1)` does.
    ///
    /// # Errors
    /// `CapacityOverflow` or `AllocError`, as `reserve(1)` returns them. The ring is unchanged and
    /// `item` is returned in the error.
    pub fn push_back(&mut self, item: T) -> Result<(), Refused<T>>
        ensures fits { HasRoom self.old 1 → IsOk result }
        ensures pushed { let roomy = with_room (type_size T.row) self.old 1 in
            OnOk result (self.new ≡ with_written roomy (self.old.items ++ item ∷ []) 1) }
        ensures returned { IfErr result (λ r. r.source ≡ item) }
        ensures error { IfErr result (λ r. LacksRoom (type_size T.row) self.old 1 r.error) }
        ensures unchanged { OnErr result (self.new ≡ self.old) }
    {
        if let Err(error) = self.reserve(1) {
            return Err(Refused {
                source: item,
                error,
            });
        }
        self.put_back(item);
        Ok(())
    }

    /// Prepends `item` to the front.
    ///
    /// Allocates only if the ring is full, and then as `reserve(1)` does.
    ///
    /// # Errors
    /// `CapacityOverflow` or `AllocError`, as `reserve(1)` returns them. The ring is unchanged and
    /// `item` is returned in the error.
    pub fn push_front(&mut self, item: T) -> Result<(), Refused<T>>
        ensures fits { HasRoom self.old 1 → IsOk result }
        ensures pushed { let roomy = with_room (type_size T.row) self.old 1 in
            OnOk result (self.new ≡ with_written roomy (item ∷ self.old.items) 1) }
        ensures returned { IfErr result (λ r. r.source ≡ item) }
        ensures error { IfErr result (λ r. LacksRoom (type_size T.row) self.old 1 r.error) }
        ensures unchanged { OnErr result (self.new ≡ self.old) }
    {
        if let Err(error) = self.reserve(1) {
            return Err(Refused {
                source: item,
                error,
            });
        }
        self.put_front(item);
        Ok(())
    }

    /// Removes the first item and returns it, or returns `None` if the ring is empty.
    ///
    /// Does not allocate, and does not change the capacity.
    #[tactic(auto, using(crate::proofs::Rings::taken_first))]
    pub fn pop_front(&mut self) -> Option<T>
        ensures taken { MatchOption result ((self.old.items ≡ []) × (self.new.items ≡ []))
            (λ x. self.old.items ≡ x ∷ self.new.items) }
        ensures kept { self.new ≡ with_written self.old self.new.items 0 }
    {
        self.block.prove_capacity_bounds();
        if self.count > 0 {
            let item = self.block.take(self.front);
            self.front += 1;
            self.count -= 1;
            return Some(item);
        }
        if self.wrapped == 0 {
            return None;
        }
        let item = self.block.take(0);
        self.front = 1;
        self.count = self.wrapped - 1;
        self.wrapped = 0;
        Some(item)
    }

    /// Removes the last item and returns it, or returns `None` if the ring is empty.
    ///
    /// Does not allocate, and does not change the capacity.
    #[tactic(auto, using(crate::proofs::Rings::taken_last))]
    pub fn pop_back(&mut self) -> Option<T>
        ensures taken { MatchOption result ((self.old.items ≡ []) × (self.new.items ≡ []))
            (λ x. self.old.items ≡ self.new.items ++ x ∷ []) }
        ensures kept { self.new ≡ with_written self.old self.new.items 0 }
    {
        self.block.prove_capacity_bounds();
        if self.wrapped != 0 {
            self.wrapped -= 1;
            return Some(self.block.take(self.wrapped));
        }
        if self.count == 0 {
            return None;
        }
        self.count -= 1;
        Some(self.block.take(self.front + self.count))
    }

    /// Removes and drops all items, in order.
    ///
    /// The capacity does not change.
    #[tactic(auto, using(allocator_api2::proofs::Blocks::in_runs))]
    pub fn clear(&mut self)
    where
        T: Drop,
        ensures { self.new ≡ with_written self.old [] 0 }
    {
        self.block.drop_run(self.front, self.count);
        self.block.drop_run(0, self.wrapped);
        self.front = 0;
        self.count = 0;
        self.wrapped = 0;
    }

    /// Keeps the first `len` items, and drops the others in order.
    ///
    /// Does nothing if there are no more than `len`. Does not allocate, and does not change the
    /// capacity.
    #[tactic(auto, using(allocator_api2::proofs::Blocks::in_runs))]
    pub fn truncate(&mut self, len: usize)
    where
        T: Drop,
        ensures truncated { self.new ≡ with_written self.old (take len self.old.items) 0 }
    {
        self.block.prove_capacity_bounds();
        if len < self.count {
            self.block.drop_run(self.front + len, self.count - len);
            self.block.drop_run(0, self.wrapped);
            self.count = len;
            self.wrapped = 0;
        } else if len - self.count < self.wrapped {
            let kept = len - self.count;
            self.block.drop_run(kept, self.wrapped - kept);
            self.wrapped = kept;
        }
    }

    /// Reserves capacity for at least `additional` more items.
    ///
    /// Does nothing if they fit. Else allocates a block with the capacity that the growth policy
    /// chooses, and moves each item there once.
    ///
    /// # Errors
    /// `CapacityOverflow` if the new length would exceed `usize::MAX` or the block would be too
    /// large. `AllocError` with the requested capacity if the allocation fails. The ring is
    /// unchanged.
    #[tactic(auto, using(crate::proofs::Rings::reserving))]
    pub fn reserve(&mut self, additional: usize) -> Result<(), TryReserveError>
        ensures fits { HasRoom self.old additional → IsOk result }
        ensures enough { OnOk result (HasRoom self.new additional) }
        ensures reserved { OnOk result (self.new ≡ with_room
            (type_size T.row) self.old additional) }
        ensures error { IfErr result (LacksRoom (type_size T.row) self.old additional) }
        ensures unchanged { OnErr result (self.new ≡ self.old) }
    {
        let len = self.len();
        if additional <= self.block.capacity() - len {
            return Ok(());
        }
        self.block
            .try_reserve_joined((self.front, self.count), (0, self.wrapped), additional)?;
        self.front = 0;
        self.count = len;
        self.wrapped = 0;
        Ok(())
    }
}

impl<T: Drop, A: Allocator> Drop for Ring<T, A> {
    /// Drops the items in order, and deallocates the block.
    #[tactic(auto, using(allocator_api2::proofs::Blocks::in_runs))]
    fn drop(self) {
        let Ring {
            mut block,
            front,
            count,
            wrapped,
            added: _,
        } = self;
        block.prove_capacity_bounds();
        block.drop_run(front, count);
        block.drop_run(0, wrapped);
        block.forget_run(wrapped, front - wrapped);
        block.forget_from(front + count);
    }
}
