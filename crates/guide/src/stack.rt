//! A collection of one's own, built on a block: its items are at the first places.
ghost use Rattle.std.specs.Prelude.{◌≡◌, ◌<◌, [], ◌∷◌, ◌++◌, length, slice_get, slice_set, Some, IfErr, MatchOption, OnOk};

use allocator_api2::collections::Refused;
use allocator_api2::raw_vec::RawVec;
use std::alloc::{Allocator, Global};
use std::marker::Model;
use std::mem;

/// A stack, which contracts see as a list.
pub struct Stack<T, A: Allocator = Global> {
    block: RawVec<T, A>,
    len: usize,
}

impl<T, A: Allocator> Model for Stack<T, A> {
    ghost use Rattle.guide.specs.Stack.{Stacked};

    ghost Value = { Stacked T };

    ghost use Rattle.guide.specs.StackInner.{view_of, IsFront};

    ghost view = { view_of };

    ghost invariant = { IsFront };
}

#[tactic(auto, using(allocator_api2::proofs::Blocks::at_ends))]
impl<T, A: Allocator> Stack<T, A> {
    /// Returns an empty stack.
    ///
    /// Does not allocate.
    #[tactic(auto, using(allocator_api2::proofs::Blocks::with_room))]
    pub fn new_in(alloc: A) -> Self
        ensures { result.items ≡ [] }
    {
        Stack {
            block: RawVec::new_in(alloc),
            len: 0,
        }
    }

    /// Appends `item`.
    ///
    /// # Errors
    /// If the allocation fails, the stack is unchanged and `item` is returned in the error.
    #[tactic(auto, using(allocator_api2::proofs::Blocks::at_ends, allocator_api2::proofs::Blocks::with_room))]
    pub fn push(&mut self, item: T) -> Result<(), Refused<T>>
        ensures pushed { OnOk result (self.new.items ≡ self.old.items ++ item ∷ []) }
        ensures failed { IfErr result (λ r. (r.source ≡ item) × (self.new ≡ self.old)) }
    {
        if let Err(error) = self.block.try_reserve(self.len, 1) {
            return Err(Refused {
                source: item,
                error,
            });
        }
        self.block.put(self.len, item);
        self.len += 1;
        Ok(())
    }

    /// Removes the last item and returns it, or returns `None` if the stack is empty.
    pub fn pop(&mut self) -> Option<T>
        ensures { MatchOption result ((self.old.items ≡ []) × (self.new ≡ self.old))
            (λ x. self.old.items ≡ self.new.items ++ x ∷ []) }
    {
        if self.len == 0 {
            return None;
        }
        self.len -= 1;
        Some(self.block.take(self.len))
    }

    /// Removes the first item and returns it, or returns `None` if the stack is empty.
    ///
    /// The items after it shift down by one.
    #[tactic(auto, using(allocator_api2::proofs::Blocks::at_positions))]
    pub fn pop_first(&mut self) -> Option<T>
        ensures { MatchOption result ((self.old.items ≡ []) × (self.new ≡ self.old))
            (λ x. self.old.items ≡ x ∷ self.new.items) }
    {
        if self.len == 0 {
            return None;
        }
        let last = self.len - 1;
        let first = self.block.take(0);
        self.block.move_run(1, 0, last);
        self.len = last;
        Some(first)
    }

    /// Replaces the item at `index` by `item` and returns the old one.
    #[tactic(auto, using(allocator_api2::proofs::Blocks::at_positions))]
    pub fn replace(&mut self, index: usize, item: T) -> T
        requires { index < length self.old.items }
        ensures old { slice_get self.old.items index ≡ Some result }
        ensures replaced { self.new.items ≡ slice_set self.old.items index item }
    {
        mem::replace(self.block.place_mut(index), item)
    }
}

impl<T: Drop, A: Allocator> Drop for Stack<T, A> {
    #[tactic(auto, using(allocator_api2::proofs::Blocks::emptied))]
    fn drop(self) {
        let Stack { mut block, len } = self;
        block.drop_run(0, len);
        block.forget_from(len);
    }
}
