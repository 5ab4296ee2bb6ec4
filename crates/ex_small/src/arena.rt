//! An arena over any allocator: a list of values, each of which is found by its handle.

ghost use Rattle.std.specs.Prelude.{◌≡◌, ℕ, ◌<◌, [], ◌∷◌, ◌++◌, length, slice_get, slice_set, Some, None, IfOk, IfErr, IsOk, OnOk, OnErr, option_copied};
ghost use Rattle.std.specs.Borrow.{sem};
ghost use Rattle.std.specs.Mem.{type_size};
ghost use Rattle.allocator_api2.specs.Growth.{new_capacity};
ghost use Rattle.ex_small.specs.Held.{empty, with_items, with_room, HasRoom};

use allocator_api2::collections::{Refused, TryReserveError};
use allocator_api2::vec::Vec;
use std::alloc::Allocator;
use std::marker::Model;
use std::mem;

/// A handle to one value of the arena that returned it.
///
/// Contracts see it as a number.
#[derive(Clone, Copy, PartialEq, Eq, Drop)]
pub struct Id {
    index: usize,
}

impl Model for Id {
    ghost use Rattle.std.specs.Prelude.{ℕ};

    ghost Value = { ℕ };

    ghost view = { λ id. id.index };

    ghost inverse = { λ n. record { index = n } };
}

/// A growing list of values, which are kept until all are dropped.
///
/// Contracts see a list, indexed by handle, and its capacity.
#[derive(Drop)]
pub struct Arena<T, A: Allocator> {
    items: Vec<T, A>,
}

impl<T, A: Allocator> Model for Arena<T, A> {
    ghost use Rattle.std.specs.Prelude.{◌≡◌};
    ghost use Rattle.allocator_api2.specs.declared.raw_vec.Growth.TheVariants.{Doubling};
    ghost use Rattle.ex_small.specs.Held.{Held, held_of};

    ghost Value = { Held T };

    ghost view = { λ a. held_of a.items };

    ghost invariant = { λ a. a.items.growth ≡ Doubling };
}

impl<T, A: Allocator> Arena<T, A> {
    ghost use Rattle.ex_small.specs.Lends.{lends_value};

    /// Returns an empty arena.
    ///
    /// Does not allocate. The capacity is 0, or `usize::MAX` for zero-sized values.
    pub fn new_in(alloc: A) -> Self
        ensures { result ≡ empty (new_capacity (type_size T.row) 0) }
    {
        Arena {
            items: Vec::new_in(alloc),
        }
    }

    /// Returns the number of values.
    pub fn len(&self) -> usize
        ensures { result ≡ length self.now.items }
    {
        self.items.len()
    }

    /// Reserves capacity for at least `additional` more values.
    ///
    /// Does nothing if they fit. Else allocates as a vector that doubles does.
    ///
    /// # Errors
    /// `CapacityOverflow` or `AllocError`, as `Vec::try_reserve` returns them. The arena is
    /// unchanged.
    pub fn reserve(&mut self, additional: usize) -> Result<(), TryReserveError>
        ensures fits { HasRoom self.old additional → IsOk result × (self.new ≡ self.old) }
        ensures enough { OnOk result (HasRoom self.new additional) }
        ensures reserved { OnOk result (self.new ≡ with_room
            (type_size T.row) self.old additional) }
        ensures unchanged { OnErr result (self.new ≡ self.old) }
    {
        self.items.try_reserve(additional)
    }

    /// Appends `value` and returns a new handle to it.
    ///
    /// Does not allocate if one more value fits. The values of all other handles are unchanged.
    ///
    /// # Errors
    /// `CapacityOverflow` or `AllocError`, as `Vec::push` returns them. The arena is unchanged and
    /// `value` is returned in the error.
    pub fn alloc(&mut self, value: T) -> Result<Id, Refused<T>>
        // If one more value fits, the call succeeds in the same block.
        ensures fits { HasRoom self.old 1 → IsOk result × (self.new.capacity ≡ self.old.capacity) }

        // The new handle has the value. It had none before, and the other handles keep theirs.
        ensures stored { IfOk result (λ id. slice_get self.new.items id ≡ Some value) }
        ensures fresh { IfOk result (λ id. slice_get self.old.items id ≡ None) }
        ensures kept { (id : ℕ) → id < length self.old.items
            → slice_get self.new.items id ≡ slice_get self.old.items id }

        // Success leaves the value at the end of the list.
        ensures pushed { OnOk result
            (self.new ≡ with_items (with_room (type_size T.row) self.old 1)
            (self.old.items ++ value ∷ [])) }

        // Failure changes nothing, and returns the value.
        ensures failed { IfErr result (λ r. (r.source ≡ value) × (self.new ≡ self.old)) }
    {
        let index = self.items.len();
        match self.items.push(value) {
            Ok(()) => Ok(Id { index }),
            Err(refused) => Err(refused),
        }
    }

    /// Returns a reference to the value of `id`, which must be a handle of this arena.
    pub fn get(&self, id: Id) -> &T
        requires { id < length self.now.items }
        ensures { slice_get self.now.items id ≡ Some result.now }
    {
        &self.items[id.index]
    }

    /// Returns a reference to the value of `id`, or `None` if this arena has none.
    ///
    /// `id` may be the handle of another arena.
    pub fn try_get(&self, id: Id) -> Option<&T>
        ensures { option_copied result ≡ slice_get self.now.items id }
    {
        if id.index < self.items.len() {
            Some(&self.items[id.index])
        } else {
            None
        }
    }

    /// Returns a mutable reference to the value of `id`, which must be a handle of this arena.
    pub fn get_mut(&mut self, id: Id) -> &mut T
        requires { id < length self.old.items }
        ensures* writes_back { sem 𝓛 (lends_value T.row A.row A.Allocator self.entry id result) }
        ensures value { slice_get self.old.items id ≡ Some result.now }
    {
        &mut self.items[id.index]
    }

    /// Replaces the value of `id` by `value` and returns the old one.
    ///
    /// `id` must be a handle of this arena.
    pub fn replace(&mut self, id: Id, value: T) -> T
        requires { id < length self.old.items }
        ensures old { slice_get self.old.items id ≡ Some result }
        ensures replaced { self.new ≡ with_items self.old (slice_set self.old.items id value) }
    {
        mem::replace(&mut self.items[id.index], value)
    }
}
