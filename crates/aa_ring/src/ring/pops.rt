//! Items that are removed from an end if a closure says so.
ghost use Rattle.std.specs.Prelude.{◌≡◌, ◌-◌, length, slice_get, Some};
ghost use Rattle.std.specs.Fn.{FnOnceReturnsAtMut, FnOnceTakesAtMut};
ghost use Rattle.aa_ring.specs.Popping.{PopsFirstIf, PopsLastIf};

use crate::ring::Ring;
use std::alloc::Allocator;

impl<T, A: Allocator> Ring<T, A> {
    /// Removes the first item and returns it if `predicate` returns `true` for it.
    ///
    /// Returns `None` if the ring is empty, and then does not call `predicate`; or if that returns
    /// `false`, and then the item stays as it was left. Does not allocate, and does not change the
    /// capacity.
    pub fn pop_front_if<P: FnOnce(&mut T) -> bool + Drop>(&mut self, predicate: P) -> Option<T>
        requires { (x : T) → slice_get self.old.items 0 ≡ Some x
            → FnOnceTakesAtMut P.FnOnce predicate x }
        ensures { PopsFirstIf P.FnOnce predicate self.old result self.new }
    {
        if self.is_empty() {
            return None;
        }
        if call_on(predicate, self.item_mut(0)) {
            return self.pop_front();
        }
        None
    }

    /// Removes the last item and returns it if `predicate` returns `true` for it.
    ///
    /// Returns `None` as `pop_front_if` does. Does not allocate, and does not change the capacity.
    pub fn pop_back_if<P: FnOnce(&mut T) -> bool + Drop>(&mut self, predicate: P) -> Option<T>
        requires { (x : T) → slice_get self.old.items (length self.old.items - 1) ≡ Some x
            → FnOnceTakesAtMut P.FnOnce predicate x }
        ensures { PopsLastIf P.FnOnce predicate self.old result self.new }
    {
        let len = self.len();
        if len == 0 {
            return None;
        }
        if call_on(predicate, self.item_mut(len - 1)) {
            return self.pop_back();
        }
        None
    }
}

// Calls `predicate` at `item`.
#[inline(always)]
fn call_on<T, P: FnOnce(&mut T) -> bool>(predicate: P, item: &mut T) -> bool
    requires { FnOnceTakesAtMut P.FnOnce predicate item.old }
    ensures { FnOnceReturnsAtMut P.FnOnce predicate item.old result item.new }
{
    predicate(item)
}
