//! Removal of the items that a closure does not keep.
ghost use Rattle.std.specs.Prelude.{◌≡◌, Bool, filter};
ghost use Rattle.std.specs.Fn.{CalledAt, CalledAtMut, TakesAt};
ghost use Rattle.allocator_api2.specs.Choosing.{CallableAtMut, IsCallableInOrder, Reads};
ghost use Rattle.aa_ring.specs.Retaining.{Retains};

use crate::ring::Ring;
use std::alloc::Allocator;

impl<T: Drop, A: Allocator> Ring<T, A> {
    /// Keeps only the items for which `f` returns `true`, in order, and drops the others.
    ///
    /// `f` is called once for each item, in order. Does not allocate, and does not change the
    /// capacity. Moves each kept item once.
    pub fn retain<F: FnMut(&T) -> bool + Drop>(&mut self, mut f: F)
        requires { IsCallableInOrder (Reads F.FnMut) (TakesAt F.FnMut) f self.old.items }
        ensures retained { (last : F) × Retains (Reads F.FnMut) f self.old last self.new }
        ensures pure_test { (test : T → Bool) → ((x : T) (res : Bool) (g : F)
            → CalledAt F.FnMut f x res g → (res ≡ test x) × (g ≡ f))
            → self.new.items ≡ filter test self.old.items }
    {
        self.retain_by(
            &mut move |item: &mut T|
                requires { TakesAt F.FnMut f item.old }
                ensures { Reads F.FnMut f.entry item.old result f.exit item.new }
            { f(item) },
        );
    }

    /// Keeps only the items for which `f` returns `true`, in order, and lets `f` change them.
    ///
    /// `f` is called once for each item, in order. Each item is kept or dropped as `f` leaves it.
    /// Does not allocate, and does not change the capacity. Moves each kept item once.
    pub fn retain_mut<F: FnMut(&mut T) -> bool + Drop>(&mut self, mut f: F)
        requires { IsCallableInOrder (CalledAtMut F.FnMut)
            (CallableAtMut F.FnMut) f self.old.items }
        ensures { (last : F) × Retains (CalledAtMut F.FnMut) f self.old last self.new }
    {
        self.retain_by(&mut f);
    }

    /// Like `retain_mut`, but takes the closure by `&mut`, so that contracts describe its final
    /// state.
    ///
    /// Not in the standard library.
    pub fn retain_by<F: FnMut(&mut T) -> bool>(&mut self, keep: &mut F)
        requires { IsCallableInOrder (CalledAtMut F.FnMut)
            (CallableAtMut F.FnMut) keep.old self.old.items }
        ensures { Retains (CalledAtMut F.FnMut) keep.old self.old keep.new self.new }
    {
        'each: for _done in 0..self.len() {
            let Some(mut item) = self.pop_front() else {
                unreachable!();
            };
            if call_on(keep, &mut item) {
                self.put_back(item);
            }
        }
    }
}

// Calls `keep` at `item`.
#[inline(always)]
fn call_on<T, F: FnMut(&mut T) -> bool>(keep: &mut F, item: &mut T) -> bool
    requires { CallableAtMut F.FnMut keep.old item.old }
    ensures { CalledAtMut F.FnMut keep.old item.old result keep.new item.new }
{
    keep(item)
}
