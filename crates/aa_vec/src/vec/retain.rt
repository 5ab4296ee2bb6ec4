//! Removal of the elements that a closure does not keep.
ghost use Rattle.std.specs.Prelude.{◌≡◌, Bool, ◌+◌, ◌-◌, ◌<◌, ◌≤◌, true, filter, length};
ghost use Rattle.std.specs.Fn.{CalledAt, CalledAtMut, TakesAt};
ghost use Rattle.aa_vec.specs.Tail.{HasTail, tail_items};
ghost use Rattle.aa_vec.specs.Choosing.{CallableAtMut, Reads, IsCallableInOrder, MayCallInOrder, Retains};
ghost use Rattle.aa_vec.specs.Until.{CallsOnTail, KeepsWhen, CallsUntil};

use crate::vec::Vec;
use crate::vec::tail::steps::step_over;
use core::mem::replace_with;
use std::alloc::Allocator;

impl<T: Drop, A: Allocator> Vec<T, A> {
    /// Keeps only the elements for which `f` returns `true`, in order.
    ///
    /// `f` is called once for each element, in order. The others are dropped. Preserves the order.
    /// Does not allocate, and does not change the capacity.
    pub fn retain<F: FnMut(&T) -> bool + Drop>(&mut self, mut f: F)
        requires { IsCallableInOrder (Reads F.FnMut) (TakesAt F.FnMut) f self.old.items }
        ensures retained { (last : F) × Retains (Reads F.FnMut) f self.old last self.new }
        ensures pure_test { (test : T → Bool) → ((x : T) (res : Bool) (g : F)
            → CalledAt F.FnMut f x res g → (res ≡ test x) × (g ≡ f))
            → self.new.items ≡ filter test self.old.items }
    {
        self.retain_by(
            &mut move |element: &mut T|
                requires { TakesAt F.FnMut f element.old }
                ensures { Reads F.FnMut f.entry element.old result f.exit element.new }
            { f(element) },
        );
    }

    /// Keeps only the elements for which `f` returns `true`, in order, and lets `f` change them.
    ///
    /// `f` is called once for each element, in order. Each element is kept or dropped as `f` leaves
    /// it. Preserves the order. Does not allocate, and does not change the capacity.
    pub fn retain_mut<F: FnMut(&mut T) -> bool + Drop>(&mut self, mut f: F)
        requires { IsCallableInOrder (CalledAtMut F.FnMut)
            (CallableAtMut F.FnMut) f self.old.items }
        ensures { (last : F) × Retains (CalledAtMut F.FnMut) f self.old last self.new }
    {
        self.retain_by(&mut f);
    }

    /// Like `retain_mut`, but takes the closure by `&mut`, so that contracts describe its final
    /// state.
    ///
    /// Keeps only the elements for which `keep` returns `true`. It is called once for each element,
    /// in order. Each element is kept or dropped as `keep` leaves it. Does not allocate, and does
    /// not change the capacity.
    ///
    /// Not in allocator-api2.
    pub fn retain_by<F: FnMut(&mut T) -> bool>(&mut self, keep: &mut F)
        requires { IsCallableInOrder (CalledAtMut F.FnMut)
            (CallableAtMut F.FnMut) keep.old self.old.items }
        ensures { Retains (CalledAtMut F.FnMut) keep.old self.old keep.new self.new }
    {
        let _keep = replace_with(self, keep, retain_owned);
    }
}

impl<T, A: Allocator> Vec<T, A> {
    // Calls `keep` for the `count` elements after the gap in order, up to the first that is not
    // kept. Returns how many are kept before it. There are at least `LEAST`.
    #[inline(always)]
    #[tactic(auto, using(crate::proofs::Chains::borrowed))]
    fn count_kept_in_tail<const LEAST: usize, F: FnMut(&mut T) -> bool>(
        &mut self,
        gap: usize,
        count: usize,
        keep: &mut F,
    ) -> usize
        requires least { LEAST ≤ count }
        requires has_tail { HasTail self.old gap count }
        requires callable { MayCallInOrder (CalledAtMut F.FnMut) (CallableAtMut F.FnMut) keep.old
            (tail_items self.old gap count) }
        ensures { CallsOnTail (CalledAtMut F.FnMut) keep.old self.old gap count
            result keep.new self.new }
    {
        // Like `prove_capacity_bounds`; but the loops that this becomes part of are faster if the
        // capacity is read.
        let _within = self.block.capacity();
        count_kept::<LEAST, T, F>(self.block.slice_mut(self.len + gap, count), true, keep)
    }
}

// `retain_by`, over an owned vector, whose fields are thus in registers; the closure is returned.
// Before the first removed element none is moved. While the loop runs, at least two elements remain
// to be tested. So nothing else tests whether one has another after it.
fn retain_owned<'a, T: Drop, A: Allocator, F: FnMut(&mut T) -> bool>(
    mut list: Vec<T, A>,
    keep: &'a mut F,
) -> (Vec<T, A>, &'a mut F)
    requires { IsCallableInOrder (CalledAtMut F.FnMut) (CallableAtMut F.FnMut) keep.old list.items }
    ensures same_reference { result.1.ghost_name ≡ keep.entry.ghost_name }
    ensures retained { Retains (CalledAtMut F.FnMut) keep.old list result.1.now result.0 }
{
    let end = list.set_tail(0);
    let mut at;
    let first = list.count_kept_in_tail::<0, F>(0, end, keep);
    (list, at) = step_over::<0, T, A>(list, 0, end, first);
    if end <= at {
        return (list, keep);
    }
    'runs: while at < end - 1 {
        let gap = at - list.len();
        let kept = list.count_kept_in_tail::<2, F>(gap, end - at, keep);
        (list, at) = step_over::<2, T, A>(list, at, end, kept);
    }
    if end <= at {
        return (list, keep);
    }
    let gap = at - list.len();
    let rest = list.count_kept_in_tail::<0, F>(gap, end - at, keep);
    (list, _) = step_over::<0, T, A>(list, at, end, rest);
    (list, keep)
}

// Calls `keep` for the elements in order, up to the first that is not kept. An element is kept if
// the result is the given one. Returns how many are kept before it. There are at least `LEAST`. If
// these are two, they are tested one by one: if one is removed, that is far cheaper than a run.
#[inline(always)]
#[tactic(auto, using(crate::proofs::Calling::calls))]
pub(crate) fn count_kept<const LEAST: usize, T, F: FnMut(&mut T) -> bool>(
    elements: &mut [T],
    keep_when: bool,
    keep: &mut F,
) -> usize
    requires least { LEAST ≤ length elements.old }
    requires callable { MayCallInOrder (KeepsWhen keep_when (CalledAtMut F.FnMut))
        (CallableAtMut F.FnMut) keep.old elements.old }
    ensures { CallsUntil (KeepsWhen keep_when (CalledAtMut F.FnMut)) keep.old elements.old
        result keep.new elements.new }
{
    let count = elements.len();
    let mut kept = 0;
    if 1 < LEAST {
        if !call_keeps(keep, &mut elements[0], keep_when) {
            return 0;
        }
        if !call_keeps(keep, &mut elements[1], keep_when) {
            return 1;
        }
        kept = 2;
    }
    'each: while kept < count {
        if !call_keeps(keep, &mut elements[kept], keep_when) {
            return kept;
        }
        kept += 1;
    }
    count
}

// Calls `keep` once, and returns whether the element is kept, which it is if the result is the
// given one.
#[inline(always)]
fn call_keeps<T, F: FnMut(&mut T) -> bool>(keep: &mut F, element: &mut T, keep_when: bool) -> bool
    requires { CallableAtMut F.FnMut keep.old element.old }
    ensures { KeepsWhen keep_when (CalledAtMut F.FnMut) keep.old element.old result
        keep.new element.new }
{
    keep(element) == keep_when
}
