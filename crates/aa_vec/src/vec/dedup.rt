//! Removal of repeated elements.
ghost use Rattle.std.specs.Prelude.{◌≡◌, Bool, ◌+◌, ◌-◌, ◌<◌, ◌≤◌, [], ◌∷◌, ◌++◌, List, drop, length};
ghost use Rattle.std.specs.List.{dedup};
ghost use Rattle.std.specs.Fn.{CalledAtPairMut, ComparesKeys};
ghost use Rattle.aa_raw.specs.Closures.{CallableAtPairMut};
ghost use Rattle.aa_vec.specs.Tail.{HasTail, tail_items};
ghost use Rattle.aa_vec.specs.Choosing.{CallableAtKeys, Equals, IsCallableAlong, MayChainFrom, MayDeduplicate, IsPureTest, Deduplicates};
ghost use Rattle.aa_vec.specs.Until.{CallsOnLast, ChainsOnTail, ChainsAlong};
ghost use Rattle.aa_vec.specs.Vector.{len};

use crate::vec::Vec;
use crate::vec::tail::steps::step_over;
use core::mem::replace_with;
use std::alloc::Allocator;

impl<T: Drop, A: Allocator> Vec<T, A> {
    /// Removes each element whose key equals the key of the last element kept before it.
    ///
    /// For each comparison `key` is called anew for both elements: first for the one under test,
    /// then for the last one kept. The removed elements are dropped. Preserves the order. Does not
    /// allocate, and does not change the capacity.
    pub fn dedup_by_key<K: PartialEq + Drop, F: FnMut(&mut T) -> K + Drop>(&mut self, mut key: F)
        requires { IsCallableAlong (ComparesKeys F.FnMut K.eq)
            (CallableAtKeys F.FnMut) key self.old.items }
        ensures removed { (last : F)
            × Deduplicates (ComparesKeys F.FnMut K.eq) key self.old last self.new }
        ensures pure_test { (same : T → T → Bool) → IsPureTest (ComparesKeys F.FnMut K.eq) same
            → self.new.items ≡ dedup same self.old.items }
    {
        self.dedup_within_key(&mut key);
    }

    /// Removes each element for which `same_bucket` returns `true` beside the last element kept
    /// before it.
    ///
    /// `same_bucket(element, last)` is called for each element but the first, in order, where
    /// `last` is the last element kept before it. Both are left as `same_bucket` leaves them. The
    /// removed elements are dropped. Preserves the order. Does not allocate, and does not change
    /// the capacity.
    pub fn dedup_by<F: FnMut(&mut T, &mut T) -> bool + Drop>(&mut self, mut same_bucket: F)
        requires { IsCallableAlong (CalledAtPairMut F.FnMut) (CallableAtPairMut F.FnMut)
            same_bucket self.old.items }
        ensures { (last : F)
            × Deduplicates (CalledAtPairMut F.FnMut) same_bucket self.old last self.new }
    {
        self.dedup_within(&mut same_bucket);
    }

    /// Like `dedup_by`, but takes the closure by `&mut`, so that contracts describe its final
    /// state.
    ///
    /// Removes each element for which `same` returns `true` beside the last one kept before it.
    /// Both are left as `same` leaves them. Preserves the order. Does not allocate, and does not
    /// change the capacity.
    ///
    /// Not in allocator-api2.
    pub fn dedup_within<F: FnMut(&mut T, &mut T) -> bool>(&mut self, same: &mut F)
        requires { IsCallableAlong (CalledAtPairMut F.FnMut) (CallableAtPairMut F.FnMut)
            same.old self.old.items }
        ensures { Deduplicates (CalledAtPairMut F.FnMut) same.old self.old same.new self.new }
    {
        let _same = replace_with(self, same, dedup_owned);
    }

    /// Like `dedup_by_key`, but takes the closure by `&mut`, so that contracts describe its final
    /// state.
    ///
    /// For each comparison `key` is called anew for both elements: first for the one under test,
    /// then for the last one kept. Preserves the order. Does not allocate, and does not change the
    /// capacity.
    ///
    /// Not in allocator-api2.
    pub fn dedup_within_key<K: PartialEq + Drop, F: FnMut(&mut T) -> K>(&mut self, key: &mut F)
        requires { IsCallableAlong (ComparesKeys F.FnMut K.eq) (CallableAtKeys F.FnMut)
            key.old self.old.items }
        ensures removed { Deduplicates (ComparesKeys F.FnMut K.eq)
            key.old self.old key.new self.new }
        ensures pure_test { (same : T → T → Bool) → IsPureTest (ComparesKeys F.FnMut K.eq) same
            → self.new.items ≡ dedup same self.old.items }
    {
        self.dedup_within(
            &mut move |element: &mut T, last: &mut T|
                requires { CallableAtKeys F.FnMut key.now element.old last.old }
                ensures same_reference { key.exit.ghost_name ≡ key.entry.ghost_name }
                ensures called { ComparesKeys F.FnMut K.eq key.entry.now element.old last.old result
                    key.exit.now element.new last.new }
            { same_keys(key, element, last) },
        );
    }
}

impl<T: PartialEq + Drop, A: Allocator> Vec<T, A> {
    /// Removes each element that equals the last element kept before it.
    ///
    /// The removed elements are dropped. Preserves the order. Does not allocate, and does not
    /// change the capacity.
    #[tactic(auto, using(crate::proofs::Callers::callers))]
    pub fn dedup(&mut self)
        ensures items { self.new.items ≡ dedup T.eq self.old.items }
        ensures removed { Deduplicates (Equals T.eq) tt self.old tt self.new }
    {
        self.dedup_within(
            &mut |element: &mut T, last: &mut T|
                ensures { (result ≡ T.eq element.old last.old) × (element.new ≡ element.old)
                    × (last.new ≡ last.old) }
            { *element == *last },
        );
    }
}

impl<T, A: Allocator> Vec<T, A> {
    // Calls `same` for the `count` elements after the gap in order, each time with the last element
    // kept before, up to the first repeat. Returns how many are kept before it. There are at
    // least `LEAST`.
    #[inline(always)]
    #[tactic(auto, using(crate::proofs::Chains::borrowed))]
    fn chain_on_tail<const LEAST: usize, F: FnMut(&mut T, &mut T) -> bool>(
        &mut self,
        gap: usize,
        count: usize,
        same: &mut F,
    ) -> usize
        requires last { 0 < len self.old }
        requires least { (0 < LEAST) × (LEAST ≤ count) }
        requires has_tail { HasTail self.old gap count }
        requires callable { (front : List T) (last : T) → self.old.items ≡ front ++ last ∷ []
            → MayChainFrom (CalledAtPairMut F.FnMut) (CallableAtPairMut F.FnMut) same.old last
            (tail_items self.old gap count) }
        ensures { ChainsOnTail (CalledAtPairMut F.FnMut) same.old self.old gap count
            result same.new self.new }
    {
        if self.call_on_last(gap, same) {
            return 0;
        }
        if LEAST < 2 && count < 2 {
            return 1;
        }
        let _within = self.block.capacity();
        1 + distinct_run(self.block.slice_mut(self.len + gap, count), same)
    }

    // Calls `same` with the element after the gap and the last item.
    #[inline(always)]
    #[tactic(auto, using(crate::proofs::Gaps::beside))]
    fn call_on_last<F: FnMut(&mut T, &mut T) -> bool>(&mut self, gap: usize, same: &mut F) -> bool
        requires some { 0 < len self.old }
        requires has_tail { HasTail self.old gap 1 }
        requires callable { (front : List T) (last x : T) → self.old.items ≡ front ++ last ∷ []
            → tail_items self.old gap 1 ≡ x ∷ [] → CallableAtPairMut F.FnMut same.old x last }
        ensures { CallsOnLast (CalledAtPairMut F.FnMut) same.old self.old gap
            result same.new self.new }
    {
        let len = self.len;
        let _within = self.block.capacity();
        self.block.pair_with(len + gap, len - 1, same)
    }
}

// `dedup_within`, over an owned vector. While the loop runs, at least two elements remain to be
// tested. So nothing else tests whether one has another after it.
#[tactic(auto, using(crate::proofs::Deduplicating::ended))]
fn dedup_owned<'a, T: Drop, A: Allocator, F: FnMut(&mut T, &mut T) -> bool>(
    mut list: Vec<T, A>,
    same: &'a mut F,
) -> (Vec<T, A>, &'a mut F)
    requires { IsCallableAlong (CalledAtPairMut F.FnMut)
        (CallableAtPairMut F.FnMut) same.old list.items }
    ensures same_reference { result.1.ghost_name ≡ same.entry.ghost_name }
    ensures removed { Deduplicates (CalledAtPairMut F.FnMut) same.old list result.1.now result.0 }
{
    let end = list.len();
    if end < 2 {
        return (list, same);
    }
    let mut at = 1;
    let _left = list.set_tail(at);
    let first = list.chain_on_tail::<1, F>(0, end - at, same);
    (list, at) = step_over::<0, T, A>(list, at, end, first);
    'runs: while at < end - 1 {
        let gap = at - list.len();
        let kept = list.chain_on_tail::<2, F>(gap, end - at, same);
        (list, at) = step_over::<2, T, A>(list, at, end, kept);
    }
    if end <= at {
        return (list, same);
    }
    let gap = at - list.len();
    let rest = list.chain_on_tail::<1, F>(gap, end - at, same);
    (list, _) = step_over::<0, T, A>(list, at, end, rest);
    (list, same)
}

// Calls `same` for the elements after the first, in order, each with the one before it, up to the
// first repeat. Returns how many of them are kept before it. The second is tested on its own, as
// above.
#[inline]
#[tactic(auto, using(crate::proofs::Calling::chains))]
fn distinct_run<T, F: FnMut(&mut T, &mut T) -> bool>(elements: &mut [T], same: &mut F) -> usize
    requires some { 1 < length elements.old }
    requires callable { MayDeduplicate (CalledAtPairMut F.FnMut)
        (CallableAtPairMut F.FnMut) same.old elements.old }
    ensures within { result < length elements.old }
    ensures called { ChainsAlong (CalledAtPairMut F.FnMut) same.old elements.old
        result same.new elements.new }
{
    let last = elements.len() - 1;
    let (first, others) = elements.split_at_mut(1);
    if same(&mut others[0], &mut first[0]) {
        return 0;
    }
    let mut kept = 1;
    'each: while kept < last {
        let (before, after) = elements.split_at_mut(kept + 1);
        if same(&mut after[0], &mut before[kept]) {
            return kept;
        }
        kept += 1;
    }
    last
}

// Returns whether the keys are equal. `key` is called for `element` first.
#[inline(always)]
fn same_keys<T, K: PartialEq + Drop, F: FnMut(&mut T) -> K>(
    key: &mut F,
    element: &mut T,
    last: &mut T,
) -> bool
    requires { CallableAtKeys F.FnMut key.old element.old last.old }
    ensures { ComparesKeys F.FnMut K.eq key.old element.old last.old result
        key.new element.new last.new }
{
    let first = key(element);
    let second = key(last);
    first == second
}
