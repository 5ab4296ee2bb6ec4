//! Removal of repeated items.
ghost use Rattle.std.specs.Prelude.{◌≡◌, ◌≤◌, Bool, length, take};
ghost use Rattle.std.specs.Fn.{CalledAtPairMut, ComparesKeys};
ghost use Rattle.std.specs.List.{dedup};
ghost use Rattle.allocator_api2.specs.Choosing.{CallableAtKeys, IsCallableAlong, IsPureTest};
ghost use Rattle.allocator_api2.specs.Closures.{CallableAtPairMut};
ghost use Rattle.aa_inline.specs.Inlined.{with_items};
ghost use Rattle.aa_inline.specs.Retaining.{Deduplicates};

use crate::few::call_on;
use crate::inline::{Data, InlineVec};
use std::alloc::Allocator;
use std::default::MadeWith;

impl<T: PartialEq + MadeWith<A> + Drop, A: Allocator + Copy, const N: usize> InlineVec<T, A, N> {
    /// Removes each item that equals the last item kept before it.
    ///
    /// The removed items are dropped. Preserves the order of the others. Does not allocate: the
    /// items remain inline, or in the block.
    #[tactic(auto, using(crate::proofs::Bringing::bringing))]
    pub fn dedup(&mut self)
        ensures deduped { self.new ≡ with_items self.old (dedup T.eq self.old.items) }
    {
        let kept = move_distinct(self.as_mut_slice());
        self.truncate(kept);
    }
}

impl<T: MadeWith<A> + Drop, A: Allocator + Copy, const N: usize> InlineVec<T, A, N> {
    /// Removes each item whose key equals the key of the last item kept before it.
    ///
    /// For each comparison `key` is called anew for both items: first for the one under test, then
    /// for the last one kept. The removed items are dropped. Preserves the order of the others.
    /// Does not allocate: the items remain inline, or in the block.
    pub fn dedup_by_key<K: PartialEq + Drop, F: FnMut(&mut T) -> K + Drop>(&mut self, mut key: F)
        requires { IsCallableAlong (ComparesKeys F.FnMut K.eq)
            (CallableAtKeys F.FnMut) key self.old.items }
        ensures removed { (last : F)
            × Deduplicates (ComparesKeys F.FnMut K.eq) key self.old last self.new }
        ensures pure_test { (same : T → T → Bool) → IsPureTest (ComparesKeys F.FnMut K.eq) same
            → self.new.items ≡ dedup same self.old.items }
    {
        self.dedup_within(
            &mut move |item: &mut T, last: &mut T|
                requires { CallableAtKeys F.FnMut key item.old last.old }
                ensures { ComparesKeys F.FnMut K.eq key.entry item.old last.old result
                    key.exit item.new last.new }
            { same_keys(&mut key, item, last) },
        );
    }

    /// Removes each item for which `same_bucket` returns `true` beside the last item kept before
    /// it.
    ///
    /// `same_bucket(item, last)` is called for each item but the first, in order, where `last` is
    /// the last item kept before it. Both are left as `same_bucket` leaves them. The removed items
    /// are dropped. Preserves the order of the others. Does not allocate: the items remain inline,
    /// or in the block.
    pub fn dedup_by<F: FnMut(&mut T, &mut T) -> bool + Drop>(&mut self, mut same_bucket: F)
        requires { IsCallableAlong (CalledAtPairMut F.FnMut) (CallableAtPairMut F.FnMut)
            same_bucket self.old.items }
        ensures { (last : F)
            × Deduplicates (CalledAtPairMut F.FnMut) same_bucket self.old last self.new }
    {
        self.dedup_within(&mut same_bucket);
    }

    /// Like `dedup_by`, but takes the closure by `&mut`, so that contracts describe its final
    /// state.
    ///
    /// Removes each item for which `same` returns `true` beside the last one kept before it. Both
    /// are left as `same` leaves them. Does not allocate: the items remain inline, or in the block.
    pub fn dedup_within<F: FnMut(&mut T, &mut T) -> bool>(&mut self, same: &mut F)
        requires { IsCallableAlong (CalledAtPairMut F.FnMut) (CallableAtPairMut F.FnMut)
            same.old self.old.items }
        ensures { Deduplicates (CalledAtPairMut F.FnMut) same.old self.old same.new self.new }
    {
        match &mut self.data {
            Data::InPlace(few, alloc) => return few.dedup_within(same, *alloc),
            Data::InBlock(heap) => heap.dedup_within(same),
        }
    }
}

// Returns whether the keys are equal. `key` is called for `item` first.
#[inline(always)]
fn same_keys<T, K: PartialEq + Drop, F: FnMut(&mut T) -> K>(
    key: &mut F,
    item: &mut T,
    last: &mut T,
) -> bool
    requires { CallableAtKeys F.FnMut key.old item.old last.old }
    ensures { ComparesKeys F.FnMut K.eq key.old item.old last.old result
        key.new item.new last.new }
{
    let first = call_on(key, item);
    let second = call_on(key, last);
    first == second
}

// Moves the items that do not equal the last one kept before them to the front, in order, by
// swaps. Returns how many there are.
fn move_distinct<T: PartialEq>(items: &mut [T]) -> usize
    ensures distinct { take result items.new ≡ dedup T.eq items.old }
    ensures count { length items.new ≡ length items.old }
{
    let len = items.len();
    if len < 2 {
        return len;
    }
    let mut kept = 1;
    'each: for i in 1..len {
        if items[i] != items[kept - 1] {
            items.swap(kept, i);
            kept += 1;
        }
    }
    kept
}
