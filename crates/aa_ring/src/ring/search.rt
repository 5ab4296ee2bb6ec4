//! Binary search in a ring of sorted items.
ghost use Rattle.std.specs.Prelude.{◌≡◌, ◌<◌, ◌≤◌, Bool, true, false, length, slice_index_or, IfOk, IfNone, IfSome, IsTrue, OnSome};
ghost use Rattle.std.specs.Fn.{CalledAt, ComputesKey};
ghost use Rattle.std.specs.List.{HoldsAt};
ghost use Rattle.std.specs.declared.cmp.Ordering.{Ordering};
ghost use Rattle.std.specs.declared.cmp.Ordering.TheVariants.{Equal, Greater};
ghost use Rattle.std.specs.List.Sorted.{IsBinarySearchResult, IsPartitionedBy, IsPartitionPoint, IsSearchInRange};

use crate::ring::Ring;
use std::alloc::Allocator;
use std::cmp::Ordering;

impl<T: Ord, A: Allocator> Ring<T, A> {
    /// Searches the items, which are sorted, for one that equals `x`.
    ///
    /// Returns the index of such an item. If there is none, returns the index at which `x` could be
    /// inserted so that the items remain sorted, as `Err`.
    pub fn binary_search(&self, x: &T) -> Result<usize, usize>
        ensures bound { IsSearchInRange result (length self.now.items) }
        ensures found { IfOk result (HoldsAt (λ y. T.cmp y x.now ≡ Equal) self.now.items) }
        ensures cases { IsBinarySearchResult (λ y. T.cmp y x.now) self.now.items result }
    {
        // The contract of `len` says that the number of items is a `usize`.
        let _len = self.len();
        let (first, others) = self.as_slices();
        if begins_above(others, x) {
            return first.binary_search(x);
        }
        match others.binary_search(x) {
            Ok(index) => Ok(first.len() + index),
            Err(index) => Err(first.len() + index),
        }
    }
}

impl<T, A: Allocator> Ring<T, A> {
    /// Searches the items by the closure `f`, which compares an item with the wanted one.
    ///
    /// Returns the index of an item at which `f` returns `Equal`. If there is none, returns as `Err`
    /// the index at which such an item could be inserted. For that the items must be in the order of
    /// `f`: first those that are `Less`, last those that are `Greater`.
    pub fn binary_search_by<F: FnMut(&T) -> Ordering>(&self, mut f: F) -> Result<usize, usize>
        requires { F.IsAlwaysCallable f }
        ensures bound { IsSearchInRange result (length self.now.items) }
        ensures cases { (ord : T → Ordering) → ComputesKey F.FnMut ord f
            → IsBinarySearchResult ord self.now.items result }
    {
        // The contract of `len` says that the number of items is a `usize`.
        let _len = self.len();
        let (first, others) = self.as_slices();
        let Some(item) = first_of(others) else {
            return first.binary_search_by(f);
        };
        if call_on(&mut f, item).is_gt() {
            return first.binary_search_by(f);
        }
        match others.binary_search_by(f) {
            Ok(at) => Ok(first.len() + at),
            Err(at) => Err(first.len() + at),
        }
    }

    /// Searches the items, which are sorted by the key that the closure `f` returns, for one whose
    /// key equals `b`.
    ///
    /// Returns the index of such an item. If there is none, returns as `Err` the index at which an
    /// item with the key `b` could be inserted so that the items remain sorted by their keys.
    pub fn binary_search_by_key<B: Ord, F: FnMut(&T) -> B>(
        &self,
        b: &B,
        mut f: F,
    ) -> Result<usize, usize>
    where
        B: Drop,
        requires { F.IsAlwaysCallable f }
        ensures bound { IsSearchInRange result (length self.now.items) }
        ensures cases { (key : T → B) → ComputesKey F.FnMut key f
            → IsBinarySearchResult (λ y. B.cmp (key y) b.now) self.now.items result }
    {
        // The contract of `len` says that the number of items is a `usize`.
        let _len = self.len();
        let (first, others) = self.as_slices();
        let Some(item) = first_of(others) else {
            return first.binary_search_by_key(b, f);
        };
        if call_on(&mut f, item).cmp(b).is_gt() {
            return first.binary_search_by_key(b, f);
        }
        match others.binary_search_by_key(b, f) {
            Ok(found) => Ok(first.len() + found),
            Err(place) => Err(first.len() + place),
        }
    }

    /// Returns the index of the first item at which `pred` returns `false`, or the length if there
    /// is none.
    ///
    /// The items must be partitioned: those at which `pred` returns `true` are before the others.
    pub fn partition_point<P: FnMut(&T) -> bool>(&self, mut pred: P) -> usize
        requires { P.IsAlwaysCallable pred }
        ensures bound { result ≤ length self.now.items }
        ensures partitioned { (p : T → Bool) → ComputesKey P.FnMut p pred
            → IsPartitionedBy p self.now.items
            → IsPartitionPoint (λ y. p y ≡ true) (λ y. p y ≡ false) self.now.items result }
    {
        // The contract of `len` says that the number of items is a `usize`.
        let _len = self.len();
        let (first, others) = self.as_slices();
        let Some(item) = first_of(others) else {
            return first.partition_point(pred);
        };
        if call_on(&mut pred, item) {
            return first.len() + others.partition_point(pred);
        }
        first.partition_point(pred)
    }
}

// Returns the first of the items, or `None` if there are none.
#[tactic(auto, using(std::proofs::lemmas::Option::get_or_from_slice_get))]
fn first_of<T>(items: &[T]) -> Option<&T>
    ensures none { IfNone result (length items.now ≡ 0) }
    ensures some { OnSome result (0 < length items.now) }
    ensures first { IfSome result (λ x. (d : T) → slice_index_or items.now 0 d ≡ x.now) }
{
    items.first()
}

// Calls `f` at `item`.
#[inline(always)]
fn call_on<T, R, F: FnMut(&T) -> R>(f: &mut F, item: &T) -> R
    requires { F.IsAlwaysCallable f.old }
    ensures callable { F.IsAlwaysCallable f.new }
    ensures called { CalledAt F.FnMut f.old item.now result f.new }
{
    f(item)
}

// Returns `true` if the first of the items is greater than `x`, or if there are none.
#[tactic(auto, using(std::proofs::lemmas::Option::get_or_from_slice_get))]
fn begins_above<T: Ord>(items: &[T], x: &T) -> bool
    ensures good { IsTrue result → (d : T) → 0 < length items.now
        → T.cmp (slice_index_or items.now 0 d) x.now ≡ Greater }
    ensures some { result ≡ false → 0 < length items.now }
    ensures found { result ≡ false → (d : T)
        → ¬ (T.cmp (slice_index_or items.now 0 d) x.now ≡ Greater) }
{
    match items.first() {
        Some(first) => first.cmp(x).is_gt(),
        None => true,
    }
}
