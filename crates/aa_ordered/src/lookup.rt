//! The values by which a key is looked up.
ghost use Rattle.std.specs.Prelude.{◌≡◌};
ghost use Rattle.std.specs.Cmp.Lexicographic.{slice_cmp, lists_total, nat_list_cmp_total};
ghost use Rattle.std.specs.Ordering.{nat_cmp};
ghost use Rattle.std.specs.String.{string_bytes};
ghost use Rattle.std.specs.declared.cmp.Ordering.{Ordering};
ghost use Rattle.std.specs.declared.cmp.Ordering.TheVariants.{Less, Equal};

use allocator_api2::boxed::{BoxedSlice, BoxedText};
use allocator_api2::vec::Vec;
use std::alloc::Allocator;
use std::cmp::{Ord, Ordering};
use std::string::String;

/// A borrowed form of a key of type `K`, by which the key is looked up.
///
/// A `&K` is one for each `K`, a `&str` for texts and a slice for lists. A program can implement it
/// for types of its own. Corresponds to `Comparable` of equivalent, but calls take it by value.
pub trait Lookup<K: Ord>: Copy {
    // How what is looked up compares with a key.
    ghost order: { Self → K → Ordering };

    /// Compares what is looked up with `key`.
    fn compare(&self, key: &K) -> Ordering
        ensures { result ≡ order self.now key.now };

    // If it is less than a key, it is less than those after this key.
    ghost less_after: { (q : Self) (x y : K) → order q x ≡ Less → K.cmp x y ≡ Less
        → order q y ≡ Less };

    // If it is equal to a key, it compares with each key as this key does.
    ghost like_equal: { (q : Self) (x y : K) → order q x ≡ Equal → order q y ≡ K.cmp x y };
}

impl<K: Ord> Lookup<K> for &K {
    ghost order = { λ q k. K.cmp q.now k };

    ghost less_after = { λ q x y. K.total.trans q.now x y };

    ghost like_equal = { λ q x y. K.total.congr q.now x y };

    #[inline(always)]
    fn compare(&self, key: &K) -> Ordering {
        (**self).cmp(key)
    }
}

impl<A: Allocator> Lookup<String<A>> for &str {
    ghost order = { λ q k. slice_cmp nat_cmp q.now (string_bytes k) };

    ghost less_after = { λ q x y.
        nat_list_cmp_total.trans q.now (string_bytes x) (string_bytes y) };

    ghost like_equal = { λ q x y.
        nat_list_cmp_total.congr q.now (string_bytes x) (string_bytes y) };

    #[inline(always)]
    fn compare(&self, key: &String<A>) -> Ordering {
        (*self).cmp(key.as_str())
    }
}

impl<A: Allocator> Lookup<BoxedText<A>> for &str {
    ghost order = { λ q k. slice_cmp nat_cmp q.now k.bytes };

    ghost less_after = { λ q x y. nat_list_cmp_total.trans q.now x.bytes y.bytes };

    ghost like_equal = { λ q x y. nat_list_cmp_total.congr q.now x.bytes y.bytes };

    #[inline(always)]
    fn compare(&self, key: &BoxedText<A>) -> Ordering {
        (*self).cmp(key.as_str())
    }
}

impl<'b> Lookup<&'b str> for &str {
    ghost order = { λ q k. slice_cmp nat_cmp q.now k.now };

    ghost less_after = { λ q x y. nat_list_cmp_total.trans q.now x.now y.now };

    ghost like_equal = { λ q x y. nat_list_cmp_total.congr q.now x.now y.now };

    #[inline(always)]
    fn compare(&self, key: &&'b str) -> Ordering {
        (*self).cmp(*key)
    }
}

impl<E: Ord, A: Allocator> Lookup<Vec<E, A>> for &[E] {
    ghost order = { λ q k. slice_cmp E.cmp q.now k.items };

    ghost less_after = { λ q x y. (lists_total E.total).trans q.now x.items y.items };

    ghost like_equal = { λ q x y. (lists_total E.total).congr q.now x.items y.items };

    #[inline(always)]
    fn compare(&self, key: &Vec<E, A>) -> Ordering {
        (*self).cmp(&key.as_slice())
    }
}

impl<E: Ord, A: Allocator> Lookup<BoxedSlice<E, A>> for &[E] {
    ghost order = { λ q k. slice_cmp E.cmp q.now k.items };

    ghost less_after = { λ q x y. (lists_total E.total).trans q.now x.items y.items };

    ghost like_equal = { λ q x y. (lists_total E.total).congr q.now x.items y.items };

    #[inline(always)]
    fn compare(&self, key: &BoxedSlice<E, A>) -> Ordering {
        (*self).cmp(&key.as_slice())
    }
}
