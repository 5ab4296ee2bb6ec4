//! The values by which a key is looked up.
ghost use Rattle.std.specs.Prelude.{◌≡◌, Bool, true, nat_eq};
ghost use Rattle.std.specs.Cmp.Lexicographic.{pointwise, lists_equiv, nat_list_eq_equiv};
ghost use Rattle.std.specs.Cmp.Rules.{hashing};
ghost use Rattle.std.specs.Hash.{items_Alike};
ghost use Rattle.std.specs.String.{string_bytes};
ghost use Rattle.std.proofs.Common.{rules};

use allocator_api2::boxed::{BoxedSlice, BoxedText};
use allocator_api2::vec::Vec;
use std::alloc::Allocator;
use std::hash::Hash;
use std::string::String;

/// A borrowed form of a key of type `K`, by which the key is looked up.
///
/// A `&K` is one for each `K`, a `&str` for texts and a slice for lists. A program can implement it
/// for types of its own. Corresponds to `Equivalent` of hashbrown, but calls take it by value.
pub trait Lookup<K: Eq + Hash>: Copy + Hash {
    // The key is one that is looked up.
    ghost matches: { Self → K → Bool };

    /// Returns `true` if `key` is the key that is looked up, or equal to it.
    fn matches(&self, key: &K) -> bool
        ensures { result ≡ matches self.now key.now };

    // It has the hash of each key that it matches.
    ghost like_hash: { (q : Self) (k : K) → matches q k ≡ true
        → Self.hash_input q ≡ K.hash_input k };

    // If it matches a key, it matches those that are equal to this key, and no others.
    ghost like_eq: { (q : Self) (x y : K) → matches q x ≡ true → matches q y ≡ K.eq x y };
}

impl<K: Eq + Hash> Lookup<K> for &K {
    ghost matches = { λ q k. K.eq q.now k };

    ghost like_hash = { λ q k. K.respects_eq q.now k };

    ghost like_eq = { λ q x y. K.Eq.laws.congr q.now x y };

    #[inline(always)]
    fn matches(&self, key: &K) -> bool {
        **self == *key
    }
}

impl<A: Allocator> Lookup<String<A>> for &str {
    ghost matches = { λ q k. pointwise nat_eq q.now (string_bytes k) };

    ghost like_hash = { Prim.search (hashing, rules) };

    ghost like_eq = { λ q x y. nat_list_eq_equiv.congr q.now (string_bytes x) (string_bytes y) };

    #[inline(always)]
    fn matches(&self, key: &String<A>) -> bool {
        *self == key.as_str()
    }
}

impl<A: Allocator> Lookup<BoxedText<A>> for &str {
    ghost matches = { λ q k. pointwise nat_eq q.now k.bytes };

    ghost like_hash = { Prim.search (hashing, rules) };

    ghost like_eq = { λ q x y. nat_list_eq_equiv.congr q.now x.bytes y.bytes };

    #[inline(always)]
    fn matches(&self, key: &BoxedText<A>) -> bool {
        *self == key.as_str()
    }
}

impl<'b> Lookup<&'b str> for &str {
    ghost matches = { λ q k. pointwise nat_eq q.now k.now };

    ghost like_hash = { Prim.search (hashing, rules) };

    ghost like_eq = { λ q x y. nat_list_eq_equiv.congr q.now x.now y.now };

    #[inline(always)]
    fn matches(&self, key: &&'b str) -> bool {
        *self == *key
    }
}

impl<E: Eq + Hash, A: Allocator> Lookup<Vec<E, A>> for &[E] {
    ghost matches = { λ q k. pointwise E.eq q.now k.items };

    ghost like_hash = { λ q k. (items_Alike (record { fed = E.respects_eq })).fed q.now k.items };

    ghost like_eq = { λ q x y. (lists_equiv E.Eq.laws).congr q.now x.items y.items };

    #[inline(always)]
    fn matches(&self, key: &Vec<E, A>) -> bool {
        *self == key.as_slice()
    }
}

impl<E: Eq + Hash, A: Allocator> Lookup<BoxedSlice<E, A>> for &[E] {
    ghost matches = { λ q k. pointwise E.eq q.now k.items };

    ghost like_hash = { λ q k. (items_Alike (record { fed = E.respects_eq })).fed q.now k.items };

    ghost like_eq = { λ q x y. (lists_equiv E.Eq.laws).congr q.now x.items y.items };

    #[inline(always)]
    fn matches(&self, key: &BoxedSlice<E, A>) -> bool {
        *self == key.as_slice()
    }
}
