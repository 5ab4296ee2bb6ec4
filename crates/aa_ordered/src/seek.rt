//! Search among entries in the order of their keys.
//!
//! Each step adds numbers in place of a choice, so that no jump depends on a comparison: such a
//! jump would be mispredicted half of the time.
ghost use Rattle.std.specs.Prelude.{◌≡◌, ◌+◌, ◌-◌, ◌*◌, ◌/◌, ◌<◌, ◌≤◌, drop, length, take, IfErr, IfOk};
ghost use Rattle.aa_ordered.specs.Entries.{AreGreater, AreLess, IsFound, IsGap, IsOrdered};

use crate::lookup::Lookup;
use std::cmp::{Ord, Ordering};

// Returns 1 if `key` is at least the key at index `at`, else 0.
#[inline(always)]
fn reaches<K: Ord, V, Q: Lookup<K>>(entries: &[(K, V)], key: Q, at: usize) -> usize
    requires ordered { IsOrdered K.cmp entries.now }
    requires within { at < length entries.now }
    ensures one { result ≤ 1 }
    ensures before { 0 < result → AreLess (Q.order key) (take at entries.now) }
    ensures after { result < 1 → AreGreater (Q.order key) (drop at entries.now) }
{
    match key.compare(&entries[at].0) {
        Ordering::Less => 0,
        Ordering::Equal => 1,
        Ordering::Greater => 1,
    }
}

// Returns how many of the `count` entries from index `low` on to pass over: three quarters at most,
// so that the key is among the next quarter of them and the rest of the division.
#[inline(always)]
fn step<K: Ord, V, Q: Lookup<K>>(entries: &[(K, V)], key: Q, low: usize, count: usize) -> usize
    requires ordered { IsOrdered K.cmp entries.now }
    requires within { low + count ≤ length entries.now }
    requires many { 4 ≤ count }
    requires before { AreLess (Q.order key) (take low entries.now) }
    requires after { AreGreater (Q.order key) (drop (low + count) entries.now) }
    ensures most { result ≤ 3 * (count / 4) }
    ensures before { AreLess (Q.order key) (take (low + result) entries.now) }
    ensures after { AreGreater (Q.order key)
        (drop (low + result + (count - 3 * (count / 4))) entries.now) }
{
    let part = count / 4;
    let first = reaches(entries, key, low + part);
    let second = reaches(entries, key, low + 2 * part);
    let third = reaches(entries, key, low + 3 * part);
    (first + second + third) * part
}

// Returns the first index of at most three entries among which the key is or belongs, and their
// number.
#[inline(always)]
fn narrow<K: Ord, V, Q: Lookup<K>>(entries: &[(K, V)], key: Q) -> (usize, usize)
    requires ordered { IsOrdered K.cmp entries.now }
    requires some { 0 < length entries.now }
    ensures some { 0 < result.1 }
    ensures few { result.1 < 4 }
    ensures within { result.0 + result.1 ≤ length entries.now }
    ensures before { AreLess (Q.order key) (take result.0 entries.now) }
    ensures after { AreGreater (Q.order key) (drop (result.0 + result.1) entries.now) }
{
    let mut low = 0;
    let mut count = entries.len();
    while count >= 4 {
        low += step(entries, key, low, count);
        count -= 3 * (count / 4);
    }
    (low, count)
}

// Returns the index of the last entry that `key` reaches, or 0 if it reaches none.
#[inline(always)]
fn last_reached<K: Ord, V, Q: Lookup<K>>(entries: &[(K, V)], key: Q) -> usize
    requires ordered { IsOrdered K.cmp entries.now }
    requires some { 0 < length entries.now }
    ensures within { result < length entries.now }
    ensures before { AreLess (Q.order key) (take result entries.now) }
    ensures after { AreGreater (Q.order key) (drop (result + 1) entries.now) }
{
    let (mut low, mut count) = narrow(entries, key);
    while count > 1 {
        low += reaches(entries, key, low + 1);
        count -= 1;
    }
    low
}

/// Returns `Ok` with the index of a key, or `Err` with the index at which to insert it.
///
/// Compares the key with at most 4 + 1.5 * log2(n) of n entries.
pub fn seek<K: Ord, V, Q: Lookup<K>>(entries: &[(K, V)], key: Q) -> Result<usize, usize>
    requires { IsOrdered K.cmp entries.now }
    ensures found { IfOk result (IsFound (Q.order key) entries.now) }
    ensures absent { IfErr result (IsGap (Q.order key) entries.now) }
{
    if entries.is_empty() {
        return Err(0);
    }
    let at = last_reached(entries, key);
    match key.compare(&entries[at].0) {
        Ordering::Less => Err(at),
        Ordering::Equal => Ok(at),
        Ordering::Greater => Err(at + 1),
    }
}
