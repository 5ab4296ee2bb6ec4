//! Ranges of the entries of a map.
ghost use Rattle.std.specs.Prelude.{◌≡◌, ◌-◌, ◌<◌, ◌≤◌, ◌++◌, [], All, drop, false, filter, not, length, take, true};
ghost use Rattle.std.specs.BTreeMap.Range.{entries_between, is_from_start, is_past_end};
ghost use Rattle.std.specs.Iterator.{YieldsFirstBy, YieldsLastBy, item_count};
ghost use Rattle.std.specs.List.{HoldsAt};
ghost use Rattle.std.specs.List.Sorted.{IsStrictlySortedBy};
ghost use Rattle.std.specs.Map.{keys_of};
ghost use Rattle.std.specs.Range.Bound.{bound_map};
ghost use Rattle.aa_ordered.specs.Ranges.{items_of};
ghost use Rattle.aa_ordered.specs.Entries.{IsOrdered};
ghost use Rattle.aa_ordered.specs.Leaves.{items};
ghost use Rattle.aa_ordered.specs.Ranges.{entries_after, entries_before, is_before, Begins, IsPrefixTest};

use crate::iter::items::{Items, Lists};
use crate::leaves::Leaves;
use crate::map::OrderedMap;
use std::alloc::Allocator;
use std::cmp::Ordering;
use std::iter::FusedIterator;
use std::marker::Model;
use std::ops::{Bound, RangeBounds};

// Returns `true` if an entry is before the cut at `key`, which an equal key is if the cut is
// `after` it.
#[inline]
fn is_before<K: Ord, V>(key: &K, after: bool, entry: &(K, V)) -> bool
    ensures { result ≡ is_before K.cmp key.now after entry.now }
{
    match key.cmp(&entry.0) {
        Ordering::Less => false,
        Ordering::Equal => after,
        Ordering::Greater => true,
    }
}

// Returns the number of entries before the cut at `key`.
fn count_before<K: Ord, V>(entries: &[(K, V)], key: &K, after: bool) -> usize
    requires { IsPrefixTest (is_before K.cmp key.now after) entries.now }
    ensures within { result ≤ length entries.now }
    ensures before { All (λ e. is_before K.cmp key.now after e ≡ true) (take result entries.now) }
    ensures after { All (λ e. is_before K.cmp key.now after e ≡ false) (drop result entries.now) }
{
    let mut low = 0;
    let mut high = entries.len();
    while low < high {
        let middle = low + (high - low) / 2;
        if is_before(key, after, &entries[middle]) {
            low = middle + 1;
        } else {
            high = middle;
        }
    }
    low
}

// Returns `true` if the first of some entries is before the cut at `key`.
#[inline]
fn begins_before<K: Ord, V>(entries: &[(K, V)], key: &K, after: bool) -> bool
    requires { 0 < length entries.now }
    ensures { Begins (is_before K.cmp key.now after) result entries.now }
{
    is_before(key, after, &entries[0])
}

// Returns the number of lists whose first entry is before the cut at `key`.
fn lists_before<K: Ord, V, A: Allocator>(
    lists: &Lists<'_, (K, V), A>,
    key: &K,
    after: bool,
) -> usize
    requires { All (λ l. 0 < length l) lists.now }
    ensures within { result ≤ length lists.now }
    ensures before { 0 < result
        → HoldsAt (Begins (is_before K.cmp key.now after) true) lists.now (result - 1) }
    ensures after { result < length lists.now
        → HoldsAt (Begins (is_before K.cmp key.now after) false) lists.now result }
{
    let mut low = 0;
    let mut high = lists.len();
    while low < high {
        let middle = low + (high - low) / 2;
        if begins_before(lists.list(middle), key, after) {
            low = middle + 1;
        } else {
            high = middle;
        }
    }
    low
}

// Removes the entries before the cut at `key` from some lists, and returns those that are left of
// the list with the cut.
fn skip_before<'a, K: Ord, V, A: Allocator>(
    lists: &mut Lists<'a, (K, V), A>,
    key: &K,
    after: bool,
) -> &'a [(K, V)]
    requires some { All (λ l. 0 < length l) lists.old }
    requires sorted { IsPrefixTest (is_before K.cmp key.now after) (items_of lists.old) }
    ensures skipped { result.now ++ items_of lists.new
        ≡ entries_after K.cmp key.now after (items_of lists.old) }
    ensures some { All (λ l. 0 < length l) lists.new }
{
    let count = lists_before(lists, key, after);
    if count == 0 {
        return &[];
    }
    lists.skip(count - 1);
    match lists.take_first() {
        Some(list) => {
            let at = count_before(list, key, after);
            &list[at..]
        }
        None => unreachable!(),
    }
}

// Returns an iterator over the entries before the cut at `key`, of those in `front` and in lists
// after it.
fn up_to<'a, K: Ord, V, A: Allocator>(
    front: &'a [(K, V)],
    mut lists: Lists<'a, (K, V), A>,
    key: &K,
    after: bool,
) -> Items<'a, (K, V), A>
    requires some { All (λ l. 0 < length l) lists }
    requires sorted { IsPrefixTest (is_before K.cmp key.now after) (front.now ++ items_of lists) }
    ensures { result ≡ entries_before K.cmp key.now after (front.entry.now ++ items_of lists.entry) }
{
    let count = lists_before(&lists, key, after);
    lists.truncate(count);
    match lists.take_last() {
        Some(list) => {
            let at = count_before(list, key, after);
            Items::of(front, lists, &list[..at])
        }
        None => {
            let at = count_before(front, key, after);
            Items::of(&front[..at], lists, &[])
        }
    }
}

// Removes the entries of some lists that are not inside a start bound, and returns those that are
// left of the list with the first that is.
fn from_start<'a, K: Ord, V, A: Allocator>(
    lists: &mut Lists<'a, (K, V), A>,
    start: Bound<&K>,
) -> &'a [(K, V)]
    requires some { All (λ l. 0 < length l) lists.old }
    requires sorted { IsStrictlySortedBy K.cmp (keys_of (items_of lists.old)) }
    ensures from { result.now ++ items_of lists.new
        ≡ filter (λ e. is_from_start K.cmp (bound_map (λ x. x.now) start.entry) e.0)
        (items_of lists.old) }
    ensures some { All (λ l. 0 < length l) lists.new }
{
    match start {
        Bound::Included(key) => skip_before(lists, key, false),
        Bound::Excluded(key) => skip_before(lists, key, true),
        Bound::Unbounded => &[],
    }
}

// Returns an iterator over the entries inside an end bound, of those in `front` and in lists after
// it.
fn up_to_end<'a, K: Ord, V, A: Allocator>(
    front: &'a [(K, V)],
    lists: Lists<'a, (K, V), A>,
    end: Bound<&K>,
) -> Items<'a, (K, V), A>
    requires some { All (λ l. 0 < length l) lists }
    requires sorted { IsStrictlySortedBy K.cmp (keys_of (front.now ++ items_of lists)) }
    ensures { result ≡ filter
        (λ e. not (is_past_end K.cmp (bound_map (λ x. x.now) end.entry) e.0))
        (front.entry.now ++ items_of lists.entry) }
{
    match end {
        Bound::Included(key) => up_to(front, lists, key, true),
        Bound::Excluded(key) => up_to(front, lists, key, false),
        Bound::Unbounded => Items::of(front, lists, &[]),
    }
}

/// Returns an iterator over the entries of an arena whose keys are between two bounds.
fn between<'a, K: Ord, V, A: Allocator>(
    leaves: &'a Leaves<(K, V), A>,
    start: Bound<&K>,
    end: Bound<&K>,
) -> Items<'a, (K, V), A>
    requires some { All (λ l. 0 < length l) leaves.now.lists }
    requires sorted { IsStrictlySortedBy K.cmp (keys_of (items leaves.now)) }
    ensures { result ≡ entries_between K.cmp (bound_map (λ x. x.now) start.entry)
        (bound_map (λ x. x.now) end.entry) (items leaves.now) }
{
    let mut lists = Lists::all(leaves);
    let front = from_start(&mut lists, start);
    up_to_end(front, lists, end)
}

/// A double-ended iterator over the entries of a range of keys, in the order of the keys.
///
/// Returned by `OrderedMap::range`. A contract sees it as the list of the remaining entries.
#[derive(Drop)]
pub struct Range<'a, K, V, A: Allocator> {
    items: Items<'a, (K, V), A>,
}

impl<'a, K, V, A: Allocator> Model for Range<'a, K, V, A> {
    ghost use Rattle.std.specs.Prelude.{List};

    ghost Value = { List (K × V) };

    ghost view = { λ r. r.items };
}

impl<'a, K, V, A: Allocator> Range<'a, K, V, A> {
    // Returns an iterator over the same remaining entries.
    pub(crate) fn duplicate(&self) -> Self
        ensures { result ≡ self.now }
    {
        Range {
            items: self.items.duplicate(),
        }
    }
}

impl<'a, K, V, A: Allocator> Iterator for Range<'a, K, V, A> {
    type Item = (&'a K, &'a V);

    ghost next_gives = { YieldsFirstBy (λ item. (item.0.now, item.1.now)) (λ rest. rest) };

    ghost remaining = { item_count (λ rest. rest) };

    /// Returns the next key of the range with its value, or `None` if none remains.
    #[inline]
    fn next(&mut self) -> Option<(&'a K, &'a V)> {
        let entry = self.items.take_first()?;
        Some((&entry.0, &entry.1))
    }
}

impl<'a, K, V, A: Allocator> DoubleEndedIterator for Range<'a, K, V, A> {
    ghost next_back_gives = { YieldsLastBy (λ item. (item.0.now, item.1.now)) (λ rest. rest) };

    /// Returns the last remaining key of the range with its value, or `None` if none remains.
    #[inline]
    fn next_back(&mut self) -> Option<(&'a K, &'a V)> {
        let entry = self.items.take_last()?;
        Some((&entry.0, &entry.1))
    }
}

impl<'a, K, V, A: Allocator> FusedIterator for Range<'a, K, V, A> {}

impl<K: Ord, V, A: Allocator> OrderedMap<K, V, A> {
    /// Returns a double-ended iterator over the entries whose keys are in the range, in order.
    ///
    /// Finds both ends by binary search. A range that runs backwards is empty. Does not allocate.
    pub fn range<R: RangeBounds<K> + Drop>(&self, range: R) -> Range<'_, K, V, A>
        ensures between { R.has_bounds range → result
            ≡ entries_between K.cmp (R.start_bound range) (R.end_bound range) self.now.entries }
        ensures ordered { IsOrdered K.cmp self.now.entries }
    {
        Range {
            items: between(&self.leaves, range.start_bound(), range.end_bound()),
        }
    }
}
