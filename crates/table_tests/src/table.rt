//! The hash table.
use aa_table::table::entry::Entry;
use aa_table::table::{Table, TryInsertError};
use allocator_api2::boxed::BoxedText;
use allocator_api2::collections::{TryReserveError, TryReserveErrorKind};
use allocator_api2::vec::Vec;
use std::alloc::{AllocError, Allocator, Global};
use std::default::{Emptied, MadeWith};
use std::hash::{BuildHasher, BuildHasherDefault, FoldHasher, Hash, Hasher};
use std::iter::Extend;
use std::mem;
use std::ops::Range;
use std::test::Fail;
use test_allocators::Faulty;

// A table over an allocator that may fail.
type Small<'a> = Table<u64, u64, BuildHasherDefault<FoldHasher>, &'a Faulty<Global>>;

fn none<'a>(heap: &'a Faulty<Global>) -> Small<'a> {
    Table::new_in(heap)
}

// The value of a key.
fn has(table: &Small<'_>, key: u64) -> Option<u64> {
    table.get(&key).copied()
}

// Whether keys with values of their own number go in as new ones.
fn takes(table: &mut Small<'_>, keys: Range<u64>) -> bool {
    let mut all = true;
    for key in keys {
        all = matches!(table.insert(key, key), Ok(None)) && all;
    }
    all
}

// Whether a key and its value go out.
fn returns_value(table: &mut Small<'_>, key: u64) -> bool {
    table.remove(&key) == Some(key)
}

// At a steady size no memory is requested.
#[test]
fn keys_are_inserted_and_removed_without_allocating(rt: HostRuntime) {
    for (count, times) in [(1u64, 1_000u64), (1_000, 20_000)] {
        let heap = Faulty::new(rt.alloc());
        let mut table = none(&heap);
        assert!(rt; takes(&mut table, 0..count));
        heap.fail_requests(0, u64::MAX);
        for turn in 0..times {
            let key = turn.checked_rem(count).unwrap_or(0);
            assert!(rt;
                returns_value(&mut table, key) && takes(&mut table, key..key.saturating_add(1))
            );
        }
        assert!(rt; heap.failures() == 0 && table.len() as u64 == count);
        table.clear();
        assert!(rt; table.is_empty() && has(&table, 0) == None);
        drop(table);
        assert!(rt; heap.outstanding() == 0);
    }
}

// What is seen of a table whose keys and values may not be dropped, over any allocator: the number
// of keys, how many its iterator has, and whether it has a key.
fn read<K: Eq + Hash, V, S: BuildHasher, A: Allocator>(
    table: &Table<K, V, S, A>,
    key: &K,
) -> (usize, usize, bool) {
    (table.len(), table.iter().len(), table.contains_key(key))
}

#[test]
fn values_are_written_and_all_are_seen(rt: HostRuntime) {
    let heap = Faulty::new(rt.alloc());
    let mut table = none(&heap);
    assert!(rt; takes(&mut table, 1..11));
    for key in 1u64..12 {
        match table.get_mut(&key) {
            Some(value) => *value = key.wrapping_mul(key),
            None => assert!(rt; key == 11),
        }
    }
    let mut sums = (0u64, 0u64);
    for (key, value) in table.iter() {
        sums = (sums.0.saturating_add(*key), sums.1.saturating_add(*value));
    }
    assert!(rt; sums == (55, 385) && read(&table, &10) == (10, 10, true));
    assert!(rt; table.insert(10, 0).ok() == Some(Some(100)) && table.allocator().requests() == 3);
}

#[test]
fn values_are_borrowed_all_at_once(rt: HostRuntime) {
    let heap = Faulty::new(rt.alloc());
    let mut table = none(&heap);
    assert!(rt; table.iter_mut().next().is_none() && takes(&mut table, 1..11));
    for (key, value) in &mut table {
        *value = key.wrapping_mul(3);
    }
    for value in table.values_mut() {
        *value = value.wrapping_add(1);
    }
    let (mut one, mut other) = (0, 0);
    let mut lent = table.iter_mut();
    assert!(rt; lent.len() == 10);
    if let (Some(first), Some(second)) = (lent.next(), lent.next()) {
        (one, other) = (*first.0, *second.0);
        mem::swap(first.1, second.1);
    }
    assert!(rt; lent.len() == 8);
    drop(lent);
    assert!(rt; one != other && has(&table, one) == Some(other.wrapping_mul(3).wrapping_add(1)));
    assert!(rt; has(&table, other) == Some(one.wrapping_mul(3).wrapping_add(1)));
    let mut sum = 0u64;
    for value in table.values() {
        sum = sum.saturating_add(*value);
    }
    assert!(rt; sum == 175 && heap.requests() == 3);
}

// Reserves capacity. Returns the spare capacity then, or the kind of the error.
fn reserved(table: &mut Small<'_>, additional: usize) -> Result<usize, TryReserveErrorKind> {
    match table.reserve(additional) {
        Ok(()) => Ok(table.room()),
        Err(error) => Err(error.kind()),
    }
}

// The capacity requested, the spare capacity then, and the requests that were made.
const ROOMS: [(usize, usize, u64); 5] = [
    (9, 9, 0),
    (10, 23, 3),
    (23, 23, 0),
    (100, 100, 3),
    (101, 205, 3),
];

#[test]
fn a_reserve_doubles_the_capacity_or_fits_all(rt: HostRuntime) {
    let heap = Faulty::new(rt.alloc());
    let mut table = none(&heap);
    assert!(rt; reserved(&mut table, 0) == Ok(0) && heap.requests() == 0);
    assert!(rt; takes(&mut table, 0..5));
    for (additional, room, requests) in ROOMS {
        let before = heap.requests();
        assert!(rt;
            reserved(&mut table, additional) == Ok(room),
            "{additional}"
        );
        assert!(rt;
            heap.requests().wrapping_sub(before) == requests,
            "{additional}"
        );
    }
    heap.fail_requests(0, u64::MAX);
    assert!(rt; takes(&mut table, 5..210) && (table.len(), table.capacity()) == (210, 210));
}

// Returns the entry in the error of a failed insert, and the kind of the error.
fn returned(table: &mut Small<'_>, key: u64) -> Option<((u64, u64), TryReserveErrorKind)> {
    match table.insert(key, 7) {
        Ok(_) => None,
        Err(back) => Some((back.source, back.error.kind())),
    }
}

fn too_many(capacity: usize) -> TryReserveErrorKind {
    TryReserveErrorKind::AllocError { capacity }
}

#[test]
fn an_error_has_the_number_requested(rt: HostRuntime) {
    let heap = Faulty::new(rt.alloc());
    let mut table = none(&heap);
    assert!(rt; takes(&mut table, 0..14));
    // The capacity requested, and with how many keys, as these are. The block of tags fails first,
    // then that of the overflow counts beside them, and then that of places.
    for skip in 0u64..3 {
        for (additional, capacity) in [(1, 28), (14, 28), (15, 29), (1000, 1014)] {
            heap.fail_requests(skip, 1);
            assert!(rt; reserved(&mut table, additional) == Err(too_many(capacity)));
        }
        heap.fail_requests(skip, 1);
        assert!(rt; returned(&mut table, 14) == Some(((14, 7), too_many(28))));
    }
    heap.fail_requests(0, 1000);
    let most = too_many(2_000_000_000);
    let none = TryReserveErrorKind::CapacityOverflow;
    for (additional, kind) in [
        (1_999_999_986, most),
        (1_999_999_987, none),
        (usize::MAX, none),
    ] {
        assert!(rt;
            reserved(&mut table, additional) == Err(kind),
            "{additional}"
        );
    }
    assert!(rt; (table.len(), has(&table, 7)) == (14, Some(7)));
}

// Hashers that make one number of all keys.
#[derive(Clone, Copy, Drop)]
struct Same;

impl Hasher for Same {
    ghost write = { λ s _. s };

    ghost finish = { λ _. 7 };

    fn finish(&self) -> u64 {
        7
    }

    fn write(&mut self, _bytes: &[u8]) {}
}

impl BuildHasher for Same {
    type Hasher = Same;

    ghost build_hasher = { λ s. s };

    fn build_hasher(&self) -> Same {
        *self
    }
}

// A table whose keys are texts in boxes, which all have one hash.
type Texts = Table<BoxedText<Global>, u64, Same, Global>;

fn key(heap: Global, word: &str) -> Option<BoxedText<Global>> {
    BoxedText::from_text(heap, word).ok()
}

// Sets the number of a text, and returns the old one.
fn put(table: &mut Texts, key: Option<BoxedText<Global>>, number: u64) -> Option<u64> {
    table.insert(key?, number).ok()?
}

// Removes a text, and returns its number.
fn taken(table: &mut Texts, key: Option<BoxedText<Global>>) -> Option<u64> {
    table.remove(&key?)
}

#[test]
fn texts_are_keys_by_any_hasher(rt: HostRuntime) {
    let heap = rt.alloc();
    let mut table: Texts = Table::with_hasher_in(Same, heap);
    for (word, number, old) in [("plum", 1, None), ("pear", 2, None), ("plum", 4, Some(1))] {
        assert!(rt; put(&mut table, key(heap, word), number) == old);
    }
    for (word, number) in [
        ("plum", Some(4)),
        ("quince", None),
        ("pear", Some(2)),
        ("plum", None),
    ] {
        assert!(rt; taken(&mut table, key(heap, word)) == number, "{word}");
    }
}

// More keys of one hash than the home group has slots are found by a borrowed form, and no others.
#[test]
fn texts_of_one_hash_are_looked_up_by_others(rt: HostRuntime) {
    let heap = rt.alloc();
    let words = [
        "a", "b", "c", "d", "e", "f", "g", "h", "i", "j", "k", "l", "m", "n", "o", "p", "q", "r",
    ];
    let mut table: Texts = Table::with_hasher_in(Same, heap);
    for word in &words {
        assert!(rt; put(&mut table, key(heap, word), 1).is_none());
    }
    for word in &words {
        assert!(rt;
            table.get(*word) == Some(&1) && table.remove(*word) == Some(1),
            "{word}"
        );
        assert!(rt; table.get(*word).is_none() && table.get("s").is_none());
    }
    assert!(rt; table.is_empty());
}

// The capacity of a vector of what comes, by each iterator that borrows.
fn collected(table: &Small<'_>, heap: &Faulty<Global>, way: u32) -> Option<usize> {
    match way {
        0 => Some(Vec::from_iter_in(table.iter(), heap).ok()?.capacity()),
        1 => Some(Vec::from_iter_in(table.keys(), heap).ok()?.capacity()),
        _ => Some(Vec::from_iter_in(table.values(), heap).ok()?.capacity()),
    }
}

// Each vector of what comes makes one block.
#[test]
fn iterators_know_their_length(rt: HostRuntime) -> Result<(), Fail> {
    let heap = Faulty::new(rt.alloc());
    let mut table: Small<'_> = Table::with_capacity_in(1000, &heap)?;
    assert!(rt; takes(&mut table, 0..1000) && heap.requests() == 3);
    for (way, requests) in [(0, 4), (1, 5), (2, 6)] {
        assert!(rt; collected(&table, &heap, way) == Some(1000) && heap.requests() == requests);
    }
    let mut shown = table.iter();
    assert!(rt; shown.next().is_some() && shown.next_back().is_some() && shown.len() == 998);
    let mut owned = table.into_iter();
    assert!(rt; owned.next().is_some() && owned.next_back().is_some());
    assert!(rt; Vec::from_iter_in(owned, &heap)?.capacity() == 998 && heap.requests() == 7);
    Ok(())
}

// Shrinks a table: the capacity then, or the error.
fn shrunk(table: &mut Small<'_>) -> Result<usize, TryReserveErrorKind> {
    match table.shrink_to_fit() {
        Ok(()) => Ok(table.capacity()),
        Err(error) => Err(error.kind()),
    }
}

// The bytes outstanding of a new table for so many keys.
fn of_new(alloc: Global, keys: usize) -> u64 {
    let heap = Faulty::new(alloc);
    let made: Result<Small<'_>, _> = Table::with_capacity_in(keys, &heap);
    match made {
        Ok(_table) => heap.outstanding(),
        Err(_) => u64::MAX,
    }
}

// Keys that are inserted, how many of them are removed, and the capacity and the requests of a
// shrink.
const SHRINKS: [(u64, u64, usize, u64); 7] = [
    (0, 0, 0, 0),
    (10, 0, 14, 0),
    (14, 0, 14, 0),
    (20, 0, 20, 0),
    (20, 20, 0, 0),
    (20, 6, 14, 3),
    (100, 70, 30, 3),
];

// A shrink leaves the memory of a new table, and allocates only if that is less.
#[test]
fn a_shrink_leaves_what_a_new_table_has(rt: HostRuntime) {
    for (keys, removed, capacity, requests) in SHRINKS {
        let heap = Faulty::new(rt.alloc());
        let mut table = none(&heap);
        assert!(rt; takes(&mut table, 0..keys));
        for key in 0..removed {
            assert!(rt; returns_value(&mut table, key));
        }
        let before = heap.requests();
        assert!(rt; shrunk(&mut table) == Ok(capacity), "{keys}");
        assert!(rt; heap.requests().wrapping_sub(before) == requests, "{keys}");
        assert!(rt;
            heap.outstanding() == of_new(rt.alloc(), table.len()),
            "{keys}"
        );
        assert!(rt; shrunk(&mut table) == Ok(capacity));
        assert!(rt; heap.requests().wrapping_sub(before) == requests, "{keys}");
    }
}

// A bound of a shrink of ten keys in a table for a hundred, the capacity and the requests then.
const BOUNDS: [(usize, usize, u64); 6] = [
    (0, 14, 3),
    (10, 14, 3),
    (20, 20, 3),
    (100, 100, 0),
    (112, 112, 0),
    (1_000, 112, 0),
];

#[test]
fn a_shrink_has_a_lower_bound(rt: HostRuntime) {
    for (bound, capacity, requests) in BOUNDS {
        let heap = Faulty::new(rt.alloc());
        let mut table = none(&heap);
        assert!(rt; takes(&mut table, 0..100));
        table.retain(|key, _| *key < 10);
        let before = heap.requests();
        assert!(rt;
            table.shrink_to(bound).is_ok() && table.capacity() == capacity,
            "{bound}"
        );
        assert!(rt; heap.requests().wrapping_sub(before) == requests, "{bound}");
        assert!(rt; table.len() == 10 && has(&table, 9) == Some(9), "{bound}");
    }
}

#[test]
fn a_shrink_that_fails_changes_nothing(rt: HostRuntime) {
    let heap = Faulty::new(rt.alloc());
    let mut table = none(&heap);
    assert!(rt; takes(&mut table, 0..100));
    for key in 0u64..90 {
        assert!(rt; returns_value(&mut table, key));
    }
    for (skip, left) in [
        (0, Err(too_many(14))),
        (1, Err(too_many(14))),
        (2, Err(too_many(14))),
        (3, Ok(14)),
    ] {
        let bytes = heap.outstanding();
        heap.fail_requests(skip, 1);
        assert!(rt; shrunk(&mut table) == left && has(&table, 99) == Some(99));
        assert!(rt; left.is_ok() || (table.capacity(), heap.outstanding()) == (112, bytes));
    }
}

#[test]
fn a_key_with_a_value_is_an_index(rt: HostRuntime) {
    let mut table = Table::new_in(rt.alloc());
    if let Ok(None) = table.insert(3u64, 4u64) {
        assert!(rt; table[&3] == 4);
    }
    assert!(rt; table.len() == 1);
}

// A table over the global allocator.
type Plain = Table<u64, u64, BuildHasherDefault<FoldHasher>, Global>;

// A table of pairs.
fn made(alloc: Global, pairs: &[(u64, u64)]) -> Result<Plain, AllocError> {
    pairs.iter().copied().collect(alloc)
}

// Whether a table is printed so, as its iterators are.
fn prints(alloc: Global, table: &Plain, text: &str) -> Result<bool, AllocError> {
    let (all, keys, values) = (table.iter(), table.keys(), table.values());
    let printed = format!(in alloc; "{table:?} {all:?} {keys:?} {values:?}")?;
    Ok(printed.as_str() == text)
}

#[test]
fn the_last_of_equal_keys_sets_the_value(rt: HostRuntime) -> Result<(), Fail> {
    let heap = rt.alloc();
    let mut table = made(heap, &[(1, 2), (3, 4), (1, 5)])?;
    let other = made(heap, &[(3, 4), (1, 5)])?;
    assert!(rt;
        table == other
            && table == table.clone()?
            && Plain::emptied(&table)? == Plain::made_with(heap)
    );
    table.extend([(1, 2)])?;
    assert!(rt; table != other && table.get(&1) == Some(&2));
    let mut copy = Plain::made_with(heap);
    Extend::extend(&mut copy, &table)?;
    assert!(rt; copy == table);
    let mut sum = 0u64;
    for (key, value) in &table {
        sum = sum.saturating_add(*key).saturating_add(*value);
    }
    for (key, value) in other {
        sum = sum.saturating_add(key).saturating_add(value);
    }
    assert!(rt; sum == 23 && prints(heap, &made(heap, &[(1, 2)])?, "{1: 2} [(1, 2)] [1] [2]")?);
    Ok(())
}

#[test]
fn an_entry_is_read_and_removed(rt: HostRuntime) {
    let heap = Faulty::new(rt.alloc());
    let mut table = none(&heap);
    assert!(rt; table.get_key_value(&3).is_none() && table.remove_entry(&3).is_none());
    assert!(rt; takes(&mut table, 0..10) && table.get_key_value(&3) == Some((&3, &3)));
    assert!(rt; table.remove_entry(&3) == Some((3, 3)) && table.remove_entry(&3) == None);
    assert!(rt; table.len() == 9 && heap.requests() == 3);
}

// The pair in the error of a failed `try_insert`, and the kind of the error if it is not that the
// key is present.
fn failed_try(
    table: &mut Small<'_>,
    key: u64,
    value: u64,
) -> Option<((u64, u64), Option<TryReserveErrorKind>)> {
    match table.try_insert(key, value) {
        Ok(lent) => {
            *lent = lent.wrapping_add(1);
            None
        }
        Err(TryInsertError::Occupied { key, value }) => Some(((key, value), None)),
        Err(TryInsertError::Refused(back)) => Some((back.source, Some(back.error.kind()))),
    }
}

#[test]
fn a_present_key_is_not_inserted(rt: HostRuntime) {
    let heap = Faulty::new(rt.alloc());
    let mut table = none(&heap);
    assert!(rt; failed_try(&mut table, 1, 2) == None && takes(&mut table, 2..15));
    heap.fail_requests(0, 1);
    assert!(rt; failed_try(&mut table, 15, 3) == Some(((15, 3), Some(too_many(28)))));
    assert!(rt; failed_try(&mut table, 1, 3) == Some(((1, 3), None)));
    assert!(rt; has(&table, 1) == Some(3) && has(&table, 15) == None);
}

#[test]
fn keys_that_a_closure_keeps_remain(rt: HostRuntime) {
    let heap = Faulty::new(rt.alloc());
    let mut table = none(&heap);
    assert!(rt; takes(&mut table, 0..100));
    let mut calls = 0u64;
    table.retain(|key, value| {
        calls = calls.wrapping_add(1);
        *value = value.wrapping_add(1);
        *key & 3 == 0
    });
    assert!(rt; calls == 100 && table.len() == 25 && table.capacity() == 112);
    assert!(rt; has(&table, 4) == Some(5) && has(&table, 5) == None);
}

#[test]
fn a_table_is_turned_into_keys_or_values(rt: HostRuntime) {
    let heap = Faulty::new(rt.alloc());
    let mut table = none(&heap);
    assert!(rt; takes(&mut table, 1..11));
    let mut keys = table.into_keys();
    let mut sum = 0u64;
    assert!(rt; keys.len() == 10 && keys.next().is_some());
    drop(keys);
    let mut table = none(&heap);
    assert!(rt; takes(&mut table, 1..11));
    for value in table.into_values() {
        sum = sum.saturating_add(value);
    }
    assert!(rt; sum == 55 && heap.outstanding() == 0);
}

#[test]
fn a_table_is_drained(rt: HostRuntime) {
    let heap = Faulty::new(rt.alloc());
    let mut table = none(&heap);
    assert!(rt; takes(&mut table, 1..11));
    let mut sum = 0u64;
    for (key, _) in table.drain() {
        sum = sum.saturating_add(key);
    }
    assert!(rt; sum == 55 && table.is_empty() && table.capacity() == 14);
    assert!(rt; takes(&mut table, 1..11));
    let mut drain = table.drain();
    assert!(rt; drain.len() == 10 && drain.next().is_some() && drain.len() == 9);
    drop(drain);
    assert!(rt; table.is_empty() && table.capacity() == 14 && has(&table, 1) == None);
}

// Counts a key once more. Returns how often it was counted then, or the kind of the error.
fn counted(table: &mut Small<'_>, key: u64) -> Result<u64, TryReserveErrorKind> {
    match table
        .entry(key)
        .and_modify(|n| *n = n.wrapping_add(1))
        .or_insert(1)
    {
        Ok(count) => Ok(*count),
        Err(back) => Err(back.error.kind()),
    }
}

#[test]
fn keys_are_counted_by_their_entries(rt: HostRuntime) {
    let heap = Faulty::new(rt.alloc());
    let mut table = none(&heap);
    assert!(rt; counted(&mut table, 3) == Ok(1) && counted(&mut table, 3) == Ok(2));
    assert!(rt; takes(&mut table, 4..17) && table.len() == 14);
    heap.fail_requests(0, 1);
    assert!(rt; counted(&mut table, 17) == Err(too_many(28)) && has(&table, 17) == None);
    assert!(rt; counted(&mut table, 3) == Ok(3) && has(&table, 3) == Some(3));
}

// Sets the value of a key to the sum of both, and then to 9. Returns the sum of the old value and of
// those two, or the key if it is absent.
fn seen(table: &mut Small<'_>, key: u64) -> Result<u64, u64> {
    match table.entry(key) {
        Entry::Occupied(mut entry) => {
            let sum = entry.get().wrapping_add(*entry.key());
            let old = entry.insert(sum);
            Ok(entry.insert(9).wrapping_add(old).wrapping_add(*entry.get()))
        }
        Entry::Vacant(entry) => Err(entry.into_key()),
    }
}

#[test]
fn an_entry_is_changed(rt: HostRuntime) {
    let heap = Faulty::new(rt.alloc());
    let mut table = none(&heap);
    assert!(rt; takes(&mut table, 1..11) && *table.entry(5).key() == 5);
    assert!(rt; seen(&mut table, 5) == Ok(24) && has(&table, 5) == Some(9));
    assert!(rt; seen(&mut table, 20) == Err(20) && *table.entry(20).key() == 20);
    assert!(rt; table.len() == 10 && heap.requests() == 3);
}

// The value of a key that is inserted by its entry, if it is absent: 7, or twice the key, or 0.
fn made_value(table: &mut Small<'_>, key: u64, way: u32) -> Option<u64> {
    match way {
        0 => Some(*table.entry(key).or_insert_with(|| 7).ok()?),
        1 => Some(
            *table
                .entry(key)
                .or_insert_with_key(|k| k.wrapping_mul(2))
                .ok()?,
        ),
        _ => Some(*table.entry(key).or_default().ok()?),
    }
}

#[test]
fn an_absent_key_is_given_a_value(rt: HostRuntime) {
    let heap = Faulty::new(rt.alloc());
    let mut table = none(&heap);
    for (key, way, value) in [
        (1, 0, 7),
        (2, 2, 0),
        (3, 1, 6),
        (1, 2, 7),
        (2, 1, 0),
        (3, 0, 6),
    ] {
        assert!(rt; made_value(&mut table, key, way) == Some(value), "{key}");
    }
    assert!(rt; table.len() == 3);
}

// Removes a key by its entry. Returns the stored key with its value, or the key if it is absent.
fn removed(table: &mut Small<'_>, key: u64) -> Result<(u64, u64), u64> {
    match table.entry(key) {
        Entry::Occupied(entry) => Ok(entry.remove_entry()),
        Entry::Vacant(entry) => Err(entry.into_key()),
    }
}

// Removes a key by its entry, and returns its value.
fn removed_value(table: &mut Small<'_>, key: u64) -> Option<u64> {
    match table.entry(key) {
        Entry::Occupied(entry) => Some(entry.remove()),
        Entry::Vacant(_) => None,
    }
}

#[test]
fn a_key_is_removed_by_its_entry(rt: HostRuntime) {
    let heap = Faulty::new(rt.alloc());
    let mut table = none(&heap);
    assert!(rt; takes(&mut table, 1..15) && heap.requests() == 3);
    assert!(rt; removed(&mut table, 5) == Ok((5, 5)) && removed(&mut table, 5) == Err(5));
    assert!(rt; removed_value(&mut table, 6) == Some(6) && removed_value(&mut table, 6) == None);
    assert!(rt; has(&table, 5) == None && has(&table, 7) == Some(7) && table.len() == 12);
    assert!(rt; takes(&mut table, 20..22) && table.capacity() == 14 && heap.requests() == 3);
}

// A table of pairs of which two have one key.
fn of_pairs(alloc: Global) -> Result<Table<u64, u64>, TryReserveError> {
    Table::from_iter_in([(1, 2), (2, 3), (1, 4)], alloc)
}

#[test]
fn the_last_value_of_a_key_is_kept(rt: HostRuntime) -> Result<(), Fail> {
    let table = of_pairs(rt.alloc())?;
    assert!(rt; table.len() == 2 && table.get(&1) == Some(&4));
    Ok(())
}
