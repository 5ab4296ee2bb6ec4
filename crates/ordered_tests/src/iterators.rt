//! Iterators, ranges and the standard traits.
ghost use Rattle.std.specs.Prelude.{◌≡◌};
ghost use Rattle.std.specs.Map.{keys_of};

use aa_ordered::map::OrderedMap;
use std::alloc::{Allocator, Global};
use std::hash::{DefaultHasher, Hash, Hasher};
use std::ops::Bound;
use test_allocators::Faulty;

// A map over an allocator that may fail.
type Small<'a> = OrderedMap<u64, u64, &'a Faulty<Global>>;

// The number of keys between two.
fn count_between<A: Allocator>(map: &OrderedMap<u64, u64, A>, low: u64, high: u64) -> usize {
    let mut count = 0usize;
    'each: for _ in map.range(low..high) {
        count = count.wrapping_add(1);
    }
    count
}

// Adds a number to each value; the keys remain.
fn raise<A: Allocator>(map: &mut OrderedMap<u64, u64, A>, by: u64)
    ensures { keys_of map.new.entries ≡ keys_of map.old.entries }
{
    'each: for value in map.values_mut() {
        *value = value.wrapping_add(by);
    }
}

// The key of an entry whose value is borrowed by `&mut`, if there is one.
fn key_of(entry: Option<(&u64, &mut u64)>) -> Option<u64> {
    match entry {
        Some((key, _)) => Some(*key),
        None => None,
    }
}

// A map of the multiples of three below `end`, each with its half.
fn threes<'a>(heap: &'a Faulty<Global>, end: u64) -> Small<'a> {
    let mut map = OrderedMap::new_in(heap);
    for key in 0..end {
        if key % 3 == 0 {
            match map.insert(key, key / 2) {
                Ok(_) => {}
                Err(_) => {}
            }
        }
    }
    map
}

#[test]
fn entries_come_from_both_ends(rt: HostRuntime) {
    let heap = Faulty::new(rt.alloc());
    let map = threes(&heap, 900);
    let mut rest = map.iter();
    let mut pairs = 0u64;
    while let (Some(first), Some(last)) = (rest.next(), rest.next_back()) {
        assert!(rt; first.0.wrapping_add(*last.0) == 897 && *last.1 == *last.0 / 2);
        pairs = pairs.wrapping_add(1);
    }
    assert!(rt; pairs == 150 && rest.len() == 0 && rest.next().is_none());
    let mut keys = map.keys();
    assert!(rt; keys.next_back() == Some(&897) && keys.next() == Some(&0) && keys.len() == 298);
    assert!(rt; map.values().next_back() == Some(&448));
}

#[test]
fn ranges_have_both_ends(rt: HostRuntime) {
    let heap = Faulty::new(rt.alloc());
    let map = threes(&heap, 900);
    assert!(rt; count_between(&map, 30, 60) == 10 && count_between(&map, 31, 33) == 0);
    assert!(rt; count_between(&map, 60, 30) == 0 && count_between(&map, 0, 900) == 300);
    let mut some = map.range(31..=600);
    assert!(rt; some.next() == Some((&33, &16)) && some.next_back() == Some((&600, &300)));
    assert!(rt; map.range(..=2).next_back() == Some((&0, &0)));
    assert!(rt;
        map.range(897..).next_back() == Some((&897, &448)) && map.range(898..).next() == None
    );
    let mut inner = map.range((Bound::Excluded(30), Bound::Excluded(36)));
    assert!(rt; inner.next() == Some((&33, &16)) && inner.next() == None);
    for low in 0u64..300 {
        let mut part = map.range(low.wrapping_mul(3)..);
        assert!(rt; part.next() == map.iter().rev().nth(299 - low as usize));
    }
}

#[test]
fn values_are_lent_all_at_once(rt: HostRuntime) {
    let heap = Faulty::new(rt.alloc());
    let mut map = threes(&heap, 900);
    let before = heap.requests();
    for (key, value) in &mut map {
        *value = key.wrapping_mul(2);
    }
    raise(&mut map, 1);
    let mut lent = map.iter_mut();
    assert!(rt; lent.len() == 300);
    if let (Some(first), Some(second)) = (lent.next(), lent.next()) {
        std::mem::swap(first.1, second.1);
    }
    assert!(rt; lent.len() == 298);
    drop(lent);
    assert!(rt; map.get(&0) == Some(&7) && map.get(&3) == Some(&1));
    assert!(rt; map.get(&897) == Some(&1795) && heap.requests() == before);
}

#[test]
fn values_are_lent_from_both_ends(rt: HostRuntime) {
    let heap = Faulty::new(rt.alloc());
    let mut map = threes(&heap, 900);
    let mut lent = map.iter_mut();
    let mut pairs = 0u64;
    while let (Some(first), Some(last)) = (lent.next(), lent.next_back()) {
        assert!(rt; *first.0 == pairs.wrapping_mul(3) && first.0.wrapping_add(*last.0) == 897);
        std::mem::swap(first.1, last.1);
        pairs = pairs.wrapping_add(1);
    }
    assert!(rt; pairs == 150 && lent.next().is_none() && lent.next_back().is_none());
    drop(lent);
    for (key, value) in &map {
        assert!(rt; *value == 897u64.wrapping_sub(*key) / 2);
    }
}

#[test]
fn values_of_one_list_are_lent_from_both_ends(rt: HostRuntime) {
    let heap = Faulty::new(rt.alloc());
    let mut map = threes(&heap, 15);
    let mut lent = map.iter_mut();
    assert!(rt; key_of(lent.next_back()) == Some(12) && key_of(lent.next()) == Some(0));
    assert!(rt; key_of(lent.next()) == Some(3) && key_of(lent.next_back()) == Some(9));
    assert!(rt; lent.len() == 1 && key_of(lent.next_back()) == Some(6) && lent.len() == 0);
    assert!(rt; lent.next().is_none() && lent.next_back().is_none());
    drop(lent);
    let mut others = map.iter_mut();
    assert!(rt; key_of(others.next()) == Some(0) && key_of(others.next_back()) == Some(12));
}

#[test]
fn values_are_lent_in_reverse(rt: HostRuntime) {
    let heap = Faulty::new(rt.alloc());
    let mut map = threes(&heap, 900);
    let mut end = 900u64;
    for (key, value) in map.iter_mut().rev() {
        assert!(rt; key.wrapping_add(3) == end);
        end = *key;
        *value = end.wrapping_mul(2);
    }
    assert!(rt; end == 0 && map.get(&0) == Some(&0) && map.get(&897) == Some(&1794));
    let mut end = 1800u64;
    for value in map.values_mut().rev() {
        assert!(rt; value.wrapping_add(6) == end);
        end = *value;
        *value = end.wrapping_add(1);
    }
    assert!(rt; end == 0 && map.get(&0) == Some(&1) && map.get(&897) == Some(&1795));
    let mut empty = threes(&heap, 0);
    assert!(rt; empty.values_mut().next_back().is_none() && empty.iter_mut().next().is_none());
}

#[test]
fn owned_entries_come_from_both_ends(rt: HostRuntime) {
    let heap = Faulty::new(rt.alloc());
    let mut entries = threes(&heap, 900).into_iter();
    assert!(rt; entries.next() == Some((0, 0)) && entries.next_back() == Some((897, 448)));
    assert!(rt; entries.len() == 298);
    drop(entries);
    let mut keys = threes(&heap, 900).into_keys();
    assert!(rt; keys.next_back() == Some(897) && keys.next() == Some(0));
    drop(keys);
    let mut sum = 0u64;
    for value in threes(&heap, 30).into_values() {
        sum = sum.wrapping_add(value);
    }
    assert!(rt; sum == 65 && heap.outstanding() == 0);
}

#[test]
fn maps_are_collected_cloned_and_compared(rt: HostRuntime) {
    let heap = Faulty::new(rt.alloc());
    let map = threes(&heap, 300);
    let Ok(mut copy) = map.clone() else {
        assert!(rt; false);
        return;
    };
    assert!(rt; copy == map && copy.len() == 100);
    raise(&mut copy, 1);
    assert!(rt; copy != map && map < copy);
    let Ok(again) = OrderedMap::from_iter_in(map.into_iter().rev(), &heap) else {
        assert!(rt; false);
        return;
    };
    assert!(rt; again.len() == 100 && again.get(&297) == Some(&148));
    assert!(rt; copy.extend(again).is_ok() && copy.len() == 100 && copy.get(&297) == Some(&148));
    heap.fail_requests(0, 1);
    assert!(rt; copy.clone().is_err());
}

#[test]
fn a_map_is_formatted(rt: HostRuntime) {
    let heap = Faulty::new(rt.alloc());
    let map = threes(&heap, 7);
    match format!(in rt.alloc(); "{map:?}") {
        Ok(text) => assert!(rt; text.as_str() == "{0: 0, 3: 1, 6: 3}"),
        Err(_) => assert!(rt; false),
    }
}

fn hash_of<T: Hash>(value: &T) -> u64 {
    let mut hasher = DefaultHasher::new();
    value.hash(&mut hasher);
    hasher.finish()
}

#[test]
fn maps_hash_as_their_pairs(rt: HostRuntime) {
    let heap = Faulty::new(rt.alloc());
    let map = threes(&heap, 4);
    let (pairs, others): (&[(u64, u64)], &[(u64, u64)]) = (&[(0, 0), (3, 1)], &[(0, 0), (3, 2)]);
    assert!(rt; hash_of(&map) == hash_of(&pairs) && hash_of(&map) != hash_of(&others));
}
