//! Look-ups by a borrowed form of the key: of a text by a `&str`.
ghost use Rattle.std.specs.Prelude.{◌≡◌};
ghost use Rattle.std.specs.BTreeMap.{is_at};
ghost use Rattle.std.specs.Cmp.Lexicographic.{slice_cmp};
ghost use Rattle.std.specs.Map.{lookup};
ghost use Rattle.std.specs.Option.{option_copied};
ghost use Rattle.std.specs.Ordering.{nat_cmp};
ghost use Rattle.std.specs.String.{string_bytes};

use aa_ordered::lookup::Lookup;
use aa_ordered::map::OrderedMap;
use allocator_api2::vec::Vec;
use std::alloc::Global;
use std::cmp::Ordering;
use std::string::String;

type Prices = OrderedMap<String, usize>;

// Returns the price of a fruit by its name, or `None` if there is none.
fn price<'a>(prices: &'a Prices, fruit: &str) -> Option<&'a usize>
    ensures { option_copied result
        ≡ lookup (is_at (λ name. slice_cmp nat_cmp fruit.now (string_bytes name)))
        prices.now.entries }
{
    prices.get(fruit)
}

// Raises the price of a fruit, and returns the new one.
fn raise(prices: &mut Prices, fruit: &str) -> Option<usize> {
    let price = prices.get_mut(fruit)?;
    *price = price.saturating_add(1);
    Some(*price)
}

// Sets the price of each fruit to the number of its letters. Returns whether all are new.
fn fill(prices: &mut Prices, heap: Global, fruits: &[&str]) -> bool {
    let mut all = true;
    for fruit in fruits {
        let Ok(name) = String::from_str(heap, fruit) else {
            return false;
        };
        all = matches!(prices.insert(name, fruit.len()), Ok(None)) && all;
    }
    all
}

// Removes a fruit, and returns its price, if the stored entry is the one that was found before.
fn sold(prices: &mut Prices, fruit: &str) -> Option<usize> {
    let (found, price) = prices.get_key_value(fruit)?;
    let (is_found, price) = (found.as_str() == fruit, *price);
    let (name, last) = prices.remove_entry(fruit)?;
    (is_found && name.as_str() == fruit && last == price).then_some(price)
}

#[test]
fn texts_are_looked_up_by_what_they_say(rt: HostRuntime) {
    let heap = rt.alloc();
    let mut prices = Prices::new_in(heap);
    assert!(rt;
        fill(
            &mut prices,
            heap,
            &["quince", "apple", "plum", "pear", "fig", "lime"]
        )
    );
    assert!(rt; price(&prices, "pear") == Some(&4) && price(&prices, "cherry").is_none());
    assert!(rt; raise(&mut prices, "pear") == Some(5) && raise(&mut prices, "pea").is_none());
    assert!(rt; prices.contains_key("plum") && !prices.contains_key("plums"));
    assert!(rt; prices.remove("pear") == Some(5) && prices.remove("pear").is_none());
    assert!(rt; price(&prices, "pear").is_none() && price(&prices, "apple") == Some(&5));
    assert!(rt; sold(&mut prices, "plum") == Some(4) && sold(&mut prices, "plum").is_none());
    assert!(rt; prices.len() == 4);
}

// Returns the number of bytes of each list of bytes.
fn by_bytes(heap: Global, lists: &[&str]) -> Option<OrderedMap<Vec<u8>, usize>> {
    let mut map = OrderedMap::new_in(heap);
    for list in lists {
        let mut bytes = Vec::new_in(heap);
        bytes.extend_from_slice_copied(list.as_bytes()).ok()?;
        map.insert(bytes, list.len()).ok()?;
    }
    Some(map)
}

// The number that a list of bytes has in the map.
fn length_of(map: &Option<OrderedMap<Vec<u8>, usize>>, list: &[u8]) -> Option<usize> {
    map.as_ref()?.get(list).copied()
}

#[test]
fn lists_are_looked_up_by_slices(rt: HostRuntime) {
    let map = by_bytes(rt.alloc(), &["one", "three"]);
    assert!(rt; length_of(&map, b"three") == Some(5) && length_of(&map, &[]).is_none());
}

#[test]
fn borrowed_texts_are_looked_up_by_others(rt: HostRuntime) {
    let mut map: OrderedMap<&str, u32> = OrderedMap::new_in(rt.alloc());
    assert!(rt; map.insert("two", 2).is_ok() && map.insert("one", 1).is_ok());
    assert!(rt; map.get("two") == Some(&2) && map.get(&"one") == Some(&1));
    assert!(rt; map.remove("one") == Some(1) && map.get("one").is_none());
    assert!(rt; Lookup::compare(&"one", &"two") == Ordering::Less);
}
