//! Look-ups by a borrowed form of the key: of a text by a `&str`.
ghost use Rattle.std.specs.Prelude.{◌≡◌, ◌&&◌, nat_eq};
ghost use Rattle.std.specs.Cmp.{first_so, second_so, nat_eq_equiv};
ghost use Rattle.std.specs.Cmp.Lexicographic.{pointwise, nat_list_eq_equiv};
ghost use Rattle.std.specs.Cmp.Rules.{hashing};
ghost use Rattle.std.specs.Map.{lookup};
ghost use Rattle.std.specs.Option.{option_copied};
ghost use Rattle.std.specs.String.{string_bytes};
ghost use Rattle.std.proofs.Common.{rules};

use aa_table::lookup::Lookup;
use aa_table::set::Set;
use aa_table::table::Table;
use allocator_api2::boxed::BoxedText;
use allocator_api2::vec::Vec;
use std::alloc::Global;

type Prices = Table<String, usize>;

// Returns the price of a fruit by its name, or `None` if there is none.
fn price<'a>(prices: &'a Prices, fruit: &str) -> Option<&'a usize>
    ensures { option_copied result
        ≡ lookup (λ name. pointwise nat_eq fruit.now (string_bytes name)) prices.now.entries }
{
    prices.get(fruit)
}

// Raises the price of a fruit, and returns the new one.
fn raise(prices: &mut Prices, fruit: &str) -> Option<usize> {
    let price = prices.get_mut(fruit)?;
    *price = price.saturating_add(1);
    Some(*price)
}

// Sets the price of each fruit to the number of its letters. Returns whether all are new.
fn fill(prices: &mut Prices, heap: Global, fruits: &[&str]) -> bool {
    let mut all = true;
    for fruit in fruits {
        let Ok(name) = String::from_str(heap, fruit) else {
            return false;
        };
        all = matches!(prices.insert(name, fruit.len()), Ok(None)) && all;
    }
    all
}

// Removes a fruit, and returns its price, if the stored entry is the one that was found before.
fn sold(prices: &mut Prices, fruit: &str) -> Option<usize> {
    let (found, price) = prices.get_key_value(fruit)?;
    let (is_found, price) = (found.as_str() == fruit, *price);
    let (name, last) = prices.remove_entry(fruit)?;
    (is_found && name.as_str() == fruit && last == price).then_some(price)
}

#[test]
fn texts_are_looked_up_by_what_they_say(rt: HostRuntime) {
    let heap = rt.alloc();
    let mut prices = Prices::new_in(heap);
    assert!(rt; fill(&mut prices, heap, &["apple", "pear", "plum", "quince"]));
    assert!(rt; price(&prices, "pear") == Some(&4) && price(&prices, "cherry").is_none());
    assert!(rt; raise(&mut prices, "pear") == Some(5) && raise(&mut prices, "pea").is_none());
    assert!(rt; prices.contains_key("plum") && !prices.contains_key("plums"));
    assert!(rt; prices.remove("pear") == Some(5) && prices.remove("pear").is_none());
    assert!(rt; price(&prices, "pear").is_none() && price(&prices, "apple") == Some(&5));
    assert!(rt; sold(&mut prices, "plum") == Some(4) && sold(&mut prices, "plum").is_none());
    assert!(rt; prices.len() == 2);
}

type Names = Set<BoxedText<Global>>;

// Adds names, and returns whether each is new.
fn add(names: &mut Names, heap: Global, all: &[&str]) -> bool {
    let mut new = true;
    for name in all {
        let Ok(name) = BoxedText::from_text(heap, name) else {
            return false;
        };
        new = matches!(names.insert(name), Ok(true)) && new;
    }
    new
}

// Removes a name, and returns its length.
fn removed(names: &mut Names, name: &str) -> Option<usize> {
    Some(names.take(name)?.as_str().len())
}

// Returns whether there is such a name, and it is the one that is looked for.
fn finds_itself(names: &Names, name: &str) -> bool {
    match names.get(name) {
        Some(found) => Lookup::matches(&name, found),
        None => false,
    }
}

#[test]
fn elements_are_looked_up_by_what_they_say(rt: HostRuntime) {
    let heap = rt.alloc();
    let mut names = Names::new_in(heap);
    assert!(rt; add(&mut names, heap, &["Ada", "Grace", "Barbara"]));
    assert!(rt; names.contains("Ada") && !names.contains("ada") && names.get("Adah").is_none());
    assert!(rt; finds_itself(&names, "Ada") && !finds_itself(&names, "Eve"));
    assert!(rt; removed(&mut names, "Grace") == Some(5) && removed(&mut names, "Grace").is_none());
    assert!(rt; names.remove("Ada") && !names.remove("Ada") && names.len() == 1);
}

// Returns the number of bytes of each list of bytes.
fn by_bytes(heap: Global, lists: &[&str]) -> Option<Table<Vec<u8>, usize>> {
    let mut table = Table::new_in(heap);
    for list in lists {
        let mut bytes = Vec::new_in(heap);
        bytes.extend_from_slice_copied(list.as_bytes()).ok()?;
        table.insert(bytes, list.len()).ok()?;
    }
    Some(table)
}

// The number that a list of bytes has in the table.
fn length_of(table: &Option<Table<Vec<u8>, usize>>, list: &[u8]) -> Option<usize> {
    table.as_ref()?.get(list).copied()
}

#[test]
fn lists_are_looked_up_by_slices(rt: HostRuntime) {
    let table = by_bytes(rt.alloc(), &["one", "three"]);
    assert!(rt; length_of(&table, b"three") == Some(5) && length_of(&table, &[]).is_none());
}

#[test]
fn borrowed_texts_are_looked_up_by_others(rt: HostRuntime) {
    let mut table: Table<&str, u32> = Table::new_in(rt.alloc());
    assert!(rt; table.insert("one", 1).is_ok() && table.insert("two", 2).is_ok());
    assert!(rt; table.get("two") == Some(&2) && table.get(&"one") == Some(&1));
    assert!(rt; table.remove("one") == Some(1) && table.get("one").is_none());
}

// A star: its constellation, and its number there.
#[derive(PartialEq, Eq, Hash, Drop)]
struct Star {
    constellation: BoxedText<Global>,
    number: u32,
}

// A borrowed form of a star.
#[derive(Clone, Copy, PartialEq, Eq, Hash)]
struct StarRef<'a> {
    constellation: &'a str,
    number: u32,
}

impl Lookup<Star> for StarRef<'_> {
    ghost matches = { λ q k. pointwise nat_eq q.constellation.now k.constellation.bytes
        && nat_eq q.number k.number };

    ghost like_hash = { Prim.search (hashing, rules) };

    ghost like_eq = { λ q x y same i.
        nat_list_eq_equiv.congr q.constellation.now x.constellation.bytes y.constellation.bytes
        (first_so _ _ same) i
        && nat_eq_equiv.congr q.number x.number y.number (second_so _ _ same) i };

    fn matches(&self, key: &Star) -> bool {
        self.constellation == key.constellation.as_str() && self.number == key.number
    }
}

// Returns the brightness of a star, if it is known.
fn brightness(stars: &Table<Star, u32>, constellation: &str, number: u32) -> Option<u32> {
    let star = StarRef {
        constellation,
        number,
    };
    stars.get(star).copied()
}

// Sets the brightness of a star.
fn observe(stars: &mut Table<Star, u32>, star: Option<Star>, brightness: u32) -> bool {
    match star {
        Some(star) => stars.insert(star, brightness).is_ok(),
        None => false,
    }
}

fn new_star(heap: Global, constellation: &str, number: u32) -> Option<Star> {
    let constellation = BoxedText::from_text(heap, constellation).ok()?;
    Some(Star {
        constellation,
        number,
    })
}

#[test]
fn keys_of_a_program_have_borrowed_forms(rt: HostRuntime) {
    let heap = rt.alloc();
    let mut stars = Table::new_in(heap);
    assert!(rt; observe(&mut stars, new_star(heap, "Cygni", 61), 5));
    assert!(rt; observe(&mut stars, new_star(heap, "Eridani", 40), 4));
    assert!(rt; brightness(&stars, "Cygni", 61) == Some(5));
    assert!(rt; brightness(&stars, "Cygni", 40).is_none());
    assert!(rt; brightness(&stars, "Eridani", 40) == Some(4));
}
