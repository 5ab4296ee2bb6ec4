//! Comparisons of tables, as maps.
ghost use Rattle.std.specs.Prelude.{◌≡◌, Some};
ghost use Rattle.std.specs.Cmp.{on_equiv, on_per};
ghost use Rattle.std.specs.List.{list_all};
ghost use Rattle.std.specs.Option.{option_eq};
ghost use Rattle.aa_table.specs.Contents.{same_entries, value};
ghost use Rattle.aa_table.specs.SameEntries.{same-equiv, same-per};

use crate::table::Table;
use std::alloc::Allocator;
use std::hash::{BuildHasher, Hash};

// Returns `true` if `key` has a value in the table, and it is equal to `item`.
fn has<K: Eq + Hash, V: PartialEq, S: BuildHasher, A: Allocator>(
    table: &Table<K, V, S, A>,
    key: &K,
    item: &V,
) -> bool
    ensures { result ≡ option_eq V.eq (Some item.now) (value K.eq table.now.entries key.now) }
{
    match table.get(key) {
        Some(found) => *item == *found,
        None => false,
    }
}

// Returns `true` if each key of `left` has an equal value in `right`.
fn has_all<K: Eq + Hash, V: PartialEq, S: BuildHasher, A: Allocator>(
    left: &Table<K, V, S, A>,
    right: &Table<K, V, S, A>,
) -> bool
    ensures { result ≡ list_all
        (λ e. option_eq V.eq (Some e.1) (value K.eq right.now.entries e.0)) left.now.entries }
{
    'each: for (key, item) in left {
        if !has(right, key, item) {
            return false;
        }
    }
    true
}

impl<K: Eq + Hash, V: PartialEq, S: BuildHasher, A: Allocator> PartialEq for Table<K, V, S, A> {
    ghost eq = { λ left right. same_entries K.eq V.eq left.entries right.entries };

    ghost laws = { on_per (λ t. t.entries) (same-per K.eq V.eq K.Eq.laws V.laws) };

    /// Returns `true` if the tables have equal keys with equal values, in any order.
    fn eq(&self, other: &Self) -> bool {
        // No table has two equal keys, so keys that are all among as many others are the same.
        self.len() == other.len() && has_all(self, other)
    }
}

impl<K: Eq + Hash, V: Eq, S: BuildHasher, A: Allocator> Eq for Table<K, V, S, A> {
    ghost laws = { on_equiv (λ t. t.entries) (same-equiv K.eq V.eq K.Eq.laws V.Eq.laws) };
}
