//! Equality of slot maps, entry by entry in the order of the slots.
ghost use Rattle.std.specs.Prelude.{◌≡◌};
ghost use Rattle.std.specs.Cmp.{and_equiv, and_per, nat_eq_equiv, on_equiv, on_per, partial_equiv_from_equiv};
ghost use Rattle.std.specs.Cmp.Lexicographic.{lists_equiv, lists_per};
ghost use Rattle.aa_slots.specs.Iterating.{pair_of};
ghost use Rattle.aa_slots.specs.Slotted.{entries, same_entries, same_entry};

use crate::map::{Key, SlotMap};
use std::alloc::Allocator;

// Returns `true` if both the keys and the values are equal.
fn same_pair<T: PartialEq, K>(left: (Key<K>, &T), right: (Key<K>, &T)) -> bool
    ensures { result ≡ same_entry T.eq (pair_of left.entry) (pair_of right.entry) }
{
    let (key, other) = (left.0.data(), right.0.data());
    key.index == other.index && key.serial == other.serial && *left.1 == *right.1
}

impl<T: PartialEq + Drop, A: Allocator, K> PartialEq for SlotMap<T, A, K> {
    ghost eq = { same_entries T.eq };

    ghost laws = { on_per entries (lists_per (and_per (and_per
        (on_per (λ e. e.0.index) (partial_equiv_from_equiv nat_eq_equiv))
        (on_per (λ e. e.0.serial) (partial_equiv_from_equiv nat_eq_equiv)))
        (on_per (λ e. e.1) T.laws))) };

    /// Returns `true` if the maps have the same keys, each with equal values.
    ///
    /// Free slots, the capacity and the number of keys issued are not compared.
    fn eq(&self, other: &Self) -> bool {
        let mut pairs = self.iter();
        let mut others = other.iter();
        'each: loop {
            match (pairs.next(), others.next()) {
                (None, None) => return true,
                (Some(pair), Some(other)) => {
                    if !same_pair(pair, other) {
                        return false;
                    }
                }
                _ => return false,
            }
        }
    }
}

impl<T: Eq + Drop, A: Allocator, K> Eq for SlotMap<T, A, K> {
    ghost laws = { on_equiv entries (lists_equiv (and_equiv (and_equiv
        (on_equiv (λ e. e.0.index) nat_eq_equiv) (on_equiv (λ e. e.0.serial) nat_eq_equiv))
        (on_equiv (λ e. e.1) T.Eq.laws))) };
}
