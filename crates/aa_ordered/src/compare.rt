//! Comparisons and hashes of maps, entry by entry in the order of the keys.
ghost use Rattle.std.specs.Prelude.{◌≡◌, ◌&&◌, ◌++◌};
ghost use Rattle.std.specs.Hash as fed;
ghost use Rattle.std.specs.Hash.{and-Alike, items_Alike, on_Alike};
ghost use Rattle.std.specs.Cmp.{and_equiv, and_per, both_tied, on_equiv, on_per, on_po, on_total, then_agrees, then_po, then_total};
ghost use Rattle.std.specs.Cmp.Lexicographic.{pointwise, slice_cmp, slice_partial_cmp, lists_equiv, lists_agrees, lists_total, lists_ties, lists_po, lists_per};
ghost use Rattle.std.specs.Ordering.{ordering_then, partial_ordering_then};

use crate::map::OrderedMap;
use std::alloc::Allocator;
use std::cmp::{Ord, Ordering};
use std::hash::{Hash, Hasher};

// Returns `true` if both the keys and the values are equal.
fn same_entry<K: PartialEq, V: PartialEq>(left: (&K, &V), right: (&K, &V)) -> bool
    ensures { result ≡ (K.eq left.entry.0.now right.entry.0.now
        && V.eq left.entry.1.now right.entry.1.now) }
{
    *left.0 == *right.0 && *left.1 == *right.1
}

// Returns the order of the keys, or that of the values if the keys are equal.
fn partial_compare_entries<K: PartialOrd, V: PartialOrd>(
    left: (&K, &V),
    right: (&K, &V),
) -> Option<Ordering>
    ensures { result ≡ partial_ordering_then (K.partial_cmp left.entry.0.now right.entry.0.now)
        (V.partial_cmp left.entry.1.now right.entry.1.now) }
{
    match left.0.partial_cmp(right.0) {
        Some(Ordering::Equal) => left.1.partial_cmp(right.1),
        unequal => unequal,
    }
}

// Returns the order of the keys, or that of the values if the keys are equal.
fn compare_entries<K: Ord, V: Ord>(left: (&K, &V), right: (&K, &V)) -> Ordering
    ensures { result ≡ ordering_then (K.cmp left.entry.0.now right.entry.0.now)
        (V.cmp left.entry.1.now right.entry.1.now) }
{
    match left.0.cmp(right.0) {
        Ordering::Equal => left.1.cmp(right.1),
        unequal => unequal,
    }
}

impl<K: Ord, V: PartialEq, A: Allocator> PartialEq for OrderedMap<K, V, A> {
    ghost eq = { λ m n. pointwise (λ e f. K.eq e.0 f.0 && V.eq e.1 f.1) m.entries n.entries };

    ghost laws = { on_per (λ m. m.entries) (lists_per (and_per
        (on_per (λ e. e.0) K.PartialEq.laws) (on_per (λ e. e.1) V.laws))) };

    /// Returns `true` if the keys and the values are equal, one by one.
    fn eq(&self, other: &Self) -> bool {
        let mut entries = self.iter();
        let mut others = other.iter();
        'each: loop {
            match (entries.next(), others.next()) {
                (None, None) => return true,
                (Some(entry), Some(other)) => {
                    if !same_entry(entry, other) {
                        return false;
                    }
                }
                _ => return false,
            }
        }
    }
}

impl<K: Ord, V: Eq, A: Allocator> Eq for OrderedMap<K, V, A> {
    ghost laws = { on_equiv (λ m. m.entries) (lists_equiv (and_equiv
        (on_equiv (λ e. e.0) K.Eq.laws) (on_equiv (λ e. e.1) V.Eq.laws))) };
}

impl<K: Ord, V: PartialOrd, A: Allocator> PartialOrd for OrderedMap<K, V, A> {
    ghost partial_cmp = { λ m n. slice_partial_cmp (λ e f. partial_ordering_then
        (K.partial_cmp e.0 f.0) (V.partial_cmp e.1 f.1)) m.entries n.entries };

    ghost laws = { on_po (λ m. m.entries) (lists_po (then_po
        (on_po (λ e. e.0) K.PartialOrd.laws) (on_po (λ e. e.1) V.PartialOrd.laws))) };

    /// Returns the order of the first entries that are not equal, or of the lengths if one map has
    /// the first entries of the other.
    fn partial_cmp(&self, other: &Self) -> Option<Ordering> {
        let mut entries = self.iter();
        let mut others = other.iter();
        'each: loop {
            match (entries.next(), others.next()) {
                (None, None) => return Some(Ordering::Equal),
                (None, Some(_)) => return Some(Ordering::Less),
                (Some(_), None) => return Some(Ordering::Greater),
                (Some(entry), Some(other)) => match partial_compare_entries(entry, other) {
                    Some(Ordering::Equal) => {}
                    unequal => return unequal,
                },
            }
        }
    }
}

impl<K: Ord, V: Ord, A: Allocator> Ord for OrderedMap<K, V, A> {
    ghost cmp = { λ m n. slice_cmp (λ e f. ordering_then (K.cmp e.0 f.0) (V.cmp e.1 f.1))
        m.entries n.entries };

    ghost total = { on_total (λ m. m.entries) (lists_total (then_total
        (on_total (λ e. e.0) K.total) (on_total (λ e. e.1) V.total))) };

    ghost matches_partial_cmp = { λ left right. lists_agrees (then_agrees
        (λ e f. K.matches_partial_cmp e.0 f.0) (λ e f. V.matches_partial_cmp e.1 f.1))
        left.entries right.entries };

    ghost matches_eq = { λ left right. let keys = K.cmp in let values = V.cmp in
        lists_ties (λ e f. ordering_then (keys e.0 f.0) (values e.1 f.1))
        (λ e f. both_tied _ _ (keys e.0 f.0) (values e.1 f.1) (K.matches_eq e.0 f.0)
        (V.matches_eq e.1 f.1)) left.entries right.entries };

    /// Returns the order of the first entries that are not equal, or of the lengths if one map has
    /// the first entries of the other.
    fn cmp(&self, other: &Self) -> Ordering {
        let mut entries = self.iter();
        let mut others = other.iter();
        'each: loop {
            match (entries.next(), others.next()) {
                (None, None) => return Ordering::Equal,
                (None, Some(_)) => return Ordering::Less,
                (Some(_), None) => return Ordering::Greater,
                (Some(entry), Some(other)) => match compare_entries(entry, other) {
                    Ordering::Equal => {}
                    unequal => return unequal,
                },
            }
        }
    }
}

impl<K: Ord + Hash, V: Hash, A: Allocator> Hash for OrderedMap<K, V, A> {
    ghost hash_input = { λ m. fed.slice (λ e. K.hash_input e.0 ++ V.hash_input e.1) m.entries };

    ghost respects_eq = { (on_Alike (λ m. m.entries) (items_Alike (and-Alike
        (on_Alike (λ e. e.0) (record { fed = K.respects_eq }))
        (on_Alike (λ e. e.1) (record { fed = V.respects_eq }))))).fed };

    /// Feeds the length, and then each key with its value in order, into the hasher `state`.
    fn hash<H: Hasher>(&self, state: &mut H) {
        state.write_usize(self.len());
        let mut entries = self.iter();
        'each: while let Some((key, item)) = entries.next() {
            key.hash(state);
            item.hash(state);
        }
    }
}
