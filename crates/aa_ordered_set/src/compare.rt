//! Comparisons and hashes of sets, element by element in ascending order.
ghost use Rattle.std.specs.Hash as fed;
ghost use Rattle.std.specs.Hash.{items_Alike, on_Alike};
ghost use Rattle.std.specs.Cmp.{on_equiv, on_per, on_po, on_total};
ghost use Rattle.std.specs.Cmp.Lexicographic.{pointwise, slice_cmp, slice_partial_cmp, lists_equiv, lists_agrees, lists_total, lists_ties, lists_po, lists_per};

use crate::set::OrderedSet;
use std::alloc::Allocator;
use std::cmp::{Ord, Ordering};
use std::hash::{Hash, Hasher};

impl<T: Ord, A: Allocator> PartialEq for OrderedSet<T, A> {
    ghost eq = { λ s t. pointwise T.eq s.elements t.elements };

    ghost laws = { on_per (λ s. s.elements) (lists_per T.PartialEq.laws) };

    /// Returns `true` if the elements are equal, one by one.
    fn eq(&self, other: &Self) -> bool {
        self.map == other.map
    }
}

impl<T: Ord, A: Allocator> Eq for OrderedSet<T, A> {
    ghost laws = { on_equiv (λ s. s.elements) (lists_equiv T.Eq.laws) };
}

impl<T: Ord, A: Allocator> PartialOrd for OrderedSet<T, A> {
    ghost partial_cmp = { λ s t. slice_partial_cmp T.partial_cmp s.elements t.elements };

    ghost laws = { on_po (λ s. s.elements) (lists_po T.PartialOrd.laws) };

    /// Returns the order of the first elements that are not equal, or of the lengths if one set has
    /// the first elements of the other.
    fn partial_cmp(&self, other: &Self) -> Option<Ordering> {
        self.map.partial_cmp(&other.map)
    }
}

impl<T: Ord, A: Allocator> Ord for OrderedSet<T, A> {
    ghost cmp = { λ s t. slice_cmp T.cmp s.elements t.elements };

    ghost total = { on_total (λ s. s.elements) (lists_total T.total) };

    ghost matches_partial_cmp = { λ s t. lists_agrees T.matches_partial_cmp s.elements t.elements };

    ghost matches_eq = { λ s t. lists_ties T.cmp T.matches_eq s.elements t.elements };

    /// Returns the order of the first elements that are not equal, or of the lengths if one set has
    /// the first elements of the other.
    fn cmp(&self, other: &Self) -> Ordering {
        self.map.cmp(&other.map)
    }
}

impl<T: Ord + Hash, A: Allocator> Hash for OrderedSet<T, A> {
    ghost hash_input = { λ s. fed.slice T.hash_input s.elements };

    ghost respects_eq = { (on_Alike (λ s. s.elements)
        (items_Alike (record { fed = T.respects_eq }))).fed };

    /// Feeds the length, and then each element in order, into the hasher `state`.
    fn hash<H: Hasher>(&self, state: &mut H) {
        self.map.hash(state);
    }
}
