//! Comparisons, hash and debug output of a small vector: those of its items as a slice.
ghost use Rattle.std.specs.Hash as fed;
ghost use Rattle.std.specs.Hash.{on_Alike, items_Alike};
ghost use Rattle.std.specs.Cmp.{on_equiv, on_total, on_po, on_per};
ghost use Rattle.std.specs.Cmp.Lexicographic.{pointwise, slice_cmp, slice_partial_cmp, lists_equiv, lists_agrees, lists_total, lists_ties, lists_po, lists_per};
ghost use Rattle.std.specs.Fmt.{debug_list};

use crate::inline::InlineVec;
use std::alloc::Allocator;
use std::cmp::Ordering;
use std::fmt;
use std::fmt::{Debug, Formatter};
use std::hash::{Hash, Hasher};

impl<T: Debug, A: Allocator, const N: usize> Debug for InlineVec<T, A, N> {
    ghost debug_output = { λ s. debug_list T.debug_output s.items };

    /// Formats the items as a slice formats them.
    fn fmt<W: fmt::Write>(&self, f: &mut Formatter<W>) -> fmt::Result {
        Debug::fmt(&self.as_slice(), f)
    }
}

impl<T: Hash, A: Allocator, const N: usize> Hash for InlineVec<T, A, N> {
    ghost hash_input = { λ s. fed.slice T.hash_input s.items };

    ghost respects_eq = { (on_Alike (λ s. s.items)
        (items_Alike (record { fed = T.respects_eq }))).fed };

    /// Feeds the length, and then the items in order, into the hasher `state`.
    fn hash<H: Hasher>(&self, state: &mut H) {
        self.as_slice().hash(state);
    }
}

impl<T: PartialEq, A: Allocator, const N: usize> PartialEq for InlineVec<T, A, N> {
    ghost eq = { λ left right. pointwise T.eq left.items right.items };

    ghost laws = { on_per (λ s. s.items) (lists_per T.laws) };

    /// Returns `true` if the items are equal, one by one.
    fn eq(&self, other: &Self) -> bool {
        self.as_slice() == other.as_slice()
    }
}

impl<T: Eq, A: Allocator, const N: usize> Eq for InlineVec<T, A, N> {
    ghost laws = { on_equiv (λ s. s.items) (lists_equiv T.Eq.laws) };
}

impl<T: PartialOrd, A: Allocator, const N: usize> PartialOrd for InlineVec<T, A, N> {
    ghost partial_cmp = { λ left right. slice_partial_cmp T.partial_cmp left.items right.items };

    ghost laws = { on_po (λ s. s.items) (lists_po T.PartialOrd.laws) };

    /// Returns the lexicographic order of the items, or `None` if they have none.
    ///
    /// That is the order of the first items that are not equal, or of the lengths if one list is a
    /// prefix of the other.
    fn partial_cmp(&self, other: &Self) -> Option<Ordering> {
        self.as_slice().partial_cmp(&other.as_slice())
    }
}

impl<T: Ord, A: Allocator, const N: usize> Ord for InlineVec<T, A, N> {
    ghost cmp = { λ left right. slice_cmp T.cmp left.items right.items };

    ghost total = { on_total (λ s. s.items) (lists_total T.total) };

    ghost matches_eq = { λ left right. lists_ties T.cmp T.matches_eq left.items right.items };

    ghost matches_partial_cmp = { λ left right.
        lists_agrees T.matches_partial_cmp left.items right.items };

    /// Returns the lexicographic order of the items.
    ///
    /// That is the order of the first items that are not equal, or of the lengths if one list is a
    /// prefix of the other.
    fn cmp(&self, other: &Self) -> Ordering {
        self.as_slice().cmp(&other.as_slice())
    }
}
