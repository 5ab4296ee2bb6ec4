//! Comparisons, hash and debug output of a vector: those of its elements as a slice.
ghost use Rattle.std.specs.Hash as fed;
ghost use Rattle.std.specs.Hash.{on_Alike, items_Alike};
ghost use Rattle.std.specs.Cmp.{on_equiv, on_total, on_po, on_per};
ghost use Rattle.std.specs.Cmp.Lexicographic.{pointwise, slice_cmp, slice_partial_cmp, lists_equiv, lists_agrees, lists_total, lists_ties, lists_po, lists_per};
ghost use Rattle.std.specs.Fmt.{debug_list};

use crate::vec::Vec;
use aa_boxed::slices::{compare, partial_compare, same};
use std::alloc::Allocator;
use std::cmp::Ordering;
use std::fmt;
use std::fmt::{Debug, Formatter};
use std::hash::{Hash, Hasher};

impl<T: Debug, A: Allocator> Debug for Vec<T, A> {
    ghost debug_output = { λ v. debug_list T.debug_output v.items };

    /// Formats the elements as a slice formats them.
    fn fmt<W: fmt::Write>(&self, f: &mut Formatter<W>) -> fmt::Result {
        Debug::fmt(&self.as_slice(), f)
    }
}

impl<T: Hash, A: Allocator> Hash for Vec<T, A> {
    ghost hash_input = { λ v. fed.slice T.hash_input v.items };

    ghost respects_eq = { (on_Alike (λ v. v.items)
        (items_Alike (record { fed = T.respects_eq }))).fed };

    /// Feeds the length, and then the elements in order, into the hasher `state`.
    fn hash<H: Hasher>(&self, state: &mut H) {
        self.as_slice().hash(state);
    }
}

impl<T: PartialEq, A: Allocator> PartialEq for Vec<T, A> {
    ghost eq = { λ left right. pointwise T.eq left.items right.items };

    ghost laws = { on_per (λ v. v.items) (lists_per T.laws) };

    /// Returns `true` if the elements are equal, one by one.
    fn eq(&self, other: &Self) -> bool {
        same(self.as_slice(), other.as_slice())
    }
}

impl<T: Eq, A: Allocator> Eq for Vec<T, A> {
    ghost laws = { on_equiv (λ v. v.items) (lists_equiv T.Eq.laws) };
}

impl<T: PartialOrd, A: Allocator> PartialOrd for Vec<T, A> {
    ghost partial_cmp = { λ left right. slice_partial_cmp T.partial_cmp left.items right.items };

    ghost laws = { on_po (λ v. v.items) (lists_po T.PartialOrd.laws) };

    /// Returns the order of the first elements that are not equal, or of the lengths if one list is
    /// a prefix of the other.
    fn partial_cmp(&self, other: &Self) -> Option<Ordering> {
        partial_compare(self.as_slice(), other.as_slice())
    }
}

impl<T: Ord, A: Allocator> Ord for Vec<T, A> {
    ghost cmp = { λ left right. slice_cmp T.cmp left.items right.items };

    ghost total = { on_total (λ v. v.items) (lists_total T.total) };

    ghost matches_eq = { λ left right. lists_ties T.cmp T.matches_eq left.items right.items };

    ghost matches_partial_cmp = { λ left right.
        lists_agrees T.matches_partial_cmp left.items right.items };

    /// Returns the order of the first elements that are not equal, or of the lengths if one list is
    /// a prefix of the other.
    fn cmp(&self, other: &Self) -> Ordering {
        compare(self.as_slice(), other.as_slice())
    }
}
