//! Comparisons and hash of a text: those of its elements in order, wherever the cursor is.
ghost use Rattle.std.specs.Prelude.{◌≡◌};
ghost use Rattle.std.specs.Hash as fed;
ghost use Rattle.std.specs.Hash.{on_Alike, items_Alike};
ghost use Rattle.std.specs.Cmp.{on_equiv, on_total, on_po, on_per};
ghost use Rattle.std.specs.Cmp.Lexicographic.{pointwise, slice_cmp, slice_partial_cmp, lists_equiv, lists_agrees, lists_total, lists_ties, lists_po, lists_per};
ghost use Rattle.aa_gap.specs.Buffer.{text};

use crate::gap_buffer::GapBuffer;
use std::alloc::Allocator;
use std::cmp::Ordering;
use std::hash::{Hash, Hasher};

/// Returns `true` if the elements of the whole texts are equal, one by one.
///
/// The two allocators may be of different types.
pub fn same<T: PartialEq, A: Allocator, B: Allocator>(
    left: &GapBuffer<T, A>,
    right: &GapBuffer<T, B>,
) -> bool
    ensures { result ≡ pointwise T.eq (text left.now) (text right.now) }
{
    let mut items = left.iter();
    let mut others = right.iter();
    'each: loop {
        match (items.next(), others.next()) {
            (None, None) => return true,
            (Some(item), Some(other)) => {
                if *item != *other {
                    return false;
                }
            }
            _ => return false,
        }
    }
}

/// Returns the lexicographic order of the whole texts.
///
/// That is the order of the first elements that are not equal, which may be `None`. If one text is
/// a prefix of the other, it is the order of the lengths.
pub fn partial_compare<T: PartialOrd, A: Allocator, B: Allocator>(
    left: &GapBuffer<T, A>,
    right: &GapBuffer<T, B>,
) -> Option<Ordering>
    ensures { result ≡ slice_partial_cmp T.partial_cmp (text left.now) (text right.now) }
{
    let mut items = left.iter();
    let mut others = right.iter();
    'each: loop {
        match (items.next(), others.next()) {
            (None, None) => return Some(Ordering::Equal),
            (None, Some(_)) => return Some(Ordering::Less),
            (Some(_), None) => return Some(Ordering::Greater),
            (Some(item), Some(other)) => match item.partial_cmp(other) {
                Some(Ordering::Equal) => {}
                unequal => return unequal,
            },
        }
    }
}

/// Returns the lexicographic order of the whole texts.
///
/// That is the order of the first elements that are not equal. If one text is a prefix of the
/// other, it is the order of the lengths.
pub fn compare<T: Ord, A: Allocator, B: Allocator>(
    left: &GapBuffer<T, A>,
    right: &GapBuffer<T, B>,
) -> Ordering
    ensures { result ≡ slice_cmp T.cmp (text left.now) (text right.now) }
{
    let mut items = left.iter();
    let mut others = right.iter();
    'each: loop {
        match (items.next(), others.next()) {
            (None, None) => return Ordering::Equal,
            (None, Some(_)) => return Ordering::Less,
            (Some(_), None) => return Ordering::Greater,
            (Some(item), Some(other)) => match item.cmp(other) {
                Ordering::Equal => {}
                unequal => return unequal,
            },
        }
    }
}

impl<T: PartialEq, A: Allocator> PartialEq for GapBuffer<T, A> {
    ghost eq = { λ left right. pointwise T.eq (text left) (text right) };

    ghost laws = { on_per text (lists_per T.laws) };

    /// Returns `true` if the elements of the whole texts are equal, one by one.
    fn eq(&self, other: &Self) -> bool {
        same(self, other)
    }
}

impl<T: Eq, A: Allocator> Eq for GapBuffer<T, A> {
    ghost laws = { on_equiv text (lists_equiv T.Eq.laws) };
}

impl<T: PartialOrd, A: Allocator> PartialOrd for GapBuffer<T, A> {
    ghost partial_cmp = { λ left right. slice_partial_cmp T.partial_cmp (text left) (text right) };

    ghost laws = { on_po text (lists_po T.PartialOrd.laws) };

    /// Returns the lexicographic order of the whole texts, or `None` if the first elements that are
    /// not equal have none.
    fn partial_cmp(&self, other: &Self) -> Option<Ordering> {
        partial_compare(self, other)
    }
}

impl<T: Ord, A: Allocator> Ord for GapBuffer<T, A> {
    ghost cmp = { λ left right. slice_cmp T.cmp (text left) (text right) };

    ghost total = { on_total text (lists_total T.total) };

    ghost matches_eq = { λ left right.
        lists_ties T.cmp T.matches_eq (text left) (text right) };

    ghost matches_partial_cmp = { λ left right.
        lists_agrees T.matches_partial_cmp (text left) (text right) };

    /// Returns the lexicographic order of the whole texts.
    fn cmp(&self, other: &Self) -> Ordering {
        compare(self, other)
    }
}

impl<T: Hash, A: Allocator> Hash for GapBuffer<T, A> {
    ghost hash_input = { λ b. fed.slice T.hash_input (text b) };

    ghost respects_eq = { (on_Alike text (items_Alike (record { fed = T.respects_eq }))).fed };

    /// Feeds the length, and then the elements of the whole text in order, into the hasher `state`.
    fn hash<H: Hasher>(&self, state: &mut H) {
        state.write_usize(self.len());
        T::hash_slice(self.before(), state);
        T::hash_slice(self.after(), state);
    }
}
