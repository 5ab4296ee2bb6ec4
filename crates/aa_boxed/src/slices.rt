//! Comparisons of two slices, element by element; boxed slices and vectors compare as their slices
//! do.
ghost use Rattle.std.specs.Prelude.{◌≡◌, ◌<◌};
ghost use Rattle.std.specs.Cmp.Lexicographic.{pointwise, slice_cmp, slice_partial_cmp};

use aa_raw::size::element_size;
use std::cmp::Ordering;

/// Returns `true` if two slices are equal, element by element.
///
/// Vectors over different allocators are compared by their slices, and so are a vector and a boxed
/// slice or an array. Corresponds to allocator-api2's `PartialEq` between different types.
pub fn same<'a, T: PartialEq>(left: &'a [T], right: &'a [T]) -> bool
    ensures { result ≡ pointwise T.eq left.now right.now }
{
    PartialEq::eq(&left, &right)
}

/// Returns the lexicographic order of two slices, or `None` if they have none.
///
/// That is the order of the first elements that are not equal, or of the lengths if one slice is a
/// prefix of the other.
pub fn partial_compare<'a, T: PartialOrd>(left: &'a [T], right: &'a [T]) -> Option<Ordering>
    ensures { result ≡ slice_partial_cmp T.partial_cmp left.now right.now }
{
    // Larger elements may be pointers. What these point to is compared only once.
    if element_size::<T>() > 4 {
        return left.partial_cmp(&right);
    }
    let (left, right) = past_equal(512, left, right);
    let (left, right) = past_equal(32, left, right);
    let (left, right) = past_equal(1, left, right);
    left.partial_cmp(&right)
}

// Returns what follows the equal groups of `group` elements at the fronts of two slices. The
// elements of a group are compared many at a time, and for equality alone.
#[tactic(auto, using(crate::proofs::Comparing::passed))]
#[inline(always)]
fn past_equal<'a, T: PartialOrd>(group: usize, left: &'a [T], right: &'a [T]) -> (&'a [T], &'a [T])
    requires { 0 < group }
    ensures { slice_partial_cmp T.partial_cmp result.0.now result.1.now
        ≡ slice_partial_cmp T.partial_cmp left.now right.now }
{
    let (mut left, mut right) = (left, right);
    'each: while left.len() >= group && right.len() >= group {
        let (front, rest) = left.split_at(group);
        let (other, others) = right.split_at(group);
        if front != other {
            break;
        }
        left = rest;
        right = others;
    }
    (left, right)
}

/// Returns the lexicographic order of two slices.
///
/// That is the order of the first elements that are not equal, or of the lengths if one slice is a
/// prefix of the other.
pub fn compare<'a, T: Ord>(left: &'a [T], right: &'a [T]) -> Ordering
    ensures { result ≡ slice_cmp T.cmp left.now right.now }
{
    left.cmp(&right)
}
