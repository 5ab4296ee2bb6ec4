//! Laws that users of the vector rely on, as the contracts of functions that do nothing.
ghost use Rattle.std.specs.Prelude.{◌≤◌, Bool, List};
ghost use Rattle.std.specs.Fn.{CalledAtPairMut};
ghost use Rattle.std.specs.List.{IsDistinct, dedup};
ghost use Rattle.std.specs.List.Sorted.{IsSorted, IsSortedByKey};
ghost use Rattle.std.specs.Mem.{type_size};
ghost use Rattle.aa_vec.specs.Choosing.{Equals, Deduplicated};
ghost use Rattle.aa_vec.specs.Vector.{len};
ghost use Rattle.allocator_api2.specs.Laws.{ReserveHolds, CutIsJoined, NeighboursDiffer, LeavesNoRepeats, LeavesDistinct, BoxingKeeps};
ghost use Rattle.allocator_api2.specs.Comparing.{IsThatOfTheSlice, IsThatOfTheSlices, OrderAgrees};

use aa_vec::vec::Vec;
use std::alloc::Allocator;
use std::hash::Hash;

/// The length of a vector is never greater than its capacity.
pub fn length_within_capacity<T, A: Allocator>(v: &Vec<T, A>)
    ensures { len v.now ≤ v.now.capacity }
{
    v.prove_capacity_bounds();
}

/// After a successful `Reserve` of k, the next k commands of a run succeed if all of them are
/// `Within`.
#[tactic(auto, using(crate::proofs::Reserved::reserve_holds))]
pub fn reserved_room_takes_pushes<T, A: Allocator>()
    ensures { ReserveHolds T A (type_size T.row) }
{}

/// Splitting a list at an index and appending what was split off returns the same list, if both
/// succeed.
#[tactic(auto, using(crate::proofs::Joined::cut_is_joined))]
pub fn cut_lists_join_again<T, A: Allocator>()
    ensures { CutIsJoined T A (type_size T.row) }
{}

/// After `dedup`, no two neighbours are equal.
///
/// The same holds after `dedup_by`, or a `Dedup` of a run, if the closure returns whether its
/// arguments are equal and does not change them.
pub fn dedup_leaves_no_equal_neighbours<T, S>()
where
    T: PartialEq,
    S: FnMut(&mut T, &mut T) -> bool,
    ensures dedup { (xs left : List T) (results : List Bool)
        → Deduplicated (Equals T.eq) tt xs results tt left → NeighboursDiffer T.eq left }
    ensures dedup_by { LeavesNoRepeats T.eq (CalledAtPairMut S.FnMut) }
{}

/// `dedup` removes all duplicates from a sorted list: no two of the remaining elements are equal.
pub fn dedup_removes_all_duplicates_of_sorted<T: Ord>()
    ensures { (xs : List T) → IsSorted T.cmp xs → IsDistinct T.eq (dedup T.eq xs) }
{}

/// `dedup_by_key` removes all duplicates from a list that is sorted by the key: no two of the
/// remaining elements have equal keys.
///
/// `dedup_by` does so for a list that is sorted by any order. Its test returns `true` for two
/// elements exactly if neither is less than the other.
#[tactic(auto, using(crate::proofs::Distinct::leaves_distinct))]
pub fn dedup_by_removes_all_duplicates_of_sorted<T, K: Ord>()
    ensures by_key { (key : T → K) (xs : List T) → IsSortedByKey key K.cmp xs
        → IsDistinct (λ x y. K.eq (key x) (key y)) (dedup (λ x y. K.eq (key x) (key y)) xs) }
    ensures by { (same : T → T → Bool) → LeavesDistinct same }
{}

/// Converting a vector to a boxed slice and back returns the same list, with exact capacity.
///
/// Both together allocate as `shrink_to_fit` does.
///
/// If the conversion to a boxed slice fails, the vector is returned in the error.
pub fn boxed_lists_come_back<T, A: Allocator>()
    ensures { BoxingKeeps T A (type_size T.row) }
{}

/// Comparing two vectors with `==` returns the same as comparing the slices of their elements.
pub fn vectors_are_equal_as_their_slices<T: PartialEq, A: Allocator>()
    ensures { IsThatOfTheSlices ⟦<Vec<T, A> as PartialEq>⟧.eq ⟦<&'static [T] as PartialEq>⟧.eq }
{}

/// `partial_cmp` of two vectors returns the same as that of the slices of their elements.
pub fn vectors_compare_as_their_slices<T: PartialOrd, A: Allocator>()
    ensures { IsThatOfTheSlices ⟦<Vec<T, A> as PartialOrd>⟧.partial_cmp
        ⟦<&'static [T] as PartialOrd>⟧.partial_cmp }
{}

/// `cmp` of two vectors returns the same as that of the slices of their elements.
///
/// The order of vectors agrees with their equality if the order of the elements agrees with theirs.
pub fn vectors_are_ordered_as_their_slices<T: Ord, A: Allocator>()
    ensures order { IsThatOfTheSlices ⟦<Vec<T, A> as Ord>⟧.cmp ⟦<&'static [T] as Ord>⟧.cmp }
    ensures agrees { OrderAgrees T.eq T.cmp
        → OrderAgrees ⟦<Vec<T, A> as PartialEq>⟧.eq ⟦<Vec<T, A> as Ord>⟧.cmp }
{}

/// A vector hashes like the slice of its elements.
pub fn vectors_hash_as_their_slices<T: Hash, A: Allocator>()
    ensures { IsThatOfTheSlice ⟦<Vec<T, A> as Hash>⟧.hash_input
        ⟦<&'static [T] as Hash>⟧.hash_input }
{}
