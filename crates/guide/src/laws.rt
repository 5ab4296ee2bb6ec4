//! Conclusions from the library's laws. A law does nothing when it runs; after the call, the proof
//! has its fact.
ghost use Rattle.std.specs.Prelude.{◌≡◌, ◌+◌, ◌∷◌, ◌++◌, ◌==◌, ◌≤◌, fold, length, map, List, IfErr, IfOk, OnOk};
ghost use Rattle.std.specs.Fn.{CalledAtPairMut};
ghost use Rattle.std.specs.List.{AllByRecursion, IsDistinct};
ghost use Rattle.std.specs.List.Sorted.{IsSortedByKey};
ghost use Rattle.std.specs.Mem.{type_size};
ghost use Rattle.std.specs.Ordering.{nat_cmp};
ghost use Rattle.allocator_api2.specs.Choosing.{IsCallableAlong};
ghost use Rattle.allocator_api2.specs.Closures.{CallableAtPairMut};
ghost use Rattle.allocator_api2.specs.Copies.{ClonesAreEqual};
ghost use Rattle.allocator_api2.specs.Laws.{IsDone, NeighboursDiffer, TestsEquality};
ghost use Rattle.allocator_api2.specs.Vector.{HasRoom, new_capacity};
ghost use Rattle.allocator_api2.specs.declared.runner.Command.TheVariants.{Reserve, Within};
ghost use Rattle.allocator_api2.specs.declared.runner.Reply.{Reply};

use crate::chosen::distinct_keys;
use allocator_api2::collections::{Refused, TryReserveError};
use allocator_api2::laws::{
    boxed_lists_come_back, cut_lists_join_again, dedup_by_removes_all_duplicates_of_sorted,
    dedup_leaves_no_equal_neighbours, length_within_capacity, reserved_room_takes_pushes,
    vectors_are_equal_as_their_slices, vectors_are_ordered_as_their_slices,
    vectors_compare_as_their_slices, vectors_hash_as_their_slices,
};
use allocator_api2::runner::{Command, Reply, run};
use allocator_api2::vec::{SliceIntoVec, Vec};
use std::alloc::Allocator;
use std::cmp::Ordering;
use std::hash::{Hash, Hasher};

/// Returns how many more elements fit without an allocation.
pub fn spare<T, A: Allocator>(v: &Vec<T, A>) -> usize
    ensures { length v.now.items + result ≡ v.now.capacity }
{
    length_within_capacity(v);
    v.capacity() - v.len()
}

/// Splits the vector at an index and joins it again.
///
/// # Errors
/// If an allocation fails. If that was not the first one, the elements from `at` on are dropped.
pub fn cut_and_join<T: Drop, A: Allocator + Clone + Drop>(
    v: &mut Vec<T, A>,
    at: usize,
) -> Result<(), TryReserveError>
    requires { at ≤ length v.old.items }
    ensures { OnOk result (v.new.items ≡ v.old.items) }
{
    let mut tail = v.split_off(at)?;
    v.append(&mut tail)?;
    cut_lists_join_again::<T, A>();
    Ok(())
}

/// Returns the vector without its spare capacity, by way of a boxed slice.
///
/// # Errors
/// If the allocation fails, the vector is returned in the error.
pub fn without_spare<T, A: Allocator>(v: Vec<T, A>) -> Result<Vec<T, A>, Refused<Vec<T, A>>>
    ensures same { IfOk result (λ w. w.items ≡ v.items) }
    ensures capacity { IfOk result
        (λ w. w.capacity ≡ new_capacity (type_size T.row) (length v.items)) }
    ensures returned { IfErr result (λ r. r.source ≡ v) }
{
    boxed_lists_come_back::<T, A>();
    Ok(v.into_boxed_slice()?.into_vec())
}

/// Removes all but the first of each run of elements that `same` compares as equal.
pub fn without_repeats<T, S, A>(v: &mut Vec<T, A>, same: &mut S)
where
    T: PartialEq + Drop,
    S: FnMut(&mut T, &mut T) -> bool,
    A: Allocator,
    requires callable { IsCallableAlong (CalledAtPairMut S.FnMut) (CallableAtPairMut S.FnMut)
        same.old v.old.items }
    requires same { TestsEquality T.eq (CalledAtPairMut S.FnMut) }
    ensures { NeighboursDiffer T.eq v.new.items }
{
    v.dedup_within(same);
    dedup_leaves_no_equal_neighbours::<T, S>();
}

/// Removes all but the first pair of each key, of pairs that are sorted by their keys.
pub fn distinct_sorted_keys<A: Allocator>(v: &mut Vec<(u32, u32), A>)
    requires sorted { IsSortedByKey (λ p. p.0) nat_cmp v.old.items }
    ensures { IsDistinct (λ x y. x.0 == y.0) v.new.items }
{
    distinct_keys(v);
    dedup_by_removes_all_duplicates_of_sorted::<(u32, u32), u32>();
}

/// Runs a `Reserve`, and then a push within the capacity for each element that it reserves for.
///
/// If the reserve succeeds, so do all pushes.
pub fn reserve_and_push<T, A>(
    main: &mut Vec<T, A>,
    side: &mut Vec<T, A>,
    commands: Vec<Command<T, A>, A>,
    replies: &mut Vec<Reply<T>, A>,
)
where
    T: Clone + Drop,
    A: Allocator + Clone + Drop,
    requires ordered { (xs : List T)
        × (commands.items ≡ Reserve (length xs) ∷ map (λ x. Within x) xs) }
    requires room { HasRoom replies.old (length commands.items) }
    requires copies { ClonesAreEqual T.is_clone }
    ensures { (first : Reply T) × (others : List (Reply T))
        × (replies.new.items ≡ replies.old.items ++ first ∷ others)
        × (IsDone first → AllByRecursion IsDone others) }
{
    run(
        main,
        side,
        commands,
        &mut |_: &mut T| true,
        &mut |_: &mut T, _: &mut T| false,
        replies,
    );
    reserved_room_takes_pushes::<T, A>();
}

/// Compares two vectors that have the elements of two slices: whether they are equal, and their
/// order. The results are those of the slices.
pub fn compared<T: Ord, A: Allocator>(
    v: &Vec<T, A>,
    w: &Vec<T, A>,
    xs: &[T],
    ys: &[T],
) -> (bool, Option<Ordering>, Ordering)
    requires first { xs.now ≡ v.now.items }
    requires second { ys.now ≡ w.now.items }
    ensures same { result.0 ≡ ⟦<&'static [T] as PartialEq>⟧.eq xs.entry ys.entry }
    ensures order { (result.1 ≡ ⟦<&'static [T] as PartialOrd>⟧.partial_cmp xs.entry ys.entry)
        × (result.2 ≡ ⟦<&'static [T] as Ord>⟧.cmp xs.entry ys.entry) }
{
    vectors_are_equal_as_their_slices::<T, A>();
    vectors_compare_as_their_slices::<T, A>();
    vectors_are_ordered_as_their_slices::<T, A>();
    (v == w, v.partial_cmp(w), v.cmp(w))
}

/// Feeds a vector that has the elements of a slice into a hasher, which is then as after the slice.
pub fn feed<T: Hash, A: Allocator, H: Hasher>(v: &Vec<T, A>, xs: &[T], state: &mut H)
    requires { xs.now ≡ v.now.items }
    ensures { state.new ≡ fold H.write state.old (⟦<&'static [T] as Hash>⟧.hash_input xs.entry) }
{
    vectors_hash_as_their_slices::<T, A>();
    v.hash(state);
}
