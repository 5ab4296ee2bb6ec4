//! Removal of the keys that a closure does not keep.
ghost use Rattle.std.specs.Prelude.{◌≡◌, ◌+◌, ◌≤◌, length};
ghost use Rattle.aa_ordered.specs.Balance.{joined, lengths, position, IsAt, IsBalanced};
ghost use Rattle.aa_ordered.specs.Entries.{IsOrdered};
ghost use Rattle.aa_ordered.specs.Leaves.{list_at};
ghost use Rattle.aa_ordered.specs.Retaining.{MayReturn, Retains, Visits};

use super::OrderedMap;
use super::spots::{Spot, settle, take_at};
use crate::leaves::Leaves;
use std::alloc::Allocator;
use std::cmp::Ord;

// Calls `f` for an entry.
#[inline(always)]
fn call_for<K, V, F: FnMut(&K, &mut V) -> bool>(f: &mut F, entry: &mut (K, V)) -> bool
    requires { F.IsAlwaysCallable f.old }
    ensures callable { F.IsAlwaysCallable f.new }
    ensures called { MayReturn F.step f.old entry.old result entry.new.1 f.new }
    ensures same { entry.new.0 ≡ entry.old.0 }
{
    f(&entry.0, &mut entry.1)
}

// Calls `f` for the entry at a spot, and removes and drops it if `f` returns `false`.
//
// Returns the spot after it, and the number of removed entries.
fn visit<K: Drop, V: Drop, A: Allocator, F: FnMut(&K, &mut V) -> bool>(
    leaves: &mut Leaves<(K, V), A>,
    spot: Spot,
    f: &mut F,
) -> (Spot, usize)
    requires callable { F.IsAlwaysCallable f.old }
    requires balanced { IsBalanced (lengths leaves.old.lists) }
    requires item { IsAt leaves.old.lists spot.list spot.at }
    ensures callable { F.IsAlwaysCallable f.new }
    ensures balanced { IsBalanced (lengths leaves.new.lists) }
    ensures room { leaves.new.room ≡ leaves.old.room }
    ensures resizes { leaves.new.resizes ≡ leaves.old.resizes }
    ensures within { result.0.at ≤ length (list_at leaves.new result.0.list) }
    ensures visited { Visits F.step f.old (joined leaves.old.lists)
        (position leaves.old.lists spot.list spot.at) (joined leaves.new.lists)
        (position leaves.new.lists result.0.list result.0.at) f.new }
    ensures count { result.1 + length (joined leaves.new.lists)
        ≡ length (joined leaves.old.lists) }
    ensures few { result.1 ≤ 1 }
{
    leaves.prove_bounds();
    if call_for(f, leaves.item_mut(spot.list, spot.at)) {
        let next = Spot {
            list: spot.list,
            at: spot.at + 1,
        };
        return (next, 0);
    }
    let (entry, next) = take_at(leaves, spot);
    drop(entry);
    (next, 1)
}

// Removes and drops the entries for which `f` returns `false`, and returns their number.
fn retain_in<K: Ord + Drop, V: Drop, A: Allocator, F: FnMut(&K, &mut V) -> bool>(
    leaves: &mut Leaves<(K, V), A>,
    f: &mut F,
) -> usize
    requires callable { F.IsAlwaysCallable f.old }
    requires balanced { IsBalanced (lengths leaves.old.lists) }
    requires ordered { IsOrdered K.cmp (joined leaves.old.lists) }
    ensures balanced { IsBalanced (lengths leaves.new.lists) }
    ensures ordered { IsOrdered K.cmp (joined leaves.new.lists) }
    ensures room { leaves.new.room ≡ leaves.old.room }
    ensures resizes { leaves.new.resizes ≡ leaves.old.resizes }
    ensures kept { Retains F.step f.old (joined leaves.old.lists) (joined leaves.new.lists) f.new }
    ensures count { result + length (joined leaves.new.lists) ≡ length (joined leaves.old.lists) }
{
    leaves.prove_bounds();
    let mut removed = 0;
    let mut spot = settle(leaves, Spot { list: 0, at: 0 });
    'each: while spot.list < leaves.len() {
        let (next, count) = visit(leaves, spot, f);
        removed += count;
        spot = settle(leaves, next);
    }
    removed
}

impl<K: Ord + Drop, V: Drop, A: Allocator> OrderedMap<K, V, A> {
    /// Keeps only the keys for which `f` returns `true`, and lets `f` change their values.
    ///
    /// `f` is called once for each key with its value, in the order of the keys. The others are
    /// dropped. Does not allocate, and does not change the capacity.
    pub fn retain<F: FnMut(&K, &mut V) -> bool + Drop>(&mut self, mut f: F)
        requires { F.IsAlwaysCallable f }
        ensures kept { (last : F) × Retains F.step f self.old.entries self.new.entries last }
        ensures capacity { self.new.capacity ≡ self.old.capacity }
        ensures resizes { self.new.resizes ≡ self.old.resizes }
    {
        self.len -= retain_in(&mut self.leaves, &mut f);
    }
}
