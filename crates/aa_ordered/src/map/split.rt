//! Splitting a map at a key.
ghost use Rattle.std.specs.Prelude.{◌≡◌, ◌-◌, ◌*◌, ◌≤◌, [], drop, length, take, false, IfErr, IfOk, IsOk, OnErr, OnOk};
ghost use Rattle.allocator_api2.specs.Errors.{IsErrorFor};
ghost use Rattle.aa_ordered.specs.Balance.{joined};
ghost use Rattle.aa_ordered.specs.Capacity.{capacity_of, fresh_resizes, leaves_for};
ghost use Rattle.aa_ordered.specs.Entries.{IsOrdered};
ghost use Rattle.aa_ordered.specs.Ranges.{entries_after, entries_before};

use super::OrderedMap;
use super::find::find;
use crate::leaves::Leaves;
use allocator_api2::collections::TryReserveError;
use std::alloc::Allocator;
use std::cmp::Ord;

// Returns the number of items in the lists before index `end`.
fn count_in<T, A: Allocator>(leaves: &Leaves<T, A>, end: usize) -> usize
    requires { end ≤ length leaves.now.lists }
    ensures { result ≡ length (joined (take end leaves.now.lists)) }
{
    leaves.prove_bounds();
    let mut count = 0;
    let mut i = 0;
    'each: while i < end {
        count += leaves.list(i).len();
        i += 1;
    }
    count
}

impl<K: Ord, V, A: Allocator> OrderedMap<K, V, A> {
    // Returns the number of entries with keys less than `key`.
    fn count_below(&self, key: &K) -> usize
        ensures before { entries_before K.cmp key.now false self.now.entries
            ≡ take result self.now.entries }
        ensures after { entries_after K.cmp key.now false self.now.entries
            ≡ drop result self.now.entries }
        ensures within { result ≤ length self.now.entries }
    {
        if self.leaves.len() == 0 {
            return 0;
        }
        let spot = match find(&self.leaves, key) {
            Ok(spot) => spot,
            Err(spot) => spot,
        };
        self.leaves.prove_bounds();
        count_in(&self.leaves, spot.list) + spot.at
    }
}

impl<K: Ord + Drop, V: Drop, A: Allocator + Clone> OrderedMap<K, V, A> {
    // Moves the entries from index `at` on to `rest`, which is empty and has capacity for them.
    fn move_from(&mut self, at: usize, rest: &mut Self)
        requires within { at ≤ length self.old.entries }
        requires ordered { IsOrdered K.cmp self.old.entries }
        requires empty { rest.old.entries ≡ [] }
        requires room { length self.old.entries - at ≤ rest.old.capacity }
        ensures kept { self.new ≡ record self.old { entries = take at self.old.entries } }
        ensures moved { rest.new ≡ record rest.old { entries = drop at self.old.entries } }
    {
        'each: while self.len() > at {
            match self.pop_last() {
                Some((key, item)) => rest.put_within(key, item),
                None => unreachable!(),
            }
        }
    }
}

impl<K: Ord + Drop, V: Drop, A: Allocator + Copy> OrderedMap<K, V, A> {
    /// Splits the map at `key`, and returns a map of the entries from `key` on.
    ///
    /// The entries with keys less than `key` remain, and the capacity does not change. The returned
    /// map has the same allocator, and capacity for its entries; allocates only for that.
    ///
    /// # Errors
    /// `CapacityOverflow` if the bytes exceed `isize::MAX`; `AllocError` with the number of entries
    /// in the requested leaves if an allocation fails. The map is unchanged.
    pub fn split_off(&mut self, key: &K) -> Result<Self, TryReserveError>
        // If no entry is split off, it succeeds without an allocation.
        ensures none { entries_after K.cmp key.now false self.old.entries ≡ [] → IsOk result }

        // The entries before the key remain, and the others are returned.
        ensures kept { OnOk result (self.new
            ≡ record self.old { entries = entries_before K.cmp key.now false self.old.entries }) }
        ensures split { let rest = entries_after K.cmp key.now false self.old.entries in
            IfOk result (λ m. m ≡ record {
              entries = rest;
              capacity = capacity_of (leaves_for (length rest));
              resizes = fresh_resizes (length rest);
            }) }

        // An error says why it failed, and leaves the map unchanged.
        ensures error { let rest = entries_after K.cmp key.now false self.old.entries in
            IfErr result (λ e. IsErrorFor e (leaves_for (length rest) * 64)) }
        ensures unchanged { OnErr result (self.new ≡ self.old) }
    {
        let at = self.count_below(key);
        let count = self.len() - at;
        let mut rest = OrderedMap::with_capacity_in(count, *self.allocator())?;
        self.move_from(at, &mut rest);
        Ok(rest)
    }
}
