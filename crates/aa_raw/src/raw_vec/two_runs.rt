//! Growth that keeps two runs of a block, for queues and gap buffers.
ghost use Rattle.std.specs.Prelude.{◌≡◌, ◌+◌, ◌-◌, ◌<◌, ◌≤◌, length, OnOk, IsTrue, false, if◌then◌else◌};
ghost use Rattle.std.specs.Mem.{type_size};
ghost use Rattle.aa_raw.specs.Places.{IsCapacity, IsRun};
ghost use Rattle.aa_raw.specs.Block.{growth_capacity};
ghost use Rattle.aa_raw.specs.TwoRuns.{AreApart, AreJoined, AreParted, IsFull, ReserveRunsResult, ReservesRuns, both, grown_with};

use super::{RawVec, ReserveKind, new_row};
use crate::collections::TryReserveError;
use std::alloc::Allocator;

#[tactic(auto, using(crate::proofs::TwoRuns::kept_runs))]
impl<T, A: Allocator> RawVec<T, A> {
    /// Reserves capacity for at least `additional` more elements than two runs have, and joins the
    /// runs if it grows.
    ///
    /// A run is a pair of its first place and its length. Allocates only if the elements do not fit
    /// in the capacity, and then grows by the growth policy. The new block begins with the values
    /// of the first run, followed by those of the second. Each value moves once; other values are
    /// forgotten. The old block is deallocated. By the policy `InPlace`, a block that is full of
    /// the first run is extended, if the allocator can.
    ///
    /// # Errors
    /// As for `try_reserve`: `CapacityOverflow`, or `AllocError` with the requested capacity. The
    /// block is unchanged.
    ///
    /// Not in allocator-api2.
    pub fn try_reserve_joined(
        &mut self,
        first: (usize, usize),
        second: (usize, usize),
        additional: usize,
    ) -> Result<(), TryReserveError>
        requires first { IsRun self.old.places first.0 first.1 }
        requires second { IsRun self.old.places second.0 second.1 }
        requires apart { AreApart first second }
        ensures reserved { ReserveRunsResult
            (type_size T.row) self.old first second additional first.1
            result self.new }
        ensures joined { IsFull self.old first second additional
            → OnOk result (AreJoined self.old self.new first second) }
    {
        let len = self.count_both(first, second);
        if additional <= self.capacity() - len {
            return Ok(());
        }
        if self.grow_runs(first, second, false, additional) {
            return Ok(());
        }
        Err(self.reserve_error(ReserveKind::Amortized, len, additional))
    }

    /// Reserves capacity as `try_reserve_joined` does, but moves the second run to the end if it
    /// grows.
    ///
    /// The free places of the new block are between the two runs. Allocates and fails as
    /// `try_reserve_joined` does. Not in allocator-api2.
    pub fn try_reserve_parted(
        &mut self,
        first: (usize, usize),
        second: (usize, usize),
        additional: usize,
    ) -> Result<(), TryReserveError>
        requires first { IsRun self.old.places first.0 first.1 }
        requires second { IsRun self.old.places second.0 second.1 }
        requires apart { AreApart first second }
        ensures reserved { let c = growth_capacity (type_size T.row) self.old
            (both first second + additional)
            in ReserveRunsResult (type_size T.row) self.old first second additional (c - second.1)
            result self.new }
        ensures parted { IsFull self.old first second additional
            → OnOk result (AreParted self.old self.new first second) }
    {
        let len = self.count_both(first, second);
        if additional <= self.capacity() - len {
            return Ok(());
        }
        if self.grow_runs(first, second, true, additional) {
            return Ok(());
        }
        Err(self.reserve_error(ReserveKind::Amortized, len, additional))
    }

    // Returns the number of values in two runs.
    fn count_both(&self, first: (usize, usize), second: (usize, usize)) -> usize
        requires first { IsRun self.now.places first.0 first.1 }
        requires second { IsRun self.now.places second.0 second.1 }
        requires apart { AreApart first second }
        ensures count { result ≡ both first second }
        ensures within { result ≤ length self.now.places }
    {
        self.prove_capacity_bounds();
        first.1 + second.1
    }

    // Grows the block for both calls, out of line. Returns `false` if the growth fails.
    #[cold]
    #[inline(never)]
    fn grow_runs(
        &mut self,
        first: (usize, usize),
        second: (usize, usize),
        at_end: bool,
        additional: usize,
    ) -> bool
        // The two runs are filled and have no place in common.
        requires first { IsRun self.old.places first.0 first.1 }
        requires second { IsRun self.old.places second.0 second.1 }
        requires apart { AreApart first second }

        // The new values do not fit in the capacity.
        requires full { IsFull self.old first second additional }

        // The block grows, or is unchanged.
        ensures grown { let c = growth_capacity (type_size T.row) self.old
            (both first second + additional)
            in IsTrue result → ReservesRuns (type_size T.row) self.old first second additional c
            (if at_end then c - second.1 else first.1) self.new }
        ensures unchanged { result ≡ false → self.new ≡ self.old }
    {
        let len = self.count_both(first, second);
        match self.capacity_for(ReserveKind::Amortized, len, additional) {
            Some(capacity) => {
                let to = if at_end { capacity - second.1 } else { first.1 };
                self.grow_with(first, second, to, capacity)
            }
            None => false,
        }
    }

    // Grows to `capacity` places, with the first run at the beginning and the second from the place
    // `to` on. Returns `false` if the allocation fails.
    //
    // If the first run is at the beginning and the second has no values, the block grows as a
    // vector's does, by the policy `InPlace` in place. Else both move to a new block.
    fn grow_with(
        &mut self,
        first: (usize, usize),
        second: (usize, usize),
        to: usize,
        capacity: usize,
    ) -> bool
        // The two runs are filled and have no place in common.
        requires first { IsRun self.old.places first.0 first.1 }
        requires second { IsRun self.old.places second.0 second.1 }
        requires apart { AreApart first second }

        // Both fit in the new block, which a block of such elements can be.
        requires places { (first.1 ≤ to) × (to + second.1 ≤ capacity) × (0 < capacity)
            × (0 < type_size T.row) × IsCapacity T.row capacity }

        // The block grows, or is unchanged.
        ensures grown { IsTrue result → self.new ≡ grown_with self.old first second to capacity }
        ensures unchanged { result ≡ false → self.new ≡ self.old }
    {
        if first.0 == 0 && second.1 == 0 {
            return self.grow_to(first.1, capacity);
        }
        match new_row(&self.alloc, capacity) {
            Ok((mut row, claim)) => {
                row.take_run(0, &mut self.row, first);
                row.take_run(to, &mut self.row, second);
                self.replace_row(capacity, row, claim);
                self.grown.add_moved(first.1 + second.1);
                true
            }
            Err(_) => false,
        }
    }
}
