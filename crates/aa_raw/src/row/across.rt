//! Moves of values from one row to another.
ghost use Rattle.std.specs.Prelude.{◌≡◌, ◌+◌, ◌^◌, ◌<◌, ◌≤◌, None, length, take, drop, replicate};
ghost use Rattle.aa_raw.specs.Places.{IsRun, with_run};

use super::{Row, copy_apart};
use crate::size::element_size;

// The maximum number of bytes in one copy to another row.
const PART: usize = 8128;

impl<T> Row<T> {
    /// Moves the values of a run of `other`, given by its first place and how many it has, to the
    /// places from `to` on.
    #[inline]
    pub(crate) fn take_run(&mut self, to: usize, other: &mut Row<T>, run: (usize, usize))
        requires room { (to + run.1 ≤ length self.old.places) × (length self.old.places < 2 ^ 64) }
        requires filled { IsRun other.old.places run.0 run.1 × (length other.old.places < 2 ^ 64) }
        ensures moved { (self.new.ptr ≡ self.old.ptr)
            × (self.new.places
            ≡ with_run self.old.places to run.1 (take run.1 (drop run.0 other.old.places))) }
        ensures emptied { (other.new.ptr ≡ other.old.ptr)
            × (other.new.places ≡ with_run other.old.places run.0 run.1 (replicate run.1 None)) }
    {
        let row = self.cut(0);
        let source = other.cut(0);
        let (row, source) = move_across(row, to, source, run);
        self.join(row);
        other.join(source);
    }

    // Like `take_run`, with one copy of memory.
    #[inline(always)]
    #[tactic(auto, using(crate::proofs::Places::put_runs))]
    pub(super) fn take_run_in_one_copy(
        &mut self,
        to: usize,
        other: &mut Row<T>,
        run: (usize, usize),
    )
        requires room { to + run.1 ≤ length self.old.places }
        requires filled { IsRun other.old.places run.0 run.1 }
        ensures moved { (self.new.ptr ≡ self.old.ptr)
            × (self.new.places
            ≡ with_run self.old.places to run.1 (take run.1 (drop run.0 other.old.places))) }
        ensures emptied { (other.new.ptr ≡ other.old.ptr)
            × (other.new.places ≡ with_run other.old.places run.0 run.1 (replicate run.1 None)) }
    {
        let row = self.cut(to);
        let source = other.cut(run.0);
        let (row, source) = copy_apart(row, source, run.1);
        self.join(row);
        other.join(source);
    }
}

/// Moves the values of a run of `source` to the places from `to` of `row` on, and returns both rows.
///
/// Up to one part is moved inline, with one copy of memory. More is moved in parts, out of line.
#[inline]
pub(super) fn move_across<T>(
    mut row: Row<T>,
    to: usize,
    mut source: Row<T>,
    run: (usize, usize),
) -> (Row<T>, Row<T>)
    requires room { (to + run.1 ≤ length row.places) × (length row.places < 2 ^ 64) }
    requires filled { IsRun source.places run.0 run.1 × (length source.places < 2 ^ 64) }
    ensures moved { (result.0.ptr ≡ row.ptr)
        × (result.0.places ≡ with_run row.places to run.1 (take run.1 (drop run.0 source.places))) }
    ensures emptied { (result.1.ptr ≡ source.ptr)
        × (result.1.places ≡ with_run source.places run.0 run.1 (replicate run.1 None)) }
{
    let size = element_size::<T>();
    if size != 0 && PART / size.clamp(1, PART) < run.1 {
        return move_across_in_parts(row, to, source, run);
    }
    row.take_run_in_one_copy(to, &mut source, run);
    (row, source)
}

// Like `move_across`, in copies of up to `PART` bytes each. A larger copy would use `rep movsb`,
// which is slower on fresh memory.
#[cold]
#[inline(never)]
#[tactic(auto, using(crate::proofs::Calls::put_in_arrays))]
fn move_across_in_parts<T>(
    mut row: Row<T>,
    to: usize,
    mut source: Row<T>,
    run: (usize, usize),
) -> (Row<T>, Row<T>)
    requires room { (to + run.1 ≤ length row.places) × (length row.places < 2 ^ 64) }
    requires filled { IsRun source.places run.0 run.1 × (length source.places < 2 ^ 64) }
    ensures moved { (result.0.ptr ≡ row.ptr)
        × (result.0.places ≡ with_run row.places to run.1 (take run.1 (drop run.0 source.places))) }
    ensures emptied { (result.1.ptr ≡ source.ptr)
        × (result.1.places ≡ with_run source.places run.0 run.1 (replicate run.1 None)) }
{
    let (from, count) = run;
    let part = PART / element_size::<T>().clamp(1, PART);
    let mut at = 0;
    'parts: while part < count - at {
        row.take_run_in_one_copy(to + at, &mut source, (from + at, part));
        at += part;
    }
    row.take_run_in_one_copy(to + at, &mut source, (from + at, count - at));
    (row, source)
}
