//! Moves of values within a row, to places that may overlap those that they come from.
ghost use Rattle.std.specs.Prelude.{◌≡◌, ◌+◌, ◌*◌, ◌^◌, ◌<◌, ◌≤◌, ◌++◌, Some, None, map, length, take, drop, replicate};
ghost use Rattle.aa_raw.specs.Places.{IsRun, moved, with_run};

use super::Row;
use crate::size::{SMALL, element_size, is_long};

impl<T> Row<T> {
    // Moves the `N` values from the place `from` on to the places from `to` on. All are read before
    // the first is written, so the two ranges may overlap.
    #[inline(always)]
    #[tactic(auto, using(crate::proofs::Places::array_moves))]
    fn move_array<const N: usize>(&mut self, from: usize, to: usize)
        requires { IsRun self.old.places from N × (to + N ≤ length self.old.places) }
        ensures { (self.new.ptr ≡ self.old.ptr)
            × (self.new.places ≡ moved self.old.places from to N) }
    {
        let mut run = self.cut(from);
        let items = run.read_array::<N>();
        self.join(run);
        self.write_array(to, items);
    }

    /// Moves the values of a run, given by its first place and how many it has, to the places from
    /// `to` on. The two ranges may overlap.
    #[inline]
    #[tactic(auto, using(crate::proofs::Places::cut_moves))]
    pub(crate) fn move_run(&mut self, run: (usize, usize), to: usize)
        requires { IsRun self.old.places run.0 run.1 × (to + run.1 ≤ length self.old.places)
            × (length self.old.places < 2 ^ 64) }
        ensures { (self.new.ptr ≡ self.old.ptr)
            × (self.new.places ≡ moved self.old.places run.0 to run.1) }
    {
        let (from, count) = run;
        if from < to {
            let run = self.cut(from);
            self.join(shift_up(run, to - from, count));
        } else if to < from {
            let run = self.cut(to);
            self.join(shift_down(run, from - to, count));
        }
    }

    /// Like `move_run`, for a `to` before the run. A few values are moved inline.
    #[inline(always)]
    #[tactic(auto, using(crate::proofs::Places::cut_moves))]
    pub(crate) fn move_run_down(&mut self, run: (usize, usize), to: usize)
        requires { IsRun self.old.places run.0 run.1 × (to < run.0)
            × (length self.old.places < 2 ^ 64) }
        ensures { (self.new.ptr ≡ self.old.ptr)
            × (self.new.places ≡ moved self.old.places run.0 to run.1) }
    {
        let (from, count) = run;
        let run = self.cut(to);
        self.join(shift_down_inline(run, from - to, count));
    }
}

// The loops own the rows in which they move values. The base addresses then remain in registers,
// and a move is one pass that the compiler can vectorise. Through a `&mut` it would load the base
// again after each store. If both addresses are a parameter plus a constant, the compiler turns the
// loop into one copy of memory before it inlines the function. So the places that move are split
// off as a row, and a move by one place has its own function. Elements of several words need both
// that function and its caller.

// The number of values from which a call is worth its cost.
const FEW: usize = 8;

// Moves the first `count` values up by `by` places.
fn shift_up<T>(row: Row<T>, by: usize, count: usize) -> Row<T>
    requires { (0 < by) × IsRun row.places 0 count × (by + count ≤ length row.places)
        × (length row.places < 2 ^ 64) }
    ensures { (result.ptr ≡ row.ptr) × (result.places ≡ moved row.places 0 by count) }
{
    if by == 1 {
        shift_up_by_one(row, count)
    } else {
        shift_up_in_arrays(row, by, count)
    }
}

// Like `shift_up`, by one place.
fn shift_up_by_one<T>(row: Row<T>, count: usize) -> Row<T>
    requires { IsRun row.places 0 count × (1 + count ≤ length row.places)
        × (length row.places < 2 ^ 64) }
    ensures { (result.ptr ≡ row.ptr) × (result.places ≡ moved row.places 0 1 count) }
{
    shift_up_each(row, 1, count)
}

// Like `shift_down`, inline if the values are few.
#[inline(always)]
fn shift_down_inline<T>(row: Row<T>, by: usize, count: usize) -> Row<T>
    requires { (0 < by) × IsRun row.places by count × (length row.places < 2 ^ 64) }
    ensures { (result.ptr ≡ row.ptr) × (result.places ≡ moved row.places by 0 count) }
{
    if FEW <= count {
        shift_down_large(row, by, count)
    } else {
        shift_down_each(row, by, count)
    }
}

// Like `shift_down`, out of line.
#[inline(never)]
fn shift_down_large<T>(row: Row<T>, by: usize, count: usize) -> Row<T>
    requires { (0 < by) × IsRun row.places by count × (length row.places < 2 ^ 64) }
    ensures { (result.ptr ≡ row.ptr) × (result.places ≡ moved row.places by 0 count) }
{
    if by == 1 {
        shift_down_by_one(row, count)
    } else {
        shift_down_in_arrays(row, by, count)
    }
}

// Moves the `count` values from the place `by` on down to the first places.
fn shift_down<T>(row: Row<T>, by: usize, count: usize) -> Row<T>
    requires { (0 < by) × IsRun row.places by count × (length row.places < 2 ^ 64) }
    ensures { (result.ptr ≡ row.ptr) × (result.places ≡ moved row.places by 0 count) }
{
    if by == 1 {
        shift_down_by_one(row, count)
    } else {
        shift_down_large(row, by, count)
    }
}

// Like `shift_down`, by one place.
fn shift_down_by_one<T>(row: Row<T>, count: usize) -> Row<T>
    requires { IsRun row.places 1 count × (length row.places < 2 ^ 64) }
    ensures { (result.ptr ≡ row.ptr) × (result.places ≡ moved row.places 1 0 count) }
{
    shift_down_each(row, 1, count)
}

// Like `shift_up`, in arrays of 64 to 128 bytes, which is cheaper than a loop over values. Elements
// of several words are moved one by one; for zero-sized elements the compiler leaves no move.
#[inline(never)]
fn shift_up_in_arrays<T>(row: Row<T>, by: usize, count: usize) -> Row<T>
    requires { (0 < by) × IsRun row.places 0 count × (by + count ≤ length row.places)
        × (length row.places < 2 ^ 64) }
    ensures { (result.ptr ≡ row.ptr) × (result.places ≡ moved row.places 0 by count) }
{
    if is_long::<T>(by) && is_long::<T>(count) {
        return shift_up_long(row, by, count);
    }
    match element_size::<T>() {
        1 | 2 => shift_up_in_arrays_of::<T, 64>(row, by, count),
        3 | 4 => shift_up_in_arrays_of::<T, 32>(row, by, count),
        5..=SMALL => shift_up_in_arrays_of::<T, 16>(row, by, count),
        _ => shift_up_each(row, by, count),
    }
}

// Like `shift_down`, in the arrays of `shift_up_in_arrays`.
#[inline(always)]
fn shift_down_in_arrays<T>(row: Row<T>, by: usize, count: usize) -> Row<T>
    requires { (0 < by) × IsRun row.places by count × (length row.places < 2 ^ 64) }
    ensures { (result.ptr ≡ row.ptr) × (result.places ≡ moved row.places by 0 count) }
{
    if is_long::<T>(count / 2) {
        return shift_down_long(row, by, count);
    }
    match element_size::<T>() {
        1 | 2 => shift_down_in_arrays_of::<T, 64>(row, by, count),
        3 | 4 => shift_down_in_arrays_of::<T, 32>(row, by, count),
        5..=SMALL => shift_down_in_arrays_of::<T, 16>(row, by, count),
        _ => shift_down_each(row, by, count),
    }
}

// Like `shift_down`, for long runs. A distance of up to twelve places becomes a constant: the
// compiler then turns the loop into one call of the C library's `memmove`.
#[inline(never)]
fn shift_down_long<T>(row: Row<T>, by: usize, count: usize) -> Row<T>
    requires { (0 < by) × IsRun row.places by count × (length row.places < 2 ^ 64) }
    ensures { (result.ptr ≡ row.ptr) × (result.places ≡ moved row.places by 0 count) }
{
    match by {
        2 => shift_down_by::<T, 2>(row, count),
        3 => shift_down_by::<T, 3>(row, count),
        4 => shift_down_by::<T, 4>(row, count),
        5 => shift_down_by::<T, 5>(row, count),
        6 => shift_down_by::<T, 6>(row, count),
        7 => shift_down_by::<T, 7>(row, count),
        8 => shift_down_by::<T, 8>(row, count),
        9 => shift_down_by::<T, 9>(row, count),
        10 => shift_down_by::<T, 10>(row, count),
        11 => shift_down_by::<T, 11>(row, count),
        12 => shift_down_by::<T, 12>(row, count),
        _ => shift_down_in_large_arrays(row, by, count),
    }
}

// Like `shift_down`, by `N` places.
fn shift_down_by<T, const N: usize>(row: Row<T>, count: usize) -> Row<T>
    requires { (0 < N) × IsRun row.places N count × (length row.places < 2 ^ 64) }
    ensures { (result.ptr ≡ row.ptr) × (result.places ≡ moved row.places N 0 count) }
{
    shift_down_each(row, N, count)
}

// Like `shift_down_long`, by any number of places, in arrays of up to 1,024 bytes. The compiler
// turns each array of more than 128 bytes into a call of `memmove`.
#[inline(never)]
fn shift_down_in_large_arrays<T>(row: Row<T>, by: usize, count: usize) -> Row<T>
    requires { (0 < by) × IsRun row.places by count × (length row.places < 2 ^ 64) }
    ensures { (result.ptr ≡ row.ptr) × (result.places ≡ moved row.places by 0 count) }
{
    if is_long::<T>(by) {
        return shift_down_in_pieces(row, by, count);
    }
    match element_size::<T>() {
        1 | 2 => shift_down_in_arrays_of::<T, 512>(row, by, count),
        3 | 4 => shift_down_in_arrays_of::<T, 256>(row, by, count),
        5..=SMALL => shift_down_in_arrays_of::<T, 128>(row, by, count),
        _ => shift_down_each(row, by, count),
    }
}

// Like `shift_up`, for long runs and by many places: in arrays of up to 4,096 bytes, and then in
// pieces. The compiler turns each array into a call of the C library's `memmove`.
#[cold]
#[inline(never)]
fn shift_up_long<T>(row: Row<T>, by: usize, count: usize) -> Row<T>
    requires { (0 < by) × IsRun row.places 0 count × (by + count ≤ length row.places)
        × (length row.places < 2 ^ 64) }
    ensures { (result.ptr ≡ row.ptr) × (result.places ≡ moved row.places 0 by count) }
{
    match element_size::<T>() {
        1 | 2 => shift_up_in_large_arrays_of::<T, 2048>(row, by, count),
        3 | 4 => shift_up_in_large_arrays_of::<T, 1024>(row, by, count),
        5..=SMALL => shift_up_in_large_arrays_of::<T, 512>(row, by, count),
        _ => shift_up_in_pieces(row, by, count),
    }
}

// Like `shift_up`, in arrays of `N` values and then in pieces; only in pieces if each has at least
// `N` values.
#[inline(always)]
fn shift_up_in_large_arrays_of<T, const N: usize>(row: Row<T>, by: usize, count: usize) -> Row<T>
    requires { (0 < N) × (0 < by) × IsRun row.places 0 count × (by + count ≤ length row.places)
        × (length row.places < 2 ^ 64) }
    ensures { (result.ptr ≡ row.ptr) × (result.places ≡ moved row.places 0 by count) }
{
    if N <= by {
        return shift_up_in_pieces(row, by, count);
    }
    let (row, left) = shift_up_whole_arrays::<T, N>(row, by, count);
    shift_up_in_pieces(row, by, left)
}

// Like `shift_up`, in arrays of `N` values and then value by value.
#[inline(always)]
fn shift_up_in_arrays_of<T, const N: usize>(row: Row<T>, by: usize, count: usize) -> Row<T>
    requires { (0 < N) × (0 < by) × IsRun row.places 0 count × (by + count ≤ length row.places)
        × (length row.places < 2 ^ 64) }
    ensures { (result.ptr ≡ row.ptr) × (result.places ≡ moved row.places 0 by count) }
{
    let (row, left) = shift_up_whole_arrays::<T, N>(row, by, count);
    shift_up_each(row, by, left)
}

// The loop of `shift_up` over arrays of `N` values, from the last to the first. Returns the number
// of values that remain, fewer than `N`.
#[inline(always)]
#[tactic(auto, using(crate::proofs::Calls::shifted_up_in_arrays))]
fn shift_up_whole_arrays<T, const N: usize>(
    mut row: Row<T>,
    by: usize,
    count: usize,
) -> (Row<T>, usize)
    requires { (0 < N) × (0 < by) × IsRun row.places 0 count × (by + count ≤ length row.places)
        × (length row.places < 2 ^ 64) }
    ensures remaining { IsRun result.0.places 0 result.1 × (by + result.1 ≤ length row.places) }
    ensures row { (result.0.ptr ≡ row.ptr) × (length result.0.places ≡ length row.places) }
    ensures then { moved result.0.places 0 by result.1 ≡ moved row.places 0 by count }
{
    let mut left = count;
    'up: while N <= left {
        left -= N;
        row.move_array::<N>(left, by + left);
    }
    (row, left)
}

// Like `shift_down`, in a loop over arrays of `N` values from the first to the last, and then the
// remaining values.
#[inline(always)]
#[tactic(auto, using(crate::proofs::Calls::shifted_down_in_arrays))]
fn shift_down_in_arrays_of<T, const N: usize>(mut row: Row<T>, by: usize, count: usize) -> Row<T>
    requires { (0 < N) × (N ≤ 512) × (0 < by) × IsRun row.places by count
        × (length row.places < 2 ^ 64) }
    ensures { (result.ptr ≡ row.ptr) × (result.places ≡ moved row.places by 0 count) }
{
    let mut at = 0;
    'down: while N <= count - at {
        row.move_array::<N>(by + at, at);
        at += N;
    }
    shift_down_rest(row, by, at, count - at)
}

// Moves the `left` values that remain after the first `at`, in arrays of decreasing length.
#[inline(always)]
#[tactic(auto, using(crate::proofs::Calls::shifted_down_in_arrays))]
fn shift_down_rest<T>(row: Row<T>, by: usize, at: usize, left: usize) -> Row<T>
    requires run { (0 < by) × IsRun row.places (by + at) left × (length row.places < 2 ^ 64) }
    requires few { left < 512 }
    ensures { (result.ptr ≡ row.ptr) × (result.places ≡ moved row.places (by + at) at left) }
{
    let (row, at, left) = shift_down_array::<T, 256>(row, by, at, left);
    let (row, at, left) = shift_down_array::<T, 128>(row, by, at, left);
    let (row, at, left) = shift_down_array::<T, 64>(row, by, at, left);
    let (row, at, left) = shift_down_array::<T, 32>(row, by, at, left);
    let (row, at, left) = shift_down_array::<T, 16>(row, by, at, left);
    let (row, at, left) = shift_down_array::<T, 8>(row, by, at, left);
    let (row, at, left) = shift_down_array::<T, 4>(row, by, at, left);
    let (row, at, left) = shift_down_array::<T, 2>(row, by, at, left);
    let (row, _, _) = shift_down_array::<T, 1>(row, by, at, left);
    row
}

// Moves the first `N` of the `left` values that remain, if there are so many. Returns how many
// values have moved and how many remain.
#[inline(always)]
#[tactic(auto, using(crate::proofs::Calls::shifted_down_in_arrays))]
fn shift_down_array<T, const N: usize>(
    mut row: Row<T>,
    by: usize,
    at: usize,
    left: usize,
) -> (Row<T>, usize, usize)
    requires run { (0 < by) × IsRun row.places (by + at) left × (length row.places < 2 ^ 64) }
    requires few { left < N + N }
    ensures remaining { IsRun result.0.places (by + result.1) result.2 × (result.2 < N) }
    ensures row { (result.0.ptr ≡ row.ptr) × (length result.0.places ≡ length row.places) }
    ensures then { moved result.0.places (by + result.1) result.1 result.2
        ≡ moved row.places (by + at) at left }
{
    if left < N {
        return (row, at, left);
    }
    row.move_array::<N>(by + at, at);
    (row, at + N, left - N)
}

// Like `shift_up`, in a loop over pieces of `by` values from the last to the first. A piece does
// not overlap the places to which it moves.
#[cold]
#[inline(never)]
#[tactic(auto, using(crate::proofs::Calls::shifted_up_in_arrays))]
fn shift_up_in_pieces<T>(mut row: Row<T>, by: usize, count: usize) -> Row<T>
    requires { (0 < by) × IsRun row.places 0 count × (by + count ≤ length row.places)
        × (length row.places < 2 ^ 64) }
    ensures { (result.ptr ≡ row.ptr) × (result.places ≡ moved row.places 0 by count) }
{
    let mut left = count;
    'up: while by <= left {
        left -= by;
        row = shift_up_apart(row, (left, by), by + left);
    }
    shift_up_apart(row, (0, left), by)
}

// Like `shift_down`, in a loop over pieces of `by` values from the first to the last.
#[cold]
#[inline(never)]
#[tactic(auto, using(crate::proofs::Calls::shifted_down_in_arrays))]
fn shift_down_in_pieces<T>(mut row: Row<T>, by: usize, count: usize) -> Row<T>
    requires { (0 < by) × IsRun row.places by count × (length row.places < 2 ^ 64) }
    ensures { (result.ptr ≡ row.ptr) × (result.places ≡ moved row.places by 0 count) }
{
    let mut at = 0;
    'down: while by <= count - at {
        row = shift_down_apart(row, (by + at, by), at);
        at += by;
    }
    shift_down_apart(row, (by + at, count - at), at)
}

// Moves the values of a run up to the places from `to` on, with one copy of memory. The two ranges
// do not overlap.
#[inline(always)]
#[tactic(auto, using(crate::proofs::Places::apart_moves))]
fn shift_up_apart<T>(mut row: Row<T>, run: (usize, usize), to: usize) -> Row<T>
    requires { IsRun row.places run.0 run.1 × (run.0 + run.1 ≤ to)
        × (to + run.1 ≤ length row.places) }
    ensures { (result.ptr ≡ row.ptr) × (result.places ≡ moved row.places run.0 to run.1) }
{
    let mut high = row.cut(to);
    high.take_run_in_one_copy(0, &mut row, run);
    row.join(high);
    row
}

// Moves the values of a run down to the places from `to` on, with one copy of memory. The two
// ranges do not overlap.
#[inline(always)]
#[tactic(auto, using(crate::proofs::Places::apart_moves))]
fn shift_down_apart<T>(mut row: Row<T>, run: (usize, usize), to: usize) -> Row<T>
    requires { IsRun row.places run.0 run.1 × (to + run.1 ≤ run.0) }
    ensures { (result.ptr ≡ row.ptr) × (result.places ≡ moved row.places run.0 to run.1) }
{
    let mut high = row.cut(run.0);
    row.take_run_in_one_copy(to, &mut high, (0, run.1));
    row.join(high);
    row
}

// Like `shift_up`, in a loop over the values from the last to the first.
#[inline(always)]
#[tactic(auto, using(crate::proofs::Places::moved_one_by_one))]
fn shift_up_each<T>(mut row: Row<T>, by: usize, count: usize) -> Row<T>
    requires { (0 < by) × IsRun row.places 0 count × (by + count ≤ length row.places)
        × (length row.places < 2 ^ 64) }
    ensures { (result.ptr ≡ row.ptr) × (result.places ≡ moved row.places 0 by count) }
{
    'up: for i in 0..count {
        let at = by + count - 1 - i;
        let item = row.read(at - by);
        row.write(at, item);
    }
    row
}

// Like `shift_down`, in a loop over the values from the first to the last.
#[inline(always)]
#[tactic(auto, using(crate::proofs::Places::moved_one_by_one))]
fn shift_down_each<T>(mut row: Row<T>, by: usize, count: usize) -> Row<T>
    requires { (0 < by) × IsRun row.places by count × (length row.places < 2 ^ 64) }
    ensures { (result.ptr ≡ row.ptr) × (result.places ≡ moved row.places by 0 count) }
{
    'down: for i in 0..count {
        let item = row.read(by + i);
        row.write(i, item);
    }
    row
}
