//! Copies of slices, written into a row.
ghost use Rattle.std.specs.Prelude.{◌≡◌, ◌+◌, ◌≤◌, Some, map, length};
ghost use Rattle.aa_raw.specs.Places.{with_run};

use super::{Row, from_slots, into_slots};
use crate::size::{SMALL, element_size};

impl<T> Row<T> {
    /// Writes copies of all elements of `source` into the places from `index` on. Values that were
    /// there are forgotten.
    #[inline(always)]
    #[tactic(auto, using(crate::proofs::Places::put_runs))]
    pub(crate) fn write_copies(&mut self, index: usize, source: &[T])
    where
        T: Copy,
        requires { index + length source.now ≤ length self.old.places }
        ensures { (self.new.ptr ≡ self.old.ptr)
            × (self.new.places
            ≡ with_run self.old.places index (length source.now) (map Some source.now)) }
    {
        let mut row = self.cut(index);
        let tail = row.cut(source.len());
        let mut row = copy_from(row, source);
        row.join(tail);
        self.join(row);
    }
}

// Writes copies of all elements of `source` into as many places. A short run of small elements is
// copied as two arrays, one at each end, which may overlap: this is much cheaper than a call.
#[inline(always)]
fn copy_from<T: Copy>(row: Row<T>, source: &[T]) -> Row<T>
    requires { length row.places ≡ length source.now }
    ensures { (result.ptr ≡ row.ptr) × (result.places ≡ map Some source.now) }
{
    let count = source.len();
    if SMALL < element_size::<T>() || count < 4 || 32 < count {
        copy_in_one(row, source)
    } else if count <= 8 {
        copy_from_ends::<T, 4>(row, source)
    } else if count <= 16 {
        copy_from_ends::<T, 8>(row, source)
    } else {
        copy_from_ends::<T, 16>(row, source)
    }
}

// Like `copy_from`, for at least `N` and at most `2 * N` elements.
#[inline(always)]
#[tactic(auto, using(crate::proofs::Places::copied))]
fn copy_from_ends<T: Copy, const N: usize>(mut row: Row<T>, source: &[T]) -> Row<T>
    requires places { length row.places ≡ length source.now }
    requires within { (N ≤ length source.now) × (length source.now ≤ N + N) }
    ensures { (result.ptr ≡ row.ptr) × (result.places ≡ map Some source.now) }
{
    let Some(front) = source.first_chunk::<N>() else {
        unreachable!()
    };
    let Some(back) = source.last_chunk::<N>() else {
        unreachable!()
    };
    row.write_array(0, *front);
    row.write_array(source.len() - N, *back);
    row
}

// Like `copy_from`, for any number of elements. The toolchain's `Slots` does it with one copy of
// memory.
#[inline(always)]
fn copy_in_one<T: Copy>(row: Row<T>, source: &[T]) -> Row<T>
    requires { length row.places ≡ length source.now }
    ensures { (result.ptr ≡ row.ptr) × (result.places ≡ map Some source.now) }
{
    let mut slots = into_slots(row, source);
    slots.copy_in(0, source);
    from_slots(slots)
}
