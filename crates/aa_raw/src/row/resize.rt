//! The memory of a row, made larger by its allocator, in place if the allocator can.
ghost use Rattle.std.specs.Prelude.{◌≡◌, ◌-◌, ◌*◌, ◌<◌, ◌≤◌, ◌++◌, None, length, take, replicate, IsTrue, false};
ghost use Rattle.std.specs.Mem.{type_size};
ghost use Rattle.aa_raw.specs.Places.{IsRun, IsCapacity};

use super::{Claim, Row};
use std::alloc::Allocator;

/// Grows the memory of `row` from `old_cap` to `new_cap` places, in place if the allocator can.
/// Returns `false` if the allocation fails.
///
/// Keeps the first `len` values. Values in the other places are forgotten, also if it fails.
pub(crate) fn regrow<T, A: Allocator>(
    alloc: &A,
    row: &mut Row<T>,
    _claim: &mut Claim<T, A>,
    len: usize,
    old_cap: usize,
    new_cap: usize,
) -> bool
    requires filled { IsRun row.old.places 0 len × (length row.old.places ≡ old_cap) }
    requires held { (_claim.old.ptr ≡ row.old.ptr) × (_claim.old.len ≡ old_cap)
        × (_claim.old.alloc ≡ alloc.now) }
    requires range { (0 < old_cap * type_size T.row) × (old_cap ≤ new_cap)
        × IsCapacity T.row new_cap }
    ensures grown { IsTrue result → (_claim.new.ptr ≡ row.new.ptr) × (_claim.new.len ≡ new_cap)
        × (_claim.new.alloc ≡ alloc.now)
        × (row.new.places ≡ take len row.old.places ++ replicate (new_cap - len) None) }
    ensures failed { result ≡ false → (_claim.new ≡ _claim.old) × (row.new.ptr ≡ row.old.ptr)
        × (row.new.places ≡ take len row.old.places ++ replicate (old_cap - len) None) }
{
    match unsafe { alloc.grow(row.ptr, len, old_cap, new_cap) } {
        Ok(ptr) => {
            row.ptr = ptr;
            true
        }
        Err(_) => false,
    }
}
