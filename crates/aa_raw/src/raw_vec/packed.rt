//! A capacity and a growth policy in one word.
ghost use Rattle.std.specs.Prelude.{◌≡◌};
ghost use Rattle.aa_raw.specs.Places.{IsCapacity};
ghost use Rattle.aa_raw.specs.Packed.{CanPack, capacity_in, growth_in};

use super::Growth;
use crate::size::is_zst;

/// The greatest number that a word has for a capacity. It means `usize::MAX`.
pub(super) const MAX_PACKED: usize = 0x3fff_ffff_ffff_ffff;

/// Returns the word of a capacity and a growth policy: four times the one, plus the number of the
/// other.
pub(super) fn packed(capacity: usize, growth: Growth) -> usize
    requires { CanPack capacity }
    ensures capacity { capacity_in result ≡ capacity }
    ensures growth { growth_in result ≡ growth }
{
    let policy = match growth {
        Growth::Doubling => 0,
        Growth::Sparing => 1,
        Growth::InPlace => 2,
    };
    4 * capacity.min(MAX_PACKED) + policy
}

/// Returns the capacity in a word, for elements of type `T`.
#[inline(always)]
pub(super) fn unpacked<T>(word: usize) -> usize
    requires { IsCapacity T.row (capacity_in word) }
    ensures { result ≡ capacity_in word }
{
    if is_zst::<T>() { usize::MAX } else { word / 4 }
}

/// Returns the growth policy in a word.
pub(super) fn policy_of(word: usize) -> Growth
    ensures { result ≡ growth_in word }
{
    match word % 4 {
        0 => Growth::Doubling,
        1 => Growth::Sparing,
        _ => Growth::InPlace,
    }
}
