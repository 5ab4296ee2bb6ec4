//! Records: each is its length in eight bytes, the least significant first, and then its bytes.
ghost use Rattle.std.specs.Prelude.{◌≡◌, ℕ, ◌<◌, List, ◌++◌, length, map, IfOk, IfSome, IsOk, IsSomeAnd, MatchOption, OnOk, OnErr};
ghost use Rattle.std.specs.Io.KnownBytes.{Appends};
ghost use Rattle.allocator_api2.specs.Vector.{GrowsTo, HasRoom, Holds};
ghost use Rattle.ex_small.specs.Records.{encoded, encoding, Fits, AllFit};

use allocator_api2::boxed::BoxedSlice;
use allocator_api2::collections::{TryReserveError, TryReserveErrorKind};
use allocator_api2::vec::Vec;
use std::alloc::Allocator;
use std::io::{Error, ErrorKind, Result as Written, Write};

/// Writes `entry` as a record to `writer`.
pub fn write_record<W: Write>(writer: &mut W, entry: &[u8]) -> Written<()>
    ensures { OnOk result
        (Appends (W.contents writer.old) (W.contents writer.new) (encoded entry.now)) }
{
    let count = (entry.len() as u64).to_le_bytes();
    writer.write_all(&count)?;
    writer.write_all(entry)
}

/// Appends `entry` as a record to the bytes of a vector: all of it, or nothing.
///
/// Does not allocate if the record fits.
///
/// # Errors
/// `CapacityOverflow` or `AllocError`, as `Vec::try_reserve` returns them. The vector is unchanged.
#[tactic(auto, using(crate::proofs::Rooms::rooms, allocator_api2::proofs::Callers::became))]
pub fn push_record<A: Allocator>(log: &mut Vec<u8, A>, entry: &[u8]) -> Result<(), TryReserveError>
    ensures fits { HasRoom log.old (length (encoded entry.now)) → IsOk result }
    ensures pushed { OnOk result
        (GrowsTo 1 log.old (length (encoded entry.now))
        (log.old.items ++ encoded entry.now) log.new) }
    ensures unchanged { OnErr result (log.new ≡ log.old) }
{
    log.prove_capacity_bounds();
    let count = (entry.len() as u64).to_le_bytes();
    let Some(more) = entry.len().checked_add(count.len()) else {
        return Err(TryReserveErrorKind::CapacityOverflow.into());
    };
    log.try_reserve(more)?;
    put(log, &count);
    put(log, entry);
    Ok(())
}

// Appends `bytes` to a vector, in which they must fit.
fn put<A: Allocator>(log: &mut Vec<u8, A>, bytes: &[u8])
    requires { HasRoom log.old (length bytes.now) }
    ensures { Holds log.old (log.old.items ++ bytes.now) log.new }
{
    match log.extend_from_slice_copied(bytes) {
        Ok(()) => {}
        Err(_) => unreachable!(),
    }
}

/// Returns the bytes of all records, one after the other, as a boxed slice.
///
/// # Errors
/// An error of the writer, or `OutOfMemory` if the boxed slice cannot be allocated.
pub fn encode<A: Allocator>(records: &[&[u8]], alloc: A) -> Written<BoxedSlice<u8, A>>
    ensures { IfOk result (λ b. b.items ≡ encoding (map (λ r. r.now) records.now)) }
{
    let mut bytes = Vec::new_in(alloc);
    for entry in records {
        write_record(&mut bytes, *entry)?;
    }
    match bytes.into_boxed_slice() {
        Ok(boxed) => Ok(boxed),
        Err(_) => Err(Error::from(ErrorKind::OutOfMemory)),
    }
}

// Returns the first record and the bytes after it, or `None` if the bytes do not start with a
// record.
fn next_record(bytes: &[u8]) -> Option<(&[u8], &[u8])>
    ensures cases { MatchOption result ((r t : List ℕ) → Fits r → encoded r ++ t ≡ bytes.now → ⊥)
        (λ p. (encoded p.0.now ++ p.1.now ≡ bytes.now) × Fits p.0.now) }
    ensures shorter { IfSome result (λ p. length p.1.now < length bytes.now) }
{
    let Some((head, tail)) = bytes.split_first_chunk::<8>() else {
        return None;
    };
    let count = u64::from_le_bytes(*head);
    if count > tail.len() as u64 {
        return None;
    }
    Some(tail.split_at(count as usize))
}

/// Returns the records whose encoding is `bytes`, or `None` if `bytes` is not an encoding of
/// records.
///
/// Allocates a vector of the records, which are slices of `bytes`.
///
/// # Errors
/// `CapacityOverflow` or `AllocError`, as `Vec::push` returns them.
pub fn decode<'a, A: Allocator>(
    bytes: &'a [u8],
    alloc: A,
) -> Result<Option<Vec<&'a [u8], A>>, TryReserveError>
    ensures decoded { IfOk result
        (λ o. IfSome o (λ v. encoding (map (λ r. r.now) v.items) ≡ bytes.now)) }
    ensures round_trip { IfOk result
        (λ o. (rs : List (List ℕ)) → AllFit rs → encoding rs ≡ bytes.now
        → IsSomeAnd o (λ v. map (λ r. r.now) v.items ≡ rs)) }
{
    let mut records = Vec::new_in(alloc);
    let mut rest = bytes;
    while !rest.is_empty() {
        let Some((entry, tail)) = next_record(rest) else {
            return Ok(None);
        };
        if let Err(refused) = records.push(entry) {
            return Err(refused.error);
        }
        rest = tail;
    }
    Ok(Some(records))
}
