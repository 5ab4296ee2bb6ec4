//! The errors returned by calls that allocate.
ghost use Rattle.std.specs.Prelude.{◌≡◌, Some};
ghost use Rattle.std.specs.Mem.{type_size};
ghost use Rattle.std.specs.IoError.{error_kind};
ghost use Rattle.std_io.specs.declared.io.kind.ErrorKind.TheVariants.{OutOfMemory};
ghost use Rattle.aa_raw.specs.Errors.{error_for, text_of};

use crate::size::{fits_in_block, is_zst};
use std::alloc::AllocError;
use std::convert::From;
use std::error::Error;
use std::fmt;
use std::io::{self, ErrorKind};

/// Why a reserve failed.
///
/// A capacity that no block can have is a `CapacityOverflow`: trying again can't succeed. A failed
/// allocation is an `AllocError`: it may succeed once memory is free. Contracts say which of the two
/// a call returns (`error_for`), unless a clone of the allocator or of an element failed.
#[derive(Clone, Copy, PartialEq, Eq, Debug, Drop)]
pub enum TryReserveErrorKind {
    /// The required capacity exceeds `usize::MAX` elements or `isize::MAX` bytes.
    CapacityOverflow,
    /// The allocation of a block of `capacity` elements failed. In allocator-api2 this variant
    /// holds a layout instead.
    AllocError { capacity: usize },
}

/// The error returned when a reserve fails.
#[derive(Clone, Copy, PartialEq, Eq, Debug, Drop)]
pub struct TryReserveError {
    kind: TryReserveErrorKind,
}

impl TryReserveError {
    /// Returns the error of a failed request for `capacity` elements of type `T`.
    ///
    /// It is `CapacityOverflow` if these take more than `isize::MAX` bytes or are zero-sized, and
    /// else `AllocError` with `capacity`. For collections that allocate by other means than a block.
    /// Not in allocator-api2.
    pub fn for_capacity<T>(capacity: usize) -> TryReserveError
        ensures { result ≡ error_for (type_size T.row) capacity }
    {
        if is_zst::<T>() || !fits_in_block::<T>(capacity) {
            TryReserveErrorKind::CapacityOverflow.into()
        } else {
            TryReserveErrorKind::AllocError { capacity }.into()
        }
    }

    /// Returns the kind of the error: `CapacityOverflow` or `AllocError`.
    pub fn kind(&self) -> TryReserveErrorKind
        ensures { result ≡ self.now.kind }
    {
        self.kind
    }
}

impl From<TryReserveErrorKind> for TryReserveError {
    ghost from_gives = { λ kind error. error.kind ≡ kind };

    /// Returns the error of this kind.
    fn from(kind: TryReserveErrorKind) -> TryReserveError {
        TryReserveError { kind }
    }
}

impl From<AllocError> for TryReserveError {
    ghost use Rattle.aa_raw.specs.declared.collections.TryReserveErrorKind.{TryReserveErrorKind};

    ghost from_gives = { λ _ error. error.kind ≡ TryReserveErrorKind.AllocError 1 };

    /// Returns the error for a failed allocation of one element: `AllocError` with capacity 1.
    ///
    /// With it, `?` works in a function that makes both a box and a vector. Not in allocator-api2.
    fn from(_: AllocError) -> TryReserveError {
        TryReserveErrorKind::AllocError { capacity: 1 }.into()
    }
}

impl fmt::Display for TryReserveError {
    ghost output = { λ error. Some (text_of error) };

    fn fmt<W: fmt::Write>(&self, f: &mut fmt::Formatter<W>) -> fmt::Result {
        let reason = match self.kind {
            TryReserveErrorKind::CapacityOverflow => {
                " because the computed capacity exceeded the collection's maximum"
            }
            TryReserveErrorKind::AllocError { .. } => {
                " because the memory allocator returned an error"
            }
        };
        f.write_str("memory allocation failed")?;
        f.write_str(reason)
    }
}

impl Error for TryReserveError {}

impl From<TryReserveError> for io::Error {
    ghost from_gives = { λ _ e. error_kind e ≡ OutOfMemory };

    /// Returns an error of the kind `OutOfMemory`.
    ///
    /// With it, `?` works in a function that reads or writes as well as reserves.
    fn from(_: TryReserveError) -> io::Error {
        ErrorKind::OutOfMemory.into()
    }
}

/// The error of a call that takes a value: returns the value in `source`.
///
/// `?` returns it as it is, or as the error alone in a function that returns a `TryReserveError`.
/// Not in allocator-api2, whose calls abort.
#[derive(Debug, Drop)]
pub struct Refused<S> {
    /// The value that was passed to the call.
    pub source: S,
    /// Why the call failed.
    pub error: TryReserveError,
}

impl<S: Drop> From<Refused<S>> for TryReserveError {
    ghost from_gives = { λ refused error. error ≡ refused.error };

    /// Drops `source` and returns the error, so that `?` works.
    fn from(refused: Refused<S>) -> TryReserveError {
        refused.error
    }
}

impl<S: Drop> From<Refused<S>> for io::Error {
    ghost from_gives = { λ _ e. error_kind e ≡ OutOfMemory };

    /// Drops `source` and returns an error of the kind `OutOfMemory`, so that `?` works.
    fn from(_: Refused<S>) -> io::Error {
        ErrorKind::OutOfMemory.into()
    }
}
