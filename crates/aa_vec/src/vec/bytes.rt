//! Vectors of bytes: made from a text, and written to.
ghost use Rattle.std.specs.Prelude.{◌≡◌, ◌<◌, ◌++◌, length, Some, IsOk, IfOk, IfErr, OnOk, OnErr};
ghost use Rattle.std.specs.Io.{WritesAtMost};
ghost use Rattle.std.specs.Io.KnownBytes.{Keeps, WriteAppends, Appends};
ghost use Rattle.std.specs.IoError.{error_kind};
ghost use Rattle.aa_raw.specs.Errors.{AllocationFails};
ghost use Rattle.aa_raw.specs.declared.raw_vec.Growth.TheVariants.{Doubling};
ghost use Rattle.aa_vec.specs.Vector.{HasRoom, GrowsTo};
ghost use Rattle.aa_vec.specs.Copies as copies;
ghost use Rattle.aa_vec.specs.Copies.{IsMadeWithin};

use crate::vec::Vec;
use aa_raw::collections::TryReserveError;
use std::alloc::{Allocator, Global};
use std::io::{Error, ErrorKind, Result as Written, Write};

impl Vec<u8, Global> {
    /// Returns a vector of the bytes of `text` on the global allocator, with capacity for exactly
    /// these.
    ///
    /// Allocates as `from_text_in` does.
    ///
    /// # Errors
    /// Returns the same errors as `from_text_in`.
    ///
    /// Corresponds to allocator-api2's `From<&str>`, which aborts if the allocation fails.
    pub fn from_text(alloc: Global, text: &str) -> Result<Self, TryReserveError>
        ensures made { IfOk result (IsMadeWithin 1 Doubling text.now) }
        ensures alloc { IfOk result (λ v. v.alloc ≡ alloc) }
        ensures error { IfErr result (AllocationFails (length text.now) 1) }
    {
        Vec::from_text_in(text, alloc)
    }
}

impl<A: Allocator> Vec<u8, A> {
    /// Returns a vector of the bytes of `text`, with capacity for exactly these.
    ///
    /// Allocates if there are any.
    ///
    /// # Errors
    /// Returns `CapacityOverflow`, or `AllocError` with the number of bytes.
    ///
    /// Not in allocator-api2.
    pub fn from_text_in(text: &str, alloc: A) -> Result<Self, TryReserveError>
        ensures made { IfOk result (IsMadeWithin 1 Doubling text.now) }
        ensures alloc { IfOk result (λ v. v.alloc ≡ alloc) }
        ensures error { IfErr result (AllocationFails (length text.now) 1) }
    {
        Vec::from_slice_copied_in(text.as_bytes(), alloc)
    }
}

/// Writing appends bytes to the vector.
///
/// An error has the kind `OutOfMemory`, and leaves the vector unchanged.
impl<A: Allocator> Write for Vec<u8, A> {
    ghost contents = { λ v. Some v.items };

    /// Appends all bytes of `buf`, and returns their number.
    ///
    /// Allocates only if they do not fit, and then as `try_reserve` does.
    ///
    /// # Errors
    /// Returns an error of the kind `OutOfMemory` if the allocation fails. The vector is unchanged.
    fn write(&mut self, buf: &[u8]) -> Written<usize>
        // Every writer promises the following.
        ensures bound { WritesAtMost result buf.now }
        ensures bytes { WriteAppends (Some self.old.items) (Some self.new.items) result buf.now }

        // Success appends all bytes, and bytes that fit are appended without an error.
        ensures count { IfOk result (λ n. n ≡ length buf.now) }
        ensures fits { HasRoom self.old (length buf.now) → IsOk result }
        ensures written { OnOk result
            (GrowsTo 1 self.old (length buf.now) (self.old.items ++ buf.now) self.new) }
        ensures counts { OnOk result (copies.WritesAtMost self.old (length buf.now) self.new) }

        // An error changes nothing.
        ensures unchanged { OnErr result (self.new ≡ self.old) }
        ensures error { IfErr result (λ e. error_kind e ≡ ErrorKind.OutOfMemory) }
    {
        match self.extend_from_slice_copied(buf) {
            Ok(()) => Ok(buf.len()),
            Err(_) => Err(Error::from(ErrorKind::OutOfMemory)),
        }
    }

    /// Does nothing.
    fn flush(&mut self) -> Written<()>
        ensures bytes { Keeps (Some self.old.items) (Some self.new.items) }
        ensures succeeds { IsOk result }
        ensures unchanged { self.new ≡ self.old }
    {
        Ok(())
    }

    /// Appends all bytes of `buf`, as `write` does.
    ///
    /// Allocates only if they do not fit.
    ///
    /// # Errors
    /// Returns the same errors as `write`.
    fn write_all(&mut self, buf: &[u8]) -> Written<()>
        // Success appends all bytes, and bytes that fit are appended without an error.
        ensures bytes { OnOk result (Appends (Some self.old.items) (Some self.new.items) buf.now) }
        ensures fits { HasRoom self.old (length buf.now) → IsOk result }
        ensures written { OnOk result
            (GrowsTo 1 self.old (length buf.now) (self.old.items ++ buf.now) self.new) }
        ensures counts { OnOk result (copies.WritesAtMost self.old (length buf.now) self.new) }

        // An error changes nothing.
        ensures unchanged { OnErr result (self.new ≡ self.old) }
        ensures error { IfErr result (λ e. error_kind e ≡ ErrorKind.OutOfMemory) }
    {
        match self.extend_from_slice_copied(buf) {
            Ok(()) => Ok(()),
            Err(_) => Err(Error::from(ErrorKind::OutOfMemory)),
        }
    }
}
