//! A small vector of bytes that is written to.
ghost use Rattle.std.specs.Prelude.{◌≡◌, ◌++◌, length, Some, IsOk, IfOk, IfErr, OnOk, OnErr};
ghost use Rattle.std.specs.Io.{WritesAtMost};
ghost use Rattle.std.specs.Io.KnownBytes.{Keeps, WriteAppends, Appends};
ghost use Rattle.std.specs.IoError.{error_kind};
ghost use Rattle.aa_inline.specs.Inlined.{HasRoom, with_room, with_written};

use crate::inline::InlineVec;
use std::alloc::Allocator;
use std::io::{Error, ErrorKind, Result as Written, Write};

/// Writing appends bytes to the vector.
///
/// An error has the kind `OutOfMemory`, and leaves the vector unchanged.
impl<A: Allocator + Copy, const N: usize> Write for InlineVec<u8, A, N> {
    ghost contents = { λ s. Some s.items };

    /// Appends all bytes of `buf`, and returns their number.
    ///
    /// Allocates only if they do not fit, as `reserve` does.
    ///
    /// # Errors
    /// An error of the kind `OutOfMemory` if the allocation fails. The vector is unchanged.
    fn write(&mut self, buf: &[u8]) -> Written<usize>
        // Every writer promises the following.
        ensures bound { WritesAtMost result buf.now }
        ensures bytes { WriteAppends (Some self.old.items) (Some self.new.items) result buf.now }

        // Success appends all bytes, and bytes that fit are appended without an error.
        ensures count { IfOk result (λ n. n ≡ length buf.now) }
        ensures fits { HasRoom N self.old (length buf.now) → IsOk result }
        ensures written { let n = length buf.now in let roomy = with_room 1 N self.old n in
            OnOk result (self.new ≡ with_written roomy (self.old.items ++ buf.now) n) }

        // An error changes nothing.
        ensures unchanged { OnErr result (self.new ≡ self.old) }
        ensures error { IfErr result (λ e. error_kind e ≡ ErrorKind.OutOfMemory) }
    {
        match self.extend_from_slice(buf) {
            Ok(()) => Ok(buf.len()),
            Err(_) => Err(Error::from(ErrorKind::OutOfMemory)),
        }
    }

    /// Does nothing.
    fn flush(&mut self) -> Written<()>
        ensures bytes { Keeps (Some self.old.items) (Some self.new.items) }
        ensures succeeds { IsOk result }
        ensures unchanged { self.new ≡ self.old }
    {
        Ok(())
    }
}
