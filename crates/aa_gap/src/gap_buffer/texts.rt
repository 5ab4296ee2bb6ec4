//! Bytes as text.
ghost use Rattle.std.specs.Prelude.{◌≡◌, ◌⊎◌, ◌↔◌, IfErr, IfOk, IsOk};
ghost use Rattle.std.specs.Str.{IsUtf8};
ghost use Rattle.aa_gap.specs.Texts.{IsUtf8ErrorOf};

use crate::gap_buffer::GapBuffer;
use std::alloc::Allocator;
use std::str;
use std::str::Utf8Error;

impl<A: Allocator> GapBuffer<u8, A> {
    /// Returns the bytes before and after the cursor as two string slices.
    ///
    /// Each part must be UTF-8 alone, so the cursor is not within a character.
    ///
    /// # Errors
    /// The error of `str::from_utf8` for the first of the two parts that is not UTF-8. Its position
    /// is counted from the beginning of that part.
    pub fn as_strs(&self) -> Result<(&str, &str), Utf8Error>
        ensures utf8 { IsOk result ↔ (IsUtf8 self.now.before × IsUtf8 self.now.after) }
        ensures text { IfOk result
            (λ s. (s.0.now ≡ self.now.before) × (s.1.now ≡ self.now.after)) }
        ensures error { IfErr result (λ e. IsUtf8ErrorOf self.now.before e
            ⊎ (IsUtf8 self.now.before × IsUtf8ErrorOf self.now.after e)) }
    {
        let before = match str::from_utf8(self.before()) {
            Ok(text) => text,
            Err(error) => return Err(error),
        };
        match str::from_utf8(self.after()) {
            Ok(after) => Ok((before, after)),
            Err(error) => Err(error),
        }
    }
}
