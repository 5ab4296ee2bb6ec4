//! Debug output of a text.
ghost use Rattle.std.specs.Fmt.{debug_list};
ghost use Rattle.aa_gap.specs.Buffer.{text};

use crate::gap_buffer::GapBuffer;
use std::alloc::Allocator;
use std::fmt;
use std::fmt::{Debug, Formatter};

impl<T: Debug, A: Allocator> Debug for GapBuffer<T, A> {
    ghost debug_output = { λ b. debug_list T.debug_output (text b) };

    /// Formats the whole text as a slice of its elements is formatted.
    fn fmt<W: fmt::Write>(&self, f: &mut Formatter<W>) -> fmt::Result {
        if f.alternate() {
            return f.debug_list().entries(self.iter()).finish();
        }
        f.write_str("[")?;
        let mut items = self.iter();
        if let Some(first) = items.next() {
            first.fmt(f)?;
            'each: for item in items {
                f.write_str(", ")?;
                item.fmt(f)?;
            }
        }
        f.write_str("]")
    }
}
