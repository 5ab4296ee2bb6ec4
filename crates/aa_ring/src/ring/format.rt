//! Debug output of a ring.
ghost use Rattle.std.specs.Fmt.{debug_list};

use crate::ring::Ring;
use std::alloc::Allocator;
use std::fmt;
use std::fmt::{Debug, Formatter};

impl<T: Debug, A: Allocator> Debug for Ring<T, A> {
    ghost debug_output = { λ r. debug_list T.debug_output r.items };

    /// Formats the items as a slice of them is formatted.
    fn fmt<W: fmt::Write>(&self, f: &mut Formatter<W>) -> fmt::Result {
        if f.alternate() {
            return f.debug_list().entries(self.iter()).finish();
        }
        f.write_str("[")?;
        let mut items = self.iter();
        if let Some(first) = items.next() {
            first.fmt(f)?;
            'each: for item in items {
                f.write_str(", ")?;
                item.fmt(f)?;
            }
        }
        f.write_str("]")
    }
}
