//! A text editor of one line: a gap buffer of bytes, and a few calls on it.
ghost use Rattle.std.specs.Prelude.{◌≡◌, [], ◌∷◌, ◌++◌, length, take, drop, min, IsOk, OnOk, OnErr, MatchOption};

use allocator_api2::collections::TryReserveError;
use allocator_api2::gap_buffer::GapBuffer;
use std::alloc::Allocator;
use std::marker::Model;

/// A line of bytes with a cursor.
///
/// Contracts see the bytes before the cursor, the bytes after it, and the capacity of the line.
#[derive(Drop)]
pub struct Editor<A: Allocator> {
    line: GapBuffer<u8, A>,
}

impl<A: Allocator> Model for Editor<A> {
    ghost use Rattle.std.specs.Prelude.{◌≡◌};
    ghost use Rattle.allocator_api2.specs.declared.raw_vec.Growth.TheVariants.{Doubling};
    ghost use Rattle.ex_small.specs.Editor.{Line, line_of};

    ghost Value = { Line };

    ghost view = { λ e. line_of e.line };

    ghost invariant = { λ e. e.line.growth ≡ Doubling };
}

impl<A: Allocator> Editor<A> {
    ghost use Rattle.ex_small.specs.Editor.{text, with_parts, with_room, HasRoom};

    /// Returns an empty line.
    ///
    /// Does not allocate.
    pub fn new_in(alloc: A) -> Self
        ensures { result ≡ record { before = []; after = []; capacity = 0 } }
    {
        Editor {
            line: GapBuffer::new_in(alloc),
        }
    }

    /// Returns the bytes before the cursor.
    pub fn before(&self) -> &[u8]
        ensures { result.now ≡ self.now.before }
    {
        self.line.before()
    }

    /// Returns the bytes after the cursor.
    pub fn after(&self) -> &[u8]
        ensures { result.now ≡ self.now.after }
    {
        self.line.after()
    }

    /// Reserves capacity for at least `additional` more bytes.
    ///
    /// Does nothing if they fit. Else allocates as a gap buffer that doubles does.
    ///
    /// # Errors
    /// `CapacityOverflow` or `AllocError`, as `GapBuffer::reserve` returns them. The line is
    /// unchanged.
    pub fn reserve(&mut self, additional: usize) -> Result<(), TryReserveError>
        ensures fits { HasRoom self.old additional → IsOk result × (self.new ≡ self.old) }
        ensures enough { OnOk result (HasRoom self.new additional) }
        ensures reserved { OnOk result (self.new ≡ with_room self.old additional) }
        ensures unchanged { OnErr result (self.new ≡ self.old) }
    {
        self.line.reserve(additional)
    }

    /// Inserts `bytes` before the cursor: all of them, or none.
    ///
    /// Does not allocate if they fit.
    ///
    /// # Errors
    /// `CapacityOverflow` or `AllocError`, as `reserve` returns them. The line is unchanged.
    pub fn type_in(&mut self, bytes: &[u8]) -> Result<(), TryReserveError>
        ensures fits { HasRoom self.old (length bytes.now)
            → IsOk result × (self.new.capacity ≡ self.old.capacity) }
        ensures typed { OnOk result
            (self.new ≡ with_parts (with_room self.old (length bytes.now))
            (self.old.before ++ bytes.now) self.old.after) }
        ensures unchanged { OnErr result (self.new ≡ self.old) }
    {
        self.line.reserve(bytes.len())?;
        for byte in bytes {
            match self.line.insert_within(*byte) {
                Ok(()) => {}
                Err(_) => unreachable!(),
            }
        }
        Ok(())
    }

    /// Removes the byte before the cursor and returns it, or returns `None` if there is none.
    ///
    /// Does not allocate, and does not change the capacity.
    pub fn backspace(&mut self) -> Option<u8>
        ensures taken { MatchOption result ((self.old.before ≡ []) × (self.new.before ≡ []))
            (λ x. self.old.before ≡ self.new.before ++ x ∷ []) }
        ensures kept { self.new ≡ with_parts self.old self.new.before self.old.after }
    {
        self.line.delete_back()
    }

    /// Moves the cursor to `position`, or to the end if the line is shorter.
    pub fn go_to(&mut self, position: usize)
        ensures { let at = min position (length (text self.old))
            in self.new ≡ with_parts self.old (take at (text self.old)) (drop at (text self.old)) }
    {
        self.line.move_to(position.min(self.line.len()));
    }
}
