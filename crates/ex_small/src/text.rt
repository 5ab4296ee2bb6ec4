//! A builder of text.
ghost use Rattle.std.specs.Prelude.{◌≡◌, ◌++◌, length, decimal, IfOk, IfErr, IsOk, OnOk, OnErr};
ghost use Rattle.ex_small.specs.Held.{empty, with_items, with_room, HasRoom};

use allocator_api2::boxed::BoxedText;
use allocator_api2::collections::{Refused, TryReserveError, TryReserveErrorKind};
use allocator_api2::vec::Vec;
use std::alloc::Allocator;
use std::marker::Model;
use std::str;

/// A text that grows.
///
/// Contracts see its bytes and their capacity.
#[derive(Drop)]
pub struct TextBuilder<A: Allocator> {
    bytes: Vec<u8, A>,
}

impl<A: Allocator> Model for TextBuilder<A> {
    ghost use Rattle.std.specs.Prelude.{◌≡◌, ℕ, IsUtf8};
    ghost use Rattle.allocator_api2.specs.declared.raw_vec.Growth.TheVariants.{Doubling};
    ghost use Rattle.ex_small.specs.Held.{Held, held_of};

    ghost Value = { Held ℕ };

    ghost view = { λ t. held_of t.bytes };

    ghost invariant = { λ t. IsUtf8 t.bytes.items × (t.bytes.growth ≡ Doubling) };
}

impl<A: Allocator> TextBuilder<A> {
    /// Returns an empty text.
    ///
    /// Does not allocate.
    pub fn new_in(alloc: A) -> Self
        ensures { result ≡ empty 0 }
    {
        TextBuilder {
            bytes: Vec::new_in(alloc),
        }
    }

    /// Reserves capacity for at least `additional` more bytes.
    ///
    /// Does nothing if they fit. Else allocates as a vector that doubles does.
    ///
    /// # Errors
    /// `CapacityOverflow` or `AllocError`, as `Vec::try_reserve` returns them. The text is
    /// unchanged.
    pub fn reserve(&mut self, additional: usize) -> Result<(), TryReserveError>
        ensures fits { HasRoom self.old additional → IsOk result × (self.new ≡ self.old) }
        ensures enough { OnOk result (HasRoom self.new additional) }
        ensures reserved { OnOk result (self.new ≡ with_room 1 self.old additional) }
        ensures unchanged { OnErr result (self.new ≡ self.old) }
    {
        self.bytes.try_reserve(additional)
    }

    /// Appends `text`.
    ///
    /// Does not allocate if it fits.
    ///
    /// # Errors
    /// `CapacityOverflow` or `AllocError`, as `reserve` returns them. The text is unchanged.
    pub fn push_str(&mut self, text: &str) -> Result<(), TryReserveError>
        ensures fits { HasRoom self.old (length text.now)
            → IsOk result × (self.new.capacity ≡ self.old.capacity) }
        ensures pushed { OnOk result
            (self.new ≡ with_items (with_room 1 self.old (length text.now))
            (self.old.items ++ text.now)) }
        ensures unchanged { OnErr result (self.new ≡ self.old) }
    {
        self.bytes.extend_from_slice_copied(text.as_bytes())?;
        Ok(())
    }

    /// Appends `number` in decimal digits.
    ///
    /// Allocates a temporary block for the digits first. So the call may fail though they fit in
    /// the text.
    ///
    /// # Errors
    /// `AllocError` with 20 if the digits cannot be allocated. Else an error as `push_str` returns
    /// it. The text is unchanged.
    pub fn push_u64(&mut self, number: u64) -> Result<(), TryReserveError>
    where
        A: Copy + Drop,
        ensures pushed { OnOk result
            (self.new ≡ with_items (with_room 1 self.old (length (decimal number)))
            (self.old.items ++ decimal number)) }
        ensures unchanged { OnErr result (self.new ≡ self.old) }
    {
        match format!(in *self.bytes.allocator(); "{number}") {
            Ok(digits) => self.push_str(digits.as_str()),
            Err(_) => Err(TryReserveErrorKind::AllocError { capacity: 20 }.into()),
        }
    }

    /// Returns the text as a string slice.
    pub fn as_str(&self) -> &str
        ensures { result.now ≡ self.now.items }
    {
        unsafe { str::from_utf8_unchecked(self.bytes.as_slice()) }
    }

    /// Converts the builder into a boxed text, without spare capacity.
    ///
    /// Allocates a new block for it.
    ///
    /// # Errors
    /// If the allocation fails, the builder is returned in the error, as it was.
    pub fn finish(self) -> Result<BoxedText<A>, Refused<Self>>
    where
        A: Copy,
        ensures made { IfOk result (λ t. t.bytes ≡ self.items) }
        ensures returned { IfErr result (λ r. r.source ≡ self) }
    {
        match BoxedText::from_text(*self.bytes.allocator(), self.as_str()) {
            Ok(text) => Ok(text),
            Err(error) => Err(Refused {
                source: self,
                error,
            }),
        }
    }
}
