//! `BoxedText`, a text in a block without spare capacity.
ghost use Rattle.std.specs.Prelude.{◌≡◌, ◌+◌, ◌<◌, ◌≤◌, ◌++◌, List, [], length, flat_map, None, IfOk, IfErr, OnOk, OnErr, MatchResult, IsUtf8};
ghost use Rattle.std.specs.Iterator.{IsFinite, IsNearerEnd, Drains, YieldsThen};
ghost use Rattle.std.specs.String.{string_bytes, string_capacity};
ghost use Rattle.aa_raw.specs.Errors.{AllocationFails};
ghost use Rattle.aa_raw.specs.Growths.{of_new};
ghost use Rattle.aa_raw.specs.declared.raw_vec.Growth.TheVariants.{Doubling};
ghost use Rattle.aa_boxed.specs.Text.{Text, bytes_of, new_text, text_of_slice};
ghost use Rattle.aa_boxed.specs.Text.{reserved_capacity, StringReserveFails, AppendsTexts, FailsAtText};

use crate::boxed::slice::BoxedSlice;
use aa_raw::collections::{TryReserveError, TryReserveErrorKind};
use core::mem::replace_with;
use std::alloc::{Allocator, Global};
use std::convert::AsStr;
use std::default::Default;
use std::marker::Model;
use std::ops::{AsDeref, DerefStr};
use std::str;
use std::string::String;

/// A text in UTF-8, whose bytes fill their block exactly.
///
/// Corresponds to allocator-api2's `Box<str, A>`.
pub struct BoxedText<A: Allocator = Global> {
    bytes: BoxedSlice<u8, A>,
    ghost utf8: { ∥ IsUtf8 bytes.items ∥₁ },
}

impl<A: Allocator> Model for BoxedText<A> {
    ghost Value = { Text A };

    ghost view = { λ t. text_of_slice t.bytes };
}

impl BoxedText<Global> {
    /// Returns a copy of the text, over the same allocator.
    ///
    /// Does not allocate if the text is empty.
    ///
    /// # Errors
    /// `CapacityOverflow`; or `AllocError` with the number of bytes. The copy of an empty text
    /// never fails.
    ///
    /// allocator-api2's `clone` aborts instead of returning an error.
    pub fn clone(&self) -> Result<Self, TryReserveError>
        ensures made { IfOk result
            (λ t. t ≡ record self.now { grown = of_new 1 (length self.now.bytes) }) }
        ensures error { IfErr result (AllocationFails (length self.now.bytes) 1) }
    {
        let bytes = self.bytes.clone()?;
        Ok(BoxedText { bytes })
    }
}

impl<A: Allocator> BoxedText<A> {
    /// Returns a copy of `text`, allocated by `alloc`.
    ///
    /// Does not allocate if `text` is empty.
    ///
    /// # Errors
    /// `CapacityOverflow`; or `AllocError` with the number of bytes. The copy of an empty text
    /// never fails.
    ///
    /// Corresponds to allocator-api2's `From<&str>` for `Box<str, A>`, which aborts instead of
    /// returning an error.
    pub fn from_text(alloc: A, text: &str) -> Result<Self, TryReserveError>
        ensures made { IfOk result (λ t. t ≡ new_text text.now alloc) }
        ensures error { IfErr result (AllocationFails (length text.now) 1) }
    {
        let bytes = BoxedSlice::from_slice(alloc, text.as_bytes())?;
        Ok(BoxedText { bytes })
    }

    /// Returns the bytes as a text, in the same block, if they are UTF-8.
    ///
    /// Does not allocate.
    ///
    /// # Errors
    /// `bytes`, unchanged, if they are not UTF-8.
    ///
    /// Not in allocator-api2.
    pub fn from_bytes(bytes: BoxedSlice<u8, A>) -> Result<Self, BoxedSlice<u8, A>>
        ensures { MatchResult result
            (λ t. (bytes_of t ≡ bytes) × IsUtf8 bytes.items)
            (λ back. (back ≡ bytes) × (¬ (IsUtf8 bytes.items))) }
    {
        match str::from_utf8(bytes.as_slice()) {
            Ok(_) => Ok(BoxedText { bytes }),
            Err(_) => Err(bytes),
        }
    }

    /// Returns the text as a `&str`.
    ///
    /// Corresponds to the dereference of allocator-api2's `Box<str, A>`.
    pub fn as_str(&self) -> &str
        ensures { result.now ≡ self.now.bytes }
    {
        unsafe { str::from_utf8_unchecked(self.bytes.as_slice()) }
    }

    /// Returns the bytes of the text as a boxed slice, in the same block.
    ///
    /// Does not allocate.
    ///
    /// Corresponds to allocator-api2's `From<Box<str, A>>` for `Box<[u8], A>`.
    pub fn into_bytes(self) -> BoxedSlice<u8, A>
        ensures bytes { result ≡ bytes_of self }
        ensures utf8 { IsUtf8 result.items }
    {
        let BoxedText { bytes } = self;
        bytes
    }

    /// Returns a reference to the allocator.
    pub fn allocator(&self) -> &A
        ensures { result.now ≡ self.now.alloc }
    {
        self.bytes.allocator()
    }
}

impl<A: Allocator> DerefStr for BoxedText<A> {
    ghost deref_gives = { λ t bytes. bytes ≡ t.bytes };

    /// Returns the text as a `&str`, as `as_str` does.
    fn deref(&self) -> &str {
        self.as_str()
    }
}

impl<A: Allocator> AsStr for BoxedText<A> {
    ghost text = { λ t. t.bytes };

    /// Returns the text as a `&str`. Corresponds to allocator-api2's `AsRef<str>`.
    fn as_str(&self) -> &str {
        BoxedText::as_str(self)
    }
}

impl<'a, A: Allocator + 'a> AsDeref<'a> for BoxedText<A> {
    ghost use Rattle.std.specs.Prelude.{ℕ};

    type Shown = &'a str;

    ghost as_deref_gives = { λ t s. s.now ≡ t.bytes };

    ghost View = { List ℕ };

    ghost view = { λ t. t.bytes };

    ghost output_view = { λ s. s.now };

    fn shown(&'a self) -> &'a str {
        self.as_str()
    }
}

impl<A: Allocator + Default> Default for BoxedText<A> {
    ghost is_default = { λ t. (t.bytes ≡ []) × (t.growth ≡ Doubling) × (t.grown ≡ of_new 1 0)
        × A.is_default t.alloc };

    /// Returns an empty text, over the default allocator.
    ///
    /// Does not allocate.
    fn default() -> Self {
        BoxedText {
            bytes: BoxedSlice::default(),
        }
    }
}

impl<A: Allocator> Drop for BoxedText<A> {
    /// Deallocates the memory.
    fn drop(self) {
        let Self { bytes: _ } = self;
    }
}

/// Appends the texts of `iter` to `text`, in order.
///
/// The iterator must be finite. Each text is appended whole, or not at all. Allocates only if a
/// text does not fit in the capacity.
///
/// # Errors
/// `CapacityOverflow`, always if the new length would exceed `usize::MAX`; or `AllocError` with the
/// requested capacity. `text` then holds the texts that were appended before. The one that did not
/// fit is dropped.
///
/// Corresponds to allocator-api2's `Extend<Box<str, A>>` for `String`, which aborts instead of
/// returning an error.
pub fn append_texts<S: Allocator, A: Allocator, I: Iterator<Item = BoxedText<A>>>(
    text: &mut String<S>,
    iter: I,
) -> Result<(), TryReserveError>
    requires callable { I.can_next iter }
    requires finite { IsFinite (I.remaining iter) }
    ensures appended { OnOk result
        ((ts : List (Text A)) × Drains I.next_gives iter ts × AppendsTexts ts text.old text.new) }
    ensures failed { IfErr result
        (λ e. (after : I) × FailsAtText I.next_gives iter text.old e text.new after) }
    ensures never_shrinks { string_capacity text.old ≤ string_capacity text.new }
{
    let mut rest = iter;
    append_texts_by(text, &mut rest)
}

/// Like `append_texts`, but takes the iterator by `&mut`.
///
/// Takes only the texts that it appends and, if an allocation fails, the one that did not fit.
/// Allocates as `append_texts` does.
///
/// # Errors
/// As for `append_texts`.
///
/// Corresponds to allocator-api2's `Extend<Box<str, A>>` for `String`, called with `by_ref`.
pub fn append_texts_by<S: Allocator, A: Allocator, I: Iterator<Item = BoxedText<A>>>(
    text: &mut String<S>,
    iter: &mut I,
) -> Result<(), TryReserveError>
    // The iterator can be called, and is finite.
    requires callable { I.can_next iter.old }
    requires finite { IsFinite (I.remaining iter.old) }

    // Success appends all texts.
    ensures appended { OnOk result
        ((ts : List (Text A)) × YieldsThen I.next_gives iter.old ts None iter.new
        × AppendsTexts ts text.old text.new) }

    // Failure says which texts were appended, and advances the iterator.
    ensures failed { IfErr result
        (λ e. FailsAtText I.next_gives iter.old text.old e text.new iter.new) }
    ensures advanced { IfErr result (λ _. IsNearerEnd I.can_next I.remaining iter.old iter.new) }

    // The capacity never shrinks.
    ensures never_shrinks { string_capacity text.old ≤ string_capacity text.new }
{
    while let Some(next) = iter.next() {
        match append_text(text, next.as_str()) {
            Ok(()) => {}
            Err(error) => return Err(error),
        }
    }
    Ok(())
}

// Appends `more`, or leaves `text` unchanged if the allocation for it fails.
fn append_text<S: Allocator>(text: &mut String<S>, more: &str) -> Result<(), TryReserveError>
    // Success appends `more`, with the capacity that was reserved for it.
    ensures appended { OnOk result (string_bytes text.new ≡ string_bytes text.old ++ more.now) }
    ensures capacity { OnOk result (string_capacity text.new
        ≡ reserved_capacity (string_capacity text.old) (length (string_bytes text.old))
        (length more.now)) }

    // Failure changes nothing.
    ensures unchanged { OnErr result (string_bytes text.new ≡ string_bytes text.old) }
    ensures same_capacity { OnErr result (string_capacity text.new ≡ string_capacity text.old) }
    ensures error { IfErr result (StringReserveFails text.new (length more.now)) }

    // The capacity never shrinks.
    ensures never_shrinks { string_capacity text.old ≤ string_capacity text.new }
{
    make_room(text, more.len())?;
    replace_with(text, more, append_within_capacity);
    Ok(())
}

// Reserves capacity for `additional` more bytes, and grows as a vector with the policy `Doubling`
// does.
fn make_room<S: Allocator>(text: &mut String<S>, additional: usize) -> Result<(), TryReserveError>
    // The text does not change, and has the reserved capacity.
    ensures bytes { string_bytes text.new ≡ string_bytes text.old }
    ensures capacity { OnOk result (string_capacity text.new
        ≡ reserved_capacity (string_capacity text.old) (length (string_bytes text.old))
        additional) }
    ensures reserved { OnOk result
        (length (string_bytes text.old) + additional ≤ string_capacity text.new) }

    // Failure changes nothing.
    ensures same_capacity { OnErr result (string_capacity text.new ≡ string_capacity text.old) }
    ensures error { IfErr result (StringReserveFails text.new additional) }

    // The capacity never shrinks.
    ensures never_shrinks { string_capacity text.old ≤ string_capacity text.new }
{
    let (len, capacity) = (text.len(), text.capacity());
    if additional <= capacity - len {
        return Ok(());
    }
    let Some(required) = len.checked_add(additional) else {
        return Err(TryReserveErrorKind::CapacityOverflow.into());
    };
    let requested = (capacity * 2).max(required).max(8);
    match text.try_reserve_exact(requested - len) {
        Ok(()) => Ok(()),
        Err(_) => Err(TryReserveError::for_capacity::<u8>(requested)),
    }
}

// Returns `text` with `more` appended, without growth.
fn append_within_capacity<S: Allocator>(text: String<S>, more: &str) -> (String<S>, ())
    requires { length (string_bytes text) + length more.now ≤ string_capacity text }
    ensures bytes { string_bytes result.0 ≡ string_bytes text ++ more.now }
    ensures capacity { string_capacity result.0 ≡ string_capacity text }
{
    let mut bytes = text.into_bytes();
    for byte in more.as_bytes() {
        bytes.push_reserved(*byte);
    }
    (unsafe { String::from_utf8_unchecked(bytes) }, ())
}
