//! Bytes and texts.
ghost use Rattle.std.specs.Prelude.{◌≡◌, ◌+◌, ◌^◌, ◌<◌, ◌++◌, ℕ, List, length, codes, decimal, IfOk, IfErr, IsTrue, OnErr, OnOk, ◌↔◌};
ghost use Rattle.std.specs.Io.KnownBytes.{Consumes, IsAtEnd};
ghost use Rattle.allocator_api2.specs.Errors.{IsErrorForAtLeast};
ghost use Rattle.allocator_api2.specs.Growths.{of_new};
ghost use Rattle.allocator_api2.specs.Vector.{HasRoom, Holds};

use allocator_api2::boxed::{BoxedSlice, BoxedText};
use allocator_api2::collections::{Refused, TryReserveError};
use allocator_api2::vec::Vec;
use std::alloc::Allocator;
use std::io::{ErrorKind, Read, Result as Written, Write};

/// Writes a line about a number to the end of the bytes.
pub fn write_line<A: Allocator>(v: &mut Vec<u8, A>, n: u64) -> Written<()>
    ensures { OnOk result (v.new.items ≡ v.old.items ++ codes "n = " ++ decimal n) }
{
    write!(v, "n = {n}")
}

/// Appends all of `bytes`, or none.
pub fn write_bytes<A: Allocator>(v: &mut Vec<u8, A>, bytes: &[u8]) -> Written<()>
    ensures all { OnOk result (v.new.items ≡ v.old.items ++ bytes.now) }
    ensures none { OnErr result (v.new ≡ v.old) }
{
    v.write_all(bytes)
}

/// Appends all bytes that a reader returns, up to its end.
pub fn read_all<R: Read, A: Allocator>(r: &mut R, v: &mut Vec<u8, A>) -> Written<()>
    ensures all { OnOk result ((more : List ℕ) × (v.new.items ≡ v.old.items ++ more)
        × Consumes (R.Read.remaining r.old) (R.Read.remaining r.new) more) }
    ensures end { OnOk result (IsAtEnd (R.Read.remaining r.new)) }
{
    let mut piece = [0; 256];
    'reading: for _turn in 0..u64::MAX {
        let count = r.read(&mut piece)?;
        if count == 0 {
            return Ok(());
        }
        v.write_all(&piece[..count])?;
    }
    Err(ErrorKind::Other.into())
}

/// Returns a copy of `text` in a block of its own.
pub fn text_in<A: Allocator>(alloc: A, text: &str) -> Result<BoxedText<A>, TryReserveError>
    ensures { IfOk result (λ t. t.bytes ≡ text.now) }
{
    BoxedText::from_text(alloc, text)
}

/// Appends a piece.
///
/// # Errors
/// If the allocation fails, the vector is unchanged and `piece` is returned in the error.
pub fn add_piece<'a, A: Allocator>(
    v: &mut Vec<&'a [u8], A>,
    piece: &'a [u8],
) -> Result<(), Refused<&'a [u8]>>
    ensures { OnErr result (v.new ≡ v.old) }
{
    v.push(piece)?;
    Ok(())
}

/// Like `add_piece`, but returns only the reason in the error.
pub fn add_piece_or_fail<'a, A: Allocator>(
    v: &mut Vec<&'a [u8], A>,
    piece: &'a [u8],
) -> Result<(), TryReserveError>
    ensures { IfErr result (λ e. IsErrorForAtLeast e (length v.old.items + 1) × (v.new ≡ v.old)) }
{
    v.push(piece)?;
    Ok(())
}

/// Returns `true` if the text begins with `start`.
pub fn begins_with<A: Allocator>(t: &BoxedText<A>, start: &str) -> bool
    ensures { IsTrue result ↔ ((rest : List ℕ) × (t.now.bytes ≡ start.now ++ rest)) }
{
    t.as_str().starts_with(start)
}

/// Returns the bytes of the text, in its block.
pub fn bytes_of<A: Allocator>(t: BoxedText<A>) -> BoxedSlice<u8, A>
    ensures { result.items ≡ t.bytes }
{
    t.into_bytes()
}

/// Returns a copy of the text by its own allocator.
pub fn beside<A: Allocator + Clone>(t: &BoxedText<A>) -> Result<BoxedText<A>, TryReserveError>
    ensures { IfOk result (λ c. c.bytes ≡ t.now.bytes) }
{
    BoxedText::from_text(t.allocator().clone()?, t.as_str())
}

/// Returns a copy of the text.
pub fn another(t: &BoxedText) -> Result<BoxedText, TryReserveError>
    ensures { IfOk result (λ c. c ≡ record t.now { grown = of_new 1 (length t.now.bytes) }) }
{
    t.clone()
}

// Appends bytes, which must fit, and so does not allocate.
fn write_within<A: Allocator>(v: &mut Vec<u8, A>, bytes: &[u8])
    requires room { HasRoom v.old (length bytes.now) }
    ensures { Holds v.old (v.old.items ++ bytes.now) v.new }
{
    match v.extend_from_slice_copied(bytes) {
        Ok(()) => {}
        Err(_) => unreachable!(),
    }
}

/// Appends a key, `=` and a value, or nothing.
pub fn write_pair<A: Allocator>(
    v: &mut Vec<u8, A>,
    key: &[u8],
    value: &[u8],
) -> Result<(), TryReserveError>
    requires { length key.now + length value.now + 1 < 2 ^ 64 }
    ensures all { OnOk result (v.new.items ≡ v.old.items ++ key.now ++ codes "=" ++ value.now) }
    ensures none { OnErr result (v.new ≡ v.old) }
{
    v.try_reserve(key.len() + value.len() + 1)?;
    write_within(v, key);
    write_within(v, b"=");
    write_within(v, value);
    Ok(())
}

/// Writes a text and a line feed.
pub fn write_in_line<A: Allocator>(v: &mut Vec<u8, A>, text: &str) -> Written<()>
    ensures { OnOk result (v.new.items ≡ v.old.items ++ text.now ++ codes "\n") }
{
    v.write_all(text.as_bytes())?;
    v.push(b'\n')?;
    Ok(())
}
