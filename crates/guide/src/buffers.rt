//! A gap buffer, read and changed at once.
ghost use Rattle.std.specs.Prelude.{◌≡◌, ◌⊎◌, ◌++◌, length, reverse, slice_get, IfOk, OnOk, Some};
ghost use Rattle.allocator_api2.specs.Buffer.{text};

use allocator_api2::collections::TryReserveError;
use allocator_api2::gap_buffer::GapBuffer;
use allocator_api2::vec::Vec;
use std::alloc::Allocator;

/// Returns the byte at `index`, or a space.
pub fn byte_or_space<A: Allocator>(b: &GapBuffer<u8, A>, index: usize) -> u8
    ensures { (slice_get (text b.now) index ≡ Some result) ⊎ (result ≡ 32) }
{
    match b.get(index) {
        Some(byte) => *byte,
        None => b' ',
    }
}

/// Reverses the text, if there is one. The cursor is then at the end.
pub fn reverse_text<A: Allocator>(b: &mut GapBuffer<u8, A>)
    ensures { text b.new ≡ reverse (text b.old) }
{
    if !b.is_empty() {
        b.make_contiguous().reverse();
    }
}

/// Moves all bytes of the vector to the cursor, which is then after them.
pub fn paste<A: Allocator>(
    b: &mut GapBuffer<u8, A>,
    v: &mut Vec<u8, A>,
) -> Result<(), TryReserveError>
    ensures before { OnOk result (b.new.before ≡ b.old.before ++ v.old.items) }
    ensures after { OnOk result (b.new.after ≡ b.old.after) }
{
    b.extend(v.drain(..))
}

/// Returns a copy of the buffer, with its cursor at the same place.
pub fn saved<A: Allocator + Clone>(
    b: &GapBuffer<u8, A>,
) -> Result<GapBuffer<u8, A>, TryReserveError>
    ensures { IfOk result (λ c. (c.before ≡ b.now.before) × (c.after ≡ b.now.after)) }
{
    b.clone()
}

/// Raises each byte that is a lower case letter.
pub fn raise<A: Allocator>(b: &mut GapBuffer<u8, A>)
    ensures { length (text b.new) ≡ length (text b.old) }
{
    'each: for byte in b.iter_mut() {
        *byte = byte.to_ascii_uppercase();
    }
}
