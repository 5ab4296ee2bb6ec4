//! A layer that rounds up the sizes of requests.
ghost use Rattle.std.specs.Prelude.{◌≡◌, ◌^◌, ◌<◌, ◌≤◌, IfSome};
ghost use Rattle.std.specs.Option.{SomeIff};
ghost use Rattle.aa_allocators.specs.Layers.{IsAlignment};
ghost use Rattle.aa_allocators.specs.Rounding.{IsRoundedSize, rounded_align, rounded_size};

use crate::layered::{Layer, Layered};
use std::alloc::Allocator;

/// The size in bytes of the smallest class.
pub(crate) const LEAST: usize = 16;

/// The size in bytes of the largest class.
pub(crate) const GREATEST: usize = 16_777_216;

// The alignment of each class: the largest that a type can have.
const ALIGN: usize = 16;

/// An allocator that rounds each request of up to 16 MiB up to a power of two of bytes.
///
/// It requests from an inner allocator the least power of two that is large enough and at least 16
/// bytes, at alignment 16. Larger requests are passed on unchanged.
pub type Rounded<B> = Layered<B, Classes>;

impl<B: Allocator> Layered<B, Classes> {
    /// Creates an allocator over `inner` that rounds up the sizes of requests.
    ///
    /// Does not allocate.
    pub fn over(inner: B) -> Rounded<B>
        ensures { result.inner ≡ inner }
    {
        Layered::with_layer(inner, Classes)
    }
}

// Returns the number of bytes that is requested in place of `size`.
fn rounded_size(size: usize) -> usize
    ensures { IsRoundedSize size result }
{
    if size > GREATEST {
        return size;
    }
    size.max(LEAST).next_power_of_two()
}

/// The layer of a `Rounded` allocator.
#[derive(Clone, Copy)]
pub struct Classes;

impl Layer for Classes {
    ghost size_for = { λ _ size _. rounded_size size };

    ghost align_for = { λ _ size align. rounded_align size align };

    fn size_for(&self, size: usize, _align: usize) -> Option<usize>
        ensures value { SomeIff result (rounded_size size < 2 ^ 64) (rounded_size size) }
        ensures sufficient { size ≤ rounded_size size }
        ensures rounded { IfSome result (IsRoundedSize size) }
    {
        Some(rounded_size(size))
    }

    fn align_for(&self, size: usize, align: usize) -> usize {
        if size > GREATEST {
            return align;
        }
        ALIGN
    }
}
