//! An allocator that rounds sizes up and reuses freed blocks.
ghost use Rattle.std.specs.Prelude.{◌≡◌, ◌<◌};
ghost use Rattle.aa_allocators.specs.Kepts.{with_blocks};

use crate::rack::{CLASSES, Rack, class_size};
use crate::rounded::Rounded;
use std::alloc::Allocator;

/// An allocator that keeps freed blocks of up to 16 MiB and reuses them.
///
/// Each request of up to 16 MiB is rounded up to a class: a power of two of bytes, 16 or more, at
/// alignment 16. `allocate` returns a kept block of the class, if there is one, without a call of
/// the inner allocator. So vectors that grow again and again reuse the blocks that others freed.
/// Larger requests are passed on.
///
/// A collection takes `&recycler` as its allocator. Dropping the recycler deallocates all kept
/// blocks.
pub type Recycler<B> = Rounded<Rack<B>>;

/// The blocks that a recycler keeps.
#[derive(Clone, Copy, PartialEq, Eq, Debug)]
pub struct Kept {
    /// The number of blocks.
    pub blocks: usize,
    /// The total size of the blocks in bytes.
    pub bytes: usize,
}

impl Kept {
    // Adds `count` blocks of a class.
    fn with_blocks(self, class: usize, count: usize) -> Kept
        requires { class < 21 }
        ensures { result ≡ with_blocks self class count }
    {
        let bytes = count.saturating_mul(class_size(class));
        Kept {
            blocks: self.blocks.saturating_add(count),
            bytes: self.bytes.saturating_add(bytes),
        }
    }
}

impl<B: Allocator> Rounded<Rack<B>> {
    /// Creates an empty recycler over `inner`, without a limit on what it keeps.
    ///
    /// Does not allocate.
    pub fn new(inner: B) -> Recycler<B>
        ensures { result.inner.inner ≡ inner }
    {
        Recycler::with_limit(inner, usize::MAX)
    }

    /// Creates an empty recycler over `inner` that keeps at most `limit` bytes of each class.
    ///
    /// A freed block past the limit is deallocated with `inner` at once. Does not allocate.
    pub fn with_limit(inner: B, limit: usize) -> Recycler<B>
        ensures inner { result.inner.inner ≡ inner }
        ensures limit { result.inner.limit ≡ limit }
    {
        Rounded::over(Rack::new(inner, limit))
    }

    /// Returns the maximum number of bytes that are kept of each class.
    pub fn limit(&self) -> usize
        ensures { result ≡ self.now.inner.limit }
    {
        self.inner().limit()
    }

    /// Deallocates all kept blocks with the inner allocator.
    pub fn trim(&self) {
        self.inner().clear();
    }

    /// Returns the number and the total size of the kept blocks.
    pub fn kept(&self) -> Kept {
        let mut kept = Kept {
            blocks: 0,
            bytes: 0,
        };
        for class in 0..CLASSES {
            kept = kept.with_blocks(class, self.inner().count(class_size(class)));
        }
        kept
    }
}
