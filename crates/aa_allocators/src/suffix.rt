//! A word after each block.
ghost use Rattle.std.specs.Prelude.{◌≡◌, ℕ, ◌+◌, ◌≤◌};
ghost use types.Logic.{sem};
ghost use Rattle.aa_allocators.specs.Layers.{IsAlignment, padded};
ghost use Rattle.aa_allocators.specs.Suffixes.{word_align, word_at, word_room};

use crate::layered::{Layer, requested_size};

// The alignment of a word.
const ALIGN: usize = 8;

// Requests a word more, which is after the block.
#[derive(Clone, Copy)]
struct Word;

impl Layer for Word {
    ghost size_for = { λ _ size align. size + word_align align };

    ghost align_for = { λ _ _ align. word_align align };

    fn size_for(&self, size: usize, align: usize) -> Option<usize> {
        size.checked_add(suffixed_align(align))
    }

    fn align_for(&self, _size: usize, align: usize) -> usize {
        suffixed_align(align)
    }
}

/// Returns the size of a block of `size` bytes with a word after it, or `usize::MAX` if that
/// overflows.
pub(crate) fn suffixed_size(size: usize, align: usize) -> usize
    requires { IsAlignment align }
    ensures { (result ≡ padded (size + word_align align) (word_align align)) × (size ≤ result) }
{
    requested_size(&Word, size, align)
}

/// Returns the alignment of a block with a word after it.
pub(crate) fn suffixed_align(align: usize) -> usize
    requires { IsAlignment align }
    ensures { (result ≡ word_align align) × (align ≤ result) × IsAlignment result }
{
    align.max(ALIGN)
}

/// Writes `word` at `at` bytes after `block`.
pub(crate) unsafe fn write_word(block: *mut u8, at: usize, word: u64)
    requires* { sem 𝓛 (word_room block at) }
    ensures* { sem 𝓛 (word_at word block at) }
{
    (block.add(at) as *mut u64).write(word);
}
