//! The iterators over the elements of a whole text.
ghost use Rattle.std.specs.Prelude.{◌≡◌, ◌+◌, ◌^◌, ◌<◌, length, Some, IfSome, ⊤};
ghost use Rattle.std.specs.Iterator.{UpTo, YieldsFirst, YieldsLast, at_most};
ghost use Rattle.std.specs.Iterator.Runs.{YieldsInOrder, YieldsInReverse};
ghost use Rattle.aa_raw.specs.IntoIter.{Remaining};
ghost use Rattle.std.specs.Iterator.SizeHint.{IsWithinCount};
ghost use Rattle.std.specs.Map.Iter.{TakesFirst, TakesLast, ShowsInOrder, ShowsInReverse, deref};
ghost use Rattle.aa_gap.specs.Buffer.{text, gap, len, moved_to};

use crate::gap_buffer::GapBuffer;
use aa_raw::vec::into_iter::IntoIter;
use std::alloc::{AllocError, Allocator};
use std::fmt;
use std::iter::FusedIterator;
use std::marker::Model;

/// A double-ended iterator over references to the elements of a text, in order.
///
/// Returns the elements before the cursor first. Contracts see it as the list of the remaining
/// elements.
#[derive(Drop)]
pub struct Iter<'a, T> {
    before: &'a [T],
    after: &'a [T],
}

impl<'a, T> Model for Iter<'a, T> {
    ghost use Rattle.std.specs.Prelude.{◌+◌, ◌^◌, ◌<◌, List, ◌++◌, length};

    ghost Value = { List T };

    ghost view = { λ i. i.before.now ++ i.after.now };

    ghost invariant = { λ i. length i.before.now + length i.after.now < 2 ^ 64 };
}

impl<T, A: Allocator> GapBuffer<T, A> {
    /// Returns a double-ended iterator over the elements of the whole text, in order.
    #[tactic(auto, using(crate::proofs::Walking::walked))]
    pub fn iter(&self) -> Iter<'_, T>
        ensures remaining { result ≡ text self.now }
        ensures within { length result < 2 ^ 64 }
        ensures in_order { ShowsInOrder (deref {X = T}) }
        ensures in_reverse { ShowsInReverse (deref {X = T}) }
    {
        // The contract of `len` says that the number of elements is a `usize`.
        let _len = self.len();
        Iter {
            before: self.before(),
            after: self.after(),
        }
    }
}

impl<'a, T> Iterator for Iter<'a, T> {
    type Item = &'a T;

    ghost next_gives = { TakesFirst deref };

    ghost remaining = { λ left. at_most (length left) };

    /// Returns the next element, or `None` if no element remains.
    fn next(&mut self) -> Option<&'a T> {
        let before = self.before;
        if !before.is_empty() {
            self.before = &before[1..];
            return Some(&before[0]);
        }
        let after = self.after;
        if after.is_empty() {
            return None;
        }
        self.after = &after[1..];
        Some(&after[0])
    }

    /// Returns the exact number of remaining elements as both bounds.
    fn size_hint(&self) -> (usize, Option<usize>)
        ensures lower { IsWithinCount result.0 (at_most (length self.now)) }
        ensures upper { IfSome result.1 (UpTo (at_most (length self.now))) }
        ensures exact { result ≡ (length self.now, Some (length self.now)) }
    {
        let left = self.len();
        (left, Some(left))
    }
}

impl<'a, T> DoubleEndedIterator for Iter<'a, T> {
    ghost next_back_gives = { TakesLast deref };

    /// Returns the last of the remaining elements, or `None` if no element remains.
    fn next_back(&mut self) -> Option<&'a T> {
        let after = self.after;
        if let Some(last) = after.len().checked_sub(1) {
            self.after = &after[..last];
            return Some(&after[last]);
        }
        let before = self.before;
        let Some(last) = before.len().checked_sub(1) else {
            return None;
        };
        self.before = &before[..last];
        Some(&before[last])
    }
}

impl<'a, T> ExactSizeIterator for Iter<'a, T> {
    fn len(&self) -> usize {
        self.before.len() + self.after.len()
    }
}

impl<'a, T> FusedIterator for Iter<'a, T> {}

impl<'a, T> Clone for Iter<'a, T> {
    ghost is_clone = { λ left copy. copy ≡ left };

    ghost is_infallible = { λ _. ⊤ };

    /// Returns an iterator over the same remaining elements. Does not allocate or fail.
    fn clone(&self) -> Result<Iter<'a, T>, AllocError> {
        Ok(Iter {
            before: self.before,
            after: self.after,
        })
    }
}

impl<'a, T: fmt::Debug> fmt::Debug for Iter<'a, T> {
    fn fmt<W: fmt::Write>(&self, f: &mut fmt::Formatter<W>) -> fmt::Result {
        f.debug_tuple("Iter")
            .field(&self.before)
            .field(&self.after)
            .finish()
    }
}

impl<'a, T, A: Allocator> IntoIterator for &'a GapBuffer<T, A> {
    type Item = &'a T;

    type IntoIter = Iter<'a, T>;

    ghost into_iter_gives = { λ b i. (i ≡ text b.now) × (length i < 2 ^ 64)
        × ShowsInOrder (deref {X = T}) × ShowsInReverse (deref {X = T}) };

    fn into_iter(self) -> Iter<'a, T> {
        self.iter()
    }
}

impl<T, A: Allocator> GapBuffer<T, A> {
    /// Returns a double-ended iterator that owns the elements of the whole text.
    ///
    /// Moves the cursor to the end first, as `move_to` does. It owns the block as well, so this
    /// does not allocate.
    #[tactic(auto, using(crate::proofs::Walking::all_before))]
    pub fn into_iter(self) -> IntoIter<T, A>
        ensures { let whole = moved_to self (len self) in result ≡ record {
          items = text self;
          capacity = self.capacity;
          grown = self.grown;
          written = whole.written;
          runs = whole.runs;
          alloc = self.alloc;
        } }
    {
        let mut text = self;
        let len = text.len();
        text.move_to(len);
        let (block, count, _none) = text.into_parts();
        IntoIter::from_block(block, count)
    }
}

impl<T: Drop, A: Allocator> IntoIterator for GapBuffer<T, A> {
    type Item = T;

    type IntoIter = IntoIter<T, A>;

    ghost into_iter_gives = { λ b i. (i.items ≡ text b)
        × YieldsInOrder (YieldsFirst {S = Remaining T A} (λ left. left.items)) (λ left. left.items)
        × YieldsInReverse (YieldsLast {S = Remaining T A} (λ left. left.items))
        (λ left. left.items) };

    fn into_iter(self) -> IntoIter<T, A> {
        GapBuffer::into_iter(self)
    }
}
