//! The lists of an arena as slices.
ghost use Rattle.std.specs.Prelude.{◌≡◌, length, Some, IfSome};
ghost use Rattle.std.specs.Iterator.{UpTo, YieldsFirst, YieldsFirstBy, YieldsLast, YieldsLastBy, item_count};
ghost use Rattle.std.specs.Iterator.SizeHint.{IsWithinCount};

use super::{Head, LEAF};
use allocator_api2::raw_vec::RawVec;
use std::alloc::Allocator;
use std::iter::FusedIterator;
use std::marker::Model;

/// A double-ended iterator over the lists of an arena, as slices.
///
/// Returned by `Leaves::slices`. A contract sees it as the list of the remaining lists.
#[derive(Drop)]
pub struct Slices<'a, T, A: Allocator> {
    pub(super) block: &'a RawVec<T, A>,
    pub(super) heads: &'a [Head],
}

impl<'a, T, A: Allocator> Model for Slices<'a, T, A> {
    ghost use Rattle.std.specs.Prelude.{List, map};
    ghost use Rattle.std.specs.List.{All};
    ghost use Rattle.aa_ordered.specs.Arena.{list_of, IsHeld};

    ghost Value = { List (List T) };

    ghost view = { λ it. map (list_of it.block.now.places) it.heads.now };

    ghost invariant = { λ it. All (IsHeld it.block.now.places) it.heads.now };
}

impl<'a, T, A: Allocator> Slices<'a, T, A> {
    /// Returns an iterator over the same remaining lists.
    pub fn duplicate(&self) -> Self
        ensures { result ≡ self.now }
    {
        Slices {
            block: self.block,
            heads: self.heads,
        }
    }
}

impl<'a, T, A: Allocator> Iterator for Slices<'a, T, A> {
    type Item = &'a [T];

    ghost next_gives = { YieldsFirstBy (λ list. list.now) (λ rest. rest) };

    ghost remaining = { item_count (λ rest. rest) };

    /// Returns the next list, or `None` if none remains.
    #[inline]
    fn next(&mut self) -> Option<&'a [T]> {
        let (head, others) = self.heads.split_first()?;
        self.heads = others;
        self.block.prove_capacity_bounds();
        Some(self.block.slice(head.leaf * LEAF, head.len))
    }

    /// Returns the exact number of remaining lists, as both bounds.
    fn size_hint(&self) -> (usize, Option<usize>)
        ensures lower { IsWithinCount result.0 (item_count (λ rest. rest) self.now) }
        ensures upper { IfSome result.1 (UpTo (item_count (λ rest. rest) self.now)) }
        ensures exact { result ≡ (length self.now, Some (length self.now)) }
    {
        (self.heads.len(), Some(self.heads.len()))
    }
}

impl<'a, T, A: Allocator> DoubleEndedIterator for Slices<'a, T, A> {
    ghost next_back_gives = { YieldsLastBy (λ list. list.now) (λ rest. rest) };

    /// Returns the last remaining list, or `None` if none remains.
    #[inline]
    fn next_back(&mut self) -> Option<&'a [T]> {
        let (head, others) = self.heads.split_last()?;
        self.heads = others;
        self.block.prove_capacity_bounds();
        Some(self.block.slice(head.leaf * LEAF, head.len))
    }
}

impl<'a, T, A: Allocator> ExactSizeIterator for Slices<'a, T, A> {
    fn len(&self) -> usize {
        self.heads.len()
    }
}

impl<'a, T, A: Allocator> FusedIterator for Slices<'a, T, A> {}
