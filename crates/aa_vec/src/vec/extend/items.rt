//! Iterators with a hint of how many items remain, which need not be true.
ghost use Rattle.std.specs.Prelude.{◌≡◌, ℕ, length, None, IfSome};
ghost use Rattle.std.specs.Iterator.{UpTo, item_count};
ghost use Rattle.std.specs.Iterator.SizeHint.{IsWithinCount};
ghost use Rattle.aa_vec.specs.Extend.{takes_item, lower_bound_of};

use crate::vec::{IntoIter, Vec};
use std::alloc::{Allocator, Global};
use std::marker::Model;

/// An iterator that returns a hint of how many items remain, which need not be true.
///
/// Not in allocator-api2, which calls `size_hint`.
pub trait Hinted: Iterator {
    /// The hint, as a function of the iterator's state.
    ghost lower_of: { Self → ℕ };

    /// Returns the hint.
    fn lower(&self) -> usize
        ensures { result ≡ lower_of self.now };
}

/// An iterator over the elements of a vector, with a hint of their number that need not be true.
///
/// Not in allocator-api2.
#[derive(Drop)]
pub struct Items<T, A: Allocator = Global> {
    rest: IntoIter<T, A>,
    hint: Option<usize>,
}

impl<T, A: Allocator> Model for Items<T, A> {
    ghost use Rattle.aa_vec.specs.Extend.{RemainingItems};

    ghost Value = { RemainingItems T };

    ghost view = { λ s. record { items = s.rest.items; hint = s.hint } };
}

impl<T, A: Allocator> Items<T, A> {
    /// Creates an iterator over the elements of `items`, in order, whose `lower` returns `hint`.
    ///
    /// If `hint` is `None`, `lower` returns the number of remaining elements. Does not allocate.
    pub fn new(items: Vec<T, A>, hint: Option<usize>) -> Self
        ensures { result ≡ record { items = items.items; hint = hint } }
    {
        let rest = items.into_iter();
        Items { rest, hint }
    }
}

impl<T: Drop, A: Allocator> Iterator for Items<T, A> {
    type Item = T;

    ghost next_gives = { takes_item };

    ghost remaining = { item_count (λ left. left.items) };

    /// Takes and returns the first item, or returns `None` if none remains.
    ///
    /// Once it has returned `None`, it always does.
    #[inline]
    fn next(&mut self) -> Option<T> {
        self.rest.next()
    }

    /// Returns `(0, None)`: no bounds.
    ///
    /// So this returns nothing untrue; `lower` returns the hint.
    fn size_hint(&self) -> (usize, Option<usize>)
        ensures lower { IsWithinCount result.0 (item_count (λ left. left.items) self.now) }
        ensures upper { IfSome result.1 (UpTo (item_count (λ left. left.items) self.now)) }
        ensures exact { result ≡ (0, None) }
    {
        (0, None)
    }
}

impl<T: Drop, A: Allocator> Hinted for Items<T, A> {
    ghost lower_of = { λ s. lower_bound_of s.hint (length s.items) };

    /// Returns the hint or, without one, the number of remaining items.
    fn lower(&self) -> usize {
        match self.hint {
            Some(hint) => hint,
            None => self.rest.len(),
        }
    }
}
