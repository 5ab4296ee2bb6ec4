//! An iterator over the elements of a set that shows the next one.
ghost use Rattle.std.specs.Prelude.{◌≡◌, drop};
ghost use Rattle.std.specs.Iterator.{YieldsFirstBy};
ghost use Rattle.std.specs.Map.Iter.{deref, TakesFirst};

use aa_ordered::iter::Keys;
use std::alloc::Allocator;
use std::marker::Model;

// An iterator that shows the next element.
#[derive(Drop)]
pub(crate) struct Peeked<'a, T, A: Allocator> {
    head: Option<&'a T>,
    rest: Keys<'a, T, (), A>,
}

impl<'a, T, A: Allocator> Model for Peeked<'a, T, A> {
    ghost use Rattle.std.specs.Prelude.{◌≡◌, List, [], IfNone};
    ghost use Rattle.std.specs.Option.{option_copied};
    ghost use Rattle.std.specs.List.{cons_option};

    ghost Value = { List T };

    ghost view = { λ p. cons_option (option_copied p.head) p.rest };

    ghost invariant = { λ p. IfNone p.head (p.rest ≡ []) };
}

impl<'a, T, A: Allocator> Peeked<'a, T, A> {
    // Returns an iterator over the same elements.
    pub(crate) fn of(mut rest: Keys<'a, T, (), A>) -> Self
        ensures { result ≡ rest.entry }
    {
        let head = rest.next();
        Peeked { head, rest }
    }

    // Returns the next element, which remains, or `None` if none remains.
    #[inline]
    pub(crate) fn peek(&self) -> Option<&'a T>
        ensures { TakesFirst deref self.now result (drop 1 self.now) }
    {
        self.head
    }

    // Removes the next element.
    #[inline]
    pub(crate) fn advance(&mut self)
        ensures { self.new ≡ drop 1 self.old }
    {
        self.head = self.rest.next();
    }

    // Removes and returns the next element, or returns `None` if none remains.
    #[inline]
    pub(crate) fn next(&mut self) -> Option<&'a T>
        ensures { TakesFirst deref self.old result self.new }
    {
        let head = self.peek();
        self.advance();
        head
    }
}
