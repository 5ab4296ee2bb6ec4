//! Comparison, hashing and formatting of a box: those of its value.
ghost use Rattle.std.specs.Cmp.{on_equiv, on_total, on_po, on_per};

use crate::boxed::Box;
use std::alloc::Allocator;
use std::cmp::Ordering;
use std::fmt;
use std::fmt::{Debug, Display, Formatter};
use std::hash::{Hash, Hasher};

impl<T: PartialEq, A: Allocator> PartialEq for Box<T, A> {
    ghost eq = { λ left right. T.eq left.value right.value };

    ghost laws = { on_per (λ b. b.value) T.laws };

    fn eq(&self, other: &Self) -> bool {
        **self == **other
    }
}

impl<T: Eq, A: Allocator> Eq for Box<T, A> {
    ghost laws = { on_equiv (λ b. b.value) T.Eq.laws };
}

impl<T: PartialOrd, A: Allocator> PartialOrd for Box<T, A> {
    ghost partial_cmp = { λ left right. T.partial_cmp left.value right.value };

    ghost laws = { on_po (λ b. b.value) T.PartialOrd.laws };

    fn partial_cmp(&self, other: &Self) -> Option<Ordering> {
        (**self).partial_cmp(&**other)
    }
}

impl<T: Ord, A: Allocator> Ord for Box<T, A> {
    ghost cmp = { λ left right. T.cmp left.value right.value };

    ghost total = { on_total (λ b. b.value) T.total };

    ghost matches_partial_cmp = { λ left right. T.matches_partial_cmp left.value right.value };

    ghost matches_eq = { λ left right. T.matches_eq left.value right.value };

    fn cmp(&self, other: &Self) -> Ordering {
        (**self).cmp(&**other)
    }
}

impl<T: Hash, A: Allocator> Hash for Box<T, A> {
    ghost hash_input = { λ b. T.hash_input b.value };

    ghost respects_eq = { λ left right e. T.respects_eq left.value right.value e };

    fn hash<H: Hasher>(&self, state: &mut H) {
        (**self).hash(state);
    }
}

impl<T: Display, A: Allocator> Display for Box<T, A> {
    ghost output = { λ b. T.output b.value };

    ghost styled_output = { λ b. T.styled_output b.value };

    fn fmt<W: fmt::Write>(&self, f: &mut Formatter<W>) -> fmt::Result {
        Display::fmt(&**self, f)
    }
}

impl<T: Debug, A: Allocator> Debug for Box<T, A> {
    ghost debug_output = { λ b. T.debug_output b.value };

    fn fmt<W: fmt::Write>(&self, f: &mut Formatter<W>) -> fmt::Result {
        Debug::fmt(&**self, f)
    }
}
