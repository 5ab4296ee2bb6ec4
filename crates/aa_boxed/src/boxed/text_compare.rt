//! Comparison, hashing and formatting of a boxed text: those of its text.
ghost use Rattle.std.specs.Prelude.{◌≡◌, Some, nat_eq};
ghost use Rattle.std.specs.Hash as fed;
ghost use Rattle.std.specs.Cmp.{on_equiv, on_total, on_po, on_per, partial_equiv_from_equiv};
ghost use Rattle.std.specs.Cmp.Lexicographic.{pointwise, slice_cmp, nat_list_eq_equiv, nat_list_cmp_total, texts_ties, texts_po};
ghost use Rattle.std.specs.Ordering.{nat_cmp};
ghost use Rattle.std.specs.Fmt.{debug_str, styled_text};
ghost use Rattle.std.specs.Cmp.Rules.{hashing};
ghost use Rattle.std.proofs.Common.{rules, refl};

use crate::boxed::text::BoxedText;
use std::alloc::Allocator;
use std::cmp::Ordering;
use std::fmt;
use std::fmt::{Debug, Display, Formatter};
use std::hash::{Hash, Hasher};

impl<A: Allocator> PartialEq for BoxedText<A> {
    ghost eq = { λ x y. pointwise nat_eq x.bytes y.bytes };

    ghost laws = { on_per (λ t. t.bytes) (partial_equiv_from_equiv nat_list_eq_equiv) };

    fn eq(&self, other: &Self) -> bool {
        self.as_str() == other.as_str()
    }
}

impl<A: Allocator> Eq for BoxedText<A> {
    ghost laws = { on_equiv (λ t. t.bytes) nat_list_eq_equiv };
}

impl<A: Allocator> PartialOrd for BoxedText<A> {
    ghost partial_cmp = { λ x y. Some (slice_cmp nat_cmp x.bytes y.bytes) };

    ghost laws = { on_po (λ t. t.bytes) texts_po };

    fn partial_cmp(&self, other: &Self) -> Option<Ordering> {
        self.as_str().partial_cmp(other.as_str())
    }
}

impl<A: Allocator> Ord for BoxedText<A> {
    ghost cmp = { λ x y. slice_cmp nat_cmp x.bytes y.bytes };

    ghost total = { on_total (λ t. t.bytes) nat_list_cmp_total };

    ghost matches_partial_cmp = { λ x y. refl };

    ghost matches_eq = { λ x y. texts_ties x.bytes y.bytes };

    fn cmp(&self, other: &Self) -> Ordering {
        self.as_str().cmp(other.as_str())
    }
}

impl<A: Allocator> Hash for BoxedText<A> {
    ghost hash_input = { λ t. fed.str t.bytes };

    ghost respects_eq = { Prim.search (hashing, rules) };

    fn hash<H: Hasher>(&self, state: &mut H) {
        self.as_str().hash(state);
    }
}

impl<A: Allocator> Display for BoxedText<A> {
    ghost output = { λ t. Some t.bytes };

    ghost styled_output = { λ t style. Some (styled_text style t.bytes) };

    fn fmt<W: fmt::Write>(&self, f: &mut Formatter<W>) -> fmt::Result {
        Display::fmt(&self.as_str(), f)
    }
}

impl<A: Allocator> Debug for BoxedText<A> {
    ghost debug_output = { λ t. debug_str t.bytes };

    fn fmt<W: fmt::Write>(&self, f: &mut Formatter<W>) -> fmt::Result {
        Debug::fmt(&self.as_str(), f)
    }
}
