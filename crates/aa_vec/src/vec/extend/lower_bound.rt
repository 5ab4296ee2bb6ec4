//! Where extensions and splices read the lower bound of how many items remain.
ghost use Rattle.std.specs.Prelude.{◌≡◌, ℕ};
ghost use Rattle.std.proofs.Common.{refl, zero-le};
ghost use Rattle.aa_vec.specs.Extend.{YieldsCopies, LowerAtMost, LowerExactly};

use crate::vec::extend::items::Hinted;

// A source of a lower bound of how many items of an iterator remain. The bound need not be true,
// and may differ from call to call in the same state.
pub(crate) trait LowerBound<I: Iterator> {
    // The bounds that may be returned in a state.
    ghost lower_is: { I → ℕ → Type 0 };

    // Each state has one.
    ghost some: { (s : I) → (n : ℕ) × lower_is s n };

    // Returns a bound for the current state.
    fn lower_bound(iter: &I) -> usize
        ensures { lower_is iter.now result };
}

// The bound that `lower` returns.
pub(crate) struct ByLower;

impl<I: Hinted> LowerBound<I> for ByLower {
    ghost lower_is = { LowerExactly I.lower_of };

    ghost some = { λ s. (I.lower_of s, refl) };

    #[inline(always)]
    fn lower_bound(iter: &I) -> usize {
        iter.lower()
    }
}

// The lower bound that `size_hint` returns.
pub(crate) struct ByHint;

impl<I: Iterator> LowerBound<I> for ByHint {
    ghost lower_is = { LowerAtMost I.remaining };

    ghost some = { λ s. (0, λ ends. zero-le) };

    #[inline(always)]
    fn lower_bound(iter: &I) -> usize {
        iter.size_hint().0
    }
}

// An iterator over copies of what the items of a borrowed iterator refer to.
#[derive(Drop)]
pub(crate) struct Reading<'b, I> {
    pub(crate) iter: &'b mut I,
}

impl<'b, 'a, T: Copy + 'a, I: Iterator<Item = &'a T>> Iterator for Reading<'b, I> {
    type Item = T;

    ghost can_next = { λ s. I.can_next s.iter.now };

    ghost next_gives = { λ s r t. (t.iter.ghost_name ≡ s.iter.ghost_name)
        × YieldsCopies I.next_gives s.iter.now r t.iter.now };

    ghost remaining = { λ s. I.remaining s.iter.now };

    #[inline(always)]
    fn next(&mut self) -> Option<T> {
        let Some(x) = self.iter.next() else {
            return None;
        };
        Some(*x)
    }

    #[inline(always)]
    fn size_hint(&self) -> (usize, Option<usize>) {
        self.iter.size_hint()
    }
}
