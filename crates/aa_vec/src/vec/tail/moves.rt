//! Elements in the places after the last item: a call sets items apart as the tail, and closes the
//! gaps that it makes. Places are counted from the last item on.
ghost use Rattle.std.specs.Prelude.{◌≡◌, ◌+◌, ◌-◌, ◌<◌, ◌≤◌, [], ◌∷◌, slice_set, None};
ghost use Rattle.aa_vec.specs.Vector.{len};
ghost use Rattle.aa_vec.specs.Tail.{HasTail, SetsTail, ClosesGap, DropsTail, DropsAndCloses, ClosesTwoGaps, tail_items, with_spare};

use crate::vec::Vec;
use std::alloc::Allocator;

// Places after the last item, in this order, by which a guard hands on where the elements are that
// it keeps, drops or moves down.
#[derive(Clone, Copy)]
pub(crate) struct Gap {
    pub(crate) front: usize,
    pub(crate) back: usize,
    pub(crate) end: usize,
    pub(crate) total: usize,
}

impl<T, A: Allocator> Vec<T, A> {
    // Sets the elements from the index `at` on apart as the tail. Returns their number.
    #[tactic(auto, using(crate::proofs::Gaps::set_apart, crate::proofs::Becoming::becomes))]
    pub(crate) fn set_tail(&mut self, at: usize) -> usize
        requires { at ≤ len self.old }
        ensures count { at + result ≡ len self.old }
        ensures tail_set { SetsTail self.old at self.new }
    {
        let count = self.len - at;
        self.len = at;
        self.apart.add(count);
        count
    }

    // Moves the `count` elements after the gap down to the last item.
    #[inline]
    #[tactic(auto, using(crate::proofs::Gaps::closed, crate::proofs::Becoming::becomes, crate::proofs::Tidy::fewer))]
    pub(crate) fn close_gap(&mut self, gap: usize, count: usize)
        requires { HasTail self.old gap count }
        ensures { ClosesGap self.old gap count self.new }
    {
        let len = self.len;
        // Like `prove_capacity_bounds`; but the loops that this is inlined into are faster if the
        // capacity is read.
        let _within = self.block.capacity();
        self.len = len + count;
        self.settled.add(count);
        self.block.move_down(len + gap, len, count);
    }

    // Like `close_gap`, for one element and a gap of at least one place. This is far less work than
    // moving a run.
    #[inline(always)]
    #[tactic(auto, using(crate::proofs::Gaps::closed, crate::proofs::Becoming::becomes, crate::proofs::Tidy::fewer))]
    pub(crate) fn close_gap_by_one(&mut self, gap: usize)
        requires some { 0 < gap }
        requires has_tail { HasTail self.old gap 1 }
        ensures { ClosesGap self.old gap 1 self.new }
    {
        let len = self.len;
        let _within = self.block.capacity();
        self.len = len + 1;
        self.settled.add(1);
        let item = self.block.take(len + gap);
        self.block.put(len, item);
    }

    // Takes the first element after the gap out of its place, and returns it.
    #[inline]
    #[tactic(auto, using(crate::proofs::Gaps::emptied))]
    pub(crate) fn take_from_tail(&mut self, gap: usize) -> T
        requires { HasTail self.old gap 1 }
        ensures value { tail_items self.old gap 1 ≡ result ∷ [] }
        ensures after { self.new ≡ with_spare self.old (slice_set self.old.spare gap None) }
    {
        let _within = self.block.capacity();
        self.settled.add(1);
        self.block.take(self.len + gap)
    }

    // Takes the first element after a gap out of its place, `at`, and returns it.
    #[inline]
    #[tactic(auto, using(crate::proofs::Gaps::emptied))]
    pub(crate) fn take_at(&mut self, at: usize) -> T
        requires { (len self.old ≤ at) × HasTail self.old (at - len self.old) 1 }
        ensures { let gap = at - len self.old in (tail_items self.old gap 1 ≡ result ∷ [])
            × (self.new ≡ with_spare self.old (slice_set self.old.spare gap None)) }
    {
        let _within = self.block.capacity();
        self.settled.add(1);
        self.block.take(at)
    }

    // Returns a slice of the `count` elements after the gap.
    #[tactic(auto, using(crate::proofs::Gaps::borrowed))]
    pub(crate) fn tail_slice(&self, gap: usize, count: usize) -> &[T]
        requires { HasTail self.now gap count }
        ensures { result.now ≡ tail_items self.now gap count }
    {
        let _within = self.block.capacity();
        self.block.slice(self.len + gap, count)
    }

    // Drops the `count` elements after the gap.
    #[tactic(auto, using(crate::proofs::Gaps::cleared, crate::proofs::Tidy::fewer))]
    pub(crate) fn drop_from_tail(&mut self, gap: usize, count: usize)
    where
        T: Drop,
        requires { HasTail self.old gap count }
        ensures { DropsTail self.old gap count self.new }
    {
        let len = self.len;
        let _within = self.block.capacity();
        self.settled.add(count);
        self.block.drop_run(len + gap, count);
    }

    // Drops the elements of the tail from place `front` up to `back`, and moves those from `end` up
    // to `total` down.
    #[tactic(auto, using(crate::proofs::TailLemmas::closing))]
    pub(crate) fn drop_and_close(&mut self, gap: Gap)
    where
        T: Drop,
        requires ordered { (gap.front ≤ gap.back) × (gap.back ≤ gap.end) × (gap.end ≤ gap.total) }
        requires has_tail { HasTail self.old gap.front (gap.back - gap.front)
            × HasTail self.old gap.end (gap.total - gap.end) }
        ensures { DropsAndCloses self.old (gap.back - gap.front) gap.end
            (gap.total - gap.end) self.new }
    {
        self.drop_from_tail(gap.front, gap.back - gap.front);
        self.close_gap(gap.end, gap.total - gap.end);
    }

    // Moves the elements of the tail from place `front` up to `back` down, and then those from
    // `end` up to `total`.
    #[tactic(auto, using(crate::proofs::TailLemmas::closing))]
    pub(crate) fn close_gaps(&mut self, gap: Gap)
        requires ordered { (gap.front ≤ gap.back) × (gap.back ≤ gap.end) × (gap.end ≤ gap.total) }
        requires has_tail { HasTail self.old gap.front (gap.back - gap.front)
            × HasTail self.old gap.end (gap.total - gap.end) }
        ensures { ClosesTwoGaps self.old gap.front (gap.back - gap.front) gap.end
            (gap.total - gap.end) self.new }
    {
        let kept = gap.back - gap.front;
        self.close_gap(gap.front, kept);
        self.close_gap(gap.end - kept, gap.total - gap.end);
    }

    // Moves the elements of the tail up to place `front` down, and then those from `back` up to
    // `total`.
    #[tactic(auto, using(crate::proofs::TailLemmas::closing))]
    pub(crate) fn close_kept(&mut self, gap: Gap)
        requires ordered { (gap.front ≤ gap.back) × (gap.back ≤ gap.end) × (gap.end ≤ gap.total) }
        requires has_tail { HasTail self.old 0 gap.front
            × HasTail self.old gap.back (gap.total - gap.back) }
        ensures { ClosesTwoGaps self.old 0 gap.front gap.back (gap.total - gap.back) self.new }
    {
        self.close_gaps(Gap {
            front: 0,
            back: gap.front,
            end: gap.back,
            total: gap.total,
        });
    }
}
