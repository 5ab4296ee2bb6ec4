//! Rotations of a ring.
ghost use Rattle.std.specs.Prelude.{◌≡◌, ◌-◌, ◌≤◌, ◌++◌, length, take, drop, min};
ghost use Rattle.aa_ring.specs.Ringed.{with_written};

use crate::ring::Ring;
use std::alloc::Allocator;

#[tactic(auto, using(crate::proofs::Turning::turning))]
impl<T, A: Allocator> Ring<T, A> {
    /// Rotates the ring to the left by `by` items: the first `by` become the last, in order.
    ///
    /// Does not allocate, and does not change the capacity. Moves the first `by` items or the
    /// others one by one, whichever are fewer.
    pub fn rotate_left(&mut self, by: usize)
        requires { by ≤ length self.old.items }
        ensures { let xs = self.old.items in
            self.new ≡ with_written self.old (drop by xs ++ take by xs) (min by (length xs - by)) }
    {
        if by <= self.len() - by {
            self.first_to_back(by);
        } else {
            self.last_to_front(by);
        }
    }

    /// Rotates the ring to the right by `by` items: the last `by` become the first, in order.
    ///
    /// Does not allocate, and does not change the capacity. Moves the last `by` items or the others
    /// one by one, whichever are fewer.
    pub fn rotate_right(&mut self, by: usize)
        requires { by ≤ length self.old.items }
        ensures { let xs = self.old.items in let rest = length xs - by in
            self.new ≡ with_written self.old (drop rest xs ++ take rest xs) (min rest by) }
    {
        let rest = self.len() - by;
        if rest <= by {
            self.first_to_back(rest);
        } else {
            self.last_to_front(rest);
        }
    }

    // Moves the first `by` items to the back, one by one.
    fn first_to_back(&mut self, by: usize)
        requires { by ≤ length self.old.items }
        ensures { let xs = self.old.items in
            self.new ≡ with_written self.old (drop by xs ++ take by xs) by }
    {
        // The contract of `len` says that the items are within the capacity.
        let _len = self.len();
        'each: for _done in 0..by {
            match self.pop_front() {
                Some(item) => self.put_back(item),
                None => unreachable!(),
            }
        }
    }

    // Moves the items from `rest` on to the front, the last one first.
    fn last_to_front(&mut self, rest: usize)
        requires { rest ≤ length self.old.items }
        ensures { let xs = self.old.items in
            self.new ≡ with_written self.old (drop rest xs ++ take rest xs) (length xs - rest) }
    {
        let mut at = self.len();
        'each: while at > rest {
            match self.pop_back() {
                Some(item) => self.put_front(item),
                None => unreachable!(),
            }
            at -= 1;
        }
    }
}
