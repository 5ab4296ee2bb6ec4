//! All elements as one mutable slice, with the cursor at the end.
ghost use Rattle.std.specs.Prelude.{◌≡◌, ◌^◌, ◌<◌, length};
ghost use Rattle.std.specs.Borrow.{sem};
ghost use Rattle.std.specs.Iterator.Adapters.{IterMutYieldsInOrder, IterMutYieldsInReverse};
ghost use Rattle.std.specs.Slice.Iter.{iter_mut_rest};
ghost use Rattle.aa_gap.specs.Buffer.{text};

use crate::gap_buffer::GapBuffer;
use std::alloc::Allocator;
use std::slice::IterMut;

impl<T, A: Allocator> GapBuffer<T, A> {
    ghost use Rattle.aa_gap.specs.BufferLends.{lends_before, lends_text, lends_all};

    // Returns the elements before the cursor as a mutable slice.
    #[tactic(auto, using(aa_raw::proofs::Calls::shown, aa_raw::proofs::Calls::in_runs, crate::proofs::Parts::beside))]
    fn before_mut(&mut self) -> &mut [T]
        ensures* writes_back { sem 𝓛 (lends_before T.row A.row A.Allocator self.entry result) }
        ensures value { result.now ≡ self.old.before }
    {
        self.block.slice_mut(0, self.start)
    }

    /// Moves the cursor to the end and returns a mutable slice of all elements, in order.
    ///
    /// Writes each element after the cursor once, or none if there is no gap. Does not allocate.
    #[tactic(auto, using(crate::proofs::Walking::all_before))]
    pub fn make_contiguous(&mut self) -> &mut [T]
        ensures* writes_back { sem 𝓛 (lends_text T.row A.row A.Allocator self.entry result) }
        ensures value { result.now ≡ text self.old }
    {
        let len = self.len();
        self.move_to(len);
        self.before_mut()
    }

    /// Moves the cursor to the end, as `make_contiguous` does, and returns a double-ended iterator
    /// over mutable references to the elements, in order.
    pub fn iter_mut(&mut self) -> IterMut<'_, T>
        ensures* writes_back { sem 𝓛 (lends_all T.row A.row A.Allocator self.entry result) }
        ensures remaining { iter_mut_rest result ≡ text self.old }
        ensures within { length (iter_mut_rest result) < 2 ^ 64 }
        ensures in_order { IterMutYieldsInOrder T }
        ensures in_reverse { IterMutYieldsInReverse T }
    {
        self.make_contiguous().iter_mut()
    }
}

impl<'a, T, A: Allocator> IntoIterator for &'a mut GapBuffer<T, A> {
    ghost use Rattle.aa_gap.specs.BufferLends.{lends_all};

    type Item = &'a mut T;

    type IntoIter = IterMut<'a, T>;

    ghost into_iter_gives = { λ b i. (iter_mut_rest i ≡ text b.now)
        × (length (iter_mut_rest i) < 2 ^ 64)
        × IterMutYieldsInOrder T × IterMutYieldsInReverse T };

    /// Returns the same as `iter_mut`, which moves the cursor to the end.
    fn into_iter(self) -> IterMut<'a, T>
        ensures* writes_back { sem 𝓛 (lends_all T.row A.row A.Allocator self.entry result) }
        ensures into_iter_gives { (iter_mut_rest result ≡ text self.old)
            × (length (iter_mut_rest result) < 2 ^ 64)
            × IterMutYieldsInOrder T × IterMutYieldsInReverse T }
    {
        self.iter_mut()
    }
}
