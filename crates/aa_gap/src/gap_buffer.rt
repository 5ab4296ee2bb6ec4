//! `GapBuffer`, a text with a cursor, in one block whose free places are at the cursor.
ghost use Rattle.std.specs.Prelude.{◌≡◌, ◌+◌, ◌-◌, ◌*◌, ◌<◌, ◌≤◌, ◌∷◌, ◌++◌, [], length, take, drop, slice_get, option_copied, IfOk, IfErr, OnOk, OnErr, IsOk, IsTrue, false, MatchOption, ◌↔◌};
ghost use Rattle.std.specs.Mem.{type_size};
ghost use Rattle.std.specs.Iterator.{IsFinite};
ghost use Rattle.aa_raw.specs.Places.{AreEmpty};
ghost use Rattle.aa_raw.specs.Growth.{usize_max};
ghost use Rattle.aa_raw.specs.Places.{IsCapacity};
ghost use Rattle.aa_raw.specs.Errors.{AllocationFails};
ghost use Rattle.aa_gap.specs.Buffer.{Buffer, empty, text, cursor, len, gap, moved_over, with_parts, with_written, moved_to, with_room, put, HasRoom, LacksRoom};
ghost use Rattle.aa_gap.specs.IntoParts.{HasParts};
ghost use Rattle.aa_gap.specs.GapBufferInner.{view_of, IsParted};

use aa_raw::collections::{Refused, TryReserveError, TryReserveErrorKind};
use aa_raw::raw_vec::{Growth, RawVec};
pub use iter::Iter;
use std::alloc::{AllocError, Allocator, Global};
use std::default::{Emptied, MadeWith};
use std::marker::Model;

mod compare;
mod contiguous;
mod format;
mod iter;
mod many;
mod texts;

/// An edit at the cursor of a text.
#[derive(Debug, Drop)]
pub enum Edit<T> {
    /// Inserts an element before the cursor.
    Insert(T),
    /// Removes the element before the cursor, if there is one.
    DeleteBack,
    /// Removes the element after the cursor, if there is one.
    DeleteForward,
    /// Moves the cursor to this position, or to the end if the text is shorter.
    MoveTo(usize),
}

/// A text in two parts, before and after a cursor, over the allocator `A`.
///
/// Its free places, the gap, are between the two parts, so that an edit at the cursor moves no
/// other element.
pub struct GapBuffer<T, A: Allocator = Global> {
    block: RawVec<T, A>,
    // the gap: its first place, and the first place after it
    start: usize,
    end: usize,
}

impl<T, A: Allocator> Model for GapBuffer<T, A> {
    ghost Value = { Buffer T A };

    ghost view = { view_of };

    ghost invariant = { IsParted };
}

#[tactic(auto, using(aa_raw::proofs::Calls::at_ends, crate::proofs::Parts::beside))]
impl<T, A: Allocator> GapBuffer<T, A> {
    /// Returns an empty text.
    ///
    /// Does not allocate.
    #[tactic(auto, using(aa_raw::proofs::Calls::at_ends, aa_raw::proofs::Beyond::emptied))]
    pub fn new_in(alloc: A) -> Self
        ensures { result ≡ empty (type_size T.row) 0 Growth.Doubling alloc }
    {
        GapBuffer::with_block(RawVec::new_in(alloc))
    }

    /// Returns an empty text with the growth policy `growth`.
    ///
    /// Does not allocate.
    #[tactic(auto, using(aa_raw::proofs::Calls::at_ends, aa_raw::proofs::Beyond::emptied))]
    pub fn with_growth_in(growth: Growth, alloc: A) -> Self
        ensures { result ≡ empty (type_size T.row) 0 growth alloc }
    {
        GapBuffer::with_block(RawVec::with_growth_in(growth, alloc))
    }

    /// Returns an empty text with capacity for exactly `capacity` elements.
    ///
    /// Does not allocate if `capacity` is 0 or elements are zero-sized. The capacity for zero-sized
    /// elements is `usize::MAX`.
    ///
    /// # Errors
    /// `CapacityOverflow`; or `AllocError` with `capacity`.
    #[tactic(auto, using(aa_raw::proofs::Calls::at_ends, aa_raw::proofs::Beyond::emptied))]
    pub fn with_capacity_in(capacity: usize, alloc: A) -> Result<Self, TryReserveError>
        ensures made { IfOk result
            (λ v. v ≡ empty (type_size T.row) capacity Growth.Doubling alloc) }
        ensures error { IfErr result (AllocationFails capacity (type_size T.row)) }
    {
        let block = RawVec::with_capacity_in(capacity, alloc)?;
        Ok(GapBuffer::with_block(block))
    }

    // Returns an empty text in the empty `block`, all of whose places become the gap.
    fn with_block(block: RawVec<T, A>) -> Self
        requires { AreEmpty block.places }
        ensures { result ≡ record {
          before = [];
          after = [];
          capacity = length block.places;
          growth = block.growth;
          grown = block.grown;
          written = block.written;
          runs = block.runs;
          alloc = block.alloc;
        } }
    {
        let end = block.capacity();
        GapBuffer {
            block,
            start: 0,
            end,
        }
    }

    /// Returns the number of elements.
    pub fn len(&self) -> usize
        ensures count { result ≡ len self.now }
        ensures within { len self.now ≤ self.now.capacity }
    {
        self.start + (self.block.capacity() - self.end)
    }

    /// Returns `true` if the text has no elements.
    #[tactic(auto, using(crate::proofs::Texts::none_of_both))]
    pub fn is_empty(&self) -> bool
        ensures { IsTrue result ↔ (text self.now ≡ []) }
    {
        self.len() == 0
    }

    /// Returns the position of the cursor, which is the number of elements before it.
    pub fn cursor(&self) -> usize
        ensures { result ≡ cursor self.now }
    {
        self.start
    }

    /// Returns the number of elements that fit without growth.
    ///
    /// It is `usize::MAX` for zero-sized elements.
    pub fn capacity(&self) -> usize
        ensures count { result ≡ self.now.capacity }
        ensures possible { IsCapacity T.row result }
    {
        self.block.capacity()
    }

    /// Returns a reference to the allocator.
    pub fn allocator(&self) -> &A
        ensures { result.now ≡ self.now.alloc }
    {
        self.block.allocator()
    }

    /// Returns the growth policy.
    pub fn growth(&self) -> Growth
        ensures { result ≡ self.now.growth }
    {
        self.block.growth()
    }

    /// Returns the elements before the cursor as a slice.
    #[tactic(auto, using(aa_raw::proofs::Calls::shown))]
    pub fn before(&self) -> &[T]
        ensures { result.now ≡ self.now.before }
    {
        self.block.slice(0, self.start)
    }

    /// Returns the elements after the cursor as a slice.
    #[tactic(auto, using(aa_raw::proofs::Calls::shown))]
    pub fn after(&self) -> &[T]
        ensures { result.now ≡ self.now.after }
    {
        self.block.slice(self.end, self.block.capacity() - self.end)
    }

    /// Returns a reference to the element at `index` of the whole text, or `None` if there is none.
    #[tactic(auto, using(crate::proofs::Texts::get_item))]
    pub fn get(&self, index: usize) -> Option<&T>
        ensures { option_copied result ≡ slice_get (text self.now) index }
    {
        let cursor = self.cursor();
        if index < cursor {
            self.before().get(index)
        } else {
            self.after().get(index - cursor)
        }
    }

    // Returns the number of free places.
    fn gap_len(&self) -> usize
        ensures { result ≡ gap self.now }
    {
        self.end - self.start
    }

    // Inserts `item` before the cursor, into the first free place.
    #[inline(always)]
    fn put(&mut self, item: T)
        requires { HasRoom self.old 1 }
        ensures { self.new ≡ put self.old item }
    {
        let start = self.start;
        self.block.put(start, item);
        self.start = start + 1;
    }

    /// Inserts `item` before the cursor, if there is a free place.
    ///
    /// Does not allocate.
    ///
    /// # Errors
    /// `item`, if there is no free place. The text is unchanged.
    pub fn insert_within(&mut self, item: T) -> Result<(), T>
        ensures fits { OnOk result (HasRoom self.old 1) }
        ensures inserted { OnOk result (self.new ≡ put self.old item) }
        ensures full { OnErr result (len self.old ≡ self.old.capacity) }
        ensures returned { IfErr result (λ x. x ≡ item) }
        ensures unchanged { OnErr result (self.new ≡ self.old) }
    {
        if self.len() == self.capacity() {
            return Err(item);
        }
        self.put(item);
        Ok(())
    }

    /// Inserts `item` before the cursor.
    ///
    /// Allocates only if there is no free place, and then grows by the growth policy.
    ///
    /// # Errors
    /// `CapacityOverflow`, always if the new length would exceed `usize::MAX`; or `AllocError` with
    /// the requested capacity. The text is unchanged and `item` is returned in the error.
    #[inline(always)]
    pub fn insert(&mut self, item: T) -> Result<(), Refused<T>>
        // An item that fits is inserted.
        ensures fits { HasRoom self.old 1 → IsOk result }
        ensures zst { type_size T.row ≡ 0 → len self.old < usize_max → HasRoom self.old 1 }
        ensures inserted { let reserved = with_room (type_size T.row) self.old 1 in
            OnOk result (self.new ≡ put reserved item) }

        // Failure returns the item in the error, and changes nothing.
        ensures returned { IfErr result (λ r. r.source ≡ item) }
        ensures error { IfErr result (λ r. LacksRoom (type_size T.row) self.old 1 r.error) }
        ensures unchanged { OnErr result (self.new ≡ self.old) }
    {
        if let Err(error) = self.reserve(1) {
            return Err(Refused {
                source: item,
                error,
            });
        }
        self.put(item);
        Ok(())
    }

    /// Reserves capacity for at least `additional` more elements.
    ///
    /// Does nothing if they fit. Otherwise allocates a new block by the growth policy, and moves
    /// each element there once. Never allocates for zero-sized elements, of which as many fit as
    /// `usize` counts.
    ///
    /// # Errors
    /// `CapacityOverflow`, always if the new length would exceed `usize::MAX`; or `AllocError` with
    /// the requested capacity. The text is unchanged.
    #[inline(always)]
    pub fn reserve(&mut self, additional: usize) -> Result<(), TryReserveError>
        // The call succeeds if the elements fit, and success leaves capacity for them.
        ensures fits { HasRoom self.old additional → IsOk result }
        ensures zst { type_size T.row ≡ 0 → len self.old + additional ≤ usize_max
            → HasRoom self.old additional }
        ensures enough { OnOk result (HasRoom self.new additional) }
        ensures reserved { OnOk result (self.new ≡ with_room
            (type_size T.row) self.old additional) }

        // Failure changes nothing.
        ensures error { IfErr result (LacksRoom (type_size T.row) self.old additional) }
        ensures unchanged { OnErr result (self.new ≡ self.old) }
    {
        self.block.prove_capacity_bounds();
        if additional <= self.gap_len() || self.make_room(additional) {
            return Ok(());
        }
        Err(self.reserve_error(additional))
    }

    // Grows the block for `reserve`, out of line. Returns `true` on success, in a register, so that
    // the test for spare capacity uses no stack.
    #[cold]
    #[inline(never)]
    #[tactic(auto, using(crate::proofs::Parts::at_both_ends))]
    fn make_room(&mut self, additional: usize) -> bool
        requires { gap self.old < additional }
        ensures reserved { IsTrue result
            → self.new ≡ with_room (type_size T.row) self.old additional }
        ensures unchanged { result ≡ false → self.new ≡ self.old }
    {
        let tail = self.block.capacity() - self.end;
        match self
            .block
            .try_reserve_parted((0, self.start), (self.end, tail), additional)
        {
            Ok(()) => {
                self.end = self.block.capacity() - tail;
                true
            }
            Err(_) => false,
        }
    }

    // Returns the error of a call of `make_room` that returned `false`.
    #[cold]
    #[inline(never)]
    fn reserve_error(&self, additional: usize) -> TryReserveError
        requires { gap self.now < additional }
        ensures { LacksRoom (type_size T.row) self.now additional result }
    {
        let Some(required) = self.len().checked_add(additional) else {
            return TryReserveErrorKind::CapacityOverflow.into();
        };
        match self.growth().capacity_for::<T>(self.capacity(), required) {
            Some(capacity) => TryReserveErrorKind::AllocError { capacity }.into(),
            None => TryReserveErrorKind::CapacityOverflow.into(),
        }
    }

    /// Removes the element before the cursor and returns it, or `None` if there is none.
    ///
    /// Does not allocate, and does not change the capacity.
    pub fn delete_back(&mut self) -> Option<T>
        ensures taken { MatchOption result ((self.old.before ≡ []) × (self.new.before ≡ []))
            (λ x. self.old.before ≡ self.new.before ++ x ∷ []) }
        ensures removed { self.new ≡ with_parts self.old self.new.before self.old.after }
    {
        if self.start == 0 {
            return None;
        }
        let last = self.start - 1;
        let item = self.block.take(last);
        self.start = last;
        Some(item)
    }

    /// Removes the element after the cursor and returns it, or `None` if there is none.
    ///
    /// Does not allocate, and does not change the capacity.
    #[tactic(auto, using(crate::proofs::Parts::first_after))]
    pub fn delete_forward(&mut self) -> Option<T>
        ensures taken { MatchOption result ((self.old.after ≡ []) × (self.new.after ≡ []))
            (λ x. self.old.after ≡ x ∷ self.new.after) }
        ensures removed { self.new ≡ with_parts self.old self.old.before self.new.after }
    {
        if self.end == self.block.capacity() {
            return None;
        }
        let item = self.block.take(self.end);
        self.end += 1;
        Some(item)
    }

    // Moves the last `by` elements before the cursor across the gap.
    #[tactic(auto, using(crate::proofs::Parts::across))]
    fn move_back(&mut self, by: usize)
        requires { by ≤ cursor self.old }
        ensures { let at = cursor self.old - by in
            let before = take at self.old.before in
            let after = drop at self.old.before ++ self.old.after in
            self.new
            ≡ with_written (with_parts self.old before after) (moved_over (gap self.old) by) }
    {
        let start = self.start - by;
        let end = self.end - by;
        self.block.move_run(start, end, by);
        self.start = start;
        self.end = end;
    }

    // Moves the first `by` elements after the cursor across the gap.
    #[tactic(auto, using(crate::proofs::Parts::across))]
    fn move_forward(&mut self, by: usize)
        requires { by ≤ length self.old.after }
        ensures { let before = self.old.before ++ take by self.old.after in
            let after = drop by self.old.after in
            self.new
            ≡ with_written (with_parts self.old before after) (moved_over (gap self.old) by) }
    {
        self.block.prove_capacity_bounds();
        self.block.move_run(self.end, self.start, by);
        self.start += by;
        self.end += by;
    }

    /// Drops all elements.
    ///
    /// Does not change the capacity.
    #[tactic(auto, using(crate::proofs::Parts::emptied))]
    pub fn clear(&mut self)
    where
        T: Drop,
        ensures { self.new ≡ with_parts self.old [] [] }
    {
        let end = self.end;
        let capacity = self.block.capacity();
        self.block.drop_run(0, self.start);
        self.block.drop_run(end, capacity - end);
        self.start = 0;
        self.end = capacity;
    }

    /// Returns the block, and how many elements are in its first places and how many in its last.
    ///
    /// Does not allocate.
    #[tactic(auto, using(crate::proofs::Parts::apart))]
    pub fn into_parts(self) -> (RawVec<T, A>, usize, usize)
        ensures { HasParts self result.0 result.1 result.2 }
    {
        let GapBuffer { block, start, end } = self;
        let tail = block.capacity() - end;
        (block, start, tail)
    }

    /// Moves the cursor to `position`, which is at most the length.
    ///
    /// Writes each element that the cursor passes once, or none if there is no gap. Does not
    /// allocate.
    #[tactic(auto, using(crate::proofs::Texts::cut_after))]
    pub fn move_to(&mut self, position: usize)
        requires { position ≤ len self.old }
        ensures { self.new ≡ moved_to self.old position }
    {
        let cursor = self.cursor();
        if position < cursor {
            self.move_back(cursor - position);
        } else {
            self.move_forward(position - cursor);
        }
    }
}

impl<T, A: Allocator> GapBuffer<T, A> {
    ghost use Rattle.aa_gap.specs.Editing.{with_edit, EditsAll, EditsFail};

    /// Applies the edits of an iterator, in order.
    ///
    /// The iterator must be finite. Allocates only for an `Insert` that finds no free place.
    ///
    /// # Errors
    /// That of an `Insert` whose allocation fails, as for `insert`. Its element is dropped. The
    /// edits before it are applied, and those after it remain in the iterator.
    #[tactic(auto, using(crate::proofs::Pages::one_by_one))]
    pub fn edit_all<I: Iterator<Item = Edit<T>>>(
        &mut self,
        edits: &mut I,
    ) -> Result<(), TryReserveError>
    where
        T: Drop,
        requires callable { I.can_next edits.old }
        requires finite { IsFinite (I.remaining edits.old) }
        ensures edited { let size = type_size T.row in
            OnOk result (EditsAll I.next_gives edits.old size self.old edits.new self.new) }
        ensures failed { let size = type_size T.row in
            IfErr result
            (λ e. EditsFail I.next_gives edits.old size self.old e edits.new self.new) }
        ensures resumable { OnErr result (I.can_next edits.new × IsFinite (I.remaining edits.new)) }
    {
        // This shows the prover that there are at least as many places as elements.
        let _within = self.len();
        while let Some(edit) = edits.next() {
            self.edit(edit)?;
        }
        Ok(())
    }

    // Applies one edit.
    fn edit(&mut self, edit: Edit<T>) -> Result<(), TryReserveError>
    where
        T: Drop,
        ensures edited { OnOk result (self.new ≡ with_edit (type_size T.row) self.old edit) }
        ensures error { IfErr result (LacksRoom (type_size T.row) self.old 1) }
        ensures unchanged { OnErr result (self.new ≡ self.old) }
        ensures only_inserts { OnErr result ((x : T) × (edit ≡ Edit.Insert x)) }
    {
        match edit {
            Edit::Insert(item) => {
                self.insert(item)?;
                Ok(())
            }
            Edit::DeleteBack => {
                let _taken = self.delete_back();
                Ok(())
            }
            Edit::DeleteForward => {
                let _taken = self.delete_forward();
                Ok(())
            }
            Edit::MoveTo(position) => {
                self.move_to(position.min(self.len()));
                Ok(())
            }
        }
    }
}

impl<T, A: Allocator> MadeWith<A> for GapBuffer<T, A> {
    ghost use Rattle.aa_raw.specs.declared.raw_vec.Growth.TheVariants.{Doubling};

    ghost is_made_with = { λ b. b ≡ empty (type_size T.row) 0 Doubling b.alloc };

    /// Returns an empty text, as `new_in` does.
    fn made_with(alloc: A) -> Self {
        Self::new_in(alloc)
    }
}

impl<T, A: Allocator + Clone> Emptied for GapBuffer<T, A> {
    ghost use Rattle.aa_raw.specs.declared.raw_vec.Growth.TheVariants.{Doubling};

    ghost is_emptied = { λ b. b ≡ empty (type_size T.row) 0 Doubling b.alloc };

    /// Returns an empty text over a clone of the allocator of `like`.
    ///
    /// Does not allocate.
    fn emptied(like: &Self) -> Result<Self, AllocError>
        ensures made { IfOk result
            (λ b. b ≡ empty (type_size T.row) 0 Doubling b.alloc) }
        ensures fits { A.is_infallible like.now.alloc → IsOk result }
    {
        Ok(GapBuffer::new_in(like.allocator().clone()?))
    }
}

#[tactic(auto, using(aa_raw::proofs::Calls::in_runs, crate::proofs::Parts::dropped))]
impl<T: Drop, A: Allocator> Drop for GapBuffer<T, A> {
    /// Drops the elements in order and deallocates the memory.
    fn drop(self) {
        let GapBuffer {
            mut block,
            start,
            end,
        } = self;
        let count = block.capacity() - end;
        block.drop_run(0, start);
        block.drop_run(end, count);
    }
}
