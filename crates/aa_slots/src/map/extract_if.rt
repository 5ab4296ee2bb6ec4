//! `ExtractIf`: an iterator over the values that a closure removes from a slot map.
ghost use Rattle.std.specs.Prelude.{◌≡◌, ◌++◌, [], length};
ghost use Rattle.std.specs.Option.{option_map};
ghost use Rattle.aa_slots.specs.Keys.{data_pair};
ghost use Rattle.aa_slots.specs.Slotted.{entries, pairs_before, pairs_from};

use crate::map::{Key, SlotMap};
use std::alloc::Allocator;
use std::iter::FusedIterator;
use std::ops::IndexMut;

/// An iterator over the values that a closure removes from a slot map, which borrows the closure at
/// each call.
///
/// Returned by `SlotMap::extract_by`. Like `ExtractIf`, but contracts describe the final state of
/// the closure. Dropping or forgetting it keeps the values not tested yet in the map. Does not
/// allocate.
#[derive(Drop)]
pub struct ExtractBy<'a, T, A: Allocator, K = ()> {
    map: &'a mut SlotMap<T, A, K>,
    // the `left` values not tested yet are in the slots from `at` on
    at: usize,
    left: usize,
    ghost counted: { left ≡ length (pairs_from map.now.slots at) },
}

impl<T: Drop, A: Allocator, K> SlotMap<T, A, K> {
    ghost use Rattle.std.specs.Prelude.{List, None};
    ghost use Rattle.std.specs.Iterator.{Yields, YieldsThen};
    ghost use Rattle.aa_slots.specs.Extracting.{closure_of, extract_kept, extract_lender, extract_map, extract_remaining, extractor, extracts_next, negated, Extracted, ExtractsFirst};
    ghost use Rattle.aa_slots.specs.Retaining.{Keeps};
    ghost use Rattle.aa_slots.specs.declared.key.Key.{Key};
    ghost use Rattle.aa_slots.specs.declared.key.KeyData.{KeyData};
    ghost use Rattle.aa_slots.specs.declared.map.extract_if.ExtractIf.{ExtractIf};

    // Calls `f` for the `left` pairs in the slots from `at` on in order, up to the first for which
    // it returns `true`. Removes that one and returns it.
    fn extract_from<F: FnMut(Key<K>, &mut T) -> bool>(
        &mut self,
        at: &mut usize,
        left: &mut usize,
        f: &mut F,
    ) -> Option<(Key<K>, T)>
        requires callable { F.IsAlwaysCallable f.old }
        requires counted { left.old ≡ length (pairs_from self.old.slots at.old) }
        ensures callable { F.IsAlwaysCallable f.new }
        ensures counted { left.new ≡ length (pairs_from self.new.slots at.new) }
        ensures extracted { (kept : List (KeyData × T))
            × ExtractsFirst F.step f.old (pairs_from self.old.slots at.old)
            (option_map data_pair result) kept (pairs_from self.new.slots at.new) f.new
            × (pairs_before self.new.slots at.new ≡ pairs_before self.old.slots at.old ++ kept) }
        ensures slots { length self.new.slots ≡ length self.old.slots }
        ensures others { self.new ≡ record self.old { slots = self.new.slots } }
    {
        'each: while let Some(key) = self.key_from(*at) {
            *at = key.index + 1;
            *left -= 1;
            if f(Key::from(key), self.index_mut(Key::from(key))) {
                return Some((Key::from(key), self.take(key)));
            }
        }
        None
    }

    /// Returns an iterator that removes the values for which `f` returns `true`.
    ///
    /// `f` is called for each key with its value, in the order of the slots, as the iterator is
    /// advanced. The other values are kept, as `f` leaves them. Does not allocate, and does not
    /// change the capacity.
    #[tactic(auto, using(crate::proofs::Extracting::extracts))]
    pub fn extract_if<F: FnMut(Key<K>, &mut T) -> bool>(
        &mut self,
        f: F,
    ) -> ExtractIf<'_, T, F, A, K>
        requires callable { F.IsAlwaysCallable f }

        // The iterator borrows the map, whose values are not tested yet.
        ensures lender { extract_lender (extractor result) ≡ self.entry.ghost_name }
        ensures unchanged { extract_map (extractor result) ≡ self.old }
        ensures kept { extract_kept (extractor result) ≡ [] }
        ensures remaining { extract_remaining (extractor result) ≡ entries self.old }
        ensures closure { closure_of result ≡ f }

        // What calls of `next` leave. Called up to `None`, they leave the pairs that `retain` would
        // leave by the opposite results.
        ensures extracted { (xs : List (Key K × T)) (later : ExtractIf T F A K)
            → Yields (extracts_next F.step) result xs later
            → Extracted F.step f (extractor result) xs (closure_of later) (extractor later) }
        ensures retained { (xs : List (Key K × T)) (later : ExtractIf T F A K)
            → YieldsThen (extracts_next F.step) result xs None later
            → Keeps (negated F.step) f (entries self.old) (entries (extract_map (extractor later)))
            (closure_of later) }
    {
        ExtractIf {
            by: self.extract_by(),
            f,
        }
    }

    /// Like `extract_if`, but borrows the closure at each call, so that contracts describe its
    /// final state.
    ///
    /// Returns an iterator whose `next_by` takes the closure by `&mut`. Does not allocate.
    #[tactic(auto, using(crate::proofs::Extracting::begins))]
    pub fn extract_by(&mut self) -> ExtractBy<'_, T, A, K>
        ensures lender { extract_lender result ≡ self.entry.ghost_name }
        ensures unchanged { extract_map result ≡ self.old }
        ensures kept { extract_kept result ≡ [] }
        ensures remaining { extract_remaining result ≡ entries self.old }
    {
        let left = self.len();
        ExtractBy {
            map: self,
            at: 0,
            left,
        }
    }
}

impl<'a, T: Drop, A: Allocator, K> ExtractBy<'a, T, A, K> {
    ghost use Rattle.aa_slots.specs.Extracting.{extract_remaining, ExtractsNext};

    /// Removes the next value for which `f` returns `true`, and returns it with its key, or returns
    /// `None` if there is none.
    ///
    /// `f` is called for the values not tested yet, in the order of the slots, up to the first for
    /// which it returns `true`. The others are kept, as `f` leaves them. Once it has returned
    /// `None`, it always does, and `f` is not called again.
    pub fn next_by<F: FnMut(Key<K>, &mut T) -> bool>(&mut self, f: &mut F) -> Option<(Key<K>, T)>
        requires callable { F.IsAlwaysCallable f.old }
        ensures callable { F.IsAlwaysCallable f.new }
        ensures extracted { ExtractsNext F.step f.old self.old result f.new self.new }
    {
        self.map.extract_from(&mut self.at, &mut self.left, f)
    }

    /// Returns the number of values for which the closure was not called yet.
    pub fn remaining_len(&self) -> usize
        ensures { result ≡ length (extract_remaining self.now) }
    {
        self.left
    }
}

/// An iterator over the values of a slot map for which a closure returns `true`, which are removed
/// one by one.
///
/// Returned by `SlotMap::extract_if`. Dropping or forgetting it keeps the values not tested yet in
/// the map. Does not allocate.
#[derive(Drop)]
pub struct ExtractIf<'a, T, F, A: Allocator, K = ()> {
    by: ExtractBy<'a, T, A, K>,
    f: F,
}

impl<'a, T: Drop, F: FnMut(Key<K>, &mut T) -> bool + Drop, A: Allocator, K> Iterator
    for ExtractIf<'a, T, F, A, K> {
    ghost use Rattle.std.specs.Prelude.{Some, IfSome};
    ghost use Rattle.std.specs.Iterator.{UpTo, at_most};
    ghost use Rattle.std.specs.Iterator.SizeHint.{IsWithinCount};
    ghost use Rattle.aa_slots.specs.Extracting.{closure_of, extract_remaining, extractor, extracts_next};

    type Item = (Key<K>, T);

    ghost can_next = { λ s. F.IsAlwaysCallable (closure_of s) };

    ghost next_gives = { extracts_next F.step };

    ghost remaining = { λ s. at_most (length (extract_remaining (extractor s))) };

    /// Removes the next value for which the closure returns `true`, and returns it with its key, or
    /// returns `None` if there is none.
    ///
    /// The closure is called for the values not tested yet, in the order of the slots, up to the
    /// first for which it returns `true`. Once this has returned `None`, it always does, and the
    /// closure is not called again.
    fn next(&mut self) -> Option<(Key<K>, T)> {
        let ExtractIf { by, f } = self;
        by.next_by(f)
    }

    /// Returns 0 and the number of values not tested yet.
    fn size_hint(&self) -> (usize, Option<usize>)
        ensures lower { let n = length (extract_remaining (extractor self.now)) in
            IsWithinCount result.0 (at_most n) }
        ensures upper { let n = length (extract_remaining (extractor self.now)) in
            IfSome result.1 (UpTo (at_most n)) }
        ensures exact { result ≡ (0, Some (length (extract_remaining (extractor self.now)))) }
    {
        (0, Some(self.by.remaining_len()))
    }
}

impl<'a, T: Drop, F: Drop, A: Allocator, K> FusedIterator for ExtractIf<'a, T, F, A, K>
where
    ExtractIf<'a, T, F, A, K>: Iterator,
{}
