//! A cursor that lends the values of a slot map one after another.
ghost use Rattle.std.specs.Prelude.{◌≡◌, ◌∷◌, [], ◌++◌, drop, map, slice_get, IfSome};
ghost use Rattle.std.specs.Borrow.{sem};
ghost use Rattle.std.specs.Option.{option_copied_mut, option_map};
ghost use Rattle.aa_slots.specs.Slotted.{entries};

use crate::map::{Key, SlotMap};
use std::alloc::Allocator;
use std::ops::IndexMut;

/// A cursor over the keys and values of a slot map, in the order of the slots.
///
/// Returned by `SlotMap::cursor_mut`. A contract sees it as the pairs before it, those after it,
/// and the borrowed map. A cursor is not an `Iterator`: each value is borrowed until the next call.
#[derive(Drop)]
pub struct CursorMut<'a, T, A: Allocator, K = ()> {
    pub(crate) map: &'a mut SlotMap<T, A, K>,
    // the index of the next slot
    pub(crate) at: usize,
}

impl<T: Drop, A: Allocator, K> SlotMap<T, A, K> {
    ghost use Rattle.aa_slots.specs.Passing.{before, cursor_lender, cursor_map, remaining};

    /// Writes copies of `value` in place of all values.
    ///
    /// Preserves the keys. Does not allocate.
    pub fn fill(&mut self, value: T)
    where
        T: Copy,
        ensures entries { entries self.new ≡ map (λ e. (e.0, value)) (entries self.old) }
        ensures capacity { self.new.capacity ≡ self.old.capacity }
        ensures growth { self.new.growth ≡ self.old.growth }
        ensures resizes { self.new.resizes ≡ self.old.resizes }
        ensures issued { self.new.issued ≡ self.old.issued }
    {
        let mut values = self.cursor_mut();
        'each: while let Some(old) = values.next() {
            *old = value;
        }
    }

    /// Returns a cursor before the first value.
    pub fn cursor_mut(&mut self) -> CursorMut<'_, T, A, K>
        ensures lender { cursor_lender result ≡ self.entry.ghost_name }
        ensures unchanged { cursor_map result ≡ self.old }
        ensures before { before result ≡ [] }
        ensures remaining { remaining result ≡ entries self.old }
    {
        CursorMut { map: self, at: 0 }
    }
}

impl<'a, T: Drop, A: Allocator, K> CursorMut<'a, T, A, K> {
    ghost use Rattle.aa_slots.specs.Passing.{before, cursor_map, first_key, passed, remaining};
    ghost use Rattle.aa_slots.specs.CursorLends.{lends_next};

    /// Returns the key of the next value, or `None` if none remains.
    pub fn peek_key(&self) -> Option<Key<K>>
        ensures { option_map (λ k. k.parts) result
            ≡ option_map (λ e. e.0) (slice_get (remaining self.now) 0) }
    {
        let data = self.map.key_from(self.at)?;
        Some(Key::from(data))
    }

    /// Advances the cursor past a value, and returns a mutable reference to it.
    ///
    /// Returns `None` if none remains.
    pub fn next(&mut self) -> Option<&mut T>
        ensures* writes_back { sem 𝓛 (lends_next T.row A.row K.row A.Allocator self.entry result) }
        ensures value { option_copied_mut result
            ≡ option_map (λ e. e.1) (slice_get (remaining self.old) 0) }

        // Whatever is written, the key moves from the pairs after the cursor to those before it.
        ensures before { IfSome result (λ _. (w : T) → before (passed self.old w)
            ≡ before self.old ++ (first_key (remaining self.old), w) ∷ []) }
        ensures remaining { IfSome result (λ _. (w : T) → remaining (passed self.old w)
            ≡ drop 1 (remaining self.old)) }
        ensures entries { IfSome result (λ _. (w : T) → entries (cursor_map (passed self.old w))
            ≡ before (passed self.old w) ++ remaining (passed self.old w)) }
    {
        match self.map.key_from(self.at) {
            Some(key) => {
                self.at = key.index + 1;
                Some(self.map.index_mut(Key::from(key)))
            }
            None => None,
        }
    }
}
