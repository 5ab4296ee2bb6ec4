//! A slot map by value: the iterator that takes it apart.
ghost use Rattle.std.specs.Prelude.{◌≡◌, length};
ghost use Rattle.aa_slots.specs.Slotted.{count, entries};

use crate::into_iter::IntoIter;
use crate::map::{Key, SlotMap};
use std::alloc::Allocator;

#[tactic(auto, using(crate::proofs::Finds::finds))]
impl<T: Drop, A: Allocator, K> SlotMap<T, A, K> {
    /// Returns a double-ended iterator by value over the keys and their values, in the order of the
    /// slots.
    ///
    /// It owns the memory of the map, so this does not allocate.
    pub fn into_iter(self) -> IntoIter<T, A, K>
        ensures all { result ≡ entries self }
        ensures count { length result ≡ count self.slots }
    {
        let count = self.len();
        let SlotMap {
            values,
            slots,
            free: _,
            issued: _,
            moves: _,
            kind: _,
        } = self;
        IntoIter::over(slots, values, count)
    }
}

impl<T: Drop, A: Allocator, K> IntoIterator for SlotMap<T, A, K> {
    type Item = (Key<K>, T);

    type IntoIter = IntoIter<T, A, K>;

    ghost into_iter_gives = { λ m i. (i ≡ entries m) × (length i ≡ count m.slots) };

    fn into_iter(self) -> IntoIter<T, A, K> {
        SlotMap::into_iter(self)
    }
}
