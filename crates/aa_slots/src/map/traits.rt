//! A slot map as traits see it: values by their keys, empty maps, and debug output.
ghost use Rattle.std.specs.Prelude.{◌≡◌, [], is_some, true, Some, IfOk, IsOk};
ghost use Rattle.std.specs.Borrow.{sem};
ghost use Rattle.allocator_api2.specs.declared.raw_vec.Growth.TheVariants.{Doubling};
ghost use Rattle.aa_slots.specs.Slotted.{empty, find};

use crate::iter::Iter;
use crate::map::{Key, SlotMap};
use crate::slots::slots_in;
use std::alloc::{AllocError, Allocator};
use std::default::{Emptied, MadeWith};
use std::fmt;
use std::fmt::{Debug, Formatter};
use std::ops::{Index, IndexMut};

impl<T: Drop, A: Allocator, K> Index<Key<K>> for SlotMap<T, A, K> {
    type Output = T;

    ghost can_index = { λ m k. is_some (find m k.parts) ≡ true };

    ghost index_gives = { λ m k x. find m k.parts ≡ Some x };

    /// Returns a reference to the value of `key`, which has one.
    fn index(&self, key: Key<K>) -> &T {
        match self.get(key) {
            Some(value) => value,
            None => unreachable!(),
        }
    }
}

impl<T: Drop, A: Allocator, K> IndexMut<Key<K>> for SlotMap<T, A, K> {
    ghost use Rattle.aa_slots.specs.Lends.{lends_there};

    /// Returns a mutable reference to the value of `key`, which has one.
    fn index_mut(&mut self, key: Key<K>) -> &mut T
        requires { is_some (find self.old key.parts) ≡ true }
        ensures* writes_back { sem 𝓛
            (lends_there T.row A.row K.row A.Allocator self.entry key.parts result) }
        ensures value { find self.old key.parts ≡ Some result.now }
    {
        match self.get_mut(key) {
            Some(value) => value,
            None => unreachable!(),
        }
    }
}

impl<T: Drop, A: Allocator, K> MadeWith<A> for SlotMap<T, A, K> {
    ghost is_made_with = { λ m. m ≡ empty 0 Doubling };

    /// Returns an empty map as `new_in` does.
    fn made_with(alloc: A) -> Self {
        SlotMap::with_key_in(alloc)
    }
}

impl<T: Drop, A: Allocator + Clone, K> Emptied for SlotMap<T, A, K> {
    ghost is_emptied = { λ m. (m.slots ≡ []) × (m.resizes ≡ 0) × (m.issued ≡ 0) };

    /// Returns an empty map that has issued no keys, over a clone of the allocator of `like`.
    fn emptied(like: &Self) -> Result<Self, AllocError>
        ensures made { IfOk result (λ m. m ≡ empty 0 Doubling) }
        ensures fits { ((a : A) → A.is_infallible a) → IsOk result }
    {
        Ok(SlotMap::with_key_in(like.values.allocator().clone()?))
    }
}

impl<T: Debug + Drop, A: Allocator, K> Debug for SlotMap<T, A, K> {
    /// Formats the keys and values as a map.
    #[tactic(auto, using(crate::proofs::Iterating::walked))]
    fn fmt<W: fmt::Write>(&self, f: &mut Formatter<W>) -> fmt::Result {
        // Keys of all kinds are formatted alike.
        let pairs: Iter<'_, T, A> = Iter::over(slots_in(&self.slots), &self.values, self.len());
        f.debug_map().entries(pairs).finish()
    }
}
