//! The keys of slot maps.
ghost use Rattle.std.specs.Prelude.{◌≡◌};
ghost use Rattle.aa_slots.specs.Keys.{key_of};

use std::alloc::AllocError;
use std::cmp::Ordering;
use std::default::Default;
use std::fmt;
use std::fmt::{Debug, Formatter};
use std::hash::{Hash, Hasher};
use std::marker::PhantomData;

/// What a key consists of, whatever its kind: the index of its slot, and its serial, the number of
/// keys issued before it.
#[derive(Clone, Copy, PartialEq, Eq, PartialOrd, Ord, Hash, Debug, Drop)]
pub struct KeyData {
    pub(crate) index: usize,
    pub(crate) serial: u64,
}

/// A key of one value in the map that issued it.
///
/// It consists of the index of its slot, and its serial: the number of keys issued before it. Keys
/// are ordered by these two. A contract names its `KeyData` as `parts`.
///
/// `K` is its kind, any type: a map takes keys of its own kind only. A key is `Copy` if its kind
/// is. It does not identify its map: in another map of the same kind it may find a value.
#[derive(Drop)]
#[derive_where(PartialEq, Eq, PartialOrd, Ord, Hash)]
pub struct Key<K = ()> {
    pub(crate) parts: KeyData,
    pub(crate) kind: PhantomData<K>,
}

impl<K> Key<K> {
    /// Returns the data of the key.
    #[inline(always)]
    pub fn data(self) -> KeyData
        ensures { result ≡ self.parts }
    {
        self.parts
    }
}

impl<K> From<KeyData> for Key<K> {
    ghost from_gives = { λ d k. k ≡ key_of d };

    /// Returns the key that consists of `data`.
    #[inline(always)]
    fn from(data: KeyData) -> Self {
        Key {
            parts: data,
            kind: PhantomData,
        }
    }
}

impl<K> Clone for Key<K> {
    ghost use Rattle.std.specs.Prelude.{⊤};

    ghost is_clone = { λ k copy. copy ≡ k };

    ghost is_infallible = { λ _. ⊤ };

    fn clone(&self) -> Result<Self, AllocError> {
        Ok(Key::from(self.parts))
    }
}

impl<K: Copy> Copy for Key<K> {}

impl<K> Debug for Key<K> {
    /// Formats the index and the serial of the key.
    fn fmt<W: fmt::Write>(&self, f: &mut Formatter<W>) -> fmt::Result {
        f.debug_struct("Key")
            .field("index", &self.parts.index)
            .field("serial", &self.parts.serial)
            .finish()
    }
}

impl<K> Default for Key<K> {
    /// Returns a key that no map issues.
    fn default() -> Self {
        Key::from(KeyData {
            index: usize::MAX,
            serial: u64::MAX,
        })
    }
}
