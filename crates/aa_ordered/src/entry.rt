//! Entries: the place of a key in a map, whether it is present or not.
ghost use Rattle.std.specs.Prelude.{◌≡◌, is_some, true, None};
ghost use Rattle.aa_ordered.specs.Entries.{value};

use crate::map::OrderedMap;
use std::alloc::Allocator;
use std::cmp::Ord;

mod methods;

/// A key of a map that is present or absent, by which its value is read, changed or inserted.
///
/// Returned by `OrderedMap::entry`. A contract sees it as the borrowed map and the key.
#[derive(Drop)]
pub enum Entry<'a, K: Ord, V, A: Allocator> {
    /// The key is present.
    Occupied(OccupiedEntry<'a, K, V, A>),
    /// The key is absent.
    Vacant(VacantEntry<'a, K, V, A>),
}

/// The entry of a key that is present.
///
/// Part of an `Entry`. A contract sees it as the borrowed map and the key.
#[derive(Drop)]
pub struct OccupiedEntry<'a, K: Ord, V, A: Allocator> {
    pub(crate) map: &'a mut OrderedMap<K, V, A>,
    pub(crate) key: K,
    ghost present: { is_some (value K.cmp map.now.entries key) ≡ true },
}

/// The entry of a key that is absent.
///
/// Part of an `Entry`. A contract sees it as the borrowed map and the key.
#[derive(Drop)]
pub struct VacantEntry<'a, K: Ord, V, A: Allocator> {
    pub(crate) map: &'a mut OrderedMap<K, V, A>,
    pub(crate) key: K,
    ghost absent: { value K.cmp map.now.entries key ≡ None },
}
