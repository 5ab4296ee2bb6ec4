//! Entries: the place of a key in a table, whether it is present or not.
ghost use Rattle.std.specs.Prelude.{◌≡◌, true, is_some};
ghost use Rattle.aa_table.specs.Contents.{keys_like, value};
ghost use Rattle.aa_table.specs.Places.{hashes};

use super::Table;
use std::alloc::Allocator;
use std::hash::{BuildHasher, Hash};

mod methods;
mod occupied;
mod stored;
mod vacant;

/// A key of a table that is present or absent, by which its value is read, changed or inserted.
///
/// Returned by `Table::entry`. A contract sees it as the borrowed table and the key.
#[derive(Drop)]
pub enum Entry<'a, K: Eq + Hash, V, S: BuildHasher, A: Allocator> {
    /// The key is present.
    Occupied(OccupiedEntry<'a, K, V, S, A>),
    /// The key is absent.
    Vacant(VacantEntry<'a, K, V, S, A>),
}

/// The entry of a key that is present.
///
/// Part of an `Entry`. A contract sees it as the borrowed table and the key.
#[derive(Drop)]
pub struct OccupiedEntry<'a, K: Eq + Hash, V, S: BuildHasher, A: Allocator> {
    pub(crate) table: &'a mut Table<K, V, S, A>,
    pub(crate) key: K,
    // the slot in which the key is looked up first
    pub(crate) slot: usize,
    ghost present: { is_some (value K.eq table.now.entries key) ≡ true },
}

/// The entry of a key that is absent.
///
/// Part of an `Entry`. A contract sees it as the borrowed table and the key.
#[derive(Drop)]
pub struct VacantEntry<'a, K: Eq + Hash, V, S: BuildHasher, A: Allocator> {
    pub(crate) table: &'a mut Table<K, V, S, A>,
    pub(crate) key: K,
    pub(crate) hash: u64,
    ghost hashed: { hash
        ≡ hashes S.BuildHasher S.Hasher.Hasher K.hash_input table.now.builder key },
    ghost absent: { keys_like K.eq key table.now.entries ≡ 0 },
}
