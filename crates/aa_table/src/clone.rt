//! Clones of tables.
ghost use Rattle.aa_table.specs.Contents.{IsCopy};

use crate::table::Table;
use std::alloc::{AllocError, Allocator};
use std::hash::{BuildHasher, Hash};

impl<
    K: Eq + Hash + Clone + Drop,
    V: Clone + Drop,
    S: BuildHasher + Clone + Drop,
    A: Allocator + Clone,
> Clone for Table<K, V, S, A> {
    ghost is_clone = { IsCopy K.eq K.is_clone V.is_clone S.is_clone };

    /// Returns a table with a clone of each entry, and clones of the builder and the allocator.
    ///
    /// Allocates once for all entries. Of entries whose keys have equal clones, the last is kept.
    ///
    /// # Errors
    /// `AllocError` if an allocation or a clone fails. No table is returned then.
    fn clone(&self) -> Result<Self, AllocError> {
        let alloc = self.allocator().clone()?;
        let mut copy = Table::with_hasher_in(self.hasher().clone()?, alloc);
        if let Err(_) = copy.reserve(self.len()) {
            return Err(AllocError);
        }
        let mut rest = self.iter();
        'each: while let Some((key, item)) = rest.next() {
            match copy.insert(key.clone()?, item.clone()?) {
                Ok(old) => drop(old),
                Err(_) => return Err(AllocError),
            }
        }
        Ok(copy)
    }
}
