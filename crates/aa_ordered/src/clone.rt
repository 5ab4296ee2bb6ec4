//! Clones of maps.
ghost use Rattle.aa_ordered.specs.Iterating.{IsCopy};

use crate::map::OrderedMap;
use std::alloc::{AllocError, Allocator};
use std::cmp::Ord;

impl<K: Ord + Clone + Drop, V: Clone + Drop, A: Allocator + Copy> Clone for OrderedMap<K, V, A> {
    ghost is_clone = { IsCopy K.cmp K.is_clone V.is_clone };

    /// Returns a map with a clone of each entry, and the same allocator.
    ///
    /// Allocates once for all entries, and inserts them in order.
    ///
    /// # Errors
    /// `AllocError` if an allocation or a clone fails. No map is returned then.
    fn clone(&self) -> Result<Self, AllocError> {
        let mut copy = OrderedMap::new_in(*self.allocator());
        if let Err(_) = copy.reserve(self.len()) {
            return Err(AllocError);
        }
        let mut rest = self.iter();
        'each: while let Some((key, item)) = rest.next() {
            match copy.insert(key.clone()?, item.clone()?) {
                Ok(old) => drop(old),
                Err(_) => return Err(AllocError),
            }
        }
        Ok(copy)
    }
}
