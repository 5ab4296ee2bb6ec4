//! A slot map in plain code, over the toolchain's own vector, which has none.

use std::alloc::{AllocError, Global};

/// A key of one number: the index of its slot, and the number of keys issued before it.
#[derive(Clone, Copy, Drop)]
pub struct Key {
    index: usize,
    serial: u64,
}

// A slot is free, with the index of the next free one, or has a serial and a number.
#[derive(Clone, Copy, Drop)]
enum Entry {
    Free(usize),
    Held(u64, u64),
}

/// A slot map of numbers.
#[derive(Drop)]
pub struct SlotMap {
    entries: Vec<Entry>,
    // The first free slot. It is beyond the last slot if none is free.
    first: usize,
    issued: u64,
}

impl SlotMap {
    pub fn new_in(alloc: Global) -> Self {
        SlotMap {
            entries: Vec::new(alloc),
            first: usize::MAX,
            issued: 0,
        }
    }

    /// Inserts a number and returns its key.
    pub fn insert(&mut self, value: u64) -> Result<Key, AllocError> {
        let serial = self.issued;
        let entry = Entry::Held(serial, value);
        let mut index = self.first;
        match self.entries.as_mut_slice().get_mut(index) {
            Some(place) => {
                if let Entry::Free(next) = *place {
                    self.first = next;
                }
                *place = entry;
            }
            None => {
                index = self.entries.len();
                if self.entries.push(entry).is_err() {
                    return Err(AllocError);
                }
            }
        }
        self.issued = serial.wrapping_add(1);
        Ok(Key { index, serial })
    }

    /// Returns the number of the key, if it has one.
    pub fn get(&self, key: Key) -> Option<&u64> {
        match self.entries.as_slice().get(key.index) {
            Some(Entry::Held(serial, value)) => {
                if *serial == key.serial {
                    Some(value)
                } else {
                    None
                }
            }
            _ => None,
        }
    }

    /// Removes the number of the key and returns it, if it has one.
    pub fn remove(&mut self, key: Key) -> Option<u64> {
        let value = self.get(key).copied()?;
        if let Some(place) = self.entries.as_mut_slice().get_mut(key.index) {
            *place = Entry::Free(self.first);
            self.first = key.index;
        }
        Some(value)
    }

    /// Returns the sum of the numbers.
    pub fn sum(&self) -> u64 {
        let mut sum: u64 = 0;
        for entry in self.entries.as_slice() {
            if let Entry::Held(_, value) = entry {
                sum = sum.wrapping_add(*value);
            }
        }
        sum
    }
}
