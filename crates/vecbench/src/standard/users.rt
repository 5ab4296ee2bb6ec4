//! Small programs that use vectors, over the toolchain's own vector.

use crate::checksum::checksum_from;
use crate::element::Element;
use crate::standard::{fill, fill_at_random};
use benchcases::case::Use;
use std::alloc::Global;
use std::io::Write;
use std::mem::replace;

/// The vectors of a use, before and after its run.
#[derive(Drop)]
pub struct Users {
    alloc: Global,
    source: Vec<u8>,
    // Not `u32`, so that they share no code with the cases of single calls. This would change what
    // the compiler inlines.
    numbers: Vec<usize>,
    others: Vec<usize>,
    bytes: Vec<u8>,
    texts: Vec<Vec<u8>>,
    rows: Vec<Vec<usize>>,
    boxes: Vec<Box<u32>>,
    sum: usize,
}

impl Users {
    pub fn new(alloc: Global) -> Self {
        Users {
            alloc,
            source: Vec::new(alloc),
            numbers: Vec::new(alloc),
            others: Vec::new(alloc),
            bytes: Vec::new(alloc),
            texts: Vec::new(alloc),
            rows: Vec::new(alloc),
            boxes: Vec::new(alloc),
            sum: 0,
        }
    }

    /// Fills the vectors as the case expects them, and returns whether every allocation succeeded.
    pub fn prepare(&mut self, used: Use, count: u32) -> bool {
        match used {
            Use::Tokenize | Use::Lines | Use::Lru => fill_at_random(&mut self.source, count, 24),
            Use::InsertSorted => fill_at_random(&mut self.others, count, 65_536),
            Use::DedupTexts => fill_texts(&mut self.texts, self.alloc, count),
            _ => true,
        }
    }

    /// Runs the case, and returns whether every allocation succeeded.
    pub fn run(&mut self, used: Use, count: u32) -> bool {
        let numbers = &mut self.numbers;
        let source = self.source.as_slice();
        let sum = match used {
            Use::Serialise => return serialise(&mut self.bytes, count),
            Use::Tokenize => return tokenize(numbers, source),
            Use::Lines => return lines(&mut self.texts, source, self.alloc),
            Use::Merge => return merge(numbers, &mut self.others, count),
            Use::DedupTexts => return dedup_texts(&mut self.texts),
            Use::TextTable => return text_table(&mut self.bytes, count),
            Use::InsertSorted => return insert_sorted(numbers, self.others.as_slice()),
            Use::Grid => return grid(numbers, count),
            Use::Rows => return rows(&mut self.rows, self.alloc, count),
            Use::Lru => lru(numbers, source),
            Use::Boxes => boxes(&mut self.boxes, self.alloc, count),
            Use::Window => window(numbers, count),
        };
        match sum {
            Some(sum) => {
                self.sum = sum;
                true
            }
            None => false,
        }
    }

    /// Returns the checksum of the elements of the vectors, continuing from `sum`.
    pub fn checksum(&self, sum: u64) -> u64 {
        let numbers = checksum_from(sum, self.numbers.as_slice());
        let others = checksum_from(numbers, self.others.as_slice());
        let mut all = checksum_from(others, self.bytes.as_slice());
        for text in self.texts.as_slice() {
            all = checksum_from(all, text.as_slice());
        }
        for row in self.rows.as_slice() {
            all = checksum_from(all, row.as_slice());
        }
        for number in self.boxes.as_slice() {
            all = checksum_from(all, &[**number]);
        }
        all.wrapping_add(self.sum as u64)
    }
}

// Appends texts of 8 bytes, each of them three times.
fn fill_texts(list: &mut Vec<Vec<u8>>, alloc: Global, count: u32) -> bool {
    for i in 0..count {
        let mut text = Vec::new(alloc);
        if text
            .extend_from_slice(&u64::from(i / 3).to_le_bytes())
            .is_err()
            || list.push(text).is_err()
        {
            return false;
        }
    }
    true
}

#[inline(never)]
fn serialise(bytes: &mut Vec<u8>, count: u32) -> bool {
    serialised!(bytes, count, extend_from_slice)
}

#[inline(never)]
fn tokenize(places: &mut Vec<usize>, source: &[u8]) -> bool {
    tokenized!(places, source)
}

#[inline(never)]
fn lines(texts: &mut Vec<Vec<u8>>, source: &[u8], alloc: Global) -> bool {
    lines_read!(texts, source, Vec::new(alloc))
}

#[inline(never)]
fn lru(keys: &mut Vec<usize>, source: &[u8]) -> Option<usize> {
    last_used!(keys, source)
}

// Returns the index of the key, or the number of keys if it is not among them.
fn place_of(keys: &[usize], key: usize) -> usize {
    for (at, other) in keys.iter().enumerate() {
        if *other == key {
            return at;
        }
    }
    keys.len()
}

#[inline(never)]
fn merge(list: &mut Vec<usize>, batch: &mut Vec<usize>, count: u32) -> bool {
    merged!(list, batch, count)
}

#[inline(never)]
fn dedup_texts(texts: &mut Vec<Vec<u8>>) -> bool {
    texts.dedup();
    true
}

#[inline(never)]
fn text_table(bytes: &mut Vec<u8>, count: u32) -> bool {
    rows_written!(bytes, count, extend_from_slice)
}

#[inline(never)]
fn insert_sorted(list: &mut Vec<usize>, source: &[usize]) -> bool {
    inserted_in_order!(list, source)
}

#[inline(never)]
fn grid(list: &mut Vec<usize>, count: u32) -> bool {
    grid_computed!(list, count)
}

#[inline(never)]
fn boxes(list: &mut Vec<Box<u32>>, alloc: Global, count: u32) -> Option<usize> {
    boxes_summed!(list, count, |value| Box::new(alloc, value))
}

#[inline(never)]
fn rows(rows: &mut Vec<Vec<usize>>, alloc: Global, count: u32) -> bool {
    let built = build_rows(rows, alloc, count);
    swap_rows(rows.as_mut_slice());
    built
}

fn build_rows(rows: &mut Vec<Vec<usize>>, alloc: Global, count: u32) -> bool {
    rows_built!(rows, count, Vec::new(alloc))
}

fn swap_rows(rows: &mut [Vec<usize>]) {
    rows_swapped!(rows)
}

#[inline(never)]
fn window(list: &mut Vec<usize>, count: u32) -> Option<usize> {
    window_summed!(list, count)
}
