//! The cases over the toolchain's own maps, box, heap, queue and vector, and a slot map in plain code.

use crate::checksum::checksum_from;
use crate::serials::{Key, SlotMap};
use crate::standard::trees::{self, Node};
use benchcases::case::Collection;
use std::alloc::Global;
use std::collections::{BTreeMap, BinaryHeap, HashMap, VecDeque};

type Numbers = HashMap<u64, u64>;

type Sorted = BTreeMap<u64, u64>;

type Greatest = BinaryHeap<u64>;

type Queue = VecDeque<u32>;

type Few = Vec<u32>;

// In plain code.
type Slots = SlotMap;

/// The collections of a case, before and after its run.
#[derive(Drop)]
pub struct Held {
    alloc: Global,
    // The keys that are inserted, looked up or removed, in this order.
    keys: Vec<u64>,
    table: Numbers,
    map: Sorted,
    tree: Option<Box<Node>>,
    heap: Greatest,
    queue: Queue,
    rows: Vec<Few>,
    slots: Slots,
    // The keys of the slot map, in the order of the inserts.
    issued: Vec<Key>,
    // The sum of the results of the look-ups or removals, or of the values that were visited.
    sum: u64,
}

impl Held {
    pub fn new(alloc: Global) -> Self {
        Held {
            alloc,
            keys: Vec::new(alloc),
            table: HashMap::new(alloc),
            map: BTreeMap::new(alloc),
            tree: None,
            heap: BinaryHeap::new(alloc),
            queue: VecDeque::new(alloc),
            rows: Vec::new(alloc),
            slots: SlotMap::new_in(alloc),
            issued: Vec::new(alloc),
            sum: 0,
        }
    }

    /// Fills the collection as the case expects it, and returns whether every allocation succeeded.
    pub fn prepare(&mut self, collection: Collection, count: u32) -> bool {
        match collection {
            Collection::TableInsert
            | Collection::TableReserved
            | Collection::BoxTree
            | Collection::SlotsInsert
            | Collection::SlotsInPlace
            | Collection::HeapPush
            | Collection::MapInsert => { fill_keys(&mut self.keys, count, 0) }
            Collection::TableHit | Collection::TableRemove | Collection::TableIter => {
                self.fill_table(count)
            }
            Collection::TableIterSparse => self.fill_sparse(count),
            Collection::TableMiss => {
                let filled = self.fill_table(count);
                self.keys.clear();
                // Keys of the table are below 2 ^ 32.
                filled && fill_keys(&mut self.keys, count, 4_294_967_296)
            }
            Collection::BoxTreeFind => {
                fill_keys(&mut self.keys, count, 0)
                    && box_tree(&mut self.tree, self.alloc, self.keys.as_slice())
            }
            Collection::MapGet | Collection::MapRemove | Collection::MapScan => {
                fill_keys(&mut self.keys, count, 0)
                    && map_insert(&mut self.map, self.keys.as_slice())
            }
            Collection::HeapPop => {
                fill_keys(&mut self.keys, count, 0)
                    && heap_push(&mut self.heap, self.keys.as_slice())
            }
            Collection::RingQueue => ring_push(&mut self.queue, 100),
            Collection::SlotsGet | Collection::SlotsChurn => {
                fill_keys(&mut self.keys, count, 0) && self.fill_slots()
            }
            Collection::RingPush
            | Collection::RingInPlace
            | Collection::InlineFew
            | Collection::InlineRows => true,
        }
    }

    fn fill_table(&mut self, count: u32) -> bool {
        fill_keys(&mut self.keys, count, 0) && table_insert(&mut self.table, self.keys.as_slice())
    }

    fn fill_slots(&mut self) -> bool {
        if self.issued.reserve_exact(self.keys.len()).is_err() {
            return false;
        }
        for value in self.keys.as_slice() {
            let Ok(key) = self.slots.insert(*value) else {
                return false;
            };
            if self.issued.push(key).is_err() {
                return false;
            }
        }
        true
    }

    // Fills the table, and removes nine of each ten keys in a row.
    fn fill_sparse(&mut self, count: u32) -> bool {
        let filled = self.fill_table(count);
        for ten in self.keys.as_slice().chunks(10) {
            if let Some((_, others)) = ten.split_first() {
                table_remove(&mut self.table, others);
            }
        }
        filled
    }

    /// Runs the case, and returns whether every allocation succeeded.
    pub fn run(&mut self, collection: Collection, count: u32) -> bool {
        let keys = self.keys.as_slice();
        match collection {
            Collection::TableInsert => return table_insert(&mut self.table, keys),
            Collection::TableHit => self.sum = table_hit(&self.table, keys),
            Collection::TableMiss => self.sum = table_miss(&self.table, keys),
            Collection::TableRemove => self.sum = table_remove(&mut self.table, keys),
            Collection::TableReserved => return table_reserved(&mut self.table, keys),
            Collection::TableIter => self.sum = table_iter(&self.table),
            Collection::TableIterSparse => self.sum = table_iter_sparse(&self.table),
            Collection::BoxTree => return box_tree(&mut self.tree, self.alloc, keys),
            Collection::BoxTreeFind => self.sum = box_tree_find(&self.tree, keys),
            Collection::MapInsert => return map_insert(&mut self.map, keys),
            Collection::MapGet => self.sum = map_get(&self.map, keys),
            Collection::MapRemove => self.sum = map_remove(&mut self.map, keys),
            Collection::MapScan => self.sum = map_scan(&self.map),
            Collection::HeapPush => return heap_push(&mut self.heap, keys),
            Collection::HeapPop => self.sum = heap_pop(&mut self.heap),
            Collection::RingQueue => return ring_queue(&mut self.queue, count),
            Collection::RingPush => return ring_push(&mut self.queue, count),
            Collection::RingInPlace => return ring_in_place(&mut self.queue, count),
            Collection::InlineRows => return inline_rows(&mut self.rows, self.alloc, count),
            Collection::SlotsInsert => return slots_insert(&mut self.slots, keys),
            Collection::SlotsInPlace => return slots_in_place(&mut self.slots, keys),
            Collection::SlotsGet => self.sum = slots_get(&self.slots, self.issued.as_slice()),
            Collection::SlotsChurn => {
                return slots_churn(&mut self.slots, self.issued.as_slice());
            }
            Collection::InlineFew => match inline_few(self.alloc, count) {
                Some(sum) => self.sum = sum,
                None => return false,
            },
        }
        true
    }

    /// Returns the checksum of the elements and of the results, continuing from `sum`.
    ///
    /// Keys are looked up in the order of the list, since the order of a table is unspecified.
    /// Entries of the ordered map follow, in its order, then what the other collections hold.
    pub fn checksum(&self, sum: u64) -> u64 {
        let (first, others) = self.queue.as_slices();
        let items = checksum_from(checksum_from(sum, first), others);
        let mut values = self.sum.wrapping_add(self.table.len() as u64);
        for key in self.keys.as_slice() {
            let value = self.table.get(key).copied().unwrap_or(0);
            values = values.wrapping_mul(31).wrapping_add(value);
        }
        for (key, value) in self.map.iter() {
            values = values.wrapping_mul(31).wrapping_add(*key ^ *value);
        }
        for key in self.heap.iter() {
            values = values.wrapping_add(*key);
        }
        let mut all = trees::checksum(&self.tree, items.wrapping_add(values));
        for row in self.rows.as_slice() {
            all = checksum_from(all, row.as_slice());
        }
        all.wrapping_add(slots_sum(&self.slots))
    }
}

// Appends `count` distinct keys in no regular order: `least` or more, and less than 2 ^ 32 above
// it. First reserves capacity for exactly these, so that no block is freed before the case runs.
fn fill_keys(keys: &mut Vec<u64>, count: u32, least: u64) -> bool {
    if keys.reserve_exact(count as usize).is_err() {
        return false;
    }
    let mut state: u32 = 1;
    for _ in 0..count {
        state = state.wrapping_mul(1_664_525).wrapping_add(1_013_904_223);
        if keys.push(least.wrapping_add(u64::from(state))).is_err() {
            return false;
        }
    }
    true
}

#[inline(never)]
fn table_insert(table: &mut Numbers, keys: &[u64]) -> bool {
    each_is_granted!(key in keys, table.insert(*key, *key >> 1))
}

#[inline(never)]
fn table_hit(table: &Numbers, keys: &[u64]) -> u64 {
    let mut sum: u64 = 0;
    for key in keys {
        if let Some(value) = table.get(key) {
            sum = sum.wrapping_add(*value);
        }
    }
    sum
}

// Returns the number of keys that are missing.
#[inline(never)]
fn table_miss(table: &Numbers, keys: &[u64]) -> u64 {
    let mut misses: u64 = 0;
    for key in keys {
        if !table.contains_key(key) {
            misses = misses.wrapping_add(1);
        }
    }
    misses
}

#[inline(never)]
fn table_remove(table: &mut Numbers, keys: &[u64]) -> u64 {
    let mut sum: u64 = 0;
    for key in keys {
        if let Some(value) = table.remove(key) {
            sum = sum.wrapping_add(value);
        }
    }
    sum
}

#[inline(never)]
fn table_reserved(table: &mut Numbers, keys: &[u64]) -> bool {
    table.reserve(keys.len()).is_ok() && table_insert(table, keys)
}

#[inline(never)]
fn table_iter(table: &Numbers) -> u64 {
    let mut sum: u64 = 0;
    for (_, value) in table.iter() {
        sum = sum.wrapping_add(*value);
    }
    sum
}

// Adds up the keys, and not the values, so that the compiler does not join it with `table_iter`.
#[inline(never)]
fn table_iter_sparse(table: &Numbers) -> u64 {
    let mut sum: u64 = 0;
    for (key, _) in table.iter() {
        sum = sum.wrapping_add(*key);
    }
    sum
}

#[inline(never)]
fn box_tree(tree: &mut Option<Box<Node>>, alloc: Global, keys: &[u64]) -> bool {
    for key in keys {
        if !trees::insert(tree, alloc, *key) {
            return false;
        }
    }
    true
}

// Returns the number of keys that are found.
#[inline(never)]
fn box_tree_find(tree: &Option<Box<Node>>, keys: &[u64]) -> u64 {
    let mut found: u64 = 0;
    for key in keys {
        if trees::has(tree, *key) {
            found = found.wrapping_add(1);
        }
    }
    found
}

#[inline(never)]
fn map_insert(map: &mut Sorted, keys: &[u64]) -> bool {
    each_is_granted!(key in keys, map.insert(*key, *key >> 1))
}

#[inline(never)]
fn map_get(map: &Sorted, keys: &[u64]) -> u64 {
    let mut sum: u64 = 0;
    for key in keys {
        if let Some(value) = map.get(key) {
            sum = sum.wrapping_add(*value);
        }
    }
    sum
}

#[inline(never)]
fn map_remove(map: &mut Sorted, keys: &[u64]) -> u64 {
    let mut sum: u64 = 0;
    for key in keys {
        if let Some(value) = map.remove(key) {
            sum = sum.wrapping_add(value);
        }
    }
    sum
}

#[inline(never)]
fn map_scan(map: &Sorted) -> u64 {
    let mut sum: u64 = 0;
    for (key, value) in map.iter() {
        sum = sum.wrapping_mul(31).wrapping_add(*key ^ *value);
    }
    sum
}

#[inline(never)]
fn heap_push(heap: &mut Greatest, keys: &[u64]) -> bool {
    each_is_granted!(key in keys, heap.push(*key))
}

#[inline(never)]
fn heap_pop(heap: &mut Greatest) -> u64 {
    let mut sum: u64 = 0;
    for _ in 0..heap.len() {
        if let Some(key) = heap.pop() {
            sum = sum.wrapping_mul(31).wrapping_add(key);
        }
    }
    sum
}

#[inline(never)]
fn ring_queue(queue: &mut Queue, count: u32) -> bool {
    in_and_out!(u32, i in 0..count, queue.push_back(i), queue.pop_front(), |sum| queue.push_back(sum))
}

#[inline(never)]
fn ring_push(queue: &mut Queue, count: u32) -> bool {
    each_is_granted!(i in 0..count, queue.push_back(i))
}

#[inline(never)]
fn ring_in_place(queue: &mut Queue, count: u32) -> bool {
    each_is_granted!(i in 0..count, queue.push_back(i))
}

// Makes a vector of eight items for each eight numbers.
#[inline(never)]
fn inline_few(alloc: Global, count: u32) -> Option<u64> {
    let mut sum: u32 = 0;
    for i in 0..count / 8 {
        let mut few: Vec<u32> = Vec::new(alloc);
        for k in 0..8 {
            few.push(i ^ k).ok()?;
        }
        for _ in 0..8 {
            sum = sum.wrapping_add(few.pop().unwrap_or(0));
        }
    }
    Some(u64::from(sum))
}

#[inline(never)]
fn inline_rows(rows: &mut Vec<Few>, alloc: Global, count: u32) -> bool {
    for i in 0..count / 8 {
        let mut few: Few = Vec::new(alloc);
        for k in 0..8 {
            if few.push(i ^ k).is_err() {
                return false;
            }
        }
        if rows.push(few).is_err() {
            return false;
        }
    }
    true
}

#[inline(never)]
fn slots_insert(slots: &mut Slots, values: &[u64]) -> bool {
    each_is_granted!(value in values, slots.insert(*value))
}

#[inline(never)]
fn slots_in_place(slots: &mut Slots, values: &[u64]) -> bool {
    each_is_granted!(value in values, slots.insert(*value))
}

#[inline(never)]
fn slots_get(slots: &Slots, issued: &[Key]) -> u64 {
    let mut sum: u64 = 0;
    for key in issued {
        if let Some(value) = slots.get(*key) {
            sum = sum.wrapping_add(*value);
        }
    }
    sum
}

// Inserts half of each number that is removed.
#[inline(never)]
fn slots_churn(slots: &mut Slots, issued: &[Key]) -> bool {
    for key in issued {
        if let Some(value) = slots.remove(*key) {
            if slots.insert(value >> 1).is_err() {
                return false;
            }
        }
    }
    true
}

fn slots_sum(slots: &Slots) -> u64 {
    slots.sum()
}
