//! Requests that come to each claim of the author exactly, and to one more and one fewer.

use crate::config::Config;
use crate::pattern::{Nil, Pattern, mark};
use crate::random::Random;
use crate::sets::{Spot, check_items};
use allocator_api2::vec::Vec;
use std::alloc::{Allocator, Global};

/// The number of steps of `Edges`.
pub(crate) const EDGES: u64 = 24;

// The largest claims that are tested: in bytes, and in blocks.
const BYTES: usize = 16_777_216;

const BLOCKS: usize = 4_096;

// The maximum number of places of a block with a mark.
const MARKED: usize = 1_024;

// What may be requested after the limit is reached.
const EXTRA: [usize; 3] = [1, 8, 16];

// The claims, as `step` chooses them.
const CLAIMS: [&str; 3] = [
    "the guaranteed bytes",
    "the limit of bytes",
    "the limit of blocks",
];

// The numbers of parts in which a claim is reached.
const PARTS: [usize; 4] = [1, 2, 3, 7];

/// Returns the name of the claim of a step, and the number of parts in which it is reached.
pub(crate) fn name_of(number: u64) -> (&'static str, usize) {
    let claim = CLAIMS[(number % 3) as usize];
    (claim, PARTS[(number / 6 % 4) as usize])
}

// A block with a mark in each place.
#[derive(Drop)]
struct Filled<E: Pattern, H: Allocator> {
    tag: u64,
    items: Vec<E, H>,
}

// Allocates a block of `count` elements with a mark in each place, and keeps it. Returns whether
// it succeeded.
fn keep<E: Pattern, H: Allocator>(
    kept: &mut Vec<Filled<E, H>, Global>,
    heap: H,
    tag: u64,
    count: usize,
) -> bool {
    let Ok(mut items) = Vec::with_capacity_in(count, heap) else {
        return false;
    };
    for place in 0..count.min(MARKED) {
        if items.push(E::marked(mark(tag, place))).is_err() {
            break;
        }
    }
    kept.push(Filled { tag, items }).is_ok()
}

// Checks and deallocates `count` of the blocks, chosen at random. Returns their size in bytes.
fn release<E: Pattern, H: Allocator>(
    kept: &mut Vec<Filled<E, H>, Global>,
    count: usize,
    random: &mut Random,
) -> Result<usize, Spot> {
    let mut bytes = 0usize;
    for _ in 0..count {
        let len = kept.len();
        if len == 0 {
            break;
        }
        let old = kept.swap_remove(random.up_to(len - 1));
        check_items(old.items.as_slice(), old.tag, 0)?;
        bytes = bytes.saturating_add(old.items.capacity().saturating_mul(E::BYTES));
    }
    Ok(bytes)
}

/// Blocks that are allocated until a claim is reached.
#[derive(Drop)]
pub(crate) struct Edges<H: Allocator + Copy> {
    heap: H,
    // Whether blocks have the alignment 16 if their size allows it.
    is_wide: bool,
    // The number of requests so far.
    made: u64,
    // The number of bytes that are allocated.
    total: usize,
    bytes: Vec<Filled<u8, H>, Global>,
    wide: Vec<Filled<u128, H>, Global>,
    // Blocks of no bytes, with the alignments 1 and 16.
    nothing: Vec<Box<(), H>, Global>,
    nils: Vec<Box<Nil, H>, Global>,
}

impl<H: Allocator + Copy> Edges<H> {
    /// Creates a list without blocks.
    pub(crate) fn new(books: Global, heap: H) -> Edges<H> {
        Edges {
            heap,
            is_wide: false,
            made: 0,
            total: 0,
            bytes: Vec::new_in(books),
            wide: Vec::new_in(books),
            nothing: Vec::new_in(books),
            nils: Vec::new_in(books),
        }
    }

    /// Comes to one of the claims, and deallocates all.
    ///
    /// # Errors
    /// The first place with a wrong mark.
    pub(crate) fn step(
        &mut self,
        number: u64,
        config: Config,
        random: &mut Random,
    ) -> Result<(), Spot> {
        self.is_wide = number / 3 % 2 == 1;
        let (_, parts) = name_of(number);
        match number % 3 {
            0 => self.reach_guarantee(config, parts, random),
            1 if config.bytes <= BYTES => self.reach_limit(config.bytes, parts, random),
            2 if config.blocks <= BLOCKS => self.reach_blocks(config.blocks, parts, random),
            _ => Ok(()),
        }
    }

    // Makes the requests that must succeed: the largest, and as many as are guaranteed, in so many
    // parts.
    fn reach_guarantee(
        &mut self,
        config: Config,
        parts: usize,
        random: &mut Random,
    ) -> Result<(), Spot> {
        let target = config.guaranteed_bytes.min(config.bytes).min(BYTES);
        let most = config.guaranteed_size.min(target);
        for _ in 0..parts {
            let _no_bytes = self.request(0);
        }
        self.fill(most.saturating_sub(1), most);
        self.release_all(random)?;
        let size = most.min(target.checked_div(parts).unwrap_or(0));
        self.fill(target, size);
        self.release_half(random)?;
        self.fill(target.saturating_sub(1), size);
        self.fill(target, size);
        self.release_all(random)
    }

    // Fills up to a limit of bytes exactly, in so many parts, and requests more.
    fn reach_limit(
        &mut self,
        target: usize,
        parts: usize,
        random: &mut Random,
    ) -> Result<(), Spot> {
        let size = target.checked_div(parts).unwrap_or(0);
        self.fill(target, size);
        self.exceed(target);
        self.release_half(random)?;
        self.fill(target.saturating_sub(1), size);
        self.exceed(target);
        self.fill(target, size);
        self.exceed(target);
        self.release_all(random)
    }

    // Makes as many blocks as a limit allows, and requests one more.
    fn reach_blocks(
        &mut self,
        target: usize,
        parts: usize,
        random: &mut Random,
    ) -> Result<(), Spot> {
        let size = parts.saturating_sub(1).saturating_mul(8);
        self.add_blocks(target.saturating_add(1), size);
        self.release_half(random)?;
        self.add_blocks(target.saturating_sub(1), size);
        self.add_blocks(target.saturating_add(1), size);
        self.release_all(random)
    }

    // Requests a block of `size` bytes. Returns whether it succeeded.
    fn request(&mut self, size: usize) -> bool {
        self.made = self.made.wrapping_add(1);
        let is_kept = if size == 0 {
            self.request_nothing()
        } else if self.is_wide && size % 16 == 0 {
            keep(&mut self.wide, self.heap, self.made, size / 16)
        } else {
            keep(&mut self.bytes, self.heap, self.made, size)
        };
        if is_kept {
            self.total = self.total.saturating_add(size);
        }
        is_kept
    }

    // Requests a block of no bytes. The toolchain's boxes make such requests, and the library's
    // never do. Returns whether it succeeded.
    fn request_nothing(&mut self) -> bool {
        if self.is_wide {
            match Box::new(self.heap, Nil::marked(0)) {
                Ok(item) => self.nils.push(item).is_ok(),
                Err(_) => false,
            }
        } else {
            match Box::new(self.heap, ()) {
                Ok(item) => self.nothing.push(item).is_ok(),
                Err(_) => false,
            }
        }
    }

    // Returns the number of blocks that are allocated.
    fn count(&self) -> usize {
        self.bytes
            .len()
            .saturating_add(self.wide.len())
            .saturating_add(self.nothing.len())
            .saturating_add(self.nils.len())
    }

    // Requests blocks of `size` bytes, or smaller ones if these fail, until exactly `target` bytes
    // are allocated.
    fn fill(&mut self, target: usize, size: usize) {
        let mut size = size.max(1);
        for _ in 0..BLOCKS {
            let left = target.saturating_sub(self.total);
            size = size.min(left);
            if size == 0 {
                break;
            }
            if !self.request(size) {
                size = size / 2;
            }
        }
    }

    // Requests a little more than `target` bytes allow.
    fn exceed(&mut self, target: usize) {
        let left = target.saturating_sub(self.total);
        for extra in EXTRA {
            let _too_many = self.request(left.saturating_add(extra));
        }
    }

    // Requests blocks of `size` bytes until there are `target` blocks.
    fn add_blocks(&mut self, target: usize, size: usize) {
        for _ in 0..target {
            if self.count() >= target || !self.request(size) {
                break;
            }
        }
    }

    // Checks and deallocates half of the blocks.
    fn release_half(&mut self, random: &mut Random) -> Result<(), Spot> {
        self.nothing.truncate(self.nothing.len() / 2);
        self.nils.truncate(self.nils.len() / 2);
        let (bytes, wide) = (self.bytes.len() / 2, self.wide.len() / 2);
        self.release(bytes, wide, random)
    }

    // Checks and deallocates all blocks.
    fn release_all(&mut self, random: &mut Random) -> Result<(), Spot> {
        self.nothing.clear();
        self.nils.clear();
        let (bytes, wide) = (self.bytes.len(), self.wide.len());
        self.release(bytes, wide, random)
    }

    // Checks and deallocates so many blocks of each kind.
    fn release(&mut self, bytes: usize, wide: usize, random: &mut Random) -> Result<(), Spot> {
        let freed = release(&mut self.bytes, bytes, random)?;
        self.total = self.total.saturating_sub(freed);
        let freed = release(&mut self.wide, wide, random)?;
        self.total = self.total.saturating_sub(freed);
        Ok(())
    }
}
