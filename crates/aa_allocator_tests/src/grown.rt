//! Vectors of the standard library, which call `grow` and `shrink`.

use crate::pattern::{Nil, Pattern, Sheet, Wide, mark};
use crate::random::Random;
use crate::sets::{Spot, check_items};
use std::alloc::Allocator;

// The maximum number of elements that are written at once.
const MOST: usize = 4_096;

// The difference of two tags of a vector, so that no two vectors have the same one.
const TAGS: u64 = 32;

/// The last change of a block.
#[derive(Clone, Copy, PartialEq, Eq)]
pub(crate) enum Done {
    Made,
    Grown,
    Shrunk,
}

// The names of the vectors, as the `step` of `Growing` chooses them.
const VECTORS: [&str; 10] = [
    "elements of 1 byte",
    "elements of 1 byte",
    "elements of 24 bytes",
    "elements of 24 bytes",
    "elements of 16 bytes",
    "elements of 16 bytes",
    "elements of 4,096 bytes",
    "elements of 4,096 bytes",
    "elements of no bytes",
    "elements of no bytes",
];

// The names of their calls, as the `step` of a `Grown` chooses them.
const CALLS: [&str; 5] = ["make anew", "shrink to fit", "shrink", "grow", "grow"];

/// Returns the names of the vector and of the call of a step with these random numbers.
pub(crate) fn name_of(random: &mut Random) -> (&'static str, &'static str) {
    let vector = VECTORS[random.up_to(9)];
    (vector, CALLS[random.up_to(4)])
}

/// A vector that grows and shrinks by the allocator's own calls, with a mark in each place.
#[derive(Drop)]
struct Grown<E: Pattern, H: Allocator + Copy> {
    heap: H,
    tag: u64,
    list: Vec<E, H>,
}

impl<E: Pattern, H: Allocator + Copy> Grown<E, H> {
    fn new(heap: H, tag: u64) -> Grown<E, H> {
        Grown {
            heap,
            tag,
            list: Vec::new(heap),
        }
    }

    // Grows the vector, shrinks it, or makes it anew, and fills it up to its capacity or less. All
    // marks are new, so that none is found in memory that the vector had before.
    fn step(&mut self, random: &mut Random, most: usize) -> Done {
        self.renew();
        match random.up_to(4) {
            0 => {
                self.list = Vec::new(self.heap);
                let _made = self.list.try_reserve_exact(random.up_to(most / 4));
                self.fill(random);
                Done::Made
            }
            1 => {
                self.list.truncate(random.up_to(most));
                self.list.shrink_to_fit();
                Done::Shrunk
            }
            2 => {
                self.list.truncate(random.up_to(most / 2));
                self.list.shrink_to(random.up_to(most));
                Done::Shrunk
            }
            _ => {
                let capacity = self.list.capacity();
                if capacity < most {
                    self.grow_to(capacity.saturating_add(random.up_to(most / 2)));
                    self.fill(random);
                }
                Done::Grown
            }
        }
    }

    // Grows the vector to a capacity of `count` elements.
    fn grow_to(&mut self, count: usize) {
        let more = count.saturating_sub(self.list.len());
        let _grown = self.list.try_reserve_exact(more);
    }

    // Fills the vector up to its capacity or less.
    fn fill(&mut self, random: &mut Random) {
        let spare = self
            .list
            .capacity()
            .saturating_sub(self.list.len())
            .min(MOST);
        let count = if random.up_to(2) == 0 {
            random.up_to(spare)
        } else {
            spare
        };
        self.push(count);
    }

    // Writes new marks into all places.
    fn renew(&mut self) {
        self.tag = self.tag.wrapping_add(TAGS);
        let len = self.list.len();
        self.list.clear();
        self.push(len);
    }

    // Pushes up to `count` elements with their marks.
    fn push(&mut self, count: usize) {
        for _ in 0..count {
            let place = self.list.len();
            if self.list.push(E::marked(mark(self.tag, place))).is_err() {
                break;
            }
        }
    }

    fn check(&self) -> Result<(), Spot> {
        check_items(self.list.as_slice(), self.tag, 0)
    }

    fn capacity(&self) -> usize {
        self.list.capacity()
    }

    // Returns the size of the block in bytes.
    fn bytes(&self) -> usize {
        self.list.capacity().saturating_mul(E::BYTES)
    }
}

/// Vectors of bytes, of elements of 24 and 16 bytes, of pages, and of elements of no bytes, which
/// grow and shrink.
#[derive(Drop)]
pub(crate) struct Growing<H: Allocator + Copy> {
    bytes: Grown<u8, H>,
    wide: Grown<Wide, H>,
    sixteens: Grown<u128, H>,
    sheets: Grown<Sheet, H>,
    nothing: Grown<(), H>,
    nils: Grown<Nil, H>,
    // Which vector the last step called.
    last: usize,
}

impl<H: Allocator + Copy> Growing<H> {
    /// Creates empty vectors.
    pub(crate) fn new(heap: H) -> Growing<H> {
        Growing {
            bytes: Grown::new(heap, 11),
            wide: Grown::new(heap, 12),
            sixteens: Grown::new(heap, 13),
            sheets: Grown::new(heap, 14),
            nothing: Grown::new(heap, 15),
            nils: Grown::new(heap, 16),
            last: 0,
        }
    }

    /// Makes a step of one of the vectors, and returns what was done.
    pub(crate) fn step(&mut self, random: &mut Random) -> Done {
        self.last = random.up_to(9);
        match self.last {
            0 | 1 => self.bytes.step(random, 600),
            2 | 3 => self.wide.step(random, 60),
            4 | 5 => self.sixteens.step(random, 280),
            6 | 7 => self.sheets.step(random, 8),
            8 => self.nothing.step(random, 60),
            _ => self.nils.step(random, 60),
        }
    }

    /// Grows a vector to `limit` bytes exactly, and then to a few more.
    pub(crate) fn exceed(&mut self, limit: usize) -> Done {
        self.last = 0;
        self.bytes.grow_to(limit / 2);
        self.bytes.grow_to(limit);
        self.bytes.grow_to(limit.saturating_add(1));
        self.bytes.grow_to(limit.saturating_add(8));
        Done::Grown
    }

    /// Checks all places of the vector that the last step called.
    ///
    /// # Errors
    /// The first wrong place that was found.
    pub(crate) fn check_last(&self) -> Result<(), Spot> {
        match self.last {
            0 | 1 => self.bytes.check(),
            2 | 3 => self.wide.check(),
            4 | 5 => self.sixteens.check(),
            6 | 7 => self.sheets.check(),
            _ => Ok(()),
        }
    }

    /// Checks all places of all vectors.
    ///
    /// # Errors
    /// The first wrong place that was found.
    pub(crate) fn check(&self) -> Result<(), Spot> {
        self.bytes.check()?;
        self.wide.check()?;
        self.sixteens.check()?;
        self.sheets.check()
    }

    // Returns the capacities.
    fn capacities(&self) -> [usize; 6] {
        [
            self.bytes.capacity(),
            self.wide.capacity(),
            self.sixteens.capacity(),
            self.sheets.capacity(),
            self.nothing.capacity(),
            self.nils.capacity(),
        ]
    }

    /// Returns the sum of the capacities.
    pub(crate) fn capacity(&self) -> u64 {
        let mut sum = 0u64;
        for capacity in self.capacities() {
            sum = sum.wrapping_add(capacity as u64);
        }
        sum
    }

    /// Returns the number of blocks.
    pub(crate) fn blocks(&self) -> usize {
        let mut count = 0usize;
        for capacity in self.capacities() {
            if capacity > 0 {
                count = count.saturating_add(1);
            }
        }
        count
    }

    /// Returns their size in bytes.
    pub(crate) fn held(&self) -> usize {
        self.bytes
            .bytes()
            .saturating_add(self.wide.bytes())
            .saturating_add(self.sixteens.bytes())
            .saturating_add(self.sheets.bytes())
    }
}
