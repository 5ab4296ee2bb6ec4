use crate::pattern::{Large, Wide};
use crate::random::Random;
use crate::sets::{Great, Set, Spot, Store, Text};
use std::alloc::{Allocator, Global};

/// All collections over the allocator, with elements of the alignments 1, 2, 4, 8 and 16.
#[derive(Drop)]
pub(crate) struct Zoo<H: Allocator + Copy> {
    small: Small<H>,
    big: Big<H>,
    others: Others<H>,
}

// Collections of elements of up to 4 bytes.
#[derive(Drop)]
struct Small<H: Allocator + Copy> {
    none: Set<(), H>,
    bytes: Set<u8, H>,
    shorts: Set<u16, H>,
    numbers: Set<u32, H>,
}

// Collections of larger elements.
#[derive(Drop)]
struct Big<H: Allocator + Copy> {
    sixteens: Set<u128, H>,
    wide: Set<Wide, H>,
    large: Set<Large, H>,
}

// A text, and blocks that are kept.
#[derive(Drop)]
struct Others<H: Allocator + Copy> {
    heap: H,
    text: Text<H>,
    store: Store<H>,
    great: Great<H>,
}

impl<H: Allocator + Copy> Zoo<H> {
    pub(crate) fn new(books: Global, heap: H) -> Zoo<H> {
        Zoo {
            small: Small::new(books, heap),
            big: Big::new(books, heap),
            others: Others::new(books, heap),
        }
    }

    /// Makes a step of one of the collections.
    ///
    /// # Errors
    /// The first place with a wrong mark.
    pub(crate) fn step(&mut self, random: &mut Random) -> Result<(), Spot> {
        match random.up_to(9) {
            0 => self.small.none.step(random),
            1 => self.small.bytes.step(random),
            2 => self.small.shorts.step(random),
            3 => self.small.numbers.step(random),
            4 => self.big.sixteens.step(random),
            5 => self.big.wide.step(random),
            6 => self.big.large.step(random),
            7 => self.others.text.step(random),
            8 => self.others.store.step(self.others.heap, random),
            _ => self.others.great.step(self.others.heap, random),
        }
    }

    /// Checks all places of all collections.
    ///
    /// # Errors
    /// The first place with a wrong mark.
    pub(crate) fn check(&self) -> Result<(), Spot> {
        self.small.check()?;
        self.big.check()?;
        self.others.check()
    }
}

// The names of the collections, as `step` chooses them.
const COLLECTIONS: [&str; 10] = [
    "elements of no bytes",
    "elements of 1 byte",
    "elements of 2 bytes",
    "elements of 4 bytes",
    "elements of 16 bytes",
    "elements of 24 bytes",
    "elements of 1,025 bytes",
    "a text",
    "blocks of up to 300 bytes",
    "blocks of 16 KiB to a MiB",
];

// The names of their calls, as the `step` of a `Set` chooses them.
const CALLS: [&str; 10] = [
    "push",
    "push",
    "push",
    "truncate",
    "reserve or shrink",
    "split and append",
    "boxes",
    "boxes",
    "boxed slice",
    "release all",
];

/// Returns the names of the collection and of the call of a step with these random numbers.
pub(crate) fn name_of(random: &mut Random) -> (&'static str, &'static str) {
    let _injected = (random.draw(), random.draw());
    let collection = random.up_to(9);
    let call = if collection < 7 {
        CALLS[random.up_to(9)]
    } else {
        "replace one"
    };
    (COLLECTIONS[collection], call)
}

impl<H: Allocator + Copy> Small<H> {
    fn new(books: Global, heap: H) -> Small<H> {
        Small {
            none: Set::new(books, heap, 1),
            bytes: Set::new(books, heap, 2),
            shorts: Set::new(books, heap, 3),
            numbers: Set::new(books, heap, 4),
        }
    }

    fn check(&self) -> Result<(), Spot> {
        self.none.check()?;
        self.bytes.check()?;
        self.shorts.check()?;
        self.numbers.check()
    }
}

impl<H: Allocator + Copy> Big<H> {
    fn new(books: Global, heap: H) -> Big<H> {
        Big {
            sixteens: Set::new(books, heap, 5),
            wide: Set::new(books, heap, 6),
            large: Set::new(books, heap, 7),
        }
    }

    fn check(&self) -> Result<(), Spot> {
        self.sixteens.check()?;
        self.wide.check()?;
        self.large.check()
    }
}

impl<H: Allocator + Copy> Others<H> {
    fn new(books: Global, heap: H) -> Others<H> {
        Others {
            heap,
            text: Text::new(heap),
            store: Store::new(books),
            great: Great::new(books),
        }
    }

    fn check(&self) -> Result<(), Spot> {
        self.text.check()?;
        self.store.check()?;
        self.great.check()
    }
}
