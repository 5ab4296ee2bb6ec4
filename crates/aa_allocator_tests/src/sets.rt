//! The collections over an allocator under test.

use crate::pattern::{Page, Pattern, first_wrong, mark};
use crate::random::Random;
use allocator_api2::boxed::{Box, BoxedSlice, BoxedText};
use allocator_api2::vec::Vec;
use std::alloc::{Allocator, Global};

/// A place with a wrong mark.
#[derive(Clone, Copy)]
pub struct Spot {
    /// The size in bytes of an element.
    pub element: usize,
    /// The number of elements of the block.
    pub count: usize,
    /// The first wrong place.
    pub place: usize,
    /// Whether the first bytes of its element are right.
    pub begins: bool,
}

/// Checks each element of a block, of which `items` begin at place `from`.
///
/// # Errors
/// The first place with a wrong mark.
pub(crate) fn check_items<E: Pattern>(items: &[E], tag: u64, from: usize) -> Result<(), Spot> {
    match first_wrong(items, tag, from) {
        None => Ok(()),
        Some(place) => Err(Spot {
            element: E::BYTES,
            count: items.len(),
            place,
            begins: items[place].begins(mark(tag, from.wrapping_add(place))),
        }),
    }
}

// Returns the maximum number of elements of a list.
fn most<E: Pattern>() -> usize {
    if E::BYTES < 100 { 40 } else { 4 }
}

// The maximum number of boxes of one kind, and the number of their calls in a step.
const BOXES: usize = 6;

const CALLS: usize = 12;

// A box with its number.
#[derive(Drop)]
struct Numbered<E: Pattern, H: Allocator + Copy> {
    number: usize,
    item: Box<E, H>,
}

/// A vector, a boxed slice and boxes of the same elements, with a mark in each place.
#[derive(Drop)]
pub struct Set<E: Pattern, H: Allocator + Copy> {
    heap: H,
    tag: u64,
    list: Vec<E, H>,
    fixed: Option<BoxedSlice<E, H>>,
    boxes: Vec<Numbered<E, H>, Global>,
    made: usize,
}

impl<E: Pattern, H: Allocator + Copy> Set<E, H> {
    /// Creates an empty set, whose marks are made of `tag`.
    pub fn new(books: Global, heap: H, tag: u64) -> Set<E, H> {
        Set {
            heap,
            tag,
            list: Vec::new_in(heap),
            fixed: None,
            boxes: Vec::new_in(books),
            made: 0,
        }
    }

    /// Makes one random call, and checks all places before and after it.
    ///
    /// # Errors
    /// The first place with a wrong mark.
    pub fn step(&mut self, random: &mut Random) -> Result<(), Spot> {
        self.check()?;
        match random.up_to(9) {
            0 | 1 | 2 => self.push(random.up_to(most::<E>())),
            3 => self.list.truncate(random.up_to(most::<E>())),
            4 => self.resize(random.up_to(most::<E>())),
            5 => self.cut_and_join(random)?,
            6 | 7 => self.add_and_remove_boxes(random)?,
            8 => self.put_in_a_slice(),
            _ => self.release(),
        }
        self.check()
    }

    /// Checks all places.
    ///
    /// # Errors
    /// The first place with a wrong mark.
    pub fn check(&self) -> Result<(), Spot> {
        check_items(self.list.as_slice(), self.tag, 0)?;
        if let Some(fixed) = &self.fixed {
            check_items(fixed.as_slice(), self.tag, 0)?;
        }
        for it in self.boxes.iter() {
            self.check_box(it)?;
        }
        Ok(())
    }

    // Checks one box.
    fn check_box(&self, it: &Numbered<E, H>) -> Result<(), Spot> {
        if (*it.item).has(mark(self.tag, it.number)) {
            return Ok(());
        }
        Err(Spot {
            element: E::BYTES,
            count: 1,
            place: 0,
            begins: (*it.item).begins(mark(self.tag, it.number)),
        })
    }

    // Pushes up to `count` elements, until the list is full or a push fails.
    fn push(&mut self, count: usize) {
        for _ in 0..count {
            let place = self.list.len();
            if place >= most::<E>() {
                break;
            }
            if self.list.push(E::marked(mark(self.tag, place))).is_err() {
                break;
            }
        }
    }

    // Reserves spare capacity, or shrinks the list.
    fn resize(&mut self, count: usize) {
        let done = if count < most::<E>() / 2 {
            self.list.shrink_to(count)
        } else {
            self.list.try_reserve(count)
        };
        drop(done);
    }

    // Splits the list in two, and appends its tail again.
    fn cut_and_join(&mut self, random: &mut Random) -> Result<(), Spot> {
        let at = random.up_to(self.list.len());
        let Ok(mut tail) = self.list.split_off(at) else {
            return Ok(());
        };
        check_items(tail.as_slice(), self.tag, at)?;
        drop(self.list.append(&mut tail));
        check_items(tail.as_slice(), self.tag, at)
    }

    // Makes boxes of elements and drops others, in random order.
    fn add_and_remove_boxes(&mut self, random: &mut Random) -> Result<(), Spot> {
        for _ in 0..CALLS {
            let len = self.boxes.len();
            if len > 0 && (len >= BOXES || random.up_to(2) == 0) {
                let removed = self.boxes.swap_remove(random.up_to(len - 1));
                self.check_box(&removed)?;
            } else {
                self.put_in_a_box();
            }
        }
        Ok(())
    }

    // Makes a box of an element.
    fn put_in_a_box(&mut self) {
        let number = self.made.wrapping_add(1);
        self.made = number;
        if let Ok(item) = Box::new_in(E::marked(mark(self.tag, number)), self.heap) {
            drop(self.boxes.push(Numbered { number, item }));
        }
    }

    // Makes a boxed slice of a copy of the list.
    fn put_in_a_slice(&mut self) {
        let Ok(copy) = self.list.clone_copied() else {
            return;
        };
        if let Ok(fixed) = copy.into_boxed_slice() {
            self.fixed = Some(fixed);
        }
    }

    // Deallocates all blocks.
    fn release(&mut self) {
        self.fixed = None;
        self.boxes.clear();
        self.list.clear();
        drop(self.list.shrink_to_fit());
    }
}

// The texts to choose from.
const TEXTS: [&str; 4] = [
    "",
    "x",
    "a text of some words",
    "ein längerer Text, der mehr als vierundsechzig Bytes hat und Umlaute: äöü",
];

/// A boxed text.
#[derive(Drop)]
pub struct Text<H: Allocator + Copy> {
    heap: H,
    which: usize,
    text: Option<BoxedText<H>>,
}

impl<H: Allocator + Copy> Text<H> {
    /// Creates a `Text` without a text.
    pub fn new(heap: H) -> Text<H> {
        Text {
            heap,
            which: 0,
            text: None,
        }
    }

    /// Checks the text, and replaces it by another.
    ///
    /// # Errors
    /// The text, if it is wrong.
    pub fn step(&mut self, random: &mut Random) -> Result<(), Spot> {
        self.check()?;
        let which = random.up_to(3);
        if let Ok(text) = BoxedText::from_text(self.heap, TEXTS[which]) {
            self.which = which;
            self.text = Some(text);
        }
        self.check()
    }

    /// Checks the text.
    ///
    /// # Errors
    /// The text, if it is wrong.
    pub fn check(&self) -> Result<(), Spot> {
        match &self.text {
            Some(text) if text.as_str() != TEXTS[self.which % 4] => Err(Spot {
                element: 1,
                count: text.as_str().len(),
                place: 0,
                begins: false,
            }),
            _ => Ok(()),
        }
    }
}

// The maximum number of blocks that are kept.
const KEPT: usize = 32;

// A block that is kept over many steps.
#[derive(Drop)]
struct Kept<H: Allocator> {
    tag: u64,
    bytes: Vec<u8, H>,
}

/// Blocks of bytes that are kept over many steps. The list of them is allocated elsewhere.
#[derive(Drop)]
pub struct Store<H: Allocator> {
    kept: Vec<Kept<H>, Global>,
}

impl<H: Allocator> Store<H> {
    /// Creates a store without blocks.
    pub fn new(books: Global) -> Store<H> {
        Store {
            kept: Vec::new_in(books),
        }
    }

    /// Adds a block of up to 300 bytes, and checks and deallocates another once there are many.
    ///
    /// # Errors
    /// The first place with a wrong mark in that one.
    pub fn step(&mut self, heap: H, random: &mut Random) -> Result<(), Spot> {
        let tag = random.draw();
        let bytes = filled(heap, tag, random.up_to(300));
        drop(self.kept.push(Kept { tag, bytes }));
        if self.kept.len() > KEPT {
            let index = random.up_to(KEPT);
            let old = self.kept.swap_remove(index);
            check_items(old.bytes.as_slice(), old.tag, 0)?;
        }
        Ok(())
    }

    /// Checks all blocks.
    ///
    /// # Errors
    /// The first place with a wrong mark.
    pub fn check(&self) -> Result<(), Spot> {
        for it in self.kept.iter() {
            check_items(it.bytes.as_slice(), it.tag, 0)?;
        }
        Ok(())
    }
}

// Returns a block of `count` bytes with a mark in each, or of fewer if an allocation fails.
fn filled<H: Allocator>(heap: H, tag: u64, count: usize) -> Vec<u8, H> {
    let mut bytes = Vec::new_in(heap);
    for place in 0..count {
        if bytes.push(u8::marked(mark(tag, place))).is_err() {
            break;
        }
    }
    bytes
}

// The maximum number of large blocks that are kept.
const GREAT: usize = 2;

// A large block.
#[derive(Drop)]
struct Pages<H: Allocator> {
    tag: u64,
    pages: Vec<Page, H>,
}

/// Blocks of 16 KiB to a MiB. The list of them is allocated elsewhere.
#[derive(Drop)]
pub struct Great<H: Allocator> {
    kept: Vec<Pages<H>, Global>,
}

impl<H: Allocator> Great<H> {
    /// Creates a store without blocks.
    pub fn new(books: Global) -> Great<H> {
        Great {
            kept: Vec::new_in(books),
        }
    }

    /// Adds a block, and checks and deallocates another once there are many.
    ///
    /// # Errors
    /// The first place with a wrong mark in that one.
    pub fn step(&mut self, heap: H, random: &mut Random) -> Result<(), Spot> {
        let tag = random.draw();
        let count = random.up_to(252).saturating_add(4);
        let Ok(mut pages) = Vec::with_capacity_in(count, heap) else {
            return self.release(random);
        };
        for place in 0..count {
            if pages.push(Page::marked(mark(tag, place))).is_err() {
                break;
            }
        }
        drop(self.kept.push(Pages { tag, pages }));
        if self.kept.len() > GREAT {
            return self.release(random);
        }
        Ok(())
    }

    // Checks and deallocates one block, if there is one.
    fn release(&mut self, random: &mut Random) -> Result<(), Spot> {
        let len = self.kept.len();
        if len == 0 {
            return Ok(());
        }
        let old = self.kept.swap_remove(random.up_to(len - 1));
        check_items(old.pages.as_slice(), old.tag, 0)
    }

    /// Checks all blocks.
    ///
    /// # Errors
    /// The first place with a wrong mark.
    pub fn check(&self) -> Result<(), Spot> {
        for it in self.kept.iter() {
            check_items(it.pages.as_slice(), it.tag, 0)?;
        }
        Ok(())
    }
}
