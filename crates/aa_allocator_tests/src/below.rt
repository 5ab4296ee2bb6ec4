ghost use Rattle.std.specs.Prelude.{◌<◌};

use aa_watched::watched::{Watch, Watched};
use std::alloc::Allocator;
use std::cell::Cell;

/// An allocator between the one under test and its inner allocator. It counts what is allocated and
/// deallocated.
///
/// An allocator without an inner one never calls it.
pub type Below<B> = Watched<B, Ledger>;

/// Creates a `Below` over `inner` with all counts 0.
///
/// Does not allocate.
pub fn count_below<B: Allocator>(inner: B) -> Below<B> {
    Watched::with_watch(inner, Ledger::default())
}

/// The counts of a `Below`.
#[derive(Drop, Default)]
pub struct Ledger {
    granted: Cell<u64>,
    failures: Cell<u64>,
    frees: Cell<u64>,
    bytes: Cell<u64>,
    // Sums of a number for each size, and for each size with its alignment, over the blocks that
    // are allocated.
    sizes: Cell<u64>,
    layouts: Cell<u64>,
    // How many blocks are allocated of the layouts of each class.
    classes: Cell<[u32; 32]>,
    stray: Cell<Option<Stray>>,
}

/// A block that was deallocated, though none of its layout was allocated.
#[derive(Clone, Copy, PartialEq, Eq, Debug)]
pub struct Stray {
    /// The size in bytes with which it was deallocated.
    pub size: usize,
    /// The alignment with which it was deallocated.
    pub align: usize,
}

/// Returns a hash of `number`.
pub(crate) fn spread(number: u64) -> u64 {
    let first = number.wrapping_mul(0x9E37_79B9_7F4A_7C15);
    (first ^ (first / 4_294_967_296)).wrapping_mul(0xD134_2543_DE82_EF95)
}

// Returns the class of a layout, from 0 to 31.
fn class_of(size: usize, align: usize) -> usize
    ensures { result < 32 }
{
    (of_layout(size, align) / 4_294_967_296 % 32) as usize
}

// Returns a hash of a size with its alignment.
fn of_layout(size: usize, align: usize) -> u64 {
    spread(spread(size as u64).wrapping_add(align as u64))
}

/// A mismatch between the blocks that were allocated and those that were deallocated.
#[derive(Clone, Copy, PartialEq, Eq, Debug)]
pub enum Mismatch {
    /// More blocks were deallocated than were allocated.
    TooMany,
    /// As many blocks, but not of the same sizes.
    Sizes,
    /// Blocks of the same sizes, but not of the same alignments.
    Alignments,
}

impl Ledger {
    // Returns whether a block of some layout of this class is allocated.
    fn has_class_of(&self, size: usize, align: usize) -> bool {
        self.classes.get()[class_of(size, align)] > 0
    }

    // Counts a block that is allocated.
    fn add_to_class(&self, size: usize, align: usize) {
        let mut classes = self.classes.get();
        let class = class_of(size, align);
        classes[class] = classes[class].saturating_add(1);
        self.classes.set(classes);
    }

    // Counts a block that is deallocated, or notes it as the first stray one.
    fn take_from_class(&self, size: usize, align: usize) {
        let mut classes = self.classes.get();
        let class = class_of(size, align);
        if classes[class] == 0 && self.stray.get().is_none() {
            self.stray.set(Some(Stray { size, align }));
        }
        classes[class] = classes[class].saturating_sub(1);
        self.classes.set(classes);
    }

    /// Returns the first block that was deallocated, though none of its layout was allocated.
    ///
    /// A few layouts count as one, so that not each such block is found.
    pub fn stray(&self) -> Option<Stray> {
        self.stray.get()
    }

    /// Returns the number of blocks that were allocated and not deallocated.
    pub fn blocks(&self) -> u64 {
        self.granted.get().saturating_sub(self.frees.get())
    }

    /// Returns the number of bytes that were allocated and not deallocated.
    pub fn bytes(&self) -> u64 {
        self.bytes.get()
    }

    /// Returns the number of requests that the inner allocator failed.
    pub fn failures(&self) -> u64 {
        self.failures.get()
    }

    /// Returns how the deallocated blocks differ from the allocated ones, if they do.
    ///
    /// Returns `None` while a block is still allocated, since nothing can be said then.
    pub fn mismatch(&self) -> Option<Mismatch> {
        if self.granted.get() < self.frees.get() {
            return Some(Mismatch::TooMany);
        }
        if self.granted.get() > self.frees.get() {
            return None;
        }
        if self.sizes.get() != 0 {
            return Some(Mismatch::Sizes);
        }
        if self.layouts.get() != 0 {
            return Some(Mismatch::Alignments);
        }
        None
    }
}

impl Watch for Ledger {
    fn should_fail(&self, _size: usize, _align: usize) -> bool {
        false
    }

    fn on_allocate(&self, size: usize, align: usize) {
        self.granted.set(self.granted.get().saturating_add(1));
        self.bytes.set(self.bytes.get().saturating_add(size as u64));
        self.sizes
            .set(self.sizes.get().wrapping_add(spread(size as u64)));
        self.layouts
            .set(self.layouts.get().wrapping_add(of_layout(size, align)));
        self.add_to_class(size, align);
    }

    fn on_failure(&self, _size: usize, _align: usize) {
        self.failures.set(self.failures.get().saturating_add(1));
    }

    fn on_deallocate(&self, size: usize, align: usize) {
        self.frees.set(self.frees.get().saturating_add(1));
        self.bytes.set(self.bytes.get().saturating_sub(size as u64));
        self.sizes
            .set(self.sizes.get().wrapping_sub(spread(size as u64)));
        self.layouts
            .set(self.layouts.get().wrapping_sub(of_layout(size, align)));
        self.take_from_class(size, align);
    }
}

/// The counts of one inner allocator or of two.
#[derive(Clone, Copy)]
pub(crate) struct Ledgers<'a> {
    pub first: &'a Ledger,
    pub second: Option<&'a Ledger>,
}

impl Ledgers<'_> {
    // Returns the counts of the second, or those of the first again.
    fn last(&self) -> &Ledger {
        match self.second {
            Some(second) => second,
            None => self.first,
        }
    }

    /// Returns the number of blocks that were allocated and not deallocated.
    pub(crate) fn blocks(&self) -> u64 {
        let more = self.second.map_or(0, |it| it.blocks());
        self.first.blocks().saturating_add(more)
    }

    /// Returns the number of bytes that were allocated and not deallocated.
    pub(crate) fn bytes(&self) -> u64 {
        let more = self.second.map_or(0, |it| it.bytes());
        self.first.bytes().saturating_add(more)
    }

    /// Returns the number of requests that the inner allocators failed.
    pub(crate) fn failures(&self) -> u64 {
        let more = self.second.map_or(0, |it| it.failures());
        self.first.failures().saturating_add(more)
    }

    /// Returns how the deallocated blocks differ from the allocated ones, if they do.
    pub(crate) fn mismatch(&self) -> Option<Mismatch> {
        match self.first.mismatch() {
            None => self.last().mismatch(),
            mismatch => mismatch,
        }
    }

    /// Returns a block of one of two that was deallocated to the other.
    ///
    /// It is one that is stray in the other, while the one has a block of its layout.
    pub(crate) fn crossed(&self) -> Option<Stray> {
        let second = self.second?;
        if let Some(stray) = self.first.stray()
            && second.has_class_of(stray.size, stray.align)
        {
            return Some(stray);
        }
        let stray = second.stray()?;
        if self.first.has_class_of(stray.size, stray.align) {
            return Some(stray);
        }
        None
    }
}
