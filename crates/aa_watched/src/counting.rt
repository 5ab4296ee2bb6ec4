ghost use Rattle.std.specs.Prelude.{◌≡◌, ℕ, ◌<◌};
ghost use Rattle.aa_watched.specs.Counted.{freed, granted, requested};
ghost use Rattle.aa_watched.specs.Sizes.{IsClass, greatest_of};

use crate::watched::{Watch, Watched};
use std::alloc::{AllocError, Allocator};
use std::cell::Cell;
use std::fmt;

/// An allocator that passes each request on to an inner one and counts.
///
/// With it an author finds where a collection's memory goes. A collection takes `&counting` as its
/// allocator. `counting.counts()` returns the counts, which print as a report.
pub type Counting<B> = Watched<B, Counter>;

impl<B: Allocator> Watched<B, Counter> {
    /// Creates an allocator over `inner` with all counts 0.
    ///
    /// Does not allocate.
    pub fn new(inner: B) -> Counting<B> {
        Watched::with_watch(inner, Counter::default())
    }

    /// Returns the counts so far.
    pub fn counts(&self) -> Counts {
        self.watch().counts()
    }
}

// Returns the class of a size: up to 16, 64, 256 .. 65,536 bytes, or larger.
fn class_of(size: usize) -> usize
    ensures { IsClass size result }
{
    match size {
        0..=16 => 0,
        17..=64 => 1,
        65..=256 => 2,
        257..=1_024 => 3,
        1_025..=4_096 => 4,
        4_097..=16_384 => 5,
        16_385..=65_536 => 6,
        _ => 7,
    }
}

// Returns the largest size of a class, except the last.
fn greatest_in(class: usize) -> usize
    requires { class < 7 }
    ensures { result ≡ greatest_of class }
{
    match class {
        0 => 16,
        1 => 64,
        2 => 256,
        3 => 1_024,
        4 => 4_096,
        5 => 16_384,
        _ => 65_536,
    }
}

/// The counts of a `Counting` allocator so far.
///
/// A count that reaches `u64::MAX` does not change any more.
#[derive(Clone, Copy, PartialEq, Eq, Debug, Default)]
pub struct Counts {
    /// The number of blocks that were requested. A block that grows or shrinks is requested anew.
    pub requests: u64,
    /// The number of blocks that were allocated.
    pub granted: u64,
    /// The number of blocks that were deallocated.
    pub frees: u64,
    /// The total size in bytes of all blocks that were allocated.
    pub bytes: u64,
    /// The total size in bytes of the blocks that were not deallocated.
    pub outstanding: u64,
    /// The largest number of bytes that were ever outstanding at once.
    pub most: u64,
    /// The size in bytes of the largest request.
    pub greatest: usize,
    /// The number of requests of up to 16 bytes, up to 64, 256, 1,024, 4,096, 16,384, 65,536, and
    /// of more.
    pub by_size: [u64; 8],
}

impl Counts {
    // Returns the counts after a request for `size` bytes.
    fn with_request(self, size: usize) -> Counts
        ensures { (class : ℕ) × IsClass size class × (result ≡ requested self size class) }
    {
        let mut by_size = self.by_size;
        let class = class_of(size);
        by_size[class] = by_size[class].saturating_add(1);
        Counts {
            requests: self.requests.saturating_add(1),
            greatest: self.greatest.max(size),
            by_size,
            ..self
        }
    }

    // Returns the counts after a block of `size` bytes is allocated.
    fn with_grant(self, size: usize) -> Counts
        ensures { result ≡ granted self size }
    {
        let outstanding = self.outstanding.saturating_add(size as u64);
        Counts {
            granted: self.granted.saturating_add(1),
            bytes: self.bytes.saturating_add(size as u64),
            outstanding,
            most: self.most.max(outstanding),
            ..self
        }
    }

    // Returns the counts after a block of `size` bytes is deallocated.
    fn with_free(self, size: usize) -> Counts
        ensures { result ≡ freed self size }
    {
        Counts {
            frees: self.frees.saturating_add(1),
            outstanding: self.outstanding.saturating_sub(size as u64),
            ..self
        }
    }
}

impl fmt::Display for Counts {
    fn fmt<W: fmt::Write>(&self, f: &mut fmt::Formatter<W>) -> fmt::Result {
        let failed = self.requests.saturating_sub(self.granted);
        writeln!(
            f,
            "{} requests, {failed} failed, {} blocks freed",
            self.requests, self.frees
        )?;
        writeln!(
            f,
            "{} bytes granted in all, {} outstanding, {} at most",
            self.bytes, self.outstanding, self.most
        )?;
        writeln!(f, "the greatest request: {} bytes", self.greatest)?;
        for class in 0..8usize {
            let requests = self.by_size[class];
            if requests == 0 {
                continue;
            }
            if class < 7 {
                writeln!(f, "up to {:>6} bytes: {requests}", greatest_in(class))?;
            } else {
                writeln!(f, "above  65536 bytes: {requests}")?;
            }
        }
        Ok(())
    }
}

/// The watch of a `Counting` allocator.
#[derive(Drop, Default)]
pub struct Counter {
    counts: Cell<Counts>,
}

impl Counter {
    /// Returns the counts so far.
    pub fn counts(&self) -> Counts {
        self.counts.get()
    }
}

impl Watch for Counter {
    fn should_fail(&self, size: usize, _align: usize) -> bool {
        self.counts.set(self.counts.get().with_request(size));
        false
    }

    fn on_allocate(&self, size: usize, _align: usize) {
        self.counts.set(self.counts.get().with_grant(size));
    }

    fn on_failure(&self, _size: usize, _align: usize) {}

    fn on_deallocate(&self, size: usize, _align: usize) {
        self.counts.set(self.counts.get().with_free(size));
    }
}

/// Returns a watch with all counts 0.
impl Clone for Counter {
    fn clone(&self) -> Result<Counter, AllocError> {
        Ok(Counter::default())
    }
}
