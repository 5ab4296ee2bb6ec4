use std::fmt;

/// The kinds of faults of an allocator.
#[derive(Clone, Copy, PartialEq, Eq, Debug)]
pub enum Broken {
    /// The first bytes of a block are not what was written: the block was allocated twice.
    AllocatedTwice,
    /// Later bytes are not what was written: the block is too small, or another overlaps it.
    Overlaps,
    /// After a call of `grow`, a place does not hold what was written.
    GrowLoses,
    /// After a call of `shrink`, a place does not hold what was written.
    ShrinkLoses,
    /// Every request fails.
    GrantsNothing,
    /// A request fails that must succeed by the claims of the author.
    FailsUnexpectedly,
    /// More is allocated than the limits of the author allow.
    PastLimit,
    /// With nothing allocated, a request fails again and again that succeeded at first: freed
    /// blocks are not reused.
    NeverReuses,
    /// With nothing allocated, more bytes of the inner allocator are allocated after each part of
    /// the test run, though the same requests succeeded in each. Freed blocks are neither reused
    /// nor passed on.
    NeverPassesOn,
    /// After the drop, blocks of the inner allocator are still allocated.
    LeaksAtDrop,
    /// More blocks of the inner allocator were deallocated than were allocated.
    PassedOnTwice,
    /// A block of the inner allocator was deallocated with another size.
    OtherSize,
    /// A block of the inner allocator was deallocated with another alignment.
    OtherAlignment,
    /// A block of one of two inner allocators was deallocated to the other.
    FreedToOther,
}

/// The first fault that a test run found.
#[derive(Clone, Copy, PartialEq, Eq, Debug)]
pub struct Fault {
    /// The kind of fault.
    pub broken: Broken,
    /// Whether it was found in the clone.
    pub of_clone: bool,
    /// The seed of the run.
    pub seed: u64,
    /// The number of steps in each part of the run. With the seed it says which steps were made.
    pub steps: u64,
    /// The step, counted from 1, or 0 after the drop.
    pub step: u64,
    /// The size in bytes of an element of the block with the fault.
    pub element: usize,
    /// The number of elements of the block, or the size of the request.
    pub count: usize,
    /// The first wrong place of the block.
    pub place: usize,
    /// The number of blocks that were requested from the allocator.
    pub requests: u64,
    /// The number of these requests that it failed.
    pub failures: u64,
    /// The number of bytes that were allocated, with those of the request. If the fault shows at
    /// the inner allocator, they are those of the inner allocator.
    pub bytes: u64,
    /// The number of blocks that were allocated, likewise.
    pub blocks: u64,
}

impl Fault {
    /// Creates a fault of which only the kind is known.
    pub(crate) fn new(broken: Broken) -> Fault {
        Fault {
            broken,
            of_clone: false,
            seed: 0,
            steps: 0,
            step: 0,
            element: 1,
            count: 0,
            place: 0,
            requests: 0,
            failures: 0,
            bytes: 0,
            blocks: 0,
        }
    }
}

impl fmt::Display for Fault {
    fn fmt<W: fmt::Write>(&self, f: &mut fmt::Formatter<W>) -> fmt::Result {
        if self.of_clone {
            write!(f, "a clone, ")?;
        }
        if self.step == 0 {
            write!(f, "after the drop: ")?;
        } else {
            write!(f, "step {}: ", self.step)?;
        }
        match self.broken {
            Broken::AllocatedTwice | Broken::Overlaps | Broken::GrowLoses | Broken::ShrinkLoses => {
                self.write_block(f)
            }
            Broken::GrantsNothing
            | Broken::FailsUnexpectedly
            | Broken::PastLimit
            | Broken::NeverReuses => { self.write_request(f) }
            _ => self.write_books(f),
        }?;
        write!(f, " (seed {}, {} steps)", self.seed, self.steps)
    }
}

impl Fault {
    // Writes what is wrong with the contents of a block.
    fn write_block<W: fmt::Write>(&self, f: &mut fmt::Formatter<W>) -> fmt::Result {
        let (place, how) = match self.broken {
            Broken::AllocatedTwice => ("", "a block was allocated twice"),
            Broken::Overlaps => ("a block overlaps from place ", ""),
            Broken::GrowLoses => ("after `grow`, place ", " is lost"),
            _ => ("after `shrink`, place ", " is lost"),
        };
        if !place.is_empty() {
            write!(f, "{place}{}", self.place)?;
        }
        write!(
            f,
            "{how}: {} elements of {} bytes",
            self.count, self.element
        )
    }

    // Writes what is wrong with the result of a request.
    fn write_request<W: fmt::Write>(&self, f: &mut fmt::Formatter<W>) -> fmt::Result {
        let size = self.count;
        match self.broken {
            Broken::GrantsNothing => write!(f, "no request succeeds, ")?,
            Broken::NeverReuses => {
                let again = "freed blocks are not reused";
                write!(
                    f,
                    "{again}: a request for {size} bytes fails with nothing allocated, "
                )?;
            }
            _ => {
                let (bytes, blocks) = (self.bytes, self.blocks);
                let what = if self.broken == Broken::FailsUnexpectedly {
                    "a guaranteed request fails"
                } else {
                    "a request past the limit succeeds"
                };
                write!(
                    f,
                    "{what}: {size} bytes, with which {bytes} are allocated in {blocks} blocks, "
                )?;
            }
        }
        write!(f, "{} of {} requests failed", self.failures, self.requests)
    }

    // Writes what is wrong with the blocks that were returned to the inner allocator.
    fn write_books<W: fmt::Write>(&self, f: &mut fmt::Formatter<W>) -> fmt::Result {
        let (bytes, blocks) = (self.bytes, self.blocks);
        let text = match self.broken {
            Broken::NeverPassesOn => {
                let kept = "neither used again nor passed on";
                return write!(
                    f,
                    "freed blocks are {kept}: {bytes} bytes in {blocks} blocks"
                );
            }
            Broken::LeaksAtDrop => {
                return write!(f, "{bytes} bytes leak, in {blocks} blocks");
            }
            Broken::PassedOnTwice => "more blocks were passed on than taken",
            Broken::FreedToOther => {
                let wrong = "passed on to the wrong one of two allocators";
                return write!(f, "a block of {} bytes was {wrong}", self.count);
            }
            Broken::OtherSize => "a block was passed on with another size",
            _ => "a block was passed on with another alignment",
        };
        f.write_str(text)
    }
}
