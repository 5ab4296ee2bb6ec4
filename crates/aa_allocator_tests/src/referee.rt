use crate::below::{Ledgers, spread};
use crate::config::Config;
use crate::reach::Reach;
use aa_watched::watched::{Watch, Watched};
use std::cell::Cell;

/// An allocator under test, with a referee in front of it.
pub(crate) type Refereed<'a, A> = Watched<&'a A, Referee<'a>>;

/// A request at which a claim does not hold.
#[derive(Clone, Copy)]
pub(crate) struct Breach {
    pub step: u64,
    /// The number of bytes that were requested.
    pub size: usize,
    /// The number of bytes that would be allocated with them.
    pub bytes: usize,
    /// The number of blocks that would be allocated with this one.
    pub blocks: usize,
}

/// A watch that fails the requests of a chosen range, counts, and checks the claims of the author.
#[derive(Drop)]
pub(crate) struct Referee<'a> {
    config: Config,
    // The counts of the inner allocators.
    below: Ledgers<'a>,
    step: Cell<u64>,
    requests: Requests,
    outcomes: Outcomes,
    out: Out,
    denied: Cell<Option<Breach>>,
    passed: Cell<Option<Breach>>,
    reach: Cell<Reach>,
}

// The number of requests, and which of them are to fail.
#[derive(Drop, Default)]
struct Requests {
    number: Cell<u64>,
    // Requests from the first number up to, but without, the second fail.
    from: Cell<u64>,
    until: Cell<u64>,
    injected_failures: Cell<u64>,
    // The number of requests that the inner allocator had failed when the last one was made.
    failed_before: Cell<u64>,
}

// The counts of the allocator.
#[derive(Drop, Default)]
struct Outcomes {
    granted: Cell<u64>,
    failures: Cell<u64>,
    // The number of failed requests that the inner allocator failed.
    failed_below: Cell<u64>,
    frees: Cell<u64>,
    // A hash of all requests and their results since the part began.
    results: Cell<u64>,
}

// The bytes and blocks that are allocated.
#[derive(Drop, Default)]
struct Out {
    bytes: Cell<usize>,
    blocks: Cell<usize>,
}

impl<'a> Referee<'a> {
    /// Creates a referee before the first step, over the counts of the inner allocators.
    pub(crate) fn new(config: Config, below: Ledgers<'a>) -> Referee<'a> {
        Referee {
            config,
            below,
            step: Cell::new(0),
            requests: Requests::default(),
            outcomes: Outcomes::default(),
            out: Out::default(),
            denied: Cell::new(None),
            passed: Cell::new(None),
            reach: Cell::new(Reach::default()),
        }
    }

    /// Begins the next step.
    pub(crate) fn next_step(&self) {
        self.step.set(self.step.get().saturating_add(1));
    }

    /// Returns the step, counted from 1, or 0 before the first.
    pub(crate) fn step(&self) -> u64 {
        self.step.get()
    }

    /// Fails `count` requests after the next `skip` ones.
    ///
    /// This replaces the range of an earlier call.
    pub(crate) fn inject_failures(&self, skip: u64, count: u64) {
        let from = self.requests.number.get().saturating_add(skip);
        self.requests.from.set(from);
        self.requests.until.set(from.saturating_add(count));
    }

    /// Returns the number of requests, including those that never reached the allocator.
    pub(crate) fn requests(&self) -> u64 {
        self.requests.number.get()
    }

    /// Returns the number of these requests that never reached the allocator.
    pub(crate) fn injected_failures(&self) -> u64 {
        self.requests.injected_failures.get()
    }

    /// Returns the number of these requests that succeeded.
    pub(crate) fn granted(&self) -> u64 {
        self.outcomes.granted.get()
    }

    /// Returns the number of these requests that the allocator failed.
    pub(crate) fn failures(&self) -> u64 {
        self.outcomes.failures.get()
    }

    /// Returns the number of these requests that the inner allocator failed.
    pub(crate) fn failed_below(&self) -> u64 {
        self.outcomes.failed_below.get()
    }

    /// Begins a part.
    pub(crate) fn next_part(&self) {
        self.outcomes.results.set(0);
    }

    /// Adds a result to the hash of the part.
    pub(crate) fn add_result(&self, outcome: u64) {
        let results = self.outcomes.results.get();
        self.outcomes
            .results
            .set(spread(results.wrapping_add(outcome)));
    }

    /// Returns a hash of all requests and their results since the part began.
    ///
    /// In two parts with the same hash, the same requests succeeded and failed.
    pub(crate) fn results(&self) -> u64 {
        self.outcomes.results.get()
    }

    /// Returns the number of blocks that were deallocated.
    pub(crate) fn frees(&self) -> u64 {
        self.outcomes.frees.get()
    }

    /// Returns the number of bytes that are allocated.
    pub(crate) fn bytes(&self) -> usize {
        self.out.bytes.get()
    }

    /// Returns the first request that had to succeed and failed, though not in the inner allocator.
    pub(crate) fn denied(&self) -> Option<Breach> {
        self.denied.get()
    }

    /// Returns the first request that succeeded past a limit.
    pub(crate) fn passed(&self) -> Option<Breach> {
        self.passed.get()
    }

    /// Returns the counts of the inner allocators.
    pub(crate) fn below(&self) -> Ledgers<'a> {
        self.below
    }

    /// Returns how near the run came to each claim.
    pub(crate) fn reach(&self) -> Reach {
        self.reach.get()
    }

    /// Checks that the blocks of vectors that grow and shrink are within the limits.
    pub(crate) fn check_held(&self, bytes: usize, blocks: usize) {
        if self.passed.get().is_none() && !self.config.allows(bytes, blocks) {
            self.passed.set(Some(Breach {
                step: self.step.get(),
                size: bytes,
                bytes,
                blocks,
            }));
        }
    }

    // Adds a request that succeeded to what was reached.
    fn add_to_reach(&self, with: Breach) {
        let Breach {
            step: _,
            size,
            bytes,
            blocks,
        } = with;
        let is_guaranteed = self.config.promises(size, bytes, blocks);
        self.reach.set(
            self.reach.get().max(Reach {
                bytes,
                blocks,
                size,
                guaranteed_size: if is_guaranteed { size } else { 0 },
                guaranteed_bytes: if is_guaranteed { bytes } else { 0 },
            }),
        );
    }

    // Returns the bytes and blocks that would be allocated with a request of `size` bytes.
    fn with(&self, size: usize) -> Breach {
        Breach {
            step: self.step.get(),
            size,
            bytes: self.out.bytes.get().saturating_add(size),
            blocks: self.out.blocks.get().saturating_add(1),
        }
    }
}

impl Watch for Referee<'_> {
    fn should_fail(&self, _size: usize, _align: usize) -> bool {
        let number = self.requests.number.get();
        self.requests.number.set(number.saturating_add(1));
        self.requests.failed_before.set(self.below.failures());
        let away = self.requests.from.get() <= number && number < self.requests.until.get();
        if away {
            self.requests
                .injected_failures
                .set(self.requests.injected_failures.get().saturating_add(1));
        }
        away
    }

    fn on_allocate(&self, size: usize, _align: usize) {
        self.outcomes
            .granted
            .set(self.outcomes.granted.get().saturating_add(1));
        self.add_result(spread(size as u64));
        let with = self.with(size);
        self.out.bytes.set(with.bytes);
        self.out.blocks.set(with.blocks);
        self.add_to_reach(with);
        if self.passed.get().is_none() && !self.config.allows(with.bytes, with.blocks) {
            self.passed.set(Some(with));
        }
    }

    fn on_failure(&self, size: usize, _align: usize) {
        self.outcomes
            .failures
            .set(self.outcomes.failures.get().saturating_add(1));
        self.add_result(size as u64);
        if self.below.failures() > self.requests.failed_before.get() {
            let failed = self.outcomes.failed_below.get();
            self.outcomes.failed_below.set(failed.saturating_add(1));
            return;
        }
        let with = self.with(size);
        if self.denied.get().is_none() && self.config.promises(size, with.bytes, with.blocks) {
            self.denied.set(Some(with));
        }
    }

    fn on_deallocate(&self, size: usize, _align: usize) {
        self.outcomes
            .frees
            .set(self.outcomes.frees.get().saturating_add(1));
        self.out
            .bytes
            .set(self.out.bytes.get().saturating_sub(size));
        self.out.blocks.set(self.out.blocks.get().saturating_sub(1));
    }
}
