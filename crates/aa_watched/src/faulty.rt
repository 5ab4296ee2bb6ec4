use crate::watched::{Watch, Watched};
use std::alloc::{AllocError, Allocator};
use std::cell::Cell;

/// An allocator that fails the requests of a chosen range and passes the others on to an inner one.
///
/// A test passes `&heap` to a collection, and keeps `heap` to choose the range and to read the
/// counts. A clone is an allocator of its own over a clone of the inner one. Its counts are 0, and
/// it fails no request.
pub type Faulty<B> = Watched<B, Plan>;

/// The counts of a `Faulty` allocator so far, and which requests are to fail.
///
/// A count that reaches `u64::MAX` does not change any more.
#[derive(Drop, Default)]
pub struct Plan {
    requests: Cell<u64>,
    failures: Cell<u64>,
    frees: Cell<u64>,
    outstanding: Cell<u64>,
    // Requests are numbered from 0. Those from the first number up to, but without, the second
    // fail.
    fail_from: Cell<u64>,
    fail_until: Cell<u64>,
    clones_fail: Cell<bool>,
}

impl<B: Allocator> Watched<B, Plan> {
    /// Creates an allocator over `inner` with all counts 0.
    ///
    /// It fails nothing until `fail_requests` or `fail_clones` is called. Does not allocate.
    pub fn new(inner: B) -> Faulty<B> {
        Watched::with_watch(inner, Plan::default())
    }

    /// Fails `count` requests after the next `skip` ones, and passes all others on.
    ///
    /// This replaces the range of an earlier call, so after `fail_requests(0, 0)` no request is
    /// failed. A failed request returns `AllocError`.
    pub fn fail_requests(&self, skip: u64, count: u64) {
        let plan = self.watch();
        let from = plan.requests.get().saturating_add(skip);
        plan.fail_from.set(from);
        plan.fail_until.set(from.saturating_add(count));
    }

    /// Sets whether `clone` fails from now on.
    ///
    /// With `true`, `clone` returns `Err(AllocError)`. With `false`, it clones `inner` again.
    pub fn fail_clones(&self, should_fail: bool) {
        self.watch().clones_fail.set(should_fail);
    }

    /// Returns the number of blocks that were requested so far, failed requests included.
    ///
    /// A block that grows or shrinks is requested anew.
    pub fn requests(&self) -> u64 {
        self.watch().requests.get()
    }

    /// Returns the number of requests that failed so far because of the range of `fail_requests`.
    ///
    /// Requests that `inner` failed are not counted.
    pub fn failures(&self) -> u64 {
        self.watch().failures.get()
    }

    /// Returns the number of blocks that were deallocated so far.
    ///
    /// A block that grows or shrinks is deallocated once the new one is allocated.
    pub fn frees(&self) -> u64 {
        self.watch().frees.get()
    }

    /// Returns the number of bytes in the blocks that were allocated and not yet deallocated.
    ///
    /// Once nothing is in use, this is the number of bytes that leaked.
    pub fn outstanding(&self) -> u64 {
        self.watch().outstanding.get()
    }
}

impl Watch for Plan {
    fn should_fail(&self, _size: usize, _align: usize) -> bool {
        let number = self.requests.get();
        self.requests.set(number.saturating_add(1));
        let fails = self.fail_from.get() <= number && number < self.fail_until.get();
        if fails {
            self.failures.set(self.failures.get().saturating_add(1));
        }
        fails
    }

    fn on_allocate(&self, size: usize, _align: usize) {
        self.outstanding
            .set(self.outstanding.get().saturating_add(size as u64));
    }

    fn on_failure(&self, _size: usize, _align: usize) {}

    fn on_deallocate(&self, size: usize, _align: usize) {
        self.frees.set(self.frees.get().saturating_add(1));
        self.outstanding
            .set(self.outstanding.get().saturating_sub(size as u64));
    }
}

/// Returns a plan with all counts 0 that fails nothing.
///
/// # Errors
/// `AllocError` after `fail_clones(true)`.
impl Clone for Plan {
    fn clone(&self) -> Result<Plan, AllocError> {
        if self.clones_fail.get() {
            return Err(AllocError);
        }
        Ok(Plan::default())
    }
}
