use crate::config::Config;
use std::fmt;

/// How near a test run came to each claim.
///
/// Compare each with the claim of the same name in `Config`. A number far below its claim means
/// that the claim was not tested.
#[derive(Clone, Copy, PartialEq, Eq, Debug, Default)]
pub struct Reach {
    /// The largest number of bytes that were allocated at once.
    pub bytes: usize,
    /// The largest number of blocks that were allocated at once.
    pub blocks: usize,
    /// The size in bytes of the largest request that succeeded.
    pub size: usize,
    /// The size in bytes of the largest request that had to succeed.
    pub guaranteed_size: usize,
    /// The largest number of bytes that were allocated with a request that had to succeed.
    pub guaranteed_bytes: usize,
}

impl Reach {
    /// Returns the larger of each number.
    pub(crate) fn max(self, other: Reach) -> Reach {
        Reach {
            bytes: self.bytes.max(other.bytes),
            blocks: self.blocks.max(other.blocks),
            size: self.size.max(other.size),
            guaranteed_size: self.guaranteed_size.max(other.guaranteed_size),
            guaranteed_bytes: self.guaranteed_bytes.max(other.guaranteed_bytes),
        }
    }
}

/// The counts of a test run without a fault.
#[derive(Clone, Copy, PartialEq, Eq, Debug)]
pub struct Report {
    /// The configuration, with the claims.
    pub config: Config,
    /// The number of steps.
    pub steps: u64,
    /// The number of blocks that were requested, except by `grow` and `shrink`.
    pub requests: u64,
    /// The number of these requests that the test run itself failed. They never reached the
    /// allocator.
    pub injected_failures: u64,
    /// The number of requests that the allocator failed.
    pub failures: u64,
    /// The number of blocks that were deallocated.
    pub frees: u64,
    /// The largest number of bytes of the inner allocator that were allocated while nothing was in
    /// use.
    pub kept: u64,
    /// How near the run came to each claim.
    pub reach: Reach,
}

impl Report {
    /// Returns the sums of the counts of two runs, and the larger of what they reached.
    pub(crate) fn and(self, other: Report) -> Report {
        Report {
            config: self.config,
            steps: self.steps.saturating_add(other.steps),
            requests: self.requests.saturating_add(other.requests),
            injected_failures: self
                .injected_failures
                .saturating_add(other.injected_failures),
            failures: self.failures.saturating_add(other.failures),
            frees: self.frees.saturating_add(other.frees),
            kept: self.kept.max(other.kept),
            reach: self.reach.max(other.reach),
        }
    }
}

// Writes what was reached of a claim.
fn write_reached<W: fmt::Write>(
    f: &mut fmt::Formatter<W>,
    name: &str,
    reached: usize,
    claim: usize,
) -> fmt::Result {
    if claim == usize::MAX {
        writeln!(f, "{name}: {reached}, no claim")
    } else {
        writeln!(f, "{name}: {reached} of {claim}")
    }
}

impl fmt::Display for Report {
    fn fmt<W: fmt::Write>(&self, f: &mut fmt::Formatter<W>) -> fmt::Result {
        let Report {
            steps,
            requests,
            injected_failures,
            failures,
            ..
        } = *self;
        writeln!(
            f,
            "{steps} steps, {requests} requests, of which the test run failed {injected_failures} and the allocator {failures}"
        )?;
        let (reach, config) = (self.reach, self.config);
        write_reached(f, "bytes at once", reach.bytes, config.bytes)?;
        write_reached(f, "blocks at once", reach.blocks, config.blocks)?;
        let size = reach.guaranteed_size;
        write_reached(f, "guaranteed size", size, config.guaranteed_size)?;
        let bytes = reach.guaranteed_bytes;
        write_reached(f, "guaranteed bytes", bytes, config.guaranteed_bytes)?;
        write!(f, "the largest request that succeeded: {}", reach.size)
    }
}
