/// The configuration of a test run, with what the author claims of the allocator.
#[derive(Clone, Copy, PartialEq, Eq, Debug)]
pub struct Config {
    /// The seed of the random steps. The same seed makes the same steps.
    pub seed: u64,
    /// The number of steps in each part of a test run.
    pub steps: u64,
    /// A request of at most so many bytes must succeed ..
    pub guaranteed_size: usize,
    /// .. if no more than so many bytes are allocated with it, and the limits below are kept. If
    /// this is 0, no request must succeed, not even one of no bytes.
    pub guaranteed_bytes: usize,
    /// The maximum number of bytes that are ever allocated at once.
    pub bytes: usize,
    /// The maximum number of blocks that are ever allocated at once.
    pub blocks: usize,
}

impl Config {
    /// Creates a configuration with the weakest claims.
    ///
    /// A request of up to 16 bytes must succeed while nothing is allocated. There is no limit.
    pub fn new(seed: u64, steps: u64) -> Config {
        Config {
            seed,
            steps,
            guaranteed_size: 16,
            guaranteed_bytes: 16,
            bytes: usize::MAX,
            blocks: usize::MAX,
        }
    }

    /// Returns whether these bytes and blocks are within the limits.
    pub(crate) fn allows(&self, bytes: usize, blocks: usize) -> bool {
        bytes <= self.bytes && blocks <= self.blocks
    }

    /// Returns whether a request for `size` bytes must succeed, if with it `bytes` bytes are
    /// allocated, in `blocks` blocks.
    pub(crate) fn promises(&self, size: usize, bytes: usize, blocks: usize) -> bool {
        size <= self.guaranteed_size
            && bytes.max(1) <= self.guaranteed_bytes
            && self.allows(bytes, blocks)
    }
}
