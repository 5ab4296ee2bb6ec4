//! Ghost counters.
ghost use Rattle.std.specs.Prelude.{◌≡◌, ℕ, ◌+◌, ◌≤◌, max};
ghost use Rattle.std.specs.Mem.{type_size};
ghost use Rattle.aa_raw.specs.Growth.{usize_max};
ghost use Rattle.aa_raw.specs.Growths.{Growths, of_new, with_shrink};
ghost use base.Fml.{ftrue};

use crate::size::is_zst;
use std::marker::{Model, PhantomData};

/// A ghost counter: a natural number that only contracts see.
///
/// It is zero-sized, and its functions do nothing at run time. A collection counts by it what its
/// contracts promise of costs. Not in allocator-api2.
#[derive(Drop)]
pub struct Counter {
    mark: PhantomData<()>,
    pub ghost count: { ℕ },
}

impl Model for Counter {
    ghost also_owns = { λ _. ftrue };
}

impl Counter {
    /// Returns a counter at 0. Not in allocator-api2.
    pub fn zero() -> Counter
        ensures { result.count ≡ 0 }
    {
        Counter { mark: PhantomData }
    }

    /// Adds `_n` to the counter. Not in allocator-api2.
    pub fn add(&mut self, _n: usize)
        ensures { self.new.count ≡ self.old.count + _n }
    {}

    /// Raises the counter to `_n` if it is less. Not in allocator-api2.
    pub fn raise(&mut self, _n: usize)
        ensures { self.new.count ≡ max self.old.count _n }
    {}
}

// What the memory of a block has cost. Zero-sized, like the counters in it.
#[derive(Drop)]
pub(crate) struct GrowthCounters {
    moved: Counter,
    blocks: Counter,
    held: Counter,
}

impl Model for GrowthCounters {
    ghost Value = { Growths };

    ghost view = { λ c. record {
      moved = c.moved.count;
      blocks = c.blocks.count;
      held = c.held.count;
    } };
}

impl GrowthCounters {
    // Returns the cost of a new block of `capacity` places.
    pub(crate) fn of_new<T>(capacity: usize) -> GrowthCounters
        ensures { result ≡ of_new (type_size T.row) capacity }
    {
        let mut cost = GrowthCounters {
            moved: Counter::zero(),
            blocks: Counter::zero(),
            held: Counter::zero(),
        };
        if !is_zst::<T>() {
            cost.add_block(0, capacity);
        }
        cost
    }

    // Counts the elements that a growth moved.
    pub(crate) fn add_moved(&mut self, n: usize)
        ensures { self.new ≡ record self.old { moved = self.old.moved + n } }
    {
        self.moved.add(n);
    }

    // Counts a block of `new` places, allocated beside one of `old`.
    pub(crate) fn add_block(&mut self, old: usize, new: usize)
        requires { old + new ≤ usize_max }
        ensures { self.new ≡ with_shrink self.old old new }
    {
        if new != 0 {
            self.blocks.add(1);
        }
        self.held.raise(old + new);
    }
}
