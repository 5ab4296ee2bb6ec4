ghost use Rattle.std.specs.Prelude.{◌≡◌, ℕ, ◌<◌, ◌≤◌, IsTrue};
ghost use Rattle.aa_watched.specs.Ledgers.{account_of};

use crate::ledger::Ledger;
use crate::noted::Noted;
use crate::watched::{Watch, Watched};
use std::alloc::{AllocError, Allocator};
use std::marker::Model;

/// An allocator that limits the number of bytes that are allocated at once from an inner one.
///
/// Freed bytes can be allocated again. An allocation past the limit returns an error. A collection
/// over `&budget` returns this error to its caller, which can free memory and continue.
pub type Budget<B> = Watched<B, Purse>;

impl<B: Allocator> Watched<B, Purse> {
    /// Creates an allocator over `inner` that never has more than `limit` bytes allocated.
    ///
    /// Does not allocate.
    pub fn new(inner: B, limit: usize) -> Budget<B> {
        Watched::with_watch(inner, Purse::new(limit))
    }
}

/// The limit of a `Budget`, and the number of bytes that are allocated.
///
/// The model of a purse is its limit. The numbers are read and changed as a `Ledger`.
#[derive(Drop)]
pub struct Purse {
    noted: Noted,
}

impl Model for Purse {
    ghost Value = { ℕ };

    ghost view = { λ purse. purse.noted };
}

impl Purse {
    /// Creates a purse of `limit` bytes, of which none is allocated.
    pub fn new(limit: usize) -> Purse
        ensures { result ≡ limit }
    {
        Purse {
            noted: Noted::new(limit),
        }
    }

    /// Returns the limit, the number of bytes that are allocated, and the most that ever were.
    ///
    /// These numbers are of one moment, so `allocated() <= most() <= limit()`.
    pub fn ledger(&self) -> Ledger
        ensures { (account_of result).limit ≡ self.now }
    {
        let numbers = self.noted.get();
        Ledger::with_numbers(numbers.limit, numbers.allocated, numbers.most)
    }

    // Replaces the numbers, except for the limit.
    fn set(&self, ledger: Ledger)
        requires { (account_of ledger).limit ≡ self.now }
    {
        self.noted.set(ledger.allocated(), ledger.most());
    }

    /// Returns the maximum number of bytes that may be allocated at once.
    pub fn limit(&self) -> usize
        ensures { result ≡ self.now }
    {
        self.ledger().limit()
    }

    /// Returns the number of bytes that are allocated.
    pub fn granted(&self) -> usize
        ensures { result ≤ self.now }
    {
        self.ledger().allocated()
    }

    /// Returns the number of bytes that may still be allocated.
    pub fn remaining(&self) -> usize
        ensures { result ≤ self.now }
    {
        self.ledger().remaining()
    }

    /// Returns the largest number of bytes that were ever allocated at once.
    pub fn most(&self) -> usize
        ensures { result ≤ self.now }
    {
        self.ledger().most()
    }
}

impl Watch for Purse {
    fn should_fail(&self, size: usize, _align: usize) -> bool
        ensures past { self.now < size → IsTrue result }
        ensures none { IsTrue result → 0 < size }
    {
        !self.ledger().allows(size)
    }

    fn on_allocate(&self, size: usize, _align: usize) {
        let mut ledger = self.ledger();
        ledger.allocate(size);
        self.set(ledger);
    }

    fn on_failure(&self, _size: usize, _align: usize) {}

    fn on_deallocate(&self, size: usize, _align: usize) {
        let mut ledger = self.ledger();
        ledger.deallocate(size);
        self.set(ledger);
    }
}

/// Returns a purse with the same limit, of which no byte is allocated.
impl Clone for Purse {
    ghost is_clone = { λ purse twin. twin ≡ purse };

    fn clone(&self) -> Result<Purse, AllocError> {
        Ok(Purse::new(self.limit()))
    }
}
