ghost use Rattle.std.specs.Prelude.{◌≡◌, ◌<◌, ◌≤◌, MatchBool};
ghost use Rattle.aa_watched.specs.Cells.{IsWithin};
ghost use Rattle.aa_watched.specs.Ledgers.{account_of, new_account, remaining_of};
ghost use Rattle.aa_watched.specs.Ledgers.{with_allocated, with_deallocated};

use super::Ledger;

impl Ledger {
    /// Creates a ledger of `limit` bytes, of which none is allocated.
    pub fn new(limit: usize) -> Ledger
        ensures { account_of result ≡ new_account limit }
    {
        Ledger {
            limit,
            allocated: 0,
            most: 0,
        }
    }

    // Creates a ledger of these numbers.
    pub(crate) fn with_numbers(limit: usize, allocated: usize, most: usize) -> Ledger
        requires { IsWithin limit allocated most }
        ensures { account_of result
            ≡ record { limit = limit; allocated = allocated; most = most } }
    {
        Ledger {
            limit,
            allocated,
            most,
        }
    }

    /// Returns the maximum number of bytes that may be allocated at once.
    pub fn limit(self) -> usize
        ensures { result ≡ self.limit }
    {
        self.limit
    }

    /// Returns the number of bytes that are allocated.
    pub fn allocated(self) -> usize
        ensures { result ≡ self.allocated }
    {
        self.allocated
    }

    /// Returns the largest number of bytes that were ever allocated at once.
    pub fn most(self) -> usize
        ensures { result ≡ self.most }
    {
        self.most
    }

    /// Returns the number of bytes that may still be allocated.
    pub fn remaining(self) -> usize
        ensures { result ≡ remaining_of (account_of self) }
    {
        self.limit - self.allocated
    }

    /// Returns whether `size` bytes may still be allocated.
    pub fn allows(self, size: usize) -> bool
        ensures { MatchBool result (size ≤ remaining_of (account_of self))
            (remaining_of (account_of self) < size) }
    {
        size <= self.remaining()
    }

    /// Allocates `size` bytes, if so many remain, and returns whether it did.
    ///
    /// If it returns `false`, the ledger is unchanged.
    pub fn allocate(&mut self, size: usize) -> bool
        ensures fits { MatchBool result (size ≤ remaining_of (account_of self.old))
            (remaining_of (account_of self.old) < size) }
        ensures account { MatchBool result
            (account_of self.new ≡ with_allocated (account_of self.old) size)
            (self.new ≡ self.old) }
    {
        if !self.allows(size) {
            return false;
        }
        self.allocated += size;
        self.most = self.most.max(self.allocated);
        true
    }

    /// Deallocates `size` bytes, or all that are allocated, if that is fewer.
    pub fn deallocate(&mut self, size: usize)
        ensures { account_of self.new ≡ with_deallocated (account_of self.old) size }
    {
        self.allocated = self.allocated.saturating_sub(size);
    }
}
