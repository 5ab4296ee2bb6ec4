ghost use Rattle.std.specs.Prelude.{◌≤◌};

mod calls;

/// A limit on the bytes that are allocated at once, and how many are.
///
/// A plain value. A `Purse` keeps these numbers in a cell.
#[derive(Clone, Copy, PartialEq, Eq, Debug)]
pub struct Ledger {
    limit: usize,
    allocated: usize,
    most: usize,
    ghost recorded: { allocated ≤ most },
    ghost bounded: { most ≤ limit },
}
