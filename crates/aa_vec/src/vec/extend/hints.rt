//! How far a reported number of elements is trusted.
ghost use Rattle.std.specs.Prelude.{◌≡◌, min, unwrap_or};

use std::cmp;

/// Returns the initial capacity for a reported number of elements.
///
/// That is `hint`, but at most 4,096, and 0 for `None`. Corresponds to allocator-api2's `cautious`.
pub fn cautious(hint: Option<usize>) -> usize
    ensures { result ≡ min (unwrap_or hint 0) 4096 }
{
    cmp::min(hint.unwrap_or(0), 4096)
}
