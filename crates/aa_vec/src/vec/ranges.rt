//! Ranges of a vector, as calls take them.
ghost use Rattle.std.specs.Prelude.{◌≡◌};
ghost use Rattle.aa_vec.specs.Vector.{len};
ghost use Rattle.aa_vec.specs.Ranges.{IsRangeOf};

use crate::vec::Vec;
use std::alloc::Allocator;
use std_alloc::part::SliceRange;

impl<T, A: Allocator> Vec<T, A> {
    // Returns the first index of a range of the vector, and the index after its last.
    #[inline(always)]
    pub(crate) fn bounds_of<R: SliceRange>(&self, range: R) -> (usize, usize)
        requires { IsRangeOf R.SliceRange range (len self.now) }
        ensures { result ≡ (R.start range, R.end range (len self.now)) }
    {
        range.within(self.len())
    }
}
