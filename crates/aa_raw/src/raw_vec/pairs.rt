//! Two values of a block at once.
ghost use Rattle.std.specs.Prelude.{◌≡◌, ◌≢◌, get_or, Some, None};
ghost use Rattle.std.specs.Fn.{CalledAtPairMut};
ghost use Rattle.aa_raw.specs.Places.{IsFilled};
ghost use Rattle.aa_raw.specs.Closures.{CallableAtPairMut, CalledAtPlaces};

use super::RawVec;
use std::alloc::Allocator;

#[tactic(auto, using(crate::proofs::Reserving::after_calls))]
impl<T, A: Allocator> RawVec<T, A> {
    /// Calls `f` once with mutable references to the values in two different filled places, and
    /// returns its result.
    ///
    /// What `f` leaves of the values is in their places afterwards. Nothing is counted as written.
    /// Not in allocator-api2.
    #[inline(always)]
    pub fn pair_with<R, F: FnMut(&mut T, &mut T) -> R>(
        &mut self,
        i: usize,
        j: usize,
        f: &mut F,
    ) -> R
        requires filled { IsFilled self.old.places i × IsFilled self.old.places j × (i ≢ j) }
        requires callable { (x y : T) → get_or self.old.places i None ≡ Some x
            → get_or self.old.places j None ≡ Some y → CallableAtPairMut F.FnMut f.old x y }
        ensures { CalledAtPlaces (CalledAtPairMut F.FnMut)
            f.old self.old i j result f.new self.new }
    {
        let mut x = self.row.read(i);
        let mut y = self.row.read(j);
        let returned = call_at_one_lifetime(f, &mut x, &mut y);
        self.row.write(i, x);
        self.row.write(j, y);
        returned
    }
}

// Calls `f` with two references of one lifetime, which the borrow checker's proof needs.
#[inline(always)]
fn call_at_one_lifetime<'a, T, R, F: FnMut(&mut T, &mut T) -> R>(
    f: &mut F,
    x: &'a mut T,
    y: &'a mut T,
) -> R
    requires { CallableAtPairMut F.FnMut f.old x.old y.old }
    ensures { CalledAtPairMut F.FnMut f.old x.old y.old result f.new x.new y.new }
{
    f(x, y)
}
