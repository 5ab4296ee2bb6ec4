//! Copies of slices, a place that is allocated before its value, and numbers of requests.
ghost use Rattle.std.specs.Prelude.{◌≡◌, ◌*◌, [], ◌∷◌, length, IfErr, IfOk, IsSome, None, Some};
ghost use Rattle.std.specs.List.{repeat};
ghost use Rattle.allocator_api2.specs.Errors.{error_for};
ghost use Rattle.allocator_api2.specs.Slices.{CopiesFail};

use allocator_api2::collections::TryReserveError;
use allocator_api2::raw_box::RawBox;
use allocator_api2::raw_vec::RawVec;
use allocator_api2::slice::{Repeat, SliceExt};
use allocator_api2::vec::Vec;
use std::alloc::{AllocError, Allocator};

/// Returns a copy of the numbers, without spare capacity.
///
/// # Errors
/// `AllocError` with their number, or `CapacityOverflow`, if the allocation fails.
pub fn copy_of<A: Allocator>(xs: &[u64], alloc: A) -> Result<Vec<u64, A>, TryReserveError>
    ensures same { IfOk result (λ v. v.items ≡ xs.now) }
    ensures exact { IfOk result (λ v. v.capacity ≡ length xs.now) }
    ensures error { IfErr result (λ e. e ≡ error_for 8 (length xs.now)) }
{
    xs.to_vec_in(alloc)
}

/// Returns the bytes of a rule, `-.` as often as `n` says.
pub fn rule<A: Allocator>(n: usize, alloc: A) -> Result<Vec<u8, A>, TryReserveError>
    ensures made { IfOk result (λ v. v.items ≡ repeat n (45 ∷ 46 ∷ [])) }
    ensures error { IfErr result (CopiesFail 1 (n * 2)) }
{
    u8::repeat_in(b"-.", n, alloc)
}

/// Returns a place that holds `x`.
pub fn place_with<A: Allocator>(x: u64, alloc: A) -> Result<RawBox<u64, A>, AllocError>
    ensures { IfOk result (λ place. place.place ≡ Some x) }
{
    let mut place = RawBox::allocate_in(alloc)?;
    place.put(x);
    Ok(place)
}

/// Takes the number out of a place, and returns it with the memory, to be used as a block.
pub fn taken_out<A: Allocator>(place: RawBox<u64, A>) -> (u64, RawVec<u64, A>)
    requires { IsSome place.place }
    ensures taken { place.place ≡ Some result.0 }
    ensures empty { result.1.places ≡ None ∷ [] }
{
    let mut emptied = place;
    let x = emptied.take();
    (x, emptied.into_raw_vec())
}

/// Returns the error of a collection that could not allocate `count` numbers for itself.
pub fn error_for_numbers(count: usize) -> TryReserveError
    ensures { result ≡ error_for 8 count }
{
    TryReserveError::for_capacity::<u64>(count)
}
