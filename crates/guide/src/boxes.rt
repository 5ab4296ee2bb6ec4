//! One value in a box, and boxed slices.
ghost use Rattle.std.specs.Prelude.{◌≡◌, ◌+◌, ◌<◌, ◌^◌, IfErr, IfOk};

use allocator_api2::boxed::{Box, BoxedSlice, UninitBox};
use allocator_api2::collections::{Refused, TryReserveError};
use allocator_api2::vec::{SliceIntoVec, Vec};
use std::alloc::{AllocError, Allocator};

/// Returns a value in a box.
///
/// # Errors
/// If the allocation fails, the value is dropped.
pub fn boxed<A: Allocator>(alloc: A, x: u64) -> Result<Box<u64, A>, AllocError>
    ensures { IfOk result (λ b. b.value ≡ x) }
{
    Box::new_in(x, alloc)
}

/// Returns `x` in a box, or `x` itself if the allocation fails.
///
/// Allocates the box before the value is moved.
pub fn boxed_or_returned<T, A: Allocator>(alloc: A, x: T) -> Result<Box<T, A>, T>
    ensures made { IfOk result (λ b. b.value ≡ x) }
    ensures returned { IfErr result (λ y. y ≡ x) }
{
    let made: Result<UninitBox<T, A>, AllocError> = Box::new_uninit_in(alloc);
    match made {
        Ok(place) => Ok(UninitBox::write(place, x)),
        Err(_) => Err(x),
    }
}

/// Adds one to the value in the box.
pub fn increment<A: Allocator>(b: &mut Box<u64, A>)
    requires { b.old.value + 1 < 2 ^ 64 }
    ensures { b.new.value ≡ b.old.value + 1 }
{
    **b += 1;
}

/// Converts the vector into a boxed slice, without spare capacity.
///
/// # Errors
/// If the allocation fails, the vector is returned in the error.
pub fn freeze<A: Allocator>(v: Vec<u64, A>) -> Result<BoxedSlice<u64, A>, Refused<Vec<u64, A>>>
    ensures same { IfOk result (λ b. b.items ≡ v.items) }
    ensures returned { IfErr result (λ r. r.source ≡ v) }
{
    v.into_boxed_slice()
}

/// Converts the boxed slice back into a vector, without an allocation.
pub fn thaw<A: Allocator>(b: BoxedSlice<u64, A>) -> Vec<u64, A>
    ensures same { result.items ≡ b.items }
    ensures grown { result.grown ≡ b.grown }
{
    b.into_vec()
}

/// Returns a second box with the same value.
///
/// # Errors
/// If the allocation fails, or the clone of the allocator.
pub fn duplicated<A: Allocator + Clone>(b: &Box<u64, A>) -> Result<Box<u64, A>, AllocError>
    ensures { IfOk result (λ c. c.value ≡ b.now.value) }
{
    b.clone()
}

/// Returns a second slice with the same elements.
///
/// # Errors
/// If the allocation fails, or the clone of the allocator.
pub fn duplicated_all<A: Allocator + Clone>(
    b: &BoxedSlice<u64, A>,
) -> Result<BoxedSlice<u64, A>, TryReserveError>
    ensures { IfOk result (λ c. c.items ≡ b.now.items) }
{
    b.clone()
}

/// Returns the elements as a boxed array of three.
///
/// # Errors
/// If there are not three, or the allocation fails, the slice is returned unchanged.
pub fn three<A: Allocator + Clone>(
    b: BoxedSlice<u64, A>,
) -> Result<Box<[u64; 3], A>, BoxedSlice<u64, A>>
    ensures made { IfOk result (λ a. a.value ≡ b.items) }
    ensures returned { IfErr result (λ c. c.items ≡ b.items) }
{
    b.try_into_array::<3>()
}
