//! Vectors of copies of the elements of a slice.
ghost use Rattle.std.specs.Prelude.{◌≡◌, ◌*◌, ◌<◌, ◌≤◌, ◌++◌, List, [], length, take, All, IfOk, IfErr};
ghost use Rattle.std.specs.List.{repeat};
ghost use Rattle.std.specs.Mem.{type_size};
ghost use Rattle.aa_raw.specs.Errors.{ClonesFail};
ghost use Rattle.aa_raw.specs.declared.raw_vec.Growth.TheVariants.{Doubling};
ghost use Rattle.aa_vec.specs.Vector.{len, new_capacity, HasRoom, Holds};
ghost use Rattle.aa_vec.specs.Copies.{ClonesAreEqual, IsMade, IsMadeOf, IsMadeWithin, WritesAtMost};
ghost use Rattle.allocator_api2.specs.Slices.{CopiesFail};

use aa_raw::collections::{TryReserveError, TryReserveErrorKind};
use aa_vec::vec::Vec;
use std::alloc::{Allocator, Global};

/// Conversions of a slice to vectors of this library, implemented for `&[T]`.
///
/// Each method has a second name that ends in 2, for places where a method call would resolve to
/// one of the standard library.
pub trait SliceExt<T> {
    /// The elements of the slice.
    ghost elements: { Self → List T };

    /// Returns a vector of a clone of each element, allocated with the global allocator.
    ///
    /// The vector has the exact capacity. Allocates before the first clone, unless the slice is
    /// empty or the elements are zero-sized. The original aborts if the allocation fails.
    ///
    /// # Errors
    /// As for `to_vec_in2`.
    fn to_vec(&self, alloc: Global) -> Result<Vec<T, Global>, TryReserveError>
    where
        T: Clone,
        ensures made { let xs = elements self.now in
            IfOk result (λ v. IsMadeOf T.is_clone (type_size T.row) Doubling xs v) }
        ensures alloc { IfOk result (λ v. v.alloc ≡ alloc) }
        ensures copied { let xs = elements self.now in
            ClonesAreEqual T.is_clone
            → IfOk result (IsMade (type_size T.row) (length xs) Doubling xs (length xs)) }
        ensures error { let xs = elements self.now in
            IfErr result (ClonesFail (All T.is_infallible xs) (length xs) (type_size T.row)) };

    /// Same as `to_vec`.
    fn to_vec2(&self, alloc: Global) -> Result<Vec<T, Global>, TryReserveError>
    where
        T: Clone,
        ensures made { let xs = elements self.now in
            IfOk result (λ v. IsMadeOf T.is_clone (type_size T.row) Doubling xs v) }
        ensures alloc { IfOk result (λ v. v.alloc ≡ alloc) }
        ensures copied { let xs = elements self.now in
            ClonesAreEqual T.is_clone
            → IfOk result (IsMade (type_size T.row) (length xs) Doubling xs (length xs)) }
        ensures error { let xs = elements self.now in
            IfErr result (ClonesFail (All T.is_infallible xs) (length xs) (type_size T.row)) };

    /// Same as `to_vec_in2`. The original aborts if the allocation fails.
    fn to_vec_in<A: Allocator>(&self, alloc: A) -> Result<Vec<T, A>, TryReserveError>
    where
        T: Clone,
        ensures made { let xs = elements self.now in
            IfOk result (λ v. IsMadeOf T.is_clone (type_size T.row) Doubling xs v) }
        ensures alloc { IfOk result (λ v. v.alloc ≡ alloc) }
        ensures copied { let xs = elements self.now in
            ClonesAreEqual T.is_clone
            → IfOk result (IsMade (type_size T.row) (length xs) Doubling xs (length xs)) }
        ensures error { let xs = elements self.now in
            IfErr result (ClonesFail (All T.is_infallible xs) (length xs) (type_size T.row)) };

    /// Returns a vector of a clone of each element, allocated with `alloc`.
    ///
    /// The vector has the exact capacity. Allocates before the first clone, unless the slice is
    /// empty or the elements are zero-sized. The original aborts if the allocation fails.
    ///
    /// # Errors
    /// `CapacityOverflow`, or `AllocError` with the number of elements, if the allocation or a
    /// clone fails. No vector is returned then.
    fn to_vec_in2<A: Allocator>(&self, alloc: A) -> Result<Vec<T, A>, TryReserveError>
    where
        T: Clone,
        ensures made { let xs = elements self.now in
            IfOk result (λ v. IsMadeOf T.is_clone (type_size T.row) Doubling xs v) }
        ensures alloc { IfOk result (λ v. v.alloc ≡ alloc) }
        ensures copied { let xs = elements self.now in
            ClonesAreEqual T.is_clone
            → IfOk result (IsMade (type_size T.row) (length xs) Doubling xs (length xs)) }
        ensures error { let xs = elements self.now in
            IfErr result (ClonesFail (All T.is_infallible xs) (length xs) (type_size T.row)) };

    /// Returns a vector that repeats the elements `n` times, in order, allocated with the global
    /// allocator.
    ///
    /// The vector has the exact capacity. Allocates unless it is empty or the elements are
    /// zero-sized. The original aborts if the allocation fails.
    ///
    /// # Errors
    /// `CapacityOverflow`, always if the length of the vector would exceed `usize::MAX`; else also
    /// `AllocError` with this length, if the allocation fails.
    fn repeat(&self, alloc: Global, n: usize) -> Result<Vec<T, Global>, TryReserveError>
    where
        T: Repeat,
        ensures made { IfOk result
            (λ v. IsMadeWithin (type_size T.row) Doubling (repeat n (elements self.now)) v) }
        ensures alloc { IfOk result (λ v. v.alloc ≡ alloc) }
        ensures capacity { IfOk result
            (λ v. v.capacity ≡ new_capacity (type_size T.row) (n * length (elements self.now))) }
        ensures error { IfErr result
            (CopiesFail (type_size T.row) (n * length (elements self.now))) };

    /// Same as `repeat`.
    fn repeat2(&self, alloc: Global, n: usize) -> Result<Vec<T, Global>, TryReserveError>
    where
        T: Repeat,
        ensures made { IfOk result
            (λ v. IsMadeWithin (type_size T.row) Doubling (repeat n (elements self.now)) v) }
        ensures alloc { IfOk result (λ v. v.alloc ≡ alloc) }
        ensures capacity { IfOk result
            (λ v. v.capacity ≡ new_capacity (type_size T.row) (n * length (elements self.now))) }
        ensures error { IfErr result
            (CopiesFail (type_size T.row) (n * length (elements self.now))) };
}

impl<T> SliceExt<T> for &[T] {
    ghost elements = { λ s. s.now };

    fn to_vec(&self, alloc: Global) -> Result<Vec<T, Global>, TryReserveError>
    where
        T: Clone,
    {
        self.to_vec2(alloc)
    }

    fn to_vec2(&self, alloc: Global) -> Result<Vec<T, Global>, TryReserveError>
    where
        T: Clone,
    {
        Vec::from_slice(alloc, *self)
    }

    fn to_vec_in<A: Allocator>(&self, alloc: A) -> Result<Vec<T, A>, TryReserveError>
    where
        T: Clone,
    {
        self.to_vec_in2(alloc)
    }

    fn to_vec_in2<A: Allocator>(&self, alloc: A) -> Result<Vec<T, A>, TryReserveError>
    where
        T: Clone,
    {
        Vec::from_slice_in(*self, alloc)
    }

    fn repeat(&self, alloc: Global, n: usize) -> Result<Vec<T, Global>, TryReserveError>
    where
        T: Repeat,
    {
        self.repeat2(alloc, n)
    }

    fn repeat2(&self, alloc: Global, n: usize) -> Result<Vec<T, Global>, TryReserveError>
    where
        T: Repeat,
    {
        T::repeat_in(*self, n, alloc)
    }
}

/// Types whose elements can be repeated in a vector: all that are `Copy`.
///
/// Not in allocator-api2, which requires `Copy` itself.
pub trait Repeat: Sized {
    /// Returns a vector that repeats the elements of `source` `n` times, allocated with `alloc`.
    ///
    /// Allocates unless the vector is empty or the elements are zero-sized. Not in allocator-api2.
    ///
    /// # Errors
    /// As for `SliceExt::repeat`.
    fn repeat_in<A: Allocator>(
        source: &[Self],
        n: usize,
        alloc: A,
    ) -> Result<Vec<Self, A>, TryReserveError>
        ensures made { IfOk result
            (λ v. IsMadeWithin (type_size Self.row) Doubling (repeat n source.now) v) }
        ensures alloc { IfOk result (λ v. v.alloc ≡ alloc) }
        ensures capacity { IfOk result
            (λ v. v.capacity ≡ new_capacity (type_size Self.row) (n * length source.now)) }
        ensures error { let count = n * length source.now in
            IfErr result (CopiesFail (type_size Self.row) count) };
}

impl<T: Copy> Repeat for T {
    fn repeat_in<A: Allocator>(
        source: &[T],
        n: usize,
        alloc: A,
    ) -> Result<Vec<T, A>, TryReserveError> {
        repeat_in(source, n, alloc)
    }
}

// Returns a vector that repeats the elements `n` times.
#[tactic(auto, using(crate::proofs::Repeated::repeated))]
fn repeat_in<T: Copy, A: Allocator>(
    source: &[T],
    n: usize,
    alloc: A,
) -> Result<Vec<T, A>, TryReserveError>
    ensures made { IfOk result
        (λ v. IsMadeWithin (type_size T.row) Doubling (repeat n source.now) v) }
    ensures alloc { IfOk result (λ v. v.alloc ≡ alloc) }
    ensures capacity { IfOk result
        (λ v. v.capacity ≡ new_capacity (type_size T.row) (n * length source.now)) }
    ensures error { IfErr result (CopiesFail (type_size T.row) (n * length source.now)) }
{
    let Some(count) = n.checked_mul(source.len()) else {
        return Err(TryReserveErrorKind::CapacityOverflow.into());
    };
    let mut made = Vec::with_capacity_in(count, alloc)?;
    if n > 0 {
        put_repeated(&mut made, source, n);
    }
    Ok(made)
}

// Appends the elements of `source` `n` times to an empty vector with capacity for them: once from
// `source`, and then from the vector itself.
#[tactic(auto, using(crate::proofs::Repeated::repeated))]
fn put_repeated<T: Copy, A: Allocator>(made: &mut Vec<T, A>, source: &[T], n: usize)
    requires some { 0 < n }
    requires empty { made.old.items ≡ [] }
    requires room { n * length source.now ≤ made.old.capacity }
    ensures items { Holds made.old (repeat n source.now) made.new }
    ensures written { WritesAtMost made.old (n * length source.now) made.new }
{
    made.prove_capacity_bounds();
    put_copies(made, source);
    let mut done = 1;
    'each: while done < n {
        let more = next_count(done, n - done);
        put_again(made, more * source.len());
        done += more;
    }
}

// Returns how many of the `done` copies are appended again, if `left` copies remain.
fn next_count(done: usize, left: usize) -> usize
    requires { (0 < done) × (0 < left) }
    ensures some { 0 < result }
    ensures done { result ≤ done }
    ensures remaining { result ≤ left }
{
    if left < done { left } else { done }
}

// Appends copies of all elements of `source` to a vector that has spare capacity for them.
#[tactic(auto, using(aa_vec::proofs::Becoming::became))]
fn put_copies<T: Copy, A: Allocator>(made: &mut Vec<T, A>, source: &[T])
    requires room { HasRoom made.old (length source.now) }
    ensures items { Holds made.old (made.old.items ++ source.now) made.new }
    ensures written { WritesAtMost made.old (length source.now) made.new }
{
    match made.extend_from_slice_copied(source) {
        Ok(()) => {}
        Err(_) => unreachable!(),
    }
}

// Appends copies of the first `count` elements to the same vector, which has spare capacity for
// them.
#[tactic(auto, using(aa_vec::proofs::Becoming::became))]
fn put_again<T: Copy, A: Allocator>(made: &mut Vec<T, A>, count: usize)
    requires within { count ≤ len made.old }
    requires room { HasRoom made.old count }
    ensures items { Holds made.old (made.old.items ++ take count made.old.items) made.new }
    ensures written { WritesAtMost made.old count made.new }
{
    match made.extend_from_within_copied(0..count) {
        Ok(()) => {}
        Err(_) => unreachable!(),
    }
}
