//! The raw layer: a row of places in memory, and the right to deallocate that memory.
ghost use Rattle.std.specs.Prelude.{◌≡◌, ℕ, ◌+◌, ◌*◌, ◌^◌, ◌<◌, ◌≤◌, List, ◌++◌, Option, Some, None, map, length, take, drop, replicate, get_or, slice_set, IfOk};
ghost use Rattle.core.specs.Ptr.{ptr_add};
ghost use Rattle.core.specs.Mem.Slots.{slots_items, slots_len, slots_ptr, IsFull};
ghost use Rattle.std.specs.Mem.{type_size};
ghost use Rattle.std.specs.Borrow.{sem};
ghost use denote.RawPtr.{Ptr};
ghost use Rattle.aa_raw.specs.Places.{IsRun, IsFilled, IsCapacity, with_run};
ghost use Rattle.aa_raw.specs.Ownership.{row_owns, row_shares, claim_owns, capacity_bounds};

mod across;
mod copies;
mod entries_mut;
pub(crate) mod resize;
mod shift;

use core::ptr::copy_nonoverlapping;
use core::slots::Slots;
pub use entries_mut::EntriesMut;
use std::alloc::{AllocError, Allocator};
use std::marker::{Model, PhantomData};
use std::mem::{align_of, size_of};
use std::slice;

/// Adjacent places in memory from `ptr` on, each of which is empty or holds a value.
///
/// A row owns its places, but not the right to deallocate them.
pub struct Row<T> {
    ptr: *mut T,
    ghost places: { List (Option T) },
}

impl<T> Model for Row<T> {
    ghost also_owns = { λ r. row_owns T.row r.ptr r.places };

    ghost also_shares = { λ r _ κ. row_shares T.row r.ptr r.places κ };
}

/// The right to deallocate the memory of `len` places at `ptr` with `alloc`.
///
/// It is zero-sized at run time, and also bounds the number of places.
pub struct Claim<T, A: Allocator> {
    mark: PhantomData<*const (T, A)>,
    ghost ptr: { Ptr },
    ghost len: { ℕ },
    ghost alloc: { A },
}

impl<T, A: Allocator> Model for Claim<T, A> {
    ghost also_owns = { λ c. claim_owns T.row (A.dealloc_token c.alloc) c.ptr c.len };

    ghost also_shares = { λ c _ _. capacity_bounds T.row c.len };
}

impl<T, A: Allocator> Claim<T, A> {
    /// Proves the bounds of the number of places. Does nothing at run time.
    pub(crate) fn prove_capacity_bounds(&self)
        ensures { IsCapacity T.row self.now.len }
    {}
}

impl<T> Row<T> {
    ghost use Rattle.aa_raw.specs.RowLends.{lends_at, lends_from};

    /// Writes `item` into the place `index`. A value that was there is forgotten.
    #[inline(always)]
    pub(crate) fn write(&mut self, index: usize, item: T)
        requires { index < length self.old.places }
        ensures { (self.new.ptr ≡ self.old.ptr)
            × (self.new.places ≡ slice_set self.old.places index (Some item)) }
    {
        unsafe { self.ptr.add(index).write(item) }
    }

    /// Moves the value out of the filled place `index` and returns it.
    #[inline(always)]
    pub(crate) fn read(&mut self, index: usize) -> T
        requires { IsFilled self.old.places index }
        ensures value { get_or self.old.places index None ≡ Some result }
        ensures places { (self.new.ptr ≡ self.old.ptr)
            × (self.new.places ≡ slice_set self.old.places index None) }
    {
        unsafe { self.ptr.add(index).read() }
    }

    /// Returns a mutable reference to the value in the filled place `index`.
    pub(crate) fn get_mut(&mut self, index: usize) -> &mut T
        requires { IsFilled self.old.places index }
        ensures* writes_back { sem 𝓛 (lends_at T.row self.entry index result) }
        ensures value { get_or self.old.places index None ≡ Some result.now }
    {
        unsafe { &mut *self.ptr.add(index) }
    }

    /// Returns the `len` values from the place `from` on.
    pub(crate) fn slice(&self, from: usize, len: usize) -> &[T]
        requires { IsRun self.now.places from len }
        ensures { take len (drop from self.now.places) ≡ map Some result.now }
    {
        unsafe { slice::from_raw_parts(self.ptr.add(from), len) }
    }

    /// Returns the `len` values from the place `from` on as a mutable slice.
    pub(crate) fn slice_mut(&mut self, from: usize, len: usize) -> &mut [T]
        requires { IsRun self.old.places from len }
        ensures* writes_back { sem 𝓛 (lends_from T.row self.entry from len result) }
        ensures value { take len (drop from self.old.places) ≡ map Some result.now }
    {
        unsafe { slice::from_raw_parts_mut(self.ptr.add(from), len) }
    }

    /// Writes `items` into the places from `index` on. Values that were there are forgotten.
    #[inline(always)]
    pub(crate) fn write_array<const N: usize>(&mut self, index: usize, items: [T; N])
        requires { index + N ≤ length self.old.places }
        ensures { (self.new.ptr ≡ self.old.ptr)
            × (self.new.places ≡ with_run self.old.places index N (map Some items)) }
    {
        unsafe { self.ptr.add(index).cast::<[T; N]>().write(items) }
    }

    /// Moves the first `N` values out and returns them.
    #[inline(always)]
    pub(crate) fn read_array<const N: usize>(&mut self) -> [T; N]
        requires { IsRun self.old.places 0 N }
        ensures value { take N self.old.places ≡ map Some result }
        ensures places { (self.new.ptr ≡ self.old.ptr)
            × (self.new.places ≡ with_run self.old.places 0 N (replicate N None)) }
    {
        unsafe { self.ptr.cast::<[T; N]>().read() }
    }

    /// Forgets the values in the `_count` places from `_from` on. Does nothing at run time.
    #[inline(always)]
    pub(crate) fn forget(&mut self, _from: usize, _count: usize)
        requires { _from + _count ≤ length self.old.places }
        ensures { (self.new.ptr ≡ self.old.ptr)
            × (self.new.places ≡ with_run self.old.places _from _count (replicate _count None)) }
    {}

    // Splits off the places from `at` on and returns them as a separate row.
    #[inline(always)]
    fn cut(&mut self, at: usize) -> Row<T>
        requires { at ≤ length self.old.places }
        ensures before { (self.new.ptr ≡ self.old.ptr)
            × (self.new.places ≡ take at self.old.places) }
        ensures tail { (result.ptr ≡ ptr_add T.row at self.old.ptr)
            × (result.places ≡ drop at self.old.places) }
        ensures bytes { length self.old.places * type_size T.row < 2 ^ 63 }
    {
        Row {
            ptr: unsafe { self.ptr.add(at) },
        }
    }

    // Appends the places of `tail`, which begin where these end.
    #[inline(always)]
    fn join(&mut self, tail: Row<T>)
        requires adjacent { tail.ptr ≡ ptr_add T.row (length self.old.places) self.old.ptr }
        requires bytes { (length self.old.places + length tail.places) * type_size T.row < 2 ^ 63 }
        ensures { (self.new.ptr ≡ self.old.ptr)
            × (self.new.places ≡ self.old.places ++ tail.places) }
    {
        let Row { ptr: _ } = tail;
    }
}

// Moves the first `count` values of `source` to the first places of `row`, with one copy of memory,
// and returns both rows.
#[inline(always)]
fn copy_apart<T>(row: Row<T>, source: Row<T>, count: usize) -> (Row<T>, Row<T>)
    requires room { count ≤ length row.places }
    requires filled { IsRun source.places 0 count }
    ensures moved { (result.0.ptr ≡ row.ptr)
        × (result.0.places ≡ take count source.places ++ drop count row.places) }
    ensures emptied { (result.1.ptr ≡ source.ptr)
        × (result.1.places ≡ replicate count None ++ drop count source.places) }
{
    unsafe { copy_nonoverlapping(source.ptr, row.ptr, count) };
    (row, source)
}

// Returns the places of a row as slots, which can copy from a borrowed slice. Values that were
// there are forgotten. In contracts, a slot has a value even if it is empty: here one of `like`.
#[inline(always)]
fn into_slots<T>(row: Row<T>, like: &[T]) -> Slots<T>
    requires { length row.places ≡ length like.now }
    ensures { (slots_ptr result ≡ row.ptr) × (slots_len result ≡ length like.now)
        × (slots_items result ≡ like.now) }
{
    let Row { ptr } = row;
    unsafe { Slots::from_raw_parts(ptr, like.len()) }
}

// Returns full slots as places that hold their values.
#[inline(always)]
fn from_slots<T>(slots: Slots<T>) -> Row<T>
    requires { IsFull slots }
    ensures { (result.ptr ≡ slots_ptr slots) × (result.places ≡ map Some (slots_items slots)) }
{
    let parts = unsafe { slots.into_raw_parts() };
    Row { ptr: parts.0 }
}

/// Returns `_len` empty places that take no bytes. Does not allocate.
pub(crate) fn dangling<T, A: Allocator>(_alloc: &A, _len: usize) -> (Row<T>, Claim<T, A>)
    requires { IsCapacity T.row _len × (_len * type_size T.row ≡ 0) }
    ensures { (result.0.places ≡ replicate _len None) × (result.1.ptr ≡ result.0.ptr)
        × (result.1.len ≡ _len) × (result.1.alloc ≡ _alloc.now) }
{
    let none: [T; 0] = [];
    let row = Row {
        ptr: &raw const none as *const T as *mut T,
    };
    (row, Claim { mark: PhantomData })
}

/// Allocates `len` empty places.
///
/// # Errors
/// `AllocError` if the allocation fails.
pub(crate) fn allocate<T, A: Allocator>(
    alloc: &A,
    len: usize,
) -> Result<(Row<T>, Claim<T, A>), AllocError>
    requires { IsCapacity T.row len }
    ensures { IfOk result (λ r. (r.0.places ≡ replicate len None) × (r.1.ptr ≡ r.0.ptr)
        × (r.1.len ≡ len) × (r.1.alloc ≡ alloc.now)) }
{
    match alloc.allocate(len * size_of::<T>(), align_of::<T>()) {
        Ok(block) => {
            let row = Row {
                ptr: block as *mut T,
            };
            Ok((row, Claim { mark: PhantomData }))
        }
        Err(error) => Err(error),
    }
}

/// Deallocates the memory of `row`. Values in its places are forgotten.
pub(crate) fn deallocate<T, A: Allocator>(alloc: &A, len: usize, row: Row<T>, claim: Claim<T, A>)
    requires { (length row.places ≡ len) × (claim.ptr ≡ row.ptr) × (claim.len ≡ len)
        × (claim.alloc ≡ alloc.now) × (0 < len * type_size T.row) }
{
    let Row { ptr } = row;
    let Claim { mark: _ } = claim;
    unsafe {
        alloc.deallocate(ptr as *mut u8, len * size_of::<T>(), align_of::<T>());
    }
}

/// Forgets places that take no bytes, with the values in them.
///
/// Other places would leak: only `deallocate` frees their memory.
pub(crate) fn forget_row<T, A: Allocator>(row: Row<T>, claim: Claim<T, A>)
    requires { claim.len * type_size T.row ≡ 0 }
{
    let Row { ptr: _ } = row;
    let Claim { mark: _ } = claim;
}
