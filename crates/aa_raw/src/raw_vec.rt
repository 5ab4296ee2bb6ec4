//! `RawVec`: a block of places over an allocator.
//!
//! Each place is empty or filled. The caller and the contracts know which places are filled; the
//! block does not know it at run time.
ghost use Rattle.std.specs.Prelude.{◌≡◌, ◌≢◌, ◌+◌, ◌-◌, ◌*◌, ◌^◌, ◌<◌, ◌≤◌, length, map, take, drop, replicate, get_or, slice_set, Some, None, IfOk, IfErr, IfSome, IfNone, OnOk, OnErr, IsOk, IsTrue, false, if◌then◌else◌, ◌==◌};
ghost use Rattle.std.specs.Mem.{type_size};
ghost use Rattle.std.specs.Borrow.{sem};
ghost use Rattle.std.specs.Fn.{CalledAtPairMut};
ghost use Rattle.aa_raw.specs.Places.{AreEmpty, IsCapacity, IsFilled, IsRun, moved, with_run};
ghost use Rattle.aa_raw.specs.Block.{fresh, with_places, without, with_moved, with_written, grown_to, shrunk_to, cut_to, growth_capacity, of_new, reserve_capacity, with_shrink, Reserves, ReserveResult};
ghost use Rattle.aa_raw.specs.Closures.{CallableAtPairMut, CalledAtPlaces};
ghost use Rattle.aa_raw.specs.Growth.{amortized, min_capacity, usize_max};
ghost use Rattle.aa_raw.specs.Errors.{error_for, AllocationFails, IsErrorFor};
ghost use Rattle.aa_raw.specs.Packed.{CanPack, capacity_in};
ghost use Rattle.aa_raw.specs.Room.{LacksRoom, NeedsNewBlock};

use crate::collections::{TryReserveError, TryReserveErrorKind};
use crate::counter::{Counter, GrowthCounters};
use crate::row::{Claim, Row, allocate, dangling, deallocate, forget_row};
use crate::size::{fits_in_block, is_zst, min_non_zero_capacity};
use std::alloc::{AllocError, Allocator, Global};
use std::marker::Model;
use std::mem::replace;

mod in_place;
mod packed;
mod pairs;
mod two_runs;

pub use crate::row::EntriesMut;
use packed::{MAX_PACKED, packed, policy_of, unpacked};

/// The growth policy: how much spare capacity a growth requests.
#[derive(Clone, Copy, PartialEq, Eq, Debug, Drop)]
pub enum Growth {
    /// Doubles the capacity, as allocator-api2 does.
    Doubling,
    /// Adds half of the capacity.
    Sparing,
    /// Doubles the capacity, and grows the block by the allocator's `grow`, which may extend it in
    /// place.
    InPlace,
}

impl Growth {
    /// Returns the capacity that an amortized growth requests, from `capacity` elements of type `T`
    /// to at least `required`.
    ///
    /// Returns `None` if its bytes exceed `isize::MAX`. Does not allocate. Not in allocator-api2.
    pub fn capacity_for<T>(self, capacity: usize, required: usize) -> Option<usize>
        requires { capacity < 2 ^ 63 }
        ensures some { IfSome result
            (λ c. c ≡ amortized self capacity required (min_capacity (type_size T.row))) }
        ensures fits { IfSome result (λ c. c * type_size T.row < 2 ^ 63) }
        ensures none { let c = amortized self capacity required (min_capacity (type_size T.row)) in
            IfNone result (2 ^ 63 ≤ c * type_size T.row) }
    {
        let next = match self {
            Growth::Doubling | Growth::InPlace => 2 * capacity,
            Growth::Sparing => capacity + (capacity + 1) / 2,
        };
        block_capacity::<T>(next.max(required).max(min_non_zero_capacity::<T>()))
    }
}

// The capacity that a reserve requests: more by the growth policy, so that elements rarely move
// over many calls, or exactly what is required.
#[derive(Clone, Copy, Drop)]
enum ReserveKind {
    Amortized,
    Exact,
}

/// A block of places over the allocator `A`.
///
/// When dropped, it deallocates its memory. No place may hold a value then: each was moved out or
/// dropped before, or forgotten by `forget_run` or `forget_from`. `mem::forget` takes no block. A
/// block of zero-sized elements has `usize::MAX` places and never allocates. In allocator-api2 this
/// type is private, and its drop forgets the values.
pub struct RawVec<T, A: Allocator = Global> {
    pub(crate) row: Row<T>,
    word: usize,
    claim: Claim<T, A>,
    grown: GrowthCounters,
    written: Counter,
    runs: Counter,
    alloc: A,
}

impl<T, A: Allocator> Model for RawVec<T, A> {
    ghost use Rattle.aa_raw.specs.Block.{Block};

    ghost Value = { Block T A };

    ghost use Rattle.aa_raw.specs.RawVecInner.{view_of, IsWhole};

    ghost view = { view_of };

    ghost invariant = { IsWhole };
}

impl<T> RawVec<T, Global> {
    /// Returns an empty block on the global allocator.
    ///
    /// Does not allocate.
    pub fn new(alloc: Global) -> Self
        ensures { result ≡ fresh (type_size T.row) 0 Growth.Doubling alloc }
    {
        RawVec::new_in(alloc)
    }

    /// Returns a block of `capacity` empty places on the global allocator.
    ///
    /// Allocates unless `capacity` is 0 or the elements are zero-sized.
    ///
    /// # Errors
    /// As for `with_capacity_in`: `CapacityOverflow`, or `AllocError` with `capacity` if the
    /// allocation fails.
    pub fn with_capacity(alloc: Global, capacity: usize) -> Result<Self, TryReserveError>
        ensures made { IfOk result
            (λ v. v ≡ fresh (type_size T.row) capacity Growth.Doubling alloc) }
        ensures error { IfErr result (AllocationFails capacity (type_size T.row)) }
    {
        RawVec::with_capacity_in(capacity, alloc)
    }
}

#[tactic(auto, using(crate::proofs::Reserving::after_calls))]
impl<T, A: Allocator> RawVec<T, A> {
    ghost use Rattle.aa_raw.specs.BlockLends.{lends_places, lends_place};

    /// Returns an empty block.
    ///
    /// Does not allocate.
    pub fn new_in(alloc: A) -> Self
        ensures { result ≡ fresh (type_size T.row) 0 Growth.Doubling alloc }
    {
        RawVec::with_growth_in(Growth::Doubling, alloc)
    }

    /// Returns an empty block with the growth policy `growth`.
    ///
    /// Does not allocate. Not in allocator-api2.
    pub fn with_growth_in(growth: Growth, alloc: A) -> Self
        ensures { result ≡ fresh (type_size T.row) 0 growth alloc }
    {
        let capacity = if is_zst::<T>() { usize::MAX } else { 0 };
        let row = dangling(&alloc, capacity);
        from_row(alloc, growth, capacity, row)
    }

    /// Returns a block of `capacity` empty places.
    ///
    /// Allocates unless `capacity` is 0 or the elements are zero-sized.
    ///
    /// # Errors
    /// `CapacityOverflow` if the block would exceed `isize::MAX` bytes; `AllocError` with
    /// `capacity` if the allocation fails.
    pub fn with_capacity_in(capacity: usize, alloc: A) -> Result<Self, TryReserveError>
        ensures made { IfOk result
            (λ v. v ≡ fresh (type_size T.row) capacity Growth.Doubling alloc) }
        ensures error { IfErr result (AllocationFails capacity (type_size T.row)) }
    {
        RawVec::with_capacity_and_growth_in(capacity, Growth::Doubling, alloc)
    }

    /// Returns a block of `capacity` empty places with the growth policy `growth`.
    ///
    /// Allocates and fails as `with_capacity_in` does. Not in allocator-api2.
    #[tactic(auto, using(crate::proofs::Reserving::made_empty))]
    pub fn with_capacity_and_growth_in(
        capacity: usize,
        growth: Growth,
        alloc: A,
    ) -> Result<Self, TryReserveError>
        ensures made { IfOk result
            (λ v. v ≡ fresh (type_size T.row) capacity growth alloc) }
        ensures error { IfErr result (AllocationFails capacity (type_size T.row)) }
    {
        if capacity == 0 || is_zst::<T>() {
            return Ok(RawVec::with_growth_in(growth, alloc));
        }
        if !fits_in_block::<T>(capacity) {
            return Err(TryReserveErrorKind::CapacityOverflow.into());
        }
        match new_row(&alloc, capacity) {
            Ok(row) => Ok(from_row(alloc, growth, capacity, row)),
            Err(_) => Err(TryReserveErrorKind::AllocError { capacity }.into()),
        }
    }

    /// Returns the number of places; `usize::MAX` for zero-sized elements.
    #[inline]
    pub fn capacity(&self) -> usize
        ensures count { result ≡ length self.now.places }
        ensures possible { IsCapacity T.row result }
    {
        self.claim.prove_capacity_bounds();
        unpacked::<T>(self.word)
    }

    /// Proves that the number of places is a valid capacity, of at most `usize::MAX`.
    ///
    /// Does nothing at run time. Not in allocator-api2.
    #[inline(always)]
    pub fn prove_capacity_bounds(&self)
        ensures fits_usize { length self.now.places ≤ usize_max }
        ensures possible { IsCapacity T.row (length self.now.places) }
    {
        let _capacity = self.capacity();
    }

    /// Returns a reference to the underlying allocator.
    pub fn allocator(&self) -> &A
        ensures { result.now ≡ self.now.alloc }
    {
        &self.alloc
    }

    /// Returns the growth policy of the block.
    pub fn growth(&self) -> Growth
        ensures { result ≡ self.now.growth }
    {
        policy_of(self.word)
    }

    /// Writes `item` into the place `at`.
    ///
    /// A value that was there is forgotten, not dropped.
    #[inline(always)]
    pub fn put(&mut self, at: usize, item: T)
        requires { at < length self.old.places }
        ensures { self.new ≡ with_written self.old (slice_set self.old.places at (Some item)) 1 }
    {
        self.row.write(at, item);
        self.written.add(1);
        self.runs.add(1);
    }

    /// Moves the value out of the filled place `at` and returns it.
    ///
    /// The place is empty afterwards.
    #[inline(always)]
    pub fn take(&mut self, at: usize) -> T
        requires { IsFilled self.old.places at }
        ensures value { get_or self.old.places at None ≡ Some result }
        ensures after { self.new ≡ with_places self.old (slice_set self.old.places at None) }
    {
        self.row.read(at)
    }

    /// Forgets the values in the places from `from` on.
    ///
    /// Does nothing at run time.
    #[inline(always)]
    pub fn forget_from(&mut self, from: usize)
        requires { from ≤ length self.old.places }
        ensures { self.new ≡ without self.old from (length self.old.places - from) }
    {
        let count = self.capacity() - from;
        self.forget_run(from, count);
    }

    /// Forgets the values in the `count` places from `from` on, if any. Does nothing at run time.
    #[inline(always)]
    pub fn forget_run(&mut self, from: usize, count: usize)
        requires { from + count ≤ length self.old.places }
        ensures { self.new ≡ without self.old from count }
    {
        self.row.forget(from, count);
    }

    /// Drops the `count` values from the place `from` on, in order.
    ///
    /// Their places are empty afterwards.
    #[inline]
    pub fn drop_run(&mut self, from: usize, count: usize)
    where
        T: Drop,
        requires { IsRun self.old.places from count }
        ensures { self.new ≡ without self.old from count }
    {
        self.prove_capacity_bounds();
        'each: for dropped in 0..count {
            drop(self.take(from + dropped));
        }
    }

    /// Returns a reference to the value in the filled place `at`.
    pub fn place(&self, at: usize) -> &T
        requires { IsFilled self.now.places at }
        ensures { get_or self.now.places at None ≡ Some result.now }
    {
        &self.row.slice(at, 1)[0]
    }

    /// Returns a mutable reference to the value in the filled place `at`.
    pub fn place_mut(&mut self, at: usize) -> &mut T
        requires { IsFilled self.old.places at }
        ensures* writes_back { sem 𝓛 (lends_place T.row A.row A.Allocator self.entry at result) }
        ensures value { get_or self.old.places at None ≡ Some result.now }
    {
        self.row.get_mut(at)
    }

    /// Returns the `count` values from the place `from` on as a slice.
    ///
    /// `from` is at most the capacity, even if `count` is 0.
    pub fn slice(&self, from: usize, count: usize) -> &[T]
        requires { IsRun self.now.places from count }
        ensures { take count (drop from self.now.places) ≡ map Some result.now }
    {
        self.row.slice(from, count)
    }

    /// Returns the `count` values from the place `from` on as a mutable slice.
    ///
    /// `from` is at most the capacity, even if `count` is 0.
    pub fn slice_mut(&mut self, from: usize, count: usize) -> &mut [T]
        requires { IsRun self.old.places from count }
        ensures* writes_back { sem 𝓛
            (lends_places T.row A.row A.Allocator self.entry from count result) }
        ensures value { take count (drop from self.old.places) ≡ map Some result.now }
    {
        self.row.slice_mut(from, count)
    }

    /// Moves the value in the filled place `from` to the place `to`.
    ///
    /// A value that was there is forgotten, not dropped.
    #[inline(always)]
    pub fn move_one(&mut self, from: usize, to: usize)
        requires { IsFilled self.old.places from × (to < length self.old.places) }
        ensures { self.new ≡ with_moved self.old from to 1 }
    {
        if from == to {
            return;
        }
        let item = self.take(from);
        self.put(to, item);
    }

    /// Moves the `count` values from the place `from` on to the places from `to` on.
    ///
    /// The two ranges may overlap. Other values that were there are forgotten, not dropped.
    #[inline]
    pub fn move_run(&mut self, from: usize, to: usize, count: usize)
        requires { IsRun self.old.places from count × (to + count ≤ length self.old.places) }
        ensures { self.new ≡ with_moved self.old from to count }
    {
        if from == to {
            return;
        }
        self.row.move_run((from, count), to);
        self.written.add(count);
        if count != 0 {
            self.runs.add(1);
        }
    }

    /// Moves the `count` values from the place `from` on down to the places from `to` on.
    ///
    /// Like `move_run`, but much faster if the values are few.
    #[inline(always)]
    pub fn move_down(&mut self, from: usize, to: usize, count: usize)
        requires { IsRun self.old.places from count × (to ≤ from) }
        ensures { self.new ≡ with_moved self.old from to count }
    {
        if from == to {
            return;
        }
        self.row.move_run_down((from, count), to);
        self.written.add(count);
        if count != 0 {
            self.runs.add(1);
        }
    }

    /// Moves the `count` values from the place `from` of the block `other` on to the places from
    /// `to` on of this block.
    ///
    /// Values that were there are forgotten, not dropped.
    #[inline]
    pub fn transfer(&mut self, to: usize, other: &mut RawVec<T, A>, from: usize, count: usize)
        requires { IsRun other.old.places from count × (to + count ≤ length self.old.places) }
        ensures moved { let values = take count (drop from other.old.places) in
            self.new ≡ with_written self.old (with_run self.old.places to count values) count }
        ensures emptied { other.new ≡ without other.old from count }
    {
        self.row.take_run(to, &mut other.row, (from, count));
        self.written.add(count);
        if count != 0 {
            self.runs.add(1);
        }
    }

    /// Writes `items` into the places from `at` on.
    ///
    /// Values that were there are forgotten, not dropped.
    #[inline]
    pub fn put_array<const N: usize>(&mut self, at: usize, items: [T; N])
        requires { at + N ≤ length self.old.places }
        ensures { self.new ≡ with_written self.old (with_run self.old.places at N
            (map Some items)) N }
    {
        self.row.write_array(at, items);
        self.written.add(N);
        if N != 0 {
            self.runs.add(1);
        }
    }

    /// Writes copies of all elements of `source` into the places from `at` on, with one copy of
    /// memory.
    ///
    /// Values that were there are forgotten, not dropped.
    #[inline(always)]
    pub fn put_copies(&mut self, at: usize, source: &[T])
    where
        T: Copy,
        requires { at + length source.now ≤ length self.old.places }
        ensures { let count = length source.now in
            let places = with_run self.old.places at count (map Some source.now) in
            self.new ≡ with_written self.old places count }
    {
        let count = source.len();
        self.row.write_copies(at, source);
        self.written.add(count);
        if count != 0 {
            self.runs.add(1);
        }
    }

    /// Moves the values out of the first `N` places and returns them.
    ///
    /// These places are empty afterwards.
    #[inline]
    pub fn take_array<const N: usize>(&mut self) -> [T; N]
        requires { IsRun self.old.places 0 N }
        ensures value { take N self.old.places ≡ map Some result }
        ensures after { self.new ≡ without self.old 0 N }
    {
        self.row.read_array()
    }

    /// Reserves capacity for at least `additional` more elements than the `len` in the first
    /// places.
    ///
    /// Allocates only if they do not fit in the capacity, and then grows by the growth policy. The
    /// `len` values move to the new block, and the old one is deallocated.
    ///
    /// # Errors
    /// `CapacityOverflow` if the new capacity would exceed `usize::MAX` elements or `isize::MAX`
    /// bytes, and always if `len + additional` exceeds `usize::MAX`. `AllocError` with the
    /// requested capacity if the allocation fails. The block is unchanged.
    #[inline(always)]
    pub fn try_reserve(&mut self, len: usize, additional: usize) -> Result<(), TryReserveError>
        requires { IsRun self.old.places 0 len }
        ensures { ReserveResult (type_size T.row) self.old len additional
            (growth_capacity (type_size T.row) self.old (len + additional)) result self.new }
    {
        if additional <= self.capacity() - len
            || self.grow_for(ReserveKind::Amortized, len, additional)
        {
            return Ok(());
        }
        Err(self.reserve_error(ReserveKind::Amortized, len, additional))
    }

    /// Reserves capacity for at least `additional` more elements than the `len` in the first
    /// places.
    ///
    /// Allocates and fails as `try_reserve` does. In allocator-api2 this call aborts if the
    /// allocation fails.
    pub fn reserve(&mut self, len: usize, additional: usize) -> Result<(), TryReserveError>
        requires { IsRun self.old.places 0 len }
        ensures { ReserveResult (type_size T.row) self.old len additional
            (growth_capacity (type_size T.row) self.old (len + additional)) result self.new }
    {
        self.try_reserve(len, additional)
    }

    /// Reserves capacity for exactly `additional` more elements than the `len` in the first places.
    ///
    /// Allocates only if they do not fit in the capacity, and then a block of `len + additional`
    /// places. The `len` values move to the new block, and the old one is deallocated.
    ///
    /// # Errors
    /// As for `try_reserve`: `CapacityOverflow`, or `AllocError` with the requested capacity. The
    /// block is unchanged.
    #[inline(always)]
    pub fn try_reserve_exact(
        &mut self,
        len: usize,
        additional: usize,
    ) -> Result<(), TryReserveError>
        requires { IsRun self.old.places 0 len }
        ensures { ReserveResult (type_size T.row) self.old len additional (len + additional)
            result self.new }
    {
        if additional <= self.capacity() - len
            || self.grow_for(ReserveKind::Exact, len, additional)
        {
            return Ok(());
        }
        Err(self.reserve_error(ReserveKind::Exact, len, additional))
    }

    /// Reserves capacity for exactly `additional` more elements than the `len` in the first places.
    ///
    /// Allocates and fails as `try_reserve_exact` does. In allocator-api2 this call aborts if the
    /// allocation fails.
    pub fn reserve_exact(&mut self, len: usize, additional: usize) -> Result<(), TryReserveError>
        requires { IsRun self.old.places 0 len }
        ensures { ReserveResult (type_size T.row) self.old len additional (len + additional)
            result self.new }
    {
        self.try_reserve_exact(len, additional)
    }

    /// Reserves capacity for one more element than the `len` in the first places.
    ///
    /// Allocates and fails as `try_reserve` does. It tests for spare capacity itself; in
    /// allocator-api2 the caller has found the block full.
    #[inline(always)]
    pub fn reserve_for_push(&mut self, len: usize) -> Result<(), TryReserveError>
        requires { IsRun self.old.places 0 len }
        ensures { ReserveResult (type_size T.row) self.old len 1
            (growth_capacity (type_size T.row) self.old (len + 1)) result self.new }
    {
        if len < self.capacity() || self.grow_for(ReserveKind::Amortized, len, 1) {
            return Ok(());
        }
        Err(self.reserve_error(ReserveKind::Amortized, len, 1))
    }

    /// Shrinks the block to `capacity` places, of which the first `len` are filled.
    ///
    /// Allocates a new block, moves the `len` values there and deallocates the old one. Does not
    /// allocate if `capacity` is 0 or the current capacity, or if the elements are zero-sized:
    /// these keep all their places.
    ///
    /// # Errors
    /// `AllocError` with `capacity` if the allocation fails. The block is unchanged.
    ///
    /// In allocator-api2 this call aborts if the allocation fails.
    pub fn shrink_to_fit(&mut self, len: usize, capacity: usize) -> Result<(), TryReserveError>
        requires { IsRun self.old.places 0 len × (len ≤ capacity)
            × (capacity ≤ length self.old.places) }
        ensures shrunk { OnOk result (self.new ≡ cut_to (type_size T.row) self.old len capacity) }
        ensures only_if_allocating { let size = type_size T.row in
            OnErr result (NeedsNewBlock size (length self.old.places) capacity) }
        ensures error { IfErr result (λ e. e.kind ≡ TryReserveErrorKind.AllocError capacity) }
        ensures unchanged { OnErr result (self.new ≡ self.old) }
    {
        if capacity == self.capacity() || is_zst::<T>() {
            return Ok(());
        }
        self.claim.prove_capacity_bounds();
        if self.move_to(len, capacity) {
            return Ok(());
        }
        Err(TryReserveErrorKind::AllocError { capacity }.into())
    }

    // Grows the block for a reserve, out of line, and returns `false` if that fails. The result is
    // in a register, so that the test for spare capacity needs no stack.
    #[cold]
    #[inline(never)]
    fn grow_for(&mut self, room: ReserveKind, len: usize, additional: usize) -> bool
        requires { IsRun self.old.places 0 len × (length self.old.places < len + additional) }
        ensures grown { IsTrue result → Reserves (type_size T.row) self.old len additional
            (reserve_capacity room (type_size T.row) self.old (len + additional)) self.new }
        ensures unchanged { result ≡ false → self.new ≡ self.old }
    {
        match self.capacity_for(room, len, additional) {
            Some(capacity) => self.grow_to(len, capacity),
            None => false,
        }
    }

    // Returns the error of a reserve after `grow_for` returned `false`.
    #[cold]
    #[inline(never)]
    fn reserve_error(&self, room: ReserveKind, len: usize, additional: usize) -> TryReserveError
        requires { (len ≤ length self.now.places) × (length self.now.places < len + additional) }
        ensures { LacksRoom (type_size T.row) (length self.now.places) len additional
            (reserve_capacity room (type_size T.row) self.now (len + additional)) result }
    {
        match self.capacity_for(room, len, additional) {
            Some(capacity) => TryReserveErrorKind::AllocError { capacity }.into(),
            None => TryReserveErrorKind::CapacityOverflow.into(),
        }
    }

    // Returns the capacity that a growth requests, or `None` if it exceeds `usize::MAX` elements or
    // `isize::MAX` bytes.
    fn capacity_for(&self, room: ReserveKind, len: usize, additional: usize) -> Option<usize>
        requires { (len ≤ length self.now.places) × (length self.now.places < len + additional) }

        // A returned capacity is enough, and a block can have it.
        ensures some { IfSome result
            (λ c. c ≡ reserve_capacity room (type_size T.row) self.now (len + additional)) }
        ensures enough { IfSome result (λ c. len + additional ≤ c) }
        ensures has_size { IfSome result (λ _. 0 < type_size T.row) }
        ensures possible { IfSome result (IsCapacity T.row) }

        // There is none if so many elements are no block's.
        ensures none { let c = reserve_capacity room (type_size T.row) self.now (len + additional)
            in IfNone result ((error_for (type_size T.row) c).kind
            ≡ TryReserveErrorKind.CapacityOverflow) }
    {
        self.claim.prove_capacity_bounds();
        let required = len.checked_add(additional)?;
        match room {
            ReserveKind::Exact => block_capacity::<T>(required),
            ReserveKind::Amortized => self.growth().capacity_for::<T>(self.capacity(), required),
        }
    }

    // Grows to `capacity` places, of which the first `len` hold their values. Returns `false` if the
    // allocation fails.
    //
    // By the policy `InPlace` a full block is extended. The allocator's `grow` says nothing of
    // places after the values, and these are unchanged if a growth fails; so a block that is not
    // full moves.
    fn grow_to(&mut self, len: usize, capacity: usize) -> bool
        requires { IsRun self.old.places 0 len × (len ≤ capacity) × (0 < capacity)
            × (0 < type_size T.row) × IsCapacity T.row capacity }
        ensures grown { IsTrue result → self.new ≡ grown_to self.old len capacity }
        ensures unchanged { result ≡ false → self.new ≡ self.old }
    {
        let grown = if self.is_extended(len) {
            self.extend_to(capacity)
        } else {
            self.move_to(len, capacity)
        };
        if grown {
            self.grown.add_moved(len);
        }
        grown
    }

    // Moves the first `len` values to a new block of `capacity` places and deallocates the old one.
    // Returns `false` if the allocation fails.
    fn move_to(&mut self, len: usize, capacity: usize) -> bool
        requires { IsRun self.old.places 0 len × (len ≤ capacity) × (0 < type_size T.row)
            × IsCapacity T.row capacity }
        ensures moved { IsTrue result → self.new ≡ shrunk_to self.old len capacity }
        ensures unchanged { result ≡ false → (self.new ≡ self.old) × (0 < capacity) }
    {
        match new_row(&self.alloc, capacity) {
            Ok((mut row, claim)) => {
                row.take_run(0, &mut self.row, (0, len));
                self.replace_row(capacity, row, claim);
                true
            }
            Err(_) => false,
        }
    }

    // Makes the `capacity` places of `row` those of the block, counts their allocation, and
    // deallocates the memory of the old places. The values in them are forgotten.
    fn replace_row(&mut self, capacity: usize, row: Row<T>, claim: Claim<T, A>)
        requires row { (claim.ptr ≡ row.ptr) × (claim.len ≡ capacity)
            × (claim.alloc ≡ self.old.alloc) × (length row.places ≡ capacity) }
        requires possible { CanPack capacity × (0 < type_size T.row) × IsCapacity T.row capacity }
        ensures { self.new ≡ record {
          places = row.places;
          growth = self.old.growth;
          grown = with_shrink self.old.grown (length self.old.places) capacity;
          written = self.old.written;
          runs = self.old.runs;
          alloc = self.old.alloc;
        } }
    {
        self.prove_capacity_bounds();
        let old_capacity = self.capacity();
        self.grown.add_block(old_capacity, capacity);
        self.word = packed(capacity, self.growth());
        let old_row = replace(&mut self.row, row);
        let old_claim = replace(&mut self.claim, claim);
        free_block(&self.alloc, old_capacity, old_row, old_claim);
    }
}

// Returns a new block over `row`.
pub(crate) fn from_row<T, A: Allocator>(
    alloc: A,
    growth: Growth,
    capacity: usize,
    row: (Row<T>, Claim<T, A>),
) -> RawVec<T, A>
    requires row { (row.1.ptr ≡ row.0.ptr) × (row.1.len ≡ capacity) × (row.1.alloc ≡ alloc)
        × (length row.0.places ≡ capacity) }
    requires possible { CanPack capacity }
    ensures { result ≡ record {
      places = row.0.places;
      growth = growth;
      grown = of_new (type_size T.row) capacity;
      written = 0;
      runs = 0;
      alloc = alloc;
    } }
{
    let (row, claim) = row;
    RawVec {
        row,
        word: packed(capacity, growth),
        claim,
        grown: GrowthCounters::of_new::<T>(capacity),
        written: Counter::zero(),
        runs: Counter::zero(),
        alloc,
    }
}

/// Returns the error of a first growth to `required` elements, for a block that doubles.
///
/// It is for a caller that could not make the block, because the clone of its allocator failed. The
/// error is `CapacityOverflow`, or `AllocError` with the capacity that the growth would have
/// requested. Does not allocate. Not in allocator-api2.
pub fn first_growth_error<T>(required: usize) -> TryReserveError
    ensures { IsErrorFor result
        (amortized Growth.Doubling 0 required (min_capacity (type_size T.row))) }
{
    match Growth::Doubling.capacity_for::<T>(0, required) {
        Some(capacity) => TryReserveErrorKind::AllocError { capacity }.into(),
        None => TryReserveErrorKind::CapacityOverflow.into(),
    }
}

// Returns `capacity`, or `None` if so many elements exceed `isize::MAX` bytes.
fn block_capacity<T>(capacity: usize) -> Option<usize>
    ensures some { IfSome result (λ c. c ≡ capacity) }
    ensures fits { IfSome result (λ c. c * type_size T.row < 2 ^ 63) }
    ensures none { IfNone result (2 ^ 63 ≤ capacity * type_size T.row) }
{
    if fits_in_block::<T>(capacity) {
        Some(capacity)
    } else {
        None
    }
}

// Returns a row of `capacity` empty places. Does not allocate if `capacity` is 0.
fn new_row<T, A: Allocator>(alloc: &A, capacity: usize) -> Result<(Row<T>, Claim<T, A>), AllocError>
    requires { IsCapacity T.row capacity }
    ensures row { IfOk result (λ r. (r.0.places ≡ replicate capacity None) × (r.1.ptr ≡ r.0.ptr)
        × (r.1.len ≡ capacity) × (r.1.alloc ≡ alloc.now)) }
    ensures possible { OnOk result (CanPack capacity) }
    ensures only_if_allocating { OnErr result (0 < capacity) }
{
    if capacity == 0 {
        Ok(dangling(alloc, capacity))
    } else if MAX_PACKED <= capacity {
        Err(AllocError)
    } else {
        allocate(alloc, capacity)
    }
}

// Deallocates the memory of a row, if it has any, and forgets the values in its places.
#[tactic(auto, using(crate::proofs::Reserving::made_empty))]
pub(crate) fn free_block<T, A: Allocator>(
    alloc: &A,
    capacity: usize,
    row: Row<T>,
    claim: Claim<T, A>,
)
    requires { (length row.places ≡ capacity) × (claim.ptr ≡ row.ptr) × (claim.len ≡ capacity)
        × (claim.alloc ≡ alloc.now) }
{
    if capacity == 0 {
        forget_row(row, claim);
    } else if is_zst::<T>() {
        forget_row(row, claim);
    } else {
        deallocate(alloc, capacity, row, claim);
    }
}

impl<T, A: Allocator> Drop for RawVec<T, A> {
    /// Deallocates the memory. No place may hold a value.
    fn drop(self)
        requires { AreEmpty self.places }
    {
        let RawVec {
            row,
            word,
            claim,
            grown: _,
            written: _,
            runs: _,
            alloc,
        } = self;
        claim.prove_capacity_bounds();
        free_block(&alloc, unpacked::<T>(word), row, claim);
    }
}
