//! Places for exactly so many items.
ghost use Rattle.std.specs.Prelude.{◌≡◌, ◌<◌, ◌≤◌, [], length, max, IfErr, IfOk, IsOk, OnErr, OnOk};
ghost use Rattle.std.specs.Mem.{type_size};
ghost use Rattle.allocator_api2.specs.Errors.{IsErrorFor};
ghost use Rattle.allocator_api2.specs.Growths.{of_new};
ghost use Rattle.allocator_api2.specs.Room.{NeedsNewBlock};
ghost use Rattle.allocator_api2.specs.declared.collections.TryReserveErrorKind.TheVariants.{AllocError};
ghost use Rattle.allocator_api2.specs.declared.raw_vec.Growth.TheVariants.{Doubling};
ghost use Rattle.aa_inline.specs.Inlined.{back_in_place, block_of, in_new_block, in_place, resized, shrunk, with_block, with_places};

use crate::few::Few;
use crate::inline::{Data, InlineVec};
use allocator_api2::collections::TryReserveError;
use allocator_api2::vec::Vec;
use std::alloc::Allocator;
use std::default::MadeWith;
use std::mem;

impl<T: MadeWith<A> + Drop, A: Allocator + Copy, const N: usize> InlineVec<T, A, N> {
    /// Returns an empty vector with capacity for `capacity` items, or for `N` if that is more.
    ///
    /// Allocates only if `capacity` is more than `N`, and then a block of exactly that many places.
    ///
    /// # Errors
    /// `CapacityOverflow`, or `AllocError` with `capacity`, if the allocation fails.
    pub fn with_capacity_in(capacity: usize, alloc: A) -> Result<Self, TryReserveError>
        ensures fits { capacity ≤ N → IsOk result }
        ensures made { IfOk result
            (λ s. s ≡ with_places (type_size T.row) N capacity (in_place [] alloc)) }
        ensures error { IfErr result (λ e. IsErrorFor e capacity) }
    {
        let mut small = InlineVec::new_in(alloc);
        small.grow(capacity)?;
        Ok(small)
    }

    /// Changes the capacity to `capacity`, which must be at least the length.
    ///
    /// If `capacity` is at most `N`, the items are stored inline, which does not allocate. Else
    /// they are stored in a block of exactly `capacity` places, which is allocated, grown or
    /// shrunk.
    ///
    /// # Errors
    /// `CapacityOverflow`, or `AllocError` with `capacity`, if the allocation fails. The vector is
    /// unchanged.
    #[tactic(auto, unfolding(crate::specs::Inlined::with_places), using(std::proofs::lemmas::Bool::Decides::nat_tests))]
    pub fn grow(&mut self, capacity: usize) -> Result<(), TryReserveError>
        // The items fit in the new capacity.
        requires { length self.old.items ≤ capacity }

        // If `N` places are enough, the call succeeds.
        ensures fits { capacity ≤ N → IsOk result }
        ensures made { OnOk result
            (self.new ≡ with_places (type_size T.row) N capacity self.old) }

        // Only an allocation can fail, and failure changes nothing.
        ensures only_if_allocating { OnErr result ((N < capacity) × ¬ (capacity ≡ self.old.block)) }
        ensures error { IfErr result (λ e. IsErrorFor e capacity) }
        ensures unchanged { OnErr result (self.new ≡ self.old) }
    {
        if capacity > N {
            return self.set_block(capacity);
        }
        self.move_in_place();
        Ok(())
    }

    // Allocates a block of exactly `capacity` places, or reallocates the present one to that
    // capacity.
    fn set_block(&mut self, capacity: usize) -> Result<(), TryReserveError>
        // The items fit in the new capacity, which is not 0.
        requires fits { length self.old.items ≤ capacity }
        requires some { 0 < capacity }

        // Success leaves the items in a block of that capacity.
        ensures made { OnOk result (self.new ≡ with_block (type_size T.row) capacity self.old) }

        // Only an allocation can fail, and failure changes nothing.
        ensures only_if_allocating { OnErr result (¬ (capacity ≡ self.old.block)) }
        ensures error { IfErr result (λ e. IsErrorFor e capacity) }
        ensures unchanged { OnErr result (self.new ≡ self.old) }
    {
        match &mut self.data {
            Data::InPlace(few, alloc) => {
                self.data = Data::InBlock(move_to_exact_block(few, *alloc, capacity)?);
                Ok(())
            }
            Data::InBlock(heap) => return resize(heap, capacity),
        }
    }

    // Moves the items inline.
    fn move_in_place(&mut self)
        requires { length self.old.items ≤ N }
        ensures { self.new ≡ back_in_place self.old }
    {
        let Data::InBlock(heap) = &mut self.data else {
            return;
        };
        let alloc = *heap.allocator();
        let items = mem::replace(heap, Vec::new_in(alloc));
        self.data = Data::InPlace(collect_in_place(items), alloc);
    }

    /// Shrinks the capacity to the length, as `grow` with the length does.
    ///
    /// So the items are inline again if there are at most `N` of them.
    ///
    /// # Errors
    /// `CapacityOverflow`, or `AllocError` with the length, as `grow` returns them. The vector is
    /// unchanged.
    pub fn shrink_to_fit(&mut self) -> Result<(), TryReserveError>
        ensures fits { length self.old.items ≤ N → IsOk result }
        ensures made { let n = length self.old.items in
            OnOk result (self.new ≡ with_places (type_size T.row) N n self.old) }
        ensures only_if_allocating { let n = length self.old.items in
            OnErr result ((N < n) × ¬ (n ≡ self.old.block)) }
        ensures error { IfErr result (λ e. IsErrorFor e (length self.old.items)) }
        ensures unchanged { OnErr result (self.new ≡ self.old) }
    {
        self.grow(self.len())
    }

    /// Shrinks the capacity to `min_capacity`, or to the length if that is greater.
    ///
    /// If that is at most `N`, the items are stored inline, which does not allocate. Else does
    /// nothing if the capacity is no greater, and otherwise allocates a block of exactly so many
    /// places and deallocates the old one. Does not allocate for zero-sized items.
    ///
    /// # Errors
    /// `AllocError` with the requested capacity if the allocation fails. The vector is unchanged.
    #[tactic(auto, unfolding(crate::specs::Inlined::shrunk, crate::specs::Inlined::with_places), using(std::proofs::lemmas::Bool::Decides::nat_tests))]
    pub fn shrink_to(&mut self, min_capacity: usize) -> Result<(), TryReserveError>
        // If `N` places are enough, the call succeeds.
        ensures fits { max (length self.old.items) min_capacity ≤ N → IsOk result }
        ensures made { let n = max (length self.old.items) min_capacity in
            OnOk result (self.new ≡ shrunk (type_size T.row) N n self.old) }

        // Only an allocation can fail, and failure changes nothing.
        ensures only_if_allocating { let n = max (length self.old.items) min_capacity in
            OnErr result ((N < n) × NeedsNewBlock (type_size T.row) self.old.block n) }
        ensures error { let n = max (length self.old.items) min_capacity in
            IfErr result (λ e. e.kind ≡ AllocError n) }
        ensures unchanged { OnErr result (self.new ≡ self.old) }
    {
        if self.len().max(min_capacity) <= N {
            return self.grow(N);
        }
        match &mut self.data {
            Data::InPlace(_, _) => return Ok(()),
            Data::InBlock(heap) => heap.shrink_to(min_capacity),
        }
    }
}

// Moves the items of `few` into a new block of exactly `capacity` places, and returns it as a
// vector.
#[tactic(auto, unfolding(crate::specs::Inlined::in_new_block))]
pub(super) fn move_to_exact_block<T: MadeWith<A> + Drop, A: Allocator + Copy, const N: usize>(
    few: &mut Few<T, N>,
    alloc: A,
    capacity: usize,
) -> Result<Vec<T, A>, TryReserveError>
    requires { length few.old ≤ capacity }
    ensures made { IfOk result
        (λ v. block_of v ≡ in_new_block (type_size T.row) capacity (in_place few.old alloc)) }
    ensures doubles { IfOk result (λ v. v.growth ≡ Doubling) }
    ensures grown { IfOk result (λ v. v.grown ≡ of_new (type_size T.row) capacity) }
    ensures error { IfErr result (λ e. IsErrorFor e capacity) }
    ensures unchanged { OnErr result (few.new ≡ few.old) }
{
    let mut heap = Vec::with_capacity_in(capacity, alloc)?;
    few.pour(&mut heap);
    Ok(heap)
}

// Reallocates the block to exactly `capacity` places.
#[tactic(auto, unfolding(crate::specs::Inlined::resized))]
fn resize<T, A: Allocator>(heap: &mut Vec<T, A>, capacity: usize) -> Result<(), TryReserveError>
    // The items fit in the new capacity.
    requires { length heap.old.items ≤ capacity }

    // Success changes the capacity. The growth policy is the same in either case.
    ensures made { OnOk result
        (block_of heap.new ≡ resized (type_size T.row) capacity (block_of heap.old)) }
    ensures doubles { heap.new.growth ≡ heap.old.growth }

    // Only an allocation can fail, and failure changes nothing.
    ensures only_if_allocating { OnErr result (¬ (capacity ≡ heap.old.capacity)) }
    ensures error { IfErr result (λ e. IsErrorFor e capacity) }
    ensures unchanged { OnErr result (heap.new ≡ heap.old) }
{
    if capacity <= heap.capacity() {
        heap.shrink_to(capacity)
    } else {
        heap.try_reserve_exact(capacity - heap.len())
    }
}

// Returns the items of a vector, which are at most `N`, inline.
#[tactic(auto, using(crate::proofs::Bringing::gathering))]
fn collect_in_place<T: MadeWith<A> + Drop, A: Allocator + Copy, const N: usize>(
    items: Vec<T, A>,
) -> Few<T, N>
    requires { length items.items ≤ N }
    ensures { result ≡ items.items }
{
    let mut few = Few::new(*items.allocator());
    for item in items {
        few.push(item);
    }
    few
}
