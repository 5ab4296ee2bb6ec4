//! Reserving leaves, and freeing them.
ghost use Rattle.std.specs.Prelude.{◌≡◌, ◌≢◌, ◌+◌, ◌*◌, ◌^◌, ◌<◌, ◌≤◌, [], ◌∷◌, ◌++◌, length, get_or, max, min, IfErr, IfOk, IfNone, IfSome, OnErr, OnOk, IsOk};
ghost use Rattle.std.specs.Mem.{type_size};
ghost use Rattle.allocator_api2.specs.Errors.{IsErrorFor};
ghost use Rattle.allocator_api2.specs.Places.{AreEmpty};
ghost use Rattle.allocator_api2.specs.declared.collections.TryReserveErrorKind.TheVariants.{AllocError};
ghost use Rattle.aa_ordered.specs.declared.leaves.Head.{Head};
ghost use Rattle.aa_ordered.specs.Arena.{AreNumbered};
ghost use Rattle.aa_ordered.specs.Leaves.{room_for, with_room};

use super::{Head, LEAF, Leaves, moves};
use allocator_api2::collections::{TryReserveError, TryReserveErrorKind};
use allocator_api2::raw_vec::RawVec;
use allocator_api2::vec::Vec;
use std::alloc::Allocator;

impl<T, A: Allocator + Clone> Leaves<T, A> {
    /// Reserves leaves for at least `additional` more lists.
    ///
    /// Allocates only if there are not as many free leaves, and then at least doubles the number of
    /// leaves: a new block over a clone of the allocator, to which the lists move.
    ///
    /// # Errors
    /// `CapacityOverflow` if the bytes exceed `isize::MAX` or the items `usize::MAX`; `AllocError`
    /// with the number of items in the requested leaves. The arena is unchanged.
    pub fn try_reserve(&mut self, additional: usize) -> Result<(), TryReserveError>
        ensures fits { length self.old.lists + additional ≤ self.old.room → IsOk result }
        ensures reserved { OnOk result
            (self.new ≡ with_room self.old (room_for self.old additional)) }
        ensures error { IfErr result (λ e. IsErrorFor e (room_for self.old additional * 64)) }
        ensures exact { let n = room_for self.old additional * 64 in
            n < 2 ^ 64 → n * type_size T.row < 2 ^ 63 → IfErr result (λ e. e.kind ≡ AllocError n) }
        ensures unchanged { OnErr result (self.new ≡ self.old) }
    {
        self.prove_bounds();
        if additional <= self.room() - self.len() {
            return Ok(());
        }
        match leaves_for(self.room(), self.len(), additional) {
            Some(leaves) => self.move_to(leaves),
            None => Err(TryReserveErrorKind::CapacityOverflow.into()),
        }
    }

    /// Reduces the number of leaves to `leaves`, or to that of the lists if that is more.
    ///
    /// Does nothing if there are no more. Otherwise allocates a new block over a clone of the
    /// allocator, to which the lists move.
    ///
    /// # Errors
    /// `AllocError` with the number of items in the requested leaves. The arena is unchanged.
    pub fn shrink_to(&mut self, leaves: usize) -> Result<(), TryReserveError>
        ensures sufficient { self.old.room ≤ max leaves (length self.old.lists) → IsOk result }
        ensures shrunk { OnOk result (self.new
            ≡ with_room self.old (min self.old.room (max leaves (length self.old.lists)))) }
        ensures error { IfErr result (λ e. e.kind
            ≡ AllocError (max leaves (length self.old.lists) * 64)) }
        ensures unchanged { OnErr result (self.new ≡ self.old) }
    {
        self.prove_bounds();
        let leaves = leaves.max(self.len());
        if self.room() <= leaves {
            return Ok(());
        }
        self.move_to(leaves)
    }

    // Moves all lists to a new block of `leaves` leaves, and counts this as a resize.
    //
    // No blocks are allocated, or counted, for no leaves.
    #[cold]
    #[inline(never)]
    #[tactic(auto, using(allocator_api2::proofs::Blocks::emptied))]
    fn move_to(&mut self, leaves: usize) -> Result<(), TryReserveError>
        requires lists { length self.old.lists ≤ leaves }
        requires other { leaves ≢ self.old.room }
        requires small { leaves * 64 < 2 ^ 64 }
        ensures moved { OnOk result (self.new ≡ with_room self.old leaves) }
        ensures error { IfErr result (λ e. IsErrorFor e (leaves * 64)) }
        ensures exact { leaves * 64 * type_size T.row < 2 ^ 63
            → IfErr result (λ e. e.kind ≡ AllocError (leaves * 64)) }
        ensures less { leaves ≤ self.old.room
            → IfErr result (λ e. e.kind ≡ AllocError (leaves * 64)) }
        ensures unchanged { OnErr result (self.new ≡ self.old) }
    {
        self.block.prove_capacity_bounds();
        let used = self.used;
        let mut block = block_for(self.block.allocator(), leaves * LEAF)?;
        let heads = numbered(
            &self.heads.as_slice()[..used],
            leaves,
            self.block.allocator(),
        )?;
        moves::move_lists(&mut self.block, &self.heads.as_slice()[..used], &mut block);
        self.block.forget_from(0);
        self.block = block;
        self.heads = heads;
        self.resizes.add(leaves.min(1));
        Ok(())
    }
}

// Returns the number of leaves to reserve, or `None` if the items exceed `usize::MAX`.
fn leaves_for(room: usize, len: usize, additional: usize) -> Option<usize>
    requires { room * 64 < 2 ^ 64 }
    ensures some { IfSome result (λ n. n ≡ max (2 * room) (len + additional)) }
    ensures small { IfSome result (λ n. n * 64 < 2 ^ 64) }
    ensures none { IfNone result (2 ^ 64 ≤ max (2 * room) (len + additional) * 64) }
{
    let required = len.checked_add(additional)?;
    let leaves = required.max(2 * room);
    if leaves > usize::MAX / LEAF {
        return None;
    }
    Some(leaves)
}

// Returns a block with capacity for `capacity` items, allocated by a clone of `alloc`.
#[tactic(auto, using(allocator_api2::proofs::Blocks::emptied))]
fn block_for<T, A: Allocator + Clone>(
    alloc: &A,
    capacity: usize,
) -> Result<RawVec<T, A>, TryReserveError>
    ensures room { IfOk result (λ b. capacity ≤ length b.places) }
    ensures empty { IfOk result (λ b. AreEmpty b.places) }
    ensures error { IfErr result (λ e. IsErrorFor e capacity) }
    ensures less { capacity * type_size T.row < 2 ^ 63
        → IfErr result (λ e. e.kind ≡ AllocError capacity) }
{
    let Ok(own) = alloc.clone() else {
        return Err(TryReserveErrorKind::AllocError { capacity }.into());
    };
    let block = RawVec::with_capacity_in(capacity, own)?;
    block.prove_capacity_bounds();
    Ok(block)
}

// Returns heads of `leaves` leaves in order, of which the first have lists as long as those of
// `heads`, allocated by a clone of `alloc`.
fn numbered<A: Allocator + Clone>(
    heads: &[Head],
    leaves: usize,
    alloc: &A,
) -> Result<Vec<Head, A>, TryReserveError>
    requires within { length heads.now ≤ leaves }
    requires small { leaves * 64 < 2 ^ 64 }
    ensures heads { IfOk result (λ v. AreNumbered heads.now leaves v.items) }
    ensures error { IfErr result (λ e. e.kind ≡ AllocError (leaves * 64)) }
{
    let error = TryReserveErrorKind::AllocError {
        capacity: leaves * LEAF,
    };
    let Ok(own) = alloc.clone() else {
        return Err(error.into());
    };
    let Ok(made) = Vec::with_capacity_in(leaves, own) else {
        return Err(error.into());
    };
    let mut made = made;
    'each: for leaf in 0..leaves {
        let len = len_at(heads, leaf);
        push_head(&mut made, Head { leaf, len });
    }
    Ok(made)
}

// Returns the number of items of the list at index `i`, or 0 if there is no such list.
fn len_at(heads: &[Head], i: usize) -> usize
    ensures { (d : Head) → i < length heads.now → result ≡ (get_or heads.now i d).len }
{
    match heads.get(i) {
        Some(head) => head.len,
        None => 0,
    }
}

// Appends `head`, for which there is capacity.
fn push_head<A: Allocator>(heads: &mut Vec<Head, A>, head: Head)
    requires { length heads.old.items < heads.old.capacity }
    ensures items { heads.new.items ≡ heads.old.items ++ head ∷ [] }
    ensures capacity { heads.new.capacity ≡ heads.old.capacity }
{
    match heads.push(head) {
        Ok(()) => {}
        Err(_) => unreachable!(),
    }
}
