//! Conversions of a small vector.
ghost use Rattle.std.specs.Prelude.{◌≡◌, length, false, true, IfErr, IfOk, IsOk, OnErr, OnOk};
ghost use Rattle.std.specs.Mem.{type_size};
ghost use Rattle.allocator_api2.specs.Errors.{IsErrorFor};
ghost use Rattle.allocator_api2.specs.Slice.{new_slice};
ghost use Rattle.allocator_api2.specs.declared.raw_vec.Growth.TheVariants.{Doubling};
ghost use Rattle.aa_inline.specs.Inlined.{block_of, boxed};

use crate::few::Few;
use crate::inline::places::move_to_exact_block;
use crate::inline::{Data, InlineVec};
use allocator_api2::boxed::BoxedSlice;
use allocator_api2::collections::{Refused, TryReserveError};
use allocator_api2::vec::Vec;
use std::alloc::Allocator;
use std::default::MadeWith;

impl<T: MadeWith<A> + Drop, A: Allocator + Copy, const N: usize> InlineVec<T, A, N> {
    /// Returns the items as a boxed slice.
    ///
    /// Allocates a block for exactly the items, except if they are in such a block already.
    ///
    /// # Errors
    /// `CapacityOverflow`, or `AllocError` with the length, if the allocation fails. The small
    /// vector is returned in the error, as it was.
    pub fn into_boxed_slice(self) -> Result<BoxedSlice<T, A>, Refused<Self>>
        ensures fits { self.spilled ≡ true → length self.items ≡ self.block → IsOk result }
        ensures made { IfOk result (λ b. b ≡ boxed (type_size T.row) self) }
        ensures returned { IfErr result (λ r. r.source ≡ self) }
        ensures error { IfErr result (λ r. IsErrorFor r.error (length self.items)) }
    {
        let InlineVec { data } = self;
        match data {
            Data::InBlock(heap) => match heap.into_boxed_slice() {
                Ok(boxed) => Ok(boxed),
                Err(refused) => Err(Refused {
                    source: InlineVec {
                        data: Data::InBlock(refused.source),
                    },
                    error: refused.error,
                }),
            },
            Data::InPlace(few, alloc) => {
                let mut few = few;
                match move_to_boxed_slice(&mut few, alloc) {
                    Ok(boxed) => Ok(boxed),
                    Err(error) => Err(Refused {
                        source: InlineVec {
                            data: Data::InPlace(few, alloc),
                        },
                        error,
                    }),
                }
            }
        }
    }
}

impl<T, A: Allocator, const N: usize> InlineVec<T, A, N> {
    /// Converts `vec`, which must grow by doubling, into a small vector.
    ///
    /// The items remain in the block of `vec`, even if they would fit inline, until `grow`,
    /// `shrink_to` or `shrink_to_fit` moves them. The capacity does not change, even if it is below
    /// `N`. Does not allocate, and moves no item.
    pub fn from_vec(vec: Vec<T, A>) -> Self
        requires { vec.growth ≡ Doubling }
        ensures { result ≡ block_of vec }
    {
        InlineVec {
            data: Data::InBlock(vec),
        }
    }

    /// Returns the items as an array, if they are inline and as many as its length.
    ///
    /// Does not allocate.
    ///
    /// # Errors
    /// Otherwise the small vector is returned, as it was.
    pub fn into_inner(self) -> Result<[T; N], Self>
        ensures fits { self.spilled ≡ false → length self.items ≡ N → IsOk result }
        ensures made { IfOk result (λ items. items ≡ self.items) }
        ensures inline { OnOk result (self.spilled ≡ false) }
        ensures returned { IfErr result (λ s. s ≡ self) }
    {
        let InlineVec { data } = self;
        match data {
            Data::InPlace(few, alloc) => {
                if few.len() == N {
                    return Ok(few.into_places());
                }
                Err(InlineVec {
                    data: Data::InPlace(few, alloc),
                })
            }
            Data::InBlock(heap) => Err(InlineVec {
                data: Data::InBlock(heap),
            }),
        }
    }
}

// Moves the items of `few` into a new block for exactly these, and returns it as a boxed slice.
#[tactic(auto, unfolding(crate::specs::Inlined::in_new_block), using(allocator_api2::proofs::Blocks::with_room))]
fn move_to_boxed_slice<T: MadeWith<A> + Drop, A: Allocator + Copy, const N: usize>(
    few: &mut Few<T, N>,
    alloc: A,
) -> Result<BoxedSlice<T, A>, TryReserveError>
    ensures made { IfOk result (λ b. b ≡ new_slice (type_size T.row) few.old alloc) }
    ensures error { IfErr result (λ e. IsErrorFor e (length few.old)) }
    ensures unchanged { OnErr result (few.new ≡ few.old) }
{
    let len = few.len();
    let heap = move_to_exact_block(few, alloc, len)?;
    match heap.into_boxed_slice() {
        Ok(boxed) => Ok(boxed),
        Err(_) => unreachable!(),
    }
}
