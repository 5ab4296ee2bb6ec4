//! `Box`, which holds one value in memory of an allocator.
ghost use Rattle.std.specs.Prelude.{◌≡◌, ◌<◌, IfOk, IfErr, IsSome, Some, [], ◌∷◌};
ghost use Rattle.std.specs.Mem.{type_size};
ghost use Rattle.std.specs.Borrow.{sem};
ghost use Rattle.aa_boxed.specs.Slice.{new_slice};

use aa_raw::raw_box::RawBox;
use std::alloc::{AllocError, Allocator, Global};
use std::convert::{AsMut, AsRef};
use std::default::Default;
use std::marker::Model;
use std::ops::{Deref, DerefMut};

mod arrays;
mod builder;
mod cloning;
mod compare;
mod forward;
mod io;
mod slice;
mod slice_compare;
mod slice_traits;
mod text;
mod text_compare;
mod uninit;

pub use slice::BoxedSlice;
pub use text::{BoxedText, append_texts, append_texts_by};
pub use uninit::UninitBox;

/// A value in memory of the allocator `A`.
///
/// Does not allocate for a zero-sized value. When dropped, drops the value and deallocates the
/// memory.
///
/// Unlike allocator-api2's, holds only values of sized types.
pub struct Box<T, A: Allocator = Global> {
    block: RawBox<T, A>,
    ghost filled: { IsSome block.place },
}

impl<T, A: Allocator> Model for Box<T, A> {
    ghost use Rattle.aa_boxed.specs.Boxed.{Boxed};

    ghost Value = { Boxed T A };

    ghost use Rattle.aa_boxed.specs.BoxInner.{view_of};

    ghost view = { view_of };
}

impl<T> Box<T, Global> {
    /// Returns a box that holds `x`, allocated by the global allocator.
    ///
    /// Does not allocate if `T` is zero-sized.
    ///
    /// # Errors
    /// `AllocError` if the allocation fails, and never for a zero-sized `T`. `x` is dropped.
    ///
    /// allocator-api2's `new` aborts instead of returning an error.
    pub fn new(alloc: Global, x: T) -> Result<Self, AllocError>
    where
        T: Drop,
        ensures made { IfOk result (λ b. b ≡ record { value = x; alloc = alloc }) }
        ensures error { IfErr result (λ _. 0 < type_size T.row) }
    {
        Box::new_in(x, alloc)
    }

    /// Returns a box for a value that is still to be written, allocated by the global allocator.
    ///
    /// Does not allocate if `T` is zero-sized.
    ///
    /// # Errors
    /// `AllocError` if the allocation fails, and never for a zero-sized `T`.
    ///
    /// allocator-api2's `new_uninit` aborts instead of returning an error.
    pub fn new_uninit(alloc: Global) -> Result<UninitBox<T, Global>, AllocError>
        ensures made { IfOk result (λ b. b ≡ alloc) }
        ensures error { IfErr result (λ _. 0 < type_size T.row) }
    {
        Box::new_uninit_in(alloc)
    }

    /// Returns the same as `new`.
    ///
    /// Allocates and fails as that does.
    pub fn try_new(alloc: Global, x: T) -> Result<Self, AllocError>
    where
        T: Drop,
        ensures made { IfOk result (λ b. b ≡ record { value = x; alloc = alloc }) }
        ensures error { IfErr result (λ _. 0 < type_size T.row) }
    {
        Box::new(alloc, x)
    }

    /// Returns the same as `new_uninit`.
    ///
    /// Allocates and fails as that does.
    pub fn try_new_uninit(alloc: Global) -> Result<UninitBox<T, Global>, AllocError>
        ensures made { IfOk result (λ b. b ≡ alloc) }
        ensures error { IfErr result (λ _. 0 < type_size T.row) }
    {
        Box::new_uninit(alloc)
    }
}

impl<T, A: Allocator> Box<T, A> {
    /// Returns a box that holds `x`, allocated by `alloc`.
    ///
    /// Does not allocate if `T` is zero-sized.
    ///
    /// # Errors
    /// `AllocError` if the allocation fails, and never for a zero-sized `T`. `x` is dropped.
    ///
    /// allocator-api2's `new_in` aborts instead of returning an error.
    pub fn new_in(x: T, alloc: A) -> Result<Self, AllocError>
    where
        T: Drop,
        ensures made { IfOk result (λ b. b ≡ record { value = x; alloc = alloc }) }
        ensures error { IfErr result (λ _. 0 < type_size T.row) }
    {
        let room = Box::new_uninit_in(alloc)?;
        Ok(UninitBox::write(room, x))
    }

    /// Returns the same as `new_in`.
    ///
    /// Allocates and fails as that does.
    pub fn try_new_in(x: T, alloc: A) -> Result<Self, AllocError>
    where
        T: Drop,
        ensures made { IfOk result (λ b. b ≡ record { value = x; alloc = alloc }) }
        ensures error { IfErr result (λ _. 0 < type_size T.row) }
    {
        Self::new_in(x, alloc)
    }

    /// Returns a box for a value that is still to be written, allocated by `alloc`.
    ///
    /// Does not allocate if `T` is zero-sized.
    ///
    /// # Errors
    /// `AllocError` if the allocation fails, and never for a zero-sized `T`.
    ///
    /// allocator-api2's `new_uninit_in` aborts instead of returning an error.
    pub fn new_uninit_in(alloc: A) -> Result<UninitBox<T, A>, AllocError>
        ensures made { IfOk result (λ b. b ≡ alloc) }
        ensures error { IfErr result (λ _. 0 < type_size T.row) }
    {
        UninitBox::allocate_in(alloc)
    }

    /// Returns the same as `new_uninit_in`.
    ///
    /// Allocates and fails as that does.
    pub fn try_new_uninit_in(alloc: A) -> Result<UninitBox<T, A>, AllocError>
        ensures made { IfOk result (λ b. b ≡ alloc) }
        ensures error { IfErr result (λ _. 0 < type_size T.row) }
    {
        Self::new_uninit_in(alloc)
    }

    /// Returns the value as a boxed slice of one element, in the same block.
    ///
    /// Does not allocate.
    pub fn into_boxed_slice(b: Box<T, A>) -> BoxedSlice<T, A>
        ensures { result ≡ new_slice (type_size T.row) (b.value ∷ []) b.alloc }
    {
        let Box { block } = b;
        BoxedSlice::from_block(block.into_raw_vec(), 1)
    }

    /// Moves the value out of the box and returns it.
    ///
    /// Deallocates the memory of the box.
    pub fn into_inner(b: Box<T, A>) -> T
        ensures { result ≡ b.value }
    {
        let Box { mut block } = b;
        block.take()
    }

    /// Returns a reference to the allocator.
    pub fn allocator(b: &Box<T, A>) -> &A
        ensures { result.now ≡ b.now.alloc }
    {
        b.block.allocator()
    }

    /// Returns a box that holds the default value of `T`.
    ///
    /// Allocates and fails as `new_in` does.
    ///
    /// # Errors
    /// `AllocError` if the allocation fails, and never for a zero-sized `T`. The value is dropped.
    ///
    /// Corresponds to allocator-api2's `Default` for `Box`, which aborts instead of returning an
    /// error.
    pub fn try_default(alloc: A) -> Result<Self, AllocError>
    where
        T: Default + Drop,
        ensures made { IfOk result (λ b. T.is_default b.value) }
        ensures alloc { IfOk result (λ b. b.alloc ≡ alloc) }
        ensures error { IfErr result (λ _. 0 < type_size T.row) }
    {
        Box::new_in(T::default(), alloc)
    }

    /// Returns a box that holds a clone of the value, over a clone of the allocator.
    ///
    /// Does not allocate if `T` is zero-sized.
    ///
    /// # Errors
    /// `AllocError` if the clone of the allocator, the clone of the value, or the allocation fails.
    ///
    /// allocator-api2's `clone` aborts instead of returning an error.
    pub fn clone(&self) -> Result<Self, AllocError>
    where
        T: Clone + Drop,
        A: Clone,
        ensures made { IfOk result (λ b. T.is_clone self.now.value b.value) }
        ensures alloc { IfOk result (λ b. A.is_clone self.now.alloc b.alloc) }
        ensures error { let sure = T.is_infallible self.now.value
            × A.is_infallible self.now.alloc in
            IfErr result (λ _. sure → 0 < type_size T.row) }
    {
        let alloc = self.block.allocator().clone()?;
        Box::new_in((**self).clone()?, alloc)
    }

    // Returns the box of a filled place.
    fn from_filled_block(block: RawBox<T, A>) -> Self
        requires { IsSome block.place }
        ensures alloc { result.alloc ≡ block.alloc }
        ensures value { block.place ≡ Some result.value }
    {
        Box { block }
    }
}

impl<T: Drop, A: Allocator> Drop for Box<T, A> {
    /// Drops the value and deallocates the memory.
    fn drop(self) {
        let Box { mut block } = self;
        let _value = block.take();
    }
}

impl<T, A: Allocator> Deref for Box<T, A> {
    type Target = T;

    ghost deref_gives = { λ b x. x ≡ b.value };

    /// Returns a reference to the value.
    fn deref(&self) -> &T
        ensures { result.now ≡ self.now.value }
    {
        self.block.get()
    }
}

impl<T, A: Allocator> DerefMut for Box<T, A> {
    ghost use Rattle.aa_boxed.specs.BoxLends.{lends_value};

    ghost deref_mut_gives = { λ b x. x ≡ b.value };

    /// Returns a mutable reference to the value.
    ///
    /// The last value written through it is the value of the box afterwards.
    fn deref_mut(&mut self) -> &mut T
        ensures* writes_back { sem 𝓛 (lends_value T.row A.row A.Allocator self.entry result) }
        ensures value { result.now ≡ self.old.value }
    {
        self.block.get_mut()
    }
}

impl<T, A: Allocator> AsRef<T> for Box<T, A> {
    /// Returns a reference to the value, as `deref` does.
    fn as_ref(&self) -> &T
        ensures { result.now ≡ self.now.value }
    {
        self.deref()
    }
}

impl<T, A: Allocator> AsMut<T> for Box<T, A> {
    ghost use Rattle.aa_boxed.specs.BoxLends.{lends_value};

    /// Returns a mutable reference to the value, as `deref_mut` does.
    fn as_mut(&mut self) -> &mut T
        ensures* writes_back { sem 𝓛 (lends_value T.row A.row A.Allocator self.entry result) }
        ensures value { result.now ≡ self.old.value }
    {
        self.deref_mut()
    }
}
