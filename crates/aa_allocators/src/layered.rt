//! An allocator that requests another layout from an inner one.
ghost use Rattle.std.specs.Prelude.{◌≡◌, ℕ, ◌^◌, ◌<◌, ◌≤◌};
ghost use Rattle.std.specs.Option.{SomeIff};
ghost use Rattle.aa_allocators.specs.Layers.{IsAlignment, padded, layered_right};

use std::alloc::{AllocError, Allocator};

/// A decision which layout is requested in place of the one that a collection requests.
///
/// It never sees a block, so implementing it needs no proof by hand. The ghost members state the
/// decision, and the functions compute it. A block is deallocated with the layout that it was
/// allocated with. So the decision depends on the layout and the layer's value alone.
pub trait Layer: Drop {
    // The size in bytes that is requested in place of a size, at an alignment.
    ghost size_for: { Self → ℕ → ℕ → ℕ };

    // The alignment that is requested for a size, in place of an alignment.
    ghost align_for: { Self → ℕ → ℕ → ℕ };

    /// Returns the size in bytes to request in place of `size`, or `None` if it exceeds
    /// `usize::MAX`.
    ///
    /// It is at least `size`, and is then rounded up to a multiple of what `align_for` returns. A
    /// request for more than `isize::MAX` bytes fails. So a layer fails a request by `None`.
    fn size_for(&self, size: usize, align: usize) -> Option<usize>
        requires { IsAlignment align }
        ensures value { SomeIff result (size_for self.now size align < 2 ^ 64)
            (size_for self.now size align) }
        ensures sufficient { size ≤ size_for self.now size align };

    /// Returns the alignment to request in place of `align`: it, or a larger power of two up to 16.
    fn align_for(&self, size: usize, align: usize) -> usize
        requires { IsAlignment align }
        ensures value { result ≡ align_for self.now size align }
        ensures sufficient { (align ≤ result) × IsAlignment result };
}

// Returns the number of bytes that is requested for `size`, or `usize::MAX` if that overflows.
pub(crate) fn requested_size<L: Layer>(layer: &L, size: usize, align: usize) -> usize
    requires { IsAlignment align }
    ensures { (result ≡ padded (L.size_for layer.now size align)
        (L.align_for layer.now size align)) × (size ≤ result) }
{
    let Some(bytes) = layer.size_for(size, align) else {
        return usize::MAX;
    };
    match bytes.checked_next_multiple_of(layer.align_for(size, align)) {
        Some(padded) => padded,
        None => usize::MAX,
    }
}

// Returns the alignment that is requested for `align`.
fn requested_align<L: Layer>(layer: &L, size: usize, align: usize) -> usize
    requires { IsAlignment align }
    ensures { (result ≡ L.align_for layer.now size align) × (align ≤ result) × IsAlignment result }
{
    layer.align_for(size, align)
}

/// An allocator that requests another layout from `inner`, which its layer chooses.
///
/// # Errors
/// `allocate` returns `AllocError` if the layer's size exceeds `isize::MAX`, or if `inner` does.
pub struct Layered<B: Allocator, L: Layer> {
    inner: B,
    layer: L,
}

impl<B: Allocator, L: Layer> Layered<B, L> {
    /// Creates an allocator over `inner` that requests the layouts of `layer`.
    ///
    /// This is how to make an allocator with a layer of one's own. Does not allocate.
    pub fn with_layer(inner: B, layer: L) -> Layered<B, L>
        ensures { result ≡ record { inner = inner; layer = layer } }
    {
        Layered { inner, layer }
    }

    /// Returns a reference to the layer.
    pub fn layer(&self) -> &L
        ensures { result.now ≡ self.now.layer }
    {
        &self.layer
    }

    /// Returns a reference to the inner allocator.
    pub fn inner(&self) -> &B
        ensures { result.now ≡ self.now.inner }
    {
        &self.inner
    }
}

impl<B: Allocator, L: Layer> Drop for Layered<B, L> {
    fn drop(self) {
        let Layered { inner: _, layer: _ } = self;
    }
}

unsafe impl<B: Allocator, L: Layer> Allocator for Layered<B, L> {
    // The right to free a block is the inner allocator's right to free the block that it allocated.
    ghost dealloc_token = { λ heap. layered_right (L.size_for heap.layer) (L.align_for heap.layer)
        (B.dealloc_token heap.inner) };

    fn allocate(&self, size: usize, align: usize) -> Result<*mut u8, AllocError> {
        let room = requested_size(&self.layer, size, align);
        let with = requested_align(&self.layer, size, align);
        // A block has at most `isize::MAX` bytes.
        if usize::MAX - room < room {
            return Err(AllocError);
        }
        self.inner.allocate(room, with)
    }

    unsafe fn deallocate(&self, ptr: *mut u8, size: usize, align: usize) {
        let room = requested_size(&self.layer, size, align);
        let with = requested_align(&self.layer, size, align);
        self.inner.deallocate(ptr, room, with);
    }
}

/// Returns an allocator over a clone of `inner`, with a clone of the layer.
///
/// # Errors
/// `AllocError` if the clone of the layer or of `inner` fails.
impl<B: Allocator + Clone, L: Layer + Clone> Clone for Layered<B, L> {
    ghost is_clone = { λ heap copy. L.is_clone heap.layer copy.layer
        × B.is_clone heap.inner copy.inner };

    ghost is_infallible = { λ heap. L.is_infallible heap.layer × B.is_infallible heap.inner };

    fn clone(&self) -> Result<Layered<B, L>, AllocError> {
        let layer = self.layer.clone()?;
        Ok(Layered::with_layer(self.inner.clone()?, layer))
    }
}
