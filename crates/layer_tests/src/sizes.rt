//! How many bytes the types of the library take.
use aa_boxed::boxed::{Box, BoxedSlice, BoxedText, UninitBox};
use aa_gap::gap_buffer::GapBuffer;
use aa_raw::raw_vec::RawVec;
use aa_raw::vec::into_iter::IntoIter;
use aa_vec::vec::{Drain, Vec};
use std::alloc::Global;
use std::mem::size_of;

#[test]
fn a_type_takes_no_more_than_its_words(rt: HostRuntime) {
    // The bytes of a type, and how many there are to be.
    for (size, bytes) in [
        (size_of::<Box<u64, Global>>(), 8),
        (size_of::<UninitBox<u64, Global>>(), 8),
        (size_of::<BoxedSlice<u64, Global>>(), 24),
        (size_of::<BoxedText<Global>>(), 24),
        (size_of::<RawVec<u64, Global>>(), 16),
        (size_of::<Vec<u64, Global>>(), 24),
        (size_of::<IntoIter<u64, Global>>(), 32),
        (size_of::<Drain<u64, Global>>(), 40),
        (size_of::<GapBuffer<u64, Global>>(), 32),
    ] {
        assert!(rt; size == bytes);
    }
}
