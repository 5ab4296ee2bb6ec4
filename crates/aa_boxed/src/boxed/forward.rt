//! The traits that a box forwards to its value.
ghost use Rattle.std.specs.Prelude.{◌≡◌};
ghost use Rattle.aa_boxed.specs.Boxed.{with_value};

use crate::boxed::Box;
use std::alloc::Allocator;
use std::hash::Hasher;
use std::iter::FusedIterator;

impl<I: Iterator, A: Allocator> Iterator for Box<I, A> {
    type Item = I::Item;

    ghost can_next = { λ b. I.can_next b.value };

    ghost next_gives = { λ b r c. I.next_gives b.value r c.value × (c ≡ with_value b c.value) };

    ghost remaining = { λ b. I.remaining b.value };

    fn next(&mut self) -> Option<I::Item> {
        (**self).next()
    }

    fn size_hint(&self) -> (usize, Option<usize>) {
        (**self).size_hint()
    }
}

impl<I: DoubleEndedIterator, A: Allocator> DoubleEndedIterator for Box<I, A> {
    ghost can_next_back = { λ b. I.can_next_back b.value };

    ghost next_back_gives = { λ b r c. I.next_back_gives b.value r c.value
        × (c ≡ with_value b c.value) };

    fn next_back(&mut self) -> Option<I::Item> {
        (**self).next_back()
    }
}

impl<I: ExactSizeIterator, A: Allocator> ExactSizeIterator for Box<I, A> {
    fn len(&self) -> usize {
        (**self).len()
    }
}

impl<I: FusedIterator, A: Allocator> FusedIterator for Box<I, A> {}

impl<H: Hasher, A: Allocator> Hasher for Box<H, A> {
    ghost write = { λ b bytes. with_value b (H.write b.value bytes) };

    ghost finish = { λ b. H.finish b.value };

    fn finish(&self) -> u64 {
        (**self).finish()
    }

    fn write(&mut self, bytes: &[u8]) {
        (**self).write(bytes);
    }

    fn write_u8(&mut self, i: u8) {
        (**self).write_u8(i);
    }

    fn write_u16(&mut self, i: u16) {
        (**self).write_u16(i);
    }

    fn write_u32(&mut self, i: u32) {
        (**self).write_u32(i);
    }

    fn write_u64(&mut self, i: u64) {
        (**self).write_u64(i);
    }

    fn write_u128(&mut self, i: u128) {
        (**self).write_u128(i);
    }

    fn write_usize(&mut self, i: usize) {
        (**self).write_usize(i);
    }

    fn write_i8(&mut self, i: i8) {
        (**self).write_i8(i);
    }

    fn write_i16(&mut self, i: i16) {
        (**self).write_i16(i);
    }

    fn write_i32(&mut self, i: i32) {
        (**self).write_i32(i);
    }

    fn write_i64(&mut self, i: i64) {
        (**self).write_i64(i);
    }

    fn write_i128(&mut self, i: i128) {
        (**self).write_i128(i);
    }

    fn write_isize(&mut self, i: isize) {
        (**self).write_isize(i);
    }
}
