//! Reading, writing and seeking, forwarded to the value of a box.
ghost use Rattle.std.specs.Prelude.{◌≡◌, [], length, OnOk, IfOk, IfSome};
ghost use Rattle.std.specs.Borrow.{sem};
ghost use Rattle.aa_boxed.specs.contracts.boxed.Box.{the_row};
ghost use Rattle.std.specs.Io.{ReadsAtMost, WritesAtMost, StartsWith};
ghost use Rattle.std.specs.Io.KnownBytes.{Keeps, Appends, Consumes, ReadConsumes, WriteAppends};
ghost use Rattle.std.specs.Io.BufRead.{Rests, FillKeeps, DropsConsumable};
ghost use Rattle.std.specs.Io.Seek.{StaysAt, MovesTo, MovesBy, SeekMoves};

use crate::boxed::Box;
use std::alloc::Allocator;
use std::io::{BufRead, Read, Result, Seek, SeekFrom, Write};

impl<R: Read, A: Allocator> Read for Box<R, A> {
    ghost remaining = { λ b. R.remaining b.value };

    fn read(&mut self, buf: &mut [u8]) -> Result<usize>
        ensures bound { ReadsAtMost result buf.new }
        ensures bytes { ReadConsumes (R.remaining self.old.value)
            (R.remaining self.new.value) result buf.new }
        ensures alloc { self.new.alloc ≡ self.old.alloc }
    {
        (**self).read(buf)
    }

    fn read_exact(&mut self, buf: &mut [u8]) -> Result<()>
        ensures bytes { OnOk result
            (Consumes (R.remaining self.old.value) (R.remaining self.new.value) buf.new) }
        ensures alloc { self.new.alloc ≡ self.old.alloc }
    {
        (**self).read_exact(buf)
    }
}

impl<B: BufRead, A: Allocator> BufRead for Box<B, A> {
    ghost consumable_len = { λ b. B.consumable_len b.value };

    fn fill_buf(&mut self) -> Result<&[u8]>
        ensures front { IfSome (B.Read.remaining self.old.value)
            (λ xs. IfOk result (λ s. StartsWith xs s.now)) }
        ensures end { IfSome (B.Read.remaining self.old.value)
            (λ xs. IfOk result (λ s. length s.now ≡ 0 → xs ≡ [])) }
        ensures* after_borrow { sem 𝓛
            (Rests (the_row B.row A.row A.Allocator) self.entry
            (λ new. FillKeeps (B.Read.remaining self.old.value) (B.Read.remaining new.value)
            (B.consumable_len new.value) result × (new.alloc ≡ self.old.alloc))) }
    {
        (**self).fill_buf()
    }

    fn consume(&mut self, amount: usize)
        ensures bytes { DropsConsumable (B.Read.remaining self.old.value)
            (B.Read.remaining self.new.value) (B.consumable_len self.old.value) amount }
        ensures alloc { self.new.alloc ≡ self.old.alloc }
    {
        (**self).consume(amount)
    }
}

impl<W: Write, A: Allocator> Write for Box<W, A> {
    ghost contents = { λ b. W.contents b.value };

    fn write(&mut self, buf: &[u8]) -> Result<usize>
        ensures bound { WritesAtMost result buf.now }
        ensures bytes { WriteAppends (W.contents self.old.value)
            (W.contents self.new.value) result buf.now }
        ensures alloc { self.new.alloc ≡ self.old.alloc }
    {
        (**self).write(buf)
    }

    fn flush(&mut self) -> Result<()>
        ensures bytes { Keeps (W.contents self.old.value) (W.contents self.new.value) }
        ensures alloc { self.new.alloc ≡ self.old.alloc }
    {
        (**self).flush()
    }

    fn write_all(&mut self, buf: &[u8]) -> Result<()>
        ensures bytes { OnOk result
            (Appends (W.contents self.old.value) (W.contents self.new.value) buf.now) }
        ensures alloc { self.new.alloc ≡ self.old.alloc }
    {
        (**self).write_all(buf)
    }
}

impl<S: Seek, A: Allocator> Seek for Box<S, A> {
    ghost stream_position = { λ b. S.stream_position b.value };

    ghost stream_bytes = { λ b. S.stream_bytes b.value };

    fn seek(&mut self, to: SeekFrom) -> Result<u64>
        ensures moved { SeekMoves (S.stream_position self.old.value)
            (S.stream_position self.new.value) (S.stream_bytes self.old.value) to result }
        ensures bytes { Keeps (S.stream_bytes self.old.value) (S.stream_bytes self.new.value) }
        ensures alloc { self.new.alloc ≡ self.old.alloc }
    {
        (**self).seek(to)
    }

    fn rewind(&mut self) -> Result<()>
        ensures moved { MovesTo (S.stream_position self.old.value)
            (S.stream_position self.new.value) 0 result }
        ensures bytes { Keeps (S.stream_bytes self.old.value) (S.stream_bytes self.new.value) }
        ensures alloc { self.new.alloc ≡ self.old.alloc }
    {
        (**self).rewind()
    }

    fn stream_position(&mut self) -> Result<u64>
        ensures value { IfSome (S.stream_position self.old.value)
            (λ at. IfOk result (λ n. n ≡ at)) }
        ensures unchanged { StaysAt (S.stream_position self.old.value)
            (S.stream_position self.new.value) }
        ensures bytes { Keeps (S.stream_bytes self.old.value) (S.stream_bytes self.new.value) }
        ensures alloc { self.new.alloc ≡ self.old.alloc }
    {
        (**self).stream_position()
    }

    fn seek_relative(&mut self, offset: i64) -> Result<()>
        ensures moved { MovesBy (S.stream_position self.old.value)
            (S.stream_position self.new.value) offset result }
        ensures bytes { Keeps (S.stream_bytes self.old.value) (S.stream_bytes self.new.value) }
        ensures alloc { self.new.alloc ≡ self.old.alloc }
    {
        (**self).seek_relative(offset)
    }
}
