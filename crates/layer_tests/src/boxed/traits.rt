//! The traits that a box passes on, through their bounds.
ghost use Rattle.std.specs.Prelude.{◌≡◌};

use crate::boxed::{boxed, slice_of, text_of};
use crate::printed::are_printed;
use aa_boxed::boxed::Box;
use std::alloc::{AllocError, Allocator};
use std::cmp::Ordering;
use std::hash::{DefaultHasher, Hash, Hasher};
use std::io;
use std::io::{BufRead, Cursor, Read, Seek, SeekFrom, Write};
use std::ops::Range;
use std::test::Fail;
use std::vec::Vec;

// The numbers at the end, at the start and at the end again, and how many are left after the first.
fn walked(mut b: Box<Range<u32>>) -> ([Option<u32>; 3], (usize, Option<usize>), usize) {
    let back = b.next_back();
    let (hint, len) = (b.size_hint(), b.len());
    let front = b.next();
    ([back, front, b.last()], hint, len)
}

#[test]
fn an_iterator_is_walked_in_its_box(rt: HostRuntime) -> Result<(), Fail> {
    let b = boxed(rt.alloc(), 0..3u32)?;
    assert!(rt; walked(b) == ([Some(2), Some(0), Some(1)], (2, Some(2)), 2));
    Ok(())
}

// Returns the hash of numbers of each kind by a hasher of this kind.
fn hash_of_numbers<H: Hasher>(hasher: &mut H) -> u64 {
    hasher.write_u8(1);
    hasher.write_u16(2);
    hasher.write_u32(3);
    hasher.write_u64(4);
    hasher.write_u128(5);
    hasher.write_usize(6);
    hasher.write_i8(-1);
    hasher.write_i16(-2);
    hasher.write_i32(-3);
    hasher.write_i64(-4);
    hasher.write_i128(-5);
    hasher.write_isize(-6);
    hasher.write(b"bytes");
    hasher.finish()
}

fn hash_of<T: Hash>(x: &T) -> u64 {
    let mut hasher = DefaultHasher::new();
    x.hash(&mut hasher);
    hasher.finish()
}

#[test]
fn hashes_are_those_of_the_values(rt: HostRuntime) -> Result<(), Fail> {
    let mut hasher = boxed(rt.alloc(), DefaultHasher::new())?;
    assert!(rt; hash_of_numbers(&mut hasher) == hash_of_numbers(&mut DefaultHasher::new()));
    assert!(rt; hash_of(&boxed(rt.alloc(), 7u32)?) == hash_of(&7u32));
    assert!(rt; hash_of(&slice_of(rt.alloc(), &[1, 2])?) == hash_of(&[1u32, 2].as_slice()));
    assert!(rt; hash_of(&text_of(rt.alloc(), "text")?) == hash_of(&"text"));
    Ok(())
}

// Whether the first is less than the second by each comparison, and a clone of the second equals
// it.
fn ordered_and_cloned<T: Ord + Clone + Drop>(less: &T, more: &T) -> Result<bool, AllocError> {
    let ordered = less.partial_cmp(more) == Some(Ordering::Less);
    Ok(ordered && more.cmp(less) == Ordering::Greater && more.clone()? == *more)
}

#[test]
fn comparisons_and_clones_are_those_of_the_values(rt: HostRuntime) -> Result<(), Fail> {
    let (one, two) = (boxed(rt.alloc(), 1u32)?, boxed(rt.alloc(), 2u32)?);
    assert!(rt; matches!(ordered_and_cloned(&one, &two), Ok(true)));
    assert!(rt; matches!(are_printed(rt.alloc(), &one, &two, "1 2"), Ok(true)));
    Ok(())
}

#[test]
fn comparisons_and_clones_are_those_of_the_elements(rt: HostRuntime) {
    let (Ok(less), Ok(more)) = (
        slice_of(rt.alloc(), &[1, 5]),
        slice_of(rt.alloc(), &[1, 5, 3]),
    ) else {
        return assert!(rt; false);
    };
    assert!(rt; matches!(ordered_and_cloned(&less, &more), Ok(true)));
    let (Ok(less), Ok(more)) = (text_of(rt.alloc(), "hé"), text_of(rt.alloc(), "héllo")) else {
        return assert!(rt; false);
    };
    assert!(rt; matches!(ordered_and_cloned(&less, &more), Ok(true)));
}

// Returns what a reader returns by `read`, then by `read_exact`, and whether these bytes are shown
// after one that is skipped.
fn parts_of<R: BufRead>(
    reader: &mut R,
    shown: &[u8],
) -> io::Result<(usize, [u8; 2], [u8; 2], bool)> {
    let (mut first, mut second) = ([0; 2], [0; 2]);
    let count = reader.read(&mut first)?;
    reader.read_exact(&mut second)?;
    reader.consume(1);
    let same = reader.fill_buf()? == shown;
    Ok((count, first, second, same))
}

// How a position is sought.
#[derive(Clone, Copy)]
enum Sought {
    Nowhere,
    At(u64),
    By(i64),
    Start,
}

// Returns the position after a seek, as the value reports it.
fn position_after<S: Seek>(value: &mut S, sought: Sought) -> io::Result<u64> {
    match sought {
        Sought::Nowhere => {}
        Sought::At(position) => return value.seek(SeekFrom::Start(position)),
        Sought::By(count) => value.seek_relative(count)?,
        Sought::Start => value.rewind()?,
    }
    value.stream_position()
}

// Returns whether each position is reported after the seeks before it.
fn are_sought<S: Seek>(value: &mut S, rows: [(Sought, Option<u64>); 4]) -> bool {
    let mut all = true;
    for (sought, position) in rows {
        all = all && position_after(value, sought).ok() == position;
    }
    all
}

// Returns whether a box is read as `parts_of` has it, and each position is reported after that.
fn read_and_sought(mut b: Box<Cursor<&[u8]>>) -> bool {
    let read = parts_of(&mut b, b"wo").ok();
    let sought = are_sought(
        &mut b,
        [
            (Sought::At(1), Some(1)),
            (Sought::Nowhere, Some(1)),
            (Sought::By(1), Some(2)),
            (Sought::Start, Some(0)),
        ],
    );
    sought && read == Some((2, *b"on", *b"e ", true))
}

#[test]
fn a_buffer_is_read_and_sought_in_its_box(rt: HostRuntime) -> Result<(), Fail> {
    let b = boxed(rt.alloc(), Cursor::new(b"one two".as_slice()))?;
    assert!(rt; read_and_sought(b));
    Ok(())
}

// How many bytes are shown at once. What is known of the allocator before is known after.
fn count_shown<B: BufRead, A: Allocator>(b: &mut Box<B, A>) -> io::Result<usize>
    ensures { b.new.alloc ≡ b.old.alloc }
{
    Ok(b.fill_buf()?.len())
}

// Reads to the end. What is known of the allocator before is known after.
fn read_out<R: Read, A: Allocator>(b: &mut Box<R, A>, rest: &mut Vec<u8>) -> io::Result<usize>
    ensures { b.new.alloc ≡ b.old.alloc }
{
    (**b).read_to_end(rest)
}

// Writes a number. What is known of the allocator before is known after.
fn write_number<W: Write, A: Allocator>(b: &mut Box<W, A>, number: u32) -> io::Result<()>
    ensures { b.new.alloc ≡ b.old.alloc }
{
    (**b).write_fmt(number)
}

// How many bytes a box shows, and how many are read of it.
fn all_read(mut b: Box<Cursor<&[u8]>>, rest: &mut Vec<u8>) -> (Option<usize>, Option<usize>) {
    (count_shown(&mut b).ok(), read_out(&mut b, rest).ok())
}

// Returns whether a number is written, how many bytes are written after it, and whether the box
// then has these.
fn all_written(mut b: Box<Vec<u8>>, bytes: &[u8]) -> (bool, Option<usize>, bool) {
    let number = write_number(&mut b, 2).is_ok();
    let count = three_written(&mut b).ok();
    (number, count, b.as_slice() == bytes)
}

#[test]
fn a_box_is_read_and_written_through_its_value(rt: HostRuntime) -> Result<(), Fail> {
    let mut rest: Vec<u8> = Vec::new(rt.alloc());
    let results = all_read(
        boxed(rt.alloc(), Cursor::new(b"one".as_slice()))?,
        &mut rest,
    );
    assert!(rt; results == (Some(3), Some(3)));
    let results = all_written(boxed(rt.alloc(), rest)?, b"one2one two3");
    assert!(rt; results == (true, Some(3), true));
    Ok(())
}

// What it does by its own functions is not what the traits would do by its `read`, `write` and
// `seek`, which do nothing.
#[derive(Drop)]
struct Own {
    position: u64,
}

impl Read for Own {
    fn read(&mut self, _: &mut [u8]) -> io::Result<usize> {
        Ok(0)
    }

    fn read_exact(&mut self, buf: &mut [u8]) -> io::Result<()> {
        buf.fill(b'x');
        Ok(())
    }
}

impl BufRead for Own {
    fn fill_buf(&mut self) -> io::Result<&[u8]> {
        Ok(b"own")
    }

    fn consume(&mut self, _: usize) {}
}

impl Write for Own {
    fn write(&mut self, _: &[u8]) -> io::Result<usize> {
        Ok(0)
    }

    fn flush(&mut self) -> io::Result<()> {
        self.position = self.position.saturating_add(1);
        Ok(())
    }

    fn write_all(&mut self, _: &[u8]) -> io::Result<()> {
        Ok(())
    }
}

impl Seek for Own {
    fn seek(&mut self, _: SeekFrom) -> io::Result<u64> {
        Err(io::ErrorKind::Unsupported.into())
    }

    fn rewind(&mut self) -> io::Result<()> {
        self.position = 1;
        Ok(())
    }

    fn stream_position(&mut self) -> io::Result<u64> {
        Ok(self.position)
    }

    fn seek_relative(&mut self, _: i64) -> io::Result<()> {
        self.position = 2;
        Ok(())
    }
}

// Returns how many of three bytes a writer takes. It then writes all, and a number after them.
fn three_written<W: Write>(writer: &mut W) -> io::Result<usize> {
    let count = writer.write(b"one")?;
    writer.write_all(b" two")?;
    writer.write_fmt(3)?;
    writer.flush()?;
    Ok(count)
}

// Whether it is sought, read and written by its own functions. The flush is counted.
fn acts(mut b: Box<Own>) -> bool {
    let sought = are_sought(
        &mut b,
        [
            (Sought::At(0), None),
            (Sought::Nowhere, Some(7)),
            (Sought::Start, Some(1)),
            (Sought::By(5), Some(2)),
        ],
    );
    let read = parts_of(&mut b, b"own").ok();
    let count = three_written(&mut b).ok();
    sought && read == Some((0, [0; 2], *b"xx", true)) && (count, b.position) == (Some(0), 3)
}

#[test]
fn a_value_acts_by_its_own_functions(rt: HostRuntime) -> Result<(), Fail> {
    let b = boxed(rt.alloc(), Own { position: 7 })?;
    assert!(rt; acts(b));
    Ok(())
}
