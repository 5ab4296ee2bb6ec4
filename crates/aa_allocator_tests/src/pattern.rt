ghost use Rattle.std.specs.Prelude.{◌≡◌, ◌<◌, IfSome, length};

/// Returns the mark that is written into a place, from the tag of its block and its index.
pub fn mark(tag: u64, index: usize) -> u64 {
    let spread = (index as u64).wrapping_mul(0x9E37_79B9_7F4A_7C15);
    tag.wrapping_mul(0xD134_2543_DE82_EF95).wrapping_add(spread)
}

/// An element that holds a mark.
pub trait Pattern: Copy {
    /// The size in bytes.
    const BYTES: usize;

    /// Returns the element with this mark.
    fn marked(mark: u64) -> Self;

    /// Returns whether each byte is that of the element with this mark.
    fn has(&self, mark: u64) -> bool;

    /// Returns whether the first bytes are those of the element with this mark.
    fn begins(&self, mark: u64) -> bool {
        self.has(mark)
    }
}

/// Returns the index of the first element that does not have the mark of its place.
///
/// The first element of the slice is at place `from` of its block.
pub fn first_wrong<E: Pattern>(items: &[E], tag: u64, from: usize) -> Option<usize>
    ensures { IfSome result (λ place. place < length items.now) }
{
    for index in 0..items.len() {
        if !items[index].has(mark(tag, from.wrapping_add(index))) {
            return Some(index);
        }
    }
    None
}

impl Pattern for () {
    const BYTES: usize = 0;

    fn marked(_mark: u64) -> Self {}

    fn has(&self, _mark: u64) -> bool {
        true
    }
}

impl Pattern for u8 {
    const BYTES: usize = 1;

    fn marked(mark: u64) -> Self {
        (mark % 256) as u8
    }

    fn has(&self, mark: u64) -> bool {
        u64::from(*self) == mark % 256
    }
}

impl Pattern for u16 {
    const BYTES: usize = 2;

    fn marked(mark: u64) -> Self {
        (mark % 65_536) as u16
    }

    fn has(&self, mark: u64) -> bool {
        u64::from(*self) == mark % 65_536
    }
}

impl Pattern for u128 {
    const BYTES: usize = 16;

    fn marked(mark: u64) -> Self {
        u128::from(mark) << 64 | u128::from(mark.wrapping_add(1))
    }

    fn has(&self, mark: u64) -> bool {
        *self == Self::marked(mark)
    }
}

impl Pattern for u32 {
    const BYTES: usize = 4;

    fn marked(mark: u64) -> Self {
        (mark % 4_294_967_296) as u32
    }

    fn has(&self, mark: u64) -> bool {
        u64::from(*self) == mark % 4_294_967_296
    }
}

/// An element of 24 bytes.
#[derive(Clone, Copy)]
pub struct Wide {
    first: u64,
    second: u64,
    third: u64,
}

impl Pattern for Wide {
    const BYTES: usize = 24;

    fn marked(mark: u64) -> Self {
        Wide {
            first: mark,
            second: mark.wrapping_add(1),
            third: mark.wrapping_add(2),
        }
    }

    fn has(&self, mark: u64) -> bool {
        let Wide {
            first,
            second,
            third,
        } = *self;
        first == mark && second == mark.wrapping_add(1) && third == mark.wrapping_add(2)
    }

    fn begins(&self, mark: u64) -> bool {
        self.first == mark
    }
}

/// An element of 1,025 bytes.
#[derive(Clone, Copy)]
pub struct Large {
    bytes: [u8; 1025],
}

impl Pattern for Large {
    const BYTES: usize = 1_025;

    fn marked(mark: u64) -> Self {
        Large {
            bytes: [u8::marked(mark); 1025],
        }
    }

    fn has(&self, mark: u64) -> bool {
        let byte = u8::marked(mark);
        self.bytes.iter().all(|it| *it == byte)
    }

    fn begins(&self, mark: u64) -> bool {
        self.bytes[0] == u8::marked(mark)
    }
}

/// An element of no bytes with the alignment 16.
#[derive(Clone, Copy)]
pub struct Nil {
    none: [u128; 0],
}

impl Pattern for Nil {
    const BYTES: usize = 0;

    fn marked(_mark: u64) -> Self {
        Nil { none: [] }
    }

    fn has(&self, _mark: u64) -> bool {
        true
    }
}

/// An element of 4,096 bytes, whose first and last words hold the mark.
#[derive(Clone, Copy)]
pub struct Page {
    first: u64,
    between: [u64; 510],
    last: u64,
}

impl Pattern for Page {
    const BYTES: usize = 4_096;

    fn marked(mark: u64) -> Self {
        Page {
            first: mark,
            between: [0; 510],
            last: mark.wrapping_add(1),
        }
    }

    fn has(&self, mark: u64) -> bool {
        self.first == mark && self.last == mark.wrapping_add(1)
    }

    fn begins(&self, mark: u64) -> bool {
        self.first == mark
    }
}

/// An element of 4,096 bytes, each of whose words holds the mark.
#[derive(Clone, Copy)]
pub struct Sheet {
    words: [u64; 512],
}

impl Pattern for Sheet {
    const BYTES: usize = 4_096;

    fn marked(mark: u64) -> Self {
        Sheet { words: [mark; 512] }
    }

    fn has(&self, mark: u64) -> bool {
        self.words.iter().all(|it| *it == mark)
    }

    fn begins(&self, mark: u64) -> bool {
        self.words[0] == mark
    }
}
