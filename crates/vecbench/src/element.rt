//! The elements of the vectors.
ghost use Rattle.std.specs.Prelude.{◌≡◌, ◌%◌, ◌^◌, ℕ};
ghost use Rattle.vecbench.specs.Sums.{number_of_wide};

/// An element, which is made from a number, and has a number for the checksum.
pub trait Element: Clone + Drop {
    ghost number_of: { Self → ℕ };

    /// Returns the element made from `number`.
    fn of(number: u32) -> Self;

    /// Returns the number of the element for the checksum.
    fn number(&self) -> u32
        ensures { result ≡ number_of self.now };
}

impl Element for u32 {
    ghost number_of = { λ x. x };

    fn of(number: u32) -> Self {
        number
    }

    fn number(&self) -> u32 {
        *self
    }
}

impl Element for u64 {
    ghost number_of = { λ x. x % 2 ^ 32 };

    fn of(number: u32) -> Self {
        u64::from(number)
    }

    fn number(&self) -> u32 {
        (*self % 4_294_967_296) as u32
    }
}

impl Element for usize {
    ghost number_of = { λ x. x % 2 ^ 32 };

    fn of(number: u32) -> Self {
        number as usize
    }

    fn number(&self) -> u32 {
        (*self % 4_294_967_296) as u32
    }
}

impl Element for u8 {
    ghost number_of = { λ x. x };

    fn of(number: u32) -> Self {
        (number % 256) as u8
    }

    fn number(&self) -> u32 {
        u32::from(*self)
    }
}

impl Element for u16 {
    ghost number_of = { λ x. x };

    fn of(number: u32) -> Self {
        (number % 65_536) as u16
    }

    fn number(&self) -> u32 {
        u32::from(*self)
    }
}

/// An element of 24 bytes.
#[derive(Clone, Copy, Drop)]
pub struct Wide {
    first: u64,
    second: u64,
    third: u64,
}

impl Element for Wide {
    ghost number_of = { λ x. number_of_wide x.first x.second x.third };

    fn of(number: u32) -> Self {
        let part = u64::from(number);
        Wide {
            first: part,
            second: part,
            third: part,
        }
    }

    fn number(&self) -> u32 {
        let two = self.first.wrapping_add(self.second);
        (two.wrapping_add(self.third) % 4_294_967_296) as u32
    }
}

// A zero-sized element.
impl Element for () {
    ghost number_of = { λ x. 0 };

    fn of(_number: u32) -> Self {}

    fn number(&self) -> u32 {
        0
    }
}
