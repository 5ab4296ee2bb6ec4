ghost use Rattle.std.specs.Prelude.{◌≤◌};

/// A pseudorandom number generator. The same seed makes the same numbers.
#[derive(Drop)]
pub struct Random {
    state: u64,
}

impl Random {
    pub fn new(seed: u64) -> Random {
        Random {
            state: seed ^ 0x9E37_79B9_7F4A_7C15,
        }
    }

    /// Returns the next number.
    pub fn draw(&mut self) -> u64 {
        self.state = self
            .state
            .wrapping_mul(6_364_136_223_846_793_005)
            .wrapping_add(1_442_695_040_888_963_407);
        self.state / 4_294_967_296
    }

    /// Returns a number from 0 to `most`.
    ///
    /// Returns 0 if `most` is `usize::MAX`.
    pub fn up_to(&mut self, most: usize) -> usize
        ensures { result ≤ most }
    {
        if most == usize::MAX {
            return 0;
        }
        (self.draw() as usize) % (most + 1)
    }
}
