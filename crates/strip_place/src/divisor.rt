//! Remainders without a division.
ghost use Rattle.std.specs.Prelude.{◌≡◌, ◌%◌, ◌<◌};

use std::marker::Model;

/// A number that words are divided by. Its value is that number. Beside it is 2^32 divided by it,
/// rounded down: the upper half of a word's product with that is the word's quotient, or one less.
#[derive(Drop)]
pub(crate) struct Divisor {
    by: u32,
    inverse: u64,
}

impl Model for Divisor {
    ghost use Rattle.std.specs.Prelude.{ℕ};
    ghost use Rattle.strip_place.specs.Divisors.{IsInverse};

    ghost Value = { ℕ };

    ghost view = { λ d. d.by };

    ghost invariant = { λ d. IsInverse d.by d.inverse };
}

impl Divisor {
    pub(crate) fn new(by: u32) -> Self
        ensures { result ≡ by }
    {
        let inverse = if by == 0 {
            0
        } else {
            (1 << 32) / u64::from(by)
        };
        Divisor { by, inverse }
    }

    /// The number itself.
    pub(crate) fn get(&self) -> u32
        ensures { result ≡ self.now }
    {
        self.by
    }

    /// The remainder of a word.
    #[inline(always)]
    pub(crate) fn rest_of(&self, word: u32) -> u32
        requires { 0 < self.now }
        ensures { result ≡ word % self.now }
    {
        let quotient = (u64::from(word) * self.inverse) >> 32;
        let rest = u64::from(word) - quotient * u64::from(self.by);
        if rest < u64::from(self.by) {
            rest as u32
        } else {
            (rest - u64::from(self.by)) as u32
        }
    }
}
