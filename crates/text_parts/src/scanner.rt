//! The parts of a line, taken from its front one by one.
ghost use Rattle.std.specs.Prelude.{◌≡◌, ◌++◌, ◌∷◌, [], ℕ, List, IfSome, IfNone, drop, take, length, eqb, position, unwrap_or, IsTrue, ◌↔◌, false};
ghost use Rattle.std.specs.List.{before_first, starts_with};
ghost use Rattle.line_text.specs.Decimal.{decimal_of};
ghost use Rattle.text_parts.specs.PartEnds.{is_no_digit, is_space};

use line_text::decimal_u32;
use std::marker::Model;

/// What is left of a line. Its value is the list of these bytes.
#[derive(Drop)]
pub struct Scanner<'t> {
    rest: &'t [u8],
}

impl<'t> Model for Scanner<'t> {
    ghost use Rattle.std.specs.Prelude.{List, ℕ};

    ghost Value = { List ℕ };

    ghost view = { λ scanner. scanner.rest.now };
}

impl<'t> Scanner<'t> {
    /// All of a line.
    pub fn new(line: &'t [u8]) -> Self
        ensures { result ≡ line.now }
    {
        Scanner { rest: line }
    }

    /// Whether nothing is left.
    pub fn is_done(&self) -> bool
        ensures { IsTrue result ↔ (self.now ≡ []) }
    {
        self.rest.is_empty()
    }

    /// Takes this text off the front if the rest begins with it, and returns whether it does.
    /// Otherwise nothing changes.
    pub fn takes(&mut self, text: &str) -> bool
        ensures whether { result ≡ starts_with eqb self.old text.now }
        ensures taken { IsTrue result → self.old ≡ text.now ++ self.new }
        ensures kept { (IsTrue result → ⊥) → self.new ≡ self.old }
    {
        let goes_on = self.rest.starts_with(text.as_bytes());
        if goes_on {
            self.rest = &self.rest[text.len()..];
        }
        goes_on
    }

    /// Takes this text off the front. `None` if the rest doesn't begin with it; then nothing
    /// changes.
    pub fn text(&mut self, text: &str) -> Option<()>
        ensures taken { IfSome result (λ _. self.old ≡ text.now ++ self.new) }
        ensures none { IfNone result (starts_with eqb self.old text.now ≡ false) }
        ensures kept { IfNone result (self.new ≡ self.old) }
    {
        self.takes(text).then_some(())
    }

    /// Takes the digits off the front, and returns the decimal number of 32 bits that they spell;
    /// `None` if there is no digit, or the number is larger.
    pub fn number(&mut self) -> Option<u32>
        ensures number { result ≡ decimal_of 32 (before_first is_no_digit self.old) }
        ensures taken { self.old ≡ before_first is_no_digit self.old ++ self.new }
    {
        let end = self.digits_end();
        decimal_u32(self.split(end))
    }

    /// Takes everything before the next space off the front, and all if there is no space.
    pub fn word(&mut self) -> &'t [u8]
        ensures word { result.now ≡ before_first is_space self.old }
        ensures taken { self.old ≡ result.now ++ self.new }
    {
        let end = self.word_end();
        self.split(end)
    }

    /// The index of the first byte that is not a digit.
    fn digits_end(&self) -> Option<usize>
        ensures { result ≡ position is_no_digit self.now }
    {
        self.rest.iter().position(|byte| !byte.is_ascii_digit())
    }

    /// The index of the first space.
    fn word_end(&self) -> Option<usize>
        ensures { result ≡ position is_space self.now }
    {
        self.rest.iter().position(|byte| *byte == b' ')
    }

    /// Takes the bytes before this index off the front, or all of them.
    fn split(&mut self, end: Option<usize>) -> &'t [u8]
        ensures front { result.now ≡ take (unwrap_or end (length self.old)) self.old }
        ensures taken { self.old ≡ result.now ++ self.new }
    {
        let (front, rest) = self
            .rest
            .split_at(end.unwrap_or(self.rest.len()).min(self.rest.len()));
        self.rest = rest;
        front
    }
}
