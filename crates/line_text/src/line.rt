//! A joined line of a text, or what is left of it after some of its words have been read.
ghost use Rattle.std.specs.Prelude.{◌≡◌, [], MatchOption};
ghost use Rattle.line_text.specs.Lines.{without_first, with_first};
ghost use Rattle.line_text.specs.Words.{texts};

use std::marker::Model;

/// A joined line: the number of its first physical line, from 1, and its words, slices of the text.
/// Its value is the record of the two.
#[derive(Drop)]
pub struct Line<'a, 't> {
    number: u32,
    words: &'a [&'t [u8]],
}

impl<'a, 't> Model for Line<'a, 't> {
    ghost use Rattle.line_text.specs.Lines.{JoinedLine};
    ghost use Rattle.line_text.specs.Words.{texts};

    ghost Value = { JoinedLine };

    ghost view = { λ l. record { number = l.number; words = texts l.words.now } };
}

impl<'a, 't> Line<'a, 't> {
    /// The line with this number and these words.
    pub(crate) fn new(number: u32, words: &'a [&'t [u8]]) -> Self
        ensures { result ≡ record { number = number; words = texts words.now } }
    {
        Line { number, words }
    }

    /// The number of its first physical line, from 1.
    pub fn number(&self) -> u32
        ensures { result ≡ self.now.number }
    {
        self.number
    }

    /// Its words in order.
    pub fn words(&self) -> &'a [&'t [u8]]
        ensures { texts result.now ≡ self.now.words }
    {
        self.words
    }

    /// Its first word, and the line without that word; `None` if the line has no word.
    pub fn split_first(&self) -> Option<(&'t [u8], Line<'a, 't>)>
        ensures { MatchOption result (self.now.words ≡ [])
            (λ parts. self.now ≡ with_first parts.0.now parts.1) }
    {
        match self.words {
            [] => None,
            [word, others @ ..] => Some((*word, Line::new(self.number, others))),
        }
    }

    /// The line without its first word.
    pub fn without_first(&self) -> Line<'a, 't>
        ensures { result ≡ without_first self.now }
    {
        match self.words {
            [] => Line::new(self.number, self.words),
            [_, others @ ..] => Line::new(self.number, others),
        }
    }
}
