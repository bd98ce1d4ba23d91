//! The joined lines of a text.
ghost use Rattle.std.specs.Prelude.{IsTrue, ◌↔◌, ◌≡◌, ◌<◌, ◌^◌, ◌+◌, length, slice_get, Some, IfOk};
ghost use Rattle.line_text.specs.LineOrder.{RisesFrom};
ghost use Rattle.line_text.specs.Lines.{JoinedLine, lines_of};
ghost use Rattle.line_text.specs.TextErrors.{Gives};

use crate::fault::{LineError, LineFault};
use crate::line::Line;
use crate::physical_line::split_content;
use crate::reader::Reader;
use std::alloc::Global;
use std::marker::Model;

/// The largest length of a text of lines (an architecture or a netlist), in bytes.
pub const MAX_TEXT: usize = 1_048_576;

/// The largest length of a joined line, in bytes.
pub const MAX_LINE: usize = 262_144;

/// A line's number, and the span of its words among all words.
#[derive(Clone, Copy)]
pub(crate) struct Span {
    pub(crate) number: u32,
    pub(crate) start: usize,
    pub(crate) end: usize,
}

/// The joined lines of a text that have words. Its value is the list of the lines.
#[derive(Drop)]
pub struct Lines<'t> {
    words: Vec<&'t [u8]>,
    spans: Vec<Span>,
}

impl<'t> Model for Lines<'t> {
    ghost use Rattle.std.specs.Prelude.{List, length};
    ghost use Rattle.line_text.specs.Lines.{JoinedLine};
    ghost use Rattle.line_text.specs.Spans.{AreWithin, seen_lines};
    ghost use Rattle.line_text.specs.Words.{texts};

    ghost Value = { List JoinedLine };

    ghost view = { λ a. seen_lines (texts a.words.items) a.spans.items };

    ghost invariant = { λ a. AreWithin (length a.words.items) a.spans.items };
}

impl<'t> Lines<'t> {
    ghost use Rattle.line_text.specs.Spans.{AreWithin, seen_lines};
    ghost use Rattle.line_text.specs.Words.{texts};

    /// The lines at these spans of the words.
    pub(crate) fn new(words: Vec<&'t [u8]>, spans: Vec<Span>) -> Self
        requires { AreWithin (length words.items) spans.items }
        ensures { result ≡ seen_lines (texts words.entry.items) spans.items }
    {
        Lines { words, spans }
    }

    /// The number of lines.
    pub fn len(&self) -> usize
        ensures { result ≡ length self.now }
    {
        self.spans.len()
    }

    /// Whether there are no lines.
    pub fn is_empty(&self) -> bool
        ensures { IsTrue result ↔ (length self.now ≡ 0) }
    {
        self.spans.is_empty()
    }

    /// The line at this index, from 0.
    pub fn line(&self, place: usize) -> Line<'_, 't>
        requires { place < length self.now }
        ensures { slice_get self.now place ≡ Some result }
    {
        let span = self.spans[place];
        Line::new(span.number, &self.words[span.start..span.end])
    }
}

/// The joined lines of a text, with increasing numbers, or their least fault.
pub fn logical_lines(alloc: Global, text: &[u8]) -> Result<Lines<'_>, LineError>
    requires { length text.now < 2 ^ 32 }
    ensures gives { Gives (lines_of text.now) result }
    ensures rises { IfOk result (RisesFrom 1) }
{
    let mut reader = Reader::new(alloc);
    let mut number = 0;
    let mut rest = text;
    while !rest.is_empty() {
        number += 1;
        let Some((content, others)) = split_content(rest) else {
            return Err(LineError::Fault(LineFault::NotAscii(number)));
        };
        reader.read_line(number, content)?;
        rest = others;
    }
    reader.finish()
}
