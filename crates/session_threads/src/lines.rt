//! A source, line by line.
ghost use Rattle.std.specs.Prelude.{◌≡◌, [], OnErr, true};
ghost use Rattle.std.specs.Io.KnownBytes.{prepend_known};
ghost use Rattle.session_threads.specs.Inputs.{ReadsLine};

use crate::input::Input;
use crate::line::Line;
use line_text::{Failed, Source};
use std::alloc::Global;
use std::sync::Wait;

/// How the reading of a line ended.
#[derive(Clone, Copy, PartialEq, Eq)]
pub(crate) enum LineEnd {
    /// It ended with LF.
    LineFeed,
    /// The input ended. There is a line if it has bytes.
    Input,
}

/// Reads a source line by line.
#[derive(Drop)]
pub(crate) struct LineReader {
    input: Input,
    /// The line that was read, without its LF.
    pub(crate) line: Line,
}

impl LineReader {
    /// A reader at the beginning of a source.
    pub(crate) fn new(alloc: Global) -> Self
        ensures { result.input ≡ [] }
    {
        LineReader {
            input: Input::new(),
            line: Line::new(alloc),
        }
    }

    /// Reads the next line.
    pub(crate) fn read_line<S: Source, R: Wait>(
        &mut self,
        rt: &R,
        source: &mut S,
    ) -> Result<LineEnd, Failed>
        ensures line { ReadsLine (prepend_known self.old.input (S.remaining source.old))
            (prepend_known self.new.input (S.remaining source.new)) self.new.line result }
        ensures ahead { OnErr result (self.new.input ≡ []) }
        ensures fails { OnErr result (S.has_failed source.new ≡ true) }
    {
        self.line.clear();
        for _ in rt.forever() {
            match self.input.next_byte(source)? {
                None => return Ok(LineEnd::Input),
                Some(b'\n') => return Ok(LineEnd::LineFeed),
                Some(byte) => self.line.push(byte),
            }
        }
        unreachable!()
    }
}
