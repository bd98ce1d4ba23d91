//! Joined lines, read one physical line after another.
ghost use Rattle.std.specs.Prelude.{◌≡◌, ◌+◌, ◌≤◌, ◌<◌, ◌^◌, length, OnOk, ◌==◌, MatchOption, IfErr, ◌++◌, [], true, false};
ghost use Rattle.line_text.specs.Lines.{ends_in_backslash, is_not_ascii, trim_end as trimmed_bytes, without_comment, without_last};
ghost use Rattle.line_text.specs.Spans.{AreWithin};
ghost use Rattle.line_text.specs.Words.{words_of};

use crate::fault::{LineError, LineFault};
use crate::lines::{Lines, MAX_LINE, Span};
use crate::text_error::TextError;
use crate::words::{append_words, is_blank};
use std::alloc::Global;

/// The bytes without the blanks at their end.
fn trim_end(bytes: &[u8]) -> &[u8]
    ensures { result.now ≡ trimmed_bytes bytes.now }
{
    let mut end = bytes.len();
    while end > 0 && is_blank(bytes[end - 1]) {
        end -= 1;
    }
    &bytes[..end]
}

/// The bytes before a final `\`; `None` if the last byte is not a `\`.
fn before_backslash(bytes: &[u8]) -> Option<&[u8]>
    ensures { MatchOption result (ends_in_backslash bytes.now ≡ false)
        (λ before. (ends_in_backslash bytes.now ≡ true) × (before.now ≡ without_last bytes.now)) }
{
    if bytes.is_empty() || bytes[bytes.len() - 1] != b'\\' {
        return None;
    }
    Some(&bytes[..bytes.len() - 1])
}

/// What has been read of a text: the joined lines that have ended, and the words of the one that
/// may still be open.
#[derive(Drop)]
pub(crate) struct Reader<'t> {
    words: Vec<&'t [u8]>,
    spans: Vec<Span>,
    is_open: bool,
    number: u32,
    start: usize,
    count: usize,
    ghost within: { AreWithin (length words.items) spans.items },
    ghost started: { start ≤ length words.items },
}

impl<'t> Reader<'t> {
    ghost use Rattle.line_text.specs.Reader.{IsEnded, IsReadOn, done_of, line_if, open_line, reading_of};
    ghost use Rattle.line_text.specs.Reading.{line_to_extend, lines_at_end};
    ghost use Rattle.line_text.specs.TextErrors.{Gives};

    /// A reader that has read nothing.
    pub(crate) fn new(alloc: Global) -> Self
        ensures done { done_of result ≡ [] }
        ensures open { result.is_open ≡ false }
        ensures count { result.count ≡ 0 }
    {
        Reader {
            words: Vec::new(alloc),
            spans: Vec::new(alloc),
            is_open: false,
            number: 0,
            start: 0,
            count: 0,
        }
    }

    /// Ends the open line, which is kept if it has words. Fails if the line is too long or memory
    /// runs out.
    fn end_line(&mut self) -> Result<(), LineError>
        ensures ended { IsEnded (done_of self.old) (open_line self.old) result (done_of self.new) }
        ensures closed { OnOk result (self.new.is_open ≡ false) }
        ensures count { self.new.count ≡ self.old.count }
    {
        self.is_open = false;
        let end = self.words.len();
        if self.start == end {
            return Ok(());
        }
        if self.count > MAX_LINE {
            return Err(LineError::Fault(LineFault::LineTooLong(self.number)));
        }
        self.spans.push(Span {
            number: self.number,
            start: self.start,
            end,
        })?;
        Ok(())
    }

    /// Begins a line with this number if no line is open.
    fn begin_line(&mut self, number: u32)
        ensures done { done_of self.new ≡ done_of self.old }
        ensures line { open_line self.new ≡ line_to_extend (line_if self.old.is_open (open_line
            self.old))
            number }
        ensures opened { self.new.is_open ≡ true }
        ensures count { self.new.count ≤ self.old.count }
    {
        if !self.is_open {
            self.is_open = true;
            self.number = number;
            self.start = self.words.len();
            self.count = 0;
        }
    }

    /// Appends the words of these bytes to the open line, and adds `count` bytes to its length.
    fn extend(&mut self, bytes: &'t [u8], count: usize) -> Result<(), LineError>
        requires { self.old.count + count < 2 ^ 64 }
        ensures done { OnOk result (done_of self.new ≡ done_of self.old) }
        ensures line { OnOk result (open_line self.new
            ≡ record {
              number = self.old.number;
              words = (open_line self.old).words ++ words_of bytes.now;
              count = self.old.count + count;
            }) }
        ensures opened { OnOk result (self.new.is_open ≡ self.old.is_open) }
        ensures err { IfErr result (λ e. e ≡ TextError.NoMemory) }
    {
        self.count += count;
        append_words(&mut self.words, bytes)?;
        Ok(())
    }

    /// Reads the physical line with this number, which has no comment and is ASCII.
    pub(crate) fn read_line(&mut self, number: u32, line: &'t [u8]) -> Result<(), LineError>
        requires room { self.old.count + length line.now < 2 ^ 64 }
        requires ascii { is_not_ascii line.now ≡ false }
        requires no_comment { without_comment line.now ≡ line.now }
        ensures read { IsReadOn (reading_of self.old) number line.now result (reading_of self.new) }
        ensures count { OnOk result (self.new.count ≤ self.old.count + length line.now) }
    {
        self.begin_line(number);
        let bytes = trim_end(line);
        match before_backslash(bytes) {
            Some(before) => self.extend(before, bytes.len()),
            None => {
                self.extend(bytes, bytes.len())?;
                self.end_line()
            }
        }
    }

    /// The lines of the text that was read. Ends the open line first.
    pub(crate) fn finish(mut self) -> Result<Lines<'t>, LineError>
        ensures { Gives (lines_at_end (reading_of self.entry)) result }
    {
        if self.is_open {
            self.end_line()?;
        }
        let Reader {
            words,
            spans,
            is_open: _,
            number: _,
            start: _,
            count: _,
        } = self;
        Ok(Lines::new(words, spans))
    }
}
