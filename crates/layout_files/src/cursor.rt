//! A place in a text, from which the text is read, or compared with what is printed.
ghost use Rattle.std.specs.Prelude.{◌≡◌, ◌≢◌, ◌≤◌, ◌-◌, ◌+◌, [], length, nat_lt, IsTrue, OnErr, OnOk, Ok, Some, None, is_some, if◌then◌else◌};
ghost use Rattle.std.specs.List.{flat_map};
ghost use Rattle.layout_files.specs.Cursors.{IsNumberRead, IsWordRead, has_line, left_after, size};
ghost use Rattle.layout_files.specs.Prelude.{bytes_of_part};

use crate::front::{split_digits, split_word};
use itoa::Buffer;
use line_text::{TextError, decimal_u32};
use std::marker::Model;
use strip_files::{Fault, File, FileFault};
use text_parts::Part;

/// A place in a text. It takes what is expected off the front of what is left. It notes where the
/// text first differs, and takes nothing more from then on, so its user need not check each step.
/// Its value is what is left, or `None` if the text has differed.
#[derive(Drop)]
pub(crate) struct Cursor<'t> {
    left: &'t [u8],
    differs: bool,
    /// What is told if the text differs here.
    fault: Fault,
}

impl<'t> Model for Cursor<'t> {
    ghost use Rattle.std.specs.Prelude.{List, ℕ, Option, Some, None, if◌then◌else◌};

    ghost Value = { Option (List ℕ) };

    ghost view = { λ c. if c.differs then None else Some c.left.now };
}

impl<'t> Cursor<'t> {
    /// The beginning of this text.
    pub(crate) fn new(text: &'t [u8]) -> Self
        ensures { result ≡ Some text.now }
    {
        Cursor {
            left: text,
            differs: false,
            fault: Fault::OtherText,
        }
    }

    /// Sets what is told if the text differs from here on.
    pub(crate) fn expect(&mut self, fault: Fault)
        ensures { self.new ≡ self.old }
    {
        if !self.differs {
            self.fault = fault;
        }
    }

    /// Notes that the text differs here.
    pub(crate) fn fail(&mut self, fault: Fault)
        ensures { self.new ≡ None }
    {
        self.expect(fault);
        self.differs = true;
    }

    /// Notes that what is expected is not here.
    fn miss(&mut self)
        ensures { self.new ≡ None }
    {
        if self.left.is_empty() {
            self.expect(Fault::Unfinished);
        }
        self.differs = true;
    }

    /// Prints the parts, one after another: the text must go on with them.
    pub(crate) fn print(&mut self, parts: &[Part<'_>])
        ensures left { self.new ≡ left_after self.old (flat_map bytes_of_part parts.now) }
        ensures shorter { size self.new ≤ size self.old }
    {
        for part in parts {
            self.print_part(part);
        }
    }

    fn print_part(&mut self, part: &Part<'_>)
        ensures left { self.new ≡ left_after self.old (bytes_of_part part.now) }
        ensures shorter { size self.new ≤ size self.old }
    {
        let mut digits = Buffer::new();
        match part {
            Part::Text(text) => self.text(text),
            Part::Bytes(bytes) => self.bytes(bytes),
            Part::Number(number) => self.bytes(digits.format(*number).as_bytes()),
            Part::Long(number) => self.bytes(digits.format(*number).as_bytes()),
        }
    }

    /// Takes this text.
    pub(crate) fn text(&mut self, text: &str)
        ensures left { self.new ≡ left_after self.old text.now }
        ensures shorter { size self.new ≤ size self.old - length text.now }
    {
        self.bytes(text.as_bytes());
    }

    /// Takes these bytes.
    fn bytes(&mut self, bytes: &[u8])
        ensures left { self.new ≡ left_after self.old bytes.now }
        ensures shorter { size self.new ≤ size self.old - length bytes.now }
    {
        if !self.takes_bytes(bytes) {
            self.miss();
        }
    }

    /// Takes this text if it is here, and returns whether it is. Otherwise nothing changes.
    pub(crate) fn takes(&mut self, text: &str) -> bool
        ensures whether { result ≡ is_some (left_after self.old text.now) }
        ensures left { self.new ≡ (if result then left_after self.old text.now else self.old) }
        ensures shorter { IsTrue result → size self.new + length text.now ≡ size self.old }
    {
        self.takes_bytes(text.as_bytes())
    }

    fn takes_bytes(&mut self, bytes: &[u8]) -> bool
        ensures whether { result ≡ is_some (left_after self.old bytes.now) }
        ensures left { self.new ≡ (if result then left_after self.old bytes.now else self.old) }
        ensures shorter { IsTrue result → size self.new + length bytes.now ≡ size self.old }
    {
        if self.differs {
            return false;
        }
        match self.left.strip_prefix(bytes) {
            Some(left) => {
                self.left = left;
                true
            }
            None => false,
        }
    }

    /// Takes the digits that are here, and returns their number, which has 32 bits. If the text
    /// differs, the number is 0.
    pub(crate) fn number(&mut self) -> u32
        ensures read { IsNumberRead self.old result self.new }
        ensures shorter { size self.new ≤ size self.old }
    {
        if self.differs {
            return 0;
        }
        let (digits, left) = split_digits(self.left);
        match decimal_u32(digits) {
            Some(number) => {
                self.left = left;
                number
            }
            None => {
                self.miss();
                0
            }
        }
    }

    /// Takes everything before the next space or the end of the line. If the text differs, there
    /// are no bytes.
    pub(crate) fn word(&mut self) -> &'t [u8]
        ensures read { IsWordRead self.old result.now self.new }
        ensures shorter { size self.new ≤ size self.old }
    {
        if self.differs {
            return &[];
        }
        let (word, left) = split_word(self.left);
        self.left = left;
        word
    }

    /// Whether there is more of the text, which has not differed.
    pub(crate) fn has_more(&self) -> bool
        ensures { result ≡ nat_lt 0 (size self.now) }
    {
        !self.differs && !self.left.is_empty()
    }

    /// Whether there is a line, which is not empty.
    pub(crate) fn has_line(&self) -> bool
        ensures { result ≡ has_line self.now }
    {
        match self.left.first() {
            Some(byte) => !self.differs && *byte != b'\n',
            None => false,
        }
    }

    /// What was found, if all of the file's text was taken; otherwise the fault of the line at
    /// which it differs.
    pub(crate) fn finish<T: Drop>(
        &self,
        file: File,
        text: &[u8],
        found: T,
    ) -> Result<T, TextError<FileFault>>
        ensures { self.now ≡ Some [] → result ≡ Ok found }
    {
        self.outcome(file, text)?;
        Ok(found)
    }

    /// Whether all of the file's text was taken; otherwise the fault of the line at which it
    /// differs.
    pub(crate) fn outcome(&self, file: File, text: &[u8]) -> Result<(), TextError<FileFault>>
        ensures ok { OnOk result (self.now ≡ Some []) }
        ensures err { OnErr result (self.now ≢ Some []) }
    {
        if !self.differs && self.left.is_empty() {
            return Ok(());
        }
        Err(TextError::Fault(FileFault {
            file,
            line: self.line(text),
            fault: self.fault,
        }))
    }

    /// The number of the line of this text in which the cursor is.
    fn line(&self, text: &[u8]) -> usize {
        let taken = text.len().saturating_sub(self.left.len().max(1));
        let ends = text[..taken].iter().filter(|byte| **byte == b'\n').count();
        ends.saturating_add(1)
    }
}
