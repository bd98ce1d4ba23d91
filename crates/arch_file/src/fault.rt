//! What can be wrong with an architecture file, and how it is reported.
ghost use Rattle.std.specs.Prelude.{◌≡◌};
ghost use Rattle.arch_file.specs.Faults.{name_of, number_of};

use line_text::{LineFault, TextError};
use std::fmt;
use thiserror::Error;

/// A keyword of the architecture file, such as `io_rat` or `chan_width_io`.
#[derive(Clone, Copy, Debug, PartialEq, Eq)]
pub enum ArchKeyword {
    IoRat,
    ChanWidthIo,
    ChanWidthX,
    ChanWidthY,
    Inpin,
    Outpin,
    SubblocksPerClb,
    SubblockLutSize,
    FcType,
    FcOutput,
    FcInput,
    FcPad,
    SwitchBlockType,
    Segment,
}

/// What is wrong with an architecture text.
#[derive(Clone, Copy, Debug, PartialEq, Eq)]
pub enum ArchFaultKind {
    /// The line's first word is not a keyword, or a pin's line has no `class:`.
    Unknown,
    /// An earlier line has the keyword too.
    Repeated,
    /// The text has no line with the keyword.
    Missing(ArchKeyword),
    /// A wrong number of words, or a word that isn't a number of the required kind.
    BadNumber,
    /// A value that VPR accepts, but that devices of this profile don't have.
    NotProfile(ArchKeyword),
    /// A class that the pin can't have, a second clock, or at the end a wrong number of pins.
    BadClass,
    /// The words after the class aren't distinct sides, or there is no side.
    BadSide,
    /// A number, the number of pins or the length of the text is above its limit.
    OverLimit,
    /// A byte outside comments is neither a blank nor a printing ASCII character.
    NotAscii,
    /// A joined line has more than 262,144 bytes.
    LineTooLong,
}

impl ArchFaultKind {
    /// Its number in replies, 1 to 10.
    pub fn number(self) -> u32
        ensures { result ≡ number_of self }
    {
        match self {
            ArchFaultKind::Unknown => 1,
            ArchFaultKind::Repeated => 2,
            ArchFaultKind::Missing(_) => 3,
            ArchFaultKind::BadNumber => 4,
            ArchFaultKind::NotProfile(_) => 5,
            ArchFaultKind::BadClass => 6,
            ArchFaultKind::BadSide => 7,
            ArchFaultKind::OverLimit => 8,
            ArchFaultKind::NotAscii => 9,
            ArchFaultKind::LineTooLong => 10,
        }
    }

    /// Its name in replies.
    pub fn name(self) -> &'static str
        ensures { result.now ≡ name_of self }
    {
        match self {
            ArchFaultKind::Unknown => "Unknown",
            ArchFaultKind::Repeated => "Repeated",
            ArchFaultKind::Missing(_) => "Missing",
            ArchFaultKind::BadNumber => "BadNumber",
            ArchFaultKind::NotProfile(_) => "NotProfile",
            ArchFaultKind::BadClass => "BadClass",
            ArchFaultKind::BadSide => "BadSide",
            ArchFaultKind::OverLimit => "OverLimit",
            ArchFaultKind::NotAscii => "NotAscii",
            ArchFaultKind::LineTooLong => "LineTooLong",
        }
    }
}

/// A fault, with the number of its line from 1, or 0 if it concerns the whole text.
#[derive(Clone, Copy, Debug, PartialEq, Eq, Error)]
pub struct ArchFault {
    pub line: u32,
    pub kind: ArchFaultKind,
}

impl ArchFault {
    /// The fault's number in replies, 1 to 10.
    pub fn number(self) -> u32
        ensures { result ≡ number_of self.kind }
    {
        self.kind.number()
    }

    /// The fault's name in replies.
    pub fn name(self) -> &'static str
        ensures { result.now ≡ name_of self.kind }
    {
        self.kind.name()
    }
}

impl fmt::Display for ArchFault {
    ghost use Rattle.std.specs.Prelude.{Some};
    ghost use Rattle.arch_file.specs.Faults.{printed_fault};

    ghost output = { λ fault. Some (printed_fault fault) };

    fn fmt<W: fmt::Write>(&self, f: &mut fmt::Formatter<W>) -> fmt::Result {
        let number = self.number();
        let name = self.name();
        let line = self.line;
        write!(f, "{number} {name} {line}")
    }
}

/// Why a text describes no architecture.
pub type ArchError = TextError<ArchFault>;

impl From<LineFault> for ArchFault {
    ghost use Rattle.std.specs.Prelude.{◌≡◌};
    ghost use Rattle.arch_file.specs.Faults.{fault_of_lines};

    ghost from_gives = { λ lines fault. fault ≡ fault_of_lines lines };

    fn from(fault: LineFault) -> Self {
        let (line, kind) = match fault {
            LineFault::NotAscii(line) => (line, ArchFaultKind::NotAscii),
            LineFault::LineTooLong(line) => (line, ArchFaultKind::LineTooLong),
        };
        ArchFault { line, kind }
    }
}
