//! What can be wrong with a netlist, and how it is reported.
ghost use Rattle.std.specs.Prelude.{◌≡◌, ◌++◌, codes, encode_utf8_all};
ghost use Rattle.std.specs.Fmt.{WritesOnOk};
ghost use Rattle.std.specs.Option.{option_copied};
ghost use Rattle.blif.specs.Faults.{name_of, net_of, number_of};

use line_text::{LineFault, Text, TextError};
use std::alloc::AllocError;
use std::fmt;
use thiserror::Error;

/// What is wrong with a netlist. Three faults name their net.
#[derive(Debug, Drop)]
pub enum BlifFaultKind {
    /// The first word begins with a point and is not a keyword, or there is a second model, a row
    /// without a table, or a line after the end.
    Unknown,
    /// A table without a word, or a row of the wrong form for its number of inputs.
    BadCover,
    /// A row whose output differs from that of the first row.
    MixedCover,
    /// A table with more inputs than allowed.
    TooWide,
    /// The net is already driven.
    TwoDrivers(Text),
    /// The net is read and not driven. This is found at the end, at the line of its first reader.
    Undriven(Text),
    /// The net is already an output.
    RepeatedOutput(Text),
    /// The words of a latch are not two to five words of its form.
    BadLatch,
    /// The first line does not begin the model, or there is no line.
    NoModel,
    /// The text is too long, or with this line there are too many nets.
    OverLimit,
    /// A byte outside comments is neither a blank nor a printing ASCII character.
    NotAscii,
    /// A joined line is too long.
    LineTooLong,
}

impl BlifFaultKind {
    /// Its number in replies, 1 to 12.
    pub fn number(&self) -> u32
        ensures { result ≡ number_of self.now }
    {
        match self {
            BlifFaultKind::Unknown => 1,
            BlifFaultKind::BadCover => 2,
            BlifFaultKind::MixedCover => 3,
            BlifFaultKind::TooWide => 4,
            BlifFaultKind::TwoDrivers(_) => 5,
            BlifFaultKind::Undriven(_) => 6,
            BlifFaultKind::RepeatedOutput(_) => 7,
            BlifFaultKind::BadLatch => 8,
            BlifFaultKind::NoModel => 9,
            BlifFaultKind::OverLimit => 10,
            BlifFaultKind::NotAscii => 11,
            BlifFaultKind::LineTooLong => 12,
        }
    }

    /// Its name in replies.
    pub fn name(&self) -> &'static str
        ensures { result.now ≡ name_of self.now }
    {
        match self {
            BlifFaultKind::Unknown => "Unknown",
            BlifFaultKind::BadCover => "BadCover",
            BlifFaultKind::MixedCover => "MixedCover",
            BlifFaultKind::TooWide => "TooWide",
            BlifFaultKind::TwoDrivers(_) => "TwoDrivers",
            BlifFaultKind::Undriven(_) => "Undriven",
            BlifFaultKind::RepeatedOutput(_) => "RepeatedOutput",
            BlifFaultKind::BadLatch => "BadLatch",
            BlifFaultKind::NoModel => "NoModel",
            BlifFaultKind::OverLimit => "OverLimit",
            BlifFaultKind::NotAscii => "NotAscii",
            BlifFaultKind::LineTooLong => "LineTooLong",
        }
    }

    /// The net that it names, if it names one.
    pub fn net(&self) -> Option<&Text>
        ensures { option_copied result ≡ net_of self.now }
    {
        match self {
            BlifFaultKind::TwoDrivers(net) => Some(net),
            BlifFaultKind::Undriven(net) => Some(net),
            BlifFaultKind::RepeatedOutput(net) => Some(net),
            _ => None,
        }
    }
}

impl Clone for BlifFaultKind {
    ghost is_clone = { λ kind copy. copy ≡ kind };

    fn clone(&self) -> Result<Self, AllocError> {
        match self {
            BlifFaultKind::Unknown => Ok(BlifFaultKind::Unknown),
            BlifFaultKind::BadCover => Ok(BlifFaultKind::BadCover),
            BlifFaultKind::MixedCover => Ok(BlifFaultKind::MixedCover),
            BlifFaultKind::TooWide => Ok(BlifFaultKind::TooWide),
            BlifFaultKind::TwoDrivers(net) => Ok(BlifFaultKind::TwoDrivers(net.clone()?)),
            BlifFaultKind::Undriven(net) => Ok(BlifFaultKind::Undriven(net.clone()?)),
            BlifFaultKind::RepeatedOutput(net) => Ok(BlifFaultKind::RepeatedOutput(net.clone()?)),
            BlifFaultKind::BadLatch => Ok(BlifFaultKind::BadLatch),
            BlifFaultKind::NoModel => Ok(BlifFaultKind::NoModel),
            BlifFaultKind::OverLimit => Ok(BlifFaultKind::OverLimit),
            BlifFaultKind::NotAscii => Ok(BlifFaultKind::NotAscii),
            BlifFaultKind::LineTooLong => Ok(BlifFaultKind::LineTooLong),
        }
    }
}

/// A fault, with the number of its line from 1, or 0 if it concerns the whole text.
#[derive(Debug, Drop, Error)]
pub struct BlifFault {
    pub line: u32,
    pub kind: BlifFaultKind,
}

impl BlifFault {
    /// The fault's number in replies, 1 to 12.
    pub fn number(&self) -> u32
        ensures { result ≡ number_of self.now.kind }
    {
        self.kind.number()
    }

    /// The fault's name in replies.
    pub fn name(&self) -> &'static str
        ensures { result.now ≡ name_of self.now.kind }
    {
        self.kind.name()
    }

    /// The net that the fault names, if it names one.
    pub fn net(&self) -> Option<&Text>
        ensures { option_copied result ≡ net_of self.now.kind }
    {
        self.kind.net()
    }
}

/// The number, the name, the line, and the net if the fault names one, separated by blanks.
impl fmt::Display for BlifFault {
    ghost use Rattle.std.specs.Prelude.{Some};
    ghost use Rattle.blif.specs.Faults.{printed_fault};

    ghost output = { λ fault. Some (printed_fault fault) };

    fn fmt<W: fmt::Write>(&self, f: &mut fmt::Formatter<W>) -> fmt::Result {
        let number = self.number();
        let name = self.name();
        let line = self.line;
        write!(f, "{number} {name} {line}")?;
        match self.net() {
            None => Ok(()),
            Some(net) => write_net(net.as_bytes(), f),
        }
    }
}

/// Writes a blank, and each byte of the net as the character with its number.
fn write_net<W: fmt::Write>(net: &[u8], f: &mut fmt::Formatter<W>) -> fmt::Result
    ensures { WritesOnOk W.write_str_gives f.old result (codes " " ++ encode_utf8_all net.now)
        f.new }
{
    f.write_char(' ')?;
    for byte in net {
        f.write_char(char::from(*byte))?;
    }
    Ok(())
}

impl Clone for BlifFault {
    ghost is_clone = { λ fault copy. copy ≡ fault };

    fn clone(&self) -> Result<Self, AllocError> {
        Ok(BlifFault {
            line: self.line,
            kind: self.kind.clone()?,
        })
    }
}

/// Why a text describes no circuit.
pub type BlifError = TextError<BlifFault>;

impl From<LineFault> for BlifFault {
    ghost use Rattle.std.specs.Prelude.{◌≡◌};
    ghost use Rattle.blif.specs.Faults.{fault_of_lines};

    ghost from_gives = { λ lines fault. fault ≡ fault_of_lines lines };

    fn from(fault: LineFault) -> Self {
        let (line, kind) = match fault {
            LineFault::NotAscii(line) => (line, BlifFaultKind::NotAscii),
            LineFault::LineTooLong(line) => (line, BlifFaultKind::LineTooLong),
        };
        BlifFault { line, kind }
    }
}
