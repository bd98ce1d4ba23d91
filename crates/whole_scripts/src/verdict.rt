use std::fmt;

/// The result of a line of the list.
#[derive(Clone, Copy)]
pub(crate) enum Verdict {
    /// The status, the output and the messages of the run are right.
    Agrees,
    /// The line names no run.
    NoRow,
    /// The run ends with this status, which isn't the right one.
    EndsWith(u8),
    /// Its output differs from this byte on, counted from 0.
    WritesOther(usize),
    /// The live service wrote a part of a line, so another reply could come within it.
    WritesParts,
    /// Its messages on standard error differ from this byte on, counted from 0.
    TellsOther(usize),
}

impl Verdict {
    /// Returns whether the run agrees.
    pub(crate) fn agrees(&self) -> bool {
        matches!(self, Verdict::Agrees)
    }
}

impl fmt::Display for Verdict {
    fn fmt<W: fmt::Write>(&self, f: &mut fmt::Formatter<W>) -> fmt::Result {
        match self {
            Verdict::Agrees => write!(f, "ok"),
            Verdict::NoRow => write!(f, "is not a row"),
            Verdict::EndsWith(status) => write!(f, "ends with status {status}"),
            Verdict::WritesOther(byte) => write!(f, "differs at byte {byte}"),
            Verdict::WritesParts => write!(f, "writes a part of a line"),
            Verdict::TellsOther(byte) => write!(f, "standard error differs at byte {byte}"),
        }
    }
}
