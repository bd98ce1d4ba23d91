//! Why a pin can't be met.
use line_text::TextError;

/// The kind of a fault.
#[derive(Clone, Copy, PartialEq, Eq)]
pub enum PinFaultKind {
    /// No input and no output has the name.
    NoPad,
    /// The place is not one for a pad of the strip.
    NoPlace,
    /// That earlier line names the same pad.
    NamedBefore(u32),
    /// That earlier line has the same place.
    TakenBefore(u32),
}

/// The first pin that can't be met.
#[derive(Clone, Copy, PartialEq, Eq)]
pub struct PinFault {
    /// The number of its line.
    pub line: u32,
    pub kind: PinFaultKind,
}

/// Why pins could not be met.
pub type PinsError = TextError<PinFault>;
