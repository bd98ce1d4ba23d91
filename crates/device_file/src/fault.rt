//! What can be wrong with a device file.
use line_text::TextError;

/// The kind of a fault.
#[derive(Clone, Copy, PartialEq, Eq)]
pub enum FaultKind {
    /// The line has a control character: the file is no text.
    NotText,
    /// The word is not an option of a device.
    NotAnOption,
    /// An earlier word is this option too.
    Repeated,
    /// No value follows the option.
    NoValue,
    /// The option's value is not a number.
    NotANumber,
}

/// The first fault of a device file.
#[derive(Clone, Copy)]
pub struct DeviceFileFault<'t> {
    /// The number of its line, from 1; of an option without its value, the option's line.
    pub line: u32,
    pub kind: FaultKind,
    /// The word that is faulty, or the option that has no value; empty if the line is no text.
    pub word: &'t [u8],
}

/// Why a device file could not be read.
pub type DeviceFileError<'t> = TextError<DeviceFileFault<'t>>;

impl FaultKind {
    /// The fault in words, which follow the word that is faulty.
    pub fn text(self) -> &'static str {
        match self {
            FaultKind::NotText => "the file is not a text",
            FaultKind::NotAnOption => " is not an option of a device",
            FaultKind::Repeated => " is given twice",
            FaultKind::NoValue => " has no value",
            FaultKind::NotANumber => " is not a number",
        }
    }
}
