//! What can be wrong with a pin file.
use line_text::{LineFault, TextError};

/// The fault of a pin file, with its line, from 1.
#[derive(Clone, Copy, PartialEq, Eq)]
pub enum PinFileFault {
    /// The text can't be split into lines. This is looked for in the whole file first.
    Text(LineFault),
    /// The line isn't a name and three numbers.
    NotAPin(u32),
}

/// Why a pin file could not be read.
pub type PinFileError = TextError<PinFileFault>;
