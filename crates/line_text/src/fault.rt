//! What can be wrong with a text's lines.
use crate::text_error::TextError;

/// What is wrong with a text's lines, with the line's number, from 1.
#[derive(Clone, Copy, Debug, PartialEq, Eq)]
pub enum LineFault {
    /// A byte outside comments is neither a blank nor a printing ASCII character.
    NotAscii(u32),
    /// A joined line has more than [`MAX_LINE`](crate::MAX_LINE) bytes.
    LineTooLong(u32),
}

/// Why a text could not be split into lines.
pub type LineError = TextError<LineFault>;
