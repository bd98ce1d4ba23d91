//! Pin files: which pad of a strip each named input or output of a netlist has.
//!
//! A file has a line `NAME COLUMN ROW PAD` for each pin, as in `op[0] 3 0 1`. What follows a `#` is
//! a comment, a line without words is none, and a line that ends in `\` goes on in the next one.
//! [`read_pins`] returns the pins in the file's order, or the file's fault with its line. It is
//! proved that it returns exactly what `pins_in` of `specs/PinFiles.antt` defines.
#![tactic(auto)]

mod fault;
mod reader;

pub use fault::{PinFileError, PinFileFault};
pub use reader::{PinLine, read_pins};
