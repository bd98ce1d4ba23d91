//! Reads a pin file.
ghost use Rattle.std.specs.Prelude.{◌≡◌, [], ◌<◌, ◌^◌, length, option_map};
ghost use Rattle.pin_file.specs.PinFiles.{pin_of, pins_after, pins_in};
ghost use Rattle.pin_file.specs.Reading.{Gives, pin_read};

use crate::fault::{PinFileError, PinFileFault};
use grid::Place;
use line_text::{Line, Lines, TextError, decimal_u32, logical_lines};
use std::alloc::Global;

/// A line of a pin file.
#[derive(Clone, Copy)]
pub struct PinLine<'t> {
    /// The number of the line, from 1.
    pub line: u32,
    /// The name of an input or an output.
    pub name: &'t [u8],
    /// The place that it is to have: column, row and pad.
    pub place: Place,
}

/// The pins of a file, in its order. Fails with the file's fault, or if memory runs out.
pub fn read_pins(alloc: Global, text: &[u8]) -> Result<Vec<PinLine<'_>>, PinFileError>
    requires { length text.now < 2 ^ 32 }
    ensures { Gives (pins_in text.now) result }
{
    match logical_lines(alloc, text) {
        Ok(lines) => {
            let pins = pins_of(alloc, &lines);
            drop(lines);
            pins
        }
        Err(TextError::NoMemory) => Err(PinFileError::NoMemory),
        Err(TextError::Fault(fault)) => { Err(PinFileError::Fault(PinFileFault::Text(fault))) }
    }
}

/// The pins of these lines. Fails at the first line that is not a pin.
fn pins_of<'t>(alloc: Global, lines: &Lines<'t>) -> Result<Vec<PinLine<'t>>, PinFileError>
    ensures { Gives (pins_after [] lines.now) result }
{
    let mut pins = Vec::new(alloc);
    for number in 0..lines.len() {
        let line = lines.line(number);
        match pin_of(&line) {
            Some(pin) => pins.push(pin)?,
            None => return Err(PinFileError::Fault(PinFileFault::NotAPin(line.number()))),
        }
    }
    Ok(pins)
}

/// The pin of a line: a name and three numbers.
fn pin_of<'t>(line: &Line<'_, 't>) -> Option<PinLine<'t>>
    ensures { option_map pin_read result ≡ pin_of line.now }
{
    match line.words() {
        [name, column, row, pad] => Some(PinLine {
            line: line.number(),
            name: *name,
            place: Place {
                x: decimal_u32(column)?,
                y: decimal_u32(row)?,
                subblock: decimal_u32(pad)?,
            },
        }),
        _ => None,
    }
}
