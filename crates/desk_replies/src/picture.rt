//! The tool that draws the device.
ghost use Rattle.desk_replies.specs.Pictured.{IsPictureEnd, IsTextEnd};

use crate::device_input::device_in;
use crate::size::SIZES;
use desk_common::Outcome;
use device_lines::DeviceSize;
use device_picture::{DrawError, draw};
use line_text::{Sink, Source, read_all};
use option_words::Program;
use std::alloc::Global;

/// The tool and its options.
pub const TOOL: Program = Program {
    name: "picture",
    about: "Draws the device as an SVG, from what fpgad printed for `op list` and `op owners`",
    after_help: "Example: fpgad --tracks 8 --columns 10 --rows 8 < my.script | fpgad_desk picture --tracks 8 --columns 10 --rows 8 > my.svg",
    options: SIZES,
};

/// Reads the device of that size from what the service printed, and draws it.
pub fn run<R: Source, W: Sink>(
    alloc: Global,
    size: DeviceSize,
    reader: &mut R,
    writer: &mut W,
) -> Outcome
    ensures { IsPictureEnd (R.remaining reader.old) size result }
{
    match read_all(alloc, reader) {
        Ok(text) => draw_text(alloc, size, text.as_slice(), writer),
        Err(error) => Outcome::of_reading(error),
    }
}

/// Draws the device of that size which the text prints.
fn draw_text<W: Sink>(alloc: Global, size: DeviceSize, text: &[u8], writer: &mut W) -> Outcome
    ensures { IsTextEnd size text.now result }
{
    match device_in(alloc, size, text) {
        Ok(device) => match draw(alloc, &device, writer) {
            Ok(()) => Outcome::Done,
            Err(DrawError::NoMemory) => Outcome::NoMemory,
            Err(DrawError::Failed) => Outcome::OutputFailed,
        },
        Err(outcome) => outcome,
    }
}
