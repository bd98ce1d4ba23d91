//! Lines and boxes, as parts of a path.

use line_text::Sink;
use text_parts::{Part, Pen};

/// Writes a line from a point, by the command for its direction.
pub fn write_line<K: Sink>(pen: &mut Pen<'_, K>, x: u32, y: u32, command: &str, length: u32) {
    pen.write(&[
        Part::Text("M"),
        Part::Number(x),
        Part::Text(" "),
        Part::Number(y),
        Part::Text(command),
        Part::Number(length),
    ]);
}

/// Writes a box from its lower left corner.
pub fn write_box<K: Sink>(pen: &mut Pen<'_, K>, x: u32, y: u32, width: u32, height: u32) {
    write_line(pen, x, y, "h", width);
    pen.write(&[
        Part::Text("v"),
        Part::Number(height),
        Part::Text("h-"),
        Part::Number(width),
        Part::Text("z"),
    ]);
}
