//! The sheet of a picture: its beginning, groups, the numbers beside columns and rows, and the
//! squares of a legend.
ghost use Rattle.std.specs.Prelude.{◌≤◌};
ghost use Rattle.grid.specs.declared.TheConstants.{MAX_COLUMNS};

use crate::lattice::Lattice;
use line_text::Sink;
use text_parts::{Part, Pen};

/// The size of a sheet.
#[derive(Clone, Copy)]
pub struct Sheet {
    pub width: u32,
    pub height: u32,
    /// The width of the sheet on a screen, in pixels.
    pub dots: u32,
    /// The size of letters, in units of the picture.
    pub font: u32,
    ghost width_some: { 1 ≤ width },
    ghost height_small: { height ≤ 300_000 },
    ghost dots_small: { dots ≤ 8_000 },
}

impl Sheet {
    /// Writes the beginning: the size, the styles, and the background.
    pub fn write_head<K: Sink>(&self, pen: &mut Pen<'_, K>, styles: &str) {
        pen.write(&[
            Part::Text("<svg xmlns=\"http://www.w3.org/2000/svg\" width=\""),
            Part::Number(self.dots),
            Part::Text("\" height=\""),
            Part::Number(self.height * self.dots / self.width),
            Part::Text("\" viewBox=\"0 0 "),
            Part::Number(self.width),
            Part::Text(" "),
            Part::Number(self.height),
            Part::Text("\" font-size=\""),
            Part::Number(self.font),
            Part::Text("\">\n"),
            Part::Text(styles),
            Part::Text("<rect width=\"100%\" height=\"100%\" fill=\"#fff\"/>\n"),
        ]);
    }
}

/// Begins a group whose column 0 begins at `x` from the left, less the length of a block, and at
/// `y` from the top, with a transformation for its contents.
pub fn begin_group<K: Sink>(pen: &mut Pen<'_, K>, lattice: Lattice, x: u32, y: u32, turn: &str) {
    pen.write(&[
        Part::Text("<g transform=\"translate("),
        Part::Number(x),
        Part::Text(" "),
        Part::Number(y),
        Part::Text(") translate(-"),
        Part::Number(lattice.block),
        Part::Text(" 0)"),
        Part::Text(turn),
    ]);
}

/// Ends a group.
pub fn end_group<K: Sink>(pen: &mut Pen<'_, K>) {
    pen.text("</g>\n");
}

/// Writes the numbers of rows, one for each `step` of them, which end at that distance from the
/// left; row 0 begins at that distance from the top.
pub fn write_rows<K: Sink>(
    pen: &mut Pen<'_, K>,
    lattice: Lattice,
    x: u32,
    y: u32,
    rows: u32,
    step: u32,
)
    requires rows { rows ≤ MAX_COLUMNS }
    requires step { 1 ≤ step }
{
    pen.write(&[
        Part::Text("<g transform=\"translate("),
        Part::Number(x),
        Part::Text(" "),
        Part::Number(y),
        Part::Text(")\" text-anchor=\"end\">\n"),
    ]);
    write_numbers(pen, lattice, "<text dy=\".35em\" y=\"-", rows, step);
    end_group(pen);
}

/// Writes the numbers of columns or rows at their middles, one for each `step` of them, each with
/// that beginning.
pub fn write_numbers<K: Sink>(
    pen: &mut Pen<'_, K>,
    lattice: Lattice,
    start: &str,
    count: u32,
    step: u32,
)
    requires count { count ≤ MAX_COLUMNS }
    requires step { 1 ≤ step }
{
    for number in 1..=count {
        if number % step == 0 {
            let middle = lattice.start(number) + lattice.block / 2;
            write_number(pen, start, middle, number);
        }
    }
}

/// Writes a number at a position.
fn write_number<K: Sink>(pen: &mut Pen<'_, K>, start: &str, place: u32, number: u32) {
    pen.write(&[
        Part::Text(start),
        Part::Number(place),
        Part::Text("\">"),
        Part::Number(number),
        Part::Text("</text>\n"),
    ]);
}

/// Writes a square of a class, as large as letters, and begins the text beside it.
pub fn write_swatch<K: Sink>(pen: &mut Pen<'_, K>, x: u32, y: u32, font: u32, class: &str)
    requires { font ≤ 1000 }
{
    pen.write(&[
        Part::Text("<g transform=\"translate("),
        Part::Number(x),
        Part::Text(" "),
        Part::Number(y),
        Part::Text(")\"><rect class=\""),
        Part::Text(class),
        Part::Text("\" style=\"stroke-width:.12em\" width=\""),
        Part::Number(font),
        Part::Text("\" height=\""),
        Part::Number(font),
        Part::Text("\"/><text x=\""),
        Part::Number(2 * font),
        Part::Text("\" dy=\".85em\">"),
    ]);
}
