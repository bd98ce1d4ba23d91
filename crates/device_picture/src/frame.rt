//! The sheet of the picture: its size, its styles, its heading and the numbers beside the device.
ghost use Rattle.std.specs.Prelude.{◌≤◌};

use crate::geometry::Geometry;
use crate::view::longest_name;
use device_lines::ListedDevice;
use line_text::Sink;
use picture_lines::{Sheet, begin_group, end_group, write_numbers, write_rows};
use text_parts::{Part, Pen};

/// The styles: tracks, blocks and pads, wires, owned pads, output pins, input pins, strips, guard
/// columns.
const STYLES: &str = "<style>text{font-family:sans-serif;fill:#222}\
.t{fill:none;stroke:#ccc;stroke-width:.15}\
.b{fill:#f6f6f6;stroke:#888;stroke-width:.15}\
.w{fill:none;stroke:currentColor;stroke-width:.6;stroke-linecap:round}\
.p{fill:currentColor;fill-opacity:.4}\
.o{fill:currentColor;stroke:#fff;stroke-width:.15}\
.i{fill:#fff;stroke:currentColor;stroke-width:.25}\
.s{fill:currentColor;fill-opacity:.1}\
.g{fill:url(#guard)}</style>\n";

/// The layout of the sheet, in units of the picture.
#[derive(Clone, Copy)]
pub(crate) struct Frame {
    pub(crate) geometry: Geometry,
    /// The size of letters.
    pub(crate) font: u32,
    /// The length of an entry of the legend.
    pub(crate) entry: u32,
    /// The number of entries of the legend side by side.
    pub(crate) side: u32,
    /// The width of the sheet.
    pub(crate) width: u32,
    /// The number of lines of the legend.
    pub(crate) lines: u32,
    ghost font_small: { (1 ≤ font) × (font ≤ 400) },
    ghost entry_small: { (1 ≤ entry) × (entry ≤ 20_000) },
    ghost side_some: { (1 ≤ side) × (side ≤ 100) },
    ghost width_small: { (1 ≤ width) × (width ≤ 60_000) },
    ghost lines_small: { lines ≤ 300 },
}

impl Frame {
    /// The layout for a device.
    pub(crate) fn of(device: &ListedDevice<'_>) -> Self {
        let geometry = Geometry::of(device);
        let font = (geometry.length() / 90).max(1);
        let entry = (longest_name(device) + 34) * font * 3 / 5 + 2 * font;
        let width = (geometry.length() + 5 * font).max(entry + 2 * font);
        let side = (width / entry).clamp(1, 100);
        let entries = device.tenancies.len().min(256) as u32 + 4;
        Frame {
            geometry,
            font,
            entry,
            side,
            width,
            lines: entries.div_ceil(side),
        }
    }

    /// The distance of the device from the left.
    fn left_margin(&self) -> u32
        ensures { result ≤ 1200 }
    {
        3 * self.font
    }

    /// The distance of the device's lower end from the top.
    fn ground(&self) -> u32
        ensures { result ≤ 36_000 }
    {
        4 * self.font + self.geometry.height()
    }

    /// The distance of the legend from the top.
    pub(crate) fn legend(&self) -> u32
        ensures { result ≤ 38_000 }
    {
        self.ground() + 4 * self.font
    }

    /// The height of the sheet.
    fn height(&self) -> u32
        ensures { result ≤ 300_000 }
    {
        self.legend() + 2 * self.lines * self.font
    }

    /// The width of the sheet on a screen, in pixels: 14 for a track if that is at most 1,400, and
    /// at least 10 for a column.
    fn dots(&self) -> u32
        ensures { result ≤ 2_560 }
    {
        if self.width <= 100 {
            14 * self.width
        } else {
            (10 * self.geometry.columns).max(1400)
        }
    }

    /// Writes the beginning, up to the heading.
    pub(crate) fn write_head<K: Sink>(&self, pen: &mut Pen<'_, K>) {
        let sheet = Sheet {
            width: self.width,
            height: self.height(),
            dots: self.dots(),
            font: self.font,
        };
        sheet.write_head(pen, STYLES);
        self.write_hatching(pen);
    }

    /// Writes the hatching of guard columns.
    fn write_hatching<K: Sink>(&self, pen: &mut Pen<'_, K>) {
        let step = Part::Number((self.font / 2).max(1));
        pen.write(&[
            Part::Text(
                "<pattern id=\"guard\" patternUnits=\"userSpaceOnUse\" patternTransform=\"rotate(45)\" width=\"",
            ),
            step,
            Part::Text("\" height=\""),
            step,
            Part::Text("\"><path d=\"M0 0v"),
            step,
            Part::Text("\" stroke=\"#777\" stroke-width=\""),
            step,
            Part::Text("\" stroke-opacity=\".6\"/></pattern>\n"),
        ]);
    }

    /// Writes the heading: the size of the device.
    pub(crate) fn write_heading<K: Sink>(&self, pen: &mut Pen<'_, K>, device: &ListedDevice<'_>) {
        let size = device.size;
        pen.write(&[Part::Text("<text x=\""), Part::Number(self.font)]);
        pen.write(&[Part::Text("\" y=\""), Part::Number(2 * self.font)]);
        pen.text("\" font-weight=\"bold\">");
        pen.write(&[Part::Number(size.columns), Part::Text(" × ")]);
        pen.write(&[Part::Number(size.rows), Part::Text(" blocks, ")]);
        pen.write(&[Part::Number(size.tracks), Part::Text(" tracks</text>\n")]);
    }

    /// Begins the group in which heights count upwards, and column 0 begins at 0.
    pub(crate) fn begin_device<K: Sink>(&self, pen: &mut Pen<'_, K>) {
        let base = self.ground() + self.geometry.bottom();
        begin_group(
            pen,
            self.geometry.lattice,
            self.left_margin(),
            base,
            " scale(1 -1)\">\n",
        );
    }

    /// Begins the group of texts above the device, whose column 0 begins at 0.
    pub(crate) fn begin_names<K: Sink>(&self, pen: &mut Pen<'_, K>) {
        begin_group(
            pen,
            self.geometry.lattice,
            self.left_margin(),
            4 * self.font,
            "\" text-anchor=\"middle\">\n",
        );
    }

    /// Writes the numbers of columns below the device.
    pub(crate) fn write_columns<K: Sink>(&self, pen: &mut Pen<'_, K>) {
        let lattice = self.geometry.lattice;
        let base = self.ground() + 2 * self.font;
        begin_group(
            pen,
            lattice,
            self.left_margin(),
            base,
            "\" text-anchor=\"middle\">\n",
        );
        write_numbers(
            pen,
            lattice,
            "<text x=\"",
            self.geometry.columns,
            self.step(),
        );
        end_group(pen);
    }

    /// Writes the numbers of rows left of the device.
    pub(crate) fn write_rows<K: Sink>(&self, pen: &mut Pen<'_, K>) {
        let lattice = self.geometry.lattice;
        let base = self.ground() + self.geometry.bottom();
        write_rows(
            pen,
            lattice,
            2 * self.font,
            base,
            self.geometry.rows,
            self.step(),
        );
    }

    /// How many columns, or rows, go with one number beside them.
    fn step(&self) -> u32
        ensures { 1 ≤ result }
    {
        self.geometry.lattice.step(3 * self.font)
    }
}
