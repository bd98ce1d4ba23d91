//! The sheet of the picture: its size, its styles, its headings, the numbers beside the strip, and
//! its legend.
ghost use Rattle.std.specs.Prelude.{◌≤◌};

use crate::plan::Plan;
use line_text::Sink;
use picture_lines::{Sheet, begin_group, end_group, write_numbers, write_rows, write_swatch};
use text_parts::{Part, Pen};

/// The styles: letters, names, numbers of channels, empty places, clusters, input and output pads,
/// wires and pins of nets, a picked net, its driver and its readers, the others, bars.
const STYLES: &str = "<style>text{font-family:sans-serif;fill:#222}\
.m text{font-family:monospace}.n text{text-anchor:middle}\
.e{fill:#fafafa;stroke:#ddd;stroke-width:.15}\
.k{fill:#e6eef8;stroke:#7c8fa6;stroke-width:.2}\
.i{fill:#e2f3e2;stroke:#5d9c5d;stroke-width:.2}\
.o{fill:#fdecd8;stroke:#c78f4b;stroke-width:.2}\
.r{fill:none;stroke-width:.5;stroke-linecap:round;stroke-linejoin:round}.d{stroke-width:1.1}\
.q{stroke:#d6d6d6}.z{stroke:#d62728;stroke-width:.9}.z.d{stroke-width:1.9}\
.s{fill:#f4a6a6;stroke:#d62728;stroke-width:.4}.t{fill:#fbdcdc;stroke:#d62728;stroke-width:.4}\
.c0{stroke:#1f77b4}.c1{stroke:#d62728}.c2{stroke:#2ca02c}.c3{stroke:#9467bd}.c4{stroke:#ff7f0e}.c5{stroke:#17a2b8}\
.c6{stroke:#8c564b}.c7{stroke:#e377c2}.c8{stroke:#8a8d0f}.c9{stroke:#3949ab}.c10{stroke:#00796b}.c11{stroke:#ad1457}\
.h{stroke:#d8d8d8;stroke-width:.15}.h0{fill:#f5f5f5}.h1{fill:#fff1dc}.h2{fill:#fedfb8}.h3{fill:#fdc68a}.h4{fill:#fdab67}\
.h5{fill:#fb8a50}.h6{fill:#f3693f}.h7{fill:#e34a33}.h8{fill:#d93a2b}</style>\n";

/// The layout of the sheet.
#[derive(Clone, Copy)]
pub(crate) struct Frame {
    pub(crate) plan: Plan,
    /// The width of the sheet.
    width: u32,
    ghost width_small: { (1 ≤ width) × (width ≤ 100_000) },
}

impl Frame {
    /// The layout for a picture.
    pub(crate) fn of(plan: Plan) -> Self {
        Frame {
            plan,
            width: (plan.length() + 6 * plan.font).max(52 * plan.font),
        }
    }

    /// The distance of the strip from the left.
    fn left_margin(&self) -> u32
        ensures { result ≤ 4000 }
    {
        4 * self.plan.font
    }

    /// The distance of the strip's lower end from the top.
    fn ground(&self) -> u32
        ensures { result ≤ 40_000 }
    {
        6 * self.plan.font + self.plan.height()
    }

    /// The height of the sheet.
    fn height(&self) -> u32
        ensures { (1 ≤ result) × (result ≤ 60_000) }
    {
        self.ground() + 7 * self.plan.font
    }

    /// The width of the sheet on a screen, in pixels.
    fn dots(&self) -> u32
        ensures { (1 ≤ result) × (result ≤ 8000) }
    {
        if self.width <= 100 {
            14 * self.width
        } else {
            (3 * self.width / 2).clamp(1400, 8000)
        }
    }

    /// Writes the beginning: the size, the styles, and the background.
    pub(crate) fn write_head<K: Sink>(&self, pen: &mut Pen<'_, K>) {
        let sheet = Sheet {
            width: self.width,
            height: self.height(),
            dots: self.dots(),
            font: self.plan.font,
        };
        sheet.write_head(pen, STYLES);
    }

    /// Begins a heading: the first or the second.
    pub(crate) fn begin_heading<K: Sink>(&self, pen: &mut Pen<'_, K>, line: u32)
        requires { line ≤ 2 }
    {
        let weight = if line == 1 { "bold" } else { "normal" };
        pen.write(&[
            Part::Text("<text x=\""),
            Part::Number(self.plan.font),
            Part::Text("\" y=\""),
            Part::Number(2 * line * self.plan.font),
            Part::Text("\" font-weight=\""),
            Part::Text(weight),
            Part::Text("\">"),
        ]);
    }

    /// Begins the group in which heights count upwards.
    pub(crate) fn begin_shapes<K: Sink>(&self, pen: &mut Pen<'_, K>) {
        self.begin_group(pen, " scale(1 -1)\">\n");
    }

    /// Begins a group of texts of a class, with letters of that size in tenths, in which heights
    /// count downwards from row 0.
    pub(crate) fn begin_texts<K: Sink>(
        &self,
        pen: &mut Pen<'_, K>,
        class: &str,
        tenths: u32,
        turn: &str,
    ) {
        self.begin_group(pen, turn);
        pen.write(&[
            Part::Text("\" class=\""),
            Part::Text(class),
            Part::Text("\" font-size=\""),
            Part::Number(tenths / 10),
            Part::Text("."),
            Part::Number(tenths % 10),
            Part::Text("\">\n"),
        ]);
    }

    /// Begins a group whose origin is the beginning of column 0 and row 0, with a transformation
    /// for its contents.
    fn begin_group<K: Sink>(&self, pen: &mut Pen<'_, K>, turn: &str) {
        begin_group(
            pen,
            self.plan.lattice,
            self.left_margin(),
            self.ground(),
            turn,
        );
    }

    /// Writes the numbers of columns below the strip.
    pub(crate) fn write_columns<K: Sink>(&self, pen: &mut Pen<'_, K>) {
        let plan = self.plan;
        self.begin_group(pen, "\" text-anchor=\"middle\">\n");
        write_numbers(
            pen,
            plan.lattice,
            "<text dy=\"1.2em\" x=\"",
            plan.size.columns,
            self.step(),
        );
        end_group(pen);
    }

    /// Writes the numbers of rows left of the strip.
    pub(crate) fn write_rows<K: Sink>(&self, pen: &mut Pen<'_, K>) {
        let plan = self.plan;
        write_rows(
            pen,
            plan.lattice,
            3 * plan.font,
            self.ground(),
            plan.size.rows,
            self.step(),
        );
    }

    /// How many columns, or rows, go with one number beside them.
    fn step(&self) -> u32
        ensures { 1 ≤ result }
    {
        self.plan.lattice.step(2 * self.plan.font)
    }

    /// Writes an entry of the legend: a square of a class, and words.
    pub(crate) fn write_entry<'p, K: Sink>(
        &self,
        pen: &mut Pen<'_, K>,
        entry: u32,
        class: &'p str,
        words: &'p str,
    )
        requires { entry ≤ 8 }
    {
        self.begin_mark(pen, 1 + 9 * entry, class);
        pen.write(&[Part::Text(words), Part::Text("</text></g>\n")]);
    }

    /// Writes a square of a class into the legend, that many letters from the left, and begins the
    /// text beside it.
    pub(crate) fn begin_mark<K: Sink>(&self, pen: &mut Pen<'_, K>, letters: u32, class: &str)
        requires { letters ≤ 80 }
    {
        let font = self.plan.font;
        write_swatch(pen, letters * font, self.ground() + 4 * font, font, class);
    }
}
