//! Random circuits.
ghost use Rattle.std.specs.Prelude.{◌≤◌, ◌<◌};
ghost use Rattle.arch_file.specs.declared.arch.TheConstants.{MAX_LUT_SIZE};

use crate::draws::{Source, Square};
use crate::plan::{Plan, side_of};
use line_text::Sink;
use rand_core::utils::NextWord;
use rand_pcg::Pcg32;
use text_parts::{Part, Pen};

/// One table in this number has a latch after it.
const LATCHED: u32 = 16;

/// Writes the netlist of a tenancy: tables of two inputs or more, one in 16 followed by a latch.
pub(crate) fn write_circuit<K: Sink>(pen: &mut Pen<'_, K>, plan: Plan, tenancy: u32) {
    let square = Square {
        tables: plan.wishes.tables,
        side: side_of(plan.wishes.tables, 87),
        inputs: plan.ends(),
    };
    write_ends(pen, square);
    let mut words = Pcg32::new(plan.wishes.seed, u64::from(tenancy));
    for table in 0..square.tables {
        write_table(pen, square, &mut words, plan.wishes.inputs, table);
    }
    pen.text(".end\n");
}

/// Writes the lines before the tables: the inputs, the clock and the outputs.
fn write_ends<K: Sink>(pen: &mut Pen<'_, K>, square: Square) {
    pen.text(".model random\n.inputs");
    for input in 0..square.inputs {
        write_source(pen, Source::Input(input));
    }
    pen.text("\n.clock clk\n.outputs");
    let outputs = square.inputs.min(square.tables);
    for output in 0..outputs {
        write_source(pen, Source::Table(output * square.tables / outputs));
    }
    pen.text("\n");
}

/// Writes a table, and the latch after it.
fn write_table<K: Sink>(
    pen: &mut Pen<'_, K>,
    square: Square,
    words: &mut Pcg32,
    most: u32,
    table: u32,
)
    requires table { table < square.tables }
    requires most { (1 ≤ most) × (most ≤ MAX_LUT_SIZE) }
{
    let draws = most - words.next_word() % (most / 2 + 1);
    let (sources, count) = draw_sources(square, words, table, draws);
    pen.text(".names");
    for source in &sources[..count] {
        write_source(pen, *source);
    }
    pen.write(&[Part::Text(" n"), Part::Number(table), Part::Text("\n")]);
    for _source in &sources[..count] {
        pen.text("1");
    }
    pen.text(" 1\n");
    write_latch(pen, table);
}

/// The distinct sources of `draws` draws, and their number.
fn draw_sources(square: Square, words: &mut Pcg32, table: u32, draws: u32) -> ([Source; 8], usize)
    requires table { table < square.tables }
    requires draws { (1 ≤ draws) × (draws ≤ MAX_LUT_SIZE) }
    ensures { result.1 ≤ MAX_LUT_SIZE }
{
    let mut sources = [Source::Input(0); 8];
    let mut count = 0;
    for _draw in 0..draws {
        let source = square.draw(words, table);
        if !sources[..count].contains(&source) {
            sources[count] = source;
            count += 1;
        }
    }
    (sources, count)
}

/// Writes the latch after a table, if it has one.
fn write_latch<K: Sink>(pen: &mut Pen<'_, K>, table: u32) {
    if table % LATCHED != 0 {
        return;
    }
    pen.write(&[
        Part::Text(".latch n"),
        Part::Number(table),
        Part::Text(" q"),
        Part::Number(table),
        Part::Text(" re clk 2\n"),
    ]);
}

/// Writes the name of a source after a space.
fn write_source<K: Sink>(pen: &mut Pen<'_, K>, source: Source) {
    let (start, number) = match source {
        Source::Input(input) => (" i", input),
        Source::Table(table) if table % LATCHED == 0 => (" q", table),
        Source::Table(table) => (" n", table),
    };
    pen.write(&[Part::Text(start), Part::Number(number)]);
}
