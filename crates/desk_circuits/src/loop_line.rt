//! A loop of tables in a line.
ghost use Rattle.std.specs.Prelude.{◌≡◌, ◌-◌, length, option_map, slice_get};
ghost use Rattle.desk_circuits.specs.PathLines.{known_loop, left_out, loop_end, loop_tables, loop_text, table_line, table_name, table_text};
ghost use Rattle.desk_circuits.specs.Prelude.{Writes};

use crate::path_line::write_count;
use crate::wires::name_of;
use blif::Circuit;
use line_text::{Failed, Sink};
use text_parts::{Part, write_parts};

/// The most tables of a loop that are written.
const MAX_SHOWN: usize = 20;

/// Writes a loop, if its tables are known.
pub(crate) fn write_known_loop<W: Sink>(
    circuit: &Circuit,
    numbers: &Option<Vec<usize>>,
    writer: &mut W,
) -> Result<(), Failed>
    ensures { Writes W.contents W.has_failed writer.old writer.new
        (known_loop circuit.now (option_map (λ tables. tables.items) numbers.now)) result }
{
    match numbers {
        Some(numbers) => write_loop(circuit, numbers, writer),
        None => write_parts(
            writer,
            &[Part::Text("longest path: some tables form a loop\n")],
        ),
    }
}

/// Writes the number of a loop's tables, and then each table by its net and its line in the
/// netlist, from the first that drives the next. Of a long loop the last tables are left out.
fn write_loop<W: Sink>(circuit: &Circuit, numbers: &[usize], writer: &mut W) -> Result<(), Failed>
    ensures { Writes W.contents W.has_failed writer.old writer.new
        (loop_text circuit.now numbers.now) result }
{
    write_parts(writer, &[Part::Text("longest path: loop of ")])?;
    write_count(writer, numbers.len() as u64, " table", " tables")?;
    write_parts(writer, &[Part::Text(": ")])?;
    write_tables(circuit, numbers, writer)?;
    write_left_out(numbers.len(), writer)?;
    write_first(circuit, numbers, writer)
}

/// Writes the first tables of a loop.
fn write_tables<W: Sink>(circuit: &Circuit, numbers: &[usize], writer: &mut W) -> Result<(), Failed>
    ensures { Writes W.contents W.has_failed writer.old writer.new
        (loop_tables circuit.now numbers.now) result }
{
    let count = numbers.len();
    for place in 0..count.min(MAX_SHOWN) {
        write_table(circuit, numbers[count - 1 - place], writer)?;
    }
    Ok(())
}

/// Writes that the last tables of a long loop are left out.
fn write_left_out<W: Sink>(count: usize, writer: &mut W) -> Result<(), Failed>
    ensures { Writes W.contents W.has_failed writer.old writer.new (left_out count) result }
{
    if count > MAX_SHOWN {
        write_parts(writer, &[Part::Text(".. -> ")])
    } else {
        Ok(())
    }
}

/// Writes the net of a loop's first table.
fn write_first<W: Sink>(circuit: &Circuit, numbers: &[usize], writer: &mut W) -> Result<(), Failed>
    ensures { Writes W.contents W.has_failed writer.old writer.new
        (loop_end circuit.now (slice_get numbers.now (length numbers.now - 1))) result }
{
    let first = match numbers.last() {
        Some(number) => table_name(circuit, *number),
        None => b"",
    };
    write_parts(writer, &[Part::Bytes(first), Part::Text("\n")])
}

/// Writes the net of a table, and the table's line.
fn write_table<W: Sink>(circuit: &Circuit, number: usize, writer: &mut W) -> Result<(), Failed>
    ensures { Writes W.contents W.has_failed writer.old writer.new (table_text circuit.now number)
        result }
{
    write_parts(
        writer,
        &[
            Part::Bytes(table_name(circuit, number)),
            Part::Text(" (line "),
            Part::Number(table_line(circuit, number)),
            Part::Text(") -> "),
        ],
    )
}

/// The line of a table; 0 if there is no such table.
fn table_line(circuit: &Circuit, number: usize) -> u32
    ensures { result ≡ table_line (slice_get circuit.now.tables number) }
{
    if number < circuit.tables.len() {
        circuit.tables.table(number).line
    } else {
        0
    }
}

/// The name of the net that a table drives. Empty if there is no such table.
fn table_name(circuit: &Circuit, number: usize) -> &[u8]
    ensures { result.now ≡ table_name circuit.now number }
{
    if number < circuit.tables.len() {
        name_of(circuit, circuit.tables.table(number).output)
    } else {
        b""
    }
}
