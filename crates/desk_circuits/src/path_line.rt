//! A path in a line.
ghost use Rattle.desk_circuits.specs.PathLines.{count_text, counted_tables, ends_part, path_text, wires_part};
ghost use Rattle.std.specs.Prelude.{length};
ghost use Rattle.desk_circuits.specs.Prelude.{Writes};

use crate::longest::end_name;
use crate::wires::name_of;
use blif::Circuit;
use line_text::{Failed, Sink};
use longest_path::LongestPath;
use text_parts::{Part, write_parts};

/// Writes the numbers of a path's tables and wires, and the names of its ends.
pub(crate) fn write_path_line<W: Sink>(
    circuit: &Circuit,
    path: &LongestPath,
    wires: Option<u64>,
    writer: &mut W,
) -> Result<(), Failed>
    ensures { Writes W.contents W.has_failed writer.old writer.new
        (path_text circuit.now wires path.now) result }
{
    write_parts(writer, &[Part::Text("longest path ")])?;
    write_table_count(writer, &path.tables)?;
    write_wires(writer, wires)?;
    write_ends(circuit, path, writer)
}

/// Writes the number of some tables.
fn write_table_count<W: Sink>(writer: &mut W, tables: &[usize]) -> Result<(), Failed>
    ensures { Writes W.contents W.has_failed writer.old writer.new
        (counted_tables (length tables.now)) result }
{
    write_count(writer, tables.len() as u64, " table", " tables")
}

/// Writes the number of a path's wires, if it is known.
fn write_wires<W: Sink>(writer: &mut W, wires: Option<u64>) -> Result<(), Failed>
    ensures { Writes W.contents W.has_failed writer.old writer.new (wires_part wires) result }
{
    match wires {
        Some(wires) => {
            write_parts(writer, &[Part::Text(", ")])?;
            write_count(writer, wires, " wire", " wires")
        }
        None => Ok(()),
    }
}

/// Writes the names of a path's ends.
fn write_ends<W: Sink>(circuit: &Circuit, path: &LongestPath, writer: &mut W) -> Result<(), Failed>
    ensures { Writes W.contents W.has_failed writer.old writer.new (ends_part circuit.now path.now)
        result }
{
    write_parts(
        writer,
        &[
            Part::Text(": "),
            Part::Bytes(name_of(circuit, path.from)),
            Part::Text(" .. "),
            Part::Bytes(end_name(circuit, path.to)),
            Part::Text("\n"),
        ],
    )
}

/// Writes a number with the word for one or for several.
pub(crate) fn write_count<W: Sink>(
    writer: &mut W,
    number: u64,
    one: &'static str,
    several: &'static str,
) -> Result<(), Failed>
    ensures { Writes W.contents W.has_failed writer.old writer.new
        (count_text number one.entry.now several.entry.now) result }
{
    let word = if number == 1 { one } else { several };
    write_parts(writer, &[Part::Long(number), Part::Text(word)])
}
