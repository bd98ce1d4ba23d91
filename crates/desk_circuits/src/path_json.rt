//! A circuit and its longest path, as JSON.
ghost use Rattle.std.specs.Prelude.{◌≡◌, ◌++◌, OnOk, None, Some, map, option_map};
ghost use Rattle.std.specs.List.{flat_map};
ghost use Rattle.desk_circuits.specs.Json.{circuit_members, count_members, ends_json, longest_json, loop_json, table_json};
ghost use Rattle.desk_circuits.specs.Prelude.{json_tokens, Loop, list_of, member_tokens};

use crate::longest::{MeasuredCircuit, end_name};
use crate::wires::name_of;
use blif::Circuit;
use json_text::{JsonPen, Scalar};
use longest_path::{Longest, LongestPath};
use std::alloc::AllocError;

/// Writes the members of a circuit: its numbers of tables and latches, and its longest path. Each
/// is `null` if there is no circuit.
pub fn write_circuit_members(
    pen: &mut JsonPen,
    circuit: &Option<MeasuredCircuit>,
) -> Result<(), AllocError>
    ensures { OnOk result (pen.new ≡ pen.old
        ++ flat_map member_tokens (circuit_members circuit.now)) }
{
    match circuit {
        Some(measured) => write_measured(pen, measured),
        None => write_unknown(pen),
    }
}

/// Writes the members of a circuit of which nothing is known.
fn write_unknown(pen: &mut JsonPen) -> Result<(), AllocError>
    ensures { OnOk result (pen.new ≡ pen.old ++ flat_map member_tokens (circuit_members None)) }
{
    pen.members(&[
        ("tables", Scalar::Null),
        ("latches", Scalar::Null),
        ("longest_path", Scalar::Null),
    ])
}

/// Writes the members of a circuit.
fn write_measured(pen: &mut JsonPen, measured: &MeasuredCircuit) -> Result<(), AllocError>
    ensures { OnOk result (pen.new ≡ pen.old
        ++ flat_map member_tokens (circuit_members (Some measured.now))) }
{
    write_counts(pen, &measured.circuit)?;
    pen.key("longest_path")?;
    write_longest(pen, measured)
}

/// Writes the members with the numbers of tables and latches.
fn write_counts(pen: &mut JsonPen, circuit: &Circuit) -> Result<(), AllocError>
    ensures { OnOk result (pen.new ≡ pen.old
        ++ flat_map member_tokens (count_members circuit.now)) }
{
    pen.members(&[
        ("tables", Scalar::Number(circuit.tables.len() as u64)),
        (
            "latches",
            Scalar::Number(circuit.latches.as_slice().len() as u64),
        ),
    ])
}

/// Writes the longest path of a circuit, or its loop.
fn write_longest(pen: &mut JsonPen, measured: &MeasuredCircuit) -> Result<(), AllocError>
    ensures { OnOk result (pen.new ≡ pen.old
        ++ json_tokens (longest_json measured.now measured.now.longest)) }
{
    match &measured.longest {
        Longest::Path(path) => write_ends(pen, &measured.circuit, path, measured.wires),
        Longest::NoPath => pen.scalar(Scalar::Null),
        Longest::Loop => write_looped(pen, measured),
    }
}

/// Writes the loop of a circuit's tables.
fn write_looped(pen: &mut JsonPen, measured: &MeasuredCircuit) -> Result<(), AllocError>
    ensures { OnOk result (pen.new ≡ pen.old ++ json_tokens (longest_json measured.now Loop)) }
{
    pen.open_object()?;
    pen.key("loop")?;
    write_loop_of(pen, &measured.circuit, &measured.looped)?;
    pen.close_object()
}

/// Writes the tables of a loop, if they are known.
fn write_loop_of(
    pen: &mut JsonPen,
    circuit: &Circuit,
    tables: &Option<Vec<usize>>,
) -> Result<(), AllocError>
    ensures { OnOk result (pen.new ≡ pen.old ++ json_tokens (loop_json circuit.now
        (option_map (λ tables. tables.items) tables.now))) }
{
    match tables {
        Some(tables) => write_loop(pen, circuit, tables),
        None => pen.scalar(Scalar::Null),
    }
}

/// Writes the numbers of a path's tables and wires, and the names of its ends.
fn write_ends(
    pen: &mut JsonPen,
    circuit: &Circuit,
    path: &LongestPath,
    wires: Option<u64>,
) -> Result<(), AllocError>
    ensures { OnOk result (pen.new ≡ pen.old
        ++ json_tokens (ends_json circuit.now wires path.now)) }
{
    pen.object(&[
        ("tables", Scalar::Number(path.tables.len() as u64)),
        ("wires", Scalar::Known(wires)),
        ("from", Scalar::Name(name_of(circuit, path.from))),
        ("to", Scalar::Name(end_name(circuit, path.to))),
    ])
}

/// Writes the tables of a loop.
fn write_loop(pen: &mut JsonPen, circuit: &Circuit, tables: &[usize]) -> Result<(), AllocError>
    ensures { OnOk result (pen.new ≡ pen.old
        ++ json_tokens (list_of (map (table_json circuit.now) tables.now))) }
{
    pen.open_list()?;
    write_tables(pen, circuit, tables)?;
    pen.close_list()
}

/// Writes tables, one after another.
fn write_tables(pen: &mut JsonPen, circuit: &Circuit, tables: &[usize]) -> Result<(), AllocError>
    ensures { OnOk result (pen.new ≡ pen.old
        ++ flat_map (λ number. json_tokens (table_json circuit.now number)) tables.now) }
{
    for number in tables {
        write_table(pen, circuit, *number)?;
    }
    Ok(())
}

/// Writes the net that a table drives, and the table's line.
fn write_table(pen: &mut JsonPen, circuit: &Circuit, number: usize) -> Result<(), AllocError>
    ensures { OnOk result (pen.new ≡ pen.old ++ json_tokens (table_json circuit.now number)) }
{
    if number >= circuit.tables.len() {
        return pen.scalar(Scalar::Null);
    }
    let table = circuit.tables.table(number);
    pen.object(&[
        ("net", Scalar::Name(name_of(circuit, table.output))),
        ("line", Scalar::Number(u64::from(table.line))),
    ])
}
