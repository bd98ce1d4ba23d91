//! The wires of a netlist's path, by the files of its routing.
ghost use Rattle.std.specs.Prelude.{◌≡◌, IfOk, IfSome};
ghost use Rattle.desk_circuits.specs.Json.{net_name};
ghost use Rattle.desk_circuits.specs.PathWires.{AreStops, HasWires, HasWiresOn, wires_over, wires_to_end, wires_to_ends, wires_to_table, wires_to_tables};
ghost use Rattle.desk_circuits.specs.Strips.{IsStripOf, files_of_texts};

use blif::Circuit;
use line_text::TextError;
use longest_path::LongestPath;
use path_stops::{MeasuredStop, StopKind, measured_stops, stops_of};
use std::alloc::{AllocError, Global};
use strip_files::{FileFault, RoutedStrip, StripTexts, read_strip};

/// The number of wires of a path, by the netlist's three files. `None` if they are not the files of
/// one tenancy, or if memory runs out.
///
/// A table of the path is in the block that has the table's BLE. The path goes by the route of each
/// of its nets to the block with the next table, and at its end to the output pad or the latch; if
/// it has several such ends, to the one with the most wires. Inside a block, and on the global
/// network, it has no wires.
pub(crate) fn wires_of(
    alloc: Global,
    circuit: &Circuit,
    path: &LongestPath,
    texts: StripTexts<'_>,
) -> Option<u64>
    ensures { IfSome result (HasWires (files_of_texts texts.entry) circuit.now path.now) }
{
    let Ok(strip) = strip_of(alloc, texts) else {
        return None;
    };
    match wires_on(alloc, circuit, path, &strip) {
        Ok(wires) => Some(wires),
        Err(_) => None,
    }
}

/// The strip of a tenancy, by its three files.
pub(crate) fn strip_of(
    alloc: Global,
    texts: StripTexts<'_>,
) -> Result<RoutedStrip<'_>, TextError<FileFault>>
    ensures { IfOk result (IsStripOf (files_of_texts texts.entry)) }
{
    read_strip(alloc, texts)
}

/// The number of wires of a path on that strip.
fn wires_on(
    alloc: Global,
    circuit: &Circuit,
    path: &LongestPath,
    strip: &RoutedStrip<'_>,
) -> Result<u64, AllocError>
    ensures { IfOk result (HasWiresOn strip.now circuit.now path.now) }
{
    let stops = stops_on(alloc, strip, circuit, path)?;
    Ok(wires_over(&stops))
}

/// Returns the stops of a path over that strip, with the wires between them. Fails with
/// [`AllocError`] if memory runs out.
pub fn stops_on(
    alloc: Global,
    strip: &RoutedStrip<'_>,
    circuit: &Circuit,
    path: &LongestPath,
) -> Result<Vec<MeasuredStop>, AllocError>
    ensures { IfOk result (λ stops. AreStops strip.now circuit.now path.now stops.items) }
{
    let stops = stops_of(alloc, strip, circuit, path)?;
    measured_stops(alloc, strip, circuit, &stops)
}

/// The wires of a path with these stops: those to its tables, and the most to one of its ends.
fn wires_over(stops: &[MeasuredStop]) -> u64
    ensures { result ≡ wires_over stops.now }
{
    wires_to_tables(stops).saturating_add(wires_to_ends(stops))
}

/// The wires on the ways to the tables.
fn wires_to_tables(stops: &[MeasuredStop]) -> u64
    ensures { result ≡ wires_to_tables stops.now }
{
    let mut wires = 0u64;
    for stop in stops {
        wires = wires.saturating_add(wires_to_table(*stop));
    }
    wires
}

/// The most wires on the way to an end.
fn wires_to_ends(stops: &[MeasuredStop]) -> u64
    ensures { result ≡ wires_to_ends stops.now }
{
    let mut most = 0u64;
    for stop in stops {
        most = most.max(wires_to_end(*stop));
    }
    most
}

/// The wires on the way to a stop, if it is a table.
fn wires_to_table(one: MeasuredStop) -> u64
    ensures { result ≡ wires_to_table one }
{
    match (one.stop.kind, one.wires) {
        (StopKind::Table, Some(wires)) => wires,
        _ => 0,
    }
}

/// The wires on the way to a stop, if it is an end.
fn wires_to_end(one: MeasuredStop) -> u64
    ensures { result ≡ wires_to_end one }
{
    match (one.stop.kind, one.wires) {
        (StopKind::End, Some(wires)) => wires,
        _ => 0,
    }
}

/// The name of a net; empty if there is no such net.
pub fn name_of(circuit: &Circuit, net: u32) -> &[u8]
    ensures { result.now ≡ net_name circuit.now net }
{
    if (net as usize) < circuit.nets.len() {
        circuit.nets.name(net as usize)
    } else {
        b""
    }
}
