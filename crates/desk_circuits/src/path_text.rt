//! The stops of a netlist's longest path as a text.
ghost use Rattle.std.specs.Prelude.{ℕ, ◌≡◌, List, option_map};
ghost use Rattle.desk_circuits.specs.EachText.{IsEmptyOr};
ghost use Rattle.desk_circuits.specs.Measured.{ShowsLongest, ShowsNetlistStops, ShowsPresentStops};
ghost use Rattle.desk_circuits.specs.PathWires.{ShowsStops, ShowsStopsOn};
ghost use Rattle.desk_circuits.specs.Strips.{files_of_texts, present_files};
ghost use Rattle.desk_circuits.specs.Prelude.{Writes, states_of};

use crate::longest::{MeasuredCircuit, measure};
use crate::wires::{stops_on, strip_of};
use blif::Circuit;
use line_text::{Failed, Sink};
use longest_path::LongestPath;
use path_stops::write_stops;
use script_replies::NameFiles;
use std::alloc::Global;
use strip_files::{RoutedStrip, StripTexts};

/// Writes the stops of a path through a netlist, with the wires between them, by the netlist's
/// three files. Writes nothing if these are not the files of one tenancy, or if memory runs out.
pub fn write_path_stops<W: Sink>(
    alloc: Global,
    texts: StripTexts<'_>,
    circuit: &Circuit,
    path: &LongestPath,
    writer: &mut W,
) -> Result<(), Failed>
    ensures { (text : List ℕ)
        × IsEmptyOr (ShowsStops (files_of_texts texts.entry) circuit.now path.now) text
        × Writes W.contents W.has_failed writer.old writer.new text result }
{
    let Ok(strip) = strip_of(alloc, texts) else {
        return Ok(());
    };
    let written = write_stops_on(alloc, &strip, circuit, path, writer);
    drop(strip);
    written
}

/// Writes the stops of a path over that strip. Writes nothing if memory runs out.
fn write_stops_on<W: Sink>(
    alloc: Global,
    strip: &RoutedStrip<'_>,
    circuit: &Circuit,
    path: &LongestPath,
    writer: &mut W,
) -> Result<(), Failed>
    ensures { (text : List ℕ) × IsEmptyOr (ShowsStopsOn strip.now circuit.now path.now) text
        × Writes W.contents W.has_failed writer.old writer.new text result }
{
    match stops_on(alloc, strip, circuit, path) {
        Ok(stops) => {
            let written = write_stops(writer, strip, circuit, &stops);
            drop(stops);
            written
        }
        Err(_) => Ok(()),
    }
}

/// Writes the stops of the longest path of the netlist that a name has. Writes nothing if one of
/// its files is not present, or if memory runs out.
pub fn write_present_stops<W: Sink>(
    alloc: Global,
    files: NameFiles<'_, '_>,
    writer: &mut W,
) -> Result<(), Failed>
    ensures { (text : List ℕ) × IsEmptyOr (ShowsPresentStops (states_of files.entry)) text
        × Writes W.contents W.has_failed writer.old writer.new text result }
{
    match (files.netlist, texts_of(files)) {
        (Some(netlist), Some(texts)) => write_netlist_stops(alloc, netlist, texts, writer),
        _ => Ok(()),
    }
}

/// Writes the stops of the longest path of a netlist, by its three files. Writes nothing if it has
/// no longest path, or if memory runs out.
pub fn write_netlist_stops<W: Sink>(
    alloc: Global,
    netlist: &[u8],
    texts: StripTexts<'_>,
    writer: &mut W,
) -> Result<(), Failed>
    ensures { (text : List ℕ)
        × IsEmptyOr (ShowsNetlistStops netlist.now (files_of_texts texts.entry)) text
        × Writes W.contents W.has_failed writer.old writer.new text result }
{
    match measure(alloc, netlist, None) {
        Some(measured) => { write_measured_stops(alloc, texts, &measured, writer) }
        None => Ok(()),
    }
}

/// Writes the stops of a measured circuit's longest path, if it has one.
fn write_measured_stops<W: Sink>(
    alloc: Global,
    texts: StripTexts<'_>,
    measured: &MeasuredCircuit,
    writer: &mut W,
) -> Result<(), Failed>
    ensures { (text : List ℕ)
        × IsEmptyOr (ShowsLongest (files_of_texts texts.entry) measured.now.circuit measured.now.longest) text
        × Writes W.contents W.has_failed writer.old writer.new text result }
{
    match measured.path() {
        Some(path) => write_path_stops(alloc, texts, measured.circuit(), path, writer),
        None => Ok(()),
    }
}

/// The three files, if all are present.
pub(crate) fn texts_of<'p>(files: NameFiles<'_, 'p>) -> Option<StripTexts<'p>>
    ensures { option_map files_of_texts result ≡ present_files (states_of files.entry) }
{
    match (files.net.text, files.place.text, files.route.text) {
        (Some(net), Some(place), Some(route)) => Some(StripTexts { net, place, route }),
        _ => None,
    }
}
