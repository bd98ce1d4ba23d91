//! The stops of a path as a text.
ghost use Rattle.std.specs.Prelude.{◌≡◌};
ghost use Rattle.std.specs.List.{flat_map};
ghost use Rattle.path_stops.specs.Prelude.{Writes};
ghost use Rattle.path_stops.specs.Measured.{block_at};
ghost use Rattle.path_stops.specs.Text.{block_text, kind_word, logic_text, name_text, pad_text, place_text, stop_text, way_line, wire_word, wires_line};

use crate::blocks::net_name;
use crate::measured::{MeasuredStop, block_at};
use crate::stops::{PathStop, StopKind};
use blif::Circuit;
use grid::Place;
use line_text::{Failed, Sink};
use strip_files::{BlockKind, PlacedBlock, RoutedStrip};
use text_parts::{Part, write_parts};

/// Writes a line for each stop of a path, and between two of them a line with the wires. If the
/// sink fails, it has taken a beginning of them.
pub fn write_stops<W: Sink>(
    sink: &mut W,
    strip: &RoutedStrip<'_>,
    circuit: &Circuit,
    stops: &[MeasuredStop],
) -> Result<(), Failed>
    ensures { Writes W.contents W.has_failed sink.old sink.new
        (flat_map (stop_text strip.now circuit.now) stops.now) result }
{
    for stop in stops {
        write_stop(sink, strip, circuit, *stop)?;
    }
    Ok(())
}

/// Writes the wires on the way to a stop, and its line.
fn write_stop<W: Sink>(
    sink: &mut W,
    strip: &RoutedStrip<'_>,
    circuit: &Circuit,
    one: MeasuredStop,
) -> Result<(), Failed>
    ensures { Writes W.contents W.has_failed sink.old sink.new
        (stop_text strip.now circuit.now one) result }
{
    write_way(sink, one.wires)?;
    write_name(sink, circuit, one.stop)?;
    write_place(sink, strip, one.stop.block)
}

/// Writes the line of the wires, if there is one.
fn write_way<W: Sink>(sink: &mut W, wires: Option<u64>) -> Result<(), Failed>
    ensures { Writes W.contents W.has_failed sink.old sink.new (way_line wires) result }
{
    match wires {
        None => Ok(()),
        Some(wires) => write_wires(sink, wires),
    }
}

/// Writes the line of that many wires.
fn write_wires<W: Sink>(sink: &mut W, wires: u64) -> Result<(), Failed>
    ensures { Writes W.contents W.has_failed sink.old sink.new (wires_line wires) result }
{
    write_parts(
        sink,
        &[
            Part::Text("path "),
            Part::Long(wires),
            Part::Text(wire_word(wires)),
        ],
    )
}

/// The word for that many wires, with the end of the line.
fn wire_word(wires: u64) -> &'static str
    ensures { result.now ≡ wire_word wires }
{
    if wires == 1 { " wire\n" } else { " wires\n" }
}

/// Writes the kind and the name of a stop.
fn write_name<W: Sink>(sink: &mut W, circuit: &Circuit, stop: PathStop) -> Result<(), Failed>
    ensures { Writes W.contents W.has_failed sink.old sink.new (name_text circuit.now stop)
        result }
{
    write_parts(
        sink,
        &[
            Part::Text("path "),
            Part::Text(kind_word(stop.kind)),
            Part::Text(" "),
            Part::Bytes(net_name(circuit, stop.net)),
        ],
    )
}

/// The word for a kind of stop.
fn kind_word(kind: StopKind) -> &'static str
    ensures { result.now ≡ kind_word kind }
{
    match kind {
        StopKind::Start => "from",
        StopKind::Table => "table",
        StopKind::End => "to",
    }
}

/// Writes the block of a stop with its place, and ends the line.
fn write_place<W: Sink>(
    sink: &mut W,
    strip: &RoutedStrip<'_>,
    block: Option<usize>,
) -> Result<(), Failed>
    ensures { Writes W.contents W.has_failed sink.old sink.new
        (place_text (block_at strip.now block)) result }
{
    match block_at(strip, block) {
        Some(block) => write_block(sink, block),
        None => write_parts(sink, &[Part::Text("\n")]),
    }
}

/// Writes a block with its place, and ends the line.
fn write_block<W: Sink>(sink: &mut W, block: &PlacedBlock<'_>) -> Result<(), Failed>
    ensures { Writes W.contents W.has_failed sink.old sink.new (block_text block.now) result }
{
    match block.kind {
        BlockKind::Cluster => write_logic(sink, block.place),
        BlockKind::InputPad => write_pad(sink, block.place),
        BlockKind::OutputPad => write_pad(sink, block.place),
    }
}

/// Writes the place of a logic block, and ends the line.
fn write_logic<W: Sink>(sink: &mut W, place: Place) -> Result<(), Failed>
    ensures { Writes W.contents W.has_failed sink.old sink.new (logic_text place) result }
{
    write_parts(
        sink,
        &[
            Part::Text(" block "),
            Part::Number(place.x),
            Part::Text(" "),
            Part::Number(place.y),
            Part::Text("\n"),
        ],
    )
}

/// Writes the place of a pad, and ends the line.
fn write_pad<W: Sink>(sink: &mut W, place: Place) -> Result<(), Failed>
    ensures { Writes W.contents W.has_failed sink.old sink.new (pad_text place) result }
{
    write_parts(
        sink,
        &[
            Part::Text(" pad "),
            Part::Number(place.x),
            Part::Text(" "),
            Part::Number(place.y),
            Part::Text(" "),
            Part::Number(place.subblock),
            Part::Text("\n"),
        ],
    )
}
