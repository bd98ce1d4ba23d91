//! What a routed netlist uses, as lines or as a table.
use crate::device_use::write_device_use;
use crate::route_wishes::{GivenSize, RouteForm, RouteWishes};
use desk_circuits::{measure, write_numbers, write_path, write_quoted};
use line_text::{Failed, Sink};
use one_user::{Figures, write_figures};
use std::alloc::Global;
use strip_files::StripTexts;
use text_parts::{Part, write_parts};

/// A netlist that was routed.
#[derive(Clone, Copy)]
pub(crate) struct Routed<'a> {
    /// The name of its files.
    pub(crate) name: &'a str,
    pub(crate) netlist: &'a [u8],
    pub(crate) arch: &'a [u8],
    pub(crate) texts: StripTexts<'a>,
    pub(crate) size: GivenSize,
    pub(crate) figures: Figures,
}

/// The headings of the table.
const HEADINGS: &str =
    "netlist,columns,rows,tracks,logic_blocks,pads,nets,wire_length,wires,iterations,fullest_tracks,longest_path,longest_path_wires\n";

/// Prints what a netlist uses.
pub(crate) fn print_routed<W: Sink>(
    alloc: Global,
    wishes: RouteWishes<'_>,
    routed: Routed<'_>,
    writer: &mut W,
) -> Result<(), Failed> {
    if let RouteForm::Table = wishes.form {
        write_parts(writer, &[Part::Text(HEADINGS)])?;
        write_quoted(writer, routed.name.as_bytes())?;
        return write_row(alloc, routed, writer);
    }
    write_size(routed.size, writer)?;
    let tracks = Part::Number(routed.figures.tracks);
    write_parts(writer, &[Part::Text("tracks "), tracks, Part::Text("\n")])?;
    write_figures(writer, &routed.figures)?;
    write_longest(alloc, routed, writer)?;
    write_device_use(alloc, wishes, routed, writer)
}

/// Writes the line of the longest path. A netlist with a fault has no line, and if memory runs out
/// none is written.
fn write_longest<W: Sink>(alloc: Global, routed: Routed<'_>, writer: &mut W) -> Result<(), Failed> {
    match measure(alloc, routed.netlist, Some(routed.texts)) {
        Some(circuit) => { circuit.write_line(writer) }
        None => Ok(()),
    }
}

/// Prints the size of the device.
fn write_size<W: Sink>(size: GivenSize, writer: &mut W) -> Result<(), Failed> {
    write_parts(
        writer,
        &[Part::Text("columns "), Part::Number(size.columns)],
    )?;
    write_parts(writer, &[Part::Text("\nrows ")])?;
    write_parts(writer, &[Part::Number(size.rows), Part::Text("\n")])
}

/// Prints the numbers of the table, after the name. A number that there is not is left out.
fn write_row<W: Sink>(alloc: Global, routed: Routed<'_>, writer: &mut W) -> Result<(), Failed> {
    let figures = routed.figures;
    write_numbers(
        writer,
        &[
            u64::from(routed.size.columns),
            u64::from(routed.size.rows),
            u64::from(figures.tracks),
            figures.blocks.used as u64,
            figures.pads.used as u64,
            figures.nets as u64,
            figures.wires.used as u64,
            u64::from(figures.wires.there),
            u64::from(figures.iterations),
            figures.fullest.map_or(0, |channel| channel.wires as u64),
        ],
    )?;
    let circuit = measure(alloc, routed.netlist, Some(routed.texts));
    write_path(writer, &circuit)
}
