//! The page of a routed netlist.
use crate::routed_table::Routed;
use desk_circuits::write_netlist_stops;
use desk_common::Outcome;
use line_text::{MemorySink, Sink};
use page::{PageItem, viewer, write_page};
use std::alloc::Global;

/// Writes the page of a routed netlist, with its longest path.
pub(crate) fn write_netlist_page<W: Sink>(
    alloc: Global,
    routed: Routed<'_>,
    writer: &mut W,
) -> Result<(), Outcome> {
    let mut stops = MemorySink::new(alloc);
    match write_netlist_stops(alloc, routed.netlist, routed.texts, &mut stops) {
        Ok(()) => write_items(routed, stops.as_bytes(), writer),
        Err(_) => Err(Outcome::NoMemory),
    }
}

/// Writes the page of a routed netlist with these stops of its longest path.
fn write_items<W: Sink>(routed: Routed<'_>, stops: &[u8], writer: &mut W) -> Result<(), Outcome> {
    let items = [
        item(routed, "net", routed.texts.net),
        item(routed, "place", routed.texts.place),
        item(routed, "route", routed.texts.route),
        item(routed, "path", stops),
    ];
    write_page(writer, viewer(), items.as_slice()).or(Err(Outcome::NoMemory))
}

/// A text of the netlist.
fn item<'a>(routed: Routed<'a>, kind: &'static str, text: &'a [u8]) -> PageItem<'a> {
    PageItem {
        kind,
        name: routed.name.as_bytes(),
        text,
    }
}
