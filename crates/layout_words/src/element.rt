//! The tables and latches of the netlist.
use crate::named::write_net;
use crate::subject::Subject;
use blif::Circuit;
use line_text::Sink;
use text_parts::Pen;

/// A table or a latch.
#[derive(Clone, Copy)]
pub(crate) struct Element {
    kind: &'static str,
    /// The net that it drives.
    output: u32,
    /// Its line in the netlist.
    pub(crate) line: u32,
}

/// The table with this number.
pub(crate) fn table_at(circuit: &Circuit, number: usize) -> Option<Element> {
    if number >= circuit.tables.len() {
        return None;
    }
    let table = circuit.tables.table(number);
    Some(Element {
        kind: "table ",
        output: table.output,
        line: table.line,
    })
}

/// The latch with this number.
pub(crate) fn latch_at(circuit: &Circuit, number: usize) -> Option<Element> {
    let latch = circuit.latches.as_slice().get(number)?;
    Some(Element {
        kind: "latch ",
        output: latch.output,
        line: latch.line,
    })
}

/// Writes what it is, and the name of the net that it drives.
pub(crate) fn write_element<E: Sink>(
    pen: &mut Pen<'_, E>,
    subject: Subject<'_>,
    element: Option<Element>,
) {
    if let Some(element) = element {
        pen.text(element.kind);
        write_net(pen, subject, element.output);
    }
}
