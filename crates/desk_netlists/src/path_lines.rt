//! The longest path of a routed netlist, stop by stop.
ghost use Rattle.desk_netlists.specs.Prelude.{IsCircuit};

use crate::routed_table::Routed;
use blif::Circuit;
use desk_circuits::write_path_stops;
use line_text::{Failed, Sink};
use longest_path::{Longest, longest_path};
use std::alloc::Global;

/// Writes the stops of a netlist's longest path, with the wires between them. Writes nothing if
/// there is no longest path, or if memory runs out.
pub(crate) fn write_stops_of<W: Sink>(
    alloc: Global,
    routed: Routed<'_>,
    circuit: &Circuit,
    writer: &mut W,
) -> Result<(), Failed>
    requires { IsCircuit circuit.now }
{
    match longest_path(alloc, circuit) {
        Ok(Longest::Path(path)) => { write_path_stops(alloc, routed.texts, circuit, &path, writer) }
        Ok(Longest::NoPath | Longest::Loop) | Err(_) => Ok(()),
    }
}
