//! The summary of a routed netlist, as one object for a program.
use crate::device_use::lacking_before;
use crate::path_facts::{StopFacts, path_facts};
use crate::route_wishes::RouteWishes;
use crate::routed_design::RoutedDesign;
use crate::routed_json::{RoutedFacts, routed_text};
use crate::routed_table::Routed;
use blif::Circuit;
use circuit_use::{CircuitUse, Lacking, circuit_use};
use desk_circuits::{MeasuredCircuit, measure};
use desk_common::{Outcome, print_text};
use line_text::Sink;
use std::alloc::{AllocError, Global};

/// Prints what a netlist uses, and its longest path, as one object. Nothing is printed if memory
/// runs out.
pub(crate) fn print_object<W: Sink>(
    alloc: Global,
    wishes: RouteWishes<'_>,
    routed: Routed<'_>,
    writer: &mut W,
) -> Result<(), Outcome> {
    let Some(design) = RoutedDesign::read(alloc, routed) else {
        return Err(Outcome::NoMemory);
    };
    let measured = measure(alloc, routed.netlist, Some(routed.texts));
    print_text(text_of(alloc, wishes, routed, &design, &measured), writer)
}

/// The text for a design of which that is measured.
fn text_of(
    alloc: Global,
    wishes: RouteWishes<'_>,
    routed: Routed<'_>,
    design: &RoutedDesign,
    measured: &Option<MeasuredCircuit>,
) -> Result<Vec<u8>, AllocError> {
    let RoutedDesign { arch, circuit, .. } = design;
    let size = routed.size;
    let elements = circuit_use(alloc, circuit, arch.cluster_size, size.columns, size.rows)?;
    let device = DeviceFacts {
        elements,
        lacking: lacking_before(wishes.size, routed, arch.io_rat),
    };
    let stops = path_facts(alloc, routed, circuit)?;
    text_with(alloc, routed, device, circuit, measured, &stops)
}

/// What a circuit uses of its device, and what sets the size of that.
#[derive(Clone, Copy)]
struct DeviceFacts {
    elements: CircuitUse,
    /// `None` if the size is given.
    lacking: Option<Lacking>,
}

/// The text for a circuit with these stops of its longest path.
fn text_with(
    alloc: Global,
    routed: Routed<'_>,
    device: DeviceFacts,
    circuit: &Circuit,
    measured: &Option<MeasuredCircuit>,
    stops: &[StopFacts],
) -> Result<Vec<u8>, AllocError> {
    let facts = RoutedFacts {
        name: routed.name,
        size: routed.size,
        figures: routed.figures,
        elements: device.elements,
        lacking: device.lacking,
        measured,
        stops,
    };
    routed_text(alloc, circuit, facts)
}
