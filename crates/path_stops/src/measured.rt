//! The wires on the way to each stop of a path.
ghost use Rattle.std.specs.Prelude.{◌≡◌, IfOk};
ghost use Rattle.std.specs.List.{AllZip};
ghost use Rattle.std.specs.Option.{option_map};
ghost use Rattle.path_stops.specs.Measured.{HasWires, IsMeasured, IsWay, block_at, pad_number, sink_of};

use crate::blocks::net_name;
use crate::stops::PathStop;
use blif::Circuit;
use path_wires::{Hop, wires_along};
use rr_graph::{Node, NodeKind};
use std::alloc::{AllocError, Global};
use strip_files::{BlockKind, PlacedBlock, RouteNode, RoutedStrip};

/// A stop of a path, and the wires on the way to it; `None` at the start.
#[derive(Clone, Copy)]
pub struct MeasuredStop {
    pub stop: PathStop,
    pub wires: Option<u64>,
}

/// Counts the wires on the way to each stop of a path over a routed strip. Inside a block, and on
/// the global network, there are none. Fails with [`AllocError`] if memory runs out.
pub fn measured_stops(
    alloc: Global,
    strip: &RoutedStrip<'_>,
    circuit: &Circuit,
    stops: &[PathStop],
) -> Result<Vec<MeasuredStop>, AllocError>
    ensures { IfOk result (λ measured.
        AllZip (IsMeasured strip.now circuit.now) stops.now measured.items) }
{
    let mut measured = Vec::new(alloc);
    for stop in stops {
        measured.push(measured_stop(alloc, strip, circuit, *stop)?)?;
    }
    Ok(measured)
}

/// The stop with the wires on the way to it.
fn measured_stop(
    alloc: Global,
    strip: &RoutedStrip<'_>,
    circuit: &Circuit,
    stop: PathStop,
) -> Result<MeasuredStop, AllocError>
    ensures { IfOk result (IsMeasured strip.now circuit.now stop) }
{
    let wires = wires_before(alloc, strip, circuit, stop)?;
    Ok(MeasuredStop { stop, wires })
}

/// The wires on the way to a stop.
fn wires_before(
    alloc: Global,
    strip: &RoutedStrip<'_>,
    circuit: &Circuit,
    stop: PathStop,
) -> Result<Option<u64>, AllocError>
    ensures { IfOk result (λ wires. IsMeasured strip.now circuit.now stop
        (record { stop = stop; wires = wires })) }
{
    match stop.before {
        Some(net) => Ok(Some(wires_to(alloc, strip, net_name(circuit, net), stop.block)?)),
        None => Ok(None),
    }
}

/// The wires from the net of that name to a block.
fn wires_to(
    alloc: Global,
    strip: &RoutedStrip<'_>,
    name: &[u8],
    block: Option<usize>,
) -> Result<u64, AllocError>
    ensures { IfOk result (HasWires strip.now name.now block) }
{
    match (strip.net_named(name), block_at(strip, block)) {
        (Some(net), Some(block)) => wires_on(alloc, strip.nodes_of(net), block),
        _ => Ok(0),
    }
}

/// The block of that number, if there is one.
pub(crate) fn block_at<'a, 't>(
    strip: &'a RoutedStrip<'t>,
    block: Option<usize>,
) -> Option<&'a PlacedBlock<'t>>
    ensures { option_map (λ block. block.now) result ≡ block_at strip.now block }
{
    match block {
        Some(block) => strip.blocks.get(block),
        None => None,
    }
}

/// The wires from the source of a route with these nodes to a block.
fn wires_on(alloc: Global, nodes: &[RouteNode], block: &PlacedBlock<'_>) -> Result<u64, AllocError>
    ensures { IfOk result (IsWay nodes.now (sink_of block.now)) }
{
    let hop = Hop {
        nodes,
        sink: sink_of(block),
    };
    wires_along(alloc, &[hop])
}

/// The sink of a block.
fn sink_of(block: &PlacedBlock<'_>) -> Node
    ensures { result ≡ sink_of block.now }
{
    Node {
        x: block.place.x,
        kind: NodeKind::Sink,
        y: block.place.y,
        n: pad_number(block),
    }
}

/// The number of a pad; 0 for a logic block.
fn pad_number(block: &PlacedBlock<'_>) -> u32
    ensures { result ≡ pad_number block.now }
{
    match block.kind {
        BlockKind::Cluster => 0,
        BlockKind::InputPad | BlockKind::OutputPad => block.place.subblock,
    }
}
