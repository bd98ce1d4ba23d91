//! The stops of a netlist's longest path, with their places.
ghost use Rattle.desk_netlists.specs.Prelude.{IsCircuit};

use crate::routed_table::Routed;
use blif::Circuit;
use desk_circuits::stops_on;
use longest_path::{Longest, LongestPath, longest_path};
use path_stops::{MeasuredStop, StopKind};
use std::alloc::{AllocError, Global};
use strip_files::{BlockKind, RoutedStrip, read_strip};

/// A stop of a path.
#[derive(Clone, Copy)]
pub(crate) struct StopFacts {
    pub(crate) kind: StopKind,
    /// The net that it drives; at an output the net that it shows.
    pub(crate) net: u32,
    /// The wires on the way to it; `None` at the start.
    pub(crate) wires: Option<u64>,
    /// The column of its block, if the strip has the block.
    pub(crate) x: Option<u64>,
    pub(crate) y: Option<u64>,
    /// The number of a pad; `None` of a logic block.
    pub(crate) pad: Option<u64>,
}

/// The stops of a netlist's longest path; none if there is no such path. Fails if memory runs out.
pub(crate) fn path_facts(
    alloc: Global,
    routed: Routed<'_>,
    circuit: &Circuit,
) -> Result<Vec<StopFacts>, AllocError>
    requires { IsCircuit circuit.now }
{
    match longest_path(alloc, circuit)? {
        Longest::Path(path) => { facts_of(alloc, routed, circuit, &path) }
        Longest::NoPath | Longest::Loop => Ok(Vec::new(alloc)),
    }
}

/// The stops of that path.
fn facts_of(
    alloc: Global,
    routed: Routed<'_>,
    circuit: &Circuit,
    path: &LongestPath,
) -> Result<Vec<StopFacts>, AllocError> {
    let Ok(strip) = read_strip(alloc, routed.texts) else {
        return Err(AllocError);
    };
    facts_on(alloc, &strip, circuit, path)
}

/// The stops of that path over a strip.
fn facts_on(
    alloc: Global,
    strip: &RoutedStrip<'_>,
    circuit: &Circuit,
    path: &LongestPath,
) -> Result<Vec<StopFacts>, AllocError> {
    let stops = stops_on(alloc, strip, circuit, path)?;
    placed_stops(alloc, strip, &stops)
}

/// The stops with their places.
fn placed_stops(
    alloc: Global,
    strip: &RoutedStrip<'_>,
    stops: &[MeasuredStop],
) -> Result<Vec<StopFacts>, AllocError> {
    stops.iter().map(|one| fact_of(strip, *one)).collect(alloc)
}

/// A stop with its place.
fn fact_of(strip: &RoutedStrip<'_>, one: MeasuredStop) -> StopFacts {
    let mut facts = StopFacts {
        kind: one.stop.kind,
        net: one.stop.net,
        wires: one.wires,
        x: None,
        y: None,
        pad: None,
    };
    if let Some(number) = one.stop.block {
        if let Some(block) = strip.blocks.get(number) {
            facts.x = Some(u64::from(block.place.x));
            facts.y = Some(u64::from(block.place.y));
            if !matches!(block.kind, BlockKind::Cluster) {
                facts.pad = Some(u64::from(block.place.subblock));
            }
        }
    }
    facts
}
