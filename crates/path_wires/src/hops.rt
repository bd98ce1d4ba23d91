//! The wires of a path.
ghost use Rattle.std.specs.Prelude.{IfOk};
ghost use Rattle.path_wires.specs.Wires.{AreWires, IsWireCount};

use crate::depths::{depth_of, depths_of};
use rr_graph::Node;
use std::alloc::{AllocError, Global};
use strip_files::RouteNode;

/// A net of a path: the nodes of its route, and the sink at which the path leaves it.
#[derive(Clone, Copy)]
pub struct Hop<'a> {
    pub nodes: &'a [RouteNode],
    pub sink: Node,
}

/// Returns the number of wires of a path. A hop whose route does not have its sink, as inside a
/// block, has none. Fails with [`AllocError`] if memory runs out.
pub fn wires_along(alloc: Global, hops: &[Hop<'_>]) -> Result<u64, AllocError>
    ensures { IfOk result (AreWires hops.now) }
{
    let mut wires = 0u64;
    for hop in hops {
        wires = wires.saturating_add(wires_to(alloc, *hop)?);
    }
    Ok(wires)
}

/// The number of wires of a hop.
fn wires_to(alloc: Global, hop: Hop<'_>) -> Result<u64, AllocError>
    ensures { IfOk result (IsWireCount hop.entry) }
{
    let depths = depths_of(alloc, hop.nodes)?;
    Ok(depth_of(hop.nodes, &depths, hop.sink) as u64)
}
