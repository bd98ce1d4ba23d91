//! The wires on the way from a net's source to each node of its route.
ghost use Rattle.std.specs.Prelude.{◌≡◌, ◌<◌, ◌≤◌, IfOk, length};
ghost use Rattle.rr_graph.specs.Node.{rank_of};
ghost use Rattle.path_wires.specs.Wires.{AreDepths, AreSmall, depth_at, earlier_depth, is_same, is_sink, place_of, wires_of};

use rr_graph::{Node, NodeKind};
use std::alloc::{AllocError, Global};
use strip_files::RouteNode;

/// The number of wires on the way to each node of a route, that node included.
pub(crate) fn depths_of(alloc: Global, nodes: &[RouteNode]) -> Result<Vec<usize>, AllocError>
    ensures { IfOk result (λ depths. AreDepths nodes.now depths.items) }
{
    let mut depths = Vec::new(alloc);
    for place in 0..nodes.len() {
        let depth = depth_at(nodes, &depths, place);
        depths.push(depth)?;
    }
    Ok(depths)
}

/// The number of wires on the way to the node at that index, from those of the nodes before it.
fn depth_at(nodes: &[RouteNode], depths: &[usize], place: usize) -> usize
    requires place { place < length nodes.now }
    requires before { length depths.now ≡ place }
    requires small { AreSmall depths.now }
    ensures value { result ≡ depth_at nodes.now depths.now place }
    ensures small { result ≤ place }
{
    if place == 0 {
        return 0;
    }
    let node = nodes[place].node;
    if is_sink(nodes[place - 1].node.kind) {
        depth_of(nodes, depths, node)
    } else {
        depths[place - 1] + wires_of(node.kind)
    }
}

/// The number of wires on the way to a node of a route; 0 if no depth is known of it.
pub(crate) fn depth_of(nodes: &[RouteNode], depths: &[usize], node: Node) -> usize
    ensures value { result ≡ earlier_depth nodes.now depths.now node }
    ensures small { AreSmall depths.now → result ≤ length depths.now }
{
    match place_of(nodes, node) {
        Some(place) if place < depths.len() => depths[place],
        _ => 0,
    }
}

/// The first index of a node.
fn place_of(nodes: &[RouteNode], node: Node) -> Option<usize>
    ensures { result ≡ place_of nodes.now node }
{
    nodes.iter().position(|read| is_same(node, read.node))
}

/// The number of wires of a node: one if it is a wire of a channel.
fn wires_of(kind: NodeKind) -> usize
    ensures value { result ≡ wires_of kind }
    ensures small { result ≤ 1 }
{
    match kind {
        NodeKind::ChanX | NodeKind::ChanY => 1,
        NodeKind::Source | NodeKind::Sink | NodeKind::Opin | NodeKind::Ipin => 0,
    }
}

fn is_sink(kind: NodeKind) -> bool
    ensures { result ≡ is_sink kind }
{
    match kind {
        NodeKind::Sink => true,
        NodeKind::Source | NodeKind::Opin | NodeKind::Ipin | NodeKind::ChanX | NodeKind::ChanY =>
            false,
    }
}

/// Returns whether both are the same node.
fn is_same(node: Node, other: Node) -> bool
    ensures { result ≡ is_same node other }
{
    node.x == other.x
        && rank_of(node.kind) == rank_of(other.kind)
        && node.y == other.y
        && node.n == other.n
}

/// The rank of a kind in node order.
fn rank_of(kind: NodeKind) -> u32
    ensures { result ≡ rank_of kind }
{
    match kind {
        NodeKind::Source => 0,
        NodeKind::Sink => 1,
        NodeKind::Opin => 2,
        NodeKind::Ipin => 3,
        NodeKind::ChanX => 4,
        NodeKind::ChanY => 5,
    }
}
