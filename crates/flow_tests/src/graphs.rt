//! Nodes, pairs and capacities of strips of a few blocks.
ghost use Rattle.std.specs.Prelude.{◌≤◌};
ghost use Rattle.arch_file.specs.declared.arch.TheConstants.{MAX_TRACKS};
ghost use Rattle.grid.specs.Sizes.{IsStripSize};

use arch_file::read_arch;
use fixtures::ARCHITECTURE;
use grid::Strip;
use rr_graph::{Fabric, Node, NodeKind, StripGraph};
use std::alloc::Global;

/// The strip of one block, with two pads below it and two above.
pub(crate) const NARROW: Strip = Strip {
    width: 1,
    rows: 1,
    io_rat: 2,
};

/// The strip of five blocks.
pub(crate) const WIDE: Strip = Strip {
    width: 5,
    rows: 1,
    io_rat: 2,
};

pub(crate) fn node(kind: NodeKind, x: u32, y: u32, n: u32) -> Node {
    Node { x, kind, y, n }
}

/// The routing graph of a strip on a device of that architecture with `tracks` tracks.
pub(crate) fn fabric_of(alloc: Global, text: &str, tracks: u32, strip: Strip) -> Option<Fabric>
    requires few { 1 ≤ tracks }
    requires many { tracks ≤ MAX_TRACKS }
    requires strip { IsStripSize strip }
{
    match read_arch(alloc, text.as_bytes(), tracks) {
        Ok(arch) => {
            let fabric = Fabric::new(alloc, &arch, strip);
            drop(arch);
            fabric.ok()
        }
        Err(_) => None,
    }
}

/// The number of pairs.
pub(crate) fn pair_count<G: StripGraph>(graph: &G) -> usize {
    let mut pairs = 0usize;
    for i in 0..graph.count() {
        pairs = pairs.saturating_add(graph.ends(i).list.len());
    }
    pairs
}

/// The wire below the block, and the ends of its edges, in order.
const WIRE: Node = Node {
    x: 1,
    kind: NodeKind::ChanX,
    y: 0,
    n: 0,
};

const FROM_WIRE: [Node; 5] = [
    Node {
        x: 0,
        kind: NodeKind::ChanY,
        y: 1,
        n: 0,
    },
    Node {
        x: 1,
        kind: NodeKind::Ipin,
        y: 0,
        n: 0,
    },
    Node {
        x: 1,
        kind: NodeKind::Ipin,
        y: 0,
        n: 1,
    },
    Node {
        x: 1,
        kind: NodeKind::Ipin,
        y: 1,
        n: 0,
    },
    Node {
        x: 1,
        kind: NodeKind::ChanY,
        y: 1,
        n: 0,
    },
];

/// Returns whether the edges of a node lead to exactly these nodes.
fn leads_to<G: StripGraph>(graph: &G, from: usize, nodes: &[Node]) -> bool {
    let count = graph.count();
    if from >= count {
        return false;
    }
    let ends = graph.ends(from);
    if ends.list.len() != nodes.len() {
        return false;
    }
    for (end, node) in ends.list.iter().zip(nodes.iter()) {
        let end = ends.base.saturating_add(*end as usize);
        if end >= count || graph.node(end) != *node {
            return false;
        }
    }
    true
}

/// Returns whether a node has this capacity.
fn carries<G: StripGraph>(graph: &G, node: Node, nets: u32) -> bool {
    match graph.number(node) {
        Some(number) => graph.capacity(number) == nets,
        None => false,
    }
}

/// Returns whether the wire's edges lead to exactly its ends, it carries one net, and the block's
/// sink two.
fn has_wire(fabric: &Fabric) -> bool {
    let leads = match fabric.number(WIRE) {
        Some(number) => leads_to(fabric, number, &FROM_WIRE),
        None => false,
    };
    leads && carries(fabric, WIRE, 1) && carries(fabric, node(NodeKind::Sink, 1, 1, 0), 2)
}

/// Returns whether the smallest graph has 29 nodes and 49 pairs, and the wire its edges.
fn is_smallest(fabric: &Fabric) -> bool {
    fabric.count() == 29 && pair_count(fabric) == 49 && has_wire(fabric)
}

fn smallest_graph(alloc: Global) -> bool {
    match fabric_of(alloc, ARCHITECTURE, 2, NARROW) {
        Some(fabric) => {
            let is_so = is_smallest(&fabric);
            drop(fabric);
            is_so
        }
        None => false,
    }
}

/// Nodes, the number of their edges, and the number of those that lead to wires.
const EDGES: [(Node, usize, usize); 3] = [
    // Two wires of its channel, two of the channels beside the block, two pads and a pin.
    (
        Node {
            x: 2,
            kind: NodeKind::ChanX,
            y: 0,
            n: 0,
        },
        7,
        4,
    ),
    // The same at the last column, where the channel ends.
    (
        Node {
            x: 5,
            kind: NodeKind::ChanX,
            y: 0,
            n: 0,
        },
        6,
        3,
    ),
    (
        Node {
            x: 2,
            kind: NodeKind::Opin,
            y: 0,
            n: 0,
        },
        2,
        2,
    ),
];

/// The number of a node's edges that lead to wires.
fn wire_edges<G: StripGraph>(graph: &G, from: usize) -> usize {
    let count = graph.count();
    let mut wires = 0usize;
    if from < count {
        let ends = graph.ends(from);
        for end in ends.list {
            let end = ends.base.saturating_add(*end as usize);
            if end < count && matches!(graph.node(end).kind, NodeKind::ChanX | NodeKind::ChanY) {
                wires = wires.saturating_add(1);
            }
        }
    }
    wires
}

/// Returns whether a node has these numbers of edges.
fn has_edges<G: StripGraph>(graph: &G, from: Node, edges: usize, wires: usize) -> bool {
    match graph.number(from) {
        Some(number) => {
            graph.ends(number).list.len() == edges && wire_edges(graph, number) == wires
        }
        None => false,
    }
}

/// The number of the first row that is wrong.
fn first_wrong<G: StripGraph>(graph: &G) -> Option<usize> {
    for (number, (from, edges, wires)) in EDGES.iter().enumerate() {
        if !has_edges(graph, *from, *edges, *wires) {
            return Some(number);
        }
    }
    None
}

/// Returns whether the wires below the last block are numbered one after the other.
fn numbers_wires<G: StripGraph>(graph: &G) -> bool {
    let wires = graph.numbers_at(NodeKind::ChanX, 5, 0);
    graph.number(node(NodeKind::ChanX, 5, 0, 0)) == Some(wires.first)
        && graph.number(node(NodeKind::ChanX, 5, 0, 1)) == wires.end.checked_sub(1)
        && graph.number(node(NodeKind::Source, 0, 1, 1)).is_none()
}

fn five_columns(alloc: Global) -> bool {
    match fabric_of(alloc, ARCHITECTURE, 2, WIDE) {
        Some(fabric) => {
            let is_so = first_wrong(&fabric).is_none() && numbers_wires(&fabric);
            drop(fabric);
            is_so
        }
        None => false,
    }
}

#[test]
fn graphs(rt: HostRuntime) {
    assert!(rt; smallest_graph(rt.alloc()));
    assert!(rt; five_columns(rt.alloc()));
}
