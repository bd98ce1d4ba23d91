//! The parts of all nodes' costs in an iteration that don't depend on the trees.
ghost use Rattle.std.specs.Prelude.{◌≡◌, ◌<◌, ◌^◌, IfOk};
ghost use Rattle.pathfinder.specs.Prelude.{capacity_of, graph_of};
ghost use Rattle.pathfinder.specs.PlacedNets.{wiring_of};
ghost use Rattle.pathfinder.specs.Rates.{AreRates};
ghost use Rattle.pathfinder.specs.Tables.{IsTable};

use crate::rate::NodeCost;
use rr_graph::{Node, NodeKind, StripGraph};
use std::alloc::{AllocError, Global};

/// The number of nets that a node can carry. For pins and wires it is 1, without asking the graph.
fn capacity_at<G: StripGraph>(graph: &G, number: usize, place: Node) -> u32
    requires number { number < (graph_of (G.basis graph.now)).count }
    requires place { place ≡ (graph_of (G.basis graph.now)).node number }
    ensures { result ≡ capacity_of (G.basis graph.now).arch (G.basis graph.now).strip place }
{
    match place.kind {
        NodeKind::Source | NodeKind::Sink => graph.capacity(number),
        NodeKind::Opin | NodeKind::Ipin | NodeKind::ChanX | NodeKind::ChanY => 1,
    }
}

/// The rates of all nodes, from their accumulated overuse.
pub(crate) fn rates_of<G: StripGraph>(
    alloc: Global,
    graph: &G,
    history: &[u32],
) -> Result<Vec<NodeCost>, AllocError>
    requires { IsTable (wiring_of (G.basis graph.now)).count (2 ^ 20) history.now }
    ensures { IfOk result (λ rates. AreRates (G.basis graph.now) history.now rates.items) }
{
    graph.laws();
    let mut rates = Vec::new(alloc);
    rates.reserve(history.len())?;
    for node in 0..history.len() {
        let place = graph.node(node);
        let capacity = capacity_at(graph, node, place);
        let factor = 1 + history[node];
        rates.push(NodeCost { factor, capacity })?;
    }
    Ok(rates)
}
