//! The progress of a routing: the nodes that are in more trees than they can carry.
ghost use Rattle.std.specs.Prelude.{◌≡◌, ◌<◌, ℕ, [], length, option_map, slice_index, slice_index_or, IfSome};
ghost use Rattle.pathfinder.specs.Prelude.{graph_of};
ghost use Rattle.pathfinder.specs.Negotiation.{More, occupancy};
ghost use Rattle.pathfinder.specs.Overuse.{IsMost, IsOveruse, count_over, has_node, over_in};
ghost use Rattle.pathfinder.specs.PlacedNets.{wiring_of};
ghost use Rattle.pathfinder.specs.Routings.{IsAfter};

use crate::routing::Routing;
use rr_graph::{Node, StripGraph};

/// The nodes that are in more trees than they can carry.
#[derive(Clone, Copy, PartialEq, Eq)]
pub struct Overuse {
    /// Their number.
    pub nodes: usize,
    /// The one that is overused by most trees; of several, the first in node order.
    pub most: Option<Node>,
}

impl Routing {
    /// The overuse after the iterations made so far. Takes no memory.
    pub fn overuse<G: StripGraph>(&self, graph: &G) -> Overuse
        requires { IsAfter (wiring_of (G.basis graph.now)) self.now More }
        ensures { IsOveruse (G.basis graph.now) self.now.trees result }
    {
        graph.laws();
        let held = self.state.held.as_slice();
        let counts = Counts { graph, held };
        Overuse {
            nodes: counts.overused_count(),
            most: node_of(graph, counts.most_overused()),
        }
    }

    /// The number of nets, each of which has a tree.
    pub fn net_count(&self) -> usize
        ensures { result ≡ length self.now.trees }
    {
        self.state.routes.len()
    }

    /// The occupancy of each node by the current trees, by node number.
    pub fn occupancies(&self) -> &[u32]
        ensures long { length result.now ≡ length self.now.history }
        ensures each { (node : ℕ) → node < length self.now.history →
            slice_index result.now node ≡ occupancy self.now.trees node }
    {
        self.state.held.as_slice()
    }

    /// Returns whether the current tree of a net has the node with this number.
    pub fn has_node(&self, net: usize, node: usize) -> bool
        requires { net < length self.now.trees }
        ensures { result ≡ has_node (slice_index_or self.now.trees net []) node }
    {
        self.state.routes[net].has(node)
    }
}

/// The occupancy of each node of a graph.
#[derive(Drop)]
struct Counts<'a, G: StripGraph> {
    graph: &'a G,
    held: &'a [u32],
    ghost long: { length held.now ≡ (graph_of (G.basis graph.now)).count },
}

impl<G: StripGraph> Counts<'_, G> {
    /// The number of overused nodes.
    fn overused_count(&self) -> usize
        ensures { result ≡ count_over (over_in (G.basis self.now.graph.now) self.now.held.now)
            (length self.now.held.now) }
    {
        let graph = self.graph;
        let held = self.held;
        let mut nodes = 0;
        for node in 0..held.len() {
            if held[node] > graph.capacity(node) {
                nodes += 1;
            }
        }
        nodes
    }

    /// The node that is overused most; of several, the first.
    fn most_overused(&self) -> Option<usize>
        ensures { IsMost (over_in (G.basis self.now.graph.now) self.now.held.now)
            (length self.now.held.now) result }
    {
        let graph = self.graph;
        let held = self.held;
        let mut most = None;
        let mut by = 0;
        for node in 0..held.len() {
            let over = held[node].saturating_sub(graph.capacity(node));
            if over > by {
                by = over;
                most = Some(node);
            }
        }
        most
    }
}

/// The node with this number, if there is one.
fn node_of<G: StripGraph>(graph: &G, number: Option<usize>) -> Option<Node>
    requires { IfSome number (λ node. node < (graph_of (G.basis graph.now)).count) }
    ensures { result ≡ option_map (graph_of (G.basis graph.now)).node number }
{
    match number {
        Some(number) => Some(graph.node(number)),
        None => None,
    }
}
