//! A search for a path of a net, as its tables are made for it.
ghost use Rattle.std.specs.Prelude.{◌≡◌, ◌<◌};
ghost use Rattle.fabric_planes.specs.Prelude.{graph_of, Source};
ghost use Rattle.fabric_planes.specs.Layout.{IsNetSearch};

use crate::costs::NodeCosts;
use crate::priced_graph::PricedGraph;
use rr_graph::{Node, StripGraph};

/// A search for a path of a net, from some starts to one of its sinks.
#[derive(Drop)]
pub(crate) struct Quest<'a, G: StripGraph, C: NodeCosts> {
    pub(crate) priced: &'a PricedGraph<'a, G, C>,
    /// The nodes at which paths may start.
    pub(crate) starts: &'a [usize],
    /// The number of the net's source, and that of the sink.
    pub(crate) from: usize,
    pub(crate) goal: usize,
    /// The two nodes.
    pub(crate) source: Node,
    pub(crate) sink: Node,
    ghost within: { from < (graph_of (G.basis priced.now.graph.now)).count },
    ghost source_is: { (graph_of (G.basis priced.now.graph.now)).node from ≡ source },
    ghost kind: { source.kind ≡ Source },
    ghost search: { IsNetSearch (G.basis priced.now.graph.now) (C.costs priced.now.costs.now)
        starts.now goal (record { source = source; sink = sink }) },
}
