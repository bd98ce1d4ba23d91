//! A strip's graph at current costs.
ghost use Rattle.std.specs.Prelude.{◌≡◌};
ghost use Rattle.fabric_planes.specs.Prelude.{graph_of};
ghost use Rattle.fabric_planes.specs.Laid.{IsLayout};
ghost use Rattle.fabric_planes.specs.Prices.{HasPrices};

use crate::costs::NodeCosts;
use crate::layout::Layout;
use crate::price_table::PriceTable;
use rr_graph::StripGraph;

/// A strip's graph at current costs.
#[derive(Drop)]
pub struct PricedGraph<'a, G: StripGraph, C: NodeCosts> {
    pub graph: &'a G,
    /// Where the graph's nodes are in its planes.
    pub layout: &'a Layout,
    pub costs: &'a C,
    /// The prices of the wires at these costs.
    pub prices: &'a PriceTable,
    ghost laid: { IsLayout (G.basis graph.now) layout.now },
    ghost counted: { C.count costs.now ≡ (graph_of (G.basis graph.now)).count },
    ghost priced: { HasPrices (G.basis graph.now) (C.costs costs.now) prices.now },
}
