//! A strip's graph with its sizes.
ghost use Rattle.std.specs.Prelude.{◌≡◌};
ghost use Rattle.fabric_planes.specs.Tables.{IsShapeOf};

use crate::shape::Shape;
use rr_graph::StripGraph;

/// A strip's graph, with the sizes on which places in its planes depend.
#[derive(Drop)]
pub(crate) struct ShapedGraph<'a, G: StripGraph> {
    pub(crate) graph: &'a G,
    pub(crate) shape: Shape,
    ghost fits: { IsShapeOf (G.basis graph.now) shape },
}
