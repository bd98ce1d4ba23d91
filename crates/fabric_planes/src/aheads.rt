//! The wires up to a sink.
ghost use Rattle.fabric_planes.specs.Aheads.{AreAheads, AreFars};

use crate::arrival_rows::wire_beside;
use crate::costs::NodeCosts;
use crate::distances::Target;
use crate::quest::Quest;
use crate::side::Side;
use crate::strip_planes::StripPlanes;
use rr_graph::StripGraph;

impl<'a, G: StripGraph, C: NodeCosts> Quest<'a, G, C> {
    /// For each place at most the number of wires up to one at a side of the sink's block or pad.
    pub(crate) fn aheads(&self) -> &'a [u8]
        ensures { AreAheads (G.basis self.now.priced.now.graph.now) self.now.sink result.now }
    {
        let (graph, layout) = (self.priced.graph, self.priced.layout);
        let (strip, sink) = (StripPlanes { graph, layout }, self.sink);
        graph.laws();
        if sink.y == 0 {
            strip.distances(Target::Level, sink.x, 0)
        } else if layout.shape.rows < sink.y {
            strip.distances(Target::Level, sink.x, sink.y - 1)
        } else {
            strip.distances(Target::Block, sink.x, sink.y)
        }
    }

    /// For each place at most the number of wires up to the one at a side of the sink's block or
    /// pad. If there is none, any distances do.
    pub(crate) fn fars(&self, side: Side) -> &'a [u8]
        ensures { AreFars (G.basis self.now.priced.now.graph.now) self.now.sink side.number
            result.now }
    {
        let (graph, layout) = (self.priced.graph, self.priced.layout);
        let strip = StripPlanes { graph, layout };
        graph.laws();
        let wire = wire_beside(self.sink, side.number as u32, 0);
        if side.number < 2 {
            return strip.distances(Target::Level, wire.x, wire.y);
        }
        strip.distances(Target::Upright, wire.x, wire.y)
    }
}
