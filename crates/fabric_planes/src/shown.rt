//! The pins that a net's planes show.
ghost use Rattle.std.specs.Prelude.{◌≡◌, ◌<◌, true, false, OnOk};
ghost use Rattle.fabric_planes.specs.Prelude.{IsWire, graph_of};
ghost use Rattle.fabric_planes.specs.Shown.{AddsPins, ArePinsFor, IsOutputOf};
ghost use Rattle.fabric_planes.specs.Sides.{IsOwnPin};

use crate::costs::NodeCosts;
use crate::pins::PinAt;
use crate::quest::Quest;
use crate::strip_planes::StripPlanes;
use rr_graph::{Node, NodeKind, StripGraph, is_together};
use std::alloc::AllocError;

impl<'a, G: StripGraph> StripPlanes<'a, G> {
    /// Adds the pin with this number.
    fn add_pin(&self, number: usize, pins: &mut Vec<PinAt>) -> Result<(), AllocError>
        requires within { number < (graph_of (G.basis self.now.graph.now)).count }
        requires no_wire { IsWire ((graph_of (G.basis self.now.graph.now)).node number).kind → ⊥ }
        ensures { OnOk result (AddsPins (G.basis self.now.graph.now)
            self.now.layout.now.pins.rows (λ other. other ≡ number) pins.old.items
            pins.new.items) }
    {
        pins.push(self.pin(number))?;
        Ok(())
    }

    /// Adds the pin with this number, if `is_own`.
    fn add_own(&self, number: usize, is_own: bool, pins: &mut Vec<PinAt>) -> Result<(), AllocError>
        requires within { number < (graph_of (G.basis self.now.graph.now)).count }
        requires no_wire { IsWire ((graph_of (G.basis self.now.graph.now)).node number).kind → ⊥ }
        ensures { OnOk result (AddsPins (G.basis self.now.graph.now)
            self.now.layout.now.pins.rows (λ other. (other ≡ number) × (is_own ≡ true))
            pins.old.items pins.new.items) }
    {
        if is_own {
            return self.add_pin(number, pins);
        }
        Ok(())
    }

    /// Adds the output pins of a source's block or pad.
    fn add_outputs(&self, source: Node, pins: &mut Vec<PinAt>) -> Result<(), AllocError>
        ensures { OnOk result (AddsPins (G.basis self.now.graph.now)
            self.now.layout.now.pins.rows (IsOutputOf (G.basis self.now.graph.now) source)
            pins.old.items pins.new.items) }
    {
        let graph = self.graph;
        graph.laws();
        let numbers = graph.numbers_at(NodeKind::Opin, source.x, source.y);
        for number in numbers.first..numbers.end {
            let is_own = is_together(graph.strip(), source, graph.node(number));
            self.add_own(number, is_own, pins)?;
        }
        Ok(())
    }

    /// Adds the input pins of a sink's block or pad.
    fn add_inputs(&self, sink: Node, pins: &mut Vec<PinAt>) -> Result<(), AllocError>
        ensures { OnOk result (AddsPins (G.basis self.now.graph.now)
            self.now.layout.now.pins.rows (IsOwnPin (G.basis self.now.graph.now) sink)
            pins.old.items pins.new.items) }
    {
        let graph = self.graph;
        graph.laws();
        let numbers = graph.numbers_at(NodeKind::Ipin, sink.x, sink.y);
        for number in numbers.first..numbers.end {
            let is_own = is_together(graph.strip(), graph.node(number), sink);
            self.add_own(number, is_own, pins)?;
        }
        Ok(())
    }
}

impl<'a, G: StripGraph, C: NodeCosts> Quest<'a, G, C> {
    /// Lists the source, its output pins, the input pins of the sink, and the sink.
    pub(crate) fn list_pins(&self, pins: &mut Vec<PinAt>) -> Result<(), AllocError>
        ensures { OnOk result (ArePinsFor (G.basis self.now.priced.now.graph.now)
            self.now.priced.now.layout.now.pins.rows self.now.from self.now.goal pins.new.items) }
    {
        let (graph, layout) = (self.priced.graph, self.priced.layout);
        let strip = StripPlanes { graph, layout };
        graph.laws();
        pins.clear();
        strip.add_pin(self.from, pins)?;
        strip.add_outputs(self.source, pins)?;
        strip.add_inputs(self.sink, pins)?;
        strip.add_pin(self.goal, pins)
    }
}
