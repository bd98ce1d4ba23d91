//! The tables of a net's planes.
ghost use Rattle.std.specs.Prelude.{◌≡◌, OnOk};

use crate::costs::NodeCosts;
use crate::net_planes::NetPlanes;
use crate::net_starts::NetStarts;
use crate::pins::PinAt;
use crate::quest::Quest;
use crate::side::Side;
use crate::side_bounds::SideBounds;
use crate::side_places::list_sides;
use crate::strip_planes::StripPlanes;
use rr_graph::StripGraph;
use std::alloc::{AllocError, Global};

/// The tables of a net's planes, from its source towards one of its sinks.
#[derive(Drop)]
pub struct NetTables {
    pub(crate) sides: Vec<usize>,
    pub(crate) own_sides: Vec<usize>,
    pub(crate) bounds: SideBounds,
    pub(crate) shown: Vec<PinAt>,
    pub(crate) first_arrivals: Vec<usize>,
    pub(crate) starts: NetStarts,
}

impl NetTables {
    ghost use Rattle.fabric_planes.specs.NetTables.{AreNetTables};

    /// No tables yet.
    pub fn new(alloc: Global) -> Self {
        NetTables {
            sides: Vec::new(alloc),
            own_sides: Vec::new(alloc),
            bounds: SideBounds::new(alloc),
            shown: Vec::new(alloc),
            first_arrivals: Vec::new(alloc),
            starts: NetStarts::new(alloc),
        }
    }

    /// Replaces the tables by those of a search.
    pub(crate) fn fill<G: StripGraph, C: NodeCosts>(
        &mut self,
        quest: &Quest<'_, G, C>,
    ) -> Result<(), AllocError>
        ensures { OnOk result (AreNetTables (G.basis quest.now.priced.now.graph.now)
            (C.costs quest.now.priced.now.costs.now) quest.now.starts.now quest.now.goal
            (record { source = quest.now.source; sink = quest.now.sink })
            quest.now.priced.now.layout.now self.new) }
    {
        let priced = quest.priced;
        priced.graph.laws();
        let shape = priced.layout.shape;
        self.starts.fill(quest)?;
        list_sides(shape, quest.source, &mut self.own_sides)?;
        list_sides(shape, quest.sink, &mut self.sides)?;
        quest.list_firsts(&mut self.first_arrivals)?;
        quest.list_pins(&mut self.shown)?;
        self.bounds.fill(priced, quest.sink, &self.sides)
    }

    /// The planes over these tables.
    pub(crate) fn planes<'a, G: StripGraph, C: NodeCosts>(
        &'a self,
        quest: &'a Quest<'a, G, C>,
    ) -> NetPlanes<'a, G, C>
        requires { AreNetTables (G.basis quest.now.priced.now.graph.now)
            (C.costs quest.now.priced.now.costs.now) quest.now.starts.now quest.now.goal
            (record { source = quest.now.source; sink = quest.now.sink })
            quest.now.priced.now.layout.now self.now }
        ensures graph { result.strip.graph.now ≡ quest.now.priced.now.graph.now }
        ensures layout { result.strip.layout.now ≡ quest.now.priced.now.layout.now }
        ensures costs { result.costs.now ≡ quest.now.priced.now.costs.now }
        ensures starts { result.starts.now ≡ quest.now.starts.now }
        ensures goal { result.goal ≡ quest.now.goal }
        ensures source { result.source ≡ quest.now.source }
        ensures sink { result.sink ≡ quest.now.sink }
    {
        let (graph, layout) = (quest.priced.graph, quest.priced.layout);
        let (costs, prices) = (quest.priced.costs, quest.priced.prices);
        let (sink, shape) = (quest.sink, layout.shape);
        graph.laws();
        let strip = StripPlanes { graph, layout };
        NetPlanes {
            strip,
            costs,
            starts: quest.starts,
            listed: &self.starts,
            goal: quest.goal,
            source: quest.source,
            sink,
            exit: shape.place(sink),
            sides: self.sides.as_slice(),
            pins: self.bounds.pins.as_slice(),
            lasts: self.bounds.lasts.as_slice(),
            least_lasts: self.bounds.least_lasts.as_slice(),
            aheads: quest.aheads(),
            shown: self.shown.as_slice(),
            to_top: quest.fars(Side { number: 0 }),
            to_bottom: quest.fars(Side { number: 1 }),
            to_right: quest.fars(Side { number: 2 }),
            to_left: quest.fars(Side { number: 3 }),
            own_sides: self.own_sides.as_slice(),
            prices: prices.as_slice(),
            by_place: prices.by_place(),
            arrivals: &layout.arrivals.rows,
            first_arrivals: self.first_arrivals.as_slice(),
            pin_ends: &layout.pins.rows,
            back: 2 * shape.stride(),
        }
    }
}
