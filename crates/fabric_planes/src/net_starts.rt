//! The starts of a net's planes.
ghost use Rattle.std.specs.Prelude.{◌≡◌, ◌<◌, ℕ, IfSome, IfNone, OnOk, List, [], ◌∷◌, ◌++◌};
ghost use Rattle.std.specs.Bool.{MatchBool};
ghost use Rattle.fabric_planes.specs.Prelude.{IsWire, graph_of};
ghost use Rattle.fabric_planes.specs.Layout.{place_of};
ghost use Rattle.fabric_planes.specs.Pins.{IsShownPin};

use crate::costs::NodeCosts;
use crate::net_planes::NetPlanes;
use crate::quest::Quest;
use crate::shaped_graph::ShapedGraph;
use rr_graph::{NodeKind, StripGraph};
use std::alloc::{AllocError, Global};

/// Whether nodes of this kind are wires.
fn is_wire(kind: NodeKind) -> bool
    ensures { MatchBool result (IsWire kind) (IsWire kind → ⊥) }
{
    match kind {
        NodeKind::ChanX | NodeKind::ChanY => true,
        _ => false,
    }
}

/// A start that is a wire.
#[derive(Clone, Copy)]
pub struct StartWire {
    pub track: u32,
    pub place: u32,
    pub number: usize,
}

/// The starts of a net's paths: the wires, with their tracks and places, and the others.
#[derive(Drop)]
pub struct NetStarts {
    pub(crate) pins: Vec<usize>,
    pub(crate) wires: Vec<StartWire>,
}

impl NetStarts {
    ghost use Rattle.fabric_planes.specs.Starts.{HasStarts};

    /// No starts yet.
    pub fn new(alloc: Global) -> Self {
        NetStarts {
            pins: Vec::new(alloc),
            wires: Vec::new(alloc),
        }
    }

    /// Adds a start.
    fn add<G: StripGraph>(
        &mut self,
        shaped: &ShapedGraph<'_, G>,
        number: usize,
    ) -> Result<(), AllocError>
        requires { number < (graph_of (G.basis shaped.now.graph.now)).count }
        ensures { (starts : List ℕ) → HasStarts (G.basis shaped.now.graph.now) starts self.old →
            OnOk result (HasStarts (G.basis shaped.now.graph.now) (starts ++ number ∷ [])
            self.new) }
    {
        let graph = shaped.graph;
        graph.laws();
        let node = graph.node(number);
        if is_wire(node.kind) {
            let place = shaped.shape.place(node) as u32;
            self.wires.push(StartWire {
                track: node.n,
                place,
                number,
            })?;
        } else {
            self.pins.push(number)?;
        }
        Ok(())
    }

    /// Replaces the starts by those of a search.
    pub(crate) fn fill<G: StripGraph, C: NodeCosts>(
        &mut self,
        quest: &Quest<'_, G, C>,
    ) -> Result<(), AllocError>
        ensures { OnOk result (HasStarts (G.basis quest.now.priced.now.graph.now)
            quest.now.starts.now self.new) }
    {
        let (graph, shape) = (quest.priced.graph, quest.priced.layout.shape);
        let (shaped, starts) = (ShapedGraph { graph, shape }, quest.starts);
        self.pins.clear();
        self.wires.clear();
        for index in 0..starts.len() {
            self.add(&shaped, starts[index])?;
        }
        Ok(())
    }
}

impl<'a, G: StripGraph, C: NodeCosts> NetPlanes<'a, G, C> {
    /// The place of the pin with this number, if it is shown.
    pub(crate) fn pin_place(&self, number: usize) -> Option<usize>
        requires { number < (graph_of (G.basis self.now.strip.graph.now)).count }
        ensures there { IfSome result (λ place. IsShownPin (G.basis self.now.strip.graph.now)
            (record { source = self.now.source; sink = self.now.sink }) number
            × (place ≡ place_of (G.basis self.now.strip.graph.now)
            ((graph_of (G.basis self.now.strip.graph.now)).node number))) }
        ensures none { IfNone result (IsShownPin (G.basis self.now.strip.graph.now)
            (record { source = self.now.source; sink = self.now.sink }) number → ⊥) }
    {
        self.strip.graph.laws();
        let place = self.strip.layout.shape.place(self.strip.graph.node(number));
        match self.pin_number(place) {
            Some(other) => { if other == number { Some(place) } else { None } }
            None => None,
        }
    }
}
