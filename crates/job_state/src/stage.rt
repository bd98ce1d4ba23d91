//! The stage of a routing: before its first iteration, or between two.
ghost use Rattle.std.specs.Prelude.{◌≡◌, IfErr, IfOk};
ghost use Rattle.job_state.specs.Prelude.{Basis};
ghost use Rattle.job_state.specs.UnderWay.{GoesOn};

use cluster::SharedPacked;
use grid::Place;
use pathfinder::Routing;
use rr_graph::StripGraph;
use std::alloc::Global;

/// The blocks of a packed circuit, and their places by number.
#[derive(Drop)]
pub(crate) struct Begun {
    pub(crate) packed: SharedPacked,
    pub(crate) places: Vec<Place>,
}

/// A routing before its first iteration, when nothing that needs a graph is made yet, or between
/// two iterations.
#[derive(Drop)]
pub(crate) enum Stage {
    Begun(Begun),
    Going(Routing),
}

impl Stage {
    ghost use Rattle.job_state.specs.Stages.{IsOf, state_at};

    /// Returns the routing on its graph. If memory runs out, the stage comes back.
    pub(crate) fn on<G: StripGraph>(self, alloc: Global, graph: &G) -> Result<Routing, Stage>
        requires { IsOf (G.basis graph.now) self }
        ensures made { IfOk result (λ routing. routing ≡ state_at (G.basis graph.now) self) }
        ensures goes { IfOk result (λ routing. GoesOn (G.basis graph.now) routing) }
        ensures back { IfErr result (λ back. back ≡ self) }
    {
        match self {
            Stage::Going(routing) => Ok(routing),
            Stage::Begun(begun) => begun.on(alloc, graph),
        }
    }
}

impl Begun {
    ghost use Rattle.job_state.specs.Stages.{IsOf, state_at};
    ghost use Rattle.job_state.specs.declared.stage.Stage.{Stage};

    /// Returns the routing on its graph. If memory runs out, the stage comes back.
    fn on<G: StripGraph>(self, alloc: Global, graph: &G) -> Result<Routing, Stage>
        requires { IsOf (G.basis graph.now) (Stage.Begun self) }
        ensures made { IfOk result (λ routing.
            routing ≡ state_at (G.basis graph.now) (Stage.Begun self)) }
        ensures goes { IfOk result (λ routing. GoesOn (G.basis graph.now) routing) }
        ensures back { IfErr result (λ back. back ≡ Stage.Begun self) }
    {
        match Routing::start(alloc, graph, self.packed.packed(), self.places.as_slice()) {
            Ok(routing) => Ok(routing),
            Err(_) => Err(Stage::Begun(self)),
        }
    }
}
