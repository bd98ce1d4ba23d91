//! How a test routes the placed blocks of a circuit.
ghost use Rattle.std.specs.Prelude.{◌≡◌, IfSome};
ghost use Rattle.block_places.specs.Placed.{ArePlaced};
ghost use Rattle.pathfinder.specs.Negotiation.{More};
ghost use Rattle.pathfinder.specs.PlacedNets.{wiring_of};
ghost use Rattle.pathfinder.specs.Routings.{IsAfter};

use cluster::Packed;
use grid::Place;
use pathfinder::{IterEnd, Routes, Routing};
use rr_graph::StripGraph;
use std::alloc::{AllocError, Global};
use strip_place::Placing;

/// The routing between places, before its first iteration.
fn begin_between<G: StripGraph>(
    alloc: Global,
    graph: &G,
    packed: &Packed,
    places: &[Place],
) -> Option<Routing>
    requires arch { packed.now.arch ≡ (G.basis graph.now).arch }
    requires placed { ArePlaced (G.basis graph.now).strip packed.now places.now }
    ensures { IfSome result (λ routing. IsAfter (wiring_of (G.basis graph.now)) routing More) }
{
    Routing::start(alloc, graph, packed, places).ok()
}

/// The routing of placed blocks, before its first iteration.
pub(crate) fn begin_routing<G: StripGraph>(
    alloc: Global,
    graph: &G,
    placing: &Placing,
) -> Option<Routing>
    requires arch { placing.now.packed.arch ≡ (G.basis graph.now).arch }
    requires strip { placing.now.strip ≡ (G.basis graph.now).strip }
    ensures { IfSome result (λ routing. IsAfter (wiring_of (G.basis graph.now)) routing More) }
{
    match placing.places(alloc) {
        Ok(places) => {
            let routing = begin_between(alloc, graph, placing.packed(), &places);
            drop(places);
            routing
        }
        Err(_) => None,
    }
}

/// The routes, if the iteration that ended so was the last one.
fn routes_of(end: Result<IterEnd, (Routing, AllocError)>) -> Option<Routes> {
    match end {
        Ok(IterEnd::Done(routes)) => Some(routes),
        other => {
            drop(other);
            None
        }
    }
}

/// The routes of a routing that is over after the next iteration.
pub(crate) fn finish_in_one<G: StripGraph>(
    alloc: Global,
    graph: &G,
    routing: Routing,
) -> Option<Routes>
    requires { IsAfter (wiring_of (G.basis graph.now)) routing More }
{
    routes_of(routing.iteration(alloc, graph))
}

/// The routes of a routing that is over after two more iterations.
pub(crate) fn finish_in_two<G: StripGraph>(
    alloc: Global,
    graph: &G,
    routing: Routing,
) -> Option<Routes>
    requires { IsAfter (wiring_of (G.basis graph.now)) routing More }
{
    match routing.iteration(alloc, graph) {
        Ok(IterEnd::Again(next)) => finish_in_one(alloc, graph, next),
        other => {
            drop(other);
            None
        }
    }
}
