//! The routing of placed blocks at one go, without a slot and its jobs.
ghost use Rattle.std.specs.Prelude.{◌≡◌, IfOk};
ghost use Rattle.one_user.specs.Prelude.{ArePlaced, nets_to_route, places_by_block};
ghost use Rattle.one_user.specs.RoutingEnds.{IsLastIteration};

use cluster::Packed;
use grid::Place;
use pathfinder::{IterEnd, MAX_ITERATIONS, Routing};
use rr_graph::StripGraph;
use std::alloc::{AllocError, Global};
use strip_place::Placing;

/// The last iteration of a routing.
#[derive(Drop)]
pub(crate) struct LastIteration {
    /// Its result.
    pub(crate) end: IterEnd,
    /// Its number, from 1.
    pub(crate) number: u32,
}

/// Makes all iterations of the routing of placed blocks, and returns the last.
pub(crate) fn last_iteration<G: StripGraph>(
    alloc: Global,
    graph: &G,
    placing: &Placing,
) -> Result<LastIteration, AllocError>
    requires { placing.now.strip ≡ (G.basis graph.now).strip }
    ensures { IfOk result (IsLastIteration (G.basis graph.now)
        (nets_to_route (G.basis graph.now) placing.now.packed (places_by_block placing.now))) }
{
    let places = placing.places(alloc)?;
    let last = last_among(alloc, graph, placing.packed(), places.as_slice());
    drop(places);
    last
}

/// Makes all iterations of the routing of blocks at these places, and returns the last.
fn last_among<G: StripGraph>(
    alloc: Global,
    graph: &G,
    packed: &Packed,
    places: &[Place],
) -> Result<LastIteration, AllocError>
    requires { ArePlaced (G.basis graph.now).strip packed.now places.now }
    ensures { IfOk result (IsLastIteration (G.basis graph.now)
        (nets_to_route (G.basis graph.now) packed.now places.now)) }
{
    let mut routing = Routing::start(alloc, graph, packed, places)?;
    for iteration in 0..MAX_ITERATIONS {
        match routing.iteration(alloc, graph) {
            Ok(IterEnd::Again(next)) => routing = next,
            Ok(end) => {
                return Ok(LastIteration {
                    end,
                    number: iteration + 1,
                });
            }
            Err((back, error)) => {
                drop(back);
                return Err(error);
            }
        }
    }
    unreachable!()
}
