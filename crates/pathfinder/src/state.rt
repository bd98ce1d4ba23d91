//! What a routing has between two iterations, and the trees of the next one.
ghost use Rattle.pathfinder.specs.Tables.{IsHeld};

use crate::legal::laws_of_paths;
use crate::nets::Terminals;
use crate::path_search::PathSearch;
use crate::rate::NodeCost;
use crate::rates::rates_of;
use crate::reroute::reroute;
use crate::round::Round;
use crate::route::Route;
use crate::settle::accumulated_overuse;
use fabric_planes::KeptLayout;
use rr_graph::StripGraph;
use std::alloc::{AllocError, Global};

/// What is kept from one iteration to the next for speed: the memory of searches, and the layout of
/// the graph.
#[derive(Drop)]
pub(crate) struct KeptSearch {
    pub(crate) paths: PathSearch,
    pub(crate) layout: KeptLayout,
}

/// The nets, and their trees after some iterations.
#[derive(Drop)]
pub(crate) struct State {
    pub(crate) nets: Vec<Terminals>,
    pub(crate) routes: Vec<Route>,
    /// The accumulated overuse of each node.
    pub(crate) history: Vec<u32>,
    /// The occupancy of each node by these trees.
    pub(crate) held: Vec<u32>,
    /// The number of iterations made.
    pub(crate) iterations: u32,
    ghost told: { IsHeld history.items held.items routes.items },
}

/// The trees of an iteration, and the occupancies by them.
#[derive(Drop)]
pub(crate) struct NewTrees {
    pub(crate) routes: Vec<Route>,
    pub(crate) held: Vec<u32>,
    /// The rates of the nodes in the iteration.
    pub(crate) rates: Vec<NodeCost>,
}

impl State {
    ghost use Rattle.std.specs.Prelude.{◌≡◌, ◌+◌, IfOk, MatchResult};
    ghost use Rattle.rr_graph.specs.Graph.{Basis};
    ghost use Rattle.pathfinder.specs.Negotiation.{More, accumulated_overuse};
    ghost use Rattle.pathfinder.specs.PlacedNets.{wiring_of};
    ghost use Rattle.pathfinder.specs.Routings.{IsAfter, FindsNoPath};
    ghost use Rattle.pathfinder.specs.States.{state_of, AreNext};

    /// The trees of the next iteration, or the number of the first net that finds no path.
    pub(crate) fn reroute<G: StripGraph>(
        &self,
        alloc: Global,
        graph: &G,
        search: &mut KeptSearch,
    ) -> Result<Result<NewTrees, usize>, AllocError>
        requires { IsAfter (wiring_of (G.basis graph.now)) (state_of self.now) More }
        ensures { IfOk result (λ end. MatchResult end
            (AreNext (G.basis graph.now) (state_of self.now))
            (FindsNoPath (wiring_of (G.basis graph.now)) (state_of self.now))) }
    {
        laws_of_paths();
        graph.laws();
        let rates = rates_of(alloc, graph, &self.history)?;
        let layout = search.layout.layout_of(alloc, graph)?;
        let round = Round {
            graph,
            iterations: self.iterations,
            rates: &rates,
            history: &self.history,
            layout,
        };
        let mut held = Vec::from_slice(alloc, &self.held)?;
        match reroute(
            alloc,
            &mut search.paths,
            &round,
            &mut held,
            &self.nets,
            &self.routes,
        )? {
            Ok(routes) => Ok(Ok(NewTrees {
                routes,
                held,
                rates,
            })),
            Err(net) => Ok(Err(net)),
        }
    }

    /// The state after the next iteration, which has found these trees.
    pub(crate) fn next(self, new: NewTrees) -> State
        requires { (basis : Basis) × AreNext basis (state_of self) new }
        ensures { (basis : Basis) → AreNext basis (state_of self) new →
            state_of result ≡ record {
              nets = self.nets.items;
              iterations = self.iterations + 1;
              trees = new.routes.items;
              history = accumulated_overuse (wiring_of basis) self.history.items new.routes.items;
            } }
    {
        let State {
            nets,
            routes,
            history,
            held,
            iterations,
        } = self;
        drop((routes, held));
        let NewTrees {
            routes,
            held,
            rates,
        } = new;
        let history = accumulated_overuse(history, &rates, &held);
        drop(rates);
        State {
            nets,
            routes,
            history,
            held,
            iterations: iterations + 1,
        }
    }
}
