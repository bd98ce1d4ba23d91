//! A routing under way, as its job keeps it.
ghost use Rattle.std.specs.Prelude.{◌≡◌, ◌+◌, IfErr, IfOk};
ghost use Rattle.job_state.specs.declared.stage.Stage.{Stage};
ghost use Rattle.job_state.specs.declared.work.Work.{Work};
ghost use Rattle.job_state.specs.JobValue.{routing_after};
ghost use Rattle.job_state.specs.RoutedCircuits.{AreThere, on_strip};
ghost use Rattle.job_state.specs.Gathered.{on_trees};
ghost use Rattle.job_state.specs.Stages.{IsOf, state_at};
ghost use Rattle.job_state.specs.Steps.{IsLeft};
ghost use Rattle.job_state.specs.Prelude.{IsOveruse};
ghost use Rattle.job_state.specs.UnderWay.{GoesOn};

use crate::routed::Routed;
use crate::stage::Stage;
use crate::work::{Work, list_routed};
use arch_file::SharedArch;
use grid::Strip;
use pathfinder::{IterEnd, Overuse, Routes};
use rr_graph::{Resource, StripGraph};
use std::alloc::Global;
use std::marker::Model;

/// A routing between two iterations, or before the first, with the pads of its blocks. It has no
/// graph of its own: each iteration is lent one. Its value is the basis of that graph, the pads,
/// and the routing's state.
#[derive(Drop)]
pub(crate) struct RoutingJob {
    alloc: Global,
    arch: SharedArch,
    strip: Strip,
    pads: Vec<Resource>,
    stage: Stage,
}

impl Model for RoutingJob {
    ghost use Rattle.job_state.specs.RoutedCircuits.{AreThere, on_strip};
    ghost use Rattle.job_state.specs.Stages.{IsOf, state_at};
    ghost use Rattle.job_state.specs.UnderWay.{RoutingUnderWay};

    ghost Value = { RoutingUnderWay };

    ghost view = { λ r. record { basis = on_strip r.arch r.strip; pads = r.pads.items; state = state_at (on_strip r.arch r.strip) r.stage } };

    ghost invariant = { λ r. AreThere (on_strip r.arch r.strip) r.pads.items
        × IsOf (on_strip r.arch r.strip) r.stage };
}

impl RoutingJob {
    /// Starts a job from that routing, on that strip, of blocks with these pads.
    pub(crate) fn new(
        alloc: Global,
        arch: SharedArch,
        strip: Strip,
        pads: Vec<Resource>,
        stage: Stage,
    ) -> Self
        requires pads { AreThere (on_strip arch strip) pads.items }
        requires stage { IsOf (on_strip arch strip) stage }
        ensures { result ≡ record {
          basis = on_strip arch strip;
          pads = pads.items;
          state = state_at (on_strip arch strip) stage;
        } }
    {
        RoutingJob {
            alloc,
            arch,
            strip,
            pads,
            stage,
        }
    }

    /// The overuse after the iterations made so far, on its strip's graph.
    pub(crate) fn overuse<G: StripGraph>(&self, graph: &G) -> Overuse
        requires { G.basis graph.now ≡ self.now.basis }
        ensures { IsOveruse self.now.basis self.now.state.trees result }
    {
        match &self.stage {
            Stage::Going(routing) => routing.overuse(graph),
            Stage::Begun(_) => Overuse {
                nodes: 0,
                most: None,
            },
        }
    }

    /// Makes one more iteration, on its strip's graph. If memory runs out, the routing comes back
    /// as it was, or with the routes that it has found, which aren't listed yet.
    pub(crate) fn next<G: StripGraph>(self, graph: &G) -> Result<Work, Work>
        requires { G.basis graph.now ≡ self.basis }
        ensures made { IfOk result (λ work.
            work ≡ routing_after self.basis self.pads self.state.nets (self.state.iterations + 1)) }
        ensures back { IfErr result (λ back. IsLeft (Work.Routing self) back) }
    {
        let RoutingJob {
            alloc,
            arch,
            strip,
            pads,
            stage,
        } = self;
        let routing = match stage.on(alloc, graph) {
            Ok(routing) => routing,
            Err(stage) => {
                return Err(Work::Routing(RoutingJob::new(alloc, arch, strip, pads, stage)));
            }
        };
        match routing.iteration(alloc, graph) {
            Ok(IterEnd::Again(routing)) => Ok(Work::Routing(RoutingJob::new(
                alloc,
                arch,
                strip,
                pads,
                Stage::Going(routing),
            ))),
            Ok(IterEnd::Done(routes)) => list_routed(routed_on(alloc, arch, strip, pads, routes)),
            Ok(IterEnd::GaveUp(routing)) => {
                drop((arch, pads, routing));
                Ok(Work::GaveUp)
            }
            Ok(IterEnd::NoPath(net)) => {
                drop((arch, pads));
                Ok(Work::NoPath(net as u32))
            }
            Err((routing, _)) => Err(Work::Routing(RoutingJob::new(
                alloc,
                arch,
                strip,
                pads,
                Stage::Going(routing),
            ))),
        }
    }
}

/// The routed circuit with these routes. What it occupies is on its strip.
fn routed_on(
    alloc: Global,
    arch: SharedArch,
    strip: Strip,
    pads: Vec<Resource>,
    routes: Routes,
) -> Routed
    requires pads { AreThere (on_strip arch strip) pads.items }
    requires routes { AreThere (on_strip arch strip) (on_trees routes) }
    ensures { result ≡ record { basis = on_strip arch strip; routes = routes; pads = pads.items } }
{
    Routed {
        alloc,
        arch,
        strip,
        routes,
        pads,
    }
}
