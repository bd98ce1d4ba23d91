//! What a job has made.
ghost use Rattle.std.specs.Prelude.{◌≡◌, ◌≢◌, IfErr, IfOk, false};
ghost use Rattle.job_state.specs.declared.sources.JobKind.{JobKind};
ghost use Rattle.job_state.specs.JobValue.{is_whole};
ghost use Rattle.job_state.specs.declared.work.Work.{Work};
ghost use Rattle.job_state.specs.Progress.{IsProgress};
ghost use Rattle.job_state.specs.Steps.{IsLeft, graph_for, kind_of, next_work, placing_stands};
ghost use Rattle.job_state.specs.Prelude.{one_more};

use crate::packing::PackingJob;
use crate::progress::Progress;
use crate::routed::{Listed, Routed};
use crate::routing::RoutingJob;
use cluster::{Packed, SharedPacked};
use rr_graph::StripGraph;
use strip_place::{PassEnd, Placing};

/// What a job has made.
#[derive(Drop)]
pub(crate) enum Work {
    /// A packing under way.
    Packing(PackingJob),
    /// A whole packing.
    Packed(SharedPacked),
    /// A placing under way.
    Placing(Placing),
    /// A placing after its last pass.
    Placed(Placing),
    /// A routing under way.
    Routing(RoutingJob),
    /// A routing's last iteration found these routes, but memory ran out when what they occupy was
    /// to be listed.
    Unlisted(Routed),
    /// A routing found these routes.
    Routed(Listed),
    /// A routing was given up after its last iteration.
    GaveUp,
    /// A routing found no path for the net of that number.
    NoPath(u32),
}

impl Work {
    /// Makes one more step; a routing's step works on its strip's graph. If memory runs out, the
    /// work comes back as it was, or with routes that aren't listed yet. A placing takes no memory.
    pub(crate) fn next<G: StripGraph>(self, graph: &G) -> Result<Work, Work>
        requires going { is_whole self ≡ false }
        requires graph { graph_for (G.basis graph.now) self ≡ G.basis graph.now }
        ensures made { IfOk result (λ work. work ≡ next_work self) }
        ensures back { IfErr result (λ work. IsLeft self work) }
        ensures memory { IfErr result (λ work. kind_of self ≢ JobKind.Placing) }
    {
        match self {
            Work::Packing(packing) => match packing.next() {
                Ok(work) => Ok(work),
                Err(packing) => Err(Work::Packing(packing)),
            },
            Work::Placing(placing) => Ok(make_pass(placing)),
            Work::Routing(routing) => routing.next(graph),
            Work::Unlisted(routed) => list_routed(routed),
            Work::Packed(_) | Work::Placed(_) | Work::Routed(_) | Work::GaveUp | Work::NoPath(_) =>
                unreachable!(),
        }
    }

    /// Its progress; a routing's overuse is that of its strip's graph.
    pub(crate) fn progress<G: StripGraph>(&self, graph: &G) -> Progress
        requires { graph_for (G.basis graph.now) self.now ≡ G.basis graph.now }
        ensures { IsProgress self.now result }
    {
        match self {
            Work::Packing(packing) => packing.progress(),
            Work::Packed(packed) => packed_progress(packed.packed()),
            Work::Placing(placing) | Work::Placed(placing) => Progress::Placing {
                cost: placing.cost(),
            },
            Work::Routing(routing) => Progress::Routing(routing.overuse(graph)),
            Work::Unlisted(_) | Work::Routed(_) => Progress::Routed,
            Work::GaveUp => Progress::GaveUp,
            Work::NoPath(_) => Progress::NoPath,
        }
    }

    /// Returns whether no step is left to make.
    pub(crate) fn is_whole(&self) -> bool
        ensures { result ≡ is_whole self.now }
    {
        match self {
            Work::Packing(_) | Work::Placing(_) | Work::Routing(_) | Work::Unlisted(_) => false,
            Work::Packed(_) | Work::Placed(_) | Work::Routed(_) | Work::GaveUp | Work::NoPath(_) =>
                true,
        }
    }
}

/// The progress of a whole packing.
fn packed_progress(packed: &Packed) -> Progress
    ensures { IsProgress (Work.Packed packed.now) result }
{
    Progress::Packed {
        clusters: packed.cluster_count(),
        pads: packed.pad_count(),
        nets: packed.net_count(),
    }
}

/// Returns the placing after one more pass. Takes no memory.
fn make_pass(mut placing: Placing) -> Work
    ensures { result ≡ placing_stands (one_more placing) }
{
    match placing.pass() {
        PassEnd::More => Work::Placing(placing),
        PassEnd::Last => Work::Placed(placing),
    }
}

/// Lists what a routing with routes occupies. If memory runs out, the routes come back unlisted.
pub(crate) fn list_routed(routed: Routed) -> Result<Work, Work>
    ensures made { IfOk result (λ work. work ≡ Work.Routed routed) }
    ensures back { IfErr result (λ work. work ≡ Work.Unlisted routed) }
{
    match routed.with_list() {
        Ok(listed) => Ok(Work::Routed(listed)),
        Err(routed) => Err(Work::Unlisted(routed)),
    }
}
