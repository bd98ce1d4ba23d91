//! Searches for the paths of nets.
ghost use Rattle.std.specs.Prelude.{◌≡◌, ℕ, ◌<◌, true, Some, None, Ok, IfOk, OnOk, if◌then◌else◌};
ghost use Rattle.fabric_planes.specs.Prelude.{HasNoPath, least_path, HoldsNothingLess, IsKnown, IsLeastOfTrack, graph_of, Source};
ghost use Rattle.fabric_planes.specs.Layout.{IsNetSearch, graph_at};
ghost use Rattle.fabric_planes.specs.NetSearches.{IsPathAt, terminals_of};
ghost use Rattle.fabric_planes.specs.PlaneBounds.{AreBounds};

use crate::bounded_planes::BoundedPlanes;
use crate::bounds::Bounds;
use crate::costs::NodeCosts;
use crate::laws::planes_law;
use crate::net_planes::{HasFamily, NetPlanes};
use crate::net_tables::NetTables;
use crate::priced_graph::PricedGraph;
use crate::quest::Quest;
use crate::shaped_graph::ShapedGraph;
use least_path::{Path, least_path_law};
use plane_search::PlaneSearch;
use rr_graph::StripGraph;
use std::alloc::{AllocError, Global};

/// Replaces `path`, which is a path already, by the least path. If `done` is a track, `path` must
/// be the least of its plane already, or less.
fn improve<'a, G: StripGraph, C: NodeCosts>(
    search: &mut PlaneSearch,
    bounds: &mut Bounds,
    planes: &NetPlanes<'a, G, C>,
    done: usize,
    path: &mut Path,
) -> Result<(), AllocError>
    requires all { AreBounds (⟦<NetPlanes<'a, G, C> as HasFamily>⟧.family planes.now)
        bounds.old.all.items }
    requires known { IsKnown (⟦<NetPlanes<'a, G, C> as HasFamily>⟧.family planes.now) path.old }
    requires done { done < (G.basis planes.now.strip.graph.now).arch.tracks → HoldsNothingLess
        (⟦<NetPlanes<'a, G, C> as HasFamily>⟧.family planes.now) done path.old.nodes.items }
    ensures { OnOk result (least_path (graph_at (G.basis planes.now.strip.graph.now)
        (C.costs planes.now.costs.now)) planes.now.starts.now planes.now.goal
        ≡ Some path.new.nodes.items) }
{
    planes.strip.graph.laws();
    planes_law();
    let (graph, shape) = (planes.strip.graph, planes.strip.layout.shape);
    let shaped = ShapedGraph { graph, shape };
    let head = shaped.head_of(&path.nodes, path.cost);
    bounds.fill_rivals(planes, head)?;
    let bounded = BoundedPlanes { planes, bounds };
    search.least_into(&bounded, done, path)
}

/// Replaces `path` by the least path of one plane, and returns its track; `None` if there is no
/// path at all. Afterwards `bounds` has the bounds of all paths.
fn first_into<'a, G: StripGraph, C: NodeCosts>(
    search: &mut PlaneSearch,
    bounds: &mut Bounds,
    planes: &NetPlanes<'a, G, C>,
    path: &mut Path,
) -> Result<Option<usize>, AllocError>
    ensures all { OnOk result (AreBounds (⟦<NetPlanes<'a, G, C> as HasFamily>⟧.family
        planes.now) bounds.new.all.items) }
    ensures found { (track : ℕ) → result ≡ Ok (Some track) → IsLeastOfTrack
        (⟦<NetPlanes<'a, G, C> as HasFamily>⟧.family planes.now) track path.new }
    ensures none { result ≡ Ok None →
        least_path (graph_at (G.basis planes.now.strip.graph.now) (C.costs planes.now.costs.now))
        planes.now.starts.now planes.now.goal ≡ None }
{
    planes.strip.graph.laws();
    planes_law();
    least_path_law();
    bounds.fill_all(planes, u64::MAX)?;
    bounds.fill_rivals(planes, None)?;
    let bounded = BoundedPlanes { planes, bounds };
    search.first_into(&bounded, path)
}

/// Replaces `path` by the least path of the planes, and returns whether there is a path. If
/// `is_known`, `path` is a path already.
fn least_over<G: StripGraph, C: NodeCosts>(
    search: &mut PlaneSearch,
    bounds: &mut Bounds,
    planes: &NetPlanes<'_, G, C>,
    is_known: bool,
    path: &mut Path,
) -> Result<bool, AllocError>
    requires { is_known ≡ true → IsPathAt (G.basis planes.now.strip.graph.now)
        (C.costs planes.now.costs.now) planes.now.starts.now planes.now.goal path.old }
    ensures { IfOk result (λ is_found.
        least_path (graph_at (G.basis planes.now.strip.graph.now) (C.costs planes.now.costs.now))
        planes.now.starts.now planes.now.goal
        ≡ (if is_found then Some path.new.nodes.items else None)) }
{
    if is_known {
        let tracks = planes.strip.layout.shape.tracks as usize;
        bounds.fill_all(planes, path.cost)?;
        improve(search, bounds, planes, tracks, path)?;
        return Ok(true);
    }
    match first_into(search, bounds, planes, path)? {
        None => Ok(false),
        Some(track) => {
            improve(search, bounds, planes, track, path)?;
            Ok(true)
        }
    }
}

/// A path that is wanted: from one of a net's starts to one of its sinks.
#[derive(Clone, Copy)]
pub struct Wanted<'a> {
    /// The net's source.
    pub source: usize,
    /// The nodes at which the path may start.
    pub starts: &'a [usize],
    /// The sink.
    pub goal: usize,
}

/// Searches for the paths of nets, and reuses its memory from one search to the next.
#[derive(Drop)]
pub struct NetSearch {
    search: PlaneSearch,
    tables: NetTables,
    bounds: Bounds,
}

impl NetSearch {
    /// A search without memory yet.
    pub fn new(alloc: Global) -> Self {
        NetSearch {
            search: PlaneSearch::new(alloc),
            tables: NetTables::new(alloc),
            bounds: Bounds::new(alloc),
        }
    }

    /// Replaces `path` by the least path at these costs, and returns whether there is a path. If
    /// `is_known`, `path` is a path already, and the search is limited to its cost. Earlier
    /// searches don't change the result. If there is no path, or memory runs out, the contents of
    /// `path` mean nothing.
    pub fn least_into<G: StripGraph, C: NodeCosts>(
        &mut self,
        priced: &PricedGraph<'_, G, C>,
        wanted: Wanted<'_>,
        is_known: bool,
        path: &mut Path,
    ) -> Result<bool, AllocError>
        requires within { wanted.source < (graph_of (G.basis priced.now.graph.now)).count }
        requires source { ((graph_of (G.basis priced.now.graph.now)).node wanted.source).kind
            ≡ Source }
        requires search { IsNetSearch (G.basis priced.now.graph.now) (C.costs priced.now.costs.now)
            wanted.starts.now wanted.goal
            (terminals_of (G.basis priced.now.graph.now) wanted.source wanted.goal) }
        requires known { is_known ≡ true → IsPathAt (G.basis priced.now.graph.now)
            (C.costs priced.now.costs.now) wanted.starts.now wanted.goal path.old }
        ensures { IfOk result (λ is_found.
            least_path (graph_at (G.basis priced.now.graph.now) (C.costs priced.now.costs.now))
            wanted.entry.starts.now wanted.entry.goal
            ≡ (if is_found then Some path.new.nodes.items else None)) }
    {
        let graph = priced.graph;
        graph.laws();
        let quest = Quest {
            priced,
            starts: wanted.starts,
            from: wanted.source,
            goal: wanted.goal,
            source: graph.node(wanted.source),
            sink: graph.node(wanted.goal),
        };
        self.tables.fill(&quest)?;
        let planes = self.tables.planes(&quest);
        least_over(&mut self.search, &mut self.bounds, &planes, is_known, path)
    }
}
