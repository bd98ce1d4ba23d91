//! A device of one user's own.
ghost use Rattle.std.specs.Prelude.{◌≡◌, ◌≤◌, IfOk, IfSome};
ghost use Rattle.one_user.specs.Prelude.{MAX_EFFORT, IsArch, IsStripSize, device_strip, count_over, overuse_at, wiring_of, IsAfter, graph_of};
ghost use Rattle.one_user.specs.Figures.{HasFigures};
ghost use Rattle.one_user.specs.Outcomes.{Task, outcome_of, task_on};
ghost use Rattle.one_user.specs.Counting.{IsCounted};
ghost use Rattle.pathfinder.specs.Negotiation.{GaveUp};
ghost use Rattle.one_user.specs.Crowding.{AreCrowdedNodes, IsCrowdingOf};
ghost use Rattle.one_user.specs.Placing.{IsPlacing, IsPlacingOf};
ghost use Rattle.one_user.specs.Pinned.{IsWholeRun};
ghost use Rattle.one_user.specs.PlacedRuns.{EndsWith, IsRunOn, IsRunWith, nets_on_device};
ghost use Rattle.one_user.specs.RoutingEnds.{IsLastIteration};

use crate::counts::{Counted, count};
use crate::crowding::{Crowding, crowded_nodes};
use crate::left_run::run_left;
use crate::outcome::Run;
use crate::placed_run::run_with_routes;
use crate::placing::{PlacingEnd, place_netlist};
use crate::routing_end::{LastIteration, last_iteration};
use crate::stages::upload;
use arch_file::{Arch, SharedArch};
use grid::Strip;
use line_text::Sink;
use pathfinder::{IterEnd, Routes, Routing};
use std::alloc::{AllocError, Global};
use std::marker::Model;
use strip_place::Placing;
use strips::{DeviceGraph, Window};
use tenant_slot::{SharedText, Slot};

/// One user's request: a netlist, and how it is placed.
#[derive(Clone, Copy)]
pub struct Request<'a> {
    pub netlist: &'a SharedText,
    /// The start of the placing's random draws.
    pub seed: u64,
    /// How hard the placing tries, 0 to 100.
    pub effort: u32,
}

/// A device of one user's own: one strip of all its columns. Its value is the basis of its routing
/// graph.
#[derive(Drop)]
pub struct OwnDevice {
    alloc: Global,
    arch: SharedArch,
    strip: Strip,
    graph: DeviceGraph,
}

impl Model for OwnDevice {
    ghost use Rattle.std.specs.Prelude.{◌≡◌};
    ghost use Rattle.grid.specs.Sizes.{IsStripSize};
    ghost use Rattle.rr_graph.specs.Graph.{Basis};

    ghost Value = { Basis };

    ghost view = { λ d. record { arch = d.arch; strip = d.strip } };

    ghost invariant = { λ d. (d.graph ≡ record { arch = d.arch; strip = d.strip })
        × IsStripSize d.strip };
}

impl OwnDevice {
    /// Returns the device of that architecture with `columns` columns, 1 to 256, and `rows` rows, 1
    /// to 64. Fails with [`AllocError`] if memory runs out.
    pub fn new(alloc: Global, arch: Arch, columns: u32, rows: u32) -> Result<Self, AllocError>
        requires arch { IsArch arch }
        requires size { IsStripSize (device_strip arch columns rows) }
        ensures { IfOk result (λ device.
            device ≡ record { arch = arch; strip = device_strip arch columns rows }) }
    {
        let strip = Strip {
            width: columns,
            rows,
            io_rat: arch.io_rat,
        };
        let graph = DeviceGraph::new(alloc, &arch, columns, rows)?;
        match SharedArch::new(alloc, arch) {
            Ok(arch) => Ok(OwnDevice {
                alloc,
                arch,
                strip,
                graph,
            }),
            Err(failed) => {
                drop(failed);
                drop(graph);
                Err(AllocError)
            }
        }
    }

    /// Packs, places and routes a netlist, and writes one line for each step. A line that can't be
    /// written is skipped, and changes nothing. Fails with [`AllocError`] if memory runs out.
    pub fn run<W: Sink>(&self, request: Request<'_>, teller: &mut W) -> Result<Run, AllocError>
        requires { request.effort ≤ MAX_EFFORT }
        ensures outcome { IfOk result (λ run.
            run.outcome ≡ outcome_of
            (task_on self.now request.entry.netlist.now request.entry.seed request.entry.effort)) }
        ensures figures { IfOk result (λ run.
            IfSome run.figures (HasFigures
            (task_on self.now request.entry.netlist.now request.entry.seed request.entry.effort))) }
    {
        let Some(window) = Window::new(&self.graph, 0, self.strip) else {
            unreachable!()
        };
        let arch = self.arch.clone()?;
        let mut slot = Slot::new(self.alloc, 1, arch, self.strip);
        let run = upload(&mut slot, &window, request, teller);
        drop(slot);
        run
    }

    /// Packs a netlist, and returns its counts or why it is refused. It writes one line for each
    /// step; a line that can't be written is skipped. Fails with [`AllocError`] if memory runs out.
    pub fn count<W: Sink>(
        &self,
        request: Request<'_>,
        teller: &mut W,
    ) -> Result<Counted, AllocError>
        requires { request.effort ≤ MAX_EFFORT }
        ensures { IfOk result (IsCounted
            (task_on self.now request.entry.netlist.now request.entry.seed request.entry.effort)) }
    {
        let Some(window) = Window::new(&self.graph, 0, self.strip) else {
            unreachable!()
        };
        let arch = self.arch.clone()?;
        let mut slot = Slot::new(self.alloc, 1, arch, self.strip);
        let counted = count(&mut slot, &window, request, teller);
        drop(slot);
        counted
    }

    /// Packs and places a netlist, or returns why it is refused. Fails with [`AllocError`] if
    /// memory runs out.
    pub(crate) fn place(&self, request: Request<'_>) -> Result<PlacingEnd, AllocError>
        requires { request.effort ≤ MAX_EFFORT }
        ensures { IfOk result (IsPlacingOf
            (task_on self.now request.entry.netlist.now request.entry.seed request.entry.effort)) }
    {
        place_netlist(self.alloc, &self.arch, self.strip, request)
    }

    /// Routes placed blocks. They may be packed for another number of tracks.
    fn route(&self, placing: &Placing) -> Result<LastIteration, AllocError>
        requires { placing.now.strip ≡ self.now.strip }
        ensures { IfOk result (IsLastIteration self.now (nets_on_device self.now placing.now)) }
    {
        let Some(window) = Window::new(&self.graph, 0, self.strip) else {
            unreachable!()
        };
        last_iteration(self.alloc, &window, placing)
    }

    /// Routes placed blocks, which may be packed for another number of tracks. `None` if they are
    /// left without routes. Fails with [`AllocError`] if memory runs out.
    pub(crate) fn run_placed(&self, placing: &Placing) -> Result<Option<Run>, AllocError>
        requires { placing.now.strip ≡ self.now.strip }
        ensures { IfOk result (IsRunOn self.now placing.now) }
    {
        let LastIteration { end, number } = self.route(placing)?;
        match end {
            IterEnd::Done(routes) => {
                let run = self.run_by(placing, &routes, number);
                drop(routes);
                Ok(Some(run?))
            }
            end => {
                drop(end);
                Ok(None)
            }
        }
    }

    /// Routes placed blocks, which may be packed for another number of tracks. Fails with
    /// [`AllocError`] if memory runs out.
    pub(crate) fn run_whole(&self, placing: &Placing) -> Result<Run, AllocError>
        requires { placing.now.strip ≡ self.now.strip }
        ensures { IfOk result (IsWholeRun self.now placing.now) }
    {
        let LastIteration { end, number } = self.route(placing)?;
        match end {
            IterEnd::Done(routes) => {
                let run = self.run_by(placing, &routes, number);
                drop(routes);
                run
            }
            end => {
                let run = run_left(self.alloc, placing, &end);
                drop(end);
                run
            }
        }
    }

    /// The run of placed blocks whose routing found these routes in the iteration of that number.
    fn run_by(&self, placing: &Placing, routes: &Routes, number: u32) -> Result<Run, AllocError>
        requires { EndsWith self.now placing.now routes.now number }
        ensures { IfOk result (IsRunWith self.now placing.now routes.now number) }
    {
        let Some(window) = Window::new(&self.graph, 0, self.strip) else {
            unreachable!()
        };
        run_with_routes(self.alloc, &window, placing, routes, number)
    }

    /// Returns where the routing of a netlist is overused after its last iteration, and by which
    /// nets. `None` if the routing is not given up. It packs, places and routes the netlist, and
    /// writes no line. Fails with [`AllocError`] if memory runs out.
    pub fn crowding(&self, request: Request<'_>) -> Result<Option<Crowding>, AllocError>
        requires { request.effort ≤ MAX_EFFORT }
        ensures { IfOk result (IsCrowdingOf
            (task_on self.now request.entry.netlist.now request.entry.seed request.entry.effort)) }
    {
        match self.place(request)? {
            PlacingEnd::Placed(placing) => {
                let crowding = self.crowding_of(&placing);
                drop(placing);
                crowding
            }
            PlacingEnd::Refused(refusal) => {
                drop(refusal);
                Ok(None)
            }
        }
    }

    /// Where the routing of placed blocks is overused. `None` if it is not given up.
    fn crowding_of(&self, placing: &Placing) -> Result<Option<Crowding>, AllocError>
        requires { (task : Task) × (self.now ≡ record { arch = task.arch; strip = task.strip })
            × IsPlacing task placing.now }
        ensures { (task : Task) → self.now ≡ record { arch = task.arch; strip = task.strip } →
            IsPlacing task placing.now → IfOk result (IsCrowdingOf task) }
    {
        let LastIteration { end, number: _ } = self.route(placing)?;
        match end {
            IterEnd::GaveUp(routing) => {
                let crowding = self.crowding_by(placing, &routing);
                drop(routing);
                Ok(Some(crowding?))
            }
            end => {
                drop(end);
                Ok(None)
            }
        }
    }

    /// Where a routing of placed blocks that was given up is overused.
    fn crowding_by(&self, placing: &Placing, routing: &Routing) -> Result<Crowding, AllocError>
        requires { IsAfter (wiring_of self.now) routing.now GaveUp }
        ensures packed { IfOk result (λ crowding. crowding.packed ≡ placing.now.packed) }
        ensures rows { IfOk result (λ crowding. crowding.rows ≡ self.now.strip.rows) }
        ensures overused { IfOk result (λ crowding. crowding.overused
            ≡ count_over (overuse_at (wiring_of self.now) routing.now.trees)
            (graph_of self.now).count) }
        ensures nodes { IfOk result (λ crowding.
            AreCrowdedNodes self.now routing.now.trees 10 crowding.nodes.items) }
    {
        let Some(window) = Window::new(&self.graph, 0, self.strip) else {
            unreachable!()
        };
        let (overused, nodes) = crowded_nodes(self.alloc, &window, routing)?;
        match placing.shared_packed().clone() {
            Ok(packed) => Ok(Crowding {
                packed,
                rows: self.strip.rows,
                overused,
                nodes,
            }),
            Err(error) => {
                drop(nodes);
                Err(error)
            }
        }
    }
}
