//! The files and figures of a netlist that is placed and routed at one go, without a slot and its
//! jobs.
ghost use Rattle.std.specs.Prelude.{◌≡◌, IfOk, length};
ghost use Rattle.one_user.specs.Prelude.{block_nets};
ghost use Rattle.one_user.specs.PlacedRuns.{AreFiguresWith, IsRunWith, counts_in, files_with};

use crate::figures::{Figures, PackedCounts, figures_of};
use crate::outcome::{Files, FlowOutcome, Run};
use job_state::{list_resources, pads_of};
use pathfinder::Routes;
use std::alloc::{AllocError, Global};
use strip_place::Placing;
use strips::Window;
use tenant_slot::{net_file, place_file, route_file};

/// The run of placed blocks with these routes, which the iteration of that number found.
pub(crate) fn run_with_routes(
    alloc: Global,
    window: &Window<'_>,
    placing: &Placing,
    routes: &Routes,
    number: u32,
) -> Result<Run, AllocError>
    requires { length routes.now ≡ length (block_nets placing.now.packed) }
    ensures { IfOk result (IsRunWith window.now placing.now routes.now number) }
{
    let figures = figures_with(alloc, window, placing, routes, number)?;
    let files = files_with(alloc, placing, routes)?;
    Ok(Run {
        outcome: FlowOutcome::Routed(files),
        figures: Some(figures),
    })
}

/// The figures of placed blocks with these routes, which the iteration of that number found.
fn figures_with(
    alloc: Global,
    window: &Window<'_>,
    placing: &Placing,
    routes: &Routes,
    number: u32,
) -> Result<Figures, AllocError>
    ensures { IfOk result (AreFiguresWith window.now placing.now routes.now number) }
{
    let pads = pads_of(alloc, placing)?;
    let held = list_resources(alloc, routes, pads.as_slice());
    drop(pads);
    let held = held?;
    let counts = counts_in(placing);
    let figures = figures_of(window, counts, held.as_slice(), number);
    drop(held);
    Ok(figures)
}

/// The counts of the packed circuit.
fn counts_in(placing: &Placing) -> PackedCounts
    ensures { result ≡ counts_in placing.now }
{
    let packed = placing.packed();
    PackedCounts {
        clusters: packed.cluster_count(),
        pads: packed.pad_count(),
        nets: packed.net_count(),
    }
}

/// The files of placed blocks with these routes.
fn files_with(alloc: Global, placing: &Placing, routes: &Routes) -> Result<Files, AllocError>
    requires { length routes.now ≡ length (block_nets placing.now.packed) }
    ensures { IfOk result (λ files. files ≡ files_with placing.now routes.now) }
{
    Ok(Files {
        net: net_file(alloc, placing.packed())?,
        places: place_file(alloc, placing)?,
        routes: route_file(alloc, placing, routes)?,
    })
}
