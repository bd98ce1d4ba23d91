//! The least number of tracks with which a netlist is routed.
ghost use Rattle.std.specs.Prelude.{ℕ, ◌≤◌, IfErr, IfOk, IfSome};
ghost use Rattle.one_user.specs.Prelude.{MAX_TRACKS, IsWithin, arch_of, MAX_COLUMNS, Fails, places_by_block, IsBusiest};
ghost use Rattle.one_user.specs.Tracks.{AreUnroutedBelow, ComesTo, HasFiguresWith, IsCrowdingWith, IsFirstTry, IsLawful, IsLeast, IsPlacedOrRefused, IsPlacedWith, IsTry, fault_of};

use crate::crowding::Crowding;
use crate::device::{OwnDevice, Request};
use crate::outcome::Run;
use crate::placing::PlacingEnd;
use crate::stages::refused_run;
use arch_file::{ArchError, MAX_TRACKS, read_arch};
use cluster::laws_of_packing;
use line_text::{Failed, Sink};
use std::alloc::{AllocError, Global};
use strip_place::Placing;
use text_parts::{Part, write_parts};
use track_bound::{Crossing, busiest_column, few_cross_at_end};

/// The result of the search for the least number of tracks.
#[derive(Drop)]
pub enum Least {
    /// The netlist is routed with `tracks` tracks, by that run, and was left unrouted with each
    /// smaller number.
    Routed { tracks: u32, run: Run },
    /// The netlist is refused.
    Refused(Run),
    /// It was left unrouted with each number of tracks.
    Unrouted,
}

/// A device, by its architecture's text, for runs with different numbers of tracks.
#[derive(Clone, Copy)]
pub struct DevicePlan<'a> {
    /// The architecture.
    pub text: &'a [u8],
    /// Columns, 1 to 256.
    pub columns: u32,
    /// Rows, 1 to 64.
    pub rows: u32,
}

/// The number of tracks that is tried first.
#[derive(Clone, Copy)]
pub(crate) struct FirstTry {
    pub(crate) tracks: u32,
    /// The nets for which fewer tracks are too few.
    pub(crate) crossing: Crossing,
}

/// Routes a netlist with more and more tracks, until it is routed; the netlist may be refused. It
/// is packed and placed once for all tries, since neither depends on the tracks. The first try has
/// a track for each net that crosses the busiest column, over all channels: fewer are too few.
/// Writes a line for these and one for each try to `tries`; a line that can't be written is
/// skipped. Fails if the architecture has a fault or memory runs out.
pub fn least_tracks<T: Sink>(
    alloc: Global,
    plan: DevicePlan<'_>,
    request: Request<'_>,
    tries: &mut T,
) -> Result<Least, ArchError>
    requires { IsLawful plan request }
    ensures least { IfOk result (IsLeast plan.entry request.entry) }
    ensures fault { IfErr result (λ error. (tracks : ℕ)
        × Fails (fault_of (arch_of plan.entry.text.now tracks)) error) }
{
    match place_with(alloc, plan, request)? {
        PlacingEnd::Placed(placing) => {
            let least = least_for(alloc, plan, request, &placing, tries);
            drop(placing);
            least
        }
        PlacingEnd::Refused(refusal) => {
            let _told = tell_try(tries, 1, "refused");
            Ok(Least::Refused(refused_run(refusal)))
        }
    }
}

/// Tries one number of tracks after another.
fn least_for<T: Sink>(
    alloc: Global,
    plan: DevicePlan<'_>,
    request: Request<'_>,
    placing: &Placing,
    tries: &mut T,
) -> Result<Least, ArchError>
    requires lawful { IsLawful plan request }
    requires placed { IsPlacedWith plan request placing.now }
    ensures least { IfOk result (IsLeast plan.entry request.entry) }
    ensures fault { IfErr result (λ error. (tracks : ℕ)
        × Fails (fault_of (arch_of plan.entry.text.now tracks)) error) }
{
    let first = first_try(alloc, plan, placing)?;
    too_few_below(plan, request, placing, first);
    let _told = tell_too_few(tries, first);
    for tracks in first.tracks..MAX_TRACKS + 1 {
        match try_with(alloc, plan, tracks, request, placing)? {
            None => {
                let _told = tell_try(tries, tracks, "left without routes");
            }
            Some(run) => {
                let _told = tell_try(tries, tracks, "routed");
                return Ok(Least::Routed { tracks, run });
            }
        }
    }
    Ok(Least::Unrouted)
}

/// The least number of tracks with which each net that crosses the busiest column has a wire over
/// it, at least 1 and at most one more than a channel may have. Fails with [`AllocError`] if memory
/// runs out.
pub(crate) fn first_try(
    alloc: Global,
    plan: DevicePlan<'_>,
    placing: &Placing,
) -> Result<FirstTry, AllocError>
    requires { IsWithin 1 plan.columns MAX_COLUMNS }
    ensures { IfOk result (IsFirstTry plan.entry placing.now) }
{
    let crossing = busiest_of(alloc, placing, plan.columns)?;
    let needed = crossing.least_tracks(plan.rows);
    let tracks = needed.max(1).min(MAX_TRACKS as usize + 1) as u32;
    Ok(FirstTry { tracks, crossing })
}

/// The first of the columns that the most nets of a placing cross.
fn busiest_of(alloc: Global, placing: &Placing, columns: u32) -> Result<Crossing, AllocError>
    requires { IsWithin 1 columns MAX_COLUMNS }
    ensures { IfOk result (IsBusiest placing.now.packed (places_by_block placing.now) columns) }
{
    let places = placing.places(alloc)?;
    let crossing = busiest_column(placing.packed(), places.as_slice(), columns);
    drop(places);
    Ok(crossing)
}

/// With fewer tracks than the first try has, the netlist is left unrouted. Computes nothing.
fn too_few_below(plan: DevicePlan<'_>, request: Request<'_>, placing: &Placing, first: FirstTry)
    requires lawful { IsLawful plan request }
    requires placed { IsPlacedWith plan request placing.now }
    requires first { IsFirstTry plan placing.now first }
    ensures { AreUnroutedBelow plan.entry request.entry first.tracks }
{
    few_cross_at_end();
    laws_of_packing();
    placing.laws();
    placing.packed().laws();
}

/// Routes a placed netlist with that number of tracks. `None` if it is left without routes.
fn try_with(
    alloc: Global,
    plan: DevicePlan<'_>,
    tracks: u32,
    request: Request<'_>,
    placing: &Placing,
) -> Result<Option<Run>, ArchError>
    requires lawful { IsLawful plan request }
    requires tracks { IsWithin 1 tracks MAX_TRACKS }
    requires placed { IsPlacedWith plan request placing.now }
    ensures tried { IfOk result (IsTry plan.entry request.entry tracks) }
    ensures fault { IfErr result (Fails (fault_of (arch_of plan.entry.text.now tracks))) }
{
    let arch = read_arch(alloc, plan.text, tracks)?;
    let device = OwnDevice::new(alloc, arch, plan.columns, plan.rows)?;
    let run = device.run_placed(placing);
    drop(device);
    Ok(run?)
}

/// Packs and places a netlist for all numbers of tracks, or returns why it is refused.
pub(crate) fn place_with(
    alloc: Global,
    plan: DevicePlan<'_>,
    request: Request<'_>,
) -> Result<PlacingEnd, ArchError>
    requires { IsLawful plan request }
    ensures placed { IfOk result (IsPlacedOrRefused plan.entry request.entry) }
    ensures fault { IfErr result (Fails (fault_of (arch_of plan.entry.text.now 1))) }
{
    let arch = read_arch(alloc, plan.text, 1)?;
    let device = OwnDevice::new(alloc, arch, plan.columns, plan.rows)?;
    let placed = device.place(request);
    drop(device);
    Ok(placed?)
}

/// Writes the line of a try with a number of tracks, with its end.
pub(crate) fn tell_try<W: Sink>(sink: &mut W, tracks: u32, end: &str) -> Result<(), Failed> {
    write_parts(
        sink,
        &[
            Part::Text("tracks "),
            Part::Number(tracks),
            Part::Text(": "),
            Part::Text(end),
            Part::Text("\n"),
        ],
    )
}

/// Writes the line of the numbers of tracks that are too few, if there are such.
pub(crate) fn tell_too_few<W: Sink>(sink: &mut W, first: FirstTry) -> Result<(), Failed>
    requires { 1 ≤ first.tracks }
{
    let FirstTry { tracks, crossing } = first;
    match tracks - 1 {
        0 => return Ok(()),
        1 => write_parts(sink, &[Part::Text("tracks 1")])?,
        last => write_parts(sink, &[Part::Text("tracks 1 to "), Part::Number(last)])?,
    }
    write_parts(
        sink,
        &[
            Part::Text(": too few for the "),
            Part::Long(crossing.nets as u64),
            Part::Text(" nets that cross column "),
            Part::Number(crossing.column),
            Part::Text("\n"),
        ],
    )
}

/// Runs a netlist with that number of tracks. Fails if the architecture has a fault or memory runs
/// out.
pub fn run_with<W: Sink>(
    alloc: Global,
    plan: DevicePlan<'_>,
    tracks: u32,
    request: Request<'_>,
    teller: &mut W,
) -> Result<Run, ArchError>
    requires lawful { IsLawful plan request }
    requires tracks { IsWithin 1 tracks MAX_TRACKS }
    ensures outcome { IfOk result (λ run. ComesTo plan.entry request.entry tracks run.outcome) }
    ensures figures { IfOk result (λ run.
        IfSome run.figures (HasFiguresWith plan.entry request.entry tracks)) }
    ensures fault { IfErr result (Fails (fault_of (arch_of plan.entry.text.now tracks))) }
{
    let arch = read_arch(alloc, plan.text, tracks)?;
    let device = OwnDevice::new(alloc, arch, plan.columns, plan.rows)?;
    let run = device.run(request, teller);
    drop(device);
    Ok(run?)
}

/// Returns where the routing of a netlist with that number of tracks is overused after its last
/// iteration, and by which nets; `None` if the routing is not given up. It packs, places and routes
/// the netlist. Fails if the architecture has a fault or memory runs out.
pub fn crowding_with(
    alloc: Global,
    plan: DevicePlan<'_>,
    tracks: u32,
    request: Request<'_>,
) -> Result<Option<Crowding>, ArchError>
    requires lawful { IsLawful plan request }
    requires tracks { IsWithin 1 tracks MAX_TRACKS }
    ensures crowding { IfOk result (IsCrowdingWith plan.entry request.entry tracks) }
    ensures fault { IfErr result (Fails (fault_of (arch_of plan.entry.text.now tracks))) }
{
    let arch = read_arch(alloc, plan.text, tracks)?;
    let device = OwnDevice::new(alloc, arch, plan.columns, plan.rows)?;
    let crowding = device.crowding(request);
    drop(device);
    Ok(crowding?)
}
