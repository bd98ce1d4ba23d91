//! A netlist whose pads have the places of pins.
ghost use Rattle.std.specs.Prelude.{◌≡◌, IfOk};
ghost use Rattle.one_user.specs.Prelude.{MAX_TRACKS, IsWithin, pins_read};
ghost use Rattle.one_user.specs.Pinned.{IsDevice, IsLeastPinned, IsPinnedPlacing, IsPinnedRun, IsPinnedWith, IsTryOn, RunsWith};
ghost use Rattle.one_user.specs.Tracks.{IsLawful};

use crate::device::{OwnDevice, Request};
use crate::least::{DevicePlan, first_try, place_with, tell_too_few, tell_try};
use crate::outcome::Run;
use crate::placing::PlacingEnd;
use arch_file::{ArchError, MAX_TRACKS, read_arch};
use line_text::{Sink, TextError};
use pin_file::PinLine;
use pinned_places::{PinFault, pin_pads};
use std::alloc::Global;
use strip_place::Placing;
use tenant_slot::Refusal;

/// How a netlist with pins ended.
#[derive(Drop)]
pub enum PinnedEnd {
    /// It is placed, with its pads on their places. The run, with `tracks` tracks, is routed or
    /// left without routes.
    Placed { tracks: u32, run: Run },
    /// It was left without routes with each number of tracks.
    NeverRouted,
    /// The netlist is refused.
    Refused(Refusal),
    /// The first pin that can't be met.
    NotPinned(PinFault),
}

/// How the placing of a netlist with pins ended.
#[derive(Drop)]
enum PinnedPlacing {
    Placed(Placing),
    Refused(Refusal),
    NotPinned(PinFault),
}

/// Packs and places a netlist, puts the pads of the pins on their places, and routes it with that
/// number of tracks. It writes no line. Fails if the architecture has a fault or memory runs out.
pub fn run_pinned(
    alloc: Global,
    plan: DevicePlan<'_>,
    tracks: u32,
    request: Request<'_>,
    pins: &[PinLine<'_>],
) -> Result<PinnedEnd, ArchError>
    requires lawful { IsLawful plan request }
    requires tracks { IsWithin 1 tracks MAX_TRACKS }
    ensures { IfOk result (IsPinnedRun plan.entry request.entry (pins_read pins.now) tracks) }
{
    match place_pinned(alloc, plan, request, pins)? {
        PinnedPlacing::Placed(placing) => {
            let run = run_on(alloc, plan, tracks, request, pins, &placing);
            drop(placing);
            Ok(PinnedEnd::Placed { tracks, run: run? })
        }
        PinnedPlacing::Refused(refusal) => Ok(PinnedEnd::Refused(refusal)),
        PinnedPlacing::NotPinned(fault) => Ok(PinnedEnd::NotPinned(fault)),
    }
}

/// Routes placed blocks with that number of tracks.
fn run_on(
    alloc: Global,
    plan: DevicePlan<'_>,
    tracks: u32,
    request: Request<'_>,
    pins: &[PinLine<'_>],
    placing: &Placing,
) -> Result<Run, ArchError>
    requires lawful { IsLawful plan request }
    requires tracks { IsWithin 1 tracks MAX_TRACKS }
    requires placed { IsPinnedWith plan request (pins_read pins.now) placing.now }
    ensures { IfOk result (RunsWith plan.entry tracks placing.now) }
{
    let device = device_with(alloc, plan, tracks, request, pins, placing)?;
    let run = device.run_whole(placing);
    drop(device);
    Ok(run?)
}

/// The device with that number of tracks, on which the blocks are placed.
fn device_with(
    alloc: Global,
    plan: DevicePlan<'_>,
    tracks: u32,
    request: Request<'_>,
    pins: &[PinLine<'_>],
    placing: &Placing,
) -> Result<OwnDevice, ArchError>
    requires lawful { IsLawful plan request }
    requires tracks { IsWithin 1 tracks MAX_TRACKS }
    requires placed { IsPinnedWith plan request (pins_read pins.now) placing.now }
    ensures device { IfOk result (IsDevice plan.entry tracks) }
    ensures strip { IfOk result (λ device. placing.now.strip ≡ device.strip) }
{
    let arch = read_arch(alloc, plan.text, tracks)?;
    Ok(OwnDevice::new(alloc, arch, plan.columns, plan.rows)?)
}

/// Packs and places a netlist, and puts the pads of the pins on their places.
fn place_pinned(
    alloc: Global,
    plan: DevicePlan<'_>,
    request: Request<'_>,
    pins: &[PinLine<'_>],
) -> Result<PinnedPlacing, ArchError>
    requires { IsLawful plan request }
    ensures { IfOk result (IsPinnedPlacing plan.entry request.entry (pins_read pins.now)) }
{
    match place_with(alloc, plan, request)? {
        PlacingEnd::Placed(placing) => {
            let pinned = pin_pads(alloc, &placing, pins);
            drop(placing);
            match pinned {
                Ok(pinned) => Ok(PinnedPlacing::Placed(pinned)),
                Err(TextError::Fault(fault)) => Ok(PinnedPlacing::NotPinned(fault)),
                Err(TextError::NoMemory) => Err(ArchError::NoMemory),
            }
        }
        PlacingEnd::Refused(refusal) => Ok(PinnedPlacing::Refused(refusal)),
    }
}

/// Routes a netlist with pins with more and more tracks, until it is routed. It is packed and
/// placed once for all tries. The first try has a track for each net that crosses the busiest
/// column, over all channels: fewer are too few. Writes a line for these and one for each try to
/// `tries`; a line that can't be written is skipped. Fails if the architecture has a fault or
/// memory runs out.
pub fn least_pinned<T: Sink>(
    alloc: Global,
    plan: DevicePlan<'_>,
    request: Request<'_>,
    pins: &[PinLine<'_>],
    tries: &mut T,
) -> Result<PinnedEnd, ArchError>
    requires { IsLawful plan request }
    ensures { IfOk result (IsLeastPinned plan.entry request.entry (pins_read pins.now)) }
{
    match place_pinned(alloc, plan, request, pins)? {
        PinnedPlacing::Placed(placing) => {
            let least = least_on(alloc, plan, request, pins, &placing, tries);
            drop(placing);
            least
        }
        PinnedPlacing::Refused(refusal) => {
            let _told = tell_try(tries, 1, "refused");
            Ok(PinnedEnd::Refused(refusal))
        }
        PinnedPlacing::NotPinned(fault) => Ok(PinnedEnd::NotPinned(fault)),
    }
}

/// Tries one number of tracks after another.
fn least_on<T: Sink>(
    alloc: Global,
    plan: DevicePlan<'_>,
    request: Request<'_>,
    pins: &[PinLine<'_>],
    placing: &Placing,
    tries: &mut T,
) -> Result<PinnedEnd, ArchError>
    requires lawful { IsLawful plan request }
    requires placed { IsPinnedWith plan request (pins_read pins.now) placing.now }
    ensures { IfOk result (IsLeastPinned plan.entry request.entry (pins_read pins.now)) }
{
    let first = first_try(alloc, plan, placing)?;
    let _told = tell_too_few(tries, first);
    for tracks in first.tracks..MAX_TRACKS + 1 {
        match try_on(alloc, plan, tracks, request, pins, placing)? {
            None => {
                let _told = tell_try(tries, tracks, "left without routes");
            }
            Some(run) => {
                let _told = tell_try(tries, tracks, "routed");
                return Ok(PinnedEnd::Placed { tracks, run });
            }
        }
    }
    Ok(PinnedEnd::NeverRouted)
}

/// Routes placed blocks with that number of tracks. `None` if they are left without routes.
fn try_on(
    alloc: Global,
    plan: DevicePlan<'_>,
    tracks: u32,
    request: Request<'_>,
    pins: &[PinLine<'_>],
    placing: &Placing,
) -> Result<Option<Run>, ArchError>
    requires lawful { IsLawful plan request }
    requires tracks { IsWithin 1 tracks MAX_TRACKS }
    requires placed { IsPinnedWith plan request (pins_read pins.now) placing.now }
    ensures { IfOk result (IsTryOn plan.entry placing.now tracks) }
{
    let device = device_with(alloc, plan, tracks, request, pins, placing)?;
    let run = device.run_placed(placing);
    drop(device);
    Ok(run?)
}
