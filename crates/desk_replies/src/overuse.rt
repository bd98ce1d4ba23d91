//! Where the routing of an unrouted tenancy is overused.
ghost use Rattle.std.specs.Prelude.{◌≡◌, is_some, map, IfSome, None, OnOk, Some};
ghost use Rattle.desk_replies.specs.Prelude.{Writes, IsLawful, IsWithin, MAX_TRACKS, named_act};
ghost use Rattle.desk_replies.specs.Overused.{IsCrowdingFor, IsCrowdingOf, IsDevice, IsOveruseIf, IsOveruseIn, IsPlanOf, IsReportedOveruseIn, is_placed};
ghost use Rattle.desk_replies.specs.Wishes.{wish_now, wish_of};
ghost use Rattle.desk_replies.specs.Written.{AreTextsOf, WritesSome};

use crate::layout_wish::{LayoutWish, wish_of};
use crate::shared_device::SharedDevice;
use device_report::{Report, TenancyUse};
use grid::MAX_COLUMNS;
use line_text::{Failed, Sink, is_word, write_slices};
use one_user::{Crowding, DevicePlan, Request, crowding_with, write_crowding};
use script_replies::Replies;
use script_text::Act;
use std::alloc::Global;
use strip_place::MAX_EFFORT;

/// A device of that architecture; `None` if its rows or tracks are not known, or not within the
/// limits.
pub(crate) fn device_with<'a>(
    arch: &'a [u8],
    rows: Option<u32>,
    tracks: Option<u32>,
) -> Option<SharedDevice<'a>>
    ensures { IsDevice arch.now rows tracks result }
{
    match (rows, tracks) {
        (Some(rows), Some(tracks)) => SharedDevice::new(arch, rows, tracks),
        _ => None,
    }
}

/// The acts of a script with their replies, and the device on which they were served.
#[derive(Clone, Copy)]
pub(crate) struct ServedScript<'a> {
    pub(crate) acts: &'a [Act<&'a [u8]>],
    pub(crate) replies: &'a Replies<'a, 'a>,
    /// `None` if the device is not known.
    pub(crate) device: Option<SharedDevice<'a>>,
}

/// Writes for each of these tenancies that is Unrouted where its routing is overused.
pub(crate) fn write_overuses<W: Sink>(
    alloc: Global,
    tenancies: &[TenancyUse<'_>],
    served: ServedScript<'_>,
    writer: &mut W,
) -> Result<(), Failed>
    ensures { OnOk result (WritesSome W.contents W.has_failed writer.old writer.new
        (AreTextsOf (IsReportedOveruseIn served.entry) tenancies.now)) }
{
    for uses in tenancies {
        let is_unrouted = is_word(uses.tenancy.state, "Unrouted");
        write_overuse_if(alloc, is_unrouted, served, uses.tenancy.name, writer)?;
    }
    Ok(())
}

/// Writes where the routing of a name is overused, if it is Unrouted.
fn write_overuse_if<W: Sink>(
    alloc: Global,
    is_unrouted: bool,
    served: ServedScript<'_>,
    name: &[u8],
    writer: &mut W,
) -> Result<(), Failed>
    ensures { OnOk result (WritesSome W.contents W.has_failed writer.old writer.new
        (IsOveruseIf is_unrouted served.entry.device (map named_act served.entry.acts.now)
        served.entry.replies.now name.now)) }
{
    if is_unrouted {
        write_overuse(alloc, served, name, writer)
    } else {
        Ok(())
    }
}

/// Writes the name, and the number of nodes that are overused after the last iteration of the
/// routing that it asked for; then the most overused ones, and the nets on them. The netlist is
/// packed, placed and routed again for that, as it was asked for. Nothing is written if the routing
/// is not given up, if memory runs out, or if the device is not known.
pub(crate) fn write_overuse<W: Sink>(
    alloc: Global,
    served: ServedScript<'_>,
    name: &[u8],
    writer: &mut W,
) -> Result<(), Failed>
    ensures { OnOk result (WritesSome W.contents W.has_failed writer.old writer.new
        (IsOveruseIn served.entry name.now)) }
{
    let Some(device) = served.device else {
        return Ok(());
    };
    let wish = wish_of(name, served.acts, served.replies);
    let Some((plan, request)) = plan_of(device, wish) else {
        let why = b" nodes left overused: not known, since its netlist was changed\n";
        return write_slices(writer, &[name, why]);
    };
    let Ok(Some(crowding)) = crowding_with(alloc, plan, device.tracks, request) else {
        return Ok(());
    };
    write_slices(writer, &[name, b" "])?;
    write_crowding(writer, &crowding)
}

/// Where the routing of an Unrouted name is overused: its netlist is packed, placed and routed
/// again, as it was asked for. `None` if the routing is not given up, if that is not known, or if
/// memory runs out.
pub(crate) fn crowding_of(alloc: Global, served: ServedScript<'_>, name: &[u8]) -> Option<Crowding>
    ensures { IfSome result (IsCrowdingOf served.entry.device
        (map named_act served.entry.acts.now) served.entry.replies.now name.now) }
{
    let device = served.device?;
    let wish = wish_of(name, served.acts, served.replies);
    let (plan, request) = plan_of(device, wish)?;
    match crowding_with(alloc, plan, device.tracks, request) {
        Ok(found) => found,
        Err(_) => None,
    }
}

/// The device and the request of a wish, if a netlist was asked to be placed on a strip.
fn plan_of<'a>(
    device: SharedDevice<'a>,
    wish: LayoutWish<'a>,
) -> Option<(DevicePlan<'a>, Request<'a>)>
    ensures lawful { IfSome result (λ found. IsLawful found.0 found.1) }
    ensures planned { IfSome result (λ found.
        IsPlanOf device.entry (wish_now wish.entry) found.0 found.1) }
    ensures placed { is_some result ≡ is_placed (wish_now wish.entry) }
{
    let netlist = wish.netlist?;
    let start = wish.start?;
    if wish.columns < 1 || wish.columns > MAX_COLUMNS || start.effort > MAX_EFFORT {
        return None;
    }
    let plan = DevicePlan {
        text: device.arch,
        columns: wish.columns,
        rows: device.rows,
    };
    let request = Request {
        netlist,
        seed: start.seed,
        effort: start.effort,
    };
    Some((plan, request))
}
