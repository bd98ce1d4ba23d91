//! The size of the device on which a netlist is routed.
ghost use Rattle.std.specs.Prelude.{◌≤◌, IfOk, IfSome};
ghost use Rattle.desk_netlists.specs.Jobs.{IsLeastSize, IsSized, IsSizedBy};
ghost use Rattle.desk_netlists.specs.Prelude.{MAX_EFFORT, MAX_IO_RAT};

use crate::route_wishes::{GivenSize, Size, device_size};
use crate::silence::Silence;
use arch_file::{ArchError, read_arch};
use grid::{MAX_COLUMNS, MAX_ROWS};
use one_user::{Counted, OwnDevice, PackedCounts, Request, least_columns, least_rows, least_side};
use std::alloc::Global;
use tenant_slot::{Misfit, Refusal};

/// The size of a device, or why the netlist is refused on each.
#[derive(Drop)]
pub(crate) enum Sized {
    Size(GivenSize),
    Refused(Refusal),
}

/// The size that is asked for: the given one, or the least on which the netlist fits. Fails if the
/// architecture has a fault or memory runs out.
pub(crate) fn size_for(
    alloc: Global,
    asked: Size,
    arch: &[u8],
    request: Request<'_>,
) -> Result<Sized, ArchError>
    requires { request.effort ≤ MAX_EFFORT }
    ensures { IfOk result (IsSized asked arch.now request.entry) }
{
    if let Size::Given(size) = asked {
        return Ok(Sized::Size(size));
    }
    let arch = read_arch(alloc, arch, 1)?;
    let io_rat = arch.io_rat;
    let device = OwnDevice::new(alloc, arch, 1, 1)?;
    let counted = device.count(request, &mut Silence);
    drop(device);
    match counted? {
        Counted::Counts(counts) => Ok(least_size(asked, counts, io_rat)),
        Counted::Refused(refusal) => Ok(Sized::Refused(refusal)),
    }
}

/// The least size for these counts, or of which places even the largest device has too few.
fn least_size(size: Size, counts: PackedCounts, io_rat: u32) -> Sized
    requires { io_rat ≤ MAX_IO_RAT }
    ensures { IsSizedBy (IsLeastSize size counts io_rat) result }
{
    match least_found(size, counts, io_rat) {
        Some(size) => Sized::Size(size),
        None => Sized::Refused(Refusal::DoesNotFit(misfit_of(size, counts, io_rat))),
    }
}

/// The least size for these counts, if a device has enough places for them.
fn least_found(size: Size, counts: PackedCounts, io_rat: u32) -> Option<GivenSize>
    requires { io_rat ≤ MAX_IO_RAT }
    ensures { IfSome result (IsLeastSize size counts io_rat) }
{
    match size {
        Size::Given(size) => Some(size),
        Size::LeastSquare => match least_side(counts, io_rat) {
            Some(side) => device_size(side, side),
            None => None,
        },
        Size::LeastColumns(rows) => match least_columns(counts, io_rat, rows.min(MAX_ROWS)) {
            Some(columns) => device_size(columns, rows),
            None => None,
        },
        Size::LeastRows(columns) => match least_rows(counts, io_rat, columns.min(MAX_COLUMNS)) {
            Some(rows) => device_size(columns, rows),
            None => None,
        },
    }
}

/// The places of which the largest device has too few.
fn misfit_of(size: Size, counts: PackedCounts, io_rat: u32) -> Misfit
    requires { io_rat ≤ MAX_IO_RAT }
{
    let (columns, rows) = match size {
        Size::LeastColumns(rows) => (MAX_COLUMNS, rows.min(MAX_ROWS)),
        Size::LeastRows(columns) => (columns.min(MAX_COLUMNS), MAX_ROWS),
        _ => (MAX_ROWS, MAX_ROWS),
    };
    let blocks = (columns * rows) as usize;
    if counts.clusters > blocks {
        return Misfit::Blocks {
            have: blocks,
            need: counts.clusters,
        };
    }
    Misfit::Pads {
        have: (2 * columns * io_rat) as usize,
        need: counts.pads,
    }
}
