//! The report.
ghost use Rattle.std.specs.Prelude.{◌≡◌, ◌+◌, ◌≤◌, map, All, IfOk};
ghost use Rattle.grid.specs.declared.TheConstants.{MAX_COLUMNS};
ghost use Rattle.device_report.specs.Report.{IsReport, strips_of, uses_of};

use crate::channels::{ChannelUse, fullest_channels};
use crate::columns::ColumnUse;
use crate::tenancies::TenancyUse;
use crate::widest::{Room, widest_strip};
use device_lines::{DeviceSize, ListedDevice};
use std::alloc::{AllocError, Global};
use strips::PlacedStrip;

/// How full a device is.
#[derive(Drop)]
pub struct Report<'t> {
    /// The device's size.
    pub size: DeviceSize,
    /// What each tenancy uses, in the order of the device's list.
    pub tenancies: Vec<TenancyUse<'t>>,
    pub columns: ColumnUse,
    /// The widest strip that would be admitted now, at the offset that it would get; `None` if no
    /// strip would be.
    pub widest: Option<Room>,
    /// The fullest channels, the fullest one first, at most [`crate::MAX_SHOWN`].
    pub fullest: Vec<ChannelUse>,
}

impl<'t> Report<'t> {
    /// Returns the report of a device. Fails with [`AllocError`] if memory runs out.
    pub fn new(alloc: Global, device: &ListedDevice<'t>) -> Result<Self, AllocError>
        ensures { IfOk result (IsReport device.now) }
    {
        let columns = device.size.columns;
        let strips = strips_of(alloc, device)?;
        Ok(Report {
            size: device.size,
            tenancies: uses_of(alloc, device)?,
            columns: ColumnUse::of(columns, &strips),
            widest: widest_strip(columns, &strips),
            fullest: fullest_channels(alloc, device.size, &device.owned)?,
        })
    }
}

fn strips_of(alloc: Global, device: &ListedDevice<'_>) -> Result<Vec<PlacedStrip>, AllocError>
    ensures value { IfOk result (λ strips. strips.items ≡ strips_of device.now) }
    ensures small { IfOk result (λ strips. All (λ s. s.offset + s.width ≤ MAX_COLUMNS)
        strips.items) }
{
    device
        .tenancies
        .iter()
        .map(|tenancy| PlacedStrip {
            id: tenancy.id,
            offset: tenancy.offset,
            width: tenancy.width,
        })
        .collect(alloc)
}

/// What each tenancy of a device uses.
fn uses_of<'t>(alloc: Global, device: &ListedDevice<'t>) -> Result<Vec<TenancyUse<'t>>, AllocError>
    ensures { IfOk result (λ uses. uses.items ≡ uses_of device.now) }
{
    device
        .tenancies
        .iter()
        .map(|tenancy| TenancyUse::of(device.size, &device.owned, tenancy))
        .collect(alloc)
}
