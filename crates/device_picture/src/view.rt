//! What the picture needs to know of a device.
ghost use Rattle.std.specs.Prelude.{◌-◌, ◌≤◌};
ghost use Rattle.arch_file.specs.declared.arch.TheConstants.{MAX_PINS};

use device_lines::{ListedDevice, OwnedResource, Tenancy};
use rr_graph::ResourceKind;

/// Returns whether a column is in a strip.
fn is_used(device: &ListedDevice<'_>, column: u32) -> bool {
    device
        .tenancies
        .iter()
        .any(|strip| strip.has_column(column))
}

/// Returns whether a column, counted from 1, is right beside a strip.
fn is_beside(strip: &Tenancy<'_>, column: u32) -> bool {
    column == strip.offset || column == strip.offset + strip.width + 1
}

/// Returns whether a column is unused and beside a strip.
pub(crate) fn is_guard(device: &ListedDevice<'_>, column: u32) -> bool {
    let beside = device
        .tenancies
        .iter()
        .any(|strip| is_beside(strip, column));
    beside && !is_used(device, column)
}

/// What a tenancy owns: the first contiguous run of owned nodes that are its own. There are no
/// others, if each node is in its owner's strip.
pub(crate) fn owned_by<'d>(device: &'d ListedDevice<'_>, id: u32) -> &'d [OwnedResource] {
    let all = device.owned.as_slice();
    let first = all.iter().position(|owned| owned.owner == id);
    let (_, rest) = all.split_at(first.unwrap_or(all.len()));
    let end = rest.iter().position(|owned| owned.owner != id);
    let (own, _) = rest.split_at(end.unwrap_or(rest.len()));
    own
}

/// The length of the longest name.
pub(crate) fn longest_name(device: &ListedDevice<'_>) -> u32
    ensures { result ≤ 32 }
{
    let mut longest = 0;
    for tenancy in device.tenancies.iter() {
        longest = name_length(tenancy).max(longest);
    }
    longest
}

fn name_length(tenancy: &Tenancy<'_>) -> u32
    ensures { result ≤ 32 }
{
    tenancy.name.len() as u32
}

/// The largest number of a block's pin among those that are owned.
pub(crate) fn last_pin(device: &ListedDevice<'_>) -> u32
    ensures { result ≤ MAX_PINS - 1 }
{
    let mut last = 0;
    for owned in device.owned.iter() {
        let pin = matches!(owned.node.kind, ResourceKind::Opin | ResourceKind::Ipin);
        if pin && owned.node.n > last {
            last = owned.node.n;
        }
    }
    last
}
