//! Owned nodes that aren't in their owner's strip.
ghost use Rattle.std.specs.Prelude.{◌≡◌, map, position, slice_get, not};
ghost use Rattle.device_lines.specs.Lines.{listed_of, owned_node};
ghost use Rattle.device_lines.specs.Reading.{foreign_fault, is_owners};

use crate::device::{ListedDevice, OwnedResource};
use crate::fault::DeviceFault;

/// The first owned node that isn't in its owner's strip, by its index in the list.
pub(crate) fn first_foreign(device: &ListedDevice<'_>) -> Option<usize>
    ensures { result ≡ position (λ one. not (is_owners (map listed_of device.now.tenancies.items)
        (owned_node one))) device.now.owned.items }
{
    device
        .owned
        .iter()
        .position(|owned| !is_owners(device, *owned))
}

/// Returns whether a node is in its owner's strip.
fn is_owners(device: &ListedDevice<'_>, owned: OwnedResource) -> bool
    ensures { result ≡ is_owners (map listed_of device.now.tenancies.items) (owned_node owned) }
{
    match device.tenancy(owned.owner) {
        Some(tenancy) => tenancy.has_node(owned.node),
        None => false,
    }
}

/// What is wrong with a node that isn't in its owner's strip.
pub(crate) fn foreign_fault(device: &ListedDevice<'_>, number: usize) -> DeviceFault
    ensures { result ≡ foreign_fault (map listed_of device.now.tenancies.items)
        (slice_get (map owned_node device.now.owned.items) number) }
{
    if number >= device.owned.len() {
        return DeviceFault::NotListed;
    }
    let owned = device.owned[number];
    if device.is_listed(owned.owner) {
        DeviceFault::OutsideStrip
    } else {
        DeviceFault::NotListed
    }
}
