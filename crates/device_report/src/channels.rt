//! The fullest channels.
ghost use Rattle.std.specs.Prelude.{◌≡◌, ◌+◌, ◌*◌, ◌≤◌, ◌<◌, IfOk, count_by};
ghost use Rattle.device_report.specs.Channels.{AreFullest, channel_at, channels_in, is_wire, wires_in};

use device_lines::{DeviceSize, OwnedResource};
use rr_graph::ResourceKind;
use std::alloc::{AllocError, Global};

/// The largest number of channels in a report.
pub const MAX_SHOWN: usize = 10;

/// The direction of a channel's wires.
#[derive(Clone, Copy, PartialEq, Eq)]
pub enum ChannelDirection {
    /// Horizontal, above a row.
    Across,
    /// Vertical, right of a column.
    Up,
}

/// The number of owned wires of a channel. A channel is above a block, or right of it.
#[derive(Clone, Copy, PartialEq, Eq)]
pub struct ChannelUse {
    pub x: u32,
    pub direction: ChannelDirection,
    pub y: u32,
    pub wires: usize,
}

/// The fullest channels of a device with these owned nodes: of the channels with owned wires the
/// ten that have most, in falling order. Equally full ones are in node order.
pub(crate) fn fullest_channels(
    alloc: Global,
    size: DeviceSize,
    owned: &[OwnedResource],
) -> Result<Vec<ChannelUse>, AllocError>
    ensures { IfOk result (λ shown.
        AreFullest (channels_in size.columns size.rows owned.now) shown.items) }
{
    let mut channels = channels_in(alloc, size, owned)?;
    channels.sort_by(|a, b| b.wires.cmp(&a.wires))?;
    channels.truncate(MAX_SHOWN);
    Ok(channels)
}

/// The channels that have owned wires, in node order.
fn channels_in(
    alloc: Global,
    size: DeviceSize,
    owned: &[OwnedResource],
) -> Result<Vec<ChannelUse>, AllocError>
    ensures { IfOk result (λ channels.
        channels.items ≡ channels_in size.columns size.rows owned.now) }
{
    let count = (size.columns + 1) * (2 * (size.rows + 1));
    (0..count)
        .map(|number| channel_at(size, owned, number))
        .filter(|channel| channel.wires > 0)
        .collect(alloc)
}

/// The channel of that number: column by column, first those above the rows and then those right of
/// the column.
fn channel_at(size: DeviceSize, owned: &[OwnedResource], number: u32) -> ChannelUse
    ensures { result ≡ channel_at size.rows owned.now number }
{
    let lines = size.rows + 1;
    let x = number / (2 * lines);
    let direction = if number % (2 * lines) < lines {
        ChannelDirection::Across
    } else {
        ChannelDirection::Up
    };
    let y = number % lines;
    let wires = wires_in(owned, direction, x, y);
    ChannelUse {
        x,
        direction,
        y,
        wires,
    }
}

/// The number of owned wires of a channel.
fn wires_in(owned: &[OwnedResource], direction: ChannelDirection, x: u32, y: u32) -> usize
    ensures { result ≡ wires_in owned.now direction x y }
{
    owned
        .iter()
        .filter(|one| is_wire(direction, one.node.kind) && one.node.x == x && one.node.y == y)
        .count()
}

/// Returns whether it is a wire of that direction.
pub(crate) fn is_wire(direction: ChannelDirection, kind: ResourceKind) -> bool
    ensures { result ≡ is_wire direction kind }
{
    match direction {
        ChannelDirection::Across => matches!(kind, ResourceKind::ChanX),
        ChannelDirection::Up => matches!(kind, ResourceKind::ChanY),
    }
}
