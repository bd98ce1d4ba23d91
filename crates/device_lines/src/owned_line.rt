//! The lines of `op owners`.
ghost use Rattle.std.specs.Prelude.{◌+◌, ◌-◌, ◌≡◌, ◌≤◌, true, option_map};
ghost use Rattle.device_lines.specs.Prelude.{MAX_PINS, MAX_COLUMNS, MAX_ROWS};
ghost use Rattle.device_lines.specs.Lines.{IsOwned, first_counted, first_kind, is_there, owned_in, owner_line};

use crate::device::OwnedResource;
use crate::fault::DeviceFault;
use crate::size::DeviceSize;
use crate::words::{after_text, first_number};
use arch_file::MAX_PINS;
use line_text::decimal_u32;
use rr_graph::{Resource, ResourceKind};

/// What the number of a wire, pin or pad counts.
#[derive(Clone, Copy)]
pub(crate) enum Counted {
    Tracks,
    Pins,
    Pads,
}

/// A line of `op owners`: a wire, pin or pad, what its number counts, and its owner.
#[derive(Clone, Copy)]
struct OwnerLine {
    node: Resource,
    counted: Counted,
    owner: u32,
}

/// Reads a line of `op owners`: `NODE owner ID`.
pub(crate) fn read_owned(size: DeviceSize, line: &[u8]) -> Result<OwnedResource, DeviceFault>
    ensures { IsOwned (owned_in size line.now) result }
{
    let Some(
        OwnerLine {
            node,
            counted,
            owner,
        },
    ) = read_words(line)
    else {
        return Err(DeviceFault::BadOwner);
    };
    if is_there(size, node, counted) {
        Ok(OwnedResource { node, owner })
    } else {
        Err(DeviceFault::NotThere)
    }
}

/// The words of a line.
fn read_words(line: &[u8]) -> Option<OwnerLine>
    ensures { result ≡ owner_line line.now }
{
    let (kind, rest) = first_kind(line)?;
    let (x, rest) = first_number(rest)?;
    let (y, rest) = first_number(after_text(b",", rest)?)?;
    let (counted, rest) = first_counted(rest)?;
    let (n, rest) = first_number(rest)?;
    let owner = decimal_u32(after_text(b" owner ", rest)?)?;
    let node = Resource { x, kind, y, n };
    Some(OwnerLine {
        node,
        counted,
        owner,
    })
}

/// The kind at the front, and the bytes after its word and `(`.
fn first_kind(line: &[u8]) -> Option<(ResourceKind, &[u8])>
    ensures { option_map (λ taken. (taken.0, taken.1.now)) result ≡ first_kind line.now }
{
    if let Some(rest) = after_text(b"CHANX (", line) {
        return Some((ResourceKind::ChanX, rest));
    }
    if let Some(rest) = after_text(b"CHANY (", line) {
        return Some((ResourceKind::ChanY, rest));
    }
    if let Some(rest) = after_text(b"OPIN (", line) {
        return Some((ResourceKind::Opin, rest));
    }
    if let Some(rest) = after_text(b"IPIN (", line) {
        return Some((ResourceKind::Ipin, rest));
    }
    Some((ResourceKind::Pad, after_text(b"PAD (", line)?))
}

/// What the number counts, from the word between the row and the number, and the bytes after it.
fn first_counted(line: &[u8]) -> Option<(Counted, &[u8])>
    ensures { option_map (λ taken. (taken.0, taken.1.now)) result ≡ first_counted line.now }
{
    if let Some(rest) = after_text(b") Track: ", line) {
        return Some((Counted::Tracks, rest));
    }
    if let Some(rest) = after_text(b") Pin: ", line) {
        return Some((Counted::Pins, rest));
    }
    Some((Counted::Pads, after_text(b") Pad: ", line)?))
}

/// Returns whether the device has the node.
fn is_there(size: DeviceSize, node: Resource, counted: Counted) -> bool
    ensures there { result ≡ is_there size node counted }
    ensures column { result ≡ true → node.x ≤ MAX_COLUMNS }
    ensures row { result ≡ true → node.y ≤ MAX_ROWS + 1 }
    ensures number { result ≡ true → node.n ≤ MAX_PINS - 1 }
{
    let column = node.x >= 1 && node.x <= size.columns;
    let row = node.y >= 1 && node.y <= size.rows;
    let end = node.y == 0 || node.y == size.rows + 1;
    match (node.kind, counted) {
        (ResourceKind::ChanX, Counted::Tracks) => {
            column && node.y <= size.rows && node.n < size.tracks
        }
        (ResourceKind::ChanY, Counted::Tracks) => {
            row && node.x <= size.columns && node.n < size.tracks
        }
        (ResourceKind::Pad, Counted::Pads) => column && end && node.n < size.pads,
        (ResourceKind::Opin | ResourceKind::Ipin, Counted::Pads) => {
            column && end && node.n < size.pads
        }
        (ResourceKind::Opin | ResourceKind::Ipin, Counted::Pins) => {
            column && row && node.n < MAX_PINS
        }
        _ => false,
    }
}
