//! How much of its strip a tenancy uses.
ghost use Rattle.std.specs.Prelude.{◌≡◌, ◌+◌, ◌*◌, ◌≤◌, ◌<◌, count_by};
ghost use Rattle.arch_file.specs.declared.arch.TheConstants.{MAX_TRACKS};
ghost use Rattle.grid.specs.declared.TheConstants.{MAX_COLUMNS, MAX_ROWS};
ghost use Rattle.device_report.specs.Tenancies.{blocks_used, has_pin, is_pad, is_pin, pads_used, use_of, wires_used};

use crate::channels::{ChannelDirection, is_wire};
use device_lines::{DeviceSize, OwnedResource, Tenancy};
use rr_graph::ResourceKind;

/// How many resources of one kind a strip uses.
#[derive(Clone, Copy, PartialEq, Eq)]
pub struct ResourceUse {
    pub used: usize,
    /// How many of them the strip has.
    pub there: u32,
}

/// A tenancy, and what it uses of its strip.
#[derive(Clone, Copy)]
pub struct TenancyUse<'t> {
    pub tenancy: Tenancy<'t>,
    /// Blocks with an owned pin.
    pub blocks: ResourceUse,
    pub pads: ResourceUse,
    /// Wires above rows.
    pub across: ResourceUse,
    /// Wires right of columns, and those left of the strip.
    pub up: ResourceUse,
}

impl<'t> TenancyUse<'t> {
    /// What a tenancy uses on a device of that size with these owned nodes.
    pub(crate) fn of(size: DeviceSize, owned: &[OwnedResource], tenancy: &Tenancy<'t>) -> Self
        ensures { result ≡ use_of size owned.now tenancy.now }
    {
        let id = tenancy.id;
        let width = tenancy.width;
        TenancyUse {
            tenancy: *tenancy,
            blocks: ResourceUse {
                used: blocks_used(owned, size.rows, tenancy.offset, width),
                there: width * size.rows,
            },
            pads: ResourceUse {
                used: pads_used(owned, id),
                there: product(width, 2, size.pads),
            },
            across: ResourceUse {
                used: wires_used(owned, ChannelDirection::Across, id),
                there: product(width, size.rows + 1, size.tracks),
            },
            up: ResourceUse {
                used: wires_used(owned, ChannelDirection::Up, id),
                there: product(width + 1, size.rows, size.tracks),
            },
        }
    }
}

/// The product of three.
fn product(a: u32, b: u32, c: u32) -> u32
    requires a { a ≤ MAX_COLUMNS + 1 }
    requires b { b ≤ MAX_ROWS + 1 }
    requires c { c ≤ MAX_TRACKS }
    ensures { result ≡ a * b * c }
{
    let ab = a * b;
    prove!(ab <= 16_705);
    ab * c
}

/// How many blocks in `width` columns, after the first `offset`, have an owned pin.
fn blocks_used(owned: &[OwnedResource], rows: u32, offset: u32, width: u32) -> usize
    requires rows { (1 ≤ rows) × (rows ≤ MAX_ROWS) }
    requires strip { offset + width ≤ MAX_COLUMNS }
    ensures { result ≡ blocks_used owned.now rows offset width }
{
    (0..width * rows)
        .filter(|block| has_pin(owned, offset + 1 + *block / rows, 1 + *block % rows))
        .count()
}

/// Returns whether a block has an owned pin.
fn has_pin(owned: &[OwnedResource], x: u32, y: u32) -> bool
    ensures { result ≡ has_pin owned.now x y }
{
    owned.iter().any(|one| is_pin(one.node.kind) && one.node.x == x && one.node.y == y)
}

/// How many pads a tenancy owns.
fn pads_used(owned: &[OwnedResource], id: u32) -> usize
    ensures { result ≡ pads_used owned.now id }
{
    owned
        .iter()
        .filter(|one| one.owner == id && is_pad(one.node.kind))
        .count()
}

/// How many wires of that direction a tenancy owns.
fn wires_used(owned: &[OwnedResource], direction: ChannelDirection, id: u32) -> usize
    ensures { result ≡ wires_used owned.now direction id }
{
    owned
        .iter()
        .filter(|one| one.owner == id && is_wire(direction, one.node.kind))
        .count()
}

fn is_pin(kind: ResourceKind) -> bool
    ensures { result ≡ is_pin kind }
{
    matches!(kind, ResourceKind::Opin | ResourceKind::Ipin)
}

fn is_pad(kind: ResourceKind) -> bool
    ensures { result ≡ is_pad kind }
{
    matches!(kind, ResourceKind::Pad)
}
