//! What a routed circuit uses of its device.
ghost use Rattle.std.specs.Prelude.{◌+◌, ◌≡◌, ◌≤◌};
ghost use Rattle.one_user.specs.Prelude.{MAX_TRACKS, MAX_COLUMNS, MAX_ROWS};
ghost use Rattle.one_user.specs.Counts.{HasCounts, IsWhole};
ghost use Rattle.one_user.specs.Figures.{is_channel_wire, product, wires_in, wires_there};

use device_report::{ChannelDirection, ChannelUse, ResourceUse};
use job_state::Progress;
use rr_graph::{Resource, ResourceKind, StripGraph};
use strips::Window;

/// What a routed circuit uses of its device.
#[derive(Clone, Copy)]
pub struct Figures {
    /// Logic blocks.
    pub blocks: ResourceUse,
    pub pads: ResourceUse,
    /// Nets between blocks.
    pub nets: usize,
    /// Wires of the channels. Each is as long as one block, so their number is the wire length.
    pub wires: ResourceUse,
    /// The channel with the most used wires, if any are used; the first in node order if there are
    /// several.
    pub fullest: Option<ChannelUse>,
    /// The number of wires of a channel.
    pub tracks: u32,
    /// The iterations of the routing.
    pub iterations: u32,
}

/// The counts of a whole packing.
#[derive(Clone, Copy)]
pub struct PackedCounts {
    pub clusters: usize,
    pub pads: usize,
    /// Nets between blocks.
    pub nets: usize,
}

/// The counts of a packing that is whole.
pub(crate) fn packed_counts(progress: Progress) -> PackedCounts
    requires { IsWhole progress }
    ensures { HasCounts progress result }
{
    match progress {
        Progress::Packed {
            clusters,
            pads,
            nets,
        } => PackedCounts {
            clusters,
            pads,
            nets,
        },
        _ => unreachable!(),
    }
}

/// The figures of a circuit that occupies these resources, in node order, of the strip of a window.
pub(crate) fn figures_of(
    window: &Window<'_>,
    packed: PackedCounts,
    held: &[Resource],
    iterations: u32,
) -> Figures
    ensures blocks { result.blocks ≡ record {
      used = packed.clusters;
      there = product window.now.strip.width window.now.strip.rows 1;
    } }
    ensures pads { result.pads ≡ record {
      used = packed.pads;
      there = product window.now.strip.width 2 window.now.strip.io_rat;
    } }
    ensures nets { result.nets ≡ packed.nets }
    ensures wires { result.wires ≡ record {
      used = wires_in held.now;
      there = wires_there window.now;
    } }
    ensures tracks { result.tracks ≡ window.now.arch.tracks }
    ensures iterations { result.iterations ≡ iterations }
{
    window.laws();
    let strip = window.strip();
    let tracks = window.arch().tracks;
    Figures {
        blocks: ResourceUse {
            used: packed.clusters,
            there: product(strip.width, strip.rows, 1),
        },
        pads: ResourceUse {
            used: packed.pads,
            there: product(strip.width, 2, strip.io_rat),
        },
        nets: packed.nets,
        wires: ResourceUse {
            used: wires_in(held),
            there: product(strip.width, strip.rows + 1, tracks)
                + product(strip.width + 1, strip.rows, tracks),
        },
        fullest: fullest_channel(held),
        tracks,
        iterations,
    }
}

/// The product of three.
#[tactic(auto, unfolding(crate::specs::Figures::product))]
fn product(a: u32, b: u32, c: u32) -> u32
    requires a { a ≤ MAX_COLUMNS + 1 }
    requires b { b ≤ MAX_ROWS + 1 }
    requires c { c ≤ MAX_TRACKS }
    ensures value { result ≡ product a b c }
    ensures small { result ≤ 1069120 }
{
    let ab = a * b;
    prove!(ab <= 16_705);
    ab * c
}

/// The number of channel wires among these.
fn wires_in(held: &[Resource]) -> usize
    ensures { result ≡ wires_in held.now }
{
    held.iter().filter(|one| is_wire(one.kind)).count()
}

/// Returns whether it is a wire of a channel.
fn is_wire(kind: ResourceKind) -> bool
    ensures { result ≡ is_channel_wire kind }
{
    matches!(kind, ResourceKind::ChanX | ResourceKind::ChanY)
}

/// The channel with the most of these wires. They are in node order, so those of one channel are
/// next to each other.
fn fullest_channel(held: &[Resource]) -> Option<ChannelUse> {
    let mut fullest = None;
    let mut most = 0;
    let mut wires = 0;
    for number in 0..held.len() {
        let goes_on = number > 0 && is_same_channel(held[number - 1], held[number]);
        wires = if goes_on { wires + 1 } else { 1 };
        if let Some(direction) = direction_of(held[number].kind) {
            if wires > most {
                most = wires;
                fullest = Some(ChannelUse {
                    x: held[number].x,
                    direction,
                    y: held[number].y,
                    wires,
                });
            }
        }
    }
    fullest
}

/// Returns whether both belong to one channel, pin block or pad place.
fn is_same_channel(one: Resource, other: Resource) -> bool {
    one.x == other.x && one.kind == other.kind && one.y == other.y
}

/// The direction of a wire.
fn direction_of(kind: ResourceKind) -> Option<ChannelDirection> {
    match kind {
        ResourceKind::ChanX => Some(ChannelDirection::Across),
        ResourceKind::ChanY => Some(ChannelDirection::Up),
        ResourceKind::Opin | ResourceKind::Ipin | ResourceKind::Pad => None,
    }
}
