//! Distances between wires, by the difference of their places.
ghost use Rattle.std.specs.Prelude.{◌≡◌, ◌+◌, ◌*◌, ◌<◌, ◌≤◌, ◌^◌, IfOk, min};
ghost use Rattle.fabric_planes.specs.Prelude.{rank_of};
ghost use Rattle.fabric_planes.specs.Differences.{wires_to, far_at, far_table};
ghost use Rattle.fabric_planes.specs.Distances.{west_of, south_of, ends_apart, is_same_wire, wires_by};

use crate::shape::Shape;
use rr_graph::{NodeKind, rank_of};
use std::alloc::{AllocError, Global};

/// What distances lead to: a horizontal wire, a vertical one, or the nearest wire of a block, which
/// is given by the wire above it.
#[derive(Clone, Copy)]
pub(crate) enum Target {
    Level,
    Upright,
    Block,
}

/// The most that a distance counts in a table.
const MOST_FAR: u32 = 254;

/// A wire's place in its channels, without its track.
#[derive(Clone, Copy)]
struct Spot {
    kind: NodeKind,
    x: u32,
    y: u32,
    ghost few_columns: { x < 2 ^ 20 },
    ghost few_rows: { y < 2 ^ 20 },
}

impl Spot {
    /// The point at the left end.
    fn west(self) -> u32
        ensures { result ≡ west_of self.kind self.x }
    {
        match self.kind {
            NodeKind::ChanY => self.x + 1,
            _ => self.x,
        }
    }

    /// The point at the lower end.
    fn south(self) -> u32
        ensures { result ≡ south_of self.kind self.y }
    {
        match self.kind {
            NodeKind::ChanX => self.y + 1,
            _ => self.y,
        }
    }

    /// The distance of the nearest ends of two wires.
    fn ends_apart(self, other: Spot) -> u32
        ensures few { result < 2 ^ 23 }
        ensures value { result ≡ ends_apart self.kind self.x self.y other.kind other.x other.y }
    {
        let right = other.west().saturating_sub(self.x + 1);
        let left = self.west().saturating_sub(other.x + 1);
        let above = other.south().saturating_sub(self.y + 1);
        let below = self.south().saturating_sub(other.y + 1);
        (right + left) + (above + below)
    }

    /// Whether the two are one wire.
    fn is_same(self, other: Spot) -> bool
        ensures { result ≡ is_same_wire self.kind self.x self.y other.kind other.x other.y }
    {
        rank_of(self.kind) == rank_of(other.kind) && self.x == other.x && self.y == other.y
    }

    /// The least number of wires on a way from the first to the second, without the first.
    fn wires_to(self, other: Spot) -> u32
        ensures few { result ≤ 2 ^ 23 }
        ensures value { result ≡ wires_by self.kind self.x self.y other.kind other.x other.y }
    {
        if self.is_same(other) {
            0
        } else {
            1 + self.ends_apart(other)
        }
    }
}

/// The distance of a wire from a target, in the column and row of a wire that is given.
fn wires_to(target: Target, from: Spot, there: Spot) -> u32
    ensures { result ≡ wires_to target from.kind from.x from.y there.x there.y }
{
    let Spot { x, y, .. } = there;
    let (level, upright) = (NodeKind::ChanX, NodeKind::ChanY);
    let above = Spot { kind: level, x, y };
    let after = Spot {
        kind: upright,
        x,
        y,
    };
    match target {
        Target::Level => from.wires_to(above),
        Target::Upright => from.wires_to(after),
        Target::Block => {
            let under = Spot {
                kind: level,
                x,
                y: y.saturating_sub(1),
            };
            let before = Spot {
                kind: upright,
                x: x.saturating_sub(1),
                y,
            };
            let level = from.wires_to(above).min(from.wires_to(under));
            level.min(from.wires_to(after).min(from.wires_to(before)))
        }
    }
}

/// An entry of the table: the distance for places that differ by so many columns and this offset.
fn far_at(target: Target, shape: Shape, x: u32, y: u32) -> u32
    requires x { x < 2 ^ 20 }
    requires y { y < 2 ^ 20 }
    ensures few { result ≤ 254 }
    ensures value { result ≡ far_at target (shape.width + 3) (shape.rows + 2) x y }
{
    let (columns, band) = (shape.width + 3, shape.rows + 2);
    if 4 * band <= y {
        return 0;
    }
    let wires = if y < 2 * band {
        let kind = NodeKind::ChanX;
        let from = Spot { kind, x, y };
        let (x, y) = (columns, band);
        wires_to(target, from, Spot { kind, x, y })
    } else {
        let kind = NodeKind::ChanY;
        let from = Spot { kind, x, y };
        let (x, y) = (columns, 3 * band);
        wires_to(target, from, Spot { kind, x, y })
    };
    MOST_FAR.min(wires)
}

/// The table of the distances from wires to a target.
pub(crate) fn far_table(alloc: Global, shape: Shape, target: Target) -> Result<Vec<u8>, AllocError>
    ensures { IfOk result (λ table. table.items ≡ far_table target (shape.width + 3)
        (shape.rows + 2) (2 + 2 * shape.pins + 5 * (shape.rows + 2))) }
{
    let columns = shape.width + 3;
    let band = shape.band() as u32;
    let stride = shape.stride() as u32;
    let mut table = Vec::new(alloc);
    for at in 0..(2 * columns + 1) * stride {
        table.push(far_at(target, shape, at / stride, at % stride) as u8)?;
    }
    Ok(table)
}
