//! The sizes on which the places of a strip's planes depend.
ghost use Rattle.std.specs.Prelude.{◌≡◌, ◌+◌, ◌*◌, ◌<◌, ◌≤◌};
ghost use Rattle.fabric_planes.specs.Prelude.{Basis};
ghost use Rattle.fabric_planes.specs.Layout.{band_of, level_at, upright_at, stride_of, in_column, offset_of, place_of, place_count};
ghost use Rattle.fabric_planes.specs.Sizes.{IsSmall};

use rr_graph::{Node, NodeKind, StripGraph};

/// The sizes on which the places of a strip's planes depend.
#[derive(Clone, Copy)]
pub struct Shape {
    /// The columns of logic blocks.
    pub width: u32,
    /// The rows of logic blocks.
    pub rows: u32,
    /// The pins of a logic block and the pads at an end of a column.
    pub pins: u32,
    /// The tracks of a channel.
    pub tracks: u32,
    ghost small: { IsSmall width rows pins tracks },
}

impl Shape {
    ghost use Rattle.fabric_planes.specs.Tables.{IsShapeOf, IsNearby};

    /// The sizes of a strip's graph.
    pub fn new<G: StripGraph>(graph: &G) -> Shape
        ensures { IsShapeOf (G.basis graph.now) result }
    {
        graph.laws();
        let arch = graph.arch();
        let strip = graph.strip();
        Shape {
            width: strip.width,
            rows: strip.rows,
            pins: arch.pins.as_slice().len() as u32 + strip.io_rat,
            tracks: arch.tracks,
        }
    }

    /// The rows, with those of the pads.
    pub(crate) fn band(self) -> usize
        ensures value { result ≡ self.rows + 2 }
    {
        self.rows as usize + 2
    }

    /// The offset of a column's horizontal wires.
    pub(crate) fn level(self) -> usize
        ensures value { result ≡ 2 + 2 * self.pins + (self.rows + 2) }
    {
        2 + 2 * self.pins as usize + self.band()
    }

    /// The offset of a column's vertical wires.
    pub(crate) fn upright(self) -> usize
        ensures value { result ≡ 2 + 2 * self.pins + 3 * (self.rows + 2) }
    {
        self.level() + 2 * self.band()
    }

    /// The number of places of a column.
    pub fn stride(self) -> usize
        ensures few { result ≤ 638 }
        ensures value { result ≡ 2 + 2 * self.pins + 5 * (self.rows + 2) }
    {
        self.level() + 4 * self.band()
    }

    /// The number of places of a plane.
    pub fn places(self) -> usize
        ensures few { result ≤ 165242 }
        ensures value { (basis : Basis) → IsShapeOf basis self → result ≡ place_count basis }
    {
        (self.width as usize + 3) * self.stride()
    }

    /// The first place of a column.
    #[inline(always)]
    pub(crate) fn column(self, x: u32) -> usize
        requires { x ≤ 256 }
        ensures few { result ≤ 164604 }
        ensures value { (basis : Basis) → IsShapeOf basis self → result ≡ in_column basis x 0 }
    {
        (x as usize + 2) * self.stride()
    }

    /// The offset of a node in its column.
    #[inline(always)]
    pub(crate) fn offset(self, node: Node) -> usize
        requires { IsNearby node }
        ensures few { result ≤ 900 }
        ensures value { (basis : Basis) → IsShapeOf basis self →
            result ≡ offset_of basis node.kind node }
    {
        match node.kind {
            NodeKind::Source => 0,
            NodeKind::Sink => 1,
            NodeKind::Opin => 2 + node.n as usize,
            NodeKind::Ipin => 2 + self.pins as usize + node.n as usize,
            NodeKind::ChanX => self.level() + node.y as usize,
            NodeKind::ChanY => self.upright() + node.y as usize,
        }
    }

    /// The place of a node.
    #[inline(always)]
    pub fn place(self, node: Node) -> usize
        requires { IsNearby node }
        ensures few { result ≤ 165504 }
        ensures value { (basis : Basis) → IsShapeOf basis self → result ≡ place_of basis node }
    {
        self.column(node.x) + self.offset(node)
    }
}
