//! The rows of the ends of sources, sinks and pins.
ghost use Rattle.std.specs.Prelude.{◌≡◌, ◌+◌, ◌*◌, ◌<◌, ◌≤◌, ℕ, List, All, length, slice_index, true, IfOk};
ghost use Rattle.fabric_planes.specs.Prelude.{Opin, IsWire, is_node, meets, Basis, graph_of};
ghost use Rattle.fabric_planes.specs.Layout.{Terminals, IsNetSearch, place_of, planes_of};
ghost use Rattle.fabric_planes.specs.PinRows.{apart_at, aparts, first_row, index_of, kind_at, listed_at, pin_number, rows_per_track};
ghost use Rattle.fabric_planes.specs.Pins.{HasEnds, IsShownPin};
ghost use Rattle.fabric_planes.specs.Sides.{IsAtSide};
ghost use Rattle.fabric_planes.specs.Tables.{IsShapeOf, IsNearby};
ghost use Rattle.fabric_planes.specs.Ways.{IsWireAt};

use crate::arrival_rows::wire_beside;
use crate::ends::{Listed, View};
use crate::pins::PinAt;
use crate::shape::Shape;
use crate::shaped_graph::ShapedGraph;
use crate::side::Side;
use crate::strip_planes::StripPlanes;
use rows::Rows;
use rr_graph::{Node, NodeKind, StripGraph, meets};
use std::alloc::{AllocError, Global};

/// For a track that an output pin does not meet: more than costs count.
const APART: u16 = 20000;

/// The kind of the node with this index among those of a row of the first column with one number:
/// a source, a sink, an input pin, and for each track an output pin.
fn kind_at(index: u32) -> NodeKind
    ensures { result ≡ kind_at index }
{
    match index {
        0 => NodeKind::Source,
        1 => NodeKind::Sink,
        2 => NodeKind::Ipin,
        _ => NodeKind::Opin,
    }
}

/// The first index of a kind.
fn index_of(kind: NodeKind) -> usize
    ensures { result ≡ index_of kind }
{
    match kind {
        NodeKind::Source => 0,
        NodeKind::Sink => 1,
        NodeKind::Ipin => 2,
        _ => 3,
    }
}

/// By how much the row of the next track differs.
fn rows_per_track(kind: NodeKind) -> usize
    ensures { result ≡ rows_per_track kind }
{
    match kind {
        NodeKind::Opin => 1,
        _ => 0,
    }
}

/// The number of a pin among those of a column.
fn pin_number(shape: Shape, node: Node) -> usize
    requires { IsNearby node }
    ensures few { result ≤ 10200 }
    ensures value { (basis : Basis) → IsShapeOf basis shape →
        result ≡ pin_number basis node.y node.n }
{
    node.y as usize * shape.pins as usize + node.n as usize
}

/// The row of a node in the first track's plane.
fn first_row(shape: Shape, node: Node) -> usize
    requires { IsNearby node }
    ensures { (basis : Basis) → IsShapeOf basis shape → result ≡ first_row basis node }
{
    pin_number(shape, node) * (shape.tracks as usize + 3) + index_of(node.kind)
}

impl<'a, G: StripGraph> ShapedGraph<'a, G> {
    /// What the row with this number is for.
    fn listed_at(&self, number: u32) -> Listed
        ensures { result ≡ listed_at (G.basis self.now.graph.now) number }
    {
        let (graph, shape) = (self.graph, self.shape);
        graph.laws();
        let (pin, index) = (number / (shape.tracks + 3), number % (shape.tracks + 3));
        let (y, n) = (pin / shape.pins, pin % shape.pins);
        let node = Node {
            x: 1,
            kind: kind_at(index),
            y,
            n,
        };
        // A block has one sink, with number 0.
        let is_block = 1 <= y && y <= shape.rows;
        let n = if is_block { 0 } else { n };
        Listed {
            view: View {
                track: index.saturating_sub(3),
                node: Node { n, ..node },
            },
            node,
        }
    }

    /// The entry for an index that tells the pin, the side and the track.
    fn apart_at(&self, at: u32) -> u16
        ensures { result ≡ apart_at (G.basis self.now.graph.now) at }
    {
        let (graph, shape) = (self.graph, self.shape);
        graph.laws();
        let (kind, by_side) = (NodeKind::Opin, at / shape.tracks);
        let (y, n) = (by_side / 4 / shape.pins, by_side / 4 % shape.pins);
        let (pin, side) = (Node { x: 1, kind, y, n }, by_side % 4);
        // No wire is below the pads of row 0.
        if side == 1 && y == 0 {
            return APART;
        }
        let wire = wire_beside(pin, side, at % shape.tracks);
        if meets(graph.arch(), graph.strip(), pin, wire) {
            0
        } else {
            APART
        }
    }

    /// For each output pin of a column, each side and each track, whether they meet.
    fn aparts(&self, alloc: Global) -> Result<Vec<u16>, AllocError>
        ensures { IfOk result (λ list. list.items ≡ aparts (G.basis self.now.graph.now)) }
    {
        let (graph, shape) = (self.graph, self.shape);
        graph.laws();
        let mut list = Vec::new(alloc);
        for at in 0..(shape.rows + 2) * shape.pins * 4 * shape.tracks {
            list.push(self.apart_at(at))?;
        }
        Ok(list)
    }
}

/// The rows of the ends of sources, sinks and pins, for each plane. They are made once for a graph.
#[derive(Drop)]
pub struct PinRows {
    pub(crate) rows: Rows,
    /// For each output pin of a column, side and track 0 if they meet.
    pub(crate) apart: Vec<u16>,
}

impl PinRows {
    ghost use Rattle.fabric_planes.specs.PinRows.{ArePinRows};

    /// The rows of a graph's pins.
    pub(crate) fn new<G: StripGraph>(
        alloc: Global,
        shaped: &ShapedGraph<'_, G>,
    ) -> Result<Self, AllocError>
        ensures { IfOk result (λ pins. ArePinRows (G.basis shaped.now.graph.now) pins) }
    {
        let shape = shaped.shape;
        shaped.graph.laws();
        let apart = shaped.aparts(alloc)?;
        let mut rows = Rows::new(alloc);
        let mut list = Vec::new(alloc);
        for number in 0..(shape.rows + 2) * shape.pins * (shape.tracks + 3) {
            let listed = shaped.listed_at(number);
            shaped.add_row(&mut rows, listed, &mut list)?;
        }
        Ok(PinRows { rows, apart })
    }
}

impl<'a, G: StripGraph> StripPlanes<'a, G> {
    /// The pin with this number, with the rows of its ends.
    pub(crate) fn pin(&self, number: usize) -> PinAt
        requires within { number < (graph_of (G.basis self.now.graph.now)).count }
        requires no_wire { IsWire ((graph_of (G.basis self.now.graph.now)).node number).kind → ⊥ }
        ensures number { result.number ≡ number }
        ensures place { result.place ≡ place_of (G.basis self.now.graph.now)
            ((graph_of (G.basis self.now.graph.now)).node number) }
        ensures ends { (cost : ℕ → ℕ) (starts : List ℕ) (goal : ℕ) (t : Terminals) →
            IsNetSearch (G.basis self.now.graph.now) cost starts goal t →
            IsShownPin (G.basis self.now.graph.now) t number →
            HasEnds (planes_of (G.basis self.now.graph.now) cost starts goal t)
            self.now.layout.now.pins.rows result }
    {
        let (graph, shape) = (self.graph, self.layout.shape);
        graph.laws();
        let node = graph.node(number);
        let place = shape.place(node);
        PinAt {
            place,
            number,
            row: first_row(shape, node),
            per_track: rows_per_track(node.kind),
            base: place.saturating_sub(2 * shape.stride()),
        }
    }

    /// For each track 0 if the output pin meets the wire of the track at the side, else a large
    /// number.
    pub(crate) fn apart(&self, pin: Node, side: Side) -> &'a [u16]
        requires pin { is_node (G.basis self.now.graph.now).arch (G.basis self.now.graph.now).strip
            pin ≡ true }
        requires kind { pin.kind ≡ Opin }
        ensures long { length result.now ≡ (G.basis self.now.graph.now).arch.tracks }
        ensures few { All (λ bound. bound ≤ 20000) result.now }
        ensures met { (number : ℕ) → IsWireAt (G.basis self.now.graph.now) number →
            IsAtSide pin side.number ((graph_of (G.basis self.now.graph.now)).node number).kind
            ((graph_of (G.basis self.now.graph.now)).node number).x
            ((graph_of (G.basis self.now.graph.now)).node number).y →
            meets (G.basis self.now.graph.now).arch (G.basis self.now.graph.now).strip pin
            ((graph_of (G.basis self.now.graph.now)).node number) ≡ true →
            slice_index result.now ((graph_of (G.basis self.now.graph.now)).node number).n ≡ 0 }
    {
        let (graph, layout) = (self.graph, self.layout);
        graph.laws();
        let tracks = layout.shape.tracks as usize;
        let at = (pin_number(layout.shape, pin) * 4 + side.number) * tracks;
        &layout.pins.apart[at..at + tracks]
    }
}
