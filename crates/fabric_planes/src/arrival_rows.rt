//! The rows of the ends of the wires at the sides of blocks and pads.
ghost use Rattle.std.specs.Prelude.{◌≡◌, ◌<◌, true, IfOk, OnOk};
ghost use Rattle.fabric_planes.specs.ArrivalRows.{arrival_at, column_of, first_row, index_of, row_count, wire_beside};
ghost use Rattle.fabric_planes.specs.Pins.{AreArrivals};
ghost use Rattle.fabric_planes.specs.Tables.{IsNearby};

use crate::costs::NodeCosts;
use crate::ends::{Listed, View};
use crate::quest::Quest;
use crate::shaped_graph::ShapedGraph;
use crate::side::Side;
use rows::Rows;
use rr_graph::{Node, NodeKind, StripGraph};
use std::alloc::{AllocError, Global};

/// The number of the column that has the rows of a column: the first, the second, the last, or the
/// third one for all others.
fn index_of(width: u32, x: u32) -> u32
    ensures { result ≡ index_of width x }
{
    if x == width {
        return 3;
    }
    x.saturating_sub(1).min(2)
}

/// The column with such a number.
fn column_of(width: u32, index: u32) -> u32
    requires { index < 4 }
    ensures { result ≡ column_of width index }
{
    if index == 3 { width } else { index + 1 }
}

/// The wire of a track at a side of a pin's or a sink's block or pad.
pub(crate) fn wire_beside(sink: Node, side: u32, track: u32) -> Node
    ensures { result ≡ wire_beside sink side track }
{
    let kind = if side < 2 {
        NodeKind::ChanX
    } else {
        NodeKind::ChanY
    };
    Node {
        x: sink.x.saturating_sub((side == 3) as u32),
        kind,
        y: sink.y.saturating_sub((side == 1) as u32),
        n: track,
    }
}

impl<'a, G: StripGraph> ShapedGraph<'a, G> {
    /// What the row with this number is for: the wire of a track at a side of a sink's block or
    /// pad. The row of a sink that the strip doesn't have is empty.
    fn arrival_at(&self, number: u32) -> Listed
        ensures { result ≡ arrival_at (G.basis self.now.graph.now) number }
    {
        let (graph, shape) = (self.graph, self.shape);
        graph.laws();
        let strip = graph.strip();
        let (by_side, track) = (number / shape.tracks, number % shape.tracks);
        let (side, site) = (by_side % 4, by_side / 4 / 4);
        let sink = Node {
            x: column_of(strip.width, by_side / 4 % 4),
            kind: NodeKind::Sink,
            y: site / strip.io_rat,
            n: site % strip.io_rat,
        };
        let node = match graph.number(sink) {
            Some(_) => wire_beside(sink, side, track),
            None => sink,
        };
        let view = View { track, node: sink };
        Listed { view, node }
    }

    /// The number of rows.
    fn row_count(&self) -> u32
        ensures { result ≡ row_count (G.basis self.now.graph.now) }
    {
        let (graph, shape) = (self.graph, self.shape);
        graph.laws();
        let strip = graph.strip();
        (shape.rows + 2) * strip.io_rat * 16 * shape.tracks
    }

    /// The row of the first track's wire at a side of the sink's block or pad.
    fn first_row(&self, sink: Node, side: Side) -> usize
        requires { IsNearby sink }
        ensures { result ≡ first_row (G.basis self.now.graph.now) sink side.number }
    {
        let (graph, shape) = (self.graph, self.shape);
        graph.laws();
        let strip = graph.strip();
        let site = sink.y * strip.io_rat + sink.n;
        let column = index_of(strip.width, sink.x);
        (((site * 4 + column) * 4 + side.number as u32) * shape.tracks) as usize
    }
}

/// The rows of the ends of the wires at the sides of blocks and pads. They are made once for a
/// graph.
#[derive(Drop)]
pub struct ArrivalRows {
    pub(crate) rows: Rows,
}

impl ArrivalRows {
    ghost use Rattle.fabric_planes.specs.ArrivalRows.{AreArrivalRows};

    /// The rows of a strip's graph.
    pub(crate) fn new<G: StripGraph>(
        alloc: Global,
        shaped: &ShapedGraph<'_, G>,
    ) -> Result<Self, AllocError>
        ensures { IfOk result (λ arrivals. AreArrivalRows (G.basis shaped.now.graph.now)
            arrivals) }
    {
        shaped.graph.laws();
        let count = shaped.row_count();
        let mut rows = Rows::new(alloc);
        let mut list = Vec::new(alloc);
        for number in 0..count {
            let arrival = shaped.arrival_at(number);
            shaped.add_row(&mut rows, arrival, &mut list)?;
        }
        Ok(ArrivalRows { rows })
    }
}

impl<'a, G: StripGraph, C: NodeCosts> Quest<'a, G, C> {
    /// Lists for each side of the sink's block or pad the row of the first track's wire.
    pub(crate) fn list_firsts(&self, firsts: &mut Vec<usize>) -> Result<(), AllocError>
        ensures { OnOk result (AreArrivals (G.basis self.now.priced.now.graph.now) self.now.sink
            self.now.priced.now.layout.now.arrivals.rows firsts.new.items) }
    {
        let (graph, shape) = (self.priced.graph, self.priced.layout.shape);
        graph.laws();
        let shaped = ShapedGraph { graph, shape };
        firsts.clear();
        for number in 0..4 {
            firsts.push(shaped.first_row(self.sink, Side { number }))?;
        }
        Ok(())
    }
}
