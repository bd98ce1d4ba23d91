//! Searches for the ends of a node's edges only where they can be: in the node's own column and
//! row, and in the next ones.
ghost use Rattle.std.specs.Prelude.{◌≡◌, ◌+◌, ◌-◌, ◌*◌, ◌<◌, ◌≤◌, OnOk, []};
ghost use Rattle.rr_graph.specs.Prelude.{MAX_COLUMNS, IsWithin};
ghost use Rattle.rr_graph.specs.Node.{rank_of};
ghost use Rattle.rr_graph.specs.Numbering.{column_count};
ghost use Rattle.rr_graph.specs.Table.{HasSmallNumbers, AreWires, IsSpan, may_lead, may_reach, rows_above, columns_right, IsRowBelow, IsRowAt};

use crate::geometry::{is_slot, is_wire};
use crate::joins::joins;
use crate::node::{Node, NodeKind};
use crate::numbering::Nodes;
use std::alloc::AllocError;

/// The nodes of one kind in a column, among which the ends of the edges of a node `a` are searched.
#[derive(Clone, Copy)]
struct Targets<'a> {
    nodes: &'a Nodes,
    a: Node,
    x: u32,
    kind: NodeKind,
    ghost small: { HasSmallNumbers a },
    ghost few: { x ≤ MAX_COLUMNS },
    // In column 0 there is only a vertical channel.
    ghost there: { (x ≡ 0) → rank_of kind ≡ 5 },
}

impl Targets<'_> {
    /// The first row that can have ends.
    fn first_row(&self) -> u32
        ensures { result ≡ self.now.a.y - rows_above self.now.kind self.now.a.kind }
    {
        self.a.y.saturating_sub(rows_above(self.kind, self.a.kind))
    }

    /// The row after the last that can have ends.
    fn end_row(&self) -> u32
        ensures value { result ≡ self.now.a.y + rows_above self.now.a.kind self.now.kind + 1 }
        ensures few { result < 68 }
    {
        self.a.y + rows_above(self.a.kind, self.kind) + 1
    }

    /// Whether edges of `a` can lead to nodes of the kind in the column.
    fn may_reach(&self) -> bool
        ensures { result ≡ may_reach self.now.a self.now.kind self.now.x }
    {
        let first = self
            .a
            .x
            .saturating_sub(columns_right(self.kind, self.a.kind));
        let own = self.x.saturating_sub(columns_right(self.a.kind, self.kind));
        may_lead(self.a.kind, self.kind) && first <= self.x && own <= self.a.x
    }

    /// Appends the ends in a part of the column.
    fn add_part(&self, row: &mut Vec<u32>, from: usize, to: usize) -> Result<(), AllocError>
        requires span { IsSpan self.now.nodes.now.numbering self.now.x from to }
        requires row { IsRowBelow self.now.nodes.now.numbering self.now.a row.old.items
            (self.now.x * column_count self.now.nodes.now.numbering + from) }
        ensures { OnOk result (IsRowBelow self.now.nodes.now.numbering self.now.a row.new.items
            (self.now.x * column_count self.now.nodes.now.numbering + to)) }
    {
        let numbering = &self.nodes.numbering;
        let start = self.x as usize * numbering.members.len();
        for r in from..to {
            let member = numbering.members[r];
            let b = Node {
                x: self.x,
                kind: member.kind,
                y: member.y,
                n: member.n,
            };
            if joins(&numbering.arch, numbering.strip, self.a, b) {
                row.push((start + r - numbering.before) as u32)?;
            }
        }
        Ok(())
    }

    /// Appends the wire in a row to which an edge of the wire `a` leads, if there is one: it has
    /// the same track as `a`.
    fn add_wire(&self, row: &mut Vec<u32>, y: u32) -> Result<(), AllocError>
        requires y { y < 68 }
        requires wires { AreWires self.now.a.kind self.now.kind }
        requires row { IsRowAt self.now.nodes.now.numbering self.now.a row.old.items self.now.x
            (rank_of self.now.kind * 65536 + y * 256) }
        ensures { OnOk result (IsRowAt self.now.nodes.now.numbering self.now.a row.new.items
            self.now.x (rank_of self.now.kind * 65536 + (y + 1) * 256)) }
    {
        let numbering = &self.nodes.numbering;
        let (a, x, kind) = (self.a, self.x, self.kind);
        let b = Node { x, kind, y, n: a.n };
        if is_slot(&numbering.arch, numbering.strip, kind, y, a.n)
            && joins(&numbering.arch, numbering.strip, a, b)
        {
            let index = self.nodes.nodes_before(kind, y) + a.n as usize;
            row.push((x as usize * numbering.members.len() + index - numbering.before) as u32)?;
            Ok(())
        } else {
            Ok(())
        }
    }

    /// Appends the wires to which edges of the wire `a` lead.
    fn add_track(&self, row: &mut Vec<u32>) -> Result<(), AllocError>
        requires wires { AreWires self.now.a.kind self.now.kind }
        requires row { IsRowAt self.now.nodes.now.numbering self.now.a row.old.items self.now.x
            (rank_of self.now.kind * 65536) }
        ensures { OnOk result (IsRowAt self.now.nodes.now.numbering self.now.a row.new.items
            self.now.x ((rank_of self.now.kind + 1) * 65536)) }
    {
        for y in self.first_row()..self.end_row() {
            self.add_wire(row, y)?;
        }
        Ok(())
    }

    /// Appends the ends, searching all nodes of the rows that can have them.
    fn add_rows(&self, row: &mut Vec<u32>) -> Result<(), AllocError>
        requires { IsRowAt self.now.nodes.now.numbering self.now.a row.old.items self.now.x
            (rank_of self.now.kind * 65536) }
        ensures { OnOk result (IsRowAt self.now.nodes.now.numbering self.now.a row.new.items
            self.now.x ((rank_of self.now.kind + 1) * 65536)) }
    {
        let from = self.nodes.nodes_before(self.kind, self.first_row());
        let to = self.nodes.nodes_before(self.kind, self.end_row());
        self.add_part(row, from, to)
    }

    /// Appends the ends of this kind in this column.
    fn add_kind(&self, row: &mut Vec<u32>) -> Result<(), AllocError>
        requires { IsRowAt self.now.nodes.now.numbering self.now.a row.old.items self.now.x
            (rank_of self.now.kind * 65536) }
        ensures { OnOk result (IsRowAt self.now.nodes.now.numbering self.now.a row.new.items
            self.now.x ((rank_of self.now.kind + 1) * 65536)) }
    {
        if self.may_reach() {
            if is_wire(self.a.kind) && is_wire(self.kind) {
                self.add_track(row)
            } else {
                self.add_rows(row)
            }
        } else {
            Ok(())
        }
    }
}

/// Whether edges can lead from nodes of one kind to nodes of another.
fn may_lead(from: NodeKind, to: NodeKind) -> bool
    ensures { result ≡ may_lead from to }
{
    match (from, to) {
        (NodeKind::Source, NodeKind::Opin) => true,
        (NodeKind::Opin, _) => is_wire(to),
        (NodeKind::Ipin, NodeKind::Sink) => true,
        (NodeKind::ChanX, NodeKind::Ipin) => true,
        (NodeKind::ChanX, _) => is_wire(to),
        (NodeKind::ChanY, NodeKind::Ipin) => true,
        (NodeKind::ChanY, _) => is_wire(to),
        _ => false,
    }
}

/// The largest number of rows by which an end of the second kind can be above a node of the first:
/// a horizontal channel is between two rows, and a wire of a vertical channel meets the next one.
fn rows_above(from: NodeKind, to: NodeKind) -> u32
    ensures value { result ≡ rows_above from to }
    ensures few { result ≤ 1 }
{
    match (from, to) {
        (NodeKind::ChanX, NodeKind::ChanX) => 0,
        (NodeKind::ChanX, _) => 1,
        (NodeKind::ChanY, NodeKind::ChanY) => 1,
        _ => 0,
    }
}

/// The largest number of columns by which an end of the second kind can be to the right of a node
/// of the first.
fn columns_right(from: NodeKind, to: NodeKind) -> u32
    ensures { result ≡ columns_right from to }
{
    match (from, to) {
        (NodeKind::ChanX, NodeKind::ChanX) => 1,
        (NodeKind::ChanY, NodeKind::ChanY) => 0,
        (NodeKind::ChanY, _) => 1,
        _ => 0,
    }
}

/// Appends the nodes of a column to which edges of `a` lead.
fn add_column(row: &mut Vec<u32>, nodes: &Nodes, a: Node, x: u32) -> Result<(), AllocError>
    requires small { HasSmallNumbers a }
    requires x { x ≤ MAX_COLUMNS }
    requires row { IsRowBelow nodes.now.numbering a row.old.items
        (x * column_count nodes.now.numbering) }
    ensures { OnOk result (IsRowBelow nodes.now.numbering a row.new.items
        ((x + 1) * column_count nodes.now.numbering)) }
{
    if x > 0 {
        let kind = NodeKind::Source;
        Targets { nodes, a, x, kind }.add_kind(row)?;
        let kind = NodeKind::Sink;
        Targets { nodes, a, x, kind }.add_kind(row)?;
        let kind = NodeKind::Opin;
        Targets { nodes, a, x, kind }.add_kind(row)?;
        let kind = NodeKind::Ipin;
        Targets { nodes, a, x, kind }.add_kind(row)?;
        let kind = NodeKind::ChanX;
        Targets { nodes, a, x, kind }.add_kind(row)?;
    }
    let kind = NodeKind::ChanY;
    Targets { nodes, a, x, kind }.add_kind(row)
}

/// Appends the nodes of the columns up to `last` to which edges of `a` lead. They are in its own
/// column or a neighbouring one.
pub(crate) fn add_row(
    row: &mut Vec<u32>,
    nodes: &Nodes,
    a: Node,
    last: u32,
) -> Result<(), AllocError>
    requires last { IsWithin a.x last MAX_COLUMNS }
    requires small { HasSmallNumbers a }
    requires row { row.old.items ≡ [] }
    ensures { OnOk result (IsRowBelow nodes.now.numbering a row.new.items
        ((last + 1) * column_count nodes.now.numbering)) }
{
    for x in a.x.saturating_sub(1)..(a.x + 1).min(last) + 1 {
        add_column(row, nodes, a, x)?;
    }
    Ok(())
}
