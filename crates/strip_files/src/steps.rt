//! Steps of routes from node to node.
use rr_graph::{Node, NodeKind};

/// Whether an edge leads from one node to the other on a strip with this number of rows, in some
/// architecture: a pin is joined with the wires beside its block, whatever its sides and tracks.
pub(crate) fn can_lead(rows: u32, from: Node, to: Node) -> bool {
    match (from.kind, to.kind) {
        (NodeKind::Source, NodeKind::Opin) | (NodeKind::Ipin, NodeKind::Sink) => {
            is_same_place(rows, from, to)
        }
        (NodeKind::Opin, NodeKind::ChanX | NodeKind::ChanY) => is_beside(rows, from, to),
        (NodeKind::ChanX | NodeKind::ChanY, NodeKind::Ipin) => is_beside(rows, to, from),
        (NodeKind::ChanX, NodeKind::ChanX) => from.y == to.y && are_next(from.x, to.x, from, to),
        (NodeKind::ChanY, NodeKind::ChanY) => from.x == to.x && are_next(from.y, to.y, from, to),
        (NodeKind::ChanX, NodeKind::ChanY) => meet(from, to),
        (NodeKind::ChanY, NodeKind::ChanX) => meet(to, from),
        _ => false,
    }
}

/// Whether pads are in this row.
pub(crate) fn is_pad_row(rows: u32, y: u32) -> bool {
    y == 0 || y > rows
}

/// Whether two nodes are of one block, or of one pad.
pub(crate) fn is_same_place(rows: u32, one: Node, other: Node) -> bool {
    one.x == other.x && one.y == other.y && (!is_pad_row(rows, one.y) || one.n == other.n)
}

/// Whether the wire is beside the block or pad of the pin.
fn is_beside(rows: u32, pin: Node, wire: Node) -> bool {
    if is_pad_row(rows, pin.y) {
        return wire.kind == NodeKind::ChanX && wire.x == pin.x && wire.y == pin.y.min(rows);
    }
    match wire.kind {
        NodeKind::ChanX => wire.x == pin.x && is_at(wire.y, pin.y),
        _ => wire.y == pin.y && is_at(wire.x, pin.x),
    }
}

/// Whether a number is another one, or the one before it.
fn is_at(number: u32, other: u32) -> bool {
    number == other || number.saturating_add(1) == other
}

/// Whether two wires in a line have the same track and follow each other.
fn are_next(number: u32, other: u32, from: Node, to: Node) -> bool {
    from.n == to.n && (number.saturating_add(1) == other || other.saturating_add(1) == number)
}

/// Whether a wire above a row and a wire right of a column have the same track and meet.
fn meet(across: Node, up: Node) -> bool {
    across.n == up.n && is_at(up.x, across.x) && is_at(across.y, up.y)
}
