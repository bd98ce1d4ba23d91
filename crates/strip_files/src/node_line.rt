//! The lines of nodes.
ghost use Rattle.std.specs.Prelude.{◌+◌, ◌-◌, ◌≡◌, ◌≤◌, ◌++◌, true, false, IfSome, IfOk, MatchOption};
ghost use Rattle.strip_files.specs.Prelude.{MAX_PINS, MAX_COLUMNS, MAX_ROWS};
ghost use Rattle.strip_files.specs.NodeLines.{IsTailOf, counted_word, is_node_line, kind_start};

use crate::fault::Fault;
use crate::route_node::RouteNode;
use crate::size::StripSize;
use arch_file::{MAX_IO_RAT, MAX_PINS, MAX_TRACKS};
use rr_graph::{Node, NodeKind};
use text_parts::Scanner;

/// What the number of a node counts.
#[derive(Clone, Copy)]
pub(crate) enum Counted {
    Tracks,
    Pins,
    Pads,
    Classes,
}

/// Reads the word for a kind, up to the column; `None` if the line does not begin with one.
pub(crate) fn take_kind(scanner: &mut Scanner<'_>) -> Option<NodeKind>
    ensures { MatchOption result ((is_node_line scanner.old ≡ false) × (scanner.new ≡ scanner.old))
        (λ kind. (is_node_line scanner.old ≡ true)
        × (scanner.old ≡ kind_start kind ++ scanner.new)) }
{
    if scanner.takes("SOURCE (") {
        return Some(NodeKind::Source);
    }
    if scanner.takes("SINK (") {
        return Some(NodeKind::Sink);
    }
    if scanner.takes("OPIN (") {
        return Some(NodeKind::Opin);
    }
    if scanner.takes("IPIN (") {
        return Some(NodeKind::Ipin);
    }
    if scanner.takes("CHANX (") {
        return Some(NodeKind::ChanX);
    }
    scanner.takes("CHANY (").then_some(NodeKind::ChanY)
}

/// Reads the node of a strip of that size from a line: the rest after the word for its kind is
/// `COLUMN,ROW) WORD NUMBER`.
pub(crate) fn read_node(
    size: StripSize,
    kind: NodeKind,
    mut scanner: Scanner<'_>,
) -> Result<RouteNode, Fault>
    ensures { IfOk result (λ read. (read.node.kind ≡ kind) × IsTailOf scanner.entry read.node) }
{
    let Some((node, counted)) = read_tail(kind, &mut scanner) else {
        return Err(Fault::BadNode);
    };
    if is_there(size, node, counted) {
        Ok(RouteNode { node })
    } else {
        Err(Fault::NotThere)
    }
}

/// Reads a node of that kind from the end of a line, and what its number counts.
fn read_tail(kind: NodeKind, scanner: &mut Scanner<'_>) -> Option<(Node, Counted)>
    ensures { IfSome result (λ read. (read.0.kind ≡ kind) × IsTailOf scanner.old read.0) }
{
    let x = scanner.number()?;
    scanner.text(",")?;
    let y = scanner.number()?;
    let counted = take_counted(scanner)?;
    let n = scanner.number()?;
    if !scanner.is_done() {
        return None;
    }
    Some((Node { x, kind, y, n }, counted))
}

/// Reads the word between the row and the number.
fn take_counted(scanner: &mut Scanner<'_>) -> Option<Counted>
    ensures { IfSome result (λ counted. scanner.old ≡ counted_word counted ++ scanner.new) }
{
    if scanner.takes(") Track: ") {
        return Some(Counted::Tracks);
    }
    if scanner.takes(") Pin: ") {
        return Some(Counted::Pins);
    }
    if scanner.takes(") Pad: ") {
        return Some(Counted::Pads);
    }
    scanner.takes(") Class: ").then_some(Counted::Classes)
}

/// Returns whether a strip of that size has the node.
fn is_there(size: StripSize, node: Node, counted: Counted) -> bool
    ensures column { result ≡ true → node.x ≤ MAX_COLUMNS }
    ensures row { result ≡ true → node.y ≤ MAX_ROWS + 1 }
    ensures number { result ≡ true → node.n ≤ MAX_PINS - 1 }
{
    let Node { x, kind, y, n } = node;
    match (kind, counted) {
        (NodeKind::ChanX | NodeKind::ChanY, Counted::Tracks) => {
            size.has_channel(kind, x, y) && n < MAX_TRACKS
        }
        (NodeKind::Source | NodeKind::Sink, Counted::Classes) => size.has_block(x, y) && n <= 1,
        (NodeKind::Opin | NodeKind::Ipin, Counted::Pins) => size.has_block(x, y) && n < MAX_PINS,
        (NodeKind::ChanX | NodeKind::ChanY, _) => false,
        (_, Counted::Pads) => size.has_pads(x, y) && n < MAX_IO_RAT,
        _ => false,
    }
}
