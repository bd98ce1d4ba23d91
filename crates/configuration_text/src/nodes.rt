//! Nodes and edges.
ghost use Rattle.std.specs.Prelude.{◌≡◌, ◌&&◌, ◌==◌, not};
ghost use Rattle.std.specs.List.{list_any};
ghost use Rattle.configuration_text.specs.Prelude.{is_same_edge, is_switch, is_terminal, is_same_node, rank_of};

use rr_graph::{Node, NodeKind};

/// Whether the two nodes are equal.
pub(crate) fn is_same_node(a: Node, b: Node) -> bool
    ensures { result ≡ is_same_node a b }
{
    a.x == b.x && is_same_kind(a.kind, b.kind) && a.y == b.y && a.n == b.n
}

/// Whether the two kinds are equal.
fn is_same_kind(a: NodeKind, b: NodeKind) -> bool
    ensures { result ≡ (rank_of a == rank_of b) }
{
    rank_of(a) == rank_of(b)
}

/// The kind's rank in node order.
fn rank_of(kind: NodeKind) -> u8
    ensures { result ≡ rank_of kind }
{
    match kind {
        NodeKind::Source => 0,
        NodeKind::Sink => 1,
        NodeKind::Opin => 2,
        NodeKind::Ipin => 3,
        NodeKind::ChanX => 4,
        NodeKind::ChanY => 5,
    }
}

/// Whether the edge is a switch that is not among those that are seen.
pub(crate) fn is_new_switch(from: Node, to: Node, seen: &[(Node, Node)]) -> bool
    ensures { result
        ≡ (is_switch (from, to) && not (list_any (is_same_edge (from, to)) seen.now)) }
{
    !is_terminal(from.kind) && !is_terminal(to.kind) && !is_seen(from, to, seen)
}

/// Whether the edge is among those that are seen.
fn is_seen(from: Node, to: Node, seen: &[(Node, Node)]) -> bool
    ensures { result ≡ list_any (is_same_edge (from, to)) seen.now }
{
    seen.iter().any(|edge| is_same_node(from, edge.0) && is_same_node(to, edge.1))
}

/// Whether the kind is for the pins of a class together.
fn is_terminal(kind: NodeKind) -> bool
    ensures { result ≡ is_terminal kind }
{
    match kind {
        NodeKind::Source | NodeKind::Sink => true,
        _ => false,
    }
}
