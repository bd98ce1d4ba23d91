//! The resources of a device that a circuit occupies.
ghost use Rattle.std.specs.Prelude.{◌≡◌, ◌+◌, ◌<◌, ◌^◌};
ghost use Rattle.std.specs.Bool.{MatchBool};
ghost use Rattle.rr_graph.specs.Resources.{IsEarlier, moved_resource, resource_of};

use crate::node::{Node, NodeKind};

/// The kinds of resources, in node order.
#[derive(Clone, Copy, PartialEq, Eq, PartialOrd, Ord)]
pub enum ResourceKind {
    /// An output pin of a block, or of a pad.
    Opin,
    /// An input pin of a block, or of a pad.
    Ipin,
    /// A wire of a channel above a row.
    ChanX,
    /// A wire of a channel to the right of a column.
    ChanY,
    /// A pad.
    Pad,
}

/// A pin, a wire or a pad. They are ordered by column, kind, row and number, in the order of the
/// fields.
#[derive(Clone, Copy, PartialEq, Eq, PartialOrd, Ord)]
pub struct Resource {
    /// The column. Blocks and their pads are in columns from 1.
    pub x: u32,
    pub kind: ResourceKind,
    /// The row. Blocks are in rows from 1, pads in row 0 and above the last row.
    pub y: u32,
    /// The number of a pin, of a pad or of a track.
    pub n: u32,
}

impl Resource {
    /// The pin or wire that a node represents; `None` for a source or a sink.
    pub fn of(node: Node) -> Option<Resource>
        ensures { result ≡ resource_of node }
    {
        let kind = match node.kind {
            NodeKind::Source | NodeKind::Sink => return None,
            NodeKind::Opin => ResourceKind::Opin,
            NodeKind::Ipin => ResourceKind::Ipin,
            NodeKind::ChanX => ResourceKind::ChanX,
            NodeKind::ChanY => ResourceKind::ChanY,
        };
        let Node { x, y, n, .. } = node;
        Some(Resource { x, kind, y, n })
    }

    /// The resource, moved this number of columns to the right.
    pub fn at_offset(self, columns: u32) -> Resource
        requires { self.x + columns < 2 ^ 32 }
        ensures { result ≡ moved_resource columns self }
    {
        Resource {
            x: self.x + columns,
            ..self
        }
    }

    /// Whether it comes before another in node order.
    pub fn is_before(self, other: Resource) -> bool
        ensures { MatchBool result (IsEarlier self other) (IsEarlier self other → ⊥) }
    {
        self < other
    }
}
