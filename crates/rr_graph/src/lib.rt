//! The routing graph of a strip: its wires, pins and pads, and those between which a net can go
//! directly.
//!
//! The definition is two tests on the geometry, whether something is a node and whether two nodes
//! are an edge, and no list. A node is a source or a sink of a block or a pad, one of their pins,
//! or a wire of a channel; nodes are ordered by column, kind, row and number, and numbered in that
//! order. Edges lead from sources over output pins, wires and input pins to sinks, and between
//! wires of one track that meet at a point, in both directions.
//!
//! [`StripGraph`] is the graph as a router uses it: nodes by number, and the ends of each node's
//! edges in node order. An architecture and a strip determine the graph ([`one_graph`]), so any two
//! graphs of them are equal.
//!
//! [`Fabric`] implements it. All columns of blocks have the same nodes, so it stores the nodes of
//! one column in a table, and the edges of the columns that differ: column 0 with its vertical
//! channel, the first column of blocks, and one for all others; each for the case that a column
//! follows, and for the case that it is the last. The tables don't depend on the number of columns:
//! [`Fabric::part`] is the graph of any narrower strip over the same tables, and takes no memory.
#![tactic(auto)]

mod column;
mod fabric;
mod geometry;
mod graph;
mod joins;
mod laws;
mod node;
mod numbering;
mod part;
mod resource;
mod table;
mod targets;

pub use column::rank_of;
pub use fabric::Fabric;
pub use graph::{EdgeEnds, Numbers, StripGraph, one_graph};
pub use joins::{is_together, meets, sides_at};
pub use laws::laws_of_geometry;
pub use node::{Node, NodeKind};
pub use part::GraphPart;
pub use resource::{Resource, ResourceKind};
