//! One tenancy's strip, from the three files that the service wrote: its `.net`, its `.place` and
//! its `.route`.
//!
//! [`read_strip`] returns the strip's size, its blocks with their kinds, names, places and BLEs,
//! and its nets with their names and the nodes of their routes. Each file must be as the service
//! writes it, and the three must fit one another; otherwise it returns the first faulty line, and
//! its file. Numbers may have leading zeros.
//!
//! It is proved that it is safe and returns, that what was read is on the largest strip, and that
//! the nodes and the nets that were read, with the nets' names, are those of the `.route` file's
//! lines, the blocks and BLEs, with their kinds and names, those of the `.net` file's, and the
//! blocks' places those of the `.place` file's, one each and in order.
#![tactic(auto)]

mod block;
mod ends;
mod fault;
mod net_text;
mod node_line;
mod place_text;
mod reader;
mod route_node;
mod route_text;
mod size;
mod steps;
mod trees;

pub use block::{BlockKind, PlacedBlock};
pub use fault::{Fault, File, FileFault};
pub use place_text::size_in;
pub use reader::{RoutedStrip, StripTexts, read_strip};
pub use route_node::RouteNode;
pub use route_text::{Net, block_in, net_in};
pub use size::StripSize;
