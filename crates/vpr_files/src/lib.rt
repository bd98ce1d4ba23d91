//! The result files of a circuit, byte by byte: the `.net` file as T-VPack writes it, the others as
//! VPR does.
//!
//! Lines are words separated by single spaces, each line ended by LF. A file is written directly to
//! a [`line_text::Sink`], in small pieces and without memory, so the sink should be buffered. A
//! sink that fails has taken a beginning of the file.
//!
//! - [`net_text`] writes the `.net` file of a packed circuit: its global nets, and its blocks with
//!   the nets on their pins.
//! - [`place_text`] writes the `.place` file of a placed circuit: the place of each block.
//! - [`route_text`] writes the `.route` file of a routed circuit: the nodes of each net, or the
//!   blocks that a global net connects. [`write_node`] writes a node as in this file.
#![tactic(auto)]

mod block_names;
mod net_file;
mod node_text;
mod pin_words;
mod place_file;
mod route_file;
mod writing;

pub use net_file::{net_name, net_text};
pub use node_text::write_node;
pub use place_file::place_text;
pub use route_file::route_text;
