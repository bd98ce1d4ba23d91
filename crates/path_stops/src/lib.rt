//! The stops of a netlist's longest path, and the wires between them.
//!
//! A path begins at an input pad or a latch, goes through tables, and ends at an output pad or a
//! latch; if several read its last net, it has several ends. Each of these is a [`PathStop`]: a
//! net, and the block that drives it or, at an end, that reads it. [`stops_of`] returns the stops
//! of a path over a routed strip. [`measured_stops`] adds to each the wires on the way to it, and
//! [`write_stops`] writes them, a line each.
#![tactic(auto)]

mod blocks;
mod measured;
mod stops;
mod text;

pub use measured::{MeasuredStop, measured_stops};
pub use stops::{PathStop, StopKind, stops_of};
pub use text::write_stops;
