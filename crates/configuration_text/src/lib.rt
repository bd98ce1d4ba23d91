//! The text of a layout's configuration.
//!
//! [`configuration_text`] returns what a device is loaded with so that it runs the netlist: a line
//! for each pad, BLE, input, table, latch and global net, and for each switch that is closed.
//! The text is exactly that of the definition (`configuration_text` of `configuration`): what is
//! proved there of a layout's configuration is said of what is written. [`write_configuration`]
//! writes this text to a sink. [`push_switches`] appends exactly the lines of a net's switches;
//! [`pin_in`] and [`pin_out`] are the pins by which a net's tree comes to a block and leaves it.
//!
//! For other texts of a configured device, [`nets_in`] and [`clock_of`] are the nets that come to a
//! BLE, [`push_table_bits`] appends the bits of its table, and [`latch_driving`] and
//! [`latch_words`] say what its latch is.
#![tactic(auto)]

mod bits;
mod ble_lines;
mod ble_places;
mod block_lines;
mod cells;
mod design;
mod feeds;
mod global_lines;
mod latch_text;
mod line_bytes;
mod nodes;
mod pins;
mod row_values;
mod switch_lines;
mod text;
mod words;
mod written;

pub use ble_lines::push_table_bits;
pub use cells::latch_driving;
pub use design::Design;
pub use feeds::{clock_of, nets_in};
pub use latch_text::{LatchWords, latch_words};
pub use pins::{pin_in, pin_out};
pub use switch_lines::push_switches;
pub use text::configuration_text;
pub use written::{Unwritten, write_configuration};
