//! The configuration of a layout: what a device is loaded with, so that it runs the netlist.
//!
//! `configuration_of` of `specs/Configuration.antt` is the list of typed lines that a layout is
//! configured by, and `configuration_text` of `specs/ConfigurationText.antt` is its text. There is
//! a line for each pad, for each basic logic element (BLE), for each input of one, its table and
//! its latch, for each global net, and for each switch of the fabric that is closed. No net's name
//! is in them. The pins and places are those that the routes take.
//!
//! - `laws_of_configurations`: if the layout implements its circuit, one finds, walking back over
//!   the lines from each input, clock and output pad, the place of what drives the net that the
//!   netlist names (`Configures`), and nothing else (`HasOneDriver`).
//! - `own_things`: a configuration names only what is of its strip, so two configurations on one
//!   device name nothing in common.
//! - `values_are_rows`: the table of each BLE gives what the rows of the netlist's table say.
#![tactic(auto)]

mod laws;
mod line;

pub use laws::{laws_of_configurations, own_things, values_are_rows};
pub use line::{BlePlace, Driver, Signal};
