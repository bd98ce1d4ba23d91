//! Scripts with random circuits, to measure the service with.
//!
//! A [`Plan`] has the number of tables of a circuit and the number of tenancies with one each; it
//! chooses a device on which they fit. [`write_script`] writes the whole script to a
//! [`line_text::Sink`], in small pieces and without memory, so the sink should have a buffer: the
//! architecture, and for each tenancy its admission, its netlist and its commands up to the route
//! file. [`write_netlist`] writes the netlist of its first circuit alone. A plan always gives the
//! same bytes.
//!
//! It is proved that both are safe and return, and that a plan keeps the service's limits. That a
//! circuit has a placing and a routing on its device is only tested.
#![tactic(auto)]

mod architecture;
mod circuit;
mod draws;
mod plan;
mod script;

pub use plan::{LoadParameters, MAX_TABLES, Phase, Plan};
pub use script::{write_netlist, write_script};
