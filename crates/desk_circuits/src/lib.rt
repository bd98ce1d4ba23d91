//! The circuits of netlists, as the tools of the desk tell of them: warnings, the longest path, and
//! what each name of a script used. And the fields of tables.
#![tactic(auto)]

mod channel_json;
mod csv;
mod latches;
mod longest;
mod loop_line;
mod path_json;
mod path_line;
mod path_text;
mod usages;
mod usages_json;
mod warnings;
mod wires;

pub use channel_json::write_channel;
pub use csv::{write_numbers, write_quoted};
pub use longest::{MeasuredCircuit, measure};
pub use path_json::write_circuit_members;
pub use path_text::{write_netlist_stops, write_path_stops, write_present_stops};
pub use usages::{NameFacts, facts_of, present_circuit, print_usages, write_longest, write_path};
pub use usages_json::{LineCounts, usages_text};
pub use warnings::warn_of_netlist;
pub use wires::{name_of, stops_on};
