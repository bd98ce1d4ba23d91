//! The tools of the desk that begin with a netlist or make one.
//!
//! - [`route`] packs, places and routes one netlist on a device of its own, and writes its files.
//! - [`script`] prints the lines of one tenancy around a netlist.
//! - [`random`] prints a script with random circuits, to measure the service with.
#![tactic(auto)]

mod device_use;
mod extra_files;
mod json_summary;
mod overuse;
mod page_file;
mod path_facts;
mod path_lines;
mod pin_words;
mod pinned_route;
pub mod random;
mod refusals;
pub mod route;
mod route_job;
pub mod route_options;
mod route_size;
pub mod route_wishes;
mod routed_design;
mod routed_json;
mod routed_table;
mod saved_files;
pub mod script;
mod silence;
