//! The tools of the desk that read the three files of a layout.
//!
//! - [`check`] says whether the files, whoever wrote them, implement a netlist.
//! - [`configure`] prints what a device is loaded with so that it runs the netlist.
//! - [`strip`] draws one tenancy.
#![tactic(auto)]

pub mod check;
pub mod configure;
mod given_files;
mod laid_circuit;
mod layout_input;
mod refused_file;
pub mod strip;
mod strip_check;
mod strip_page;
mod strip_wishes;
mod without_routes;

pub use layout_input::{LayoutPaths, paths_of};
