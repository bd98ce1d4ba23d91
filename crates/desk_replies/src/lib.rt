//! The tools of the desk that read what the service printed.
//!
//! - [`files`] saves the result files which the service printed for a script, and prints each line
//!   beside its reply.
//! - [`picture`] draws the device. [`report`] says how full it is, and the longest paths of its
//!   tenancies if it reads the script too, and where those that are Unrouted are overused.
//! - [`page_tool`] prints one HTML file with the device and its tenancies, for a browser.
#![tactic(auto)]

mod crowding_json;
mod device_input;
pub mod files;
mod files_text;
mod layout_wish;
mod lines;
mod outdated;
mod overuse;
mod page_items;
mod page_texts;
pub mod page_tool;
pub mod picture;
pub mod report;
mod report_facts;
mod report_json;
mod report_moves;
mod report_paths;
mod saved_accounts;
mod script_input;
mod shared_device;
mod size;
mod states;
mod tenancy_table;
mod tenants;

pub use size::size_of;
