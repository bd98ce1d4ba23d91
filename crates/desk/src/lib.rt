//! The desk: tools for those who write scripts for the service and read what it printed, each
//! called by its name.
//!
//! - `script` prints the lines of one tenancy around the netlist on its input; no line of the
//!   netlist can be taken for a command.
//! - `files` saves the result files which the service printed for a script, and prints each line
//!   beside its reply.
//! - `route` packs, places and routes one netlist on a device of its own, and writes its files.
//! - `check` says whether three files, whoever wrote them, implement a netlist.
//! - `configure` prints what a device is loaded with so that it runs the netlist, from such files.
//! - `strip` draws one tenancy from its three files.
//! - `picture` draws the device from what the service printed. `report` says how full it is, and
//!   the longest paths of its tenancies if it reads the script too.
//! - `page` prints one HTML file with the device and its tenancies, for a browser.
//! - `random` prints a script with random circuits, to measure the service with.
//! - `log` makes the log of a live service shorter.
//! - `completion` prints a script for a shell, and `man` a page of the manual, from the same table.
//!
//! [`run_words`] reads a program's words and does what they ask, over any input and output.
//! [`Outcome`] says how it ended, by a status and a message.
#![tactic(auto)]

mod errand;
mod run;
mod tools;

pub use desk_common::{FileRole, Outcome};
pub use run::{Streams, run_words};
