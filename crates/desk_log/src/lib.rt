//! The tool of the desk that makes the log of a live service shorter.
//!
//! In `specs/`, `Printed` says what is printed.
#![tactic(auto)]

mod log_tool;
mod printing;

pub use log_tool::{LogWishes, TOOL, run, wishes_of};
