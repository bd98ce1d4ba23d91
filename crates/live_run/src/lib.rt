//! The live service as a program over a dialogue.
//!
//! - [`read_options`] reads the command line. [`RESULTS_VERSION`] is that of what lines are
//!   answered. [`first_line`] is the line that a log begins with.
//! - [`serve`] serves the lines of a dialogue as they come, after those of a log if there is one.
//! - [`run_line`] serves as a command line says. [`Outcome`] says how a service ended.
//! - [`log_at`] opens a log, as what it kept ([`LogLines`]) and what comes ([`KeptLog`]). A log
//!   that another service still writes is followed, if that is wanted.
//!   [`LogDifference`] says in what a file is another log.
//! - [`LockLog`] keeps a log to one service at a time.
//! - [`changed_line`] is the first line of a log whose sum differs.
//! - [`is_told`] says the replies to which of the log's lines are written at a start.
//! - [`say_ready`] says that a service is ready. [`Warnings`] are those that it is nearly full.
//! - [`WholeLines`] is an input that tells of a last line without its end.
#![tactic(auto)]

mod beginning;
mod differing;
mod following;
mod kept_log;
mod log_file;
mod log_lines;
mod log_lock;
mod options;
mod outcome;
mod program;
mod reading;
mod ready;
mod restart;
mod retelling;
mod serving;
mod streams;
mod sums;
mod warnings;
mod watched;
mod whole_bytes;
mod whole_lines;

pub use beginning::first_line;
pub use differing::LogDifference;
pub use kept_log::KeptLog;
pub use log_lines::LogLines;
pub use log_lock::LockLog;
pub use options::{CommandLine, Options, RESULTS_VERSION};
pub use outcome::Outcome;
pub use program::{log_at, read_architecture, run_line};
pub use reading::read_options;
pub use ready::say_ready;
pub use retelling::is_told;
pub use serving::serve;
pub use sums::changed_line;
pub use warnings::Warnings;
pub use whole_bytes::whole_part;
pub use whole_lines::{NO_END, WholeLines};
