//! The service as a program over a script.
//!
//! - `read_options` reads the command line.
//! - `run_script` reads a script, checks it whole, serves it in order and writes the replies: the
//!   operator's, then each session's. `run_on_threads` serves it on threads beside as many workers
//!   as the options say. `Outcome` says how it ended, by a status and a message.
//! - In `specs/`, `Run` says what the acts of a script are answered, `Program` what is written and
//!   how a run ends, and `OnThreads` what is written beside workers.
#![tactic(auto)]

mod in_order;
mod inputs;
mod on_threads;
mod options;
mod outcome;
mod program;
mod sections;

pub use inputs::Architecture;
pub use options::{CommandLine, Options, read_options};
pub use outcome::Outcome;
pub use program::{run_on_threads, run_script};
