//! The front as a program: between one client and a live service.
//!
//! - [`read_line`] reads the command line.
//! - [`serve`] serves a client over any devices: where requests are handed over, and the service's
//!   output. Its contract is what the front promises.
//! - [`run_words`] does what the program's words say; [`run_line`] opens the files that a command
//!   line names, and serves.
#![tactic(auto)]

mod closing;
mod files;
mod options;
mod outcome;
mod program;
mod serving;

pub use closing::Closing;
pub use files::{LockFile, SharedRequests};
pub use options::{FrontLine, read_line};
pub use outcome::Outcome;
pub use program::{run_line, run_words};
pub use serving::serve;
