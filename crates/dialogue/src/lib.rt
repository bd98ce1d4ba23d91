//! A dialogue: an input that is kept before it is used, and an output.
//!
//! - [`Dialogue`] is the trait. Its ghost member says what was kept and what was written, in order.
//! - [`Connection`] is a dialogue over a source, a sink and, if there is one, a log.
//! - [`Replay`] is a dialogue over a source alone: what is written to it is dropped.
//! - [`Log`] is a device that bytes are kept on. [`FileLog`] is one over a file.
//! - In `specs/`, `History` says what one sees of a dialogue.
#![tactic(auto)]

mod connection;
mod dialogue;
mod file_log;
mod log;
mod replay;

pub use connection::Connection;
pub use dialogue::{Dialogue, FailedDevice};
pub use file_log::FileLog;
pub use log::Log;
pub use replay::Replay;
