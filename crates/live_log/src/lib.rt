//! A shorter log for a live service, with which it goes on as with the longer one.
//!
//! - [`shorten_checked`] has a service answer the lines of a log, chooses those lines that a run
//!   needs which goes on from there, and has another service answer these. Unless both answer the
//!   same questions alike then, it returns the whole log.
//! - [`ShortLog`] writes the lines, and after them each name's last id.
//! - In `specs/`, `Choice` says what is decided of a line by its reply alone, `Kept` what is
//!   written, `LastTags` which ids are the last, `Questions` what is asked, and `Alike` what is
//!   compared.
#![tactic(auto)]

mod checking;
mod keeper;
mod last_tags;
mod marks;
mod names;
mod progress;
mod questions;
mod replies;
mod serving;
mod short_log;
mod shortening;
mod work;

pub use checking::{CheckedLog, shorten_checked};
pub use short_log::ShortLog;
