//! The input of a dialogue, line by line, as the lines come.
//!
//! [`LineFeed`] needs no read while it has a line that has come. It keeps the first
//! [`MAX_FED_LINE`] bytes of a line and drops the others. In `specs/`, `Pieces` says what is kept
//! of a line, and `Feed` what a read does.
#![tactic(auto)]

mod ahead;
mod fed_line;
mod feed;

pub use fed_line::{MAX_FED_LINE, kept_bytes};
pub use feed::LineFeed;
