//! A live service over a dialogue: each line is kept, then answered, and its reply is written
//! before more is read.
//!
//! - [`LiveLines`] is a live service that answers lines, and [`serve_lines`] serves the lines of a
//!   dialogue's input as they come.
//! - [`input_law`] is the law about the items of one name in an input, [`served_law`] the one about
//!   all lines that were served.
//! - In `specs/`, `Serving` says what a line is answered.
#![tactic(auto)]

mod law;
mod lines;
mod serving;

pub use law::{input_law, served_law};
pub use lines::LiveLines;
pub use serving::serve_lines;
