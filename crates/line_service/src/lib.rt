//! A service that answers lines, over a dialogue: each line is answered before the next one is
//! taken, and after it is kept.
//!
//! - [`Answers`] is what a service can do: answer a line.
//! - [`converse`] answers the lines of a dialogue's input as they come.
//! - [`laws_of_lines`] are the laws of lines that are answered one after another.
//! - In `specs/`, `Conversation` says what is written at each moment.
#![tactic(auto)]

mod answers;
mod conversation;
mod laws;
mod turn;

pub use answers::Answers;
pub use conversation::{ConversationEnd, converse};
pub use laws::laws_of_lines;
