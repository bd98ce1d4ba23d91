//! Reads scripts, and writes what they are answered.
//!
//! - `read_script` reads a script into its acts, or returns the number of its first faulty line.
//!   Each line is an operator's or a session's, empty, or a comment; an upload includes its text.
//! - `read_threaded` reads a script as threads run it: the operator's lines before all sessions,
//!   the input of each name's session, and the operator's other lines.
//! - `is_name` checks whether bytes may be a tenancy's name.
//! - `cut_text` cuts off the text at the start of a script, up to a line that is only `.`.
//! - `RunReplies` has the answers to a script, and writes them section by section.
//! - In `specs/`, `Script` defines the act of each line, `Threaded` the parts of a script on
//!   threads, `Texts` the end of a text, and `Replies` the text of the answers.
#![tactic(auto)]

mod act;
mod form;
mod inputs;
mod name;
mod operator_line;
mod replies;
mod script;
mod texts;
mod threaded;

pub use act::Act;
pub use inputs::SessionInput;
pub use name::is_name;
pub use operator_line::OperatorLine;
pub use replies::{RunReplies, SessionReplies};
pub use script::{Script, ScriptError, read_script};
pub use texts::{Cut, cut_text};
pub use threaded::{ThreadedScript, read_threaded};
