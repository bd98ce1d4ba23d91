//! A tenant's line protocol.
//!
//! - `line_form` returns what a session's line asks: a command, nothing, or a text that follows. It
//!   takes no memory.
//! - `SessionReader` reads an input line by line and returns its items, each a line with its text;
//!   `read_items` reads an input that is in memory whole. `PendingText` is a text that is being
//!   read; `append_kept` keeps the first [`MAX_KEPT`] bytes of one.
//! - `answer` asks the core, and writes the answer to any [`line_text::Sink`]: exactly its text, or
//!   a beginning of it if the sink fails. The journal entry remains then.
//! - `end_to_end` is the law of a session: a line is answered what the service for a single user
//!   replies. `whole_session` says it of all bytes of a session, and `wait_ends` says when the
//!   steps of a `wait` end.
//! - `device_graph` makes the device's own graph, on which its jobs are stepped.
//! - `make_step` takes, steps and puts a tenancy's job; `step_and_put` steps and puts a job that
//!   was taken. `fits_own_device` is the law that the device's own graph has a window for each job
//!   that the core gives out.
//! - `write_reply`, `write_note`, `write_no_memory`, `write_refused`, `write_session_refusal` and
//!   `step_word` spell answers.
//! - In `specs/`, `SessionLines` says what a line asks, `Items` what an input asks, and
//!   `SessionText` how answers are spelled.
#![tactic(auto)]

mod asking;
mod graphs;
mod law;
mod line;
mod pending_text;
mod reading;
mod refusal;
mod steps;
mod text;
mod told;

pub use asking::answer;
pub use graphs::device_graph;
pub use law::{end_to_end, fits_own_device, wait_ends, whole_session};
pub use line::{LineForm, SessionLine, TextKind, line_form};
pub use pending_text::{MAX_KEPT, PendingText, append_kept, is_point, without_cr};
pub use reading::{SessionReader, read_items};
pub use refusal::SessionRefusal;
pub use steps::{StepOutcome, make_step, run_steps, step_and_put, window_of};
pub use text::{step_word, write_refused, write_reply, write_session_refusal};
pub use told::{Answer, write_no_memory, write_note};
