//! Reads back what the service's program printed for the lines of a script. Files in it may contain
//! any bytes.
//!
//! The printed text is the operator's section and those of the names in the order of their first
//! lines; a section is a heading `== NAME` and the replies to its speaker's lines. The length of a
//! reply follows from its form and its bytes alone: a line, a number of lines, or a line
//! `text KIND LENGTH` and exactly LENGTH bytes. No heading is ever searched for.
//!
//! - [`read_replies`] takes the lines of a script and returns each with its reply, or the line of
//!   the printed text that doesn't fit. It returns exactly what `replies_in` of
//!   `specs/Replies.antt` defines.
//! - [`printed_is_read`] is the law that reading undoes printing, whatever the replies contain.
//! - [`Replies::names`] are the names of the sessions in that order, and [`Replies::places_of`] the
//!   places of a session's lines.
//! - [`file_in`] is the file in a reply.
#![tactic(auto)]

mod answered;
mod asked;
mod file;
mod law;
mod length;
mod reading;
mod replies;
mod sections;

pub use answered::Answered;
pub use asked::{Asked, ReplyForm};
pub use file::file_in;
pub use law::printed_is_read;
pub use reading::{ReplyError, read_replies};
pub use replies::Replies;
