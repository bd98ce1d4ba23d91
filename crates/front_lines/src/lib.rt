//! A front of a live service: it hands over what one client says, with the client's tag, and hands
//! the replies back.
//!
//! - [`Speaker`] is who the client speaks as: a tenant, or the operator.
//! - [`ClientText`] separates a client's lines into commands. A netlist is one command.
//! - [`Requests`] is where commands are handed over, and [`Service`] asks a service by them.
//! - [`serve_client`] serves a client, whose lines come from a dialogue.
//! - [`only_own_lines`] is the law: whatever a client says, each line that is handed over has its
//!   tag.
//! - In `specs/`, `Speakers` says what is whose, `Commands` what lines hand over, `Exchanges` what
//!   the client is answered, and `Serving` what holds whenever a front ends.
#![tactic(auto)]

mod client_text;
mod exchange;
mod law;
mod lines_read;
mod refusal;
mod service;
mod serving;
mod speaker;

pub use client_text::{ClientText, MAX_COMMAND, MAX_OPERATOR, MAX_TEXT, Stage, Taken};
pub use law::only_own_lines;
pub use refusal::Refusal;
pub use service::{FrontStop, Requests, Service};
pub use serving::serve_client;
pub use speaker::Speaker;
