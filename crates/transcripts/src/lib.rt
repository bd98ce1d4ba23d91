//! Transcripts: the answers to a session's items, in order.
//!
//! A [`Transcript`] holds its session's lease. It alone enters commands by the lease, and it keeps
//! the receipt of each, so it has as many receipts as the lease has entries.
#![tactic(auto)]

mod item;
mod transcript;

pub use item::{Item, ItemAnswer, SessionEnd};
pub use transcript::Transcript;
