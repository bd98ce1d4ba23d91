//! What sessions and workers report is compared with the journals, once their threads have ended.
//!
//! [`settle`] takes the core, the transcript of each lease that was given and each share that was
//! given. If it returns a [`Settled`], then the receipts of a transcript are the marked entries of
//! its tenancy's journal, with place, command and reply, all of them, each once; a journal is full
//! if its transcript says so; the put entries of all journals are as many as the sum of the shares
//! and the core's own count; and the service goes on from the one that the core was made with.
//! Otherwise it hands all back, with the first cause. It takes no memory.
#![tactic(auto)]

mod comparing;
mod counting;
mod filling;
mod not_settled;
mod settled;

pub use not_settled::{Cause, NotSettled};
pub use settled::{Settled, settle};
