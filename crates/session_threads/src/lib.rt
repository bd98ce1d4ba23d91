//! Sessions on threads of their own, beside the workers.
//!
//! [`run_session`] reads a session's input, asks the shared core what each item asks, and writes
//! the answers. Its transcript keeps them. A [`Session`] does so item by item.
#![tactic(auto)]

mod context;
mod input;
mod items;
mod line;
mod lines;
mod session;
mod told;
mod waiting;

pub use context::Context;
pub use items::LineOutcome;
pub use session::{Session, run_session};
pub use told::write_told;
