//! The operator: tenancies by name, and held jobs.
//!
//! - `Operator` records which ids a name was given. `serve` executes a line of the operator and
//!   appends its reply.
//! - `HeldJobs` are the jobs that the operator took, by number.
//! - In `specs/`, `Serving` defines the effect of each line, `HeldJobs` which job a number names,
//!   and `OperatorText` how replies are spelled.
#![tactic(auto)]

mod held_job;
mod held_jobs;
mod operator;
mod owners;
mod reply;

pub use held_jobs::HeldJobs;
pub use operator::Operator;
pub use owners::push_owners;
pub use reply::{push_admitted, push_evicted, push_listed, push_moved, push_refused};
