//! A script with workers: its sessions on threads of their own, beside threads that step the jobs.
//!
//! [`serve_on_threads`] serves the operator's lines before all sessions; then each name's session,
//! the sessions of names that aren't live at once and the others on a thread each, beside the
//! workers. After all of them have ended and their answers are settled, jobs that are left make
//! their steps, and the operator's other lines are served. In `specs/`, `Served` says what is
//! answered.
#![tactic(auto)]

mod crowd;
mod finish;
mod law;
mod left_jobs;
mod operator_lines;
mod part;
mod refusals;
mod running;
mod seated;
mod serving;
mod setup;
mod unserved;

pub use law::{full_stays, none_is_left, one_run, receipts_stand, threads_go_on};
pub use serving::serve_on_threads;
pub use unserved::Unserved;
