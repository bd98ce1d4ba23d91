//! The workers beside the core under its lock.
//!
//! - [`run_worker`] serves the numbers of the ready queue, each by one step of a job: taken and put
//!   under the lock, made without it. If memory runs out it pauses and tries again; after 16 steps
//!   in a row without memory it gives the number up.
//! - A [`Gate`] is called before and after each step.
//! - [`start_workers`] starts a thread for each share and seat, and [`join_workers`] joins them.
//!
//! Not promised: that a step is made, which worker makes it, and when.
#![tactic(auto)]

mod gate;
mod lack;
mod pool;
mod threads;
mod turns;
mod worker;

pub use gate::{Gate, Open};
pub use pool::Pool;
pub use threads::{Worker, join_workers, start_workers};
pub use worker::run_worker;
