//! The promises of a live service on one page, and the laws that they rest on.
//!
//! - [`serve`] is the program of a live service. Its clauses are the promises, in order.
//! - [`live_promises`] is the law: the lines of a live service are answered as those of a script,
//!   so all that holds of a script's answers holds of them. [`machine_promises`] says it of a live
//!   service with workers, and [`moments_promises`] what such a service has kept and told whenever
//!   it is ended.
//! - In `specs/`, `Told`, `Moments` and `Page` say it.
#![tactic(auto)]

mod law;
mod moments;
mod page;

pub use law::{live_promises, machine_promises};
pub use live_threads::ProgramEnd;
pub use moments::moments_promises;
pub use page::serve;
