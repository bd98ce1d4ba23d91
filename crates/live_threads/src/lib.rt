//! A live service with workers: one thread serves, another one reads, and others make the steps of
//! jobs.
//!
//! - The thread that serves has the machine, the log and the output in its own hand, so no other
//!   thread can come between. It takes the lines that have come and the steps that were made, keeps
//!   all of that by one flush, and then tells the replies.
//! - The thread that reads cuts the input into lines and puts them into a ring, at most 16 texts of
//!   them. Workers take steps to make from a queue, and put them into a mailbox when they are made.
//! - [`run_program`] is the program, with workers or without: it reads its words, serves, and
//!   returns the status. [`run_words`] is the same for words that could be read, and returns how
//!   the run ended.
//! - [`Outlet`] is where a service keeps and tells. [`Devices`] is one over a log and an output.
#![tactic(auto)]

mod crew;
mod fault;
mod letters;
mod mailbox;
mod opened;
mod orders;
mod outlet;
mod program;
mod reader;
mod replaying;
mod running;
mod serving;
mod steps;
mod threaded;
mod watch;
mod worker;

pub use outlet::{Devices, Outlet};
pub use program::{ProgramEnd, ProgramRun, run_program, run_words};
