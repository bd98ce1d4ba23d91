//! The promises of the service on one page, and the program over any reader and writer.
//!
//! - [`serve`] serves a script. Its clauses are the promises, in order.
//! - [`serve_in_order`] serves it without workers, and [`run_in_order`] does what a command line
//!   without workers says. They wait for nothing but the reader and the writer.
//! - [`run_program`] is the program: it reads its words, serves the script, and returns the status.
#![tactic(auto)]

mod command;
mod either;
mod given_architecture;
mod in_order;
mod page;
mod program;

pub use command::{run_line, run_words};
pub use in_order::{run_in_order, serve_in_order};
pub use page::serve;
pub use program::run_program;
