//! The laws that one script is answered the same without workers and with them.
#![tactic(auto)]

mod law;

pub use law::{same_answers, same_in_order};
