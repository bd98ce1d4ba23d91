//! The law that the number of workers doesn't change what a session is answered.
#![tactic(auto)]

mod law;

pub use law::{read_the_same, same_with_workers, same_without_workers};
