//! The law that each job ends after few steps, with numbers.
#![tactic(auto)]

mod law;

pub use law::steps_are_few;
