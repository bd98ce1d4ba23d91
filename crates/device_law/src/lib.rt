//! The laws that what the service prints for `op list` and `op owners` is read back: each reply,
//! and a whole output.
#![tactic(auto)]

mod law;

pub use law::{list_is_read, output_is_read, owners_are_on_device, owners_are_read};
