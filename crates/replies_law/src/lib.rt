//! Laws about what a run writes.
//!
//! - `replies_are_read`: it is read back, each line with its own reply, whatever names and nets the
//!   tenants choose.
//! - `own_lines_alone`, `alone_on_its_strip`: a name's section depends on its own lines alone.
//! - `one_output`: a script has one output.
#![tactic(auto)]

mod law;

pub use law::{alone_on_its_strip, one_output, own_lines_alone, replies_are_read};
