//! An input that a line ends.
//!
//! [`UntilEnd`] is a source up to its first line `op end`. In `specs/`, `UntilEnd` says what is
//! before that line.
#![tactic(auto)]

mod until_end;

pub use until_end::UntilEnd;
