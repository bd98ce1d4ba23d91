//! The architecture file: what a device consists of.
//!
//! [`read_arch`] reads a text of VPR 4.30's architecture file, limited to what devices of this
//! profile have, and returns the [`Arch`] of a device with a given number of tracks. A text that
//! isn't lawful has an [`ArchFault`]: the text's size is checked first, then its splitting into
//! lines, then the lines themselves, and last what is missing at the end. Of the lines' faults it
//! is one of the first line that has any, and of that line's the one with the least number.
//!
//! The definition in `specs/` lists all faults of a text and takes the least; the code reads the
//! lines once and stops at the first line that has a fault.
//!
//! [`SharedArch`] is an architecture with many owners.
#![tactic(auto)]

mod arch;
mod draft;
mod fault;
mod pin_line;
mod reader;
mod segment;
mod shared;
mod values;
mod words;

pub use arch::{
    Arch, MAX_CLUSTER_SIZE, MAX_INPUTS, MAX_IO_RAT, MAX_LUT_SIZE, MAX_PINS, MAX_TRACKS, Pin,
    PinClass, Pins, Sides,
};
pub use fault::{ArchError, ArchFault, ArchFaultKind, ArchKeyword};
pub use reader::read_arch;
pub use shared::SharedArch;
