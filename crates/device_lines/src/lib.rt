//! What the service's program prints of the device: its tenancies, and who owns which wire, pin and
//! pad.
//!
//! [`read_device`] reads the operator's section with the lines of `op list` and of `op owners`. The
//! last ones count, and both must follow the last change of the device. A line in the wrong form,
//! or one that doesn't fit the others, is refused with its number.
//!
//! It is proved that `read_device` returns exactly the device that `device_in` of
//! `specs/Reading.antt` defines, or the first fault, and that each node is in its owner's strip.
#![tactic(auto)]

mod changes;
mod device;
mod fault;
mod foreign;
mod lines;
mod list_line;
mod owned_line;
mod reader;
mod replies;
mod size;
mod tenancy;
mod words;

pub use device::{ListedDevice, OwnedResource};
pub use fault::{DeviceError, DeviceFault, InputFault};
pub use reader::read_device;
pub use size::DeviceSize;
pub use tenancy::Tenancy;
