//! How much of a device a circuit uses.
//!
//! [`circuit_use`] counts a circuit's BLEs, latches and global nets, and how many BLEs a device
//! has. [`write_use`] writes these, the used blocks, pads and wires, and the circuit's tables by
//! their number of inputs: a line each, in per cent of what the device has.
//! [`lacking_on`] says which of blocks and pads have too few places on a device: on one that is a
//! column or a row too small this is what sets the size.
#![tactic(auto)]

mod counting;
mod lacking;
mod text;

pub use counting::{CircuitUse, circuit_use};
pub use lacking::{Lacking, lacking_on, write_lacking};
pub use text::{DeviceUse, write_use};
