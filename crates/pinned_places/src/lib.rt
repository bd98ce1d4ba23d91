//! Puts the pads of named inputs and outputs on the places that are wanted for them.
//!
//! [`pin_pads`] takes a circuit that is placed, and pins: names with places. Pin by pin, the pad
//! with the name and the block on the wanted place exchange their places; if the place is free, the
//! pad moves there. The result is a placing of the same circuit on the same strip, in which each
//! pin's pad is on its place. A pin that can't be met is refused, with its line: a [`PinFault`].
//! `specs/Pads.antt` defines the pads and the refusals, `specs/Exchanges.antt` the places.
#![tactic(auto)]

mod exchange;
mod fault;
mod pads;
mod pinning;
mod placed;

pub use fault::{PinFault, PinFaultKind, PinsError};
pub use pads::FixedPad;
pub use pinning::pin_pads;
