//! The positions of the tenants' strips on the device.
//!
//! A strip is a run of neighbouring columns, over all rows. At least one column between two strips
//! stays unused, so that no wire of one strip reaches the pins of another. A strip fits at an
//! offset if this still holds; `first_fit` finds the least such offset, if there is one.
//!
//! The device has one routing graph, the [`DeviceGraph`]. A strip reads it through its [`Window`],
//! which shows the graph of the strip's own columns as if there were no others; [`laws_of_windows`]
//! says how the strip's graph lies in the device's.
//!
//! A [`StripPlan`] holds up to [`MAX_STRIPS`] strips in itself: no call takes memory.
#![tactic(auto)]

mod layout;
mod placed_strip;
mod shifting;
mod window;

pub use layout::{MAX_STRIPS, NoRoom, StripPlan};
pub use placed_strip::PlacedStrip;
pub use shifting::{laws_of_windows, shift, unshift};
pub use window::{DeviceGraph, Window};
