//! What runs on the device is what was uploaded: layouts against netlists.
//!
//! `Implements` of `specs/Implements.antt` says by tracing when blocks, pins, places and routes
//! connect the tables, latches and ports of a circuit as its netlist does. No step of packing,
//! placing or routing is in it, so whoever believes it need not read how clusters are chosen,
//! annealed and negotiated.
//!
//! - `Feed` is where an input of a basic logic element (BLE) comes from, inside its block.
//! - `laws_of_layouts`: a layout that implements a circuit connects it (`Connects`).
//! - `implements_results`: the layout of each packed, placed and legally routed circuit implements
//!   it, and so connects it.
#![tactic(auto)]

mod feed;
mod laws;

pub use feed::Feed;
pub use laws::{implements_results, laws_of_layouts};
