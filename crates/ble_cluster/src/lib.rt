//! The tables and latches of a circuit as basic logic elements (BLEs), and clusters of these, as
//! T-VPack makes them.
//!
//! - `Bles` are the BLEs of a circuit; `first_unfit` finds one that doesn't fit into a cluster
//! alone.
//! - `FreeBles` makes clusters of the free BLEs, one after another.
//! - `NetSet` is a set of nets.
#![tactic(auto)]

mod additions;
mod ble_index;
mod bles;
mod candidates;
mod first_free;
mod fit;
mod free_bles;
mod growing_cluster;
mod keys;
mod net_set;
mod pins;
mod readers;
mod shared_nets;

pub use bles::{Ble, Bles};
pub use fit::first_unfit;
pub use free_bles::FreeBles;
pub use net_set::NetSet;
