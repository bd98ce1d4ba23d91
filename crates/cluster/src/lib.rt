//! Packing: the basic logic elements (BLEs) of a circuit in clusters, as T-VPack does, and the
//! blocks, nets and pins that result.
//!
//! - `check` finds out whether each BLE of a circuit fits into a cluster alone.
//! - `Packing` makes the clusters, one in each step. `Packed` is the result, with its blocks, nets
//!   and pins; `SharedPacked` is a packed circuit with many owners.
//! - `laws_of_packing` states what placing and routing may assume of each packed circuit.
#![tactic(auto)]

mod block;
mod block_nets;
mod cluster_sets;
mod driven_nets;
mod fault;
mod laws;
mod net_uses;
mod packed;
mod packed_tables;
mod packing;
mod pin_nets;
mod pin_ranks;
mod shared;

pub use ble_cluster::{Ble, Bles};
pub use block::{Block, BlockKey, BlockKind, BlockNet};
pub use fault::{PackError, PackFault};
pub use laws::laws_of_packing;
pub use packed::Packed;
pub use packing::{PackEnd, Packing, check};
pub use shared::SharedPacked;
