//! Whether a layout implements a circuit, whoever made it.
//!
//! [`check_layout`] decides each clause of `Implements` (`implements`). It returns the first thing
//! that is wrong, as [`Wrong`], whose cases say in `specs/` what they mean.
//!
//! - Blocks by themselves: places and room ([`BlockFault`]), and the inputs, clock and output pin
//!   of each basic logic element (BLE, [`BleFault`]).
//! - Between blocks: places that differ, ports, global nets, one entry for each net that is wanted.
//! - What BLEs hold ([`HoldFault`]): each is a table, a latch, or a table with the latch that alone
//!   reads it, and each table and each latch is in exactly one.
//! - Entries ([`EntryFault`]): the block that drives the net, the blocks that are listed with a
//!   global net, and the paths ([`RouteFault`]).
//! - Nodes in the trees of too many nets ([`NetFault`]).
//!
//! The BLEs are traced, each input followed to the net that comes to it. What a traced BLE holds is
//! found by the net that it drives, in a list of the tables and latches by net, so no BLE is
//! compared with all tables.
//!
//! The blocks are grouped by the nets that they drive and that are wanted at them, in one pass over
//! their pins and BLEs, so no net is looked for in all blocks.
//!
//! A net's paths are tested by the numbers of their nodes, with sets that are cleared at once:
//! each node has one predecessor, the source leads to each node, one node is an output pin, and the
//! nodes from which no path leads on are the sinks.
#![tactic(auto)]

mod apart;
mod bles;
mod blocks;
mod check;
mod drivers;
mod elements;
mod entry;
mod fault;
mod globals;
mod held;
mod holding;
mod inside;
mod lists;
mod marks;
mod net_blocks;
mod nets;
mod numbered;
mod once;
mod owners;
mod paths;
mod ports;
mod reads;
mod receives;
mod route;
mod routes;
mod trees;
mod uses;
mod wanted;
mod work;

pub use check::check_layout;
pub use fault::{
    BleFault, BleNumber, BlockFault, EntryFault, HoldFault, NetFault, ReadFault, RouteFault, Wrong,
};
