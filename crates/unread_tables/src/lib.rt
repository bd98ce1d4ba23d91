//! The tables of a circuit that drive nothing that is read.
//!
//! Such a table does nothing, and takes a BLE all the same. [`unread_tables`] counts them. `Unread`
//! in `specs/` says which nets are read.
#![tactic(auto)]

mod counting;
mod reads;

pub use counting::unread_tables;
