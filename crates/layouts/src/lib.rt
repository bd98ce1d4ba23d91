//! Layouts as values of the program: what the three result files of a circuit say, with each net by
//! its number in the circuit.
//!
//! A [`Layout`] has the nets on the global network, the blocks ([`LaidBlock`]) and the nets between
//! them ([`LaidNet`]). The value of each type, as clauses see it, is the record of the same name in
//! `implements`; a reader lends a part as a slice, whose value is that part's list.
#![tactic(auto)]

mod ble;
mod block;
mod layout;
mod net;

pub use ble::LaidBle;
pub use block::LaidBlock;
pub use layout::Layout;
pub use net::{LaidNet, LaidPath};
