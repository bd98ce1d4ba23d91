//! The wires of a path over routed nets.
//!
//! A path goes over nets, one after another. A [`Hop`] is one of them: the nodes of the net's
//! route, and the sink at which the path leaves it. [`wires_along`] returns how many wires of
//! channels the path goes over. `Wires` in `specs/` says how they are counted.
#![tactic(auto)]

mod depths;
mod hops;

pub use hops::{Hop, wires_along};
