//! A lower bound of the number of tracks with which placed blocks can be routed: the nets that
//! cross a column need a horizontal wire over it each.
#![tactic(auto)]

mod crossing;
mod law;

pub use crossing::{Crossing, busiest_column};
pub use law::{few_cross, few_cross_at_end};
