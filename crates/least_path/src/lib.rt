//! Least paths in directed graphs with a cost at each node: what they are, and laws of them.
//!
//! Among all paths from some starts to a goal, the least is the one with the least sum of costs,
//! without the start's; of several, the first in the lexicographic order of their nodes. As a
//! function of a graph, `least_path` finds it among all short paths. Searches that find it at a
//! price that one can pay are in other crates, which promise that they find this one.
#![tactic(auto)]

mod ends;
mod lower_bound;
mod path;

pub use ends::Ends;
pub use lower_bound::lower_bound_law;
pub use path::{Path, least_path_law};
