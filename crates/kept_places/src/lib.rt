//! Places that are kept for blocks: a map from a block's key, its kind and its name, to a place.
//!
//! [`Kept`] is such a map with many owners, who share one copy. Its value is the list of its
//! entries in the order of kinds and names, so two maps are the same if and only if their values
//! are equal. It is built once, from all its entries, and is asked for the place of a block.
#![tactic(auto)]

mod kept;
mod table;

pub use kept::Kept;
pub use table::KeptPlace;
