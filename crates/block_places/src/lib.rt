//! The blocks of a packed circuit and the places of a strip: the kind of place that a block needs,
//! whether there are enough for all blocks, and what a placement of all blocks is.
//!
//! [`kind_of`] returns the kind. [`fit_of`] compares blocks with places, by arithmetic and without
//! memory. `ArePlaced` means that a list of places has for each block, by its number, a place of
//! its kind in the strip, and that no two blocks have the same place. Placing ends with such a
//! list, and routing begins with one.
#![tactic(auto)]

mod fit;
mod kind;

pub use fit::{Fit, fit_of};
pub use kind::kind_of;
