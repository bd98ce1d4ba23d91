//! Items that wait for their turn, up to a bound.
//!
//! [`Backlog`] hands items out in the order in which they were put. An item beyond the bound is
//! lost, and so is each one after it until all that was lost has been handed out: at its turn, the
//! taker learns that. In `specs/`, `Waiting` has the definitions.
#![tactic(auto)]

mod backlog;

pub use backlog::{Backlog, MAX_ITEMS, MAX_WEIGHT, Turn, Weighs};
