//! Where a device has room, and moves of strips that join its gaps.
//!
//! - [`gaps_of`] returns the gaps: free columns side by side.
//! - [`joining_moves`] returns moves of strips to the left. The service accepts them one after
//!   another, since each is tried on a [`strips::StripPlan`], as the service does it. After them
//!   the free columns are at the right end.
#![tactic(auto)]

mod gaps;
mod joining;

pub use gaps::gaps_of;
pub use joining::{Joining, StripMove, joining_moves};
