//! A netlist on a device of one user's own, packed, placed and routed as the service does it for a
//! single user.
//!
//! - [`OwnDevice`] is the device. [`OwnDevice::run`] executes a [`Request`] on it and returns the
//!   outcome: the three files, how the routing ended without routes, or why the netlist is refused.
//!   It writes one line for each step to a [`line_text::Sink`].
//! - [`Figures`] are what the routed circuit uses of the device; [`write_figures`] writes them.
//! - [`OwnDevice::count`] packs a netlist and counts its blocks; [`least_side`],
//!   [`least_columns`] and [`least_rows`] return the least device that has room for them.
//! - [`OwnDevice::crowding`] and [`crowding_with`] return where a routing that was given up is
//!   overused: a [`Crowding`] with the most overused nodes and the nets on them;
//!   [`write_crowding`] writes it.
//! - [`least_tracks`] finds the least number of tracks with which a netlist is routed. It searches
//!   upward, since a circuit that is routed with some number of tracks may be left unrouted with a
//!   larger one.
//! - [`run_pinned`] and [`least_pinned`] do the same for a netlist with pins: the pads that are
//!   named have the places that are wanted.
//!
//! `Outcomes` in `specs/` defines the outcome of a netlist, as a function of the single user's
//! definition. [`same_files`] is the law that connects it with the service: a tenancy that has the
//! netlist routed in this way gets these files.
#![tactic(auto)]

mod counts;
mod crowding;
mod crowding_text;
mod device;
mod figures;
mod law;
mod least;
mod left_run;
mod outcome;
mod passes;
mod pinned;
mod placed_run;
mod placing;
mod routing_end;
mod stages;
mod steps;
mod table;
mod telling;

pub use counts::{Counted, least_columns, least_rows, least_side};
pub use crowding::{CrowdedNode, Crowding};
pub use crowding_text::write_crowding;
pub use device::{OwnDevice, Request};
pub use figures::{Figures, PackedCounts};
pub use law::{places_for_all_tracks, same_files};
pub use least::{DevicePlan, Least, crowding_with, least_tracks, run_with};
pub use outcome::{Files, FlowOutcome, Run, Unrouted};
pub use pinned::{PinnedEnd, least_pinned, run_pinned};
pub use table::write_figures;
