//! Least paths in a graph that consists of planes, plane by plane.
//!
//! In a fabric whose switch blocks keep the track, a path never leaves the track of its first wire.
//! So the graph consists of planes, one for each track: its wires, with the pins before and after
//! them. [`Planes`] is such a graph, with some starts and a goal. A [`PlaneSearch`] finds the same
//! path as a search of the whole graph would: the least by cost, and then in the lexicographic
//! order of the nodes.
//!
//! The planes are searched in the order of their bounds, each only if it may hold a path that is
//! less than the best one so far, and then no further than to the cost of that one. Often the best
//! one is known beforehand: the path that a net had before. If not, the least path of one plane is
//! found first.
//!
//! In a plane, a pass finds what the least path costs, and a walk along ways that may cost just
//! that finds it. If a plane's bound may be that cost, the walk comes first. Costs below 2^16 are
//! marked in narrow cells. Where paths are dearer, the same pass and walk use wide cells.
#![tactic(auto)]

mod finder;
mod heap;
mod levels;
mod marks;
mod planes;
mod queue;
mod ranking;
mod reach;
mod search;
mod starts;
mod walk;

pub use planes::{Planes, Start};
pub use ranking::PlaneSearch;
