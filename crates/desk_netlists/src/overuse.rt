//! Where a netlist that was left without routes is overused.
use crate::route_job::RouteJob;
use crate::route_wishes::Tracks;
use line_text::Sink;
use one_user::{crowding_with, write_crowding};
use std::alloc::Global;

/// Writes the most overused nodes after the last iteration of a routing that was given up, and the
/// nets on them. What can't be written, or finds no memory, is skipped.
pub(crate) fn tell_overuse<E: Sink>(alloc: Global, job: RouteJob<'_>, teller: &mut E) {
    let Some(Tracks { number, .. }) = job.wishes.tracks else {
        return;
    };
    if let Ok(Some(crowding)) = crowding_with(alloc, job.plan(), number, job.request) {
        let _ = write_crowding(teller, &crowding);
    }
}
