//! The starts of a search of a plane.
ghost use Rattle.std.specs.Prelude.{◌≤◌};
ghost use Rattle.plane_search.specs.Starts.{places_of};
ghost use Rattle.plane_search.specs.Walk.{AreNoCheaper, AreOrderedStarts};

use crate::planes::{Planes, Start};
use crate::reach::View;

/// A plane, and where paths may begin in it.
#[derive(Drop)]
pub(crate) struct Starts<'a, P: Planes> {
    pub(crate) view: &'a View<'a, P>,
    /// In rising order.
    pub(crate) list: &'a [Start],
    /// No path from them costs less. At least 1.
    pub(crate) bound: u64,
    ghost ordered: { AreOrderedStarts ((P.family view.now.planes.now).plane view.now.track)
        (P.family view.now.planes.now).exit list.now },
    ghost least: { AreNoCheaper ((P.family view.now.planes.now).plane view.now.track)
        (P.family view.now.planes.now).exit bound (places_of list.now) },
    ghost some: { 1 ≤ bound },
}
