//! How a routing ended.
use pathfinder::Routes;

/// How a routing ended. Nets are numbered as in the packed circuit.
#[derive(Clone, Copy)]
pub enum RoutingEnd<'a> {
    /// With these routes.
    Routed(&'a Routes),
    /// It was given up after its last iteration.
    GaveUp,
    /// The net of that number has no path.
    NoPath(u32),
}
