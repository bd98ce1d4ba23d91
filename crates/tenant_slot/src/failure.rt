//! Why a netlist that is placed isn't routed.

/// How a routing ended without routes.
#[derive(Clone, Copy, PartialEq, Eq)]
pub enum RoutingFailure {
    /// After the last iteration, some node is used by more nets than its capacity.
    GaveUp,
    /// The net of that number between blocks has no path to one of its readers.
    NoPath(u32),
}
