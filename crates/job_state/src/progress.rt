//! How far a job is.
use pathfinder::Overuse;

/// How far a job is after a step.
#[derive(Clone, Copy, PartialEq, Eq)]
pub enum Progress {
    /// A packing goes on. These are its circuit's tables and latches; it makes at most as many
    /// clusters as the two together.
    Packing {
        tables: usize,
        latches: usize,
    },
    /// A packing is whole: its clusters, the pads beside them, and the nets between blocks.
    Packed {
        clusters: usize,
        pads: usize,
        nets: usize,
    },
    /// A placing goes on or is whole: the cost of its places.
    Placing {
        cost: u64,
    },
    /// A routing goes on: nodes are overused.
    Routing(Overuse),
    /// A routing found its routes.
    Routed,
    /// A routing was given up after its last iteration.
    GaveUp,
    /// A routing found no path for a net.
    NoPath,
}
