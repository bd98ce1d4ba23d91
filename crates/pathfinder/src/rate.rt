//! The part of a node's cost in an iteration that doesn't depend on the trees.
ghost use Rattle.std.specs.Prelude.{◌≡◌, ◌+◌, ◌-◌, ◌*◌};
ghost use Rattle.pathfinder.specs.Limits.{MayCost};

/// The part of a node's cost that doesn't depend on its occupancy.
#[derive(Clone, Copy)]
pub(crate) struct NodeCost {
    /// Its accumulated overuse plus one.
    pub(crate) factor: u32,
    /// The number of nets that it can carry.
    pub(crate) capacity: u32,
}

/// The cost of a node after this number of iterations, with this occupancy.
#[inline(always)]
pub(crate) fn price(rate: NodeCost, iterations: u32, held: u32) -> u64
    requires { MayCost iterations held }
    ensures { result ≡ rate.factor * (1 + iterations * (held + 1 - rate.capacity)) }
{
    let overused = (held + 1).saturating_sub(rate.capacity);
    rate.factor as u64 * (1 + iterations as u64 * overused as u64)
}
