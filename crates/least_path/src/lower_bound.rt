//! The law of lower bounds.
ghost use Rattle.std.specs.Prelude.{◌<◌, ℕ, Option};
ghost use Rattle.least_path.specs.Graph.{Graph, IsLawful};
ghost use Rattle.least_path.specs.LowerBound.{IsLowerBound, IsConsistent};

/// Bounds that are 0 at the goal, and decrease along no edge by more than the cost of the edge's
/// end, are lower bounds: a way to the goal costs at least the bound of its first node.
pub fn lower_bound_law()
    ensures { (g : Graph) (goal node : ℕ) (bound_at : ℕ → Option ℕ) →
        IsLawful g → IsConsistent g goal bound_at → node < g.count →
        IsLowerBound g goal node (bound_at node) }
{}
