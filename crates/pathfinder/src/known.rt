//! Paths that are known before a search.
ghost use Rattle.std.specs.Prelude.{◌≡◌, true};
ghost use Rattle.pathfinder.specs.Prelude.{Graph, IsPath};
ghost use Rattle.pathfinder.specs.Tables.{AreJoined};

/// Whether the nodes lead from one of the starts to the goal, if an edge leads from each of them to
/// the next one.
pub(crate) fn is_path(starts: &[usize], goal: usize, nodes: &[usize]) -> bool
    ensures { (graph : Graph) → AreJoined graph.ends nodes.now → result ≡ true →
        IsPath graph starts.now goal nodes.now }
{
    if nodes.len() == 0 || nodes[nodes.len() - 1] != goal {
        return false;
    }
    starts.contains(&nodes[0])
}
