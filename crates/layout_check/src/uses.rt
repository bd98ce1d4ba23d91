//! How many nets use each node.
ghost use Rattle.std.specs.Prelude.{◌≡◌, ◌+◌, ◌<◌, ◌≤◌, ◌^◌, ℕ, All, MatchOption, length, slice_index, if◌then◌else◌};
ghost use Rattle.layout_check.specs.Prelude.{capacity_of, graph_of};
ghost use Rattle.layout_check.specs.Marks.{IsClear, IsSetOf, is_in};

use crate::marks::Marks;
use rr_graph::{Fabric, StripGraph};

/// Counts one more use of each of the nodes, however often it occurs. Uses the empty set.
pub(crate) fn count_uses(nodes: &[usize], marks: &mut Marks, uses: &mut Vec<u64>)
    requires within { All (λ node. node < length marks.old) nodes.now }
    requires room { length uses.old.items ≡ length marks.old }
    requires few { (k : ℕ) → slice_index uses.old.items k + 1 < 2 ^ 64 }
    requires clear { IsClear marks.old }
    ensures long { length marks.new ≡ length marks.old }
    ensures room { length uses.new.items ≡ length uses.old.items }
    ensures exact { IsSetOf nodes.now marks.new }
    ensures counted { (k : ℕ) → k < length uses.old.items →
        slice_index uses.new.items k ≡ slice_index uses.old.items k + (if is_in marks.new k then 1 else 0) }
{
    for node in nodes {
        if !marks.contains(*node) {
            marks.insert(*node);
            uses[*node] += 1;
        }
    }
}

/// The first node that more nets use than it can carry.
pub(crate) fn first_overused(graph: &Fabric, uses: &[u64]) -> Option<usize>
    requires { length uses.now ≡ (graph_of graph.now).count }
    ensures { MatchOption result
        ((k : ℕ) → k < (graph_of graph.now).count → slice_index uses.now k
        ≤ capacity_of graph.now.arch graph.now.strip ((graph_of graph.now).node k))
        (λ k. (k < (graph_of graph.now).count)
        × (capacity_of graph.now.arch graph.now.strip ((graph_of graph.now).node k) < slice_index uses.now k)) }
{
    for k in 0..graph.count() {
        if uses[k] > StripGraph::capacity(graph, k) as u64 {
            return Some(k);
        }
    }
    None
}
