//! The tests of a net's tree.
ghost use Rattle.std.specs.Prelude.{◌≡◌, ◌<◌, ℕ, List, All, Contains, MatchOption, false, true, ◌==◌};
ghost use Rattle.std.specs.List.{list_any};
ghost use Rattle.layout_check.specs.Prelude.{Opin, is_edge, graph_of};
ghost use Rattle.layout_check.specs.Numbered.{AreHops, AreNodes};

use rr_graph::{Fabric, NodeKind, StripGraph};

/// Whether an edge leads from the first node to the second.
fn has_edge(graph: &Fabric, from: usize, to: usize) -> bool
    requires from { from < (graph_of graph.now).count }
    requires to { to < (graph_of graph.now).count }
    ensures { result ≡ is_edge graph.now.arch graph.now.strip ((graph_of graph.now).node from)
        ((graph_of graph.now).node to) }
{
    graph.laws();
    let ends = graph.ends(from);
    if to < ends.base {
        return false;
    }
    lists(ends.list, to - ends.base)
}

/// Whether the number is in the list.
fn lists(list: &[u32], number: usize) -> bool
    ensures { result ≡ list_any (λ other. other == number) list.now }
{
    list.iter().any(|other| *other as usize == number)
}

/// The first pair that isn't an edge.
pub(crate) fn first_gap(graph: &Fabric, hops: &[(usize, usize)]) -> Option<(usize, usize)>
    requires { AreHops graph.now hops.now }
    ensures { MatchOption result
        ((a b : ℕ) → Contains hops.now (a, b) →
        is_edge graph.now.arch graph.now.strip ((graph_of graph.now).node a)
        ((graph_of graph.now).node b) ≡ true)
        (λ hop. Contains hops.now hop
        × (is_edge graph.now.arch graph.now.strip ((graph_of graph.now).node hop.0)
        ((graph_of graph.now).node hop.1) ≡ false)) }
{
    for hop in hops {
        let (from, to) = *hop;
        let is_edge = has_edge(graph, from, to);
        if !is_edge {
            return Some((from, to));
        }
    }
    None
}

/// The first of the nodes that is an output pin.
pub(crate) fn first_pin(graph: &Fabric, nodes: &[usize]) -> Option<usize>
    requires { AreNodes graph.now nodes.now }
    ensures { MatchOption result
        ((node : ℕ) → Contains nodes.now node → ((graph_of graph.now).node node).kind ≡ Opin → ⊥)
        (λ node. Contains nodes.now node × (((graph_of graph.now).node node).kind ≡ Opin)) }
{
    for node in nodes {
        if graph.node(*node).kind == NodeKind::Opin {
            return Some(*node);
        }
    }
    None
}

/// The first of the nodes that is an output pin and isn't the given one.
pub(crate) fn other_pin(graph: &Fabric, nodes: &[usize], pin: usize) -> Option<usize>
    requires { AreNodes graph.now nodes.now }
    ensures { MatchOption result
        ((node : ℕ) → Contains nodes.now node → ((graph_of graph.now).node node).kind ≡ Opin → node ≡ pin)
        (λ node. Contains nodes.now node × (((graph_of graph.now).node node).kind ≡ Opin) × (node ≡ pin → ⊥)) }
{
    for node in nodes {
        if *node != pin && graph.node(*node).kind == NodeKind::Opin {
            return Some(*node);
        }
    }
    None
}
