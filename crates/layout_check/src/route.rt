//! Whether paths are a net's tree.
ghost use Rattle.std.specs.Prelude.{◌≡◌, ◌<◌, ℕ, List, All, Contains, MatchOption};
ghost use Rattle.layout_check.specs.Prelude.{Node, graph_of, IsRoute, HasOnePin, wiring_of};
ghost use Rattle.layout_check.specs.Marks.{IsSetOf};
ghost use Rattle.layout_check.specs.Numbered.{AreHops, AreNodes, IsNumbered};
ghost use Rattle.layout_check.specs.NumberTrees.{AreOneWay, IsFaultWithin};
ghost use Rattle.layout_check.specs.RouteFaults.{IsRouteFault};
ghost use Rattle.layout_check.specs.TreeTests.{AreAllReached, AreEdges, AreEnds, AreNumbers, HasRoom, IsFaultOf, told_fault};

use crate::fault::RouteFault;
use crate::routes::{first_gap, first_pin, other_pin};
use crate::trees::{
    HopFault, enter, first_loose, first_missing, first_present, mark_all, mark_starts, reach,
};
use crate::work::Work;
use rr_graph::{Fabric, StripGraph};

/// The fault of the hops, with nodes in place of their numbers.
fn tell_hop(graph: &Fabric, fault: HopFault) -> RouteFault
    requires { IsFaultWithin (graph_of graph.now).count fault }
    ensures { result ≡ told_fault graph.now fault }
{
    match fault {
        HopFault::IntoRoot(from) => RouteFault::IntoSource(graph.node(from)),
        HopFault::TwoHops(from, other, to) => {
            RouteFault::TwoWays(graph.node(from), graph.node(other), graph.node(to))
        }
    }
}

/// Tests that each pair is an edge, that none leads to the root, and no two to one node.
fn check_hops(
    graph: &Fabric,
    work: &mut Work,
    root: usize,
    hops: &[(usize, usize)],
) -> Option<RouteFault>
    requires room { HasRoom work.old (graph_of graph.now).count }
    requires hops { AreHops graph.now hops.now }
    ensures room { HasRoom work.new (graph_of graph.now).count }
    ensures exact { MatchOption result (AreEdges graph.now hops.now × AreOneWay hops.now root)
        (λ fault. (sinks nodes : List ℕ) → IsFaultOf graph.now root sinks nodes hops.now fault) }
{
    graph.laws();
    if let Some(hop) = first_gap(graph, hops) {
        return Some(RouteFault::NoEdge(graph.node(hop.0), graph.node(hop.1)));
    }
    work.marks.clear();
    match enter(hops, root, &mut work.marks, &mut work.parents) {
        Some(fault) => Some(tell_hop(graph, fault)),
        None => None,
    }
}

/// Tests that the root is a node, and that the pairs lead from it to each node.
fn check_reach(
    graph: &Fabric,
    work: &mut Work,
    root: usize,
    nodes: &[usize],
    hops: &[(usize, usize)],
) -> Option<RouteFault>
    requires room { HasRoom work.old (graph_of graph.now).count }
    requires root { root < (graph_of graph.now).count }
    requires nodes { AreNodes graph.now nodes.now }
    requires hops { AreHops graph.now hops.now }
    ensures room { HasRoom work.new (graph_of graph.now).count }
    ensures inside { IsSetOf nodes.now work.new.inside }
    ensures exact { MatchOption result (AreAllReached root nodes.now hops.now)
        (λ fault. (sinks : List ℕ) → IsFaultOf graph.now root sinks nodes.now hops.now fault) }
{
    graph.laws();
    work.inside.clear();
    mark_all(nodes, &mut work.inside);
    if !work.inside.contains(root) {
        return Some(RouteFault::NoSource);
    }
    work.marks.clear();
    reach(hops, root, &mut work.marks);
    match first_missing(nodes, &work.marks) {
        Some(node) => Some(RouteFault::NotReached(graph.node(node))),
        None => None,
    }
}

/// Tests that exactly one of the nodes is an output pin.
fn check_pins(graph: &Fabric, nodes: &[usize]) -> Option<RouteFault>
    requires { AreNodes graph.now nodes.now }
    ensures { MatchOption result (HasOnePin (wiring_of graph.now) nodes.now)
        (λ fault. (root : ℕ) (sinks : List ℕ) (hops : List (ℕ × ℕ)) →
        IsFaultOf graph.now root sinks nodes.now hops fault) }
{
    graph.laws();
    let Some(pin) = first_pin(graph, nodes) else {
        return Some(RouteFault::NoPin);
    };
    match other_pin(graph, nodes, pin) {
        Some(other) => Some(RouteFault::TwoPins(graph.node(pin), graph.node(other))),
        None => None,
    }
}

/// Tests that the sinks are the nodes from which no pair leads.
fn check_ends(
    graph: &Fabric,
    work: &mut Work,
    sinks: &[usize],
    nodes: &[usize],
    hops: &[(usize, usize)],
) -> Option<RouteFault>
    requires room { HasRoom work.old (graph_of graph.now).count }
    requires inside { IsSetOf nodes.now work.old.inside }
    requires sinks { AreNodes graph.now sinks.now }
    requires nodes { AreNodes graph.now nodes.now }
    requires hops { AreHops graph.now hops.now }
    ensures room { HasRoom work.new (graph_of graph.now).count }
    ensures exact { MatchOption result (AreEnds sinks.now nodes.now hops.now)
        (λ fault. (root : ℕ) → IsFaultOf graph.now root sinks.now nodes.now hops.now fault) }
{
    graph.laws();
    work.marks.clear();
    mark_starts(hops, &mut work.marks);
    work.wanted.clear();
    mark_all(sinks, &mut work.wanted);
    if let Some(sink) = first_missing(sinks, &work.inside) {
        return Some(RouteFault::NoSink(graph.node(sink)));
    }
    if let Some(sink) = first_present(sinks, &work.marks) {
        return Some(RouteFault::LeadsOn(graph.node(sink)));
    }
    match first_loose(nodes, &work.marks, &work.wanted) {
        Some(node) => Some(RouteFault::EndsAt(graph.node(node))),
        None => None,
    }
}

/// Finds what is wrong with the paths of a net, by the numbers of its source, its sinks, and the
/// nodes and pairs of the paths.
pub(crate) fn check_tree(
    graph: &Fabric,
    work: &mut Work,
    root: usize,
    sinks: &[usize],
    nodes: &[usize],
    hops: &[(usize, usize)],
) -> Option<RouteFault>
    requires room { HasRoom work.old (graph_of graph.now).count }
    requires root { root < (graph_of graph.now).count }
    requires sinks { AreNodes graph.now sinks.now }
    requires nodes { AreNodes graph.now nodes.now }
    requires hops { AreHops graph.now hops.now }
    ensures room { HasRoom work.new (graph_of graph.now).count }
    ensures exact { (paths : List (List Node)) (ends : List Node) →
        IsNumbered graph.now paths nodes.now hops.now → AreNumbers graph.now ends sinks.now →
        MatchOption result
        (IsRoute graph.now.arch graph.now.strip ((graph_of graph.now).node root) ends paths)
        (IsRouteFault graph.now ((graph_of graph.now).node root) ends paths) }
{
    graph.laws();
    if let Some(fault) = check_hops(graph, work, root, hops) {
        return Some(fault);
    }
    if let Some(fault) = check_reach(graph, work, root, nodes, hops) {
        return Some(fault);
    }
    if let Some(fault) = check_pins(graph, nodes) {
        return Some(fault);
    }
    check_ends(graph, work, sinks, nodes, hops)
}
