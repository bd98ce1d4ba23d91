//! Whether the paths of a net are its tree.
ghost use Rattle.std.specs.Prelude.{◌≡◌, ◌+◌, ◌<◌, ◌≤◌, ◌^◌, [], ℕ, IfOk, IfNone, MatchOption, Contains, length, slice_index, if◌then◌else◌};
ghost use Rattle.layout_check.specs.Prelude.{graph_of, IsRoute, IsRouted, path_nodes, has};
ghost use Rattle.layout_check.specs.Marks.{IsClear};
ghost use Rattle.layout_check.specs.RouteFaults.{IsPathFault, IsRouteFault};
ghost use Rattle.layout_check.specs.TreeTests.{AreEmpty, AreNumbers, HasRoom};

use crate::fault::RouteFault;
use crate::numbered::{add_numbers, number_paths};
use crate::route::check_tree;
use crate::work::{NetNumbers, Work};
use layouts::LaidPath;
use rr_graph::{Fabric, Node, StripGraph};
use std::alloc::AllocError;

/// A node on the paths.
fn first_node(paths: &[LaidPath]) -> Option<Node>
    ensures { MatchOption result (path_nodes paths.now ≡ []) (λ node. Contains (path_nodes paths.now) node) }
{
    for path in paths {
        let nodes = path.nodes();
        if nodes.len() > 0 {
            return Some(nodes[0]);
        }
    }
    None
}

/// Finds what is wrong with the paths of a net with sinks.
fn check_numbered(
    graph: &Fabric,
    work: &mut Work,
    source: Node,
    sinks: &[Node],
    paths: &[LaidPath],
    numbers: &mut NetNumbers,
) -> Result<Option<RouteFault>, AllocError>
    requires room { HasRoom work.old (graph_of graph.now).count }
    requires empty { AreEmpty numbers.old }
    ensures room { HasRoom work.new (graph_of graph.now).count }
    ensures exact { IfOk result (λ fault. MatchOption fault
        (IsRoute graph.now.arch graph.now.strip source sinks.now paths.now)
        (IsRouteFault graph.now source sinks.now paths.now)) }
    ensures nodes { IfOk result (λ fault. IfNone fault
        (AreNumbers graph.now (path_nodes paths.now) numbers.new.nodes.items)) }
{
    graph.laws();
    if let Some(node) = number_paths(graph, paths, &mut numbers.nodes, &mut numbers.hops)? {
        return Ok(Some(RouteFault::NoNode(node)));
    }
    let Some(root) = graph.number(source) else {
        return Ok(Some(RouteFault::NoSource));
    };
    if let Some(sink) = add_numbers(graph, sinks, &mut numbers.sinks)? {
        return Ok(Some(RouteFault::NoSink(sink)));
    }
    let ends = numbers.sinks.as_slice();
    let nodes = numbers.nodes.as_slice();
    let hops = numbers.hops.as_slice();
    Ok(check_tree(graph, work, root, ends, nodes, hops))
}

/// Finds what is wrong with the paths of a net.
pub(crate) fn check_routed(
    graph: &Fabric,
    work: &mut Work,
    source: Node,
    sinks: &[Node],
    paths: &[LaidPath],
    numbers: &mut NetNumbers,
) -> Result<Option<RouteFault>, AllocError>
    requires room { HasRoom work.old (graph_of graph.now).count }
    requires empty { AreEmpty numbers.old }
    ensures room { HasRoom work.new (graph_of graph.now).count }
    ensures exact { IfOk result (λ fault. MatchOption fault
        (IsRouted graph.now.arch graph.now.strip source sinks.now paths.now)
        (IsPathFault graph.now source sinks.now paths.now)) }
    ensures nodes { IfOk result (λ fault. IfNone fault
        (AreNumbers graph.now (path_nodes paths.now) numbers.new.nodes.items)) }
{
    if sinks.len() > 0 {
        return check_numbered(graph, work, source, sinks, paths, numbers);
    }
    match first_node(paths) {
        Some(node) => Ok(Some(RouteFault::NotEmpty(node))),
        None => Ok(None),
    }
}
