//! The nodes of paths by their numbers.
ghost use Rattle.std.specs.Prelude.{◌≡◌, ◌++◌, [], IfOk, OnOk, MatchOption, Contains, All, map, false, true};
ghost use Rattle.layout_check.specs.Prelude.{is_node, graph_of, path_nodes, steps_of, number_of};
ghost use Rattle.layout_check.specs.Numbered.{IsNumbered};

use layouts::LaidPath;
use rr_graph::{Fabric, Node, StripGraph};
use std::alloc::AllocError;

/// Adds the numbers of a path's nodes, or returns the first node that the strip doesn't have.
pub(crate) fn add_numbers(
    graph: &Fabric,
    path: &[Node],
    numbers: &mut Vec<usize>,
) -> Result<Option<Node>, AllocError>
    ensures { IfOk result (λ foreign. MatchOption foreign
        ((numbers.new.items ≡ numbers.old.items ++ map (number_of (graph_of graph.now)) path.now)
        × All (λ node. is_node graph.now.arch graph.now.strip node ≡ true) path.now)
        (λ node. Contains path.now node × (is_node graph.now.arch graph.now.strip node ≡ false))) }
{
    graph.laws();
    for node in path {
        match graph.number(*node) {
            Some(number) => numbers.push(number)?,
            None => return Ok(Some(*node)),
        }
    }
    Ok(None)
}

/// Adds the pairs of consecutive numbers of a path.
fn add_hops(numbers: &[usize], hops: &mut Vec<(usize, usize)>) -> Result<(), AllocError>
    ensures { OnOk result (hops.new.items ≡ hops.old.items ++ steps_of numbers.now) }
{
    if numbers.len() < 2 {
        return Ok(());
    }
    for i in 0..numbers.len() - 1 {
        hops.push((numbers[i], numbers[i + 1]))?;
    }
    Ok(())
}

/// Adds a path's nodes and pairs, or returns the first node that the strip doesn't have.
fn add_path(
    graph: &Fabric,
    path: &[Node],
    nodes: &mut Vec<usize>,
    hops: &mut Vec<(usize, usize)>,
) -> Result<Option<Node>, AllocError>
    ensures { IfOk result (λ foreign. MatchOption foreign
        ((nodes.new.items ≡ nodes.old.items ++ map (number_of (graph_of graph.now)) path.now)
        × (hops.new.items ≡ hops.old.items ++ steps_of (map (number_of (graph_of graph.now)) path.now))
        × All (λ node. is_node graph.now.arch graph.now.strip node ≡ true) path.now)
        (λ node. Contains path.now node × (is_node graph.now.arch graph.now.strip node ≡ false))) }
{
    let start = nodes.len();
    if let Some(node) = add_numbers(graph, path, nodes)? {
        return Ok(Some(node));
    }
    let end = nodes.len();
    if start < end {
        add_hops(&nodes[start..end], hops)?;
    }
    Ok(None)
}

/// Adds the nodes of paths and the pairs of consecutive nodes, by number, to empty lists, or
/// returns the first node that the strip doesn't have.
pub(crate) fn number_paths(
    graph: &Fabric,
    paths: &[LaidPath],
    nodes: &mut Vec<usize>,
    hops: &mut Vec<(usize, usize)>,
) -> Result<Option<Node>, AllocError>
    requires nodes { nodes.old.items ≡ [] }
    requires hops { hops.old.items ≡ [] }
    ensures { IfOk result (λ foreign. MatchOption foreign
        (IsNumbered graph.now paths.now nodes.new.items hops.new.items)
        (λ node. Contains (path_nodes paths.now) node
        × (is_node graph.now.arch graph.now.strip node ≡ false))) }
{
    for path in paths {
        if let Some(node) = add_path(graph, path.nodes(), nodes, hops)? {
            return Ok(Some(node));
        }
    }
    Ok(None)
}
