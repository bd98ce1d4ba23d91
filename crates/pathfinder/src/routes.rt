//! Finished routes, in terms of nodes.
ghost use Rattle.std.specs.Prelude.{◌≡◌, ◌<◌, All, IfOk, Some, length, map, slice_get, slice_index_or, []};
ghost use Rattle.pathfinder.specs.Prelude.{graph_of};
ghost use Rattle.pathfinder.specs.Routings.{routes_by_node};

use crate::route::Route;
use rr_graph::{Node, StripGraph};
use std::alloc::{AllocError, Global};
use std::marker::Model;

/// The routes of all nets, by net number. Each has its paths in the order in which they were found,
/// and each path its nodes from its start: the first path starts at the driver's source, later ones
/// at the node at which they leave the tree. A net without sinks has no path.
#[derive(Drop)]
pub struct Routes {
    nets: Vec<Vec<Vec<Node>>>,
}

impl Model for Routes {
    ghost use Rattle.std.specs.Prelude.{List, map};
    ghost use Rattle.rr_graph.specs.declared.node.Node.{Node};

    ghost Value = { List (List (List Node)) };

    ghost view = { λ r. map (λ paths. map (λ path. path.items) paths.items) r.nets.items };
}

/// The nodes with these numbers.
fn nodes_on<G: StripGraph>(
    alloc: Global,
    graph: &G,
    path: &[usize],
) -> Result<Vec<Node>, AllocError>
    requires { All (λ node. node < (graph_of (G.basis graph.now)).count) path.now }
    ensures { IfOk result (λ nodes.
        nodes.items ≡ map (graph_of (G.basis graph.now)).node path.now) }
{
    let mut nodes = Vec::new(alloc);
    nodes.reserve(path.len())?;
    for node in path {
        nodes.push(graph.node(*node))?;
    }
    Ok(nodes)
}

/// The paths of a tree.
fn paths_of<G: StripGraph>(
    alloc: Global,
    graph: &G,
    route: &Route,
) -> Result<Vec<Vec<Node>>, AllocError>
    requires { All (λ path. All (λ node. node < (graph_of (G.basis graph.now)).count) path)
        route.now }
    ensures { IfOk result (λ paths.
        map (λ path. path.items) paths.items
        ≡ map (λ path. map (graph_of (G.basis graph.now)).node path) route.now) }
{
    let mut paths = Vec::new(alloc);
    for number in 0..route.len() {
        paths.push(nodes_on(alloc, graph, route.path(number))?)?;
    }
    Ok(paths)
}

impl Routes {
    /// The routes of these trees.
    pub(crate) fn new<G: StripGraph>(
        alloc: Global,
        graph: &G,
        trees: &[Route],
    ) -> Result<Self, AllocError>
        requires { All (λ tree. All (λ path.
            All (λ node. node < (graph_of (G.basis graph.now)).count) path) tree) trees.now }
        ensures { IfOk result (λ routes.
            routes ≡ routes_by_node (graph_of (G.basis graph.now)) trees.now) }
    {
        let mut nets = Vec::new(alloc);
        for tree in trees {
            nets.push(paths_of(alloc, graph, tree)?)?;
        }
        Ok(Routes { nets })
    }

    /// The number of nets.
    pub fn len(&self) -> usize
        ensures { result ≡ length self.now }
    {
        self.nets.len()
    }

    /// The number of a net's paths.
    pub fn path_count(&self, net: usize) -> usize
        requires { net < length self.now }
        ensures { result ≡ length (slice_index_or self.now net []) }
    {
        self.nets[net].len()
    }

    /// The nodes of the path with this number of this net.
    pub fn path(&self, net: usize, number: usize) -> &[Node]
        requires net { net < length self.now }
        requires path { number < length (slice_index_or self.now net []) }
        ensures { slice_get (slice_index_or self.now net []) number ≡ Some result.now }
    {
        self.nets[net][number].as_slice()
    }
}
