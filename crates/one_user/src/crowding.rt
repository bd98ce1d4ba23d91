//! Where a routing that was given up is overused, and by which nets.
ghost use Rattle.std.specs.Prelude.{◌≡◌, ◌<◌, ◌↔◌, ℕ, All, IfOk, IfSome, IsTrue, length, slice_index};
ghost use Rattle.std.specs.List.{AllZip};
ghost use Rattle.one_user.specs.Prelude.{net_name, count_over, overuse_at, wiring_of, IsAfter, graph_of};
ghost use Rattle.pathfinder.specs.Negotiation.{GaveUp};
ghost use Rattle.one_user.specs.Crowding.{AreMostOverused, AreCrowdedNodes, ComesBefore, IsAfterLast, IsFirstOf, IsNextMostOverused, IsCrowdedNode, net_between, nets_on, over_of};

use blif::Circuit;
use cluster::SharedPacked;
use pathfinder::Routing;
use rr_graph::{Node, StripGraph};
use std::alloc::{AllocError, Global};

/// The largest number of overused nodes that are listed.
const MAX_LISTED: usize = 10;

/// A node that is in the trees of more nets than it can carry.
#[derive(Drop)]
pub struct CrowdedNode {
    pub node: Node,
    /// The number of nets whose trees have it.
    pub occupancy: u32,
    /// The number of nets that it can carry.
    pub capacity: u32,
    /// Those nets, by their numbers in the packed circuit.
    pub nets: Vec<usize>,
}

/// The overused nodes after the last iteration of a routing that was given up.
#[derive(Drop)]
pub struct Crowding {
    pub(crate) packed: SharedPacked,
    /// The number of rows of the device.
    pub(crate) rows: u32,
    /// The number of all overused nodes.
    pub overused: usize,
    /// The most overused nodes, at most ten: those first that are overused by most nets, and of
    /// equals the first in node order.
    pub nodes: Vec<CrowdedNode>,
}

impl Crowding {
    /// The name of a net, by its number in the packed circuit. Empty if there is no such net.
    pub fn net_name(&self, net: usize) -> &[u8]
        ensures { result.now ≡ net_between self.now.packed net }
    {
        let packed = self.packed.packed();
        if net >= packed.net_count() {
            return b"";
        }
        net_name(packed.circuit(), packed.net(net).net)
    }
}

/// The name of a net of the circuit. Empty if there is no such net.
fn net_name(circuit: &Circuit, net: u32) -> &[u8]
    ensures { result.now ≡ net_name circuit.now net }
{
    let names = &circuit.nets;
    if (net as usize) < names.len() {
        names.name(net as usize)
    } else {
        b""
    }
}

/// The overuse of each node by the trees of a routing, by node number.
pub(crate) fn overuses<G: StripGraph>(
    alloc: Global,
    graph: &G,
    routing: &Routing,
) -> Result<Vec<u32>, AllocError>
    requires { IsAfter (wiring_of (G.basis graph.now)) routing.now GaveUp }
    ensures long { IfOk result (λ overs.
        length overs.items ≡ (graph_of (G.basis graph.now)).count) }
    ensures each { IfOk result (λ overs. (node : ℕ) → node < length overs.items →
        slice_index overs.items node
        ≡ overuse_at (wiring_of (G.basis graph.now)) routing.now.trees node) }
{
    graph.laws();
    let held = routing.occupancies();
    let mut overs = Vec::new(alloc);
    overs.reserve(held.len())?;
    for node in 0..held.len() {
        overs.push(held[node].saturating_sub(graph.capacity(node)))?;
    }
    Ok(overs)
}

/// The number of overused nodes.
fn overused_count(overs: &[u32]) -> usize
    ensures { result ≡ count_over (over_of overs.now) (length overs.now) }
{
    let mut nodes = 0;
    for node in 0..overs.len() {
        if overs[node] > 0 {
            nodes += 1;
        }
    }
    nodes
}

/// Returns whether a node is listed before another one.
fn comes_before(overs: &[u32], node: usize, other: usize) -> bool
    requires node { node < length overs.now }
    requires other { other < length overs.now }
    ensures { IsTrue result ↔ ComesBefore (over_of overs.now) node other }
{
    overs[node] > overs[other] || (overs[node] == overs[other] && node < other)
}

/// Returns whether a node is overused and comes after the last one that is listed.
fn is_left(overs: &[u32], last: Option<usize>, node: usize) -> bool
    requires node { node < length overs.now }
    requires last { IfSome last (λ last. last < length overs.now) }
    ensures { IsTrue result ↔ ((0 < over_of overs.now node)
        × IsAfterLast (over_of overs.now) last node) }
{
    match last {
        Some(last) => overs[node] > 0 && comes_before(overs, last, node),
        None => overs[node] > 0,
    }
}

/// The node to be listed after the last one, if one is left.
fn next_most_overused(overs: &[u32], last: Option<usize>) -> Option<usize>
    requires { IfSome last (λ last. last < length overs.now) }
    ensures { IsNextMostOverused (over_of overs.now) (length overs.now) last result }
{
    let mut next = None;
    for node in 0..overs.len() {
        if is_left(overs, last, node) {
            next = first_of(overs, next, node);
        }
    }
    next
}

/// The node to be listed so far, or another node if there is no such node yet or if it doesn't come
/// before that other one.
fn first_of(overs: &[u32], next: Option<usize>, node: usize) -> Option<usize>
    requires node { node < length overs.now }
    requires next { IfSome next (λ next. next < length overs.now) }
    ensures { IsFirstOf (over_of overs.now) next node result }
{
    match next {
        Some(first) => {
            if comes_before(overs, first, node) {
                Some(first)
            } else {
                Some(node)
            }
        }
        None => Some(node),
    }
}

/// The numbers of the most overused nodes, at most that many.
fn most_overused(alloc: Global, overs: &[u32], limit: usize) -> Result<Vec<usize>, AllocError>
    ensures { IfOk result (λ nodes.
        AreMostOverused (over_of overs.now) (length overs.now) limit nodes.items) }
{
    let mut nodes = Vec::new(alloc);
    let mut last = None;
    for _told in 0..limit {
        match next_most_overused(overs, last) {
            Some(next) => {
                nodes.push(next)?;
                last = Some(next);
            }
            None => return Ok(nodes),
        }
    }
    Ok(nodes)
}

/// The numbers of the nets whose trees have a node.
fn nets_on(alloc: Global, routing: &Routing, node: usize) -> Result<Vec<usize>, AllocError>
    ensures { IfOk result (λ nets. nets.items ≡ nets_on routing.now.trees node) }
{
    let mut nets = Vec::new(alloc);
    for net in 0..routing.net_count() {
        if routing.has_node(net, node) {
            nets.push(net)?;
        }
    }
    Ok(nets)
}

/// What is listed of a node.
fn crowded_node<G: StripGraph>(
    alloc: Global,
    graph: &G,
    routing: &Routing,
    number: usize,
) -> Result<CrowdedNode, AllocError>
    requires number { number < (graph_of (G.basis graph.now)).count }
    requires after { IsAfter (wiring_of (G.basis graph.now)) routing.now GaveUp }
    ensures { IfOk result (IsCrowdedNode (G.basis graph.now) routing.now.trees number) }
{
    graph.laws();
    let nets = nets_on(alloc, routing, number)?;
    Ok(CrowdedNode {
        node: graph.node(number),
        occupancy: routing.occupancies()[number],
        capacity: graph.capacity(number),
        nets,
    })
}

/// What is listed of these nodes.
fn crowded_nodes_of<G: StripGraph>(
    alloc: Global,
    graph: &G,
    routing: &Routing,
    numbers: &[usize],
) -> Result<Vec<CrowdedNode>, AllocError>
    requires within { All (λ number. number < (graph_of (G.basis graph.now)).count) numbers.now }
    requires after { IsAfter (wiring_of (G.basis graph.now)) routing.now GaveUp }
    ensures { IfOk result (λ nodes.
        AllZip (IsCrowdedNode (G.basis graph.now) routing.now.trees) numbers.now nodes.items) }
{
    let mut nodes = Vec::new(alloc);
    for number in numbers {
        nodes.push(crowded_node(alloc, graph, routing, *number)?)?;
    }
    Ok(nodes)
}

/// The number of overused nodes after the last iteration of a routing that was given up, and the
/// most overused ones.
pub(crate) fn crowded_nodes<G: StripGraph>(
    alloc: Global,
    graph: &G,
    routing: &Routing,
) -> Result<(usize, Vec<CrowdedNode>), AllocError>
    requires { IsAfter (wiring_of (G.basis graph.now)) routing.now GaveUp }
    ensures overused { IfOk result (λ told. told.0
        ≡ count_over (overuse_at (wiring_of (G.basis graph.now)) routing.now.trees)
        (graph_of (G.basis graph.now)).count) }
    ensures nodes { IfOk result (λ told.
        AreCrowdedNodes (G.basis graph.now) routing.now.trees 10 told.1.items) }
{
    let overs = overuses(alloc, graph, routing)?;
    let count = overused_count(overs.as_slice());
    let numbers = most_overused(alloc, overs.as_slice(), MAX_LISTED);
    drop(overs);
    let numbers = numbers?;
    let nodes = crowded_nodes_of(alloc, graph, routing, numbers.as_slice());
    drop(numbers);
    Ok((count, nodes?))
}
