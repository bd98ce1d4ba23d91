//! Routing over a window whose reads are counted, by kind.
//!
//! An iteration reads the nodes of its window, their numbers and their capacities. The first one
//! reads edges to make the tables of its window's planes. No other edge is read.
ghost use Rattle.std.specs.Prelude.{◌≡◌, ◌<◌, ◌≤◌, length};
ghost use Rattle.pathfinder.specs.Negotiation.{More};
ghost use Rattle.pathfinder.specs.PlacedNets.{wiring_of};
ghost use Rattle.pathfinder.specs.Routings.{IsAfter};

use crate::circuits::{packed_netlist, placed_anew};
use crate::graphs::NARROW;
use crate::routings::{begin_routing, finish_in_one, finish_in_two};
use arch_file::Arch;
use cluster::SharedPacked;
use fabric_planes::KeptLayout;
use fixtures::AND;
use grid::Strip;
use pathfinder::{Routes, Routing};
use rr_graph::{EdgeEnds, Node, NodeKind, Numbers, StripGraph};
use std::alloc::Global;
use std::cell::Cell;
use strip_place::Placing;
use strips::{DeviceGraph, Window};

/// The number of reads of each kind.
#[derive(Drop)]
struct Reads {
    /// The reads of a node by its number.
    nodes: Cell<u64>,
    /// The reads of a number by its node, and of the numbers at a place.
    numbers: Cell<u64>,
    capacities: Cell<u64>,
    edges: Cell<u64>,
}

impl Reads {
    fn new() -> Self {
        Reads {
            nodes: Cell::new(0),
            numbers: Cell::new(0),
            capacities: Cell::new(0),
            edges: Cell::new(0),
        }
    }

    /// Returns whether these are the reads of a routing over `count` nodes: each node at least
    /// once, numbers and capacities, the edges for the tables, but no other edge.
    fn are_of_routing(&self, count: usize, for_tables: u64) -> bool {
        self.nodes.get() >= count as u64
            && self.numbers.get() > 0
            && self.capacities.get() > 0
            && self.edges.get() == for_tables
    }
}

/// Counts a read.
fn note(reads: &Cell<u64>) {
    reads.set(reads.get().saturating_add(1));
}

/// A window, and the number of reads of it.
#[derive(Drop)]
struct Counted<'a> {
    window: &'a Window<'a>,
    reads: &'a Reads,
}

impl StripGraph for Counted<'_> {
    ghost basis = { λ counted. counted.window.now };

    fn count(&self) -> usize {
        self.window.count()
    }

    fn node(&self, node: usize) -> Node {
        note(&self.reads.nodes);
        self.window.node(node)
    }

    fn number(&self, node: Node) -> Option<usize> {
        note(&self.reads.numbers);
        self.window.number(node)
    }

    fn numbers_at(&self, kind: NodeKind, x: u32, y: u32) -> Numbers {
        note(&self.reads.numbers);
        self.window.numbers_at(kind, x, y)
    }

    fn ends(&self, node: usize) -> EdgeEnds<'_> {
        note(&self.reads.edges);
        self.window.ends(node)
    }

    fn capacity(&self, node: usize) -> u32 {
        note(&self.reads.capacities);
        self.window.capacity(node)
    }

    fn arch(&self) -> &Arch {
        self.window.arch()
    }

    fn strip(&self) -> Strip {
        self.window.strip()
    }
}

/// A netlist, and its routing on a strip of one column.
#[derive(Clone, Copy)]
struct Case {
    netlist: &'static str,
    nets: usize,
    /// Whether the nets need the same wire in the first iteration, so that there is a second one.
    has_two: bool,
}

/// The routes of an input that is an output too, and of a table that copies it, have no node in
/// common. Two inputs of one table want the same wire first.
const CASES: [Case; 2] = [
    Case {
        netlist: "\
.model s
.inputs a
.outputs a f
.names a f
1 1
",
        nets: 2,
        has_two: false,
    },
    Case {
        netlist: AND,
        nets: 3,
        has_two: true,
    },
];

impl Case {
    /// The routes that a routing finds in exactly as many iterations as the case says.
    fn finish<G: StripGraph>(self, alloc: Global, graph: &G, routing: Routing) -> Option<Routes>
        requires { IsAfter (wiring_of (G.basis graph.now)) routing More }
    {
        if self.has_two {
            finish_in_two(alloc, graph, routing)
        } else {
            finish_in_one(alloc, graph, routing)
        }
    }
}

/// Returns whether a net has equal paths in both.
fn has_same_paths(routes: &Routes, others: &Routes, net: usize) -> bool
    requires one { net < length routes.now }
    requires other { net < length others.now }
{
    let count = routes.path_count(net);
    if others.path_count(net) != count {
        return false;
    }
    for number in 0..count {
        if routes.path(net, number) != others.path(net, number) {
            return false;
        }
    }
    true
}

/// Returns whether both are equal routes of this number of nets.
fn are_same(routes: &Routes, others: &Routes, nets: usize) -> bool {
    if routes.len() != nets || others.len() != nets {
        return false;
    }
    for net in 0..nets {
        if !has_same_paths(routes, others, net) {
            return false;
        }
    }
    true
}

/// Returns whether these are the routes that a routing over a graph finds.
fn are_found<G: StripGraph>(
    alloc: Global,
    graph: &G,
    routing: Routing,
    routes: &Routes,
    case: Case,
) -> bool
    requires { IsAfter (wiring_of (G.basis graph.now)) routing More }
{
    match case.finish(alloc, graph, routing) {
        Some(others) => {
            let is_so = are_same(routes, &others, case.nets);
            drop(others);
            is_so
        }
        None => false,
    }
}

/// The number of reads of edges that make the tables of a window's planes; `None` if memory runs
/// out.
fn reads_for_tables(alloc: Global, window: &Window<'_>) -> Option<u64> {
    let reads = Reads::new();
    let counted = Counted {
        window: &*window,
        reads: &reads,
    };
    let mut kept = KeptLayout::new();
    let is_made = kept.layout_of(alloc, &counted).is_ok();
    drop(kept);
    if is_made {
        return Some(reads.edges.get());
    }
    None
}

/// Returns whether the iterations of a routing read from a counted window what they should, and
/// find these routes.
fn reads_the_window(
    alloc: Global,
    window: &Window<'_>,
    routing: Routing,
    routes: &Routes,
    case: Case,
) -> bool
    requires { IsAfter (wiring_of window.now) routing More }
{
    let reads = Reads::new();
    let counted = Counted {
        window: &*window,
        reads: &reads,
    };
    let is_so = are_found(alloc, &counted, routing, routes, case);
    match reads_for_tables(alloc, window) {
        Some(for_tables) => is_so && reads.are_of_routing(counted.count(), for_tables),
        None => false,
    }
}

/// The routes that a routing over a window itself finds.
fn routed_on(alloc: Global, window: &Window<'_>, placing: &Placing, case: Case) -> Option<Routes>
    requires arch { placing.now.packed.arch ≡ window.now.arch }
    requires strip { placing.now.strip ≡ window.now.strip }
{
    match begin_routing(alloc, window, placing) {
        Some(routing) => case.finish(alloc, window, routing),
        None => None,
    }
}

/// Returns whether a routing reads from a counted window what it should, and finds these routes.
fn finds_again(
    alloc: Global,
    window: &Window<'_>,
    placing: &Placing,
    routes: &Routes,
    case: Case,
) -> bool
    requires arch { placing.now.packed.arch ≡ window.now.arch }
    requires strip { placing.now.strip ≡ window.now.strip }
{
    match begin_routing(alloc, window, placing) {
        Some(routing) => reads_the_window(alloc, window, routing, routes, case),
        None => false,
    }
}

/// Returns whether a routing over a counted window reads what it should, and finds what a routing
/// over the window itself finds.
fn reads_and_finds(alloc: Global, window: &Window<'_>, placing: &Placing, case: Case) -> bool
    requires arch { placing.now.packed.arch ≡ window.now.arch }
    requires strip { placing.now.strip ≡ window.now.strip }
{
    match routed_on(alloc, window, placing, case) {
        Some(routes) => {
            let is_so = finds_again(alloc, window, placing, &routes, case);
            drop(routes);
            is_so
        }
        None => false,
    }
}

/// Returns whether this holds on the third of five columns, for a placed circuit.
fn reads_a_window(alloc: Global, placing: &Placing, case: Case) -> bool {
    match DeviceGraph::new(alloc, placing.packed().arch(), 5, 1) {
        Ok(graph) => {
            let is_so = match Window::new(&graph, 2, placing.strip()) {
                Some(window) => reads_and_finds(alloc, &window, placing, case),
                None => false,
            };
            drop(graph);
            is_so
        }
        Err(_) => false,
    }
}

/// Returns whether this holds for a packed circuit.
fn reads_when_placed(alloc: Global, packed: &SharedPacked, case: Case) -> bool {
    match placed_anew(alloc, packed, NARROW, 7, 0) {
        Some(placing) => {
            let is_so = reads_a_window(alloc, &placing, case);
            drop(placing);
            is_so
        }
        None => false,
    }
}

/// Returns whether this holds in a case.
fn is_read(alloc: Global, case: Case) -> bool {
    match packed_netlist(alloc, case.netlist) {
        Some(packed) => {
            let is_so = reads_when_placed(alloc, &packed, case);
            drop(packed);
            is_so
        }
        None => false,
    }
}

#[test]
fn routing_reads_its_window(rt: HostRuntime) {
    let mut are_read = true;
    for case in CASES.iter() {
        are_read &= is_read(rt.alloc(), *case);
    }
    assert!(rt; are_read);
}
