//! The nets of a packed circuit whose blocks have places, in terms of the nodes of the routing
//! graph.
ghost use Rattle.std.specs.Prelude.{◌≡◌, ◌<◌, All, IfOk, length, map, true};
ghost use Rattle.pathfinder.specs.Prelude.{blocks_of, is_node, graph_of, make_node, ArePlaced, block_at, place_of, IsBlockNet};
ghost use Rattle.pathfinder.specs.Sites.{IsPlacedBlock};
ghost use Rattle.pathfinder.specs.Terminals.{source_at, sink_at, terminal_number};
ghost use Rattle.pathfinder.specs.PlacedNets.{number_of, net_to_route, nets_to_route};

use cluster::{Block, BlockNet, Packed, laws_of_packing};
use grid::{Place, laws_of_places};
use rr_graph::{Node, NodeKind, StripGraph};
use std::alloc::{AllocError, Global};
use std::marker::Model;

/// The source of a net and its sinks, in order, by node number.
#[derive(Drop)]
pub(crate) struct Terminals {
    pub(crate) source: usize,
    pub(crate) sinks: Vec<usize>,
}

impl Model for Terminals {
    ghost use Rattle.pathfinder.specs.Wiring.{Net};

    ghost Value = { Net };

    ghost view = { λ t. record { source = t.source; sinks = t.sinks.items } };
}

impl Terminals {
    pub(crate) fn source(&self) -> usize
        ensures { result ≡ self.now.source }
    {
        self.source
    }

    pub(crate) fn sinks(&self) -> &[usize]
        ensures { result.now ≡ self.now.sinks }
    {
        self.sinks.as_slice()
    }
}

/// The node at which a block drives nets: a cluster's is class 1.
fn source_at(block: Block, place: Place) -> Node
    ensures { result ≡ source_at block place }
{
    terminal_at(NodeKind::Source, 1, block, place)
}

/// The node at which a block reads nets: a cluster's is class 0.
fn sink_at(block: Block, place: Place) -> Node
    ensures { result ≡ sink_at block place }
{
    terminal_at(NodeKind::Sink, 0, block, place)
}

/// The node of this kind at a block: a pad's has the pad's number, a cluster's is of this class.
fn terminal_at(kind: NodeKind, class: u32, block: Block, place: Place) -> Node
    ensures { result ≡ make_node place.x kind place.y (terminal_number block place class) }
{
    let n = match block {
        Block::InputPad(_) | Block::OutputPad(_) => place.subblock,
        Block::Cluster(_) => class,
    };
    let (x, y) = (place.x, place.y);
    Node { x, kind, y, n }
}

/// The number of a node of the graph.
fn number_of<G: StripGraph>(graph: &G, node: Node) -> usize
    requires { is_node (G.basis graph.now).arch (G.basis graph.now).strip node ≡ true }
    ensures { result ≡ number_of (graph_of (G.basis graph.now)) node }
{
    graph.laws();
    graph.number(node).unwrap()
}

/// The number of a block's source.
fn source_of<G: StripGraph>(graph: &G, packed: &Packed, places: &[Place], block: usize) -> usize
    requires { IsPlacedBlock (G.basis graph.now).strip packed.now places.now block }
    ensures { result ≡ number_of (graph_of (G.basis graph.now))
        (source_at (block_at packed.now block) (place_of places.now block)) }
{
    graph.laws();
    laws_of_places();
    number_of(graph, source_at(packed.block(block), places[block]))
}

/// The number of a block's sink.
fn sink_of<G: StripGraph>(graph: &G, packed: &Packed, places: &[Place], block: usize) -> usize
    requires { IsPlacedBlock (G.basis graph.now).strip packed.now places.now block }
    ensures { result ≡ number_of (graph_of (G.basis graph.now))
        (sink_at (block_at packed.now block) (place_of places.now block)) }
{
    graph.laws();
    laws_of_places();
    number_of(graph, sink_at(packed.block(block), places[block]))
}

/// The numbers of the readers' sinks.
fn sinks_of<G: StripGraph>(
    alloc: Global,
    graph: &G,
    packed: &Packed,
    places: &[Place],
    readers: &[u32],
) -> Result<Vec<usize>, AllocError>
    requires placed { ArePlaced (G.basis graph.now).strip packed.now places.now }
    requires readers { All (λ reader. reader < length (blocks_of packed.now)) readers.now }
    ensures { IfOk result (λ sinks. sinks.items ≡
        map (λ reader. number_of (graph_of (G.basis graph.now))
        (sink_at (block_at packed.now reader) (place_of places.now reader))) readers.now) }
{
    let mut sinks = Vec::new(alloc);
    for reader in readers {
        sinks.push(sink_of(graph, packed, places, *reader as usize))?;
    }
    Ok(sinks)
}

/// The nodes between which a net is routed; a global net has no sinks.
fn terminals_of<G: StripGraph>(
    alloc: Global,
    graph: &G,
    packed: &Packed,
    places: &[Place],
    net: BlockNet<'_>,
) -> Result<Terminals, AllocError>
    requires placed { ArePlaced (G.basis graph.now).strip packed.now places.now }
    requires net { IsBlockNet packed.now
        (record {
          net = net.net;
          driver = net.driver;
          readers = net.readers.now;
          global = net.global;
        }) }
    ensures { IfOk result (λ terminals. terminals ≡
        net_to_route (G.basis graph.now) packed.now places.now
        (record {
          net = net.entry.net;
          driver = net.entry.driver;
          readers = net.entry.readers.now;
          global = net.entry.global;
        })) }
{
    let source = source_of(graph, packed, places, net.driver as usize);
    if net.global {
        let sinks = Vec::new(alloc);
        return Ok(Terminals { source, sinks });
    }
    let sinks = sinks_of(alloc, graph, packed, places, net.readers)?;
    Ok(Terminals { source, sinks })
}

/// The nodes between which each net is routed, by net number.
pub(crate) fn nets_of<G: StripGraph>(
    alloc: Global,
    graph: &G,
    packed: &Packed,
    places: &[Place],
) -> Result<Vec<Terminals>, AllocError>
    requires { ArePlaced (G.basis graph.now).strip packed.now places.now }
    ensures { IfOk result (λ nets. nets.items
        ≡ nets_to_route (G.basis graph.now) packed.now places.now) }
{
    laws_of_packing();
    packed.laws();
    let mut nets = Vec::new(alloc);
    for number in 0..packed.net_count() {
        nets.push(terminals_of(alloc, graph, packed, places, packed.net(number))?)?;
    }
    Ok(nets)
}
