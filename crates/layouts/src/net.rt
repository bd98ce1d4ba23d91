//! A net between blocks.
ghost use Rattle.std.specs.Prelude.{◌≡◌};

use rr_graph::Node;
use std::marker::Model;

/// A path of a net's tree. Its value is the list of its nodes.
#[derive(Drop)]
pub struct LaidPath {
    nodes: Vec<Node>,
}

impl Model for LaidPath {
    ghost use Rattle.std.specs.Prelude.{List};
    ghost use Rattle.rr_graph.specs.declared.node.Node.{Node};

    ghost Value = { List Node };

    ghost view = { λ p. p.nodes.items };
}

impl LaidPath {
    /// The path over these nodes. Takes no memory.
    pub fn new(nodes: Vec<Node>) -> Self
        ensures { result ≡ nodes.items }
    {
        LaidPath { nodes }
    }

    /// Its nodes, in order.
    pub fn nodes(&self) -> &[Node]
        ensures { result.now ≡ self.now }
    {
        self.nodes.as_slice()
    }
}

/// A net between blocks: the numbers of the blocks that are listed with it if it is global, and the
/// paths of its tree.
#[derive(Drop)]
pub struct LaidNet {
    net: u32,
    listed: Vec<u32>,
    paths: Vec<LaidPath>,
}

impl Model for LaidNet {
    ghost use Rattle.implements.specs.Layouts.{LaidNet as NetValue};

    ghost Value = { NetValue };

    ghost view = { λ n. record { net = n.net; listed = n.listed.items; paths = n.paths.items } };
}

impl LaidNet {
    /// The net of these parts. Takes no memory.
    pub fn new(net: u32, listed: Vec<u32>, paths: Vec<LaidPath>) -> Self
        ensures { result ≡ record { net = net; listed = listed.items; paths = paths.items } }
    {
        LaidNet { net, listed, paths }
    }

    /// Its number in the circuit.
    pub fn net(&self) -> u32
        ensures { result ≡ self.now.net }
    {
        self.net
    }

    /// The numbers of the blocks that are listed with it, in order.
    pub fn listed_blocks(&self) -> &[u32]
        ensures { result.now ≡ self.now.listed }
    {
        self.listed.as_slice()
    }

    /// The paths of its tree, in order.
    pub fn paths(&self) -> &[LaidPath]
        ensures { result.now ≡ self.now.paths }
    {
        self.paths.as_slice()
    }
}
