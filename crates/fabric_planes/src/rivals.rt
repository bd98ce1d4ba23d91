//! Which paths come before a known one.
ghost use Rattle.std.specs.Prelude.{◌≡◌, ◌<◌, ◌⊎◌, ℕ, List, All, IfSome, length, slice_index};
ghost use Rattle.std.specs.Ordering.{nat_cmp};
ghost use Rattle.std.specs.Cmp.Lexicographic.{slice_cmp};
ghost use Rattle.std.specs.declared.cmp.Ordering.TheVariants.{Less};
ghost use Rattle.fabric_planes.specs.Prelude.{IsPath, Basis, IsBasis, graph_of};
ghost use Rattle.fabric_planes.specs.Laid.{IsWireOf};
ghost use Rattle.fabric_planes.specs.Layout.{Terminals, IsNetSearch, planes_of};
ghost use Rattle.fabric_planes.specs.Rivals.{IsHeadOf, IsPathFrom, ComesFirst};
ghost use Rattle.fabric_planes.specs.declared.rivals.Head.{Head};

use crate::shaped_graph::ShapedGraph;
use rr_graph::{NodeKind, StripGraph};

/// How a path leaves its start.
#[derive(Clone, Copy)]
pub struct Head {
    /// The number of its first node.
    pub start: usize,
    /// The number of its output pin; that of the start if this is a wire.
    pub pin: usize,
    /// The place and the track of its first wire.
    pub place: usize,
    pub track: usize,
    pub cost: u64,
}

/// Where a path's first wire is.
#[derive(Clone, Copy)]
pub(crate) struct FirstWire {
    pub(crate) place: usize,
    pub(crate) track: usize,
}

impl<'a, G: StripGraph> ShapedGraph<'a, G> {
    /// Where the wire is that has this index among the nodes; `None` if there is no wire.
    fn wire_at(&self, nodes: &[usize], index: usize) -> Option<FirstWire>
        requires within { All (λ node. node < (graph_of (G.basis self.now.graph.now)).count)
            nodes.now }
        ensures { IfSome result (λ wire. (index < length nodes.now)
            × IsWireOf (G.basis self.now.graph.now) wire.place (slice_index nodes.now index)
            × (((graph_of (G.basis self.now.graph.now)).node (slice_index nodes.now index)).n ≡
            wire.track)) }
    {
        let (graph, shape) = (self.graph, self.shape);
        graph.laws();
        if index >= nodes.len() {
            return None;
        }
        let node = graph.node(nodes[index]);
        match node.kind {
            NodeKind::ChanX | NodeKind::ChanY => Some(FirstWire {
                place: shape.place(node),
                track: node.n as usize,
            }),
            _ => None,
        }
    }

    /// How a path leaves its start; `None` if it begins in another way than most paths.
    pub(crate) fn head_of(&self, nodes: &[usize], cost: u64) -> Option<Head>
        requires within { All (λ node. node < (graph_of (G.basis self.now.graph.now)).count)
            nodes.now }
        ensures { IfSome result (λ head. IsHeadOf (G.basis self.now.graph.now) head nodes.now) }
    {
        let (graph, shape) = (self.graph, self.shape);
        graph.laws();
        if nodes.len() < 2 {
            return None;
        }
        let start = nodes[0];
        let (pin, index) = match graph.node(start).kind {
            NodeKind::Source => (nodes[1], 2),
            NodeKind::Opin => (start, 1),
            NodeKind::ChanX | NodeKind::ChanY => (start, 0),
            NodeKind::Sink | NodeKind::Ipin => return None,
        };
        match self.wire_at(nodes, index) {
            Some(wire) => Some(Head {
                start,
                pin,
                place: wire.place,
                track: wire.track,
                cost,
            }),
            None => None,
        }
    }
}

/// A path whose nodes come before those of another one is on the same track, or it leaves its start
/// before the other one: by start, then by output pin, then by the place of the first wire, and
/// then by its track.
pub fn heads_law()
    ensures { (basis : Basis) (head other : Head) (nodes known : List ℕ) → IsBasis basis →
        IsHeadOf basis head nodes → IsHeadOf basis other known →
        slice_cmp nat_cmp nodes known ≡ Less →
        (head.track ≡ other.track) ⊎ ComesFirst head other }
{}

/// A path of a track's plane begins at a wire; or at an output pin, which leads to a wire; or at a
/// source, which leads to an output pin; or at a node of which paths do not lead on.
pub fn starts_law()
    ensures { (basis : Basis) (cost : ℕ → ℕ) (starts : List ℕ) (goal : ℕ) (t : Terminals)
        (track : ℕ) (path : List ℕ) →
        IsBasis basis → IsNetSearch basis cost starts goal t → track < basis.arch.tracks →
        IsPath ((planes_of basis cost starts goal t).plane track)
        ((planes_of basis cost starts goal t).entries track)
        (planes_of basis cost starts goal t).exit path →
        IsPathFrom basis cost starts (planes_of basis cost starts goal t) track path }
{}
