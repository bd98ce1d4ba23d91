//! The ends of the edges of nodes, as planes list them.
ghost use Rattle.std.specs.Prelude.{◌≡◌, ◌<◌, ◌++◌, [], ◌∷◌, IfOk};
ghost use Rattle.fabric_planes.specs.Prelude.{Basis, graph_of};
ghost use Rattle.fabric_planes.specs.Layout.{place_of, shows};
ghost use Rattle.fabric_planes.specs.Ends.{AddsRow, base_of, row_from, row_of, seen_from};

use crate::shaped_graph::ShapedGraph;
use grid::Strip;
use rows::Rows;
use rr_graph::{Node, NodeKind, StripGraph, is_together};
use std::alloc::AllocError;

/// What is listed: the wires of a track, and what belongs to a node's block or pad.
#[derive(Clone, Copy)]
pub(crate) struct View {
    pub(crate) track: u32,
    pub(crate) node: Node,
}

/// A node, and what of the ends of its edges its row lists.
#[derive(Clone, Copy)]
pub(crate) struct Listed {
    pub(crate) view: View,
    pub(crate) node: Node,
}

/// Whether the node is listed.
fn is_shown(strip: Strip, view: View, node: Node) -> bool
    ensures { result ≡ shows strip (seen_from view.node) view.track node.kind node }
{
    let own = view.node;
    match node.kind {
        NodeKind::Source | NodeKind::Sink => {
            node.x == own.x && (node.y == own.y && node.n == own.n)
        }
        NodeKind::Opin => is_together(strip, own, node),
        NodeKind::Ipin => is_together(strip, node, own),
        NodeKind::ChanX | NodeKind::ChanY => node.n == view.track,
    }
}

impl<'a, G: StripGraph> ShapedGraph<'a, G> {
    /// The place two columns before that of a node.
    fn base_of(&self, number: usize) -> usize
        requires within { number < (graph_of (G.basis self.now.graph.now)).count }
        ensures { result ≡ base_of (G.basis self.now.graph.now) number }
    {
        let (graph, shape) = (self.graph, self.shape);
        graph.laws();
        shape
            .place(graph.node(number))
            .saturating_sub(2 * shape.stride())
    }

    /// Appends the place of a node, less the base, if the node is listed.
    fn add_end(
        &self,
        list: &mut Vec<u32>,
        view: View,
        base: usize,
        number: usize,
    ) -> Result<(), AllocError>
        requires within { number < (graph_of (G.basis self.now.graph.now)).count }
        ensures { IfOk result (λ _. list.new.items ≡ list.old.items
            ++ row_from (G.basis self.now.graph.now) view base (number ∷ [])) }
    {
        let (graph, shape) = (self.graph, self.shape);
        graph.laws();
        let node = graph.node(number);
        if is_shown(graph.strip(), view, node) {
            list.push(shape.place(node).saturating_sub(base) as u32)?;
        }
        Ok(())
    }

    /// Appends the places of the ends of a node's edges that are listed, each less the place two
    /// columns before the node's.
    pub(crate) fn add_ends(
        &self,
        list: &mut Vec<u32>,
        view: View,
        number: usize,
    ) -> Result<(), AllocError>
        requires within { number < (graph_of (G.basis self.now.graph.now)).count }
        ensures { IfOk result (λ _. list.new.items ≡ list.old.items
            ++ row_of (G.basis self.now.graph.now) view number) }
    {
        let graph = self.graph;
        graph.laws();
        let base = self.base_of(number);
        let ends = graph.ends(number);
        for end in ends.list {
            self.add_end(list, view, base, *end as usize + ends.base)?;
        }
        Ok(())
    }

    /// Adds the row of a node, an empty one if the strip doesn't have the node.
    pub(crate) fn add_row(
        &self,
        rows: &mut Rows,
        listed: Listed,
        list: &mut Vec<u32>,
    ) -> Result<(), AllocError>
        ensures { IfOk result (λ _. AddsRow (G.basis self.now.graph.now) listed rows.old rows.new) }
    {
        let graph = self.graph;
        graph.laws();
        list.clear();
        match graph.number(listed.node) {
            Some(number) => self.add_ends(list, listed.view, number)?,
            None => (),
        }
        rows.push(list)
    }
}
