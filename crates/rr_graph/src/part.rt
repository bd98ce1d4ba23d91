//! The graph of some columns, over the tables of all.
ghost use Rattle.std.specs.Prelude.{◌≡◌, ◌<◌, ◌+◌, map};
ghost use Rattle.rr_graph.specs.Graph.{Basis, graph_of};
ghost use Rattle.rr_graph.specs.Fabric.{HasRow, column_of, ends_of, with_width};

use crate::geometry::{capacity_of, is_node};
use crate::graph::{EdgeEnds, Numbers, StripGraph};
use crate::node::{Node, NodeKind};
use crate::numbering::Nodes;
use crate::table::Tables;
use arch_file::Arch;
use grid::Strip;
use std::marker::Model;

/// The graph of a strip with the first columns of a graph: it reads that graph's tables, and stores
/// none of its own. Its value is the architecture and the strip.
#[derive(Drop)]
pub struct GraphPart<'a> {
    pub(crate) nodes: &'a Nodes,
    pub(crate) table: &'a Tables,
    pub(crate) inputs: u32,
    pub(crate) width: u32,
}

impl<'a> Model for GraphPart<'a> {
    ghost use Rattle.rr_graph.specs.Graph.{Basis};
    ghost use Rattle.rr_graph.specs.Fabric.{IsPart, basis_of, with_width};

    ghost Value = { Basis };

    ghost view = { λ p. basis_of (with_width p.nodes.now.numbering p.width) };

    ghost invariant = { λ p. IsPart p.nodes.now.numbering p.width p.table.now p.inputs };
}

/// The ends of a node's edges in the tables, if the strip has `width` columns.
#[inline(always)]
fn row_from<'a>(nodes: &Nodes, tables: &'a Tables, width: u32, node: usize, x: u32) -> EdgeEnds<'a>
    requires column { x ≡ column_of nodes.now.numbering node }
    requires row { HasRow (with_width nodes.now.numbering width) tables.now node }
    ensures { map (λ end. end + result.base) result.list.now
        ≡ ends_of (with_width nodes.now.numbering width) tables.now node }
{
    let base = nodes.base(x);
    EdgeEnds {
        list: tables.of_column(width, x).row(node - base),
        base,
    }
}

impl<'a> GraphPart<'a> {
    /// The ends of a node's edges, in order.
    #[inline(always)]
    pub(crate) fn all_ends(&self, node: usize) -> EdgeEnds<'a>
        requires { node < (graph_of self.now).count }
        ensures { map (λ end. end + result.base) result.list.now ≡ (graph_of self.now).ends node }
    {
        let x = self.nodes.column(node);
        row_from(self.nodes, self.table, self.width, node, x)
    }
}

impl<'a> StripGraph for GraphPart<'a> {
    ghost basis = { λ part. part };

    fn count(&self) -> usize {
        self.nodes.count_to(self.width)
    }

    fn node(&self, node: usize) -> Node {
        self.nodes.node(node)
    }

    fn number(&self, node: Node) -> Option<usize> {
        let strip = self.nodes.strip_of(self.width);
        if !is_node(&self.nodes.numbering.arch, strip, node) {
            return None;
        }
        Some(self.nodes.number(node))
    }

    fn numbers_at(&self, kind: NodeKind, x: u32, y: u32) -> Numbers {
        self.nodes.numbers_at(self.width, kind, x, y)
    }

    #[inline(always)]
    fn ends(&self, node: usize) -> EdgeEnds<'_> {
        self.all_ends(node)
    }

    fn capacity(&self, node: usize) -> u32 {
        capacity_of(
            &self.nodes.numbering.arch,
            self.nodes.numbering.strip,
            self.inputs,
            self.nodes.node(node),
        )
    }

    fn arch(&self) -> &Arch {
        &self.nodes.numbering.arch
    }

    fn strip(&self) -> Strip {
        self.nodes.strip_of(self.width)
    }
}
