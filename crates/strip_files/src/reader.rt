//! The three files together.
ghost use Rattle.std.specs.Prelude.{◌≡◌, ◌+◌, position, IfOk};
ghost use Rattle.std.specs.Str.{bytes_eq};
ghost use Rattle.strip_files.specs.BlockLines.{AreBlocksNamed, AreElementsNamed};
ghost use Rattle.strip_files.specs.NetLines.{AreNamed};
ghost use Rattle.strip_files.specs.NodeLines.{AreTold, node_lines};
ghost use Rattle.strip_files.specs.Parts.{elements_of, first_element, first_node, nodes_of, stretch};
ghost use Rattle.strip_files.specs.PlaceLines.{HavePlaces};
ghost use Rattle.strip_files.specs.Starts.{AreBegun, AreBlocksBegun};

use crate::block::PlacedBlock;
use crate::ends::{PinsAndRoutes, check_ends};
use crate::fault::FileFault;
use crate::net_text::Listed;
use crate::place_text::Placed;
use crate::route_node::RouteNode;
use crate::route_text::{Net, Routed};
use crate::size::StripSize;
use crate::trees::check_trees;
use line_text::TextError;
use std::alloc::Global;

/// The texts of a tenancy's three files.
#[derive(Clone, Copy)]
pub struct StripTexts<'t> {
    pub net: &'t [u8],
    pub place: &'t [u8],
    pub route: &'t [u8],
}

/// What the three files of a tenancy say about its strip. Columns and rows count from 1; pads are
/// in row 0 and above the last row.
#[derive(Drop)]
pub struct RoutedStrip<'t> {
    pub size: StripSize,
    /// The blocks, by number.
    pub blocks: Vec<PlacedBlock<'t>>,
    /// The names of the BLEs, cluster by cluster.
    pub elements: Vec<&'t [u8]>,
    /// The nets, by number.
    pub nets: Vec<Net<'t>>,
    /// The nodes of the nets' routes, net by net.
    pub nodes: Vec<RouteNode>,
}

impl<'t> RoutedStrip<'t> {
    /// Returns the number of the first net of that name; `None` if there is no such net.
    pub fn net_named(&self, name: &[u8]) -> Option<usize>
        ensures { result ≡ position (λ net. bytes_eq net.name.now name.now) self.now.nets.items }
    {
        self.nets.iter().position(|net| net.name == name)
    }

    /// The nodes of the route of the net of that number; none if there is no such net.
    pub fn nodes_of(&self, net: usize) -> &[RouteNode]
        ensures { result.now ≡ nodes_of self.now net }
    {
        let start = self.first_node(net);
        let end = self.end_of_nodes(net);
        stretch(&self.nodes, start, end)
    }

    /// The names of the BLEs of the block of that number; none if there is no such block.
    pub fn elements_of(&self, block: usize) -> &[&'t [u8]]
        ensures { result.now ≡ elements_of self.now block }
    {
        let start = self.first_element(block);
        let end = self.end_of_elements(block);
        stretch(&self.elements, start, end)
    }

    /// The index at which the nodes of that net's route begin.
    fn first_node(&self, net: usize) -> usize
        ensures { result ≡ first_node self.now net }
    {
        match self.nets.get(net) {
            Some(net) => net.first_node,
            None => self.nodes.len(),
        }
    }

    /// The index after the nodes of that net's route.
    fn end_of_nodes(&self, net: usize) -> usize
        ensures { result ≡ first_node self.now (net + 1) }
    {
        if net < self.nets.len() {
            self.first_node(net + 1)
        } else {
            self.nodes.len()
        }
    }

    /// The index at which the BLEs of that block begin.
    fn first_element(&self, block: usize) -> usize
        ensures { result ≡ first_element self.now block }
    {
        match self.blocks.get(block) {
            Some(block) => block.first_element,
            None => self.elements.len(),
        }
    }

    /// The index after the BLEs of that block.
    fn end_of_elements(&self, block: usize) -> usize
        ensures { result ≡ first_element self.now (block + 1) }
    {
        if block < self.blocks.len() {
            self.first_element(block + 1)
        } else {
            self.elements.len()
        }
    }
}

/// The elements from one index to another, as far as they exist.
fn stretch<T>(all: &[T], start: usize, end: usize) -> &[T]
    ensures { result.now ≡ stretch all.now start end }
{
    let (front, _) = all.split_at(end.min(all.len()));
    let (_, back) = front.split_at(start.min(front.len()));
    back
}

/// Reads a strip from the three files of a tenancy. Fails with a file's first faulty line, or if
/// memory runs out.
///
/// - The `.net` file lists the blocks, by `.input`, `.output` and `.clb`, and the BLEs of each
///   cluster, by `subblock:`.
/// - The `.place` file has the size, and the place of each listed block, in their order.
/// - The `.route` file has that size too, and the nets in order of their numbers, with the nodes of
///   their routes.
///
/// Each node of a path must follow the node before it by an edge that some architecture has: a pin
/// is joined with the wires beside its block, whatever its sides and tracks. The first path of a
/// net begins at a source, a later one at a node of an earlier one, and each ends at a sink. A
/// route joins just the blocks that have its net on a pin. It is a tree: it leads to each of its
/// nodes in one way, and has one output pin. No two routes have a wire or a pin in common.
///
/// Empty lines are skipped, as are global nets' blocks and headings. The fault is
/// that of the first faulty file, in this order, at its first faulty line; a fault that only shows
/// at the end has the last line.
pub fn read_strip(
    alloc: Global,
    texts: StripTexts<'_>,
) -> Result<RoutedStrip<'_>, TextError<FileFault>>
    ensures nodes { IfOk result (λ strip.
        AreTold (node_lines texts.entry.route.now) strip.nodes.items) }
    ensures nets { IfOk result (λ strip. AreBegun texts.entry.route.now strip.nets.items) }
    ensures names { IfOk result (λ strip. AreNamed texts.entry.route.now strip.nets.items) }
    ensures blocks { IfOk result (λ strip. AreBlocksBegun texts.entry.net.now strip.blocks.items) }
    ensures block_names { IfOk result (λ strip.
        AreBlocksNamed texts.entry.net.now strip.blocks.items) }
    ensures places { IfOk result (λ strip. HavePlaces texts.entry.place.now strip.blocks.items) }
    ensures elements { IfOk result (λ strip.
        AreElementsNamed texts.entry.net.now strip.elements.items) }
{
    let Listed {
        pins,
        blocks: listed,
        elements,
    } = Listed::read(alloc, texts.net)?;
    let (size, blocks) = Placed::read(alloc, texts.place, &listed)?;
    let Routed {
        nets,
        nodes,
        section: _,
    } = Routed::read(alloc, texts.route, size)?;
    let files = PinsAndRoutes {
        rows: size.rows,
        pins: &pins,
        blocks: &blocks,
        nets: &nets,
        nodes: &nodes,
    };
    check_ends(alloc, files)?;
    check_trees(alloc, files)?;
    Ok(RoutedStrip {
        size,
        blocks,
        elements,
        nets,
        nodes,
    })
}
