//! Whether routes lead to the blocks that have their nets on their pins.
use crate::block::PlacedBlock;
use crate::fault::{Fault, File, FileFault};
use crate::net_text::ListedPin;
use crate::route_node::RouteNode;
use crate::route_text::Net;
use crate::steps::{is_pad_row, is_same_place};
use grid::Place;
use line_text::{NameSet, TextError};
use rr_graph::{Node, NodeKind};
use std::alloc::Global;

/// What the files say of pins and routes.
#[derive(Clone, Copy)]
pub(crate) struct PinsAndRoutes<'a, 't> {
    pub(crate) rows: u32,
    /// The pins with nets, block by block.
    pub(crate) pins: &'a [ListedPin<'t>],
    pub(crate) blocks: &'a [PlacedBlock<'t>],
    pub(crate) nets: &'a [Net<'t>],
    /// The nodes of all routes, net by net.
    pub(crate) nodes: &'a [RouteNode],
}

/// Checks that the ends of each net's route are the blocks that have the net on a pin. Fails with
/// the line of a pin whose net has no route, or with the line of the net.
pub(crate) fn check_ends(
    alloc: Global,
    files: PinsAndRoutes<'_, '_>,
) -> Result<(), TextError<FileFault>> {
    let mut names = NameSet::new(alloc);
    add_nets(&mut names, files.nets)?;
    let mut users = Vec::from_elem(alloc, 0usize, files.nets.len())?;
    count_users(files, &names, users.as_mut_slice())?;
    check_counts(files, users.as_slice())
}

/// Adds the names of the nets, which must differ.
fn add_nets<'t>(names: &mut NameSet<'t>, nets: &[Net<'t>]) -> Result<(), TextError<FileFault>> {
    for net in nets {
        if !names.add(net.name)? {
            return Err(fault_of(File::Route, net.line, Fault::RepeatedNet));
        }
    }
    Ok(())
}

/// Counts the blocks that have each net on a pin. Each must be at an end of the net's route, if the
/// net has one.
fn count_users(
    files: PinsAndRoutes<'_, '_>,
    names: &NameSet<'_>,
    users: &mut [usize],
) -> Result<(), TextError<FileFault>> {
    for (place, pin) in files.pins.iter().enumerate() {
        let number = names.number(pin.name);
        let (Some(net), Some(count)) = (files.nets.get(number), users.get_mut(number)) else {
            return Err(fault_of(File::Net, pin.line, Fault::NoRoute));
        };
        if !is_repeated(files.pins, place, *pin) {
            *count = count.saturating_add(1);
        }
        if !net.is_global && !is_led_to(files, number, pin.block) {
            return Err(fault_of(File::Route, net.line, Fault::OtherEnds));
        }
    }
    Ok(())
}

/// Whether an earlier pin of the block has the same net.
fn is_repeated(pins: &[ListedPin<'_>], place: usize, pin: ListedPin<'_>) -> bool {
    let (front, _) = pins.split_at(place.min(pins.len()));
    front
        .iter()
        .rev()
        .take_while(|other| other.block == pin.block)
        .any(|other| other.name == pin.name)
}

/// Whether the net has no route, or its route has an end at the block.
fn is_led_to(files: PinsAndRoutes<'_, '_>, net: usize, block: usize) -> bool {
    let Some(block) = files.blocks.get(block) else {
        return false;
    };
    let nodes = nodes_of(files, net);
    nodes.is_empty()
        || nodes
            .iter()
            .any(|read| is_end_at(files.rows, read.node, block.place))
}

/// Whether the node is a source or a sink at that place.
fn is_end_at(rows: u32, node: Node, place: Place) -> bool {
    let Place { x, y, subblock } = place;
    let at = Node {
        x,
        kind: node.kind,
        y,
        n: subblock,
    };
    is_end(node) && is_same_place(rows, node, at)
}

fn is_end(node: Node) -> bool {
    matches!(node.kind, NodeKind::Source | NodeKind::Sink)
}

/// The nodes of a net's route.
pub(crate) fn nodes_of<'a>(files: PinsAndRoutes<'a, '_>, net: usize) -> &'a [RouteNode] {
    let first = |net: usize| files
        .nets
        .get(net)
        .map_or(files.nodes.len(), |net| net.first_node);
    let end = first(net.saturating_add(1)).min(files.nodes.len());
    let (front, _) = files.nodes.split_at(end);
    let (_, back) = front.split_at(first(net).min(front.len()));
    back
}

/// Checks that each route has as many ends as blocks have its net on a pin.
fn check_counts(files: PinsAndRoutes<'_, '_>, users: &[usize]) -> Result<(), TextError<FileFault>> {
    for (number, net) in files.nets.iter().enumerate() {
        let nodes = nodes_of(files, number);
        let wanted = if nodes.is_empty() {
            1
        } else {
            end_count(files.rows, nodes)
        };
        let count = users.get(number).copied().unwrap_or(0);
        if !net.is_global && count != wanted {
            return Err(fault_of(File::Route, net.line, Fault::OtherEnds));
        }
    }
    Ok(())
}

/// The number of sinks that are not at the place of the first node, each once, and one for that
/// node.
fn end_count(rows: u32, nodes: &[RouteNode]) -> usize {
    let Some(first) = nodes.first() else {
        return 0;
    };
    let mut count = 1usize;
    for (place, read) in nodes.iter().enumerate() {
        let is_other = read.node.kind == NodeKind::Sink
            && !is_same_block(rows, first.node, read.node);
        if is_other && !is_among(nodes, place, read.node) {
            count = count.saturating_add(1);
        }
    }
    count
}

/// Whether the node is one of the nodes before this place.
fn is_among(nodes: &[RouteNode], place: usize, node: Node) -> bool {
    let (front, _) = nodes.split_at(place.min(nodes.len()));
    front.iter().any(|earlier| earlier.node == node)
}

/// Whether a source and a sink are of one logic block. No pad has both.
fn is_same_block(rows: u32, source: Node, sink: Node) -> bool {
    source.x == sink.x && source.y == sink.y && !is_pad_row(rows, source.y)
}

/// A fault of that line.
pub(crate) fn fault_of(file: File, line: usize, fault: Fault) -> TextError<FileFault> {
    TextError::Fault(FileFault { file, line, fault })
}
