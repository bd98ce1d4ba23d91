//! The names of nets, BLEs and blocks.
use crate::subject::Subject;
use blif::Circuit;
use cluster::Block;
use layouts::LaidBlock;
use line_text::Sink;
use rr_graph::{Node, NodeKind};
use text_parts::{Part, Pen};
use vpr_files::write_node;

/// The name of a net, or no bytes if there is no such net.
pub(crate) fn net_name(circuit: &Circuit, net: u32) -> &[u8] {
    if (net as usize) < circuit.nets.len() {
        circuit.nets.name(net as usize)
    } else {
        &[]
    }
}

/// What a block is, and its name.
#[derive(Clone, Copy)]
pub(crate) struct Named<'a> {
    kind: &'static str,
    name: &'a [u8],
}

/// The name of the block with this number.
pub(crate) fn block_named<'a>(subject: Subject<'a>, block: usize) -> Named<'a> {
    match subject.layout.blocks().get(block) {
        Some(laid) => name_of(subject.circuit, laid),
        None => Named {
            kind: "block",
            name: &[],
        },
    }
}

fn name_of<'a>(circuit: &'a Circuit, laid: &LaidBlock) -> Named<'a> {
    match laid.block() {
        Block::InputPad(net) => Named {
            kind: "input pad",
            name: net_name(circuit, net),
        },
        Block::OutputPad(net) => Named {
            kind: "output pad",
            name: net_name(circuit, net),
        },
        Block::Cluster(_) => Named {
            kind: "cluster",
            name: match laid.bles().first() {
                Some(ble) => net_name(circuit, ble.name()),
                None => &[],
            },
        },
    }
}

/// Writes what a block is, and its name.
pub(crate) fn write_named<E: Sink>(pen: &mut Pen<'_, E>, named: Named<'_>) {
    pen.write(&[
        Part::Text(named.kind),
        Part::Text(" "),
        Part::Bytes(named.name),
    ]);
}

/// Writes what the block with this number is, and its name.
pub(crate) fn write_block<E: Sink>(pen: &mut Pen<'_, E>, subject: Subject<'_>, block: usize) {
    write_named(pen, block_named(subject, block));
}

/// Writes the name of a net.
pub(crate) fn write_net<E: Sink>(pen: &mut Pen<'_, E>, subject: Subject<'_>, net: u32) {
    pen.write(&[Part::Bytes(net_name(subject.circuit, net))]);
}

/// Writes a node as a line of the `.route` file has it.
pub(crate) fn write_rr_node<E: Sink>(pen: &mut Pen<'_, E>, subject: Subject<'_>, node: Node) {
    let rows = subject.rows;
    pen.lend(|sink| write_node(node, rows, sink));
}

/// Writes the name of the block whose sink the node is, and then the node.
pub(crate) fn write_sink<E: Sink>(pen: &mut Pen<'_, E>, subject: Subject<'_>, sink: Node) {
    if let Some(laid) = block_at(subject, sink) {
        write_named(pen, name_of(subject.circuit, laid));
        pen.text(" at ");
    }
    write_rr_node(pen, subject, sink);
}

/// The block whose source or sink the node is.
fn block_at<'a>(subject: Subject<'a>, node: Node) -> Option<&'a LaidBlock> {
    if !matches!(node.kind, NodeKind::Source | NodeKind::Sink) {
        return None;
    }
    for laid in subject.layout.blocks() {
        if is_at(laid, node) {
            return Some(laid);
        }
    }
    None
}

/// Whether the node is at the block's place.
fn is_at(laid: &LaidBlock, node: Node) -> bool {
    let place = laid.place();
    let same = place.x == node.x && place.y == node.y;
    match laid.block() {
        Block::Cluster(_) => same,
        _ => same && place.subblock == node.n,
    }
}
