//! The lines of a layout's blocks, BLEs, nets and nodes in its three files, counted from 1.
use cluster::Block;
use layouts::{LaidBlock, LaidNet, Layout};
use line_text::Sink;
use rr_graph::Node;
use text_parts::{Part, Pen};

/// The lines of a `.place` file before the first block.
const PLACE_HEADINGS: usize = 5;

/// The lines of a `.route` file before the first net.
const ROUTE_HEADINGS: usize = 4;

/// Writes the file and the line.
pub(crate) fn write_line<E: Sink>(pen: &mut Pen<'_, E>, file: &str, line: usize) {
    pen.write(&[
        Part::Text(file),
        Part::Text(" line "),
        Part::Long(line as u64),
        Part::Text(": "),
    ]);
}

/// The first line of the block with this number in the `.net` file.
pub(crate) fn block_line(layout: &Layout, block: usize) -> usize {
    let globals = layout.globals().len();
    let mut line = if globals > 0 {
        globals.saturating_add(2)
    } else {
        1
    };
    for laid in layout.blocks().iter().take(block) {
        line = line.saturating_add(line_count(laid));
    }
    line
}

/// The number of a block's lines in the `.net` file.
fn line_count(laid: &LaidBlock) -> usize {
    match laid.block() {
        Block::Cluster(_) => laid.bles().len().saturating_add(3),
        _ => 3,
    }
}

/// The line of the BLE with this number of that block.
pub(crate) fn ble_line(layout: &Layout, block: usize, ble: usize) -> usize {
    block_line(layout, block)
        .saturating_add(2)
        .saturating_add(ble)
}

/// The line of the block with this number in the `.place` file.
pub(crate) fn place_line(block: usize) -> usize {
    block.saturating_add(PLACE_HEADINGS).saturating_add(1)
}

/// The first line of the net with this number in the `.route` file.
pub(crate) fn net_line(layout: &Layout, net: usize) -> usize {
    let mut line = ROUTE_HEADINGS.saturating_add(1);
    for between in layout.nets().iter().take(net) {
        line = line.saturating_add(entry_lines(between));
    }
    line
}

/// The number of a net's lines in the `.route` file.
fn entry_lines(between: &LaidNet) -> usize {
    let mut lines = between.listed_blocks().len().saturating_add(3);
    for path in between.paths() {
        lines = lines.saturating_add(path.nodes().len());
    }
    lines
}

/// The line of the n-th block that is listed with a net, or of its n-th node, from the net's first
/// line on.
pub(crate) fn item_line(net_line: usize, number: usize) -> usize {
    net_line.saturating_add(2).saturating_add(number)
}

/// The index of a node among those of the net's paths, where it comes right after the other one, if
/// one is given.
pub(crate) fn node_index(between: &LaidNet, after: Option<Node>, node: Node) -> Option<usize> {
    let mut index = 0_usize;
    for path in between.paths() {
        if let Some(place) = place_in(path.nodes(), after, node) {
            return Some(index.saturating_add(place));
        }
        index = index.saturating_add(path.nodes().len());
    }
    None
}

/// The index of a node in a path, where it comes right after the other one, if one is given.
fn place_in(path: &[Node], after: Option<Node>, node: Node) -> Option<usize> {
    let mut before = None;
    for (place, at) in path.iter().enumerate() {
        if *at == node && (after.is_none() || after == before) {
            return Some(place);
        }
        before = Some(*at);
    }
    None
}
